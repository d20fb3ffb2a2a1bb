//! What a statement makes of a database over pages, with the triggers that it sets off.
#![tactic(auto)]

mod acts;
mod changes;
mod choosing;
mod outer;
mod querying;
mod rows;
mod running;
mod seeking;
mod seen;
mod values;
mod work;

pub use changes::{Write, change, change_rows, write_of};
