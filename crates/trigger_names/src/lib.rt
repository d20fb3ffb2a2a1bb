//! The names of a change of rows, looked up as it stands in a statement or in a trigger's program.
#![tactic(auto)]

mod aims;
mod changes;
mod giving;
mod places;
mod programs;
mod setting;

pub use aims::{event_in, target_of};
pub use changes::{BoundChange, bind_change};
pub use giving::BoundRows;
pub use programs::{outer_scope, programs_see_rows};
