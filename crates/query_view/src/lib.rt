//! What a query gives of a view's rows, which come part after part.
#![tactic(auto)]

mod seen;

pub use seen::{SeenRows, finish_seen, see_rows};
