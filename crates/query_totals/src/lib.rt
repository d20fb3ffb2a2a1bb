//! Aggregates of rows that come one by one.
#![tactic(auto)]

mod rows;
mod tally;

pub use rows::{add_row, are_totals, no_rows, totals};
pub use tally::Tally;
