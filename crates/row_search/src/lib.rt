//! The rows of a table that a search finds, by its rowids or by one of its indexes, and those that a condition needs.
#![tactic(auto)]

mod between;
mod entries;
mod found;
mod ranges;
mod rows;
mod searching;
mod seeking;

pub use found::{found_rows, needed_rows};
