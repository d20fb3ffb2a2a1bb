//! WHERE, prepared once for all rows of a query.
#![tactic(auto)]

mod against;
mod filter;
mod literals;
mod members;
mod sides;

pub use filter::Filter;
