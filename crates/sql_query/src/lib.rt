//! Queries and changes of rows, from tokens to their trees.
#![tactic(auto)]

mod changes;
mod joins;
mod laws;
mod queries;

pub use changes::change;
pub use laws::{changes_are_exact, queries_are_exact};
pub use queries::{query, selection};
