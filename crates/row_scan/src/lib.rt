//! The rows of a table's tree: as a query's source has them, and their check.
#![tactic(auto)]

mod rows;
mod sources;
mod tree;

pub use rows::Rows;
pub use sources::{
    next_shown_rows, next_source_rows, rows_are_held, shown_rows, source_rows, source_rows_at,
};
pub use tree::check_tree_rows;
