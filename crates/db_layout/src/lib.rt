//! Which trees use the pages of a file, and which pages are free.
#![tactic(auto)]

mod trees;

pub use trees::{index_trees_stand, table_trees_stand, trees_give_way};
