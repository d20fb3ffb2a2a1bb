//! The tree of a table: pages that hold rows by rising rowid, and long payloads on chains of pages. It is a map from rowids to
//! payloads.
#![tactic(auto)]

mod changing;
mod descending;
mod finding;
mod flattening;
mod freeing;
mod growing;
mod inserting;
mod joining;
mod laws;
mod leaf;
mod lowering;
mod reading;
mod rewriting;
mod runs;
mod scanning;
mod way;

pub use changing::{RowChange, change_rows, remove};
pub use finding::{get, last, next_rowid};
pub use freeing::{clear, free_tree, new_tree};
pub use inserting::insert;
pub use laws::{one_table_tree, table_trees_stay};
pub use scanning::{Batch, BatchEntry, BatchRow, Cursor};
