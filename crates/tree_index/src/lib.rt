//! The tree of an index: pages that hold entries in rising order, on leaves and between them, and long entries on chains of pages. It is a
//! set of entries.
#![tactic(auto)]

mod cells;
mod coming;
mod comparing;
mod filling;
mod flattening;
mod freeing;
mod growing;
mod inserting;
mod joining;
mod laws;
mod lowering;
mod placing;
mod removing;
mod scanning;
mod taking;

pub use cells::most_in;
pub use comparing::{Key, compare_entry, compare_records, order};
pub use filling::fill_tree;
pub use freeing::{clear, free_tree, new_tree};
pub use inserting::{insert, insert_alone, insert_run};
pub use laws::index_trees_stay;
pub use removing::{remove, remove_run};
pub use scanning::Cursor;
