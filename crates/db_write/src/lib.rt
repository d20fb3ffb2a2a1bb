//! The rows of a table and the entries of its indexes, changed together among all trees of a file.
#![tactic(auto)]

mod alone;
mod deleting;
mod dropping;
mod entries;
mod inserting;
mod making;
mod reading;
mod rising;
mod row_entries;
mod updating;

pub use deleting::{delete_rows, take_row};
pub use dropping::{drop_trees, free_index};
pub use inserting::{insert_row, insert_rows};
pub use making::add_index;
pub use reading::row_at;
pub use updating::{turn_row, update_rows};
