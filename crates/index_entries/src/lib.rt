//! An index is kept equal to its table: the entries of rows that come to the table, of rows that go, and of rows that take others' places.
#![tactic(auto)]

mod adding;
mod alone;
mod columns;
mod keeping;
mod laws;
mod others;
mod places;
mod replacements;
mod taking;

pub use alone::{add_alone, replace_alone};
pub use columns::{collations_of, key_of};
pub use keeping::{add_row, take_entries, take_row};
pub use laws::{entries_follow_rows, entries_have_keys};
pub use others::is_alone;
pub use replacements::{replace_entries, replace_row};
