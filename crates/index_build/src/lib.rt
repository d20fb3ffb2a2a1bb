//! The entries of an index: those of its table's rows, in the index's order, put into a new tree and compared with one.
#![tactic(auto)]

mod apart;
mod checking;
mod clashes;
mod entries;
mod laws;
mod making;

pub use apart::keys_are_apart;
pub use checking::check_entries;
pub use clashes::has_clash;
pub use entries::sorted_entries;
pub use laws::rows_clash_alike;
pub use making::{make_index, make_unique_index};
