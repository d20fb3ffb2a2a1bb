//! Groups of rows that come one by one.
#![tactic(auto)]

mod kept;
mod results;
mod taking;

pub use kept::{GroupTallies, add_row};
pub use results::{are_of_group, group_values, groups_are_taken};
pub use taking::take_row;
