//! The check of trees and of the freelist in a file that may be damaged, with a mark for each page.
#![tactic(auto)]

mod branches;
mod bytes;
mod chains;
mod checking;
mod entries;
mod last;
mod leaves;
mod lists;
mod local;
mod marking;
mod ordered;

pub use checking::check_tree;
pub use lists::{are_all_marked, check_freelist};
pub use ordered::check_index_tree;
