//! Numbered pages: the calls that read and write them, and pages in memory.
#![tactic(auto)]

mod calls;
mod laws;
mod memory;

pub use calls::{Pages, WritePages};
pub use laws::{moves_follow, moves_stand_beside, pages_are_counted};
pub use memory::MemPages;
