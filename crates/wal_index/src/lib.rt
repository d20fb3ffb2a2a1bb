//! Which frames of a log have a page, and up to which frame each connection sees.
#![tactic(auto)]

mod index;
mod marks;

pub use index::Index;
pub use marks::Marks;
