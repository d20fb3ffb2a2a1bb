//! The pages of a database file that isn't in WAL mode, as they are once it is.
#![tactic(auto)]

mod file_pages;
mod front;
mod versions;
mod writing;

pub use file_pages::FilePages;
pub use front::older_front;
pub use writing::write_versions;
