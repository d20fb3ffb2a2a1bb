//! A log on a disk, beside the database file: snapshots of the two, and commits.
#![tactic(auto)]

mod committing;
mod copying;
mod indexed;
mod laws;
mod log;
mod opening;
mod pages;
mod restarting;
mod state;

pub use laws::{commit_changes, commits_follow, page_is_one, pages_are_of_frames, snapshots_stay};
pub use log::{Log, Refused, Snapshot, Synced};
pub use opening::sync_both;
pub use pages::PageImage;
