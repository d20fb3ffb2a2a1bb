//! A disk over a file of the operating system.
#![tactic(auto)]

mod file_disk;

pub use file_disk::{FileDisk, file_len, sync_folder};
