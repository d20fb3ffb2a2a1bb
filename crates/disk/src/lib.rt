//! A file that may fail and crash: its calls, what a crash may leave of it, and a file in memory.
#![tactic(auto)]

mod change;
mod changed;
mod crashing;
mod device;
mod memory;
mod schedule;
mod versions;

pub use crashing::every_left_file_is_picked;
pub use device::Disk;
pub use memory::MemDisk;
