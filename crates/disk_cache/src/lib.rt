//! A disk that keeps in memory what was read of another.
#![tactic(auto)]

mod blocks;
mod cached_disk;

pub use cached_disk::CachedDisk;
