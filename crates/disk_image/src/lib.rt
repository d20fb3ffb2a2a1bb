//! A disk over the bytes of a file in memory, which notes each change for the caller to carry out on a file.
#![tactic(auto)]

mod image;
mod image_disk;
mod journal;

pub use image::{File, Image, each_change_leads_on};
pub use image_disk::ImageDisk;
pub use journal::Journal;
