//! The bytes of a write-ahead log: its header, its frames, their sums, and which frames count. All numbers are big-endian.
//!
//! | offset in the log | size | meaning |
//! |---|---|---|
//! | 0 | 4 | magic: 0x377f0683 if the sums take big-endian words, 0x377f0682 if little-endian ones |
//! | 4 | 4 | format 3007000 |
//! | 8 | 4 | page size |
//! | 12 | 4 | sequence: how often the log was begun anew |
//! | 16 | 8 | two salts |
//! | 24 | 8 | two sums over the bytes before them |
//! | 32 | 24 + page size for each | the frames |
//!
//! | offset in a frame | size | meaning |
//! |---|---|---|
//! | 0 | 4 | page number |
//! | 4 | 4 | size of the database in pages after a commit, 0 in other frames |
//! | 8 | 8 | the salts of the log's header |
//! | 16 | 8 | two sums: those before it, carried over its first 8 bytes and its page |
//! | 24 | page size | the page |
#![tactic(auto)]

mod appending;
mod frame;
mod log_header;
mod progress;
mod scanning;
mod sums;

pub use appending::{accepted_frames_stay, written_frames_are_accepted};
pub use frame::FrameHeader;
pub use log_header::{LogHeader, Salts};
pub use progress::Scan;
pub use scanning::scan;
pub use sums::{Sum, WordOrder};
