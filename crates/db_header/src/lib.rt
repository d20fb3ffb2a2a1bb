//! The header of a database file: the 100 bytes at the front of its first page. All numbers are big-endian.
//!
//! | offset | size | meaning |
//! |---|---|---|
//! | 0 | 16 | `SQLite format 3` and a zero byte |
//! | 16 | 2 | page size: a power of two from 512 to 65536, or 1 for 65536 |
//! | 18 | 6 | write and read version 2 and 2 (WAL), reserved bytes 0, payload fractions 64, 32, 32 |
//! | 24 | 4 | change counter |
//! | 28 | 4 | number of pages; it counts if it isn't 0 and the numbers at 24 and 92 are equal |
//! | 32 | 8 | first trunk page of the freelist, and its number of pages |
//! | 40 | 8 | schema cookie, and schema format 4 |
//! | 48 | 8 | suggested cache size, and largest root page 0 (no auto-vacuum) |
//! | 56 | 8 | text encoding 1 (UTF-8), and user version |
//! | 64 | 8 | incremental vacuum 0, and application id |
//! | 72 | 20 | zeros |
//! | 92 | 8 | change counter when the number of pages was written, and version of the library that wrote it |
#![tactic(auto)]

mod fields;
mod reading;
mod writing;

pub use fields::Header;
pub use reading::read;
pub use writing::write;
