//! A leaf of a table whose rows are whole: its bytes, and its writing.
//!
//! The page's header begins at `start`: at 100 on page 1, after the database header, and at 0 on other pages.
//!
//! | offset | size | meaning |
//! |---|---|---|
//! | `start` | 1 | type 13: a leaf of a table |
//! | `start` + 1 | 2 | first freeblock; 0 when written |
//! | `start` + 3 | 2 | number of cells |
//! | `start` + 5 | 2 | where the cells begin |
//! | `start` + 7 | 1 | fragmented bytes; 0 when written |
//! | `start` + 8 | 2 for each cell | pointers: the offset of each cell |
//! | as a pointer says | 1 to 9 | the cell: the length of its payload, a varint |
//! | after that | 1 to 9 | its rowid, a varint |
//! | after that | as its length says | its payload: a record of at most the page size less 35 bytes |
#![tactic(auto)]

mod cell;
mod writing;

pub use cell::Cell;
pub use writing::build;
