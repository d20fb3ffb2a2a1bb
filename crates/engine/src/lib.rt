//! The engine: creates and opens databases, executes statements, and runs lines of text.
#![tactic(auto)]

mod converting;
mod creating;
mod laws;
mod lines;
mod literals;
mod opening;
mod output;
mod prepared;
mod refusals;
mod serving;

pub use converting::convert;
pub use creating::{create, created_files_hold_nothing};
pub use laws::{
    converting_keeps, crash_keeps_commits, crash_keeps_prepared, crash_keeps_runs, creating_keeps,
    failed_files_hold, files_hold_one_database, held_earlier, opening_keeps,
    represented_files_hold,
};
pub use opening::Engine;
pub use output::put_reply;
pub use prepared::Prepared;
pub use row_scan::Rows;
pub use wal::Refused;
pub use wal_frame::Salts;
