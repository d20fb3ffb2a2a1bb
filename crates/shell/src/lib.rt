//! What a shell for people needs: where a statement ends, which command a line is, and the text of rows, names and refusals.
#![tactic(auto)]

mod boxes;
mod bytes;
mod cells;
mod commands;
mod fields;
mod inserts;
mod names;
mod output;
mod pairs;
mod pieces;
mod places;
mod refusals;
mod statements;
mod words;

pub use bytes::is_space;
pub use commands::{Command, Depth, Mistake, command_of, split_command};
pub use inserts::put_insert;
pub use names::{is_plain, put_name};
pub use output::{Mode, put_rows};
pub use places::put_place;
pub use refusals::put_error;
pub use statements::{is_blank, statement_end};
