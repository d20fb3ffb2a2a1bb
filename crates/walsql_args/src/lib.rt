//! The settings of the program `walsql`, as its arguments give them.
#![tactic(auto)]

mod arguments;

pub use arguments::{ArgsError, StartOptions, settings};
