//! Checkpoints: the log's frames copied back into the database file, and the log begun anew or cut to nothing.
#![tactic(auto)]

mod checkpoints;

pub use checkpoints::{Counts, passive, restart, truncate};
