//! The pages of the database: those of a snapshot, and those that a transaction has changed.
#![tactic(auto)]

mod heading;
mod laws;
mod marks;
mod parts;
mod pieces;
mod pruning;
mod reading;
mod restarting;
mod saved;
mod sights;
mod sizes;
mod writer;

pub use laws::{
    marks_are_sound, pages_are_mapped, puts_change_maps, readers_are_told, soundness_is_tested,
    writers_are_told,
};
pub use reading::header_of;
pub use sights::{Reading, Viewing, Writing};
pub use writer::Writer;
