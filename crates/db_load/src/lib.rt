//! Reads a database's tables, indexes, views and triggers, and checks that its pages are theirs.
#![tactic(auto)]

mod adding;
mod automatic;
mod first;
mod index_rows;
mod loading;
mod schema;
mod tables;
mod tree;
mod triggers;
mod views;
mod whole;

pub use loading::load;
pub use tree::load_schema;
