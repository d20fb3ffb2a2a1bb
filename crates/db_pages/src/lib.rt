//! Which database pages hold whose tables, indexes, views and triggers are listed.
#![tactic(auto)]

mod laws;

pub use laws::{pages_store_one_database, standing_pages_are_stored, stored_pages_stand};
