//! The names of whole queries, of CREATE INDEX and of CREATE TRIGGER, looked up among the tables and views of a catalog.
#![tactic(auto)]

mod assigning;
mod beside;
mod changing;
mod clauses;
mod copying;
mod filtering;
mod indexed;
mod marking;
mod parts;
mod querying;
mod results;
mod sources;
mod triggers;
mod views;

pub use assigning::bind_sets;
pub use changing::{bind_places, bind_source, bind_values};
pub use clauses::bind_filter;
pub use filtering::bind_where;
pub use indexed::{BoundIndex, bind_index, indexes_are_created_as_defined};
pub use querying::{BoundReading, bind_reading, bind_reading_beside};
pub use triggers::{bind_trigger, fit_target, triggers_are_created_as_defined};
