//! What is told of a database's schema: the rows of its table, and the columns of a query.
#![tactic(auto)]

mod columns;
mod objects;

pub use columns::column_names;
pub use objects::schema_rows;
