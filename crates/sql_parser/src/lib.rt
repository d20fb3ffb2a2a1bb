//! Statements of SQL, from their texts to their trees.
#![tactic(auto)]

mod laws;
mod objects;
mod parsing;
mod statements;
mod triggers;

pub use laws::{kept_text_is_the_same, objects_are_exact, one_tree};
pub use parsing::{parse, release};
pub use sql_create::tables_are_exact;
pub use sql_query::{changes_are_exact, queries_are_exact};
