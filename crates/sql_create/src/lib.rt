//! Tables and indexes, from tokens to their trees.
#![tactic(auto)]

mod columns;
mod indexes;
mod laws;
mod tables;

pub use indexes::index;
pub use laws::tables_are_exact;
pub use tables::table;
