//! Statements in which parameters are values.
#![tactic(auto)]

mod changes;
mod expressions;
mod greatest;
mod laws;
mod parameters;
mod queries;
mod statements;

pub use greatest::parameter_count;
pub use laws::{parameters_are_decimal, parameters_are_replaced};
pub use statements::bound;
