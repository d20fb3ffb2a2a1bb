//! A message for each refusal: one sentence of what it knows. The sentences stand here alone; docs/ERRORS.md lists them.
#![tactic(auto)]

mod message;
mod sentences;

pub use message::put_message;
