//! Expressions of SQL, and the words, names and literals that every rule of the grammar has.
#![tactic(auto)]

mod following;
mod forms;
mod laws;
mod levels;
mod literals;
mod naming;
mod patterns;
mod refusal;
mod token;
mod words;

pub use laws::{exact_parts, exact_reading, one_meaning, one_tree};
pub use levels::{enclosed, expression, expressions, maybe_after, row};
pub use literals::{blob_of, name_of, text_of};
pub use naming::{maybe_name, maybe_name_row, name, name_after, name_row, names};
pub use refusal::{Read, Refusal, beside, unexpected, within};
pub use token::{Rest, SourceTokens, TokenAt, all, spelling};
pub use words::{after_comma, after_paren, after_word, integer, mark, optional, word};
