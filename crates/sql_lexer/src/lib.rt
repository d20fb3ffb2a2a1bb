//! Tokens of SQL, with where they stand.
#![tactic(auto)]

mod class;
mod gap;
mod keyword;
mod laws;
mod spelling;
mod token;
mod tokenizing;

pub use keyword::Keyword;
pub use laws::{cut_in_one_way, part_is_cut};
pub use token::{Kind, Token};
pub use tokenizing::tokens;
