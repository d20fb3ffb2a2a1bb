//! Pages of trees of all four kinds: what the bytes of a page say.
#![tactic(auto)]

mod cells;
mod checking;
mod header;
mod items;
mod page;

pub use items::{Between, Key, Kind, Local, Row};
pub use page::{TreePage, a_front_says_nothing, a_page_says_one_thing};
