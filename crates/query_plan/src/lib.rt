//! Which rows of a source a condition needs.
#![tactic(auto)]

mod calm;
mod keys;
mod ranges;
mod rowids;
mod searching;
mod seeking;

ghost use Rattle.query_plan.specs.Searching.{OtherRowsFail};

pub use calm::is_calm;
pub use ranges::{Bound, Range};
pub use searching::{Search, search_for};

/// A condition that seeks something of a source isn't true beside a row of it that the search doesn't find, and isn't refused.
pub fn other_rows_fail()
    ensures { OtherRowsFail }
{}
