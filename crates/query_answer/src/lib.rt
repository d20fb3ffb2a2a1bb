//! Answers of bound queries over the rows of their sources.
#![tactic(auto)]

mod answering;
mod arguments;
mod distinct;
mod grouping;
mod keys;
mod lookups;
mod making;
mod nesting;
mod parts;
mod results;
mod searches;
mod shown;
mod sorting;
mod tallied;

ghost use Rattle.query_answer.specs.Answers.{LoadsBeside};
ghost use Rattle.query_answer.specs.Searches.{SearchesAsScans};

pub use answering::{answer, finish};
pub use making::make_rows;
pub use parts::{
    GivenRows, give_rows, gives_in_order, is_row_by_row, parts_follow_one_another,
    rows_are_given_in_parts,
};
use query_plan::other_rows_fail;
pub use searches::search_at;
pub use shown::shown_places;

/// Lists of rows that are loaded by the sources' names stand beside the sources' conditions.
pub fn rows_are_loaded_beside_conditions()
    ensures { LoadsBeside }
{}

/// A query gives the same, or the same refusal, without the rows of a source that its search doesn't find.
pub fn searches_as_scans()
    ensures { SearchesAsScans }
{
    other_rows_fail();
}
