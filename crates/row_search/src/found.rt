//! The rows of a table that a search finds, and those that a condition needs.

ghost use Rattle.std.specs.Prelude.{IsTrue, Some, ℕ};
ghost use Rattle.pages.specs.Calls.{Stays};
ghost use Rattle.query_plan.specs.Searching.{IsSought};
ghost use Rattle.row_search.specs.Found.{FindsNeeded, FindsSought};
ghost use Rattle.query_terms.specs.Terms.{Term as Asked};

use crate::between::rows_between;
use crate::searching::{rows_by_key, rows_in_range};
use catalog::Index;
use pages::Pages;
use query_names::BoundSource;
use query_plan::{Search, search_for};
use query_terms::{SourceRow, Term};
use row_scan::{source_rows, source_rows_at};
use sqlval::{Many, R};
use std::alloc::Global;

/// The rows of a table that a search finds which some condition makes of it, by rising rowid. (What `source_rows_at`, `rows_between`,
/// `rows_by_key`, `rows_in_range` and `source_rows` refuse.)
pub fn found_rows<P: Pages>(
    alloc: Global,
    pages: &mut P,
    table: BoundSource,
    indexes: &[Index],
    search: Search,
) -> R<Many<SourceRow>>
    ensures found { (n : ℕ) (condition : Asked) → IsTrue (P.Pages.tells (P.Pages.below pages.old))
        → IsSought indexes.now n condition search
        → FindsSought (P.Pages.map pages.old)
        (P.Pages.limits (P.Pages.below pages.old)).page table indexes.now search result }
    ensures stays { Stays P.Pages.below P.Pages.map P.Pages.count P.Pages.failures result pages.old pages.new }
{
    match search {
        Search::Rowid(rowid) => source_rows_at(alloc, pages, table, rowid),
        Search::Rowids(low, high) => rows_between(alloc, pages, table, low, high),
        Search::Key(place, key) => match indexes.get(place) {
            Some(index) => rows_by_key(alloc, pages, table, index, key),
            None => source_rows(alloc, pages, table),
        },
        Search::Range(place, key, range) => match indexes.get(place) {
            Some(index) => rows_in_range(alloc, pages, table, index, key, &range),
            None => source_rows(alloc, pages, table),
        },
    }
}

/// The rows of a table that what a condition seeks of it finds, or all where it seeks nothing. (What `search_for`, `found_rows` and
/// `source_rows` refuse.)
fn needed_by<P: Pages>(
    alloc: Global,
    pages: &mut P,
    table: BoundSource,
    indexes: &[Index],
    condition: &Term,
) -> R<Many<SourceRow>>
    ensures loaded { IsTrue (P.Pages.tells (P.Pages.below pages.old))
        → FindsNeeded (P.Pages.map pages.old)
        (P.Pages.limits (P.Pages.below pages.old)).page table indexes.now (Some condition.now) result }
    ensures stays { Stays P.Pages.below P.Pages.map P.Pages.count P.Pages.failures result pages.old pages.new }
{
    match search_for(alloc, condition, 0, indexes)? {
        Some(search) => found_rows(alloc, pages, table, indexes, search),
        None => source_rows(alloc, pages, table),
    }
}

/// The rows of a table that a condition needs, by rising rowid: those that what it seeks of the table finds, or all where it seeks nothing
/// or there is none. (What `needed_by` refuses.)
pub fn needed_rows<P: Pages>(
    alloc: Global,
    pages: &mut P,
    table: BoundSource,
    indexes: &[Index],
    condition: &Option<Term>,
) -> R<Many<SourceRow>>
    ensures loaded { IsTrue (P.Pages.tells (P.Pages.below pages.old))
        → FindsNeeded (P.Pages.map pages.old)
        (P.Pages.limits (P.Pages.below pages.old)).page table indexes.now condition.now result }
    ensures stays { Stays P.Pages.below P.Pages.map P.Pages.count P.Pages.failures result pages.old pages.new }
{
    match condition {
        Some(term) => needed_by(alloc, pages, table, indexes, term),
        None => source_rows(alloc, pages, table),
    }
}
