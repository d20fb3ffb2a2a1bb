//! Queries of a program, and the rows that an INSERT gives.

ghost use Rattle.std.specs.Prelude.{◌≡◌, length, map, true, ℕ, IfOk, IsTrue};
ghost use Rattle.std.specs.List.{AllByRecursion};
ghost use Rattle.sqlval.specs.Faults.{IsOrMemory};
ghost use Rattle.pages.specs.Calls.{Stays};
ghost use Rattle.catalog.specs.Database.{Database};
ghost use Rattle.catalog.specs.Listed.{listed_in};
ghost use Rattle.query_names.specs.Views.{answer_of};
ghost use Rattle.query_names.specs.declared.reading.Condition.TheVariants.{Always};
ghost use Rattle.query_answer.specs.Answers.{HaveWidth};
ghost use Rattle.row_scan.specs.Rows.{values_of};
ghost use Rattle.row_scan.specs.Trees.{AnswersOrFails};
ghost use Rattle.row_change.specs.Changes.{Outer};
ghost use Rattle.trigger.specs.Effects as meant;
ghost use Rattle.trigger_names.specs.Resolved.{bound_given, gives_width};
ghost use Rattle.db_pages.specs.Stored.{Stores};
ghost use Rattle.executor_programs.specs.Outer.{Shows};
ghost use Rattle.executor_programs.specs.Querying.{AreKnownSources, IsAfter, IsBeside, KnowsGiven, LoadsEach};

use crate::outer::{OuterRows, outer_copies, written_rows};
use catalog::Catalog;
use executor::all_rows;
use pages::Pages;
use query_answer::{answer, rows_are_loaded_beside_conditions};
use query_names::{Condition, Reading, ScopeSource};
use query_terms::SourceRow;
use row_scan::Rows;
use sqlval::{Many, Name, R};
use std::alloc::Global;
use trigger_names::BoundRows;

/// NEW and OLD as the first sources of a query. (`Memory` alone.)
fn outer_sources(alloc: Global, scope: &[ScopeSource]) -> R<Vec<(Name, Condition)>>
    ensures { IsOrMemory (λ all. (length all.items ≡ length scope.now)
        × AllByRecursion (λ s. s.1 ≡ Always) all.items) result }
{
    let mut all = Vec::new(alloc);
    'outer: for one in scope {
        all.push((one.name.copy(alloc)?, Condition::Always))?;
    }
    Ok(all)
}

/// The sources of a query after those of NEW and OLD. (`Memory` alone.)
fn sources_beside(
    alloc: Global,
    outer: OuterRows<'_>,
    sources: Many<(Name, Condition)>,
) -> R<Many<(Name, Condition)>>
    ensures { IsOrMemory (IsAfter (length outer.entry.scope.now) sources) result }
{
    let mut all = outer_sources(alloc, outer.scope)?;
    let mut own = sources.into_vec();
    all.append(&mut own)?;
    Ok(Many::from_vec(all))
}

/// A query whose sources come after those of NEW and OLD. (`Memory` alone.)
fn reading_beside(alloc: Global, outer: OuterRows<'_>, reading: Reading) -> R<Reading>
    ensures { IsOrMemory (IsBeside (length outer.entry.scope.now) reading) result }
{
    let Reading {
        sources,
        filter,
        is_grouped,
        keys,
        results,
        columns,
        is_open,
        order,
        distinct,
        limit,
        offset,
    } = reading;
    let sources = sources_beside(alloc, outer, sources)?;
    Ok(Reading {
        sources,
        filter,
        is_grouped,
        keys,
        results,
        columns,
        is_open,
        order,
        distinct,
        limit,
        offset,
    })
}

/// All rows of each of these sources, after these lists. (What `all_rows` refuses.)
fn load_each<P: Pages>(
    alloc: Global,
    pages: &mut P,
    catalog: &Catalog,
    sources: &[(Name, Condition)],
    lists: &mut Vec<Many<SourceRow>>,
) -> R<()>
    ensures loaded { (db : Database) → IsTrue (P.Pages.tells (P.Pages.below pages.old))
        → Stores (P.Pages.map pages.old) (P.Pages.limits (P.Pages.below pages.old)).page
        (listed_in catalog.now) db → AreKnownSources db sources.now
        → LoadsEach db sources.now lists.old.items lists.new.items result }
    ensures stays { Stays P.Pages.below P.Pages.map P.Pages.count P.Pages.failures result pages.old pages.new }
{
    let mut left = sources;
    'sources: while let Some(((name, condition), rest)) = left.split_first() {
        lists.push(all_rows(alloc, pages, catalog, name)?)?;
        left = rest;
    }
    Ok(())
}

/// The rows of a query beside NEW and OLD, over all rows of its sources. (What `all_rows` and `answer` refuse.)
pub fn queried_rows<P: Pages>(
    alloc: Global,
    pages: &mut P,
    catalog: &Catalog,
    outer: OuterRows<'_>,
    reading: Reading,
) -> R<Rows>
    ensures answered { (db : Database) (seen : Outer) → IsTrue (P.Pages.tells (P.Pages.below pages.old))
        → Stores (P.Pages.map pages.old) (P.Pages.limits (P.Pages.below pages.old)).page
        (listed_in catalog.now) db → Shows outer.entry seen → AreKnownSources db reading.sources
        → AnswersOrFails (λ rows. map values_of rows.items) (answer_of db seen.rows reading) result }
    ensures wide { IfOk result (λ rows. HaveWidth (length reading.results) (map values_of rows.items)) }
    ensures stays { Stays P.Pages.below P.Pages.map P.Pages.count P.Pages.failures result pages.old pages.new }
{
    rows_are_loaded_beside_conditions();
    let mut lists = outer_copies(alloc, outer.rows)?;
    load_each(
        alloc,
        pages,
        catalog,
        reading.sources.as_slice(),
        &mut lists,
    )?;
    let reading = reading_beside(alloc, outer, reading)?;
    answer(alloc, &reading, outer.rows.len(), &lists)
}

/// The rows that an INSERT gives, all of them before the first is stored. (What `written_rows` and `queried_rows` refuse.)
pub fn given_rows<P: Pages>(
    alloc: Global,
    pages: &mut P,
    catalog: &Catalog,
    outer: OuterRows<'_>,
    rows: BoundRows,
) -> R<Rows>
    ensures given { (db : Database) (seen : Outer) → IsTrue (P.Pages.tells (P.Pages.below pages.old))
        → Stores (P.Pages.map pages.old) (P.Pages.limits (P.Pages.below pages.old)).page
        (listed_in catalog.now) db → Shows outer.entry seen → KnowsGiven db rows
        → AnswersOrFails (λ found. map values_of found.items) (meant.given_rows db seen (bound_given rows)) result }
    ensures wide { (count : ℕ) → gives_width count rows ≡ true → IfOk result (λ found. HaveWidth count (map values_of found.items)) }
    ensures stays { Stays P.Pages.below P.Pages.map P.Pages.count P.Pages.failures result pages.old pages.new }
{
    match rows {
        BoundRows::Rows(rows) => written_rows(alloc, outer, rows.as_slice()),
        BoundRows::Query(reading) => queried_rows(alloc, pages, catalog, outer, reading),
    }
}
