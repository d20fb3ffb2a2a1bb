//! The rows that an INSERT gives.

ghost use Rattle.std.specs.Prelude.{◌≡◌, ◌==◌, [], false, length, map, not, IfErr, IfOk, IsTrue, List};
ghost use Rattle.std.specs.List.{list_any};
ghost use Rattle.sqlval.specs.Faults.{IsNotDiskFault};
ghost use Rattle.sqlval.specs.Refusals.{all_answers};
ghost use Rattle.pages.specs.Calls.{Stays};
ghost use Rattle.sql_syntax.specs.declared.change.InsertSource.TheVariants as source;
ghost use Rattle.catalog.specs.Database.{Database};
ghost use Rattle.catalog.specs.Listed.{listed_in};
ghost use Rattle.sql_syntax.specs.declared.query.Query.{Query as Asked};
ghost use Rattle.query_names.specs.Checked.{known_all};
ghost use Rattle.query_names.specs.Expressions.{resolve};
ghost use Rattle.query_names.specs.Named.{NamesBy};
ghost use Rattle.query_names.specs.Readings.{env_of, values};
ghost use Rattle.query_terms.specs.Outcome.{AnswersBy};
ghost use Rattle.query_bind.specs.Named.{ArePlaced};
ghost use Rattle.query_answer.specs.Answers.{HaveWidth};
ghost use Rattle.row_scan.specs.Rows.{values_of};
ghost use Rattle.executor.specs.Reading.{AnswersRead, Asks};
ghost use Rattle.db_pages.specs.Stored.{Stores};
ghost use Rattle.executor.specs.Works.{given_on};

use crate::reading::bound_rows;
use catalog::Catalog;
use pages::Pages;
use query_bind::{BoundReading, bind_reading};
use query_names::bind_term;
use query_terms::{Env, Term, evaluate};
use row_scan::Rows;
use smallvec::SmallVec;
use sql_syntax::{Expr, InsertSource, Query};
use sqlval::{Fault, Many, Misuse, R, Row};
use std::alloc::Global;

/// Looks up the names of a row of VALUES, whose expressions see no source. (What `bind_term` refuses.)
fn bind_row(alloc: Global, row: &[Expr]) -> R<Many<Term>>
    ensures { NamesBy (λ terms. terms) (known_all (map (resolve false []) row.now)) result }
{
    let mut terms = Many::new(alloc);
    'trees: for tree in row {
        let term = bind_term(alloc, false, &[], tree)?;
        terms.push(term)?;
    }
    Ok(terms)
}

/// Looks up the names of the rows of VALUES. (What `bind_row` refuses.)
pub(crate) fn bind_rows(alloc: Global, rows: &[Many<Expr>]) -> R<Many<Many<Term>>>
    ensures { NamesBy (λ found. found) (known_all
        (map (λ row. known_all (map (resolve false []) row)) rows.now)) result }
{
    let mut found = Many::new(alloc);
    'rows: for row in rows {
        let terms = bind_row(alloc, row.as_slice())?;
        found.push(terms)?;
    }
    Ok(found)
}

/// The values of a row's terms, from left to right. (What `evaluate` refuses.)
fn row_values(alloc: Global, terms: &[Term]) -> R<Row>
    ensures { AnswersBy (λ row. row.items) (values (env_of []) terms.now) result }
{
    let env = Env {
        sources: &[],
        picked: &[],
        group: &[],
        keys: &[],
    };
    let mut row = SmallVec::new(alloc);
    'terms: for term in terms {
        row.push(evaluate(alloc, term, env)?.into_value(alloc)?)?;
    }
    Ok(row)
}

/// The values of each row's terms. (What `row_values` refuses.)
fn evaluated_rows(alloc: Global, rows: &[Many<Term>]) -> R<Rows>
    ensures { AnswersBy (λ found. map values_of found.items)
        (all_answers (map (values (env_of [])) rows.now)) result }
{
    let mut found = Vec::new(alloc);
    'rows: for terms in rows {
        found.push(row_values(alloc, terms.as_slice())?)?;
    }
    Ok(found)
}

/// Whether a row has another number of values than `count`.
pub(crate) fn has_other_count(rows: &[Many<Expr>], count: usize) -> bool
    ensures { result ≡ list_any (λ row. not (count == length row)) rows.now }
{
    rows.iter().any(|row| count != row.len())
}

/// The rows of VALUES, of which each must have `count` values: the names of all are looked up before the first is evaluated.
/// (`Misuse`, and what `bind_rows` and `evaluated_rows` refuse.)
fn written_rows(alloc: Global, rows: &[Many<Expr>], count: usize) -> R<Rows>
    ensures given { (db : Database)
        → AnswersRead (λ found. map values_of found.items) (given_on db count (source.Rows rows.now)) result }
    ensures wide { IfOk result (λ found. HaveWidth count (map values_of found.items)) }
    ensures not_disk { IfErr result (λ fault. IsNotDiskFault fault) }
{
    if has_other_count(rows, count) {
        return Err(Fault::Misuse(Misuse::Count));
    }
    let terms = bind_rows(alloc, rows)?;
    evaluated_rows(alloc, terms.as_slice())
}

/// The rows of a query whose names are looked up, which must have `count` results. (`Misuse`, and what `bound_rows` refuses.)
fn counted_rows<P: Pages>(
    alloc: Global,
    pages: &mut P,
    catalog: &Catalog,
    bound: &BoundReading,
    count: usize,
) -> R<Rows>
    ensures given { (db : Database) (query : Asked)
        → IsTrue (P.Pages.tells (P.Pages.below pages.old))
        → Stores (P.Pages.map pages.old) (P.Pages.limits (P.Pages.below pages.old)).page
        (listed_in catalog.now) db
        → ArePlaced (listed_in catalog.now) bound.now.reading.sources bound.now.origins
        → Asks db query bound.now.reading → AnswersRead (λ found. map values_of found.items)
        (given_on db count (source.Query query)) result }
    ensures wide { IfOk result (λ found. HaveWidth count (map values_of found.items)) }
    ensures stays { Stays P.Pages.below P.Pages.map P.Pages.count P.Pages.failures result pages.old pages.new }
{
    if bound.reading.results.len() != count {
        return Err(Fault::Misuse(Misuse::Count));
    }
    bound_rows(alloc, pages, catalog, bound)
}

/// The rows of a query, which must have `count` results. (What `bind_reading` and `counted_rows` refuse.)
fn queried_rows<P: Pages>(
    alloc: Global,
    pages: &mut P,
    catalog: &Catalog,
    query: &Query,
    count: usize,
) -> R<Rows>
    ensures given { (db : Database) → IsTrue (P.Pages.tells (P.Pages.below pages.old))
        → Stores (P.Pages.map pages.old) (P.Pages.limits (P.Pages.below pages.old)).page
        (listed_in catalog.now) db
        → AnswersRead (λ found. map values_of found.items) (given_on db count (source.Query query.now)) result }
    ensures wide { IfOk result (λ found. HaveWidth count (map values_of found.items)) }
    ensures stays { Stays P.Pages.below P.Pages.map P.Pages.count P.Pages.failures result pages.old pages.new }
{
    let bound = bind_reading(alloc, catalog, query)?;
    counted_rows(alloc, pages, catalog, &bound, count)
}

/// The rows that an INSERT gives, each of `count` values. (What `written_rows` and `queried_rows` refuse.)
pub fn given_rows<P: Pages>(
    alloc: Global,
    pages: &mut P,
    catalog: &Catalog,
    source: &InsertSource,
    count: usize,
) -> R<Rows>
    ensures given { (db : Database) → IsTrue (P.Pages.tells (P.Pages.below pages.old))
        → Stores (P.Pages.map pages.old) (P.Pages.limits (P.Pages.below pages.old)).page
        (listed_in catalog.now) db
        → AnswersRead (λ found. map values_of found.items) (given_on db count source.now) result }
    ensures wide { IfOk result (λ found. HaveWidth count (map values_of found.items)) }
    ensures stays { Stays P.Pages.below P.Pages.map P.Pages.count P.Pages.failures result pages.old pages.new }
{
    match source {
        InsertSource::Rows(rows) => written_rows(alloc, rows.as_slice(), count),
        InsertSource::Query(query) => queried_rows(alloc, pages, catalog, query, count),
    }
}
