//! The rows that an INSERT gives, by their names.

ghost use Rattle.std.specs.Prelude.{◌≡◌, ◌==◌, Some, false, true, length, map, not, ℕ, ℤ, List, IfErr, IfOk};
ghost use Rattle.std.specs.List.{list_any};
ghost use Rattle.sqlval.specs.Faults.{IsNotDiskFault};
ghost use Rattle.sqlval.specs.declared.value.Value.{Value};
ghost use Rattle.sql_syntax.specs.declared.change.InsertSource.TheVariants as text;
ghost use Rattle.catalog.specs.Database.{Database};
ghost use Rattle.catalog.specs.Listed.{Lists, listed_in};
ghost use Rattle.query_names.specs.Checked.{known_all};
ghost use Rattle.query_names.specs.Expressions.{resolve};
ghost use Rattle.query_names.specs.Named.{NamesBy};
ghost use Rattle.query_terms.specs.Values.{Row};
ghost use Rattle.query_bind.specs.Named.{AreOuter};
ghost use Rattle.row_change.specs.Changes.{resolve_given};
ghost use Rattle.trigger_names.specs.Resolved.{bound_given, gives_width};

use catalog::Catalog;
use query_bind::bind_reading_beside;
use query_names::{Reading, ScopeSource, bind_term};
use query_terms::Term;
use sql_syntax::{Expr, InsertSource, Query};
use sqlval::{Fault, Many, Misuse, R};
use std::alloc::Global;

/// The rows that an INSERT gives, looked up.
#[derive(Drop)]
pub enum BoundRows {
    Rows(Many<Many<Term>>),
    Query(Reading),
}

/// Looks up the names of a row of VALUES. (What `bind_term` refuses.)
fn bind_row(alloc: Global, scope: &[ScopeSource], row: &[Expr]) -> R<Many<Term>>
    ensures { NamesBy (λ terms. terms) (known_all (map (resolve false scope.now) row.now)) result }
{
    let mut terms = Many::new(alloc);
    'trees: for tree in row {
        let term = bind_term(alloc, false, scope, tree)?;
        terms.push(term)?;
    }
    Ok(terms)
}

/// Looks up the names of the rows of VALUES. (What `bind_row` refuses.)
fn bind_rows(alloc: Global, scope: &[ScopeSource], rows: &[Many<Expr>]) -> R<Many<Many<Term>>>
    ensures { NamesBy (λ found. found) (known_all
        (map (λ row. known_all (map (resolve false scope.now) row)) rows.now)) result }
{
    let mut found = Many::new(alloc);
    'rows: for row in rows {
        let terms = bind_row(alloc, scope, row.as_slice())?;
        found.push(terms)?;
    }
    Ok(found)
}

/// Whether a row has another number of values than `count`.
fn has_other_count(rows: &[Many<Expr>], count: usize) -> bool
    ensures { result ≡ list_any (λ row. not (count == length row)) rows.now }
{
    rows.iter().any(|row| count != row.len())
}

/// Looks up the names of rows of VALUES, each of `count` values. (`Misuse`, and what `bind_rows` refuses.)
fn bind_values_given(
    alloc: Global,
    outer: &[ScopeSource],
    rows: &[Many<Expr>],
    count: usize,
) -> R<BoundRows>
    ensures named { (db : Database) (held : List Row) → NamesBy bound_given
        (resolve_given db (record { scope = outer.now; rows = held }) (Some count) (text.Rows rows.now)) result }
    ensures counted { list_any (λ row. not (count == length row)) rows.now ≡ true
        → IfErr result (λ fault. fault ≡ Fault.Misuse Misuse.Count) }
    ensures wide { IfOk result (λ rows. gives_width count rows ≡ true) }
    ensures not_disk { IfErr result IsNotDiskFault }
{
    if has_other_count(rows, count) {
        return Err(Fault::Misuse(Misuse::Count));
    }
    let terms = bind_rows(alloc, outer, rows)?;
    Ok(BoundRows::Rows(terms))
}

/// Looks up the names of a query, which must have `count` results. (`Misuse`, and what `bind_reading_beside` refuses.)
fn bind_query_given(
    alloc: Global,
    catalog: &Catalog,
    outer: &[ScopeSource],
    query: &Query,
    count: usize,
) -> R<BoundRows>
    ensures named { (rows_at : ℕ → List (ℤ × List Value)) (db : Database) (held : List Row) → AreOuter outer.now
        → Lists rows_at (listed_in catalog.now) db → NamesBy bound_given
        (resolve_given db (record { scope = outer.now; rows = held }) (Some count) (text.Query query.now)) result }
    ensures wide { IfOk result (λ rows. gives_width count rows ≡ true) }
    ensures not_disk { IfErr result IsNotDiskFault }
{
    let bound = bind_reading_beside(alloc, catalog, outer, query)?;
    if bound.reading.results.len() != count {
        return Err(Fault::Misuse(Misuse::Count));
    }
    Ok(BoundRows::Query(bound.reading))
}

/// Looks up the names of the rows that an INSERT gives, each of `count` values. (What `bind_values_given` and `bind_query_given` refuse.)
pub fn bind_given(
    alloc: Global,
    catalog: &Catalog,
    outer: &[ScopeSource],
    source: &InsertSource,
    count: usize,
) -> R<BoundRows>
    ensures named { (rows_at : ℕ → List (ℤ × List Value)) (db : Database) (held : List Row) → AreOuter outer.now
        → Lists rows_at (listed_in catalog.now) db → NamesBy bound_given
        (resolve_given db (record { scope = outer.now; rows = held }) (Some count) source.now) result }
    ensures wide { IfOk result (λ rows. gives_width count rows ≡ true) }
    ensures not_disk { IfErr result IsNotDiskFault }
{
    match source {
        InsertSource::Rows(rows) => bind_values_given(alloc, outer, rows.as_slice(), count),
        InsertSource::Query(query) => bind_query_given(alloc, catalog, outer, query, count),
    }
}
