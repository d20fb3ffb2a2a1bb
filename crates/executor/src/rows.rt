//! One row of a stored database's table, without the triggers around it, and all rows of a table or view.

ghost use Rattle.std.specs.Prelude.{◌≡◌, ◌∷◌, [], length, map, option_map, slice_get, slice_set, ℕ, IsTrue, List, None, Some};
ghost use Rattle.sqlval.specs.Faults.{IsOrMemory};
ghost use Rattle.sqlval.specs.declared.value.Value.{Value as Stored};
ghost use Rattle.pages.specs.Calls.{Causes, Stays};
ghost use Rattle.catalog.specs.Rows.{as_row};
ghost use Rattle.catalog.specs.Listed.{listed_in};
ghost use Rattle.query_plan.specs.Searching.{IsSought};
ghost use Rattle.query_terms.specs.Terms.{Const, Term as Asked};
ghost use Rattle.row_change.specs.Agreement.{IsSetFor};
ghost use Rattle.row_change.specs.NewRows.{row_of};
ghost use Rattle.row_scan.specs.Sources.{as_source};
ghost use Rattle.executor.specs.Rows.{FindsAmong, FindsIn, InsertsInto, ReadsAll, SetsIn, StoredStay, TakesFrom, literals};

use crate::reading::{MAX_VIEWS, view_rows};
use catalog::{
    Catalog, Column, Table, TableRow, listed_indexes_are_found, listed_tables_are_found,
    named_databases_are_one, other_rows_are_listed,
};
use pages::{Pages, WritePages};
use query_names::BoundSource;
use query_plan::Search;
use query_terms::{Node, SourceRow, Term};
use row_change::row_copy;
use row_scan::source_rows;
use row_search::found_rows;
use sqlval::{Fault, Many, Name, Object, R, Value};
use std::alloc::Global;

/// Nothing for each of these columns. (`Memory`.)
fn no_places(alloc: Global, columns: &[Column]) -> R<Vec<Option<usize>>>
    ensures { IsOrMemory (λ made. made.items ≡ map (λ column. None) columns.now) result }
{
    let mut made = Vec::with_capacity(alloc, columns.len())?;
    'columns: for _ in columns {
        made.push(None)?;
    }
    Ok(made)
}

/// Puts the place of a value at that of its column, if there is such a column.
fn put_place(made: &mut Vec<Option<usize>>, column: usize, place: usize)
    ensures { made.new.items ≡ slice_set made.old.items column (Some place) }
{
    if column < made.len() {
        made[column] = Some(place);
    }
}

/// For each column of a table the place of the value that is given for it, where there is one: `places` has the place of each value's column, and
/// of two values for one column the last counts. (`Memory`.)
pub fn places_by_column(alloc: Global, table: &Table, places: &[usize]) -> R<Vec<Option<usize>>>
    ensures { IsOrMemory (λ made. (given : List Stored) → length given ≡ length places.now
        → IsSetFor table.now made.items places.now given) result }
{
    let mut made = no_places(alloc, table.columns.as_slice())?;
    'places: for place in 0..places.len() {
        put_place(&mut made, places[place], place);
    }
    Ok(made)
}

/// Inserts a row into a table, with its entries, and answers it. `places` has for each column the place of its value (`places_by_column`). No
/// trigger is run. (What the columns and the table refuse of the row; `Unique` for a rowid that is there, or a key in a UNIQUE index; `TooLong`
/// for an index of more than 999 columns; `Memory`, `Io`, `Full`. Then some pages may have changed.)
pub fn insert_row<P: WritePages>(
    alloc: Global,
    pages: &mut P,
    table: &Table,
    places: &[Option<usize>],
    given: &[Value],
) -> R<TableRow>
    ensures inserted { IsTrue (P.Pages.tells (P.Pages.below pages.old))
        → InsertsInto (P.Pages.map pages.old) (P.Pages.map pages.new)
        (P.Pages.limits (P.Pages.below pages.old)).page
        table.now places.now given.now result }
    ensures kept { P.Pages.below pages.new ≡ P.Pages.below pages.old }
    ensures causes { Causes result (P.Pages.failures pages.old) (P.Pages.failures pages.new)
        (P.Pages.count pages.new ≡ (P.Pages.limits (P.Pages.below pages.new)).most) }
{
    other_rows_are_listed();
    named_databases_are_one();
    listed_indexes_are_found();
    db_write::insert_row(alloc, pages, table, places, given)
}

/// What columns store of values they store as it is.
pub fn stored_values_stay()
    ensures { StoredStay }
{}

/// A value as a literal. (`Memory`.)
fn literal(alloc: Global, value: &Value) -> R<Term>
    ensures { IsOrMemory (λ term. term ≡ Const value.now) result }
{
    let node = Node::Const(value.copy(alloc)?);
    Ok(Term { node })
}

/// Each value as a literal that is set at its place. (`Memory`.)
fn literal_sets(alloc: Global, values: &[Value]) -> R<Vec<(usize, Term)>>
    ensures { IsOrMemory (λ sets. sets.items ≡ literals 0 values.now) result }
{
    let mut sets = Vec::with_capacity(alloc, values.len())?;
    'values: for place in 0..values.len() {
        sets.push((place, literal(alloc, &values[place])?))?;
    }
    Ok(sets)
}

/// Copies of values. (`Memory` alone.)
pub fn value_copies(alloc: Global, values: &[Value]) -> R<Vec<Value>>
    ensures { IsOrMemory (λ copies. copies.items ≡ values.now) result }
{
    let mut copies = Vec::with_capacity(alloc, values.len())?;
    'values: for value in values {
        copies.push(value.copy(alloc)?)?;
    }
    Ok(copies)
}

/// A row of a table as a source's. (`Memory` alone.)
pub fn source_row(alloc: Global, row: &TableRow) -> R<SourceRow>
    ensures { IsOrMemory (λ made. made ≡ as_source (row_of row.now)) result }
{
    let values = Many::from_vec(value_copies(alloc, &row.values)?);
    Ok(SourceRow::made(Value::Int(row.rowid), values))
}

/// A row of a table as the only one of a source. (`Memory`.)
fn only_row(alloc: Global, row: &TableRow) -> R<Many<SourceRow>>
    ensures { IsOrMemory (λ rows. rows ≡ as_source (row_of row.now) ∷ []) result }
{
    let mut rows = Many::new(alloc);
    rows.push(source_row(alloc, row)?)?;
    Ok(rows)
}

/// Gives a row that is in a table other values, which are as its columns store them, changes its entries, and answers the row as it is then. No
/// trigger is run. (What the table refuses of the row; `RowidMismatch` where no integer is in the rowid's own column; `Unique` for a rowid or a key
/// that another row has; `TooLong` for an index of more than 999 columns; `Memory`, `Io`, `Full`. Then some pages may have changed.)
pub fn set_row<P: WritePages>(
    alloc: Global,
    pages: &mut P,
    table: &Table,
    row: &TableRow,
    values: &[Value],
) -> R<TableRow>
    ensures set { IsTrue (P.Pages.tells (P.Pages.below pages.old))
        → SetsIn (P.Pages.map pages.old) (P.Pages.map pages.new)
        (P.Pages.limits (P.Pages.below pages.old)).page
        table.now (row_of row.now) values.now result }
    ensures kept { P.Pages.below pages.new ≡ P.Pages.below pages.old }
    ensures causes { Causes result (P.Pages.failures pages.old) (P.Pages.failures pages.new)
        (P.Pages.count pages.new ≡ (P.Pages.limits (P.Pages.below pages.new)).most) }
{
    other_rows_are_listed();
    named_databases_are_one();
    listed_indexes_are_found();
    let rows = only_row(alloc, row)?;
    let sets = literal_sets(alloc, values)?;
    db_write::turn_row(alloc, pages, table, &sets, &rows, 0)
}

/// Takes a row that is in a table out of it, with its entries. No trigger is run. (`Memory`, `Io`, `Full`. Then some pages may have changed.)
pub fn take_row<P: WritePages>(alloc: Global, pages: &mut P, table: &Table, row: &TableRow) -> R<()>
    ensures taken { IsTrue (P.Pages.tells (P.Pages.below pages.old))
        → TakesFrom (P.Pages.map pages.old) (P.Pages.map pages.new)
        (P.Pages.limits (P.Pages.below pages.old)).page
        table.now (row_of row.now) result }
    ensures kept { P.Pages.below pages.new ≡ P.Pages.below pages.old }
    ensures causes { Causes result (P.Pages.failures pages.old) (P.Pages.failures pages.new)
        (P.Pages.count pages.new ≡ (P.Pages.limits (P.Pages.below pages.new)).most) }
{
    other_rows_are_listed();
    named_databases_are_one();
    db_write::take_row(alloc, pages, table, row)
}

/// A copy of the first row, if there is one. (`Memory`.)
fn first_copy(alloc: Global, rows: &Many<SourceRow>) -> R<Option<TableRow>>
    ensures { IsOrMemory (λ found. option_map row_of found ≡ option_map as_row (slice_get rows.now 0)) result }
{
    if rows.len() == 0 {
        return Ok(None);
    }
    Ok(Some(row_copy(alloc, rows, 0)?))
}

/// The row of a rowid of a table, if there is one. (`Memory`, `Io`.)
pub fn row_at<P: Pages>(
    alloc: Global,
    pages: &mut P,
    table: &Table,
    rowid: i64,
) -> R<Option<TableRow>>
    ensures found { IsTrue (P.Pages.tells (P.Pages.below pages.old))
        → FindsIn (P.Pages.map pages.old) (P.Pages.limits (P.Pages.below pages.old)).page
        table.now rowid result }
    ensures stays { Stays P.Pages.below P.Pages.map P.Pages.count P.Pages.failures result pages.old pages.new }
{
    let rows = db_write::row_at(alloc, pages, table, rowid)?;
    first_copy(alloc, &rows)
}

/// All rows of a table or view, in its order. (What its query refuses, of a view; `Memory`, `Io`.)
pub fn all_rows<P: Pages>(
    alloc: Global,
    pages: &mut P,
    catalog: &Catalog,
    name: &Name,
) -> R<Many<SourceRow>>
    ensures read { IsTrue (P.Pages.tells (P.Pages.below pages.old))
        → ReadsAll (P.Pages.map pages.old) (P.Pages.limits (P.Pages.below pages.old)).page
        (listed_in catalog.now) name.now result }
    ensures stays { Stays P.Pages.below P.Pages.map P.Pages.count P.Pages.failures result pages.old pages.new }
{
    listed_tables_are_found();
    if let Some(table) = catalog.table(name.as_str()) {
        let source = BoundSource {
            root: table.root,
            shape: table.shape(),
        };
        return source_rows(alloc, pages, source);
    }
    match catalog.view(name.as_str()) {
        Some(view) => view_rows(alloc, pages, catalog, MAX_VIEWS, view),
        None => Err(Fault::NoSuch(Object::Table, name.copy(alloc)?)),
    }
}

/// The rows of a table that a search finds which some condition makes of it, by rising rowid. (`Memory`, `Io`.)
pub fn rows_sought<P: Pages>(
    alloc: Global,
    pages: &mut P,
    table: &Table,
    search: Search,
) -> R<Many<SourceRow>>
    ensures found { (source : ℕ) (condition : Asked) → IsTrue (P.Pages.tells (P.Pages.below pages.old))
        → IsSought table.now.indexes source condition search
        → FindsAmong (P.Pages.map pages.old) (P.Pages.limits (P.Pages.below pages.old)).page table.now search result }
    ensures stays { Stays P.Pages.below P.Pages.map P.Pages.count P.Pages.failures result pages.old pages.new }
{
    let source = BoundSource {
        root: table.root,
        shape: table.shape(),
    };
    found_rows(alloc, pages, source, table.indexes.as_slice(), search)
}
