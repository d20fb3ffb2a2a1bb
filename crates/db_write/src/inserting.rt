//! Rows that are inserted, with their entries.

ghost use Rattle.std.specs.Prelude.{◌≡◌, ◌∷◌, [], IsTrue, map};
ghost use Rattle.pages.specs.Calls.{Causes, Stays};
ghost use Rattle.index_entries.specs.Keeping.{row_in};
ghost use Rattle.db_write.specs.Changing.{InsertsInTrees};
ghost use Rattle.db_write.specs.OneRow.{FindsLastFor, InsertsAfter, InsertsFrom, InsertsOneRow, last_with};

use crate::row_entries::add_row_to_indexes;
use catalog::{Table, TableRow};
use pages::{Pages, WritePages};
use query_names::BoundInsert;
use row_change::{gives_rowid, put_new_row};
use sqlval::{R, Row, Value};
use std::alloc::Global;
use tree_table::last;

/// The last rowid of a table, once this row is one of its rows.
fn last_after(last: Option<i64>, row: &TableRow) -> Option<i64>
    ensures { result ≡ last_with last (row_in row.now).0 }
{
    match last {
        Some(last) if row.rowid < last => Some(last),
        _ => Some(row.rowid),
    }
}

/// The last rowid of a table, or none where a row given brings its own. (What `last` refuses.)
fn last_for<P: Pages>(
    pages: &mut P,
    table: &Table,
    places: &[Option<usize>],
    given: &[Value],
) -> R<Option<i64>>
    ensures found { IsTrue (P.Pages.tells (P.Pages.below pages.old))
        → FindsLastFor (P.Pages.map pages.old) (P.Pages.limits (P.Pages.below pages.old)).page
        table.now places.now given.now result }
    ensures stays { Stays P.Pages.below P.Pages.map P.Pages.count P.Pages.failures result pages.old pages.new }
{
    if gives_rowid(table, places, given) {
        return Ok(None);
    }
    last(pages, table.root)
}

/// Puts the row that a row given becomes into the tree of its table, where this serves as the last rowid, and its entries into the trees of the
/// table's indexes, and answers it. (What `put_new_row` and `add_row_to_indexes` refuse.)
fn insert_after<P: WritePages>(
    alloc: Global,
    pages: &mut P,
    table: &Table,
    places: &[Option<usize>],
    given: &[Value],
    last: Option<i64>,
) -> R<TableRow>
    ensures inserted { IsTrue (P.Pages.tells (P.Pages.below pages.old))
        → InsertsAfter (P.Pages.map pages.old) (P.Pages.map pages.new)
        (P.Pages.limits (P.Pages.below pages.old)).page
        table.now places.now given.now last result }
    ensures kept { P.Pages.below pages.new ≡ P.Pages.below pages.old }
    ensures causes { Causes result (P.Pages.failures pages.old) (P.Pages.failures pages.new)
        (P.Pages.count pages.new ≡ (P.Pages.limits (P.Pages.below pages.new)).most) }
{
    let row = put_new_row(alloc, pages, table, places, given, last)?;
    add_row_to_indexes(alloc, pages, table.indexes.as_slice(), &row)?;
    Ok(row)
}

/// Puts the row that a row given becomes into the tree of its table, and its entries into the trees of the table's indexes, and answers the row as
/// it is stored. `places` has for each column the place of the value that is given for it. (What the columns and the table refuse of the row;
/// `Unique` for a rowid that is there, or a key in a UNIQUE index; `TooLong` for an index of more than 999 columns; `Memory`, `Io`, `Full`. Then
/// some pages may have changed.)
pub fn insert_row<P: WritePages>(
    alloc: Global,
    pages: &mut P,
    table: &Table,
    places: &[Option<usize>],
    given: &[Value],
) -> R<TableRow>
    ensures inserted { IsTrue (P.Pages.tells (P.Pages.below pages.old))
        → InsertsOneRow (P.Pages.map pages.old) (P.Pages.map pages.new)
        (P.Pages.limits (P.Pages.below pages.old)).page
        table.now places.now given.now result }
    ensures kept { P.Pages.below pages.new ≡ P.Pages.below pages.old }
    ensures causes { Causes result (P.Pages.failures pages.old) (P.Pages.failures pages.new)
        (P.Pages.count pages.new ≡ (P.Pages.limits (P.Pages.below pages.new)).most) }
{
    let last = last_for(pages, table, places, given)?;
    insert_after(alloc, pages, table, places, given, last)
}

/// Puts the rows that rows given become into the trees of their table, whose last rowid this is, one after another. (What `insert_after` refuses.)
fn insert_from<P: WritePages>(
    alloc: Global,
    pages: &mut P,
    table: &Table,
    places: &[Option<usize>],
    rows: &[Row],
    last: Option<i64>,
) -> R<()>
    ensures inserted { IsTrue (P.Pages.tells (P.Pages.below pages.old))
        → InsertsFrom (P.Pages.map pages.old) (P.Pages.map pages.new)
        (P.Pages.limits (P.Pages.below pages.old)).page
        table.now places.now (map (λ row. row.items) rows.now) last result }
    ensures kept { P.Pages.below pages.new ≡ P.Pages.below pages.old }
    ensures causes { Causes result (P.Pages.failures pages.old) (P.Pages.failures pages.new)
        (P.Pages.count pages.new ≡ (P.Pages.limits (P.Pages.below pages.new)).most) }
{
    let mut before = last;
    let mut left = rows;
    'rows: while let [given, rest @ ..] = left {
        let row = insert_after(alloc, pages, table, places, given, before)?;
        before = last_after(before, &row);
        left = rest;
    }
    Ok(())
}

/// Puts the row that the only row given becomes into the tree of its table, and its entries into the trees of the table's indexes. (What
/// `insert_row` refuses.)
fn insert_only<P: WritePages>(
    alloc: Global,
    pages: &mut P,
    table: &Table,
    places: &[Option<usize>],
    given: &[Value],
) -> R<()>
    ensures inserted { IsTrue (P.Pages.tells (P.Pages.below pages.old))
        → InsertsInTrees (P.Pages.map pages.old) (P.Pages.map pages.new)
        (P.Pages.limits (P.Pages.below pages.old)).page
        table.now places.now (given.now ∷ []) result }
    ensures kept { P.Pages.below pages.new ≡ P.Pages.below pages.old }
    ensures causes { Causes result (P.Pages.failures pages.old) (P.Pages.failures pages.new)
        (P.Pages.count pages.new ≡ (P.Pages.limits (P.Pages.below pages.new)).most) }
{
    insert_row(alloc, pages, table, places, given)?;
    Ok(())
}

/// Puts the rows of an INSERT into the tree of their table, and their entries into the trees of its indexes: each row comes with its entries
/// before the next one. (What the columns and the table refuse of a row, in order; `Unique` for a row that has the rowid of one before it, or its
/// key in a UNIQUE index; `TooLong` for an index of more than 999 columns; `Memory`, `Io`, `Full`. Then some pages may have changed.)
pub fn insert_rows<P: WritePages>(alloc: Global, pages: &mut P, insert: BoundInsert<'_>) -> R<()>
    ensures inserted { IsTrue (P.Pages.tells (P.Pages.below pages.old))
        → InsertsInTrees (P.Pages.map pages.old) (P.Pages.map pages.new)
        (P.Pages.limits (P.Pages.below pages.old)).page
        insert.entry.table.now insert.entry.places.items
        (map (λ row. row.items) insert.entry.rows.items) result }
    ensures kept { P.Pages.below pages.new ≡ P.Pages.below pages.old }
    ensures causes { Causes result (P.Pages.failures pages.old) (P.Pages.failures pages.new)
        (P.Pages.count pages.new ≡ (P.Pages.limits (P.Pages.below pages.new)).most) }
{
    let BoundInsert {
        table,
        places,
        rows,
    } = insert;
    if let [given] = rows.as_slice() {
        return insert_only(alloc, pages, table, &places, given);
    }
    let last = last(pages, table.root)?;
    insert_from(alloc, pages, table, &places, &rows, last)
}
