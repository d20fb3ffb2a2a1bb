//! Rows that are updated, with their entries.

ghost use Rattle.std.specs.Prelude.{◌≡◌, false, true, IsTrue, length, map};
ghost use Rattle.pages.specs.Calls.{Causes, Stays};
ghost use Rattle.query_terms.specs.Rows.{row_at};
ghost use Rattle.row_change.specs.Agreement.{has_unique};
ghost use Rattle.row_change.specs.Setting.{keeps_rowids};
ghost use Rattle.index_entries.specs.Keeping.{row_in};
ghost use Rattle.db_write.specs.Changing.{UpdatesInTrees};
ghost use Rattle.db_write.specs.Kept.{FindsKept};
ghost use Rattle.db_write.specs.OneRow.{TurnsFrom, TurnsRow};
ghost use Rattle.db_write.specs.Reading.{LoadsEnough};
ghost use Rattle.db_write.specs.Turning.{MovesRowInIndexes};

use crate::alone::{all_keys_are_apart, are_alone};
use crate::entries::replace_in_indexes;
use crate::reading::enough_rows;
use crate::rising::keys_rise;
use crate::row_entries::{has_unique, move_row_in_indexes, replace_row_in_indexes};
use catalog::{Index, Table, TableRow};
use pages::WritePages;
use query_terms::{SourceRow, Term};
use row_change::{
    copies_at, keeps_rowids, kept_changes, kept_rows_stay_alone, meant_places, meant_rows,
    put_changes, row_copy, rows_without_keys_are_free, set_new_rows, set_row, set_rows_at,
};
use sqlval::{Many, R};
use std::alloc::Global;
use tree_table::RowChange;

/// Sets values in the rows of a table without indexes, where SET leaves the rowids. (What `set_new_rows` refuses.)
fn set_bare_rows<P: WritePages>(
    alloc: Global,
    pages: &mut P,
    table: &Table,
    condition: &Option<Term>,
    sets: &[(usize, Term)],
    rows: &Many<SourceRow>,
) -> R<()>
    requires bare { length table.now.indexes ≡ 0 }
    requires kept { keeps_rowids table.now sets.now ≡ true }
    ensures updated { IsTrue (P.Pages.tells (P.Pages.below pages.old))
        → LoadsEnough (P.Pages.map pages.old)
        (P.Pages.limits (P.Pages.below pages.old)).page table.now condition.now (Ok rows.now)
        → UpdatesInTrees (P.Pages.map pages.old) (P.Pages.map pages.new)
        (P.Pages.limits (P.Pages.below pages.old)).page
        table.now condition.now sets.now result }
    ensures kept { P.Pages.below pages.new ≡ P.Pages.below pages.old }
    ensures causes { Causes result (P.Pages.failures pages.old) (P.Pages.failures pages.new)
        (P.Pages.count pages.new ≡ (P.Pages.limits (P.Pages.below pages.new)).most) }
{
    rows_without_keys_are_free();
    set_new_rows(alloc, pages, table, condition, sets, rows)?;
    Ok(())
}

/// Sets values in the rows of a table without a UNIQUE index, where SET leaves the rowids, and puts the entries that they have then in place of
/// those that they had in the trees of its indexes, one index after another. (What `meant_places`, `set_rows_at` and `replace_entries` refuse.)
fn set_indexed_rows<P: WritePages>(
    alloc: Global,
    pages: &mut P,
    table: &Table,
    condition: &Option<Term>,
    sets: &[(usize, Term)],
    rows: &Many<SourceRow>,
) -> R<()>
    requires plain { has_unique table.now ≡ false }
    requires kept { keeps_rowids table.now sets.now ≡ true }
    ensures updated { IsTrue (P.Pages.tells (P.Pages.below pages.old))
        → LoadsEnough (P.Pages.map pages.old)
        (P.Pages.limits (P.Pages.below pages.old)).page table.now condition.now (Ok rows.now)
        → UpdatesInTrees (P.Pages.map pages.old) (P.Pages.map pages.new)
        (P.Pages.limits (P.Pages.below pages.old)).page
        table.now condition.now sets.now result }
    ensures kept { P.Pages.below pages.new ≡ P.Pages.below pages.old }
    ensures causes { Causes result (P.Pages.failures pages.old) (P.Pages.failures pages.new)
        (P.Pages.count pages.new ≡ (P.Pages.limits (P.Pages.below pages.new)).most) }
{
    rows_without_keys_are_free();
    let places = meant_places(alloc, rows, condition)?;
    let gone = copies_at(alloc, rows, &places)?;
    let new = set_rows_at(alloc, pages, table, sets, rows, &places)?;
    replace_in_indexes(alloc, pages, table.indexes.as_slice(), &gone, &new)
}

/// Puts the entry of a row in place of that of another, of its rowid or not, in the tree of each of these indexes. (What `replace_row_in_indexes`
/// and `move_row_in_indexes` refuse.)
fn turn_in_indexes<P: WritePages>(
    alloc: Global,
    pages: &mut P,
    indexes: &[Index],
    gone: &TableRow,
    come: &TableRow,
) -> R<()>
    ensures moved { IsTrue (P.Pages.tells (P.Pages.below pages.old))
        → MovesRowInIndexes (P.Pages.map pages.old) (P.Pages.map pages.new)
        (P.Pages.limits (P.Pages.below pages.old)).page
        indexes.now (row_in gone.now) (row_in come.now) result }
    ensures kept { P.Pages.below pages.new ≡ P.Pages.below pages.old }
    ensures causes { Causes result (P.Pages.failures pages.old) (P.Pages.failures pages.new)
        (P.Pages.count pages.new ≡ (P.Pages.limits (P.Pages.below pages.new)).most) }
{
    if come.rowid == gone.rowid {
        replace_row_in_indexes(alloc, pages, indexes, gone, come)
    } else {
        move_row_in_indexes(alloc, pages, indexes, gone, come)
    }
}

/// Sets values in a row of a table, which is that at a place of these rows, puts its new entry in place of its old one in the tree of each index,
/// and answers what the row became. (What SET's expressions, the columns and the table refuse of the row; `RowidMismatch` where no integer is in the
/// rowid's own column; `Unique` for a rowid or a key that another row has; `TooLong` for an index of more than 999 columns; `Memory`, `Io`, `Full`.
/// Then some pages may have changed.)
pub fn turn_row<P: WritePages>(
    alloc: Global,
    pages: &mut P,
    table: &Table,
    sets: &[(usize, Term)],
    rows: &Many<SourceRow>,
    place: usize,
) -> R<TableRow>
    ensures turned { IsTrue (P.Pages.tells (P.Pages.below pages.old))
        → TurnsRow (P.Pages.map pages.old) (P.Pages.map pages.new)
        (P.Pages.limits (P.Pages.below pages.old)).page
        table.now sets.now (row_at rows.now place) result }
    ensures kept { P.Pages.below pages.new ≡ P.Pages.below pages.old }
    ensures causes { Causes result (P.Pages.failures pages.old) (P.Pages.failures pages.new)
        (P.Pages.count pages.new ≡ (P.Pages.limits (P.Pages.below pages.new)).most) }
{
    let gone = row_copy(alloc, rows, place)?;
    let come = set_row(alloc, pages, table, sets, rows, place)?;
    turn_in_indexes(alloc, pages, table.indexes.as_slice(), &gone, &come)?;
    Ok(come)
}

/// Sets values in the rows of a table that are those at these places, one after another. (What `turn_row` refuses.)
fn turn_from<P: WritePages>(
    alloc: Global,
    pages: &mut P,
    table: &Table,
    sets: &[(usize, Term)],
    rows: &Many<SourceRow>,
    places: &[usize],
) -> R<()>
    ensures turned { IsTrue (P.Pages.tells (P.Pages.below pages.old))
        → TurnsFrom (P.Pages.map pages.old) (P.Pages.map pages.new)
        (P.Pages.limits (P.Pages.below pages.old)).page
        table.now sets.now (map (row_at rows.now) places.now) result }
    ensures kept { P.Pages.below pages.new ≡ P.Pages.below pages.old }
    ensures causes { Causes result (P.Pages.failures pages.old) (P.Pages.failures pages.new)
        (P.Pages.count pages.new ≡ (P.Pages.limits (P.Pages.below pages.new)).most) }
{
    let mut left = places;
    'places: while let [place, rest @ ..] = left {
        turn_row(alloc, pages, table, sets, rows, *place)?;
        left = rest;
    }
    Ok(())
}

/// Sets values in the rows of a table, one after another, each of which has to be alone among the others as they are then. (What `meant_places`
/// and `turn_from` refuse.)
fn set_each<P: WritePages>(
    alloc: Global,
    pages: &mut P,
    table: &Table,
    condition: &Option<Term>,
    sets: &[(usize, Term)],
    rows: &Many<SourceRow>,
) -> R<()>
    ensures updated { IsTrue (P.Pages.tells (P.Pages.below pages.old))
        → LoadsEnough (P.Pages.map pages.old)
        (P.Pages.limits (P.Pages.below pages.old)).page table.now condition.now (Ok rows.now)
        → UpdatesInTrees (P.Pages.map pages.old) (P.Pages.map pages.new)
        (P.Pages.limits (P.Pages.below pages.old)).page
        table.now condition.now sets.now result }
    ensures kept { P.Pages.below pages.new ≡ P.Pages.below pages.old }
    ensures causes { Causes result (P.Pages.failures pages.old) (P.Pages.failures pages.new)
        (P.Pages.count pages.new ≡ (P.Pages.limits (P.Pages.below pages.new)).most) }
{
    let places = meant_places(alloc, rows, condition)?;
    turn_from(alloc, pages, table, sets, rows, &places)
}

/// Sets values in the rows of a table, where SET leaves the rowids: each with its entries or, without a UNIQUE index, the entries after all rows.
/// (What `set_each`, `set_bare_rows` and `set_indexed_rows` refuse.)
fn set_with_entries<P: WritePages>(
    alloc: Global,
    pages: &mut P,
    table: &Table,
    condition: &Option<Term>,
    sets: &[(usize, Term)],
    rows: &Many<SourceRow>,
) -> R<()>
    requires { keeps_rowids table.now sets.now ≡ true }
    ensures updated { IsTrue (P.Pages.tells (P.Pages.below pages.old))
        → LoadsEnough (P.Pages.map pages.old)
        (P.Pages.limits (P.Pages.below pages.old)).page table.now condition.now (Ok rows.now)
        → UpdatesInTrees (P.Pages.map pages.old) (P.Pages.map pages.new)
        (P.Pages.limits (P.Pages.below pages.old)).page
        table.now condition.now sets.now result }
    ensures kept { P.Pages.below pages.new ≡ P.Pages.below pages.old }
    ensures causes { Causes result (P.Pages.failures pages.old) (P.Pages.failures pages.new)
        (P.Pages.count pages.new ≡ (P.Pages.limits (P.Pages.below pages.new)).most) }
{
    if has_unique(table) {
        set_each(alloc, pages, table, condition, sets, rows)
    } else if table.indexes.as_slice().is_empty() {
        set_bare_rows(alloc, pages, table, condition, sets, rows)
    } else {
        set_indexed_rows(alloc, pages, table, condition, sets, rows)
    }
}

/// How many rows have to be set for each leaf of a UNIQUE index that is read to see its keys apart, before each row is looked for. A leaf of 200
/// entries costs about as much as fifteen looks-up: what is read in vain takes at most half as long as the looks-up that follow.
const ROWS_A_LEAF: usize = 32;

/// The changes of the table's tree by which SET's values come to its rows, where SET leaves the rowids and each row that is set is kept and, beside
/// UNIQUE indexes, seen to be alone: where all are set, by keys that rise from row to row; where many are, in reading each index from its beginning; and
/// else, or where that doesn't show it, in looking for each of them. (What `kept_changes`, `all_keys_are_apart`, `meant_rows` and `are_alone` refuse.)
fn changes_alone<P: WritePages>(
    alloc: Global,
    pages: &mut P,
    table: &Table,
    condition: &Option<Term>,
    sets: &[(usize, Term)],
    rows: &Many<SourceRow>,
) -> R<Option<Vec<RowChange>>>
    ensures found { IsTrue (P.Pages.tells (P.Pages.below pages.old))
        → FindsKept (P.Pages.map pages.old)
        (P.Pages.limits (P.Pages.below pages.old)).page table.now condition.now sets.now rows.now result }
    ensures stays { Stays P.Pages.below P.Pages.map P.Pages.count P.Pages.failures result pages.old pages.new }
{
    kept_rows_stay_alone();
    let Some(changes) = kept_changes(alloc, table, sets, rows, condition)? else {
        return Ok(None);
    };
    if !has_unique(table) {
        return Ok(Some(changes));
    }
    let indexes = table.indexes.as_slice();
    if condition.is_none() && keys_rise(indexes, rows.as_slice()) {
        return Ok(Some(changes));
    }
    if all_keys_are_apart(alloc, pages, indexes, changes.len() / ROWS_A_LEAF)? {
        return Ok(Some(changes));
    }
    let meant = meant_rows(alloc, rows, condition)?;
    if are_alone(alloc, pages, indexes, &meant)? {
        return Ok(Some(changes));
    }
    Ok(None)
}

/// Sets values in the rows of a table, where SET leaves the rowids: in its tree alone, where the rows are kept and alone. (What `changes_alone`,
/// `put_changes` and `set_with_entries` refuse.)
fn set_in_places<P: WritePages>(
    alloc: Global,
    pages: &mut P,
    table: &Table,
    condition: &Option<Term>,
    sets: &[(usize, Term)],
    rows: &Many<SourceRow>,
) -> R<()>
    requires { keeps_rowids table.now sets.now ≡ true }
    ensures updated { IsTrue (P.Pages.tells (P.Pages.below pages.old))
        → LoadsEnough (P.Pages.map pages.old)
        (P.Pages.limits (P.Pages.below pages.old)).page table.now condition.now (Ok rows.now)
        → UpdatesInTrees (P.Pages.map pages.old) (P.Pages.map pages.new)
        (P.Pages.limits (P.Pages.below pages.old)).page
        table.now condition.now sets.now result }
    ensures kept { P.Pages.below pages.new ≡ P.Pages.below pages.old }
    ensures causes { Causes result (P.Pages.failures pages.old) (P.Pages.failures pages.new)
        (P.Pages.count pages.new ≡ (P.Pages.limits (P.Pages.below pages.new)).most) }
{
    match changes_alone(alloc, pages, table, condition, sets, rows)? {
        Some(changes) => put_changes(alloc, pages, table, &changes),
        None => set_with_entries(alloc, pages, table, condition, sets, rows),
    }
}

/// Sets values in the rows of a table for which a condition is true, or in all where there is none, and changes their entries in its indexes
/// accordingly. Rows are read once. Where SET leaves the rowids and names no column of an index, and the columns store what it gives as it is, the
/// table's tree alone changes, and a UNIQUE index is only read, or searched, for other rows of the rows' keys. Else an entry that stays as it is
/// costs no page, except for that search; where there is such an index, or SET may give a row another rowid, a row changes with its entries before
/// the next one. (What the condition, SET's expressions, the columns and the table refuse for a row, in order; `Unique` for a row that has another's
/// rowid then, or its key in a UNIQUE index; `TooLong` for an index of more than 999 columns; `Memory`, `Io`, `Full`. Then some pages may have
/// changed.)
pub fn update_rows<P: WritePages>(
    alloc: Global,
    pages: &mut P,
    table: &Table,
    condition: &Option<Term>,
    sets: &[(usize, Term)],
) -> R<()>
    ensures updated { IsTrue (P.Pages.tells (P.Pages.below pages.old))
        → UpdatesInTrees (P.Pages.map pages.old) (P.Pages.map pages.new)
        (P.Pages.limits (P.Pages.below pages.old)).page
        table.now condition.now sets.now result }
    ensures kept { P.Pages.below pages.new ≡ P.Pages.below pages.old }
    ensures causes { Causes result (P.Pages.failures pages.old) (P.Pages.failures pages.new)
        (P.Pages.count pages.new ≡ (P.Pages.limits (P.Pages.below pages.new)).most) }
{
    let rows = enough_rows(alloc, pages, table, condition)?;
    if keeps_rowids(table, sets) {
        set_in_places(alloc, pages, table, condition, sets, &rows)
    } else {
        set_each(alloc, pages, table, condition, sets, &rows)
    }
}
