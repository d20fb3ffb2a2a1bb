//! The entry of one row that comes to a table, or takes another's place, in the tree of each of the table's indexes.

ghost use Rattle.std.specs.Prelude.{◌≡◌, ◌∷◌, [], IsTrue};
ghost use Rattle.pages.specs.Calls.{Causes};
ghost use Rattle.row_change.specs.Agreement.{has_unique};
ghost use Rattle.index_entries.specs.Keeping.{TakesEntries, row_in};
ghost use Rattle.db_layout.specs.Trees.{columns_of};
ghost use Rattle.db_write.specs.Turning.{AddsRowToIndex, AddsRowToIndexes, MovesRowInIndexes, ReplacesRowInIndex, ReplacesRowInIndexes, TakesFromIndexes};

use catalog::{Index, Table, TableRow};
use index_entries::{add_alone, add_row, replace_alone, replace_row, take_row};
use pages::WritePages;
use sqlval::{Fault, R};
use std::alloc::Global;

/// Whether one of a table's indexes is UNIQUE.
pub(crate) fn has_unique(table: &Table) -> bool
    ensures { result ≡ has_unique table.now }
{
    table.indexes.as_slice().iter().any(|index| index.is_unique)
}

/// Puts the entry of a row that comes to a table into the tree of one of its indexes. (What `add_row` and `add_alone` refuse; `Unique` if the
/// index is UNIQUE and another row has the row's key.)
fn add_row_to_index<P: WritePages>(
    alloc: Global,
    pages: &mut P,
    index: &Index,
    row: &TableRow,
) -> R<()>
    ensures added { IsTrue (P.Pages.tells (P.Pages.below pages.old))
        → AddsRowToIndex (P.Pages.map pages.old) (P.Pages.map pages.new)
        (P.Pages.limits (P.Pages.below pages.old)).page
        index.now (row_in row.now) result }
    ensures kept { P.Pages.below pages.new ≡ P.Pages.below pages.old }
    ensures causes { Causes result (P.Pages.failures pages.old) (P.Pages.failures pages.new)
        (P.Pages.count pages.new ≡ (P.Pages.limits (P.Pages.below pages.new)).most) }
{
    let columns = index.columns.as_slice();
    if !index.is_unique {
        return add_row(alloc, pages, index.root, columns, row);
    }
    if add_alone(alloc, pages, index.root, columns, row)? {
        return Ok(());
    }
    Err(Fault::Unique)
}

/// Puts the entry of a row that comes to a table into the tree of each of these indexes, one after another. (What `add_row` and `add_alone`
/// refuse; `Unique` if one is UNIQUE and another row has the row's key. Then some entries may be in.)
pub(crate) fn add_row_to_indexes<P: WritePages>(
    alloc: Global,
    pages: &mut P,
    indexes: &[Index],
    row: &TableRow,
) -> R<()>
    ensures added { IsTrue (P.Pages.tells (P.Pages.below pages.old))
        → AddsRowToIndexes (P.Pages.map pages.old) (P.Pages.map pages.new)
        (P.Pages.limits (P.Pages.below pages.old)).page
        indexes.now (row_in row.now) result }
    ensures kept { P.Pages.below pages.new ≡ P.Pages.below pages.old }
    ensures causes { Causes result (P.Pages.failures pages.old) (P.Pages.failures pages.new)
        (P.Pages.count pages.new ≡ (P.Pages.limits (P.Pages.below pages.new)).most) }
{
    let mut left = indexes;
    'indexes: while let [index, rest @ ..] = left {
        add_row_to_index(alloc, pages, index, row)?;
        left = rest;
    }
    Ok(())
}

/// Puts the entry of a row in place of that of another of its rowid in an index's tree. (What `replace_row` and `replace_alone` refuse; `Unique`
/// if the index is UNIQUE and a third row has the row's key.)
fn replace_row_in_index<P: WritePages>(
    alloc: Global,
    pages: &mut P,
    index: &Index,
    gone: &TableRow,
    come: &TableRow,
) -> R<()>
    ensures replaced { IsTrue (P.Pages.tells (P.Pages.below pages.old))
        → ReplacesRowInIndex (P.Pages.map pages.old) (P.Pages.map pages.new)
        (P.Pages.limits (P.Pages.below pages.old)).page
        index.now (row_in gone.now) (row_in come.now) result }
    ensures kept { P.Pages.below pages.new ≡ P.Pages.below pages.old }
    ensures causes { Causes result (P.Pages.failures pages.old) (P.Pages.failures pages.new)
        (P.Pages.count pages.new ≡ (P.Pages.limits (P.Pages.below pages.new)).most) }
{
    let columns = index.columns.as_slice();
    if !index.is_unique {
        return replace_row(alloc, pages, index.root, columns, gone, come);
    }
    if replace_alone(alloc, pages, index.root, columns, gone, come)? {
        return Ok(());
    }
    Err(Fault::Unique)
}

/// Puts the entry of a row in place of that of another of its rowid in the tree of each of these indexes, one after another. (What `replace_row` and
/// `replace_alone` refuse; `Unique` if one is UNIQUE and a third row has the row's key. Then some entries may have changed.)
pub(crate) fn replace_row_in_indexes<P: WritePages>(
    alloc: Global,
    pages: &mut P,
    indexes: &[Index],
    gone: &TableRow,
    come: &TableRow,
) -> R<()>
    ensures replaced { IsTrue (P.Pages.tells (P.Pages.below pages.old))
        → ReplacesRowInIndexes (P.Pages.map pages.old) (P.Pages.map pages.new)
        (P.Pages.limits (P.Pages.below pages.old)).page
        indexes.now (row_in gone.now) (row_in come.now) result }
    ensures kept { P.Pages.below pages.new ≡ P.Pages.below pages.old }
    ensures causes { Causes result (P.Pages.failures pages.old) (P.Pages.failures pages.new)
        (P.Pages.count pages.new ≡ (P.Pages.limits (P.Pages.below pages.new)).most) }
{
    let mut left = indexes;
    'indexes: while let [index, rest @ ..] = left {
        replace_row_in_index(alloc, pages, index, gone, come)?;
        left = rest;
    }
    Ok(())
}

/// Takes the entry of a row that goes from a table out of the tree of one of its indexes. (What `take_row` refuses.)
fn take_row_from_index<P: WritePages>(
    alloc: Global,
    pages: &mut P,
    index: &Index,
    row: &TableRow,
) -> R<()>
    ensures taken { IsTrue (P.Pages.tells (P.Pages.below pages.old))
        → TakesEntries (P.Pages.map pages.old) (P.Pages.map pages.new)
        (P.Pages.limits (P.Pages.below pages.old)).page
        index.now.root (columns_of index.now) (row_in row.now ∷ []) result }
    ensures kept { P.Pages.below pages.new ≡ P.Pages.below pages.old }
    ensures causes { Causes result (P.Pages.failures pages.old) (P.Pages.failures pages.new)
        (P.Pages.count pages.new ≡ (P.Pages.limits (P.Pages.below pages.new)).most) }
{
    take_row(alloc, pages, index.root, index.columns.as_slice(), row)
}

/// Takes the entry of a row that goes from a table out of the tree of each of these indexes. (What `take_row` refuses. Then some entries may be
/// out.)
pub(crate) fn take_row_from_indexes<P: WritePages>(
    alloc: Global,
    pages: &mut P,
    indexes: &[Index],
    row: &TableRow,
) -> R<()>
    ensures taken { IsTrue (P.Pages.tells (P.Pages.below pages.old))
        → TakesFromIndexes (P.Pages.map pages.old) (P.Pages.map pages.new)
        (P.Pages.limits (P.Pages.below pages.old)).page
        indexes.now (row_in row.now ∷ []) result }
    ensures kept { P.Pages.below pages.new ≡ P.Pages.below pages.old }
    ensures causes { Causes result (P.Pages.failures pages.old) (P.Pages.failures pages.new)
        (P.Pages.count pages.new ≡ (P.Pages.limits (P.Pages.below pages.new)).most) }
{
    let mut left = indexes;
    'indexes: while let [index, rest @ ..] = left {
        take_row_from_index(alloc, pages, index, row)?;
        left = rest;
    }
    Ok(())
}

/// Takes the entry of a row out of the tree of each of these indexes, and then puts that of another into each. (What `take_row_from_indexes`
/// and `add_row_to_indexes` refuse. Then some entries may have changed.)
pub(crate) fn move_row_in_indexes<P: WritePages>(
    alloc: Global,
    pages: &mut P,
    indexes: &[Index],
    gone: &TableRow,
    come: &TableRow,
) -> R<()>
    ensures moved { IsTrue (P.Pages.tells (P.Pages.below pages.old))
        → MovesRowInIndexes (P.Pages.map pages.old) (P.Pages.map pages.new)
        (P.Pages.limits (P.Pages.below pages.old)).page
        indexes.now (row_in gone.now) (row_in come.now) result }
    ensures kept { P.Pages.below pages.new ≡ P.Pages.below pages.old }
    ensures causes { Causes result (P.Pages.failures pages.old) (P.Pages.failures pages.new)
        (P.Pages.count pages.new ≡ (P.Pages.limits (P.Pages.below pages.new)).most) }
{
    take_row_from_indexes(alloc, pages, indexes, gone)?;
    add_row_to_indexes(alloc, pages, indexes, come)
}
