//! Rows that are deleted, with their entries.

ghost use Rattle.std.specs.Prelude.{◌≡◌, IsTrue, None, Some, length};
ghost use Rattle.pages.specs.Calls.{Causes};
ghost use Rattle.index_entries.specs.Keeping.{row_in};
ghost use Rattle.db_write.specs.Changing.{DeletesInTrees};
ghost use Rattle.db_write.specs.OneRow.{TakesOneRow};

use crate::entries::{clear_indexes, take_from_indexes};
use crate::reading::{enough_rows, source_of};
use crate::row_entries::take_row_from_indexes;
use catalog::{Table, TableRow};
use pages::WritePages;
use query_terms::Term;
use row_change::{meant_places, take_rows, take_these};
use sqlval::R;
use std::alloc::Global;
use tree_table::{clear, remove};

/// Takes all rows out of a table's tree, and all entries out of the trees of its indexes. (What the two `clear` refuse.)
fn clear_rows<P: WritePages>(alloc: Global, pages: &mut P, table: &Table) -> R<()>
    ensures deleted { IsTrue (P.Pages.tells (P.Pages.below pages.old))
        → DeletesInTrees (P.Pages.map pages.old) (P.Pages.map pages.new)
        (P.Pages.limits (P.Pages.below pages.old)).page
        table.now None result }
    ensures kept { P.Pages.below pages.new ≡ P.Pages.below pages.old }
    ensures causes { Causes result (P.Pages.failures pages.old) (P.Pages.failures pages.new)
        (P.Pages.count pages.new ≡ (P.Pages.limits (P.Pages.below pages.new)).most) }
{
    clear(alloc, pages, table.root)?;
    clear_indexes(alloc, pages, table.indexes.as_slice())
}

/// Takes the rows for which a condition is true out of the tree of a table without indexes. (What `enough_rows` and `take_rows` refuse.)
fn take_bare_rows<P: WritePages>(
    alloc: Global,
    pages: &mut P,
    table: &Table,
    condition: &Option<Term>,
    term: &Term,
) -> R<()>
    requires bare { length table.now.indexes ≡ 0 }
    requires is { condition.now ≡ Some term.now }
    ensures deleted { IsTrue (P.Pages.tells (P.Pages.below pages.old))
        → DeletesInTrees (P.Pages.map pages.old) (P.Pages.map pages.new)
        (P.Pages.limits (P.Pages.below pages.old)).page
        table.now (Some term.now) result }
    ensures kept { P.Pages.below pages.new ≡ P.Pages.below pages.old }
    ensures causes { Causes result (P.Pages.failures pages.old) (P.Pages.failures pages.new)
        (P.Pages.count pages.new ≡ (P.Pages.limits (P.Pages.below pages.new)).most) }
{
    let rows = enough_rows(alloc, pages, table, condition)?;
    take_rows(alloc, pages, source_of(table), term, &rows)
}

/// Takes the rows for which a condition is true out of a table's tree, and their entries out of the trees of its indexes. (What
/// `enough_rows`, `meant_places`, `take_these` and `take_entries` refuse.)
fn take_indexed_rows<P: WritePages>(
    alloc: Global,
    pages: &mut P,
    table: &Table,
    condition: &Option<Term>,
    term: &Term,
) -> R<()>
    requires is { condition.now ≡ Some term.now }
    ensures deleted { IsTrue (P.Pages.tells (P.Pages.below pages.old))
        → DeletesInTrees (P.Pages.map pages.old) (P.Pages.map pages.new)
        (P.Pages.limits (P.Pages.below pages.old)).page
        table.now (Some term.now) result }
    ensures kept { P.Pages.below pages.new ≡ P.Pages.below pages.old }
    ensures causes { Causes result (P.Pages.failures pages.old) (P.Pages.failures pages.new)
        (P.Pages.count pages.new ≡ (P.Pages.limits (P.Pages.below pages.new)).most) }
{
    let rows = enough_rows(alloc, pages, table, condition)?;
    let places = meant_places(alloc, &rows, condition)?;
    take_these(alloc, pages, source_of(table), &rows, &places)?;
    take_from_indexes(alloc, pages, table.indexes.as_slice(), &rows, &places)
}

/// Takes the rows for which a condition is true out of a table, or all where there is none, and their entries out of its indexes. Rows are
/// read once, and none where there is no condition. (What the condition refuses for a row, in order; `Memory`, `Io`, `Full`. Then
/// some pages may have changed.)
pub fn delete_rows<P: WritePages>(
    alloc: Global,
    pages: &mut P,
    table: &Table,
    condition: &Option<Term>,
) -> R<()>
    ensures deleted { IsTrue (P.Pages.tells (P.Pages.below pages.old))
        → DeletesInTrees (P.Pages.map pages.old) (P.Pages.map pages.new)
        (P.Pages.limits (P.Pages.below pages.old)).page
        table.now condition.now result }
    ensures kept { P.Pages.below pages.new ≡ P.Pages.below pages.old }
    ensures causes { Causes result (P.Pages.failures pages.old) (P.Pages.failures pages.new)
        (P.Pages.count pages.new ≡ (P.Pages.limits (P.Pages.below pages.new)).most) }
{
    match condition {
        None => clear_rows(alloc, pages, table),
        Some(term) if table.indexes.as_slice().is_empty() => {
            take_bare_rows(alloc, pages, table, condition, term)
        }
        Some(term) => take_indexed_rows(alloc, pages, table, condition, term),
    }
}

/// Takes a row out of a table's tree, and its entries out of the trees of the table's indexes. (`Memory`, `Io`, `Full`. Then some pages may have
/// changed.)
pub fn take_row<P: WritePages>(alloc: Global, pages: &mut P, table: &Table, row: &TableRow) -> R<()>
    ensures taken { IsTrue (P.Pages.tells (P.Pages.below pages.old))
        → TakesOneRow (P.Pages.map pages.old) (P.Pages.map pages.new)
        (P.Pages.limits (P.Pages.below pages.old)).page
        table.now (row_in row.now) result }
    ensures kept { P.Pages.below pages.new ≡ P.Pages.below pages.old }
    ensures causes { Causes result (P.Pages.failures pages.old) (P.Pages.failures pages.new)
        (P.Pages.count pages.new ≡ (P.Pages.limits (P.Pages.below pages.new)).most) }
{
    remove(alloc, pages, table.root, row.rowid)?;
    take_row_from_indexes(alloc, pages, table.indexes.as_slice(), row)
}
