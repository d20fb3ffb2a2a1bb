//! Rows that are put into the tree of their table.

ghost use Rattle.std.specs.Prelude.{◌≡◌, IsTrue};
ghost use Rattle.pages.specs.Calls.{Causes};
ghost use Rattle.tree_table.specs.Rows.{with_replaced};
ghost use Rattle.row_change.specs.NewRows.{entry_in};
ghost use Rattle.row_change.specs.Putting.{MovesRow, PutsAmong};
ghost use Rattle.row_change.specs.Trees.{PutsRow};
ghost use Rattle.row_change.specs.Updating.{ReplacesRows};

use crate::inserting::{RowRecord, new_row, record_for};
use catalog::{Table, TableRow};
use pages::WritePages;
use sqlval::{Fault, R, Value};
use std::alloc::Global;
use std::array::from_ref;
use tree_table::{RowChange, change_rows, insert, remove};

/// Puts a record into a tree. (What `insert` refuses; `Unique` if there is a row of its rowid.)
fn put_record<P: WritePages>(alloc: Global, pages: &mut P, root: u32, row: &RowRecord) -> R<()>
    ensures put { IsTrue (P.Pages.tells (P.Pages.below pages.old))
        → PutsAmong (P.Pages.map pages.old) (P.Pages.map pages.new)
        (P.Pages.limits (P.Pages.below pages.old)).page
        root (entry_in row.now) result }
    ensures kept { P.Pages.below pages.new ≡ P.Pages.below pages.old }
    ensures causes { Causes result (P.Pages.failures pages.old) (P.Pages.failures pages.new)
        (P.Pages.count pages.new ≡ (P.Pages.limits (P.Pages.below pages.new)).most) }
{
    if insert(alloc, pages, root, row.rowid, &row.payload)? {
        return Ok(());
    }
    Err(Fault::Unique)
}

/// Puts a record in place of that of its rowid in a tree. (What `change_rows` refuses.)
pub(crate) fn replace_record<P: WritePages>(
    alloc: Global,
    pages: &mut P,
    root: u32,
    row: RowRecord,
) -> R<()>
    ensures replaced { IsTrue (P.Pages.tells (P.Pages.below pages.old))
        → ReplacesRows (P.Pages.map pages.old) (P.Pages.map pages.new)
        (P.Pages.limits (P.Pages.below pages.old)).page
        root (with_replaced (entry_in row)) result }
    ensures kept { P.Pages.below pages.new ≡ P.Pages.below pages.old }
    ensures causes { Causes result (P.Pages.failures pages.old) (P.Pages.failures pages.new)
        (P.Pages.count pages.new ≡ (P.Pages.limits (P.Pages.below pages.new)).most) }
{
    let change = RowChange {
        rowid: row.rowid,
        payload: Some(row.payload),
    };
    change_rows(alloc, pages, root, from_ref(&change).as_slice())
}

/// Takes the row of a rowid out of a tree and puts a record into it. (What `remove` and `insert` refuse; `Unique` if there is another row of the
/// record's rowid.)
pub(crate) fn move_record<P: WritePages>(
    alloc: Global,
    pages: &mut P,
    root: u32,
    gone: i64,
    row: &RowRecord,
) -> R<()>
    ensures moved { IsTrue (P.Pages.tells (P.Pages.below pages.old))
        → MovesRow (P.Pages.map pages.old) (P.Pages.map pages.new)
        (P.Pages.limits (P.Pages.below pages.old)).page
        root gone (entry_in row.now) result }
    ensures kept { P.Pages.below pages.new ≡ P.Pages.below pages.old }
    ensures causes { Causes result (P.Pages.failures pages.old) (P.Pages.failures pages.new)
        (P.Pages.count pages.new ≡ (P.Pages.limits (P.Pages.below pages.new)).most) }
{
    remove(alloc, pages, root, gone)?;
    put_record(alloc, pages, root, row)
}

/// Puts a row of an INSERT into the tree of its table, and answers it. `last` is the last rowid there. (What `new_row` refuses; `Unique` if there
/// is a row of its rowid; `Memory`, `Io`, `Full`.)
pub fn put_new_row<P: WritePages>(
    alloc: Global,
    pages: &mut P,
    table: &Table,
    places: &[Option<usize>],
    given: &[Value],
    last: Option<i64>,
) -> R<TableRow>
    ensures put { IsTrue (P.Pages.tells (P.Pages.below pages.old))
        → PutsRow (P.Pages.map pages.old) (P.Pages.map pages.new)
        (P.Pages.limits (P.Pages.below pages.old)).page
        table.now.root table.now places.now given.now last result }
    ensures kept { P.Pages.below pages.new ≡ P.Pages.below pages.old }
    ensures causes { Causes result (P.Pages.failures pages.old) (P.Pages.failures pages.new)
        (P.Pages.count pages.new ≡ (P.Pages.limits (P.Pages.below pages.new)).most) }
{
    let mut row = new_row(alloc, table, places, given, last)?;
    let written = record_for(alloc, table.own_column(), &mut row)?;
    put_record(alloc, pages, table.root, &written)?;
    Ok(row)
}
