//! UPDATE.

ghost use Rattle.std.specs.Prelude.{◌≡◌, IsTrue, map};
ghost use Rattle.pages.specs.Calls.{Causes};
ghost use Rattle.query_terms.specs.Rows.{row_at};
ghost use Rattle.row_change.specs.Agreement.{UpdatesSome};
ghost use Rattle.row_change.specs.Updating.{SetsRow, SetsRows, SetsThese, TellsChanged, TellsThese};

use crate::inserting::{changes_of, record_for};
use crate::meaning::meant_places;
use crate::putting::{move_record, replace_record};
use crate::setting::{changed_at, row_set_at, rowid_at};
use catalog::{Table, TableRow, named_databases_are_one, other_rows_are_listed};
use pages::WritePages;
use query_terms::{SourceRow, Term};
use sqlval::{Many, R};
use std::alloc::Global;
use tree_table::change_rows;

/// An UPDATE that sets off no trigger leaves the table with what SET makes of its rows, or is refused as they are.
pub fn update_sets_its_rows()
    ensures { UpdatesSome }
{
    other_rows_are_listed();
    named_databases_are_one();
}

/// Sets values in the rows of a table's tree that are those at these places, and answers what they have become, where SET leaves the rowids
/// (`keeps_rowids`): in the rows that a condition means, where it has been evaluated (`meant_places`). (What SET's expressions, `check_row` and
/// `change_rows` refuse, and a real; only what `change_rows` refuses leaves rows that are set.)
pub fn set_rows_at<P: WritePages>(
    alloc: Global,
    pages: &mut P,
    table: &Table,
    sets: &[(usize, Term)],
    rows: &Many<SourceRow>,
    places: &[usize],
) -> R<Vec<TableRow>>
    ensures set { IsTrue (P.Pages.tells (P.Pages.below pages.old))
        → SetsThese (P.Pages.map pages.old) (P.Pages.map pages.new)
        (P.Pages.limits (P.Pages.below pages.old)).page
        table.now.root table.now sets.now rows.now (map (row_at rows.now) places.now) result }
    ensures rows { TellsThese table.now sets.now rows.now (map (row_at rows.now) places.now) result }
    ensures kept { P.Pages.below pages.new ≡ P.Pages.below pages.old }
    ensures causes { Causes result (P.Pages.failures pages.old) (P.Pages.failures pages.new)
        (P.Pages.count pages.new ≡ (P.Pages.limits (P.Pages.below pages.new)).most) }
{
    let mut new = changed_at(alloc, table, sets, rows, places)?;
    let changes = changes_of(alloc, table.own_column(), &mut new)?;
    change_rows(alloc, pages, table.root, &changes)?;
    Ok(new)
}

/// Sets values in the rows of a table's tree for which a condition is true, or in all where there is none, and answers what these rows have
/// become, where SET leaves the rowids (`keeps_rowids`). The rows given are enough of the table's for the condition. They are chosen before the
/// first is set. (What the condition, SET's expressions, `check_row` and `change_rows` refuse, and a real; only what `change_rows` refuses leaves
/// rows that are set.)
pub fn set_new_rows<P: WritePages>(
    alloc: Global,
    pages: &mut P,
    table: &Table,
    condition: &Option<Term>,
    sets: &[(usize, Term)],
    rows: &Many<SourceRow>,
) -> R<Vec<TableRow>>
    ensures set { IsTrue (P.Pages.tells (P.Pages.below pages.old))
        → SetsRows (P.Pages.map pages.old) (P.Pages.map pages.new)
        (P.Pages.limits (P.Pages.below pages.old)).page
        table.now.root table.now sets.now condition.now rows.now result }
    ensures rows { TellsChanged table.now sets.now condition.now rows.now result }
    ensures kept { P.Pages.below pages.new ≡ P.Pages.below pages.old }
    ensures causes { Causes result (P.Pages.failures pages.old) (P.Pages.failures pages.new)
        (P.Pages.count pages.new ≡ (P.Pages.limits (P.Pages.below pages.new)).most) }
{
    let places = meant_places(alloc, rows, condition)?;
    set_rows_at(alloc, pages, table, sets, rows, &places)
}

/// Sets values in one row of a table's tree, which is the row at a place, and answers what it has become. (What SET's expressions, `check_row`
/// and `move_record` refuse, and a real; `RowidMismatch` where no integer is in the rowid's own column; `Unique` if another row has its rowid then;
/// only what `move_record` refuses leaves it set.)
pub fn set_row<P: WritePages>(
    alloc: Global,
    pages: &mut P,
    table: &Table,
    sets: &[(usize, Term)],
    rows: &Many<SourceRow>,
    place: usize,
) -> R<TableRow>
    ensures set { IsTrue (P.Pages.tells (P.Pages.below pages.old))
        → SetsRow (P.Pages.map pages.old) (P.Pages.map pages.new)
        (P.Pages.limits (P.Pages.below pages.old)).page
        table.now.root table.now sets.now (row_at rows.now place) result }
    ensures kept { P.Pages.below pages.new ≡ P.Pages.below pages.old }
    ensures causes { Causes result (P.Pages.failures pages.old) (P.Pages.failures pages.new)
        (P.Pages.count pages.new ≡ (P.Pages.limits (P.Pages.below pages.new)).most) }
{
    let mut new = row_set_at(alloc, table, sets, rows, place)?;
    let written = record_for(alloc, table.own_column(), &mut new)?;
    let gone = rowid_at(rows, place);
    if written.rowid == gone {
        replace_record(alloc, pages, table.root, written)?;
    } else {
        move_record(alloc, pages, table.root, gone, &written)?;
    }
    Ok(new)
}
