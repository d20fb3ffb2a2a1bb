//! Rows that are taken out of the tree of their table.

ghost use Rattle.std.specs.Prelude.{◌≡◌, List, None, IfOk, IfErr, IsTrue, map};
ghost use Rattle.tree_leaf.specs.Leaf.{Entry};
ghost use Rattle.pages.specs.Calls.{Causes};
ghost use Rattle.tree_table.specs.Rows.{with_changes};
ghost use Rattle.query_terms.specs.Rows.{row_at};
ghost use Rattle.catalog.specs.Rows.{as_row, rowid_number};
ghost use Rattle.row_change.specs.Taking.{MakesRows, TakesRows, TakesThese, without_rows};

use crate::choosing::chosen_rowids;
use crate::setting::rowid_at;
use pages::WritePages;
use query_names::BoundSource;
use query_terms::{SourceRow, Term};
use sqlval::{Fault, Many, R};
use std::alloc::Global;
use tree_table::{RowChange, change_rows};

/// The removal of the row of a rowid.
fn removal(rowid: &i64) -> RowChange
    ensures rowid { result.rowid ≡ rowid.now }
    ensures none { result.payload ≡ None }
{
    RowChange {
        rowid: *rowid,
        payload: None,
    }
}

/// The removals of the rows of these rowids.
fn removals(alloc: Global, rowids: &[i64]) -> R<Vec<RowChange>>
    ensures made { (rows : List Entry) → IfOk result
        (λ changes. with_changes changes.items rows ≡ without_rows rowids.now rows) }
    ensures refused { IfErr result (λ fault. fault ≡ Fault.Memory) }
{
    let mut changes = Vec::with_capacity(alloc, rowids.len())?;
    'rowids: for rowid in rowids {
        changes.push(removal(rowid))?;
    }
    Ok(changes)
}

/// Takes the rows of these rowids out of the tree under a root. (What `change_rows` refuses.)
fn take_rowids<P: WritePages>(alloc: Global, pages: &mut P, root: u32, rowids: &[i64]) -> R<()>
    ensures taken { IsTrue (P.Pages.tells (P.Pages.below pages.old))
        → MakesRows (P.Pages.map pages.old) (P.Pages.map pages.new)
        (P.Pages.limits (P.Pages.below pages.old)).page
        root (without_rows rowids.now) result }
    ensures kept { P.Pages.below pages.new ≡ P.Pages.below pages.old }
    ensures causes { Causes result (P.Pages.failures pages.old) (P.Pages.failures pages.new)
        (P.Pages.count pages.new ≡ (P.Pages.limits (P.Pages.below pages.new)).most) }
{
    let changes = removals(alloc, rowids)?;
    change_rows(alloc, pages, root, &changes)
}

/// Takes the rows for which a condition is true out of a table's tree, of which the rows given are enough for the condition. (What the condition
/// and `change_rows` refuse; where the condition is refused, no row is taken out.)
pub fn take_rows<P: WritePages>(
    alloc: Global,
    pages: &mut P,
    table: BoundSource,
    condition: &Term,
    rows: &Many<SourceRow>,
) -> R<()>
    ensures taken { IsTrue (P.Pages.tells (P.Pages.below pages.old))
        → TakesRows (P.Pages.map pages.old) (P.Pages.map pages.new)
        (P.Pages.limits (P.Pages.below pages.old)).page
        table condition.now rows.now result }
    ensures kept { P.Pages.below pages.new ≡ P.Pages.below pages.old }
    ensures causes { Causes result (P.Pages.failures pages.old) (P.Pages.failures pages.new)
        (P.Pages.count pages.new ≡ (P.Pages.limits (P.Pages.below pages.new)).most) }
{
    let rowids = chosen_rowids(alloc, rows, condition)?;
    take_rowids(alloc, pages, table.root, &rowids)
}

/// The rowids of the rows at these places. (`Memory`.)
fn rowids_at(alloc: Global, rows: &Many<SourceRow>, places: &[usize]) -> R<Vec<i64>>
    ensures rowids { IfOk result (λ rowids. rowids.items
        ≡ map (λ place. rowid_number (row_at rows.now place).rowid) places.now) }
    ensures refused { IfErr result (λ fault. fault ≡ Fault.Memory) }
{
    let mut rowids = Vec::with_capacity(alloc, places.len())?;
    'places: for place in places {
        rowids.push(rowid_at(rows, *place))?;
    }
    Ok(rowids)
}

/// Takes the rows at these places, of rows that were read, out of a table's tree: those for which a condition is true, where it has been evaluated.
/// (What `change_rows` refuses.)
pub fn take_these<P: WritePages>(
    alloc: Global,
    pages: &mut P,
    table: BoundSource,
    rows: &Many<SourceRow>,
    places: &[usize],
) -> R<()>
    ensures taken { IsTrue (P.Pages.tells (P.Pages.below pages.old))
        → TakesThese (P.Pages.map pages.old) (P.Pages.map pages.new)
        (P.Pages.limits (P.Pages.below pages.old)).page
        table (map (λ place. as_row (row_at rows.now place)) places.now) result }
    ensures kept { P.Pages.below pages.new ≡ P.Pages.below pages.old }
    ensures causes { Causes result (P.Pages.failures pages.old) (P.Pages.failures pages.new)
        (P.Pages.count pages.new ≡ (P.Pages.limits (P.Pages.below pages.new)).most) }
{
    let rowids = rowids_at(alloc, rows, places)?;
    take_rowids(alloc, pages, table.root, &rowids)
}
