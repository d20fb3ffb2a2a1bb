//! The rows of a table as a query's source.

ghost use Rattle.std.specs.Prelude.{◌≡◌, ◌+◌, ◌++◌, ◌∷◌, [], Some, map, take, IfErr, IfOk, IsTrue};
ghost use Rattle.sqlval.specs.Faults.{IsOrMemory};
ghost use Rattle.sqlval.specs.Gives.{Gives};
ghost use Rattle.pages.specs.Calls.{Stays};
ghost use Rattle.tree_table.specs.Scanning.{IsForward, entry_in};
ghost use Rattle.row_scan.specs.Answers.{left};
ghost use Rattle.row_scan.specs.Sources.{GivesRows, GivesShown, HoldRows, LoadsRows, LoadsRowsAt, LoadsShown, as_shown, places_shown, shown_at};

use pages::Pages;
use query_names::BoundSource;
use query_terms::{Place, SourceRow};
use record::records_hold_their_values;
use sqlval::{Many, R};
use std::alloc::Global;
use std::rc::Rc;
use tree_table::{Batch, BatchEntry, Cursor, get};

/// The row of a batch as a source has it, or what is shown of it. (`Memory`.)
fn source_row(
    alloc: Global,
    own: Option<usize>,
    shown: Option<&Rc<Vec<Place>>>,
    row: BatchEntry<'_>,
) -> R<SourceRow>
    ensures { Gives (λ row. row) result (shown_at (places_shown shown.entry) own (entry_in row.entry)) }
{
    let rowid = Some(row.rowid);
    match shown {
        None => Ok(SourceRow::new(alloc, rowid, own, row.payload)?),
        Some(places) => Ok(SourceRow::shown(alloc, rowid, own, row.payload, places)?),
    }
}

/// Adds the rows of a batch. (`Memory`.)
fn add_source_rows(
    alloc: Global,
    own: Option<usize>,
    shown: Option<&Rc<Vec<Place>>>,
    batch: &Batch,
    rows: &mut Many<SourceRow>,
) -> R<()>
    ensures { Gives (λ done. rows.new) result (left (shown_at (places_shown shown.entry) own) batch.now rows.old) }
{
    'rows: for index in 0..batch.len() {
        rows.push(source_row(alloc, own, shown, batch.row(index))?)?;
    }
    Ok(())
}

/// The rows of a table, by rising rowid. What their records say is read where it is asked for, so no row is refused for it: the trees that
/// `check_tree_rows` passed have records. (What `Cursor::next_batch` refuses.)
pub fn source_rows<P: Pages>(alloc: Global, pages: &mut P, table: BoundSource) -> R<Many<SourceRow>>
    ensures loaded { IsTrue (P.Pages.tells (P.Pages.below pages.old))
        → LoadsRows (P.Pages.map pages.old) (P.Pages.limits (P.Pages.below pages.old)).page table result }
    ensures stays { Stays P.Pages.below P.Pages.map P.Pages.count P.Pages.failures result pages.old pages.new }
{
    shown_rows(alloc, pages, table, None)
}

/// The same, or, where places are given, what is shown of these rows: the values at the places, and no rowid. (What `Cursor::next_batch` refuses.)
pub fn shown_rows<P: Pages>(
    alloc: Global,
    pages: &mut P,
    table: BoundSource,
    shown: Option<&Rc<Vec<Place>>>,
) -> R<Many<SourceRow>>
    ensures loaded { IsTrue (P.Pages.tells (P.Pages.below pages.old))
        → LoadsShown (P.Pages.map pages.old) (P.Pages.limits (P.Pages.below pages.old)).page (places_shown shown.entry) table result }
    ensures stays { Stays P.Pages.below P.Pages.map P.Pages.count P.Pages.failures result pages.old pages.new }
{
    records_hold_their_values();
    let mut rows = Many::new(alloc);
    let mut batch = Batch::new(alloc);
    let mut cursor = Cursor::new(table.root);
    'batches: while cursor.next.is_some() {
        cursor.next_batch(pages, &mut batch)?;
        add_source_rows(alloc, table.shape.own, shown, &batch, &mut rows)?;
    }
    Ok(rows)
}

/// The row of a table that has this rowid, if there is one. (What `get` refuses.)
pub fn source_rows_at<P: Pages>(
    alloc: Global,
    pages: &mut P,
    table: BoundSource,
    rowid: i64,
) -> R<Many<SourceRow>>
    ensures loaded { IsTrue (P.Pages.tells (P.Pages.below pages.old))
        → LoadsRowsAt (P.Pages.map pages.old)
        (P.Pages.limits (P.Pages.below pages.old)).page table rowid result }
    ensures stays { Stays P.Pages.below P.Pages.map P.Pages.count P.Pages.failures result pages.old pages.new }
{
    records_hold_their_values();
    let mut rows = Many::new(alloc);
    let mut payload = Vec::new(alloc);
    if get(pages, table.root, rowid, &mut payload)? {
        let own = table.shape.own;
        rows.push(SourceRow::new(alloc, Some(rowid), own, payload.as_slice())?)?;
    }
    Ok(rows)
}

/// The row becomes that of a batch, or what is shown of it. (`Memory`.)
fn refill(
    alloc: Global,
    own: Option<usize>,
    shown: Option<&Rc<Vec<Place>>>,
    there: &mut SourceRow,
    row: BatchEntry<'_>,
) -> R<()>
    ensures { IsOrMemory (λ done. there.new ≡ as_shown (places_shown shown.entry) own (entry_in row.entry)) result }
{
    let rowid = Some(row.rowid);
    match shown {
        None => there.refill(alloc, rowid, own, row.payload)?,
        Some(places) => there.refill_shown(alloc, rowid, own, row.payload, places)?,
    }
    Ok(())
}

/// Writes the row of a batch, or what is shown of it, over that at a place, or puts it behind the last where there is none. (`Memory`.)
fn put_source_row(
    alloc: Global,
    own: Option<usize>,
    shown: Option<&Rc<Vec<Place>>>,
    rows: &mut Vec<SourceRow>,
    place: usize,
    row: BatchEntry<'_>,
) -> R<()>
    ensures { IsOrMemory (λ done. take (place + 1) rows.new.items
        ≡ take place rows.old.items ++ as_shown (places_shown shown.entry) own (entry_in row.entry) ∷ []) result }
{
    match rows.get_mut(place) {
        Some(there) => refill(alloc, own, shown, there, row)?,
        None => rows.push(source_row(alloc, own, shown, row)?)?,
    }
    Ok(())
}

/// The rows of a batch, or what is shown of them, written over these. (`Memory`.)
fn batch_rows(
    alloc: Global,
    own: Option<usize>,
    shown: Option<&Rc<Vec<Place>>>,
    batch: &Batch,
    rows: Many<SourceRow>,
) -> R<Many<SourceRow>>
    ensures { IsOrMemory (λ rows. rows ≡ map (as_shown (places_shown shown.entry) own) batch.now) result }
{
    let mut items = rows.into_vec();
    'written: for place in 0..batch.len() {
        put_source_row(alloc, own, shown, &mut items, place, batch.row(place))?;
    }
    items.truncate(batch.len());
    Ok(Many::from_vec(items))
}

/// The next rows of a table's tree, written over others: at least one, unless the cursor is at the end. `own` is the place of the rowid's own
/// column. (What `Cursor::next_batch` refuses.)
pub fn next_source_rows<P: Pages>(
    alloc: Global,
    pages: &mut P,
    cursor: &mut Cursor,
    batch: &mut Batch,
    own: Option<usize>,
    rows: Many<SourceRow>,
) -> R<Many<SourceRow>>
    ensures given { IsTrue (P.Pages.tells (P.Pages.below pages.old))
        → GivesRows (P.Pages.map pages.old) (P.Pages.limits (P.Pages.below pages.old)).page
        cursor.old.root own cursor.old.next cursor.new.next result }
    ensures forward { IfOk result (λ rows. IsForward cursor.old.next cursor.new.next) }
    ensures root { cursor.new.root ≡ cursor.old.root }
    ensures stays { Stays P.Pages.below P.Pages.map P.Pages.count P.Pages.failures result pages.old pages.new }
{
    next_shown_rows(alloc, pages, cursor, batch, own, None, rows)
}

/// The same, or, where places are given, what is shown of these rows: the values at the places, and no rowid. (What `Cursor::next_batch` refuses.)
pub fn next_shown_rows<P: Pages>(
    alloc: Global,
    pages: &mut P,
    cursor: &mut Cursor,
    batch: &mut Batch,
    own: Option<usize>,
    shown: Option<&Rc<Vec<Place>>>,
    rows: Many<SourceRow>,
) -> R<Many<SourceRow>>
    ensures given { IsTrue (P.Pages.tells (P.Pages.below pages.old))
        → GivesShown (P.Pages.map pages.old) (P.Pages.limits (P.Pages.below pages.old)).page
        cursor.old.root (places_shown shown.entry) own cursor.old.next cursor.new.next result }
    ensures forward { IfOk result (λ rows. IsForward cursor.old.next cursor.new.next) }
    ensures root { cursor.new.root ≡ cursor.old.root }
    ensures stays { Stays P.Pages.below P.Pages.map P.Pages.count P.Pages.failures result pages.old pages.new }
{
    cursor.next_batch(pages, batch)?;
    batch_rows(alloc, own, shown, batch, rows)
}

/// Entries that are rows of a table are held as these.
pub fn rows_are_held()
    ensures { HoldRows }
{
    records_hold_their_values();
}
