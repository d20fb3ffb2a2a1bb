//! The check that an index has exactly the entries of its table's rows.

ghost use Rattle.std.specs.Prelude.{◌≡◌, ◌≤◌, ◌+◌, IsTrue, IfOk, IfErr, List, length, map, true};
ghost use Rattle.std.specs.Ordering.{is_lt};
ghost use Rattle.sqlval.specs.Faults.{IsNotDiskFault, IsOrMemory};
ghost use Rattle.sqlval.specs.Fields.{value_of};
ghost use Rattle.sqlval.specs.Order.{order};
ghost use Rattle.sqlval.specs.declared.collation.Collation.TheVariants.{Binary};
ghost use Rattle.pages.specs.Calls.{Stays};
ghost use Rattle.record.specs.Record.{IsRecord};
ghost use Rattle.tree_page.specs.Cells.{Pairwise};
ghost use Rattle.tree_index.specs.Entries.{Entry};
ghost use Rattle.index_build.specs.Calls.{ChecksEntries, Tells};
ghost use Rattle.index_build.specs.Checking.{AreFew, ComparesEntries, HasRowidAt, IsRowPlace, IsRowsEntry, are_by_rowid};
ghost use Rattle.index_build.specs.Ranking.{indexed_of};

use crate::entries::column_of;
use catalog::IndexColumn;
use index_entries::collations_of;
use pages::Pages;
use query_names::BoundSource;
use query_terms::SourceRow;
use record::Record;
use row_scan::source_rows;
use sqlval::{Collation, Damage, Fault, Field, R, compare_fields};
use std::alloc::Global;
use tree_index::Cursor;

/// Whether two values are one.
fn is_same(a: Field<'_>, b: Field<'_>) -> bool
    ensures { Tells result (value_of a.entry ≡ value_of b.entry) }
{
    compare_fields(a, b, Collation::Binary).is_eq()
}

/// Whether a row's rowid is less than a value.
fn is_before(row: &SourceRow, rowid: Field<'_>) -> bool
    ensures { result ≡ is_lt (order Binary row.now.rowid (value_of rowid.entry)) }
{
    compare_fields(row.rowid_field(), rowid, Collation::Binary).is_lt()
}

/// Whether the row at a place has this rowid.
fn has_rowid(rows: &[SourceRow], place: usize, rowid: Field<'_>) -> bool
    ensures { Tells result (HasRowidAt rows.now (value_of rowid.entry) place) }
{
    if place >= rows.len() {
        return false;
    }
    is_same(rows[place].rowid_field(), rowid)
}

/// How far this rowid is from that of the first row: the place of its row, where no rowid between them is free. (No clause says so: it is
/// looked at first.)
fn distance(rows: &[SourceRow], rowid: Field<'_>) -> Option<usize> {
    let first = rows.first()?.rowid()?;
    match rowid {
        Field::Int(rowid) => usize::try_from(rowid.checked_sub(first)?).ok(),
        _ => None,
    }
}

/// The place of the row of this rowid, among rows by rising rowid; any where there is none.
fn place_of(rows: &[SourceRow], rowid: Field<'_>) -> usize
    ensures { IsRowPlace rows.now (value_of rowid.entry) result }
{
    let near = distance(rows, rowid).unwrap_or(0);
    if has_rowid(rows, near, rowid) {
        return near;
    }
    rows.partition_point(|row| is_before(row, rowid))
}

/// Whether an entry of as many values, which lies in a record, is that of a row.
fn is_entry_of(entry: &Record<'_>, row: &SourceRow, columns: &[IndexColumn]) -> bool
    requires { length entry.now ≡ length columns.now + 1 }
    ensures { Tells result (entry.now ≡ indexed_of columns.now row.now) }
{
    'columns: for place in 0..columns.len() {
        if !is_same(entry.column(place), column_of(row, columns[place].place)) {
            return false;
        }
    }
    is_same(entry.column(columns.len()), row.rowid_field())
}

/// Whether an entry, which lies in a record, is that of one of these rows, which stand by rising rowid.
fn is_of_row(entry: &Record<'_>, rows: &[SourceRow], columns: &[IndexColumn]) -> bool
    ensures { are_by_rowid rows.now ≡ true → Tells result (IsRowsEntry columns.now rows.now entry.now) }
{
    if entry.len() != columns.len() + 1 {
        return false;
    }
    let place = place_of(rows, entry.column(columns.len()));
    if place >= rows.len() {
        return false;
    }
    is_entry_of(entry, &rows[place], columns)
}

/// Whether these bytes are the record of the entry of one of these rows. (`Memory`, and what `Record::over` refuses.)
fn is_record_of_row(
    alloc: Global,
    bytes: &[u8],
    rows: &[SourceRow],
    columns: &[IndexColumn],
) -> R<bool>
    ensures only { (entry : Entry) → are_by_rowid rows.now ≡ true → IsRecord bytes.now entry
        → IsOrMemory (λ is. Tells is (IsRowsEntry columns.now rows.now entry)) result }
    ensures not_disk { IfErr result IsNotDiskFault }
{
    let record = Record::over(alloc, bytes)?;
    Ok(is_of_row(&record, rows, columns))
}

/// Whether these are at most so many records, each that of the entry of one of these rows. (`Memory`, and what `Record::over` refuses.)
fn are_of_rows(
    alloc: Global,
    records: &[Vec<u8>],
    most: usize,
    rows: &[SourceRow],
    columns: &[IndexColumn],
) -> R<bool>
    ensures only { (given : List Entry) → are_by_rowid rows.now ≡ true
        → Pairwise IsRecord (map (λ bytes. bytes.items) records.now) given
        → IsOrMemory (λ are. Tells are (AreFew columns.now rows.now most given)) result }
    ensures few { IfOk result (λ are. IsTrue are → length records.now ≤ most) }
    ensures not_disk { IfErr result IsNotDiskFault }
{
    if records.len() > most {
        return Ok(false);
    }
    'records: for index in 0..records.len() {
        if !is_record_of_row(alloc, records[index].as_slice(), rows, columns)? {
            return Ok(false);
        }
    }
    Ok(true)
}

/// Checks that the index's tree under a root has as many entries as these rows, and of these alone. As its entries rise, no two are of one
/// row. (`Damaged(Index, root)`; what `Cursor::next_batch` and `are_of_rows` refuse.)
fn compare_with<P: Pages>(
    alloc: Global,
    pages: &mut P,
    root: u32,
    columns: &[IndexColumn],
    collations: &[Collation],
    rows: &[SourceRow],
) -> R<()>
    ensures compared { IsTrue (P.Pages.tells (P.Pages.below pages.old))
        → ComparesEntries (P.Pages.map pages.old)
        (P.Pages.limits (P.Pages.below pages.old)).page root columns.now collations.now rows.now result }
    ensures stays { Stays P.Pages.below P.Pages.map P.Pages.count P.Pages.failures result pages.old pages.new }
{
    let mut batch = Vec::new(alloc);
    let mut cursor = Cursor::seek(root, Vec::new(alloc));
    let mut left = rows.len();
    'batches: loop {
        cursor.next_batch(pages, collations, &mut batch)?;
        let records = batch.as_slice();
        if records.is_empty() {
            break;
        }
        if !are_of_rows(alloc, records, left, rows, columns)? {
            return Err(Fault::Damaged(Damage::Index, root));
        }
        left -= records.len();
    }
    if left > 0 {
        return Err(Fault::Damaged(Damage::Index, root));
    }
    Ok(())
}

/// Checks that an index's tree has exactly the entries of its table's rows. (`Damaged(Index, root)` if it has others; what
/// `source_rows` and `Cursor::next_batch` refuse.)
pub fn check_entries<P: Pages>(
    alloc: Global,
    pages: &mut P,
    root: u32,
    table: BoundSource,
    columns: &[IndexColumn],
) -> R<()>
    ensures checked { IsTrue (P.Pages.tells (P.Pages.below pages.old))
        → ChecksEntries (P.Pages.map pages.old)
        (P.Pages.limits (P.Pages.below pages.old)).page root table columns.now result }
    ensures stays { Stays P.Pages.below P.Pages.map P.Pages.count P.Pages.failures result pages.old pages.new }
{
    let rows = source_rows(alloc, pages, table)?;
    let collations = collations_of(alloc, columns)?;
    compare_with(
        alloc,
        pages,
        root,
        columns,
        collations.as_slice(),
        rows.as_slice(),
    )
}
