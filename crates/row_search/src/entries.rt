//! The rowids of the entries of an index that are looked for.

ghost use Rattle.std.specs.Prelude.{◌≡◌, ◌+◌, List, length, map, IsTrue, IfOk, IfErr, OnOk, Some, option_map, slice_index_or};
ghost use Rattle.std.specs.List.{AllByRecursion};
ghost use Rattle.std.specs.Ordering.{int_cmp};
ghost use Rattle.sqlval.specs.Faults.{IsNotDiskFault, IsOrMemory};
ghost use Rattle.sqlval.specs.Fields.{value_of};
ghost use Rattle.sqlval.specs.Lists.{sorted};
ghost use Rattle.sqlval.specs.declared.collation.Collation.TheVariants as collation;
ghost use Rattle.sqlval.specs.declared.value.Value.TheVariants as value;
ghost use Rattle.pages.specs.Calls.{Stays};
ghost use Rattle.record.specs.Record.{IsRecord};
ghost use Rattle.tree_page.specs.Cells.{Pairwise};
ghost use Rattle.tree_index.specs.Entries.{Entry};
ghost use Rattle.row_search.specs.Finding as finding;
ghost use Rattle.row_search.specs.Finding.{AddsFirst, AddsRowids, EndsWithRowid, FindsRowids, entry_rowid, passing_rowid};

use crate::ranges::is_within;
use crate::seeking::seek;
use pages::Pages;
use query_plan::Range;
use record::Record;
use sqlval::{Collation, Damage, Fault, Field, Many, R};
use std::alloc::Global;
use tree_index::{Key, compare_entry};

/// The rowid that an entry ends with, if it ends with one.
fn rowid_of(entry: &Record<'_>) -> Option<i64>
    ensures { EndsWithRowid entry.now → result ≡ Some (entry_rowid entry.now) }
{
    if entry.len() == 0 {
        return None;
    }
    match entry.column(entry.len() - 1) {
        Field::Int(rowid) => Some(rowid),
        _ => None,
    }
}

/// The collation of the value at a place of an entry: that of the column, and BINARY for the rowid.
fn collation_at(columns: &[Collation], place: usize) -> Collation
    ensures { result ≡ slice_index_or columns.now place collation.Binary }
{
    if place < columns.len() {
        return columns[place];
    }
    Collation::Binary
}

/// The value at a place of an entry, NULL past the last.
fn value_at<'a>(entry: &Record<'a>, place: usize) -> Field<'a>
    ensures { value_of result ≡ slice_index_or entry.now place value.Null }
{
    if place < entry.len() {
        return entry.column(place);
    }
    Field::Null
}

/// Whether the value after a key's lies in a range, if there is one.
fn goes_on_in(key: Key<'_>, range: Option<&Range>, entry: &Record<'_>) -> bool
    ensures { result
        ≡ finding.goes_on_in key.entry.columns.now key.entry.values.now
        (option_map (λ r. r.now) range.entry) entry.now }
{
    let Some(range) = range else {
        return true;
    };
    let place = key.values.len();
    is_within(
        value_at(entry, place),
        range,
        collation_at(key.columns, place),
    )
}

/// Whether an entry begins with a key, and its next value lies in a range, if there is one.
fn is_sought(key: Key<'_>, range: Option<&Range>, entry: &Record<'_>) -> bool
    ensures { result
        ≡ finding.is_sought key.entry.columns.now key.entry.values.now
        (option_map (λ r. r.now) range.entry) entry.now }
{
    compare_entry(key, entry).is_eq() && goes_on_in(key, range, entry)
}

/// The rowid of the entry of a record, if it is looked for. (`Memory`, and what `Record::over` refuses; `Damaged(Index, root)` for an entry
/// that ends with no rowid.)
fn sought_rowid(
    alloc: Global,
    root: u32,
    key: Key<'_>,
    range: Option<&Range>,
    bytes: &[u8],
) -> R<Option<i64>>
    ensures only { (entry : Entry) → IsRecord bytes.now entry → EndsWithRowid entry
        → IsOrMemory (λ found. found
        ≡ passing_rowid (finding.is_sought key.entry.columns.now key.entry.values.now
        (option_map (λ r. r.now) range.entry)) entry) result }
    ensures not_disk { IfErr result IsNotDiskFault }
{
    let entry = Record::over(alloc, bytes)?;
    if !is_sought(key, range, &entry) {
        return Ok(None);
    }
    match rowid_of(&entry) {
        Some(rowid) => Ok(Some(rowid)),
        None => Err(Fault::Damaged(Damage::Index, root)),
    }
}

/// Puts the rowids of the entries of these records after others, up to the first entry that isn't looked for. Answers whether all are. (What
/// `sought_rowid` refuses.)
fn add_rowids(
    alloc: Global,
    root: u32,
    key: Key<'_>,
    range: Option<&Range>,
    records: &[Vec<u8>],
    rowids: &mut Vec<i64>,
) -> R<bool>
    ensures only { (given : List Entry) → Pairwise IsRecord
        (map (λ bytes. bytes.items) records.now) given → AllByRecursion EndsWithRowid given
        → IsOrMemory (λ all. AddsFirst
        (finding.is_sought key.entry.columns.now key.entry.values.now (option_map (λ r. r.now) range.entry))
        given rowids.old.items rowids.new.items all) result }
    ensures grown { IfOk result (λ all. IsTrue all
        → length rowids.new.items ≡ length rowids.old.items + length records.now) }
    ensures not_disk { IfErr result IsNotDiskFault }
{
    'records: for record in records {
        let Some(rowid) = sought_rowid(alloc, root, key, range, record.as_slice())? else {
            return Ok(false);
        };
        rowids.push(rowid)?;
    }
    Ok(true)
}

/// Puts the rowids of the entries of an index's tree that are looked for after others, in the order of the entries. (What
/// `Cursor::next_batch` and `add_rowids` refuse.)
fn add_sought<P: Pages>(
    alloc: Global,
    pages: &mut P,
    root: u32,
    key: Key<'_>,
    range: Option<&Range>,
    rowids: &mut Vec<i64>,
) -> R<()>
    ensures added { IsTrue (P.Pages.tells (P.Pages.below pages.old))
        → AddsRowids (P.Pages.map pages.old) (P.Pages.limits (P.Pages.below pages.old)).page
        root key.entry.columns.now key.entry.values.now
        (option_map (λ r. r.now) range.entry) rowids.old.items rowids.new.items result }
    ensures stays { Stays P.Pages.below P.Pages.map P.Pages.count P.Pages.failures result pages.old pages.new }
{
    let mut cursor = seek(alloc, root, key.values, range)?;
    let mut batch = Vec::new(alloc);
    'batches: loop {
        cursor.next_batch(pages, key.columns, &mut batch)?;
        if batch.as_slice().is_empty() {
            return Ok(());
        }
        if !add_rowids(alloc, root, key, range, batch.as_slice(), rowids)? {
            return Ok(());
        }
    }
}

/// Sorts rowids. (`Memory`.)
fn sort_rowids(rowids: &mut Vec<i64>) -> R<()>
    ensures sorted { OnOk result (rowids.new.items ≡ sorted int_cmp rowids.old.items) }
    ensures refused { IfErr result (λ fault. fault ≡ Fault.Memory) }
{
    rowids.sort_by(|a, b| a.cmp(b))?;
    Ok(())
}

/// The rowids of the entries of an index's tree that begin with a key, and whose next value lies in a range, if there is one, rising. (What
/// `add_sought` refuses.)
pub(crate) fn sought_rowids<P: Pages>(
    alloc: Global,
    pages: &mut P,
    root: u32,
    key: Key<'_>,
    range: Option<&Range>,
) -> R<Many<i64>>
    ensures found { IsTrue (P.Pages.tells (P.Pages.below pages.old))
        → FindsRowids (P.Pages.map pages.old) (P.Pages.limits (P.Pages.below pages.old)).page
        root key.entry.columns.now key.entry.values.now (option_map (λ r. r.now) range.entry) result }
    ensures stays { Stays P.Pages.below P.Pages.map P.Pages.count P.Pages.failures result pages.old pages.new }
{
    let mut rowids = Vec::new(alloc);
    add_sought(alloc, pages, root, key, range, &mut rowids)?;
    sort_rowids(&mut rowids)?;
    Ok(Many::from_vec(rowids))
}
