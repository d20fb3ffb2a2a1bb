//! The tree of a UNIQUE index, read from its beginning for two entries of one key.

ghost use Rattle.std.specs.Prelude.{◌≡◌, ◌<◌, ◌&&◌, ◌-◌, IsTrue, IfOk, IfErr, List, drop, false, length, map, not};
ghost use Rattle.std.specs.Ordering.{is_eq};
ghost use Rattle.sqlval.specs.Fields.{value_of};
ghost use Rattle.sqlval.specs.Order.{order};
ghost use Rattle.pages.specs.Calls.{Stays};
ghost use Rattle.record.specs.Columns.{values_in};
ghost use Rattle.record.specs.Record.{IsRecord};
ghost use Rattle.tree_page.specs.Cells.{Pairwise};
ghost use Rattle.tree_index.specs.Entries.{Entry};
ghost use Rattle.query_names.specs.Keys as keys;
ghost use Rattle.index_build.specs.Calls.{SeesKeysApart};
ghost use Rattle.index_build.specs.Ranking.{any_beside, have_one_key, value_or_null};

use crate::clashes::is_null;
use catalog::IndexColumn;
use pages::Pages;
use record::{records_hold_their_values, value_at};
use sqlval::{Collation, Fault, Field, R, compare_fields};
use std::alloc::Global;
use std::mem::replace;
use tree_index::Cursor;

/// Whether two values are equal, and not NULL.
fn is_shared(collation: Collation, a: Field<'_>, b: Field<'_>) -> bool
    ensures { result ≡ not (keys.is_null (value_of a.entry)) && is_eq (order collation (value_of a.entry) (value_of b.entry)) }
{
    if is_null(a) {
        return false;
    }
    compare_fields(a, b, collation).is_eq()
}

/// Whether the records in these bytes, which are read where they lie, have equal values of the columns, and none is NULL.
fn share_key(columns: &[IndexColumn], a: &[u8], b: &[u8]) -> bool
    ensures { result ≡ have_one_key 0 columns.now (values_in a.now) (values_in b.now) }
{
    'columns: for index in 0..columns.len() {
        if !is_shared(
            columns[index].collation,
            value_at(a, index),
            value_at(b, index),
        ) {
            return false;
        }
    }
    true
}

/// The same of records whose first values are known: most often these differ.
fn share_all(
    columns: &[IndexColumn],
    a: &[u8],
    b: &[u8],
    first: Field<'_>,
    other: Field<'_>,
) -> bool
    requires some { 0 < length columns.now }
    requires first { value_of first ≡ value_or_null (values_in a.now) 0 }
    requires other { value_of other ≡ value_or_null (values_in b.now) 0 }
    ensures { result ≡ have_one_key 0 columns.now (values_in a.now) (values_in b.now) }
{
    if !is_shared(columns[0].collation, first, other) {
        return false;
    }
    share_key(columns, a, b)
}

/// Whether no two of these records, one after the other, have one key without NULL. (`false` where there are no columns.)
fn neighbours_are_apart(columns: &[IndexColumn], records: &[Vec<u8>]) -> bool
    ensures { (given : List Entry) → Pairwise IsRecord (map (λ bytes. bytes.items) records.now) given
        → IsTrue result → any_beside (have_one_key 0 columns.now) given ≡ false }
{
    records_hold_their_values();
    if columns.is_empty() || records.is_empty() {
        return records.is_empty();
    }
    let mut before = records[0].as_slice();
    let mut first = value_at(before, 0);
    'records: for index in 1..records.len() {
        let here = records[index].as_slice();
        let value = value_at(here, 0);
        if share_all(columns, before, here, first, value) {
            return false;
        }
        before = here;
        first = value;
    }
    true
}

/// Takes the last of some records out, or none where there are none. (`Memory`.)
fn last_of(records: &mut Vec<Vec<u8>>) -> R<Vec<Vec<u8>>>
    ensures last { IfOk result (λ last. last.items ≡ drop (length records.old.items - 1) records.old.items) }
    ensures refused { IfErr result (λ fault. fault ≡ Fault.Memory) }
{
    let place = records.len().saturating_sub(1);
    Ok(records.split_off(place)?)
}

/// Whether it is seen that no two entries in the tree of a UNIQUE index have one key, in reading at most so many leaves from its beginning.
/// `false` where two have one key, or where it has more entries. (`Memory`, and what `Cursor::next_batch` refuses.)
pub fn keys_are_apart<P: Pages>(
    alloc: Global,
    pages: &mut P,
    root: u32,
    columns: &[IndexColumn],
    under: &[Collation],
    most: usize,
) -> R<bool>
    requires { under.now ≡ map (λ column. column.collation) columns.now }
    ensures seen { IsTrue (P.Pages.tells (P.Pages.below pages.old))
        → SeesKeysApart (P.Pages.map pages.old)
        (P.Pages.limits (P.Pages.below pages.old)).page root columns.now result }
    ensures stays { Stays P.Pages.below P.Pages.map P.Pages.count P.Pages.failures result pages.old pages.new }
{
    let mut batch = Vec::new(alloc);
    let mut seen = Vec::new(alloc);
    let mut cursor = Cursor::seek(root, Vec::new(alloc));
    'batches: for _ in 0..most {
        cursor.next_batch(pages, under, &mut batch)?;
        seen.append(&mut batch)?;
        if !neighbours_are_apart(columns, seen.as_slice()) {
            return Ok(false);
        }
        if cursor.ended {
            return Ok(true);
        }
        let last = last_of(&mut seen)?;
        batch = replace(&mut seen, last);
    }
    Ok(false)
}
