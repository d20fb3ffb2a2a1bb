//! Entries of rows that take the places of others.

ghost use Rattle.std.specs.Prelude.{◌≡◌, true, map, min, slice_index_or, IsTrue, IfErr, Ok};
ghost use Rattle.std.specs.List.{list_all};
ghost use Rattle.sqlval.specs.Fields.{value_of};
ghost use Rattle.sqlval.specs.Sameness.{is_same_value};
ghost use Rattle.sqlval.specs.declared.value.Value.TheVariants.{Null};
ghost use Rattle.pages.specs.Calls.{Causes};
ghost use Rattle.index_entries.specs.Keeping.{AddsEntries, columns_in, row_in};
ghost use Rattle.index_entries.specs.Replacing.{HaveSameKeys, ReplacesEntries, ReplacesEntry, changed, has_same_key};

use crate::adding::add_batch;
use crate::columns::collations_of;
use crate::keeping::{BATCH, add_entry, take_entry};
use crate::taking::take_batch;
use catalog::{IndexColumn, TableRow};
use pages::WritePages;
use sqlval::{Collation, Fault, Field, R, Value};
use std::alloc::Global;

/// The value at a place, NULL past the last.
fn field_at(values: &[Value], place: usize) -> Field<'_>
    ensures { value_of result ≡ slice_index_or values.now place Null }
{
    if place < values.len() {
        values[place].as_field()
    } else {
        Field::Null
    }
}

/// Whether both are one value, by kind and bytes.
fn is_same_value(left: Field<'_>, right: Field<'_>) -> bool
    ensures { result ≡ is_same_value (value_of left.entry) (value_of right.entry) }
{
    match (left, right) {
        (Field::Null, Field::Null) => true,
        (Field::Int(number), Field::Int(other)) => number == other,
        (Field::Text(text), Field::Text(other)) => text.as_bytes() == other.as_bytes(),
        (Field::Blob(bytes), Field::Blob(other)) => bytes == other,
        _ => false,
    }
}

/// Whether both have the same value at a place.
fn is_same_at(left: &[Value], right: &[Value], place: usize) -> bool
    ensures { result ≡ is_same_value (slice_index_or left.now place Null)
        (slice_index_or right.now place Null) }
{
    is_same_value(field_at(left, place), field_at(right, place))
}

/// Whether both have the same values in the indexed columns.
pub(crate) fn has_same_key(columns: &[IndexColumn], left: &[Value], right: &[Value]) -> bool
    ensures { result ≡ list_all
        (λ column. is_same_value (slice_index_or left.now column.place Null)
        (slice_index_or right.now column.place Null)) columns.now }
{
    columns
        .iter()
        .all(|column| is_same_at(left, right, column.place))
}

/// Puts the entry of a row in place of that of another of its rowid, unless they are the same. (What `take_entry` and
/// `add_entry` refuse. Then the entry of the first may be out.)
fn replace_entry<P: WritePages>(
    alloc: Global,
    pages: &mut P,
    root: u32,
    columns: &[IndexColumn],
    under: &[Collation],
    gone: &TableRow,
    come: &TableRow,
) -> R<()>
    requires { under.now ≡ map (λ column. column.collation) columns.now }
    ensures replaced { IsTrue (P.Pages.tells (P.Pages.below pages.old))
        → ReplacesEntry (P.Pages.map pages.old) (P.Pages.map pages.new)
        (P.Pages.limits (P.Pages.below pages.old)).page
        root (columns_in columns.now) (row_in gone.now) (row_in come.now) result }
    ensures idle { has_same_key (columns_in columns.now) (row_in gone.now).1 (row_in come.now).1 ≡ true
        → (result ≡ Ok tt) × (pages.new ≡ pages.old) }
    ensures kept { P.Pages.below pages.new ≡ P.Pages.below pages.old }
    ensures causes { Causes result (P.Pages.failures pages.old) (P.Pages.failures pages.new)
        (P.Pages.count pages.new ≡ (P.Pages.limits (P.Pages.below pages.new)).most) }
{
    if has_same_key(columns, &gone.values, &come.values) {
        return Ok(());
    }
    take_entry(alloc, pages, root, columns, under, gone)?;
    add_entry(alloc, pages, root, columns, under, come)
}

/// Puts the entry of a row in place of that of another of its rowid, which it has in the tree of an index. Of an entry that stays as it is no page is
/// read. (What `take_entries` and `add_row` refuse. Then the entry of the first may be out.)
pub fn replace_row<P: WritePages>(
    alloc: Global,
    pages: &mut P,
    root: u32,
    columns: &[IndexColumn],
    gone: &TableRow,
    come: &TableRow,
) -> R<()>
    ensures replaced { IsTrue (P.Pages.tells (P.Pages.below pages.old))
        → ReplacesEntry (P.Pages.map pages.old) (P.Pages.map pages.new)
        (P.Pages.limits (P.Pages.below pages.old)).page
        root (columns_in columns.now) (row_in gone.now) (row_in come.now) result }
    ensures idle { has_same_key (columns_in columns.now) (row_in gone.now).1 (row_in come.now).1 ≡ true
        → (pages.new ≡ pages.old) × IfErr result (λ fault. fault ≡ Fault.Memory) }
    ensures kept { P.Pages.below pages.new ≡ P.Pages.below pages.old }
    ensures causes { Causes result (P.Pages.failures pages.old) (P.Pages.failures pages.new)
        (P.Pages.count pages.new ≡ (P.Pages.limits (P.Pages.below pages.new)).most) }
{
    let under = collations_of(alloc, columns)?;
    replace_entry(alloc, pages, root, columns, &under, gone, come)
}

/// How many rows from the first on have other values in the indexed columns than those at their places, up to `BATCH`.
fn count_changed(columns: &[IndexColumn], gone: &[TableRow], come: &[TableRow]) -> usize
    ensures { result ≡ min 256 (changed (columns_in columns.now) (map row_in gone.now) (map row_in come.now)) }
{
    let most = gone.len().min(come.len()).min(BATCH);
    let mut count = 0;
    'rows: while count < most && !has_same_key(columns, &gone[count].values, &come[count].values) {
        count += 1;
    }
    count
}

/// Takes the entries of rows out of an index's tree, and then puts those of others of their rowids into it. (What `take_batch` and `add_batch`
/// refuse. Then some may be out, or in.)
fn replace_batch<P: WritePages>(
    alloc: Global,
    pages: &mut P,
    root: u32,
    columns: &[IndexColumn],
    under: &[Collation],
    gone: &[TableRow],
    come: &[TableRow],
) -> R<()>
    requires { under.now ≡ map (λ column. column.collation) columns.now }
    ensures replaced { IsTrue (P.Pages.tells (P.Pages.below pages.old))
        → ReplacesEntries (P.Pages.map pages.old) (P.Pages.map pages.new)
        (P.Pages.limits (P.Pages.below pages.old)).page
        root (columns_in columns.now) (map row_in gone.now) (map row_in come.now) result }
    ensures kept { P.Pages.below pages.new ≡ P.Pages.below pages.old }
    ensures causes { Causes result (P.Pages.failures pages.old) (P.Pages.failures pages.new)
        (P.Pages.count pages.new ≡ (P.Pages.limits (P.Pages.below pages.new)).most) }
{
    take_batch(alloc, pages, root, columns, under, gone)?;
    add_batch(alloc, pages, root, columns, under, come)
}

/// Puts the entries of rows in place of those of others, each of which has its row's rowid. Of an entry that stays as it is no page is read; of
/// those that change up to `BATCH` at a time go, and then those in their places come. (What `take_entries` and `add_row` refuse. Then some
/// entries may have changed.)
pub fn replace_entries<P: WritePages>(
    alloc: Global,
    pages: &mut P,
    root: u32,
    columns: &[IndexColumn],
    gone: &[TableRow],
    come: &[TableRow],
) -> R<()>
    ensures replaced { IsTrue (P.Pages.tells (P.Pages.below pages.old))
        → ReplacesEntries (P.Pages.map pages.old) (P.Pages.map pages.new)
        (P.Pages.limits (P.Pages.below pages.old)).page
        root (columns_in columns.now) (map row_in gone.now) (map row_in come.now) result }
    ensures idle { HaveSameKeys (columns_in columns.now) (map row_in gone.now) (map row_in come.now)
        → (pages.new ≡ pages.old) × IfErr result (λ fault. fault ≡ Fault.Memory) }
    ensures kept { P.Pages.below pages.new ≡ P.Pages.below pages.old }
    ensures causes { Causes result (P.Pages.failures pages.old) (P.Pages.failures pages.new)
        (P.Pages.count pages.new ≡ (P.Pages.limits (P.Pages.below pages.new)).most) }
{
    let under = collations_of(alloc, columns)?;
    let mut left = gone;
    let mut next = come;
    'rows: while !left.is_empty() && !next.is_empty() {
        let count = count_changed(columns, left, next);
        let passed = count.max(1);
        let (batch, rest) = left.split_at(passed);
        let (new, others) = next.split_at(passed);
        if count > 0 {
            replace_batch(alloc, pages, root, columns, &under, batch, new)?;
        }
        left = rest;
        next = others;
    }
    Ok(())
}
