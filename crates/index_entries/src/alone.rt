//! Rows that come to a table with a UNIQUE index.

ghost use Rattle.std.specs.Prelude.{◌≡◌, true, map, slice_index_or, IsTrue};
ghost use Rattle.std.specs.List.{list_any};
ghost use Rattle.sqlval.specs.declared.value.Value.TheVariants.{Null};
ghost use Rattle.pages.specs.Calls.{Causes};
ghost use Rattle.index_entries.specs.Alone as apart;
ghost use Rattle.index_entries.specs.Alone.{AddsAlone, ReplacesAlone};
ghost use Rattle.index_entries.specs.Keeping.{columns_in, row_in};
ghost use Rattle.index_entries.specs.Replacing.{has_same_key};

use crate::columns::{collations_of, entry_of};
use crate::keeping::take_entry;
use crate::others::is_alone;
use crate::replacements::has_same_key;
use catalog::{IndexColumn, TableRow};
use pages::WritePages;
use sqlval::{Collation, Damage, Fault, R, Value};
use std::alloc::Global;
use tree_index::{insert, insert_alone};

/// Whether the value at a place is NULL, as it is past the last.
fn is_null_at(values: &[Value], place: usize) -> bool
    ensures { result ≡ apart.is_null (slice_index_or values.now place Null) }
{
    if place < values.len() {
        matches!(values[place], Value::Null)
    } else {
        true
    }
}

/// Whether one of the indexed values is NULL.
pub(crate) fn has_null(columns: &[IndexColumn], values: &[Value]) -> bool
    ensures { result ≡ list_any (λ column. apart.is_null
        (slice_index_or values.now column.place Null)) columns.now }
{
    columns
        .iter()
        .any(|column| is_null_at(values, column.place))
}

/// Puts the entry of a row into the tree of a UNIQUE index, as `add_alone` does.
fn put_alone<P: WritePages>(
    alloc: Global,
    pages: &mut P,
    root: u32,
    columns: &[IndexColumn],
    under: &[Collation],
    row: &TableRow,
) -> R<bool>
    requires { under.now ≡ map (λ column. column.collation) columns.now }
    ensures added { IsTrue (P.Pages.tells (P.Pages.below pages.old))
        → AddsAlone (P.Pages.map pages.old) (P.Pages.map pages.new)
        (P.Pages.limits (P.Pages.below pages.old)).page
        root (columns_in columns.now) (row_in row.now) result }
    ensures kept { P.Pages.below pages.new ≡ P.Pages.below pages.old }
    ensures causes { Causes result (P.Pages.failures pages.old) (P.Pages.failures pages.new)
        (P.Pages.count pages.new ≡ (P.Pages.limits (P.Pages.below pages.new)).most) }
{
    let entry = entry_of(alloc, columns, row)?;
    if !has_null(columns, &row.values) {
        return insert_alone(alloc, pages, root, under, &entry);
    }
    if insert(alloc, pages, root, under, &entry)? {
        return Ok(true);
    }
    Err(Fault::Damaged(Damage::Index, root))
}

/// Puts the entry of a row that comes to a table into the tree of one of its UNIQUE indexes, unless another row has its key: then it answers
/// `false`, and nothing changes. A key that holds NULL is apart from every other. The tree is gone down once. (`Memory`, `Io`, `Full`;
/// `TooLong` if no record can hold the entry.)
pub fn add_alone<P: WritePages>(
    alloc: Global,
    pages: &mut P,
    root: u32,
    columns: &[IndexColumn],
    row: &TableRow,
) -> R<bool>
    ensures added { IsTrue (P.Pages.tells (P.Pages.below pages.old))
        → AddsAlone (P.Pages.map pages.old) (P.Pages.map pages.new)
        (P.Pages.limits (P.Pages.below pages.old)).page
        root (columns_in columns.now) (row_in row.now) result }
    ensures kept { P.Pages.below pages.new ≡ P.Pages.below pages.old }
    ensures causes { Causes result (P.Pages.failures pages.old) (P.Pages.failures pages.new)
        (P.Pages.count pages.new ≡ (P.Pages.limits (P.Pages.below pages.new)).most) }
{
    let under = collations_of(alloc, columns)?;
    put_alone(alloc, pages, root, columns, &under, row)
}

/// Puts the entry of a row in place of that of another of its rowid in the tree of a UNIQUE index, unless a third row has its key: then it
/// answers `false`. An entry that stays as it is isn't put anew. (`Memory`, `Io`, `Full`; `TooLong` if no record can hold the entry. Then, and at
/// `false`, the entry of the first may be out.)
pub fn replace_alone<P: WritePages>(
    alloc: Global,
    pages: &mut P,
    root: u32,
    columns: &[IndexColumn],
    gone: &TableRow,
    come: &TableRow,
) -> R<bool>
    ensures replaced { IsTrue (P.Pages.tells (P.Pages.below pages.old))
        → ReplacesAlone (P.Pages.map pages.old) (P.Pages.map pages.new)
        (P.Pages.limits (P.Pages.below pages.old)).page
        root (columns_in columns.now) (row_in gone.now) (row_in come.now) result }
    ensures idle { has_same_key (columns_in columns.now) (row_in gone.now).1 (row_in come.now).1 ≡ true
        → P.Pages.map pages.new ≡ P.Pages.map pages.old }
    ensures kept { P.Pages.below pages.new ≡ P.Pages.below pages.old }
    ensures causes { Causes result (P.Pages.failures pages.old) (P.Pages.failures pages.new)
        (P.Pages.count pages.new ≡ (P.Pages.limits (P.Pages.below pages.new)).most) }
{
    let under = collations_of(alloc, columns)?;
    if has_same_key(columns, &gone.values, &come.values) {
        return is_alone(alloc, pages, root, columns, &under, come);
    }
    take_entry(alloc, pages, root, columns, &under, gone)?;
    put_alone(alloc, pages, root, columns, &under, come)
}
