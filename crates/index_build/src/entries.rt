//! The entries of an index, read from its table's rows.

ghost use Rattle.std.specs.Prelude.{◌≡◌, IsTrue, IfOk, IfErr, OnOk, map, slice_get, slice_index_or, unwrap_or};
ghost use Rattle.sqlval.specs.Lists.{sorted};
ghost use Rattle.sqlval.specs.Order.{order};
ghost use Rattle.sqlval.specs.declared.value.Value.TheVariants.{Null};
ghost use Rattle.sqlval.specs.Fields.{value_of};
ghost use Rattle.pages.specs.Calls.{Stays};
ghost use Rattle.index_build.specs.Calls.{SortsEntries};
ghost use Rattle.index_build.specs.Ranking.{indexed_of, ranked, value_or_null};

use catalog::IndexColumn;
use pages::Pages;
use query_names::BoundSource;
use query_terms::SourceRow;
use row_scan::source_rows;
use sqlval::{Collation, Fault, Field, Many, R, Value, compare_fields};
use std::alloc::Global;
use std::cmp::Ordering;

/// The value at a place, NULL past the last.
pub(crate) fn value_in(values: &[Value], place: usize) -> Field<'_>
    ensures { value_of result ≡ unwrap_or (slice_get values.now place) Null }
{
    match values.get(place) {
        Some(value) => value.as_field(),
        None => Field::Null,
    }
}

/// The value of a row's column, NULL past the last.
pub(crate) fn column_of(row: &SourceRow, place: usize) -> Field<'_>
    ensures { value_of result ≡ slice_index_or row.now.values place Null }
{
    row.column(place)
}

/// The values of the indexed columns of a row. (`Memory`.)
fn key_of(alloc: Global, row: &SourceRow, columns: &[IndexColumn]) -> R<Vec<Value>>
    ensures key { IfOk result (λ key. key.items ≡ map
        (λ column. slice_index_or row.now.values column.place Null) columns.now) }
    ensures refused { IfErr result (λ fault. fault ≡ Fault.Memory) }
{
    let mut key = Vec::with_capacity(alloc, columns.len().saturating_add(1))?;
    'columns: for column in columns {
        key.push(column_of(row, column.place).to_value(alloc)?)?;
    }
    Ok(key)
}

/// The entry of a row: the values of the indexed columns, then the rowid. (`Memory`.)
fn entry_of(alloc: Global, row: &SourceRow, columns: &[IndexColumn]) -> R<Many<Value>>
    ensures is { IfOk result (λ entry. entry ≡ indexed_of columns.now row.now) }
    ensures refused { IfErr result (λ fault. fault ≡ Fault.Memory) }
{
    let mut entry = key_of(alloc, row, columns)?;
    entry.push(row.rowid_field().to_value(alloc)?)?;
    Ok(Many::from_vec(entry))
}

/// The entries of rows, in the order of the rows. (`Memory`.)
fn entries_of(alloc: Global, rows: &[SourceRow], columns: &[IndexColumn]) -> R<Vec<Many<Value>>>
    ensures are { IfOk result (λ entries. entries.items ≡ map (indexed_of columns.now) rows.now) }
    ensures refused { IfErr result (λ fault. fault ≡ Fault.Memory) }
{
    let mut entries = Vec::new(alloc);
    'rows: for row in rows {
        entries.push(entry_of(alloc, row, columns)?)?;
    }
    Ok(entries)
}

/// How the values at a place of two entries stand.
pub(crate) fn compare_at(collation: Collation, place: usize, a: &[Value], b: &[Value]) -> Ordering
    ensures { result ≡ order collation (value_or_null a.now place) (value_or_null b.now place) }
{
    compare_fields(value_in(a, place), value_in(b, place), collation)
}

/// How two entries stand: by the columns in their order, then by the rowid.
fn compare_entries(columns: &[IndexColumn], a: &[Value], b: &[Value]) -> Ordering
    ensures { result ≡ ranked 0 columns.now a.now b.now }
{
    'columns: for index in 0..columns.len() {
        let found = compare_at(columns[index].collation, index, a, b);
        if found.is_ne() {
            return found;
        }
    }
    compare_at(Collation::Binary, columns.len(), a, b)
}

/// Sorts entries. (`Memory`.)
fn sort_entries(entries: &mut Vec<Many<Value>>, columns: &[IndexColumn]) -> R<()>
    ensures sorted { OnOk result (entries.new.items ≡ sorted (ranked 0 columns.now) entries.old.items) }
    ensures refused { IfErr result (λ fault. fault ≡ Fault.Memory) }
{
    entries.sort_by(|a, b| compare_entries(columns, a.as_slice(), b.as_slice()))?;
    Ok(())
}

/// The entries of a table's rows, in the order of an index of these columns. (What `source_rows` refuses.)
pub fn sorted_entries<P: Pages>(
    alloc: Global,
    pages: &mut P,
    table: BoundSource,
    columns: &[IndexColumn],
) -> R<Many<Many<Value>>>
    ensures sorted { IsTrue (P.Pages.tells (P.Pages.below pages.old))
        → SortsEntries (P.Pages.map pages.old)
        (P.Pages.limits (P.Pages.below pages.old)).page table columns.now result }
    ensures stays { Stays P.Pages.below P.Pages.map P.Pages.count P.Pages.failures result pages.old pages.new }
{
    let rows = source_rows(alloc, pages, table)?;
    let mut entries = entries_of(alloc, rows.as_slice(), columns)?;
    sort_entries(&mut entries, columns)?;
    Ok(Many::from_vec(entries))
}
