//! The entries of rows that were read, each by its place among them.

ghost use Rattle.std.specs.Prelude.{◌≡◌, map, slice_index_or, IfErr, IfOk};
ghost use Rattle.sqlval.specs.Fields.{value_of};
ghost use Rattle.sqlval.specs.declared.value.Value.TheVariants.{Null};
ghost use Rattle.query_terms.specs.Rows.{row_at};
ghost use Rattle.catalog.specs.Rows.{as_row, rowid_number};
ghost use Rattle.index_entries.specs.Entries.{indexed};
ghost use Rattle.index_entries.specs.Keeping.{columns_in};

use catalog::IndexColumn;
use query_terms::SourceRow;
use sqlval::{Fault, Field, Many, R, Value};
use std::alloc::Global;

/// The value in a column of the row at a place, NULL where there is none.
fn value_at(rows: &Many<SourceRow>, place: usize, column: usize) -> Field<'_>
    ensures { value_of result ≡ slice_index_or (row_at rows.now place).values column Null }
{
    match rows.as_slice().get(place) {
        Some(row) => row.column(column),
        None => Field::Null,
    }
}

/// The rowid of a row, 0 where it has none.
fn rowid_of(row: &SourceRow) -> i64
    ensures { result ≡ rowid_number row.now.rowid }
{
    match row.rowid() {
        Some(rowid) => rowid,
        None => 0,
    }
}

/// The rowid of the row at a place, 0 where there is none.
fn rowid_at(rows: &Many<SourceRow>, place: usize) -> i64
    ensures { result ≡ rowid_number (row_at rows.now place).rowid }
{
    match rows.as_slice().get(place) {
        Some(row) => rowid_of(row),
        None => 0,
    }
}

/// The values of the indexed columns of the row at a place, NULL where there is none. (`Memory`.)
fn key_at(
    alloc: Global,
    columns: &[IndexColumn],
    rows: &Many<SourceRow>,
    place: usize,
) -> R<Vec<Value>>
    ensures key { IfOk result (λ key. key.items ≡ map
        (λ column. slice_index_or (row_at rows.now place).values column.place Null) columns.now) }
    ensures refused { IfErr result (λ fault. fault ≡ Fault.Memory) }
{
    let mut key = Vec::with_capacity(alloc, columns.len().saturating_add(1))?;
    'columns: for column in columns {
        key.push(value_at(rows, place, column.place).to_value(alloc)?)?;
    }
    Ok(key)
}

/// The entry of the row at a place. (`Memory`.)
fn entry_at(
    alloc: Global,
    columns: &[IndexColumn],
    rows: &Many<SourceRow>,
    place: usize,
) -> R<Vec<Value>>
    ensures entry { IfOk result (λ entry. entry.items
        ≡ indexed (columns_in columns.now) (as_row (row_at rows.now place))) }
    ensures refused { IfErr result (λ fault. fault ≡ Fault.Memory) }
{
    let mut entry = key_at(alloc, columns, rows, place)?;
    entry.push(Value::Int(rowid_at(rows, place)))?;
    Ok(entry)
}

/// The entries of the rows at these places. (`Memory`.)
pub(crate) fn entries_at(
    alloc: Global,
    columns: &[IndexColumn],
    rows: &Many<SourceRow>,
    places: &[usize],
) -> R<Vec<Many<Value>>>
    ensures made { IfOk result (λ entries. entries.items
        ≡ map (λ place. indexed (columns_in columns.now) (as_row (row_at rows.now place))) places.now) }
    ensures refused { IfErr result (λ fault. fault ≡ Fault.Memory) }
{
    let mut entries = Vec::with_capacity(alloc, places.len())?;
    'places: for place in places {
        entries.push(Many::from_vec(entry_at(alloc, columns, rows, *place)?))?;
    }
    Ok(entries)
}
