//! The columns of an index, and the entry of a row.

ghost use Rattle.std.specs.Prelude.{◌≡◌, map, slice_index_or, IfErr, IfOk};
ghost use Rattle.sqlval.specs.declared.value.Value.TheVariants.{Int, Null};
ghost use Rattle.index_entries.specs.Entries.{indexed};
ghost use Rattle.index_entries.specs.Keeping.{columns_in, row_in};

use catalog::{IndexColumn, TableRow};
use sqlval::{Collation, Fault, R, Value};
use std::alloc::Global;

/// The collations of an index's columns. (`Memory`.)
pub fn collations_of(alloc: Global, columns: &[IndexColumn]) -> R<Vec<Collation>>
    ensures found { IfOk result (λ them. them.items ≡ map (λ column. column.collation) columns.now) }
    ensures refused { IfErr result (λ fault. fault ≡ Fault.Memory) }
{
    let mut them = Vec::with_capacity(alloc, columns.len())?;
    'columns: for column in columns {
        them.push(column.collation)?;
    }
    Ok(them)
}

/// A copy of the value at a place, NULL past the last. (`Memory`.)
fn value_at(alloc: Global, values: &[Value], place: usize) -> R<Value>
    ensures value { IfOk result (λ value. value ≡ slice_index_or values.now place Null) }
    ensures refused { IfErr result (λ fault. fault ≡ Fault.Memory) }
{
    if place < values.len() {
        Ok(values[place].copy(alloc)?)
    } else {
        Ok(Value::Null)
    }
}

/// The values of the indexed columns, NULL past the last value. (`Memory`.)
pub fn key_of(alloc: Global, columns: &[IndexColumn], values: &[Value]) -> R<Vec<Value>>
    ensures key { IfOk result (λ key. key.items ≡ map
        (λ column. slice_index_or values.now column.place Null) columns.now) }
    ensures refused { IfErr result (λ fault. fault ≡ Fault.Memory) }
{
    let mut key = Vec::with_capacity(alloc, columns.len().saturating_add(1))?;
    'columns: for column in columns {
        key.push(value_at(alloc, values, column.place)?)?;
    }
    Ok(key)
}

/// The rowid of a row as a value.
fn rowid_value(row: &TableRow) -> Value
    ensures { result ≡ Int row.now.rowid }
{
    Value::Int(row.rowid)
}

/// The entry of a row. (`Memory`.)
pub(crate) fn entry_of(alloc: Global, columns: &[IndexColumn], row: &TableRow) -> R<Vec<Value>>
    ensures entry { IfOk result (λ entry. entry.items ≡ indexed (columns_in columns.now) (row_in row.now)) }
    ensures refused { IfErr result (λ fault. fault ≡ Fault.Memory) }
{
    let mut entry = key_of(alloc, columns, &row.values)?;
    entry.push(rowid_value(row))?;
    Ok(entry)
}
