//! Changes of a table's rows.

ghost use Rattle.std.specs.Prelude.{◌≡◌, ◌⊎◌, map, slice_index_or, None, Some, Ok, Err, true, IfOk, IfErr, OnOk};
ghost use Rattle.std.specs.List.{AllByRecursion, list_all};
ghost use Rattle.sqlval.specs.Conversion.{converted};
ghost use Rattle.sqlval.specs.Faults.{IsNotDiskFault};
ghost use Rattle.sqlval.specs.Refusals as refusal;
ghost use Rattle.record.specs.Record.{IsRecord};
ghost use Rattle.record.specs.Writing.{AreStorable, IsBytes, record_of};
ghost use Rattle.tree_page.specs.Cells.{Pairwise};
ghost use Rattle.catalog.specs.Rows.{holds_rowid, is_value};
ghost use Rattle.query_terms.specs.Outcome.{AnswersBy};
ghost use Rattle.row_change.specs.Agreement.{InsertsRows};
ghost use Rattle.row_change.specs.Inserting.{AllStorable, given_for, own_value, row_added, row_stored, rowid_given, with_own_value};
ghost use Rattle.row_change.specs.NewRows.{IsReplacement, IsWritten, all_hold, entry_in, entry_left, row_of};

use crate::demands::check_row;
use catalog::{Column, Table, TableRow, other_rows_are_listed};
use query_terms::conversion_is_one;
use record::{encode, is_storable};
use sqlval::{Fault, R, Value, apply};
use std::alloc::Global;
use tree_table::{RowChange, next_rowid};

/// The value of a column in a new row: the one given for it, at its place, or its default where it has none. (`Memory`.)
fn value_for(alloc: Global, column: &Column, given: &[Value], place: Option<usize>) -> R<Value>
    ensures value { IfOk result (λ value. value ≡ given_for column.now given.now place) }
    ensures memory { IfErr result (λ fault. fault ≡ Fault.Memory) }
{
    match place {
        Some(place) if place < given.len() => Ok(given[place].copy(alloc)?),
        Some(_) => Ok(Value::Null),
        None => Ok(column.default.copy(alloc)?),
    }
}

/// The place of the value given for a column, where it has one.
pub(crate) fn place_of(places: &[Option<usize>], index: usize) -> Option<usize>
    ensures { result ≡ slice_index_or places.now index None }
{
    if index < places.len() {
        places[index]
    } else {
        None
    }
}

/// What a column stores of its value in a new row. (`RealRefused`, `Memory`.)
pub(crate) fn stored_value(
    alloc: Global,
    column: &Column,
    place: Option<usize>,
    given: &[Value],
) -> R<Value>
    ensures stored { IfOk result (λ value. converted column.now.affinity
        (given_for column.now given.now place) ≡ Ok value) }
    ensures refused { IfErr result (λ fault. (fault ≡ Fault.Memory)
        ⊎ ((fault ≡ Fault.RealRefused) × (converted column.now.affinity
        (given_for column.now given.now place) ≡ Err refusal.RealRefused))) }
{
    conversion_is_one();
    let value = value_for(alloc, column, given, place)?;
    apply(alloc, column.affinity, value)
}

/// The values of a new row, each as its column stores it: the default where none is given. (`RealRefused`, `Memory`.)
fn stored_values(
    alloc: Global,
    columns: &[Column],
    places: &[Option<usize>],
    given: &[Value],
) -> R<Vec<Value>>
    ensures stored { IfOk result (λ values. row_stored columns.now places.now given.now ≡ Ok values.items) }
    ensures refused { IfErr result (λ fault. (fault ≡ Fault.Memory)
        ⊎ ((fault ≡ Fault.RealRefused) × (row_stored columns.now places.now given.now
        ≡ Err refusal.RealRefused))) }
{
    let mut values = Vec::new(alloc);
    'columns: for index in 0..columns.len() {
        let place = place_of(places, index);
        values.push(stored_value(alloc, &columns[index], place, given)?)?;
    }
    Ok(values)
}

/// The rowid of a new row after `last`: the one in its own column, or the next where NULL is there, or where there is no such column.
/// (`RowidFull`; `RowidMismatch` where a text or a blob is there.)
fn rowid_for(values: &[Value], own: Option<usize>, last: Option<i64>) -> R<i64>
    ensures rowid { AnswersBy (λ rowid. rowid) (rowid_given last (own_value own values.now)) result }
    ensures not_disk { IfErr result (λ fault. IsNotDiskFault fault) }
{
    let Some(place) = own else {
        return next_rowid(last);
    };
    match values.get(place) {
        None | Some(Value::Null) => next_rowid(last),
        Some(Value::Int(rowid)) => Ok(*rowid),
        Some(_) => Err(Fault::RowidMismatch),
    }
}

/// Puts a value at the place of the rowid's own column, if there is one.
pub(crate) fn put_own(values: &mut Vec<Value>, own: Option<usize>, value: Value)
    ensures { values.new.items ≡ with_own_value own value values.old.items }
{
    if let Some(place) = own
        && place < values.len()
    {
        values[place] = value;
    }
}

/// Builds the row to insert after `last`: converts each value to its column's affinity, takes the rowid that is given or else the next, and looks
/// at what the table demands. (`RealRefused`, what `rowid_for` refuses, and what `check_row` does, in this order.)
pub(crate) fn new_row(
    alloc: Global,
    table: &Table,
    places: &[Option<usize>],
    given: &[Value],
    last: Option<i64>,
) -> R<TableRow>
    ensures added { AnswersBy row_of (row_added table.now places.now last given.now) result }
    ensures not_disk { IfErr result (λ fault. IsNotDiskFault fault) }
{
    let own = table.own_column();
    let mut values = stored_values(alloc, table.columns.as_slice(), places, given)?;
    let rowid = rowid_for(&values, own, last)?;
    put_own(&mut values, own, Value::Int(rowid));
    let row = TableRow { rowid, values };
    check_row(alloc, table, &row)?;
    Ok(row)
}

/// The record of a new row.
#[derive(Drop)]
pub(crate) struct RowRecord {
    pub(crate) rowid: i64,
    pub(crate) payload: Vec<u8>,
}

/// The items of a slice of bytes are bytes.
pub(crate) fn bytes_are_small(bytes: &[u8])
    ensures { IsBytes bytes.now }
{
    let _len = bytes.len();
}

/// The record of these values, each of which can be stored then.
fn payload_of(alloc: Global, values: &[Value]) -> R<Vec<u8>>
    ensures is { IfOk result (λ payload. IsRecord payload.items values.now) }
    ensures exact { IfOk result (λ payload. payload.items ≡ record_of values.now) }
    ensures fit { OnOk result (list_all is_value values.now ≡ true) }
    ensures refused { IfErr result (λ fault. (fault ≡ Fault.Memory)
        ⊎ ((fault ≡ Fault.TooLong) × (AreStorable values.now → ⊥))) }
{
    if !is_storable(values) {
        return Err(Fault::TooLong);
    }
    let payload = encode(alloc, values)?;
    bytes_are_small(&payload);
    Ok(payload)
}

/// The record of a row, with NULL at the place of the rowid's own column, where the row holds the rowid. (`Memory`; `TooLong`.)
pub(crate) fn record_for(alloc: Global, own: Option<usize>, row: &mut TableRow) -> R<RowRecord>
    ensures written { IfOk result (λ made. holds_rowid own (row_of row.old) ≡ true → IsWritten own (row_of row.old) (entry_in made)) }
    ensures kept { OnOk result (holds_rowid own (row_of row.old) ≡ true → row_of row.new ≡ row_of row.old) }
    ensures refused { IfErr result (λ fault. (fault ≡ Fault.Memory)
        ⊎ ((fault ≡ Fault.TooLong) × (AreStorable (row_of row.old).1 → ⊥))) }
{
    put_own(&mut row.values, own, Value::Null);
    let payload = payload_of(alloc, &row.values)?;
    put_own(&mut row.values, own, Value::Int(row.rowid));
    Ok(RowRecord {
        rowid: row.rowid,
        payload,
    })
}

/// The change of the row of a rowid to this one, with its record, where the row holds the rowid. (`Memory`; `TooLong`.)
pub(crate) fn change_for(alloc: Global, own: Option<usize>, row: &mut TableRow) -> R<RowChange>
    ensures made { IfOk result (λ made. holds_rowid own (row_of row.old) ≡ true
        → IsWritten own (row_of row.old) (entry_left made)) }
    ensures kept { OnOk result (holds_rowid own (row_of row.old) ≡ true → row_of row.new ≡ row_of row.old) }
    ensures some { IfOk result IsReplacement }
    ensures refused { IfErr result (λ fault. (fault ≡ Fault.Memory)
        ⊎ ((fault ≡ Fault.TooLong) × (AreStorable (row_of row.old).1 → ⊥))) }
{
    let written = record_for(alloc, own, row)?;
    let rowid = written.rowid;
    let payload = Some(written.payload);
    Ok(RowChange { rowid, payload })
}

/// The changes of rows to these, with their records, where each row holds its rowid. (`Memory`; `TooLong`.)
pub(crate) fn changes_of(
    alloc: Global,
    own: Option<usize>,
    rows: &mut [TableRow],
) -> R<Vec<RowChange>>
    ensures made { IfOk result (λ changes. all_hold own (map row_of rows.old) ≡ true
        → Pairwise (IsWritten own) (map row_of rows.old) (map entry_left changes.items)) }
    ensures kept { OnOk result (all_hold own (map row_of rows.old) ≡ true
        → map row_of rows.new ≡ map row_of rows.old) }
    ensures some { IfOk result (λ changes. AllByRecursion IsReplacement changes.items) }
    ensures refused { IfErr result (λ fault. all_hold own (map row_of rows.old) ≡ true
        → (fault ≡ Fault.Memory)
        ⊎ ((fault ≡ Fault.TooLong) × (AllStorable (map row_of rows.old) → ⊥))) }
    ensures not_disk { IfErr result (λ fault. IsNotDiskFault fault) }
{
    let mut changes = Vec::new(alloc);
    'rows: for index in 0..rows.len() {
        changes.push(change_for(alloc, own, &mut rows[index])?)?;
    }
    Ok(changes)
}

/// An INSERT that sets off no trigger adds its rows to the table, or is refused as they are.
pub fn insert_adds_its_rows()
    ensures { InsertsRows }
{
    other_rows_are_listed();
}
