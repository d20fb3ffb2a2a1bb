//! What a table demands of a row by itself.

ghost use Rattle.std.specs.Prelude.{◌≡◌, ◌&&◌, ◌∷◌, [], IfErr, IfOk, map, nat_le, not};
ghost use Rattle.std.specs.List.{list_all};
ghost use Rattle.sqlval.specs.Faults.{IsNotDiskFault};
ghost use Rattle.catalog.specs.Listed.{as_column};
ghost use Rattle.query_names.specs.Keys as key;
ghost use Rattle.query_terms.specs.Outcome.{AnswersBy};
ghost use Rattle.query_terms.specs.Rows.{row_at};
ghost use Rattle.row_scan.specs.Sources.{as_source};
ghost use Rattle.row_change.specs.Constraints as wanted;
ghost use Rattle.row_change.specs.Constraints.{check_holds, checks_hold, not_null_holds};
ghost use Rattle.row_change.specs.Demands.{demanded};
ghost use Rattle.row_change.specs.NewRows.{row_of};

use crate::setting::env_at;
use catalog::{Column, Table, TableRow};
use query_terms::{SourceRow, Term, holds};
use sqlval::{Fault, Many, R, Value};
use std::alloc::Global;

/// Whether it is NULL.
fn is_null(value: &Value) -> bool
    ensures { result ≡ key.is_null value.now }
{
    matches!(value, Value::Null)
}

/// Whether a column takes a value: not NULL where it refuses that.
fn takes(column: &Column, value: &Value) -> bool
    ensures { result ≡ not (column.now.is_filled && key.is_null value.now) }
{
    !(column.is_filled && is_null(value))
}

/// Whether each column takes its value.
fn take_all(columns: &[Column], values: &[Value]) -> bool
    ensures { result ≡ not_null_holds (map as_column columns.now) values.now }
{
    let most = columns.len().min(values.len());
    'columns: for index in 0..most {
        if !takes(&columns[index], &values[index]) {
            return false;
        }
    }
    true
}

/// Whether it has at most 1,000,000 bytes, if it is a text or a blob.
fn is_short(value: &Value) -> bool
    ensures { result ≡ wanted.is_short value.now }
{
    match value {
        Value::Text(text) => text.as_str().len() <= 1_000_000,
        Value::Blob(bytes) => bytes.as_slice().len() <= 1_000_000,
        _ => true,
    }
}

/// Whether each is so.
fn are_short(values: &[Value]) -> bool
    ensures { result ≡ list_all wanted.is_short values.now }
{
    values.iter().all(|value| is_short(value))
}

/// Whether a record can hold these values.
fn can_be_stored(values: &[Value]) -> bool
    ensures { result ≡ wanted.can_be_stored values.now }
{
    values.len() <= 1000 && are_short(values)
}

/// Copies of these values. (`Memory`.)
fn copies_of(alloc: Global, values: &[Value]) -> R<Many<Value>>
    ensures copied { IfOk result (λ copies. copies ≡ values.now) }
    ensures memory { IfErr result (λ fault. fault ≡ Fault.Memory) }
{
    let mut copies = Vec::with_capacity(alloc, values.len())?;
    'values: for value in values {
        copies.push(value.copy(alloc)?)?;
    }
    Ok(Many::from_vec(copies))
}

/// The row as the only one of a source. (`Memory`.)
fn source_of(alloc: Global, row: &TableRow) -> R<Many<SourceRow>>
    ensures row { IfOk result (λ rows. rows ≡ as_source (row_of row.now) ∷ []) }
    ensures memory { IfErr result (λ fault. fault ≡ Fault.Memory) }
{
    let values = copies_of(alloc, &row.values)?;
    let mut rows = Vec::new(alloc);
    rows.push(SourceRow::made(Value::Int(row.rowid), values))?;
    Ok(Many::from_vec(rows))
}

/// Whether the first row passes a CHECK. (What the CHECK refuses for it.)
fn passes(alloc: Global, check: &Term, rows: &Many<SourceRow>) -> R<bool>
    ensures { AnswersBy (λ b. b) (check_holds (row_at rows.now 0) check.now) result }
{
    let picked = [0];
    let env = env_at(rows, picked.as_slice());
    Ok(holds(alloc, check, env)?.unwrap_or(true))
}

/// Refuses the first row if it fails a CHECK. (`Check`, and what the CHECKs refuse for it, in their order.)
fn check_first(alloc: Global, checks: &[Term], rows: &Many<SourceRow>) -> R<()>
    ensures { AnswersBy (λ done. tt) (checks_hold (row_at rows.now 0) checks.now) result }
{
    'checks: for check in checks {
        if !passes(alloc, check, rows)? {
            return Err(Fault::Check);
        }
    }
    Ok(())
}

/// Refuses a row that isn't as its table demands. (`NotNull` for NULL in a column that refuses it; `TooLong` if no record can hold the row;
/// `Check`, and what the CHECKs refuse for it.)
pub(crate) fn check_row(alloc: Global, table: &Table, row: &TableRow) -> R<()>
    ensures demanded { AnswersBy (λ done. row_of row.now) (demanded table.now (row_of row.now)) result }
    ensures not_disk { IfErr result (λ fault. IsNotDiskFault fault) }
{
    if !take_all(table.columns.as_slice(), &row.values) {
        return Err(Fault::NotNull);
    }
    if !can_be_stored(&row.values) {
        return Err(Fault::TooLong);
    }
    let checks = table.checks.as_slice();
    if checks.is_empty() {
        return Ok(());
    }
    let rows = source_of(alloc, row)?;
    check_first(alloc, checks, &rows)
}
