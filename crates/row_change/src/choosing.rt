//! The rows of a table that a condition chooses.

ghost use Rattle.std.specs.Prelude.{◌≡◌, ◌∷◌, [], ◌<◌, List, Ok, length, map, IfErr, OnOk};
ghost use Rattle.sqlval.specs.Faults.{IsNotDiskFault};
ghost use Rattle.sqlval.specs.Refusals.{◌then◌};
ghost use Rattle.query_names.specs.Readings.{env_of};
ghost use Rattle.query_terms.specs.Outcome.{AnswersBy};
ghost use Rattle.query_terms.specs.Rows.{picked_rows, row_at, seen};
ghost use Rattle.row_scan.specs.Rows.{TableRow};
ghost use Rattle.row_scan.specs.Sources.{as_source};
ghost use Rattle.row_change.specs.Choosing.{chosen, is_true_for, rowid_if, rowid_in, rowids_after, with_rowid};

use query_terms::{Env, SourceRow, Term, holds};
use sqlval::{Fault, Many, R};
use std::alloc::Global;
use std::array::from_ref;

/// What a condition is evaluated over where the row at a place is picked.
fn env_over<'a>(rows: &'a Many<SourceRow>, picked: &'a [usize]) -> Env<'a>
    ensures { seen result ≡ env_of (picked_rows (rows.now ∷ []) picked.now) }
{
    Env {
        sources: from_ref(rows).as_slice(),
        picked,
        group: &[],
        keys: &[],
    }
}

/// Whether a condition is true for the row at a place. (What the condition refuses.)
fn is_chosen(alloc: Global, rows: &Many<SourceRow>, index: usize, condition: &Term) -> R<bool>
    ensures answered { AnswersBy (λ b. b) (is_true_for condition.now (row_at rows.now index)) result }
    ensures not_disk { IfErr result (λ fault. IsNotDiskFault fault) }
{
    let picked = [index];
    let env = env_over(rows, picked.as_slice());
    Ok(holds(alloc, condition, env)?.unwrap_or(false))
}

/// The rowid of a row, if it has one.
fn rowid_of(row: &SourceRow) -> Option<i64>
    ensures { result ≡ rowid_in row.now }
{
    match row.rowid() {
        Some(rowid) => Some(rowid),
        None => None,
    }
}

/// The rowid of the row at a place, if the condition is true for it. (What the condition refuses.)
fn chosen_at(
    alloc: Global,
    rows: &Many<SourceRow>,
    index: usize,
    condition: &Term,
) -> R<Option<i64>>
    requires within { index < length rows.now }
    ensures answered { AnswersBy (λ rowid. rowid) (rowid_if condition.now (row_at rows.now index)) result }
    ensures not_disk { IfErr result (λ fault. IsNotDiskFault fault) }
{
    if is_chosen(alloc, rows, index, condition)? {
        return Ok(rowid_of(&rows.as_slice()[index]));
    }
    Ok(None)
}

/// Adds a rowid, if there is one. (`Memory`.)
fn push_rowid(rowids: &mut Vec<i64>, rowid: Option<i64>) -> R<()>
    ensures pushed { OnOk result (rowids.new.items ≡ with_rowid rowids.old.items rowid) }
    ensures refused { IfErr result (λ fault. fault ≡ Fault.Memory) }
{
    if let Some(rowid) = rowid {
        rowids.push(rowid)?;
    }
    Ok(())
}

/// The rowids of the rows for which a condition is true, in order. (What the condition refuses for a row, in order.)
fn rowids_where(alloc: Global, rows: &Many<SourceRow>, condition: &Term) -> R<Vec<i64>>
    ensures answered { AnswersBy (λ rowids. rowids.items) (rowids_after condition.now [] rows.now) result }
    ensures not_disk { IfErr result (λ fault. IsNotDiskFault fault) }
{
    let mut rowids = Vec::new(alloc);
    'rows: for index in 0..rows.len() {
        let rowid = chosen_at(alloc, rows, index, condition)?;
        push_rowid(&mut rowids, rowid)?;
    }
    Ok(rowids)
}

/// The rowids of a table's rows for which a condition is true, in order. (What the condition refuses for a row, in order.)
pub fn chosen_rowids(alloc: Global, rows: &Many<SourceRow>, condition: &Term) -> R<Vec<i64>>
    ensures chosen { (table : List TableRow) → rows.now ≡ map as_source table
        → AnswersBy (λ rowids. rowids.items) (chosen condition.now table
        then λ them. Ok (map (λ row. row.0) them)) result }
    ensures not_disk { IfErr result (λ fault. IsNotDiskFault fault) }
{
    rowids_where(alloc, rows, condition)
}
