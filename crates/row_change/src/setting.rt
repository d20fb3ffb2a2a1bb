//! What UPDATE makes of rows.

ghost use Rattle.std.specs.Prelude.{◌≡◌, ◌++◌, ◌∷◌, [], IfErr, IfOk, OnOk, map, slice_set, if◌then◌else◌};
ghost use Rattle.sqlval.specs.Faults.{IsNotDiskFault};
ghost use Rattle.sqlval.specs.Refusals.{all_answers};
ghost use Rattle.catalog.specs.Rows.{rowid_number};
ghost use Rattle.catalog.specs.Listed.{as_column};
ghost use Rattle.query_names.specs.Readings.{env_of};
ghost use Rattle.query_terms.specs.Outcome.{AnswersBy};
ghost use Rattle.query_terms.specs.Rows.{picked_rows, row_at, seen};
ghost use Rattle.row_change.specs.Constraints.{with_affinity};
ghost use Rattle.row_change.specs.NewRows.{row_of};
ghost use Rattle.row_change.specs.Setting as law;
ghost use Rattle.row_change.specs.Setting.{is_meant_for, rowid_left, rows_meant, set_over, source_set};

use crate::demands::check_row;
use crate::inserting::stored_value;
use catalog::{Column, Table, TableRow};
use query_terms::{Env, SourceRow, Term, evaluate, holds};
use sqlval::{Affinity, Fault, Many, R, Value};
use std::alloc::Global;
use std::array::from_ref;

/// What an expression is evaluated over where the row at a place is picked.
pub(crate) fn env_at<'a>(rows: &'a Many<SourceRow>, picked: &'a [usize]) -> Env<'a>
    ensures { seen result ≡ env_of (picked_rows (rows.now ∷ []) picked.now) }
{
    Env {
        sources: from_ref(rows).as_slice(),
        picked,
        group: &[],
        keys: &[],
    }
}

/// Whether the row at a place is meant: the condition is true for it, or there is none. (What the condition refuses.)
fn is_meant(
    alloc: Global,
    rows: &Many<SourceRow>,
    place: usize,
    condition: &Option<Term>,
) -> R<bool>
    ensures { AnswersBy (λ b. b) (is_meant_for condition.now (row_at rows.now place)) result }
{
    let picked = [place];
    let env = env_at(rows, picked.as_slice());
    match condition {
        Some(term) => Ok(holds(alloc, term, env)?.unwrap_or(false)),
        None => Ok(true),
    }
}

/// Adds a place, if the row there is meant. (`Memory`.)
fn push_if(places: &mut Vec<usize>, place: usize, is_meant: bool) -> R<()>
    ensures pushed { OnOk result (places.new.items
        ≡ (if is_meant then places.old.items ++ place ∷ [] else places.old.items)) }
    ensures refused { IfErr result (λ fault. fault ≡ Fault.Memory) }
{
    if is_meant {
        places.push(place)?;
    }
    Ok(())
}

/// The places of the rows that are meant, in order. (What the condition refuses for a row, in order.)
pub(crate) fn places_meant(
    alloc: Global,
    rows: &Many<SourceRow>,
    condition: &Option<Term>,
) -> R<Vec<usize>>
    ensures { AnswersBy (λ places. map (row_at rows.now) places.items)
        (rows_meant condition.now [] rows.now) result }
{
    let mut places = Vec::new(alloc);
    'rows: for index in 0..rows.len() {
        let test = is_meant(alloc, rows, index, condition)?;
        push_if(&mut places, index, test)?;
    }
    Ok(places)
}

/// Copies of the values of the row at a place. (`Memory`.)
pub(crate) fn values_at(alloc: Global, rows: &Many<SourceRow>, place: usize) -> R<Vec<Value>>
    ensures copied { IfOk result (λ new. new.items ≡ (row_at rows.now place).values) }
    ensures refused { IfErr result (λ fault. fault ≡ Fault.Memory) }
{
    match rows.as_slice().get(place) {
        Some(row) => Ok(row.values(alloc)?.into_vec()),
        None => Ok(Vec::new(alloc)),
    }
}

/// The rowid of a row, 0 where it has none.
fn rowid_of(row: &SourceRow) -> i64
    ensures { result ≡ rowid_number row.now.rowid }
{
    match row.rowid() {
        Some(rowid) => rowid,
        None => 0,
    }
}

/// The rowid of the row at a place, 0 where there is none.
pub(crate) fn rowid_at(rows: &Many<SourceRow>, place: usize) -> i64
    ensures { result ≡ rowid_number (row_at rows.now place).rowid }
{
    match rows.as_slice().get(place) {
        Some(row) => rowid_of(row),
        None => 0,
    }
}

/// Puts a value at its place, if there is one.
fn set_at(values: &mut Vec<Value>, place: usize, value: Value)
    ensures { values.new.items ≡ slice_set values.old.items place value }
{
    if place < values.len() {
        values[place] = value;
    }
}

/// Puts the values of SET's expressions at their places, one after another. (What the expressions refuse, in order.)
fn set_each(alloc: Global, values: &mut Vec<Value>, sets: &[(usize, Term)], env: Env<'_>) -> R<()>
    ensures { AnswersBy (λ done. values.new.items)
        (set_over sets.now (seen env.entry) values.old.items) result }
{
    'sets: for (place, term) in sets {
        let value = evaluate(alloc, term, env)?.into_value(alloc)?;
        set_at(values, *place, value);
    }
    Ok(())
}

/// The values as their columns store them. (What `stored_value` refuses, in order.)
pub fn stored_row(alloc: Global, columns: &[Column], values: &[Value]) -> R<Vec<Value>>
    ensures { AnswersBy (λ new. new.items) (with_affinity (map as_column columns.now) values.now) result }
{
    let mut new = Vec::new(alloc);
    let most = columns.len().min(values.len());
    'columns: for index in 0..most {
        new.push(stored_value(alloc, &columns[index], Some(index), values)?)?;
    }
    Ok(new)
}

/// The rowid of a row whose rowid was this and whose values are these now: the one in its own column, if there is such a column.
/// (`RowidMismatch` where no integer is there.)
fn rowid_now(values: &[Value], own: Option<usize>, rowid: i64) -> R<i64>
    ensures rowid { AnswersBy (λ now. now) (rowid_left own rowid values.now) result }
    ensures not_disk { IfErr result (λ fault. IsNotDiskFault fault) }
{
    let Some(place) = own else {
        return Ok(rowid);
    };
    match values.get(place) {
        Some(Value::Int(now)) => Ok(*now),
        _ => Err(Fault::RowidMismatch),
    }
}

/// Whether the column of a place has the affinity INTEGER.
pub(crate) fn is_integer_at(columns: &[Column], place: usize) -> bool
    ensures { result ≡ law.is_integer_at columns.now place }
{
    match columns.get(place) {
        Some(column) => matches!(column.affinity, Affinity::Integer),
        None => false,
    }
}

/// Whether SET names the column of a place.
pub(crate) fn names_place(sets: &[(usize, Term)], place: usize) -> bool
    ensures { result ≡ law.names_place sets.now place }
{
    sets.iter().any(|set| set.0 == place)
}

/// Whether SET leaves each row its rowid: no column is another name of the rowid, or SET doesn't name it, and it has the affinity INTEGER.
pub fn keeps_rowids(table: &Table, sets: &[(usize, Term)]) -> bool
    ensures { result ≡ law.keeps_rowids table.now sets.now }
{
    match table.own_column() {
        Some(place) => {
            is_integer_at(table.columns.as_slice(), place) && !names_place(sets, place)
        }
        None => true,
    }
}

/// What the row at a place becomes by SET. (What SET's expressions refuse, and then what `stored`, `rowid_now` and `check_row` do.)
fn changed_row(
    alloc: Global,
    table: &Table,
    sets: &[(usize, Term)],
    rows: &Many<SourceRow>,
    place: usize,
) -> R<TableRow>
    ensures { AnswersBy row_of (source_set table.now sets.now (row_at rows.now place)) result }
{
    let mut values = values_at(alloc, rows, place)?;
    let picked = [place];
    let env = env_at(rows, picked.as_slice());
    set_each(alloc, &mut values, sets, env)?;
    let values = stored_row(alloc, table.columns.as_slice(), &values)?;
    let rowid = rowid_now(&values, table.own_column(), rowid_at(rows, place))?;
    let row = TableRow { rowid, values };
    check_row(alloc, table, &row)?;
    Ok(row)
}

/// The same, by itself: no disk refuses it. (What `changed_row` refuses.)
pub(crate) fn row_set_at(
    alloc: Global,
    table: &Table,
    sets: &[(usize, Term)],
    rows: &Many<SourceRow>,
    place: usize,
) -> R<TableRow>
    ensures set { AnswersBy row_of (source_set table.now sets.now (row_at rows.now place)) result }
    ensures not_disk { IfErr result (λ fault. IsNotDiskFault fault) }
{
    changed_row(alloc, table, sets, rows, place)
}

/// What the rows at these places become by SET. (What `changed_row` refuses, in order.)
pub(crate) fn changed_at(
    alloc: Global,
    table: &Table,
    sets: &[(usize, Term)],
    rows: &Many<SourceRow>,
    places: &[usize],
) -> R<Vec<TableRow>>
    ensures changed { AnswersBy (λ new. map row_of new.items)
        (all_answers (map (λ place. source_set table.now sets.now (row_at rows.now place)) places.now)) result }
    ensures not_disk { IfErr result (λ fault. IsNotDiskFault fault) }
{
    let mut new = Vec::new(alloc);
    'places: for place in places {
        new.push(row_set_at(alloc, table, sets, rows, *place)?)?;
    }
    Ok(new)
}
