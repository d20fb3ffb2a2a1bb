//! The rows of a table that a condition means, with their values.

ghost use Rattle.std.specs.Prelude.{◌≡◌, List, [], IfErr, IfOk, map};
ghost use Rattle.sqlval.specs.Faults.{IsNotDiskFault};
ghost use Rattle.query_terms.specs.Outcome.{AnswersBy};
ghost use Rattle.query_terms.specs.Rows.{row_at};
ghost use Rattle.catalog.specs.Rows.{as_row};
ghost use Rattle.row_scan.specs.Rows as held;
ghost use Rattle.row_change.specs.Choosing.{chosen_or_all};
ghost use Rattle.row_change.specs.Meaning.{AreEnough};
ghost use Rattle.row_change.specs.NewRows.{row_of};
ghost use Rattle.row_change.specs.Setting.{rows_meant};

use crate::setting::{places_meant, rowid_at, values_at};
use catalog::TableRow;
use query_terms::{SourceRow, Term};
use sqlval::{Fault, Many, R};
use std::alloc::Global;

/// A copy of the row at a place. (`Memory`.)
pub fn row_copy(alloc: Global, rows: &Many<SourceRow>, place: usize) -> R<TableRow>
    ensures copied { IfOk result (λ row. row_of row ≡ as_row (row_at rows.now place)) }
    ensures refused { IfErr result (λ fault. fault ≡ Fault.Memory) }
{
    Ok(TableRow {
        rowid: rowid_at(rows, place),
        values: values_at(alloc, rows, place)?,
    })
}

/// Copies of the rows at these places. (`Memory`.)
pub fn copies_at(alloc: Global, rows: &Many<SourceRow>, places: &[usize]) -> R<Vec<TableRow>>
    ensures copied { IfOk result (λ them. map row_of them.items ≡ map
        (λ place. as_row (row_at rows.now place)) places.now) }
    ensures refused { IfErr result (λ fault. fault ≡ Fault.Memory) }
{
    let mut them = Vec::with_capacity(alloc, places.len())?;
    'places: for place in places {
        them.push(row_copy(alloc, rows, *place)?)?;
    }
    Ok(them)
}

/// The places of the rows for which a condition is true, or of all where there is none, in order, of rows that are enough for the condition.
/// (What the condition refuses for a row, in order.)
pub fn meant_places(
    alloc: Global,
    rows: &Many<SourceRow>,
    condition: &Option<Term>,
) -> R<Vec<usize>>
    ensures found { (all : List held.TableRow) → AreEnough condition.now rows.now all
        → AnswersBy (λ places. map (λ place. as_row (row_at rows.now place)) places.items)
        (chosen_or_all condition.now all) result }
    ensures places { AnswersBy (λ places. map (row_at rows.now) places.items)
        (rows_meant condition.now [] rows.now) result }
    ensures not_disk { IfErr result (λ fault. IsNotDiskFault fault) }
{
    places_meant(alloc, rows, condition)
}

/// Copies of the rows for which a condition is true, or of all where there is none, in order, of rows that are enough for the condition.
/// (What the condition refuses for a row, in order.)
pub fn meant_rows(
    alloc: Global,
    rows: &Many<SourceRow>,
    condition: &Option<Term>,
) -> R<Vec<TableRow>>
    ensures found { (all : List held.TableRow) → AreEnough condition.now rows.now all
        → AnswersBy (λ them. map row_of them.items) (chosen_or_all condition.now all) result }
    ensures not_disk { IfErr result (λ fault. IsNotDiskFault fault) }
{
    let places = meant_places(alloc, rows, condition)?;
    copies_at(alloc, rows, &places)
}
