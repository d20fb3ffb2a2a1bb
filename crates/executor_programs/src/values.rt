//! Values that are put at places among others, and what SET gives.

ghost use Rattle.std.specs.Prelude.{◌≡◌, map, replicate, slice_set, zip, OnOk, IfErr};
ghost use Rattle.sqlval.specs.Faults.{IsNotDiskFault, IsOrMemory};
ghost use Rattle.sqlval.specs.declared.value.Value.TheVariants.{Null};
ghost use Rattle.query_terms.specs.Outcome.{AnswersBy};
ghost use Rattle.query_names.specs.Readings.{env_of, values};
ghost use Rattle.query_terms.specs.Rows.{picked_rows};
ghost use Rattle.row_change.specs.Changes.{Outer};
ghost use Rattle.row_change.specs.Constraints.{set_values};
ghost use Rattle.executor_programs.specs.Outer.{Shows};
ghost use Rattle.executor_programs.specs.Rows.{set_beside};

use crate::outer::{OuterRows, env_at, first_places, only_row, with_source};
use catalog::Column;
use query_terms::{SourceRow, Term, evaluate};
use sqlval::{Fault, Many, R, Value};
use std::alloc::Global;

/// The defaults of columns. (`Memory` alone.)
pub(crate) fn defaults_of(alloc: Global, columns: &[Column]) -> R<Vec<Value>>
    ensures { IsOrMemory (λ values. values.items ≡ map (λ c. c.default) columns.now) result }
{
    let mut values = Vec::with_capacity(alloc, columns.len())?;
    'columns: for column in columns {
        values.push(column.default.copy(alloc)?)?;
    }
    Ok(values)
}

/// So many NULLs. (`Memory` alone.)
pub(crate) fn nulls(alloc: Global, count: usize) -> R<Vec<Value>>
    ensures { IsOrMemory (λ values. values.items ≡ replicate count Null) result }
{
    let mut values = Vec::new(alloc);
    'nulls: for place in 0..count {
        values.push(Value::Null)?;
    }
    Ok(values)
}

/// Puts a value at its place, if there is one.
fn put_at(values: &mut Vec<Value>, place: usize, value: Value)
    ensures { values.new.items ≡ slice_set values.old.items place value }
{
    if place < values.len() {
        values[place] = value;
    }
}

/// Puts copies of the values given at their places, one after another. (`Memory` alone.)
pub(crate) fn put_given(
    alloc: Global,
    values: &mut Vec<Value>,
    places: &[usize],
    given: &[Value],
) -> R<()>
    ensures put { OnOk result (values.new.items ≡ set_values values.old.items (zip places.now given.now)) }
    ensures refused { IfErr result (λ fault. fault ≡ Fault.Memory) }
{
    let mut left = places;
    let mut more = given;
    'places: while let Some((place, places)) = left.split_first() {
        let Some((value, values_left)) = more.split_first() else {
            return Ok(());
        };
        put_at(values, *place, value.copy(alloc)?);
        left = places;
        more = values_left;
    }
    Ok(())
}

/// The places of the columns that SET names. (`Memory` alone.)
fn places_set(alloc: Global, sets: &[(usize, Term)]) -> R<Vec<usize>>
    ensures { IsOrMemory (λ places. places.items ≡ map (λ s. s.0) sets.now) result }
{
    let mut places = Vec::new(alloc);
    'sets: for (place, term) in sets {
        places.push(*place)?;
    }
    Ok(places)
}

/// The values of SET's expressions, from left to right. (What `evaluate` refuses.)
fn set_terms(
    alloc: Global,
    sets: &[(usize, Term)],
    sources: &[Many<SourceRow>],
    picked: &[usize],
) -> R<Vec<Value>>
    ensures { AnswersBy (λ given. given.items) (values (env_of (picked_rows sources.now picked.now))
        (map (λ s. s.1) sets.now)) result }
{
    let env = env_at(sources, picked);
    let mut given = Vec::new(alloc);
    'sets: for (place, term) in sets {
        given.push(evaluate(alloc, term, env)?.into_value(alloc)?)?;
    }
    Ok(given)
}

/// What SET gives over a row, whose values are handed over too, beside NEW and OLD. (What its expressions refuse, in order.)
pub(crate) fn values_set(
    alloc: Global,
    outer: OuterRows<'_>,
    sets: &[(usize, Term)],
    row: SourceRow,
    values: Vec<Value>,
) -> R<Vec<Value>>
    requires { values.items ≡ row.values }
    ensures set { (seen : Outer) → Shows outer.entry seen
        → AnswersBy (λ values. values.items) (set_beside seen sets.now row) result }
    ensures not_disk { IfErr result (λ fault. IsNotDiskFault fault) }
{
    let own = only_row(alloc, row)?;
    let sources = with_source(alloc, outer.rows, own)?;
    let picked = first_places(alloc, sources.len())?;
    let given = set_terms(alloc, sets, &sources, &picked)?;
    let places = places_set(alloc, sets)?;
    let mut values = values;
    put_given(alloc, &mut values, &places, &given)?;
    Ok(values)
}
