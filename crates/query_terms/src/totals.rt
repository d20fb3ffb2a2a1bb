//! Aggregates over the values of a group's rows.

ghost use Rattle.std.specs.Prelude.{◌≡◌, ◌≤◌, ◌<◌, ◌⊎◌, not, count_by, length, map, pos, Ok};
ghost use Rattle.sqlval.specs.Conversion.{word as word_of};
ghost use Rattle.sqlval.specs.Fields.{value_of};
ghost use Rattle.query_terms.specs.Outcome.{Answers};
ghost use Rattle.query_terms.specs.Rows.{before_of, best_of, better_of, datum, held, sum_of};
ghost use Rattle.query_terms.specs.Values as meant;

use crate::datum::Datum;
use crate::numbers::word;
use crate::tree::Aggregate;
use crate::truth::is_null;
use sqlval::{Collation, Field, R, Value, compare_fields};
use std::alloc::Global;
use std::cmp::Ordering;

/// What an aggregate gives over its arguments, in the order of their rows.
pub fn aggregated(
    alloc: Global,
    aggregate: Aggregate,
    collation: Collation,
    values: &[Datum<'_>],
) -> R<Value>
    ensures { Answers (meant.aggregated aggregate collation (map datum values.now)) result }
{
    match aggregate {
        Aggregate::CountAll => count_word(values.len()),
        Aggregate::Count => count_word(count(values)),
        Aggregate::Sum => sum(values),
        Aggregate::Min => copied(alloc, best(false, collation, values)),
        Aggregate::Max => copied(alloc, best(true, collation, values)),
    }
}

/// A count as a value.
pub fn count_word(count: usize) -> R<Value>
    ensures { Answers (word_of (pos count)) result }
{
    word(i128::from(count as u64))
}

/// How many of the values aren't NULL.
fn count(values: &[Datum<'_>]) -> usize
    ensures { result ≡ count_by (λ v. not (meant.is_null v)) (map datum values.now) }
{
    let mut count = 0;
    'values: for index in 0..values.len() {
        if !is_null(values[index].as_field()) {
            count += 1;
        }
    }
    count
}

/// The sum of the integers; NULL where all is NULL.
fn sum(values: &[Datum<'_>]) -> R<Value>
    ensures { Answers (sum_of (map datum values.now)) result }
{
    if count(values) == 0 {
        return Ok(Value::Null);
    }
    word(total(values))
}

/// The exact sum of the integers.
fn total(values: &[Datum<'_>]) -> i128
    ensures { result ≡ meant.total (map datum values.now) }
{
    let mut total = 0;
    'values: for index in 0..values.len() {
        total += i128::from(number_in(values[index].as_field()));
    }
    total
}

/// An integer, and 0 for any other value.
fn number_in(value: Field<'_>) -> i64
    ensures { result ≡ meant.number_in (value_of value.entry) }
{
    match value {
        Field::Int(number) => number,
        _ => 0,
    }
}

/// The least or the greatest of the values, of equal ones the first; none where all is NULL.
fn best<'a>(is_max: bool, collation: Collation, values: &'a [Datum<'_>]) -> Option<Field<'a>>
    ensures { held result ≡ best_of is_max collation (map datum values.now) }
{
    let mut best = None;
    let mut index = values.len();
    'values: while index > 0 {
        index -= 1;
        best = better(is_max, collation, values[index].as_field(), best);
    }
    best
}

/// The better of a value and of the best of those after it.
fn better<'a>(
    is_max: bool,
    collation: Collation,
    value: Field<'a>,
    best: Option<Field<'a>>,
) -> Option<Field<'a>>
    ensures { held result ≡ better_of is_max collation (value_of value.entry) (held best.entry) }
{
    match (value, best) {
        (Field::Null, _) => best,
        (_, None | Some(Field::Null)) => Some(value),
        (_, Some(other)) => {
            if is_before(is_max, compare_fields(other, value, collation)) {
                best
            } else {
                Some(value)
            }
        }
    }
}

/// Whether the first of two is the lesser, or the greater.
fn is_before(is_max: bool, order: Ordering) -> bool
    ensures { result ≡ before_of is_max order }
{
    if is_max { order.is_gt() } else { order.is_lt() }
}

/// A copy of the best value, NULL where there is none.
fn copied(alloc: Global, best: Option<Field<'_>>) -> R<Value>
    ensures { Answers (Ok (held best.entry)) result }
{
    match best {
        Some(value) => Ok(value.to_value(alloc)?),
        None => Ok(Value::Null),
    }
}
