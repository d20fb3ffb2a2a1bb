//! Comparison: what each side is compared as, and the outcome.

ghost use Rattle.std.specs.Prelude.{◌≡◌, ◌⊎◌, Bool, Ok};
ghost use Rattle.sqlval.specs.Conversion.{converted};
ghost use Rattle.sqlval.specs.Fields.{value_of};
ghost use Rattle.query_terms.specs.Outcome.{Answers, AnswersBy};
ghost use Rattle.query_terms.specs.Rows.{datum, pair};
ghost use Rattle.query_terms.specs.Values as meant;

use crate::conversion_is_one;
use crate::datum::Datum;
use crate::operands::{Sides, beside};
use crate::tree::Comparison;
use sqlval::{Affinity, Collation, Field, R, Value, apply, compare_fields};
use std::alloc::Global;
use std::cmp::Ordering;

/// How two sides are compared: the collation, and the affinity of each side.
#[derive(Clone, Copy, PartialEq, Eq)]
pub struct Manner {
    pub collation: Collation,
    pub left: Option<Affinity>,
    pub right: Option<Affinity>,
}

/// Whether numbers are wanted.
fn is_numeric(affinity: Option<Affinity>) -> bool
    ensures { result ≡ meant.is_numeric affinity }
{
    matches!(affinity, Some(Affinity::Integer | Affinity::Numeric))
}

/// What is applied to a side beside the other.
fn conversion(own: Option<Affinity>, other: Option<Affinity>) -> Affinity
    ensures { result ≡ meant.conversion own other }
{
    match (own, other) {
        (None, Some(Affinity::Text)) => Affinity::Text,
        _ if is_numeric(other) && !is_numeric(own) => Affinity::Numeric,
        _ => Affinity::Blob,
    }
}

/// Whether an order is such as a comparison asks.
pub fn is_met(comparison: Comparison, order: Ordering) -> bool
    ensures { result ≡ meant.is_met comparison order }
{
    match comparison {
        Comparison::Equal => order.is_eq(),
        Comparison::NotEqual => order.is_ne(),
        Comparison::Less => order.is_lt(),
        Comparison::LessOrEqual => order.is_le(),
        Comparison::Greater => order.is_gt(),
        Comparison::GreaterOrEqual => order.is_ge(),
    }
}

/// 1 or 0.
pub fn of_bool(is_true: bool) -> Value
    ensures { result ≡ meant.of_bool is_true }
{
    if is_true {
        Value::Int(1)
    } else {
        Value::Int(0)
    }
}

/// 1 or 0, and NULL beside a NULL.
fn compared(
    comparison: Comparison,
    collation: Collation,
    left: Field<'_>,
    right: Field<'_>,
) -> Value
    ensures { result ≡ meant.compared comparison collation (value_of left.entry) (value_of right.entry) }
{
    match (left, right) {
        (Field::Null, _) | (_, Field::Null) => Value::Null,
        _ => of_bool(is_met(comparison, compare_fields(left, right, collation))),
    }
}

/// A copy of a value as an affinity makes it.
fn changed(alloc: Global, affinity: Affinity, value: Field<'_>) -> R<Value>
    ensures { Answers (converted affinity (value_of value.entry)) result }
{
    conversion_is_one();
    let copy = value.to_value(alloc)?;
    apply(alloc, affinity, copy)
}

/// A value as an affinity makes it; its bytes are copied only where they may change.
fn convert<'a>(alloc: Global, affinity: Affinity, value: Field<'a>) -> R<Datum<'a>>
    ensures { AnswersBy datum (converted affinity (value_of value.entry)) result }
{
    match (affinity, value) {
        (Affinity::Integer | Affinity::Numeric, Field::Text(_)) | (Affinity::Text, Field::Int(_)) =>
            { Ok(Datum::Made(changed(alloc, affinity, value)?)) }
        _ => Ok(Datum::Lent(value)),
    }
}

/// Both values as they are compared.
fn both_converted<'a>(
    alloc: Global,
    manner: Manner,
    left: Field<'a>,
    right: Field<'a>,
) -> R<Sides<'a>>
    ensures { AnswersBy pair (meant.both_converted manner.left manner.right (value_of left.entry)
        (value_of right.entry)) result }
{
    let first = convert(alloc, conversion(manner.left, manner.right), left)?;
    beside(
        first,
        convert(alloc, conversion(manner.right, manner.left), right),
    )
}

/// 1, 0 or NULL: how two values stand to each other.
pub fn compare_by(
    alloc: Global,
    comparison: Comparison,
    manner: Manner,
    left: Field<'_>,
    right: Field<'_>,
) -> R<Value>
    ensures { Answers (meant.compare comparison manner.collation manner.left manner.right
        (value_of left.entry) (value_of right.entry)) result }
{
    let sides = both_converted(alloc, manner, left, right)?;
    let first = sides.left.as_field();
    let outcome = compared(comparison, manner.collation, first, sides.right.as_field());
    drop(sides);
    Ok(outcome)
}

/// Whether two values are one.
pub fn are_same(alloc: Global, manner: Manner, left: Field<'_>, right: Field<'_>) -> R<bool>
    ensures { Answers (meant.same manner.collation manner.left manner.right (value_of left.entry)
        (value_of right.entry)) result }
{
    let sides = both_converted(alloc, manner, left, right)?;
    let first = sides.left.as_field();
    let order = compare_fields(first, sides.right.as_field(), manner.collation);
    drop(sides);
    Ok(order.is_eq())
}
