//! What is made of values that were just evaluated, or why they were refused; each value is let go of here.

ghost use Rattle.std.specs.Prelude.{◌≡◌, ◌⊎◌, if◌then◌else◌, Bool, List, Ok, Option, map, not};
ghost use Rattle.sqlval.specs.Fields.{value_of};
ghost use Rattle.sqlval.specs.Refusals.{Answer, ◌then◌};
ghost use Rattle.sqlval.specs.declared.value.Value.{Value as Stored};
ghost use Rattle.query_terms.specs.Outcome.{Answers, AnswersBy};
ghost use Rattle.query_terms.specs.Rows.{compared_to, datum, made_of, pair};
ghost use Rattle.query_terms.specs.Values as meant;

use crate::comparing::{Manner, are_same, compare_by, of_bool};
use crate::datum::Datum;
use crate::numbers::{absolute, calculate, negative};
use crate::texts::{concatenate, length_of, lower, type_of, upper};
use crate::totals::aggregated;
use crate::tree::{Aggregate, Arithmetic, Comparison, Function};
use crate::truth::{negated, of_truth, truth, turned};
use sqlval::{Collation, Field, R, Value};
use std::alloc::Global;

/// A value that is made.
pub fn made<'a>(found: R<Value>) -> R<Datum<'a>>
    ensures { (answer : Answer Stored) → Answers answer found → AnswersBy datum answer result }
{
    Ok(Datum::Made(found?))
}

/// 1 or 0, the other way round where IS NOT is written.
pub fn of_sameness(is_not: bool, found: R<bool>) -> R<Value>
    ensures { (answer : Answer Bool) → Answers answer found
        → Answers (answer then λ t. Ok (meant.of_bool (if is_not then not t else t))) result }
{
    let is_same = found?;
    Ok(of_bool(if is_not { !is_same } else { is_same }))
}

/// 1, 0 or NULL.
pub fn of_holding(found: R<Option<bool>>) -> R<Value>
    ensures { (answer : Answer Stored) → AnswersBy meant.of_truth answer found
        → Answers answer result }
{
    Ok(of_truth(found?))
}

/// 1, 0 or NULL, under NOT where it is written.
pub fn turned_holding(is_negated: bool, found: R<Option<bool>>) -> R<Value>
    ensures of_value { (answer : Answer Stored) → AnswersBy meant.of_truth answer found
        → Answers (answer then meant.turned is_negated) result }
    ensures of_truth { (answer : Answer (Option Bool)) → Answers answer found
        → Answers (answer then λ t. meant.turned is_negated (meant.of_truth t)) result }
{
    Ok(of_truth(turned(is_negated, found?)))
}

/// The truth of a value.
pub fn truth_of(operand: R<Datum<'_>>) -> R<Option<bool>>
    ensures { (answer : Answer Stored) → AnswersBy datum answer operand.entry
        → Answers (answer then meant.truth) result }
{
    let value = operand?;
    let found = truth(value.as_field());
    drop(value);
    found
}

/// Two operands' values.
#[derive(Drop)]
pub struct Sides<'a> {
    pub left: Datum<'a>,
    pub right: Datum<'a>,
}

/// The second operand's value beside the first one's.
pub fn beside<'a>(left: Datum<'a>, right: R<Datum<'a>>) -> R<Sides<'a>>
    ensures { (answer : Answer Stored) → AnswersBy datum answer right.entry
        → AnswersBy pair (answer then λ w. Ok (datum left.entry, w)) result }
{
    match right {
        Ok(right) => Ok(Sides { left, right }),
        Err(fault) => {
            drop(left);
            Err(fault)
        }
    }
}

/// An operator on numbers.
pub fn calculated_of(operator: Arithmetic, sides: R<Sides<'_>>) -> R<Value>
    ensures { (answer : Answer (Stored × Stored)) → AnswersBy pair answer sides.entry
        → Answers (answer then λ p. meant.on_numbers (meant.arithmetic operator) p.0 p.1) result }
{
    let sides = sides?;
    let found = calculate(operator, sides.left.as_field(), sides.right.as_field());
    drop(sides);
    found
}

/// `||`.
pub fn concatenated_of(alloc: Global, sides: R<Sides<'_>>) -> R<Value>
    ensures { (answer : Answer (Stored × Stored)) → AnswersBy pair answer sides.entry
        → Answers (answer then λ p. meant.concat p.0 p.1) result }
{
    let sides = sides?;
    let found = concatenate(alloc, sides.left.as_field(), sides.right.as_field());
    drop(sides);
    found
}

/// A comparison: 1, 0 or NULL.
pub fn compared_of(
    alloc: Global,
    comparison: Comparison,
    manner: Manner,
    sides: R<Sides<'_>>,
) -> R<Value>
    ensures { (answer : Answer (Stored × Stored)) → AnswersBy pair answer sides.entry
        → Answers (answer then λ p. meant.compare comparison manner.collation manner.left
        manner.right p.0 p.1) result }
{
    let sides = sides?;
    let left = sides.left.as_field();
    let found = compare_by(alloc, comparison, manner, left, sides.right.as_field());
    drop(sides);
    found
}

/// Whether two values are one.
pub fn sameness_of(alloc: Global, manner: Manner, sides: R<Sides<'_>>) -> R<bool>
    ensures { (answer : Answer (Stored × Stored)) → AnswersBy pair answer sides.entry
        → Answers (answer then λ p. meant.same manner.collation manner.left manner.right p.0 p.1) result }
{
    let sides = sides?;
    let found = are_same(alloc, manner, sides.left.as_field(), sides.right.as_field());
    drop(sides);
    found
}

/// How a value stands to an operand's.
pub fn stands(
    alloc: Global,
    comparison: Comparison,
    manner: Manner,
    value: Field<'_>,
    other: R<Datum<'_>>,
) -> R<Option<bool>>
    ensures { (answer : Answer Stored) → AnswersBy datum answer other.entry
        → Answers (compared_to comparison manner (value_of value.entry) answer) result }
{
    let other = other?;
    let found = compare_by(alloc, comparison, manner, value, other.as_field());
    drop(other);
    truth_of(made(found))
}

/// What makes a value of one other.
#[derive(Clone, Copy)]
pub enum Single {
    Minus,
    Not,
    Of(Function),
}

/// What is made of a value.
fn applied(alloc: Global, single: Single, value: Field<'_>) -> R<Value>
    ensures { Answers (made_of single (value_of value.entry)) result }
{
    match single {
        Single::Minus => negative(value),
        Single::Not => negated(value),
        Single::Of(Function::Abs) => absolute(value),
        Single::Of(Function::Length) => length_of(alloc, value),
        Single::Of(Function::Lower) => lower(alloc, value),
        Single::Of(Function::Upper) => upper(alloc, value),
        Single::Of(Function::TypeOf) => type_of(alloc, value),
        Single::Of(Function::Coalesce) => Ok(value.to_value(alloc)?),
    }
}

/// What is made of an operand, or of the argument of a function.
pub fn applied_of(alloc: Global, single: Single, operand: R<Datum<'_>>) -> R<Value>
    ensures { (answer : Answer Stored) → AnswersBy datum answer operand.entry
        → Answers (answer then made_of single) result }
{
    let value = operand?;
    let found = applied(alloc, single, value.as_field());
    drop(value);
    found
}

/// What an aggregate gives over values.
pub fn aggregated_of(
    alloc: Global,
    aggregate: Aggregate,
    collation: Collation,
    values: R<Vec<Datum<'_>>>,
) -> R<Value>
    ensures { (answer : Answer (List Stored))
        → AnswersBy (λ found. map datum found.items) answer values.entry
        → Answers (answer then meant.aggregated aggregate collation) result }
{
    let values = values?;
    let found = aggregated(alloc, aggregate, collation, values.as_slice());
    drop(values);
    found
}
