//! The value of an expression over rows.

ghost use Rattle.std.specs.Prelude.{◌≡◌, ◌≢◌, ◌⊎◌, if◌then◌else◌, map, None};
ghost use Rattle.sqlval.specs.Fields.{value_of};
ghost use Rattle.sqlval.specs.Refusals.{◌then◌};
ghost use Rattle.query_terms.specs.Outcome.{Answers, AnswersBy};
ghost use Rattle.query_terms.specs.Rows.{alone, at_each, both_sides, compared_to, datum, manner_of, pair, pair_of, seen};
ghost use Rattle.query_terms.specs.Terms as tree;
ghost use Rattle.query_terms.specs.Terms.{terms};
ghost use Rattle.query_terms.specs.Values as meant;

use crate::collating::{collation, manner_alone, manner_of_two};
use crate::comparing::Manner;
use crate::datum::Datum;
use crate::finding::number_among;
use crate::integers::integer_holds;
use crate::numbers::word;
use crate::operands::{
    Sides, Single, aggregated_of, applied_of, beside, calculated_of, compared_of, concatenated_of,
    made, of_holding, of_sameness, sameness_of, stands, truth_of, turned_holding,
};
use crate::raising::raised;
use crate::rows::Env;
use crate::totals::count_word;
use crate::tree::{Aggregate, Comparison, Function, Node, OneSided, Term, TwoSided};
use crate::truth::{both_hold, is_null, one_holds};
use sqlval::{Field, R, Value};
use std::alloc::Global;

/// The value of an expression, or its first refusal.
#[cycle(evaluate)]
pub fn evaluate<'a>(alloc: Global, term: &'a Term, env: &Env<'a>) -> R<Datum<'a>>
    ensures { AnswersBy datum (meant.value term.now (seen env.now)) result }
{
    match &term.node {
        Node::Const(value) => Ok(Datum::Lent(value.as_field())),
        Node::Digits(number) => made(word(i128::from(*number))),
        Node::Cell(source, place, _, _) => Ok(Datum::Lent(env.cell(*source, *place))),
        Node::Key(place, _) => Ok(Datum::Lent(env.key(*place))),
        Node::Collate(_, inner) => evaluate(alloc, inner, env),
        Node::Apply(function, list) => call(alloc, *function, list, env),
        Node::Total(aggregate, argument) => made(total(alloc, *aggregate, argument, env)),
        Node::One(operator, operand) => made(of_one(alloc, *operator, operand, env)),
        Node::Two(operator, left, right) => made(of_two(alloc, *operator, left, right, env)),
        Node::In(is_negated, operand, list) => made(among(alloc, *is_negated, operand, list, env)),
        Node::Between(is_negated, operand, low, high) => {
            made(between(alloc, *is_negated, operand, low, high, env))
        }
        Node::Raise(action, text) => Err(raised(alloc, *action, text)),
    }
}

/// Whether an expression is true, or neither true nor false: AND and OR make no value of it.
#[cycle(evaluate)]
#[tactic(auto, using(crate::proofs::Truths::truth_again))]
pub fn holds<'a>(alloc: Global, term: &'a Term, env: &Env<'a>) -> R<Option<bool>>
    ensures { Answers (meant.value term.now (seen env.now) then meant.truth) result }
{
    match &term.node {
        Node::Two(TwoSided::And, left, right) => joined(alloc, false, left, right, env),
        Node::Two(TwoSided::Or, left, right) => joined(alloc, true, left, right, env),
        _ => value_holds(alloc, term, env),
    }
}

/// The same by its value, or without it where it is an integer.
#[cycle(evaluate)]
fn value_holds<'a>(alloc: Global, term: &'a Term, env: &Env<'a>) -> R<Option<bool>>
    ensures { Answers (meant.value term.now (seen env.now) then meant.truth) result }
{
    if let Some(test) = integer_holds(term, env) {
        return Ok(Some(test));
    }
    truth_of(evaluate(alloc, term, env))
}

/// A minus or NOT.
#[cycle(evaluate)]
fn of_one<'a>(alloc: Global, operator: OneSided, operand: &'a Term, env: &Env<'a>) -> R<Value>
    ensures { Answers (meant.value (tree.One operator operand.now) (seen env.now)) result }
{
    match operator {
        OneSided::Negated => minus(alloc, operand, env),
        OneSided::Not => applied_of(alloc, Single::Not, evaluate(alloc, operand, env)),
    }
}

/// A minus; right before a number it may make the least number of 64 bits.
#[cycle(evaluate)]
fn minus<'a>(alloc: Global, operand: &'a Term, env: &Env<'a>) -> R<Value>
    ensures { Answers (meant.value (tree.One OneSided.Negated operand.now) (seen env.now)) result }
{
    match &operand.node {
        Node::Digits(number) => word(-i128::from(*number)),
        _ => applied_of(alloc, Single::Minus, evaluate(alloc, operand, env)),
    }
}

/// The values of two operands; the left one is evaluated first.
#[cycle(evaluate)]
fn both<'a>(alloc: Global, left: &'a Term, right: &'a Term, env: &Env<'a>) -> R<Sides<'a>>
    ensures { AnswersBy pair (pair_of (meant.value left.now (seen env.now))
        (meant.value right.now (seen env.now))) result }
{
    let first = evaluate(alloc, left, env)?;
    beside(first, evaluate(alloc, right, env))
}

/// An operator between two operands.
#[cycle(evaluate)]
fn of_two<'a>(
    alloc: Global,
    operator: TwoSided,
    left: &'a Term,
    right: &'a Term,
    env: &Env<'a>,
) -> R<Value>
    ensures { Answers (meant.value (tree.Two operator left.now right.now) (seen env.now)) result }
{
    match operator {
        TwoSided::Compare(operator) => {
            let manner = manner_of_two(left, right);
            compared_of(alloc, operator, manner, both(alloc, left, right, env))
        }
        TwoSided::Calculate(operator) => calculated_of(operator, both(alloc, left, right, env)),
        TwoSided::Is => identity(alloc, false, left, right, env),
        TwoSided::IsNot => identity(alloc, true, left, right, env),
        TwoSided::And => of_holding(joined(alloc, false, left, right, env)),
        TwoSided::Or => of_holding(joined(alloc, true, left, right, env)),
        TwoSided::Concatenate => concatenated_of(alloc, both(alloc, left, right, env)),
    }
}

/// AND and OR: the second side is evaluated only where the first doesn't decide.
#[cycle(evaluate)]
fn joined<'a>(
    alloc: Global,
    is_or: bool,
    left: &'a Term,
    right: &'a Term,
    env: &Env<'a>,
) -> R<Option<bool>>
    ensures { AnswersBy meant.of_truth
        (meant.value (tree.Two (if is_or then TwoSided.Or else TwoSided.And) left.now right.now)
        (seen env.now)) result }
{
    let first = holds(alloc, left, env)?;
    if first == Some(is_or) {
        return Ok(first);
    }
    let second = holds(alloc, right, env)?;
    if is_or {
        Ok(one_holds(first, second))
    } else {
        Ok(both_hold(first, second))
    }
}

/// IS and IS NOT.
#[cycle(evaluate)]
fn identity<'a>(
    alloc: Global,
    is_not: bool,
    left: &'a Term,
    right: &'a Term,
    env: &Env<'a>,
) -> R<Value>
    ensures { Answers
        (meant.value (tree.Two (if is_not then TwoSided.IsNot else TwoSided.Is) left.now right.now)
        (seen env.now)) result }
{
    let manner = manner_of_two(left, right);
    of_sameness(
        is_not,
        sameness_of(alloc, manner, both(alloc, left, right, env)),
    )
}

/// How an operand's value stands to another expression's.
#[cycle(evaluate)]
fn side<'a>(
    alloc: Global,
    comparison: Comparison,
    manner: Manner,
    value: Field<'_>,
    term: &'a Term,
    env: &Env<'a>,
) -> R<Option<bool>>
    ensures { Answers (compared_to comparison manner (value_of value.entry)
        (meant.value term.now (seen env.now))) result }
{
    stands(alloc, comparison, manner, value, evaluate(alloc, term, env))
}

/// Whether an operand of this manner and value equals another expression.
#[cycle(evaluate)]
fn equals<'a>(
    alloc: Global,
    operand: &'a Term,
    manner: Manner,
    value: Field<'_>,
    term: &'a Term,
    env: &Env<'a>,
) -> R<Option<bool>>
    requires { manner ≡ alone operand.now }
    ensures { Answers
        (compared_to Comparison.Equal (alone operand.now) (value_of value.entry)
        (meant.value term.now (seen env.now))) result }
{
    side(alloc, Comparison::Equal, manner, value, term, env)
}

/// Whether a value is among those of a list: false, or NULL beside a NULL.
#[cycle(evaluate)]
#[tactic(auto, using(crate::proofs::Among::begins, crate::proofs::Items::item_falls))]
fn found_among<'a>(
    alloc: Global,
    operand: &'a Term,
    value: Field<'_>,
    list: &'a [Term],
    env: &Env<'a>,
) -> R<Option<bool>>
    ensures { AnswersBy meant.of_truth
        (meant.value_among operand.now (value_of value.entry) (terms list.now) (seen env.now)) result }
{
    if let Some(found) = number_among(operand, value, list) {
        return Ok(Some(found));
    }
    let manner = manner_alone(operand);
    let mut so_far = Some(false);
    'terms: for term in list {
        let equal = equals(alloc, operand, manner, value, term, env)?;
        if equal.unwrap_or(false) {
            return Ok(equal);
        }
        so_far = one_holds(so_far, equal);
    }
    Ok(so_far)
}

/// IN and NOT IN.
#[cycle(evaluate)]
fn among<'a>(
    alloc: Global,
    is_negated: bool,
    operand: &'a Term,
    list: &'a [Term],
    env: &Env<'a>,
) -> R<Value>
    ensures { Answers (meant.value (tree.In is_negated operand.now (terms list.now)) (seen env.now)) result }
{
    let value = evaluate(alloc, operand, env)?;
    let found = found_among(alloc, operand, value.as_field(), list, env);
    drop(value);
    turned_holding(is_negated, found)
}

/// Whether `>=` holds of the least, and then `<=` of the greatest.
#[cycle(evaluate)]
fn within<'a>(
    alloc: Global,
    operand: &'a Term,
    value: Field<'_>,
    low: &'a Term,
    high: &'a Term,
    env: &Env<'a>,
) -> R<Option<bool>>
    ensures { Answers (both_sides
        (compared_to Comparison.GreaterOrEqual (manner_of operand.now low.now)
        (value_of value.entry) (meant.value low.now (seen env.now)))
        (compared_to Comparison.LessOrEqual (manner_of operand.now high.now) (value_of value.entry)
        (meant.value high.now (seen env.now))))
        result }
{
    let from = manner_of_two(operand, low);
    let first = side(alloc, Comparison::GreaterOrEqual, from, value, low, env)?;
    if first == Some(false) {
        return Ok(first);
    }
    let to = manner_of_two(operand, high);
    let second = side(alloc, Comparison::LessOrEqual, to, value, high, env)?;
    Ok(both_hold(first, second))
}

/// BETWEEN and NOT BETWEEN.
#[cycle(evaluate)]
fn between<'a>(
    alloc: Global,
    is_negated: bool,
    operand: &'a Term,
    low: &'a Term,
    high: &'a Term,
    env: &Env<'a>,
) -> R<Value>
    ensures { Answers
        (meant.value (tree.Between is_negated operand.now low.now high.now) (seen env.now)) result }
{
    let value = evaluate(alloc, operand, env)?;
    let is_within = within(alloc, operand, value.as_field(), low, high, env);
    drop(value);
    turned_holding(is_negated, is_within)
}

/// A function of one row.
#[cycle(evaluate)]
fn call<'a>(alloc: Global, function: Function, list: &'a [Term], env: &Env<'a>) -> R<Datum<'a>>
    ensures { AnswersBy datum (meant.value (tree.Apply function (terms list.now)) (seen env.now)) result }
{
    match function {
        Function::Coalesce => first_value(alloc, list, env),
        _ => made(applied_of(
            alloc,
            Single::Of(function),
            first_argument(alloc, list, env),
        )),
    }
}

/// The first value that isn't NULL.
#[cycle(evaluate)]
#[tactic(auto, using(crate::proofs::Items::item_falls))]
fn first_value<'a>(alloc: Global, list: &'a [Term], env: &Env<'a>) -> R<Datum<'a>>
    ensures { AnswersBy datum (meant.first_value (terms list.now) (seen env.now)) result }
{
    'terms: for term in list {
        let found = evaluate(alloc, term, env)?;
        if !is_null(found.as_field()) {
            return Ok(found);
        }
        drop(found);
    }
    Ok(Datum::Made(Value::Null))
}

/// The value of a function's first argument.
#[cycle(evaluate)]
fn first_argument<'a>(alloc: Global, list: &'a [Term], env: &Env<'a>) -> R<Datum<'a>>
    ensures { AnswersBy datum (meant.value_of_one (terms list.now) (seen env.now)) result }
{
    match list {
        [] => Ok(Datum::Made(Value::Null)),
        [first, ..] => evaluate(alloc, first, env),
    }
}

/// An aggregate over the group's rows.
#[cycle(evaluate)]
fn total<'a>(alloc: Global, aggregate: Aggregate, argument: &'a Term, env: &Env<'a>) -> R<Value>
    ensures { Answers (meant.value (tree.Total aggregate argument.now) (seen env.now)) result }
{
    match aggregate {
        Aggregate::CountAll => count_word(env.group.len()),
        _ => {
            let collation = collation(argument);
            aggregated_of(
                alloc,
                aggregate,
                collation,
                values_of_group(alloc, argument, env),
            )
        }
    }
}

/// The values of an expression at the group's rows.
#[cycle(evaluate)]
fn values_of_group<'a>(alloc: Global, term: &'a Term, env: &Env<'a>) -> R<Vec<Datum<'a>>>
    ensures { AnswersBy (λ found. map datum found.items) (at_each term.now (seen env.now).group) result }
{
    let mut found = Vec::with_capacity(alloc, env.group.len())?;
    'rows: for picked in env.group {
        let value = evaluate(alloc, term, &env.row_of_group(picked.as_slice()))?;
        found.push(value)?;
    }
    Ok(found)
}
