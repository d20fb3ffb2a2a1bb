//! When two expressions are the same.

ghost use Rattle.std.specs.Prelude.{◌≡◌, ◌==◌};
ghost use Rattle.std.specs.Cmp.Lexicographic.{pointwise};
ghost use Rattle.sqlval.specs.Sameness.{is_same_value};
ghost use Rattle.query_terms.specs.Terms as meant;
ghost use Rattle.query_terms.specs.Terms.{terms};

use crate::tree::{
    Aggregate, Arithmetic, Comparison, Function, Node, OneSided, Place, Term, TwoSided,
};
use sql_syntax::RaiseAction;
use sqlval::{Collation, Text, Value};

/// Whether both are the same expression; columns are told apart by where they stand.
#[cycle(is_same)]
pub fn is_same(left: &Term, right: &Term) -> bool
    ensures { result ≡ meant.same_term left.now right.now }
{
    match (&left.node, &right.node) {
        (Node::Const(value), Node::Const(other)) => same_value(value, other),
        (Node::Digits(number), Node::Digits(other)) => *number == *other,
        (Node::Cell(source, place, _, _), Node::Cell(other, at, _, _)) => {
            *source == *other && same_place(*place, *at)
        }
        (Node::Key(place, _), Node::Key(other, _)) => *place == *other,
        (Node::Apply(function, list), Node::Apply(other, items)) => {
            same_function(*function, *other) && are_same(list, items)
        }
        (Node::Total(aggregate, argument), Node::Total(other, item)) => {
            same_aggregate(*aggregate, *other) && is_same(argument, item)
        }
        (Node::One(operator, operand), Node::One(other, item)) => {
            same_one(*operator, *other) && is_same(operand, item)
        }
        (Node::Two(operator, a, b), Node::Two(other, c, d)) => {
            same_two(*operator, *other) && is_same(a, c) && is_same(b, d)
        }
        (Node::Collate(collation, operand), Node::Collate(other, item)) => {
            same_collation(*collation, *other) && is_same(operand, item)
        }
        (Node::In(is_negated, a, list), Node::In(other, c, items)) => {
            same_flag(*is_negated, *other) && is_same(a, c) && are_same(list, items)
        }
        (Node::Between(is_negated, a, b, e), Node::Between(other, c, d, f)) => {
            same_flag(*is_negated, *other) && is_same(a, c) && is_same(b, d) && is_same(e, f)
        }
        (Node::Raise(action, text), Node::Raise(other, words)) => {
            same_raise(*action, *other) && same_text(text, words)
        }
        _ => false,
    }
}

/// Whether both lists have the same expressions.
#[cycle(is_same)]
fn are_same(left: &[Term], right: &[Term]) -> bool
    ensures { result ≡ meant.same_terms (terms left.now) (terms right.now) }
{
    let mut first = left;
    let mut second = right;
    'pairs: loop {
        let Some((x, xs)) = first.split_first() else {
            return second.is_empty();
        };
        let Some((y, ys)) = second.split_first() else {
            return false;
        };
        if !is_same(x, y) {
            return false;
        }
        first = xs;
        second = ys;
    }
}

/// Whether both are one value, by kind and bytes.
fn same_value(left: &Value, right: &Value) -> bool
    ensures { result ≡ is_same_value left.now right.now }
{
    match (left, right) {
        (Value::Null, Value::Null) => true,
        (Value::Int(number), Value::Int(other)) => *number == *other,
        (Value::Text(text), Value::Text(other)) => {
            text.as_str().as_bytes() == other.as_str().as_bytes()
        }
        (Value::Blob(bytes), Value::Blob(other)) => bytes.as_slice() == other.as_slice(),
        _ => false,
    }
}

/// Whether both are the rowid, or the same column.
fn same_place(left: Place, right: Place) -> bool
    ensures { result ≡ meant.same_place left right }
{
    match (left, right) {
        (Place::RowId, Place::RowId) => true,
        (Place::At(place), Place::At(other)) => place == other,
        _ => false,
    }
}

/// Whether both are one operator before an operand.
fn same_one(left: OneSided, right: OneSided) -> bool
    ensures { result ≡ meant.same_one left right }
{
    match (left, right) {
        (OneSided::Negated, OneSided::Negated) | (OneSided::Not, OneSided::Not) => true,
        _ => false,
    }
}

/// Whether both are one operator between operands.
fn same_two(left: TwoSided, right: TwoSided) -> bool
    ensures { result ≡ meant.same_two left right }
{
    match (left, right) {
        (TwoSided::Compare(operator), TwoSided::Compare(other)) => same_comparison(operator, other),
        (TwoSided::Calculate(operator), TwoSided::Calculate(other)) => {
            same_arithmetic(operator, other)
        }
        (TwoSided::Is, TwoSided::Is) | (TwoSided::IsNot, TwoSided::IsNot) => true,
        (TwoSided::And, TwoSided::And) | (TwoSided::Or, TwoSided::Or) => true,
        (TwoSided::Concatenate, TwoSided::Concatenate) => true,
        _ => false,
    }
}

/// Whether both are one comparison.
fn same_comparison(left: Comparison, right: Comparison) -> bool
    ensures { result ≡ (meant.comparison_index left == meant.comparison_index right) }
{
    left == right
}

/// Whether both are one operator on numbers.
fn same_arithmetic(left: Arithmetic, right: Arithmetic) -> bool
    ensures { result ≡ (meant.arithmetic_index left == meant.arithmetic_index right) }
{
    left == right
}

/// Whether both are one function.
fn same_function(left: Function, right: Function) -> bool
    ensures { result ≡ (meant.function_index left == meant.function_index right) }
{
    left == right
}

/// Whether both are one aggregate.
fn same_aggregate(left: Aggregate, right: Aggregate) -> bool
    ensures { result ≡ (meant.aggregate_index left == meant.aggregate_index right) }
{
    left == right
}

/// Whether both are one collation.
fn same_collation(left: Collation, right: Collation) -> bool
    ensures { result ≡ (meant.collation_index left == meant.collation_index right) }
{
    left == right
}

/// Whether both are one action of RAISE.
fn same_raise(left: RaiseAction, right: RaiseAction) -> bool
    ensures { result ≡ meant.same_raise left right }
{
    match (left, right) {
        (RaiseAction::Abort, RaiseAction::Abort) => true,
        (RaiseAction::Rollback, RaiseAction::Rollback) => true,
        _ => false,
    }
}

/// Whether both texts have the same bytes.
fn same_text(left: &Text, right: &Text) -> bool
    ensures { result ≡ pointwise ◌==◌ left.now right.now }
{
    left.as_str().as_bytes() == right.as_str().as_bytes()
}

/// Whether NOT is written in both or in neither.
fn same_flag(left: bool, right: bool) -> bool
    ensures { result ≡ meant.same_flag left right }
{
    left == right
}
