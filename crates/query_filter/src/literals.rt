//! Literals.

ghost use Rattle.std.specs.Prelude.{◌≡◌, IfErr, IfOk, IfSome, map, true};
ghost use Rattle.sqlval.specs.Conversion.{word};
ghost use Rattle.sqlval.specs.declared.value.Value.TheVariants as the;
ghost use Rattle.query_filter.specs.Literals as meant;
ghost use Rattle.query_filter.specs.Literals.{are_plain, value_or_null};

use query_terms::{Node, OneSided, Term};
use sqlval::{Affinity, Fault, R, Value};
use std::alloc::Global;

/// A number as a value; NULL where it doesn't have 64 bits.
fn number_value(number: i128) -> Value
    ensures { result ≡ value_or_null (word number) }
{
    match i64::try_from(number) {
        Ok(number) => Value::Int(number),
        Err(_) => Value::Null,
    }
}

/// The value of a literal, a number's with a minus or without; NULL of any other expression. (`Memory`.)
fn literal_value(alloc: Global, term: &Term) -> R<Value>
    ensures value { IfOk result (λ value. value ≡ meant.literal_value term.now) }
    ensures refused { IfErr result (λ fault. fault ≡ Fault.Memory) }
{
    match &term.node {
        Node::Const(value) => Ok(value.copy(alloc)?),
        Node::Digits(number) => Ok(number_value(i128::from(*number))),
        Node::One(OneSided::Negated, operand) => match &operand.node {
            Node::Digits(number) => Ok(number_value(-i128::from(*number))),
            _ => Ok(Value::Null),
        },
        _ => Ok(Value::Null),
    }
}

/// The integer that a value is.
fn integer_in(value: Value) -> Option<i64>
    ensures { IfSome result (λ number. value ≡ the.Int number) }
{
    match value {
        Value::Int(number) => Some(number),
        _ => None,
    }
}

/// The integer that a literal is, with a minus or without.
pub(crate) fn number_in(term: &Term) -> Option<i64>
    ensures { IfSome result (λ number. meant.literal_value term.now ≡ the.Int number) }
{
    match &term.node {
        Node::Const(Value::Int(number)) => Some(*number),
        Node::Digits(number) => integer_in(number_value(i128::from(*number))),
        Node::One(OneSided::Negated, operand) => match &operand.node {
            Node::Digits(number) => integer_in(number_value(-i128::from(*number))),
            _ => None,
        },
        _ => None,
    }
}

/// Whether a value that isn't NULL stays as it is beside a side of an affinity.
fn stays_beside(affinity: Option<Affinity>, value: &Value) -> bool
    ensures { result ≡ meant.stays_beside affinity value.now }
{
    match (affinity, value) {
        (_, Value::Null) => false,
        (Some(Affinity::Text), Value::Int(_)) => false,
        (Some(Affinity::Integer | Affinity::Numeric), Value::Text(_)) => false,
        _ => true,
    }
}

/// The values of a list of literals that stay as they are beside an affinity; None of any other list. (`Memory`.)
pub(crate) fn literal_values(
    alloc: Global,
    affinity: Option<Affinity>,
    list: &[Term],
) -> R<Option<Vec<Value>>>
    ensures values { IfOk result (λ found. IfSome found (λ values.
        values.items ≡ map meant.literal_value list.now)) }
    ensures plain { IfOk result (λ found. IfSome found (λ values. are_plain affinity list.now ≡ true)) }
    ensures refused { IfErr result (λ fault. fault ≡ Fault.Memory) }
{
    let mut values = Vec::with_capacity(alloc, list.len())?;
    'terms: for term in list {
        let value = literal_value(alloc, term)?;
        if !stays_beside(affinity, &value) {
            return Ok(None);
        }
        values.push(value)?;
    }
    Ok(Some(values))
}
