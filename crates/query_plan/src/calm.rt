//! Conditions that can't be refused.

ghost use Rattle.std.specs.Prelude.{◌≡◌, ◌&&◌, is_ok, IfErr, IfOk};
ghost use Rattle.sqlval.specs.Conversion.{converted};
ghost use Rattle.query_terms.specs.Terms.{terms};
ghost use Rattle.query_terms.specs.Values as meant;
ghost use Rattle.query_names.specs.Calm as calm;

use query_terms::{Node, OneSided, Term, TwoSided, affinity, conversion_is_one};
use sqlval::{Affinity, Fault, R, Value, apply};
use std::alloc::Global;

/// Whether an expression is a column or a literal.
fn is_side(term: &Term) -> bool
    ensures { result ≡ calm.is_side term.now }
{
    match &term.node {
        Node::Cell(_, _, _, _) | Node::Const(_) => true,
        Node::Digits(number) => *number <= 9_223_372_036_854_775_807,
        _ => false,
    }
}

/// Whether numbers are wanted.
fn is_numeric(affinity: Option<Affinity>) -> bool
    ensures { result ≡ meant.is_numeric affinity }
{
    matches!(affinity, Some(Affinity::Integer | Affinity::Numeric))
}

/// What is applied to a side beside the other.
pub(crate) fn conversion(own: Option<Affinity>, other: Option<Affinity>) -> Affinity
    ensures { result ≡ meant.conversion own other }
{
    match (own, other) {
        (None, Some(Affinity::Text)) => Affinity::Text,
        _ if is_numeric(other) && !is_numeric(own) => Affinity::Numeric,
        _ => Affinity::Blob,
    }
}

/// Whether the conversion of a literal isn't refused. (`Memory`.)
fn converts_value(alloc: Global, affinity: Affinity, value: &Value) -> R<bool>
    ensures found { IfOk result (λ b. b ≡ is_ok (converted affinity value.now)) }
    ensures refused { IfErr result (λ fault. fault ≡ Fault.Memory) }
{
    conversion_is_one();
    match apply(alloc, affinity, value.copy(alloc)?) {
        Ok(value) => {
            drop(value);
            Ok(true)
        }
        Err(Fault::Memory) => Err(Fault::Memory),
        Err(_) => Ok(false),
    }
}

/// Whether an expression is a literal whose conversion isn't refused. (`Memory`.)
fn converts_literal(alloc: Global, affinity: Affinity, term: &Term) -> R<bool>
    ensures found { IfOk result (λ b. b ≡ calm.converts_literal affinity term.now) }
    ensures refused { IfErr result (λ fault. fault ≡ Fault.Memory) }
{
    match &term.node {
        Node::Const(value) => converts_value(alloc, affinity, value),
        Node::Digits(_) => Ok(true),
        _ => Ok(false),
    }
}

/// Whether an expression is a column or a literal whose conversion isn't refused. (`Memory`.)
fn is_calm_side(alloc: Global, affinity: Affinity, term: &Term) -> R<bool>
    ensures found { IfOk result (λ b. b ≡ (calm.is_side term.now && calm.converts affinity term.now)) }
    ensures refused { IfErr result (λ fault. fault ≡ Fault.Memory) }
{
    if !is_side(term) {
        return Ok(false);
    }
    match affinity {
        Affinity::Blob => Ok(true),
        _ => converts_literal(alloc, affinity, term),
    }
}

/// Whether two sides are compared, each with its affinity, without a refusal. (`Memory`.)
fn is_calm_pair(
    alloc: Global,
    own: Option<Affinity>,
    other: Option<Affinity>,
    left: &Term,
    right: &Term,
) -> R<bool>
    ensures found { IfOk result (λ b. b ≡ calm.is_calm_pair own other left.now right.now) }
    ensures refused { IfErr result (λ fault. fault ≡ Fault.Memory) }
{
    if !is_calm_side(alloc, conversion(own, other), left)? {
        return Ok(false);
    }
    is_calm_side(alloc, conversion(other, own), right)
}

/// Whether the two sides of a comparison are compared without a refusal. (`Memory`.)
fn are_calm_sides(alloc: Global, left: &Term, right: &Term) -> R<bool>
    ensures found { IfOk result (λ b. b ≡ calm.are_calm_sides left.now right.now) }
    ensures refused { IfErr result (λ fault. fault ≡ Fault.Memory) }
{
    is_calm_pair(alloc, affinity(left), affinity(right), left, right)
}

/// Whether an operand is compared with each item of a list without a refusal. (`Memory`.)
fn is_calm_among(alloc: Global, operand: &Term, list: &[Term]) -> R<bool>
    ensures found { IfOk result (λ b. b ≡ calm.is_calm_among operand.now (terms list.now)) }
    ensures refused { IfErr result (λ fault. fault ≡ Fault.Memory) }
{
    let mut left = list;
    'items: while let [item, rest @ ..] = left {
        if !is_calm_pair(alloc, affinity(operand), None, operand, item)? {
            return Ok(false);
        }
        left = rest;
    }
    Ok(is_side(operand))
}

/// Whether two conditions can't be refused. (`Memory`.)
#[cycle(calm)]
fn both_are_calm(alloc: Global, left: &Term, right: &Term) -> R<bool>
    ensures found { IfOk result (λ b. b ≡ (calm.is_calm left.now && calm.is_calm right.now)) }
    ensures refused { IfErr result (λ fault. fault ≡ Fault.Memory) }
{
    if !is_calm(alloc, left)? {
        return Ok(false);
    }
    is_calm(alloc, right)
}

/// Whether BETWEEN can't be refused. (`Memory`.)
fn is_calm_between(alloc: Global, operand: &Term, low: &Term, high: &Term) -> R<bool>
    ensures found { IfOk result (λ b. b ≡ (calm.are_calm_sides operand.now low.now &&
        calm.are_calm_sides operand.now high.now)) }
    ensures refused { IfErr result (λ fault. fault ≡ Fault.Memory) }
{
    if !are_calm_sides(alloc, operand, low)? {
        return Ok(false);
    }
    are_calm_sides(alloc, operand, high)
}

/// Whether a condition has comparisons over columns and literals, joined by AND, OR and NOT, in which nothing can be refused. (`Memory`.)
#[cycle(calm)]
pub fn is_calm(alloc: Global, condition: &Term) -> R<bool>
    ensures found { IfOk result (λ b. b ≡ calm.is_calm condition.now) }
    ensures refused { IfErr result (λ fault. fault ≡ Fault.Memory) }
{
    match &condition.node {
        Node::Two(TwoSided::And | TwoSided::Or, left, right) => both_are_calm(alloc, left, right),
        Node::Two(TwoSided::Compare(_) | TwoSided::Is | TwoSided::IsNot, left, right) => {
            are_calm_sides(alloc, left, right)
        }
        Node::One(OneSided::Not, operand) => is_calm(alloc, operand),
        Node::In(_, operand, list) => is_calm_among(alloc, operand, list),
        Node::Between(_, operand, low, high) => is_calm_between(alloc, operand, low, high),
        _ => Ok(false),
    }
}
