//! Expressions that are integers: their value without memory and without a refusal.

ghost use Rattle.std.specs.Prelude.{◌≡◌, Ok, Some, IfSome};
ghost use Rattle.sqlval.specs.Conversion.{word as word_of};
ghost use Rattle.sqlval.specs.Fields.{value_of};
ghost use Rattle.sqlval.specs.Refusals.{◌then◌};
ghost use Rattle.sqlval.specs.declared.value.Value.TheVariants as the;
ghost use Rattle.query_terms.specs.TextSides.{is_text};
ghost use Rattle.query_terms.specs.Outcome.{Answers, AnswersBy};
ghost use Rattle.query_terms.specs.Rows.{datum, seen};
ghost use Rattle.query_terms.specs.Terms as tree;
ghost use Rattle.query_terms.specs.Values as meant;
ghost use Rattle.query_terms.specs.declared.tree.TwoSided.TheVariants as operator_of;

use crate::collating::affinity;
use crate::columns::column_in;
use crate::comparing::is_met;
use crate::datum::Datum;
use crate::evaluating;
use crate::numbers::{difference, product, quotient, remainder};
use crate::rows::Env;
use crate::tree::{Arithmetic, Comparison, Node, Term, TwoSided};
use sqlval::{Affinity, Field, R};
use std::alloc::Global;

/// The integer that a value is.
pub(crate) fn integer_in(value: Field<'_>) -> Option<i64>
    ensures { IfSome result (λ number. value_of value.entry ≡ the.Int number) }
{
    match value {
        Field::Int(number) => Some(number),
        _ => None,
    }
}

/// A number within 64 bits.
pub(crate) fn fitting(number: i128) -> Option<i64>
    ensures { IfSome result (λ word. word_of number ≡ Ok (the.Int word)) }
{
    i64::try_from(number).ok()
}

/// What an operator makes of two integers, without a bound; None of a division by 0.
#[tactic(auto, using(crate::proofs::Division::divided, crate::proofs::Division::remains))]
fn exact(operator: Arithmetic, x: i64, y: i64) -> Option<i128>
    ensures { IfSome result (λ number. word_of number ≡ meant.arithmetic operator x y) }
{
    match operator {
        Arithmetic::Add => Some(i128::from(x) + i128::from(y)),
        Arithmetic::Subtract => Some(difference(x, y)),
        Arithmetic::Multiply => Some(product(x, y)),
        Arithmetic::Divide | Arithmetic::Remainder if y == 0 => None,
        Arithmetic::Divide => Some(quotient(x, y)),
        Arithmetic::Remainder => Some(remainder(x, y)),
    }
}

/// Whether a side is compared as a text.
pub(crate) fn is_text(affinity: Option<Affinity>) -> bool
    ensures { result ≡ is_text affinity }
{
    matches!(affinity, Some(Affinity::Text))
}

/// 1 or 0.
fn number_of(is_true: bool) -> i64
    ensures { the.Int result ≡ meant.of_bool is_true }
{
    if is_true { 1 } else { 0 }
}

/// What an operator makes of two expressions that are integers.
#[cycle(integer)]
#[tactic(auto, using(crate::proofs::IntegerValues::both_calculated))]
fn calculated(operator: Arithmetic, left: &Term, right: &Term, env: &Env<'_>) -> Option<i64>
    ensures { IfSome result (λ number. meant.value
        (tree.Two (operator_of.Calculate operator) left.now right.now) (seen env.now) ≡ Ok (the.Int number)) }
{
    let x = integer(left, env)?;
    let y = integer(right, env)?;
    fitting(exact(operator, x, y)?)
}

/// How two expressions that are integers stand to each other, 1 or 0; None beside a text's affinity.
#[cycle(integer)]
#[tactic(auto, using(crate::proofs::IntegerValues::both_compared))]
fn compared(operator: Comparison, left: &Term, right: &Term, env: &Env<'_>) -> Option<i64>
    ensures { IfSome result (λ number. meant.value
        (tree.Two (operator_of.Compare operator) left.now right.now) (seen env.now) ≡ Ok (the.Int number)) }
{
    if is_text(affinity(left)) || is_text(affinity(right)) {
        return None;
    }
    let x = integer(left, env)?;
    let y = integer(right, env)?;
    Some(number_of(is_met(operator, x.cmp(&y))))
}

/// The integer that an expression is: of a column, a literal, or of operators and comparisons over such. None where it is none, or may be
/// refused.
#[cycle(integer)]
pub(crate) fn integer(term: &Term, env: &Env<'_>) -> Option<i64>
    ensures { IfSome result (λ number. meant.value term.now (seen env.now) ≡ Ok (the.Int number)) }
{
    match &term.node {
        Node::Digits(number) => fitting(i128::from(*number)),
        Node::Const(value) => integer_in(value.as_field()),
        Node::Cell(source, place, _, _) => integer_in(env.cell(*source, *place)),
        Node::Two(TwoSided::Calculate(operator), left, right) => calculated(
            *operator, left, right, env,
        ),
        Node::Two(TwoSided::Compare(operator), left, right) => compared(
            *operator, left, right, env,
        ),
        _ => None,
    }
}

/// Whether an expression that is an integer is true.
#[tactic(auto, using(crate::proofs::IntegerValues::is_true))]
pub fn integer_holds(term: &Term, env: &Env<'_>) -> Option<bool>
    ensures { IfSome result (λ test. (meant.value term.now (seen env.now) then meant.truth) ≡ Ok (Some test)) }
{
    Some(integer(term, env)? != 0)
}

/// The value of an expression, or its first refusal.
pub fn evaluate<'a>(alloc: Global, term: &'a Term, env: Env<'a>) -> R<Datum<'a>>
    ensures { AnswersBy datum (meant.value term.now (seen env.entry)) result }
{
    if let Some(field) = column_in(term, env) {
        return Ok(Datum::Lent(field));
    }
    if let Some(number) = integer(term, &env) {
        return Ok(Datum::Lent(Field::Int(number)));
    }
    evaluating::evaluate(alloc, term, &env)
}

/// Whether an expression is true, or neither true nor false; or its first refusal.
pub fn holds(alloc: Global, term: &Term, env: Env<'_>) -> R<Option<bool>>
    ensures { Answers (meant.value term.now (seen env.entry) then meant.truth) result }
{
    evaluating::holds(alloc, term, &env)
}
