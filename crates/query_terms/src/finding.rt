//! Lists of written numbers: one is looked for in them without memory and without a refusal.

ghost use Rattle.std.specs.Prelude.{◌≡◌, Ok, Some, IfSome};
ghost use Rattle.std.specs.Ordering.{int_cmp, is_eq};
ghost use Rattle.sqlval.specs.Fields.{value_of};
ghost use Rattle.sqlval.specs.declared.value.Value.TheVariants as the;
ghost use Rattle.query_terms.specs.Terms.{terms};
ghost use Rattle.query_terms.specs.Values as meant;
ghost use Rattle.query_terms.specs.Values.{Environment};

use crate::collating::affinity;
use crate::integers::{fitting, integer_in, is_text};
use crate::tree::{Node, OneSided, Term};
use sqlval::Field;

/// The number that an expression is as it is written, with a minus or without; None of any other expression.
fn written_number(term: &Term) -> Option<i64>
    ensures { IfSome result (λ number. (env : Environment) → meant.value term.now env ≡ Ok (the.Int number)) }
{
    match &term.node {
        Node::Digits(number) => fitting(i128::from(*number)),
        Node::Const(value) => integer_in(value.as_field()),
        Node::One(OneSided::Negated, operand) => match &operand.node {
            Node::Digits(number) => fitting(-i128::from(*number)),
            _ => None,
        },
        _ => None,
    }
}

/// Whether two numbers are one.
fn are_equal(a: i64, b: i64) -> bool
    ensures { result ≡ is_eq (int_cmp a b) }
{
    a.cmp(&b).is_eq()
}

/// Whether a number is in a list of written numbers, where the operand isn't compared as a text. None of any other value or list.
pub fn number_among(operand: &Term, value: Field<'_>, list: &[Term]) -> Option<bool>
    ensures { IfSome result (λ found. (env : Environment)
        → meant.value_among operand.now (value_of value.entry) (terms list.now) env ≡ Ok (meant.of_truth (Some found))) }
{
    let number = integer_in(value)?;
    if is_text(affinity(operand)) {
        return None;
    }
    'terms: for term in list {
        let other = written_number(term)?;
        if are_equal(number, other) {
            return Some(true);
        }
    }
    Some(false)
}
