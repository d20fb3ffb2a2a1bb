//! Parameters, and the literals of their values.

ghost use Rattle.std.specs.Prelude.{◌≡◌, option_map};
ghost use Rattle.sqlval.specs.Faults.{IsOrMemory};
ghost use Rattle.sql_syntax.specs.View.{tree_of};
ghost use Rattle.sql_bound.specs.Bound as meant;
ghost use Rattle.sql_bound.specs.Bound.{decimal_of, literal_of, parameter_of, spelled_from, value_of_parameter};

use sql_syntax::{Expr, Node};
use sqlval::{Name, R, Value};
use std::alloc::Global;

/// The greatest number of a parameter.
const MAX_PARAMETERS: usize = 32_766;

/// The number that digits spell.
fn number_of(digits: &[u8]) -> Option<usize>
    ensures { result ≡ spelled_from 0 digits.now }
{
    let mut number = 0;
    'digits: for digit in digits {
        if !digit.is_ascii_digit() {
            return None;
        }
        number = number * 10 + usize::from(*digit - b'0');
        if MAX_PARAMETERS < number {
            return None;
        }
    }
    Some(number)
}

/// The number that is written in decimal, without 0 at its front.
fn decimal_number(digits: &[u8]) -> Option<usize>
    ensures { result ≡ decimal_of digits.now }
{
    let (first, _) = digits.split_first()?;
    if *first == b'0' {
        return None;
    }
    number_of(digits)
}

/// The number N of a name `?N`.
pub fn parameter_number(name: &[u8]) -> Option<usize>
    ensures { result ≡ parameter_of name.now }
{
    let (mark, digits) = name.split_first()?;
    if *mark != b'?' {
        return None;
    }
    decimal_number(digits)
}

/// The value of the parameter of this name.
pub fn parameter_value<'a>(values: &'a [Value], name: &Name) -> Option<&'a Value>
    ensures { option_map (λ value. value.now) result ≡ value_of_parameter values.now name.now }
{
    let number = parameter_number(name.as_str().as_bytes())?;
    values.get(number.saturating_sub(1))
}

/// An expression of this form.
pub fn expression_of(node: Node) -> Expr
    ensures { result ≡ tree_of node }
{
    Expr { node }
}

/// The literal of a number.
fn integer_literal(alloc: Global, number: i64) -> R<Expr>
    ensures { IsOrMemory (λ literal. literal ≡ meant.integer_literal number) result }
{
    let digits = expression_of(Node::Integer(number.unsigned_abs()));
    if number < 0 {
        Ok(expression_of(Node::Negated(Box::new(alloc, digits)?)))
    } else {
        Ok(digits)
    }
}

/// The literal of a value.
pub fn literal(alloc: Global, value: &Value) -> R<Expr>
    ensures { IsOrMemory (λ literal. literal ≡ literal_of value.now) result }
{
    match value {
        Value::Null => Ok(expression_of(Node::Null)),
        Value::Int(number) => integer_literal(alloc, *number),
        Value::Text(text) => Ok(expression_of(Node::Text(text.copy(alloc)?))),
        Value::Blob(bytes) => Ok(expression_of(Node::Blob(bytes.copy(alloc)?))),
    }
}
