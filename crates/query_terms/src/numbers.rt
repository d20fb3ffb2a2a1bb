//! Operators on numbers.

ghost use Rattle.std.specs.Prelude.{◌≡◌, ◌⊎◌, ◌-ℤ◌, ◌*ℤ◌, if◌then◌else◌, int_div, int_rem, neg_ℤ, pos};
ghost use Rattle.sqlval.specs.Conversion.{word as word_of};
ghost use Rattle.sqlval.specs.Fields.{value_of};
ghost use Rattle.query_terms.specs.Outcome.{Answers};
ghost use Rattle.query_terms.specs.Values as meant;
ghost use Rattle.query_terms.specs.Values.{arithmetic, on_number, on_numbers};

use crate::tree::Arithmetic;
use sqlval::{Fault, Field, R, Value};

/// The integer of a number within 64 bits.
pub fn word(number: i128) -> R<Value>
    ensures { Answers (word_of number) result }
{
    match i64::try_from(number) {
        Ok(number) => Ok(Value::Int(number)),
        Err(_) => Err(Fault::RealRefused),
    }
}

/// The exact difference.
pub fn difference(x: i64, y: i64) -> i128
    ensures { result ≡ x -ℤ y }
{
    i128::from(x) - i128::from(y)
}

/// The exact product.
pub fn product(x: i64, y: i64) -> i128
    ensures { result ≡ x *ℤ y }
{
    i128::from(x) * i128::from(y)
}

/// The quotient, rounded toward zero.
pub fn quotient(x: i64, y: i64) -> i128
    requires { y ≡ pos 0 → ⊥ }
    ensures { result ≡ int_div x y }
{
    i128::from(x) / i128::from(y)
}

/// What the quotient leaves, with the sign of `x`.
pub fn remainder(x: i64, y: i64) -> i128
    requires { y ≡ pos 0 → ⊥ }
    ensures { result ≡ int_rem x y }
{
    i128::from(x) % i128::from(y)
}

/// What a division gives, NULL where it is by 0.
#[tactic(auto, using(crate::proofs::Division::divided, crate::proofs::Division::remains))]
fn divided(is_remainder: bool, x: i64, y: i64) -> R<Value>
    ensures { Answers (arithmetic (if is_remainder then Arithmetic.Remainder else Arithmetic.Divide)
        x y) result }
{
    if y == 0 {
        return Ok(Value::Null);
    }
    if is_remainder {
        return word(remainder(x, y));
    }
    word(quotient(x, y))
}

/// What an operator makes of two integers.
fn calculated(operator: Arithmetic, x: i64, y: i64) -> R<Value>
    ensures { Answers (arithmetic operator x y) result }
{
    match operator {
        Arithmetic::Add => word(i128::from(x) + i128::from(y)),
        Arithmetic::Subtract => word(difference(x, y)),
        Arithmetic::Multiply => word(product(x, y)),
        Arithmetic::Divide => divided(false, x, y),
        Arithmetic::Remainder => divided(true, x, y),
    }
}

/// What an operator makes of two values.
pub fn calculate(operator: Arithmetic, left: Field<'_>, right: Field<'_>) -> R<Value>
    ensures { Answers (on_numbers (arithmetic operator) (value_of left.entry) (value_of right.entry)) result }
{
    match (left, right) {
        (Field::Int(x), Field::Int(y)) => calculated(operator, x, y),
        (Field::Null | Field::Int(_), Field::Null) | (Field::Null, Field::Int(_)) => Ok(
            Value::Null,
        ),
        _ => Err(Fault::TypeRefused),
    }
}

/// A minus before a value.
pub fn negative(value: Field<'_>) -> R<Value>
    ensures { Answers (on_number (λ z. word_of (neg_ℤ z)) (value_of value.entry)) result }
{
    match value {
        Field::Null => Ok(Value::Null),
        Field::Int(n) => word(-i128::from(n)),
        _ => Err(Fault::TypeRefused),
    }
}

/// `abs`.
pub fn absolute(value: Field<'_>) -> R<Value>
    ensures { Answers (on_number meant.absolute (value_of value.entry)) result }
{
    match value {
        Field::Null => Ok(Value::Null),
        Field::Int(number) => magnitude(number),
        _ => Err(Fault::TypeRefused),
    }
}

/// The number without its sign.
fn magnitude(number: i64) -> R<Value>
    ensures { Answers (meant.absolute number) result }
{
    if number < 0 {
        return word(-i128::from(number));
    }
    word(i128::from(number))
}
