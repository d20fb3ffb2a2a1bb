//! Truth: true, false or NULL.

ghost use Rattle.std.specs.Prelude.{◌≡◌, ◌⊎◌, Bool, Ok};
ghost use Rattle.sqlval.specs.Fields.{value_of};
ghost use Rattle.query_terms.specs.Outcome.{Answers};
ghost use Rattle.query_terms.specs.Values as meant;

use crate::comparing::of_bool;
use sqlval::{Fault, Field, R, Value};

/// Whether a value is true: an integer other than 0; NULL is neither.
pub fn truth(value: Field<'_>) -> R<Option<bool>>
    ensures { Answers (meant.truth (value_of value.entry)) result }
{
    match value {
        Field::Null => Ok(None),
        Field::Int(number) => Ok(Some(number != 0)),
        _ => Err(Fault::TypeRefused),
    }
}

/// 1, 0 or NULL.
pub fn of_truth(truth: Option<bool>) -> Value
    ensures { result ≡ meant.of_truth truth }
{
    match truth {
        Some(is_true) => of_bool(is_true),
        None => Value::Null,
    }
}

/// Whether both hold, where the first doesn't decide.
pub fn both_hold(first: Option<bool>, second: Option<bool>) -> Option<bool>
    ensures { result ≡ meant.both_hold first second }
{
    match (first, second) {
        (Some(true), _) => second,
        (Some(false), _) | (None, Some(false)) => Some(false),
        _ => None,
    }
}

/// Whether one holds, where the first doesn't decide.
pub fn one_holds(first: Option<bool>, second: Option<bool>) -> Option<bool>
    ensures { result ≡ meant.one_holds first second }
{
    match (first, second) {
        (Some(false), _) => second,
        (Some(true), _) | (None, Some(true)) => Some(true),
        _ => None,
    }
}

/// NOT.
pub fn negated(value: Field<'_>) -> R<Value>
    ensures { Answers (meant.negated (value_of value.entry)) result }
{
    match truth(value)? {
        Some(is_true) => Ok(of_bool(!is_true)),
        None => Ok(Value::Null),
    }
}

/// Under NOT, where it is written.
#[tactic(auto, using(crate::proofs::Truths::other))]
pub fn turned(is_negated: bool, truth: Option<bool>) -> Option<bool>
    ensures { meant.turned is_negated (meant.of_truth truth) ≡ Ok (meant.of_truth result) }
{
    match truth {
        Some(is_true) if is_negated => Some(!is_true),
        _ => truth,
    }
}

/// Whether it is NULL.
pub fn is_null(value: Field<'_>) -> bool
    ensures { result ≡ meant.is_null (value_of value.entry) }
{
    matches!(value, Field::Null)
}
