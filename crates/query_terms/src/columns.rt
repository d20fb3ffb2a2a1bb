//! A column by itself, read where it lies; and the value of any expression as one of its own.

ghost use Rattle.std.specs.Prelude.{◌≡◌, Ok, IfSome};
ghost use Rattle.sqlval.specs.Fields.{value_of};
ghost use Rattle.query_terms.specs.Outcome.{Answers};
ghost use Rattle.query_terms.specs.Rows.{seen};
ghost use Rattle.query_terms.specs.Values as meant;

use crate::evaluating;
use crate::integers::integer;
use crate::rows::Env;
use crate::tree::{Node, Term};
use sqlval::{Field, R, Value};
use std::alloc::Global;

/// The value of a column by itself, without a copy. None of another expression.
pub fn column_in<'a>(term: &Term, env: Env<'a>) -> Option<Field<'a>>
    ensures { IfSome result (λ field. meant.value term.now (seen env.entry) ≡ Ok (value_of field)) }
{
    match &term.node {
        Node::Cell(source, place, _, _) => Some(env.cell(*source, *place)),
        _ => None,
    }
}

/// The value of an expression as one of its own, or its first refusal.
pub fn owned_value(alloc: Global, term: &Term, env: Env<'_>) -> R<Value>
    ensures { Answers (meant.value term.now (seen env.entry)) result }
{
    if let Some(field) = column_in(term, env) {
        return Ok(field.to_value(alloc)?);
    }
    if let Some(number) = integer(term, &env) {
        return Ok(Value::Int(number));
    }
    Ok(evaluating::evaluate(alloc, term, &env)?.into_value(alloc)?)
}
