//! Statements copied, with the values of parameters.

ghost use Rattle.std.specs.Prelude.{◌≡◌, None, Ok, IfErr, IfOk};
ghost use Rattle.sqlval.specs.declared.fault.Fault.TheVariants.{Memory};
ghost use Rattle.sql_bound.specs.Bound.{bound_statement};

use crate::changes::bound_change;
use crate::queries::bound_query;
use sql_syntax::Statement;
use sqlval::{R, Value};
use std::alloc::Global;

/// A copy of a query or a change of rows in which each parameter `?N` is the literal of the value at its place; None for other statements.
/// (`Memory` alone.)
pub fn bound(alloc: Global, statement: &Statement, values: &[Value]) -> R<Option<Statement>>
    ensures is { IfOk result (λ copy. copy ≡ bound_statement values.now statement.now) }
    ensures memory { IfErr result (λ fault. fault ≡ Memory) }
    // Other statements aren't copied, and so never refused.
    ensures others { bound_statement values.now statement.now ≡ None → result ≡ Ok None }
{
    match statement {
        Statement::Select(query) => Ok(Some(Statement::Select(bound_query(alloc, values, query)?))),
        Statement::Change(change) => {
            Ok(Some(Statement::Change(bound_change(alloc, values, change)?)))
        }
        _ => Ok(None),
    }
}
