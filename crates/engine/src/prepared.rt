//! Statements that are read once and run often, with values in their places; and queries, of which more is asked than their rows.

ghost use Rattle.std.specs.Prelude.{◌≡◌, ◌⊎◌, IfErr, IfOk};
ghost use Rattle.sql_bound.specs.Greatest.{greatest_parameter};
ghost use Rattle.sql_grammar.specs.Texts.{IsStatementText};
ghost use Rattle.sql_parser.specs.Refusals.{IsTextRefusal};
ghost use Rattle.engine.specs.Looking.{IsNoQuery, IsNoSelect};
ghost use Rattle.engine.specs.Preparing.{IsPrepared, TakesValues, parameters_in, statement_in};
ghost use Rattle.sql_syntax.specs.declared.statement.Statement.{Statement as Parsed};

use sql_bound::parameter_count;
use sql_parser::{parse, release};
use sql_syntax::{Query, Statement};
use sqlval::{Fault, Feature, R};
use std::alloc::Global;

/// A query or a change of rows that was read, with a place for a value at each name `?1`, `?2` and so on.
#[derive(Drop)]
pub struct Prepared {
    pub(crate) statement: Statement,
    /// How many values it takes.
    pub(crate) count: usize,
}

impl Prepared {
    /// How many values the statement takes: the greatest number of a place.
    pub fn count(&self) -> usize
        ensures { result ≡ parameters_in self.now }
    {
        self.count
    }
}

/// A statement that was read, if it is one that values can be put into. (`Unsupported(StatementForm)` for others.)
fn kept(statement: Statement) -> R<Prepared>
    ensures is { IfOk result (λ prepared. (statement_in prepared ≡ statement)
        × (parameters_in prepared ≡ greatest_parameter statement)) }
    ensures refused { IfErr result (λ fault. (fault ≡ Fault.Unsupported Feature.StatementForm)
        × (TakesValues statement → ⊥)) }
{
    match statement {
        Statement::Select(_) | Statement::Change(_) => {
            let count = parameter_count(&statement);
            Ok(Prepared { statement, count })
        }
        _ => {
            release(statement);
            Err(Fault::Unsupported(Feature::StatementForm))
        }
    }
}

/// Reads a query or a change of rows, to be run with values. (What `parse` refuses of the text; `Unsupported(StatementForm)` for other
/// statements.)
pub fn prepare(alloc: Global, text: &str) -> R<Prepared>
    ensures is { IfOk result (IsPrepared text.now) }
    ensures refused { IfErr result (λ fault. IsTextRefusal text.now fault
        ⊎ ((fault ≡ Fault.Unsupported Feature.StatementForm)
        × ((statement : Parsed) → IsStatementText text.now statement → TakesValues statement → ⊥))) }
{
    let statement = parse(alloc, text)?;
    kept(statement)
}

/// The query that a statement is. (`Unsupported(StatementForm)` for others.)
fn query_of(statement: Statement) -> R<Query>
    ensures is { IfOk result (λ query. statement ≡ Parsed.Select query) }
    ensures refused { IfErr result (λ fault. (fault ≡ Fault.Unsupported Feature.StatementForm)
        × IsNoSelect statement) }
{
    match statement {
        Statement::Select(query) => Ok(query),
        _ => {
            release(statement);
            Err(Fault::Unsupported(Feature::StatementForm))
        }
    }
}

/// Reads a query. (What `parse` refuses of the text; `Unsupported(StatementForm)` for other statements.)
pub fn read_query(alloc: Global, text: &str) -> R<Query>
    ensures is { IfOk result (λ query. IsStatementText text.now (Parsed.Select query)) }
    ensures refused { IfErr result (IsNoQuery text.now) }
{
    let statement = parse(alloc, text)?;
    query_of(statement)
}
