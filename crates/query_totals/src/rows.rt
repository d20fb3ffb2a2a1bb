//! Aggregates over rows that come one by one.

ghost use Rattle.std.specs.Prelude.{◌≡◌, ◌++◌, ◌∷◌, [], IfErr, List, Ok, map, true};
ghost use Rattle.std.specs.List.{AllByRecursion, list_all};
ghost use Rattle.sqlval.specs.Faults.{IsNotDiskFault, IsOrMemory};
ghost use Rattle.sqlval.specs.Refusals.{◌then◌, all_answers};
ghost use Rattle.query_terms.specs.Outcome.{AnswersBy};
ghost use Rattle.query_terms.specs.Rows.{seen};
ghost use Rattle.query_terms.specs.Terms.{Term as Meant};
ghost use Rattle.query_terms.specs.Values.{Environment, Row, value};
ghost use Rattle.query_totals.specs.Tallies.{given_by, tally_with};
ghost use Rattle.query_totals.specs.Totals as meant;
ghost use Rattle.query_totals.specs.Totals.{AreTaken, alone, argument_in, arguments_at, tallies_over, tallies_with, tally_over};

use crate::tally::Tally;
use query_terms::{Aggregate, Env, Node, Term, collation, column_in, evaluate};
use sqlval::{Collation, Field, Many, R, Value};
use std::alloc::Global;

/// Whether an expression is an aggregate, with nothing around it.
fn is_total(term: &Term) -> bool
    ensures { result ≡ meant.is_total term.now }
{
    matches!(&term.node, Node::Total(_, _))
}

/// Whether each of these expressions is an aggregate, with nothing around it.
pub fn are_totals(terms: &[Term]) -> bool
    ensures { result ≡ list_all meant.is_total terms.now }
{
    terms.iter().all(is_total)
}

/// What is kept of an aggregate before the first row.
fn no_row(term: &Term) -> Tally
    ensures { result ≡ tally_over [] term.now }
{
    match &term.node {
        Node::Total(aggregate, argument) => Tally::new(*aggregate, collation(argument)),
        _ => Tally::new(Aggregate::CountAll, Collation::Binary),
    }
}

/// What is kept of each aggregate before the first row. (`Memory`.)
pub fn no_rows(alloc: Global, terms: &[Term]) -> R<Vec<Tally>>
    ensures { IsOrMemory (λ tallies. tallies.items ≡ tallies_over [] terms.now) result }
{
    let mut tallies = Vec::with_capacity(alloc, terms.len())?;
    'terms: for term in terms {
        tallies.push(no_row(term))?;
    }
    Ok(tallies)
}

/// An expression's value is added to what is kept of an aggregate, or refused.
fn add_value(alloc: Global, argument: &Term, env: Env<'_>, tally: &mut Tally) -> R<()>
    ensures { AnswersBy (λ u. tally.new) (value argument.now (seen env.entry) then tally_with tally.old) result }
{
    if let Some(field) = column_in(argument, env) {
        return tally.take(alloc, field);
    }
    let value = evaluate(alloc, argument, env)?;
    tally.take(alloc, value.as_field())
}

/// An aggregate's argument at one more row is added to what is kept of it, or refused.
fn add_to(alloc: Global, term: &Term, env: Env<'_>, tally: &mut Tally) -> R<()>
    ensures { AnswersBy (λ u. tally.new) (argument_in term.now (seen env.entry) then tally_with tally.old) result }
{
    match &term.node {
        Node::Total(Aggregate::CountAll, _) => tally.take(alloc, Field::Null),
        Node::Total(_, argument) => add_value(alloc, argument, env, tally),
        _ => tally.take(alloc, Field::Null),
    }
}

/// The arguments of each aggregate at one more row are added to what is kept of it; or the first of them that is refused.
pub fn add_row(alloc: Global, terms: &[Term], env: Env<'_>, tallies: &mut Vec<Tally>) -> R<()>
    ensures { (group : List (List Row)) (now : List Row) → seen env.entry ≡ alone now
        → tallies.old.items ≡ tallies_over group terms.now
        → AnswersBy (λ u. tallies.new.items) (arguments_at terms.now now then λ vs. Ok (tallies_over (group ++ now ∷ []) terms.now)) result }
{
    add_to_each(alloc, terms, env, tallies)
}

/// An argument is added to what is kept of each aggregate; or the first of them that is refused.
fn add_to_each(alloc: Global, terms: &[Term], env: Env<'_>, tallies: &mut Vec<Tally>) -> R<()>
    ensures { AnswersBy (λ u. tallies.new.items) (tallies_with terms.now (seen env.entry) tallies.old.items) result }
{
    let mut left = terms;
    'tallies: for tally in tallies.iter_mut() {
        let Some((term, rest)) = left.split_first() else {
            return Ok(());
        };
        add_to(alloc, term, env, tally)?;
        left = rest;
    }
    Ok(())
}

/// What the aggregates give over all rows of which this is kept; or the first refusal.
pub fn totals(alloc: Global, tallies: Vec<Tally>) -> R<Many<Value>>
    ensures given { (terms : List Meant) (env : Environment) → list_all meant.is_total terms ≡ true
        → AllByRecursion (AreTaken terms) env.group → tallies.items ≡ tallies_over env.group terms
        → AnswersBy (λ values. values) (all_answers (map (λ t. value t env) terms)) result }
    ensures not_disk { IfErr result IsNotDiskFault }
{
    Ok(Many::from_vec(given_of_all(alloc, tallies)?))
}

/// What each aggregate gives; or the first refusal.
fn given_of_all(alloc: Global, tallies: Vec<Tally>) -> R<Vec<Value>>
    ensures told { AnswersBy (λ values. values.items) (all_answers (map given_by tallies.items)) result }
    ensures not_disk { IfErr result IsNotDiskFault }
{
    let mut values = Vec::with_capacity(alloc, tallies.len())?;
    'tallies: for tally in tallies {
        values.push(tally.told()?)?;
    }
    Ok(values)
}
