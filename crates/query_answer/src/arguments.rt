//! The arguments of aggregates at one row, which are refused there or not.

ghost use Rattle.std.specs.Prelude.{◌≡◌, ◌++◌, IsTrue, Ok, map};
ghost use Rattle.sqlval.specs.Fields.{value_of};
ghost use Rattle.query_terms.specs.Outcome.{AnswersBy};
ghost use Rattle.query_terms.specs.Rows.{seen};
ghost use Rattle.query_terms.specs.Terms as tree;
ghost use Rattle.query_terms.specs.Terms.{terms};
ghost use Rattle.query_terms.specs.Values as meant;
ghost use Rattle.query_terms.specs.Values.{Environment};
ghost use Rattle.query_answer.specs.Checks.{among_checked, both_checked, checked, checked_in, lists_checked, passed};

use query_terms::{Aggregate, Env, Node, Term, evaluate};
use sqlval::{Fault, Field, R};
use std::alloc::Global;

/// Whether an aggregate takes a value: `sum` refuses texts and blobs.
fn check_value(aggregate: Aggregate, value: Field<'_>) -> R<()>
    ensures { AnswersBy (λ u. tt) (passed (meant.counted aggregate (value_of value.entry))) result }
{
    match (aggregate, value) {
        (Aggregate::Sum, Field::Text(_) | Field::Blob(_)) => Err(Fault::TypeRefused),
        _ => Ok(()),
    }
}

/// Whether an argument is a column of which an aggregate takes each value, so that it needn't be read.
fn takes_each(aggregate: Aggregate, argument: &Term) -> bool
    ensures { IsTrue result → (env : Environment) → checked (tree.Total aggregate argument.now) env ≡ Ok tt }
{
    match aggregate {
        Aggregate::Count | Aggregate::Min | Aggregate::Max => {
            matches!(&argument.node, Node::Cell(_, _, _, _))
        }
        _ => false,
    }
}

/// Whether an aggregate's argument is refused.
fn check_argument(alloc: Global, aggregate: Aggregate, argument: &Term, env: Env<'_>) -> R<()>
    ensures { AnswersBy (λ u. tt) (checked (tree.Total aggregate argument.now) (seen env.entry)) result }
{
    match aggregate {
        Aggregate::CountAll => Ok(()),
        _ => {
            if takes_each(aggregate, argument) {
                return Ok(());
            }
            let value = evaluate(alloc, argument, env)?;
            check_value(aggregate, value.as_field())
        }
    }
}

/// The arguments of the aggregates in an expression, from left to right.
#[cycle(check)]
fn check(alloc: Global, term: &Term, env: Env<'_>) -> R<()>
    ensures { AnswersBy (λ u. tt) (checked term.now (seen env.entry)) result }
{
    match &term.node {
        Node::Total(aggregate, argument) => check_argument(alloc, *aggregate, argument, env),
        Node::Apply(_, list) => check_list(alloc, list, env),
        Node::One(_, operand) | Node::Collate(_, operand) => check(alloc, operand, env),
        Node::Two(_, left, right) => check_two(alloc, left, right, env),
        Node::In(_, operand, list) => check_among(alloc, operand, list, env),
        Node::Between(_, operand, low, high) => {
            check(alloc, operand, env)?;
            check_two(alloc, low, high, env)
        }
        _ => Ok(()),
    }
}

/// Those in two expressions.
#[cycle(check)]
fn check_two(alloc: Global, left: &Term, right: &Term, env: Env<'_>) -> R<()>
    ensures { AnswersBy (λ u. tt) (both_checked left.now right.now (seen env.entry)) result }
{
    check(alloc, left, env)?;
    check(alloc, right, env)
}

/// Those in an operand and in a list.
#[cycle(check)]
fn check_among(alloc: Global, operand: &Term, list: &[Term], env: Env<'_>) -> R<()>
    ensures { AnswersBy (λ u. tt) (among_checked operand.now (terms list.now) (seen env.entry)) result }
{
    check(alloc, operand, env)?;
    check_list(alloc, list, env)
}

/// Those in a list.
#[cycle(check)]
#[tactic(auto, using(crate::proofs::Items::item_falls))]
fn check_list(alloc: Global, list: &[Term], env: Env<'_>) -> R<()>
    ensures { AnswersBy (λ u. tt) (checked_in (terms list.now) (seen env.entry)) result }
{
    'terms: for term in list {
        check(alloc, term, env)?;
    }
    Ok(())
}

/// Those in the expressions of ORDER BY.
fn check_order(alloc: Global, order: &[(Term, bool)], env: Env<'_>) -> R<()>
    ensures { AnswersBy (λ u. tt) (checked_in (terms (map (λ o. o.0) order.now)) (seen env.entry)) result }
{
    'terms: for (term, _) in order {
        check(alloc, term, env)?;
    }
    Ok(())
}

/// Those in a query's results, and then those in its ORDER BY.
pub fn check_arguments(
    alloc: Global,
    results: &[Term],
    order: &[(Term, bool)],
    env: Env<'_>,
) -> R<()>
    ensures { AnswersBy (λ u. tt) (lists_checked results.now order.now (seen env.entry)) result }
{
    check_list(alloc, results, env)?;
    check_order(alloc, order, env)
}
