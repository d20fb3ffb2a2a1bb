//! What a query gives of a group.

ghost use Rattle.std.specs.Prelude.{◌≡◌, IfErr, List, map, true};
ghost use Rattle.std.specs.List.{AllByRecursion, list_all};
ghost use Rattle.sqlval.specs.Faults.{IsNotDiskFault};
ghost use Rattle.sqlval.specs.declared.value.Value.{Value as Meant};
ghost use Rattle.query_terms.specs.Outcome.{Answers, AnswersBy};
ghost use Rattle.query_terms.specs.Values.{Row};
ghost use Rattle.query_names.specs.Readings.{group_env, values};
ghost use Rattle.query_totals.specs.Totals.{AreTaken, tallies_over, tally_for};
ghost use Rattle.query_groups.specs.Giving.{given_each, given_of};
ghost use Rattle.query_groups.specs.Groups as meant;
ghost use Rattle.query_groups.specs.Groups.{GroupsAreTaken, Keyed, keys_of_group, rows_of_group};

use crate::kept::field_at;
use query_terms::{Node, Term};
use query_totals::Tally;
use sqlval::{Many, R, Value};
use std::alloc::Global;

/// Whether an expression is a key or an aggregate, with nothing around it.
fn is_of_group(term: &Term) -> bool
    ensures { result ≡ meant.is_of_group term.now }
{
    matches!(&term.node, Node::Key(_, _) | Node::Total(_, _))
}

/// Whether each of these expressions is a key or an aggregate, with nothing around it.
pub fn are_of_group(terms: &[Term]) -> bool
    ensures { result ≡ list_all meant.is_of_group terms.now }
{
    terms.iter().all(is_of_group)
}

/// What an expression gives of a group; or its refusal.
fn value_of_group(alloc: Global, term: &Term, keys: &[Value], tally: Tally) -> R<Value>
    ensures given { (vs : List Meant) → tally ≡ tally_for term.now vs → Answers (given_of keys.now term.now tally) result }
    ensures not_disk { IfErr result IsNotDiskFault }
{
    match &term.node {
        Node::Key(place, _) => Ok(field_at(keys, *place).to_value(alloc)?),
        _ => tally.given(),
    }
}

/// What each expression gives of a group; or the first refusal.
fn each_value(alloc: Global, terms: &[Term], keys: &[Value], tallies: Vec<Tally>) -> R<Vec<Value>>
    ensures given { (group : List (List Row)) → tallies.items ≡ tallies_over group terms.now
        → AnswersBy (λ values. values.items) (given_each keys.now terms.now tallies.items) result }
    ensures not_disk { IfErr result IsNotDiskFault }
{
    let mut values = Vec::with_capacity(alloc, tallies.len())?;
    let mut left = terms;
    'tallies: for tally in tallies {
        let Some((term, rest)) = left.split_first() else {
            return Ok(values);
        };
        values.push(value_of_group(alloc, term, keys, tally)?)?;
        left = rest;
    }
    Ok(values)
}

/// What expressions that are all keys or aggregates give of a group of which this is kept; or the first refusal.
pub fn group_values(
    alloc: Global,
    terms: &[Term],
    keys: &Many<Value>,
    tallies: Vec<Tally>,
) -> R<Many<Value>>
    ensures given { (outer : List Row) (group : List Keyed) → list_all meant.is_of_group terms.now ≡ true
        → AllByRecursion (AreTaken terms.now) (rows_of_group group) → keys.now ≡ keys_of_group group
        → tallies.items ≡ tallies_over (rows_of_group group) terms.now
        → AnswersBy (λ values. values) (values (group_env outer group) terms.now) result }
    ensures not_disk { IfErr result IsNotDiskFault }
{
    Ok(Many::from_vec(each_value(alloc, terms, keys.as_slice(), tallies)?))
}

/// Where no row has an argument of an aggregate that is refused, no row of a group has one.
pub fn groups_are_taken()
    ensures { GroupsAreTaken }
{}
