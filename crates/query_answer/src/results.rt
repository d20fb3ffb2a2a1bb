//! What a query gives of one combination of rows, or of a group.

ghost use Rattle.std.specs.Prelude.{◌≡◌, ◌⊎◌, ◌++◌, ◌∷◌, [], Bool, IfOk, List, map};
ghost use Rattle.query_terms.specs.Outcome.{AnswersBy};
ghost use Rattle.query_terms.specs.Rows.{picked_rows, seen};
ghost use Rattle.query_names.specs.Readings as meant;
ghost use Rattle.query_names.specs.Readings.{env_of};
ghost use Rattle.query_answer.specs.Nesting.{all_found, at_leaf, filtered_by, found_of, grouped_row, kept_row, onto, shown};

use crate::arguments::check_arguments;
use crate::nesting::Loops;
use query_names::Reading;
use query_terms::{Env, RowPlaces, Term, owned_value};
use sqlval::{Many, R, Value};
use std::alloc::Global;

/// What a query keeps of a combination of rows.
#[derive(Drop)]
pub struct FoundRow {
    /// The values of its results; none where it is to be grouped.
    pub results: Many<Value>,
    /// What it is sorted by, or grouped by.
    pub keys: Many<Value>,
    /// Where it is to be grouped, the place of each source's row.
    pub picked: RowPlaces,
}

/// The values of these expressions, from left to right.
fn values_of(alloc: Global, terms: &[Term], env: Env<'_>) -> R<Many<Value>>
    ensures { AnswersBy (λ vs. vs) (meant.values (seen env.entry) terms.now) result }
{
    let values = Vec::with_capacity(alloc, terms.len())?;
    values_over(alloc, terms, env, Many::from_vec(values))
}

/// The same, in place of the values of a list.
pub fn values_over(alloc: Global, terms: &[Term], env: Env<'_>, list: Many<Value>) -> R<Many<Value>>
    ensures { AnswersBy (λ vs. vs) (meant.values (seen env.entry) terms.now) result }
{
    let mut values = list.into_vec();
    values.clear();
    'terms: for term in terms {
        values.push(owned_value(alloc, term, env)?)?;
    }
    Ok(Many::from_vec(values))
}

/// The values of the expressions of ORDER BY, from left to right.
fn order_values(alloc: Global, order: &[(Term, bool)], env: Env<'_>) -> R<Many<Value>>
    ensures { AnswersBy (λ vs. vs) (meant.values (seen env.entry) (map (λ o. o.0) order.now)) result }
{
    let mut values = Vec::with_capacity(alloc, order.len())?;
    'terms: for (term, _) in order {
        values.push(owned_value(alloc, term, env)?)?;
    }
    Ok(Many::from_vec(values))
}

/// A row of the answer: its results, and then what it is sorted by.
pub fn found_row(alloc: Global, reading: &Reading, env: Env<'_>) -> R<FoundRow>
    ensures found { AnswersBy shown (meant.sortable reading.now (seen env.entry)) result }
    ensures alone { IfOk result (λ f. f.picked ≡ []) }
{
    let results = values_of(alloc, reading.results.as_slice(), env)?;
    let keys = order_values(alloc, reading.order.as_slice(), env)?;
    let picked = RowPlaces::new(alloc);
    Ok(FoundRow {
        results,
        keys,
        picked,
    })
}

/// What is kept of a combination that is to be grouped: its keys, and where its rows are, once no aggregate's argument is
/// refused.
fn group_row(alloc: Global, reading: &Reading, picked: &[usize], env: Env<'_>) -> R<FoundRow>
    requires { seen env ≡ env_of (picked_rows env.sources.now picked.now) }
    ensures { AnswersBy (found_of env.entry.sources.now)
        (grouped_row reading.now (picked_rows env.entry.sources.now picked.now)) result }
{
    let keys = values_of(alloc, reading.keys.as_slice(), env)?;
    let order = reading.order.as_slice();
    check_arguments(alloc, reading.results.as_slice(), order, env)?;
    let picked = RowPlaces::from_slice(alloc, picked)?;
    let results = Many::new(alloc);
    Ok(FoundRow {
        results,
        keys,
        picked,
    })
}

/// What is kept of a combination.
fn kept_row(alloc: Global, loops: Loops<'_>, picked: &[usize]) -> R<FoundRow>
    ensures { AnswersBy (found_of loops.entry.sources.now)
        (kept_row loops.entry.reading.now (picked_rows loops.entry.sources.now picked.now)) result }
{
    let env = loops.env(picked);
    if loops.reading.is_grouped {
        group_row(alloc, loops.reading, picked, env)
    } else {
        found_row(alloc, loops.reading, env)
    }
}

/// What is kept of the rows that are picked, where WHERE keeps them.
pub fn give(alloc: Global, loops: Loops<'_>, picked: &[usize], found: &mut Vec<FoundRow>) -> R<()>
    ensures { AnswersBy (λ u. all_found loops.entry.sources.now found.new.items)
        (onto (all_found loops.entry.sources.now found.old.items)
        (at_leaf (filtered_by loops.entry.filter.now loops.entry.reading.now)
        (picked_rows loops.entry.sources.now picked.now))) result }
{
    if loops.filter.passes(alloc, loops.env(picked))? {
        found.push(kept_row(alloc, loops, picked)?)?;
    }
    Ok(())
}
