//! What a term has in it: aggregates, and columns outside of them.

ghost use Rattle.std.specs.Prelude.{◌≡◌, ◌||◌, true, false};
ghost use Rattle.std.specs.List.{list_any};
ghost use Rattle.query_terms.specs.Terms.{same_term, terms};
ghost use Rattle.query_names.specs.Grouping as part;
ghost use Rattle.query_names.specs.Grouping.{has, has_in, is_own_cell, is_total};
ghost use Rattle.query_bind.specs.Named.{is_no_result};

use query_names::ScopeColumn;
use query_terms::{Node, Term, is_same};

/// Whether an aggregate stands in a term.
#[cycle(has_total)]
pub fn has_total(term: &Term) -> bool
    ensures { result ≡ part.has_total term.now }
{
    match &term.node {
        Node::Total(_, _) => true,
        Node::Apply(_, list) => any_has_total(list),
        Node::One(_, operand) | Node::Collate(_, operand) => has_total(operand),
        Node::Two(_, left, right) => has_total(left) || has_total(right),
        Node::In(_, operand, list) => has_total(operand) || any_has_total(list),
        Node::Between(_, operand, low, high) => {
            has_total(operand) || has_total(low) || has_total(high)
        }
        _ => false,
    }
}

/// Whether one stands in a term of the list.
#[cycle(has_total)]
fn any_has_total(list: &[Term]) -> bool
    ensures { result ≡ has_in true is_total (terms list.now) }
{
    let mut rest = list;
    'terms: loop {
        let Some((term, behind)) = rest.split_first() else {
            return false;
        };
        if has_total(term) {
            return true;
        }
        rest = behind;
    }
}

/// Whether a column of a source after the first so many stands in a term, outside aggregates and keys.
#[cycle(has_cell)]
pub fn has_cell(outer: usize, term: &Term) -> bool
    ensures { result ≡ has false (is_own_cell outer) term.now }
{
    match &term.node {
        Node::Cell(source, _, _, _) => *source >= outer,
        Node::Apply(_, list) => any_has_cell(outer, list),
        Node::One(_, operand) | Node::Collate(_, operand) => has_cell(outer, operand),
        Node::Two(_, left, right) => either_has_cell(outer, left, right),
        Node::In(_, operand, list) => has_cell(outer, operand) || any_has_cell(outer, list),
        Node::Between(_, operand, low, high) => {
            either_has_cell(outer, operand, low) || has_cell(outer, high)
        }
        _ => false,
    }
}

/// Whether one stands so in one of two terms.
#[cycle(has_cell)]
fn either_has_cell(outer: usize, left: &Term, right: &Term) -> bool
    ensures { result ≡ (has false (is_own_cell outer) left.now || has false (is_own_cell outer) right.now) }
{
    has_cell(outer, left) || has_cell(outer, right)
}

/// Whether one stands so in a term of the list.
#[cycle(has_cell)]
fn any_has_cell(outer: usize, list: &[Term]) -> bool
    ensures { result ≡ has_in false (is_own_cell outer) (terms list.now) }
{
    let mut rest = list;
    'terms: loop {
        let Some((term, behind)) = rest.split_first() else {
            return false;
        };
        if has_cell(outer, term) {
            return true;
        }
        rest = behind;
    }
}

/// Whether an aggregate stands in a result.
pub fn results_have_total(results: &[(Term, ScopeColumn)]) -> bool
    ensures { result ≡ list_any (λ r. part.has_total r.0) results.now }
{
    results.iter().any(|one| has_total(&one.0))
}

/// Whether an aggregate stands in ORDER BY.
pub fn orders_have_total(orders: &[(Term, bool)]) -> bool
    ensures { result ≡ list_any (λ o. part.has_total o.0) orders.now }
{
    orders.iter().any(|one| has_total(&one.0))
}

/// Whether one stands so in one of the terms.
pub fn results_have_cell(outer: usize, results: &[Term]) -> bool
    ensures { result ≡ list_any (λ t. has false (is_own_cell outer) t) results.now }
{
    results.iter().any(|one| has_cell(outer, one))
}

/// Whether one stands so in ORDER BY.
pub fn orders_have_cell(outer: usize, orders: &[(Term, bool)]) -> bool
    ensures { result ≡ list_any (λ o. has false (is_own_cell outer) o.0) orders.now }
{
    orders.iter().any(|one| has_cell(outer, &one.0))
}

/// Whether a term is one of the results.
fn is_result(results: &[(Term, ScopeColumn)], term: &Term) -> bool
    ensures { result ≡ list_any (λ r. same_term r.0 term.now) results.now }
{
    results.iter().any(|one| is_same(&one.0, term))
}

/// Whether a term is none of the results.
fn is_other(results: &[(Term, ScopeColumn)], term: &Term) -> bool
    ensures { result ≡ is_no_result results.now term.now }
{
    !is_result(results, term)
}

/// Whether ORDER BY has a term that is none of the results.
pub fn has_other(results: &[(Term, ScopeColumn)], orders: &[(Term, bool)]) -> bool
    ensures { result ≡ list_any (λ o. is_no_result results.now o.0) orders.now }
{
    orders.iter().any(|one| is_other(results, &one.0))
}
