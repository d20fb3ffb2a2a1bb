//! Terms copied, with the expressions of GROUP BY marked in them.

ghost use Rattle.std.specs.Prelude.{◌≡◌, ◌<◌, Option, length, map, option_map, IfSome};
ghost use Rattle.sqlval.specs.Faults.{IsOrMemory};
ghost use Rattle.query_terms.specs.Terms as form;
ghost use Rattle.query_terms.specs.Terms.{terms};
ghost use Rattle.query_terms.specs.View.{tree_of};
ghost use Rattle.query_names.specs.Grouping.{key_from, keyed, keyed_all};
ghost use Rattle.query_bind.specs.Marked.{keyed_within, IsKeyOf};

use query_names::ScopeColumn;
use query_terms::{Aggregate, Function, Node, OneSided, Term, TwoSided, is_same};
use sql_syntax::RaiseAction;
use sqlval::{Collation, R, Text, Value};
use std::alloc::Global;

/// The term of a form.
fn term_of(node: Node) -> Term
    ensures { result ≡ tree_of node }
{
    Term { node }
}

/// The place of the first key that is this term.
fn place_among(keys: &[Term], term: &Term) -> Option<usize>
    ensures found { key_from 0 keys.now term.now ≡ option_map (λ place. form.Key place term.now) result }
    ensures placed { IfSome result (λ place. place < length keys.now) }
{
    'keys: for place in 0..keys.len() {
        if is_same(&keys[place], term) {
            return Some(place);
        }
    }
    None
}

/// The place of the key that a term is. An aggregate is none.
fn key_place(keys: &[Term], term: &Term) -> Option<usize>
    ensures found { IsKeyOf keys.now term.now result }
    ensures placed { IfSome result (λ place. place < length keys.now) }
{
    match &term.node {
        Node::Total(_, _) => None,
        _ => place_among(keys, term),
    }
}

/// A copy of a literal's value.
fn value_copy(alloc: Global, value: &Value) -> R<Value>
    ensures { IsOrMemory (λ copy. copy ≡ value.now) result }
{
    match value {
        Value::Null => Ok(Value::Null),
        Value::Int(number) => Ok(Value::Int(*number)),
        Value::Text(text) => Ok(Value::Text(text.copy(alloc)?)),
        Value::Blob(bytes) => Ok(Value::Blob(bytes.copy(alloc)?)),
    }
}

/// A copy of RAISE.
fn raise_copy(alloc: Global, action: RaiseAction, text: &Text) -> R<Term>
    ensures { IsOrMemory (λ copy. copy ≡ form.Raise action text.now) result }
{
    let text = text.copy(alloc)?;
    Ok(term_of(Node::Raise(action, text)))
}

/// A copy of a term, in which each part that is a key is marked so, the largest first. Without keys it is the term itself.
#[cycle(marked)]
pub fn marked(alloc: Global, keys: &[Term], term: &Term) -> R<Term>
    ensures { IsOrMemory (λ copy. copy ≡ keyed keys.now term.now) result }
{
    match key_place(keys, term) {
        Some(place) => key_of(alloc, place, term),
        None => marked_within(alloc, keys, term),
    }
}

/// The same, to stand within another term.
#[cycle(marked)]
fn marked_boxed(alloc: Global, keys: &[Term], term: &Term) -> R<Box<Term>>
    ensures { IsOrMemory (λ copy. copy.value ≡ keyed keys.now term.now) result }
{
    let copy = marked(alloc, keys, term)?;
    Ok(Box::new(alloc, copy)?)
}

/// A key, by its place.
#[cycle(marked)]
#[tactic(auto, using(crate::proofs::Keyless::unmarked))]
fn key_of(alloc: Global, place: usize, term: &Term) -> R<Term>
    ensures { IsOrMemory (λ copy. copy ≡ form.Key place term.now) result }
{
    let copy = marked_boxed(alloc, &[], term)?;
    Ok(term_of(Node::Key(place, copy)))
}

/// A copy of a term that isn't a key.
#[cycle(marked)]
fn marked_within(alloc: Global, keys: &[Term], term: &Term) -> R<Term>
    ensures { IsOrMemory (λ copy. copy ≡ keyed_within keys.now term.now) result }
{
    match &term.node {
        Node::Const(value) => Ok(term_of(Node::Const(value_copy(alloc, value)?))),
        Node::Digits(number) => Ok(term_of(Node::Digits(*number))),
        Node::Cell(source, place, affinity, collation) => {
            Ok(term_of(Node::Cell(*source, *place, *affinity, *collation)))
        }
        Node::Key(place, inner) => key_of(alloc, *place, inner),
        Node::Apply(function, list) => marked_call(alloc, keys, *function, list),
        Node::Total(aggregate, argument) => total_of(alloc, *aggregate, argument),
        Node::One(operator, operand) => marked_one(alloc, keys, *operator, operand),
        Node::Two(operator, left, right) => marked_two(alloc, keys, *operator, left, right),
        Node::Collate(collation, operand) => marked_collate(alloc, keys, *collation, operand),
        Node::In(is_negated, operand, list) => marked_in(alloc, keys, *is_negated, operand, list),
        Node::Between(is_negated, operand, low, high) => {
            marked_between(alloc, keys, *is_negated, operand, low, high)
        }
        Node::Raise(action, text) => raise_copy(alloc, *action, text),
    }
}

/// A call.
#[cycle(marked)]
fn marked_call(alloc: Global, keys: &[Term], function: Function, list: &[Term]) -> R<Term>
    ensures { IsOrMemory (λ copy. copy ≡ form.Apply function (keyed_all keys.now (terms list.now))) result }
{
    let list = marked_all(alloc, keys, list)?;
    Ok(term_of(Node::Apply(function, list)))
}

/// An aggregate, whose argument has no key.
#[cycle(marked)]
#[tactic(auto, using(crate::proofs::Keyless::unmarked))]
fn total_of(alloc: Global, aggregate: Aggregate, argument: &Term) -> R<Term>
    ensures { IsOrMemory (λ copy. copy ≡ form.Total aggregate argument.now) result }
{
    let argument = marked_boxed(alloc, &[], argument)?;
    Ok(term_of(Node::Total(aggregate, argument)))
}

/// An operator before an operand.
#[cycle(marked)]
fn marked_one(alloc: Global, keys: &[Term], operator: OneSided, operand: &Term) -> R<Term>
    ensures { IsOrMemory (λ copy. copy ≡ form.One operator (keyed keys.now operand.now)) result }
{
    let operand = marked_boxed(alloc, keys, operand)?;
    Ok(term_of(Node::One(operator, operand)))
}

/// An operator between two operands.
#[cycle(marked)]
fn marked_two(
    alloc: Global,
    keys: &[Term],
    operator: TwoSided,
    left: &Term,
    right: &Term,
) -> R<Term>
    ensures { IsOrMemory (λ copy. copy ≡ form.Two operator (keyed keys.now left.now)
        (keyed keys.now right.now)) result }
{
    let left = marked_boxed(alloc, keys, left)?;
    let right = marked_boxed(alloc, keys, right)?;
    Ok(term_of(Node::Two(operator, left, right)))
}

/// COLLATE.
#[cycle(marked)]
fn marked_collate(alloc: Global, keys: &[Term], collation: Collation, operand: &Term) -> R<Term>
    ensures { IsOrMemory (λ copy. copy ≡ form.Collate collation (keyed keys.now operand.now)) result }
{
    let operand = marked_boxed(alloc, keys, operand)?;
    Ok(term_of(Node::Collate(collation, operand)))
}

/// IN and NOT IN.
#[cycle(marked)]
fn marked_in(
    alloc: Global,
    keys: &[Term],
    is_negated: bool,
    operand: &Term,
    list: &[Term],
) -> R<Term>
    ensures { IsOrMemory
        (λ copy. copy ≡ form.In is_negated (keyed keys.now operand.now)
        (keyed_all keys.now (terms list.now))) result }
{
    let operand = marked_boxed(alloc, keys, operand)?;
    let list = marked_all(alloc, keys, list)?;
    Ok(term_of(Node::In(is_negated, operand, list)))
}

/// BETWEEN and NOT BETWEEN.
#[cycle(marked)]
fn marked_between(
    alloc: Global,
    keys: &[Term],
    is_negated: bool,
    operand: &Term,
    low: &Term,
    high: &Term,
) -> R<Term>
    ensures { IsOrMemory (λ copy. copy
        ≡ form.Between is_negated (keyed keys.now operand.now) (keyed keys.now low.now)
        (keyed keys.now high.now)) result }
{
    let operand = marked_boxed(alloc, keys, operand)?;
    let low = marked_boxed(alloc, keys, low)?;
    let high = marked_boxed(alloc, keys, high)?;
    Ok(term_of(Node::Between(is_negated, operand, low, high)))
}

/// The same of each term of a list.
#[cycle(marked)]
#[tactic(auto, using(crate::proofs::TermLists::item_falls))]
fn marked_all(alloc: Global, keys: &[Term], list: &[Term]) -> R<Vec<Term>>
    ensures { IsOrMemory (λ copies. terms copies.items ≡ keyed_all keys.now (terms list.now)) result }
{
    let mut copies = Vec::new(alloc);
    'terms: for term in list {
        let copy = marked(alloc, keys, term)?;
        copies.push(copy)?;
    }
    Ok(copies)
}

/// The results with their keys marked.
pub fn marked_results(alloc: Global, keys: &[Term], results: &[(Term, ScopeColumn)]) -> R<Vec<Term>>
    ensures { IsOrMemory (λ found. found.items ≡ map (λ r. keyed keys.now r.0) results.now) result }
{
    let mut found = Vec::new(alloc);
    'results: for result in results {
        found.push(marked(alloc, keys, &result.0)?)?;
    }
    Ok(found)
}

/// The terms of ORDER BY with their keys marked.
pub fn marked_orders(alloc: Global, keys: &[Term], orders: &[(Term, bool)]) -> R<Vec<(Term, bool)>>
    ensures { IsOrMemory (λ found. found.items ≡ map (λ o. (keyed keys.now o.0, o.1)) orders.now) result }
{
    let mut found = Vec::new(alloc);
    'orders: for order in orders {
        let term = marked(alloc, keys, &order.0)?;
        found.push((term, order.1))?;
    }
    Ok(found)
}
