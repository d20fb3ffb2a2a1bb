//! WHERE, GROUP BY and ORDER BY.

ghost use Rattle.std.specs.Prelude.{◌≡◌, ◌∷◌, [], List, true, false, map, None, option_map, unwrap_or, IfErr};
ghost use Rattle.sqlval.specs.Faults.{IsNotDiskFault};
ghost use Rattle.sql_syntax.specs.Tree as form;
ghost use Rattle.sql_syntax.specs.declared.query.ResultItem.{ResultItem};
ghost use Rattle.query_names.specs.Checked.{known_all};
ghost use Rattle.query_names.specs.Expressions.{resolve};
ghost use Rattle.query_names.specs.Named.{Names, NamesBy};
ghost use Rattle.query_names.specs.Queries.{as_named, resolve_filter, resolve_order};
ghost use Rattle.query_names.specs.declared.scope.ScopeSource.{ScopeSource};
ghost use Rattle.query_bind.specs.Named.{AreTables, order_given, orders_checked};

use crate::marking::marked;
use query_names::{ScopeColumn, ScopeSource, bind_term};
use query_terms::Term;
use sql_syntax::{Expr, Node as Tree, OrderTerm, ResultItem};
use sqlval::{Fault, Misuse, Name, R};
use std::alloc::Global;

/// WHERE, in which no aggregate may stand. (`NoSuch`, `Ambiguous`, `Misuse`.)
#[tactic(auto, using(query_names::proofs::PartRefusals::mapped))]
pub fn bind_filter(
    alloc: Global,
    scope: &[ScopeSource],
    condition: &Option<Expr>,
) -> R<Option<Term>>
    ensures named { Names (resolve_filter scope.now condition.now) result }
    ensures not_disk { IfErr result (λ fault. IsNotDiskFault fault) }
{
    match condition {
        Some(tree) => Ok(Some(bind_term(alloc, false, scope, tree)?)),
        None => Ok(None),
    }
}

/// The keys of GROUP BY, in which no aggregate may stand.
pub fn bind_keys(alloc: Global, scope: &[ScopeSource], trees: &[Expr]) -> R<Vec<Term>>
    ensures { NamesBy (λ keys. keys.items) (known_all (map (resolve false scope.now) trees.now)) result }
{
    let mut keys = Vec::new(alloc);
    'trees: for tree in trees {
        let term = bind_term(alloc, false, scope, tree)?;
        keys.push(term)?;
    }
    Ok(keys)
}

/// The result at a place, counted from 1.
fn result_at(alloc: Global, results: &[(Term, ScopeColumn)], number: u64) -> R<Term>
    ensures { (scope : List ScopeSource) (items : List ResultItem) → AreTables scope
        → Names (resolve_order scope items results.now (form.Integer number)) result }
{
    if number == 0 {
        return Err(Fault::Misuse(Misuse::OrderBy));
    }
    match results.get((number - 1) as usize) {
        Some(result) => marked(alloc, &[], &result.0),
        None => Err(Fault::Misuse(Misuse::OrderBy)),
    }
}

/// The expression of a result, where this is its AS name.
fn named<'a>(item: &'a ResultItem, name: &Name) -> Option<&'a Expr>
    ensures { option_map (λ e. e.now) result ≡ as_named name.now (item.now ∷ []) }
{
    match item {
        ResultItem::Of(tree, Some(as_name)) if name.is_same(as_name.as_str()) => Some(tree),
        _ => None,
    }
}

/// The expression of the first result of that AS name.
fn result_named<'a>(items: &'a [ResultItem], name: &Name) -> Option<&'a Expr>
    ensures { option_map (λ e. e.now) result ≡ as_named name.now items.now }
{
    'items: for item in items {
        if let Some(tree) = named(item, name) {
            return Some(tree);
        }
    }
    None
}

/// ORDER BY an AS name, or else a column.
fn bind_name(
    alloc: Global,
    scope: &[ScopeSource],
    items: &[ResultItem],
    name: &Name,
    tree: &Expr,
) -> R<Term>
    ensures { tree.now ≡ form.Column None name.now
        → Names (resolve true scope.now (unwrap_or (as_named name.now items.now)
        (form.Column None name.now))) result }
{
    match result_named(items, name) {
        Some(named) => bind_term(alloc, true, scope, named),
        None => bind_term(alloc, true, scope, tree),
    }
}

/// A term of ORDER BY: the place of a result, an AS name, or an expression.
fn bind_order(
    alloc: Global,
    scope: &[ScopeSource],
    items: &[ResultItem],
    results: &[(Term, ScopeColumn)],
    tree: &Expr,
) -> R<Term>
    ensures { AreTables scope.now → Names (resolve_order scope.now items.now results.now tree.now) result }
{
    match &tree.node {
        Tree::Integer(number) => result_at(alloc, results, *number),
        Tree::Column(None, name) => bind_name(alloc, scope, items, name, tree),
        _ => bind_term(alloc, true, scope, tree),
    }
}

/// The terms of ORDER BY, and whether each falls.
pub fn bind_orders(
    alloc: Global,
    scope: &[ScopeSource],
    items: &[ResultItem],
    results: &[(Term, ScopeColumn)],
    orders: &[OrderTerm],
) -> R<Vec<(Term, bool)>>
    ensures { AreTables scope.now → NamesBy (λ found. found.items)
        (orders_checked (map (order_given scope.now items.now results.now) orders.now)) result }
{
    let mut found = Vec::new(alloc);
    'orders: for order in orders {
        let term = bind_order(alloc, scope, items, results, &order.expression)?;
        found.push((term, order.is_descending))?;
    }
    Ok(found)
}
