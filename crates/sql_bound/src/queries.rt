//! Queries copied, with the values of parameters.

ghost use Rattle.std.specs.Prelude.{◌≡◌, map, option_map};
ghost use Rattle.sqlval.specs.Faults.{IsOrMemory};
ghost use Rattle.sql_bound.specs.Bound as meant;

use crate::expressions::{bound_condition, bound_expression, bound_expressions, name_copy};
use sql_syntax::{FromClause, Join, OrderTerm, Query, ResultItem, Source};
use sqlval::{Many, R, Value};
use std::alloc::Global;

/// A copy of a source.
fn source_copy(alloc: Global, source: &Source) -> R<Source>
    ensures { IsOrMemory (λ copy. copy ≡ source.now) result }
{
    let name = source.name.copy(alloc)?;
    let alias = name_copy(alloc, &source.alias)?;
    Ok(Source { name, alias })
}

/// A copy of a result.
fn bound_result(alloc: Global, values: &[Value], item: &ResultItem) -> R<ResultItem>
    ensures { IsOrMemory (λ copy. copy ≡ meant.bound_result values.now item.now) result }
{
    match item {
        ResultItem::All => Ok(ResultItem::All),
        ResultItem::AllOf(source) => Ok(ResultItem::AllOf(source.copy(alloc)?)),
        ResultItem::Of(expression, name) => {
            let name = name_copy(alloc, name)?;
            Ok(ResultItem::Of(bound_expression(alloc, values, expression)?, name))
        }
    }
}

/// Copies of results.
fn bound_results(alloc: Global, values: &[Value], results: &[ResultItem]) -> R<Many<ResultItem>>
    ensures { IsOrMemory (λ copies. copies ≡ map (meant.bound_result values.now) results.now) result }
{
    let mut copies = Vec::new(alloc);
    'results: for item in results {
        let copy = bound_result(alloc, values, item)?;
        copies.push(copy)?;
    }
    Ok(Many::from_vec(copies))
}

/// A copy of a further source.
fn bound_join(alloc: Global, values: &[Value], join: &Join) -> R<Join>
    ensures { IsOrMemory (λ copy. copy ≡ meant.bound_join values.now join.now) result }
{
    let source = source_copy(alloc, &join.source)?;
    let condition = bound_condition(alloc, values, &join.condition)?;
    Ok(Join {
        kind: join.kind,
        source,
        condition,
    })
}

/// Copies of further sources.
fn bound_joins(alloc: Global, values: &[Value], joins: &[Join]) -> R<Many<Join>>
    ensures { IsOrMemory (λ copies. copies ≡ map (meant.bound_join values.now) joins.now) result }
{
    let mut copies = Vec::new(alloc);
    'joins: for join in joins {
        let copy = bound_join(alloc, values, join)?;
        copies.push(copy)?;
    }
    Ok(Many::from_vec(copies))
}

/// A copy of FROM.
fn bound_sources(alloc: Global, values: &[Value], from: &FromClause) -> R<FromClause>
    ensures { IsOrMemory (λ copy. copy ≡ meant.bound_from values.now from.now) result }
{
    let first = source_copy(alloc, &from.first)?;
    let joins = bound_joins(alloc, values, from.joins.as_slice())?;
    Ok(FromClause { first, joins })
}

/// A copy of FROM, where it is written.
fn bound_from(alloc: Global, values: &[Value], from: &Option<FromClause>) -> R<Option<FromClause>>
    ensures { IsOrMemory (λ copy. copy ≡ option_map (meant.bound_from values.now) from.now) result }
{
    match from {
        Some(from) => Ok(Some(bound_sources(alloc, values, from)?)),
        None => Ok(None),
    }
}

/// A copy of a term of ORDER BY.
fn bound_order(alloc: Global, values: &[Value], term: &OrderTerm) -> R<OrderTerm>
    ensures { IsOrMemory (λ copy. copy ≡ meant.bound_order values.now term.now) result }
{
    let expression = bound_expression(alloc, values, &term.expression)?;
    Ok(OrderTerm {
        expression,
        is_descending: term.is_descending,
    })
}

/// Copies of the terms of ORDER BY.
fn bound_orders(alloc: Global, values: &[Value], terms: &[OrderTerm]) -> R<Many<OrderTerm>>
    ensures { IsOrMemory (λ copies. copies ≡ map (meant.bound_order values.now) terms.now) result }
{
    let mut copies = Vec::new(alloc);
    'terms: for term in terms {
        let copy = bound_order(alloc, values, term)?;
        copies.push(copy)?;
    }
    Ok(Many::from_vec(copies))
}

/// A copy of a query in which each parameter is the literal of its value. (`Memory` alone.)
pub fn bound_query(alloc: Global, values: &[Value], query: &Query) -> R<Query>
    ensures { IsOrMemory (λ copy. copy ≡ meant.bound_query values.now query.now) result }
{
    let results = bound_results(alloc, values, query.results.as_slice())?;
    let groups = bound_expressions(alloc, values, query.groups.as_slice())?;
    let order = bound_orders(alloc, values, query.order.as_slice())?;
    let from = bound_from(alloc, values, &query.from)?;
    let condition = bound_condition(alloc, values, &query.condition)?;
    Ok(Query {
        is_distinct: query.is_distinct,
        results,
        from,
        condition,
        groups,
        order,
        limit: query.limit,
    })
}
