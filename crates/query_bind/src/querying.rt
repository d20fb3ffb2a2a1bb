//! Queries, looked up whole.

ghost use Rattle.std.specs.Prelude.{◌≡◌, ◌&&◌, ◌||◌, ℕ, ℤ, List, [], false, map, option_map, IfErr, IfOk};
ghost use Rattle.std.specs.List.{list_any};
ghost use Rattle.sqlval.specs.Faults.{IsNotDiskFault};
ghost use Rattle.sqlval.specs.declared.value.Value.{Value};
ghost use Rattle.catalog.specs.Database.{Database};
ghost use Rattle.catalog.specs.Listed.{Lists, listed_in};
ghost use Rattle.query_names.specs.Checked.{meant};
ghost use Rattle.query_names.specs.Grouping.{has, is_own_cell, keyed};
ghost use Rattle.query_names.specs.Named.{Names, NamesBy};
ghost use Rattle.query_names.specs.Queries as query;
ghost use Rattle.query_names.specs.Queries.{resolve_query};
ghost use Rattle.query_names.specs.Views.{look_up};
ghost use Rattle.query_bind.specs.Named.{AreOuter, ArePlaced, AreTables, is_grouped_by, is_no_result, reading_for, resolve_clauses};

use crate::beside::expect_known;
use crate::clauses::{bind_filter, bind_keys, bind_orders};
use crate::marking::{marked_orders, marked_results};
use crate::parts::{
    has_other, orders_have_cell, orders_have_total, results_have_cell, results_have_total,
};
use crate::results::{bind_results, columns_of};
use crate::views::bind_query;
use catalog::Catalog;
use query_names::{Condition, Origin, Reading, ScopeColumn, ScopeSource, listed_tables_are_known};
use query_terms::Term;
use sql_syntax::{Limit, Query};
use sqlval::limits::MAX_COLUMNS;
use sqlval::{Fault, Many, Misuse, Name, R};
use std::alloc::Global;

/// The most views that stand one within another.
pub const MAX_VIEWS: usize = 64;

/// A query whose names are looked up, and where its sources' rows come from.
#[derive(Drop)]
pub struct BoundReading {
    pub reading: Reading,
    /// Where the rows of each source come from: the tree of a table, or the query of a view.
    pub origins: Many<Origin>,
}

/// The parts of a query, each looked up.
#[derive(Drop)]
pub struct Parts {
    pub joined: Vec<(Name, Condition)>,
    pub filter: Option<Term>,
    pub keys: Vec<Term>,
    pub results: Vec<(Term, ScopeColumn)>,
    pub orders: Vec<(Term, bool)>,
}

/// Whether the results are of groups of rows.
fn is_grouped(parts: &Parts) -> bool
    ensures { result ≡ is_grouped_by parts.now }
{
    results_have_total(&parts.results) || orders_have_total(&parts.orders) || !parts.keys.is_empty()
}

/// The number of rows that are left out.
fn offset_of(limit: Option<Limit>) -> u64
    ensures { result ≡ query.offset_of limit }
{
    match limit {
        Some(limit) => limit.offset.unwrap_or(0),
        None => 0,
    }
}

/// The number of rows after which the answer ends.
fn count_of(limit: Option<Limit>) -> Option<u64>
    ensures { result ≡ option_map (λ l. l.count) limit }
{
    match limit {
        Some(limit) => Some(limit.count),
        None => None,
    }
}

/// Whether, in a query with groups, a column of its own sources stands outside aggregates and keys; so many of a trigger stand before them.
fn is_mixed(outer: usize, parts: &Parts, results: &[Term], orders: &[(Term, bool)]) -> bool
    ensures { result ≡ (is_grouped_by parts.now && (list_any (has false (is_own_cell outer)) results.now
        || list_any (λ o. has false (is_own_cell outer) o.0) orders.now)) }
{
    is_grouped(parts) && (results_have_cell(outer, results) || orders_have_cell(outer, orders))
}

/// Whether the rows are told apart, and ORDER BY has a term that is none of the results.
fn is_astray(query: &Query, parts: &Parts) -> bool
    ensures { result ≡ (query.now.is_distinct
        && list_any (λ o. is_no_result parts.now.results.items o.0) parts.now.orders.items) }
{
    query.is_distinct && has_other(&parts.results, &parts.orders)
}

/// Refuses a column that is neither grouped nor in an aggregate, a DISTINCT whose ORDER BY names no result, and results past
/// the limit.
fn check_parts(
    outer: usize,
    query: &Query,
    parts: &Parts,
    results: &[Term],
    orders: &[(Term, bool)],
) -> R<()>
    ensures { results.now ≡ map (λ r. keyed parts.now.keys.items r.0) parts.now.results.items
        → orders.now ≡ map (λ o. (keyed parts.now.keys.items o.0, o.1)) parts.now.orders.items
        → NamesBy (λ done. meant (reading_for outer query.now parts.now)) (reading_for outer query.now parts.now) result }
{
    if is_mixed(outer, parts, results, orders) {
        return Err(Fault::Misuse(Misuse::Ungrouped));
    }
    if is_astray(query, parts) {
        return Err(Fault::Misuse(Misuse::OrderBy));
    }
    if parts.results.len() > MAX_COLUMNS {
        return Err(Fault::TooLong);
    }
    Ok(())
}

/// The reading of a query of these parts; so many sources of a trigger stand before its own.
fn reading_of(alloc: Global, outer: usize, query: &Query, parts: Parts) -> R<Reading>
    ensures named { Names (reading_for outer query.now parts) result }
    ensures closed { IfOk result (λ reading. reading.is_open ≡ false) }
{
    let results = marked_results(alloc, &parts.keys, &parts.results)?;
    let order = marked_orders(alloc, &parts.keys, &parts.orders)?;
    check_parts(outer, query, &parts, &results, &order)?;
    let columns = columns_of(alloc, &parts.results)?;
    let is_grouped = is_grouped(&parts);
    Ok(Reading {
        sources: Many::from_vec(parts.joined),
        filter: parts.filter,
        is_grouped,
        keys: Many::from_vec(parts.keys),
        results: Many::from_vec(results),
        columns: Many::from_vec(columns),
        is_open: false,
        order: Many::from_vec(order),
        distinct: query.is_distinct,
        limit: count_of(query.limit),
        offset: offset_of(query.limit),
    })
}

/// The reading of a query whose sources are looked up, so many of them a trigger's.
pub fn bind_clauses(
    alloc: Global,
    outer: usize,
    scope: &[ScopeSource],
    joined: Vec<(Name, Condition)>,
    query: &Query,
) -> R<Reading>
    ensures named { AreTables scope.now → Names (resolve_clauses outer scope.now joined.items query.now) result }
    ensures closed { IfOk result (λ reading. reading.is_open ≡ false) }
{
    let items = query.results.as_slice();
    let keys = bind_keys(alloc, scope, query.groups.as_slice())?;
    let results = bind_results(alloc, scope, items)?;
    let orders = bind_orders(alloc, scope, items, &results, query.order.as_slice())?;
    let filter = bind_filter(alloc, scope, &query.condition)?;
    reading_of(
        alloc,
        outer,
        query,
        Parts {
            joined,
            filter,
            keys,
            results,
            orders,
        },
    )
}

/// Looks up the names of a query: its reading, and where the rows of each source come from, or one of the refusals that its text has.
/// (`NoSuch`, `Ambiguous`, `Misuse`, `TooLong`.)
pub fn bind_reading(alloc: Global, catalog: &Catalog, query: &Query) -> R<BoundReading>
    ensures named { (rows_at : ℕ → List (ℤ × List Value)) (db : Database) → Lists rows_at (listed_in catalog.now) db
        → NamesBy (λ bound. bound.reading) (resolve_query (look_up db) [] query.now) result }
    ensures placed { IfOk result (λ bound. ArePlaced
        (listed_in catalog.now) bound.reading.sources bound.origins) }
    ensures closed { IfOk result (λ bound. bound.reading.is_open ≡ false) }
    ensures not_disk { IfErr result (λ fault. IsNotDiskFault fault) }
{
    bind_reading_beside(alloc, catalog, &[], query)
}

/// The same inside a trigger's program, which sees NEW and OLD by name. (And `NoSuch` for one of them that isn't known.)
pub fn bind_reading_beside(
    alloc: Global,
    catalog: &Catalog,
    outer: &[ScopeSource],
    query: &Query,
) -> R<BoundReading>
    ensures named { (rows_at : ℕ → List (ℤ × List Value)) (db : Database) → AreOuter outer.now
        → Lists rows_at (listed_in catalog.now) db
        → NamesBy (λ bound. bound.reading) (resolve_query (look_up db) outer.now query.now) result }
    ensures placed { IfOk result (λ bound. ArePlaced
        (listed_in catalog.now) bound.reading.sources bound.origins) }
    ensures closed { AreOuter outer.now → IfOk result (λ bound. bound.reading.is_open ≡ false) }
    ensures not_disk { IfErr result (λ fault. IsNotDiskFault fault) }
{
    listed_tables_are_known();
    expect_known(alloc, outer)?;
    bind_query(alloc, catalog, MAX_VIEWS, &[], outer, query)
}
