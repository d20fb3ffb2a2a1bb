//! Rows in the order of their keys.

ghost use Rattle.std.specs.Prelude.{◌≡◌, IfErr, IfOk, OnOk, map, slice_get, unwrap_or};
ghost use Rattle.sqlval.specs.Lists.{sorted};
ghost use Rattle.sqlval.specs.declared.value.Value.TheVariants.{Null};
ghost use Rattle.sqlval.specs.Fields.{value_of};
ghost use Rattle.query_answer.specs.Sorting.{by_values, falling_or_rising, order_of, ordered};

use crate::results::FoundRow;
use query_terms::{Term, collation};
use sqlval::{Collation, Fault, Field, R, Value, compare_fields};
use std::alloc::Global;
use std::cmp::Ordering;

/// A key to sort by.
#[derive(Clone, Copy)]
pub struct SortOrder {
    pub collation: Collation,
    pub descending: bool,
}

/// The value at a place, NULL past the last.
fn key_at(keys: &[Value], index: usize) -> Field<'_>
    ensures { value_of result ≡ unwrap_or (slice_get keys.now index) Null }
{
    match keys.get(index) {
        Some(value) => value.as_field(),
        None => Field::Null,
    }
}

/// How two values stand by a key.
fn by_one(order: SortOrder, a: Field<'_>, b: Field<'_>) -> Ordering
    ensures { result ≡ ordered order (value_of a.entry) (value_of b.entry) }
{
    let found = compare_fields(a, b, order.collation);
    if order.descending {
        found.reverse()
    } else {
        found
    }
}

/// How the values at a place stand by a key.
fn by_place(order: SortOrder, index: usize, a: &[Value], b: &[Value]) -> Ordering
    ensures { result
        ≡ ordered order (unwrap_or (slice_get a.now index) Null) (unwrap_or (slice_get b.now index) Null) }
{
    by_one(order, key_at(a, index), key_at(b, index))
}

/// How two lists of values stand by their keys, a missing value being NULL.
pub fn compare_values(orders: &[SortOrder], a: &[Value], b: &[Value]) -> Ordering
    ensures { result ≡ by_values orders.now a.now b.now }
{
    'keys: for index in 0..orders.len() {
        let found = by_place(orders[index], index, a, b);
        if found.is_ne() {
            return found;
        }
    }
    Ordering::Equal
}

/// Sorts rows by their keys; those that tie stay as they stand.
pub fn sort_rows(found: &mut Vec<FoundRow>, orders: &[SortOrder]) -> R<()>
    ensures sorted { OnOk result (found.new.items ≡ sorted
        (λ r s. by_values orders.now r.keys s.keys) found.old.items) }
    ensures refused { IfErr result (λ fault. fault ≡ Fault.Memory) }
{
    found.sort_by(|a, b| compare_values(orders, a.keys.as_slice(), b.keys.as_slice()))?;
    Ok(())
}

/// By which keys rows are told apart or grouped.
pub fn rising_orders(alloc: Global, terms: &[Term]) -> R<Vec<SortOrder>>
    ensures orders { IfOk result (λ orders. orders.items ≡ map order_of terms.now) }
    ensures refused { IfErr result (λ fault. fault ≡ Fault.Memory) }
{
    let mut orders = Vec::new(alloc);
    'terms: for term in terms {
        orders.push(SortOrder {
            collation: collation(term),
            descending: false,
        })?;
    }
    Ok(orders)
}

/// By which keys ORDER BY sorts.
pub fn written_orders(alloc: Global, order: &[(Term, bool)]) -> R<Vec<SortOrder>>
    ensures orders { IfOk result (λ orders. orders.items ≡ map falling_or_rising order.now) }
    ensures refused { IfErr result (λ fault. fault ≡ Fault.Memory) }
{
    let mut orders = Vec::new(alloc);
    'terms: for (term, descending) in order {
        orders.push(SortOrder {
            collation: collation(term),
            descending: *descending,
        })?;
    }
    Ok(orders)
}
