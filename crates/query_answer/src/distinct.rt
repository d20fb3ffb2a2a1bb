//! Rows without those that equal an earlier one.

ghost use Rattle.std.specs.Prelude.{◌≡◌, [], IfErr, IfOk, OnOk, Some, length, map, slice_get};
ghost use Rattle.std.specs.List.{range_with_len};
ghost use Rattle.std.specs.Ordering.{nat_cmp};
ghost use Rattle.sqlval.specs.Lists.{distinct, sorted};
ghost use Rattle.query_answer.specs.Numbers.{AreRisingPlaces, by_places, have_same_results, kept_after, kept_with, last_ties, results_of, tie_at};

use crate::lookups::each_place;
use crate::results::FoundRow;
use crate::sorting::{SortOrder, compare_values};
use sqlval::{Fault, R, Value};
use std::alloc::Global;
use std::cmp::Ordering;

/// The results of the row at a place, none past the last.
fn results_at(rows: &[FoundRow], place: usize) -> &[Value]
    ensures { result.now ≡ results_of (slice_get rows.entry.now place) }
{
    match rows.get(place) {
        Some(row) => row.results.as_slice(),
        None => &[],
    }
}

/// How the rows at two places stand by their results.
fn compare_places(rows: &[FoundRow], orders: &[SortOrder], first: usize, second: usize) -> Ordering
    ensures { result ≡ by_places orders.now rows.now first second }
{
    compare_values(orders, results_at(rows, first), results_at(rows, second))
}

/// Sorts places by the results of their rows; those that tie stay as they stand.
fn sort_by_results(places: &mut Vec<usize>, rows: &[FoundRow], orders: &[SortOrder]) -> R<()>
    ensures sorted { OnOk result (places.new.items ≡ sorted (by_places orders.now rows.now) places.old.items) }
    ensures refused { IfErr result (λ fault. fault ≡ Fault.Memory) }
{
    places.sort_by(|a, b| compare_places(rows, orders, *a, *b))?;
    Ok(())
}

/// Sorts places, so that they rise.
fn sort_rising(places: &mut Vec<usize>) -> R<()>
    ensures sorted { OnOk result (places.new.items ≡ sorted nat_cmp places.old.items) }
    ensures refused { IfErr result (λ fault. fault ≡ Fault.Memory) }
{
    places.sort_by(|a, b| a.cmp(b))?;
    Ok(())
}

/// Whether the row at the last of the places kept has the results of the row at this one.
fn is_kept(rows: &[FoundRow], orders: &[SortOrder], kept: &[usize], place: usize) -> bool
    ensures { result ≡ last_ties orders.now rows.now kept.now place }
{
    match kept.last() {
        Some(last) => compare_places(rows, orders, *last, place).is_eq(),
        None => false,
    }
}

/// Keeps a place, unless the last of those kept has its row's results.
fn keep(kept: &mut Vec<usize>, rows: &[FoundRow], orders: &[SortOrder], place: usize) -> R<()>
    ensures kept { OnOk result (kept.new.items ≡ kept_with orders.now rows.now kept.old.items place) }
    ensures refused { IfErr result (λ fault. fault ≡ Fault.Memory) }
{
    if !is_kept(rows, orders, kept.as_slice(), place) {
        kept.push(place)?;
    }
    Ok(())
}

/// The first of neighbours whose rows have the same results.
fn firsts(
    alloc: Global,
    places: Vec<usize>,
    rows: &[FoundRow],
    orders: &[SortOrder],
) -> R<Vec<usize>>
    ensures kept { IfOk result (λ kept. kept.items ≡ kept_after orders.now rows.now [] places.items) }
    ensures refused { IfErr result (λ fault. fault ≡ Fault.Memory) }
{
    let mut kept = Vec::new(alloc);
    'places: for place in places {
        keep(&mut kept, rows, orders, place)?;
    }
    Ok(kept)
}

/// The places of the rows whose results equal no earlier one's.
fn distinct_places(alloc: Global, rows: &[FoundRow], orders: &[SortOrder]) -> R<Vec<usize>>
    ensures distinct { IfOk result (λ places. places.items
        ≡ distinct (tie_at orders.now rows.now) (range_with_len 0 (length rows.now))) }
    ensures refused { IfErr result (λ fault. fault ≡ Fault.Memory) }
{
    let mut places = each_place(alloc, rows.len())?;
    sort_by_results(&mut places, rows, orders)?;
    let mut kept = firsts(alloc, places, rows, orders)?;
    sort_rising(&mut kept)?;
    Ok(kept)
}

/// Takes the rows at rising places to the front, and lets go of the others.
fn keep_rows(rows: &mut Vec<FoundRow>, places: &[usize])
    requires { AreRisingPlaces 0 (length rows.old.items) places.now }
    ensures { map Some rows.new.items ≡ map (slice_get rows.old.items) places.now }
{
    'places: for index in 0..places.len() {
        rows.swap(index, places[index]);
    }
    rows.truncate(places.len());
}

/// The rows without those whose results equal an earlier one's.
pub fn distinct_rows(alloc: Global, found: Vec<FoundRow>, orders: &[SortOrder]) -> R<Vec<FoundRow>>
    ensures distinct { IfOk result (λ rows. rows.items ≡ distinct (have_same_results orders.now) found.items) }
    ensures refused { IfErr result (λ fault. fault ≡ Fault.Memory) }
{
    let mut rows = found;
    let places = distinct_places(alloc, rows.as_slice(), orders)?;
    keep_rows(&mut rows, places.as_slice());
    Ok(rows)
}
