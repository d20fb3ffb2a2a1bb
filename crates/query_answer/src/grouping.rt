//! Groups of rows, and what a query gives of each.

ghost use Rattle.std.specs.Prelude.{◌≡◌, ◌<◌, ◌≤◌, ◌-◌, ◌∷◌, [], IfErr, IfOk, List, Ok, drop, length, map, take};
ghost use Rattle.std.specs.List.{AllByRecursion, prefix_len};
ghost use Rattle.sqlval.specs.Lists.{groups};
ghost use Rattle.sqlval.specs.Refusals.{◌then◌};
ghost use Rattle.query_terms.specs.Outcome.{AnswersBy};
ghost use Rattle.query_terms.specs.Rows.{picked_rows, seen};
ghost use Rattle.query_names.specs.Readings as meant;
ghost use Rattle.query_answer.specs.Groups.{have_same_keys, keyed_of, of_group, of_groups, of_runs, sorted_by_keys};
ghost use Rattle.query_answer.specs.Nesting.{shown};
ghost use Rattle.query_answer.specs.Sorting.{order_of};

use crate::nesting::Loops;
use crate::results::{FoundRow, found_row};
use crate::sorting::{SortOrder, compare_values, rising_orders, sort_rows};
use query_terms::{Env, RowPlaces};
use sqlval::{Fault, R, Value};
use std::alloc::Global;

/// The place of each source's row, for each of the rows.
fn places_of(alloc: Global, rows: &[FoundRow]) -> R<Vec<RowPlaces>>
    ensures places { IfOk result (λ places. places.items ≡ map (λ r. r.picked) rows.now) }
    ensures refused { IfErr result (λ fault. fault ≡ Fault.Memory) }
{
    let mut places = Vec::with_capacity(alloc, rows.len())?;
    'rows: for row in rows {
        places.push(RowPlaces::from_slice(alloc, row.picked.as_slice())?)?;
    }
    Ok(places)
}

/// Whether two rows have the same keys.
fn has_same_keys(orders: &[SortOrder], a: &FoundRow, b: &FoundRow) -> bool
    ensures { result ≡ have_same_keys orders.now a.now b.now }
{
    compare_values(orders, a.keys.as_slice(), b.keys.as_slice()).is_eq()
}

/// How many rows from the front on have the keys of one.
fn run_length(orders: &[SortOrder], first: &FoundRow, rows: &[FoundRow]) -> usize
    ensures count { result ≡ prefix_len (have_same_keys orders.now first.now) rows.now }
    ensures within { result ≤ length rows.now }
{
    'rows: for index in 0..rows.len() {
        if !has_same_keys(orders, first, &rows[index]) {
            return index;
        }
    }
    rows.len()
}

/// Where the group ends that begins at a place.
fn group_end(orders: &[SortOrder], rows: &[FoundRow], start: usize) -> usize
    requires { start < length rows.now }
    ensures after { start < result }
    ensures within { result ≤ length rows.now }
    ensures group { groups (have_same_keys orders.now) (drop start rows.now)
        ≡ take (result - start) (drop start rows.now) ∷ groups (have_same_keys orders.now)
        (drop result rows.now) }
{
    let first = &rows[start];
    let others = &rows[start + 1..];
    start + 1 + run_length(orders, first, others)
}

/// The keys of a group: those of its first row.
fn keys_of(group: &[FoundRow]) -> &[Value]
    ensures { result.now ≡ (meant.group_env [] (map (keyed_of []) group.now)).keys }
{
    match group {
        [] => &[],
        [first, ..] => first.keys.as_slice(),
    }
}

/// What is evaluated over of a group: NEW and OLD stand beside it.
fn group_env<'a>(loops: Loops<'a>, group: &'a [FoundRow], places: &'a [RowPlaces]) -> Env<'a>
    requires { places.now ≡ map (λ r. r.picked) group.now }
    ensures { seen result ≡ meant.group_env (picked_rows loops.entry.sources.now loops.entry.outer.now)
        (map (keyed_of loops.entry.sources.now) group.entry.now) }
{
    Env {
        sources: loops.sources,
        picked: loops.outer,
        group: places,
        keys: keys_of(group),
    }
}

/// What a query gives of one group.
fn group_result(
    alloc: Global,
    loops: Loops<'_>,
    group: &[FoundRow],
    places: &[RowPlaces],
) -> R<FoundRow>
    requires { places.now ≡ map (λ r. r.picked) group.now }
    ensures { AnswersBy shown (of_group loops.entry.reading.now
        (picked_rows loops.entry.sources.now loops.entry.outer.now) loops.entry.sources.now group.now) result }
{
    found_row(alloc, loops.reading, group_env(loops, group, places))
}

/// What a query gives of all rows as one group.
fn one_group(alloc: Global, loops: Loops<'_>, rows: &[FoundRow]) -> R<Vec<FoundRow>>
    ensures { AnswersBy (λ found. map shown found.items)
        (of_group loops.entry.reading.now (picked_rows loops.entry.sources.now loops.entry.outer.now)
        loops.entry.sources.now rows.now then λ s. Ok (s ∷ [])) result }
{
    let places = places_of(alloc, rows)?;
    let mut found = Vec::new(alloc);
    found.push(group_result(alloc, loops, rows, places.as_slice())?)?;
    Ok(found)
}

/// What a query gives of each group of neighbours with the same keys.
fn each_group(
    alloc: Global,
    loops: Loops<'_>,
    orders: &[SortOrder],
    rows: &[FoundRow],
    places: &[RowPlaces],
) -> R<Vec<FoundRow>>
    requires { places.now ≡ map (λ r. r.picked) rows.now }
    ensures { AnswersBy (λ found. map shown found.items)
        (of_runs loops.entry.reading.now (picked_rows loops.entry.sources.now loops.entry.outer.now)
        loops.entry.sources.now orders.now rows.now) result }
{
    let mut found = Vec::new(alloc);
    let mut start = 0;
    'groups: while start < rows.len() {
        let end = group_end(orders, rows, start);
        let group = &rows[start..end];
        found.push(group_result(alloc, loops, group, &places[start..end])?)?;
        start = end;
    }
    Ok(found)
}

/// What a query gives of each group, in the order of the keys.
fn sorted_groups(alloc: Global, loops: Loops<'_>, found: Vec<FoundRow>) -> R<Vec<FoundRow>>
    ensures { AnswersBy (λ rows. map shown rows.items)
        (of_runs loops.entry.reading.now (picked_rows loops.entry.sources.now loops.entry.outer.now)
        loops.entry.sources.now (map order_of loops.entry.reading.now.keys)
        (sorted_by_keys (map order_of loops.entry.reading.now.keys) found.items)) result }
{
    let mut rows = found;
    let orders = rising_orders(alloc, loops.reading.keys.as_slice())?;
    sort_rows(&mut rows, orders.as_slice())?;
    let places = places_of(alloc, rows.as_slice())?;
    each_group(
        alloc,
        loops,
        orders.as_slice(),
        rows.as_slice(),
        places.as_slice(),
    )
}

/// What a query gives of each group of the rows that were kept, or of all rows where it has no keys; or the first refusal.
pub fn grouped_rows(alloc: Global, loops: Loops<'_>, found: Vec<FoundRow>) -> R<Vec<FoundRow>>
    ensures { AllByRecursion (λ r. length r.keys ≡ length loops.entry.reading.now.keys) found.items
        → AnswersBy (λ rows. map shown rows.items)
        (of_groups loops.entry.reading.now (picked_rows loops.entry.sources.now loops.entry.outer.now)
        (map (keyed_of loops.entry.sources.now) found.items)) result }
{
    if loops.reading.keys.len() == 0 {
        one_group(alloc, loops, found.as_slice())
    } else {
        sorted_groups(alloc, loops, found)
    }
}
