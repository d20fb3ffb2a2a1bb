//! What a query of one source gives of its rows, part after part.

ghost use Rattle.std.specs.Prelude.{◌≡◌, ◌||◌, ◌∷◌, ◌++◌, [], List, Ok, IfErr, IsTrue, map, true};
ghost use Rattle.sqlval.specs.Faults.{IsNotDiskFault};
ghost use Rattle.sqlval.specs.Refusals.{◌then◌};
ghost use Rattle.query_terms.specs.Outcome.{AnswersBy};
ghost use Rattle.query_terms.specs.Rows.{picked_rows};
ghost use Rattle.query_terms.specs.Values.{Row};
ghost use Rattle.query_answer.specs.Nesting.{Found, filtered_by, kept_row, onto};
ghost use Rattle.query_answer.specs.Parts as meant;
ghost use Rattle.query_answer.specs.Parts.{FollowOneAnother, GivesInOrder, HaveKeys, StayRefused, kept_of, of_row, of_rows, part_of};

use crate::nesting::{Loops, condition_of, is_left, joins};
use crate::results::{FoundRow, found_row};
use crate::tallied::keep_in_group;
use query_filter::Filter;
use query_groups::{GroupTallies, are_of_group};
use query_names::{Condition, Reading};
use query_terms::SourceRow;
use query_totals::{Tally, add_row, are_totals, no_rows};
use sqlval::{Fault, Many, Misuse, Name, R};
use std::alloc::Global;
use std::array::from_ref;
use std::marker::Model;

/// What a query has kept of the rows so far: contracts see what it gives of each, with what that is sorted by, what it keeps of each aggregate where it
/// gives nothing but aggregates of all rows, and what it keeps of each group where it gives nothing but keys and aggregates of these.
#[derive(Drop)]
pub struct GivenRows {
    pub(crate) rows: Vec<FoundRow>,
    pub(crate) tallies: Vec<Tally>,
    pub(crate) groups: GroupTallies,
}

impl Model for GivenRows {
    ghost use Rattle.std.specs.Prelude.{map};
    ghost use Rattle.query_answer.specs.Nesting.{shown};
    ghost use Rattle.query_answer.specs.Parts.{Kept};

    ghost Value = { Kept };

    ghost view = { λ given. (map shown given.rows.items, given.tallies.items, given.groups) };
}

impl GivenRows {
    ghost use Rattle.std.specs.Prelude.{◌≡◌, [], Ok, true};
    ghost use Rattle.sqlval.specs.Faults.{IsOrMemory};
    ghost use Rattle.query_answer.specs.Parts.{is_row_by_row, part_of};

    /// What a query has kept before the first row. (`Memory`.)
    pub fn new(alloc: Global, reading: &Reading) -> R<GivenRows>
        ensures { IsOrMemory (λ given. is_row_by_row reading.now ≡ true → part_of reading.now [] ≡ Ok given) result }
    {
        let rows = Vec::new(alloc);
        let tallies = if reading.is_grouped && reading.keys.len() == 0 {
            no_rows(alloc, reading.results.as_slice())?
        } else {
            Vec::new(alloc)
        };
        let groups = GroupTallies::new(alloc);
        Ok(GivenRows {
            rows,
            tallies,
            groups,
        })
    }
}

/// Whether there is one source, whose rows no row of NULLs stands in for.
fn is_alone(sources: &[(Name, Condition)]) -> bool
    ensures { result ≡ meant.is_alone sources.now }
{
    match sources {
        [(_, condition)] => !is_left(condition),
        _ => false,
    }
}

/// Whether a query that makes groups gives nothing but aggregates of all its rows.
fn is_of_totals(reading: &Reading) -> bool
    ensures { result ≡ meant.is_of_totals reading.now }
{
    reading.keys.len() == 0 && reading.order.len() == 0 && are_totals(reading.results.as_slice())
}

/// Whether a query with keys gives nothing but keys and aggregates of each group, in the order of the keys.
fn is_of_groups(reading: &Reading) -> bool
    ensures { result ≡ meant.is_of_groups reading.now }
{
    reading.keys.len() != 0 && reading.order.len() == 0 && are_of_group(reading.results.as_slice())
}

/// Whether a query that makes groups needs no row of them.
fn is_tallied(reading: &Reading) -> bool
    ensures { result ≡ (meant.is_of_totals reading.now || meant.is_of_groups reading.now) }
{
    is_of_totals(reading) || is_of_groups(reading)
}

/// Whether a query takes its rows one by one: it has one source, and makes no groups, or gives nothing but aggregates of all rows, or keys and aggregates of
/// each group.
pub fn is_row_by_row(reading: &Reading) -> bool
    ensures { result ≡ meant.is_row_by_row reading.now }
{
    (!reading.is_grouped || is_tallied(reading)) && is_alone(reading.sources.as_slice())
}

/// Whether a query gives a row for each row of its only source that WHERE keeps, in their order.
pub fn gives_in_order(reading: &Reading) -> bool
    ensures is { IsTrue result → GivesInOrder reading.now }
    ensures only { GivesInOrder reading.now → IsTrue result }
{
    if reading.is_grouped || reading.distinct || reading.limit.is_some() {
        return false;
    }
    reading.order.len() == 0 && is_alone(reading.sources.as_slice())
}

/// Keeps a row that WHERE keeps: what is given of it, or its values in each aggregate, of its group where there are keys.
fn keep_row(alloc: Global, loops: Loops<'_>, picked: &[usize], found: &mut GivenRows) -> R<()>
    requires { meant.is_row_by_row loops.reading.now ≡ true }
    ensures { (before : List Found) → HaveKeys loops.entry.reading.now before
        → found.old ≡ kept_of loops.entry.reading.now before
        → AnswersBy (λ u. found.new) (kept_row loops.entry.reading.now
        (picked_rows loops.entry.sources.now picked.now) then λ f. Ok (kept_of loops.entry.reading.now (before ++ f ∷ []))) result }
{
    let env = loops.env(picked);
    if !loops.reading.is_grouped {
        found.rows.push(found_row(alloc, loops.reading, env)?)?;
        return Ok(());
    }
    if loops.reading.keys.len() == 0 {
        let terms = loops.reading.results.as_slice();
        add_row(alloc, terms, env, &mut found.tallies)
    } else {
        keep_in_group(alloc, loops.reading, env, &mut found.groups)
    }
}

/// Keeps the row at a place, where it joins and WHERE keeps it.
fn give_row(
    alloc: Global,
    loops: Loops<'_>,
    condition: &Condition,
    index: usize,
    found: &mut GivenRows,
) -> R<()>
    requires { meant.is_row_by_row loops.reading.now ≡ true }
    ensures { (before : List Found) → HaveKeys loops.entry.reading.now before
        → found.old ≡ kept_of loops.entry.reading.now before
        → AnswersBy (λ u. found.new)
        (onto before (of_row (filtered_by loops.entry.filter.now loops.entry.reading.now) condition.now
        (picked_rows loops.entry.sources.now (index ∷ []))) then λ all. Ok (kept_of loops.entry.reading.now all)) result }
{
    let picked = [index];
    if !joins(alloc, loops, picked.as_slice(), condition)? {
        return Ok(());
    }
    if loops.filter.passes(alloc, loops.env(picked.as_slice()))? {
        keep_row(alloc, loops, picked.as_slice(), found)?;
    }
    Ok(())
}

/// Keeps each of these rows.
fn give_each(
    alloc: Global,
    loops: Loops<'_>,
    condition: &Condition,
    rows: &[SourceRow],
    found: &mut GivenRows,
) -> R<()>
    requires sources { loops.sources.now ≡ rows.now ∷ [] }
    requires row_by_row { meant.is_row_by_row loops.reading.now ≡ true }
    ensures { (before : List Found) → HaveKeys loops.entry.reading.now before
        → found.old ≡ kept_of loops.entry.reading.now before
        → AnswersBy (λ u. found.new)
        (onto before (of_rows (filtered_by loops.entry.filter.now loops.entry.reading.now) condition.now
        rows.now) then λ all. Ok (kept_of loops.entry.reading.now all)) result }
{
    'rows: for index in 0..rows.len() {
        give_row(alloc, loops, condition, index, found)?;
    }
    Ok(())
}

/// A query over these rows of its only source.
pub(crate) fn loops_over<'a>(
    reading: &'a Reading,
    filter: &'a Filter<'a>,
    rows: &'a Many<SourceRow>,
) -> Loops<'a>
    ensures filter { result.filter.now ≡ filter.now }
    ensures reading { result.reading.now ≡ reading.now }
    ensures sources { result.sources.now ≡ rows.now ∷ [] }
{
    Loops {
        reading,
        sources: from_ref(rows).as_slice(),
        outer: &[],
        lookups: &[],
        filter,
    }
}

/// Keeps these rows of the only source.
fn give_part(
    alloc: Global,
    reading: &Reading,
    filter: &Filter<'_>,
    rows: &Many<SourceRow>,
    found: &mut GivenRows,
) -> R<()>
    requires { meant.is_row_by_row reading.now ≡ true }
    ensures given { filter.now ≡ reading.now.filter → (before : List Row) → part_of reading.now before ≡ Ok found.old
        → AnswersBy (λ u. found.new) (part_of reading.now (before ++ rows.now)) result }
    ensures not_disk { filter.now ≡ reading.now.filter → (before : List Row) → part_of reading.now before ≡ Ok found.old
        → IfErr result IsNotDiskFault }
{
    let condition = condition_of(reading.sources.as_slice(), 0);
    let loops = loops_over(reading, filter, rows);
    give_each(alloc, loops, condition, rows.as_slice(), found)
}

/// Adds what a query, with its WHERE prepared, keeps of these rows of its only source to what it kept of those before them; or the first
/// refusal of these. A query that isn't row by row is refused.
pub fn give_rows(
    alloc: Global,
    reading: &Reading,
    filter: &Filter<'_>,
    rows: &Many<SourceRow>,
    found: &mut GivenRows,
) -> R<()>
    ensures given { meant.is_row_by_row reading.now ≡ true → filter.now ≡ reading.now.filter → (before : List Row)
        → part_of reading.now before ≡ Ok found.old
        → AnswersBy (λ u. found.new) (part_of reading.now (before ++ rows.now)) result }
    ensures not_disk { meant.is_row_by_row reading.now ≡ true → filter.now ≡ reading.now.filter → (before : List Row)
        → part_of reading.now before ≡ Ok found.old → IfErr result IsNotDiskFault }
{
    if !is_row_by_row(reading) {
        return Err(Fault::Misuse(Misuse::Count));
    }
    give_part(alloc, reading, filter, rows, found)
}

/// What is refused of some rows of a query's source is refused of these and more.
pub fn rows_are_given_in_parts()
    ensures { StayRefused }
{}

/// A query that gives each row by itself is answered over rows as over some and then over the others.
pub fn parts_follow_one_another()
    ensures { FollowOneAnother }
{}
