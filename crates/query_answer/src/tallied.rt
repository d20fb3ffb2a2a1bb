//! What a query keeps of groups whose rows come one by one, and gives of them.

ghost use Rattle.std.specs.Prelude.{◌≡◌, ◌∷◌, ◌++◌, [], IfErr, List, Ok, map, true};
ghost use Rattle.std.specs.List.{AllByRecursion, list_all};
ghost use Rattle.sqlval.specs.Faults.{IsNotDiskFault};
ghost use Rattle.sqlval.specs.Refusals.{◌then◌, all_answers};
ghost use Rattle.query_terms.specs.Outcome.{AnswersBy};
ghost use Rattle.query_terms.specs.Rows.{seen};
ghost use Rattle.query_terms.specs.Values.{Row};
ghost use Rattle.query_names.specs.Readings.{env_of};
ghost use Rattle.query_totals.specs.Totals.{AreTaken, tallies_over};
ghost use Rattle.query_groups.specs.Groups.{AreAsLong, Keyed, entries_kept, is_of_group, kept_of_group, keys_of_group, listed, rows_of_group};
ghost use Rattle.query_answer.specs.Groups.{row_of_group as meant_row};
ghost use Rattle.query_answer.specs.Nesting.{Found, grouped_row, key_and_rows, shown};
ghost use Rattle.query_answer.specs.Parts.{is_of_groups};

use crate::results::FoundRow;
use query_groups::{GroupTallies, group_values, take_row};
use query_names::Reading;
use query_terms::{Env, RowPlaces, Term};
use query_totals::Tally;
use sqlval::{Many, R, Value};
use std::alloc::Global;

/// Keeps a row in its group; or the first refusal of its keys and its values in each aggregate.
pub fn keep_in_group(
    alloc: Global,
    reading: &Reading,
    env: Env<'_>,
    groups: &mut GroupTallies,
) -> R<()>
    requires { is_of_groups reading.now ≡ true }
    ensures { (before : List Found) (now : List Row) → seen env.entry ≡ env_of now
        → AreAsLong reading.now.keys (map key_and_rows before)
        → groups.old ≡ entries_kept reading.now.keys reading.now.results (map key_and_rows before)
        → AnswersBy (λ u. groups.new) (grouped_row reading.now now then
        λ f. Ok (entries_kept reading.now.keys reading.now.results (map key_and_rows (before ++ f ∷ [])))) result }
{
    take_row(
        alloc,
        reading.keys.as_slice(),
        reading.results.as_slice(),
        env,
        groups,
    )
}

/// A row of these results, sorted by nothing.
pub fn row_alone(alloc: Global, results: Many<Value>) -> FoundRow
    ensures { shown result ≡ (results, []) }
{
    let keys = Many::new(alloc);
    let picked = RowPlaces::new(alloc);
    FoundRow {
        results,
        keys,
        picked,
    }
}

/// What expressions that are all keys or aggregates give of a group of which this is kept, as a row.
fn row_of_group(
    alloc: Global,
    terms: &[Term],
    keys: Many<Value>,
    tallies: Vec<Tally>,
) -> R<FoundRow>
    ensures given { (group : List Keyed) → list_all is_of_group terms.now ≡ true
        → AllByRecursion (AreTaken terms.now) (rows_of_group group) → keys ≡ keys_of_group group
        → tallies.items ≡ tallies_over (rows_of_group group) terms.now
        → AnswersBy shown (meant_row terms.now group) result }
    ensures not_disk { IfErr result IsNotDiskFault }
{
    let results = group_values(alloc, terms, &keys, tallies)?;
    Ok(row_alone(alloc, results))
}

/// What they give of each of these groups.
fn rows_of_each(
    alloc: Global,
    terms: &[Term],
    groups: Vec<(Many<Value>, Vec<Tally>)>,
) -> R<Vec<FoundRow>>
    ensures given { (found : List (List Keyed)) → list_all is_of_group terms.now ≡ true
        → AllByRecursion (λ group. AllByRecursion (AreTaken terms.now) (rows_of_group group)) found
        → listed groups.items ≡ map (kept_of_group terms.now) found
        → AnswersBy (λ rows. map shown rows.items) (all_answers (map (meant_row terms.now) found)) result }
    ensures not_disk { IfErr result IsNotDiskFault }
{
    let mut rows = Vec::with_capacity(alloc, groups.len())?;
    'groups: for (keys, tallies) in groups {
        rows.push(row_of_group(alloc, terms, keys, tallies)?)?;
    }
    Ok(rows)
}

/// What they give of each group of which this is kept.
pub fn rows_of_groups(alloc: Global, terms: &[Term], groups: GroupTallies) -> R<Vec<FoundRow>>
    ensures given { (found : List (List Keyed)) → list_all is_of_group terms.now ≡ true
        → AllByRecursion (λ group. AllByRecursion (AreTaken terms.now) (rows_of_group group)) found
        → map (λ e. e.1) groups ≡ map (kept_of_group terms.now) found
        → AnswersBy (λ rows. map shown rows.items) (all_answers (map (meant_row terms.now) found)) result }
    ensures not_disk { IfErr result IsNotDiskFault }
{
    let kept = groups.into_groups(alloc)?;
    rows_of_each(alloc, terms, kept)
}
