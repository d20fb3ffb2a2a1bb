//! A row whose keys are evaluated where it comes to its group.

ghost use Rattle.std.specs.Prelude.{◌≡◌, ◌++◌, ◌∷◌, [], List, Ok, OnOk, length};
ghost use Rattle.std.specs.List.{AllByRecursion};
ghost use Rattle.sqlval.specs.Refusals.{◌then◌};
ghost use Rattle.sqlval.specs.declared.value.Value.{Value as Kept};
ghost use Rattle.sort_keys.specs.Keys.{values_key};
ghost use Rattle.sort_keys.specs.Laws.{PrefixesStandFirst};
ghost use Rattle.query_terms.specs.Outcome.{AnswersBy};
ghost use Rattle.query_terms.specs.Rows.{seen};
ghost use Rattle.query_terms.specs.Values.{Row};
ghost use Rattle.query_names.specs.Readings.{sort_keys, values};
ghost use Rattle.query_totals.specs.Totals.{alone, arguments_at};
ghost use Rattle.query_groups.specs.Groups.{AreAsLong, Keyed, entries_kept};
ghost use Rattle.query_groups.specs.Keeping.{AllSome, HasPrefix, HaveHeldKeys, HoldGroups, IsHeldAt, TakesArguments, by_bytes, put_last};

use crate::kept::{Group, GroupKey, GroupTallies, begin_group, prefix_at};
use query_terms::{Env, Term, collation, evaluate};
use sort_keys::{keys_stand_as_values, put_key};
use sqlval::{Many, R, Value};
use std::alloc::Global;
use std::collections::BTreeMap;

/// Writes the bytes of a row's keys; or the first of them that is refused.
fn put_keys_at(alloc: Global, out: &mut Vec<u8>, key_terms: &[Term], env: Env<'_>) -> R<()>
    ensures told { AnswersBy (λ u. out.new.items)
        (values (seen env.entry) key_terms.now then λ keys. Ok (out.old.items ++ values_key (sort_keys key_terms.now) keys)) result }
    ensures held { OnOk result (AllByRecursion (IsHeldAt (seen env.entry)) key_terms.now) }
{
    'terms: for term in key_terms {
        let value = evaluate(alloc, term, env)?;
        put_key(out, collation(term), false, value.as_field())?;
    }
    Ok(())
}

/// A row's keys; or the first of them that is refused.
fn keys_at(alloc: Global, key_terms: &[Term], env: Env<'_>) -> R<Many<Value>>
    ensures { AnswersBy (λ keys. keys) (values (seen env.entry) key_terms.now) result }
{
    let mut keys = Vec::with_capacity(alloc, key_terms.len())?;
    'terms: for term in key_terms {
        keys.push(evaluate(alloc, term, env)?.into_value(alloc)?)?;
    }
    Ok(Many::from_vec(keys))
}

/// A row comes to its group, or to a group of its own, which alone has its keys evaluated as values.
fn put_found(
    alloc: Global,
    key_terms: &[Term],
    terms: &[Term],
    env: Env<'_>,
    key: &GroupKey,
    by_key: &mut BTreeMap<GroupKey, Group>,
) -> R<()>
    ensures put { (groups : List (List Keyed)) (now : List Row) (keys : List Kept) → seen env.entry ≡ alone now
        → values (seen env.entry) key_terms.now ≡ Ok keys → HasPrefix key.now
        → key.now.bytes.items ≡ values_key (sort_keys key_terms.now) keys
        → AllSome groups → HoldGroups key_terms.now terms.now by_key.old.entries groups
        → PrefixesStandFirst → TakesArguments terms.now now
        (HoldGroups key_terms.now terms.now by_key.new.entries (put_last (by_bytes key_terms.now) (keys, now) groups)) result }
    ensures held { AllByRecursion (IsHeldAt (seen env.entry)) key_terms.now → HasPrefix key.now
        → HaveHeldKeys by_key.old.entries → HaveHeldKeys by_key.new.entries }
{
    match by_key.get_mut(key) {
        Some(group) => query_totals::add_row(alloc, terms, env, &mut group.tallies),
        None => {
            let keys = keys_at(alloc, key_terms, env)?;
            begin_group(alloc, terms, keys, env, key, by_key)
        }
    }
}

/// One more row, whose keys are evaluated here, comes to its group, or begins one; or the first refusal of its keys, and then of its arguments.
pub fn take_row(
    alloc: Global,
    key_terms: &[Term],
    terms: &[Term],
    env: Env<'_>,
    groups: &mut GroupTallies,
) -> R<()>
    ensures { (before : List Keyed) (now : List Row) → seen env.entry ≡ alone now → (length key_terms.now ≡ 0 → ⊥)
        → AreAsLong key_terms.now before → groups.old ≡ entries_kept key_terms.now terms.now before
        → AnswersBy (λ u. groups.new) (values (alone now) key_terms.now then λ keys. arguments_at terms.now now then
        λ vs. Ok (entries_kept key_terms.now terms.now (before ++ (keys, now) ∷ []))) result }
{
    keys_stand_as_values();
    groups.key.bytes.clear();
    put_keys_at(alloc, &mut groups.key.bytes, key_terms, env)?;
    groups.key.prefix = prefix_at(groups.key.bytes.as_slice());
    put_found(
        alloc,
        key_terms,
        terms,
        env,
        &groups.key,
        &mut groups.by_key,
    )
}
