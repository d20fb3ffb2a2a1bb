//! What is kept of each group, under the bytes of its keys.

ghost use Rattle.std.specs.Prelude.{◌≡◌, ◌++◌, ◌∷◌, [], All, IfErr, List, None, Ok, OnOk, length, map, option_map, slice_get, unwrap_or};
ghost use Rattle.std.specs.BTreeMap.{get_by};
ghost use Rattle.sqlval.specs.Faults.{IsOrMemory};
ghost use Rattle.sqlval.specs.Fields.{value_of};
ghost use Rattle.sqlval.specs.Refusals.{◌then◌};
ghost use Rattle.sqlval.specs.declared.collation.Collation.TheVariants.{Binary};
ghost use Rattle.sqlval.specs.declared.value.Value.TheVariants.{Null};
ghost use Rattle.sort_keys.specs.Keys.{AreBytes, IsHeld, prefix_number, values_key};
ghost use Rattle.sort_keys.specs.Laws.{PrefixesStandFirst};
ghost use Rattle.query_terms.specs.Outcome.{AnswersBy};
ghost use Rattle.query_terms.specs.Rows.{seen};
ghost use Rattle.query_terms.specs.Terms as tree;
ghost use Rattle.query_terms.specs.Terms.{Term as Meant};
ghost use Rattle.query_terms.specs.Values.{Row};
ghost use Rattle.query_names.specs.Readings.{sort_keys};
ghost use Rattle.query_totals.specs.Totals.{alone, arguments_at};
ghost use Rattle.query_groups.specs.Groups.{AreAsLong, Keyed, entries_kept, listed};
ghost use Rattle.query_groups.specs.Keeping.{AllSome, HasPrefix, HaveHeldKeys, HoldGroups, TakesArguments, by_bytes, key_order, put_last, seen_entries};

use query_terms::{Env, Term, collation};
use query_totals::{Tally, no_rows};
use sort_keys::{keys_stand_as_values, prefix_of, put_key};
use sqlval::{Collation, Fault, Field, Many, R, Value};
use std::alloc::Global;
use std::collections::BTreeMap;
use std::marker::Model;

/// What is kept of a group: the keys of its first row, and of each aggregate as much as it takes to give it.
#[derive(Drop)]
pub(crate) struct Group {
    pub(crate) keys: Many<Value>,
    pub(crate) tallies: Vec<Tally>,
}

/// The bytes of a group's keys, with the number that the first sixteen spell, which tells most keys apart.
#[derive(Drop, PartialEq, Eq, PartialOrd, Ord)]
pub(crate) struct GroupKey {
    pub(crate) prefix: u128,
    pub(crate) bytes: Vec<u8>,
}

/// What is kept of each group of the rows so far, and no row: contracts see a list of entries in order, of each group the bytes of its
/// keys, these, and what is kept of each aggregate.
#[derive(Drop)]
pub struct GroupTallies {
    /// The key of a row, while its group is looked up.
    pub(crate) key: GroupKey,
    pub(crate) by_key: BTreeMap<GroupKey, Group>,
}

impl Model for GroupTallies {
    ghost use Rattle.std.specs.Prelude.{List};
    ghost use Rattle.query_groups.specs.Groups.{Entry};

    ghost Value = { List Entry };

    ghost use Rattle.query_groups.specs.Keeping.{HaveHeldKeys, seen_entries};

    ghost view = { λ a. seen_entries a.by_key.entries };

    ghost invariant = { λ a. HaveHeldKeys a.by_key.entries };
}

impl GroupTallies {
    /// What is kept before the first row.
    pub fn new(alloc: Global) -> GroupTallies
        ensures { result ≡ [] }
    {
        GroupTallies {
            key: GroupKey {
                prefix: 0,
                bytes: Vec::new(alloc),
            },
            by_key: BTreeMap::new(alloc),
        }
    }

    /// The groups in order, each with its keys and what is kept of each aggregate. (`Memory`.)
    pub fn into_groups(self, alloc: Global) -> R<Vec<(Many<Value>, Vec<Tally>)>>
        ensures { IsOrMemory (λ groups. listed groups.items ≡ map (λ e. e.1) self) result }
    {
        in_order(alloc, self.by_key)
    }
}

/// What is kept of each group, in order. (`Memory`.)
fn in_order(alloc: Global, by_key: BTreeMap<GroupKey, Group>) -> R<Vec<(Many<Value>, Vec<Tally>)>>
    ensures { IsOrMemory (λ groups. listed groups.items ≡ map (λ e. e.1) (seen_entries by_key.entries)) result }
{
    let mut groups = Vec::with_capacity(alloc, by_key.len())?;
    'groups: for group in by_key.into_values() {
        groups.push((group.keys, group.tallies))?;
    }
    Ok(groups)
}

/// The value at a place, NULL past the last.
pub(crate) fn field_at(values: &[Value], place: usize) -> Field<'_>
    ensures { value_of result ≡ unwrap_or (slice_get values.now place) Null }
{
    match values.get(place) {
        Some(value) => value.as_field(),
        None => Field::Null,
    }
}

/// The collation of a key, BINARY past the last expression.
fn collation_at(key_terms: &[Term], place: usize) -> Collation
    ensures { result ≡ unwrap_or (option_map tree.collation (slice_get key_terms.now place)) Binary }
{
    match key_terms.get(place) {
        Some(term) => collation(term),
        None => Collation::Binary,
    }
}

/// The number that the first sixteen bytes spell.
pub(crate) fn prefix_at(bytes: &[u8]) -> u128
    ensures number { result ≡ prefix_number bytes.now }
    ensures bytes { AreBytes bytes.now }
{
    prefix_of(bytes)
}

/// Writes the bytes of a row's keys.
fn put_keys(out: &mut Vec<u8>, key_terms: &[Term], keys: &[Value]) -> R<()>
    ensures bytes { length keys.now ≡ length key_terms.now
        → OnOk result (out.new.items ≡ out.old.items ++ values_key (sort_keys key_terms.now) keys.now) }
    ensures held { OnOk result (All IsHeld keys.now) }
    ensures memory { IfErr result (λ fault. fault ≡ Fault.Memory) }
{
    'places: for place in 0..keys.len() {
        put_key(
            out,
            collation_at(key_terms, place),
            false,
            field_at(keys, place),
        )?;
    }
    Ok(())
}

/// A group of its own for a row.
pub(crate) fn begin_group(
    alloc: Global,
    terms: &[Term],
    keys: Many<Value>,
    env: Env<'_>,
    key: &GroupKey,
    by_key: &mut BTreeMap<GroupKey, Group>,
) -> R<()>
    ensures put { (ks : List Meant) (groups : List (List Keyed)) (now : List Row) → seen env.entry ≡ alone now
        → HasPrefix key.now → key.now.bytes.items ≡ values_key (sort_keys ks) keys → AllSome groups → HoldGroups ks terms.now by_key.old.entries groups
        → get_by (key_order key.now) by_key.old ≡ None
        → PrefixesStandFirst → TakesArguments terms.now now (HoldGroups ks terms.now by_key.new.entries (put_last (by_bytes ks) (keys, now) groups)) result }
    ensures held { HasPrefix key.now → All IsHeld keys → HaveHeldKeys by_key.old.entries → HaveHeldKeys by_key.new.entries }
{
    let mut tallies = no_rows(alloc, terms)?;
    query_totals::add_row(alloc, terms, env, &mut tallies)?;
    let key = GroupKey {
        prefix: key.prefix,
        bytes: Vec::from_slice(alloc, key.bytes.as_slice())?,
    };
    by_key.insert(key, Group { keys, tallies })?;
    Ok(())
}

/// A row comes to its group, or to a group of its own.
fn put_row(
    alloc: Global,
    terms: &[Term],
    keys: Many<Value>,
    env: Env<'_>,
    key: &GroupKey,
    by_key: &mut BTreeMap<GroupKey, Group>,
) -> R<()>
    ensures put { (ks : List Meant) (groups : List (List Keyed)) (now : List Row) → seen env.entry ≡ alone now
        → HasPrefix key.now → key.now.bytes.items ≡ values_key (sort_keys ks) keys → AllSome groups → HoldGroups ks terms.now by_key.old.entries groups
        → PrefixesStandFirst → TakesArguments terms.now now (HoldGroups ks terms.now by_key.new.entries (put_last (by_bytes ks) (keys, now) groups)) result }
    ensures held { HasPrefix key.now → All IsHeld keys → HaveHeldKeys by_key.old.entries → HaveHeldKeys by_key.new.entries }
{
    match by_key.get_mut(key) {
        Some(group) => query_totals::add_row(alloc, terms, env, &mut group.tallies),
        None => begin_group(alloc, terms, keys, env, key, by_key),
    }
}

/// One more row comes to its group, or begins one; or the first of its arguments that is refused.
pub fn add_row(
    alloc: Global,
    key_terms: &[Term],
    terms: &[Term],
    keys: Many<Value>,
    env: Env<'_>,
    groups: &mut GroupTallies,
) -> R<()>
    ensures { (before : List Keyed) (now : List Row) → seen env.entry ≡ alone now → (length key_terms.now ≡ 0 → ⊥)
        → AreAsLong key_terms.now before → length keys ≡ length key_terms.now
        → groups.old ≡ entries_kept key_terms.now terms.now before
        → AnswersBy (λ u. groups.new) (arguments_at terms.now now then
        λ vs. Ok (entries_kept key_terms.now terms.now (before ++ (keys, now) ∷ []))) result }
{
    keys_stand_as_values();
    groups.key.bytes.clear();
    put_keys(&mut groups.key.bytes, key_terms, keys.as_slice())?;
    groups.key.prefix = prefix_at(groups.key.bytes.as_slice());
    put_row(alloc, terms, keys, env, &groups.key, &mut groups.by_key)
}
