//! What is kept of an aggregate's arguments.

ghost use Rattle.std.specs.Prelude.{◌≡◌, ◌≤◌, ◌^◌, ◌+◌, ◌+ℤ◌, ◌++◌, ◌∷◌, [], FitsSigned, IfErr, List, Ok, count_by, if◌then◌else◌, not};
ghost use Rattle.std.specs.Int.{w128};
ghost use Rattle.sqlval.specs.Conversion.{word as word_of};
ghost use Rattle.sqlval.specs.Faults.{IsOrMemory};
ghost use Rattle.sqlval.specs.Fields.{value_of};
ghost use Rattle.sqlval.specs.Refusals.{◌then◌};
ghost use Rattle.sqlval.specs.declared.value.Value.{Value as Meant};
ghost use Rattle.query_terms.specs.Outcome.{Answers, AnswersBy};
ghost use Rattle.query_terms.specs.Rows.{better_of};
ghost use Rattle.query_terms.specs.Values.{aggregated, counted, is_null};
ghost use Rattle.query_terms.specs.declared.tree.Aggregate.{Aggregate as Kind};
ghost use Rattle.query_terms.specs.declared.tree.Aggregate.TheVariants as kind;
ghost use Rattle.query_totals.specs.Tallies.{given_by, improves, sum_with, tally_of, tally_with};

use query_terms::Aggregate;
use sqlval::{Collation, Fault, Field, R, Value, compare_fields};
use std::alloc::Global;

/// What is kept of an aggregate's arguments so far: as much as it takes to give the aggregate, and no row.
#[derive(Drop)]
pub enum Tally {
    /// Of `count(*)`: how many rows there were.
    Rows(u64),
    /// Of `count`: how many values weren't NULL.
    Values(u64),
    /// Of `sum`: the exact sum of the integers, none where all values were NULL.
    Sum(Option<i128>),
    /// Of `min`, or of `max` where the flag is true: the first value that none is before, NULL where all were.
    Best(bool, Collation, Value),
}

/// One more. (`Memory` after 2^64 - 1.)
fn one_more(count: u64) -> R<u64>
    ensures more { IsOrMemory (λ more. more ≡ count + 1) result }
    ensures refused { IfErr result (λ fault. 2 ^ 64 ≤ count + 1) }
{
    count.checked_add(1).ok_or(Fault::Memory)
}

/// One more, if the value isn't NULL. (`Memory` after 2^64 - 1.)
fn one_more_value(count: u64, value: Field<'_>) -> R<u64>
    ensures { IsOrMemory (λ more. more ≡ count + count_by (λ v. not (is_null v)) (value_of value.entry ∷ [])) result }
{
    match value {
        Field::Null => Ok(count),
        _ => one_more(count),
    }
}

/// The exact sum of two. (`Memory` past 128 bits.)
fn sum_of_two(sum: i128, number: i64) -> R<i128>
    ensures total { IsOrMemory (λ total. total ≡ sum +ℤ number) result }
    ensures refused { IfErr result (λ fault. FitsSigned w128 (sum +ℤ number) → ⊥) }
{
    sum.checked_add(i128::from(number)).ok_or(Fault::Memory)
}

/// The sum with one more value. (`Memory` past 128 bits.)
fn added(sum: Option<i128>, value: Field<'_>) -> R<Option<i128>>
    ensures { AnswersBy (λ sum. sum) (counted kind.Sum (value_of value.entry) then λ v. Ok (sum_with sum v)) result }
{
    match value {
        Field::Null => Ok(sum),
        Field::Int(number) => Ok(Some(sum_of_two(sum.unwrap_or(0), number)?)),
        _ => Err(Fault::TypeRefused),
    }
}

/// Whether a value is less than the least so far, or greater than the greatest.
fn improves_on(is_max: bool, collation: Collation, value: Field<'_>, best: Field<'_>) -> bool
    ensures { result ≡ improves is_max collation (value_of value.entry) (value_of best.entry) }
{
    match (value, best) {
        (Field::Null, _) => false,
        (_, Field::Null) => true,
        _ => {
            let order = compare_fields(value, best, collation);
            if is_max { order.is_gt() } else { order.is_lt() }
        }
    }
}

/// Whether a value is better than the best so far.
fn is_better(is_max: bool, collation: Collation, value: Field<'_>, best: Field<'_>) -> bool
    ensures { better_of is_max collation (value_of best.entry) (value_of value.entry) ≡ if result then value_of value.entry else value_of best.entry }
{
    improves_on(is_max, collation, value, best)
}

/// The better of a value and of the best so far is kept. (`Memory`.)
fn improve(
    alloc: Global,
    is_max: bool,
    collation: Collation,
    value: Field<'_>,
    best: &mut Value,
) -> R<()>
    ensures { IsOrMemory (λ u. best.new ≡ better_of is_max collation best.old (value_of value.entry)) result }
{
    if is_better(is_max, collation, value, best.as_field()) {
        *best = value.to_value(alloc)?;
    }
    Ok(())
}

/// The integer of a number within 64 bits.
fn word(number: i128) -> R<Value>
    ensures given { Answers (word_of number) result }
    ensures refused { IfErr result (λ fault. fault ≡ Fault.RealRefused) }
{
    match i64::try_from(number) {
        Ok(number) => Ok(Value::Int(number)),
        Err(_) => Err(Fault::RealRefused),
    }
}

impl Tally {
    /// What is kept of an aggregate before its first row.
    pub fn new(aggregate: Aggregate, collation: Collation) -> Tally
        ensures { result ≡ tally_of aggregate collation [] }
    {
        match aggregate {
            Aggregate::CountAll => Tally::Rows(0),
            Aggregate::Count => Tally::Values(0),
            Aggregate::Sum => Tally::Sum(None),
            Aggregate::Min => Tally::Best(false, collation, Value::Null),
            Aggregate::Max => Tally::Best(true, collation, Value::Null),
        }
    }

    /// One more row has this argument; `count(*)` has NULL there. Refused as the argument is. (`Memory`.)
    pub fn add(&mut self, alloc: Global, value: Field<'_>) -> R<()>
        ensures { (g : Kind) (c : Collation) (vs : List Meant) → self.old ≡ tally_of g c vs
            → AnswersBy (λ u. self.new) (counted g (value_of value.entry) then λ v. Ok (tally_of g c (vs ++ v ∷ []))) result }
    {
        self.take(alloc, value)
    }

    /// One more argument is kept, or refused. (`Memory`.)
    pub(crate) fn take(&mut self, alloc: Global, value: Field<'_>) -> R<()>
        ensures { AnswersBy (λ u. self.new) (tally_with self.old (value_of value.entry)) result }
    {
        match self {
            Tally::Rows(count) => *count = one_more(*count)?,
            Tally::Values(count) => *count = one_more_value(*count, value)?,
            Tally::Sum(sum) => *sum = added(*sum, value)?,
            Tally::Best(is_max, collation, best) => improve(
                alloc, *is_max, *collation, value, best,
            )?,
        }
        Ok(())
    }

    /// What the aggregate gives.
    pub fn given(self) -> R<Value>
        ensures given { (g : Kind) (c : Collation) (vs : List Meant) → self ≡ tally_of g c vs → Answers (aggregated g c vs) result }
        ensures refused { IfErr result (λ fault. fault ≡ Fault.RealRefused) }
    {
        self.told()
    }

    /// What the aggregate gives, by what is kept of it.
    pub(crate) fn told(self) -> R<Value>
        ensures told { Answers (given_by self) result }
        ensures refused { IfErr result (λ fault. fault ≡ Fault.RealRefused) }
    {
        match self {
            Tally::Rows(count) | Tally::Values(count) => word(i128::from(count)),
            Tally::Sum(None) => Ok(Value::Null),
            Tally::Sum(Some(total)) => word(total),
            Tally::Best(_, _, value) => Ok(value),
        }
    }
}
