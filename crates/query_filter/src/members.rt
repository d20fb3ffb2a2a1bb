//! Lists of literals that a value is looked for in by halves.

ghost use Rattle.std.specs.Prelude.{◌≡◌, Bool, IfErr, IfOk, IfSome, List, Ok, OnOk, Some, filter, map, not, true};
ghost use Rattle.std.specs.List.{list_any};
ghost use Rattle.std.specs.List.Sorted.{IsPartitionedBy};
ghost use Rattle.std.specs.Ordering.{is_eq, is_gt, is_lt};
ghost use Rattle.sqlval.specs.Fields.{value_of};
ghost use Rattle.sqlval.specs.Lists.{sorted};
ghost use Rattle.sqlval.specs.Order.{order};
ghost use Rattle.sqlval.specs.Refusals.{◌then◌};
ghost use Rattle.query_terms.specs.Outcome.{Answers};
ghost use Rattle.query_terms.specs.Rows.{seen};
ghost use Rattle.query_terms.specs.Terms as tree;
ghost use Rattle.query_terms.specs.Terms.{terms};
ghost use Rattle.query_terms.specs.Values as meant;
ghost use Rattle.query_terms.specs.Values.{Environment};
ghost use Rattle.query_filter.specs.Literals.{are_plain, first_is, literal_value};

use crate::literals::literal_values;
use query_terms::{Env, Term, affinity, collation, evaluate};
use sqlval::{Collation, Fault, Field, R, Value, compare, compare_fields};
use std::alloc::Global;

/// Up to how many literals a list is gone over as it is written.
const FEW: usize = 8;

/// IN with a list of literals, whose values are sorted.
#[derive(Drop)]
pub(crate) struct Members<'a> {
    pub(crate) is_negated: bool,
    pub(crate) operand: &'a Term,
    pub(crate) list: &'a [Term],
    pub(crate) collation: Collation,
    pub(crate) values: Vec<Value>,
    ghost plain: { are_plain (tree.affinity operand.now) list.now ≡ true },
    ghost collated: { collation ≡ tree.collation operand.now },
    ghost kept: { values.items ≡ sorted (order collation) (map literal_value list.now) },
}

/// Sorts values.
fn sort_values(values: &mut Vec<Value>, collation: Collation) -> R<()>
    ensures sorted { OnOk result (values.new.items ≡ sorted (order collation) values.old.items) }
    ensures refused { IfErr result (λ fault. fault ≡ Fault.Memory) }
{
    values.sort_by(|a, b| compare(a, b, collation))?;
    Ok(())
}

/// Those of sorted values that aren't before a value.
fn from_value<'a>(values: &'a [Value], collation: Collation, value: Field<'_>) -> &'a [Value]
    requires { IsPartitionedBy (λ v. is_lt (order collation v (value_of value))) values.now }
    ensures { result.now ≡ filter (λ v. not (is_lt (order collation v (value_of value.entry)))) values.entry.now }
{
    let start = values.partition_point(|v| compare_fields(v.as_field(), value, collation).is_lt());
    &values[start..]
}

/// Whether there is a first of these values, and it isn't after a value.
fn begins_within(values: &[Value], collation: Collation, value: Field<'_>) -> bool
    ensures { result ≡ first_is (λ v. not (is_gt (order collation v (value_of value.entry)))) values.now }
{
    match values.first() {
        Some(first) => !compare_fields(first.as_field(), value, collation).is_gt(),
        None => false,
    }
}

/// The other truth, where NOT is written; NULL stays NULL.
fn turned(is_negated: bool, truth: Option<bool>) -> Option<bool>
    ensures { meant.turned is_negated (meant.of_truth truth) ≡ Ok (meant.of_truth result) }
{
    match truth {
        Some(is_true) if is_negated => Some(!is_true),
        _ => truth,
    }
}

impl<'a> Members<'a> {
    ghost use Rattle.query_filter.specs.Sides.{holding, member_term};

    /// IN with a long list of literals; None of another list. (`Memory`.)
    pub(crate) fn of(
        alloc: Global,
        is_negated: bool,
        operand: &'a Term,
        list: &'a [Term],
    ) -> R<Option<Members<'a>>>
        ensures made { IfOk result (λ found. IfSome found (λ members.
            member_term members ≡ tree.In is_negated operand.now (terms list.now))) }
        ensures refused { IfErr result (λ fault. fault ≡ Fault.Memory) }
    {
        if list.len() <= FEW {
            return Ok(None);
        }
        let Some(mut values) = literal_values(alloc, affinity(operand), list)? else {
            return Ok(None);
        };
        let collation = collation(operand);
        sort_values(&mut values, collation)?;
        Ok(Some(Members {
            is_negated,
            operand,
            list,
            collation,
            values,
        }))
    }

    /// Whether a value is one of them.
    fn has(&self, value: Field<'_>) -> bool
        ensures { result ≡ list_any (λ v. is_eq (order self.now.collation v (value_of value.entry))) (map literal_value self.now.list.now) }
    {
        let rest = from_value(self.values.as_slice(), self.collation, value);
        begins_within(rest, self.collation, value)
    }

    /// Whether a value is among those of the list: false, or NULL for a NULL.
    fn found(&self, value: Field<'_>) -> Option<bool>
        ensures { (env : Environment) → meant.value_among self.now.operand.now (value_of value.entry)
            (terms self.now.list.now) env ≡ Ok (meant.of_truth result) }
    {
        match value {
            Field::Null if self.list.is_empty() => Some(false),
            Field::Null => None,
            _ => Some(self.has(value)),
        }
    }

    /// Whether IN is true, or neither true nor false; or the operand's refusal.
    pub(crate) fn holds(&self, alloc: Global, env: Env<'_>) -> R<Option<bool>>
        ensures { Answers (holding (member_term self.now) (seen env.entry)) result }
    {
        let value = evaluate(alloc, self.operand, env)?;
        let found = self.found(value.as_field());
        drop(value);
        Ok(turned(self.is_negated, found))
    }
}
