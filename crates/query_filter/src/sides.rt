//! The parts of a condition that AND joins.

ghost use Rattle.std.specs.Prelude.{◌≡◌, ◌∷◌, ◌++◌, [], IfErr, IfOk, OnOk, Some, map, true};
ghost use Rattle.sqlval.specs.Refusals.{◌then◌};
ghost use Rattle.query_terms.specs.Outcome.{Answers};
ghost use Rattle.query_terms.specs.Rows.{and_truth, seen};
ghost use Rattle.query_terms.specs.Values as meant;
ghost use Rattle.query_filter.specs.Sides.{all_holding, filter_sides, holding, side_term, joined_sides};

use crate::against::Against;
use crate::members::Members;
use query_terms::{Env, Node, Term, TwoSided, holds};
use sqlval::{Fault, R};
use std::alloc::Global;

/// A part of a condition.
#[derive(Drop)]
pub(crate) enum Side<'a> {
    Plain(&'a Term),
    /// A column beside a number.
    Against(Against<'a>),
    /// IN with a long list of literals.
    Among(Members<'a>),
}

/// A part of a condition, prepared. (`Memory`.)
fn side_of<'a>(alloc: Global, term: &'a Term) -> R<Side<'a>>
    ensures made { IfOk result (λ side. side_term side ≡ term.now) }
    ensures refused { IfErr result (λ fault. fault ≡ Fault.Memory) }
{
    if let Node::In(is_negated, operand, list) = &term.node {
        if let Some(members) = Members::of(alloc, *is_negated, operand, list)? {
            return Ok(Side::Among(members));
        }
    }
    match Against::of(term) {
        Some(against) => Ok(Side::Against(against)),
        None => Ok(Side::Plain(term)),
    }
}

/// Adds a part. (`Memory`.)
fn add_side<'a>(alloc: Global, term: &'a Term, sides: &mut Vec<Side<'a>>) -> R<()>
    ensures added { OnOk result (map side_term sides.new.items ≡ map side_term sides.old.items ++ term.now ∷ []) }
    ensures refused { IfErr result (λ fault. fault ≡ Fault.Memory) }
{
    sides.push(side_of(alloc, term)?)?;
    Ok(())
}

/// Adds the parts that AND joins, from left to right. (`Memory`.)
fn add_sides<'a>(alloc: Global, term: &'a Term, sides: &mut Vec<Side<'a>>) -> R<()>
    ensures added { OnOk result (map side_term sides.new.items ≡ map side_term sides.old.items ++ joined_sides term.now) }
    ensures refused { IfErr result (λ fault. fault ≡ Fault.Memory) }
{
    match &term.node {
        Node::Two(TwoSided::And, left, right) => {
            add_sides(alloc, left, sides)?;
            add_side(alloc, right, sides)
        }
        _ => add_side(alloc, term, sides),
    }
}

/// The parts of WHERE. (`Memory`.)
pub(crate) fn split<'a>(alloc: Global, filter: &'a Option<Term>) -> R<Vec<Side<'a>>>
    ensures split { IfOk result (λ sides. map side_term sides.items ≡ filter_sides filter.now) }
    ensures refused { IfErr result (λ fault. fault ≡ Fault.Memory) }
{
    let mut sides = Vec::new(alloc);
    if let Some(term) = filter {
        add_sides(alloc, term, &mut sides)?;
    }
    Ok(sides)
}

/// Whether a part is true, or neither true nor false; or its first refusal.
fn side_holds(alloc: Global, side: &Side<'_>, env: Env<'_>) -> R<Option<bool>>
    ensures { Answers (holding (side_term side.now) (seen env.entry)) result }
{
    match side {
        Side::Plain(term) => holds(alloc, term, env),
        Side::Against(against) => against.holds(alloc, env),
        Side::Among(members) => members.holds(alloc, env),
    }
}

/// Whether both hold, where the first isn't false.
fn both_hold(first: Option<bool>, second: Option<bool>) -> Option<bool>
    ensures { result ≡ meant.both_hold first second }
{
    match (first, second) {
        (Some(true), _) => second,
        (Some(false), _) | (None, Some(false)) => Some(false),
        _ => None,
    }
}

/// AND of what is known and of a part, which isn't looked at where that is false.
fn joined(alloc: Global, so_far: Option<bool>, side: &Side<'_>, env: Env<'_>) -> R<Option<bool>>
    ensures { Answers (and_truth so_far (holding (side_term side.now) (seen env.entry))) result }
{
    if so_far == Some(false) {
        return Ok(so_far);
    }
    let next = side_holds(alloc, side, env)?;
    Ok(both_hold(so_far, next))
}

/// Whether all parts hold, as AND has it; or the first refusal.
pub(crate) fn all_hold(alloc: Global, sides: &[Side<'_>], env: Env<'_>) -> R<Option<bool>>
    ensures { Answers (all_holding (Some true) (map side_term sides.now) (seen env.entry)) result }
{
    let mut so_far = Some(true);
    'sides: for index in 0..sides.len() {
        so_far = joined(alloc, so_far, &sides[index], env)?;
    }
    Ok(so_far)
}
