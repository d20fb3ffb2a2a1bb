//! A column beside a number.

ghost use Rattle.std.specs.Prelude.{◌≡◌, IfSome, false};
ghost use Rattle.sqlval.specs.Fields.{value_of};
ghost use Rattle.sqlval.specs.declared.value.Value.TheVariants as the;
ghost use Rattle.query_terms.specs.Outcome.{Answers};
ghost use Rattle.query_terms.specs.Rows.{seen};
ghost use Rattle.query_terms.specs.Terms as tree;
ghost use Rattle.query_terms.specs.TextSides.{is_text};
ghost use Rattle.query_terms.specs.declared.tree.TwoSided.TheVariants.{Compare};
ghost use Rattle.query_filter.specs.Literals.{literal_value};

use crate::literals::number_in;
use query_terms::{
    Comparison, Env, Node, Place, Term, TwoSided, holds, integers_stand_by_order, is_met,
};
use sqlval::{Affinity, Collation, Field, R};
use std::alloc::Global;

/// A comparison of a column with a number, which needs no evaluation where the column is an integer.
#[derive(Drop)]
pub(crate) struct Against<'a> {
    pub(crate) term: &'a Term,
    source: usize,
    place: Place,
    affinity: Option<Affinity>,
    collation: Collation,
    comparison: Comparison,
    right: &'a Term,
    number: i64,
    ghost same: { term.now ≡ tree.Two (Compare comparison) (tree.Cell source place affinity collation) right.now },
    ghost plain: { is_text affinity ≡ false },
    ghost known: { literal_value right.now ≡ the.Int number },
}

/// Whether a column is compared as a text.
fn is_of_text(affinity: Option<Affinity>) -> bool
    ensures { result ≡ is_text affinity }
{
    matches!(affinity, Some(Affinity::Text))
}

/// The integer that a value is.
fn integer_of(value: Field<'_>) -> Option<i64>
    ensures { IfSome result (λ number. value_of value.entry ≡ the.Int number) }
{
    match value {
        Field::Int(number) => Some(number),
        _ => None,
    }
}

impl<'a> Against<'a> {
    ghost use Rattle.query_filter.specs.Sides.{holding};

    /// A comparison of a column with a number; None of another term.
    pub(crate) fn of(term: &'a Term) -> Option<Against<'a>>
        ensures { IfSome result (λ against. against.term.now ≡ term.now) }
    {
        let Node::Two(TwoSided::Compare(comparison), left, right) = &term.node else {
            return None;
        };
        let Node::Cell(source, place, affinity, collation) = &left.node else {
            return None;
        };
        let number = number_in(right)?;
        if is_of_text(*affinity) {
            return None;
        }
        Some(Against {
            term,
            source: *source,
            place: *place,
            affinity: *affinity,
            collation: *collation,
            comparison: *comparison,
            right,
            number,
        })
    }

    /// Whether it is true, or neither true nor false; or its first refusal.
    pub(crate) fn holds(&self, alloc: Global, env: Env<'_>) -> R<Option<bool>>
        ensures { Answers (holding self.now.term.now (seen env.entry)) result }
    {
        integers_stand_by_order();
        match integer_of(env.cell(self.source, self.place)) {
            Some(value) => Ok(Some(is_met(self.comparison, value.cmp(&self.number)))),
            None => holds(alloc, self.term, env),
        }
    }
}
