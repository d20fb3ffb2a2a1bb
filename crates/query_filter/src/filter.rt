//! WHERE, prepared once for all rows.

ghost use Rattle.std.specs.Prelude.{◌≡◌, map};
ghost use Rattle.query_filter.specs.Sides.{filter_sides, side_term};

use crate::sides::{Side, all_hold, split};
use query_terms::{Env, Term};
use sqlval::{Fault, R};
use std::alloc::Global;
use std::marker::Model;

/// WHERE, whose long lists of literals are sorted: contracts see the condition.
#[derive(Drop)]
pub struct Filter<'a> {
    filter: &'a Option<Term>,
    sides: Vec<Side<'a>>,
    ghost split: { map side_term sides.items ≡ filter_sides filter.now },
}

impl<'a> Model for Filter<'a> {
    ghost use Rattle.std.specs.Prelude.{Option};
    ghost use Rattle.query_terms.specs.Terms.{Term as Condition};
    ghost use Rattle.std.specs.Coded.{codes};
    ghost use Rattle.query_terms.specs.Code.{tree_code};

    ghost Value = { Option Condition };

    ghost coded = { Prim.hlevel (codes, tree_code) };

    ghost view = { λ f. f.filter.now };
}

impl<'a> Filter<'a> {
    ghost use Rattle.std.specs.Prelude.{IfErr, IfOk};
    ghost use Rattle.query_terms.specs.Outcome.{AnswersBy};
    ghost use Rattle.query_terms.specs.Rows.{seen};
    ghost use Rattle.query_filter.specs.Passing.{passing};

    /// WHERE, prepared. (`Memory`.)
    pub fn new(alloc: Global, filter: &'a Option<Term>) -> R<Filter<'a>>
        ensures prepared { IfOk result (λ f. f ≡ filter.now) }
        ensures refused { IfErr result (λ fault. fault ≡ Fault.Memory) }
    {
        let sides = split(alloc, filter)?;
        Ok(Filter { filter, sides })
    }

    /// Whether WHERE keeps what is seen; or its first refusal.
    pub fn passes(&self, alloc: Global, env: Env<'_>) -> R<bool>
        ensures { AnswersBy (λ b. b) (passing self.now (seen env.entry)) result }
    {
        Ok(all_hold(alloc, self.sides.as_slice(), env)?.unwrap_or(false))
    }
}
