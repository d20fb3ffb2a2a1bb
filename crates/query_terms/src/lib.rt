//! Expressions whose names are looked up, and their values over rows.
#![tactic(auto)]

mod collating;
mod columns;
mod comparing;
mod datum;
mod evaluating;
mod finding;
mod integers;
mod numbers;
mod operands;
mod places;
mod raising;
mod rows;
mod sameness;
mod shown;
mod stored;
mod texts;
mod totals;
mod tree;
mod truth;

ghost use Rattle.query_terms.specs.Laws.{ConvertsAsRelated, IntegersStandByOrder, RefusesReals};

pub use collating::{affinity, collation};
pub use columns::{column_in, owned_value};
pub use comparing::{Manner, is_met};
pub use datum::Datum;
pub use integers::{evaluate, holds};
pub use places::RowPlaces;
pub use rows::{Env, SourceRow};
pub use sameness::is_same;
pub use tree::{
    Aggregate, Arithmetic, Comparison, Function, Node, OneSided, Place, Term, TwoSided,
};

/// The affinity's function agrees with its relation.
pub fn conversion_is_one()
    ensures gives { ConvertsAsRelated }
    ensures refuses { RefusesReals }
{}

/// Two integers, neither of them beside a text's affinity, are compared by their order alone.
pub fn integers_stand_by_order()
    ensures { IntegersStandByOrder }
{}
