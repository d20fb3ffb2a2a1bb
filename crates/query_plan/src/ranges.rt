//! The ranges that a condition asks for.

ghost use Rattle.std.specs.Prelude.{◌≡◌, IfErr, IfOk, option_map};
ghost use Rattle.query_plan.specs.Asking as asking;
ghost use Rattle.query_plan.specs.Ranges as ranges;

use crate::keys::{Wanted, key_in, of_column};
use catalog::IndexColumn;
use query_terms::{Comparison, Term};
use sqlval::{Fault, R, Value};
use std::alloc::Global;

/// An end of a range, and whether it is in the range.
#[derive(Drop)]
pub struct Bound {
    pub value: Value,
    pub within: bool,
}

/// What lies between two ends, or beyond one.
#[derive(Drop)]
pub struct Range {
    pub low: Option<Bound>,
    pub high: Option<Bound>,
}

/// A range without ends.
pub(crate) fn no_range() -> Range
    ensures { result ≡ asking.no_range }
{
    Range {
        low: None,
        high: None,
    }
}

/// Whether a range has an end.
pub(crate) fn has_ends(range: &Range) -> bool
    ensures { result ≡ ranges.has_ends range.now }
{
    range.low.is_some() || range.high.is_some()
}

/// An end at a value, if there is one.
fn end_at(value: Option<Value>, within: bool) -> Option<Bound>
    ensures { result ≡ option_map (asking.end_at within) value }
{
    match value {
        Some(value) => Some(Bound { value, within }),
        None => None,
    }
}

/// The end that a condition asks for by one comparison, which has it within the range, or else by another. (`Memory`.)
fn end_in(
    alloc: Global,
    condition: &Term,
    wanted: Wanted,
    within: Comparison,
    beyond: Comparison,
) -> R<Option<Bound>>
    ensures found { IfOk result (λ end. end ≡ asking.end_in wanted within beyond condition.now) }
    ensures refused { IfErr result (λ fault. fault ≡ Fault.Memory) }
{
    match end_at(key_in(alloc, condition, wanted, within)?, true) {
        Some(end) => Ok(Some(end)),
        None => Ok(end_at(key_in(alloc, condition, wanted, beyond)?, false)),
    }
}

/// The range that a condition asks for. (`Memory`.)
pub(crate) fn ends_in(alloc: Global, condition: &Term, wanted: Wanted) -> R<Range>
    ensures found { IfOk result (λ range. range ≡ asking.ends_in wanted condition.now) }
    ensures refused { IfErr result (λ fault. fault ≡ Fault.Memory) }
{
    let low = end_in(
        alloc,
        condition,
        wanted,
        Comparison::GreaterOrEqual,
        Comparison::Greater,
    )?;
    let high = end_in(
        alloc,
        condition,
        wanted,
        Comparison::LessOrEqual,
        Comparison::Less,
    )?;
    Ok(Range { low, high })
}

/// The range that a condition asks for of an index's column; one without ends where there is no column. (`Memory`.)
pub(crate) fn range_in(
    alloc: Global,
    condition: &Term,
    source: usize,
    column: Option<IndexColumn>,
) -> R<Range>
    ensures found { IfOk result (λ range. range ≡ asking.range_in source column condition.now) }
    ensures refused { IfErr result (λ fault. fault ≡ Fault.Memory) }
{
    match column {
        Some(column) => ends_in(alloc, condition, of_column(source, column)),
        None => Ok(no_range()),
    }
}
