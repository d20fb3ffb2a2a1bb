//! The rowids that a condition asks for by a range of them.

ghost use Rattle.std.specs.Prelude.{◌≡◌, IfErr, IfOk};
ghost use Rattle.query_plan.specs.Asking as asking;
ghost use Rattle.query_plan.specs.Ranges as ranges;

use crate::keys::Wanted;
use crate::ranges::{Bound, Range, ends_in};
use query_terms::{Place, Term};
use sqlval::{Collation, Fault, R, Value};
use std::alloc::Global;

/// The rowid of a source.
fn of_rowid(source: usize) -> Wanted
    ensures { result ≡ ranges.of_rowid source }
{
    Wanted {
        source,
        place: Place::RowId,
        collation: Collation::Binary,
    }
}

/// A low end's number, or where it isn't in the range the next one.
fn at_or_after(within: bool, number: i64) -> Option<i64>
    ensures { result ≡ asking.at_or_after within number }
{
    if within {
        return Some(number);
    }
    number.checked_add(1)
}

/// A high end's number, or where it isn't in the range the one before.
fn at_or_before(within: bool, number: i64) -> Option<i64>
    ensures { result ≡ asking.at_or_before within number }
{
    if within {
        return Some(number);
    }
    number.checked_sub(1)
}

/// The first rowid of a range with this low end, or None where the end is no number.
fn first_rowid(end: &Bound) -> Option<i64>
    ensures { result ≡ asking.first_rowid end.now }
{
    match &end.value {
        Value::Int(number) => at_or_after(end.within, *number),
        _ => None,
    }
}

/// The last rowid of a range with this high end, or None where the end is no number.
fn last_rowid(end: &Bound) -> Option<i64>
    ensures { result ≡ asking.last_rowid end.now }
{
    match &end.value {
        Value::Int(number) => at_or_before(end.within, *number),
        _ => None,
    }
}

/// From the first to the last; where there is one of both, to the greatest number or from the least.
fn from_to(low: Option<i64>, high: Option<i64>) -> Option<(i64, i64)>
    ensures { result ≡ asking.from_to low high }
{
    match (low, high) {
        (None, None) => None,
        _ => Some((low.unwrap_or(i64::MIN), high.unwrap_or(i64::MAX))),
    }
}

/// The rowids of a range.
fn rowids_of(range: &Range) -> Option<(i64, i64)>
    ensures { result ≡ asking.rowids_of range.now }
{
    let first = range.low.as_ref().and_then(first_rowid);
    let last = range.high.as_ref().and_then(last_rowid);
    from_to(first, last)
}

/// The rowids that a condition asks for by a range, from the first to the last. (`Memory`.)
pub(crate) fn rowids_in(alloc: Global, condition: &Term, source: usize) -> R<Option<(i64, i64)>>
    ensures found { IfOk result (λ found. found ≡ asking.rowids_in source condition.now) }
    ensures refused { IfErr result (λ fault. fault ≡ Fault.Memory) }
{
    let range = ends_in(alloc, condition, of_rowid(source))?;
    Ok(rowids_of(&range))
}
