//! Ranges, and which values lie in one.

ghost use Rattle.std.specs.Prelude.{◌≡◌};
ghost use Rattle.sqlval.specs.Fields.{value_of};
ghost use Rattle.query_terms.specs.Values as values;
ghost use Rattle.query_plan.specs.Ranges as ranges;

use query_plan::{Bound, Range};
use sqlval::{Collation, Field, compare_fields};
use std::cmp::Ordering;

/// Whether it is NULL.
pub(crate) fn is_null(value: Field<'_>) -> bool
    ensures { result ≡ values.is_null (value_of value.entry) }
{
    matches!(value, Field::Null)
}

/// Whether a value isn't before a low end; there may be no end.
fn meets_low(value: Field<'_>, low: &Option<Bound>, collation: Collation) -> bool
    ensures { result ≡ ranges.meets_end ranges.low_comparison collation low.now (value_of value.entry) }
{
    let Some(end) = low else {
        return true;
    };
    match compare_fields(value, end.value.as_field(), collation) {
        Ordering::Less => false,
        Ordering::Equal => end.within,
        Ordering::Greater => true,
    }
}

/// Whether a value isn't past a high end; there may be no end.
fn meets_high(value: Field<'_>, high: &Option<Bound>, collation: Collation) -> bool
    ensures { result ≡ ranges.meets_end ranges.high_comparison collation high.now (value_of value.entry) }
{
    let Some(end) = high else {
        return true;
    };
    match compare_fields(value, end.value.as_field(), collation) {
        Ordering::Less => true,
        Ordering::Equal => end.within,
        Ordering::Greater => false,
    }
}

/// Whether a value lies in a range, in which NULL never is.
pub(crate) fn is_within(value: Field<'_>, range: &Range, collation: Collation) -> bool
    ensures { result ≡ ranges.is_within collation range.now (value_of value.entry) }
{
    !is_null(value)
        && meets_low(value, &range.low, collation)
        && meets_high(value, &range.high, collation)
}
