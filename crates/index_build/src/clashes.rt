//! Rows that a UNIQUE index can't have both, seen by their entries.

ghost use Rattle.std.specs.Prelude.{◌≡◌, ◌&&◌, not};
ghost use Rattle.std.specs.Ordering.{is_eq};
ghost use Rattle.sqlval.specs.Order.{order};
ghost use Rattle.sqlval.specs.Fields.{value_of};
ghost use Rattle.query_names.specs.Keys as keys;
ghost use Rattle.index_build.specs.Calls.{TellsClash};
ghost use Rattle.index_build.specs.Ranking as ranking;
ghost use Rattle.index_build.specs.Ranking.{value_or_null};

use crate::entries::{compare_at, value_in};
use catalog::IndexColumn;
use sqlval::{Collation, Field, Many, Value};

/// Whether a value is NULL.
pub(crate) fn is_null(value: Field<'_>) -> bool
    ensures { result ≡ keys.is_null (value_of value.entry) }
{
    matches!(value, Field::Null)
}

/// Whether the values at a place of two entries are equal, and not NULL.
fn are_equal_at(collation: Collation, place: usize, a: &[Value], b: &[Value]) -> bool
    ensures { result ≡ not (keys.is_null (value_or_null a.now place)) && is_eq
        (order collation (value_or_null a.now place) (value_or_null b.now place)) }
{
    if is_null(value_in(a, place)) {
        return false;
    }
    compare_at(collation, place, a, b).is_eq()
}

/// Whether two entries have equal values of the columns, and none is NULL.
fn have_one_key(columns: &[IndexColumn], a: &[Value], b: &[Value]) -> bool
    ensures { result ≡ ranking.have_one_key 0 columns.now a.now b.now }
{
    'columns: for index in 0..columns.len() {
        if !are_equal_at(columns[index].collation, index, a, b) {
            return false;
        }
    }
    true
}

/// Whether two rows have one key without NULL: of the rows' entries in order, as `sorted_entries` gives them. Each is compared with the next
/// one alone.
pub fn has_clash(entries: &[Many<Value>], columns: &[IndexColumn]) -> bool
    ensures { TellsClash columns.now entries.now result }
{
    'entries: for index in 1..entries.len() {
        if have_one_key(
            columns,
            entries[index - 1].as_slice(),
            entries[index].as_slice(),
        ) {
            return true;
        }
    }
    false
}
