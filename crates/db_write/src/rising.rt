//! Keys that rise from row to row: no two rows have one.

ghost use Rattle.std.specs.Prelude.{◌≡◌, true, map, IsTrue};
ghost use Rattle.std.specs.List.{AllByRecursion};
ghost use Rattle.db_write.specs.Kept.{FirstRises, KeysRise, ValuesRise, row_value};

use catalog::{Index, IndexColumn};
use query_terms::SourceRow;
use sqlval::{Collation, compare_fields};

/// Whether the values in a column rise from row to row.
fn values_rise(place: usize, collation: Collation, rows: &[SourceRow]) -> bool
    ensures { IsTrue result → ValuesRise collation (map (row_value place) rows.now) }
{
    let Some((first, rest)) = rows.split_first() else {
        return true;
    };
    let mut before = first.column(place);
    let mut left = rest;
    'rows: while let Some((row, after)) = left.split_first() {
        let value = row.column(place);
        if !compare_fields(before, value, collation).is_lt() {
            return false;
        }
        before = value;
        left = after;
    }
    true
}

/// Whether the values in the first of these columns rise from row to row.
fn first_rises(columns: &[IndexColumn], rows: &[SourceRow]) -> bool
    ensures { IsTrue result → FirstRises rows.now columns.now }
{
    match columns {
        [first, ..] => values_rise(first.place, first.collation, rows),
        [] => false,
    }
}

/// Whether the values in the first column of each of these indexes rise from row to row, where it is UNIQUE.
pub(crate) fn keys_rise(indexes: &[Index], rows: &[SourceRow]) -> bool
    ensures { IsTrue result → AllByRecursion (KeysRise rows.now) indexes.now }
{
    'indexes: for index in indexes {
        if index.is_unique && !first_rises(index.columns.as_slice(), rows) {
            return false;
        }
    }
    true
}
