//! Rows given that bring their rowids.

ghost use Rattle.std.specs.Prelude.{◌≡◌, IsTrue};
ghost use Rattle.row_change.specs.Giving as law;
ghost use Rattle.row_change.specs.Giving.{NeedsNoLast};

use crate::inserting::place_of;
use crate::setting::is_integer_at;
use catalog::Table;
use sqlval::Value;

/// Whether an integer is given at a place, if there is one.
fn is_integer_given(given: &[Value], place: Option<usize>) -> bool
    ensures { result ≡ law.is_integer_given given.now place }
{
    match place {
        Some(place) => matches!(given.get(place), Some(Value::Int(_))),
        None => false,
    }
}

/// Whether a row given has an integer for the rowid's own column, which stores it as it is: then the table's last rowid isn't needed.
pub fn gives_rowid(table: &Table, places: &[Option<usize>], given: &[Value]) -> bool
    ensures exact { result ≡ law.gives_rowid table.now places.now given.now }
    ensures same { IsTrue result → NeedsNoLast table.now places.now given.now }
{
    match table.own_column() {
        Some(own) => {
            is_integer_at(table.columns.as_slice(), own)
                && is_integer_given(given, place_of(places, own))
        }
        None => false,
    }
}
