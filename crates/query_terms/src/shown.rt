//! Rows of a table as a view shows them.

ghost use Rattle.std.specs.Prelude.{◌≡◌, Some, unwrap_or, slice_get};
ghost use Rattle.sqlval.specs.declared.value.Value.TheVariants.{Null};
ghost use Rattle.sqlval.specs.Fields.{value_of};
ghost use Rattle.query_terms.specs.Values as meant;

use crate::stored::StoredRow;
use crate::tree::Place;
use record::Fields;
use sqlval::Field;
use std::alloc::AllocError;
use std::rc::Rc;

/// A stored row, and the places of its values that are shown, in their order.
#[derive(Drop)]
pub struct ShownRow {
    pub(crate) row: StoredRow,
    pub(crate) places: Rc<Vec<Place>>,
}

/// The value of a stored row at a place.
fn value_at(row: &StoredRow, place: Place) -> Field<'_>
    ensures { value_of result ≡ meant.at_row (Some row.now) place }
{
    match place {
        Place::RowId => row.rowid_field(),
        Place::At(index) => row.column(index),
    }
}

impl ShownRow {
    ghost use Rattle.std.specs.Prelude.{OnOk, map};
    ghost use Rattle.record.specs.Columns.{values_in};
    ghost use Rattle.query_terms.specs.Stored.{rowid_value, shown_row, with_own};

    /// The row becomes that of the record in these bytes, and the places these, in the memory that it has where they fit.
    pub fn refill(
        &mut self,
        rowid: Option<i64>,
        own: Option<usize>,
        bytes: &[u8],
        places: &Rc<Vec<Place>>,
    ) -> Result<(), AllocError>
        ensures { OnOk result (shown_row self.new.places.value.items self.new.row ≡ shown_row places.now.value.items (record
            { rowid = rowid_value rowid; values = with_own own (rowid_value rowid) (values_in bytes.now) })) }
    {
        self.row.refill(rowid, own, bytes)?;
        self.places = places.clone()?;
        Ok(())
    }

    /// Reads the values, where they lie, in place of those that are there.
    pub fn read_fields<'a>(&'a self, fields: &mut Fields<'a>) -> Result<(), AllocError>
        ensures { OnOk result (map value_of fields.new.items
            ≡ (shown_row self.now.places.value.items self.now.row).values) }
    {
        fields.clear();
        'places: for place in self.places.as_slice() {
            fields.push(value_at(&self.row, *place))?;
        }
        Ok(())
    }

    /// The value of the column at a place, NULL past the last.
    pub fn column(&self, index: usize) -> Field<'_>
        ensures { value_of result
            ≡ unwrap_or (slice_get (shown_row self.now.places.value.items self.now.row).values index) Null }
    {
        match self.places.as_slice().get(index) {
            Some(place) => value_at(&self.row, *place),
            None => Field::Null,
        }
    }
}
