//! The rows that an expression is evaluated over.

ghost use Rattle.std.specs.Prelude.{◌≡◌, [], Some, IfOk, OnOk, map, option_map, unwrap_or, slice_get};
ghost use Rattle.sqlval.specs.declared.value.Value.TheVariants.{Null};
ghost use Rattle.sqlval.specs.Fields.{value_of};
ghost use Rattle.query_terms.specs.Rows.{picked_rows, row_of, seen};
ghost use Rattle.query_terms.specs.Values as meant;

use crate::places::RowPlaces;
use crate::shown::ShownRow;
use crate::stored::StoredRow;
use crate::tree::Place;
use record::Fields;
use smallvec::SmallVec;
use sqlval::{Field, Many, Value};
use std::alloc::{AllocError, Global};
use std::marker::Model;
use std::mem::replace;
use std::rc::Rc;

/// A row whose values were made and lie in no record.
#[derive(Drop)]
struct MadeRow {
    rowid: Value,
    values: Many<Value>,
}

/// Where the values of a row are.
#[derive(Drop)]
enum Cells {
    Stored(StoredRow),
    Shown(ShownRow),
    Made(MadeRow),
}

/// A row of a source, in a record or made: contracts see the rowid and the values.
#[derive(Drop)]
pub struct SourceRow {
    cells: Cells,
}

impl Model for SourceRow {
    ghost use Rattle.query_terms.specs.Stored.{shown_row};
    ghost use Rattle.query_terms.specs.Values.{Row};
    ghost use Rattle.query_terms.specs.declared.rows.Cells.TheVariants.{Stored, Shown, Made};

    ghost Value = { Row };

    ghost view = { λ row. elim row.cells [
      | Stored stored ↦ stored
      | Shown shown ↦ shown_row shown.places.value.items shown.row
      | Made made ↦ record { rowid = made.rowid; values = made.values }
    ] };
}

/// What an expression is evaluated over: lists of rows, and which row of each is looked at.
#[derive(Clone, Copy)]
pub struct Env<'a> {
    /// The rows of each source.
    pub sources: &'a [Many<SourceRow>],
    /// The place of each source's row; past its rows where it has none. Sources that aren't reached yet have no place.
    pub picked: &'a [usize],
    /// In a query with groups the places of each of the group's rows.
    pub group: &'a [RowPlaces],
    /// The group's keys.
    pub keys: &'a [Value],
}

/// Puts the values, without copies of their bytes, in place of those that are there.
fn lend<'a>(values: &'a [Value], fields: &mut Fields<'a>) -> Result<(), AllocError>
    ensures { OnOk result (map value_of fields.new.items ≡ values.now) }
{
    fields.clear();
    'values: for value in values {
        fields.push(value.as_field())?;
    }
    Ok(())
}

/// Copies of these values.
fn copies_of(alloc: Global, fields: &[Field<'_>]) -> Result<Many<Value>, AllocError>
    ensures { IfOk result (λ copies. copies ≡ map value_of fields.now) }
{
    let mut copies = Vec::with_capacity(alloc, fields.len())?;
    'fields: for field in fields {
        copies.push(field.to_value(alloc)?)?;
    }
    Ok(Many::from_vec(copies))
}

/// An empty list in the memory of this one.
fn emptied(values: Many<Value>) -> Many<Value>
    ensures { result ≡ [] }
{
    let mut values = values.into_vec();
    values.clear();
    Many::from_vec(values)
}

impl SourceRow {
    ghost use Rattle.std.specs.Prelude.{◌≡◌, [], IfOk, OnOk};
    ghost use Rattle.record.specs.Columns.{values_in};
    ghost use Rattle.query_terms.specs.Stored.{integer_in, rowid_value, shown_row, with_own};

    /// The row of the record in these bytes, of which it keeps a copy. `own` is the place of the rowid's own column: there the value is the rowid,
    /// whatever the record says. (See `record::value_at`.)
    pub fn new(
        alloc: Global,
        rowid: Option<i64>,
        own: Option<usize>,
        bytes: &[u8],
    ) -> Result<SourceRow, AllocError>
        ensures { IfOk result (λ row. row ≡ record
            { rowid = rowid_value rowid; values = with_own own (rowid_value rowid) (values_in bytes.now) }) }
    {
        Ok(SourceRow {
            cells: Cells::Stored(StoredRow::new(alloc, rowid, own, bytes)?),
        })
    }

    /// What a view shows of the row of the record in these bytes, of which it keeps a copy: the values at these places, in their order.
    pub fn shown(
        alloc: Global,
        rowid: Option<i64>,
        own: Option<usize>,
        bytes: &[u8],
        places: &Rc<Vec<Place>>,
    ) -> Result<SourceRow, AllocError>
        ensures { IfOk result (λ row. row ≡ shown_row places.now.value.items (record
            { rowid = rowid_value rowid; values = with_own own (rowid_value rowid) (values_in bytes.now) })) }
    {
        let row = StoredRow::new(alloc, rowid, own, bytes)?;
        Ok(SourceRow {
            cells: Cells::Shown(ShownRow {
                row,
                places: places.clone()?,
            }),
        })
    }

    /// The row of this rowid and these values, which needn't be those of a record.
    pub fn made(rowid: Value, values: Many<Value>) -> SourceRow
        ensures { result ≡ record { rowid = rowid; values = values } }
    {
        SourceRow {
            cells: Cells::Made(MadeRow { rowid, values }),
        }
    }

    /// The row becomes that of this rowid and these values. Answers an empty list, in the memory of the values that a made row had.
    pub fn remake(&mut self, alloc: Global, rowid: Value, values: Many<Value>) -> Many<Value>
        ensures made { self.new ≡ record { rowid = rowid; values = values } }
        ensures empty { result ≡ [] }
    {
        match &mut self.cells {
            Cells::Made(made) => {
                made.rowid = rowid;
                emptied(replace(&mut made.values, values))
            }
            Cells::Stored(_) | Cells::Shown(_) => {
                *self = SourceRow::made(rowid, values);
                Many::new(alloc)
            }
        }
    }

    /// The row becomes that of the record in these bytes, in the memory that it has where they fit.
    pub fn refill(
        &mut self,
        alloc: Global,
        rowid: Option<i64>,
        own: Option<usize>,
        bytes: &[u8],
    ) -> Result<(), AllocError>
        ensures { OnOk result (self.new ≡ record
            { rowid = rowid_value rowid; values = with_own own (rowid_value rowid) (values_in bytes.now) }) }
    {
        match &mut self.cells {
            Cells::Stored(stored) => stored.refill(rowid, own, bytes),
            Cells::Shown(_) | Cells::Made(_) => {
                *self = SourceRow::new(alloc, rowid, own, bytes)?;
                Ok(())
            }
        }
    }

    /// The row becomes what a view shows of that of the record in these bytes, in the memory that it has where they fit.
    pub fn refill_shown(
        &mut self,
        alloc: Global,
        rowid: Option<i64>,
        own: Option<usize>,
        bytes: &[u8],
        places: &Rc<Vec<Place>>,
    ) -> Result<(), AllocError>
        ensures { OnOk result (self.new ≡ shown_row places.now.value.items (record
            { rowid = rowid_value rowid; values = with_own own (rowid_value rowid) (values_in bytes.now) })) }
    {
        match &mut self.cells {
            Cells::Shown(shown) => shown.refill(rowid, own, bytes, places),
            Cells::Stored(_) | Cells::Made(_) => {
                *self = SourceRow::shown(alloc, rowid, own, bytes, places)?;
                Ok(())
            }
        }
    }

    /// The rowid, if it is an integer.
    pub fn rowid(&self) -> Option<i64>
        ensures { result ≡ integer_in self.now.rowid }
    {
        match self.rowid_field() {
            Field::Int(rowid) => Some(rowid),
            _ => None,
        }
    }

    /// The rowid as a value.
    pub fn rowid_field(&self) -> Field<'_>
        ensures { value_of result ≡ self.now.rowid }
    {
        match &self.cells {
            Cells::Stored(stored) => stored.rowid_field(),
            Cells::Shown(_) => Field::Null,
            Cells::Made(made) => made.rowid.as_field(),
        }
    }

    /// Reads the values, where they lie, in place of those that are there.
    pub fn read_fields<'a>(&'a self, fields: &mut Fields<'a>) -> Result<(), AllocError>
        ensures { OnOk result (map value_of fields.new.items ≡ self.now.values) }
    {
        match &self.cells {
            Cells::Stored(stored) => stored.read_fields(fields),
            Cells::Shown(shown) => shown.read_fields(fields),
            Cells::Made(made) => lend(made.values.as_slice(), fields),
        }
    }

    /// Copies of the values.
    pub fn values(&self, alloc: Global) -> Result<Many<Value>, AllocError>
        ensures { IfOk result (λ values. values ≡ self.now.values) }
    {
        let mut fields = SmallVec::new(alloc);
        self.read_fields(&mut fields)?;
        copies_of(alloc, fields.as_slice())
    }

    /// The value at a place.
    fn at(&self, place: Place) -> Field<'_>
        ensures { value_of result ≡ meant.at_row (Some self.now) place }
    {
        match place {
            Place::RowId => self.rowid_field(),
            Place::At(index) => self.column(index),
        }
    }

    /// The value of the column at a place, NULL past the last.
    pub fn column(&self, index: usize) -> Field<'_>
        ensures { value_of result ≡ unwrap_or (slice_get self.now.values index) Null }
    {
        match &self.cells {
            Cells::Stored(stored) => stored.column(index),
            Cells::Shown(shown) => shown.column(index),
            Cells::Made(made) => field_at(made.values.as_slice(), index),
        }
    }
}

/// The value at a place, NULL past the last.
fn field_at(values: &[Value], index: usize) -> Field<'_>
    ensures { value_of result ≡ unwrap_or (slice_get values.now index) Null }
{
    match values.get(index) {
        Some(value) => value.as_field(),
        None => Field::Null,
    }
}

impl<'a> Env<'a> {
    /// The row of a source.
    fn row(&self, source: usize) -> Option<&'a SourceRow>
        ensures { option_map (λ r. r.now) result ≡ row_of self.now.sources.now self.now.picked.now source }
    {
        let rows = self.sources.get(source)?;
        rows.as_slice().get(*self.picked.get(source)?)
    }

    /// The value of a source at a place.
    pub fn cell(&self, source: usize, place: Place) -> Field<'a>
        ensures { value_of result ≡ meant.cell (seen self.now) source place }
    {
        match self.row(source) {
            Some(row) => row.at(place),
            None => Field::Null,
        }
    }

    /// The group's key at a place.
    pub fn key(&self, place: usize) -> Field<'a>
        ensures { value_of result ≡ unwrap_or (slice_get (seen self.now).keys place) Null }
    {
        field_at(self.keys, place)
    }

    /// One row of the group by itself.
    pub fn row_of_group(&self, picked: &'a [usize]) -> Env<'a>
        ensures { seen result ≡ record {
          rows = picked_rows self.now.sources.now picked.now;
          group = [];
          keys = [];
        } }
    {
        Env {
            sources: self.sources,
            picked,
            group: &[],
            keys: &[],
        }
    }
}
