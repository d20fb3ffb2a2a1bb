//! Rows that lie in records.

ghost use Rattle.std.specs.Prelude.{◌≡◌, OnOk, map, unwrap_or, slice_get};
ghost use Rattle.sqlval.specs.declared.value.Value.TheVariants.{Null};
ghost use Rattle.sqlval.specs.Fields.{value_of};
ghost use Rattle.query_terms.specs.Stored.{rowid_value, with_at};

use record::{Fields, read_fields, value_at};
use smallvec::SmallVec;
use sqlval::Field;
use std::alloc::{AllocError, Global};
use std::marker::Model;

/// A row whose values lie in a record, out of which one is read where it is asked for: contracts see the values. At the place of the rowid's own
/// column, where there is one, the value is the rowid, whatever the record says there.
#[derive(Drop)]
pub struct StoredRow {
    rowid: Option<i64>,
    own: Option<usize>,
    record: SmallVec<u8, 48>,
}

impl Model for StoredRow {
    ghost use Rattle.record.specs.Columns.{values_in};
    ghost use Rattle.query_terms.specs.Stored.{rowid_value, with_own};
    ghost use Rattle.query_terms.specs.Values.{Row};

    ghost Value = { Row };

    ghost view = { λ row. record {
      rowid = rowid_value row.rowid;
      values = with_own row.own (rowid_value row.rowid) (values_in row.record.items);
    } };
}

/// Puts a value at a place among these; where there are fewer, after as many NULLs as that takes.
fn put_at<'a>(fields: &mut Fields<'a>, place: usize, field: Field<'a>) -> Result<(), AllocError>
    ensures { OnOk result (map value_of fields.new.items
        ≡ with_at place (value_of field.entry) (map value_of fields.old.items)) }
{
    'nulls: for _ in fields.len()..place {
        fields.push(Field::Null)?;
    }
    if place < fields.len() {
        fields[place] = field;
    } else {
        fields.push(field)?;
    }
    Ok(())
}

impl StoredRow {
    ghost use Rattle.std.specs.Prelude.{IfOk, OnOk};
    ghost use Rattle.record.specs.Columns.{values_in};
    ghost use Rattle.query_terms.specs.Stored.{rowid_value, with_own};

    /// The row of the record in these bytes, of which it keeps a copy. `own` is the place of the rowid's own column. (See `record::value_at`.)
    pub fn new(
        alloc: Global,
        rowid: Option<i64>,
        own: Option<usize>,
        bytes: &[u8],
    ) -> Result<StoredRow, AllocError>
        ensures { IfOk result (λ row. row ≡ record
            { rowid = rowid_value rowid; values = with_own own (rowid_value rowid) (values_in bytes.now) }) }
    {
        Ok(StoredRow {
            rowid,
            own,
            record: SmallVec::from_slice(alloc, bytes)?,
        })
    }

    /// The row becomes that of the record in these bytes, in the memory that it has where they fit.
    pub fn refill(
        &mut self,
        rowid: Option<i64>,
        own: Option<usize>,
        bytes: &[u8],
    ) -> Result<(), AllocError>
        ensures { OnOk result (self.new ≡ record
            { rowid = rowid_value rowid; values = with_own own (rowid_value rowid) (values_in bytes.now) }) }
    {
        self.rowid = rowid;
        self.own = own;
        self.record.clear();
        self.record.extend_from_slice(bytes)
    }

    /// The rowid, if it has one.
    pub fn rowid(&self) -> Option<i64>
        ensures { rowid_value result ≡ self.now.rowid }
    {
        self.rowid
    }

    /// The rowid as a value.
    pub fn rowid_field(&self) -> Field<'_>
        ensures { value_of result ≡ self.now.rowid }
    {
        rowid_field(self.rowid)
    }

    /// Reads the values, where they lie, in place of those that are there.
    pub fn read_fields<'a>(&'a self, fields: &mut Fields<'a>) -> Result<(), AllocError>
        ensures { OnOk result (map value_of fields.new.items ≡ self.now.values) }
    {
        read_fields(self.record.as_slice(), fields)?;
        match self.own {
            Some(place) => put_at(fields, place, rowid_field(self.rowid)),
            None => Ok(()),
        }
    }

    /// The value of the column at a place, NULL past the last.
    pub fn column(&self, index: usize) -> Field<'_>
        ensures { value_of result ≡ unwrap_or (slice_get self.now.values index) Null }
    {
        let held = value_at(self.record.as_slice(), index);
        match self.own {
            Some(place) => {
                if place == index {
                    return rowid_field(self.rowid);
                }
                held
            }
            None => held,
        }
    }
}

/// A rowid as a value.
fn rowid_field(rowid: Option<i64>) -> Field<'static>
    ensures { value_of result ≡ rowid_value rowid }
{
    match rowid {
        Some(rowid) => Field::Int(rowid),
        None => Field::Null,
    }
}
