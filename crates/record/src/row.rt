//! A record that lies in bytes.

ghost use Rattle.std.specs.Prelude.{◌≡◌, ◌<◌, ℕ, List, length, map, IfOk, Ok, slice_index_or};
ghost use Rattle.sqlval.specs.declared.value.Value.{Value};
ghost use Rattle.sqlval.specs.declared.value.Value.TheVariants.{Null};
ghost use Rattle.sqlval.specs.Fields.{value_of};
ghost use Rattle.sqlval.specs.Gives.{Gives};
ghost use Rattle.record.specs.Record.{DetermineValues, IsRecord};
ghost use Rattle.record.specs.Reading.{Reads, ReadsRecords, answer, columns_at, halves_at, record_at};

use crate::field::{Wrong, read_field};
use crate::varint::get_varint;
use smallvec::SmallVec;
use sqlval::{Damage, Fault, Field, R};
use std::alloc::Global;
use std::marker::Model;

/// The types and the bodies of a record.
#[inline(always)]
#[tactic(auto, unfolding(crate::specs::Reading::halves_at))]
pub fn halves_of(bytes: &[u8]) -> Result<(&[u8], &[u8]), Wrong>
    ensures { Reads (λ found. (found.0.now, found.1.now)) result (halves_at bytes.now) }
{
    let Some((whole, rest)) = get_varint(bytes) else {
        return Err(Wrong::Broken);
    };
    let front = (bytes.len() - rest.len()) as u64;
    if whole < front || (rest.len() as u64) < whole - front {
        return Err(Wrong::Broken);
    }
    Ok(rest.split_at((whole - front) as usize))
}

/// The fields of these types, which take all of the bodies.
#[tactic(auto, unfolding(crate::specs::Reading::columns_at))]
fn fields<'a>(alloc: Global, types: &'a [u8], bodies: &'a [u8]) -> R<SmallVec<Field<'a>, 8>>
    ensures { Gives (λ found. map value_of found.items) result
        (answer (columns_at (length types.now) types.now bodies.now)) }
{
    let mut found = SmallVec::new(alloc);
    let mut types_left = types;
    let mut bodies_left = bodies;
    'columns: while !types_left.is_empty() {
        let (field, types_after, bodies_after) = read_field(types_left, bodies_left)?;
        found.push(field)?;
        types_left = types_after;
        bodies_left = bodies_after;
    }
    if !bodies_left.is_empty() {
        return Err(Fault::Damaged(Damage::Record, 0));
    }
    Ok(found)
}

/// A row of values that lies in bytes.
#[derive(Drop)]
pub struct Record<'a> {
    fields: SmallVec<Field<'a>, 8>,
}

impl<'a> Model for Record<'a> {
    ghost use Rattle.std.specs.Prelude.{List, map};
    ghost use Rattle.sqlval.specs.declared.value.Value.{Value as Stored};
    ghost use Rattle.sqlval.specs.Fields.{value_of};

    ghost Value = { List Stored };

    ghost view = { λ row. map value_of row.fields.items };
}

impl<'a> Record<'a> {
    /// The row that the bytes are a record of. A float is `Fault::Unsupported(Feature::Float)`; reserved types,
    /// texts that aren't UTF-8 and lengths that don't fit are `Fault::Damaged(Damage::Record, 0)`.
    pub fn over(alloc: Global, bytes: &'a [u8]) -> R<Record<'a>>
        // What is read is a record of these values.
        ensures found { IfOk result (λ row. IsRecord bytes.now row) }
        // A record of values is read as these, unless memory runs out.
        ensures only { (values : List Value) → IsRecord bytes.now values
            → Gives (λ row. row) result (Ok values) }
        // Which fault it is.
        ensures exact { Gives (λ row. row) result (answer (record_at bytes.now)) }
    {
        read(alloc, bytes)
    }

    /// The number of values.
    pub fn len(&self) -> usize
        ensures { result ≡ length self.now }
    {
        self.fields.len()
    }

    /// The value at a place, counted from 0.
    pub fn column(&self, index: usize) -> Field<'a>
        requires { index < length self.now }
        ensures { value_of result ≡ slice_index_or self.now index Null }
    {
        self.fields[index]
    }
}

#[tactic(auto, unfolding(crate::specs::Reading::record_at))]
fn read(alloc: Global, bytes: &[u8]) -> R<Record<'_>>
    ensures { Gives (λ row. row) result (answer (record_at bytes.now)) }
{
    let (types, bodies) = halves_of(bytes)?;
    let fields = fields(alloc, types, bodies)?;
    Ok(Record { fields })
}

/// The bytes of a record determine its values.
pub fn bytes_determine_values()
    ensures { DetermineValues }
{}

/// The bytes of a record are read as its values.
pub fn records_are_read()
    ensures { ReadsRecords }
{}
