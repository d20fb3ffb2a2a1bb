//! The values of a record, each read where it is asked for.

ghost use Rattle.std.specs.Prelude.{◌≡◌, ◌<◌, ◌≤◌, ◌+◌, ◌++◌, IsOk, IfSome, OnOk, length, map, option_map, slice_get, unwrap_or};
ghost use Rattle.sqlval.specs.declared.value.Value.TheVariants.{Null};
ghost use Rattle.sqlval.specs.Fields.{value_of};
ghost use Rattle.record.specs.Columns.{HoldsValues, left_after, value_here, values_from, values_in};

use crate::field::{body_size, field_typed};
use crate::row::halves_of;
use crate::varint::get_varint;
use smallvec::SmallVec;
use sqlval::Field;
use std::alloc::AllocError;

/// Values that lie elsewhere: up to 16 of them take no memory.
pub type Fields<'a> = SmallVec<Field<'a>, 16>;

/// What is left of the types and of the bodies after the first value, whatever it is.
fn after_value<'a>(types: &'a [u8], bodies: &'a [u8]) -> Option<(&'a [u8], &'a [u8])>
    ensures left { option_map (λ left. (left.0.now, left.1.now)) result ≡ left_after types.now bodies.now }
    ensures shorter { IfSome result (λ left. length left.0.now < length types.now) }
{
    let (serial, types_left) = get_varint(types)?;
    let size = body_size(serial).min(bodies.len() as u64);
    Some((types_left, &bodies[size as usize..]))
}

/// The first value, NULL where none can be read.
fn first_value<'a>(types: &'a [u8], bodies: &'a [u8]) -> Field<'a>
    ensures { value_of result ≡ value_here types.now bodies.now }
{
    match get_varint(types) {
        Some((serial, _)) => field_typed(serial, bodies).0,
        None => Field::Null,
    }
}

/// The value at a place, NULL where there is none, or none that can be read.
fn nth_value<'a>(types: &'a [u8], bodies: &'a [u8], index: usize) -> Field<'a>
    ensures { value_of result ≡ unwrap_or (slice_get
        (values_from (length types.now) types.now bodies.now) index) Null }
{
    let mut types_left = types;
    let mut bodies_left = bodies;
    'columns: for _ in 0..index {
        let Some((types_after, bodies_after)) = after_value(types_left, bodies_left) else {
            return Field::Null;
        };
        types_left = types_after;
        bodies_left = bodies_after;
    }
    first_value(types_left, bodies_left)
}

/// Puts all values, in order, after those that are there.
fn put_fields<'a>(
    types: &'a [u8],
    bodies: &'a [u8],
    fields: &mut Fields<'a>,
) -> Result<(), AllocError>
    ensures all { OnOk result (map value_of fields.new.items
        ≡ map value_of fields.old.items ++ values_from (length types.now) types.now bodies.now) }
    ensures room { length fields.old.items + length (values_from (length types.now) types.now bodies.now)
        ≤ fields.old.capacity → IsOk result }
{
    let mut types_left = types;
    let mut bodies_left = bodies;
    'columns: while let Some((serial, types_after)) = get_varint(types_left) {
        let (field, bodies_after) = field_typed(serial, bodies_left);
        fields.push(field)?;
        types_left = types_after;
        bodies_left = bodies_after;
    }
    Ok(())
}

/// The value at a place of the record in these bytes, counted from 0: no other value is looked at. NULL past its values, and where none can be
/// read.
pub fn value_at(bytes: &[u8], index: usize) -> Field<'_>
    ensures { value_of result ≡ unwrap_or (slice_get (values_in bytes.now) index) Null }
{
    match halves_of(bytes) {
        Ok((types, bodies)) => nth_value(types, bodies, index),
        Err(_) => Field::Null,
    }
}

/// Reads the values of the record in these bytes, where they lie, as `value_at` gives them, in place of those that are there.
pub fn read_fields<'a>(bytes: &'a [u8], fields: &mut Fields<'a>) -> Result<(), AllocError>
    ensures all { OnOk result (map value_of fields.new.items ≡ values_in bytes.now) }
    ensures room { length (values_in bytes.now) ≤ fields.old.capacity → IsOk result }
{
    fields.clear();
    match halves_of(bytes) {
        Ok((types, bodies)) => put_fields(types, bodies, fields),
        Err(_) => Ok(()),
    }
}

/// In the bytes of a record lie its values.
pub fn records_hold_their_values()
    ensures { HoldsValues }
{}
