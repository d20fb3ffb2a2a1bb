//! One value of a record, where it lies.

ghost use Rattle.std.specs.Prelude.{◌≡◌, ◌≤◌, drop, length};
ghost use Rattle.byteorder.specs.Endian.{big_number, twos_complement};
ghost use Rattle.sqlval.specs.Fields.{value_of};
ghost use Rattle.record.specs.Columns.{value_typed};
ghost use Rattle.record.specs.Reading.{Reads, body_len, body_at, text_at, column_at, fault_of};

use crate::varint::get_varint;
use byteorder::{BigEndian, ByteOrder};
use sqlval::{Damage, Fault, Feature, Field};

/// Why bytes are no record.
#[derive(Clone, Copy)]
pub enum Wrong {
    /// A serial type is that of a float.
    Float,
    /// The format is broken.
    Broken,
}

impl From<Wrong> for Fault {
    ghost from_gives = { λ wrong fault. fault ≡ fault_of wrong };

    fn from(wrong: Wrong) -> Fault {
        match wrong {
            Wrong::Float => Fault::Unsupported(Feature::Float),
            Wrong::Broken => Fault::Damaged(Damage::Record, 0),
        }
    }
}

/// The bytes that a value of this serial type takes.
#[inline(always)]
#[tactic(auto, unfolding(crate::specs::Reading::body_len))]
pub(crate) fn body_size(serial: u64) -> u64
    ensures { result ≡ body_len serial }
{
    match serial {
        0..=4 => serial,
        5 => 6,
        6 | 7 => 8,
        8..=11 => 0,
        _ => (serial - 12) / 2,
    }
}

/// The text with these bytes.
fn read_text(body: &[u8]) -> Result<Field<'_>, Wrong>
    ensures { Reads value_of result (text_at body.now) }
{
    match str::from_utf8(body) {
        Ok(text) => Ok(Field::Text(text)),
        Err(_) => Err(Wrong::Broken),
    }
}

/// The value of this type with this body.
#[inline(always)]
#[tactic(auto, unfolding(crate::specs::Reading::body_at, crate::specs::Reading::body_len))]
fn read_body(serial: u64, body: &[u8]) -> Result<Field<'_>, Wrong>
    requires { length body.now ≡ body_len serial }
    ensures { Reads value_of result (body_at serial body.now) }
{
    match serial {
        0 => Ok(Field::Null),
        1 => Ok(Field::Int(i64::from(body[0].cast_signed()))),
        2 => Ok(Field::Int(i64::from(BigEndian::read_i16(body)))),
        3 => Ok(Field::Int(i64::from(BigEndian::read_i24(body)))),
        4 => Ok(Field::Int(i64::from(BigEndian::read_i32(body)))),
        5 => Ok(Field::Int(BigEndian::read_i48(body))),
        6 => Ok(Field::Int(BigEndian::read_i64(body))),
        7 => Err(Wrong::Float),
        8 => Ok(Field::Int(0)),
        9 => Ok(Field::Int(1)),
        10 | 11 => Err(Wrong::Broken),
        _ if serial % 2 == 0 => Ok(Field::Blob(body)),
        _ => read_text(body),
    }
}

/// The value of this type at the front of the bodies, NULL where it can't be read, and the bodies after it.
#[inline(always)]
pub(crate) fn field_typed<'a>(serial: u64, bodies: &'a [u8]) -> (Field<'a>, &'a [u8])
    ensures value { value_of result.0 ≡ value_typed serial bodies.now }
    ensures left { result.1.now ≡ drop (body_len serial) bodies.now }
{
    let size = body_size(serial);
    if (bodies.len() as u64) < size {
        return (Field::Null, &[]);
    }
    let (body, left) = bodies.split_at(size as usize);
    match read_body(serial, body) {
        Ok(field) => (field, left),
        Err(_) => (Field::Null, left),
    }
}

/// The first value, and what is left of the types and of the bodies.
#[inline]
#[tactic(auto, unfolding(crate::specs::Reading::column_at))]
pub fn read_field<'a>(
    types: &'a [u8],
    bodies: &'a [u8],
) -> Result<(Field<'a>, &'a [u8], &'a [u8]), Wrong>
    ensures { Reads (λ found. (value_of found.0, found.1.now, found.2.now)) result
        (column_at types.now bodies.now) }
{
    let Some((serial, types)) = get_varint(types) else {
        return Err(Wrong::Broken);
    };
    let size = body_size(serial);
    if (bodies.len() as u64) < size {
        return Err(Wrong::Broken);
    }
    let (body, bodies) = bodies.split_at(size as usize);
    let field = read_body(serial, body)?;
    Ok((field, types, bodies))
}
