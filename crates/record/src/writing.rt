//! Rows written as records.

ghost use Rattle.std.specs.Prelude.{◌≡◌, ◌⊎◌, ◌<◌, ◌≤◌, ◌+◌, ◌++◌, ◌↔◌, IsTrue, ℕ, List, length, vec_capacity, map, All, Err, IfOk, IfErr, OnOk};
ghost use Rattle.std.specs.List.{flat_map};
ghost use Rattle.sqlval.specs.Fields.{value_of};
ghost use Rattle.record.specs.Record.{IsRecord};
ghost use Rattle.record.specs.Writing.{IsStorable, AreStorable, IsBytes, Fits, wide_type, int_type, int_bytes, wide_bytes, serial_of, type_of, body_of, header_len, record_of};

use crate::field::body_size;
use crate::varint::{put_reserved, varint_len};
use smallvec::SmallVec;
use sqlval::{Fault, Field, R, Value};
use std::alloc::{AllocError, Global};

/// The smallest of the types 1 to 6 that holds an integer so many steps from 0 or from -1.
#[inline(always)]
#[tactic(auto, unfolding(crate::specs::Writing::wide_type))]
fn type_by_steps(steps: u64) -> u64
    ensures value { result ≡ wide_type steps }
    ensures low { 1 ≤ result }
    ensures high { result ≤ 6 }
{
    if steps < 1 << 7 {
        1
    } else if steps < 1 << 15 {
        2
    } else if steps < 1 << 23 {
        3
    } else if steps < 1 << 31 {
        4
    } else if steps < 1 << 47 {
        5
    } else {
        6
    }
}

/// The smallest type that holds an integer.
#[inline(always)]
fn type_of_int(n: i64) -> u64
    ensures { result ≡ int_type n }
{
    if n < 0 {
        type_by_steps((-1 - n) as u64)
    } else if n > 1 {
        type_by_steps(n as u64)
    } else {
        8 + n as u64
    }
}

/// The smallest type that holds a value.
#[inline(always)]
fn serial_type(field: Field<'_>) -> u64
    requires { IsStorable (value_of field) }
    ensures { result ≡ serial_of (value_of field.entry) }
{
    match field {
        Field::Null => 0,
        Field::Int(n) => type_of_int(n),
        Field::Text(text) => 13 + 2 * text.len() as u64,
        Field::Blob(bytes) => 12 + 2 * bytes.len() as u64,
    }
}

/// Writes bytes where there is room for them.
#[inline(always)]
fn put_bytes(out: &mut Vec<u8>, bytes: &[u8])
    requires { length out.old.items + length bytes.now ≤ vec_capacity out.old }
    ensures items { out.new.items ≡ out.old.items ++ bytes.now }
    ensures capacity { vec_capacity out.new ≡ vec_capacity out.old }
{
    for byte in bytes {
        out.push_reserved(*byte);
    }
}

/// Writes an integer at a type from 1 to 6 where there is room for it.
#[inline(always)]
fn put_wide(out: &mut Vec<u8>, serial: u64, n: i64)
    requires low { 1 ≤ serial }
    requires high { serial ≤ 6 }
    requires room { length out.old.items + length (wide_bytes serial n) ≤ vec_capacity out.old }
    ensures items { out.new.items ≡ out.old.items ++ wide_bytes serial n }
    ensures capacity { vec_capacity out.new ≡ vec_capacity out.old }
{
    let bytes = n.to_be_bytes();
    match serial {
        1 => put_bytes(out, &bytes[7..]),
        2 => put_bytes(out, &bytes[6..]),
        3 => put_bytes(out, &bytes[5..]),
        4 => put_bytes(out, &bytes[4..]),
        5 => put_bytes(out, &bytes[2..]),
        _ => put_bytes(out, &bytes),
    }
}

/// Writes an integer's body where there is room for it.
#[inline(always)]
fn put_int(out: &mut Vec<u8>, n: i64)
    requires { length out.old.items + length (int_bytes n) ≤ vec_capacity out.old }
    ensures items { out.new.items ≡ out.old.items ++ int_bytes n }
    ensures capacity { vec_capacity out.new ≡ vec_capacity out.old }
{
    if n < 0 {
        put_wide(out, type_by_steps((-1 - n) as u64), n);
    } else if n > 1 {
        put_wide(out, type_by_steps(n as u64), n);
    }
}

/// Writes a value's body where there is room for it.
#[inline(always)]
#[tactic(auto, unfolding(crate::specs::Writing::body_of))]
fn put_body(out: &mut Vec<u8>, field: Field<'_>) -> Result<(), AllocError>
    requires { length out.old.items + length (body_of (value_of field)) ≤ vec_capacity out.old }
    ensures ok { OnOk result (out.new.items ≡ out.old.items ++ body_of (value_of field.entry)) }
    ensures capacity { vec_capacity out.old ≤ vec_capacity out.new }
    ensures fits { Fits (value_of field.entry) }
{
    match field {
        Field::Null => Ok(()),
        Field::Int(n) => {
            put_int(out, n);
            Ok(())
        }
        Field::Text(text) => out.extend_from_slice(text.as_bytes()),
        Field::Blob(bytes) => out.extend_from_slice(bytes),
    }
}

/// Writes a value's type where there is room for it.
#[inline(always)]
#[tactic(auto, unfolding(crate::specs::Writing::type_of))]
fn put_type(out: &mut Vec<u8>, field: Field<'_>) -> Result<(), AllocError>
    requires storable { IsStorable (value_of field) }
    requires room { length out.old.items + length (type_of (value_of field)) ≤ vec_capacity out.old }
    ensures ok { OnOk result (out.new.items ≡ out.old.items ++ type_of (value_of field.entry)) }
    ensures capacity { vec_capacity out.old ≤ vec_capacity out.new }
{
    put_reserved(out, serial_type(field))
}

#[tactic(auto, unfolding(crate::specs::Writing::header_len))]
fn header_size(types: u64) -> u64
    requires { types < 16382 }
    ensures value { result ≡ header_len types }
    ensures small { result < 16384 }
{
    if types < 127 { types + 1 } else { types + 2 }
}

/// Whether a value may be stored.
fn is_storable_value(value: &Value) -> bool
    ensures { IsTrue result ↔ IsStorable value.now }
{
    match value {
        Value::Null | Value::Int(_) => true,
        Value::Text(text) => text.as_str().len() <= 1_000_000,
        Value::Blob(bytes) => bytes.as_slice().len() <= 1_000_000,
    }
}

/// Writes the types where there is room for them.
fn put_types(out: &mut Vec<u8>, fields: &[Field<'_>]) -> Result<(), AllocError>
    requires storable { All (λ field. IsStorable (value_of field)) fields.now }
    requires room { length out.old.items + length (flat_map (λ field. type_of (value_of field)) fields.now) ≤ vec_capacity out.old }
    ensures ok { OnOk result (out.new.items ≡ out.old.items ++ flat_map (λ field. type_of (value_of field)) fields.now) }
    ensures capacity { vec_capacity out.old ≤ vec_capacity out.new }
{
    for field in fields {
        put_type(out, *field)?;
    }
    Ok(())
}

/// Writes the bodies where there is room for them.
fn put_bodies(out: &mut Vec<u8>, fields: &[Field<'_>]) -> Result<(), AllocError>
    requires { length out.old.items + length (flat_map (λ field. body_of (value_of field)) fields.now) ≤ vec_capacity out.old }
    ensures ok { OnOk result (out.new.items ≡ out.old.items ++ flat_map (λ field. body_of (value_of field)) fields.now) }
    ensures fits { OnOk result (All (λ field. Fits (value_of field)) fields.now) }
{
    for field in fields {
        put_body(out, *field)?;
    }
    Ok(())
}

/// How many bytes the types take, and how many the bodies.
fn sizes(fields: &[Field<'_>]) -> (usize, usize)
    requires few { length fields.now ≤ 1000 }
    requires storable { All (λ field. IsStorable (value_of field)) fields.now }
    ensures types { result.0 ≡ length (flat_map (λ field. type_of (value_of field)) fields.now) }
    ensures bodies { result.1 ≡ length (flat_map (λ field. body_of (value_of field)) fields.now) }
    ensures few { result.0 ≤ 9000 }
    ensures short { result.1 ≤ 1000000000 }
{
    let mut types = 0;
    let mut bodies = 0;
    for field in fields {
        let serial = serial_type(*field);
        types += varint_len(serial);
        bodies += body_size(serial) as usize;
    }
    (types, bodies)
}

/// The values, without copies of their bytes.
fn lent(alloc: Global, values: &[Value]) -> Result<SmallVec<Field<'_>, 16>, AllocError>
    ensures { IfOk result (λ fields. map value_of fields.items ≡ values.now) }
{
    let mut fields = SmallVec::new(alloc);
    'values: for value in values {
        fields.push(value.as_field())?;
    }
    Ok(fields)
}

/// Whether a record can hold these values: at most 1000, each text and each blob of at most 1,000,000 bytes.
pub fn is_storable(values: &[Value]) -> bool
    ensures { IsTrue result ↔ AreStorable values.now }
{
    values.len() <= 1000 && values.iter().all(|value| is_storable_value(value))
}

/// The record of a row whose values lie elsewhere: its bytes, the fewest that there are. Fails with `Fault::Memory` alone.
pub fn encode_fields(alloc: Global, fields: &[Field<'_>]) -> R<Vec<u8>>
    requires { AreStorable (map value_of fields.now) }
    ensures is { IfOk result (λ bytes. IsRecord bytes.items (map value_of fields.now)) }
    // No record of these values is shorter.
    ensures shortest { IfOk result (λ bytes. (other : List ℕ) → IsBytes other
        → IsRecord other (map value_of fields.now)
        → length bytes.items ≤ length other) }
    ensures exact { IfOk result (λ bytes. bytes.items ≡ record_of (map value_of fields.now)) }
    ensures memory { IfErr result (λ fault. fault ≡ Fault.Memory) }
{
    let (types, bodies) = sizes(fields);
    let header = header_size(types as u64);
    let mut out = Vec::with_capacity(alloc, header as usize + bodies)?;
    put_reserved(&mut out, header)?;
    put_types(&mut out, fields)?;
    put_bodies(&mut out, fields)?;
    Ok(out)
}

/// The same of values.
pub fn encode(alloc: Global, values: &[Value]) -> R<Vec<u8>>
    // `is_storable` is the test.
    requires { AreStorable values.now }
    ensures is { IfOk result (λ bytes. IsRecord bytes.items values.now) }
    ensures shortest { IfOk result (λ bytes. (other : List ℕ) → IsBytes other
        → IsRecord other values.now
        → length bytes.items ≤ length other) }
    ensures exact { IfOk result (λ bytes. bytes.items ≡ record_of values.now) }
    ensures memory { IfErr result (λ fault. fault ≡ Fault.Memory) }
{
    let fields = lent(alloc, values)?;
    encode_fields(alloc, fields.as_slice())
}

/// The record of a row, where a record can hold it: `Fault::TooLong` where `is_storable` is false, or
/// `Fault::Memory`.
pub fn encode_row(alloc: Global, values: &[Value]) -> R<Vec<u8>>
    ensures is { IfOk result (λ bytes. IsRecord bytes.items values.now) }
    ensures exact { IfOk result (λ bytes. bytes.items ≡ record_of values.now) }
    ensures refused { IfErr result (λ fault. (fault ≡ Fault.Memory)
        ⊎ ((fault ≡ Fault.TooLong) × (AreStorable values.now → ⊥))) }
    // Values that no record can hold are refused for that.
    ensures long { (AreStorable values.now → ⊥) → result ≡ Err Fault.TooLong }
{
    if !is_storable(values) {
        return Err(Fault::TooLong);
    }
    encode(alloc, values)
}
