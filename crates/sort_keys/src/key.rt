//! The key of a value.

ghost use Rattle.std.specs.Prelude.{◌≡◌, ◌++◌, ◌∷◌, OnOk, map};
ghost use Rattle.std.specs.Int.{w64, to_be_bytes};
ghost use Rattle.sqlval.specs.Fields.{value_of};
ghost use Rattle.sqlval.specs.Names.{folded};
ghost use Rattle.sqlval.specs.Order.{seen_by, trimmed};
ghost use Rattle.sort_keys.specs.Keys.{AreBytes, IsHeld, above_lowest, complement, ended, ascending_key, value_key};
ghost use Rattle.sort_keys.specs.Laws.{KeysStandAsValues, FullKeysStandAsValues, PrefixesStandFirst};

use crate::runs::put_ended;
use sqlval::{Collation, Field};
use std::alloc::AllocError;

/// Turns the order of bytes round.
fn turn(bytes: &mut [u8])
    ensures { bytes.new ≡ complement bytes.old }
{
    for byte in bytes.iter_mut() {
        *byte = 255 - *byte;
    }
}

/// Puts letters in lower case.
fn fold(bytes: &mut [u8])
    ensures { bytes.new ≡ folded bytes.old }
{
    for byte in bytes.iter_mut() {
        *byte = byte.to_ascii_lowercase();
    }
}

/// The bytes without the spaces at the end.
fn without_end_spaces(text: &[u8]) -> &[u8]
    ensures { result.now ≡ trimmed text.now }
{
    let mut end = text.len();
    while end > 0 && text[end - 1] == b' ' {
        end -= 1;
    }
    &text[..end]
}

/// An integer, 2^63 added.
fn raised(n: i64) -> u64
    ensures { result ≡ above_lowest n }
{
    n.cast_unsigned().wrapping_add(1 << 63)
}

/// Writes the key of an integer.
fn put_int(out: &mut Vec<u8>, n: i64) -> Result<(), AllocError>
    ensures { OnOk result (out.new.items ≡ out.old.items ++ 2 ∷ to_be_bytes w64 (above_lowest n)) }
{
    let b = raised(n).to_be_bytes();
    out.extend_from_slice(&[2, b[0], b[1], b[2], b[3], b[4], b[5], b[6], b[7]])
}

/// Writes the key of a text without the case of its letters.
fn put_folded(out: &mut Vec<u8>, text: &[u8]) -> Result<(), AllocError>
    ensures ok { OnOk result (out.new.items ≡ out.old.items ++ 3 ∷ ended (folded text.now)) }
    ensures bytes { AreBytes text.now }
{
    let start = out.len();
    put_ended(out, 3, text)?;
    fold(&mut out[start..]);
    Ok(())
}

/// Writes the key of a text.
fn put_text(out: &mut Vec<u8>, text: &[u8], collation: Collation) -> Result<(), AllocError>
    ensures ok { OnOk result (out.new.items ≡ out.old.items ++ 3 ∷ ended (seen_by collation text.now)) }
    ensures bytes { AreBytes text.now }
{
    match collation {
        Collation::Binary => put_ended(out, 3, text),
        Collation::NoCase => put_folded(out, text),
        Collation::RTrim => put_ended(out, 3, without_end_spaces(text)),
    }
}

/// Writes the key of a value under a key that rises.
fn put_rising(out: &mut Vec<u8>, collation: Collation, value: Field<'_>) -> Result<(), AllocError>
    ensures ok { OnOk result (out.new.items ≡ out.old.items ++ ascending_key collation (value_of value.entry)) }
    ensures held { IsHeld (value_of value.entry) }
{
    match value {
        Field::Null => Ok(out.push(1)?),
        Field::Int(n) => put_int(out, n),
        Field::Text(text) => put_text(out, text.as_bytes(), collation),
        Field::Blob(bytes) => put_ended(out, 4, bytes),
    }
}

/// Writes the key of a value at the end.
pub fn put_key(
    out: &mut Vec<u8>,
    collation: Collation,
    descending: bool,
    value: Field<'_>,
) -> Result<(), AllocError>
    ensures ok { OnOk result (out.new.items ≡ out.old.items
        ++ value_key (record { collation = collation; descending = descending }) (value_of value.entry)) }
    ensures held { IsHeld (value_of value.entry) }
{
    let start = out.len();
    put_rising(out, collation, value)?;
    if descending {
        turn(&mut out[start..]);
    }
    Ok(())
}

/// Keys stand as their values do; where the numbers of their first sixteen bytes differ, they stand as these.
pub fn keys_stand_as_values()
    ensures order { KeysStandAsValues }
    ensures full { FullKeysStandAsValues }
    ensures prefix { PrefixesStandFirst }
{}
