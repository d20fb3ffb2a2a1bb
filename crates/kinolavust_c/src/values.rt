//! Values that the caller wrote as bytes, as replies have them.

ghost use Rattle.std.specs.Prelude.{◌≡◌, ◌<◌, ◌+◌, ◌∷◌, IfOk, ◌^◌, ◌++◌, ℕ, ℤ, List, FitsSigned, length, IfSome, MatchOption};
ghost use Rattle.std.specs.Int.{w64, cast_unsigned, to_be_bytes};
ghost use Rattle.std.specs.Str.{IsUtf8};
ghost use Rattle.std.specs.List.{flat_map};
ghost use Rattle.sqlval.specs.Faults.{IsOrMemory};
ghost use Rattle.sqlval.specs.Fields.{value_of};
ghost use Rattle.sqlval.specs.declared.value.Value.{Value};
ghost use Rattle.sqlval.specs.declared.value.Value.TheVariants.{Int, Text, Blob};
ghost use Rattle.kinolavust_c.specs.Replies.{after_count, value_bytes};
ghost use Rattle.kinolavust_c.specs.Values.{AreBytesOf, IsWritable};

use sqlval::{Fault, Field, Misuse, R, Value};
use std::alloc::Global;

/// The number of the first 8 bytes, the greatest first, and the bytes after them.
fn number_first(bytes: &[u8]) -> Option<(u64, &[u8])>
    ensures only { (number : ℕ) (rest : List ℕ) → number < 2 ^ 64 → bytes.now ≡ to_be_bytes w64 number ++ rest
        → MatchOption result ⊥ (λ first. (first.0 ≡ number) × (first.1.now ≡ rest)) }
    ensures found { IfSome result (λ first. bytes.now ≡ to_be_bytes w64 first.0 ++ first.1.now) }
{
    let (number, rest) = bytes.split_first_chunk::<8>()?;
    Some((u64::from_be_bytes(*number), rest))
}

/// Bytes after their count, and what is after them.
fn counted_first(bytes: &[u8]) -> Option<(&[u8], &[u8])>
    ensures only { (front rest : List ℕ) → length front < 2 ^ 64 → bytes.now ≡ after_count front ++ rest
        → MatchOption result ⊥ (λ first. (first.0.now ≡ front) × (first.1.now ≡ rest)) }
    ensures found { IfSome result (λ first. bytes.now ≡ after_count first.0.now ++ first.1.now) }
{
    let (count, rest) = number_first(bytes)?;
    rest.split_at_checked(count as usize)
}

/// An integer, and what is after it.
fn integer_first(bytes: &[u8]) -> Option<(Field<'_>, &[u8])>
    ensures only { (number : ℤ) (rest : List ℕ) → FitsSigned w64 number
        → bytes.now ≡ to_be_bytes w64 (cast_unsigned w64 number) ++ rest
        → MatchOption result ⊥ (λ first. (value_of first.0 ≡ Int number) × (first.1.now ≡ rest)) }
    ensures found { IfSome result (λ first. 1 ∷ bytes.now ≡ value_bytes (value_of first.0) ++ first.1.now) }
{
    let (number, rest) = number_first(bytes)?;
    Some((Field::Int(number.cast_signed()), rest))
}

/// A text, and what is after it.
fn text_first(bytes: &[u8]) -> Option<(Field<'_>, &[u8])>
    ensures only { (text rest : List ℕ) → IsUtf8 text → length text < 2 ^ 64 → bytes.now ≡ after_count text ++ rest
        → MatchOption result ⊥ (λ first. (value_of first.0 ≡ Text text) × (first.1.now ≡ rest)) }
    ensures found { IfSome result (λ first. 2 ∷ bytes.now ≡ value_bytes (value_of first.0) ++ first.1.now) }
{
    let (text, rest) = counted_first(bytes)?;
    match str::from_utf8(text) {
        Ok(text) => Some((Field::Text(text), rest)),
        Err(_) => None,
    }
}

/// A blob, and what is after it.
fn blob_first(bytes: &[u8]) -> Option<(Field<'_>, &[u8])>
    ensures only { (blob rest : List ℕ) → length blob < 2 ^ 64 → bytes.now ≡ after_count blob ++ rest
        → MatchOption result ⊥ (λ first. (value_of first.0 ≡ Blob blob) × (first.1.now ≡ rest)) }
    ensures found { IfSome result (λ first. 3 ∷ bytes.now ≡ value_bytes (value_of first.0) ++ first.1.now) }
{
    let (blob, rest) = counted_first(bytes)?;
    Some((Field::Blob(blob), rest))
}

/// The value that bytes begin with, and what is after it.
fn value_first(bytes: &[u8]) -> Option<(Field<'_>, &[u8])>
    ensures only { (value : Value) (rest : List ℕ) → IsWritable value → bytes.now ≡ value_bytes value ++ rest
        → MatchOption result ⊥ (λ first. (value_of first.0 ≡ value) × (first.1.now ≡ rest)) }
    ensures found { IfSome result (λ first. bytes.now ≡ value_bytes (value_of first.0) ++ first.1.now) }
{
    let (kind, rest) = bytes.split_first()?;
    match *kind {
        0 => Some((Field::Null, rest)),
        1 => integer_first(rest),
        2 => text_first(rest),
        3 => blob_first(rest),
        _ => None,
    }
}

/// The values whose bytes these are, one after another. (`Misuse` where they are those of no values; `Memory`.)
pub fn values_of(alloc: Global, bytes: &[u8]) -> R<Vec<Value>>
    ensures only { (values : List Value) → AreBytesOf values bytes.now → IsOrMemory (λ read. read.items ≡ values) result }
    ensures found { IfOk result (λ read. bytes.now ≡ flat_map value_bytes read.items) }
{
    let mut values = Vec::new(alloc);
    let mut left = bytes;
    'values: while !left.is_empty() {
        let Some((value, rest)) = value_first(left) else {
            return Err(Fault::Misuse(Misuse::InputLine));
        };
        values.push(value.to_value(alloc)?)?;
        left = rest;
    }
    Ok(values)
}
