//! Functions and operators on texts.

ghost use Rattle.std.specs.Prelude.{◌≡◌, ◌⊎◌, ◌++◌, ◌≤◌, ◌<◌, ◌^◌, ◌==◌, map, pos, Some, None, option_map, length, count_by, IfOk, Ok};
ghost use Rattle.std.specs.List.{before_first};
ghost use Rattle.std.specs.Char.{to_ascii_lowercase, to_ascii_uppercase};
ghost use Rattle.std.specs.Fmt.{signed_decimal};
ghost use Rattle.sqlval.specs.Fields.{value_of};
ghost use Rattle.query_terms.specs.Outcome.{Answers};
ghost use Rattle.query_terms.specs.Values as meant;

use sqlval::{Fault, Field, R, Text, Value};
use std::alloc::Global;

/// The most bytes of a text that is joined.
const MAX_LEN: usize = 1_000_000;

/// The text of a value, in a new string; none of NULL.
fn text_of(alloc: Global, value: Field<'_>) -> R<Option<Text>>
    ensures { Answers (meant.as_text (value_of value.entry)) result }
{
    match value {
        Field::Null => Ok(None),
        Field::Int(n) => Ok(Some(Text::from_string(format!(in alloc; "{n}")?))),
        Field::Text(text) => Ok(Some(Text::from_str(alloc, text)?)),
        Field::Blob(_) => Err(Fault::TypeRefused),
    }
}

/// Two texts, one after the other.
fn join(alloc: Global, left: &str, right: &str) -> R<Value>
    ensures { Answers (meant.joined (Some left.now) (Some right.now)) result }
{
    if left.len() > MAX_LEN || right.len() > MAX_LEN - left.len() {
        return Err(Fault::TooLong);
    }
    let mut text = String::with_capacity(alloc, left.len() + right.len())?;
    text.push_str(left)?;
    text.push_str(right)?;
    Ok(Value::Text(Text::from_string(text)))
}

/// `||`.
pub fn concatenate(alloc: Global, left: Field<'_>, right: Field<'_>) -> R<Value>
    ensures { Answers (meant.concat (value_of left.entry) (value_of right.entry)) result }
{
    let left = text_of(alloc, left)?;
    let right = text_of(alloc, right)?;
    match (left, right) {
        (Some(left), Some(right)) => join(alloc, left.as_str(), right.as_str()),
        _ => Ok(Value::Null),
    }
}

/// The 26 ASCII letters in lower case.
fn lowered(alloc: Global, text: &str) -> R<Value>
    ensures { Answers (Ok (Value.Text (map to_ascii_lowercase text.now))) result }
{
    Ok(Value::Text(Text::from_string(text.to_ascii_lowercase(alloc)?)))
}

/// The 26 ASCII letters in upper case.
fn raised(alloc: Global, text: &str) -> R<Value>
    ensures { Answers (Ok (Value.Text (map to_ascii_uppercase text.now))) result }
{
    Ok(Value::Text(Text::from_string(text.to_ascii_uppercase(alloc)?)))
}

/// `lower`.
pub fn lower(alloc: Global, value: Field<'_>) -> R<Value>
    ensures { Answers (meant.on_text (map to_ascii_lowercase) (value_of value.entry)) result }
{
    match text_of(alloc, value)? {
        Some(text) => lowered(alloc, text.as_str()),
        None => Ok(Value::Null),
    }
}

/// `upper`.
pub fn upper(alloc: Global, value: Field<'_>) -> R<Value>
    ensures { Answers (meant.on_text (map to_ascii_uppercase) (value_of value.entry)) result }
{
    match text_of(alloc, value)? {
        Some(text) => raised(alloc, text.as_str()),
        None => Ok(Value::Null),
    }
}

/// Whether a byte of UTF-8 begins a character.
fn begins_char(byte: u8) -> bool
    ensures { result ≡ meant.begins_char byte }
{
    byte < 128 || byte > 191
}

/// How many characters stand before the first NUL.
fn chars_of(text: &[u8]) -> usize
    ensures value { result ≡ count_by meant.begins_char (before_first (λ c. c == 0) text.now) }
    ensures short { result ≤ length text.now }
{
    let mut count = 0;
    let mut rest = text;
    'bytes: while let [byte, after @ ..] = rest {
        if *byte == 0 {
            return count;
        }
        if begins_char(*byte) {
            count += 1;
        }
        rest = after;
    }
    count
}

/// `typeof`.
pub fn type_of(alloc: Global, value: Field<'_>) -> R<Value>
    ensures { Answers (Ok (Value.Text (meant.type_name (value_of value.entry)))) result }
{
    let name = match value {
        Field::Null => "null",
        Field::Int(_) => "integer",
        Field::Text(_) => "text",
        Field::Blob(_) => "blob",
    };
    Ok(Value::Text(Text::from_str(alloc, name)?))
}

/// `length`: a text's characters before a NUL, a blob's bytes.
pub fn length_of(alloc: Global, value: Field<'_>) -> R<Value>
    ensures { Answers (meant.length_of (value_of value.entry)) result }
{
    match value {
        Field::Null => Ok(Value::Null),
        Field::Int(number) => Ok(size_value(format!(in alloc; "{number}")?.len())),
        Field::Text(text) => Ok(size_value(chars_of(text.as_bytes()))),
        Field::Blob(bytes) => Ok(size_value(bytes.len())),
    }
}

/// A size as a value.
fn size_value(size: usize) -> Value
    requires { size < 2 ^ 63 }
    ensures { result ≡ Value.Int (pos size) }
{
    Value::Int(size as i64)
}
