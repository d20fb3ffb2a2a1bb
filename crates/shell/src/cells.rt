//! Values as text.

ghost use Rattle.std.specs.Prelude.{◌≡◌, ◌++◌, OnOk, IfOk};
ghost use Rattle.std.specs.List.{flat_map, list_any};
ghost use Rattle.shell.specs.Bytes.{character_count};
ghost use Rattle.shell.specs.Cells as spec;

use crate::bytes::width;
use itoa::Buffer;
use sqlval::Value;
use std::alloc::{AllocError, Global};

/// Writes a byte of a text between quotes, the quote twice.
fn put_doubled(out: &mut Vec<u8>, quote: u8, byte: u8) -> Result<(), AllocError>
    ensures { OnOk result (out.new.items ≡ out.old.items ++ spec.twice quote byte) }
{
    if byte == quote {
        out.push(quote)?;
    }
    out.push(byte)?;
    Ok(())
}

/// Writes a text between quotes.
pub fn put_between(out: &mut Vec<u8>, quote: u8, text: &[u8]) -> Result<(), AllocError>
    ensures { OnOk result (out.new.items ≡ out.old.items ++ spec.in_quotes quote text.now) }
{
    out.push(quote)?;
    'bytes: for byte in text {
        put_doubled(out, quote, *byte)?;
    }
    out.push(quote)?;
    Ok(())
}

/// Writes the literal of a blob.
fn put_blob(alloc: Global, out: &mut Vec<u8>, bytes: &[u8]) -> Result<(), AllocError>
    ensures { OnOk result (out.new.items ≡ out.old.items ++ spec.blob_literal bytes.now) }
{
    out.extend_from_slice(b"X'")?;
    out.extend_from_slice(hex::encode_upper(alloc, bytes)?.as_str().as_bytes())?;
    out.push(b'\'')?;
    Ok(())
}

/// Writes a value as a literal of SQL.
pub fn put_literal(alloc: Global, out: &mut Vec<u8>, value: &Value) -> Result<(), AllocError>
    ensures { OnOk result (out.new.items ≡ out.old.items ++ spec.sql_literal value.now) }
{
    match value {
        Value::Null => out.extend_from_slice(b"NULL"),
        Value::Int(number) => out.extend_from_slice(Buffer::new().format(*number).as_bytes()),
        Value::Text(text) => put_between(out, b'\'', text.as_str().as_bytes()),
        Value::Blob(bytes) => put_blob(alloc, out, bytes.as_slice()),
    }
}

/// Writes a value as people read it: a text without quotes, a blob as its literal, and nothing of NULL.
pub fn put_plain(alloc: Global, out: &mut Vec<u8>, value: &Value) -> Result<(), AllocError>
    ensures { OnOk result (out.new.items ≡ out.old.items ++ spec.plain value.now) }
{
    match value {
        Value::Null => Ok(()),
        Value::Int(number) => out.extend_from_slice(Buffer::new().format(*number).as_bytes()),
        Value::Text(text) => out.extend_from_slice(text.as_str().as_bytes()),
        Value::Blob(bytes) => put_blob(alloc, out, bytes.as_slice()),
    }
}

/// Whether a byte makes a field of CSV stand between quotes.
fn wants_quotes(byte: u8) -> bool
    ensures { result ≡ spec.wants_quotes byte }
{
    byte <= 32 || byte == b'"' || byte == b'\'' || byte == b',' || 127 <= byte
}

/// Whether a byte of a text makes it stand between quotes.
fn has_special(text: &[u8]) -> bool
    ensures { result ≡ list_any spec.wants_quotes text.now }
{
    text.iter().any(|byte| wants_quotes(*byte))
}

/// Whether a field of CSV stands between quotes.
fn is_quoted(text: &[u8]) -> bool
    ensures { result ≡ spec.is_quoted text.now }
{
    text.is_empty() || has_special(text)
}

/// Writes a field of CSV.
pub fn put_csv(out: &mut Vec<u8>, text: &[u8]) -> Result<(), AllocError>
    ensures { OnOk result (out.new.items ≡ out.old.items ++ spec.csv_text text.now) }
{
    if is_quoted(text) {
        return put_between(out, b'"', text);
    }
    out.extend_from_slice(text)
}

/// Writes a value as a field of CSV: nothing of NULL.
pub fn put_csv_value(alloc: Global, out: &mut Vec<u8>, value: &Value) -> Result<(), AllocError>
    ensures { OnOk result (out.new.items ≡ out.old.items ++ spec.csv_field value.now) }
{
    if let Value::Null = value {
        return Ok(());
    }
    let mut text = Vec::new(alloc);
    put_plain(alloc, &mut text, value)?;
    put_csv(out, &text)
}

/// Writes a byte so that it takes one line: `^A` for a byte that controls a terminal.
fn put_visible(out: &mut Vec<u8>, byte: u8) -> Result<(), AllocError>
    ensures { OnOk result (out.new.items ≡ out.old.items ++ spec.visible byte) }
{
    if byte < 32 {
        out.push(b'^')?;
        out.push(64 + byte)?;
    } else if byte == 127 {
        out.extend_from_slice(b"^?")?;
    } else {
        out.push(byte)?;
    }
    Ok(())
}

/// Writes a text so that it takes one line.
pub fn put_shown(out: &mut Vec<u8>, text: &[u8]) -> Result<(), AllocError>
    ensures { OnOk result (out.new.items ≡ out.old.items ++ flat_map spec.visible text.now) }
{
    'bytes: for byte in text {
        put_visible(out, *byte)?;
    }
    Ok(())
}

/// The text of a name in a table.
pub fn heading_of(alloc: Global, name: &[u8]) -> Result<Vec<u8>, AllocError>
    ensures { IfOk result (λ text. text.items ≡ spec.heading_text name.now) }
{
    let mut text = Vec::new(alloc);
    put_shown(&mut text, name)?;
    Ok(text)
}

/// The text of a value in a table.
pub fn cell_of(alloc: Global, value: &Value) -> Result<Vec<u8>, AllocError>
    ensures { IfOk result (λ text. text.items ≡ spec.cell_text value.now) }
{
    let mut plain = Vec::new(alloc);
    put_plain(alloc, &mut plain, value)?;
    heading_of(alloc, &plain)
}

/// How many characters a name has in a table.
pub fn heading_width(alloc: Global, name: &[u8]) -> Result<usize, AllocError>
    ensures { IfOk result (λ n. n ≡ character_count (spec.heading_text name.now)) }
{
    let text = heading_of(alloc, name)?;
    Ok(width(&text))
}

/// How many characters a value has in a table.
pub fn cell_width(alloc: Global, value: &Value) -> Result<usize, AllocError>
    ensures { IfOk result (λ n. n ≡ character_count (spec.cell_text value.now)) }
{
    let text = cell_of(alloc, value)?;
    Ok(width(&text))
}
