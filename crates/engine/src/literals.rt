//! Values as literals of SQL.

ghost use Rattle.std.specs.Prelude.{◌==◌, ◌≡◌, ◌++◌, ◌∷◌, OnOk};
ghost use Rattle.std.specs.List.{flat_map, list_any};
ghost use Rattle.engine.specs.Output.{doubled, literal, quoted, row_line};

use itoa::Buffer;
use sqlval::Value;
use std::alloc::{AllocError, Global};

/// Writes a byte of a text, a quote twice.
fn put_byte(out: &mut Vec<u8>, byte: u8) -> Result<(), AllocError>
    ensures { OnOk result (out.new.items ≡ out.old.items ++ doubled byte) }
{
    if byte == b'\'' {
        out.push(b'\'')?;
    }
    out.push(byte)?;
    Ok(())
}

/// Whether a text has a quote. The loop goes over all bytes, so that the compiler takes many at a time.
fn has_quote(text: &[u8]) -> bool
    ensures { result ≡ list_any (λ b. b == 39) text.now }
{
    let mut found = false;
    'bytes: for byte in text {
        found |= *byte == b'\'';
    }
    found
}

/// Writes the bytes of a text, each quote twice: at once where there is none.
fn put_doubled(out: &mut Vec<u8>, text: &[u8]) -> Result<(), AllocError>
    ensures { OnOk result (out.new.items ≡ out.old.items ++ flat_map doubled text.now) }
{
    if !has_quote(text) {
        return out.extend_from_slice(text);
    }
    'bytes: for byte in text {
        put_byte(out, *byte)?;
    }
    Ok(())
}

/// Writes a text between quotes.
pub fn put_text(out: &mut Vec<u8>, text: &[u8]) -> Result<(), AllocError>
    ensures { OnOk result (out.new.items ≡ out.old.items ++ quoted text.now) }
{
    out.push(b'\'')?;
    put_doubled(out, text)?;
    out.push(b'\'')?;
    Ok(())
}

/// Writes a value.
fn put_literal(alloc: Global, out: &mut Vec<u8>, value: &Value) -> Result<(), AllocError>
    ensures { OnOk result (out.new.items ≡ out.old.items ++ literal value.now) }
{
    match value {
        Value::Null => out.extend_from_slice(b"NULL"),
        Value::Int(number) => out.extend_from_slice(Buffer::new().format(*number).as_bytes()),
        Value::Text(text) => put_text(out, text.as_str().as_bytes()),
        Value::Blob(bytes) => {
            out.extend_from_slice(b"X'")?;
            out.extend_from_slice(
                hex::encode_upper(alloc, bytes.as_slice())?
                    .as_str()
                    .as_bytes(),
            )?;
            out.push(b'\'')?;
            Ok(())
        }
    }
}

/// Writes values, each after a bar.
fn put_others(alloc: Global, out: &mut Vec<u8>, values: &[Value]) -> Result<(), AllocError>
    ensures { OnOk result (out.new.items ≡ out.old.items ++ flat_map (λ next. 124 ∷ literal next) values.now) }
{
    'values: for value in values {
        out.push(b'|')?;
        put_literal(alloc, out, value)?;
    }
    Ok(())
}

/// Writes a row as a line.
pub fn put_row(alloc: Global, out: &mut Vec<u8>, row: &[Value]) -> Result<(), AllocError>
    ensures { OnOk result (out.new.items ≡ out.old.items ++ row_line row.now) }
{
    if let [first, others @ ..] = row {
        put_literal(alloc, out, first)?;
        put_others(alloc, out, others)?;
    }
    out.push(b'\n')?;
    Ok(())
}
