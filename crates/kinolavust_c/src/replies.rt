//! Replies as bytes, for the caller to read. Numbers have 8 bytes, the greatest first.

ghost use Rattle.std.specs.Prelude.{◌≡◌, ◌⊎◌, ◌++◌, [], IfOk, OnOk};
ghost use Rattle.std.specs.Int.{w64, to_be_bytes};
ghost use Rattle.std.specs.List.{flat_map};
ghost use Rattle.messages.specs.Details.{HasMessage};
ghost use Rattle.kinolavust_c.specs.Numbers.{refusal_number};
ghost use Rattle.kinolavust_c.specs.Replies.{AreRefusal, after_count, refusal_place, row_bytes, rows_bytes, refusal_subject, value_bytes};

use messages::put_message;
use sqlval::{Fault, Row, Value};
use std::alloc::{AllocError, Global};

/// Writes bytes after their count.
fn put_after_count(out: &mut Vec<u8>, bytes: &[u8]) -> Result<(), AllocError>
    ensures { OnOk result (out.new.items ≡ out.old.items ++ after_count bytes.now) }
{
    out.extend_from_slice(&(bytes.len() as u64).to_be_bytes())?;
    out.extend_from_slice(bytes)
}

/// Writes a value: its kind, a byte, and its number or its bytes.
fn put_value(out: &mut Vec<u8>, value: &Value) -> Result<(), AllocError>
    ensures { OnOk result (out.new.items ≡ out.old.items ++ value_bytes value.now) }
{
    match value {
        Value::Null => {
            out.push(0)?;
            Ok(())
        }
        Value::Int(number) => {
            out.push(1)?;
            out.extend_from_slice(&number.to_be_bytes())
        }
        Value::Text(text) => {
            out.push(2)?;
            put_after_count(out, text.as_str().as_bytes())
        }
        Value::Blob(bytes) => {
            out.push(3)?;
            put_after_count(out, bytes.as_slice())
        }
    }
}

/// Writes values, one after another.
fn put_values(out: &mut Vec<u8>, values: &[Value]) -> Result<(), AllocError>
    ensures { OnOk result (out.new.items ≡ out.old.items ++ flat_map value_bytes values.now) }
{
    'values: for value in values {
        put_value(out, value)?;
    }
    Ok(())
}

/// Writes a row: the count of its values, and these.
fn put_row(out: &mut Vec<u8>, row: &[Value]) -> Result<(), AllocError>
    ensures { OnOk result (out.new.items ≡ out.old.items ++ row_bytes row.now) }
{
    out.extend_from_slice(&(row.len() as u64).to_be_bytes())?;
    put_values(out, row)
}

/// Writes rows.
pub fn put_rows(out: &mut Vec<u8>, rows: &[Row]) -> Result<(), AllocError>
    ensures { OnOk result (out.new.items ≡ out.old.items ++ rows_bytes rows.now) }
{
    'rows: for row in rows {
        put_row(out, row.as_slice())?;
    }
    Ok(())
}

/// The number of a refusal, as docs/ERRORS.md has it.
pub fn number(fault: &Fault) -> u32
    ensures { result ≡ refusal_number fault.now }
{
    match fault {
        Fault::Memory => 1,
        Fault::Io => 2,
        Fault::NotADatabase => 3,
        Fault::Unsupported(_) => 4,
        Fault::Damaged(_, _) => 5,
        Fault::Full => 6,
        Fault::Syntax(_) => 7,
        Fault::NoSuch(_, _) => 8,
        Fault::Exists(_) => 9,
        Fault::Ambiguous(_) => 10,
        Fault::Misuse(_) => 11,
        Fault::Busy => 12,
        Fault::StaleSnapshot => 13,
        Fault::NoTransaction => 14,
        Fault::InTransaction => 15,
        Fault::NoSavepoint => 16,
        Fault::NotNull => 17,
        Fault::Unique => 18,
        Fault::Check => 19,
        Fault::Raised(_) => 20,
        Fault::RealRefused => 21,
        Fault::TypeRefused => 22,
        Fault::RowidFull => 23,
        Fault::RowidMismatch => 24,
        Fault::TooLong => 25,
        Fault::RowChangedBefore => 26,
        Fault::ViewReadOnly => 27,
        Fault::Failed => 28,
        Fault::Blank => 29,
        Fault::Journal => 30,
    }
}

/// The byte where a statement leaves the grammar, or the damaged page; else 0.
fn place(fault: &Fault) -> u64
    ensures { result ≡ refusal_place fault.now }
{
    match fault {
        Fault::Damaged(_, page) => u64::from(*page),
        Fault::Syntax(offset) => *offset as u64,
        _ => 0,
    }
}

/// The name or the text that a refusal speaks of.
fn subject(fault: &Fault) -> &str
    ensures { result.now ≡ refusal_subject fault.now }
{
    match fault {
        Fault::NoSuch(_, name) => name.as_str(),
        Fault::Exists(name) => name.as_str(),
        Fault::Ambiguous(name) => name.as_str(),
        Fault::Raised(raised) => raised.text.as_str(),
        _ => "",
    }
}

/// The message of a refusal.
fn message(alloc: Global, fault: &Fault) -> Result<Vec<u8>, AllocError>
    ensures { IfOk result (λ message. HasMessage fault.now [] message.items) }
{
    let mut message = Vec::new(alloc);
    put_message(&mut message, fault)?;
    Ok(message)
}

/// A refusal: its place, what it speaks of, its number with its name, and its message.
fn refusal(alloc: Global, fault: &Fault) -> Result<Vec<u8>, AllocError>
    ensures { IfOk result (λ bytes. AreRefusal fault.now bytes.items) }
{
    let message = message(alloc, fault)?;
    let mut out = Vec::new(alloc);
    out.extend_from_slice(&place(fault).to_be_bytes())?;
    put_after_count(&mut out, subject(fault).as_bytes())?;
    put_after_count(&mut out, fault.title().as_bytes())?;
    put_after_count(&mut out, message.as_slice())?;
    Ok(out)
}

/// The bytes of a refusal, or none where there is no memory for them.
pub fn refusal_or_nothing(alloc: Global, fault: &Fault) -> Vec<u8>
    ensures { (result.items ≡ []) ⊎ AreRefusal fault.now result.items }
{
    match refusal(alloc, fault) {
        Ok(bytes) => bytes,
        Err(_) => Vec::new(alloc),
    }
}

/// Copies the bytes of a refusal to the front of a buffer, as many as there is room and memory for.
pub fn copy_refusal(alloc: Global, fault: &Fault, out: &mut [u8]) {
    let bytes = refusal_or_nothing(alloc, fault);
    let count = bytes.len().min(out.len());
    out[..count].copy_from_slice(&bytes[..count]);
}
