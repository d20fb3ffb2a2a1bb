//! The place of a syntax error: the line that holds it, and a caret below.

ghost use Rattle.std.specs.Prelude.{◌≡◌, ◌++◌, ◌≤◌, ℕ, ◌<◌, ◌≢◌, ◌-◌, length, slice_index, slice_range, OnOk};
ghost use Rattle.std.specs.List.{flat_map};
ghost use Rattle.shell.specs.Places as spec;
ghost use Rattle.shell.specs.Places.{BeginsLine, EndsLine, HasPlace};

use crate::bytes::begins_character;
use std::alloc::AllocError;

/// Where the line that holds a place begins.
fn line_start(text: &[u8], at: usize) -> usize
    requires { at ≤ length text.now }
    ensures { BeginsLine text.now at result }
{
    let mut start = at;
    'bytes: while start > 0 && text[start - 1] != b'\n' {
        start -= 1;
    }
    start
}

/// Where the line that holds a place ends.
fn line_end(text: &[u8], at: usize) -> usize
    requires { at ≤ length text.now }
    ensures { EndsLine text.now at result }
{
    let mut end = at;
    'bytes: while end < text.len() && text[end] != b'\n' {
        end += 1;
    }
    end
}

/// Writes what takes the width of a byte: a tab of a tab, a space of another byte that begins a character.
fn put_room(out: &mut Vec<u8>, byte: u8) -> Result<(), AllocError>
    ensures { OnOk result (out.new.items ≡ out.old.items ++ spec.room byte) }
{
    if byte == b'\t' {
        out.push(b'\t')?;
    } else if begins_character(byte) {
        out.push(b' ')?;
    }
    Ok(())
}

/// Writes what takes the width of a text, and a caret.
fn put_caret(out: &mut Vec<u8>, before: &[u8]) -> Result<(), AllocError>
    ensures { OnOk result (out.new.items ≡ out.old.items ++ spec.caret before.now) }
{
    'bytes: for byte in before {
        put_room(out, *byte)?;
    }
    out.extend_from_slice(b"^\n")
}

/// Writes the line of a text that holds a place, in bytes from its front, and below it a caret under the place. A place past the end is
/// the end.
pub fn put_place(out: &mut Vec<u8>, text: &[u8], place: usize) -> Result<(), AllocError>
    ensures { OnOk result (HasPlace text.now place out.old.items out.new.items) }
{
    let at = place.min(text.len());
    let start = line_start(text, at);
    let end = line_end(text, at);
    out.extend_from_slice(&text[start..end])?;
    out.push(b'\n')?;
    put_caret(out, &text[start..at])
}
