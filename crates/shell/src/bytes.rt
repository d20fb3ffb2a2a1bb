//! Classes of bytes, and bytes that are written many times.

ghost use Rattle.std.specs.Prelude.{◌≡◌, ◌++◌, OnOk, replicate};
ghost use Rattle.sql_lexer.specs.Bytes as lexed;
ghost use Rattle.sql_lexer.specs.declared.class.Class.TheVariants as class;
ghost use Rattle.shell.specs.Bytes as spec;

use std::alloc::AllocError;

/// Whether a byte is one of the spaces of SQL.
pub fn is_space(byte: u8) -> bool
    ensures { result ≡ lexed.is_space byte }
{
    matches!(byte, b' ' | b'\t' | b'\n' | 12 | b'\r')
}

/// Whether a byte goes on in a word: letters, digits, `_`, `$`, and parts of a character past ASCII.
pub fn is_word(byte: u8) -> bool
    ensures { result ≡ lexed.is_in class.Word byte }
{
    byte.is_ascii_alphabetic()
        || byte == b'_'
        || 128 <= byte
        || byte.is_ascii_digit()
        || byte == b'$'
}

/// Whether a byte begins a character of UTF-8.
pub fn begins_character(byte: u8) -> bool
    ensures { result ≡ spec.begins_character byte }
{
    byte < 128 || 192 <= byte
}

/// How many characters a text has.
pub fn width(text: &[u8]) -> usize
    ensures { result ≡ spec.character_count text.now }
{
    text.iter().filter(|byte| begins_character(**byte)).count()
}

/// Writes a byte so many times.
pub fn put_times(out: &mut Vec<u8>, byte: u8, times: usize) -> Result<(), AllocError>
    ensures { OnOk result (out.new.items ≡ out.old.items ++ replicate times byte) }
{
    'times: for _ in 0..times {
        out.push(byte)?;
    }
    Ok(())
}
