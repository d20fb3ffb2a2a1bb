//! Classes of bytes.

ghost use Rattle.std.specs.Prelude.{◌≡◌};
ghost use Rattle.sql_lexer.specs.Bytes as spec;
ghost use Rattle.sql_lexer.specs.Lex as lex;

/// Which bytes go on in a token.
#[derive(Clone, Copy)]
pub enum Class {
    /// Letters, digits, `_`, `$`, and parts of a character past ASCII.
    Word,
    Digit,
    /// Hexadecimal digits.
    Hex,
}

pub fn is_space(byte: u8) -> bool
    ensures { result ≡ spec.is_space byte }
{
    matches!(byte, b' ' | b'\t' | b'\n' | 12 | b'\r')
}

pub fn begins_word(byte: u8) -> bool
    ensures { result ≡ spec.begins_word byte }
{
    byte.is_ascii_alphabetic() || byte == b'_' || 128 <= byte
}

pub fn is_in(class: Class, byte: u8) -> bool
    ensures { result ≡ spec.is_in class byte }
{
    match class {
        Class::Word => begins_word(byte) || byte.is_ascii_digit() || byte == b'$',
        Class::Digit => byte.is_ascii_digit(),
        Class::Hex => byte.is_ascii_hexdigit(),
    }
}

/// The byte at the front, and 0 at the end.
pub fn next_byte(text: &[u8]) -> u8
    ensures { result ≡ lex.next_byte text.now }
{
    match text {
        [byte, ..] => *byte,
        [] => 0,
    }
}
