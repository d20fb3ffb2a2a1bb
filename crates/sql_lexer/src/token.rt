//! Tokens.

ghost use Rattle.std.specs.Prelude.{◌≡◌};
ghost use Rattle.sql_lexer.specs.Lex as spec;

use crate::keyword::Keyword;

/// What a token is.
#[derive(Clone, Copy, PartialEq, Eq)]
pub enum Kind {
    /// A reserved word.
    Word(Keyword),
    /// Any other word.
    Name,
    /// A name in double quotes.
    QuotedName,
    /// A number; 9223372036854775808 stands only after a minus.
    Integer(u64),
    /// A text in single quotes.
    Text,
    /// Hexadecimal digits in single quotes after an X.
    Blob,
    Dot,
    Comma,
    Semicolon,
    LeftParen,
    RightParen,
    Star,
    Plus,
    Minus,
    Slash,
    Percent,
    /// `||`.
    Bars,
    /// `=`.
    Equal,
    /// `==`.
    DoubleEqual,
    /// `<>` or `!=`.
    NotEqual,
    Less,
    LessOrEqual,
    Greater,
    GreaterOrEqual,
}

/// A token, its text as it is written, and the byte where it begins.
#[derive(Clone, Copy)]
pub struct Token<'a> {
    pub kind: Kind,
    pub text: &'a str,
    pub start: usize,
}

pub fn is_minus(kind: Kind) -> bool
    ensures { result ≡ spec.is_minus kind }
{
    matches!(kind, Kind::Minus)
}
