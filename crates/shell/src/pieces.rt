//! The piece at the front of a text: a space, a comment, a word, something in quotes, or one byte.

ghost use Rattle.std.specs.Prelude.{◌≡◌, ◌≢◌, ◌<◌, ◌≤◌, ◌+◌, ◌^◌, length, slice_index, IfSome};
ghost use Rattle.std.specs.List.{prefix_len};
ghost use Rattle.sql_lexer.specs.Lex as lexed;
ghost use Rattle.sql_lexer.specs.Bytes.{is_in};
ghost use Rattle.sql_lexer.specs.declared.class.Class.TheVariants as class;
ghost use Rattle.shell.specs.Pieces as spec;

use crate::bytes::{is_space, is_word};

/// What a piece is to the end of a statement.
#[derive(Clone, Copy, PartialEq, Eq)]
pub enum Sort {
    /// A space, or a comment.
    Gap,
    /// A comment, or something in quotes, that goes on past the end of the text.
    Open,
    Semicolon,
    /// The word CREATE.
    Create,
    /// The word TEMP or TEMPORARY.
    Temp,
    /// The word TRIGGER.
    Trigger,
    /// The word END.
    End,
    /// The word EXPLAIN.
    Explain,
    /// Any other.
    Other,
}

/// How many bytes go up to the next of these, that with them.
#[tactic(auto, unfolding(crate::specs::Pieces::up_to))]
fn up_to(quote: u8, text: &[u8]) -> Option<usize>
    ensures value { result ≡ spec.up_to quote text.now }
    ensures within { IfSome result (λ n. n ≤ length text.now) }
{
    let mut rest = text;
    let mut at = 0;
    'bytes: while let [byte, after @ ..] = rest {
        at += 1;
        if *byte == quote {
            return Some(at);
        }
        rest = after;
    }
    None
}

/// The bytes up to the line's end, without its line feed.
fn line(text: &[u8]) -> usize
    ensures value { result ≡ lexed.line text.now }
    ensures within { result ≤ length text.now }
{
    let mut at = 0;
    'bytes: while at < text.len() && text[at] != b'\n' {
        at += 1;
    }
    at
}

/// Whether two bytes end a comment.
fn is_end(first: u8, rest: &[u8]) -> bool
    ensures { result ≡ spec.is_end first rest.now }
{
    match rest {
        [b'/', ..] => first == b'*',
        _ => false,
    }
}

/// How many bytes go up to the end of a comment in `/*` and `*/`, its end with them.
#[tactic(auto, unfolding(sql_lexer::specs::Lex::comment))]
fn comment(text: &[u8]) -> Option<usize>
    ensures value { result ≡ lexed.comment text.now }
    ensures within { IfSome result (λ n. n ≤ length text.now) }
{
    let mut rest = text;
    let mut at = 0;
    'bytes: while let [byte, after @ ..] = rest {
        if is_end(*byte, after) {
            return Some(at + 2);
        }
        at += 1;
        rest = after;
    }
    None
}

/// How many bytes at the front go on in a word.
fn word(text: &[u8]) -> usize
    ensures value { result ≡ prefix_len (is_in class.Word) text.now }
    ensures within { result ≤ length text.now }
{
    let mut end = 0;
    'bytes: while end < text.len() && is_word(text[end]) {
        end += 1;
    }
    end
}

/// The sort of a word.
fn sort_of(word: &[u8]) -> Sort
    ensures value { result ≡ spec.sort_of word.now }
    ensures word { result ≢ Sort.Semicolon }
{
    if word.eq_ignore_ascii_case(b"CREATE") {
        Sort::Create
    } else if word.eq_ignore_ascii_case(b"TEMP") || word.eq_ignore_ascii_case(b"TEMPORARY") {
        Sort::Temp
    } else if word.eq_ignore_ascii_case(b"TRIGGER") {
        Sort::Trigger
    } else if word.eq_ignore_ascii_case(b"END") {
        Sort::End
    } else if word.eq_ignore_ascii_case(b"EXPLAIN") {
        Sort::Explain
    } else {
        Sort::Other
    }
}

/// A piece that begins with some bytes and ends after others, or is open up to the end of the text.
fn closed(sort: Sort, begun: usize, rest: usize, end: Option<usize>) -> (Sort, usize)
    requires room { begun + rest < 2 ^ 63 }
    requires within { IfSome end (λ n. n ≤ rest) }
    ensures value { result ≡ spec.closed sort begun rest end }
    ensures word { sort ≢ Sort.Semicolon → result.0 ≢ Sort.Semicolon }
{
    match end {
        Some(len) => (sort, begun + len),
        None => (Sort::Open, begun + rest),
    }
}

/// A word, or one other byte.
#[tactic(auto, unfolding(crate::specs::Pieces::word_or_byte))]
fn word_or_byte(text: &[u8]) -> (Sort, usize)
    ensures value { result ≡ spec.word_or_byte text.now }
    ensures word { result.0 ≢ Sort.Semicolon }
    ensures within { result.1 ≤ length text.now }
    ensures moves { 0 < length text.now → 0 < result.1 }
{
    let len = word(text);
    if len == 0 {
        return (Sort::Other, text.len().min(1));
    }
    (sort_of(&text[..len]), len)
}

/// The sort and the length of the piece at the front.
#[tactic(auto, unfolding(crate::specs::Pieces::front))]
pub fn front(text: &[u8]) -> (Sort, usize)
    ensures value { result ≡ spec.front text.now }
    ensures semicolon { result.0 ≡ Sort.Semicolon
        → (result.1 ≡ 1) × (slice_index text.now 0 ≡ 59) }
    ensures within { result.1 ≤ length text.now }
    ensures moves { 0 < length text.now → 0 < result.1 }
{
    match text {
        [b'\'', rest @ ..] => closed(Sort::Other, 1, rest.len(), up_to(b'\'', rest)),
        [b'"', rest @ ..] => closed(Sort::Other, 1, rest.len(), up_to(b'"', rest)),
        [b'-', b'-', rest @ ..] => (Sort::Gap, 2 + line(rest)),
        [b'/', b'*', rest @ ..] => closed(Sort::Gap, 2, rest.len(), comment(rest)),
        [b';', ..] => (Sort::Semicolon, 1),
        [byte, ..] if is_space(*byte) => (Sort::Gap, 1),
        _ => word_or_byte(text),
    }
}
