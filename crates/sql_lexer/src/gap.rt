//! What stands between tokens.

ghost use Rattle.std.specs.Prelude.{◌≡◌, ◌==◌, ◌&&◌, ◌<◌, ◌≤◌, ◌+◌, ◌-◌, length, drop, slice_index, IfSome};
ghost use Rattle.std.specs.Str.{IsUtf8, IsCharBoundary};
ghost use Rattle.sql_lexer.specs.Lex as spec;

use crate::class::{is_space, next_byte};

/// The bytes up to the line's end, without its line feed.
fn line(text: &[u8]) -> usize
    ensures value { result ≡ spec.line text.now }
    ensures within { result ≤ length text.now }
    ensures stops { result < length text.now → slice_index text.now result ≡ 10 }
{
    let mut at = 0;
    'bytes: while at < text.len() && text[at] != b'\n' {
        at += 1;
    }
    at
}

/// Whether two bytes end a comment.
fn is_end(first: u8, second: u8) -> bool
    ensures { result ≡ (first == 42 && second == 47) }
{
    first == b'*' && second == b'/'
}

/// How many bytes go up to the end of a comment in `/*` and `*/`, its end with them.
#[tactic(auto, unfolding(crate::specs::Lex::comment))]
fn comment(text: &[u8]) -> Option<usize>
    ensures value { result ≡ spec.comment text.now }
    ensures within { IfSome result (λ n. n ≤ length text.now) }
{
    let mut rest = text;
    let mut at = 0;
    'bytes: while let [byte, after @ ..] = rest {
        if is_end(*byte, next_byte(after)) {
            return Some(at + 2);
        }
        at += 1;
        rest = after;
    }
    None
}

/// The bytes of the space or comment at the front. A comment that isn't closed is none.
#[tactic(auto, using(crate::proofs::Cuts::cut_after, crate::proofs::Cuts::cut_before, crate::proofs::Cuts::cut_start, std::proofs::lemmas::Grind::common_steps), unfolding(crate::specs::Lex::piece))]
fn piece(text: &[u8]) -> usize
    ensures value { result ≡ spec.piece text.now }
    ensures within { result ≤ length text.now }
    ensures cut { IsUtf8 text.now → IsCharBoundary text.now result }
{
    match text {
        [byte, ..] if is_space(*byte) => 1,
        [b'-', b'-', after @ ..] => line(after) + 2,
        [b'/', b'*', after @ ..] => match comment(after) {
            Some(len) => len + 2,
            None => 0,
        },
        _ => 0,
    }
}

/// The text after the spaces and comments at its front.
pub fn skip(text: &str) -> &str
    ensures value { result.now ≡ spec.gap text.now }
    ensures within { length result.now ≤ length text.now }
    ensures end { result.now ≡ drop (length text.now - length result.now) text.now }
{
    let mut rest = text;
    'pieces: loop {
        let len = piece(rest.as_bytes());
        if len == 0 {
            return rest;
        }
        rest = rest.split_at(len).1;
    }
}
