//! Which token stands at the front of a text.

ghost use Rattle.std.specs.Prelude.{◌≡◌, ◌<◌, ◌≤◌, ◌+◌, ◌-◌, ◌^◌, length, slice_index, map, IfSome, IfOk, IfErr, MatchOption, true, false};
ghost use Rattle.std.specs.List.{prefix_len};
ghost use Rattle.sql_lexer.specs.Bytes as bytes;
ghost use Rattle.sql_lexer.specs.Lex as spec;
ghost use Rattle.sql_lexer.specs.Spans.{Ends, EndsMark, IsTokenFault};

use crate::class::{Class, begins_word, is_in, next_byte};
use crate::keyword::reserved;
use crate::token::Kind;
use sqlval::{Fault, R};

/// The least integer without its sign.
const LEAST: u64 = 1 << 63;

/// How many bytes at the front are of the class.
fn run(class: Class, text: &[u8]) -> usize
    ensures value { result ≡ prefix_len (bytes.is_in class) text.now }
    ensures within { result ≤ length text.now }
    ensures moves { 0 < length text.now → bytes.is_in class (slice_index text.now 0) ≡ true
        → 0 < result }
    ensures stops { result < length text.now → bytes.is_in class (slice_index text.now result) ≡ false }
{
    let mut end = 0;
    'bytes: while end < text.len() && is_in(class, text[end]) {
        end += 1;
    }
    end
}

/// How many bytes go up to the closing quote, that with them. A doubled quote does not close.
#[tactic(auto, unfolding(crate::specs::Lex::closing))]
fn closing(quote: u8, text: &[u8]) -> Option<usize>
    ensures value { result ≡ spec.closing quote text.now }
    ensures within { IfSome result (λ n. n ≤ length text.now) }
{
    let mut rest = text;
    let mut at = 0;
    'bytes: while let [byte, after @ ..] = rest {
        if *byte != quote {
            at += 1;
            rest = after;
        } else {
            match after {
                [next, more @ ..] if *next == quote => {
                    at += 2;
                    rest = more;
                }
                _ => return Some(at + 1),
            }
        }
    }
    None
}

/// How many bytes a blob has after `X'`, its closing quote with them.
#[tactic(auto, unfolding(crate::specs::Lex::blob))]
fn blob(text: &[u8]) -> Option<usize>
    ensures value { result ≡ spec.blob text.now }
    ensures within { IfSome result (λ n. n ≤ length text.now) }
{
    let digits = run(Class::Hex, text);
    if digits % 2 == 0 && next_byte(&text[digits..]) == b'\'' {
        Some(digits + 1)
    } else {
        None
    }
}

/// A reserved word or a name.
#[tactic(auto, using(crate::proofs::Cuts::ends_word), unfolding(crate::specs::Lex::word))]
fn word(text: &[u8]) -> (Kind, usize)
    requires { (0 < length text.now) × (bytes.begins_word (slice_index text.now 0) ≡ true) }
    ensures value { result ≡ spec.word text.now }
    ensures cut { Ends text.now result.1 }
{
    let len = run(Class::Word, text);
    let kind = match reserved(&text[..len]) {
        Some(keyword) => Kind::Word(keyword),
        None => Kind::Name,
    };
    (kind, len)
}

/// The value of decimal digits, where it has 64 bits.
fn value(digits: &[u8]) -> Option<u64>
    ensures { MatchOption result (2 ^ 64 ≤ spec.number_from 0 digits.now)
        (λ n. n ≡ spec.number_from 0 digits.now) }
{
    let mut value: u64 = 0;
    'digits: for digit in digits {
        let digit = digit.saturating_sub(b'0');
        value = value.checked_mul(10)?.checked_add(digit as u64)?;
    }
    Some(value)
}

/// How many bytes a point and the digits after it have, where they come next.
#[tactic(auto, unfolding(crate::specs::Lex::fraction))]
fn fraction(text: &[u8]) -> usize
    ensures value { result ≡ spec.fraction text.now }
    ensures within { result ≤ length text.now }
{
    match text {
        [b'.', after @ ..] => run(Class::Digit, after) + 1,
        _ => 0,
    }
}

/// How many bytes the sign at the front has.
fn sign(text: &[u8]) -> usize
    ensures value { result ≡ spec.sign text.now }
    ensures within { result ≤ length text.now }
{
    match text {
        [b'+' | b'-', ..] => 1,
        _ => 0,
    }
}

/// How many bytes an exponent has, where one comes next.
#[tactic(auto, unfolding(crate::specs::Lex::exponent))]
fn exponent(text: &[u8]) -> usize
    ensures value { result ≡ spec.exponent text.now }
    ensures within { result ≤ length text.now }
{
    match text {
        [b'e' | b'E', after @ ..] => {
            let sign = sign(after);
            let digits = run(Class::Digit, &after[sign..]);
            if digits > 0 { digits + (sign + 1) } else { 0 }
        }
        _ => 0,
    }
}

/// How many bytes a number has after its first digits, where it is a real.
#[tactic(auto, unfolding(crate::specs::Lex::real_len))]
fn real_len(text: &[u8]) -> usize
    ensures value { result ≡ spec.real_len text.now }
    ensures within { result ≤ length text.now }
{
    let fraction = fraction(text);
    fraction + exponent(&text[fraction..])
}

/// A number; 9223372036854775808 only after a minus.
#[tactic(auto, using(crate::proofs::Cuts::ends_word), unfolding(crate::specs::Lex::number))]
fn number(text: &[u8], start: usize, after_minus: bool) -> R<(Kind, usize)>
    requires { (0 < length text.now) × (bytes.is_in Class.Digit (slice_index text.now 0) ≡ true) }
    ensures value { result ≡ spec.number start after_minus text.now }
    ensures cut { IfOk result (λ t. Ends text.now t.1) }
    ensures refused { IfErr result (λ fault. IsTokenFault start fault) }
{
    let whole = run(Class::Digit, text);
    let real = real_len(&text[whole..]);
    if is_in(Class::Word, next_byte(&text[whole + real..])) {
        return Err(Fault::Syntax(start));
    }
    if real != 0 {
        return Err(Fault::RealRefused);
    }
    match value(&text[..whole]) {
        Some(n) if n < LEAST || (n == LEAST && after_minus) => Ok((Kind::Integer(n), whole)),
        _ => Err(Fault::RealRefused),
    }
}

/// A mark of two bytes.
fn pair(first: u8, second: u8) -> Option<Kind>
    ensures value { result ≡ spec.pair first second }
    ensures ascii { IfSome result (λ _. (first < 128) × (second < 128)) }
{
    match (first, second) {
        (b'|', b'|') => Some(Kind::Bars),
        (b'=', b'=') => Some(Kind::DoubleEqual),
        (b'<', b'>') | (b'!', b'=') => Some(Kind::NotEqual),
        (b'<', b'=') => Some(Kind::LessOrEqual),
        (b'>', b'=') => Some(Kind::GreaterOrEqual),
        _ => None,
    }
}

/// A mark of one byte.
fn single(byte: u8) -> Option<Kind>
    ensures value { result ≡ spec.single byte }
    ensures ascii { IfSome result (λ _. byte < 128) }
{
    match byte {
        b'.' => Some(Kind::Dot),
        b',' => Some(Kind::Comma),
        b';' => Some(Kind::Semicolon),
        b'(' => Some(Kind::LeftParen),
        b')' => Some(Kind::RightParen),
        b'*' => Some(Kind::Star),
        b'+' => Some(Kind::Plus),
        b'-' => Some(Kind::Minus),
        b'/' => Some(Kind::Slash),
        b'%' => Some(Kind::Percent),
        b'=' => Some(Kind::Equal),
        b'<' => Some(Kind::Less),
        b'>' => Some(Kind::Greater),
        _ => None,
    }
}

/// The mark that two bytes begin. An open comment that is still there has no end.
fn begun(first: u8, second: u8) -> Option<(Kind, usize)>
    ensures value { result ≡ spec.begun first second }
    ensures ascii { IfSome result (λ t. EndsMark first second t.1) }
{
    if first == b'/' && second == b'*' {
        return None;
    }
    match pair(first, second) {
        Some(kind) => Some((kind, 2)),
        None => Some((single(first)?, 1)),
    }
}

/// A mark.
#[tactic(auto, using(crate::proofs::Cuts::ends_mark, crate::proofs::Cuts::ends_after), unfolding(crate::specs::Lex::mark))]
fn mark(text: &[u8]) -> Option<(Kind, usize)>
    ensures value { result ≡ spec.mark text.now }
    ensures cut { IfSome result (λ t. Ends text.now t.1) }
{
    match text {
        [first, second, ..] => begun(*first, *second),
        [first] => Some((single(*first)?, 1)),
        [] => None,
    }
}

/// A token that is no number.
#[tactic(auto, using(crate::proofs::Cuts::ends_after), unfolding(crate::specs::Lex::other))]
fn other(text: &[u8]) -> Option<(Kind, usize)>
    ensures value { result ≡ spec.other text.now }
    ensures cut { IfSome result (λ t. Ends text.now t.1) }
{
    match text {
        [b'X', b'\'', after @ ..] => Some((Kind::Blob, blob(after)? + 2)),
        [b'\'', after @ ..] => Some((Kind::Text, closing(b'\'', after)? + 1)),
        [b'"', after @ ..] => Some((Kind::QuotedName, closing(b'"', after)? + 1)),
        [byte, ..] if begins_word(*byte) => Some(word(text)),
        _ => mark(text),
    }
}

/// The kind and the length of the token at the front.
#[tactic(auto, unfolding(crate::specs::Lex::front))]
pub fn front(text: &[u8], start: usize, after_minus: bool) -> R<(Kind, usize)>
    ensures value { result ≡ spec.front start after_minus text.now }
    ensures cut { IfOk result (λ t. Ends text.now t.1) }
    ensures refused { IfErr result (λ fault. IsTokenFault start fault) }
{
    match text {
        [byte, ..] if byte.is_ascii_digit() => number(text, start, after_minus),
        _ => other(text).ok_or(Fault::Syntax(start)),
    }
}
