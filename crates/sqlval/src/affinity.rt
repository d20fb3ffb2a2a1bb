//! The affinity of a declared type, and the conversion of each affinity.

ghost use Rattle.std.specs.Prelude.{◌≡◌, ◌⊎◌, ◌≤◌, length, IfOk, IfErr};
ghost use Rattle.sqlval.specs.Affinity.{begins, holds, declares_real, declares_text, declared_affinity, is_space, after_spaces, after_digits, after_sign, ends_exponent, ends_number, rest_after_digits, is_number, ToNumber, ToText, Converts, IsConversionFault, WantsNumbers};
ghost use Rattle.sqlval.specs.NumberShape.{NumbersAreShaped};

use crate::fault::{Fault, R};
use crate::text::Text;
use crate::value::Value;
use std::alloc::Global;

/// The affinity of a column: the kind of value that it prefers to store.
#[derive(Clone, Copy, Debug, PartialEq, Eq)]
pub enum Affinity {
    /// Nothing.
    Blob,
    /// Texts of integers.
    Text,
    /// Integers of texts that are integers.
    Numeric,
    /// As `Numeric`.
    Integer,
}

fn begins_with(text: &[u8], word: &[u8]) -> bool
    ensures { result ≡ begins word.now text.now }
{
    word.len() <= text.len() && text[..word.len()].eq_ignore_ascii_case(word)
}

fn has_word(text: &[u8], word: &[u8]) -> bool
    ensures { result ≡ holds word.now text.now }
{
    let mut rest = text;
    'bytes: while let [_, after @ ..] = rest {
        if begins_with(rest, word) {
            return true;
        }
        rest = after;
    }
    false
}

fn is_real(declared: &[u8]) -> bool
    ensures { result ≡ declares_real declared.now }
{
    has_word(declared, b"real") || has_word(declared, b"floa") || has_word(declared, b"doub")
}

fn is_text(declared: &[u8]) -> bool
    ensures { result ≡ declares_text declared.now }
{
    has_word(declared, b"char") || has_word(declared, b"clob") || has_word(declared, b"text")
}

/// The affinity of a declared type, whose words are joined by spaces; None is that of REAL, which isn't supported.
pub fn affinity_of(declared: &str) -> Option<Affinity>
    ensures { result ≡ declared_affinity declared.now }
{
    let declared = declared.as_bytes();
    if has_word(declared, b"int") {
        Some(Affinity::Integer)
    } else if is_text(declared) {
        Some(Affinity::Text)
    } else if declared.is_empty() || has_word(declared, b"blob") {
        Some(Affinity::Blob)
    } else if is_real(declared) {
        None
    } else {
        Some(Affinity::Numeric)
    }
}

fn skip_spaces(text: &[u8]) -> &[u8]
    ensures value { result.now ≡ after_spaces text.now }
    ensures short { length result.now ≤ length text.now }
{
    let mut rest = text;
    'bytes: while let [byte, after @ ..] = rest {
        if !matches!(*byte, b' ' | b'\t' | b'\n' | 12 | b'\r') {
            return rest;
        }
        rest = after;
    }
    rest
}

fn skip_digits(text: &[u8]) -> &[u8]
    ensures value { result.now ≡ after_digits text.now }
    ensures short { length result.now ≤ length text.now }
{
    let mut rest = text;
    'bytes: while let [byte, after @ ..] = rest {
        if !byte.is_ascii_digit() {
            return rest;
        }
        rest = after;
    }
    rest
}

fn skip_sign(text: &[u8]) -> &[u8]
    ensures value { result.now ≡ after_sign text.now }
    ensures short { length result.now ≤ length text.now }
{
    match text {
        [b'+' | b'-', rest @ ..] => rest,
        _ => text,
    }
}

#[tactic(auto, unfolding(crate::specs::Affinity::ends_exponent))]
fn is_exponent(text: &[u8]) -> bool
    ensures { result ≡ ends_exponent text.now }
{
    let rest = skip_digits(text);
    rest.len() < text.len() && skip_spaces(rest).is_empty()
}

#[tactic(auto, unfolding(crate::specs::Affinity::ends_number))]
fn is_end(text: &[u8]) -> bool
    ensures { result ≡ ends_number text.now }
{
    match text {
        [] => true,
        [b'e' | b'E', rest @ ..] => is_exponent(skip_sign(rest)),
        _ => skip_spaces(text).is_empty(),
    }
}

#[tactic(auto, unfolding(crate::specs::Affinity::rest_after_digits))]
fn goes_on(digits: usize, text: &[u8]) -> bool
    ensures { result ≡ rest_after_digits digits text.now }
{
    match text {
        [] => digits > 0,
        [b'.', rest @ ..] => {
            let after = skip_digits(rest);
            (digits > 0 || after.len() < rest.len()) && is_end(after)
        }
        _ => digits > 0 && is_end(text),
    }
}

/// Whether a text is shaped as a number.
#[tactic(auto, unfolding(crate::specs::Affinity::is_number))]
fn looks_numeric(text: &[u8]) -> bool
    ensures { result ≡ is_number text.now }
{
    let digits = skip_sign(skip_spaces(text));
    let rest = skip_digits(digits);
    goes_on(digits.len() - rest.len(), rest)
}

fn to_number(value: Value) -> R<Value>
    ensures converted { IfOk result (λ new. ToNumber value new) }
    ensures refused { IfErr result (λ fault. IsConversionFault value fault) }
{
    let Value::Text(text) = value else {
        return Ok(value);
    };
    if let Ok(n) = text.as_str().parse::<i64>() {
        return Ok(Value::Int(n));
    }
    if looks_numeric(text.as_str().as_bytes()) {
        return Err(Fault::RealRefused);
    }
    Ok(Value::Text(text))
}

fn to_text(alloc: Global, value: Value) -> R<Value>
    ensures converted { IfOk result (λ new. ToText value new) }
    ensures refused { IfErr result (λ fault. fault ≡ Fault.Memory) }
{
    match value {
        Value::Int(n) => Ok(Value::Text(Text::from_string(format!(in alloc; "{n}")?))),
        _ => Ok(value),
    }
}

/// A value as an affinity stores it.
pub fn apply(alloc: Global, affinity: Affinity, value: Value) -> R<Value>
    ensures converted { IfOk result (λ new. Converts affinity value new) }
    ensures refused { IfErr result (λ fault. IsConversionFault value fault) }
    ensures numbers { IfErr result (λ fault. (fault ≡ Fault.Memory) ⊎ WantsNumbers affinity) }
{
    match affinity {
        Affinity::Blob => Ok(value),
        Affinity::Text => to_text(alloc, value),
        Affinity::Numeric | Affinity::Integer => to_number(value),
    }
}

/// A text looks numeric exactly where it has the shape of a number.
pub fn numbers_are_shaped()
    ensures { NumbersAreShaped }
{}
