//! What names, texts and blobs mean.

ghost use Rattle.std.specs.Prelude.{◌≡◌, ◌<◌, IfOk, Ok, option_map, string_bytes};
ghost use Rattle.sql_expr.specs.Reading.{Gives};
ghost use Rattle.sql_expr.specs.Spelling as spec;
ghost use Rattle.sql_expr.specs.Spelling.{between_quotes, blob_spelled, name_spelled, text_spelled};

use crate::refusal::Refusal;
use hex::{FromHexError, decode};
use sqlval::{Bytes, Name, Text};
use std::alloc::{AllocError, Global};

/// What stands between the quotes, which are of ASCII.
fn inner(quote: char, text: &str) -> Option<&str>
    ensures { quote < 128 → option_map (λ inside. inside.now) result ≡ between_quotes quote text.now }
{
    text.strip_prefix(quote)?.strip_suffix(quote)
}

/// A text with each doubled quote once.
fn undoubled(alloc: Global, quote: char, text: &str) -> Result<String, AllocError>
    ensures { quote < 128 → IfOk result (λ plain. string_bytes plain ≡ spec.undoubled quote text.now) }
{
    let mut plain = String::new(alloc);
    let mut rest = text;
    'quotes: while let Some((front, back)) = rest.split_once(quote) {
        plain.push_str(front)?;
        plain.push(quote)?;
        rest = back.strip_prefix(quote).unwrap_or(back);
    }
    plain.push_str(rest)?;
    Ok(plain)
}

/// The name that is spelled so, with quotes or without.
#[tactic(auto, unfolding(crate::specs::Spelling::name_spelled))]
pub fn name_of(alloc: Global, spelling: &str) -> Result<Name, AllocError>
    ensures { IfOk result (λ name. name ≡ name_spelled spelling.now) }
{
    match inner('"', spelling) {
        Some(text) => Name::from_str(alloc, undoubled(alloc, '"', text)?.as_str()),
        None => Name::from_str(alloc, spelling),
    }
}

/// The text that is spelled so.
#[tactic(auto, unfolding(crate::specs::Spelling::text_spelled))]
pub fn text_of(alloc: Global, spelling: &str) -> Result<Text, AllocError>
    ensures { IfOk result (λ text. text ≡ text_spelled spelling.now) }
{
    let text = inner('\'', spelling).unwrap_or(spelling);
    Ok(Text::from_string(undoubled(alloc, '\'', text)?))
}

/// The digits of a blob.
#[tactic(auto, unfolding(crate::specs::Spelling::blob_digits))]
fn blob_digits(spelling: &str) -> Option<&str>
    ensures { option_map (λ digits. digits.now) result ≡ spec.blob_digits spelling.now }
{
    inner('\'', spelling.strip_prefix('X')?)
}

/// The blob that is spelled so.
#[tactic(auto, unfolding(crate::specs::Spelling::blob_spelled))]
pub fn blob_of(alloc: Global, spelling: &str) -> Result<Bytes, Refusal>
    ensures { Gives (λ blob. blob) result (Ok (blob_spelled spelling.now)) }
{
    let digits = blob_digits(spelling);
    match decode(alloc, digits.unwrap_or("")) {
        Ok(bytes) => Ok(Bytes::from_vec(bytes)),
        Err(FromHexError::OutOfMemory) => Err(Refusal::Memory),
        Err(_) => Ok(Bytes::from_vec(Vec::new(alloc))),
    }
}
