//! Cuts a text into tokens.

ghost use Rattle.std.specs.Prelude.{◌≡◌, ◌<◌, ◌≤◌, List, length, map, false, Ok, IfOk, IfErr, Err};
ghost use Rattle.sqlval.specs.declared.fault.Fault.TheVariants.{TooLong};
ghost use Rattle.sqlval.specs.Gives.{Gives};
ghost use Rattle.sql_lexer.specs.Lex as spec;
ghost use Rattle.sql_lexer.specs.Cut.{Cuts};
ghost use Rattle.sql_lexer.specs.Lex.{Lexed, seen};
ghost use Rattle.sql_lexer.specs.Spans.{Stand, IsLexingFault};

use crate::gap::skip;
use crate::spelling::front;
use crate::token::{Token, is_minus};
use sqlval::limits::MAX_STATEMENT_BYTES;
use sqlval::{Fault, R};
use std::alloc::Global;

/// The tokens of a statement, without the spaces and comments between them. A text of more than 65,536 bytes is
/// `TooLong`; else the first token that isn't one decides: `Syntax` with its first byte, or `RealRefused` where it is a
/// real or a number outside 64 bits.
pub fn tokens<'a>(alloc: Global, text: &'a str) -> R<Vec<Token<'a>>>
    // What is found are the tokens that the text is cut into.
    ensures found { IfOk result (λ found. Cuts 0 false text.now (map seen found.items)) }
    // A text that can be cut into tokens is, unless memory runs out.
    ensures only { (ts : List Lexed) → length text.now ≤ 65536 → Cuts 0 false text.now ts
        → Gives (λ found. map seen found.items) result (Ok ts) }
    ensures exact { Gives (λ found. map seen found.items) result (spec.tokens text.now) }
    ensures stand { IfOk result (λ found. Stand 0 text.now found.items) }
    ensures refused { IfErr result (λ fault. IsLexingFault (length text.now) fault) }
    ensures long { 65536 < length text.now → result ≡ Err TooLong }
{
    cut(alloc, text)
}

#[tactic(auto, unfolding(crate::specs::Lex::tokens))]
fn cut<'a>(alloc: Global, text: &'a str) -> R<Vec<Token<'a>>>
    ensures exact { Gives (λ found. map seen found.items) result (spec.tokens text.now) }
    ensures stand { IfOk result (λ found. Stand 0 text.now found.items) }
    ensures refused { IfErr result (λ fault. IsLexingFault (length text.now) fault) }
    ensures long { 65536 < length text.now → result ≡ Err TooLong }
{
    if MAX_STATEMENT_BYTES < text.len() {
        return Err(Fault::TooLong);
    }
    // Most statements have no more tokens than a third of their bytes.
    let mut found = Vec::with_capacity(alloc, text.len() / 3)?;
    let mut after_minus = false;
    let mut rest = skip(text);
    'tokens: while !rest.is_empty() {
        let start = text.len() - rest.len();
        let (kind, len) = front(rest.as_bytes(), start, after_minus)?;
        let (text, after) = rest.split_at(len);
        found.push(Token { kind, text, start })?;
        after_minus = is_minus(kind);
        rest = skip(after);
    }
    Ok(found)
}
