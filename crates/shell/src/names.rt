//! Names as SQL has them.

ghost use Rattle.std.specs.Prelude.{◌≡◌, ◌++◌, OnOk, IfOk, IfErr, map};
ghost use Rattle.sqlval.specs.declared.fault.Fault.TheVariants.{Memory};
ghost use Rattle.sql_lexer.specs.Lex.{seen};
ghost use Rattle.shell.specs.Cells.{in_quotes};
ghost use Rattle.shell.specs.Names as spec;

use crate::cells::put_between;
use crate::words::is_same;
use sql_lexer::{Kind, Token, tokens};
use sqlval::{Fault, R};
use std::alloc::Global;

/// Words that are names here, and that SQLite reads as a name only between quotes.
const KEPT: [&[u8]; 35] = [
    b"ADD",
    b"ALL",
    b"ALWAYS",
    b"AUTOINCREMENT",
    b"CASE",
    b"CONFLICT",
    b"CONSTRAINT",
    b"CROSS",
    b"DATABASE",
    b"DEFERRABLE",
    b"ELSE",
    b"ESCAPE",
    b"EXCEPT",
    b"EXISTS",
    b"FOREIGN",
    b"FULL",
    b"GLOB",
    b"HAVING",
    b"INDEXED",
    b"INTERSECT",
    b"ISNULL",
    b"LIKE",
    b"MATCH",
    b"NATURAL",
    b"NOTHING",
    b"NOTNULL",
    b"REFERENCES",
    b"REGEXP",
    b"RETURNING",
    b"RIGHT",
    b"TEMP",
    b"THEN",
    b"UNION",
    b"USING",
    b"VIRTUAL",
];

/// Whether a word is one that SQLite keeps, in letters of any case.
fn is_kept(name: &[u8]) -> bool
    ensures { result ≡ spec.is_kept_word name.now }
{
    let mut words: &[&[u8]] = &KEPT;
    'words: while let [word, others @ ..] = words {
        if is_same(word, name) {
            return true;
        }
        words = others;
    }
    false
}

/// Whether a token is a name of so many bytes.
fn is_name(token: &Token<'_>, len: usize) -> bool
    ensures { result ≡ spec.is_name (seen token.now) len }
{
    match token.kind {
        Kind::Name => token.text.len() == len,
        _ => false,
    }
}

/// Whether these tokens are one, which is a name of so many bytes.
fn is_one_name(tokens: &[Token<'_>], len: usize) -> bool
    ensures { result ≡ spec.is_one_name (map seen tokens.now) len }
{
    match tokens {
        [token] => is_name(token, len),
        _ => false,
    }
}

/// Whether the lexer reads a text as one name.
fn reads_as_name(alloc: Global, name: &str) -> R<bool>
    ensures value { IfOk result (λ is. is ≡ spec.reads_as_name name.now) }
    ensures refused { IfErr result (λ fault. fault ≡ Memory) }
{
    match tokens(alloc, name) {
        Ok(tokens) => Ok(is_one_name(&tokens, name.len())),
        Err(Fault::Memory) => Err(Fault::Memory),
        Err(_) => Ok(false),
    }
}

/// Whether a name needs no quotes, here and in SQLite. (`Memory`.)
#[tactic(auto, unfolding(crate::specs::Names::is_plain))]
pub fn is_plain(alloc: Global, name: &str) -> R<bool>
    ensures value { IfOk result (λ is. is ≡ spec.is_plain name.now) }
    ensures refused { IfErr result (λ fault. fault ≡ Memory) }
{
    Ok(reads_as_name(alloc, name)? && !is_kept(name.as_bytes()))
}

/// Writes a name, between double quotes where it needs them. (`Memory`.)
#[tactic(auto, unfolding(crate::specs::Names::name_text))]
pub fn put_name(alloc: Global, out: &mut Vec<u8>, name: &str) -> R<()>
    ensures written { OnOk result (out.new.items ≡ out.old.items ++ spec.name_text name.now) }
    ensures refused { IfErr result (λ fault. fault ≡ Memory) }
{
    if is_plain(alloc, name)? {
        out.extend_from_slice(name.as_bytes())?;
    } else {
        put_between(out, b'"', name.as_bytes())?;
    }
    Ok(())
}
