//! From a text to its statement.

ghost use Rattle.std.specs.Prelude.{◌≡◌, ◌≤◌, Ok, Err, true, false, length, map, IfOk, IfErr};
ghost use Rattle.sqlval.specs.Gives.{Gives};
ghost use Rattle.sql_lexer.specs.Lex as lex;
ghost use Rattle.sql_lexer.specs.Spans.{Stand};
ghost use Rattle.sql_syntax.specs.declared.statement.Statement.{Statement as Parsed};
ghost use Rattle.sql_parser.specs.Parsing.{fault_of, parsed_by, place_of};
ghost use Rattle.sql_parser.specs.Refusals.{IsParsingFault, IsTextRefusal};
ghost use Rattle.sql_grammar.specs.Statements.{is_statement_within};
ghost use Rattle.sql_grammar.specs.Texts.{IsStatementText, IsUnsupportedText};

use crate::statements::whole;
use sql_expr::{Refusal, SourceTokens};
use sql_lexer::tokens;
use sql_syntax::Statement;
use sqlval::{Fault, Feature, R};
use std::alloc::Global;

/// The statement that a text is. A text of more than 65,536 bytes is `TooLong`; else the first token that isn't one is
/// refused as `tokens` does; then a first word of a statement that isn't supported is `Unsupported`; then a text outside the
/// grammar is `Syntax` with the byte where no statement goes on so, or the text's length, and one past a limit that the
/// text shows (depth 100, 64 columns, 16 sources) is `TooLong`.
pub fn parse(alloc: Global, text: &str) -> R<Statement>
    // The statement is what reading the tokens gives, and a text whose tokens are refused is refused for the same, unless
    // memory runs out.
    ensures exact { Gives (λ s. s) result (parsed_by text.now (lex.tokens text.now)) }
    // What is answered is the statement that the text is in the grammar, within the limits, of which the text's length is one.
    ensures found { IfOk result (λ s. IsStatementText text.now s × (is_statement_within s ≡ true)
        × (length text.now ≤ 65536)) }
    // A text that is a statement within the limits is answered as that, unless memory runs out.
    ensures only { (s : Parsed) → IsStatementText text.now s → is_statement_within s ≡ true
        → length text.now ≤ 65536
        → Gives (λ s. s) result (Ok s) }
    // One past the limits is refused for that.
    ensures late { (s : Parsed) → IsStatementText text.now s → is_statement_within s ≡ false
        → Gives (λ s. s) result (Err Fault.TooLong) }
    // So is one that isn't supported.
    ensures unsupported { IsUnsupportedText text.now → length text.now ≤ 65536
        → Gives (λ s. s) result (Err (Fault.Unsupported Feature.Statement)) }
    ensures refused { IfErr result (λ fault. IsTextRefusal text.now fault) }
{
    let found = tokens(alloc, text)?;
    match whole(alloc, text, &found) {
        Ok(statement) => Ok(statement),
        Err(refusal) => Err(fault(refusal, text, &found)),
    }
}

/// Lets a statement go. It is proved here, once, that this can be done with a tree of any kind; a crate that lets one go
/// in place proves it again.
pub fn release(statement: Statement) {
    drop(statement)
}

fn fault(refusal: Refusal, text: &str, spelled: SourceTokens<'_>) -> Fault
    requires { Stand 0 text.now spelled.now }
    ensures value { result ≡ fault_of (length text.now) (map lex.seen spelled.now) refusal }
    ensures served { IsParsingFault (length text.now) result }
{
    match refusal {
        Refusal::Memory => Fault::Memory,
        Refusal::Syntax(left) => Fault::Syntax(place(left, text, spelled)),
        Refusal::TooLong => Fault::TooLong,
        Refusal::Unsupported => Fault::Unsupported(Feature::Statement),
    }
}

/// Where the token begins that has this many with it up to the last, or the end of the text.
#[tactic(auto, using(crate::proofs::Places::starts_within))]
fn place(left: usize, text: &str, spelled: SourceTokens<'_>) -> usize
    requires { Stand 0 text.now spelled.now }
    ensures value { result ≡ place_of (length text.now) (map lex.seen spelled.now) left }
    ensures within { result ≤ length text.now }
{
    let index = spelled.len().saturating_sub(left);
    if index < spelled.len() {
        spelled[index].start
    } else {
        text.len()
    }
}
