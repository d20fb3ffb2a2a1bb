//! Statements by their first word.

ghost use Rattle.std.specs.Prelude.{◌≡◌, ◌≤◌, List, [], length, IfOk};
ghost use Rattle.sql_lexer.specs.Spans.{Stand};
ghost use Rattle.sql_lexer.specs.declared.token.Token.{Token as Spelling};
ghost use Rattle.sql_expr.specs.Symbols.{symbols, seen};
ghost use Rattle.sql_expr.specs.Reading.{Gives, ReadsBy};
ghost use Rattle.sql_parser.specs.Spelled.{body_length, sql_of};
ghost use Rattle.sql_parser.specs.ObjectReading.{object_from};
ghost use Rattle.sql_grammar.specs.Readers as readers;
ghost use Rattle.sql_grammar.specs.Statements.{checkpoint_of, is_unsupported_word, mode_of};
ghost use Rattle.sql_parser.specs.StatementReading as spec;

use crate::objects::new_object;
use sql_expr::{
    Read, Refusal, Rest, SourceTokens, after_paren, after_word, all, beside, kind, mark, name,
    optional, unexpected, word,
};
use sql_lexer::{Keyword, Kind};
use sql_query::{change, selection};
use sql_syntax::{BeginMode, CheckpointMode, Create, ObjectKind, Statement};
use sqlval::{Name, Text};
use std::alloc::{AllocError, Global};

/// A whole statement, with a closing semicolon or without.
#[tactic(auto, unfolding(crate::specs::StatementReading::whole_from))]
pub fn whole(alloc: Global, text: &str, spelled: SourceTokens<'_>) -> Result<Statement, Refusal>
    requires { Stand 0 text.now spelled.now }
    ensures { Gives (λ s. s) result (spec.whole_from (sql_of text.now spelled.now) (symbols spelled.now)) }
{
    let tokens = all(alloc, spelled)?;
    let (statement, rest) = statement(alloc, text, spelled, &tokens)?;
    let (statement, ()) = beside(statement, end(rest))?;
    Ok(statement)
}

/// Nothing but a closing semicolon may be left.
#[tactic(auto, unfolding(crate::specs::StatementReading::end_from))]
fn end(tokens: Rest<'_>) -> Result<(), Refusal>
    ensures { (whole : List Spelling) → Gives (λ u. []) result (spec.end_from (seen whole tokens.now)) }
{
    match tokens {
        [] | [kind!(Semicolon)] => Ok(()),
        [kind!(Semicolon), rest @ ..] => Err(unexpected(rest)),
        _ => Err(unexpected(tokens)),
    }
}

#[tactic(auto, unfolding(sql_grammar::specs::Readers::choose, sql_grammar::specs::Readers::made, crate::specs::StatementReading::statement_from))]
fn statement<'a>(
    alloc: Global,
    text: &str,
    spelled: SourceTokens<'_>,
    tokens: Rest<'a>,
) -> Read<'a, Statement>
    requires { Stand 0 text.now spelled.now }
    ensures { ReadsBy spelled.now tokens.now result (spec.statement_from (sql_of text.now spelled.now)) }
{
    if let Some(rest) = after_word(Keyword::Create, tokens) {
        return create(alloc, text, spelled, rest);
    }
    if let Some(rest) = after_word(Keyword::Drop, tokens) {
        return drop_object(alloc, spelled, rest);
    }
    if let Some(rest) = after_word(Keyword::Select, tokens) {
        let (query, rest) = selection(alloc, spelled, rest)?;
        return Ok((Statement::Select(query), rest));
    }
    if let Some(rest) = after_word(Keyword::Pragma, tokens) {
        return pragma(alloc, spelled, rest);
    }
    transaction(alloc, spelled, tokens)
}

/// Whether a first word begins a statement that isn't supported.
#[tactic(auto, unfolding(crate::specs::StatementReading::begins_unserved))]
fn begins_unserved(tokens: Rest<'_>) -> bool
    ensures { (whole : List Spelling) → result ≡ spec.begins_unserved (seen whole tokens.now) }
{
    match tokens {
        [token, ..] => match token.kind {
            Kind::Word(word) => names_unsupported(word),
            _ => false,
        },
        [] => false,
    }
}

fn names_unsupported(word: Keyword) -> bool
    ensures { result ≡ is_unsupported_word word }
{
    matches!(
        word,
        Keyword::Alter
            | Keyword::Analyze
            | Keyword::Attach
            | Keyword::Detach
            | Keyword::Explain
            | Keyword::Reindex
            | Keyword::Replace
            | Keyword::Vacuum
            | Keyword::Values
            | Keyword::With
    )
}

#[tactic(auto, unfolding(sql_grammar::specs::Readers::made))]
fn create<'a>(
    alloc: Global,
    text: &str,
    spelled: SourceTokens<'_>,
    tokens: Rest<'a>,
) -> Read<'a, Statement>
    requires { Stand 0 text.now spelled.now }
    ensures { ReadsBy spelled.now tokens.now result
        (readers.made (spec.created (sql_of text.now spelled.now)) object_from) }
{
    let sql = body_text(alloc, text, spelled)?;
    let (object, rest) = new_object(alloc, spelled, tokens)?;
    Ok((Statement::Create(Create { sql, object }), rest))
}

/// How many tokens there are without a closing semicolon.
fn body_len(spelled: SourceTokens<'_>) -> usize
    ensures value { result ≡ body_length spelled.now }
    ensures within { result ≤ length spelled.now }
{
    match spelled.last() {
        Some(last) if matches!(last.kind, Kind::Semicolon) => spelled.len() - 1,
        _ => spelled.len(),
    }
}

/// The text from the first to the last token, without a closing semicolon.
#[tactic(auto, using(crate::proofs::Places::starts_at, crate::proofs::Places::ends_within, crate::proofs::Places::in_order))]
fn body_text(alloc: Global, text: &str, spelled: SourceTokens<'_>) -> Result<Text, AllocError>
    requires { Stand 0 text.now spelled.now }
    ensures { IfOk result (λ sql. sql ≡ sql_of text.now spelled.now) }
{
    let count = body_len(spelled);
    if count == 0 {
        return Text::from_str(alloc, "");
    }
    let last = count - 1;
    let end = spelled[last].start + spelled[last].text.len();
    Text::from_str(alloc, &text[spelled[0].start..end])
}

#[tactic(auto, unfolding(sql_grammar::specs::Readers::made, sql_grammar::specs::Readers::both, crate::specs::StatementReading::drop_from))]
fn drop_object<'a>(
    alloc: Global,
    spelled: SourceTokens<'_>,
    tokens: Rest<'a>,
) -> Read<'a, Statement>
    ensures { ReadsBy spelled.now tokens.now result spec.drop_from }
{
    let (kind, rest) = object_kind(tokens)?;
    let (name, rest) = name(alloc, spelled, rest)?;
    Ok((Statement::Drop(kind, name), rest))
}

#[tactic(auto, unfolding(sql_grammar::specs::Readers::choose, sql_grammar::specs::Readers::preceded, sql_grammar::specs::Readers::yields, crate::specs::StatementReading::kind_from))]
fn object_kind<'a>(tokens: Rest<'a>) -> Read<'a, ObjectKind>
    ensures { (whole : List Spelling) → ReadsBy whole tokens.now result spec.kind_from }
{
    if let Some(rest) = after_word(Keyword::Table, tokens) {
        return Ok((ObjectKind::Table, rest));
    }
    if let Some(rest) = after_word(Keyword::Index, tokens) {
        return Ok((ObjectKind::Index, rest));
    }
    if let Some(rest) = after_word(Keyword::View, tokens) {
        return Ok((ObjectKind::View, rest));
    }
    Ok((ObjectKind::Trigger, word(Keyword::Trigger, tokens)?))
}

/// A statement of transactions or savepoints, or one that changes rows.
#[tactic(auto, unfolding(sql_grammar::specs::Readers::choose, sql_grammar::specs::Readers::made, sql_grammar::specs::Readers::yields, sql_grammar::specs::Readers::trailed, crate::specs::StatementReading::transaction_from))]
fn transaction<'a>(
    alloc: Global,
    spelled: SourceTokens<'_>,
    tokens: Rest<'a>,
) -> Read<'a, Statement>
    ensures { ReadsBy spelled.now tokens.now result spec.transaction_from }
{
    if let Some(rest) = after_word(Keyword::Begin, tokens) {
        return begin(rest);
    }
    if let Some(rest) = after_word(Keyword::Commit, tokens) {
        return Ok((Statement::Commit, optional(Keyword::Transaction, rest)));
    }
    if let Some(rest) = after_word(Keyword::Rollback, tokens) {
        return rollback(alloc, spelled, rest);
    }
    if let Some(rest) = after_word(Keyword::Savepoint, tokens) {
        let (name, rest) = name(alloc, spelled, rest)?;
        return Ok((Statement::Savepoint(name), rest));
    }
    if let Some(rest) = after_word(Keyword::Release, tokens) {
        return release(alloc, spelled, rest);
    }
    served(alloc, spelled, tokens)
}

/// A change of rows, where no word comes next that is not supported.
#[tactic(auto, unfolding(sql_grammar::specs::Readers::made, crate::specs::StatementReading::served_from))]
fn served<'a>(alloc: Global, spelled: SourceTokens<'_>, tokens: Rest<'a>) -> Read<'a, Statement>
    ensures { ReadsBy spelled.now tokens.now result spec.served_from }
{
    if begins_unserved(tokens) {
        return Err(Refusal::Unsupported);
    }
    let (change, rest) = change(alloc, spelled, tokens)?;
    Ok((Statement::Change(change), rest))
}

#[tactic(auto, unfolding(sql_grammar::specs::Readers::made, sql_grammar::specs::Readers::trailed, crate::specs::StatementReading::begin_from))]
fn begin<'a>(tokens: Rest<'a>) -> Read<'a, Statement>
    ensures { (whole : List Spelling) → ReadsBy whole tokens.now result spec.begin_from }
{
    let (mode, rest) = begin_mode(tokens)?;
    Ok((Statement::Begin(mode), optional(Keyword::Transaction, rest)))
}

#[tactic(auto, unfolding(sql_grammar::specs::Readers::choose, sql_grammar::specs::Readers::yields, crate::specs::StatementReading::mode_from))]
fn begin_mode<'a>(tokens: Rest<'a>) -> Read<'a, BeginMode>
    ensures { (whole : List Spelling) → ReadsBy whole tokens.now result spec.mode_from }
{
    if let Some(rest) = after_word(Keyword::Deferred, tokens) {
        return Ok((BeginMode::Deferred, rest));
    }
    match after_word(Keyword::Immediate, tokens) {
        Some(rest) => Ok((BeginMode::Immediate, rest)),
        None => Ok((BeginMode::Deferred, tokens)),
    }
}

#[tactic(auto, unfolding(sql_grammar::specs::Readers::optionally, sql_grammar::specs::Readers::choose, sql_grammar::specs::Readers::made, sql_grammar::specs::Readers::yields, crate::specs::StatementReading::rollback_from))]
fn rollback<'a>(alloc: Global, spelled: SourceTokens<'_>, tokens: Rest<'a>) -> Read<'a, Statement>
    ensures { ReadsBy spelled.now tokens.now result spec.rollback_from }
{
    let rest = optional(Keyword::Transaction, tokens);
    match after_word(Keyword::To, rest) {
        Some(rest) => {
            let (name, rest) = name(alloc, spelled, optional(Keyword::Savepoint, rest))?;
            Ok((Statement::RollbackTo(name), rest))
        }
        None => Ok((Statement::Rollback, rest)),
    }
}

#[tactic(auto, unfolding(sql_grammar::specs::Readers::optionally, sql_grammar::specs::Readers::made, crate::specs::StatementReading::release_from))]
fn release<'a>(alloc: Global, spelled: SourceTokens<'_>, tokens: Rest<'a>) -> Read<'a, Statement>
    ensures { ReadsBy spelled.now tokens.now result spec.release_from }
{
    let (name, rest) = name(alloc, spelled, optional(Keyword::Savepoint, tokens))?;
    Ok((Statement::Release(name), rest))
}

/// A PRAGMA. Any but a checkpoint is not supported.
#[tactic(auto, unfolding(sql_grammar::specs::Readers::both, crate::specs::StatementReading::pragma_from))]
fn pragma<'a>(alloc: Global, spelled: SourceTokens<'_>, tokens: Rest<'a>) -> Read<'a, Statement>
    ensures { ReadsBy spelled.now tokens.now result spec.pragma_from }
{
    let (pragma, rest) = name(alloc, spelled, tokens)?;
    let (argument, rest) = argument(alloc, spelled, rest)?;
    match checkpoint(&pragma, argument) {
        Some(mode) => Ok((Statement::Checkpoint(mode), rest)),
        None => {
            end(rest)?;
            Err(Refusal::Unsupported)
        }
    }
}

/// A name in parentheses, where a parenthesis comes next.
#[tactic(auto, unfolding(sql_grammar::specs::Readers::yields, crate::specs::StatementReading::argument_from))]
fn argument<'a>(
    alloc: Global,
    spelled: SourceTokens<'_>,
    tokens: Rest<'a>,
) -> Read<'a, Option<Name>>
    ensures { ReadsBy spelled.now tokens.now result spec.argument_from }
{
    match after_paren(tokens) {
        Some(rest) => given(alloc, spelled, rest),
        None => Ok((None, tokens)),
    }
}

/// A name and the closing parenthesis.
#[tactic(auto, unfolding(sql_grammar::specs::Readers::made, sql_grammar::specs::Readers::before_mark, crate::specs::StatementReading::given_from))]
fn given<'a>(alloc: Global, spelled: SourceTokens<'_>, tokens: Rest<'a>) -> Read<'a, Option<Name>>
    ensures { ReadsBy spelled.now tokens.now result spec.given_from }
{
    let (argument, rest) = name(alloc, spelled, tokens)?;
    let (argument, rest) = beside(argument, mark(Kind::RightParen, rest))?;
    Ok((Some(argument), rest))
}

/// The checkpoint that a PRAGMA of this name and argument is.
#[tactic(auto, unfolding(sql_grammar::specs::Statements::checkpoint_of))]
fn checkpoint(pragma: &Name, argument: Option<Name>) -> Option<CheckpointMode>
    ensures { result ≡ checkpoint_of pragma.now argument }
{
    if pragma.is_same("wal_checkpoint") {
        checkpoint_mode(argument)
    } else {
        None
    }
}

/// How far a checkpoint goes by its argument.
fn checkpoint_mode(argument: Option<Name>) -> Option<CheckpointMode>
    ensures { result ≡ mode_of argument }
{
    let Some(argument) = argument else {
        return Some(CheckpointMode::Passive);
    };
    if argument.is_same("passive") {
        Some(CheckpointMode::Passive)
    } else if argument.is_same("restart") {
        Some(CheckpointMode::Restart)
    } else if argument.is_same("truncate") {
        Some(CheckpointMode::Truncate)
    } else {
        None
    }
}
