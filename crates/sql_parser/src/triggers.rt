//! Triggers.

ghost use Rattle.std.specs.Prelude.{List};
ghost use Rattle.sql_lexer.specs.declared.token.Token.{Token as Spelling};
ghost use Rattle.sql_lexer.specs.declared.keyword.Keyword.TheVariants as keyword;
ghost use Rattle.sql_lexer.specs.declared.token.Kind.TheVariants as kinds;
ghost use Rattle.sql_expr.specs.Reading.{ReadsBy, names_from};
ghost use Rattle.sql_parser.specs.ObjectReading as spec;
ghost use Rattle.sql_grammar.specs.Readers as readers;

use sql_expr::{
    Read, Refusal, Rest, SourceTokens, after_word, beside, mark, maybe_after, name, name_after,
    names, unexpected, word,
};
use sql_lexer::{Keyword, Kind};
use sql_query::{change, selection};
use sql_syntax::{TriggerDefinition, TriggerEvent, TriggerStatement, TriggerTime};
use sqlval::{Many, Name};
use std::alloc::Global;

/// A trigger, after CREATE TRIGGER.
#[tactic(auto, unfolding(sql_grammar::specs::Readers::made, sql_grammar::specs::Readers::both, sql_grammar::specs::Readers::preceded, crate::specs::ObjectReading::trigger_from))]
pub fn trigger<'a>(
    alloc: Global,
    spelled: SourceTokens<'_>,
    tokens: Rest<'a>,
) -> Read<'a, TriggerDefinition>
    ensures { ReadsBy spelled.now tokens.now result spec.trigger_from }
{
    let (own, rest) = name(alloc, spelled, tokens)?;
    let (time, rest) = time(rest)?;
    let (event, rest) = event(alloc, spelled, rest)?;
    let (event, (target, rest)) = beside(event, name_after(alloc, spelled, Keyword::On, rest))?;
    let (event, (_, rest)) = beside(event, each_row(rest))?;
    let when = maybe_after(alloc, spelled, Keyword::When, rest);
    let (event, (condition, rest)) = beside(event, when)?;
    let ((event, condition), (body, rest)) = beside(
        (event, condition),
        steps(alloc, spelled, rest),
    )?;
    Ok((
        TriggerDefinition {
            name: own,
            time,
            event,
            target,
            condition,
            body,
        },
        rest,
    ))
}

#[tactic(auto, unfolding(sql_grammar::specs::Readers::choose, sql_grammar::specs::Readers::preceded, sql_grammar::specs::Readers::yields, crate::specs::ObjectReading::time_from))]
fn time<'a>(tokens: Rest<'a>) -> Read<'a, TriggerTime>
    ensures { (whole : List Spelling) → ReadsBy whole tokens.now result spec.time_from }
{
    if let Some(rest) = after_word(Keyword::Before, tokens) {
        return Ok((TriggerTime::Before, rest));
    }
    if let Some(rest) = after_word(Keyword::After, tokens) {
        return Ok((TriggerTime::After, rest));
    }
    let rest = word(Keyword::Of, word(Keyword::Instead, tokens)?)?;
    Ok((TriggerTime::InsteadOf, rest))
}

#[tactic(auto, unfolding(sql_grammar::specs::Readers::choose, sql_grammar::specs::Readers::preceded, sql_grammar::specs::Readers::yields, sql_grammar::specs::Readers::made, crate::specs::ObjectReading::event_from))]
fn event<'a>(alloc: Global, spelled: SourceTokens<'_>, tokens: Rest<'a>) -> Read<'a, TriggerEvent>
    ensures { ReadsBy spelled.now tokens.now result spec.event_from }
{
    if let Some(rest) = after_word(Keyword::Insert, tokens) {
        return Ok((TriggerEvent::Insert, rest));
    }
    if let Some(rest) = after_word(Keyword::Delete, tokens) {
        return Ok((TriggerEvent::Delete, rest));
    }
    let (columns, rest) = of(alloc, spelled, word(Keyword::Update, tokens)?)?;
    Ok((TriggerEvent::Update(columns), rest))
}

/// Names after OF, where OF comes next.
#[tactic(auto, unfolding(sql_grammar::specs::Readers::maybe, sql_grammar::specs::Readers::choose, sql_grammar::specs::Readers::made, sql_grammar::specs::Readers::yields))]
fn of<'a>(
    alloc: Global,
    spelled: SourceTokens<'_>,
    tokens: Rest<'a>,
) -> Read<'a, Option<Many<Name>>>
    ensures { ReadsBy spelled.now tokens.now result (readers.maybe keyword.Of names_from) }
{
    match after_word(Keyword::Of, tokens) {
        Some(rest) => {
            let (columns, rest) = names(alloc, spelled, rest)?;
            Ok((Some(columns), rest))
        }
        None => Ok((None, tokens)),
    }
}

/// Whether FOR EACH ROW comes next.
#[tactic(auto, unfolding(sql_grammar::specs::Readers::choose, sql_grammar::specs::Readers::preceded, sql_grammar::specs::Readers::yields, crate::specs::ObjectReading::each_row_from))]
fn each_row<'a>(tokens: Rest<'a>) -> Read<'a, bool>
    ensures { (whole : List Spelling) → ReadsBy whole tokens.now result spec.each_row_from }
{
    match after_word(Keyword::For, tokens) {
        Some(rest) => Ok((true, word(Keyword::Row, word(Keyword::Each, rest)?)?)),
        None => Ok((false, tokens)),
    }
}

/// The statements after BEGIN, and END.
#[tactic(auto, unfolding(sql_grammar::specs::Readers::preceded))]
fn steps<'a>(
    alloc: Global,
    spelled: SourceTokens<'_>,
    tokens: Rest<'a>,
) -> Read<'a, Many<TriggerStatement>>
    ensures { ReadsBy spelled.now tokens.now result (readers.preceded keyword.Begin spec.body_from) }
{
    body(alloc, spelled, word(Keyword::Begin, tokens)?)
}

/// One or more statements, each with a semicolon after it, and END.
#[tactic(auto, unfolding(crate::specs::ObjectReading::body_upto))]
fn body<'a>(
    alloc: Global,
    spelled: SourceTokens<'_>,
    tokens: Rest<'a>,
) -> Read<'a, Many<TriggerStatement>>
    ensures { ReadsBy spelled.now tokens.now result spec.body_from }
{
    let mut body = Many::new(alloc);
    let mut rest = tokens;
    'body: for _ in 0..tokens.len() {
        let (statement, after) = body_statement(alloc, spelled, rest)?;
        body.push(statement)?;
        match after_word(Keyword::End, after) {
            Some(end) => return Ok((body, end)),
            None => rest = after,
        }
    }
    Err(unexpected(rest))
}

/// A statement with a semicolon after it.
#[tactic(auto, unfolding(sql_grammar::specs::Readers::before_mark))]
fn body_statement<'a>(
    alloc: Global,
    spelled: SourceTokens<'_>,
    tokens: Rest<'a>,
) -> Read<'a, TriggerStatement>
    ensures { ReadsBy spelled.now tokens.now result (readers.before_mark kinds.Semicolon spec.program_from) }
{
    let (statement, rest) = program(alloc, spelled, tokens)?;
    beside(statement, mark(Kind::Semicolon, rest))
}

#[tactic(auto, unfolding(sql_grammar::specs::Readers::choose, sql_grammar::specs::Readers::made, crate::specs::ObjectReading::program_from))]
fn program<'a>(
    alloc: Global,
    spelled: SourceTokens<'_>,
    tokens: Rest<'a>,
) -> Read<'a, TriggerStatement>
    ensures { ReadsBy spelled.now tokens.now result spec.program_from }
{
    match after_word(Keyword::Select, tokens) {
        Some(rest) => {
            let (query, rest) = selection(alloc, spelled, rest)?;
            Ok((TriggerStatement::Select(query), rest))
        }
        None => {
            let (change, rest) = change(alloc, spelled, tokens)?;
            Ok((TriggerStatement::Change(change), rest))
        }
    }
}
