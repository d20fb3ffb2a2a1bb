//! What CREATE makes.

ghost use Rattle.sql_expr.specs.Reading.{ReadsBy};
ghost use Rattle.sql_parser.specs.ObjectReading as spec;

use crate::triggers::trigger;
use sql_create::{index, table};
use sql_expr::{Read, Refusal, Rest, SourceTokens, after_word, maybe_name_row, name, within, word};
use sql_lexer::Keyword;
use sql_query::query;
use sql_syntax::{NewObject, ViewDefinition};
use sqlval::limits::MAX_COLUMNS;
use sqlval::{Many, Name};
use std::alloc::Global;

/// A new object, after CREATE.
#[tactic(auto, unfolding(sql_grammar::specs::Readers::choose, sql_grammar::specs::Readers::made, crate::specs::ObjectReading::object_from))]
pub fn new_object<'a>(
    alloc: Global,
    spelled: SourceTokens<'_>,
    tokens: Rest<'a>,
) -> Read<'a, NewObject>
    ensures { ReadsBy spelled.now tokens.now result spec.object_from }
{
    if let Some(rest) = after_word(Keyword::Table, tokens) {
        let (table, rest) = table(alloc, spelled, rest)?;
        return Ok((NewObject::Table(table), rest));
    }
    if let Some(rest) = after_word(Keyword::View, tokens) {
        let (view, rest) = view(alloc, spelled, rest)?;
        return Ok((NewObject::View(view), rest));
    }
    if let Some(rest) = after_word(Keyword::Trigger, tokens) {
        let (trigger, rest) = trigger(alloc, spelled, rest)?;
        return Ok((NewObject::Trigger(trigger), rest));
    }
    let (index, rest) = index(alloc, spelled, tokens)?;
    Ok((NewObject::Index(index), rest))
}

/// A view, after CREATE VIEW.
#[tactic(auto, unfolding(sql_grammar::specs::Readers::made, sql_grammar::specs::Readers::both, sql_grammar::specs::Readers::preceded, crate::specs::ObjectReading::view_from))]
fn view<'a>(alloc: Global, spelled: SourceTokens<'_>, tokens: Rest<'a>) -> Read<'a, ViewDefinition>
    ensures { ReadsBy spelled.now tokens.now result spec.view_from }
{
    let (name, rest) = name(alloc, spelled, tokens)?;
    let (columns, rest) = view_columns(alloc, spelled, rest)?;
    let (query, rest) = query(alloc, spelled, word(Keyword::As, rest)?)?;
    Ok((
        ViewDefinition {
            name,
            columns,
            query,
        },
        rest,
    ))
}

#[tactic(auto, unfolding(sql_grammar::specs::Readers::limited, crate::specs::ObjectReading::view_columns_from))]
fn view_columns<'a>(
    alloc: Global,
    spelled: SourceTokens<'_>,
    tokens: Rest<'a>,
) -> Read<'a, Option<Many<Name>>>
    ensures { ReadsBy spelled.now tokens.now result spec.view_columns_from }
{
    let (columns, rest) = maybe_name_row(alloc, spelled, tokens)?;
    if let Some(columns) = &columns {
        within(columns.len(), MAX_COLUMNS)?;
    }
    Ok((columns, rest))
}
