//! Changes of rows.

ghost use Rattle.sql_expr.specs.Reading.{ReadsBy, row_from};
ghost use Rattle.sql_grammar.specs.Readers as readers;
ghost use Rattle.sql_query.specs.ChangeReading as spec;

use crate::queries::query;
use sql_expr::{
    Read, Refusal, Rest, SourceTokens, after_comma, after_word, expression, mark, maybe_after,
    maybe_name_row, name, name_after, row, unexpected, word,
};
use sql_lexer::{Keyword, Kind};
use sql_syntax::{Assignment, Change, Delete, Expr, Insert, InsertSource, Update};
use sqlval::Many;
use std::alloc::Global;

/// An INSERT, UPDATE or DELETE.
#[tactic(auto, unfolding(sql_grammar::specs::Readers::choose, sql_grammar::specs::Readers::made, sql_grammar::specs::Readers::preceded, crate::specs::ChangeReading::change_from))]
pub fn change<'a>(alloc: Global, spelled: SourceTokens<'_>, tokens: Rest<'a>) -> Read<'a, Change>
    ensures { ReadsBy spelled.now tokens.now result spec.change_from }
{
    if let Some(rest) = after_word(Keyword::Insert, tokens) {
        return insert(alloc, spelled, rest);
    }
    if let Some(rest) = after_word(Keyword::Update, tokens) {
        return update(alloc, spelled, rest);
    }
    delete(alloc, spelled, word(Keyword::Delete, tokens)?)
}

/// What stands after INSERT.
#[tactic(auto, unfolding(sql_grammar::specs::Readers::made, sql_grammar::specs::Readers::both, sql_grammar::specs::Readers::preceded, crate::specs::ChangeReading::insert_from))]
fn insert<'a>(alloc: Global, spelled: SourceTokens<'_>, tokens: Rest<'a>) -> Read<'a, Change>
    ensures { ReadsBy spelled.now tokens.now result (readers.made Change.Insert spec.insert_from) }
{
    let (table, rest) = name_after(alloc, spelled, Keyword::Into, tokens)?;
    let (columns, rest) = maybe_name_row(alloc, spelled, rest)?;
    let (source, rest) = insert_source(alloc, spelled, rest)?;
    let insert = Insert {
        table,
        columns,
        source,
    };
    Ok((Change::Insert(insert), rest))
}

#[tactic(auto, unfolding(sql_grammar::specs::Readers::choose, sql_grammar::specs::Readers::made, crate::specs::ChangeReading::insert_source_from))]
fn insert_source<'a>(
    alloc: Global,
    spelled: SourceTokens<'_>,
    tokens: Rest<'a>,
) -> Read<'a, InsertSource>
    ensures { ReadsBy spelled.now tokens.now result spec.insert_source_from }
{
    match after_word(Keyword::Values, tokens) {
        Some(rest) => {
            let (rows, rest) = rows(alloc, spelled, rest)?;
            Ok((InsertSource::Rows(rows), rest))
        }
        None => {
            let (query, rest) = query(alloc, spelled, tokens)?;
            Ok((InsertSource::Query(query), rest))
        }
    }
}

#[tactic(auto, unfolding(sql_grammar::specs::Readers::listed_upto))]
fn rows<'a>(
    alloc: Global,
    spelled: SourceTokens<'_>,
    tokens: Rest<'a>,
) -> Read<'a, Many<Many<Expr>>>
    ensures { ReadsBy spelled.now tokens.now result (readers.listed row_from) }
{
    let mut rows = Many::new(alloc);
    let mut rest = tokens;
    'rows: for _ in 0..tokens.len() {
        let (values, after) = row(alloc, spelled, rest)?;
        rows.push(values)?;
        match after_comma(after) {
            Some(next) => rest = next,
            None => return Ok((rows, after)),
        }
    }
    Err(unexpected(rest))
}

/// What stands after UPDATE.
#[tactic(auto, unfolding(sql_grammar::specs::Readers::made, sql_grammar::specs::Readers::both, sql_grammar::specs::Readers::preceded, crate::specs::ChangeReading::update_from))]
fn update<'a>(alloc: Global, spelled: SourceTokens<'_>, tokens: Rest<'a>) -> Read<'a, Change>
    ensures { ReadsBy spelled.now tokens.now result (readers.made Change.Update spec.update_from) }
{
    let (table, rest) = name(alloc, spelled, tokens)?;
    let (assignments, rest) = assignments(alloc, spelled, word(Keyword::Set, rest)?)?;
    let (condition, rest) = maybe_after(alloc, spelled, Keyword::Where, rest)?;
    let update = Update {
        table,
        assignments,
        condition,
    };
    Ok((Change::Update(update), rest))
}

#[tactic(auto, unfolding(sql_grammar::specs::Readers::listed_upto))]
fn assignments<'a>(
    alloc: Global,
    spelled: SourceTokens<'_>,
    tokens: Rest<'a>,
) -> Read<'a, Many<Assignment>>
    ensures { ReadsBy spelled.now tokens.now result (readers.listed spec.assignment_from) }
{
    let mut assignments = Many::new(alloc);
    let mut rest = tokens;
    'assignments: for _ in 0..tokens.len() {
        let (given, after) = assignment(alloc, spelled, rest)?;
        assignments.push(given)?;
        match after_comma(after) {
            Some(next) => rest = next,
            None => return Ok((assignments, after)),
        }
    }
    Err(unexpected(rest))
}

#[tactic(auto, unfolding(sql_grammar::specs::Readers::made, sql_grammar::specs::Readers::both, sql_grammar::specs::Readers::after_mark, crate::specs::ChangeReading::assignment_from))]
fn assignment<'a>(
    alloc: Global,
    spelled: SourceTokens<'_>,
    tokens: Rest<'a>,
) -> Read<'a, Assignment>
    ensures { ReadsBy spelled.now tokens.now result spec.assignment_from }
{
    let (column, rest) = name(alloc, spelled, tokens)?;
    let (value, rest) = expression(alloc, spelled, mark(Kind::Equal, rest)?)?;
    Ok((Assignment { column, value }, rest))
}

/// What stands after DELETE.
#[tactic(auto, unfolding(sql_grammar::specs::Readers::made, sql_grammar::specs::Readers::both, sql_grammar::specs::Readers::preceded, crate::specs::ChangeReading::delete_from))]
fn delete<'a>(alloc: Global, spelled: SourceTokens<'_>, tokens: Rest<'a>) -> Read<'a, Change>
    ensures { ReadsBy spelled.now tokens.now result (readers.made Change.Delete spec.delete_from) }
{
    let (table, rest) = name_after(alloc, spelled, Keyword::From, tokens)?;
    let (condition, rest) = maybe_after(alloc, spelled, Keyword::Where, rest)?;
    Ok((Change::Delete(Delete { table, condition }), rest))
}
