//! The sources of a query, and how they are joined.

ghost use Rattle.std.specs.Prelude.{List};
ghost use Rattle.sql_lexer.specs.declared.keyword.Keyword.TheVariants as keyword;
ghost use Rattle.sql_lexer.specs.declared.token.Token.{Token as Spelling};
ghost use Rattle.sql_expr.specs.Reading.{ReadsBy};
ghost use Rattle.sql_grammar.specs.Limits.{few_joins};
ghost use Rattle.sql_grammar.specs.Readers as readers;
ghost use Rattle.sql_query.specs.QueryReading as spec;

use sql_expr::{
    Read, Rest, SourceTokens, after_comma, after_word, expression, kind, maybe_name, name,
    optional, within, word,
};
use sql_lexer::Keyword;
use sql_syntax::{Expr, FromClause, Join, JoinKind, Source};
use sqlval::limits::MAX_SOURCES;
use sqlval::{Many, Name};
use std::alloc::Global;

#[tactic(auto, unfolding(sql_grammar::specs::Readers::maybe, sql_grammar::specs::Readers::choose, sql_grammar::specs::Readers::made, sql_grammar::specs::Readers::both, sql_grammar::specs::Readers::yields, crate::specs::QueryReading::sources_from))]
pub(crate) fn from<'a>(
    alloc: Global,
    spelled: SourceTokens<'_>,
    tokens: Rest<'a>,
) -> Read<'a, Option<FromClause>>
    ensures { ReadsBy spelled.now tokens.now result (readers.maybe keyword.From spec.sources_from) }
{
    let Some(rest) = after_word(Keyword::From, tokens) else {
        return Ok((None, tokens));
    };
    let (first, rest) = source(alloc, spelled, rest)?;
    let (joins, rest) = further(alloc, spelled, rest)?;
    Ok((Some(FromClause { first, joins }), rest))
}

/// The sources after the first.
#[tactic(auto, unfolding(sql_grammar::specs::Readers::limited))]
fn further<'a>(alloc: Global, spelled: SourceTokens<'_>, tokens: Rest<'a>) -> Read<'a, Many<Join>>
    ensures { ReadsBy spelled.now tokens.now result
        (readers.limited few_joins (readers.many spec.next_join_from)) }
{
    let (joins, rest) = joins(alloc, spelled, tokens)?;
    within(joins.len(), MAX_SOURCES - 1)?;
    Ok((joins, rest))
}

#[tactic(auto, unfolding(sql_grammar::specs::Readers::made, sql_grammar::specs::Readers::both, crate::specs::QueryReading::source_from))]
fn source<'a>(alloc: Global, spelled: SourceTokens<'_>, tokens: Rest<'a>) -> Read<'a, Source>
    ensures { ReadsBy spelled.now tokens.now result spec.source_from }
{
    let (table, rest) = name(alloc, spelled, tokens)?;
    let (alias, rest) = alias(alloc, spelled, rest)?;
    Ok((Source { name: table, alias }, rest))
}

#[tactic(auto, unfolding(sql_grammar::specs::Readers::choose, sql_grammar::specs::Readers::made, crate::specs::QueryReading::alias_from))]
fn alias<'a>(alloc: Global, spelled: SourceTokens<'_>, tokens: Rest<'a>) -> Read<'a, Option<Name>>
    ensures { ReadsBy spelled.now tokens.now result spec.alias_from }
{
    match after_word(Keyword::As, tokens) {
        Some(rest) => {
            let (alias, rest) = name(alloc, spelled, rest)?;
            Ok((Some(alias), rest))
        }
        None => maybe_name(alloc, spelled, tokens),
    }
}

#[tactic(auto, unfolding(sql_grammar::specs::Readers::many_upto))]
fn joins<'a>(alloc: Global, spelled: SourceTokens<'_>, tokens: Rest<'a>) -> Read<'a, Many<Join>>
    ensures { ReadsBy spelled.now tokens.now result (readers.many spec.next_join_from) }
{
    let mut joins = Many::new(alloc);
    let mut rest = tokens;
    'joins: for _ in 0..tokens.len() {
        let (found, after) = next_join(alloc, spelled, rest)?;
        let Some(join) = found else {
            return Ok((joins, after));
        };
        joins.push(join)?;
        rest = after;
    }
    Ok((joins, rest))
}

/// A further source, where one comes next.
#[tactic(auto, unfolding(crate::specs::QueryReading::next_join_from))]
fn next_join<'a>(
    alloc: Global,
    spelled: SourceTokens<'_>,
    tokens: Rest<'a>,
) -> Read<'a, Option<Join>>
    ensures { ReadsBy spelled.now tokens.now result spec.next_join_from }
{
    let (kind, rest) = join_kind(tokens)?;
    match kind {
        Some(kind) => {
            let (join, rest) = join(alloc, spelled, kind, rest)?;
            Ok((Some(join), rest))
        }
        None => Ok((None, rest)),
    }
}

/// How a further source is joined, where one comes next.
#[tactic(auto, unfolding(sql_grammar::specs::Readers::choose_comma, sql_grammar::specs::Readers::choose, sql_grammar::specs::Readers::preceded, sql_grammar::specs::Readers::optionally, sql_grammar::specs::Readers::yields, crate::specs::QueryReading::join_kind_from))]
fn join_kind<'a>(tokens: Rest<'a>) -> Read<'a, Option<JoinKind>>
    ensures { (whole : List Spelling) → ReadsBy whole tokens.now result spec.join_kind_from }
{
    if let Some(rest) = after_comma(tokens) {
        return Ok((Some(JoinKind::Comma), rest));
    }
    if let Some(rest) = after_word(Keyword::Join, tokens) {
        return Ok((Some(JoinKind::Inner), rest));
    }
    if let Some(rest) = after_word(Keyword::Inner, tokens) {
        return Ok((Some(JoinKind::Inner), word(Keyword::Join, rest)?));
    }
    if let Some(rest) = after_word(Keyword::Left, tokens) {
        let rest = word(Keyword::Join, optional(Keyword::Outer, rest))?;
        return Ok((Some(JoinKind::Left), rest));
    }
    Ok((None, tokens))
}

#[tactic(auto, unfolding(sql_grammar::specs::Readers::made, sql_grammar::specs::Readers::both, crate::specs::QueryReading::join_from))]
fn join<'a>(
    alloc: Global,
    spelled: SourceTokens<'_>,
    kind: JoinKind,
    tokens: Rest<'a>,
) -> Read<'a, Join>
    ensures { ReadsBy spelled.now tokens.now result (spec.join_from kind) }
{
    let (source, rest) = source(alloc, spelled, tokens)?;
    let (condition, rest) = on(alloc, spelled, kind, rest)?;
    Ok((
        Join {
            kind,
            source,
            condition,
        },
        rest,
    ))
}

/// The condition of a join, which a comma has none of.
#[tactic(auto, unfolding(sql_grammar::specs::Readers::made, sql_grammar::specs::Readers::yields, sql_grammar::specs::Readers::preceded, crate::specs::QueryReading::on_from))]
fn on<'a>(
    alloc: Global,
    spelled: SourceTokens<'_>,
    kind: JoinKind,
    tokens: Rest<'a>,
) -> Read<'a, Option<Expr>>
    ensures { ReadsBy spelled.now tokens.now result (spec.on_from kind) }
{
    match kind {
        JoinKind::Comma => Ok((None, tokens)),
        JoinKind::Inner | JoinKind::Left => {
            let (condition, rest) = expression(alloc, spelled, word(Keyword::On, tokens)?)?;
            Ok((Some(condition), rest))
        }
    }
}
