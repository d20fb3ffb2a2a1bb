//! Queries.

ghost use Rattle.std.specs.Prelude.{◌≡◌, List, option_map};
ghost use Rattle.sql_lexer.specs.declared.keyword.Keyword.TheVariants as keyword;
ghost use Rattle.sql_lexer.specs.declared.token.Token.{Token as Spelling};
ghost use Rattle.sql_expr.specs.Symbols.{seen};
ghost use Rattle.sql_expr.specs.Reading.{ReadsBy, integer_from, name_from};
ghost use Rattle.sql_grammar.specs.Readers as readers;
ghost use Rattle.sql_query.specs.QueryReading as spec;

use crate::joins::from;
use sql_expr::{
    Read, Rest, SourceTokens, after_comma, after_word, beside, expression, expressions, integer,
    kind, maybe_after, name, unexpected, within, word,
};
use sql_lexer::Keyword;
use sql_syntax::{Expr, Limit, OrderTerm, Query, ResultItem};
use sqlval::limits::MAX_COLUMNS;
use sqlval::{Many, Name};
use std::alloc::Global;

/// A SELECT.
#[tactic(auto, unfolding(sql_grammar::specs::Readers::preceded, crate::specs::QueryReading::query_from))]
pub fn query<'a>(alloc: Global, spelled: SourceTokens<'_>, tokens: Rest<'a>) -> Read<'a, Query>
    ensures { ReadsBy spelled.now tokens.now result spec.query_from }
{
    selection(alloc, spelled, word(Keyword::Select, tokens)?)
}

/// What stands after SELECT.
#[tactic(auto, unfolding(sql_grammar::specs::Readers::made, sql_grammar::specs::Readers::both, crate::specs::QueryReading::selection_from))]
pub fn selection<'a>(alloc: Global, spelled: SourceTokens<'_>, tokens: Rest<'a>) -> Read<'a, Query>
    ensures { ReadsBy spelled.now tokens.now result spec.selection_from }
{
    let (is_distinct, rest) = distinct(tokens)?;
    let (results, rest) = results(alloc, spelled, rest)?;
    let (from, rest) = from(alloc, spelled, rest)?;
    let (condition, rest) = maybe_after(alloc, spelled, Keyword::Where, rest)?;
    let (before, (groups, rest)) = beside((from, condition), groups(alloc, spelled, rest))?;
    let (before, (order, rest)) = beside(before, order(alloc, spelled, rest))?;
    let ((from, condition), (limit, rest)) = beside(before, limit(rest))?;
    Ok((
        Query {
            is_distinct,
            results,
            from,
            condition,
            groups,
            order,
            limit,
        },
        rest,
    ))
}

#[tactic(auto, unfolding(sql_grammar::specs::Readers::choose, sql_grammar::specs::Readers::yields, crate::specs::QueryReading::distinct_from))]
fn distinct<'a>(tokens: Rest<'a>) -> Read<'a, bool>
    ensures { (whole : List Spelling) → ReadsBy whole tokens.now result spec.distinct_from }
{
    match after_word(Keyword::Distinct, tokens) {
        Some(rest) => Ok((true, rest)),
        None => Ok((false, tokens)),
    }
}

#[tactic(auto, unfolding(sql_grammar::specs::Readers::limited, sql_grammar::specs::Readers::listed, sql_grammar::specs::Readers::listed_upto, crate::specs::QueryReading::results_from))]
fn results<'a>(
    alloc: Global,
    spelled: SourceTokens<'_>,
    tokens: Rest<'a>,
) -> Read<'a, Many<ResultItem>>
    ensures { ReadsBy spelled.now tokens.now result spec.results_from }
{
    let (results, rest) = all_results(alloc, spelled, tokens)?;
    within(results.len(), MAX_COLUMNS)?;
    Ok((results, rest))
}

#[tactic(auto, unfolding(sql_grammar::specs::Readers::listed_upto))]
fn all_results<'a>(
    alloc: Global,
    spelled: SourceTokens<'_>,
    tokens: Rest<'a>,
) -> Read<'a, Many<ResultItem>>
    ensures { ReadsBy spelled.now tokens.now result (readers.listed spec.result_from) }
{
    let mut results = Many::new(alloc);
    let mut rest = tokens;
    'results: for _ in 0..tokens.len() {
        let (item, after) = result_item(alloc, spelled, rest)?;
        results.push(item)?;
        match after_comma(after) {
            Some(next) => rest = next,
            None => return Ok((results, after)),
        }
    }
    Err(unexpected(rest))
}

/// The tokens after a star, where it comes next.
#[tactic(auto, unfolding(crate::specs::QueryReading::after_star))]
fn after_star<'a>(tokens: Rest<'a>) -> Option<Rest<'a>>
    ensures { (whole : List Spelling) → option_map (λ rest. seen whole rest.now) result
        ≡ spec.after_star (seen whole tokens.now) }
{
    match tokens {
        [kind!(Star), rest @ ..] => Some(rest),
        _ => None,
    }
}

/// The tokens after the star of one source, where that comes next.
#[tactic(auto, unfolding(crate::specs::QueryReading::after_all_of))]
fn after_all_of<'a>(tokens: Rest<'a>) -> Option<Rest<'a>>
    ensures { (whole : List Spelling) → option_map (λ rest. seen whole rest.now) result
        ≡ spec.after_all_of (seen whole tokens.now) }
{
    match tokens {
        [
            kind!(Name) | kind!(QuotedName),
            kind!(Dot),
            kind!(Star),
            rest @ ..,
        ] => Some(rest),
        _ => None,
    }
}

#[tactic(auto, unfolding(sql_grammar::specs::Readers::yields, crate::specs::QueryReading::result_from, crate::specs::QueryReading::named_from))]
fn result_item<'a>(
    alloc: Global,
    spelled: SourceTokens<'_>,
    tokens: Rest<'a>,
) -> Read<'a, ResultItem>
    ensures { ReadsBy spelled.now tokens.now result spec.result_from }
{
    if let Some(rest) = after_star(tokens) {
        return Ok((ResultItem::All, rest));
    }
    match after_all_of(tokens) {
        Some(rest) => {
            let (source, _) = name(alloc, spelled, tokens)?;
            Ok((ResultItem::AllOf(source), rest))
        }
        None => value(alloc, spelled, tokens),
    }
}

/// An expression, and the name after AS where that comes next.
#[tactic(auto, unfolding(sql_grammar::specs::Readers::made, sql_grammar::specs::Readers::both, crate::specs::QueryReading::value_from))]
fn value<'a>(alloc: Global, spelled: SourceTokens<'_>, tokens: Rest<'a>) -> Read<'a, ResultItem>
    ensures { ReadsBy spelled.now tokens.now result spec.value_from }
{
    let (value, rest) = expression(alloc, spelled, tokens)?;
    let (value, (alias, rest)) = beside(value, maybe_as(alloc, spelled, rest))?;
    Ok((ResultItem::Of(value, alias), rest))
}

/// A name after AS, where AS comes next.
#[tactic(auto, unfolding(sql_grammar::specs::Readers::maybe, sql_grammar::specs::Readers::choose, sql_grammar::specs::Readers::made, sql_grammar::specs::Readers::yields))]
fn maybe_as<'a>(
    alloc: Global,
    spelled: SourceTokens<'_>,
    tokens: Rest<'a>,
) -> Read<'a, Option<Name>>
    ensures { ReadsBy spelled.now tokens.now result (readers.maybe keyword.As name_from) }
{
    match after_word(Keyword::As, tokens) {
        Some(rest) => {
            let (alias, rest) = name(alloc, spelled, rest)?;
            Ok((Some(alias), rest))
        }
        None => Ok((None, tokens)),
    }
}

#[tactic(auto, unfolding(sql_grammar::specs::Readers::choose, sql_grammar::specs::Readers::preceded, sql_grammar::specs::Readers::yields, crate::specs::QueryReading::groups_from))]
fn groups<'a>(alloc: Global, spelled: SourceTokens<'_>, tokens: Rest<'a>) -> Read<'a, Many<Expr>>
    ensures { ReadsBy spelled.now tokens.now result spec.groups_from }
{
    match after_word(Keyword::Group, tokens) {
        Some(rest) => expressions(alloc, spelled, word(Keyword::By, rest)?),
        None => Ok((Many::new(alloc), tokens)),
    }
}

#[tactic(auto, unfolding(sql_grammar::specs::Readers::choose, sql_grammar::specs::Readers::preceded, sql_grammar::specs::Readers::yields, crate::specs::QueryReading::order_from))]
fn order<'a>(
    alloc: Global,
    spelled: SourceTokens<'_>,
    tokens: Rest<'a>,
) -> Read<'a, Many<OrderTerm>>
    ensures { ReadsBy spelled.now tokens.now result spec.order_from }
{
    match after_word(Keyword::Order, tokens) {
        Some(rest) => order_terms(alloc, spelled, word(Keyword::By, rest)?),
        None => Ok((Many::new(alloc), tokens)),
    }
}

#[tactic(auto, unfolding(sql_grammar::specs::Readers::listed_upto))]
fn order_terms<'a>(
    alloc: Global,
    spelled: SourceTokens<'_>,
    tokens: Rest<'a>,
) -> Read<'a, Many<OrderTerm>>
    ensures { ReadsBy spelled.now tokens.now result (readers.listed spec.term_from) }
{
    let mut terms = Many::new(alloc);
    let mut rest = tokens;
    'terms: for _ in 0..tokens.len() {
        let (term, after) = order_term(alloc, spelled, rest)?;
        terms.push(term)?;
        match after_comma(after) {
            Some(next) => rest = next,
            None => return Ok((terms, after)),
        }
    }
    Err(unexpected(rest))
}

#[tactic(auto, unfolding(sql_grammar::specs::Readers::made, sql_grammar::specs::Readers::both, crate::specs::QueryReading::term_from))]
fn order_term<'a>(alloc: Global, spelled: SourceTokens<'_>, tokens: Rest<'a>) -> Read<'a, OrderTerm>
    ensures { ReadsBy spelled.now tokens.now result spec.term_from }
{
    let (expression, rest) = expression(alloc, spelled, tokens)?;
    let (expression, (is_descending, rest)) = beside(expression, direction(rest))?;
    Ok((
        OrderTerm {
            expression,
            is_descending,
        },
        rest,
    ))
}

/// Whether DESC comes next; ASC may.
#[tactic(auto, unfolding(sql_grammar::specs::Readers::choose, sql_grammar::specs::Readers::yields, crate::specs::QueryReading::direction_from))]
fn direction<'a>(tokens: Rest<'a>) -> Read<'a, bool>
    ensures { (whole : List Spelling) → ReadsBy whole tokens.now result spec.direction_from }
{
    if let Some(rest) = after_word(Keyword::Desc, tokens) {
        return Ok((true, rest));
    }
    match after_word(Keyword::Asc, tokens) {
        Some(rest) => Ok((false, rest)),
        None => Ok((false, tokens)),
    }
}

#[tactic(auto, unfolding(sql_grammar::specs::Readers::maybe, sql_grammar::specs::Readers::choose, sql_grammar::specs::Readers::made, sql_grammar::specs::Readers::both, sql_grammar::specs::Readers::yields, crate::specs::QueryReading::limit_from))]
fn limit<'a>(tokens: Rest<'a>) -> Read<'a, Option<Limit>>
    ensures { (whole : List Spelling) → ReadsBy whole tokens.now result spec.limit_from }
{
    let Some(rest) = after_word(Keyword::Limit, tokens) else {
        return Ok((None, tokens));
    };
    let (count, rest) = integer(rest)?;
    let (offset, rest) = offset(rest)?;
    Ok((Some(Limit { count, offset }), rest))
}

/// A number after OFFSET, where OFFSET comes next.
#[tactic(auto, unfolding(sql_grammar::specs::Readers::maybe, sql_grammar::specs::Readers::choose, sql_grammar::specs::Readers::made, sql_grammar::specs::Readers::yields))]
fn offset<'a>(tokens: Rest<'a>) -> Read<'a, Option<u64>>
    ensures { (whole : List Spelling) → ReadsBy whole tokens.now result
        (readers.maybe keyword.Offset integer_from) }
{
    match after_word(Keyword::Offset, tokens) {
        Some(rest) => {
            let (offset, rest) = integer(rest)?;
            Ok((Some(offset), rest))
        }
        None => Ok((None, tokens)),
    }
}
