//! Indexes.

ghost use Rattle.std.specs.Prelude.{List};
ghost use Rattle.sql_lexer.specs.declared.keyword.Keyword.TheVariants as keyword;
ghost use Rattle.sql_lexer.specs.declared.token.Kind.TheVariants as kinds;
ghost use Rattle.sql_lexer.specs.declared.token.Token.{Token as Spelling};
ghost use Rattle.sql_expr.specs.Reading.{ReadsBy, name_from};
ghost use Rattle.sql_grammar.specs.Limits.{few};
ghost use Rattle.sql_grammar.specs.Readers as readers;
ghost use Rattle.sql_create.specs.IndexReading as spec;

use sql_expr::{
    Read, Refusal, Rest, SourceTokens, after_comma, after_word, beside, mark, name, name_after,
    unexpected, within,
};
use sql_lexer::{Keyword, Kind};
use sql_syntax::{IndexColumn, IndexDefinition};
use sqlval::limits::MAX_COLUMNS;
use sqlval::{Many, Name};
use std::alloc::Global;

/// An index, after CREATE.
#[tactic(auto, unfolding(sql_grammar::specs::Readers::made, sql_grammar::specs::Readers::both, sql_grammar::specs::Readers::preceded, crate::specs::IndexReading::index_from))]
pub fn index<'a>(
    alloc: Global,
    spelled: SourceTokens<'_>,
    tokens: Rest<'a>,
) -> Read<'a, IndexDefinition>
    ensures { ReadsBy spelled.now tokens.now result spec.index_from }
{
    let (is_unique, rest) = unique(tokens)?;
    let (own, rest) = name_after(alloc, spelled, Keyword::Index, rest)?;
    let (table, rest) = name_after(alloc, spelled, Keyword::On, rest)?;
    let (columns, rest) = column_row(alloc, spelled, rest)?;
    Ok((
        IndexDefinition {
            is_unique,
            name: own,
            table,
            columns,
        },
        rest,
    ))
}

#[tactic(auto, unfolding(sql_grammar::specs::Readers::choose, sql_grammar::specs::Readers::yields, crate::specs::IndexReading::unique_from))]
fn unique<'a>(tokens: Rest<'a>) -> Read<'a, bool>
    ensures { (whole : List Spelling) → ReadsBy whole tokens.now result spec.unique_from }
{
    match after_word(Keyword::Unique, tokens) {
        Some(rest) => Ok((true, rest)),
        None => Ok((false, tokens)),
    }
}

/// The columns in parentheses.
#[tactic(auto, unfolding(sql_grammar::specs::Readers::after_mark, sql_grammar::specs::Readers::before_mark))]
fn column_row<'a>(
    alloc: Global,
    spelled: SourceTokens<'_>,
    tokens: Rest<'a>,
) -> Read<'a, Many<IndexColumn>>
    ensures { ReadsBy spelled.now tokens.now result
        (readers.after_mark kinds.LeftParen (readers.before_mark kinds.RightParen
        (readers.limited few (readers.listed spec.index_column_from)))) }
{
    let (columns, rest) = few_columns(alloc, spelled, mark(Kind::LeftParen, tokens)?)?;
    beside(columns, mark(Kind::RightParen, rest))
}

#[tactic(auto, unfolding(sql_grammar::specs::Readers::limited))]
fn few_columns<'a>(
    alloc: Global,
    spelled: SourceTokens<'_>,
    tokens: Rest<'a>,
) -> Read<'a, Many<IndexColumn>>
    ensures { ReadsBy spelled.now tokens.now result
        (readers.limited few (readers.listed spec.index_column_from)) }
{
    let (columns, rest) = index_columns(alloc, spelled, tokens)?;
    within(columns.len(), MAX_COLUMNS)?;
    Ok((columns, rest))
}

#[tactic(auto, unfolding(sql_grammar::specs::Readers::listed_upto))]
fn index_columns<'a>(
    alloc: Global,
    spelled: SourceTokens<'_>,
    tokens: Rest<'a>,
) -> Read<'a, Many<IndexColumn>>
    ensures { ReadsBy spelled.now tokens.now result (readers.listed spec.index_column_from) }
{
    let mut columns = Many::new(alloc);
    let mut rest = tokens;
    'columns: for _ in 0..tokens.len() {
        let (column, after) = index_column(alloc, spelled, rest)?;
        columns.push(column)?;
        match after_comma(after) {
            Some(next) => rest = next,
            None => return Ok((columns, after)),
        }
    }
    Err(unexpected(rest))
}

#[tactic(auto, unfolding(sql_grammar::specs::Readers::made, sql_grammar::specs::Readers::both, crate::specs::IndexReading::index_column_from))]
fn index_column<'a>(
    alloc: Global,
    spelled: SourceTokens<'_>,
    tokens: Rest<'a>,
) -> Read<'a, IndexColumn>
    ensures { ReadsBy spelled.now tokens.now result spec.index_column_from }
{
    let (own, rest) = name(alloc, spelled, tokens)?;
    let (collation, rest) = collation(alloc, spelled, rest)?;
    Ok((
        IndexColumn {
            name: own,
            collation,
        },
        rest,
    ))
}

/// A name after COLLATE, where COLLATE comes next.
#[tactic(auto, unfolding(sql_grammar::specs::Readers::maybe, sql_grammar::specs::Readers::choose, sql_grammar::specs::Readers::made, sql_grammar::specs::Readers::yields))]
fn collation<'a>(
    alloc: Global,
    spelled: SourceTokens<'_>,
    tokens: Rest<'a>,
) -> Read<'a, Option<Name>>
    ensures { ReadsBy spelled.now tokens.now result (readers.maybe keyword.Collate name_from) }
{
    match after_word(Keyword::Collate, tokens) {
        Some(rest) => {
            let (collation, rest) = name(alloc, spelled, rest)?;
            Ok((Some(collation), rest))
        }
        None => Ok((None, tokens)),
    }
}
