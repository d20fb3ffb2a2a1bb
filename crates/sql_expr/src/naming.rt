//! Names.

ghost use Rattle.sql_expr.specs.Reading as spec;
ghost use Rattle.sql_expr.specs.Reading.{ReadsBy};

use crate::kind;
use crate::literals::name_of;
use crate::refusal::{Read, Refusal, unexpected};
use crate::token::{Rest, SourceTokens, spelling};
use crate::words::{mark, word};
use sql_lexer::{Keyword, Kind};
use sqlval::{Many, Name};
use std::alloc::Global;

/// A name, where one comes next.
#[tactic(auto, unfolding(crate::specs::Reading::maybe_name_from))]
pub fn maybe_name<'a>(
    alloc: Global,
    spelled: SourceTokens<'_>,
    tokens: Rest<'a>,
) -> Read<'a, Option<Name>>
    ensures { ReadsBy spelled.now tokens.now result spec.maybe_name_from }
{
    match tokens {
        [token @ (kind!(Name) | kind!(QuotedName)), rest @ ..] => {
            Ok((Some(name_of(alloc, spelling(spelled, *token))?), rest))
        }
        _ => Ok((None, tokens)),
    }
}

/// A name.
#[tactic(auto, unfolding(crate::specs::Reading::name_from))]
pub fn name<'a>(alloc: Global, spelled: SourceTokens<'_>, tokens: Rest<'a>) -> Read<'a, Name>
    ensures { ReadsBy spelled.now tokens.now result spec.name_from }
{
    match tokens {
        [token @ (kind!(Name) | kind!(QuotedName)), rest @ ..] => {
            Ok((name_of(alloc, spelling(spelled, *token))?, rest))
        }
        _ => Err(unexpected(tokens)),
    }
}

/// A name after a word.
pub fn name_after<'a>(
    alloc: Global,
    spelled: SourceTokens<'_>,
    keyword: Keyword,
    tokens: Rest<'a>,
) -> Read<'a, Name>
    ensures { ReadsBy spelled.now tokens.now result (spec.name_after_from keyword) }
{
    name(alloc, spelled, word(keyword, tokens)?)
}

/// One or more names with commas between.
#[tactic(auto, unfolding(crate::specs::Reading::names_upto))]
pub fn names<'a>(alloc: Global, spelled: SourceTokens<'_>, tokens: Rest<'a>) -> Read<'a, Many<Name>>
    ensures { ReadsBy spelled.now tokens.now result spec.names_from }
{
    let mut names = Many::new(alloc);
    let mut rest = tokens;
    'names: for _ in 0..tokens.len() {
        let (next, after) = name(alloc, spelled, rest)?;
        names.push(next)?;
        match after {
            [kind!(Comma), following @ ..] => rest = following,
            _ => return Ok((names, after)),
        }
    }
    Err(unexpected(rest))
}

/// Names in parentheses.
#[tactic(auto, unfolding(crate::specs::Reading::enclosed_by))]
pub fn name_row<'a>(
    alloc: Global,
    spelled: SourceTokens<'_>,
    tokens: Rest<'a>,
) -> Read<'a, Many<Name>>
    ensures { ReadsBy spelled.now tokens.now result spec.name_row_from }
{
    let rest = mark(Kind::LeftParen, tokens)?;
    let (names, rest) = names(alloc, spelled, rest)?;
    Ok((names, mark(Kind::RightParen, rest)?))
}

/// Names in parentheses, where a parenthesis comes next.
#[tactic(auto, unfolding(crate::specs::Reading::maybe_name_row_from))]
pub fn maybe_name_row<'a>(
    alloc: Global,
    spelled: SourceTokens<'_>,
    tokens: Rest<'a>,
) -> Read<'a, Option<Many<Name>>>
    ensures { ReadsBy spelled.now tokens.now result spec.maybe_name_row_from }
{
    match tokens {
        [kind!(LeftParen), ..] => {
            let (names, rest) = name_row(alloc, spelled, tokens)?;
            Ok((Some(names), rest))
        }
        _ => Ok((None, tokens)),
    }
}
