//! Words, marks and numbers at the front of tokens.

ghost use Rattle.std.specs.Prelude.{◌≡◌, List, option_map};
ghost use Rattle.sql_lexer.specs.declared.token.Token.{Token as Spelling};
ghost use Rattle.sql_expr.specs.Symbols as symbols;
ghost use Rattle.sql_expr.specs.Symbols.{seen};
ghost use Rattle.sql_expr.specs.Reading as spec;
ghost use Rattle.sql_expr.specs.Reading.{Gives, ReadsBy};

use crate::kind;
use crate::refusal::{Read, Refusal, unexpected};
use crate::token::Rest;
use sql_lexer::{Keyword, Kind};

/// The tokens after a word, where it comes next.
#[tactic(auto, unfolding(crate::specs::Reading::after_word))]
pub fn after_word<'a>(keyword: Keyword, tokens: Rest<'a>) -> Option<Rest<'a>>
    ensures { (whole : List Spelling) → option_map (λ rest. seen whole rest.now) result
        ≡ spec.after_word keyword (seen whole tokens.now) }
{
    match tokens {
        [token, rest @ ..] => match token.kind {
            Kind::Word(found) if found == keyword => Some(rest),
            _ => None,
        },
        [] => None,
    }
}

/// The tokens after a word that has to come next.
#[tactic(auto, unfolding(crate::specs::Reading::word_from))]
pub fn word<'a>(keyword: Keyword, tokens: Rest<'a>) -> Result<Rest<'a>, Refusal>
    ensures { (whole : List Spelling) → Gives (λ rest. seen whole rest.now) result
        (spec.word_from keyword (seen whole tokens.now)) }
{
    after_word(keyword, tokens).ok_or(unexpected(tokens))
}

/// The tokens after a word that may come next.
#[tactic(auto, unfolding(crate::specs::Reading::optional_from))]
pub fn optional<'a>(keyword: Keyword, tokens: Rest<'a>) -> Rest<'a>
    ensures { (whole : List Spelling) → seen whole result.now ≡ spec.optional_from keyword
        (seen whole tokens.now) }
{
    after_word(keyword, tokens).unwrap_or(tokens)
}

/// Whether nothing but the kind of such a token matters.
fn is_plain(kind: Kind) -> bool
    ensures { result ≡ symbols.is_plain kind }
{
    !matches!(
        kind,
        Kind::Name | Kind::QuotedName | Kind::Text | Kind::Blob
    )
}

/// The tokens after a mark that has to come next.
#[tactic(auto, unfolding(crate::specs::Reading::mark_from))]
pub fn mark<'a>(kind: Kind, tokens: Rest<'a>) -> Result<Rest<'a>, Refusal>
    ensures { (whole : List Spelling) → Gives (λ rest. seen whole rest.now) result
        (spec.mark_from kind (seen whole tokens.now)) }
{
    match tokens {
        [token, rest @ ..] if is_plain(token.kind) && token.kind == kind => Ok(rest),
        _ => Err(unexpected(tokens)),
    }
}

/// The tokens after a comma, where it comes next.
#[tactic(auto, unfolding(crate::specs::Reading::after_comma))]
pub fn after_comma<'a>(tokens: Rest<'a>) -> Option<Rest<'a>>
    ensures { (whole : List Spelling) → option_map (λ rest. seen whole rest.now) result
        ≡ spec.after_comma (seen whole tokens.now) }
{
    match tokens {
        [kind!(Comma), rest @ ..] => Some(rest),
        _ => None,
    }
}

/// The tokens after an open parenthesis, where it comes next.
#[tactic(auto, unfolding(crate::specs::Reading::after_paren))]
pub fn after_paren<'a>(tokens: Rest<'a>) -> Option<Rest<'a>>
    ensures { (whole : List Spelling) → option_map (λ rest. seen whole rest.now) result
        ≡ spec.after_paren (seen whole tokens.now) }
{
    match tokens {
        [kind!(LeftParen), rest @ ..] => Some(rest),
        _ => None,
    }
}

/// A number.
#[tactic(auto, unfolding(crate::specs::Reading::integer_from))]
pub fn integer<'a>(tokens: Rest<'a>) -> Read<'a, u64>
    ensures { (whole : List Spelling) → ReadsBy whole tokens.now result spec.integer_from }
{
    match tokens {
        [token, rest @ ..] => match token.kind {
            Kind::Integer(n) => Ok((n, rest)),
            _ => Err(unexpected(tokens)),
        },
        [] => Err(unexpected(tokens)),
    }
}
