//! What stands before an operand, and what goes on after it, by the tokens that come next.

ghost use Rattle.std.specs.Prelude.{◌≡◌, ◌<◌, ◌==◌, ◌∷◌, ℕ, List};
ghost use Rattle.sql_lexer.specs.declared.keyword.Keyword.TheVariants as w;
ghost use Rattle.sql_lexer.specs.declared.token.Token.{Token as Spelling};
ghost use Rattle.sql_expr.specs.declared.levels.Deep.{Deep};
ghost use Rattle.sql_expr.specs.Forms.{by_turn};
ghost use Rattle.sql_expr.specs.Grammar as grammar;
ghost use Rattle.sql_expr.specs.Symbols.{Symbol, seen, word};
ghost use Rattle.sql_expr.specs.Reading as spec;

use crate::token::Rest;
use crate::{keyword, kind};
use sql_lexer::{Keyword, Kind};
use sql_syntax::Operator;

/// The form that goes on after a left operand; a truth value says whether NOT is written.
#[derive(Clone, Copy)]
pub enum Turn {
    Collate,
    Binary(Operator),
    Between(bool),
    In(bool),
    Nothing,
}

/// The level whose chain a token goes on, and 0 where it goes on none.
fn binds(kind: Kind) -> u8
    ensures { result ≡ grammar.level_of kind }
{
    match kind {
        Kind::Word(Keyword::Or) => 10,
        Kind::Word(Keyword::And) => 9,
        Kind::Word(Keyword::Not | Keyword::Is | Keyword::In | Keyword::Between) => 7,
        Kind::Equal | Kind::DoubleEqual | Kind::NotEqual => 7,
        Kind::Less | Kind::LessOrEqual | Kind::Greater | Kind::GreaterOrEqual => 6,
        Kind::Plus | Kind::Minus => 5,
        Kind::Star | Kind::Slash | Kind::Percent => 4,
        Kind::Bars => 3,
        Kind::Word(Keyword::Collate) => 2,
        _ => 0,
    }
}

/// The operator that stands between two operands.
fn operator(kind: Kind) -> Option<Operator>
    ensures { result ≡ grammar.operator kind }
{
    match kind {
        Kind::Word(Keyword::Or) => Some(Operator::Or),
        Kind::Word(Keyword::And) => Some(Operator::And),
        Kind::Equal | Kind::DoubleEqual => Some(Operator::Equal),
        Kind::NotEqual => Some(Operator::NotEqual),
        Kind::Less => Some(Operator::Less),
        Kind::LessOrEqual => Some(Operator::LessOrEqual),
        Kind::Greater => Some(Operator::Greater),
        Kind::GreaterOrEqual => Some(Operator::GreaterOrEqual),
        Kind::Plus => Some(Operator::Add),
        Kind::Minus => Some(Operator::Subtract),
        Kind::Star => Some(Operator::Multiply),
        Kind::Slash => Some(Operator::Divide),
        Kind::Percent => Some(Operator::Remainder),
        Kind::Bars => Some(Operator::Concatenate),
        _ => None,
    }
}

/// The level that a token before its operand belongs to, and 0 where it is no such token.
fn prefixes(kind: Kind) -> u8
    ensures { result ≡ spec.prefix_of kind }
{
    match kind {
        Kind::Minus => 1,
        Kind::Word(Keyword::Not) => 8,
        _ => 0,
    }
}

/// Whether a chain of the level goes on.
#[tactic(auto, unfolding(crate::specs::Reading::goes_on))]
pub fn goes_on(rank: u8, tokens: Rest<'_>) -> bool
    ensures { (whole : List Spelling) → result ≡ spec.goes_on rank (seen whole tokens.now) }
{
    match tokens {
        [token, ..] => binds(token.kind) == rank,
        [] => false,
    }
}

/// The level whose chain goes on, and 0 where none does.
#[tactic(auto, unfolding(crate::specs::Reading::goes_on))]
pub fn chain_level(tokens: Rest<'_>) -> u8
    ensures { (whole : List Spelling) (rank : ℕ) → 0 < rank
        → spec.goes_on rank (seen whole tokens.now) ≡ (result == rank) }
{
    match tokens {
        [token, ..] => binds(token.kind),
        [] => 0,
    }
}

/// The level whose minus or NOT comes next, and 0 where none does.
#[tactic(auto, unfolding(crate::specs::Reading::is_prefixed))]
pub fn prefix_level(tokens: Rest<'_>) -> u8
    ensures { (whole : List Spelling) (rank : ℕ) → 0 < rank
        → spec.is_prefixed rank (seen whole tokens.now) ≡ (result == rank) }
{
    match tokens {
        [token, ..] => prefixes(token.kind),
        [] => 0,
    }
}

/// The form that goes on with IS.
#[tactic(auto, unfolding(crate::specs::Reading::tail))]
fn turn_of_is<'a>(tokens: Rest<'a>) -> (Turn, Rest<'a>)
    ensures { (whole : List Spelling) (inner : ℕ → List Symbol → spec.Read Deep) (room rank : ℕ) (left : Deep)
        → spec.tail inner room rank left (word w.Is ∷ seen whole tokens.now)
        ≡ by_turn inner room rank left result.0 (seen whole result.1.now) }
{
    match tokens {
        [keyword!(Not), rest @ ..] => (Turn::Binary(Operator::IsNot), rest),
        _ => (Turn::Binary(Operator::Is), tokens),
    }
}

/// The form that goes on with NOT.
#[tactic(auto, unfolding(crate::specs::Reading::tail))]
fn turn_of_not<'a>(tokens: Rest<'a>) -> (Turn, Rest<'a>)
    ensures { (whole : List Spelling) (inner : ℕ → List Symbol → spec.Read Deep) (room rank : ℕ) (left : Deep)
        → spec.tail inner room rank left (word w.Not ∷ seen whole tokens.now)
        ≡ by_turn inner room rank left result.0 (seen whole result.1.now) }
{
    match tokens {
        [keyword!(Between), rest @ ..] => (Turn::Between(true), rest),
        [keyword!(In), rest @ ..] => (Turn::In(true), rest),
        _ => (Turn::Nothing, tokens),
    }
}

/// The form that goes on, and the tokens after its first words.
#[tactic(auto, unfolding(crate::specs::Reading::tail))]
pub fn turn_of<'a>(tokens: Rest<'a>) -> (Turn, Rest<'a>)
    ensures { (whole : List Spelling) (inner : ℕ → List Symbol → spec.Read Deep) (room rank : ℕ) (left : Deep)
        → spec.tail inner room rank left (seen whole tokens.now)
        ≡ by_turn inner room rank left result.0 (seen whole result.1.now) }
{
    match tokens {
        [keyword!(Collate), rest @ ..] => (Turn::Collate, rest),
        [keyword!(Is), rest @ ..] => turn_of_is(rest),
        [keyword!(Between), rest @ ..] => (Turn::Between(false), rest),
        [keyword!(In), rest @ ..] => (Turn::In(false), rest),
        [keyword!(Not), rest @ ..] => turn_of_not(rest),
        [token, rest @ ..] => match operator(token.kind) {
            Some(op) => (Turn::Binary(op), rest),
            None => (Turn::Nothing, tokens),
        },
        [] => (Turn::Nothing, tokens),
    }
}
