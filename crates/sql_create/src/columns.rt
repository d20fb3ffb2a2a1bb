//! A column of a new table, with its type and its rules.

ghost use Rattle.std.specs.Prelude.{◌≡◌, List, Some, option_map};
ghost use Rattle.sql_lexer.specs.declared.token.Token.{Token as Spelling};
ghost use Rattle.sql_expr.specs.Symbols.{seen};
ghost use Rattle.sql_expr.specs.Reading.{ReadsBy, enclosed_from, maybe_name_from, name_from};
ghost use Rattle.sql_grammar.specs.Readers as readers;
ghost use Rattle.sql_syntax.specs.declared.create.ColumnRule.TheVariants as rule;
ghost use Rattle.sql_create.specs.TableReading as spec;

use sql_expr::{
    Read, Rest, SourceTokens, after_comma, after_paren, after_word, blob_of, enclosed, integer,
    keyword, kind, mark, maybe_name, name, spelling, text_of, unexpected, word,
};
use sql_lexer::{Keyword, Kind};
use sql_syntax::{ColumnDefinition, ColumnRule, DeclaredType};
use sqlval::{Many, Name, Value};
use std::alloc::Global;

#[tactic(auto, unfolding(sql_grammar::specs::Readers::made, sql_grammar::specs::Readers::both, crate::specs::TableReading::column_from))]
pub(crate) fn column<'a>(
    alloc: Global,
    spelled: SourceTokens<'_>,
    tokens: Rest<'a>,
) -> Read<'a, ColumnDefinition>
    ensures { ReadsBy spelled.now tokens.now result spec.column_from }
{
    let (name, rest) = name(alloc, spelled, tokens)?;
    let (declared, rest) = declared_type(alloc, spelled, rest)?;
    let (rules, rest) = column_rules(alloc, spelled, rest)?;
    Ok((
        ColumnDefinition {
            name,
            declared,
            rules,
        },
        rest,
    ))
}

#[tactic(auto, unfolding(sql_grammar::specs::Readers::made, sql_grammar::specs::Readers::both, crate::specs::TableReading::declared_from))]
fn declared_type<'a>(
    alloc: Global,
    spelled: SourceTokens<'_>,
    tokens: Rest<'a>,
) -> Read<'a, DeclaredType>
    ensures { ReadsBy spelled.now tokens.now result spec.declared_from }
{
    let (words, rest) = type_words(alloc, spelled, tokens)?;
    let (is_sized, rest) = sized(rest)?;
    Ok((DeclaredType { words, is_sized }, rest))
}

#[tactic(auto, unfolding(sql_grammar::specs::Readers::many_upto))]
fn type_words<'a>(
    alloc: Global,
    spelled: SourceTokens<'_>,
    tokens: Rest<'a>,
) -> Read<'a, Many<Name>>
    ensures { ReadsBy spelled.now tokens.now result (readers.many maybe_name_from) }
{
    let mut words = Many::new(alloc);
    let mut rest = tokens;
    'words: for _ in 0..tokens.len() {
        let (found, after) = maybe_name(alloc, spelled, rest)?;
        let Some(word) = found else {
            return Ok((words, after));
        };
        words.push(word)?;
        rest = after;
    }
    Ok((words, rest))
}

/// Whether one or two numbers in parentheses come next.
#[tactic(auto, unfolding(sql_grammar::specs::Readers::yields, crate::specs::TableReading::sized_from))]
fn sized<'a>(tokens: Rest<'a>) -> Read<'a, bool>
    ensures { (whole : List Spelling) → ReadsBy whole tokens.now result spec.sized_from }
{
    match after_paren(tokens) {
        Some(rest) => sizes(rest),
        None => Ok((false, tokens)),
    }
}

/// One or two numbers and the closing parenthesis.
#[tactic(auto, unfolding(sql_grammar::specs::Readers::made, sql_grammar::specs::Readers::both, sql_grammar::specs::Readers::before_mark, crate::specs::TableReading::sizes_from))]
fn sizes<'a>(tokens: Rest<'a>) -> Read<'a, bool>
    ensures { (whole : List Spelling) → ReadsBy whole tokens.now result spec.sizes_from }
{
    let (_, rest) = integer(tokens)?;
    let (_, rest) = second(rest)?;
    Ok((true, mark(Kind::RightParen, rest)?))
}

/// Whether a second number comes next, after a comma.
#[tactic(auto, unfolding(sql_grammar::specs::Readers::choose_comma, sql_grammar::specs::Readers::made, sql_grammar::specs::Readers::yields, crate::specs::TableReading::second_from))]
fn second<'a>(tokens: Rest<'a>) -> Read<'a, bool>
    ensures { (whole : List Spelling) → ReadsBy whole tokens.now result spec.second_from }
{
    match after_comma(tokens) {
        Some(rest) => {
            let (_, rest) = integer(rest)?;
            Ok((true, rest))
        }
        None => Ok((false, tokens)),
    }
}

#[tactic(auto, unfolding(sql_grammar::specs::Readers::many_upto))]
fn column_rules<'a>(
    alloc: Global,
    spelled: SourceTokens<'_>,
    tokens: Rest<'a>,
) -> Read<'a, Many<ColumnRule>>
    ensures { ReadsBy spelled.now tokens.now result (readers.many spec.column_rule_from) }
{
    let mut rules = Many::new(alloc);
    let mut rest = tokens;
    'rules: for _ in 0..tokens.len() {
        let (found, after) = column_rule(alloc, spelled, rest)?;
        let Some(rule) = found else {
            return Ok((rules, after));
        };
        rules.push(rule)?;
        rest = after;
    }
    Ok((rules, rest))
}

/// A rule of a column, where one comes next.
#[tactic(auto, unfolding(sql_grammar::specs::Readers::choose, sql_grammar::specs::Readers::made, sql_grammar::specs::Readers::preceded, sql_grammar::specs::Readers::yields, crate::specs::TableReading::column_rule_from))]
fn column_rule<'a>(
    alloc: Global,
    spelled: SourceTokens<'_>,
    tokens: Rest<'a>,
) -> Read<'a, Option<ColumnRule>>
    ensures { ReadsBy spelled.now tokens.now result spec.column_rule_from }
{
    if let Some(rest) = after_word(Keyword::Primary, tokens) {
        let rest = word(Keyword::Key, rest)?;
        return Ok((Some(ColumnRule::PrimaryKey), rest));
    }
    if let Some(rest) = after_word(Keyword::Unique, tokens) {
        return Ok((Some(ColumnRule::Unique), rest));
    }
    if let Some(rest) = after_word(Keyword::Not, tokens) {
        let rest = word(Keyword::Null, rest)?;
        return Ok((Some(ColumnRule::NotNull), rest));
    }
    if let Some(rest) = after_word(Keyword::Default, tokens) {
        return default_value(alloc, spelled, rest);
    }
    if let Some(rest) = after_word(Keyword::Collate, tokens) {
        return collation(alloc, spelled, rest);
    }
    if let Some(rest) = after_word(Keyword::Check, tokens) {
        return column_check(alloc, spelled, rest);
    }
    Ok((None, tokens))
}

/// The value after DEFAULT.
#[tactic(auto, unfolding(sql_grammar::specs::Readers::made))]
fn default_value<'a>(
    alloc: Global,
    spelled: SourceTokens<'_>,
    tokens: Rest<'a>,
) -> Read<'a, Option<ColumnRule>>
    ensures { ReadsBy spelled.now tokens.now result
        (readers.made (λ v. Some (rule.Default v)) spec.signed_from) }
{
    let (value, rest) = signed(alloc, spelled, tokens)?;
    Ok((Some(ColumnRule::Default(value)), rest))
}

/// The name after COLLATE.
#[tactic(auto, unfolding(sql_grammar::specs::Readers::made))]
fn collation<'a>(
    alloc: Global,
    spelled: SourceTokens<'_>,
    tokens: Rest<'a>,
) -> Read<'a, Option<ColumnRule>>
    ensures { ReadsBy spelled.now tokens.now result (readers.made (λ c. Some (rule.Collate c)) name_from) }
{
    let (collation, rest) = name(alloc, spelled, tokens)?;
    Ok((Some(ColumnRule::Collate(collation)), rest))
}

/// The condition after CHECK.
#[tactic(auto, unfolding(sql_grammar::specs::Readers::made))]
fn column_check<'a>(
    alloc: Global,
    spelled: SourceTokens<'_>,
    tokens: Rest<'a>,
) -> Read<'a, Option<ColumnRule>>
    ensures { ReadsBy spelled.now tokens.now result (readers.made (λ e. Some (rule.Check e)) enclosed_from) }
{
    let (condition, rest) = enclosed(alloc, spelled, tokens)?;
    Ok((Some(ColumnRule::Check(condition)), rest))
}

/// The tokens after a minus, where it comes next.
#[tactic(auto, unfolding(crate::specs::TableReading::after_minus))]
fn after_minus<'a>(tokens: Rest<'a>) -> Option<Rest<'a>>
    ensures { (whole : List Spelling) → option_map (λ rest. seen whole rest.now) result
        ≡ spec.after_minus (seen whole tokens.now) }
{
    match tokens {
        [kind!(Minus), rest @ ..] => Some(rest),
        _ => None,
    }
}

/// A literal, where an integer may have a minus.
#[tactic(auto, unfolding(crate::specs::TableReading::signed_from, crate::specs::TableReading::number_from))]
fn signed<'a>(alloc: Global, spelled: SourceTokens<'_>, tokens: Rest<'a>) -> Read<'a, Value>
    ensures { ReadsBy spelled.now tokens.now result spec.signed_from }
{
    let Some(rest) = after_minus(tokens) else {
        return literal(alloc, spelled, tokens);
    };
    let (n, after) = integer(rest)?;
    match negative(n) {
        Some(n) => Ok((Value::Int(n), after)),
        None => Err(unexpected(rest)),
    }
}

/// A number with a minus before it, where that has 64 bits.
fn negative(n: u64) -> Option<i64>
    ensures { result ≡ spec.negative n }
{
    match i64::try_from(n) {
        Ok(n) => Some(-n),
        Err(_) if n == 1 << 63 => Some(i64::MIN),
        Err(_) => None,
    }
}

/// A number where it has 64 bits with its sign.
fn positive(n: u64) -> Option<i64>
    ensures { result ≡ spec.positive n }
{
    match i64::try_from(n) {
        Ok(n) => Some(n),
        Err(_) => None,
    }
}

/// A literal without a sign.
#[tactic(auto, unfolding(crate::specs::TableReading::literal_from))]
fn literal<'a>(alloc: Global, spelled: SourceTokens<'_>, tokens: Rest<'a>) -> Read<'a, Value>
    ensures { ReadsBy spelled.now tokens.now result spec.literal_from }
{
    match tokens {
        [keyword!(Null), rest @ ..] => Ok((Value::Null, rest)),
        [token @ kind!(Text), rest @ ..] => {
            let text = text_of(alloc, spelling(spelled, *token))?;
            Ok((Value::Text(text), rest))
        }
        [token @ kind!(Blob), rest @ ..] => {
            let blob = blob_of(alloc, spelling(spelled, *token))?;
            Ok((Value::Blob(blob), rest))
        }
        _ => number(tokens),
    }
}

/// A number where it has 64 bits with its sign.
#[tactic(auto, unfolding(crate::specs::TableReading::number_from))]
fn number<'a>(tokens: Rest<'a>) -> Read<'a, Value>
    ensures { (whole : List Spelling) → ReadsBy whole tokens.now result (spec.number_from spec.positive) }
{
    let (n, rest) = integer(tokens)?;
    match positive(n) {
        Some(n) => Ok((Value::Int(n), rest)),
        None => Err(unexpected(tokens)),
    }
}
