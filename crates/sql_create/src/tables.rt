//! Tables with their columns and rules.

ghost use Rattle.std.specs.Prelude.{◌≡◌, List, Some, length};
ghost use Rattle.sql_lexer.specs.declared.token.Kind.TheVariants as kinds;
ghost use Rattle.sql_lexer.specs.declared.token.Token.{Token as Spelling};
ghost use Rattle.sql_expr.specs.Symbols.{seen};
ghost use Rattle.sql_expr.specs.Reading.{ReadsBy};
ghost use Rattle.sql_grammar.specs.Limits.{few};
ghost use Rattle.sql_grammar.specs.Readers as readers;
ghost use Rattle.sql_syntax.specs.declared.create.ColumnRule.TheVariants as rule;
ghost use Rattle.sql_create.specs.TableReading as spec;

use crate::columns::column;
use sql_expr::{
    Read, Rest, SourceTokens, after_comma, after_word, beside, enclosed, keyword, mark, name,
    name_row, within, word,
};
use sql_lexer::{Keyword, Kind};
use sql_syntax::{ColumnDefinition, TableDefinition, TableRule};
use sqlval::limits::MAX_COLUMNS;
use sqlval::{Many, Name};
use std::alloc::Global;

/// A table, after CREATE TABLE.
#[tactic(auto, unfolding(sql_grammar::specs::Readers::made, sql_grammar::specs::Readers::both, crate::specs::TableReading::table_from))]
pub fn table<'a>(
    alloc: Global,
    spelled: SourceTokens<'_>,
    tokens: Rest<'a>,
) -> Read<'a, TableDefinition>
    ensures { ReadsBy spelled.now tokens.now result spec.table_from }
{
    let (name, rest) = name(alloc, spelled, tokens)?;
    let (columns, rest) = few_columns(alloc, spelled, rest)?;
    let (rules, rest) = last_rules(alloc, spelled, rest)?;
    Ok((
        TableDefinition {
            name,
            columns,
            rules,
        },
        rest,
    ))
}

/// The columns after the open parenthesis.
#[tactic(auto, unfolding(sql_grammar::specs::Readers::after_mark, sql_grammar::specs::Readers::limited))]
fn few_columns<'a>(
    alloc: Global,
    spelled: SourceTokens<'_>,
    tokens: Rest<'a>,
) -> Read<'a, Many<ColumnDefinition>>
    ensures { ReadsBy spelled.now tokens.now result
        (readers.after_mark kinds.LeftParen (readers.limited few spec.columns_from)) }
{
    let (columns, rest) = columns(alloc, spelled, mark(Kind::LeftParen, tokens)?)?;
    within(columns.len(), MAX_COLUMNS)?;
    Ok((columns, rest))
}

/// The rules up to the closing parenthesis.
#[tactic(auto, unfolding(sql_grammar::specs::Readers::before_mark))]
fn last_rules<'a>(
    alloc: Global,
    spelled: SourceTokens<'_>,
    tokens: Rest<'a>,
) -> Read<'a, Many<TableRule>>
    ensures { ReadsBy spelled.now tokens.now result
        (readers.before_mark kinds.RightParen (readers.many spec.next_rule_from)) }
{
    let (rules, rest) = table_rules(alloc, spelled, tokens)?;
    beside(rules, mark(Kind::RightParen, rest))
}

/// One or more columns with commas between, up to a rule or the end.
#[tactic(auto, unfolding(crate::specs::TableReading::columns_from))]
fn columns<'a>(
    alloc: Global,
    spelled: SourceTokens<'_>,
    tokens: Rest<'a>,
) -> Read<'a, Many<ColumnDefinition>>
    ensures { ReadsBy spelled.now tokens.now result spec.columns_from }
{
    let (first, rest) = column(alloc, spelled, tokens)?;
    let mut found = Many::new(alloc);
    found.push(first)?;
    more_columns(alloc, spelled, found, rest)
}

/// Further columns, each after a comma.
#[tactic(auto, unfolding(sql_grammar::specs::Readers::many_upto))]
fn more_columns<'a>(
    alloc: Global,
    spelled: SourceTokens<'_>,
    found: Many<ColumnDefinition>,
    tokens: Rest<'a>,
) -> Read<'a, Many<ColumnDefinition>>
    ensures { ReadsBy spelled.now tokens.now result
        (readers.many_upto spec.next_column_from (length (seen spelled.now tokens.now)) found) }
{
    let mut columns = found;
    let mut rest = tokens;
    'columns: for _ in 0..tokens.len() {
        let (next, after) = next_column(alloc, spelled, rest)?;
        let Some(column) = next else {
            return Ok((columns, after));
        };
        columns.push(column)?;
        rest = after;
    }
    Ok((columns, rest))
}

/// A further column after a comma, where one comes next.
#[tactic(auto, unfolding(crate::specs::TableReading::next_column_from))]
fn next_column<'a>(
    alloc: Global,
    spelled: SourceTokens<'_>,
    tokens: Rest<'a>,
) -> Read<'a, Option<ColumnDefinition>>
    ensures { ReadsBy spelled.now tokens.now result spec.next_column_from }
{
    let Some(rest) = after_comma(tokens) else {
        return Ok((None, tokens));
    };
    if begins_rule(rest) {
        return Ok((None, tokens));
    }
    let (column, rest) = column(alloc, spelled, rest)?;
    Ok((Some(column), rest))
}

/// Whether a rule of the table comes next.
#[tactic(auto, unfolding(crate::specs::TableReading::begins_rule))]
fn begins_rule(tokens: Rest<'_>) -> bool
    ensures { (whole : List Spelling) → result ≡ spec.begins_rule (seen whole tokens.now) }
{
    matches!(
        tokens,
        [keyword!(Primary) | keyword!(Unique) | keyword!(Check), ..]
    )
}

/// The rules after the columns, each after a comma.
#[tactic(auto, unfolding(sql_grammar::specs::Readers::many_upto))]
fn table_rules<'a>(
    alloc: Global,
    spelled: SourceTokens<'_>,
    tokens: Rest<'a>,
) -> Read<'a, Many<TableRule>>
    ensures { ReadsBy spelled.now tokens.now result (readers.many spec.next_rule_from) }
{
    let mut rules = Many::new(alloc);
    let mut rest = tokens;
    'rules: for _ in 0..tokens.len() {
        let (found, after) = next_rule(alloc, spelled, rest)?;
        let Some(rule) = found else {
            return Ok((rules, after));
        };
        rules.push(rule)?;
        rest = after;
    }
    Ok((rules, rest))
}

/// A further rule after a comma, where a comma comes next.
#[tactic(auto, unfolding(sql_grammar::specs::Readers::choose_comma, sql_grammar::specs::Readers::made, sql_grammar::specs::Readers::yields, crate::specs::TableReading::next_rule_from))]
fn next_rule<'a>(
    alloc: Global,
    spelled: SourceTokens<'_>,
    tokens: Rest<'a>,
) -> Read<'a, Option<TableRule>>
    ensures { ReadsBy spelled.now tokens.now result spec.next_rule_from }
{
    match after_comma(tokens) {
        Some(rest) => {
            let (rule, rest) = table_rule(alloc, spelled, rest)?;
            Ok((Some(rule), rest))
        }
        None => Ok((None, tokens)),
    }
}

#[tactic(auto, unfolding(sql_grammar::specs::Readers::choose, sql_grammar::specs::Readers::made, sql_grammar::specs::Readers::preceded, crate::specs::TableReading::table_rule_from))]
fn table_rule<'a>(alloc: Global, spelled: SourceTokens<'_>, tokens: Rest<'a>) -> Read<'a, TableRule>
    ensures { ReadsBy spelled.now tokens.now result spec.table_rule_from }
{
    if let Some(rest) = after_word(Keyword::Primary, tokens) {
        let (columns, rest) = key_columns(alloc, spelled, word(Keyword::Key, rest)?)?;
        return Ok((TableRule::PrimaryKey(columns), rest));
    }
    if let Some(rest) = after_word(Keyword::Unique, tokens) {
        let (columns, rest) = key_columns(alloc, spelled, rest)?;
        return Ok((TableRule::Unique(columns), rest));
    }
    let (condition, rest) = enclosed(alloc, spelled, word(Keyword::Check, tokens)?)?;
    Ok((TableRule::Check(condition), rest))
}

#[tactic(auto, unfolding(sql_grammar::specs::Readers::limited, crate::specs::TableReading::key_columns_from))]
fn key_columns<'a>(
    alloc: Global,
    spelled: SourceTokens<'_>,
    tokens: Rest<'a>,
) -> Read<'a, Many<Name>>
    ensures { ReadsBy spelled.now tokens.now result spec.key_columns_from }
{
    let (columns, rest) = name_row(alloc, spelled, tokens)?;
    within(columns.len(), MAX_COLUMNS)?;
    Ok((columns, rest))
}
