//! The CHECKs that a CREATE TABLE defines.

ghost use Rattle.std.specs.Prelude.{◌≡◌, ◌∷◌, [], false, flat_map, map, IfErr, MatchOption, None};
ghost use Rattle.sqlval.specs.Faults.{IsNotDiskFault, IsOrMemory};
ghost use Rattle.catalog.specs.Listed.{as_column};
ghost use Rattle.query_names.specs.Checked.{known_all};
ghost use Rattle.query_names.specs.Creating.{checks_known, known_after};
ghost use Rattle.query_names.specs.Expressions.{resolve};
ghost use Rattle.query_names.specs.Named.{Names, NamesBy};
ghost use Rattle.query_names.specs.Scopes.{table_scope};
ghost use Rattle.query_names.specs.Tables as meant;
ghost use Rattle.query_names.specs.Tables.{checks_of, column_check, firsts, table_check, without_rows};

use crate::definitions::has_column;
use crate::expressions::bind_term;
use crate::scope::{ScopeColumn, ScopeSource, folded, scope_column};
use catalog::{Checks, Column};
use query_terms::Term;
use sql_syntax::{ColumnDefinition, ColumnRule, Expr, TableDefinition, TableRule};
use sqlval::{Many, Name, R};
use std::alloc::Global;
use std::array::from_ref;

/// The first column of each name, as expressions see it. (`Memory` alone.)
fn first_columns(alloc: Global, columns: &[Column]) -> R<Many<ScopeColumn>>
    ensures { IsOrMemory (λ seen. seen ≡ table_scope (without_rows (firsts
        (map as_column columns.now)) None [])) result }
{
    let mut seen = Vec::new(alloc);
    'columns: for place in 0..columns.len() {
        let column = &columns[place];
        if !has_column(&columns[..place], column.name.as_str()) {
            seen.push(scope_column(alloc, column, false)?)?;
        }
    }
    Ok(Many::from_vec(seen))
}

/// A table of these columns, as its CHECKs see it. (`Memory` alone.)
fn new_source(alloc: Global, name: &Name, columns: &[Column]) -> R<ScopeSource>
    ensures { IsOrMemory (λ seen. seen ≡ meant.new_source name.now (map as_column columns.now)) result }
{
    let name = folded(alloc, name)?;
    let columns = first_columns(alloc, columns)?;
    Ok(ScopeSource {
        name,
        columns,
        has_rowid: true,
        needs_name: false,
        is_known: true,
    })
}

/// The CHECK that a rule of a column is.
fn check_in(rule: &ColumnRule) -> Option<&Expr>
    ensures { MatchOption result (column_check rule.now ≡ []) (λ tree. column_check rule.now
        ≡ tree.now ∷ []) }
{
    match rule {
        ColumnRule::Check(tree) => Some(tree),
        _ => None,
    }
}

/// The CHECK that a rule of a table is.
fn table_check_in(rule: &TableRule) -> Option<&Expr>
    ensures { MatchOption result (table_check rule.now ≡ []) (λ tree. table_check rule.now
        ≡ tree.now ∷ []) }
{
    match rule {
        TableRule::Check(tree) => Some(tree),
        _ => None,
    }
}

/// Looks up the names of a CHECK, after those before it.
fn push_check(alloc: Global, scope: &[ScopeSource], found: &mut Vec<Term>, tree: &Expr) -> R<()>
    ensures { NamesBy (λ done. found.new.items)
        (known_after scope.now found.old.items (tree.now ∷ [])) result }
{
    let term = bind_term(alloc, false, scope, tree)?;
    found.push(term)?;
    Ok(())
}

/// Looks up the names of a column's CHECKs, after those before them.
fn push_of_column(
    alloc: Global,
    scope: &[ScopeSource],
    found: &mut Vec<Term>,
    rules: &[ColumnRule],
) -> R<()>
    ensures { NamesBy (λ done. found.new.items)
        (known_after scope.now found.old.items (flat_map column_check rules.now)) result }
{
    'rules: for rule in rules {
        if let Some(tree) = check_in(rule) {
            push_check(alloc, scope, found, tree)?;
        }
    }
    Ok(())
}

/// Looks up the names of the columns' CHECKs, after those before them.
fn push_of_columns(
    alloc: Global,
    scope: &[ScopeSource],
    found: &mut Vec<Term>,
    columns: &[ColumnDefinition],
) -> R<()>
    ensures { NamesBy (λ done. found.new.items)
        (known_after scope.now found.old.items (flat_map
        (λ c. flat_map column_check c.rules) columns.now)) result }
{
    'columns: for column in columns {
        push_of_column(alloc, scope, found, column.rules.as_slice())?;
    }
    Ok(())
}

/// Looks up the names of the CHECKs among a table's rules, after those before them.
fn push_of_table(
    alloc: Global,
    scope: &[ScopeSource],
    found: &mut Vec<Term>,
    rules: &[TableRule],
) -> R<()>
    ensures { NamesBy (λ done. found.new.items)
        (known_after scope.now found.old.items (flat_map table_check rules.now)) result }
{
    'rules: for rule in rules {
        if let Some(tree) = table_check_in(rule) {
            push_check(alloc, scope, found, tree)?;
        }
    }
    Ok(())
}

/// The CHECKs of a definition, in the order of their text.
fn checks_found(alloc: Global, scope: &[ScopeSource], definition: &TableDefinition) -> R<Many<Term>>
    ensures { Names (known_all
        (map (resolve false scope.now) (checks_of definition.now))) result }
{
    let mut found = Vec::new(alloc);
    push_of_columns(alloc, scope, &mut found, definition.columns.as_slice())?;
    push_of_table(alloc, scope, &mut found, definition.rules.as_slice())?;
    Ok(Many::from_vec(found))
}

/// What the CHECKs of a definition mean over the columns that it gives its table. (`NoSuch`, `Ambiguous`, `Misuse`.)
pub fn bind_checks(alloc: Global, definition: &TableDefinition, columns: &[Column]) -> R<Checks>
    ensures names { Names (checks_known definition.now columns.now) result }
    ensures not_disk { IfErr result (λ fault. IsNotDiskFault fault) }
{
    let source = new_source(alloc, &definition.name, columns)?;
    let terms = checks_found(alloc, from_ref(&source).as_slice(), definition)?;
    Checks::new(alloc, terms)
}
