//! The results of a query.

ghost use Rattle.query_names.specs.Checked.{onto_list};
ghost use Rattle.std.specs.Prelude.{◌≡◌, ◌++◌, ◌∷◌, [], Some, None, true, not, ◌&&◌, map, IfErr, OnOk};
ghost use Rattle.std.specs.List.{list_any};
ghost use Rattle.sqlval.specs.Faults.{IsOrMemory};
ghost use Rattle.sqlval.specs.Names as spelled;
ghost use Rattle.sqlval.specs.Names.{is_same_name};
ghost use Rattle.query_names.specs.Named.{NamesBy};
ghost use Rattle.query_names.specs.Queries as meant;
ghost use Rattle.query_names.specs.Queries.{cells_from, is_own, resolve_item, resolve_items, result_column, stars_from};
ghost use Rattle.query_bind.specs.Named.{name_given};

use crate::copying::column_copy;
use query_names::{ScopeColumn, ScopeSource, bind_term, cell_of, folded, missing};
use query_terms::{Term, affinity, collation};
use sql_syntax::{Expr, Node as Tree, ResultItem};
use sqlval::{Fault, Misuse, Name, Object, R};
use std::alloc::Global;

/// Adds each column of a source.
fn push_cells(
    alloc: Global,
    found: &mut Vec<(Term, ScopeColumn)>,
    number: usize,
    columns: &[ScopeColumn],
) -> R<()>
    ensures pushed { OnOk result (found.new.items ≡ found.old.items ++ cells_from number 0 columns.now) }
    ensures refused { IfErr result (λ fault. fault ≡ Fault.Memory) }
{
    'columns: for place in 0..columns.len() {
        let column = column_copy(alloc, &columns[place], false)?;
        found.push((cell_of(number, place, &columns[place]), column))?;
    }
    Ok(())
}

/// Adds each column of each source.
fn push_all(alloc: Global, found: &mut Vec<(Term, ScopeColumn)>, scope: &[ScopeSource]) -> R<()>
    ensures pushed { OnOk result (found.new.items ≡ found.old.items ++ stars_from 0 (λ n. true) scope.now) }
    ensures refused { IfErr result (λ fault. fault ≡ Fault.Memory) }
{
    'sources: for number in 0..scope.len() {
        if !scope[number].needs_name {
            push_cells(alloc, found, number, scope[number].columns.as_slice())?;
        }
    }
    Ok(())
}

/// Whether a source is the query's own, of this name.
fn is_named(name: &Name, source: &ScopeSource) -> bool
    ensures own { result ≡ is_own (Some name.now) source.now }
    ensures star { result ≡ (is_same_name (spelled.folded name.now) source.now.name && not
        source.now.needs_name) }
{
    !source.needs_name && name.is_same(source.name.as_str())
}

/// Adds each column of the sources of a name.
fn push_named(
    alloc: Global,
    found: &mut Vec<(Term, ScopeColumn)>,
    scope: &[ScopeSource],
    name: &Name,
) -> R<()>
    ensures pushed { OnOk result (found.new.items
        ≡ found.old.items ++ stars_from 0 (is_same_name (spelled.folded name.now)) scope.now) }
    ensures refused { IfErr result (λ fault. fault ≡ Fault.Memory) }
{
    'sources: for number in 0..scope.len() {
        if is_named(name, &scope[number]) {
            push_cells(alloc, found, number, scope[number].columns.as_slice())?;
        }
    }
    Ok(())
}

/// Whether the query has a source of its own.
fn has_own(scope: &[ScopeSource]) -> bool
    ensures { result ≡ list_any (is_own None) scope.now }
{
    scope.iter().any(|one| !one.needs_name)
}

/// Whether it has one of this name.
fn has_named(scope: &[ScopeSource], name: &Name) -> bool
    ensures { result ≡ list_any (is_own (Some name.now)) scope.now }
{
    scope.iter().any(|one| is_named(name, one))
}

/// The name of a plain column.
fn plain_name(alloc: Global, tree: &Expr) -> R<Option<Name>>
    ensures { IsOrMemory (λ name. name ≡ meant.plain_name tree.now) result }
{
    match &tree.node {
        Tree::Column(_, name) => Ok(Some(folded(alloc, name)?)),
        _ => Ok(None),
    }
}

/// The name that a result has as a view's column: that after AS, or a plain column's.
fn name_of(alloc: Global, tree: &Expr, as_name: &Option<Name>) -> R<Option<Name>>
    ensures { IsOrMemory (λ name. name ≡ name_given tree.now as_name.now) result }
{
    match as_name {
        Some(name) => Ok(Some(folded(alloc, name)?)),
        None => plain_name(alloc, tree),
    }
}

/// Adds the result of an expression.
fn push_term(
    alloc: Global,
    found: &mut Vec<(Term, ScopeColumn)>,
    tree: &Expr,
    as_name: &Option<Name>,
    term: Term,
) -> R<()>
    ensures pushed { OnOk result (found.new.items
        ≡ found.old.items ++ result_column tree.now as_name.now term ∷ []) }
    ensures refused { IfErr result (λ fault. fault ≡ Fault.Memory) }
{
    let column = ScopeColumn {
        name: name_of(alloc, tree, as_name)?,
        affinity: affinity(&term),
        collation: collation(&term),
        is_rowid: false,
    };
    found.push((term, column))?;
    Ok(())
}

/// Adds the results of `*`.
fn push_star(alloc: Global, found: &mut Vec<(Term, ScopeColumn)>, scope: &[ScopeSource]) -> R<()>
    ensures { NamesBy (λ done. found.new.items)
        (onto_list found.old.items (resolve_item scope.now ResultItem.All)) result }
{
    if !has_own(scope) {
        return Err(Fault::Misuse(Misuse::Star));
    }
    push_all(alloc, found, scope)
}

/// Adds the results of `t.*`.
fn push_star_of(
    alloc: Global,
    found: &mut Vec<(Term, ScopeColumn)>,
    scope: &[ScopeSource],
    name: &Name,
) -> R<()>
    ensures { NamesBy (λ done. found.new.items)
        (onto_list found.old.items (resolve_item scope.now (ResultItem.AllOf name.now))) result }
{
    if !has_own(scope) {
        return Err(Fault::Misuse(Misuse::Star));
    }
    if !has_named(scope, name) {
        return Err(missing(alloc, Object::Table, name));
    }
    push_named(alloc, found, scope, name)
}

/// Adds what one of the results stands for.
fn push_item(
    alloc: Global,
    found: &mut Vec<(Term, ScopeColumn)>,
    scope: &[ScopeSource],
    item: &ResultItem,
) -> R<()>
    ensures { NamesBy (λ done. found.new.items) (onto_list found.old.items
        (resolve_item scope.now item.now)) result }
{
    match item {
        ResultItem::All => push_star(alloc, found, scope),
        ResultItem::AllOf(name) => push_star_of(alloc, found, scope, name),
        ResultItem::Of(tree, as_name) => {
            let term = bind_term(alloc, true, scope, tree)?;
            push_term(alloc, found, tree, as_name, term)
        }
    }
}

/// The results of a query, each with the column that it is for a view.
pub fn bind_results(
    alloc: Global,
    scope: &[ScopeSource],
    items: &[ResultItem],
) -> R<Vec<(Term, ScopeColumn)>>
    ensures { NamesBy (λ found. found.items) (resolve_items scope.now items.now) result }
{
    let mut found = Vec::new(alloc);
    'items: for item in items {
        push_item(alloc, &mut found, scope, item)?;
    }
    Ok(found)
}

/// The columns of the results.
pub fn columns_of(alloc: Global, results: &[(Term, ScopeColumn)]) -> R<Vec<ScopeColumn>>
    ensures { IsOrMemory (λ found. found.items ≡ map (λ r. r.1) results.now) result }
{
    let mut found = Vec::new(alloc);
    'results: for result in results {
        found.push(column_copy(alloc, &result.1, result.1.is_rowid)?)?;
    }
    Ok(found)
}
