//! The column that a name means among sources.

ghost use Rattle.std.specs.Prelude.{◌≡◌, ◌⊎◌, ◌++◌, ◌&&◌, not, Some, OnOk, IfOk, IfErr};
ghost use Rattle.std.specs.List.{list_any};
ghost use Rattle.sqlval.specs.Refusals as refusal;
ghost use Rattle.sqlval.specs.Refusals.{refusal_of};
ghost use Rattle.query_terms.specs.Terms as term;
ghost use Rattle.query_names.specs.Named.{Names};
ghost use Rattle.query_names.specs.Scopes as meant;
ghost use Rattle.query_names.specs.Scopes.{named_from, named_in, resolve_column};

use crate::forms::null;
use crate::names::missing;
use crate::scope::{ScopeColumn, ScopeSource};
use query_terms::{Node, Place, Term};
use sqlval::{Affinity, Collation, Fault, Name, Object, R};
use std::alloc::Global;

/// The column that a name means, with the source that is written before it or none. NULL stands for what may be a column of a
/// source that isn't known.
pub fn bind_name(
    alloc: Global,
    scope: &[ScopeSource],
    source: &Option<Name>,
    name: &Name,
) -> R<Term>
    ensures { Names (resolve_column scope.now source.now name.now) result }
{
    let mut found = columns_found(alloc, scope, source, name)?;
    if found.len() > 1 {
        return Err(ambiguous(alloc, name));
    }
    match found.pop() {
        Some(term) => Ok(term),
        None if may_be_unknown(scope, source) => Ok(null()),
        None => Err(missing(alloc, Object::Column, name)),
    }
}

/// The refusal of a name that fits two columns.
pub fn ambiguous(alloc: Global, name: &Name) -> Fault
    ensures { (result ≡ Fault.Memory) ⊎ (refusal_of result ≡ refusal.Ambiguous) }
{
    match name.copy(alloc) {
        Ok(name) => Fault::Ambiguous(name),
        Err(error) => Fault::from(error),
    }
}

/// Whether a source that isn't known may have the column.
fn may_be_unknown(scope: &[ScopeSource], source: &Option<Name>) -> bool
    ensures { result ≡ list_any (λ s. meant.fits source.now s && not s.is_known) scope.now }
{
    scope.iter().any(|one| fits(source, one) && !one.is_known)
}

/// Whether the source may be meant by what is written before a column.
fn fits(written: &Option<Name>, source: &ScopeSource) -> bool
    ensures { result ≡ meant.fits written.now source.now }
{
    match written {
        Some(name) => name.is_same(source.name.as_str()),
        None => !source.needs_name,
    }
}

/// What the name may mean among the sources.
fn columns_found(
    alloc: Global,
    scope: &[ScopeSource],
    source: &Option<Name>,
    name: &Name,
) -> R<Vec<Term>>
    ensures found { IfOk result (λ found. found.items ≡ meant.found 0 source.now name.now scope.now) }
    ensures refused { IfErr result (λ fault. fault ≡ Fault.Memory) }
{
    let mut found = Vec::new(alloc);
    'sources: for number in 0..scope.len() {
        if fits(source, &scope[number]) {
            push_of_source(&mut found, number, &scope[number], name)?;
        }
    }
    Ok(found)
}

/// The columns of the name in a source, or else its rowid.
fn push_of_source(found: &mut Vec<Term>, number: usize, source: &ScopeSource, name: &Name) -> R<()>
    ensures pushed { OnOk result (found.new.items ≡ found.old.items ++ named_in number name.now source.now) }
    ensures refused { IfErr result (λ fault. fault ≡ Fault.Memory) }
{
    let before = found.len();
    push_columns(found, number, source.columns.as_slice(), name)?;
    if found.len() == before && source.has_rowid && name.is_same("rowid") {
        found.push(rowid_of(number))?;
    }
    Ok(())
}

/// The rowid of a source.
fn rowid_of(number: usize) -> Term
    ensures { result ≡ term.Cell number Place.RowId (Some Affinity.Integer) Collation.Binary }
{
    Term {
        node: Node::Cell(
            number,
            Place::RowId,
            Some(Affinity::Integer),
            Collation::Binary,
        ),
    }
}

/// The columns of the name.
fn push_columns(found: &mut Vec<Term>, number: usize, columns: &[ScopeColumn], name: &Name) -> R<()>
    ensures pushed { OnOk result (found.new.items
        ≡ found.old.items ++ named_from number 0 name.now columns.now) }
    ensures refused { IfErr result (λ fault. fault ≡ Fault.Memory) }
{
    'columns: for place in 0..columns.len() {
        if is_named(name, &columns[place].name) {
            found.push(cell_of(number, place, &columns[place]))?;
        }
    }
    Ok(())
}

/// Whether a column has the name.
fn is_named(name: &Name, column: &Option<Name>) -> bool
    ensures { result ≡ meant.is_named name.now column.now }
{
    match column {
        Some(column) => name.is_same(column.as_str()),
        None => false,
    }
}

/// What stands for the column at a place: the rowid where it is another name of it.
fn place_meant(place: usize, column: &ScopeColumn) -> Place
    ensures { result ≡ meant.place_meant place column.now }
{
    if column.is_rowid {
        Place::RowId
    } else {
        Place::At(place)
    }
}

/// A column of a source, at this place.
pub fn cell_of(number: usize, place: usize, column: &ScopeColumn) -> Term
    ensures { result ≡ term.Cell number (meant.place_meant place column.now) column.now.affinity column.now.collation }
{
    Term {
        node: Node::Cell(
            number,
            place_meant(place, column),
            column.affinity,
            column.collation,
        ),
    }
}
