//! What a change of a table or a view names.

ghost use Rattle.std.specs.Prelude.{◌≡◌, ℕ, ℤ, List, false, IfErr, IfOk, map};
ghost use Rattle.sqlval.specs.Faults.{IsNotDiskFault, IsOrMemory};
ghost use Rattle.sqlval.specs.Names as spelled;
ghost use Rattle.sqlval.specs.declared.value.Value.{Value};
ghost use Rattle.catalog.specs.Database.{Database};
ghost use Rattle.catalog.specs.Listed.{Lists, listed_in};
ghost use Rattle.query_names.specs.Checked.{good, known_all, known_map};
ghost use Rattle.query_names.specs.Expressions.{resolve};
ghost use Rattle.query_names.specs.Named.{Names, NamesBy};
ghost use Rattle.query_names.specs.Scopes as meant;
ghost use Rattle.query_names.specs.Scopes.{is_named, places_from, resolve_places};
ghost use Rattle.query_names.specs.Views.{look_up};

use crate::querying::MAX_VIEWS;
use crate::sources::source_found;
use crate::views::find_source;
use catalog::Catalog;
use query_names::{
    ScopeColumn, ScopeSource, ambiguous, bind_term, has_doubled, listed_tables_are_known, missing,
};
use query_terms::Term;
use sql_syntax::Assignment;
use sqlval::{Fault, Misuse, Name, Object, R};
use std::alloc::Global;

/// The table or the view that a change names, as a source of that name, or one of the refusals that the name has.
/// (`NoSuch`, and what a view's query is refused for.)
pub fn bind_source(alloc: Global, catalog: &Catalog, name: &Name) -> R<ScopeSource>
    ensures named { (rows_at : ℕ → List (ℤ × List Value)) (db : Database) → Lists rows_at (listed_in catalog.now) db
        → NamesBy (λ source. source)
        (known_map (λ found. meant.source_of (spelled.folded name.now) (good found)) (look_up db name.now)) result }
    ensures outside { IfOk result (λ source. source.needs_name ≡ false) }
    ensures not_disk { IfErr result (λ fault. IsNotDiskFault fault) }
{
    listed_tables_are_known();
    let found = find_source(alloc, catalog, MAX_VIEWS, &[], name)?;
    source_found(alloc, name, found)
}

/// Whether a column has this name.
fn has_name(column: &ScopeColumn, name: &Name) -> bool
    ensures { result ≡ is_named name.now column.now.name }
{
    match &column.name {
        Some(own) => name.is_same(own.as_str()),
        None => false,
    }
}

/// The places of the columns of a name. (`Memory` alone.)
fn places_named(alloc: Global, columns: &[ScopeColumn], name: &Name) -> R<Vec<usize>>
    ensures { IsOrMemory (λ places. places.items ≡ places_from 0 name.now columns.now) result }
{
    let mut places = Vec::new(alloc);
    'columns: for place in 0..columns.len() {
        if has_name(&columns[place], name) {
            places.push(place)?;
        }
    }
    Ok(places)
}

/// The place of the column of a name. Of a source that isn't known no name is missing. (`NoSuch`, `Ambiguous`.)
fn bind_place(alloc: Global, source: &ScopeSource, name: &Name) -> R<usize>
    ensures { Names (meant.place_of source.now name.now) result }
{
    let mut places = places_named(alloc, source.columns.as_slice(), name)?;
    if places.len() > 1 {
        return Err(ambiguous(alloc, name));
    }
    match places.pop() {
        Some(place) => Ok(place),
        None if source.is_known => Err(missing(alloc, Object::Column, name)),
        None => Ok(0),
    }
}

/// The place of each column of a list. (`NoSuch`, `Ambiguous`.)
fn bind_each_place(alloc: Global, source: &ScopeSource, names: &[Name]) -> R<Vec<usize>>
    ensures { NamesBy (λ places. places.items) (known_all (map (meant.place_of source.now) names.now)) result }
{
    let mut places = Vec::new(alloc);
    'names: for name in names {
        let place = bind_place(alloc, source, name)?;
        places.push(place)?;
    }
    Ok(places)
}

/// The places of the columns that a list names, none of them twice, or one of the refusals that the list has.
/// (`NoSuch`, `Ambiguous`, and `Misuse` for a column twice.)
pub fn bind_places(alloc: Global, source: &ScopeSource, names: &[Name]) -> R<Vec<usize>>
    ensures named { NamesBy (λ places. places.items) (resolve_places source.now names.now) result }
    ensures not_disk { IfErr result (λ fault. IsNotDiskFault fault) }
{
    if has_doubled(names) {
        return Err(Fault::Misuse(Misuse::DoubledColumn));
    }
    bind_each_place(alloc, source, names)
}

/// The expressions of assignments, or one of the refusals that they have. (`NoSuch`, `Ambiguous`, `Misuse`.)
pub fn bind_values(alloc: Global, scope: &[ScopeSource], assignments: &[Assignment]) -> R<Vec<Term>>
    ensures named { NamesBy (λ terms. terms.items)
        (known_all (map (λ a. resolve false scope.now a.value) assignments.now)) result }
    ensures not_disk { IfErr result (λ fault. IsNotDiskFault fault) }
{
    let mut terms = Vec::new(alloc);
    'assignments: for assignment in assignments {
        let term = bind_term(alloc, false, scope, &assignment.value)?;
        terms.push(term)?;
    }
    Ok(terms)
}
