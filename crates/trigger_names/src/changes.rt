//! Changes of rows, by their names.

ghost use Rattle.std.specs.Prelude.{◌≡◌, ℕ, ℤ, IfErr, IfOk, List};
ghost use Rattle.sqlval.specs.Faults.{IsNotDiskFault, IsOrMemory};
ghost use Rattle.sqlval.specs.declared.value.Value.{Value};
ghost use Rattle.sql_syntax.specs.declared.change.Change.TheVariants as text;
ghost use Rattle.catalog.specs.Database.{Database};
ghost use Rattle.catalog.specs.Listed.{listed_in};
ghost use Rattle.catalog.specs.Named.{IsOfListed};
ghost use Rattle.query_names.specs.Named.{NamesBy};
ghost use Rattle.query_terms.specs.Values.{Row};
ghost use Rattle.query_bind.specs.Named.{AreOuter};
ghost use Rattle.row_change.specs.Changes.{resolve_change};
ghost use Rattle.trigger_names.specs.Resolved.{GivesAsMany, IsLookedUp, resolved_of, row_seen};

use crate::giving::{BoundRows, bind_given};
use crate::places::{value_places, values_wanted};
use crate::setting::{bind_sets_at, places_set};
use catalog::Catalog;
use query_bind::{bind_filter, bind_source};
use query_names::{ScopeSource, shown_beside};
use query_terms::Term;
use sql_syntax::{Change, Delete, Insert, Update};
use sqlval::R;
use std::alloc::Global;
use std::array::from_ref;

/// A change whose names are looked up. (Its table or view is that of the text.)
#[derive(Drop)]
pub enum BoundChange {
    /// The place of each value's column, and the rows.
    Insert(Vec<usize>, BoundRows),
    /// The places of the columns that SET names, each with its expression, and WHERE.
    Update(Vec<(usize, Term)>, Option<Term>),
    /// WHERE.
    Delete(Option<Term>),
}

/// Looks up the names of an INSERT. (What `bind_source`, `value_places` and `bind_given` refuse.)
fn bind_insert(
    alloc: Global,
    catalog: &Catalog,
    outer: &[ScopeSource],
    insert: &Insert,
) -> R<BoundChange>
    ensures named { IsLookedUp (listed_in catalog.now) outer.now (text.Insert insert.now) result }
    ensures counted { IfOk result GivesAsMany }
    ensures not_disk { IfErr result IsNotDiskFault }
{
    let source = bind_source(alloc, catalog, &insert.table)?;
    let places = value_places(alloc, &source, &insert.columns)?;
    let count = values_wanted(&source, &insert.columns);
    let rows = bind_given(alloc, catalog, outer, &insert.source, count)?;
    Ok(BoundChange::Insert(places, rows))
}

/// What UPDATE and DELETE see of a row, beside NEW and OLD. (`Memory` alone.)
fn row_sources(alloc: Global, outer: &[ScopeSource], source: ScopeSource) -> R<Vec<ScopeSource>>
    ensures { IsOrMemory (λ scope. scope.items ≡ row_seen outer.now source) result }
{
    let mut scope = shown_beside(alloc, outer, from_ref(&source.name).as_slice())?;
    scope.push(source)?;
    Ok(scope)
}

/// Looks up the names of an UPDATE. (What `bind_source`, `places_set`, `bind_sets_at` and `bind_filter` refuse.)
fn bind_update(
    alloc: Global,
    catalog: &Catalog,
    outer: &[ScopeSource],
    update: &Update,
) -> R<BoundChange>
    ensures named { IsLookedUp (listed_in catalog.now) outer.now (text.Update update.now) result }
    ensures counted { IfOk result GivesAsMany }
    ensures not_disk { IfErr result IsNotDiskFault }
{
    let source = bind_source(alloc, catalog, &update.table)?;
    let assignments = update.assignments.as_slice();
    let places = places_set(alloc, &source, assignments)?;
    let scope = row_sources(alloc, outer, source)?;
    let sets = bind_sets_at(alloc, &scope, &places, assignments)?;
    let condition = bind_filter(alloc, &scope, &update.condition)?;
    Ok(BoundChange::Update(sets, condition))
}

/// Looks up the names of a DELETE. (What `bind_source` and `bind_filter` refuse.)
fn bind_delete(
    alloc: Global,
    catalog: &Catalog,
    outer: &[ScopeSource],
    delete: &Delete,
) -> R<BoundChange>
    ensures named { IsLookedUp (listed_in catalog.now) outer.now (text.Delete delete.now) result }
    ensures counted { IfOk result GivesAsMany }
    ensures not_disk { IfErr result IsNotDiskFault }
{
    let source = bind_source(alloc, catalog, &delete.table)?;
    let scope = row_sources(alloc, outer, source)?;
    let condition = bind_filter(alloc, &scope, &delete.condition)?;
    Ok(BoundChange::Delete(condition))
}

/// Looks up the names of a change, beside the sources of the trigger's program that it stands in, or none; or answers one of the refusals
/// that its text has. (`NoSuch`, `Ambiguous`, `Misuse`, `TooLong`.)
pub fn bind_change(
    alloc: Global,
    catalog: &Catalog,
    outer: &[ScopeSource],
    change: &Change,
) -> R<BoundChange>
    ensures named { (rows_at : ℕ → List (ℤ × List Value)) (db : Database) (rows : List Row) → AreOuter outer.now
        → IsOfListed rows_at (listed_in catalog.now) db
        → NamesBy (resolved_of change.now)
        (resolve_change db (record { scope = outer.now; rows = rows }) change.now) result }
    ensures counted { IfOk result GivesAsMany }
    ensures not_disk { IfErr result IsNotDiskFault }
{
    match change {
        Change::Insert(insert) => bind_insert(alloc, catalog, outer, insert),
        Change::Update(update) => bind_update(alloc, catalog, outer, update),
        Change::Delete(delete) => bind_delete(alloc, catalog, outer, delete),
    }
}
