//! Changes of views that no trigger waits for: they are refused, once their names are looked up.

ghost use Rattle.std.specs.Prelude.{◌≡◌, ◌∷◌, [], Some, None, is_some, true, map, IfErr, MatchResult, List, ℕ, ℤ};
ghost use Rattle.sqlval.specs.Faults.{IsNotDiskFault, IsOrMemory};
ghost use Rattle.sqlval.specs.declared.value.Value.{Value as Stored};
ghost use Rattle.sql_syntax.specs.declared.change.Change.TheVariants as change;
ghost use Rattle.sql_syntax.specs.declared.change.InsertSource.TheVariants as given;
ghost use Rattle.sql_syntax.specs.declared.statement.Statement.TheVariants as statement;
ghost use Rattle.catalog.specs.Database.{Database};
ghost use Rattle.catalog.specs.Listed.{Lists, listed_in, table_named, view_named};
ghost use Rattle.catalog.specs.Named.{IsOfListed};
ghost use Rattle.query_names.specs.Named.{NamesBy};
ghost use Rattle.query_bind.specs.Assigned.{columns_set};
ghost use Rattle.trigger.specs.Laws.{SetsOffNothing};
ghost use Rattle.executor.specs.Changing.{IsChangeRefusal};
ghost use Rattle.executor.specs.Refusing.{KnowsChange, KnowsGiven, KnowsPlaces, is_view_named};

use crate::giving::{bind_rows, has_other_count};
use catalog::{Catalog, listed_tables_are_found};
use query_bind::{bind_filter, bind_places, bind_reading, bind_source, bind_values};
use query_names::ScopeSource;
use sql_syntax::{Assignment, Delete, Expr, Insert, InsertSource, Query, Update};
use sqlval::{Fault, Many, Misuse, Name, R};
use std::alloc::Global;
use std::array::from_ref;
use trigger::{only_tables_set_nothing_off, views_are_read_only};

/// Whether a name is that of a view.
pub(crate) fn is_view(catalog: &Catalog, name: &Name) -> bool
    ensures { result ≡ is_view_named (listed_in catalog.now) name.now }
{
    catalog.table(name.as_str()).is_none() && catalog.view(name.as_str()).is_some()
}

/// How many values each row of an INSERT must have, whose list of columns is looked up in its view. (What `bind_places` refuses.)
fn values_wanted(alloc: Global, source: &ScopeSource, columns: &Option<Many<Name>>) -> R<usize>
    ensures known { source.now.is_known ≡ true → KnowsPlaces source.now columns.now result }
    ensures not_disk { IfErr result IsNotDiskFault }
{
    match columns {
        Some(names) => {
            bind_places(alloc, source, names.as_slice())?;
            Ok(names.len())
        }
        None => Ok(source.columns.len()),
    }
}

/// Looks up the names of rows of VALUES, each of `count` values. (`Misuse`, and what `bind_rows` refuses.)
fn know_rows(alloc: Global, rows: &[Many<Expr>], count: usize) -> R<()>
    ensures known { (db : Database) → KnowsGiven db count (given.Rows rows.now) result }
    ensures not_disk { IfErr result IsNotDiskFault }
{
    if has_other_count(rows, count) {
        return Err(Fault::Misuse(Misuse::Count));
    }
    bind_rows(alloc, rows)?;
    Ok(())
}

/// Looks up the names of a query, which must have `count` results. (`Misuse`, and what `bind_reading` refuses.)
fn know_query(alloc: Global, catalog: &Catalog, query: &Query, count: usize) -> R<()>
    ensures known { (rows_at : ℕ → List (ℤ × List Stored)) (db : Database) → Lists rows_at (listed_in catalog.now) db
        → KnowsGiven db count (given.Query query.now) result }
    ensures not_disk { IfErr result IsNotDiskFault }
{
    let bound = bind_reading(alloc, catalog, query)?;
    if bound.reading.results.len() != count {
        return Err(Fault::Misuse(Misuse::Count));
    }
    Ok(())
}

/// Looks up the names of the rows that an INSERT gives, each of `count` values. (What `know_rows` and `know_query` refuse.)
fn know_given(alloc: Global, catalog: &Catalog, source: &InsertSource, count: usize) -> R<()>
    ensures known { (rows_at : ℕ → List (ℤ × List Stored)) (db : Database) → Lists rows_at (listed_in catalog.now) db
        → KnowsGiven db count source.now result }
    ensures not_disk { IfErr result IsNotDiskFault }
{
    match source {
        InsertSource::Rows(rows) => know_rows(alloc, rows.as_slice(), count),
        InsertSource::Query(query) => know_query(alloc, catalog, query, count),
    }
}

/// Looks up the names of an INSERT into a view. (What `bind_source`, `values_wanted` and `know_given` refuse.)
fn know_insert(alloc: Global, catalog: &Catalog, insert: &Insert) -> R<()>
    ensures known { KnowsChange (listed_in catalog.now) (change.Insert insert.now) result }
    ensures not_disk { IfErr result IsNotDiskFault }
{
    let source = bind_source(alloc, catalog, &insert.table)?;
    let count = values_wanted(alloc, &source, &insert.columns)?;
    know_given(alloc, catalog, &insert.source, count)
}

/// The names of the columns that SET names. (`Memory` alone.)
fn names_set(alloc: Global, assignments: &[Assignment]) -> R<Vec<Name>>
    ensures { IsOrMemory (λ names. names.items ≡ columns_set assignments.now) result }
{
    let mut names = Vec::new(alloc);
    'assignments: for assignment in assignments {
        names.push(assignment.column.copy(alloc)?)?;
    }
    Ok(names)
}

/// Looks up the names of an UPDATE of a view. (What `bind_source`, `bind_places`, `bind_values` and `bind_filter` refuse.)
fn know_update(alloc: Global, catalog: &Catalog, update: &Update) -> R<()>
    ensures known { KnowsChange (listed_in catalog.now) (change.Update update.now) result }
    ensures not_disk { IfErr result IsNotDiskFault }
{
    let source = bind_source(alloc, catalog, &update.table)?;
    let assignments = update.assignments.as_slice();
    let names = names_set(alloc, assignments)?;
    bind_places(alloc, &source, &names)?;
    let scope = from_ref(&source).as_slice();
    bind_values(alloc, scope, assignments)?;
    bind_filter(alloc, scope, &update.condition)?;
    Ok(())
}

/// Looks up the names of a DELETE of a view. (What `bind_source` and `bind_filter` refuse.)
fn know_delete(alloc: Global, catalog: &Catalog, delete: &Delete) -> R<()>
    ensures known { KnowsChange (listed_in catalog.now) (change.Delete delete.now) result }
    ensures not_disk { IfErr result IsNotDiskFault }
{
    let source = bind_source(alloc, catalog, &delete.table)?;
    bind_filter(alloc, from_ref(&source).as_slice(), &delete.condition)?;
    Ok(())
}

/// Why an INSERT into a view is refused: as its names are, or else since a view can't be changed.
pub(crate) fn refuse_insert(alloc: Global, catalog: &Catalog, insert: &Insert) -> Fault
    ensures refused { (rows_at : ℕ → List (ℤ × List Stored)) (db : Database) → IsOfListed rows_at (listed_in catalog.now) db
        → SetsOffNothing db (change.Insert insert.now)
        → is_view_named (listed_in catalog.now) insert.now.table ≡ true
        → IsChangeRefusal (statement.Change (change.Insert insert.now)) db result }
    ensures not_disk { IsNotDiskFault result }
{
    listed_tables_are_found();
    only_tables_set_nothing_off();
    views_are_read_only();
    match know_insert(alloc, catalog, insert) {
        Ok(()) => Fault::ViewReadOnly,
        Err(fault) => fault,
    }
}

/// Why an UPDATE of a view is refused: as its names are, or else since a view can't be changed.
pub(crate) fn refuse_update(alloc: Global, catalog: &Catalog, update: &Update) -> Fault
    ensures refused { (rows_at : ℕ → List (ℤ × List Stored)) (db : Database) → IsOfListed rows_at (listed_in catalog.now) db
        → SetsOffNothing db (change.Update update.now)
        → is_view_named (listed_in catalog.now) update.now.table ≡ true
        → IsChangeRefusal (statement.Change (change.Update update.now)) db result }
    ensures not_disk { IsNotDiskFault result }
{
    listed_tables_are_found();
    only_tables_set_nothing_off();
    views_are_read_only();
    match know_update(alloc, catalog, update) {
        Ok(()) => Fault::ViewReadOnly,
        Err(fault) => fault,
    }
}

/// Why a DELETE of a view is refused: as its names are, or else since a view can't be changed.
pub(crate) fn refuse_delete(alloc: Global, catalog: &Catalog, delete: &Delete) -> Fault
    ensures refused { (rows_at : ℕ → List (ℤ × List Stored)) (db : Database) → IsOfListed rows_at (listed_in catalog.now) db
        → SetsOffNothing db (change.Delete delete.now)
        → is_view_named (listed_in catalog.now) delete.now.table ≡ true
        → IsChangeRefusal (statement.Change (change.Delete delete.now)) db result }
    ensures not_disk { IsNotDiskFault result }
{
    listed_tables_are_found();
    only_tables_set_nothing_off();
    views_are_read_only();
    match know_delete(alloc, catalog, delete) {
        Ok(()) => Fault::ViewReadOnly,
        Err(fault) => fault,
    }
}
