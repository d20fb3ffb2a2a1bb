//! The columns of a query.

ghost use Rattle.std.specs.Prelude.{◌≡◌, ℕ, ℤ, List, map, IfErr};
ghost use Rattle.sqlval.specs.Faults.{IsNotDiskFault, IsOrMemory};
ghost use Rattle.sqlval.specs.declared.value.Value.{Value};
ghost use Rattle.catalog.specs.Database.{Database};
ghost use Rattle.catalog.specs.Listed.{Lists, listed_in};
ghost use Rattle.query_names.specs.Named.{NamesBy};
ghost use Rattle.executor_schema.specs.Told.{columns_named};

use catalog::Catalog;
use query_bind::bind_reading;
use query_names::ScopeColumn;
use sql_syntax::Query;
use sqlval::{Name, R};
use std::alloc::Global;

/// A copy of a column's name. (`Memory` alone.)
fn name_copy(alloc: Global, column: &ScopeColumn) -> R<Option<Name>>
    ensures { IsOrMemory (λ copy. copy ≡ column.now.name) result }
{
    match &column.name {
        Some(name) => Ok(Some(name.copy(alloc)?)),
        None => Ok(None),
    }
}

/// Copies of the names of columns. (`Memory` alone.)
fn names_of(alloc: Global, columns: &[ScopeColumn]) -> R<Vec<Option<Name>>>
    ensures { IsOrMemory (λ names. names.items ≡ map (λ column. column.name) columns.now) result }
{
    let mut names = Vec::with_capacity(alloc, columns.len())?;
    'columns: for column in columns {
        names.push(name_copy(alloc, column)?)?;
    }
    Ok(names)
}

/// For each result of a query the name that it has as a view's column, in small letters: that after AS, or a plain column's; none of another
/// expression. (What `bind_reading` refuses.)
pub fn column_names(alloc: Global, catalog: &Catalog, query: &Query) -> R<Vec<Option<Name>>>
    ensures named { (rows_at : ℕ → List (ℤ × List Value)) (db : Database) → Lists rows_at (listed_in catalog.now) db
        → NamesBy (λ names. names.items) (columns_named db query.now) result }
    ensures not_disk { IfErr result (λ fault. IsNotDiskFault fault) }
{
    let bound = bind_reading(alloc, catalog, query)?;
    let names = names_of(alloc, bound.reading.columns.as_slice());
    drop(bound);
    names
}
