//! Columns and sources, copied.

ghost use Rattle.std.specs.Prelude.{◌≡◌};
ghost use Rattle.sqlval.specs.Faults.{IsOrMemory};

use crate::scope::{ScopeColumn, ScopeSource};
use sqlval::{Many, Name, R};
use std::alloc::Global;

/// A copy of a name, where there is one.
fn name_copy(alloc: Global, name: &Option<Name>) -> R<Option<Name>>
    ensures { IsOrMemory (λ copy. copy ≡ name.now) result }
{
    match name {
        Some(name) => Ok(Some(name.copy(alloc)?)),
        None => Ok(None),
    }
}

/// A copy of a column, which may be another name of the rowid.
pub fn column_copy(alloc: Global, column: &ScopeColumn, is_rowid: bool) -> R<ScopeColumn>
    ensures { IsOrMemory (λ copy. copy ≡ record column.now { is_rowid = is_rowid }) result }
{
    let name = name_copy(alloc, &column.name)?;
    Ok(ScopeColumn {
        name,
        affinity: column.affinity,
        collation: column.collation,
        is_rowid,
    })
}

/// Copies of columns. (`Memory` alone.)
fn columns_copy(alloc: Global, columns: &[ScopeColumn]) -> R<Many<ScopeColumn>>
    ensures { IsOrMemory (λ copies. copies ≡ columns.now) result }
{
    let mut copies = Vec::new(alloc);
    'columns: for column in columns {
        copies.push(column_copy(alloc, column, column.is_rowid)?)?;
    }
    Ok(Many::from_vec(copies))
}

/// A copy of a source. (`Memory` alone.)
pub fn source_copy(alloc: Global, source: &ScopeSource) -> R<ScopeSource>
    ensures { IsOrMemory (λ copy. copy ≡ source.now) result }
{
    let name = source.name.copy(alloc)?;
    let columns = columns_copy(alloc, source.columns.as_slice())?;
    Ok(ScopeSource {
        name,
        columns,
        has_rowid: source.has_rowid,
        needs_name: source.needs_name,
        is_known: source.is_known,
    })
}
