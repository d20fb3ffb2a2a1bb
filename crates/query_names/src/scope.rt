//! What an expression sees: sources, and their columns.

ghost use Rattle.std.specs.Prelude.{◌≡◌};
ghost use Rattle.sqlval.specs.Faults.{IsOrMemory};
ghost use Rattle.sqlval.specs.Names as spelled;
ghost use Rattle.query_names.specs.Bound.{column_seen};

use catalog::Column;
use sqlval::{Affinity, Collation, Many, Name, R};
use std::alloc::Global;

/// A column that a name may mean.
#[derive(Drop)]
pub struct ScopeColumn {
    /// Folded; a view's column may have none.
    pub name: Option<Name>,
    pub affinity: Option<Affinity>,
    pub collation: Collation,
    /// It is another name of the rowid.
    pub is_rowid: bool,
}

/// A source that an expression sees.
#[derive(Drop)]
pub struct ScopeSource {
    /// Folded.
    pub name: Name,
    pub columns: Many<ScopeColumn>,
    pub has_rowid: bool,
    /// NEW and OLD are found by their names alone.
    pub needs_name: bool,
    /// False where its table or view is refused: what hangs on it has no refusal of its own.
    pub is_known: bool,
}

/// The name in small letters. (`Memory` alone.)
pub fn folded(alloc: Global, name: &Name) -> R<Name>
    ensures { IsOrMemory (λ copy. copy ≡ spelled.folded name.now) result }
{
    Ok(name.folded(alloc)?)
}

/// A table's column, as expressions see it, which may be another name of the rowid. (`Memory` alone.)
pub fn scope_column(alloc: Global, column: &Column, is_rowid: bool) -> R<ScopeColumn>
    ensures { IsOrMemory (λ seen. seen ≡ record (column_seen column.now) { is_rowid = is_rowid }) result }
{
    Ok(ScopeColumn {
        name: Some(folded(alloc, &column.name)?),
        affinity: Some(column.affinity),
        collation: column.collation,
        is_rowid,
    })
}
