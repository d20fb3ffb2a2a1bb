//! Tables, copied with other indexes.

ghost use Rattle.std.specs.Prelude.{◌≡◌, filter, not};
ghost use Rattle.sqlval.specs.Faults.{IsOrMemory};
ghost use Rattle.sqlval.specs.Names.{is_same_name};
ghost use Rattle.catalog.specs.NewIndexes as listed;

use crate::{Column, Index, IndexColumn, Table};
use sqlval::{Many, R};
use std::alloc::Global;

/// A copy of a column.
fn column_copy(alloc: Global, column: &Column) -> R<Column>
    ensures { IsOrMemory (λ copy. copy ≡ column.now) result }
{
    Ok(Column {
        name: column.name.copy(alloc)?,
        affinity: column.affinity,
        collation: column.collation,
        is_filled: column.is_filled,
        default: column.default.copy(alloc)?,
    })
}

/// Copies of columns.
fn columns_copy(alloc: Global, columns: &[Column]) -> R<Many<Column>>
    ensures { IsOrMemory (λ copy. copy ≡ columns.now) result }
{
    let mut copy = Vec::new(alloc);
    'columns: for column in columns {
        copy.push(column_copy(alloc, column)?)?;
    }
    Ok(Many::from_vec(copy))
}

/// A copy of the columns of a key. (`Memory` alone.)
pub fn key_copy(alloc: Global, columns: &[IndexColumn]) -> R<Many<IndexColumn>>
    ensures { IsOrMemory (λ copy. copy ≡ columns.now) result }
{
    let mut copy = Vec::new(alloc);
    'columns: for column in columns {
        copy.push(*column)?;
    }
    Ok(Many::from_vec(copy))
}

/// Copies of the columns of a table's keys.
fn keys_copy(alloc: Global, keys: &[Many<IndexColumn>]) -> R<Many<Many<IndexColumn>>>
    ensures { IsOrMemory (λ copy. copy ≡ keys.now) result }
{
    let mut copy = Vec::new(alloc);
    'keys: for columns in keys {
        copy.push(key_copy(alloc, columns.as_slice())?)?;
    }
    Ok(Many::from_vec(copy))
}

/// A copy of an index.
fn index_copy(alloc: Global, index: &Index) -> R<Index>
    ensures { IsOrMemory (λ copy. copy ≡ index.now) result }
{
    Ok(Index {
        name: index.name.copy(alloc)?,
        columns: key_copy(alloc, index.columns.as_slice())?,
        is_unique: index.is_unique,
        is_automatic: index.is_automatic,
        root: index.root,
        rowid: index.rowid,
    })
}

/// Copies of indexes.
fn indexes_copy(alloc: Global, indexes: &[Index]) -> R<Vec<Index>>
    ensures { IsOrMemory (λ copy. copy.items ≡ indexes.now) result }
{
    let mut copy = Vec::new(alloc);
    'indexes: for index in indexes {
        copy.push(index_copy(alloc, index)?)?;
    }
    Ok(copy)
}

/// Copies of the indexes that don't have this name.
fn others_copy(alloc: Global, indexes: &[Index], name: &str) -> R<Vec<Index>>
    ensures { IsOrMemory (λ copy. copy.items ≡ filter
        (λ index. not (is_same_name index.name name.now)) indexes.now) result }
{
    let mut copy = Vec::new(alloc);
    'indexes: for index in indexes {
        if !index.name.is_same(name) {
            copy.push(index_copy(alloc, index)?)?;
        }
    }
    Ok(copy)
}

/// A copy of the table, with these indexes.
fn copy_with(alloc: Global, table: &Table, indexes: Vec<Index>) -> R<Table>
    ensures { IsOrMemory (λ copy. copy ≡ record table.now { indexes = indexes.items }) result }
{
    Ok(Table {
        name: table.name.copy(alloc)?,
        columns: columns_copy(alloc, table.columns.as_slice())?,
        rowid_column: table.rowid_column,
        checks: table.checks.share()?,
        keys: keys_copy(alloc, table.keys.as_slice())?,
        indexes: Many::from_vec(indexes),
        root: table.root,
        rowid: table.rowid,
    })
}

/// A copy of the table with one index more, after its others. (`Memory` alone.)
pub fn with_index(alloc: Global, table: &Table, index: Index) -> R<Table>
    ensures { IsOrMemory (λ copy. copy ≡ listed.with_index index table.now) result }
{
    let mut indexes = indexes_copy(alloc, table.indexes.as_slice())?;
    indexes.push(index)?;
    copy_with(alloc, table, indexes)
}

/// A copy of the table without its indexes of this name. (`Memory` alone.)
pub fn without_index(alloc: Global, table: &Table, name: &str) -> R<Table>
    ensures { IsOrMemory (λ copy. copy ≡ listed.without_index name.now table.now) result }
{
    let indexes = others_copy(alloc, table.indexes.as_slice(), name)?;
    copy_with(alloc, table, indexes)
}
