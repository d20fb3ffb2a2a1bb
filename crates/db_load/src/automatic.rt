//! Automatic indexes, whose rows have no text.

ghost use Rattle.std.specs.Prelude.{◌≡◌, List, None, Ok, IfOk, IfErr, IsOkAnd, OnOk, Some, false, filter, length, true};
ghost use Rattle.std.specs.List.{list_all};
ghost use Rattle.sqlval.specs.Faults.{IsOrMemory};
ghost use Rattle.sqlval.specs.Names as spelled;
ghost use Rattle.sqlval.specs.Names.{is_same_name};
ghost use Rattle.catalog.specs.Listed.{is_name_of, listed_in, shared, table_named, tables_of};
ghost use Rattle.catalog.specs.declared.tables.Index.{Index as Listed};
ghost use Rattle.catalog.specs.declared.tables.IndexColumn.{IndexColumn as Keyed};
ghost use Rattle.catalog.specs.declared.tables.Table.{Table as Owned};
ghost use Rattle.query_names.specs.Schema as schema;
ghost use Rattle.db_pages.specs.Schema.{due_objects};
ghost use Rattle.db_load.specs.Loading.{IsSchemaFault, TellsKeyIndex, text_of};
ghost use Rattle.db_load.specs.Reading as reading;
ghost use Rattle.db_load.specs.Reading.{AreDueOnce, CanGrow, GrowsBy, IsDue, IsGrown, StandsIn, due_object};

use crate::schema::{SchemaRow, damaged};
use catalog::{Catalog, Index, IndexColumn, Table, key_copy, with_index};
use query_names::{automatic_name, folded};
use sqlval::{Many, Name, R};
use std::alloc::Global;
use std::rc::Rc;

/// Whether the index that a table's key of this number makes has this name. (`Memory` alone.)
fn is_key_name(alloc: Global, table: &Name, number: usize, name: &str) -> R<bool>
    ensures { IsOrMemory (λ is. is ≡ is_same_name (schema.automatic_name table.now number) name.now) result }
{
    Ok(automatic_name(alloc, table, number)?.is_same(name))
}

/// The columns of the table's key whose index has this name. (`Damaged(Schema, 1)` if none has.)
fn key_named<'a>(alloc: Global, table: &'a Table, name: &str) -> R<&'a Many<IndexColumn>>
    ensures tells { (columns : List Keyed) → AreDueOnce table.now
        → StandsIn (spelled.folded name.now, due_object table.now columns) (due_objects table.now)
        → IsOrMemory (λ key. key.now ≡ columns) result }
    ensures found { IfOk result (λ key. StandsIn (spelled.folded name.now, due_object table.now key.now)
        (due_objects table.now)) }
    ensures not_disk { IfErr result (λ fault. IsSchemaFault fault) }
{
    let keys = table.keys.as_slice();
    'keys: for place in 0..keys.len() {
        if is_key_name(alloc, &table.name, place + 1, name)? {
            return Ok(&keys[place]);
        }
    }
    Err(damaged())
}

/// The automatic index of the table that a row tells. (What `key_named` refuses.)
fn automatic_index(alloc: Global, table: &Table, row: &SchemaRow<'_>) -> R<Index>
    ensures tells { (index : Listed) → TellsKeyIndex table.now index row.now → IsDue table.now index
        → AreDueOnce table.now → IsOrMemory (λ found. found ≡ index) result }
    ensures found { text_of row.now ≡ None
        → is_same_name table.now.name row.now.table_name.now ≡ true
        → IfOk result (λ index. TellsKeyIndex table.now index row.now × IsDue table.now index) }
    ensures not_disk { IfErr result (λ fault. IsSchemaFault fault) }
{
    let key = key_named(alloc, table, row.name)?;
    let name = folded(alloc, &Name::from_str(alloc, row.name)?)?;
    let columns = key_copy(alloc, key.as_slice())?;
    Ok(Index {
        name,
        columns,
        is_unique: true,
        is_automatic: true,
        root: row.root,
        rowid: row.rowid,
    })
}

/// The listed table on which a row tells an index of a new name. (`Damaged(Schema, 1)`.)
fn owner_of<'a>(catalog: &'a Catalog, row: &SchemaRow<'_>) -> R<&'a Table>
    ensures tells { (owner : Owned) → table_named row.now.table_name.now (tables_of catalog.now) ≡ Some owner
        → is_name_of (listed_in catalog.now) row.now.name.now ≡ false
        → IsOkAnd result (λ found. found.now ≡ owner) }
    ensures found { IfOk result (λ owner. (table_named row.now.table_name.now (tables_of catalog.now)
        ≡ Some owner.now) × (is_name_of (listed_in catalog.now) row.now.name.now ≡ false)) }
    ensures not_disk { IfErr result (λ fault. IsSchemaFault fault) }
{
    if catalog.has_name(row.name) {
        return Err(damaged());
    }
    match catalog.table(row.table_name) {
        Some(table) => Ok(table),
        None => Err(damaged()),
    }
}

/// A copy of the table on which a row without a text tells an automatic index, with that index after its others.
pub(crate) fn grown_by_key(alloc: Global, catalog: &Catalog, row: &SchemaRow<'_>) -> R<Table>
    ensures tells { (table : Owned) (index : Listed) → TellsKeyIndex table index row.now
        → CanGrow (listed_in catalog.now) table index
        → IsOrMemory (IsGrown (tables_of catalog.now) table index) result }
    ensures found { text_of row.now ≡ None → IfOk result (GrowsBy (listed_in catalog.now) row.now) }
    ensures not_disk { IfErr result (λ fault. IsSchemaFault fault) }
{
    let owner = owner_of(catalog, row)?;
    let index = automatic_index(alloc, owner, row)?;
    with_index(alloc, owner, index)
}

/// How many of the indexes are automatic.
fn automatic_count(indexes: &[Index]) -> usize
    ensures { result ≡ length (filter (λ index. index.is_automatic) indexes.now) }
{
    indexes.iter().filter(|index| index.is_automatic).count()
}

/// Whether the table has as many automatic indexes as keys.
fn has_all_keys(table: &Table) -> bool
    ensures { result ≡ reading.has_all_keys table.now }
{
    automatic_count(table.indexes.as_slice()) == table.keys.len()
}

/// Whether each of the tables has as many automatic indexes as keys.
fn have_all_keys(tables: &[Rc<Table>]) -> bool
    ensures { result ≡ list_all (λ handle. reading.has_all_keys handle.value) tables.now }
{
    tables.iter().all(|table| has_all_keys(table))
}

/// Checks that each key of the tables has its index. (`Damaged(Schema, 1)`.)
pub(crate) fn check_keys(tables: &[Rc<Table>]) -> R<()>
    ensures found { OnOk result (list_all reading.has_all_keys (shared tables.now) ≡ true) }
    ensures only { list_all reading.has_all_keys (shared tables.now) ≡ true → result ≡ Ok tt }
    ensures not_disk { IfErr result (λ fault. IsSchemaFault fault) }
{
    if have_all_keys(tables) {
        Ok(())
    } else {
        Err(damaged())
    }
}
