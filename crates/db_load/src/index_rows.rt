//! The indexes that the rows of the schema table tell.

ghost use Rattle.std.specs.Prelude.{◌≡◌, ◌⊎◌, false, Ok, IfOk, IfErr, IsOkAnd, OnOk};
ghost use Rattle.sqlval.specs.Faults.{IsOrMemory};
ghost use Rattle.sql_syntax.specs.declared.create.Create.{Create as Made};
ghost use Rattle.sql_syntax.specs.declared.create.IndexDefinition.{IndexDefinition as Defined};
ghost use Rattle.sql_syntax.specs.declared.create.NewObject.TheVariants as new;
ghost use Rattle.sql_syntax.specs.declared.statement.Statement.TheVariants as parsed;
ghost use Rattle.catalog.specs.Listed.{is_name_of, listed_in, table_named, tables_of};
ghost use Rattle.catalog.specs.NewIndexes as listed;
ghost use Rattle.catalog.specs.declared.tables.Index.{Index as Listed};
ghost use Rattle.catalog.specs.declared.tables.Table.{Table as Owned};
ghost use Rattle.query_names.specs.Bound.{AreOnce};
ghost use Rattle.query_bind.specs.Indexed.{IsIndexOn};
ghost use Rattle.db_pages.specs.Schema as told;
ghost use Rattle.db_load.specs.Loading.{IsOfIndexRow, IsSchemaFault, IsTextOf, TellsIndex, TellsKeyIndex};
ghost use Rattle.db_load.specs.declared.schema.SchemaKind.TheVariants as kind;
ghost use Rattle.db_load.specs.Reading.{AreSound, CanGrow, FindsParts, GrowsBy, IsGrown, ReadsTold};

use crate::automatic::grown_by_key;
use crate::schema::{SchemaRow, created_by, damaged, outside, statement_of};
use catalog::{Catalog, Index, Table, with_index};
use query_bind::{BoundIndex, bind_index};
use sql_parser::release;
use sql_syntax::{IndexDefinition, NewObject, Statement};
use sqlval::{Fault, R};
use std::alloc::Global;

/// The definition of an index, which the object must be.
fn index_in(object: &NewObject) -> R<&IndexDefinition>
    ensures tells { (definition : Defined) → object.now ≡ new.Index definition
        → IsOkAnd result (λ found. found.now ≡ definition) }
    ensures found { IfOk result (λ definition. object.now ≡ new.Index definition.now) }
    ensures not_disk { IfErr result (λ fault. IsSchemaFault fault) }
{
    match object {
        NewObject::Index(definition) => Ok(definition),
        _ => Err(damaged()),
    }
}

/// The definition in a CREATE INDEX.
fn index_definition_in(statement: &Statement) -> R<&IndexDefinition>
    ensures tells { (made : Made) (definition : Defined) → statement.now ≡ parsed.Create made
        → made.object ≡ new.Index definition → IsOkAnd result (λ found. found.now ≡ definition) }
    ensures found { IfOk result (λ definition. (made : Made) × (statement.now ≡ parsed.Create made)
        × (made.object ≡ new.Index definition.now)) }
    ensures not_disk { IfErr result (λ fault. IsSchemaFault fault) }
{
    index_in(created_by(statement)?)
}

/// Checks that the row has the name of the index and its table's.
fn is_of_index_row(definition: &IndexDefinition, row: &SchemaRow<'_>) -> R<()>
    ensures tells { IsOfIndexRow row.now definition.now → result ≡ Ok tt }
    ensures found { OnOk result (IsOfIndexRow row.now definition.now) }
    ensures not_disk { IfErr result (λ fault. IsSchemaFault fault) }
{
    if !definition.name.is_same(row.name) {
        return Err(damaged());
    }
    if !definition.table.is_same(row.table_name) {
        return Err(damaged());
    }
    Ok(())
}

/// The names of a definition, looked up in the catalog.
fn bound_in<'a>(
    alloc: Global,
    catalog: &'a Catalog,
    definition: &IndexDefinition,
) -> R<BoundIndex<'a>>
    ensures tells { (table : Owned) (index : Listed) (can : CanGrow (listed_in catalog.now) table index)
        → told.IsIndexOf definition.now table index → IfErr result (λ fault. fault ≡ Fault.Memory) }
    ensures found { AreOnce (tables_of catalog.now)
        → IfOk result (λ made. IsIndexOn (listed_in catalog.now) definition.now made.table.now made.columns) }
    ensures not_disk { IfErr result (λ fault. IsSchemaFault fault) }
{
    match bind_index(alloc, catalog, definition) {
        Ok(bound) => Ok(bound),
        Err(fault) => Err(outside(fault)),
    }
}

/// A copy of the table on which a row and the statement that its text is tell an index, with that index after its others.
fn grown(alloc: Global, catalog: &Catalog, row: &SchemaRow<'_>, statement: &Statement) -> R<Table>
    ensures tells { (table : Owned) (index : Listed) (tells : TellsIndex table index row.now) (made : Made)
        → statement.now ≡ parsed.Create made → made.object ≡ new.Index tells.definition
        → CanGrow (listed_in catalog.now) table index
        → IsOrMemory (IsGrown (tables_of catalog.now) table index) result }
    ensures found { IsTextOf row.now statement.now → AreOnce (tables_of catalog.now)
        → IfOk result (GrowsBy (listed_in catalog.now) row.now) }
    ensures not_disk { IfErr result (λ fault. IsSchemaFault fault) }
{
    let definition = index_definition_in(statement)?;
    is_of_index_row(definition, row)?;
    let bound = bound_in(alloc, catalog, definition)?;
    let name = definition.name.copy(alloc)?;
    let index = Index {
        name,
        columns: bound.columns,
        is_unique: definition.is_unique,
        is_automatic: false,
        root: row.root,
        rowid: row.rowid,
    };
    with_index(alloc, bound.table, index)
}

/// A copy of the table on which a row with a text tells an index, with that index after its others.
fn grown_by_text(alloc: Global, catalog: &Catalog, row: &SchemaRow<'_>) -> R<Table>
    ensures tells { (table : Owned) (index : Listed) → TellsIndex table index row.now
        → CanGrow (listed_in catalog.now) table index
        → IsOrMemory (IsGrown (tables_of catalog.now) table index) result }
    ensures found { AreOnce (tables_of catalog.now)
        → IfOk result (GrowsBy (listed_in catalog.now) row.now) }
    ensures not_disk { IfErr result (λ fault. IsSchemaFault fault) }
{
    let statement = statement_of(alloc, row)?;
    let table = grown(alloc, catalog, row, &statement);
    release(statement);
    table
}

/// A copy of the table on which a row tells an index, with that index after its others.
fn grown_by(alloc: Global, catalog: &Catalog, row: &SchemaRow<'_>) -> R<Table>
    ensures tells { (table : Owned) (index : Listed)
        → TellsIndex table index row.now ⊎ TellsKeyIndex table index row.now
        → CanGrow (listed_in catalog.now) table index
        → IsOrMemory (IsGrown (tables_of catalog.now) table index) result }
    ensures found { AreOnce (tables_of catalog.now)
        → IfOk result (GrowsBy (listed_in catalog.now) row.now) }
    ensures not_disk { IfErr result (λ fault. IsSchemaFault fault) }
{
    match row.sql {
        Some(_) => grown_by_text(alloc, catalog, row),
        None => grown_by_key(alloc, catalog, row),
    }
}

/// Adds the index that a row tells to its table, after the others.
pub(crate) fn add_index(alloc: Global, catalog: &mut Catalog, row: &SchemaRow<'_>) -> R<()>
    // Where a row tells an index of a new name of a listed table, it is listed, unless memory runs out.
    ensures tells { (table : Owned) (index : Listed)
        → TellsIndex table index row.now ⊎ TellsKeyIndex table index row.now
        → ReadsTold false (told.IndexTold table index) (listed_in catalog.old) (listed_in catalog.new) result }
    // What is listed is the index that the row tells.
    ensures found { row.now.kind ≡ kind.Index → AreSound (listed_in catalog.old)
        → OnOk result (FindsParts false row.now (listed_in catalog.old) (listed_in catalog.new)) }
    ensures not_disk { IfErr result (λ fault. IsSchemaFault fault) }
{
    let table = grown_by(alloc, catalog, row)?;
    *catalog = catalog.replacing(alloc, table)?;
    Ok(())
}
