//! The rows of the schema table, and the tables that they tell.

ghost use Rattle.std.specs.Prelude.{◌≡◌, ◌<◌, ◌≤◌, ◌++◌, ◌∷◌, ℕ, List, [], Option, Some, Ok, IfOk, IfErr, IsOkAnd, OnOk, true, false, pos, map, option_map};
ghost use Rattle.sqlval.specs.Fields.{value_of};
ghost use Rattle.sqlval.specs.declared.value.Value.TheVariants as value;
ghost use Rattle.sql_syntax.specs.declared.create.NewObject.TheVariants as new;
ghost use Rattle.sql_syntax.specs.declared.statement.Statement.{Statement as Parsed};
ghost use Rattle.sql_syntax.specs.declared.statement.Statement.TheVariants as parsed;
ghost use Rattle.sql_syntax.specs.declared.create.Create.{Create as Made};
ghost use Rattle.sqlval.specs.Faults.{IsOrMemory};
ghost use Rattle.catalog.specs.Listed.{is_name_of, listed_in};
ghost use Rattle.query_terms.specs.Terms.{Term};
ghost use Rattle.query_names.specs.Bound.{is_twice_named};
ghost use Rattle.query_names.specs.Checked.{good};
ghost use Rattle.query_names.specs.Creating.{as_keys, checks_known, defined, described, has_doubled, table_keys_known};
ghost use Rattle.db_files.specs.Schema.{sql_value};
ghost use Rattle.db_pages.specs.Schema.{schema_row};
ghost use Rattle.db_pages.specs.Schema as told;
ghost use Rattle.db_load.specs.Loading as loading;
ghost use Rattle.db_load.specs.Loading.{AreRowValues, HasParts, IsOfRow, IsRootFor, IsSchemaFault, IsTextOf, TellsTable, bare, kind_text};
ghost use Rattle.db_load.specs.Reading.{FindsParts, ReadsTold};
ghost use Rattle.db_load.specs.declared.schema.SchemaKind.{SchemaKind as Kind};
ghost use Rattle.db_load.specs.declared.schema.SchemaKind.TheVariants as kinds;

use catalog::{Catalog, Checks, Column, Table, is_reserved};
use query_names::{BoundKeys, bind_checks, bind_columns, bind_keys};
use record::Record;
use sql_parser::{parse, release};
use sql_syntax::{Create, NewObject, Statement, TableDefinition};
use sqlval::{Damage, Fault, Feature, Field, Many, Name, R};
use std::alloc::Global;

/// What a row of the schema table tells.
#[derive(Clone, Copy)]
pub(crate) enum SchemaKind {
    Table,
    Index,
    View,
    Trigger,
}

/// A row of the schema table.
#[derive(Clone, Copy)]
pub(crate) struct SchemaRow<'a> {
    pub rowid: i64,
    pub kind: SchemaKind,
    pub name: &'a str,
    pub table_name: &'a str,
    /// 0 of a view and of a trigger.
    pub root: u32,
    /// None of an automatic index.
    pub sql: Option<&'a str>,
}

/// The refusal of a schema row that breaks the format.
pub(crate) fn damaged() -> Fault
    ensures { IsSchemaFault result }
{
    Fault::Damaged(Damage::Schema, 1)
}

/// The refusal of a schema text: unsupported, or `Memory`.
pub(crate) fn outside(fault: Fault) -> Fault
    ensures memory { fault ≡ Fault.Memory → result ≡ Fault.Memory }
    ensures not_disk { IsSchemaFault result }
{
    match fault {
        Fault::Memory => Fault::Memory,
        _ => Fault::Unsupported(Feature::SchemaObject),
    }
}

/// The kind of a row.
fn kind_of(field: Field<'_>) -> R<SchemaKind>
    ensures tells { (kind : Kind) → value_of field.entry ≡ value.Text (kind_text kind) → result ≡ Ok kind }
    ensures found { IfOk result (λ kind. value_of field.entry ≡ value.Text (kind_text kind)) }
    ensures not_disk { IfErr result (λ fault. IsSchemaFault fault) }
{
    match field {
        Field::Text("table") => Ok(SchemaKind::Table),
        Field::Text("index") => Ok(SchemaKind::Index),
        Field::Text("view") => Ok(SchemaKind::View),
        Field::Text("trigger") => Ok(SchemaKind::Trigger),
        _ => Err(damaged()),
    }
}

/// The text of a row's field.
fn text_of<'a>(field: Field<'a>) -> R<&'a str>
    ensures tells { (text : List ℕ) → value_of field.entry ≡ value.Text text
        → IsOkAnd result (λ found. found.now ≡ text) }
    ensures found { IfOk result (λ text. value_of field.entry ≡ value.Text text.now) }
    ensures not_disk { IfErr result (λ fault. IsSchemaFault fault) }
{
    match field {
        Field::Text(text) => Ok(text),
        _ => Err(damaged()),
    }
}

/// The text of a CREATE in a row's field, or none.
fn sql_of<'a>(field: Field<'a>) -> R<Option<&'a str>>
    ensures tells { (sql : Option (List ℕ)) → value_of field.entry ≡ sql_value sql
        → IsOkAnd result (λ found. option_map (λ text. text.now) found ≡ sql) }
    ensures found { IfOk result (λ sql. value_of field.entry ≡ sql_value (option_map (λ text. text.now) sql)) }
    ensures not_disk { IfErr result (λ fault. IsSchemaFault fault) }
{
    match field {
        Field::Text(text) => Ok(Some(text)),
        Field::Null => Ok(None),
        _ => Err(damaged()),
    }
}

/// The text of a row, which only an automatic index has none of.
fn text_in<'a>(row: &SchemaRow<'a>) -> R<&'a str>
    ensures tells { (text : List ℕ) → loading.text_of row.now ≡ Some text
        → IsOkAnd result (λ found. found.now ≡ text) }
    ensures found { IfOk result (λ text. loading.text_of row.now ≡ Some text.now) }
    ensures not_disk { IfErr result (λ fault. IsSchemaFault fault) }
{
    match row.sql {
        Some(text) => Ok(text),
        None => Err(damaged()),
    }
}

/// Whether the tree of a row begins at this page: from 2 to `size`, and 0 for a view or a trigger, which has none.
fn is_root(kind: SchemaKind, root: u32, size: u32) -> bool
    ensures found { result ≡ true → IsRootFor size kind root }
    ensures only { IsRootFor size kind root → result ≡ true }
{
    match kind {
        SchemaKind::Table | SchemaKind::Index => root > 1 && root <= size,
        SchemaKind::View | SchemaKind::Trigger => root == 0,
    }
}

/// The number of the page where the tree of a row of this kind begins, as `is_root` says.
fn root_of(kind: SchemaKind, field: Field<'_>, size: u32) -> R<u32>
    ensures tells { (root : ℕ) → value_of field.entry ≡ value.Int (pos root) → IsRootFor size kind root
        → result ≡ Ok root }
    ensures found { IfOk result (λ root. (value_of field.entry ≡ value.Int (pos root))
        × IsRootFor size kind root) }
    ensures not_disk { IfErr result (λ fault. IsSchemaFault fault) }
{
    let Field::Int(root) = field else {
        return Err(damaged());
    };
    match u32::try_from(root) {
        Ok(root) if is_root(kind, root, size) => Ok(root),
        _ => Err(damaged()),
    }
}

/// The parts of a row of this rowid, in a database of `size` pages.
pub(crate) fn row_of<'a>(rowid: i64, row: &Record<'a>, size: u32) -> R<SchemaRow<'a>>
    ensures tells { (kind : Kind) (name table_name : List ℕ) (root : ℕ) (sql : Option (List ℕ))
        → row.now ≡ schema_row (kind_text kind) name table_name root sql → IsRootFor size kind root
        → IsOkAnd result (HasParts rowid kind name table_name root sql) }
    ensures found { IfOk result (λ parts. AreRowValues size parts row.now × (parts.rowid ≡ rowid)) }
    ensures not_disk { IfErr result (λ fault. IsSchemaFault fault) }
{
    if row.len() != 5 {
        return Err(Fault::Unsupported(Feature::ColumnCount));
    }
    let kind = kind_of(row.column(0))?;
    Ok(SchemaRow {
        rowid,
        kind,
        name: text_of(row.column(1))?,
        table_name: text_of(row.column(2))?,
        root: root_of(kind, row.column(3), size)?,
        sql: sql_of(row.column(4))?,
    })
}

/// The statement that the text of a row is.
pub(crate) fn statement_of(alloc: Global, row: &SchemaRow<'_>) -> R<Statement>
    ensures tells { (statement : Parsed) → IsTextOf row.now statement
        → IsOrMemory (λ found. found ≡ statement) result }
    ensures found { IfOk result (λ statement. IsTextOf row.now statement) }
    ensures not_disk { IfErr result (λ fault. IsSchemaFault fault) }
{
    match parse(alloc, text_in(row)?) {
        Ok(statement) => Ok(statement),
        Err(fault) => Err(outside(fault)),
    }
}

/// What a CREATE makes.
pub(crate) fn created_by(statement: &Statement) -> R<&NewObject>
    ensures tells { (made : Made) → statement.now ≡ parsed.Create made
        → IsOkAnd result (λ object. object.now ≡ made.object) }
    ensures found { IfOk result (λ object. (made : Made) × (statement.now ≡ parsed.Create made)
        × (made.object ≡ object.now)) }
    ensures not_disk { IfErr result (λ fault. IsSchemaFault fault) }
{
    match statement {
        Statement::Create(create) => Ok(&create.object),
        _ => Err(Fault::Unsupported(Feature::SchemaObject)),
    }
}

/// The definition of a table, which the object must be.
fn table_in(object: &NewObject) -> R<&TableDefinition>
    ensures tells { (definition : TableDefinition) → object.now ≡ new.Table definition
        → IsOkAnd result (λ found. found.now ≡ definition) }
    ensures found { IfOk result (λ definition. object.now ≡ new.Table definition.now) }
    ensures not_disk { IfErr result (λ fault. IsSchemaFault fault) }
{
    match object {
        NewObject::Table(definition) => Ok(definition),
        _ => Err(damaged()),
    }
}

/// The definition in a CREATE TABLE.
fn definition_in(statement: &Statement) -> R<&TableDefinition>
    ensures tells { (made : Made) (definition : TableDefinition)
        → statement.now ≡ parsed.Create made
        → made.object ≡ new.Table definition → IsOkAnd result (λ found. found.now ≡ definition) }
    ensures found { IfOk result (λ definition. (made : Made) × (statement.now ≡ parsed.Create made)
        × (made.object ≡ new.Table definition.now)) }
    ensures not_disk { IfErr result (λ fault. IsSchemaFault fault) }
{
    table_in(created_by(statement)?)
}

/// The columns that a definition gives its table.
fn columns_in(alloc: Global, definition: &TableDefinition) -> R<Many<Column>>
    ensures tells { (columns : List Column) → has_doubled definition.now.columns ≡ false
        → map described columns ≡ map defined definition.now.columns
        → IsOrMemory (λ found. found ≡ columns) result }
    ensures found { IfOk result (λ columns. (has_doubled definition.now.columns ≡ false)
        × (map described columns ≡ map defined definition.now.columns)) }
    ensures not_disk { IfErr result (λ fault. IsSchemaFault fault) }
{
    match bind_columns(alloc, definition) {
        Ok(columns) => Ok(columns),
        Err(fault) => Err(outside(fault)),
    }
}

/// The CHECKs that a definition gives its table, over these columns.
fn checks_in(alloc: Global, definition: &TableDefinition, columns: &[Column]) -> R<Checks>
    ensures tells { (checks : List Term) → checks_known definition.now columns.now ≡ good checks
        → IsOrMemory (λ found. found ≡ checks) result }
    ensures found { IfOk result (λ checks. checks_known definition.now columns.now ≡ good checks) }
    ensures not_disk { IfErr result (λ fault. IsSchemaFault fault) }
{
    match bind_checks(alloc, definition, columns) {
        Ok(checks) => Ok(checks),
        Err(fault) => Err(outside(fault)),
    }
}

/// What a definition's keys ask for, over these columns.
fn keys_in(alloc: Global, definition: &TableDefinition, columns: &[Column]) -> R<BoundKeys>
    ensures tells { (keys : BoundKeys) → is_twice_named columns.now ≡ false
        → table_keys_known definition.now columns.now ≡ good (as_keys keys)
        → IsOrMemory (λ found. found ≡ keys) result }
    ensures found { is_twice_named columns.now ≡ false
        → IfOk result (λ keys. table_keys_known definition.now columns.now ≡ good (as_keys keys)) }
    ensures not_disk { IfErr result (λ fault. IsSchemaFault fault) }
{
    match bind_keys(alloc, definition, columns) {
        Ok(keys) => Ok(keys),
        Err(fault) => Err(outside(fault)),
    }
}

/// Checks that the row has this name twice, and that it may be given.
pub(crate) fn is_of_row(name: &Name, row: &SchemaRow<'_>) -> R<()>
    ensures tells { IsOfRow row.now name.now → result ≡ Ok tt }
    ensures found { OnOk result (IsOfRow row.now name.now) }
    ensures not_disk { IfErr result (λ fault. IsSchemaFault fault) }
{
    if !name.is_same(row.name) {
        return Err(damaged());
    }
    if !name.is_same(row.table_name) {
        return Err(damaged());
    }
    if is_reserved(name.as_str()) {
        return Err(Fault::Unsupported(Feature::SchemaObject));
    }
    Ok(())
}

/// The table of this row and of the statement that its text is, under the name in the statement.
fn table_made(alloc: Global, row: &SchemaRow<'_>, statement: &Statement) -> R<Table>
    ensures tells { (table : Table) (tells : TellsTable table row.now) (made : Made)
        → statement.now ≡ parsed.Create made → made.object ≡ new.Table tells.definition
        → IsOrMemory (λ found. found ≡ bare table) result }
    ensures found { IsTextOf row.now statement.now
        → IfOk result (λ table. TellsTable table row.now × (table.indexes ≡ [])) }
    ensures not_disk { IfErr result (λ fault. IsSchemaFault fault) }
{
    let definition = definition_in(statement)?;
    is_of_row(&definition.name, row)?;
    let columns = columns_in(alloc, definition)?;
    let checks = checks_in(alloc, definition, columns.as_slice())?;
    let keys = keys_in(alloc, definition, columns.as_slice())?;
    let name = definition.name.copy(alloc)?;
    Ok(Table {
        name,
        columns,
        rowid_column: keys.rowid_column,
        checks,
        keys: keys.indexes,
        indexes: Many::new(alloc),
        root: row.root,
        rowid: row.rowid,
    })
}

/// The table that a row tells, under the name in its definition.
fn table_of(alloc: Global, row: &SchemaRow<'_>) -> R<Table>
    ensures tells { (table : Table) → TellsTable table row.now
        → IsOrMemory (λ found. found ≡ bare table) result }
    ensures found { IfOk result (λ table. TellsTable table row.now × (table.indexes ≡ [])) }
    ensures not_disk { IfErr result (λ fault. IsSchemaFault fault) }
{
    let statement = statement_of(alloc, row)?;
    let table = table_made(alloc, row, &statement);
    release(statement);
    table
}

/// Checks that no table of the catalog, no index, no view and no trigger has this name.
pub(crate) fn is_new(catalog: &Catalog, name: &Name) -> R<()>
    ensures tells { is_name_of (listed_in catalog.now) name.now ≡ false → result ≡ Ok tt }
    ensures found { OnOk result (is_name_of (listed_in catalog.now) name.now ≡ false) }
    ensures not_disk { IfErr result (λ fault. IsSchemaFault fault) }
{
    if catalog.has_name(name.as_str()) {
        return Err(Fault::Unsupported(Feature::SchemaObject));
    }
    Ok(())
}

/// Adds the table that a row tells, after the others.
pub(crate) fn add_table(alloc: Global, catalog: &mut Catalog, row: &SchemaRow<'_>) -> R<()>
    // Where a row tells a table of a new name, that is listed, unless memory runs out.
    ensures tells { (table : Table) → TellsTable table row.now
        → ReadsTold true (told.TableTold table) (listed_in catalog.old) (listed_in catalog.new) result }
    // What is listed is the table that the row tells.
    ensures found { row.now.kind ≡ kinds.Table → OnOk result
        (FindsParts true row.now (listed_in catalog.old) (listed_in catalog.new)) }
    ensures not_disk { IfErr result (λ fault. IsSchemaFault fault) }
{
    let table = table_of(alloc, row)?;
    is_new(catalog, &table.name)?;
    catalog.add(alloc, table)
}
