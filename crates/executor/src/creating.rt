//! CREATE TABLE and CREATE INDEX.

ghost use Rattle.std.specs.Prelude.{◌≡◌, ◌⊎◌, codes, true, false, length, IfOk, IfErr, IsTrue, Some, option_map};
ghost use Rattle.sqlval.specs.Faults.{IsNotDiskFault, IsOrMemory};
ghost use Rattle.sqlval.specs.Refusals.{refusal_of};
ghost use Rattle.pages.specs.Calls.{Causes};
ghost use Rattle.sql_syntax.specs.declared.create.NewObject.TheVariants as object;
ghost use Rattle.sql_syntax.specs.declared.statement.Statement.TheVariants as statement;
ghost use Rattle.catalog.specs.Listed.{is_name_of, listed_in, table_named, tables_of};
ghost use Rattle.catalog.specs.declared.tables.Table.{Table as Listed};
ghost use Rattle.query_names.specs.Bound.{AreOnce};
ghost use Rattle.query_names.specs.Creating.{IsCreateRefusal};
ghost use Rattle.db_pages.specs.Schema.{IsCreateOf, IsTableOf, schema_row};
ghost use Rattle.executor.specs.Changing.{MakesChange};
ghost use Rattle.executor.specs.Holding.{ListsIndex, ListsKeys, key_index};
ghost use Rattle.executor.specs.Listing.{AddsRow, AreAfter, IsNewTable};

use catalog::{
    Catalog, Index, IndexColumn, Table, indexes_come_and_go, is_reserved, key_copy,
    named_databases_are_one, new_tables_are_listed, with_index,
};
use db_layout::{table_trees_stand, trees_give_way};
use db_write::add_index;
use pages::WritePages;
use query_bind::{bind_index, indexes_are_created_as_defined};
use query_names::{automatic_name, bind_checks, bind_columns, bind_keys, folded};
use record::encode_row;
use sql_syntax::{IndexDefinition, TableDefinition};
use sqlval::{Damage, Fault, Many, Misuse, Name, R, Text, Value};
use std::alloc::Global;
use tree_table::{insert, new_tree, table_trees_stay};

/// The page of a tree that isn't made yet.
const NO_PAGE: u32 = 0;

/// The page where the tree of the schema table begins.
pub(crate) const SCHEMA: u32 = 1;

/// The values of a row in the schema table.
pub(crate) fn schema_values(
    alloc: Global,
    kind: &str,
    name: &Name,
    table: &Name,
    root: u32,
    sql: Option<&Text>,
) -> R<Vec<Value>>
    ensures values { IfOk result (λ values. values.items
        ≡ schema_row kind.now name.now table.now root (option_map (λ text. text.now) sql.entry)) }
    ensures memory { IfErr result (λ fault. fault ≡ Fault.Memory) }
{
    let mut values = Vec::new(alloc);
    values.push(Value::Text(Text::from_str(alloc, kind)?))?;
    values.push(Value::Text(Text::from_str(alloc, name.as_str())?))?;
    values.push(Value::Text(Text::from_str(alloc, table.as_str())?))?;
    values.push(Value::Int(i64::from(root)))?;
    values.push(match sql {
        Some(sql) => Value::Text(sql.copy(alloc)?),
        None => Value::Null,
    })?;
    Ok(values)
}

/// The table of a definition, without a tree and a row in the schema table as yet. (`Misuse(ReservedName)`, `Exists`,
/// and what `bind_columns` and `bind_checks` refuse.)
fn table_of(alloc: Global, catalog: &Catalog, definition: &TableDefinition) -> R<Table>
    ensures made { IfOk result (λ table. IsNewTable (listed_in catalog.now) definition.now table) }
    ensures why { IfErr result (λ fault. (fault ≡ Fault.Memory)
        ⊎ IsCreateRefusal (listed_in catalog.now) definition.now (refusal_of fault)) }
    ensures not_disk { IfErr result (λ fault. IsNotDiskFault fault) }
{
    let name = &definition.name;
    if is_reserved(name.as_str()) {
        return Err(Fault::Misuse(Misuse::ReservedName));
    }
    if catalog.has_name(name.as_str()) {
        return Err(Fault::Exists(name.copy(alloc)?));
    }
    let columns = bind_columns(alloc, definition)?;
    let checks = bind_checks(alloc, definition, columns.as_slice())?;
    let keys = bind_keys(alloc, definition, columns.as_slice())?;
    Ok(Table {
        name: name.copy(alloc)?,
        columns,
        rowid_column: keys.rowid_column,
        checks,
        keys: keys.indexes,
        indexes: Many::new(alloc),
        root: NO_PAGE,
        rowid: 0,
    })
}

/// Adds a row of these values to the schema table, at a rowid that none has. (`TooLong` if no record can hold them; what `insert` refuses;
/// `Damaged(Order, 1)` if there is such a row.)
pub(crate) fn add_row<P: WritePages>(
    alloc: Global,
    pages: &mut P,
    rowid: i64,
    values: &[Value],
) -> R<()>
    ensures added { IsTrue (P.Pages.tells (P.Pages.below pages.old))
        → AddsRow (P.Pages.map pages.old) (P.Pages.map pages.new)
        (P.Pages.limits (P.Pages.below pages.old)).page rowid values.now result }
    ensures kept { P.Pages.below pages.new ≡ P.Pages.below pages.old }
    ensures causes { Causes result (P.Pages.failures pages.old) (P.Pages.failures pages.new)
        (P.Pages.count pages.new ≡ (P.Pages.limits (P.Pages.below pages.new)).most) }
{
    let payload = encode_row(alloc, values)?;
    if !insert(alloc, pages, SCHEMA, rowid, &payload)? {
        return Err(Fault::Damaged(Damage::Order, SCHEMA));
    }
    Ok(())
}

/// Adds the row of what has no tree to the schema table: of this kind, under this name and that of what it is on, with its text. (What
/// `add_row` refuses.)
pub(crate) fn add_treeless_row<P: WritePages>(
    alloc: Global,
    pages: &mut P,
    rowid: i64,
    kind: &str,
    name: &Name,
    on: &Name,
    sql: &Text,
) -> R<()>
    ensures added { IsTrue (P.Pages.tells (P.Pages.below pages.old))
        → AddsRow (P.Pages.map pages.old) (P.Pages.map pages.new)
        (P.Pages.limits (P.Pages.below pages.old)).page rowid (schema_row kind.now name.now on.now 0 (Some sql.now)) result }
    ensures kept { P.Pages.below pages.new ≡ P.Pages.below pages.old }
    ensures causes { Causes result (P.Pages.failures pages.old) (P.Pages.failures pages.new)
        (P.Pages.count pages.new ≡ (P.Pages.limits (P.Pages.below pages.new)).most) }
{
    let values = schema_values(alloc, kind, name, on, 0, Some(sql))?;
    add_row(alloc, pages, rowid, &values)
}

/// The rowid of a table's row in the schema table.
pub(crate) fn row_of(owner: &Table) -> i64
    ensures { result ≡ owner.now.rowid }
{
    owner.rowid
}

/// Lists an index with its table: its row in the schema table, of this name and text, and a tree with the entries of the table's rows. Answers the
/// catalog with it. (`RowidFull` if no rowid after the table's is free; what `add_index` refuses; `TooLong` if no record can hold its row. Then
/// some pages may have changed.)
fn list_index<P: WritePages>(
    alloc: Global,
    pages: &mut P,
    catalog: &Catalog,
    table: &Table,
    mut index: Index,
    name: &Name,
    sql: Option<&Text>,
) -> R<Catalog>
    ensures listed { IsTrue (P.Pages.tells (P.Pages.below pages.old))
        → ListsIndex (P.Pages.map pages.old) (P.Pages.map pages.new)
        (P.Pages.limits (P.Pages.below pages.old)).page (listed_in catalog.now) table.now index name.now
        (option_map (λ text. text.now) sql.entry) result }
    ensures after { IfOk result (λ next. table_named table.now.name (tables_of catalog.now) ≡ Some table.now
        → AreAfter (listed_in catalog.now) → AreAfter (listed_in next)) }
    ensures kept { P.Pages.below pages.new ≡ P.Pages.below pages.old }
    ensures causes { Causes result (P.Pages.failures pages.old) (P.Pages.failures pages.new)
        (P.Pages.count pages.new ≡ (P.Pages.limits (P.Pages.below pages.new)).most) }
{
    indexes_come_and_go();
    trees_give_way();
    table_trees_stand();
    let rowid = catalog.unused_after(alloc, row_of(table))?;
    index.rowid = rowid;
    index.root = add_index(
        alloc,
        pages,
        table,
        index.columns.as_slice(),
        index.is_unique,
    )?;
    let values = schema_values(alloc, "index", name, &table.name, index.root, sql)?;
    add_row(alloc, pages, rowid, &values)?;
    catalog.replacing(alloc, with_index(alloc, table, index)?)
}

/// The index of a table's key, under its folded name, without a tree and a row in the schema table as yet. (`Memory` alone.)
fn automatic_index(alloc: Global, columns: &[IndexColumn], name: &Name) -> R<Index>
    ensures { IsOrMemory (λ index. index ≡ key_index columns.now name.now) result }
{
    Ok(Index {
        name: folded(alloc, name)?,
        columns: key_copy(alloc, columns)?,
        is_unique: true,
        is_automatic: true,
        root: NO_PAGE,
        rowid: 0,
    })
}

/// How many keys the table of a name has.
fn key_count(catalog: &Catalog, name: &str) -> usize
    ensures { (table : Listed) → table_named name.now (tables_of catalog.now) ≡ Some table → result ≡ length table.keys }
{
    match catalog.table(name) {
        Some(table) => table.keys.len(),
        None => 0,
    }
}

/// Lists an index for each key of the table of this name, one after another. Answers the catalog with them. (What `list_index` refuses.)
fn list_keys<P: WritePages>(
    alloc: Global,
    pages: &mut P,
    catalog: Catalog,
    name: &Name,
) -> R<Catalog>
    ensures listed { IsTrue (P.Pages.tells (P.Pages.below pages.old))
        → ListsKeys (P.Pages.map pages.old) (P.Pages.map pages.new)
        (P.Pages.limits (P.Pages.below pages.old)).page (listed_in catalog) name.now result }
    ensures after { IfOk result (λ next. AreAfter (listed_in catalog) → AreAfter (listed_in next)) }
    ensures kept { P.Pages.below pages.new ≡ P.Pages.below pages.old }
    ensures causes { Causes result (P.Pages.failures pages.old) (P.Pages.failures pages.new)
        (P.Pages.count pages.new ≡ (P.Pages.limits (P.Pages.below pages.new)).most) }
{
    let count = key_count(&catalog, name.as_str());
    let mut listed = catalog;
    'keys: for place in 0..count {
        let Some(table) = listed.table(name.as_str()) else {
            break;
        };
        let Some(columns) = table.keys.as_slice().get(place) else {
            break;
        };
        let own_name = automatic_name(alloc, &table.name, place + 1)?;
        let index = automatic_index(alloc, columns.as_slice(), &own_name)?;
        listed = list_index(alloc, pages, &listed, table, index, &own_name, None)?;
    }
    Ok(listed)
}

/// Makes a table: its row in the schema table, and a tree without rows. Answers the catalog with it. (`Misuse(ReservedName)`, `Exists`, and
/// what `bind_columns` and `bind_checks` refuse; `TooLong` if no record can hold its row; what `list_keys` refuses. Then some pages may have
/// changed.)
pub fn create_table<P: WritePages>(
    alloc: Global,
    pages: &mut P,
    catalog: &Catalog,
    sql: &Text,
    definition: &TableDefinition,
) -> R<Catalog>
    ensures made { IsTrue (P.Pages.tells (P.Pages.below pages.old))
        → IsCreateOf sql.now (object.Table definition.now)
        → MakesChange listed_in (statement.Create
        (record { sql = sql.now; object = object.Table definition.now })) (P.Pages.map pages.old)
        (P.Pages.map pages.new) (P.Pages.limits (P.Pages.below pages.old)).page (listed_in catalog.now) result }
    ensures after { IfOk result (λ next. AreAfter (listed_in catalog.now) → AreAfter (listed_in next)) }
    ensures kept { P.Pages.below pages.new ≡ P.Pages.below pages.old }
    ensures causes { Causes result (P.Pages.failures pages.old) (P.Pages.failures pages.new)
        (P.Pages.count pages.new ≡ (P.Pages.limits (P.Pages.below pages.new)).most) }
{
    new_tables_are_listed();
    named_databases_are_one();
    trees_give_way();
    table_trees_stand();
    table_trees_stay();
    let mut table = table_of(alloc, catalog, definition)?;
    let rowid = catalog.unused_rowid(alloc)?;
    table.rowid = rowid;
    table.root = new_tree(alloc, pages)?;
    let name = &definition.name;
    let values = schema_values(alloc, "table", name, name, table.root, Some(sql))?;
    add_row(alloc, pages, rowid, &values)?;
    let listed = catalog.with(alloc, 0, table)?;
    list_keys(alloc, pages, listed, name)
}

/// Makes an index: its row in the schema table, and a tree with the entries of its table's rows. Answers the catalog with it. (What
/// `bind_index` and `add_index` refuse, `Unique` for two rows of one key among it; `RowidFull` if no rowid after its table's is free; `TooLong` if
/// no record can hold its row. Then some pages may have changed.)
pub fn create_index<P: WritePages>(
    alloc: Global,
    pages: &mut P,
    catalog: &Catalog,
    sql: &Text,
    definition: &IndexDefinition,
) -> R<Catalog>
    ensures made { IsTrue (P.Pages.tells (P.Pages.below pages.old))
        → IsCreateOf sql.now (object.Index definition.now)
        → MakesChange listed_in (statement.Create
        (record { sql = sql.now; object = object.Index definition.now })) (P.Pages.map pages.old)
        (P.Pages.map pages.new) (P.Pages.limits (P.Pages.below pages.old)).page (listed_in catalog.now) result }
    ensures after { IfOk result (λ next. AreOnce (tables_of catalog.now)
        → AreAfter (listed_in catalog.now) → AreAfter (listed_in next)) }
    ensures kept { P.Pages.below pages.new ≡ P.Pages.below pages.old }
    ensures causes { Causes result (P.Pages.failures pages.old) (P.Pages.failures pages.new)
        (P.Pages.count pages.new ≡ (P.Pages.limits (P.Pages.below pages.new)).most) }
{
    indexes_come_and_go();
    indexes_are_created_as_defined();
    let bound = bind_index(alloc, catalog, definition)?;
    let index = Index {
        name: definition.name.copy(alloc)?,
        columns: bound.columns,
        is_unique: definition.is_unique,
        is_automatic: false,
        root: NO_PAGE,
        rowid: 0,
    };
    let name = &definition.name;
    list_index(alloc, pages, catalog, bound.table, index, name, Some(sql))
}
