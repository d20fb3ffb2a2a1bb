//! DROP.

ghost use Rattle.std.specs.Prelude.{◌≡◌, ◌⊎◌, ◌++◌, ◌∷◌, [], false, map, option_map, None, Some, IfErr, IfOk, IsTrue};
ghost use Rattle.std.specs.List.{find};
ghost use Rattle.sqlval.specs.Faults.{IsNotDiskFault};
ghost use Rattle.sqlval.specs.Names.{is_same_name};
ghost use Rattle.sqlval.specs.Refusals as refusal;
ghost use Rattle.sqlval.specs.Refusals.{refusal_of};
ghost use Rattle.pages.specs.Calls.{Causes};
ghost use Rattle.sql_syntax.specs.declared.statement.ObjectKind.TheVariants as kinds;
ghost use Rattle.sql_syntax.specs.declared.statement.Statement.TheVariants as statement;
ghost use Rattle.catalog.specs.Listed.{listed_in, rowids_in, shared, table_with_index, tables_of, triggers_in};
ghost use Rattle.executor.specs.Changing.{MakesChange};
ghost use Rattle.executor.specs.Listing.{TakesSchemaRow, TakesSchemaRows, rowids_on};

use crate::creating::SCHEMA;
use crate::deleting::listed_table;
use crate::triggers::drop_trigger;
use crate::views::drop_view;
use catalog::{
    Catalog, Index, Table, Trigger, indexes_come_and_go, listed_tables_are_found,
    other_tables_are_listed, without_index,
};
use db_layout::{table_trees_stand, trees_give_way};
use db_write::{drop_trees, free_index};
use pages::WritePages;
use sql_syntax::ObjectKind;
use sqlval::{Damage, Fault, Misuse, Name, Object, R};
use std::alloc::Global;
use std::rc::Rc;
use tree_table::remove;

/// Takes the row of a rowid out of the schema table. (What `remove` refuses; `Damaged(Schema, 1)` if there is none.)
pub(crate) fn take_row<P: WritePages>(alloc: Global, pages: &mut P, rowid: i64) -> R<()>
    ensures taken { IsTrue (P.Pages.tells (P.Pages.below pages.old))
        → TakesSchemaRow (P.Pages.map pages.old) (P.Pages.map pages.new)
        (P.Pages.limits (P.Pages.below pages.old)).page rowid result }
    ensures kept { P.Pages.below pages.new ≡ P.Pages.below pages.old }
    ensures causes { Causes result (P.Pages.failures pages.old) (P.Pages.failures pages.new)
        (P.Pages.count pages.new ≡ (P.Pages.limits (P.Pages.below pages.new)).most) }
{
    if !remove(alloc, pages, SCHEMA, rowid)? {
        return Err(Fault::Damaged(Damage::Schema, SCHEMA));
    }
    Ok(())
}

/// Takes the rows of indexes out of the schema table. (What `take_row` refuses.)
fn take_index_rows<P: WritePages>(alloc: Global, pages: &mut P, indexes: &[Index]) -> R<()>
    ensures taken { IsTrue (P.Pages.tells (P.Pages.below pages.old))
        → TakesSchemaRows (P.Pages.map pages.old) (P.Pages.map pages.new)
        (P.Pages.limits (P.Pages.below pages.old)).page
        (map (λ index. index.rowid) indexes.now) result }
    ensures kept { P.Pages.below pages.new ≡ P.Pages.below pages.old }
    ensures causes { Causes result (P.Pages.failures pages.old) (P.Pages.failures pages.new)
        (P.Pages.count pages.new ≡ (P.Pages.limits (P.Pages.below pages.new)).most) }
{
    let mut left = indexes;
    'indexes: while let [index, rest @ ..] = left {
        take_row(alloc, pages, index.rowid)?;
        left = rest;
    }
    Ok(())
}

/// Takes the rows of a table and of its indexes out of the schema table. (What `take_row` refuses.)
fn take_rows<P: WritePages>(alloc: Global, pages: &mut P, table: &Table) -> R<()>
    ensures taken { IsTrue (P.Pages.tells (P.Pages.below pages.old))
        → TakesSchemaRows (P.Pages.map pages.old) (P.Pages.map pages.new)
        (P.Pages.limits (P.Pages.below pages.old)).page
        (rowids_in table.now) result }
    ensures kept { P.Pages.below pages.new ≡ P.Pages.below pages.old }
    ensures causes { Causes result (P.Pages.failures pages.old) (P.Pages.failures pages.new)
        (P.Pages.count pages.new ≡ (P.Pages.limits (P.Pages.below pages.new)).most) }
{
    take_row(alloc, pages, table.rowid)?;
    take_index_rows(alloc, pages, table.indexes.as_slice())
}

/// Takes the row of a trigger out of the schema table, if it is one of this table or view. (What `take_row` refuses.)
fn take_if_on<P: WritePages>(alloc: Global, pages: &mut P, trigger: &Trigger, name: &Name) -> R<()>
    ensures taken { IsTrue (P.Pages.tells (P.Pages.below pages.old))
        → TakesSchemaRows (P.Pages.map pages.old) (P.Pages.map pages.new)
        (P.Pages.limits (P.Pages.below pages.old)).page
        (rowids_on name.now (trigger.now ∷ [])) result }
    ensures kept { P.Pages.below pages.new ≡ P.Pages.below pages.old }
    ensures causes { Causes result (P.Pages.failures pages.old) (P.Pages.failures pages.new)
        (P.Pages.count pages.new ≡ (P.Pages.limits (P.Pages.below pages.new)).most) }
{
    if !name.is_same(trigger.definition.target.as_str()) {
        return Ok(());
    }
    take_row(alloc, pages, trigger.rowid)
}

/// Takes the rows of the triggers of a table or view out of the schema table. (What `take_row` refuses.)
pub(crate) fn take_trigger_rows<P: WritePages>(
    alloc: Global,
    pages: &mut P,
    triggers: &[Rc<Trigger>],
    name: &Name,
) -> R<()>
    ensures taken { IsTrue (P.Pages.tells (P.Pages.below pages.old))
        → TakesSchemaRows (P.Pages.map pages.old) (P.Pages.map pages.new)
        (P.Pages.limits (P.Pages.below pages.old)).page
        (rowids_on name.now (shared triggers.now)) result }
    ensures kept { P.Pages.below pages.new ≡ P.Pages.below pages.old }
    ensures causes { Causes result (P.Pages.failures pages.old) (P.Pages.failures pages.new)
        (P.Pages.count pages.new ≡ (P.Pages.limits (P.Pages.below pages.new)).most) }
{
    let mut left = triggers;
    'triggers: while let [trigger, rest @ ..] = left {
        take_if_on(alloc, pages, trigger, name)?;
        left = rest;
    }
    Ok(())
}

/// Takes the rows of a table, of its indexes and of its triggers out of the schema table. (What `take_row` refuses.)
fn take_all_rows<P: WritePages>(
    alloc: Global,
    pages: &mut P,
    catalog: &Catalog,
    table: &Table,
    name: &Name,
) -> R<()>
    ensures taken { IsTrue (P.Pages.tells (P.Pages.below pages.old))
        → TakesSchemaRows (P.Pages.map pages.old) (P.Pages.map pages.new)
        (P.Pages.limits (P.Pages.below pages.old)).page
        (rowids_in table.now ++ rowids_on name.now (triggers_in catalog.now)) result }
    ensures kept { P.Pages.below pages.new ≡ P.Pages.below pages.old }
    ensures causes { Causes result (P.Pages.failures pages.old) (P.Pages.failures pages.new)
        (P.Pages.count pages.new ≡ (P.Pages.limits (P.Pages.below pages.new)).most) }
{
    take_rows(alloc, pages, table)?;
    take_trigger_rows(alloc, pages, catalog.triggers(), name)
}

/// What an object of this kind is called in a refusal.
fn object_of(kind: ObjectKind) -> Object {
    match kind {
        ObjectKind::Table => Object::Table,
        ObjectKind::Index => Object::Index,
        ObjectKind::View => Object::View,
        ObjectKind::Trigger => Object::Trigger,
    }
}

/// The refusal of a name that no object of a kind has. (`Memory` if there is no room for it.)
pub(crate) fn no_such(alloc: Global, kind: ObjectKind, name: &Name) -> Fault
    ensures refused { (result ≡ Fault.Memory) ⊎ (refusal_of result ≡ refusal.NoSuch) }
    ensures not_disk { IsNotDiskFault result }
{
    match name.copy(alloc) {
        Ok(name) => Fault::NoSuch(object_of(kind), name),
        Err(_) => Fault::Memory,
    }
}

/// Drops a table with its indexes and triggers: their rows in the schema table, and their trees. Answers the catalog without them. (`NoSuch`; what
/// `take_all_rows` and `drop_trees` refuse. Then some pages may have changed.)
fn drop_table<P: WritePages>(
    alloc: Global,
    pages: &mut P,
    catalog: &Catalog,
    name: &Name,
) -> R<Catalog>
    ensures made { IsTrue (P.Pages.tells (P.Pages.below pages.old))
        → MakesChange listed_in (statement.Drop kinds.Table name.now) (P.Pages.map pages.old)
        (P.Pages.map pages.new)
        (P.Pages.limits (P.Pages.below pages.old)).page (listed_in catalog.now) result }
    ensures kept { P.Pages.below pages.new ≡ P.Pages.below pages.old }
    ensures causes { Causes result (P.Pages.failures pages.old) (P.Pages.failures pages.new)
        (P.Pages.count pages.new ≡ (P.Pages.limits (P.Pages.below pages.new)).most) }
{
    listed_tables_are_found();
    other_tables_are_listed();
    trees_give_way();
    table_trees_stand();
    let table = listed_table(alloc, catalog, name)?;
    let left = catalog.without(alloc, name)?;
    take_all_rows(alloc, pages, catalog, table, name)?;
    drop_trees(alloc, pages, table)?;
    Ok(left)
}

/// The first of a table's indexes that has this name.
fn index_named<'a>(table: &'a Table, name: &str) -> Option<&'a Index>
    ensures { option_map (λ index. index.now) result ≡ find
        (λ index. is_same_name index.name name.now) table.now.indexes }
{
    table
        .indexes
        .as_slice()
        .iter()
        .find(|index| index.name.is_same(name))
}

/// Drops one of a table's indexes, which isn't an automatic one: its row in the schema table, and its tree. Answers the catalog without it.
/// (What `take_row` and `free_index` refuse. Then some pages may have changed.)
fn drop_listed_index<P: WritePages>(
    alloc: Global,
    pages: &mut P,
    catalog: &Catalog,
    table: &Table,
    index: &Index,
    name: &Name,
) -> R<Catalog>
    ensures made { IsTrue (P.Pages.tells (P.Pages.below pages.old))
        → table_with_index name.now (tables_of catalog.now) ≡ Some table.now
        → find (λ other. is_same_name other.name name.now) table.now.indexes ≡ Some index.now
        → index.now.is_automatic ≡ false
        → MakesChange listed_in (statement.Drop kinds.Index name.now) (P.Pages.map pages.old)
        (P.Pages.map pages.new)
        (P.Pages.limits (P.Pages.below pages.old)).page (listed_in catalog.now) result }
    ensures kept { P.Pages.below pages.new ≡ P.Pages.below pages.old }
    ensures causes { Causes result (P.Pages.failures pages.old) (P.Pages.failures pages.new)
        (P.Pages.count pages.new ≡ (P.Pages.limits (P.Pages.below pages.new)).most) }
{
    indexes_come_and_go();
    trees_give_way();
    table_trees_stand();
    let left = without_index(alloc, table, name.as_str())?;
    let others = catalog.replacing(alloc, left)?;
    take_row(alloc, pages, index.rowid)?;
    free_index(alloc, pages, index.root)?;
    Ok(others)
}

/// The index of a name, with its table. (`NoSuch` if none has it.)
fn listed_index<'a>(alloc: Global, catalog: &'a Catalog, name: &Name) -> R<(&'a Table, &'a Index)>
    ensures found { IfOk result (λ found. (table_with_index name.now (tables_of catalog.now) ≡ Some found.0.now)
        × (find (λ other. is_same_name other.name name.now) found.0.now.indexes ≡ Some found.1.now)) }
    ensures refused { IfErr result (λ fault. (fault ≡ Fault.Memory)
        ⊎ (refusal_of fault ≡ refusal.NoSuch)
        × (table_with_index name.now (tables_of catalog.now) ≡ None)) }
    ensures not_disk { IfErr result (λ fault. IsNotDiskFault fault) }
{
    let Some(table) = catalog.table_with_index(name.as_str()) else {
        return Err(no_such(alloc, ObjectKind::Index, name));
    };
    match index_named(table, name.as_str()) {
        Some(index) => Ok((table, index)),
        None => Err(no_such(alloc, ObjectKind::Index, name)),
    }
}

/// Drops an index, and answers the catalog without it. (`NoSuch`; `Misuse(Autoindex)`; what `drop_listed_index` refuses.)
fn drop_index<P: WritePages>(
    alloc: Global,
    pages: &mut P,
    catalog: &Catalog,
    name: &Name,
) -> R<Catalog>
    ensures made { IsTrue (P.Pages.tells (P.Pages.below pages.old))
        → MakesChange listed_in (statement.Drop kinds.Index name.now) (P.Pages.map pages.old)
        (P.Pages.map pages.new)
        (P.Pages.limits (P.Pages.below pages.old)).page (listed_in catalog.now) result }
    ensures kept { P.Pages.below pages.new ≡ P.Pages.below pages.old }
    ensures causes { Causes result (P.Pages.failures pages.old) (P.Pages.failures pages.new)
        (P.Pages.count pages.new ≡ (P.Pages.limits (P.Pages.below pages.new)).most) }
{
    listed_tables_are_found();
    let (table, index) = listed_index(alloc, catalog, name)?;
    if index.is_automatic {
        return Err(Fault::Misuse(Misuse::Autoindex));
    }
    drop_listed_index(alloc, pages, catalog, table, index, name)
}

/// Drops an object, and answers the catalog without it and what goes with it. (`NoSuch`; `Misuse(Autoindex)`; what removing rows of the schema
/// table and freeing trees refuse; then some pages may have changed.)
pub fn drop_object<P: WritePages>(
    alloc: Global,
    pages: &mut P,
    catalog: &Catalog,
    kind: ObjectKind,
    name: &Name,
) -> R<Catalog>
    ensures made { IsTrue (P.Pages.tells (P.Pages.below pages.old))
        → MakesChange listed_in (statement.Drop kind name.now) (P.Pages.map pages.old) (P.Pages.map pages.new)
        (P.Pages.limits (P.Pages.below pages.old)).page (listed_in catalog.now) result }
    ensures kept { P.Pages.below pages.new ≡ P.Pages.below pages.old }
    ensures causes { Causes result (P.Pages.failures pages.old) (P.Pages.failures pages.new)
        (P.Pages.count pages.new ≡ (P.Pages.limits (P.Pages.below pages.new)).most) }
{
    match kind {
        ObjectKind::Table => drop_table(alloc, pages, catalog, name),
        ObjectKind::Index => drop_index(alloc, pages, catalog, name),
        ObjectKind::View => drop_view(alloc, pages, catalog, name),
        ObjectKind::Trigger => drop_trigger(alloc, pages, catalog, name),
    }
}
