//! DELETE.

ghost use Rattle.std.specs.Prelude.{◌≡◌, ◌⊎◌, None, Some, IfErr, IfOk, IsTrue};
ghost use Rattle.sqlval.specs.Faults.{IsNotDiskFault};
ghost use Rattle.sqlval.specs.Refusals as refusal;
ghost use Rattle.sqlval.specs.Refusals.{refusal_of};
ghost use Rattle.pages.specs.Calls.{Causes};
ghost use Rattle.sql_syntax.specs.declared.change.Change.TheVariants as change;
ghost use Rattle.catalog.specs.Listed.{listed_in, table_named, tables_of};
ghost use Rattle.executor.specs.Changing.{MakesQuietly};

use crate::refusing::{is_view, refuse_delete};
use catalog::{Catalog, Table, named_databases_are_one, other_rows_are_listed};
use pages::WritePages;
use query_bind::bind_where;
use sql_syntax::Delete;
use sqlval::{Fault, Name, Object, R};
use std::alloc::Global;
use trigger::{delete_sets_off_nothing, only_tables_set_nothing_off};

/// The table of a name. (`NoSuch` if none has it.)
pub(crate) fn listed_table<'a>(alloc: Global, catalog: &'a Catalog, name: &Name) -> R<&'a Table>
    ensures found { IfOk result (λ table. table_named name.now (tables_of catalog.now) ≡ Some table.now) }
    ensures refused { IfErr result (λ fault. (fault ≡ Fault.Memory)
        ⊎ (refusal_of fault ≡ refusal.NoSuch)
        × (table_named name.now (tables_of catalog.now) ≡ None)) }
    ensures not_disk { IfErr result (λ fault. IsNotDiskFault fault) }
{
    match catalog.table(name.as_str()) {
        Some(table) => Ok(table),
        None => Err(Fault::NoSuch(Object::Table, name.copy(alloc)?)),
    }
}

/// Removes the rows of a table for which WHERE is true, or all without one, by a DELETE that sets no trigger off. (`NoSuch` and what else binding a DELETE refuses; what
/// `delete_rows` of `db_write` refuses; then some pages may have changed.)
pub fn delete_rows<P: WritePages>(
    alloc: Global,
    pages: &mut P,
    catalog: &Catalog,
    delete: &Delete,
) -> R<()>
    ensures made { IsTrue (P.Pages.tells (P.Pages.below pages.old))
        → MakesQuietly (change.Delete delete.now) (P.Pages.map pages.old) (P.Pages.map pages.new)
        (P.Pages.limits (P.Pages.below pages.old)).page (listed_in catalog.now) result }
    ensures kept { P.Pages.below pages.new ≡ P.Pages.below pages.old }
    ensures causes { Causes result (P.Pages.failures pages.old) (P.Pages.failures pages.new)
        (P.Pages.count pages.new ≡ (P.Pages.limits (P.Pages.below pages.new)).most) }
{
    other_rows_are_listed();
    named_databases_are_one();
    only_tables_set_nothing_off();
    delete_sets_off_nothing();
    if is_view(catalog, &delete.table) {
        return Err(refuse_delete(alloc, catalog, delete));
    }
    let table = listed_table(alloc, catalog, &delete.table)?;
    let condition = bind_where(alloc, &delete.table, table, &delete.condition)?;
    db_write::delete_rows(alloc, pages, table, &condition)
}
