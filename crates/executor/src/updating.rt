//! UPDATE.

ghost use Rattle.std.specs.Prelude.{◌≡◌, IsTrue};
ghost use Rattle.pages.specs.Calls.{Causes};
ghost use Rattle.sql_syntax.specs.declared.change.Change.TheVariants as change;
ghost use Rattle.catalog.specs.Listed.{listed_in, tables_of};
ghost use Rattle.executor.specs.Changing.{MakesQuietly};

use crate::deleting::listed_table;
use crate::refusing::{is_view, refuse_update};
use catalog::{Catalog, listed_indexes_are_found, named_databases_are_one, other_rows_are_listed};
use pages::WritePages;
use query_bind::{bind_sets, bind_where};
use sql_syntax::Update;
use sqlval::R;
use std::alloc::Global;
use trigger::{only_tables_set_nothing_off, update_sets_off_nothing};

/// Sets values in the rows of a table for which WHERE is true, or in all without one, by an UPDATE that sets no trigger off. (`NoSuch` and what else binding an UPDATE refuses;
/// what `update_rows` of `db_write` refuses; then some pages may have changed.)
pub fn update_rows<P: WritePages>(
    alloc: Global,
    pages: &mut P,
    catalog: &Catalog,
    update: &Update,
) -> R<()>
    ensures made { IsTrue (P.Pages.tells (P.Pages.below pages.old))
        → MakesQuietly (change.Update update.now) (P.Pages.map pages.old) (P.Pages.map pages.new)
        (P.Pages.limits (P.Pages.below pages.old)).page (listed_in catalog.now) result }
    ensures kept { P.Pages.below pages.new ≡ P.Pages.below pages.old }
    ensures causes { Causes result (P.Pages.failures pages.old) (P.Pages.failures pages.new)
        (P.Pages.count pages.new ≡ (P.Pages.limits (P.Pages.below pages.new)).most) }
{
    other_rows_are_listed();
    named_databases_are_one();
    listed_indexes_are_found();
    only_tables_set_nothing_off();
    update_sets_off_nothing();
    let assignments = update.assignments.as_slice();
    if is_view(catalog, &update.table) {
        return Err(refuse_update(alloc, catalog, update));
    }
    let table = listed_table(alloc, catalog, &update.table)?;
    let sets = bind_sets(alloc, &update.table, table, assignments)?;
    let condition = bind_where(alloc, &update.table, table, &update.condition)?;
    db_write::update_rows(alloc, pages, table, &condition, &sets)
}
