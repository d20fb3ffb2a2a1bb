//! INSERT.

ghost use Rattle.std.specs.Prelude.{◌≡◌, IsTrue};
ghost use Rattle.pages.specs.Calls.{Causes};
ghost use Rattle.sql_syntax.specs.declared.change.Change.TheVariants as change;
ghost use Rattle.catalog.specs.Listed.{listed_in, tables_of};
ghost use Rattle.executor.specs.Changing.{MakesQuietly};

use crate::giving::given_rows;
use crate::refusing::{is_view, refuse_insert};
use catalog::{Catalog, listed_indexes_are_found, named_databases_are_one, other_rows_are_listed};
use db_write::insert_rows;
use pages::WritePages;
use query_names::{BoundInsert, bind_target};
use sql_syntax::Insert;
use sqlval::R;
use std::alloc::Global;
use trigger::{insert_sets_off_nothing, only_tables_set_nothing_off};

/// Makes the rows of an INSERT that sets no trigger off: all are known before the first is stored. (What `refuse_insert` says, of a view; what
/// `bind_target`, `given_rows` and `insert_rows` refuse; then some pages may have changed.)
pub fn insert<P: WritePages>(
    alloc: Global,
    pages: &mut P,
    catalog: &Catalog,
    insert: &Insert,
) -> R<()>
    ensures made { IsTrue (P.Pages.tells (P.Pages.below pages.old))
        → MakesQuietly (change.Insert insert.now) (P.Pages.map pages.old) (P.Pages.map pages.new)
        (P.Pages.limits (P.Pages.below pages.old)).page (listed_in catalog.now) result }
    ensures kept { P.Pages.below pages.new ≡ P.Pages.below pages.old }
    ensures causes { Causes result (P.Pages.failures pages.old) (P.Pages.failures pages.new)
        (P.Pages.count pages.new ≡ (P.Pages.limits (P.Pages.below pages.new)).most) }
{
    other_rows_are_listed();
    named_databases_are_one();
    listed_indexes_are_found();
    only_tables_set_nothing_off();
    insert_sets_off_nothing();
    if is_view(catalog, &insert.table) {
        return Err(refuse_insert(alloc, catalog, insert));
    }
    let target = bind_target(alloc, insert, catalog)?;
    let rows = given_rows(alloc, pages, catalog, &insert.source, target.count)?;
    let bound = BoundInsert {
        table: target.table,
        places: target.places,
        rows,
    };
    insert_rows(alloc, pages, bound)
}
