//! The tables, indexes, views and triggers of the schema, as the rows of its tree tell them.

ghost use Rattle.std.specs.Prelude.{IsTrue, IfErr, OnOk};
ghost use Rattle.pages.specs.Calls.{Stays};
ghost use Rattle.catalog.specs.Listed.{listed_in};
ghost use Rattle.db_load.specs.Loading.{IsSchemaFault};
ghost use Rattle.db_load.specs.Reading.{Finds, FindsRows, LoadsNext, LoadsRows, LoadsTree, TellsTree};

use crate::adding::add_row;
use crate::automatic::check_keys;
use crate::triggers::check_targets;
use catalog::Catalog;
use pages::Pages;
use query_bind::triggers_are_created_as_defined;
use record::bytes_determine_values;
use sqlval::R;
use std::alloc::Global;
use tree_table::{Batch, Cursor};

/// The page where the tree of the schema table begins.
const SCHEMA: u32 = 1;

/// Adds the indexes, or all else, that the rows of a batch tell, in a database of `size` pages. (As `add_row`.)
fn add_batch(alloc: Global, catalog: &mut Catalog, batch: &Batch, size: u32, tables: bool) -> R<()>
    ensures loaded { LoadsNext tables size batch.now (listed_in catalog.old) (listed_in catalog.new) result }
    ensures told { OnOk result (Finds tables size batch.now (listed_in catalog.old) (listed_in catalog.new)) }
    ensures not_disk { IfErr result (λ fault. IsSchemaFault fault) }
{
    'rows: for index in 0..batch.len() {
        let row = batch.row(index);
        add_row(alloc, catalog, row.rowid, row.payload, size, tables)?;
    }
    Ok(())
}

/// Adds the indexes, or all else, that the rows of the schema table tell, in a database of `size` pages, whatever pages the rows lie on. (As `add_row`, except for pages that are no tree of a table: those are refused as a `Cursor` does.)
fn add_rows<P: Pages>(
    alloc: Global,
    pages: &mut P,
    catalog: &mut Catalog,
    size: u32,
    tables: bool,
) -> R<()>
    ensures loaded { IsTrue (P.Pages.tells (P.Pages.below pages.old))
        → LoadsRows tables (P.Pages.map pages.old) (P.Pages.limits (P.Pages.below pages.old)).page size
        (listed_in catalog.old) (listed_in catalog.new) result }
    ensures told { IsTrue (P.Pages.tells (P.Pages.below pages.old))
        → FindsRows tables (P.Pages.map pages.old) (P.Pages.limits (P.Pages.below pages.old)).page size
        (listed_in catalog.old) (listed_in catalog.new) result }
    ensures stays { Stays P.Pages.below P.Pages.map P.Pages.count P.Pages.failures result pages.old pages.new }
{
    let mut batch = Batch::new(alloc);
    let mut cursor = Cursor::new(SCHEMA);
    'batches: while cursor.next.is_some() {
        cursor.next_batch(pages, &mut batch)?;
        add_batch(alloc, catalog, &batch, size, tables)?;
    }
    Ok(())
}

/// The tables that the rows of the schema table tell, with their indexes, the views and the triggers, in a database of `size` pages. (As
/// `add_rows`, `check_keys` and `check_targets`.)
pub fn load_schema<P: Pages>(alloc: Global, pages: &mut P, size: u32) -> R<Catalog>
    ensures loaded { IsTrue (P.Pages.tells (P.Pages.below pages.old))
        → LoadsTree (P.Pages.map pages.old) (P.Pages.limits (P.Pages.below pages.old)).page size result }
    ensures told { IsTrue (P.Pages.tells (P.Pages.below pages.old))
        → TellsTree (P.Pages.map pages.old) (P.Pages.limits (P.Pages.below pages.old)).page size result }
    ensures stays { Stays P.Pages.below P.Pages.map P.Pages.count P.Pages.failures result pages.old pages.new }
{
    bytes_determine_values();
    triggers_are_created_as_defined();
    let mut catalog = Catalog::empty(alloc);
    add_rows(alloc, pages, &mut catalog, size, true)?;
    add_rows(alloc, pages, &mut catalog, size, false)?;
    check_keys(catalog.tables())?;
    check_targets(alloc, &catalog)?;
    Ok(catalog)
}
