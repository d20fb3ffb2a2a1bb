//! The rows of a table that have these rowids.

ghost use Rattle.std.specs.Prelude.{IsTrue};
ghost use Rattle.pages.specs.Calls.{Stays};
ghost use Rattle.row_search.specs.Loading.{AddsRowsAt, LoadsRowsOf};

use pages::Pages;
use query_names::BoundSource;
use query_terms::SourceRow;
use row_scan::source_rows_at;
use sqlval::{Many, R};
use std::alloc::Global;

/// Puts the row of a rowid after others, if there is one. (What `source_rows_at` refuses.)
fn add_row<P: Pages>(
    alloc: Global,
    pages: &mut P,
    table: BoundSource,
    rowid: i64,
    rows: &mut Vec<SourceRow>,
) -> R<()>
    ensures added { IsTrue (P.Pages.tells (P.Pages.below pages.old))
        → AddsRowsAt (P.Pages.map pages.old) (P.Pages.limits (P.Pages.below pages.old)).page table
        rowid rows.old.items rows.new.items result }
    ensures stays { Stays P.Pages.below P.Pages.map P.Pages.count P.Pages.failures result pages.old pages.new }
{
    let found = source_rows_at(alloc, pages, table, rowid)?;
    let mut items = found.into_vec();
    rows.append(&mut items)?;
    Ok(())
}

/// The rows of a table that have these rowids, in the order of the rowids. (What `source_rows_at` refuses.)
pub(crate) fn rows_of<P: Pages>(
    alloc: Global,
    pages: &mut P,
    table: BoundSource,
    rowids: &[i64],
) -> R<Many<SourceRow>>
    ensures loaded { IsTrue (P.Pages.tells (P.Pages.below pages.old))
        → LoadsRowsOf (P.Pages.map pages.old)
        (P.Pages.limits (P.Pages.below pages.old)).page table rowids.now result }
    ensures stays { Stays P.Pages.below P.Pages.map P.Pages.count P.Pages.failures result pages.old pages.new }
{
    let mut rows = Vec::with_capacity(alloc, rowids.len())?;
    'rowids: for rowid in rowids {
        add_row(alloc, pages, table, *rowid, &mut rows)?;
    }
    Ok(Many::from_vec(rows))
}
