//! The rows of a table that are read for a condition, and the row of a rowid.

ghost use Rattle.std.specs.Prelude.{◌≡◌, IsTrue};
ghost use Rattle.pages.specs.Calls.{Stays};
ghost use Rattle.catalog.specs.Listed.{shape_of};
ghost use Rattle.db_write.specs.Reading.{FindsOneRow, LoadsEnough};

use catalog::Table;
use pages::Pages;
use query_names::BoundSource;
use query_plan::other_rows_fail;
use query_terms::{SourceRow, Term};
use row_scan::source_rows_at;
use row_search::needed_rows;
use sqlval::{Many, R};
use std::alloc::Global;

/// A table as a query's source.
pub(crate) fn source_of(table: &Table) -> BoundSource
    ensures root { result.root ≡ table.now.root }
    ensures shape { result.shape ≡ shape_of table.now }
{
    BoundSource {
        root: table.root,
        shape: table.shape(),
    }
}

/// Rows of a table that are enough for a condition, or all where there is none. (What `needed_rows` refuses.)
pub(crate) fn enough_rows<P: Pages>(
    alloc: Global,
    pages: &mut P,
    table: &Table,
    condition: &Option<Term>,
) -> R<Many<SourceRow>>
    ensures loaded { IsTrue (P.Pages.tells (P.Pages.below pages.old))
        → LoadsEnough (P.Pages.map pages.old)
        (P.Pages.limits (P.Pages.below pages.old)).page table.now condition.now result }
    ensures stays { Stays P.Pages.below P.Pages.map P.Pages.count P.Pages.failures result pages.old pages.new }
{
    other_rows_fail();
    let source = source_of(table);
    needed_rows(alloc, pages, source, table.indexes.as_slice(), condition)
}

/// The row of a rowid of a table, as the only row of a source, or none where there is none. (What `source_rows_at` refuses.)
pub fn row_at<P: Pages>(
    alloc: Global,
    pages: &mut P,
    table: &Table,
    rowid: i64,
) -> R<Many<SourceRow>>
    ensures found { IsTrue (P.Pages.tells (P.Pages.below pages.old))
        → FindsOneRow (P.Pages.map pages.old)
        (P.Pages.limits (P.Pages.below pages.old)).page table.now rowid result }
    ensures stays { Stays P.Pages.below P.Pages.map P.Pages.count P.Pages.failures result pages.old pages.new }
{
    source_rows_at(alloc, pages, source_of(table), rowid)
}
