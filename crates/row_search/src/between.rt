//! The rows of a table whose rowids are from one to another.

ghost use Rattle.std.specs.Prelude.{◌≡◌, IsTrue, filter};
ghost use Rattle.pages.specs.Calls.{Stays};
ghost use Rattle.row_search.specs.Between as between;
ghost use Rattle.row_search.specs.Between.{LoadsBetween};

use pages::Pages;
use query_names::BoundSource;
use query_terms::SourceRow;
use row_scan::{next_source_rows, rows_are_held};
use sqlval::{Many, R};
use std::alloc::Global;
use tree_table::{Batch, Cursor};

/// Whether a row up to a rowid may come from a place on.
fn comes_upto(next: Option<i64>, high: i64) -> bool
    ensures { result ≡ between.comes_upto next high }
{
    match next {
        Some(next) => next <= high,
        None => false,
    }
}

/// Whether a row has a rowid, and none after this one.
fn is_upto(row: &SourceRow, high: i64) -> bool
    ensures { result ≡ between.is_upto high row.now }
{
    match row.rowid() {
        Some(rowid) => rowid <= high,
        None => false,
    }
}

/// Lets go of the rows after a rowid.
fn cut_off(rows: &mut Vec<SourceRow>, high: i64)
    ensures { rows.new.items ≡ filter (between.is_upto high) rows.old.items }
{
    rows.retain(|row| is_upto(row, high));
}

/// The rows of a table whose rowids are from one to another, both among them, by rising rowid. Where the first is after the second nothing
/// is read. (What `next_source_rows` refuses; `Memory`.)
pub(crate) fn rows_between<P: Pages>(
    alloc: Global,
    pages: &mut P,
    table: BoundSource,
    low: i64,
    high: i64,
) -> R<Many<SourceRow>>
    ensures loaded { IsTrue (P.Pages.tells (P.Pages.below pages.old))
        → LoadsBetween (P.Pages.map pages.old)
        (P.Pages.limits (P.Pages.below pages.old)).page table low high result }
    ensures stays { Stays P.Pages.below P.Pages.map P.Pages.count P.Pages.failures result pages.old pages.new }
{
    rows_are_held();
    let mut rows = Vec::new(alloc);
    let mut batch = Batch::new(alloc);
    let mut cursor = Cursor {
        root: table.root,
        next: Some(low),
    };
    'leaves: while comes_upto(cursor.next, high) {
        let own = table.shape.own;
        let others = Many::new(alloc);
        let found = next_source_rows(alloc, pages, &mut cursor, &mut batch, own, others)?;
        let mut items = found.into_vec();
        rows.append(&mut items)?;
    }
    cut_off(&mut rows, high);
    Ok(Many::from_vec(rows))
}
