//! The check of the rows of a table's tree.

ghost use Rattle.std.specs.Prelude.{◌≡◌, List, IsTrue, IfErr, Ok, OnOk};
ghost use Rattle.sqlval.specs.Faults.{IsNotDiskFault};
ghost use Rattle.pages.specs.Calls.{Stays};
ghost use Rattle.record.specs.Writing.{IsBytes};
ghost use Rattle.tree_page.specs.Cells.{Pairwise};
ghost use Rattle.tree_table.specs.Scanning.{entry_in};
ghost use Rattle.row_scan.specs.Rows.{TableRow};
ghost use Rattle.row_scan.specs.Trees.{FindsFit, IsFitRow, PassesFit};

use catalog::RowShape;
use pages::Pages;
use query_names::BoundSource;
use record::check_record;
use sqlval::R;
use std::alloc::Global;
use tree_table::{Batch, BatchEntry, Cursor};

/// The items of a slice of bytes are bytes.
fn bytes_are_bytes(bytes: &[u8])
    ensures { IsBytes bytes.now }
{
    let _len = bytes.len();
}

/// Checks that a row of a batch is one of a shape that a table may hold. (What `check_record` refuses.)
fn check_row(row: BatchEntry<'_>, shape: RowShape) -> R<()>
    ensures found { OnOk result ((read : TableRow) × IsFitRow shape (entry_in row.entry) read) }
    ensures only { (read : TableRow) → IsFitRow shape (entry_in row.entry) read → result ≡ Ok tt }
    ensures not_disk { IfErr result (λ fault. IsNotDiskFault fault) }
{
    bytes_are_bytes(row.payload);
    check_record(row.payload, shape.width, shape.own)
}

/// Checks each row of a batch. (As `check_row`.)
fn check_batch(batch: &Batch, shape: RowShape) -> R<()>
    ensures found { OnOk result ((rows : List TableRow)
        × Pairwise (IsFitRow shape) batch.now rows) }
    ensures only { (rows : List TableRow) → Pairwise (IsFitRow shape) batch.now rows
        → result ≡ Ok tt }
    ensures not_disk { IfErr result (λ fault. IsNotDiskFault fault) }
{
    'rows: for index in 0..batch.len() {
        check_row(batch.row(index), shape)?;
    }
    Ok(())
}

/// Checks that the rows of a tree are such as a table whose rows have this shape may hold. (What `Cursor::next_batch` and `check_row`
/// refuse.)
pub fn check_tree_rows<P: Pages>(alloc: Global, pages: &mut P, table: BoundSource) -> R<()>
    ensures found { IsTrue (P.Pages.tells (P.Pages.below pages.old))
        → FindsFit (P.Pages.map pages.old) (P.Pages.limits (P.Pages.below pages.old)).page
        table.root table.shape result }
    ensures only { IsTrue (P.Pages.tells (P.Pages.below pages.old))
        → PassesFit (P.Pages.map pages.old) (P.Pages.limits (P.Pages.below pages.old)).page
        table.root table.shape result }
    ensures stays { Stays P.Pages.below P.Pages.map P.Pages.count P.Pages.failures result pages.old pages.new }
{
    let mut batch = Batch::new(alloc);
    let mut cursor = Cursor::new(table.root);
    'batches: while cursor.next.is_some() {
        cursor.next_batch(pages, &mut batch)?;
        check_batch(&batch, table.shape)?;
    }
    Ok(())
}
