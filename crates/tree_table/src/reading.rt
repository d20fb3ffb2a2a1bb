//! Reading the rows of a leaf.

ghost use Rattle.std.specs.Prelude.{◌≡◌, ◌<◌, ℤ, Ok, IsTrue, IfErr, IsOkAnd, OnOk, List, length, map, slice_index_or};
ghost use Rattle.sqlval.specs.Faults.{IsNotDiskFault};
ghost use Rattle.pages.specs.Calls.{Stays};
ghost use Rattle.pages.specs.Counting as counting;
ghost use Rattle.pages.specs.Map.{page_at};
ghost use Rattle.tree_page.specs.Node.{Local as LocalIs, Rows, IsNode};
ghost use Rattle.tree_page.specs.Reading.{Answers, row_of};
ghost use Rattle.tree_table.specs.Ways.{IsRowAt, CountsRows, FindsLastRow, FindsRowid, ReadsRow, last_of_numbers};

use crate::leaf::{at_page, start_of};
use pages::Pages;
use sqlval::R;
use tree_overflow::read_payload;
use tree_page::{Row, TreePage};

/// The row at a place of a leaf of these bytes. (`Damaged` for one that is no page of a tree, or has no such row.)
pub(crate) fn row_in(bytes: &[u8], leaf: u32, place: usize) -> R<Row<'_>>
    ensures only { (rows : List (ℤ × LocalIs)) (d : ℤ × LocalIs)
        → IsNode bytes.now (counting.start_of leaf) (Rows rows)
        → place < length rows
        → Answers row_of result (slice_index_or rows place d) }
    ensures not_disk { IfErr result IsNotDiskFault }
{
    TreePage::over(bytes, start_of(leaf))?.row(place)
}

/// How many rows the leaf of these bytes has. (`Damaged` for one that is no page of a tree.)
fn count_in(bytes: &[u8], leaf: u32) -> R<usize>
    ensures only { (rows : List (ℤ × LocalIs))
        → IsNode bytes.now (counting.start_of leaf) (Rows rows) → result ≡ Ok (length rows) }
    ensures not_disk { IfErr result IsNotDiskFault }
{
    Ok(TreePage::over(bytes, start_of(leaf))?.len())
}

/// The rowid of the last row of the leaf of these bytes, if it has rows. (`Damaged` for one that is no page of a tree.)
fn last_in(bytes: &[u8], leaf: u32) -> R<Option<i64>>
    ensures only { (rows : List (ℤ × LocalIs))
        → IsNode bytes.now (counting.start_of leaf) (Rows rows)
        → result ≡ Ok (last_of_numbers (map (λ row. row.0) rows)) }
    ensures not_disk { IfErr result IsNotDiskFault }
{
    let page = TreePage::over(bytes, start_of(leaf))?;
    let len = page.len();
    if len == 0 {
        return Ok(None);
    }
    Ok(Some(page.row(len - 1)?.rowid))
}

/// Whether the row at a place of a leaf of these bytes has this rowid. (`Damaged` for one that is no page of a tree.)
fn is_row_in(bytes: &[u8], leaf: u32, place: usize, rowid: i64) -> R<bool>
    ensures only { (rows : List (ℤ × LocalIs))
        → IsNode bytes.now (counting.start_of leaf) (Rows rows)
        → IsOkAnd result (IsRowAt (map (λ row. row.0) rows) place rowid) }
    ensures not_disk { IfErr result IsNotDiskFault }
{
    let page = TreePage::over(bytes, start_of(leaf))?;
    if place >= page.len() {
        return Ok(false);
    }
    Ok(page.row(place)?.rowid == rowid)
}

/// How many rows a leaf has. (What `load` refuses; `Damaged` for one that is no page of a tree.)
pub fn count_rows<P: Pages>(pages: &mut P, leaf: u32) -> R<usize>
    ensures counted { IsTrue (P.Pages.tells (P.Pages.below pages.old))
        → CountsRows (P.Pages.map pages.old) (P.Pages.limits (P.Pages.below pages.old)).page leaf result }
    // The leaf is loaded then.
    ensures held { IsTrue (P.Pages.tells (P.Pages.below pages.old))
        → OnOk result (P.Pages.held pages.new ≡ page_at (P.Pages.map pages.old) leaf) }
    ensures stays { Stays P.Pages.below P.Pages.map P.Pages.count P.Pages.failures result pages.old pages.new }
{
    pages.load(leaf)?;
    match count_in(pages.loaded(), leaf) {
        Ok(count) => Ok(count),
        Err(fault) => Err(at_page(fault, leaf)),
    }
}

/// The rowid of the last row of a leaf, if it has rows. (What `load` refuses; `Damaged` for one that is no page of a tree.)
pub fn last_row<P: Pages>(pages: &mut P, leaf: u32) -> R<Option<i64>>
    ensures found { IsTrue (P.Pages.tells (P.Pages.below pages.old))
        → FindsLastRow (P.Pages.map pages.old) (P.Pages.limits (P.Pages.below pages.old)).page leaf result }
    ensures stays { Stays P.Pages.below P.Pages.map P.Pages.count P.Pages.failures result pages.old pages.new }
{
    pages.load(leaf)?;
    match last_in(pages.loaded(), leaf) {
        Ok(last) => Ok(last),
        Err(fault) => Err(at_page(fault, leaf)),
    }
}

/// Whether the row at a place of a leaf that was loaded last has this rowid. (`Damaged` for one that is no page of a tree.)
pub fn is_row_at<P: Pages>(pages: &P, leaf: u32, place: usize, rowid: i64) -> R<bool>
    ensures found { IsTrue (P.Pages.tells (P.Pages.below pages.now))
        → P.Pages.held pages.now ≡ page_at (P.Pages.map pages.now) leaf
        → FindsRowid (P.Pages.map pages.now) (P.Pages.limits (P.Pages.below pages.now)).page leaf
        place rowid result }
    ensures not_disk { IfErr result IsNotDiskFault }
{
    match is_row_in(pages.loaded(), leaf, place, rowid) {
        Ok(there) => Ok(there),
        Err(fault) => Err(at_page(fault, leaf)),
    }
}

/// Puts the payload of the row at a place of a leaf behind what `out` has, and answers the rowid. (What `load` and
/// `read_payload` refuse; `Damaged` for a page that has no such row.)
pub fn read_row<P: Pages>(pages: &mut P, leaf: u32, place: usize, out: &mut Vec<u8>) -> R<i64>
    ensures read { IsTrue (P.Pages.tells (P.Pages.below pages.old))
        → ReadsRow (P.Pages.map pages.old) (P.Pages.limits (P.Pages.below pages.old)).page leaf
        place out.old.items out.new.items result }
    ensures stays { Stays P.Pages.below P.Pages.map P.Pages.count P.Pages.failures result pages.old pages.new }
{
    pages.load(leaf)?;
    let most = pages.page_size().saturating_sub(35);
    let row = match row_in(pages.loaded(), leaf, place) {
        Ok(row) => row,
        Err(fault) => return Err(at_page(fault, leaf)),
    };
    let rowid = row.rowid;
    let size = row.payload.size;
    if size <= most as u64 {
        out.extend_from_slice(row.payload.bytes)?;
        return Ok(rowid);
    }
    // The chain is read through the same pages, which lend these bytes.
    let held = row.payload.bytes.to_vec(*out.allocator())?;
    read_payload(pages, held.as_slice(), size, most, out)?;
    Ok(rowid)
}

/// Like `read_row`, with the leaf loaded afterwards.
pub fn read_long_row<P: Pages>(pages: &mut P, leaf: u32, place: usize, out: &mut Vec<u8>) -> R<i64>
    ensures read { IsTrue (P.Pages.tells (P.Pages.below pages.old))
        → ReadsRow (P.Pages.map pages.old) (P.Pages.limits (P.Pages.below pages.old)).page leaf
        place out.old.items out.new.items result }
    ensures held { IsTrue (P.Pages.tells (P.Pages.below pages.old))
        → OnOk result (P.Pages.held pages.new ≡ page_at (P.Pages.map pages.old) leaf) }
    ensures stays { Stays P.Pages.below P.Pages.map P.Pages.count P.Pages.failures result pages.old pages.new }
{
    let rowid = read_row(pages, leaf, place, out)?;
    pages.load(leaf)?;
    Ok(rowid)
}

/// Like `read_row`, of a leaf that was loaded last, as it is afterwards too: only a row with a chain loads pages.
pub fn read_next_row<P: Pages>(pages: &mut P, leaf: u32, place: usize, out: &mut Vec<u8>) -> R<i64>
    ensures read { IsTrue (P.Pages.tells (P.Pages.below pages.old))
        → P.Pages.held pages.old ≡ page_at (P.Pages.map pages.old) leaf
        → ReadsRow (P.Pages.map pages.old) (P.Pages.limits (P.Pages.below pages.old)).page leaf
        place out.old.items out.new.items result }
    ensures held { IsTrue (P.Pages.tells (P.Pages.below pages.old))
        → P.Pages.held pages.old ≡ page_at (P.Pages.map pages.old) leaf
        → OnOk result (P.Pages.held pages.new ≡ page_at (P.Pages.map pages.old) leaf) }
    ensures stays { Stays P.Pages.below P.Pages.map P.Pages.count P.Pages.failures result pages.old pages.new }
{
    let most = pages.page_size().saturating_sub(35);
    let row = match row_in(pages.loaded(), leaf, place) {
        Ok(row) => row,
        Err(fault) => return Err(at_page(fault, leaf)),
    };
    if row.payload.size > most as u64 {
        return read_long_row(pages, leaf, place, out);
    }
    let rowid = row.rowid;
    out.extend_from_slice(row.payload.bytes)?;
    Ok(rowid)
}
