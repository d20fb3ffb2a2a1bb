//! Writing a table leaf.

ghost use Rattle.std.specs.Prelude.{◌≡◌, ◌≤◌, ◌<◌, ◌+◌, ◌++◌, ◌*◌, ◌⊎◌, ◌^◌, ◌-◌, [], ◌∷◌, length, map, reverse, sum_by, IfOk, IfErr, OnOk};
ghost use Rattle.std.specs.List.{AllByRecursion, flat_map};
ghost use Rattle.tree_leaf.specs.Leaf.{entry_of, leaf_header, IsTableLeaf};
ghost use Rattle.tree_page.specs.Cells.{pointer};
ghost use Rattle.tree_leaf.specs.Writing.{Fits, IsNumbered, cell_size, cell_text, content_of, content_bytes, spans_below, leaf_of};

use crate::cell::{Cell, is_local};
use record::{put_varint, varint_len};
use sqlval::{Fault, R};
use std::alloc::{AllocError, Global};

/// The bytes that a cell takes.
#[tactic(auto, unfolding(crate::specs::Writing::cell_size))]
fn cell_len(cell: &Cell<'_>) -> usize
    requires { length cell.now.payload.now ≤ 65536 }
    ensures size { result ≡ cell_size (entry_of cell.now) }
    ensures low { 2 ≤ result }
    ensures high { result ≤ 65554 }
    ensures numbered { IsNumbered (entry_of cell.now) }
{
    varint_len(cell.payload.len() as u64)
        + varint_len(cell.rowid.cast_unsigned())
        + cell.payload.len()
}

/// Writes a cell at the end.
#[tactic(auto, unfolding(crate::specs::Writing::cell_text))]
fn put_cell(out: &mut Vec<u8>, cell: &Cell<'_>) -> Result<(), AllocError>
    ensures { OnOk result (out.new.items ≡ out.old.items ++ cell_text (entry_of cell.now)) }
{
    put_varint(out, cell.payload.len() as u64)?;
    put_varint(out, cell.rowid.cast_unsigned())?;
    out.extend_from_slice(cell.payload)?;
    Ok(())
}

/// Where the last cell begins on an empty page, where all cells fit.
#[tactic(auto, unfolding(crate::specs::Writing::content_of, crate::specs::Writing::is_whole))]
fn content_start(page_size: usize, start: usize, cells: &[Cell<'_>]) -> Option<usize>
    ensures { result ≡ content_of page_size start (map entry_of cells.now) }
{
    if page_size > 65536 || page_size < 8 || page_size - 8 < start {
        return None;
    }
    let mut room = page_size - 8 - start;
    let mut content = page_size;
    let mut left = cells;
    'cells: while let [cell, after @ ..] = left {
        if !is_local(page_size, cell.payload.len()) {
            return None;
        }
        let size = cell_len(cell);
        if room < size + 2 {
            return None;
        }
        room -= size + 2;
        content -= size;
        left = after;
    }
    Some(content)
}

/// Writes the pointers to cells of which the first ends at `end` and each next one ends where the one before begins.
fn put_pointers(out: &mut Vec<u8>, end: usize, cells: &[Cell<'_>]) -> Result<(), AllocError>
    requires room { sum_by cell_size (map entry_of cells.now) ≤ end }
    requires addressed { end ≤ 65536 }
    ensures pointers { OnOk result (out.new.items ≡ out.old.items ++ flat_map pointer
        (spans_below end (map entry_of cells.now))) }
    ensures numbered { OnOk result (AllByRecursion IsNumbered (map entry_of cells.now)) }
{
    let mut offset = end;
    let mut left = cells;
    'cells: while let [cell, after @ ..] = left {
        offset -= cell_len(cell);
        out.extend_from_slice(&(offset as u16).to_be_bytes())?;
        left = after;
    }
    Ok(())
}

/// Writes the header of a leaf with `count` cells, of which the last begins at `content`.
fn put_header(out: &mut Vec<u8>, count: usize, content: usize) -> Result<(), AllocError>
    requires { count < 2 ^ 16 }
    ensures { OnOk result (out.new.items ≡ out.old.items ++ leaf_header (0 ∷ 0 ∷ []) count
        (content_bytes content) 0) }
{
    let [high, low] = (count as u16).to_be_bytes();
    let [content_high, content_low] = ((content % 65536) as u16).to_be_bytes();
    out.extend_from_slice(&[13, 0, 0, high, low, content_high, content_low, 0])
}

/// Writes the cells, the last one first.
fn put_cells(out: &mut Vec<u8>, cells: &[Cell<'_>]) -> Result<(), AllocError>
    ensures { OnOk result (out.new.items ≡ out.old.items ++ flat_map cell_text
        (reverse (map entry_of cells.now))) }
{
    let mut left = cells;
    'cells: while let Some(cell) = left.last() {
        put_cell(out, cell)?;
        left = &left[..left.len() - 1];
    }
    Ok(())
}

/// The bytes of the page.
#[tactic(auto, unfolding(crate::specs::Writing::leaf_of))]
fn write(
    alloc: Global,
    front: &[u8],
    page_size: usize,
    content: usize,
    cells: &[Cell<'_>],
) -> Result<Vec<u8>, AllocError>
    requires fits { Fits page_size (length front.now) (map entry_of cells.now) }
    requires content { content ≡ page_size - sum_by cell_size (map entry_of cells.now) }
    ensures exact { IfOk result (λ page. page.items ≡ leaf_of front.now page_size (map entry_of cells.now)) }
    ensures numbered { OnOk result (AllByRecursion IsNumbered (map entry_of cells.now)) }
{
    let mut out = Vec::with_capacity(alloc, page_size)?;
    out.extend_from_slice(front)?;
    put_header(&mut out, cells.len(), content)?;
    put_pointers(&mut out, page_size, cells)?;
    out.resize(content, 0)?;
    put_cells(&mut out, cells)?;
    Ok(out)
}

/// The page with these cells: `front`, which stands before its header, the header, the pointers, zeros, and the cells
/// from the page's end downwards. Where they don't fit, the answer is `Fault::TooLong`.
pub fn build(alloc: Global, front: &[u8], page_size: usize, cells: &[Cell<'_>]) -> R<Vec<u8>>
    // The page is a table leaf of the cells, of the page's size,
    ensures is { IfOk result (λ page. IsTableLeaf page.items (length front.now) (map entry_of cells.now)
        × (length page.items ≡ page_size)) }
    // byte for byte.
    ensures exact { IfOk result (λ page. page.items ≡ leaf_of front.now page_size (map entry_of cells.now)) }
    ensures fits { OnOk result (Fits page_size (length front.now) (map entry_of cells.now)) }
    ensures refused { IfErr result (λ fault. (fault ≡ Fault.Memory)
        ⊎ ((fault ≡ Fault.TooLong) × (Fits page_size (length front.now) (map entry_of cells.now)
        → ⊥))) }
{
    let Some(content) = content_start(page_size, front.len(), cells) else {
        return Err(Fault::TooLong);
    };
    Ok(write(alloc, front, page_size, content, cells)?)
}
