//! Taking a cell off a page without moving the others.

ghost use Rattle.std.specs.Prelude.{◌≡◌, ◌+◌, ◌≤◌, ◌<◌, ◌^◌, [], ◌∷◌, ◌++◌, length, IfErr, IfOk, IfSome};
ghost use Rattle.tree_pack.specs.Removing.{CutsAt, IsCutOn, without_pointer};
ghost use Rattle.tree_pack.specs.Splicing.{SplicesOne};

use crate::freeing::{Free, FreeblockHead, freed_by, header_of};
use crate::replacing::{CellPlace, cell_at, write_over};
use sqlval::{Fault, R};
use std::alloc::{AllocError, Global};

/// What is written on a page when a cell goes.
#[derive(Clone, Copy)]
pub struct CellCut {
    /// Where its pointer stands.
    pub pointer: usize,
    /// Where the pointers of all cells end.
    pub end: usize,
    /// The header's bytes but the first: the first freeblock, how many cells are left, where the first of them begins, and the fragments.
    pub header: [u8; 7],
    /// The freeblock that it becomes. None where it is room before the other cells, or joined to the freeblock before it.
    pub block: Option<FreeblockHead>,
    /// What the freeblock before it says then, if there is one: where the next one begins, or how long it is with the cell's bytes.
    pub before: Option<FreeblockHead>,
}

/// What is written on a page when the cell at a place goes. None where its bytes aren't to be told as free, and for the only cell of a page.
pub fn cut_for(page: &[u8], start: usize, place: usize) -> Option<CellCut>
    ensures on_page { IfSome result (IsCutOn page.now start) }
    ensures cut { CutsAt page.now start place result }
{
    let cell = cell_at(page, start, place)?;
    if cell.count < 2 || cell.at < cell.last || page.len() < cell.end {
        return None;
    }
    let freed = freed_by(page, start, cell)?;
    Some(CellCut {
        pointer: cell.pointer,
        end: cell.last,
        header: header_of((cell.count - 1) as u16, freed.free),
        block: freed.block,
        before: freed.before,
    })
}

/// The page without a pointer, with `count` cells counted, and this said of its free bytes. (`Memory` alone.)
fn write(
    alloc: Global,
    page: &[u8],
    start: usize,
    cell: CellPlace,
    count: u16,
    free: Free,
) -> Result<Vec<u8>, AllocError>
    requires behind { start + 8 ≤ cell.pointer }
    requires before { cell.pointer + 2 ≤ cell.last }
    requires within { cell.last ≤ length page.now }
    ensures { IfOk result (λ written. written.items ≡ without_pointer page.now start cell.pointer cell.last count free) }
{
    let mut out = Vec::with_capacity(alloc, page.len())?;
    out.extend_from_slice(&page[..start + 1])?;
    out.extend_from_slice(&free.first.to_be_bytes())?;
    out.extend_from_slice(&count.to_be_bytes())?;
    out.extend_from_slice(&free.content.to_be_bytes())?;
    out.push(free.fragments)?;
    out.extend_from_slice(&page[start + 8..cell.pointer])?;
    out.extend_from_slice(&page[cell.pointer + 2..cell.last])?;
    out.extend_from_slice(&[0, 0])?;
    out.extend_from_slice(&page[cell.last..])?;
    Ok(out)
}

/// The page without the cell at a place. None where its bytes aren't to be told as free, and for the only cell of a page. (`Memory` alone.)
pub(crate) fn remove_cell(
    alloc: Global,
    page: &[u8],
    start: usize,
    place: usize,
) -> R<Option<Vec<u8>>>
    ensures removed { SplicesOne page.now start place 1 [] result }
    ensures refused { IfErr result (λ fault. fault ≡ Fault.Memory) }
{
    let Some(cell) = cell_at(page, start, place) else {
        return Ok(None);
    };
    if cell.count < 2 || page.len() < cell.end {
        return Ok(None);
    }
    let Some(freed) = freed_by(page, start, cell) else {
        return Ok(None);
    };
    if freed.before.is_some() {
        return Ok(None);
    }
    let count = (cell.count - 1) as u16;
    let mut out = write(alloc, page, start, cell, count, freed.free)?;
    let Some(head) = freed.block else {
        return Ok(Some(out));
    };
    if !write_over(&mut out, head.at, &head.bytes) {
        return Ok(None);
    }
    Ok(Some(out))
}
