//! Putting cells in the places of others that are as long.

ghost use Rattle.std.specs.Prelude.{◌≡◌, ◌+◌, ◌≤◌, length, map, IfErr, IfSome, IsFalse, IsTrue};
ghost use Rattle.tree_page.specs.Node.{Node, IsNode};
ghost use Rattle.tree_pack.specs.Replacing.{IsCellAt, IsPlaceOn, written_over};
ghost use Rattle.tree_pack.specs.Splicing.{SplicesOne};

use crate::placing::right_len;
use sqlval::{Fault, R};
use std::alloc::Global;
use tree_page::TreePage;

/// Where a cell of a page lies.
#[derive(Clone, Copy)]
pub(crate) struct CellPlace {
    /// Where the pointers of all cells begin.
    pub first: usize,
    /// Where its pointer stands.
    pub pointer: usize,
    /// Where the pointers of all cells end.
    pub last: usize,
    /// How many cells there are.
    pub count: usize,
    /// Where the cell begins.
    pub at: usize,
    /// Where it ends.
    pub end: usize,
}

/// Where the cell at a place of a page lies. None also for a page that says nothing, or has no such cell.
pub(crate) fn cell_at(page: &[u8], start: usize, place: usize) -> Option<CellPlace>
    ensures found { (node : Node) (is : IsNode page.now start node)
        → IfSome result (λ found. IsCellAt page.now start node is place found) }
    ensures on_page { IfSome result (IsPlaceOn start (length page.now)) }
{
    let Ok(tree) = TreePage::over(page, start) else {
        return None;
    };
    let count = tree.len();
    if page.len() < start || count > 65535 || place >= count {
        return None;
    }
    let Ok(cell) = tree.cell(place) else {
        return None;
    };
    let first = start + 8 + right_len(tree.kind());
    let pointer = first + 2 * place;
    let last = first + 2 * count;
    match page.get(pointer..last)? {
        [high, low, ..] => {
            let at = usize::from(u16::from_be_bytes([*high, *low]));
            let end = at + cell.len();
            Some(CellPlace {
                first,
                pointer,
                last,
                count,
                at,
                end,
            })
        }
        _ => None,
    }
}

/// Writes bytes over those of a page from an offset on. Answers `false` where it ends before: then nothing changes.
pub(crate) fn write_over(page: &mut Vec<u8>, at: usize, bytes: &[u8]) -> bool
    ensures fits { IsTrue result → at + length bytes.now ≤ length page.old.items }
    ensures written { IsTrue result → page.new.items ≡ written_over at bytes.now page.old.items }
    ensures same { IsFalse result → page.new ≡ page.old }
{
    if page.len() < at || page.len() - at < bytes.len() {
        return false;
    }
    page[at..at + bytes.len()].copy_from_slice(bytes);
    true
}

/// The page with these cells in the places of as many from one place on, where each is as long as the one before it; else None. No other byte
/// changes. (`Memory` alone.)
pub(crate) fn replace_cells(
    alloc: Global,
    page: &[u8],
    start: usize,
    from: usize,
    cells: &[&[u8]],
) -> R<Option<Vec<u8>>>
    ensures replaced { SplicesOne page.now start from (length cells.now) (map (λ cell. cell.now) cells.now) result }
    ensures refused { IfErr result (λ fault. fault ≡ Fault.Memory) }
{
    let mut out = page.to_vec(alloc)?;
    'cells: for index in 0..cells.len() {
        let cell = cells[index];
        let place = from.saturating_add(index);
        let Some(there) = cell_at(page, start, place) else {
            return Ok(None);
        };
        let size = there.end.saturating_sub(there.at);
        if size != cell.len() {
            return Ok(None);
        }
        if !write_over(&mut out, there.at, cell) {
            return Ok(None);
        }
    }
    Ok(Some(out))
}
