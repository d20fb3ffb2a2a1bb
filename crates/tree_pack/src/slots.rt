//! Freeblocks that have room for a cell.

ghost use Rattle.std.specs.Prelude.{◌≡◌, ◌++◌, ◌+◌, ◌-◌, ◌≤◌, length, IfSome, IsTrue};
ghost use Rattle.std.specs.Int.{w16, to_be_bytes};
ghost use Rattle.tree_page.specs.Node.{Node, IsNode};
ghost use Rattle.tree_pack.specs.Freeing.{AreClear, ArePointers};
ghost use Rattle.tree_pack.specs.Slots.{IsHeadAt, IsHeadClear, IsHeadWithin, IsSlot, IsSlotAt, IsSlotClear};

use crate::freeing::{Free, FreeblockHead, Pointers, are_clear, block_at, block_bytes};

/// Where the bytes of a new cell come, and what the page says of its free bytes then.
#[derive(Clone, Copy)]
pub(crate) struct Slot {
    /// Where the cell begins.
    pub at: u16,
    /// What the header says.
    pub free: Free,
    /// The freeblock that is written anew, if one is.
    pub head: Option<FreeblockHead>,
}

/// A freeblock: where the one before it on the list begins, or 0 for the first; where it begins and ends; and where the next one begins, or 0.
#[derive(Clone, Copy)]
struct Listed {
    before: u16,
    at: u16,
    end: u16,
    next: u16,
}

/// The first freeblock that has so many bytes, of those from this one on. None where one begins before the one before it ends.
fn first_with(page: &[u8], first: u16, size: u16) -> Option<Listed> {
    let mut before = 0;
    let mut at = first;
    'blocks: for _ in 0..page.len() / 4 {
        let block = block_at(page, at)?;
        let end = u16::try_from(block.end).ok()?;
        let next = block.next;
        if size <= end.saturating_sub(at) {
            return Some(Listed {
                before,
                at,
                end,
                next,
            });
        }
        if next < end {
            return None;
        }
        before = at;
        at = next;
    }
    None
}

/// Whether the bytes from one offset up to another lie on the page, behind the pointers and one pointer more, and no cell has one of them.
fn are_free(page: &[u8], start: usize, pointers: Pointers, at: u16, end: u16) -> bool
    ensures behind { IsTrue result → pointers.last + 2 ≤ at }
    ensures within { IsTrue result → end ≤ length page.now }
    ensures clear { IsTrue result → (node : Node) (is : IsNode page.now start node) → ArePointers is pointers
        → AreClear at end is.page_is.spans }
{
    if usize::from(at).saturating_sub(pointers.last) < 2 || page.len() < usize::from(end) {
        return false;
    }
    are_clear(page, start, pointers, at, end)
}

/// The first bytes of a freeblock that goes on to this one.
fn head_before(page: &[u8], at: u16, next: u16) -> Option<FreeblockHead>
    ensures { IfSome result (IsHeadAt at) }
{
    let [high, low] = next.to_be_bytes();
    match page.get(usize::from(at)..)? {
        [_, _, size_high, size_low, ..] => Some(FreeblockHead {
            at: usize::from(at),
            bytes: [high, low, *size_high, *size_low],
        }),
        _ => None,
    }
}

/// The first bytes of the freeblock before another, which goes on to the one after. None where a cell has one of them, or the other one.
fn passing_by(page: &[u8], start: usize, pointers: Pointers, block: Listed) -> Option<FreeblockHead>
    ensures head { IfSome result (IsHeadWithin (pointers.last + 2) block.at) }
    ensures clear { (node : Node) (is : IsNode page.now start node) → ArePointers is pointers → IfSome result (IsHeadClear is) }
{
    let end = block.before.checked_add(4)?;
    if block.at < end || !are_free(page, start, pointers, block.before, end) {
        return None;
    }
    head_before(page, block.before, block.next)
}

/// What the header says with so many bytes of fragments more. None where a page may not have so many.
fn with_fragments(free: Free, more: u16) -> Option<Free>
    ensures few { IfSome result (λ free. free.fragments ≤ 60) }
{
    let fragments = free.fragments.checked_add(u8::try_from(more).ok()?)?;
    if fragments > 60 {
        return None;
    }
    Some(Free { fragments, ..free })
}

/// Where the cell comes when the freeblock leaves the list: its bytes before the cell are fragments.
fn unlisted(
    page: &[u8],
    start: usize,
    pointers: Pointers,
    block: Listed,
    at: u16,
    free: Free,
) -> Option<Slot>
    ensures slot { IfSome result (IsSlotAt at (IsHeadWithin (pointers.last + 2) block.at)) }
    ensures clear { (node : Node) (is : IsNode page.now start node) → ArePointers is pointers
        → IfSome result (λ slot. IfSome slot.head (IsHeadClear is)) }
{
    let free = with_fragments(free, at.checked_sub(block.at)?)?;
    if block.before == 0 {
        let free = Free {
            first: block.next,
            ..free
        };
        return Some(Slot {
            at,
            free,
            head: None,
        });
    }
    let head = passing_by(page, start, pointers, block)?;
    Some(Slot {
        at,
        free,
        head: Some(head),
    })
}

/// Where the cell comes when the freeblock keeps its beginning, up to the cell.
fn shortened(block: Listed, at: u16, free: Free) -> Option<Slot>
    ensures slot { IfSome result (IsSlotAt at (IsHeadAt block.at)) }
    ensures bytes { IfSome result (λ slot. IfSome slot.head (λ head.
        head.bytes ≡ to_be_bytes w16 block.next ++ to_be_bytes w16 (at - block.at))) }
{
    let size = at.checked_sub(block.at)?;
    Some(Slot {
        at,
        free,
        head: Some(FreeblockHead {
            at: usize::from(block.at),
            bytes: block_bytes(block.next, size),
        }),
    })
}

/// Where a cell of so many bytes comes in a freeblock, at its end. None where no freeblock has so many, or the list isn't one of free bytes.
pub(crate) fn in_freeblock(
    page: &[u8],
    start: usize,
    pointers: Pointers,
    size: u16,
    free: Free,
) -> Option<Slot>
    ensures slot { IfSome result (IsSlot page.now size pointers.last) }
    ensures clear { (node : Node) (is : IsNode page.now start node) → ArePointers is pointers → IfSome result (IsSlotClear is size) }
{
    if free.first == 0 || usize::from(free.content).saturating_sub(pointers.last) < 2 {
        return None;
    }
    let block = first_with(page, free.first, size)?;
    let at = block.end.checked_sub(size)?;
    if at < block.at || !are_free(page, start, pointers, block.at, block.end) {
        return None;
    }
    if at - block.at < 4 {
        unlisted(page, start, pointers, block, at, free)
    } else {
        shortened(block, at, free)
    }
}
