//! Bytes of a page that become free: where its freeblocks lie, and what they say then.

ghost use Rattle.std.specs.Prelude.{◌≡◌, ◌+◌, ◌-◌, ◌≤◌, ℕ, [], ◌∷◌, ◌++◌, length, IfSome, IsTrue, None};
ghost use Rattle.std.specs.Int.{w16, to_be_bytes};
ghost use Rattle.tree_page.specs.Node.{Node, IsNode};
ghost use Rattle.tree_pack.specs.Freeing as meant;
ghost use Rattle.tree_pack.specs.Freeing.{AreClear, ArePointers, EndsBefore, IsBeforeClear, IsFreed, IsFreedBehind, IsOwn, greatest_in};
ghost use Rattle.tree_pack.specs.Replacing.{IsCellAt};

use crate::placing::first_pointer;
use crate::replacing::{CellPlace, cell_at};

/// A freeblock: where it ends, and where the next one begins, or 0.
#[derive(Clone, Copy)]
pub(crate) struct Block {
    pub end: usize,
    pub next: u16,
}

/// Where the pointers of all cells begin, and where they end.
#[derive(Clone, Copy)]
pub(crate) struct Pointers {
    pub first: usize,
    pub last: usize,
}

/// What a page says of its free bytes: where the first freeblock begins, or 0, and the first of the cells; and how many bytes are fragments.
#[derive(Clone, Copy)]
pub(crate) struct Free {
    pub first: u16,
    pub content: u16,
    pub fragments: u8,
}

/// The first four bytes of a freeblock, where the next one begins and its size; and where it begins.
#[derive(Clone, Copy)]
pub struct FreeblockHead {
    pub at: usize,
    pub bytes: [u8; 4],
}

/// What a page says of its free bytes when a cell has gone.
#[derive(Clone, Copy)]
pub(crate) struct Freed {
    /// What the header says.
    pub free: Free,
    /// The freeblock that the cell becomes, if it becomes one of its own.
    pub block: Option<FreeblockHead>,
    /// The freeblock before it, if there is one.
    pub before: Option<FreeblockHead>,
}

/// What the header says of the free bytes.
pub(crate) fn free_of(page: &[u8], start: usize) -> Option<Free> {
    match page.get(start..)? {
        [_, high, low, _, _, content_high, content_low, fragments, ..] => Some(Free {
            first: u16::from_be_bytes([*high, *low]),
            content: u16::from_be_bytes([*content_high, *content_low]),
            fragments: *fragments,
        }),
        _ => None,
    }
}

/// The header's bytes but the first, with so many cells counted and this said of the free bytes.
pub(crate) fn header_of(count: u16, free: Free) -> [u8; 7]
    ensures { result ≡ to_be_bytes w16 free.first ++ (to_be_bytes w16 count
        ++ (to_be_bytes w16 free.content ++ (free.fragments ∷ []))) }
{
    let [a, b] = free.first.to_be_bytes();
    let [c, d] = count.to_be_bytes();
    let [e, f] = free.content.to_be_bytes();
    [a, b, c, d, e, f, free.fragments]
}

/// The freeblock that begins at an offset.
pub(crate) fn block_at(page: &[u8], at: u16) -> Option<Block> {
    let at = usize::from(at);
    match page.get(at..)? {
        [high, low, size_high, size_low, ..] => Some(Block {
            end: at + usize::from(u16::from_be_bytes([*size_high, *size_low])),
            next: u16::from_be_bytes([*high, *low]),
        }),
        _ => None,
    }
}

/// The freeblock that the bytes up to an end become, with the next one where fewer than four bytes stand between; and how many do. None where that
/// one begins before.
fn joined(page: &[u8], next: u16, end: usize) -> Option<(Block, u8)>
    ensures near { IfSome result (λ found. found.1 ≤ 3) }
{
    let there = usize::from(next);
    if there == 0 || there.saturating_sub(end) >= 4 {
        return Some((Block { end, next }, 0));
    }
    let gap = u8::try_from(there.checked_sub(end)?).ok()?;
    Some((block_at(page, next)?, gap))
}

/// The freeblock's own bytes: where the next one begins, and its size.
pub(crate) fn block_bytes(next: u16, size: u16) -> [u8; 4]
    ensures { result ≡ to_be_bytes w16 next ++ to_be_bytes w16 size }
{
    let [a, b] = next.to_be_bytes();
    let [c, d] = size.to_be_bytes();
    [a, b, c, d]
}

/// What is said when the bytes of a cell come before all freeblocks: they are the first of them, or room before the other cells. None where they
/// aren't to be told so.
fn freed_first(page: &[u8], cell: CellPlace, free: Free) -> Option<Freed>
    ensures block { IfSome result (λ freed. IfSome freed.block (IsOwn cell)) }
    ensures alone { IfSome result (λ freed. freed.before ≡ None) }
{
    let (block, gap) = joined(page, free.first, cell.end)?;
    let fragments = free.fragments.checked_sub(gap)?;
    if cell.at == usize::from(free.content) {
        let content = u16::try_from(block.end).ok()?;
        let free = Free {
            first: block.next,
            content,
            fragments,
        };
        return Some(Freed {
            free,
            block: None,
            before: None,
        });
    }
    let first = u16::try_from(cell.at).ok()?;
    let own = own_block(cell, block)?;
    let free = Free {
        first,
        content: free.content,
        fragments,
    };
    Some(Freed {
        free,
        block: Some(own),
        before: None,
    })
}

/// The first bytes of a freeblock that begins where the cell does. None where the cell has fewer than four.
fn own_block(cell: CellPlace, block: Block) -> Option<FreeblockHead>
    ensures own { IfSome result (IsOwn cell) }
    ensures bytes { IfSome result (λ head. head.bytes ≡ to_be_bytes w16 block.next ++ to_be_bytes w16 (block.end - cell.at)) }
{
    if cell.end < cell.at || cell.end - cell.at < 4 {
        return None;
    }
    let size = u16::try_from(block.end.checked_sub(cell.at)?).ok()?;
    Some(FreeblockHead {
        at: cell.at,
        bytes: block_bytes(block.next, size),
    })
}

/// The last freeblock that begins before an offset, of those from this one on, and where it begins.
fn last_before(page: &[u8], first: u16, at: usize) -> Option<(u16, Block)> {
    let mut here = first;
    let mut block = block_at(page, here)?;
    'blocks: for _ in 0..page.len() / 4 {
        if block.next == 0 || at <= usize::from(block.next) {
            return Some((here, block));
        }
        here = block.next;
        block = block_at(page, here)?;
    }
    None
}

/// A number below a limit, or else 0.
fn counted(limit: u16, number: u16) -> u16
    ensures value { result ≡ meant.counted limit number }
{
    if number < limit { number } else { 0 }
}

/// The greatest of these pointers that are below a limit, or 0.
fn greatest_below(limit: u16, pointers: &[u8]) -> u16
    ensures value { result ≡ greatest_in limit 0 pointers.now }
{
    let mut most = 0;
    let mut left = pointers;
    'pointers: while let [_, _, after @ ..] = left {
        most = counted(limit, first_pointer(left)).max(most);
        left = after;
    }
    most
}

/// A place, if it is the one that is looked for, or else 0.
fn place_if(is_there: bool, place: u16) -> u16 {
    if is_there { place } else { 0 }
}

/// The place of a pointer, if it is one of these. (The greatest, if there are several: in a loop the compiler then reads many at a time.)
fn place_of(pointers: &[u8], pointer: u16) -> usize {
    let mut place = 0_u16;
    let mut index = 0_u16;
    let mut left = pointers;
    'pointers: while let [_, _, after @ ..] = left {
        place = place.max(place_if(first_pointer(left) == pointer, index));
        index = index.wrapping_add(1);
        left = after;
    }
    usize::from(place)
}

/// Whether the cell that this pointer is of ends before an offset.
fn ends_before(page: &[u8], start: usize, place: usize, pointer: u16, at: u16) -> bool
    ensures { IsTrue result → (node : Node) (is : IsNode page.now start node) → EndsBefore is pointer at }
{
    let Some(cell) = cell_at(page, start, place) else {
        return false;
    };
    if cell.at != usize::from(pointer) || cell.end <= cell.at || usize::from(at) < cell.end {
        return false;
    }
    true
}

/// Whether no cell has one of the bytes from one offset up to another: of those that begin before their end, the one that begins last ends before
/// them.
pub(crate) fn are_clear(page: &[u8], start: usize, pointers: Pointers, at: u16, end: u16) -> bool
    ensures { IsTrue result → (node : Node) (is : IsNode page.now start node) → ArePointers is pointers
        → AreClear at end is.page_is.spans }
{
    let Some(bytes) = page.get(pointers.first..pointers.last) else {
        return false;
    };
    let greatest = greatest_below(end, bytes);
    if greatest == 0 {
        return true;
    }
    ends_before(page, start, place_of(bytes, greatest), greatest, at)
}

/// Whether no cell has one of the four bytes from an offset on, by the pointers that a cell is found among.
fn is_head_clear(page: &[u8], start: usize, cell: CellPlace, at: u16) -> bool
    ensures { IsTrue result → (node : Node) (is : IsNode page.now start node) (place : ℕ)
        → IsCellAt page.now start node is place cell → AreClear at (at + 4) is.page_is.spans }
{
    let Some(end) = at.checked_add(4) else {
        return false;
    };
    let pointers = Pointers {
        first: cell.first,
        last: cell.last,
    };
    are_clear(page, start, pointers, at, end)
}

/// The freeblock before a cell, with the cell's bytes and the fewer than four between. None where the page counts fewer fragments.
fn grown(cell: CellPlace, free: Free, at: u16, before: Block, block: Block) -> Option<Freed>
    ensures { IfSome result (IsFreedBehind cell at) }
{
    let between = u8::try_from(cell.at.checked_sub(before.end)?).ok()?;
    let fragments = free.fragments.checked_sub(between)?;
    let size = u16::try_from(block.end.checked_sub(usize::from(at))?).ok()?;
    Some(Freed {
        free: Free { fragments, ..free },
        block: None,
        before: Some(FreeblockHead {
            at: usize::from(at),
            bytes: block_bytes(block.next, size),
        }),
    })
}

/// The freeblock that a cell becomes, and the one before it, which says where it begins.
fn chained(cell: CellPlace, free: Free, at: u16, before: Block, block: Block) -> Option<Freed>
    ensures { IfSome result (IsFreedBehind cell at) }
{
    let next = u16::try_from(cell.at).ok()?;
    let size = u16::try_from(before.end.checked_sub(usize::from(at))?).ok()?;
    let own = own_block(cell, block)?;
    Some(Freed {
        free,
        block: Some(own),
        before: Some(FreeblockHead {
            at: usize::from(at),
            bytes: block_bytes(next, size),
        }),
    })
}

/// What is said when the bytes of a cell come after a freeblock. None where its list isn't one of free bytes.
fn freed_behind(page: &[u8], start: usize, cell: CellPlace, free: Free) -> Option<Freed>
    ensures freed { IfSome result (IsFreed cell) }
    ensures clear { (node : Node) (is : IsNode page.now start node) (place : ℕ)
        → IsCellAt page.now start node is place cell → IfSome result (IsBeforeClear is) }
{
    let (at, before) = last_before(page, free.first, cell.at)?;
    if before.end < usize::from(at) + 4
        || cell.at < before.end
        || usize::from(at) < cell.last
        || !is_head_clear(page, start, cell, at)
    {
        return None;
    }
    let (block, gap) = joined(page, before.next, cell.end)?;
    let fragments = free.fragments.checked_sub(gap)?;
    let free = Free { fragments, ..free };
    if cell.at - before.end < 4 {
        grown(cell, free, at, before, block)
    } else {
        chained(cell, free, at, before, block)
    }
}

/// What a page says of its free bytes when a cell has gone. None where it can't be told, and the page has to be packed.
pub(crate) fn freed_by(page: &[u8], start: usize, cell: CellPlace) -> Option<Freed>
    ensures freed { IfSome result (IsFreed cell) }
    ensures clear { (node : Node) (is : IsNode page.now start node) (place : ℕ)
        → IsCellAt page.now start node is place cell → IfSome result (IsBeforeClear is) }
{
    let free = free_of(page, start)?;
    if free.first == 0 || cell.at <= usize::from(free.first) {
        return freed_first(page, cell, free);
    }
    freed_behind(page, start, cell, free)
}
