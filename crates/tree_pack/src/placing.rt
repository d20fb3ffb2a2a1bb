//! Putting a cell into room on a page.

ghost use Rattle.std.specs.Prelude.{◌≡◌, ◌≤◌, ◌<◌, ◌+◌, ◌*◌, ◌%◌, ◌/◌, ◌^◌, IfOk, IfErr, IfSome, IsTrue, drop, length, slice_index_or, take};
ghost use Rattle.std.specs.Int.{w16, to_be_bytes};
ghost use Rattle.tree_page.specs.Node.{Node, IsNode};
ghost use Rattle.tree_pack.specs.Placing.{Places, PlacesAt, HasRoom, IsRoomOn, Lies, least_in, placed_of, right_width};
ghost use Rattle.tree_pack.specs.Slots.{IsSlot, IsSlotClear};

use crate::freeing::{Free, FreeblockHead, Pointers, free_of, header_of};
use crate::slots::{Slot, in_freeblock};
use sqlval::{Fault, R};
use std::alloc::{AllocError, Global};
use tree_page::{Kind, TreePage};

/// How many bytes stand between the header and the pointers.
pub(crate) fn right_len(kind: Kind) -> usize
    ensures value { result ≡ right_width kind }
    ensures small { result ≤ 4 }
{
    match kind {
        Kind::TableLeaf | Kind::IndexLeaf => 0,
        Kind::TableInterior | Kind::IndexInterior => 4,
    }
}

/// Whether this number stands in the two bytes at an offset.
fn stands_at(page: &[u8], at: usize, number: u16) -> bool
    ensures stands { IsTrue result → take 2 (drop at page.now) ≡ to_be_bytes w16 number }
{
    match page.get(at..) {
        Some(bytes) => bytes.starts_with(&number.to_be_bytes()),
        None => false,
    }
}

/// The first two bytes as a number, the lower byte first: in a loop the compiler loads many such at a time.
fn first_number(bytes: &[u8]) -> u16
    ensures value { 2 ≤ length bytes.now → result ≡ slice_index_or bytes.now 0 0 + slice_index_or bytes.now 1 0 * 256 }
{
    match bytes {
        [low, high, ..] => u16::from(*low) + u16::from(*high) * 256,
        _ => 0,
    }
}

/// The number with its two bytes the other way round.
fn swapped(number: u16) -> u16
    ensures value { result ≡ number % 256 * 256 + number / 256 }
{
    number % 256 * 256 + number / 256
}

/// The first of these pointers.
pub(crate) fn first_pointer(pointers: &[u8]) -> u16
    ensures value { 2 ≤ length pointers.now → result ≡ slice_index_or pointers.now 0 0 * 256 + slice_index_or pointers.now 1 0 }
{
    swapped(first_number(pointers))
}

/// The least of this pointer and these others.
fn least_from(first: u16, others: &[u8]) -> u16
    ensures value { result ≡ least_in first others.now }
{
    let mut least = first;
    let mut left = others;
    'pointers: while let [_, _, after @ ..] = left {
        least = least.min(first_pointer(left));
        left = after;
    }
    least
}

/// The least of these pointers, or `most` if none is less.
fn least_pointer(pointers: &[u8], most: usize) -> usize
    ensures value { result ≡ least_in most pointers.now }
    ensures within { result ≤ most }
{
    let [_, _, others @ ..] = pointers else {
        return most;
    };
    let least = least_from(first_pointer(pointers), others);
    most.min(usize::from(least))
}

/// What room a page has before its cells.
#[derive(Clone, Copy)]
struct Room {
    /// Where the pointers begin.
    pointers: usize,
    /// How many there are.
    count: usize,
    /// Where the first of the cells begins.
    low: usize,
    /// How many bytes a cell may have between the pointers, with one more, and the first of the cells.
    gap: usize,
}

/// How many of so many bytes before an offset are free: none where the header says that the cells begin elsewhere, since something else may lie
/// there then.
fn gap_before(page: &[u8], start: usize, low: usize, size: usize) -> usize
    requires near { start ≤ length page.now }
    ensures within { result ≤ size }
    ensures clear { 0 < result → take 2 (drop (start + 5) page.now) ≡ to_be_bytes w16 (low % 65536) }
{
    if stands_at(page, start + 5, (low % 65536) as u16) {
        size
    } else {
        0
    }
}

/// The room of a page before its cells, if a pointer more fits there. None for bytes that are no page of a tree.
fn measured(page: &[u8], start: usize) -> Option<Room>
    ensures room { IfSome result (λ room. HasRoom page.now start room.gap room.pointers room.count room.low) }
    ensures lies { (node : Node) (is : IsNode page.now start node)
        → IfSome result (λ room. Lies page.now start node is room.pointers room.count room.low) }
{
    let Ok(tree) = TreePage::over(page, start) else {
        return None;
    };
    let count = tree.len();
    if page.len() < start || count >= 65535 {
        return None;
    }
    let pointers = start + 8 + right_len(tree.kind());
    let end = pointers + 2 * count;
    let low = least_pointer(page.get(pointers..end)?, page.len());
    if low > 65536 || low < end + 2 {
        return None;
    }
    let gap = gap_before(page, start, low, low - (end + 2));
    Some(Room {
        pointers,
        count,
        low,
        gap,
    })
}

/// The room for a cell of so many bytes between the pointers and the other cells, if there is so much. None for no bytes, and where the
/// header says that the cells begin elsewhere.
fn find_room(page: &[u8], start: usize, size: usize) -> Option<Room>
    ensures some { IfSome result (λ room. 0 < size) }
    ensures room { IfSome result (λ room. HasRoom page.now start size room.pointers room.count room.low) }
    ensures lies { (node : Node) (is : IsNode page.now start node)
        → IfSome result (λ room. Lies page.now start node is room.pointers room.count room.low) }
{
    let room = measured(page, start)?;
    if size == 0 || room.gap < size {
        return None;
    }
    Some(room)
}

/// Where a cell of so many bytes comes: before the first of the cells, or else in a freeblock.
fn find_slot(page: &[u8], start: usize, room: Room, size: u16) -> Option<Slot>
    requires room { HasRoom page.now start room.gap room.pointers room.count room.low }
    ensures slot { IfSome result (IsSlot page.now size (room.pointers + 2 * room.count)) }
    ensures clear { (node : Node) (is : IsNode page.now start node) → Lies page.now start node is room.pointers room.count room.low
        → IfSome result (IsSlotClear is size) }
    ensures content { IfSome result (λ slot. size ≤ room.gap → slot.free.content ≡ slot.at) }
{
    let free = free_of(page, start)?;
    if usize::from(size) <= room.gap {
        let at = u16::try_from(room.low - usize::from(size)).ok()?;
        let free = Free {
            content: at,
            ..free
        };
        return Some(Slot {
            at,
            free,
            head: None,
        });
    }
    let pointers = Pointers {
        first: room.pointers,
        last: room.pointers + 2 * room.count,
    };
    in_freeblock(page, start, pointers, size, free)
}

/// What is written on a page with room for a cell.
#[derive(Clone, Copy)]
pub struct CellRoom {
    /// Where its pointer comes, before those of the cells after it.
    pub pointer: usize,
    /// Where the pointers end before it comes.
    pub end: usize,
    /// Where it begins.
    pub at: u16,
    /// The header's bytes but the first: the first freeblock, how many cells there are then, where the first of them begins, and the fragments.
    pub header: [u8; 7],
    /// The first bytes of a freeblock, if one is written anew: the one whose end the cell takes, or that before the one that it takes whole.
    pub head: Option<FreeblockHead>,
}

/// Where this cell comes on a page, before which stand as many as `place` says, without any moving: in the room between the pointers and the other
/// cells, or else in the first freeblock that is long enough. None where there isn't so much room, or where something else may lie there.
pub fn room_for(page: &[u8], start: usize, place: usize, cell: &[u8]) -> Option<CellRoom>
    ensures room { IfSome result (IsRoomOn page.now start (length cell.now)) }
    ensures placed { PlacesAt page.now start place cell.now result }
{
    let room = measured(page, start)?;
    if room.count < place {
        return None;
    }
    let size = u16::try_from(cell.len()).ok()?;
    let slot = find_slot(page, start, room, size)?;
    Some(CellRoom {
        pointer: room.pointers + 2 * place,
        end: room.pointers + 2 * room.count,
        at: slot.at,
        header: header_of((room.count + 1) as u16, slot.free),
        head: slot.head,
    })
}

/// The page with a cell before the offset `low`, with its pointer at `middle`, and `count` cells counted. (`Memory` alone.)
fn write(
    alloc: Global,
    page: &[u8],
    start: usize,
    middle: usize,
    count: u16,
    low: usize,
    cell: &[u8],
) -> Result<Vec<u8>, AllocError>
    requires header { start + 7 ≤ middle }
    requires room { middle + 2 + length cell.now ≤ low }
    requires within { low ≤ length page.now }
    requires near { low ≤ 2 ^ 16 }
    requires some { 0 < length cell.now }
    ensures { IfOk result (λ written. written.items ≡ placed_of page.now start middle count low cell.now) }
{
    let at = low - cell.len();
    let pointer = (at as u16).to_be_bytes();
    let mut out = Vec::with_capacity(alloc, page.len())?;
    out.extend_from_slice(&page[..start + 3])?;
    out.extend_from_slice(&count.to_be_bytes())?;
    out.extend_from_slice(&pointer)?;
    out.extend_from_slice(&page[start + 7..middle])?;
    out.extend_from_slice(&pointer)?;
    out.extend_from_slice(&page[middle..at - 2])?;
    out.extend_from_slice(cell)?;
    out.extend_from_slice(&page[low..])?;
    Ok(out)
}

/// The page with one cell more, before which stand as many as `place` says, in the room between the pointers and the other cells.
/// None where there isn't so much room, or where something else may lie there. (`Memory`.)
pub fn place_cell(
    alloc: Global,
    page: &[u8],
    start: usize,
    place: usize,
    cell: &[u8],
) -> R<Option<Vec<u8>>>
    ensures placed { Places page.now start place cell.now result }
    ensures refused { IfErr result (λ fault. fault ≡ Fault.Memory) }
{
    let Some(room) = find_room(page, start, cell.len()) else {
        return Ok(None);
    };
    if room.count < place {
        return Ok(None);
    }
    let middle = room.pointers + 2 * place;
    let count = (room.count + 1) as u16;
    Ok(Some(write(alloc, page, start, middle, count, room.low, cell)?))
}
