//! Writing one page.

ghost use Rattle.std.specs.Prelude.{◌≡◌, ◌≤◌, ◌<◌, ◌+◌, ◌++◌, ◌↔◌, ◌^◌, ◌-◌, ◌*◌, [], ◌∷◌, IsTrue, length, vec_capacity, map, replicate, reverse, min, IfOk, IfErr, OnOk};
ghost use Rattle.std.specs.List.{AllByRecursion, flat_map};
ghost use Rattle.std.specs.Int.{w16, to_be_bytes};
ghost use Rattle.tree_page.specs.Cells.{pointer, page_header, IsTreePage};
ghost use Rattle.tree_page.specs.Reading.{type_of};
ghost use Rattle.tree_pack.specs.Parts.{total};
ghost use Rattle.tree_pack.specs.Building.{Fits, cell_room, right_room, right_bytes, spans_below, content_of, content_bytes, page_of};

use sqlval::{Fault, R};
use std::alloc::{AllocError, Global};
use tree_page::Kind;

/// The type of a page of this kind.
fn type_code(kind: Kind) -> u8
    ensures { result ≡ type_of kind }
{
    match kind {
        Kind::TableLeaf => 13,
        Kind::TableInterior => 5,
        Kind::IndexLeaf => 10,
        Kind::IndexInterior => 2,
    }
}

/// How many bytes stand between the header and the pointers.
pub(crate) fn right_len(kind: Kind) -> usize
    ensures { result ≡ right_room kind }
{
    match kind {
        Kind::TableLeaf | Kind::IndexLeaf => 0,
        Kind::TableInterior | Kind::IndexInterior => 4,
    }
}

/// The room that a cell takes, with its pointer.
pub(crate) fn cell_len(cell: &[u8]) -> usize
    ensures { result ≡ cell_room cell.now }
{
    cell.len() + 2
}

/// The room that the cells take with their pointers, or `most` if they take more.
pub(crate) fn room_of(cells: &[&[u8]], most: usize) -> usize
    ensures { result ≡ min (total (map cell_room (map (λ cell. cell.now) cells.now))) most }
{
    let mut room = 0;
    let mut left = cells;
    'cells: while let [cell, after @ ..] = left {
        let size = cell_len(cell);
        if most - room <= size {
            return most;
        }
        room += size;
        left = after;
    }
    room
}

/// Whether each cell has a byte.
pub(crate) fn have_bytes(cells: &[&[u8]]) -> bool
    ensures { IsTrue result ↔ AllByRecursion (λ cell. 0 < length cell)
        (map (λ cell. cell.now) cells.now) }
{
    let mut left = cells;
    'cells: while let [cell, after @ ..] = left {
        if cell.is_empty() {
            return false;
        }
        left = after;
    }
    true
}

/// Whether the cells fit a page of this kind and size whose header begins at `start`.
pub fn fits(page_size: usize, start: usize, kind: Kind, cells: &[&[u8]]) -> bool
    ensures { IsTrue result ↔ Fits page_size start (right_room kind) (map (λ cell. cell.now) cells.now) }
{
    if page_size > 65536 || page_size < start || !have_bytes(cells) {
        return false;
    }
    let used = start + 8 + right_len(kind);
    used <= page_size && room_of(cells, page_size) <= page_size - used
}

/// Writes the header of a page with `count` cells, of which the last begins at `content`.
fn put_header(out: &mut Vec<u8>, kind: Kind, count: usize, content: usize) -> Result<(), AllocError>
    requires { (count < 2 ^ 16) × (content ≤ 2 ^ 16) }
    ensures header { OnOk result (out.new.items ≡ out.old.items ++ page_header (type_of kind)
        (0 ∷ 0 ∷ []) count (content_bytes content) 0) }
    ensures capacity { vec_capacity out.old ≤ vec_capacity out.new }
{
    let [high, low] = (count as u16).to_be_bytes();
    let [content_high, content_low] = ((content % 65536) as u16).to_be_bytes();
    out.extend_from_slice(&[
        type_code(kind),
        0,
        0,
        high,
        low,
        content_high,
        content_low,
        0,
    ])
}

/// Writes the pointers to cells of which the first ends at `end` and each next one ends where the one before begins, where there is
/// room for them.
fn put_pointers(out: &mut Vec<u8>, end: usize, cells: &[&[u8]])
    requires room { total (map length (map (λ cell. cell.now) cells.now)) ≤ end }
    requires addressed { end ≤ 2 ^ 16 }
    requires some { AllByRecursion (λ cell. 0 < length cell) (map (λ cell. cell.now) cells.now) }
    requires reserved { length out.old.items + 2 * length cells.now ≤ vec_capacity out.old }
    ensures { out.new.items ≡ out.old.items ++ flat_map pointer
        (spans_below end (map (λ cell. cell.now) cells.now)) }
{
    let mut offset = end;
    let mut left = cells;
    'cells: while let [cell, after @ ..] = left {
        offset -= cell.len();
        let [high, low] = (offset as u16).to_be_bytes();
        out.push_reserved(high);
        out.push_reserved(low);
        left = after;
    }
}

/// Writes the cells over the bytes of a room that they take whole, the last one first.
fn fill_cells(room: &mut [u8], cells: &[&[u8]])
    requires { length room.old ≡ total (map length (map (λ cell. cell.now) cells.now)) }
    ensures { room.new ≡ flat_map (λ cell. cell) (reverse (map (λ cell. cell.now) cells.now)) }
{
    let mut end = room.len();
    let mut left = cells;
    'cells: while let [cell, after @ ..] = left {
        let start = end - cell.len();
        room[start..end].copy_from_slice(cell);
        end = start;
        left = after;
    }
}

/// Writes so many zeros, 256 at a time.
fn put_zeros(out: &mut Vec<u8>, count: usize) -> Result<(), AllocError>
    ensures { OnOk result (out.new.items ≡ out.old.items ++ replicate count 0) }
{
    let zeros = [0; 256];
    let mut left = count;
    'rounds: while 256 < left {
        out.extend_from_slice(&zeros)?;
        left -= 256;
    }
    out.extend_from_slice(&zeros[..left])
}

/// The bytes of the page.
#[tactic(auto, unfolding(crate::specs::Building::page_of))]
pub(crate) fn write(
    alloc: Global,
    front: &[u8],
    page_size: usize,
    kind: Kind,
    right: &[u8],
    cells: &[&[u8]],
) -> Result<Vec<u8>, AllocError>
    requires { Fits page_size (length front.now) (length right.now) (map (λ cell. cell.now) cells.now) }
    ensures { IfOk result (λ page. page.items ≡ page_of front.now page_size kind right.now
        (map (λ cell. cell.now) cells.now)) }
{
    let content = page_size - (room_of(cells, page_size) - 2 * cells.len());
    let mut out = Vec::with_capacity(alloc, page_size)?;
    out.extend_from_slice(front)?;
    put_header(&mut out, kind, cells.len(), content)?;
    out.extend_from_slice(right)?;
    put_pointers(&mut out, page_size, cells);
    let left = page_size - out.len();
    put_zeros(&mut out, left)?;
    fill_cells(&mut out[content..], cells);
    Ok(out)
}

/// The page with these cells, in order: `front`, which stands before its header, the header, the last child of an interior
/// page, the pointers, zeros, and the cells from the page's end downwards. (`Memory` alone.)
pub fn build(
    alloc: Global,
    front: &[u8],
    page_size: usize,
    kind: Kind,
    right: Option<u32>,
    cells: &[&[u8]],
) -> R<Vec<u8>>
    requires { Fits page_size (length front.now) (length (right_bytes right))
        (map (λ cell. cell.now) cells.now) }
    ensures is { IfOk result (λ page. IsTreePage (type_of kind) page.items (length front.now)
        (right_bytes right)
        (map (λ cell. cell.now) cells.now)) }
    ensures exact { IfOk result (λ page. page.items ≡ page_of front.now page_size kind (right_bytes right)
        (map (λ cell. cell.now) cells.now)) }
    ensures size { IfOk result (λ page. length page.items ≡ page_size) }
    ensures refused { IfErr result (λ fault. fault ≡ Fault.Memory) }
{
    match right {
        Some(child) => Ok(write(alloc, front, page_size, kind, &child.to_be_bytes(), cells)?),
        None => Ok(write(alloc, front, page_size, kind, &[], cells)?),
    }
}
