//! Putting cells onto as many pages as they need.

ghost use Rattle.std.specs.Prelude.{◌≡◌, ◌≤◌, ◌<◌, ◌+◌, ◌*◌, ◌-◌, ◌^◌, ◌↔◌, ◌⊎◌, ℕ, List, [], ◌∷◌, IsTrue, length, map, take, IfOk, IfErr};
ghost use Rattle.std.specs.List.{AllByRecursion};
ghost use Rattle.tree_page.specs.Node.{Node};
ghost use Rattle.tree_pack.specs.Building.{cell_room, right_room, right_bytes, Fits, page_of};
ghost use Rattle.tree_pack.specs.Packing.{up_of, IsSmall, CanPack, AreOf, images, divider_bytes, Packs};
ghost use Rattle.tree_pack.specs.Spreading.{first_cell, row_key, last_key, divider_of, pages_of, dividing, PartsFit};

use crate::building::{cell_len, have_bytes, right_len, write};
use crate::cutting::cut;
use record::get_varint;
use sqlval::{Damage, Fault, R};
use std::alloc::{AllocError, Global};
use tree_page::Kind;

/// A page that has another after it.
#[derive(Drop)]
pub struct Piece {
    /// Its bytes.
    pub page: Vec<u8>,
    /// The end of the cell that the page above gets for it, after the page's number: a key or an entry.
    pub divider: Vec<u8>,
}

/// The pages that cells are put onto.
#[derive(Drop)]
pub struct Packed {
    /// All but the last.
    pub pieces: Vec<Piece>,
    /// The bytes of the last.
    pub last: Vec<u8>,
}

/// How many cells go to the page above between two pages.
fn up_len(kind: Kind) -> usize
    ensures value { result ≡ up_of kind }
    ensures one { result ≤ 1 }
{
    match kind {
        Kind::TableLeaf => 0,
        Kind::TableInterior | Kind::IndexLeaf | Kind::IndexInterior => 1,
    }
}

/// The most room that a small cell takes.
fn most_len(kind: Kind, page_size: usize) -> usize
    ensures { (cell : List ℕ) → (cell_room cell ≤ result) ↔ IsSmall kind page_size cell }
{
    match kind {
        Kind::TableLeaf => page_size.saturating_sub(8),
        Kind::IndexLeaf => page_size.saturating_sub(8) / 2,
        Kind::TableInterior | Kind::IndexInterior => page_size.saturating_sub(12) / 2,
    }
}

/// Whether no cell takes more room than `most`.
fn are_within(most: usize, cells: &[&[u8]]) -> bool
    ensures { IsTrue result ↔ AllByRecursion (λ cell. cell_room cell ≤ most)
        (map (λ cell. cell.now) cells.now) }
{
    let mut left = cells;
    'cells: while let [cell, after @ ..] = left {
        if most < cell_len(cell) {
            return false;
        }
        left = after;
    }
    true
}

/// Whether the page has room for a header after so many bytes, and each cell has a byte and is small.
fn can_pack(page_size: usize, start: usize, kind: Kind, cells: &[&[u8]]) -> bool
    ensures { IsTrue result ↔ CanPack page_size start kind (map (λ cell. cell.now) cells.now) }
{
    if page_size > 65536 || page_size < start || !have_bytes(cells) {
        return false;
    }
    2 * start + 8 + right_len(kind) <= page_size && are_within(most_len(kind, page_size), cells)
}

/// The last child of the page before these cells: on an interior page that of the first of them, which goes up.
fn child_before<'a>(kind: Kind, cells: &[&'a [u8]]) -> &'a [u8]
    ensures { result.now ≡ take (right_room kind) (first_cell (map (λ cell. cell.now) cells.now)) }
{
    match cells.first() {
        Some(cell) => &cell[..right_len(kind).min(cell.len())],
        None => &[],
    }
}

/// The bytes of the rowid in the cell of a row.
fn row_key(cell: &[u8]) -> &[u8]
    ensures { result.now ≡ row_key cell.now }
{
    let Some((_, rest)) = get_varint(cell) else {
        return &[];
    };
    let Some((_, held)) = get_varint(rest) else {
        return &[];
    };
    &rest[..rest.len() - held.len()]
}

/// The bytes of the rowid in the last of these cells of rows.
fn last_key<'a>(cells: &[&'a [u8]]) -> &'a [u8]
    ensures { result.now ≡ last_key (map (λ cell. cell.now) cells.now) }
{
    match cells.last() {
        Some(cell) => row_key(cell),
        None => &[],
    }
}

/// The end of the cell that the page above gets for a page with these cells, which has others after it.
fn divider_of<'a>(kind: Kind, part: &[&'a [u8]], after: &[&'a [u8]]) -> &'a [u8]
    ensures { result.now ≡ divider_of kind (map (λ cell. cell.now) part.now)
        (map (λ cell. cell.now) after.now) }
{
    if kind == Kind::TableLeaf {
        return last_key(part);
    }
    match after.first() {
        Some(cell) => &cell[right_len(kind).min(cell.len())..],
        None => &[],
    }
}

/// The page of a part that has other cells after it. (`Memory` alone.)
fn write_piece(
    alloc: Global,
    page_size: usize,
    kind: Kind,
    part: &[&[u8]],
    after: &[&[u8]],
) -> Result<Piece, AllocError>
    requires { Fits page_size 0 (right_room kind) (map (λ cell. cell.now) part.now) }
    ensures page { IfOk result (λ piece. piece.page.items ≡ page_of [] page_size kind
        (take (right_room kind) (first_cell (map (λ cell. cell.now) after.now)))
        (map (λ cell. cell.now) part.now)) }
    ensures divider { IfOk result (λ piece. piece.divider.items ≡ divider_of kind
        (map (λ cell. cell.now) part.now)
        (map (λ cell. cell.now) after.now)) }
{
    let page = write(alloc, &[], page_size, kind, child_before(kind, after), part)?;
    let divider = divider_of(kind, part, after).to_vec(alloc)?;
    Ok(Piece { page, divider })
}

/// The pages of several parts. (`Memory` alone.)
fn write_parts(
    alloc: Global,
    page_size: usize,
    kind: Kind,
    right: &[u8],
    cells: &[&[u8]],
    counts: &[usize],
) -> Result<Packed, AllocError>
    requires header { (page_size ≤ 2 ^ 16) × (8 + right_room kind ≤ page_size) }
    requires right { length right.now ≡ right_room kind }
    requires parts { PartsFit kind page_size counts.now (map (λ cell. cell.now) cells.now) }
    ensures images { IfOk result (λ packed. images packed
        ≡ pages_of kind page_size right.now counts.now (map (λ cell. cell.now) cells.now)) }
    ensures dividers { IfOk result (λ packed. divider_bytes packed ≡ dividing kind counts.now
        (map (λ cell. cell.now) cells.now)) }
{
    let mut pieces = Vec::new(alloc);
    let mut start = 0;
    let mut left = counts;
    'parts: while let [count, after @ ..] = left {
        let end = start + count;
        let piece = write_piece(alloc, page_size, kind, &cells[start..end], &cells[end..])?;
        pieces.push(piece)?;
        start = end + up_len(kind);
        left = after;
    }
    let last = write(alloc, &[], page_size, kind, right, &cells[start..])?;
    Ok(Packed { pieces, last })
}

/// The pages of small cells. (`Memory` alone.)
fn spread_small(
    alloc: Global,
    front: &[u8],
    page_size: usize,
    kind: Kind,
    right: &[u8],
    cells: &[&[u8]],
    rises: bool,
) -> Result<Packed, AllocError>
    requires right { length right.now ≡ right_room kind }
    requires can { CanPack page_size (length front.now) kind (map (λ cell. cell.now) cells.now) }
    ensures { (node : Node) → AreOf kind page_size right.now (map (λ cell. cell.now) cells.now) node
        → IfOk result (λ packed. Packs kind page_size front.now rises
        (map (λ cell. cell.now) cells.now) node packed) }
{
    let room = page_size - front.len() - 8 - right.len();
    let counts = cut(alloc, cells, room, up_len(kind), rises)?;
    if counts.is_empty() {
        let last = write(alloc, front, page_size, kind, right, cells)?;
        return Ok(Packed {
            pieces: Vec::new(alloc),
            last,
        });
    }
    write_parts(alloc, page_size, kind, right, cells, &counts)
}

/// The pages of the cells, with the bytes of the last child. (Refusals as for `pack`.)
fn spread(
    alloc: Global,
    front: &[u8],
    page_size: usize,
    kind: Kind,
    right: &[u8],
    cells: &[&[u8]],
    rises: bool,
) -> R<Packed>
    ensures packed { (node : Node) → AreOf kind page_size right.now (map (λ cell. cell.now) cells.now) node
        → IfOk result (λ packed. Packs kind page_size front.now rises
        (map (λ cell. cell.now) cells.now) node packed) }
    ensures only { length right.now ≡ right_room kind
        → CanPack page_size (length front.now) kind (map (λ cell. cell.now) cells.now)
        → IfErr result (λ fault. fault ≡ Fault.Memory) }
    ensures refused { IfErr result (λ fault. (fault ≡ Fault.Memory)
        ⊎ (fault ≡ Fault.Damaged Damage.Cell 0)) }
{
    if right.len() != right_len(kind) || !can_pack(page_size, front.len(), kind, cells) {
        return Err(Fault::Damaged(Damage::Cell, 0));
    }
    Ok(spread_small(alloc, front, page_size, kind, right, cells, rises)?)
}

/// Puts the cells of a node onto pages, in order. If all fit, it is one page after `front`; else there are several, with
/// nothing before their headers, and between two of them a cell of an interior page or an index goes up. `right` is the last
/// child of an interior page. `rises` says that the change stands after all other cells: then the pages are full, else about
/// half full. (`Damaged(Cell, 0)` if a cell is empty or isn't small, the page has no room for a header, or `right` is missing on an interior
/// page or given on another.)
pub fn pack(
    alloc: Global,
    front: &[u8],
    page_size: usize,
    kind: Kind,
    right: Option<u32>,
    cells: &[&[u8]],
    rises: bool,
) -> R<Packed>
    ensures packed { (node : Node) → AreOf kind page_size (right_bytes right)
        (map (λ cell. cell.now) cells.now) node
        → IfOk result (λ packed. Packs kind page_size front.now rises
        (map (λ cell. cell.now) cells.now) node packed) }
    ensures only { (node : Node) → AreOf kind page_size (right_bytes right)
        (map (λ cell. cell.now) cells.now) node
        → CanPack page_size (length front.now) kind (map (λ cell. cell.now) cells.now)
        → IfErr result (λ fault. fault ≡ Fault.Memory) }
    ensures refused { IfErr result (λ fault. (fault ≡ Fault.Memory)
        ⊎ (fault ≡ Fault.Damaged Damage.Cell 0)) }
{
    match right {
        Some(child) => spread(
            alloc,
            front,
            page_size,
            kind,
            &child.to_be_bytes(),
            cells,
            rises,
        ),
        None => spread(alloc, front, page_size, kind, &[], cells, rises),
    }
}
