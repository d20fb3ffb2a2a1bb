//! Storing the pages of a tree.

ghost use Rattle.std.specs.Prelude.{◌≡◌, ◌≤◌, ◌+◌, ◌-◌, ◌++◌, [], ◌∷◌, drop, take, map, length, true, IsTrue, IfOk, IfErr, MatchResult};
ghost use Rattle.std.specs.Int.{w16, w32, to_be_bytes};
ghost use Rattle.sqlval.specs.Faults.{IsOutside};
ghost use Rattle.pages.specs.Calls.{Causes, Stays};
ghost use Rattle.pages.specs.Counting.{start_of};
ghost use Rattle.pages.specs.Map.{page_at, IsThere};
ghost use Rattle.tree_pack.specs.Building.{right_room};
ghost use Rattle.tree_pack.specs.Packing.{images};
ghost use Rattle.tree_store.specs.Storing.{PlacesOn, TakesOff, Rewrites, RewritesOn, Stores, Roots, cells_over, cells_of};
ghost use Rattle.tree_store.specs.Steps.{TakesMore, WritesAll, WritesHead, GivesAll, Raises};

use freelist::{give, take};
use pages::WritePages;
use sqlval::{Damage, Fault, R};
use std::alloc::Global;
use tree_pack::{
    CellCut, CellRoom, FreeblockHead, Packed, Piece, build, cut_for, fits, payload_place, room_for,
};
use tree_page::Kind;

/// What an interior page gets for pages side by side.
#[derive(Drop)]
pub struct Fan {
    /// The cells of all but the last: the page's number, and what divides it from the next.
    pub cells: Vec<Vec<u8>>,
    /// The number of the last page.
    pub last: u32,
}

/// Writes a page of a tree. Page 1 has to keep the database's header.
pub fn put_node<P: WritePages>(pages: &mut P, number: u32, bytes: &[u8]) -> R<()>
    ensures rewritten { IsTrue (P.Pages.tells (P.Pages.below pages.old))
        → Rewrites (P.Pages.map pages.old) (P.Pages.map pages.new)
        (P.Pages.limits (P.Pages.below pages.old)).page number bytes.now result }
    ensures kept { P.Pages.below pages.new ≡ P.Pages.below pages.old }
    ensures causes { Causes result (P.Pages.failures pages.old) (P.Pages.failures pages.new) ⊥ }
{
    pages.put(number, bytes)
}

/// The pointer of a cell that comes, and those after it. (`Memory`.)
fn pointers_with(alloc: Global, room: CellRoom, page: &[u8]) -> R<Vec<u8>>
    requires within { room.end ≤ length page.now }
    requires upto { room.pointer ≤ room.end }
    ensures are { IfOk result (λ pointers. pointers.items ≡ to_be_bytes w16 room.at
        ++ take (room.end - room.pointer) (drop room.pointer page.now)) }
    ensures refused { IfErr result (λ fault. fault ≡ Fault.Memory) }
{
    let mut pointers = Vec::with_capacity(alloc, room.end - room.pointer + 2)?;
    pointers.extend_from_slice(&room.at.to_be_bytes())?;
    pointers.extend_from_slice(&page[room.pointer..room.end])?;
    Ok(pointers)
}

/// Writes the first bytes of a freeblock, if there is one. (What `write_over` refuses.)
fn write_head<P: WritePages>(pages: &mut P, number: u32, head: Option<FreeblockHead>) -> R<()>
    ensures written { IsTrue (P.Pages.tells (P.Pages.below pages.old))
        → WritesHead (P.Pages.map pages.old) (P.Pages.map pages.new)
        (P.Pages.limits (P.Pages.below pages.old)).page number head result }
    ensures kept { P.Pages.below pages.new ≡ P.Pages.below pages.old }
    ensures causes { Causes result (P.Pages.failures pages.old) (P.Pages.failures pages.new) ⊥ }
{
    if let Some(head) = head {
        pages.write_over(number, head.at, &head.bytes)?;
    }
    Ok(())
}

/// Puts a cell on a page, before which stand as many as `place` says, if there is room for it without moving any. Answers whether there was;
/// if not, nothing changes. (`Memory`, and what `load` and `write_over` refuse.)
pub fn place_on<P: WritePages>(
    alloc: Global,
    pages: &mut P,
    number: u32,
    place: usize,
    cell: &[u8],
) -> R<bool>
    ensures placed { IsTrue (P.Pages.tells (P.Pages.below pages.old))
        → PlacesOn (P.Pages.map pages.old) (P.Pages.map pages.new)
        (P.Pages.limits (P.Pages.below pages.old)).page number place cell.now result }
    ensures kept { P.Pages.below pages.new ≡ P.Pages.below pages.old }
    ensures causes { Causes result (P.Pages.failures pages.old) (P.Pages.failures pages.new) ⊥ }
{
    pages.load(number)?;
    let page = pages.loaded();
    let start = start_at(number);
    let Some(room) = room_for(page, start, place, cell) else {
        return Ok(false);
    };
    let pointers = pointers_with(alloc, room, page)?;
    pages.write_over(number, usize::from(room.at), cell)?;
    pages.write_over(number, room.pointer, pointers.as_slice())?;
    pages.write_over(number, start + 1, &room.header)?;
    write_head(pages, number, room.head)?;
    Ok(true)
}

/// The pointers after that of a cell that goes, and two zero bytes. (`Memory`.)
fn pointers_without(alloc: Global, cut: CellCut, page: &[u8]) -> R<Vec<u8>>
    requires before { cut.pointer + 2 ≤ cut.end }
    requires within { cut.end ≤ length page.now }
    ensures are { IfOk result (λ pointers. pointers.items
        ≡ take (cut.end - (cut.pointer + 2)) (drop (cut.pointer + 2) page.now) ++ (0 ∷ 0 ∷ [])) }
    ensures refused { IfErr result (λ fault. fault ≡ Fault.Memory) }
{
    let mut pointers = Vec::with_capacity(alloc, cut.end - cut.pointer)?;
    pointers.extend_from_slice(&page[cut.pointer + 2..cut.end])?;
    pointers.extend_from_slice(&[0, 0])?;
    Ok(pointers)
}

/// Takes the cell at a place off a page without moving any other, if its bytes can be told as free where they lie, and a cell is left. Answers
/// whether it did; if not, nothing changes. (`Memory`, and what `load` and `write_over` refuse.)
pub fn take_off<P: WritePages>(alloc: Global, pages: &mut P, number: u32, place: usize) -> R<bool>
    ensures taken { IsTrue (P.Pages.tells (P.Pages.below pages.old))
        → TakesOff (P.Pages.map pages.old) (P.Pages.map pages.new)
        (P.Pages.limits (P.Pages.below pages.old)).page number place result }
    ensures kept { P.Pages.below pages.new ≡ P.Pages.below pages.old }
    ensures causes { Causes result (P.Pages.failures pages.old) (P.Pages.failures pages.new) ⊥ }
{
    pages.load(number)?;
    let page = pages.loaded();
    let start = start_at(number);
    let Some(cut) = cut_for(page, start, place) else {
        return Ok(false);
    };
    let pointers = pointers_without(alloc, cut, page)?;
    pages.write_over(number, cut.pointer, pointers.as_slice())?;
    pages.write_over(number, start + 1, &cut.header)?;
    write_head(pages, number, cut.block)?;
    write_head(pages, number, cut.before)?;
    Ok(true)
}

/// Writes a payload over that of the row at a place of a table's leaf, in its page, if that lies whole in its cell and is as long. Answers whether
/// it did; if not, nothing changes. (What `load` and `write_over` refuse.)
pub fn rewrite_on<P: WritePages>(
    pages: &mut P,
    number: u32,
    place: usize,
    payload: &[u8],
) -> R<bool>
    ensures rewritten { IsTrue (P.Pages.tells (P.Pages.below pages.old))
        → RewritesOn (P.Pages.map pages.old) (P.Pages.map pages.new)
        (P.Pages.limits (P.Pages.below pages.old)).page number place payload.now result }
    ensures kept { P.Pages.below pages.new ≡ P.Pages.below pages.old }
    ensures causes { Causes result (P.Pages.failures pages.old) (P.Pages.failures pages.new) ⊥ }
{
    pages.load(number)?;
    let Some(at) = payload_place(pages.loaded(), start_at(number), place, payload) else {
        return Ok(false);
    };
    pages.write_over(number, at, payload)?;
    Ok(true)
}

/// These numbers, and behind them those of pages that are taken, until there are `count`. (`Memory`, and what `take` refuses.)
fn take_behind<P: WritePages>(
    alloc: Global,
    pages: &mut P,
    olds: &[u32],
    count: usize,
) -> R<Vec<u32>>
    ensures taken { IsTrue (P.Pages.tells (P.Pages.below pages.old))
        → TakesMore (λ numbers. numbers.items) (P.Pages.map pages.old) (P.Pages.map pages.new)
        (P.Pages.limits (P.Pages.below pages.old)).page olds.now count result }
    ensures kept { P.Pages.below pages.new ≡ P.Pages.below pages.old }
    ensures causes { Causes result (P.Pages.failures pages.old) (P.Pages.failures pages.new)
        (P.Pages.count pages.new ≡ (P.Pages.limits (P.Pages.below pages.new)).most) }
{
    let mut numbers = olds.to_vec(alloc)?;
    'numbers: while numbers.len() < count {
        numbers.push(take(alloc, pages)?)?;
    }
    Ok(numbers)
}

/// Gives pages back, in order. (What `give` refuses; pages that were given back before stay so.)
pub fn give_all<P: WritePages>(alloc: Global, pages: &mut P, spare: &[u32]) -> R<()>
    ensures given { IsTrue (P.Pages.tells (P.Pages.below pages.old))
        → GivesAll (P.Pages.map pages.old) (P.Pages.map pages.new)
        (P.Pages.limits (P.Pages.below pages.old)).page spare.now result }
    ensures kept { P.Pages.below pages.new ≡ P.Pages.below pages.old }
    ensures causes { Causes result (P.Pages.failures pages.old) (P.Pages.failures pages.new) ⊥ }
{
    let mut left = spare;
    'spare: while let Some((page, after)) = left.split_first() {
        give(alloc, pages, *page)?;
        left = after;
    }
    Ok(())
}

/// Writes packed pages on the pages of these numbers, in order. (`Damaged(Page, 0)` if there are fewer numbers, and what `put` refuses.)
fn write_pages<P: WritePages>(pages: &mut P, fronts: &[u32], last: u32, packed: &Packed) -> R<()>
    ensures written { IsTrue (P.Pages.tells (P.Pages.below pages.old))
        → WritesAll (P.Pages.map pages.old) (P.Pages.map pages.new)
        (P.Pages.limits (P.Pages.below pages.old)).page
        (fronts.now ++ last ∷ []) (images packed.now) result }
    ensures kept { P.Pages.below pages.new ≡ P.Pages.below pages.old }
    ensures causes { Causes result (P.Pages.failures pages.old) (P.Pages.failures pages.new) ⊥ }
{
    let mut left = fronts;
    let mut rest = packed.pieces.as_slice();
    'pieces: while let Some((piece, after)) = rest.split_first() {
        let Some((number, others)) = left.split_first() else {
            return Err(Fault::Damaged(Damage::Page, 0));
        };
        put_node(pages, *number, piece.page.as_slice())?;
        left = others;
        rest = after;
    }
    put_node(pages, last, packed.last.as_slice())
}

/// The cell of the page above: a page's number, and what divides it from the next. (`Memory`.)
fn cell_over(alloc: Global, number: u32, divider: &[u8]) -> R<Vec<u8>>
    ensures is { IfOk result (λ cell. cell.items ≡ to_be_bytes w32 number ++ divider.now) }
    ensures refused { IfErr result (λ fault. fault ≡ Fault.Memory) }
{
    let mut cell = Vec::with_capacity(alloc, divider.len() + 4)?;
    cell.extend_from_slice(&number.to_be_bytes())?;
    cell.extend_from_slice(divider)?;
    Ok(cell)
}

/// The cells of the page above, as far as there are numbers and pieces. (`Memory`.)
fn fan_cells(alloc: Global, numbers: &[u32], pieces: &[Piece]) -> R<Vec<Vec<u8>>>
    ensures are { IfOk result (λ cells. map (λ cell. cell.items) cells.items
        ≡ cells_over numbers.now (map (λ piece. piece.divider.items) pieces.now)) }
    ensures refused { IfErr result (λ fault. fault ≡ Fault.Memory) }
{
    let mut cells = Vec::new(alloc);
    let mut left = numbers;
    let mut rest = pieces;
    'cells: while let Some((piece, after)) = rest.split_first() {
        let Some((number, others)) = left.split_first() else {
            return Ok(cells);
        };
        cells.push(cell_over(alloc, *number, piece.divider.as_slice())?)?;
        left = others;
        rest = after;
    }
    Ok(cells)
}

/// Stores packed pages on these pages, in order: on more that are taken if they are too few; those that are left over are given back.
/// Page 1 can't be among them. (`Full` only if pages are taken.)
pub fn store<P: WritePages>(alloc: Global, pages: &mut P, olds: &[u32], packed: &Packed) -> R<Fan>
    ensures stored { IsTrue (P.Pages.tells (P.Pages.below pages.old))
        → Stores (P.Pages.map pages.old) (P.Pages.map pages.new)
        (P.Pages.limits (P.Pages.below pages.old)).page olds.now packed.now result }
    ensures kept { P.Pages.below pages.new ≡ P.Pages.below pages.old }
    ensures causes { Causes result (P.Pages.failures pages.old) (P.Pages.failures pages.new)
        (P.Pages.count pages.new ≡ (P.Pages.limits (P.Pages.below pages.new)).most) }
{
    let count = packed.pieces.len() + 1;
    let (kept, spare) = olds.split_at(olds.len().min(count));
    let numbers = take_behind(alloc, pages, kept, count)?;
    let Some((last, fronts)) = numbers.as_slice().split_last() else {
        return Err(Fault::Memory);
    };
    let cells = fan_cells(alloc, fronts, packed.pieces.as_slice())?;
    write_pages(pages, fronts, *last, packed)?;
    give_all(alloc, pages, spare)?;
    Ok(Fan { cells, last: *last })
}

/// Where the tree's part of a page begins, in bytes: page 1 has the database's header before it.
fn start_at(number: u32) -> usize
    ensures { result ≡ start_of number }
{
    if number == 1 { 100 } else { 0 }
}

/// The bytes before the tree's part of a page. (`Memory`, what `load` refuses, and `Damaged(Page, number)` if the page is shorter.)
fn front_of<P: WritePages>(alloc: Global, pages: &mut P, number: u32) -> R<Vec<u8>>
    ensures found { IsTrue (P.Pages.tells (P.Pages.below pages.old))
        → IsThere (P.Pages.map pages.old) (P.Pages.limits (P.Pages.below pages.old)).page number
        → start_of number ≤ (P.Pages.limits (P.Pages.below pages.old)).page
        → MatchResult result (λ front. front.items ≡ take (start_of number)
        (page_at (P.Pages.map pages.old) number)) IsOutside }
    ensures long { IfOk result (λ front. length front.items ≡ start_of number) }
    ensures stays { Stays P.Pages.below P.Pages.map P.Pages.count P.Pages.failures result pages.old pages.new }
{
    pages.load(number)?;
    let Some(front) = pages.loaded().get(..start_at(number)) else {
        return Err(Fault::Damaged(Damage::Page, number));
    };
    Ok(front.to_vec(alloc)?)
}

/// Whether pages of this kind have children.
fn is_interior(kind: Kind) -> bool
    ensures only { result ≡ true → right_room kind ≡ 4 }
    ensures all { right_room kind ≡ 4 → result ≡ true }
{
    match kind {
        Kind::TableLeaf | Kind::IndexLeaf => false,
        Kind::TableInterior | Kind::IndexInterior => true,
    }
}

/// The bytes of cells, without copies. (`Memory`.)
fn lent(alloc: Global, cells: &[Vec<u8>]) -> R<Vec<&[u8]>>
    ensures are { IfOk result (λ slices. map (λ slice. slice.now) slices.items ≡ map
        (λ cell. cell.items) cells.now) }
    ensures refused { IfErr result (λ fault. fault ≡ Fault.Memory) }
{
    let mut slices = Vec::with_capacity(alloc, cells.len())?;
    for cell in cells {
        slices.push(cell.as_slice())?;
    }
    Ok(slices)
}

/// Makes a page an interior page of this kind over a fan. (`Damaged(Page, root)` if the cells don't fit it or the kind has no children;
/// `Memory`, and what `load` and `put` refuse.)
pub fn raise<P: WritePages>(alloc: Global, pages: &mut P, root: u32, kind: Kind, fan: &Fan) -> R<()>
    ensures raised { IsTrue (P.Pages.tells (P.Pages.below pages.old))
        → Raises (P.Pages.map pages.old) (P.Pages.map pages.new) (P.Pages.limits (P.Pages.below pages.old)).page
        root kind fan.now.last (cells_of fan.now) result }
    ensures kept { P.Pages.below pages.new ≡ P.Pages.below pages.old }
    ensures causes { Causes result (P.Pages.failures pages.old) (P.Pages.failures pages.new) ⊥ }
{
    let cells = lent(alloc, fan.cells.as_slice())?;
    let front = front_of(alloc, pages, root)?;
    let size = pages.page_size();
    if !is_interior(kind) || !fits(size, front.len(), kind, cells.as_slice()) {
        return Err(Fault::Damaged(Damage::Page, root));
    }
    let page = build(
        alloc,
        front.as_slice(),
        size,
        kind,
        Some(fan.last),
        cells.as_slice(),
    )?;
    put_node(pages, root, page.as_slice())
}

/// Stores packed pages as the top of a tree: one alone on the root's page; several on pages that are taken, and the root becomes an interior
/// page of this kind over them. (`Damaged(Page, root)` if their dividers don't fit it.)
pub fn store_root<P: WritePages>(
    alloc: Global,
    pages: &mut P,
    root: u32,
    kind: Kind,
    packed: &Packed,
) -> R<()>
    ensures rooted { IsTrue (P.Pages.tells (P.Pages.below pages.old))
        → Roots (P.Pages.map pages.old) (P.Pages.map pages.new)
        (P.Pages.limits (P.Pages.below pages.old)).page root kind packed.now result }
    ensures kept { P.Pages.below pages.new ≡ P.Pages.below pages.old }
    ensures causes { Causes result (P.Pages.failures pages.old) (P.Pages.failures pages.new)
        (P.Pages.count pages.new ≡ (P.Pages.limits (P.Pages.below pages.new)).most) }
{
    if packed.pieces.is_empty() {
        return put_node(pages, root, packed.last.as_slice());
    }
    let fan = store(alloc, pages, &[], packed)?;
    raise(alloc, pages, root, kind, &fan)
}
