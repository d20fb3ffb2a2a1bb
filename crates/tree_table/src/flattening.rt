//! Building a table's tree anew over its leaves, so that its ways are short.

ghost use Rattle.std.specs.Prelude.{◌≡◌, ◌↔◌, ◌++◌, ℕ, ℤ, Ok, List, map, IsTrue, IfOk, IfErr, MatchResult};
ghost use Rattle.sqlval.specs.Faults.{IsNotDiskFault};
ghost use Rattle.pages.specs.Calls.{Causes, Stays};
ghost use Rattle.tree_pack.specs.Building.{Fits};
ghost use Rattle.pages.specs.Counting as counting;
ghost use Rattle.tree_store.specs.Storing.{cells_of};
ghost use Rattle.tree_page.specs.Node.{Node, Keys, IsNode, IsKeyCell};
ghost use Rattle.tree_table.specs.Flattening.{ReadsCells, ReadsKid, ReadsKids, ReadsBelow, Numbers, Opens, FindsLeaves};
ghost use Rattle.tree_table.specs.Flattening.{Gathers, BuildsOver, Flattens, StoresTop};

use crate::freeing::{Parts, parts_of};
use crate::growing::{cells_in, parent_cell};
use crate::inserting::WAYS;
use crate::leaf::{at_page, start_of};
use pages::{Pages, WritePages};
use sqlval::{Damage, Fault, R};
use std::alloc::Global;
use tree_pack::{Packed, fits, pack};
use tree_page::{Kind, TreePage};
use tree_store::{Fan, give_all, raise, store, store_root};

/// So many levels of interior pages stand above any list of pages, where each level has at most a sixteenth of those below it.
const LEVELS: u32 = 15;

// ---- the children of pages side by side

/// Puts copies of a page's cells after others. (`Memory`; `Damaged(Cell, 0)` if the page ends before a cell.)
fn copy_cells(alloc: Global, page: &TreePage<'_>, out: &mut Vec<Vec<u8>>) -> R<()>
    ensures copied { (node : Node) (is : IsNode page.now.bytes page.now.start node)
        → MatchResult result (λ done. map (λ cell. cell.items) out.new.items ≡ map
        (λ cell. cell.items) out.old.items ++ is.cells)
        (λ fault. fault ≡ Fault.Memory) }
    ensures not_disk { IfErr result IsNotDiskFault }
{
    let len = page.len();
    'cells: for place in 0..len {
        let cell = page.cell(place)?.to_vec(alloc)?;
        out.push(cell)?;
    }
    Ok(())
}

/// Puts the cells of an interior page of these bytes after others, and answers its last child. (`Memory`; `Damaged` for another page.)
fn cells_of_page(alloc: Global, bytes: &[u8], start: usize, out: &mut Vec<Vec<u8>>) -> R<u32>
    ensures read { (kids : List (ℕ × ℤ)) (last : ℕ) (is : IsNode bytes.now start (Keys kids last))
        → MatchResult result (λ child. (child ≡ last)
        × (map (λ cell. cell.items) out.new.items ≡ map (λ cell. cell.items) out.old.items ++ is.cells))
        (λ fault. fault ≡ Fault.Memory) }
    ensures not_disk { IfErr result IsNotDiskFault }
{
    let page = TreePage::over(bytes, start)?;
    let Some(last) = page.last_child() else {
        return Err(Fault::Damaged(Damage::Page, 0));
    };
    copy_cells(alloc, &page, out)?;
    Ok(last)
}

/// Puts the cells of an interior page after others, and answers its last child. (What `load` refuses; `Memory`; `Damaged` for another
/// page.)
fn read_cells<P: Pages>(alloc: Global, pages: &mut P, number: u32, out: &mut Vec<Vec<u8>>) -> R<u32>
    ensures read { IsTrue (P.Pages.tells (P.Pages.below pages.old))
        → ReadsCells (P.Pages.map pages.old) (P.Pages.limits (P.Pages.below pages.old)).page number
        (map (λ cell. cell.items) out.old.items) (map (λ cell. cell.items) out.new.items) result }
    ensures stays { Stays P.Pages.below P.Pages.map P.Pages.count P.Pages.failures result pages.old pages.new }
{
    pages.load(number)?;
    match cells_of_page(alloc, pages.loaded(), start_of(number), out) {
        Ok(last) => Ok(last),
        Err(fault) => Err(at_page(fault, number)),
    }
}

/// The number of the page that a cell leads to. (`Damaged(Cell, 0)` if the cell is too short.)
fn number_in(cell: &[u8]) -> R<u32>
    ensures only { (kid : ℕ × ℤ) → IsKeyCell cell.now kid → result ≡ Ok kid.0 }
    ensures not_disk { IfErr result IsNotDiskFault }
{
    let [a, b, c, d, ..] = cell else {
        return Err(Fault::Damaged(Damage::Cell, 0));
    };
    Ok(u32::from_be_bytes([*a, *b, *c, *d]))
}

/// Puts the cells of the interior page that a cell leads to after others, and then one for its last child, which takes the cell's key.
/// (What `read_cells` refuses.)
fn read_kid<P: Pages>(alloc: Global, pages: &mut P, cell: &[u8], out: &mut Vec<Vec<u8>>) -> R<()>
    ensures read { IsTrue (P.Pages.tells (P.Pages.below pages.old))
        → ReadsKid (P.Pages.map pages.old) (P.Pages.limits (P.Pages.below pages.old)).page cell.now
        (map (λ cell. cell.items) out.old.items) (map (λ cell. cell.items) out.new.items) result }
    ensures stays { Stays P.Pages.below P.Pages.map P.Pages.count P.Pages.failures result pages.old pages.new }
{
    let number = number_in(cell)?;
    let last = read_cells(alloc, pages, number, out)?;
    let moved = parent_cell(alloc, cell, last)?;
    out.push(moved)?;
    Ok(())
}

/// Puts the cells of all pages that cells lead to after others, as `read_kid` does.
fn read_kids<P: Pages>(
    alloc: Global,
    pages: &mut P,
    cells: &[Vec<u8>],
    out: &mut Vec<Vec<u8>>,
) -> R<()>
    ensures read { IsTrue (P.Pages.tells (P.Pages.below pages.old))
        → ReadsKids (P.Pages.map pages.old) (P.Pages.limits (P.Pages.below pages.old)).page
        (map (λ cell. cell.items) cells.now)
        (map (λ cell. cell.items) out.old.items) (map (λ cell. cell.items) out.new.items) result }
    ensures stays { Stays P.Pages.below P.Pages.map P.Pages.count P.Pages.failures result pages.old pages.new }
{
    let mut left = cells;
    'kids: while let Some((cell, after)) = left.split_first() {
        read_kid(alloc, pages, cell.as_slice(), out)?;
        left = after;
    }
    Ok(())
}

/// The children of all pages of a fan, as a fan. (What `read_cells` refuses.)
fn fan_below<P: Pages>(alloc: Global, pages: &mut P, fan: &Fan) -> R<Fan>
    ensures read { IsTrue (P.Pages.tells (P.Pages.below pages.old))
        → ReadsBelow (P.Pages.map pages.old) (P.Pages.limits (P.Pages.below pages.old)).page fan.now result }
    ensures stays { Stays P.Pages.below P.Pages.map P.Pages.count P.Pages.failures result pages.old pages.new }
{
    let mut cells = Vec::new(alloc);
    read_kids(alloc, pages, fan.cells.as_slice(), &mut cells)?;
    let last = read_cells(alloc, pages, fan.last, &mut cells)?;
    Ok(Fan { cells, last })
}

/// The numbers of a fan's pages. (`Memory`; `Damaged(Cell, 0)` if a cell is too short.)
fn numbers_of(alloc: Global, fan: &Fan) -> R<Vec<u32>>
    ensures are { Numbers (λ numbers. numbers.items) fan.now result }
    ensures not_disk { IfErr result IsNotDiskFault }
{
    let mut numbers = Vec::new(alloc);
    let mut left = fan.cells.as_slice();
    'cells: while let Some((cell, after)) = left.split_first() {
        numbers.push(number_in(cell.as_slice())?)?;
        left = after;
    }
    numbers.push(fan.last)?;
    Ok(numbers)
}

/// The children of all pages of a fan, which are given back. (What `fan_below` and `give` refuse.)
fn opened<P: WritePages>(alloc: Global, pages: &mut P, fan: &Fan) -> R<Fan>
    ensures opened { IsTrue (P.Pages.tells (P.Pages.below pages.old))
        → Opens (P.Pages.map pages.old) (P.Pages.map pages.new)
        (P.Pages.limits (P.Pages.below pages.old)).page fan.now result }
    ensures kept { P.Pages.below pages.new ≡ P.Pages.below pages.old }
    ensures causes { Causes result (P.Pages.failures pages.old) (P.Pages.failures pages.new) ⊥ }
{
    let below = fan_below(alloc, pages, fan)?;
    let numbers = numbers_of(alloc, fan)?;
    give_all(alloc, pages, numbers.as_slice())?;
    Ok(below)
}

/// The leaves below the pages of a fan, where as many pages as `ways` may stand above a leaf; the interior pages are given back.
/// (`Damaged(Depth, ..)` if there are more; what `opened` refuses.)
fn leaves_below<P: WritePages>(alloc: Global, pages: &mut P, fan: Fan, ways: u32) -> R<Fan>
    ensures found { IsTrue (P.Pages.tells (P.Pages.below pages.old))
        → FindsLeaves (P.Pages.map pages.old) (P.Pages.map pages.new)
        (P.Pages.limits (P.Pages.below pages.old)).page fan ways result }
    ensures kept { P.Pages.below pages.new ≡ P.Pages.below pages.old }
    ensures causes { Causes result (P.Pages.failures pages.old) (P.Pages.failures pages.new) ⊥ }
{
    match parts_of(pages, fan.last)? {
        Parts::Cells(_) => return Ok(fan),
        Parts::Children(_) => (),
    }
    if ways == 0 {
        return Err(Fault::Damaged(Damage::Depth, fan.last));
    }
    let below = opened(alloc, pages, &fan)?;
    leaves_below(alloc, pages, below, ways - 1)
}

// ---- pages above them

/// The pages above those of a fan, as full as may be, as a fan. (`Memory`; what `store` refuses.)
fn gathered<P: WritePages>(alloc: Global, pages: &mut P, fan: &Fan) -> R<Fan>
    ensures gathered { IsTrue (P.Pages.tells (P.Pages.below pages.old))
        → Gathers (P.Pages.map pages.old) (P.Pages.map pages.new)
        (P.Pages.limits (P.Pages.below pages.old)).page fan.now result }
    ensures kept { P.Pages.below pages.new ≡ P.Pages.below pages.old }
    ensures causes { Causes result (P.Pages.failures pages.old) (P.Pages.failures pages.new)
        (P.Pages.count pages.new ≡ (P.Pages.limits (P.Pages.below pages.new)).most) }
{
    let cells = cells_in(alloc, fan)?;
    let packed = pack(
        alloc,
        &[],
        pages.page_size(),
        Kind::TableInterior,
        Some(fan.last),
        cells.as_slice(),
        true,
    )?;
    store(alloc, pages, &[], &packed)
}

/// Whether the cells of a fan fit a root. (`Memory`.)
fn fits_root(alloc: Global, page_size: usize, root: u32, fan: &Fan) -> R<bool>
    ensures fits { IfOk result (λ fit. IsTrue fit ↔ Fits page_size (counting.start_of root) 4
        (cells_of fan.now)) }
    ensures refused { IfErr result (λ fault. fault ≡ Fault.Memory) }
{
    let cells = cells_in(alloc, fan)?;
    let start = start_of(root);
    Ok(fits(page_size, start, Kind::TableInterior, cells.as_slice()))
}

/// Makes a root the top of a tree over the pages of a fan, with as many levels between as `levels` at most. (`Damaged(Depth, root)` if
/// more are needed; what `gathered` and `raise` refuse.)
fn build_over<P: WritePages>(
    alloc: Global,
    pages: &mut P,
    root: u32,
    fan: &Fan,
    levels: u32,
) -> R<()>
    ensures built { IsTrue (P.Pages.tells (P.Pages.below pages.old))
        → BuildsOver (P.Pages.map pages.old) (P.Pages.map pages.new)
        (P.Pages.limits (P.Pages.below pages.old)).page root fan.now levels result }
    ensures kept { P.Pages.below pages.new ≡ P.Pages.below pages.old }
    ensures causes { Causes result (P.Pages.failures pages.old) (P.Pages.failures pages.new)
        (P.Pages.count pages.new ≡ (P.Pages.limits (P.Pages.below pages.new)).most) }
{
    if fits_root(alloc, pages.page_size(), root, fan)? {
        return raise(alloc, pages, root, Kind::TableInterior, fan);
    }
    if levels == 0 {
        return Err(Fault::Damaged(Damage::Depth, root));
    }
    let above = gathered(alloc, pages, fan)?;
    build_over(alloc, pages, root, &above, levels - 1)
}

// ---- a whole tree

/// Builds the tree under a root anew, whose ways have at most 21 pages: the leaves stay as they are, and interior pages that are full stand
/// above them. (What `leaves_below` and `build_over` refuse.)
pub(crate) fn flatten<P: WritePages>(alloc: Global, pages: &mut P, root: u32) -> R<()>
    ensures flattened { IsTrue (P.Pages.tells (P.Pages.below pages.old))
        → Flattens (P.Pages.map pages.old) (P.Pages.map pages.new)
        (P.Pages.limits (P.Pages.below pages.old)).page root result }
    ensures kept { P.Pages.below pages.new ≡ P.Pages.below pages.old }
    ensures causes { Causes result (P.Pages.failures pages.old) (P.Pages.failures pages.new)
        (P.Pages.count pages.new ≡ (P.Pages.limits (P.Pages.below pages.new)).most) }
{
    let mut cells = Vec::new(alloc);
    let last = read_cells(alloc, pages, root, &mut cells)?;
    let leaves = leaves_below(alloc, pages, Fan { cells, last }, WAYS)?;
    build_over(alloc, pages, root, &leaves, LEVELS)
}

/// Stores packed pages as the top of the tree under a root. A tree whose ways have 21 pages then is built anew. (What `store_root` and
/// `flatten` refuse.)
pub(crate) fn store_top<P: WritePages>(
    alloc: Global,
    pages: &mut P,
    root: u32,
    packed: &Packed,
    deep: bool,
) -> R<()>
    ensures stored { IsTrue (P.Pages.tells (P.Pages.below pages.old))
        → StoresTop (P.Pages.map pages.old) (P.Pages.map pages.new)
        (P.Pages.limits (P.Pages.below pages.old)).page root packed.now deep result }
    ensures kept { P.Pages.below pages.new ≡ P.Pages.below pages.old }
    ensures causes { Causes result (P.Pages.failures pages.old) (P.Pages.failures pages.new)
        (P.Pages.count pages.new ≡ (P.Pages.limits (P.Pages.below pages.new)).most) }
{
    store_root(alloc, pages, root, Kind::TableInterior, packed)?;
    if deep && !packed.pieces.is_empty() {
        return flatten(alloc, pages, root);
    }
    Ok(())
}
