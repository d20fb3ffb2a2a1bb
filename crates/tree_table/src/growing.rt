//! Putting a row into the pages of a table's tree.

ghost use Rattle.std.specs.Prelude.{◌≡◌, map, IsTrue, IfOk, IfErr};
ghost use Rattle.sqlval.specs.Faults.{IsNotDiskFault};
ghost use Rattle.tree_store.specs.Storing.{cells_of};
ghost use Rattle.pages.specs.Calls.{Causes};
ghost use Rattle.tree_table.specs.Growing.{Changes, PlansLeaf, Widens};
ghost use Rattle.tree_table.specs.Fanning.{Fans, Parents};

use crate::descending::{Step, step_from};
use crate::leaf::start_of;
use pages::WritePages;
use sqlval::{Damage, Fault, R};
use std::alloc::Global;
use tree_overflow::write_payload;
use tree_pack::{Packed, row_cell, splice};
use tree_page::TreePage;
use tree_store::{Fan, place_on, store};

/// What becomes of a page into whose tree a row is put, or out of which one is taken.
#[derive(Drop)]
pub(crate) enum Change {
    /// Nothing has changed.
    Still,
    /// The page stays, and below it all is done.
    Same,
    /// The page gives way to these, which aren't stored yet; and whether no page may stand above it.
    Spread(Packed, bool),
}

/// Puts a row at a place of a leaf, where that has room for it; else answers the pages that the leaf gives way to. The row's payload is written, these
/// pages aren't.
pub(crate) fn leaf_with<P: WritePages>(
    alloc: Global,
    pages: &mut P,
    number: u32,
    place: usize,
    rowid: i64,
    payload: &[u8],
) -> R<Option<Packed>>
    ensures planned { IsTrue (P.Pages.tells (P.Pages.below pages.old))
        → PlansLeaf (P.Pages.map pages.old) (P.Pages.map pages.new)
        (P.Pages.limits (P.Pages.below pages.old)).page number place
        (record { rowid = rowid; payload = payload.now }) result }
    ensures kept { P.Pages.below pages.new ≡ P.Pages.below pages.old }
    ensures causes { Causes result (P.Pages.failures pages.old) (P.Pages.failures pages.new)
        (P.Pages.count pages.new ≡ (P.Pages.limits (P.Pages.below pages.new)).most) }
{
    let most = pages.page_size().saturating_sub(35);
    let held = write_payload(alloc, pages, most, payload)?;
    let cell = row_cell(alloc, rowid, payload.len() as u64, held.as_slice())?;
    if place_on(alloc, pages, number, place, cell.as_slice())? {
        return Ok(None);
    }
    pages.load(number)?;
    let start = start_of(number);
    let cells = [cell.as_slice()];
    let packed = splice(alloc, pages.loaded(), start, place, 0, &cells, None)?;
    Ok(Some(packed))
}

/// The cell with this child in place of its own.
pub(crate) fn parent_cell(alloc: Global, cell: &[u8], child: u32) -> R<Vec<u8>>
    ensures parents { Parents cell.now child result }
    ensures not_disk { IfErr result IsNotDiskFault }
{
    let Some((_, key)) = cell.split_at_checked(4) else {
        return Err(Fault::Damaged(Damage::Cell, 0));
    };
    let mut moved = child.to_be_bytes().to_vec(alloc)?;
    moved.extend_from_slice(key)?;
    Ok(moved)
}

/// The cells of a fan.
pub(crate) fn cells_in<'a>(alloc: Global, fan: &'a Fan) -> R<Vec<&'a [u8]>>
    ensures cells { IfOk result (λ cells. map (λ cell. cell.now) cells.items ≡ cells_of fan.now) }
    ensures refused { IfErr result (λ fault. fault ≡ Fault.Memory) }
{
    let mut cells = Vec::with_capacity(alloc, fan.cells.len())?;
    'cells: for cell in fan.cells.as_slice() {
        cells.push(cell.as_slice())?;
    }
    Ok(cells)
}

/// The pages that an interior page gives way to when a fan stands in place of the child at a place of it.
pub(crate) fn fanned(alloc: Global, page: &[u8], start: usize, place: usize, fan: &Fan) -> R<Packed>
    ensures fans { Fans page.now start place fan.now result }
    ensures not_disk { IfErr result IsNotDiskFault }
{
    let node = TreePage::over(page, start)?;
    if place >= node.len() {
        let cells = cells_in(alloc, fan)?;
        return splice(
            alloc,
            page,
            start,
            place,
            0,
            cells.as_slice(),
            Some(fan.last),
        );
    }
    let moved = parent_cell(alloc, node.cell(place)?, fan.last)?;
    let mut cells = cells_in(alloc, fan)?;
    cells.push(moved.as_slice())?;
    splice(
        alloc,
        page,
        start,
        place,
        1,
        cells.as_slice(),
        node.last_child(),
    )
}

/// What becomes of an interior page when the child at a place of it gives way to packed pages, which are stored.
pub(crate) fn widened<P: WritePages>(
    alloc: Global,
    pages: &mut P,
    number: u32,
    place: usize,
    child: u32,
    packed: &Packed,
    deep: bool,
) -> R<Change>
    ensures widened { IsTrue (P.Pages.tells (P.Pages.below pages.old))
        → Widens (P.Pages.map pages.old) (P.Pages.map pages.new)
        (P.Pages.limits (P.Pages.below pages.old)).page number place child packed.now deep result }
    ensures kept { P.Pages.below pages.new ≡ P.Pages.below pages.old }
    ensures causes { Causes result (P.Pages.failures pages.old) (P.Pages.failures pages.new)
        (P.Pages.count pages.new ≡ (P.Pages.limits (P.Pages.below pages.new)).most) }
{
    let fan = store(alloc, pages, &[child], packed)?;
    if fan.cells.is_empty() {
        return Ok(Change::Same);
    }
    pages.load(number)?;
    let packed = fanned(alloc, pages.loaded(), start_of(number), place, &fan)?;
    Ok(Change::Spread(packed, deep))
}

/// What becomes of a page into whose tree a row is put, where as many more pages as `ways` may stand on a way below it. All
/// pages below it are stored then. (`Damaged(Depth, number)` if a way is longer.)
pub(crate) fn packed_below<P: WritePages>(
    alloc: Global,
    pages: &mut P,
    number: u32,
    ways: u32,
    rowid: i64,
    payload: &[u8],
) -> R<Change>
    ensures changes { IsTrue (P.Pages.tells (P.Pages.below pages.old))
        → Changes (P.Pages.map pages.old) (P.Pages.map pages.new)
        (P.Pages.limits (P.Pages.below pages.old)).page number ways
        (record { rowid = rowid; payload = payload.now }) result }
    ensures kept { P.Pages.below pages.new ≡ P.Pages.below pages.old }
    ensures causes { Causes result (P.Pages.failures pages.old) (P.Pages.failures pages.new)
        (P.Pages.count pages.new ≡ (P.Pages.limits (P.Pages.below pages.new)).most) }
{
    let (place, child) = match step_from(pages, number, rowid)? {
        Step::Found(_) => return Ok(Change::Still),
        Step::Here(place) => {
            let Some(packed) = leaf_with(alloc, pages, number, place, rowid, payload)? else {
                return Ok(Change::Same);
            };
            return Ok(Change::Spread(packed, ways == 0));
        }
        Step::Down(place, child) => (place, child),
    };
    if ways == 0 {
        return Err(Fault::Damaged(Damage::Depth, number));
    }
    let change = packed_below(alloc, pages, child, ways - 1, rowid, payload)?;
    match change {
        Change::Spread(packed, deep) => {
            widened(alloc, pages, number, place, child, &packed, deep)
        }
        Change::Same => Ok(Change::Same),
        Change::Still => Ok(Change::Still),
    }
}
