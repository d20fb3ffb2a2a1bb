//! Putting an entry into the pages of an index's tree.

ghost use Rattle.std.specs.Prelude.{◌≡◌, ℕ, map, IsTrue, IfOk, IfErr};
ghost use Rattle.sqlval.specs.Faults.{IsNotDiskFault};
ghost use Rattle.tree_store.specs.Storing.{cells_of};
ghost use Rattle.pages.specs.Calls.{Causes};
ghost use Rattle.tree_index.specs.Growing.{Changes, PutsOnLeaf, Fans, Parents, PlansLeaf, Widens};

use crate::cells::most_in;
use crate::coming::run_on;
use crate::comparing::Key;
use crate::placing::{Step, step_from};
use pages::WritePages;
use sqlval::{Damage, Fault, Many, R, Value};
use std::alloc::Global;
use tree_overflow::write_payload;
use tree_pack::{Packed, entry_cell, splice};
use tree_page::TreePage;
use tree_store::{Fan, place_on, store};

/// What becomes of a page into whose tree an entry is put.
#[derive(Drop)]
pub(crate) enum Change {
    /// The entry is there: nothing has changed.
    There,
    /// The page stays, and below it all is done: so many of the entries after the first are there too.
    Same(usize),
    /// The page gives way to these, which aren't stored yet; and whether no page may stand above it.
    Spread(Packed, bool),
}

/// An entry, and its record.
#[derive(Clone, Copy)]
pub(crate) struct New<'a> {
    /// Its values, with the columns' collations.
    pub key: Key<'a>,
    /// Its record.
    pub payload: &'a [u8],
}

/// Puts an entry on a leaf, before the one at a place: its cell is written where the page has room for it. None then; else the pages that the leaf
/// gives way to, which aren't stored yet.
fn leaf_with<P: WritePages>(
    alloc: Global,
    pages: &mut P,
    number: u32,
    place: usize,
    new: New<'_>,
) -> R<Option<Packed>>
    ensures planned { IsTrue (P.Pages.tells (P.Pages.below pages.old))
        → PlansLeaf (P.Pages.map pages.old) (P.Pages.map pages.new)
        (P.Pages.limits (P.Pages.below pages.old)).page number place
        new.entry.payload.now result }
    ensures kept { P.Pages.below pages.new ≡ P.Pages.below pages.old }
    ensures causes { Causes result (P.Pages.failures pages.old) (P.Pages.failures pages.new)
        (P.Pages.count pages.new ≡ (P.Pages.limits (P.Pages.below pages.new)).most) }
{
    let most = most_in(pages.page_size());
    let held = write_payload(alloc, pages, most, new.payload)?;
    let cell = entry_cell(alloc, new.payload.len() as u64, held.as_slice())?;
    if place_on(alloc, pages, number, place, cell.as_slice())? {
        return Ok(None);
    }
    pages.load(number)?;
    let cells = [cell.as_slice()];
    let packed = splice(alloc, pages.loaded(), 0, place, 0, &cells, None)?;
    Ok(Some(packed))
}

/// Puts an entry on a leaf, before the one at a place, and, where the leaf stays, those of the rest that `run_on` puts on it: what becomes of the
/// leaf.
fn put_run<P: WritePages>(
    alloc: Global,
    pages: &mut P,
    number: u32,
    place: usize,
    deep: bool,
    new: New<'_>,
    rest: &[Many<Value>],
) -> R<Change>
    ensures changed { IsTrue (P.Pages.tells (P.Pages.below pages.old))
        → PutsOnLeaf (P.Pages.map pages.old) (P.Pages.map pages.new)
        (P.Pages.limits (P.Pages.below pages.old)).page number place deep new.entry.key.columns.now
        new.entry.payload.now rest.now result }
    ensures kept { P.Pages.below pages.new ≡ P.Pages.below pages.old }
    ensures causes { Causes result (P.Pages.failures pages.old) (P.Pages.failures pages.new)
        (P.Pages.count pages.new ≡ (P.Pages.limits (P.Pages.below pages.new)).most) }
{
    if let Some(packed) = leaf_with(alloc, pages, number, place, new)? {
        return Ok(Change::Spread(packed, deep));
    }
    let next = place.saturating_add(1);
    Ok(Change::Same(run_on(alloc, pages, number, next, new.key.columns, rest)?))
}

/// The cell with this child in place of its own.
pub(crate) fn parent_cell(alloc: Global, cell: &[u8], child: u32) -> R<Vec<u8>>
    ensures parents { (usable : ℕ) → Parents usable cell.now child result }
    ensures not_disk { IfErr result IsNotDiskFault }
{
    let Some((_, entry)) = cell.split_at_checked(4) else {
        return Err(Fault::Damaged(Damage::Cell, 0));
    };
    let mut moved = child.to_be_bytes().to_vec(alloc)?;
    moved.extend_from_slice(entry)?;
    Ok(moved)
}

/// The bytes of cells, without copies.
pub(crate) fn cells_in<'a>(alloc: Global, cells: &'a [Vec<u8>]) -> R<Vec<&'a [u8]>>
    ensures cells { IfOk result (λ lent. map (λ cell. cell.now) lent.items ≡ map
        (λ cell. cell.items) cells.now) }
    ensures refused { IfErr result (λ fault. fault ≡ Fault.Memory) }
{
    let mut lent = Vec::with_capacity(alloc, cells.len())?;
    'cells: for cell in cells {
        lent.push(cell.as_slice())?;
    }
    Ok(lent)
}

/// The pages that an interior page gives way to when a fan stands in place of the child at a place of it.
pub(crate) fn fanned(alloc: Global, page: &[u8], place: usize, fan: &Fan) -> R<Packed>
    ensures fans { Fans page.now place fan.now result }
    ensures not_disk { IfErr result IsNotDiskFault }
{
    let node = TreePage::over(page, 0)?;
    if place >= node.len() {
        let cells = cells_in(alloc, fan.cells.as_slice())?;
        return splice(alloc, page, 0, place, 0, cells.as_slice(), Some(fan.last));
    }
    let moved = parent_cell(alloc, node.cell(place)?, fan.last)?;
    let mut cells = cells_in(alloc, fan.cells.as_slice())?;
    cells.push(moved.as_slice())?;
    splice(
        alloc,
        page,
        0,
        place,
        1,
        cells.as_slice(),
        node.last_child(),
    )
}

/// What becomes of an interior page when the child at a place of it gives way to packed pages, which are stored.
fn widened<P: WritePages>(
    alloc: Global,
    pages: &mut P,
    number: u32,
    place: usize,
    child: u32,
    packed: &Packed,
    deep: bool,
) -> R<Change>
    ensures widened { IsTrue (P.Pages.tells (P.Pages.below pages.old))
        → Widens (P.Pages.map pages.old) (P.Pages.map pages.new)
        (P.Pages.limits (P.Pages.below pages.old)).page number place child packed.now deep result }
    ensures kept { P.Pages.below pages.new ≡ P.Pages.below pages.old }
    ensures causes { Causes result (P.Pages.failures pages.old) (P.Pages.failures pages.new)
        (P.Pages.count pages.new ≡ (P.Pages.limits (P.Pages.below pages.new)).most) }
{
    let fan = store(alloc, pages, &[child], packed)?;
    if fan.cells.is_empty() {
        return Ok(Change::Same(0));
    }
    pages.load(number)?;
    let packed = fanned(alloc, pages.loaded(), place, &fan)?;
    Ok(Change::Spread(packed, deep))
}

/// What becomes of a page into whose tree an entry is put, and with it as many of the rest as are put on the same leaf, where as many more
/// pages as `ways` may stand on a way below it. All pages below it are stored then. (`Damaged(Depth, number)` if a way is longer.)
pub(crate) fn packed_below<P: WritePages>(
    alloc: Global,
    pages: &mut P,
    number: u32,
    ways: u32,
    new: New<'_>,
    rest: &[Many<Value>],
    scratch: &mut Vec<u8>,
) -> R<Change>
    ensures changes { IsTrue (P.Pages.tells (P.Pages.below pages.old))
        → Changes (P.Pages.map pages.old) (P.Pages.map pages.new)
        (P.Pages.limits (P.Pages.below pages.old)).page number ways
        new.entry.key.columns.now new.entry.key.values.now new.entry.payload.now rest.now result }
    ensures kept { P.Pages.below pages.new ≡ P.Pages.below pages.old }
    ensures causes { Causes result (P.Pages.failures pages.old) (P.Pages.failures pages.new)
        (P.Pages.count pages.new ≡ (P.Pages.limits (P.Pages.below pages.new)).most) }
{
    let (place, child) = match step_from(pages, number, new.key, scratch)? {
        Step::Found(_) => return Ok(Change::There),
        Step::Here(place) => return put_run(alloc, pages, number, place, ways == 0, new, rest),
        Step::Down(place, child) => (place, child),
    };
    if ways == 0 {
        return Err(Fault::Damaged(Damage::Depth, number));
    }
    let change = packed_below(alloc, pages, child, ways - 1, new, rest, scratch)?;
    match change {
        Change::Spread(packed, deep) => {
            widened(alloc, pages, number, place, child, &packed, deep)
        }
        Change::Same(more) => Ok(Change::Same(more)),
        Change::There => Ok(Change::There),
    }
}
