//! Changing a run of rows, those that stand on one leaf of a table's tree.

ghost use Rattle.std.specs.Prelude.{◌≡◌, ◌<◌, ◌≤◌, ℤ, ⊤, All, List, length, map, slice_index_or, IsTrue, IfOk, IfErr, MatchOption, MatchResult};
ghost use Rattle.sqlval.specs.Faults.{IsNotDiskFault};
ghost use Rattle.pages.specs.Calls.{Causes};
ghost use Rattle.pages.specs.Counting as counting;
ghost use Rattle.tree_page.specs.Node.{Local, Rows, IsNode};
ghost use Rattle.tree_table.specs.Runs.{AppendsRow, ChangesBelow, ChangesLeaf, Exchanges, ExchangesLeaf, FindsPlace, FindsRun, FreesRun, IsFirst, PutsAgain, TakesRow, room_for, WritesRow, WritesRows};
ghost use Rattle.tree_table.specs.Stepping.{HasRowid};

use crate::changing::RowChange;
use crate::descending::{Step, step_from};
use crate::freeing::free_row;
use crate::growing::{Change, leaf_with};
use crate::joining::narrowed;
use crate::leaf::start_of;
use crate::rewriting::{is_one_change, rewrite_row, rewritten};
use pages::WritePages;
use sqlval::{Damage, Fault, R};
use std::alloc::Global;
use tree_overflow::write_payload;
use tree_pack::{Packed, row_cell, splice};
use tree_page::TreePage;
use tree_store::take_off;

/// How much room the row's new cell takes at most on a page of this size.
fn room_for(change: &RowChange, size: usize) -> usize
    ensures { result ≡ room_for size change.now }
{
    match &change.payload {
        None => 0,
        Some(payload) => payload.len().min(size.saturating_sub(35)) + 24,
    }
}

/// The place after this one on a leaf of these bytes whose row has this rowid: sought from there on in leaps that grow, and then by halving. (None
/// where none is found; `Damaged` for another page.)
fn place_after(bytes: &[u8], start: usize, last: usize, rowid: i64) -> R<Option<usize>>
    ensures found { (said : List (ℤ × Local)) → IsNode bytes.now start (Rows said)
        → MatchResult result (λ found. MatchOption found ⊤ (λ place. (last < place)
        × HasRowid rowid said place)) (λ fault. ⊥) }
    ensures not_disk { IfErr result IsNotDiskFault }
{
    let page = TreePage::over(bytes, start)?;
    let mut low = last;
    let mut high = page.len();
    let mut step = 0;
    'leaps: while low.saturating_add(1) < high {
        let at = low + 1 + ((high - low - 2) / 2).min(step);
        let found = page.row(at)?.rowid;
        if found == rowid {
            return Ok(Some(at));
        }
        if found < rowid {
            low = at;
            step = step.saturating_mul(2).saturating_add(1);
        } else {
            high = at;
        }
    }
    Ok(None)
}

/// The place of a change's row on a leaf of these bytes, if it stands there after a place and its new cell takes no more than this room.
/// Most often it is the next place. (`Damaged` for another page.)
fn next_place(
    bytes: &[u8],
    start: usize,
    last: usize,
    room: usize,
    change: &RowChange,
) -> R<Option<usize>>
    ensures found { FindsPlace bytes.now start last room change.now result }
    ensures not_disk { IfErr result IsNotDiskFault }
{
    if room < room_for(change, bytes.len()) {
        return Ok(None);
    }
    place_after(bytes, start, last, change.rowid)
}

/// The places on a leaf of these bytes of the rows of the first changes: of the first one, and of those after it as long as their rows stand
/// there at rising places and the new cells take no more than a page's room together. (`Memory`; `Damaged` for another page.)
fn run_in(
    alloc: Global,
    bytes: &[u8],
    start: usize,
    place: usize,
    changes: &[RowChange],
) -> R<Vec<usize>>
    ensures found { FindsRun bytes.now start place changes.now result }
    ensures few { IfOk result (λ places. 0 < length changes.now → (0 < length places.items)
        × (length places.items ≤ length changes.now)) }
    ensures not_disk { IfErr result IsNotDiskFault }
{
    let mut places = Vec::new(alloc);
    let Some((first, rest)) = changes.split_first() else {
        return Ok(places);
    };
    places.push(place)?;
    let mut last = place;
    let mut room = bytes.len().saturating_sub(room_for(first, bytes.len()));
    'changes: for change in rest {
        let Some(next) = next_place(bytes, start, last, room, change)? else {
            return Ok(places);
        };
        places.push(next)?;
        last = next;
        room = room.saturating_sub(room_for(change, bytes.len()));
    }
    Ok(places)
}

/// Whether the rows at these places of a leaf of these bytes have payloads of at most so many bytes each. (Also `false` where there is no such
/// row.)
fn are_short(bytes: &[u8], leaf: u32, places: &[usize], most: u64) -> bool
    ensures { IsTrue result → (said : List (ℤ × Local)) (d : ℤ × Local)
        → IsNode bytes.now (counting.start_of leaf) (Rows said)
        → All (λ place. place < length said → (slice_index_or said place d).1.size ≤ most) places.now }
{
    let Ok(page) = TreePage::over(bytes, start_of(leaf)) else {
        return false;
    };
    'places: for place in places {
        let Ok(row) = page.row(*place) else {
            return false;
        };
        if row.payload.size > most {
            return false;
        }
    }
    true
}

/// Gives the pages back over which the rows at these places of a leaf go on, if there are any. (What `load` and `free_row` refuse.)
fn free_run<P: WritePages>(alloc: Global, pages: &mut P, leaf: u32, places: &[usize]) -> R<()>
    ensures freed { IsTrue (P.Pages.tells (P.Pages.below pages.old))
        → FreesRun (P.Pages.map pages.old) (P.Pages.map pages.new)
        (P.Pages.limits (P.Pages.below pages.old)).page leaf places.now result }
    ensures kept { P.Pages.below pages.new ≡ P.Pages.below pages.old }
    ensures causes { Causes result (P.Pages.failures pages.old) (P.Pages.failures pages.new) ⊥ }
{
    pages.load(leaf)?;
    let most = pages.page_size().saturating_sub(35);
    if are_short(pages.loaded(), leaf, places, most as u64) {
        return Ok(());
    }
    'places: for place in places {
        free_row(alloc, pages, leaf, *place)?;
    }
    Ok(())
}

/// Writes a row's new payload, and answers its cell; nothing if the row is removed. (What `write_payload` refuses.)
fn write_row<P: WritePages>(alloc: Global, pages: &mut P, change: &RowChange) -> R<Option<Vec<u8>>>
    ensures written { IsTrue (P.Pages.tells (P.Pages.below pages.old))
        → WritesRow (P.Pages.map pages.old) (P.Pages.map pages.new)
        (P.Pages.limits (P.Pages.below pages.old)).page change.now result }
    ensures kept { P.Pages.below pages.new ≡ P.Pages.below pages.old }
    ensures causes { Causes result (P.Pages.failures pages.old) (P.Pages.failures pages.new)
        (P.Pages.count pages.new ≡ (P.Pages.limits (P.Pages.below pages.new)).most) }
{
    let Some(payload) = &change.payload else {
        return Ok(None);
    };
    let most = pages.page_size().saturating_sub(35);
    let size = payload.len() as u64;
    if payload.len() <= most {
        return Ok(Some(row_cell(alloc, change.rowid, size, payload.as_slice())?));
    }
    let held = write_payload(alloc, pages, most, payload.as_slice())?;
    let cell = row_cell(alloc, change.rowid, size, held.as_slice())?;
    Ok(Some(cell))
}

/// Writes the new payloads of rows, and answers their cells. (What `write_row` refuses.)
fn write_rows<P: WritePages>(
    alloc: Global,
    pages: &mut P,
    changes: &[RowChange],
) -> R<Vec<Option<Vec<u8>>>>
    ensures written { IsTrue (P.Pages.tells (P.Pages.below pages.old))
        → WritesRows (P.Pages.map pages.old) (P.Pages.map pages.new)
        (P.Pages.limits (P.Pages.below pages.old)).page changes.now result }
    ensures counted { IfOk result (λ cells. length cells.items ≡ length changes.now) }
    ensures kept { P.Pages.below pages.new ≡ P.Pages.below pages.old }
    ensures causes { Causes result (P.Pages.failures pages.old) (P.Pages.failures pages.new)
        (P.Pages.count pages.new ≡ (P.Pages.limits (P.Pages.below pages.new)).most) }
{
    let mut cells = Vec::with_capacity(alloc, changes.len())?;
    'changes: for change in changes {
        let cell = write_row(alloc, pages, change)?;
        cells.push(cell)?;
    }
    Ok(cells)
}

/// Appends the cells of a page from one place up to another, and then this cell, if there is one. (`Memory`; `Damaged(Cell, 0)` if the page
/// has no such cells.)
fn append_row<'a>(
    out: &mut Vec<&'a [u8]>,
    page: &TreePage<'a>,
    from: usize,
    to: usize,
    cell: &'a Option<Vec<u8>>,
) -> R<()>
    ensures put { AppendsRow page.now from to cell.now (map (λ cell. cell.now) out.old.items)
        (map (λ cell. cell.now) out.new.items) result }
    ensures not_disk { IfErr result IsNotDiskFault }
{
    let mut index = from;
    'cells: while index < to {
        out.push(page.cell(index)?)?;
        index += 1;
    }
    if let Some(cell) = cell {
        out.push(cell.as_slice())?;
    }
    Ok(())
}

/// The first of these places, or 0 if there is none.
fn first_of(places: &[usize]) -> usize
    ensures { result ≡ slice_index_or places.now 0 0 }
{
    match places {
        [first, ..] => *first,
        [] => 0,
    }
}

/// The pages that a leaf gives way to when the rows at these places get these cells, or none. (`Memory`; `Damaged` for another page.)
fn exchange(
    alloc: Global,
    bytes: &[u8],
    start: usize,
    places: &[usize],
    cells: &[Option<Vec<u8>>],
) -> R<Packed>
    requires { length places.now ≡ length cells.now }
    ensures exchanged { Exchanges bytes.now start places.now cells.now result }
    ensures not_disk { IfErr result IsNotDiskFault }
{
    let page = TreePage::over(bytes, start)?;
    let first = first_of(places);
    let mut all = Vec::new(alloc);
    let mut from = first;
    'places: for index in 0..places.len() {
        append_row(&mut all, &page, from, places[index], &cells[index])?;
        from = places[index].saturating_add(1);
    }
    let count = from.saturating_sub(first);
    splice(alloc, bytes, start, first, count, all.as_slice(), None)
}

/// The pages that a leaf gives way to when the rows of a run are changed, which stand at these places. The old rows' overflow pages are given back,
/// the new payloads are written, the pages aren't.
fn exchanged_leaf<P: WritePages>(
    alloc: Global,
    pages: &mut P,
    number: u32,
    places: &[usize],
    changes: &[RowChange],
) -> R<Packed>
    requires { length places.now ≡ length changes.now }
    ensures exchanged { IsTrue (P.Pages.tells (P.Pages.below pages.old))
        → ExchangesLeaf (P.Pages.map pages.old) (P.Pages.map pages.new)
        (P.Pages.limits (P.Pages.below pages.old)).page number places.now changes.now result }
    ensures kept { P.Pages.below pages.new ≡ P.Pages.below pages.old }
    ensures causes { Causes result (P.Pages.failures pages.old) (P.Pages.failures pages.new)
        (P.Pages.count pages.new ≡ (P.Pages.limits (P.Pages.below pages.new)).most) }
{
    free_run(alloc, pages, number, places)?;
    let cells = write_rows(alloc, pages, changes)?;
    pages.load(number)?;
    exchange(
        alloc,
        pages.loaded(),
        start_of(number),
        places,
        cells.as_slice(),
    )
}

/// The pages that a leaf gives way to when the rows of a run are changed, the first of which stands at this place, and how many changes were
/// made. The old rows' overflow pages are given back, the new payloads are written, the pages aren't.
fn changed_leaf<P: WritePages>(
    alloc: Global,
    pages: &mut P,
    number: u32,
    place: usize,
    changes: &[RowChange],
) -> R<(usize, Packed)>
    requires { 0 < length changes.now }
    ensures changed { IsTrue (P.Pages.tells (P.Pages.below pages.old))
        → ChangesLeaf (P.Pages.map pages.old) (P.Pages.map pages.new)
        (P.Pages.limits (P.Pages.below pages.old)).page number place changes.now result }
    ensures some { IfOk result (λ done. (0 < done.0) × (done.0 ≤ length changes.now)) }
    ensures kept { P.Pages.below pages.new ≡ P.Pages.below pages.old }
    ensures causes { Causes result (P.Pages.failures pages.old) (P.Pages.failures pages.new)
        (P.Pages.count pages.new ≡ (P.Pages.limits (P.Pages.below pages.new)).most) }
{
    pages.load(number)?;
    let start = start_of(number);
    let places = run_in(alloc, pages.loaded(), start, place, changes)?;
    let count = places.len();
    let (made, _) = changes.split_at(count);
    if let Some(packed) = rewritten(alloc, pages.loaded(), start, places.as_slice(), made)? {
        return Ok((count, packed));
    }
    let packed = exchanged_leaf(alloc, pages, number, places.as_slice(), made)?;
    Ok((count, packed))
}

/// Takes the row at a place off its leaf, without moving any other, where its change is the only one and the row lies whole on the leaf. Answers
/// whether it did; if not, nothing changes. (What `load` and `take_off` refuse.)
fn taken_off<P: WritePages>(
    alloc: Global,
    pages: &mut P,
    number: u32,
    place: usize,
    changes: &[RowChange],
) -> R<bool>
    ensures taken { IsTrue (P.Pages.tells (P.Pages.below pages.old))
        → TakesRow (P.Pages.map pages.old) (P.Pages.map pages.new)
        (P.Pages.limits (P.Pages.below pages.old)).page number place changes.now result }
    ensures kept { P.Pages.below pages.new ≡ P.Pages.below pages.old }
    ensures causes { Causes result (P.Pages.failures pages.old) (P.Pages.failures pages.new) ⊥ }
{
    if !is_one_change(changes) {
        return Ok(false);
    }
    pages.load(number)?;
    let most = pages.page_size().saturating_sub(35);
    if !are_short(pages.loaded(), number, &[place], most as u64) {
        return Ok(false);
    }
    take_off(alloc, pages, number, place)
}

/// What becomes of a leaf that a row was taken off, when the row is put in again at its place with the payload that the first change gives it, if
/// it gives one; `ways` as in `changed_below`. (What `leaf_with` refuses.)
fn put_again<P: WritePages>(
    alloc: Global,
    pages: &mut P,
    number: u32,
    place: usize,
    ways: u32,
    rowid: i64,
    changes: &[RowChange],
) -> R<Change>
    ensures put { IsTrue (P.Pages.tells (P.Pages.below pages.old))
        → PutsAgain (P.Pages.map pages.old) (P.Pages.map pages.new)
        (P.Pages.limits (P.Pages.below pages.old)).page number place ways rowid changes.now result }
    ensures kept { P.Pages.below pages.new ≡ P.Pages.below pages.old }
    ensures causes { Causes result (P.Pages.failures pages.old) (P.Pages.failures pages.new)
        (P.Pages.count pages.new ≡ (P.Pages.limits (P.Pages.below pages.new)).most) }
{
    let Some((change, _)) = changes.split_first() else {
        return Ok(Change::Same);
    };
    let Some(payload) = &change.payload else {
        return Ok(Change::Same);
    };
    match leaf_with(alloc, pages, number, place, rowid, payload.as_slice())? {
        Some(packed) => Ok(Change::Spread(packed, ways == 0)),
        None => Ok(Change::Same),
    }
}

/// What becomes of a page in whose tree the rows of a run are changed, the first of which has this rowid, where as many more pages as `ways`
/// may stand on a way below it; and how many changes were made. All pages below it are stored then. (`Damaged(Depth, number)` if a way is
/// longer.)
pub(crate) fn changed_below<P: WritePages>(
    alloc: Global,
    pages: &mut P,
    number: u32,
    ways: u32,
    rowid: i64,
    changes: &[RowChange],
) -> R<(usize, Change)>
    requires { IsFirst rowid changes.now }
    ensures changed { IsTrue (P.Pages.tells (P.Pages.below pages.old))
        → ChangesBelow (P.Pages.map pages.old) (P.Pages.map pages.new)
        (P.Pages.limits (P.Pages.below pages.old)).page number ways rowid changes.now result }
    ensures some { IfOk result (λ done. (0 < done.0) × (done.0 ≤ length changes.now)) }
    ensures kept { P.Pages.below pages.new ≡ P.Pages.below pages.old }
    ensures causes { Causes result (P.Pages.failures pages.old) (P.Pages.failures pages.new)
        (P.Pages.count pages.new ≡ (P.Pages.limits (P.Pages.below pages.new)).most) }
{
    let (place, child) = match step_from(pages, number, rowid)? {
        Step::Found(place) => {
            if rewrite_row(pages, number, place, changes)? {
                return Ok((1, Change::Same));
            }
            if taken_off(alloc, pages, number, place, changes)? {
                let change = put_again(alloc, pages, number, place, ways, rowid, changes)?;
                return Ok((1, change));
            }
            let (count, packed) = changed_leaf(alloc, pages, number, place, changes)?;
            return Ok((count, Change::Spread(packed, ways == 0)));
        }
        Step::Here(_) => return Ok((1, Change::Still)),
        Step::Down(place, child) => (place, child),
    };
    if ways == 0 {
        return Err(Fault::Damaged(Damage::Depth, number));
    }
    let (count, change) = changed_below(alloc, pages, child, ways - 1, rowid, changes)?;
    match change {
        Change::Spread(packed, deep) => {
            let change = narrowed(alloc, pages, number, place, child, &packed, deep)?;
            Ok((count, change))
        }
        Change::Same => Ok((count, Change::Same)),
        Change::Still => Ok((count, Change::Still)),
    }
}
