//! Joining two subtrees of an index's tree that stand side by side.

ghost use Rattle.std.specs.Prelude.{◌≡◌, [], ◌∷◌, ◌++◌, IsTrue, IfOk, IfErr};
ghost use Rattle.std.specs.Int.{w32, to_be_bytes};
ghost use Rattle.pages.specs.Calls.{Causes, Stays};
ghost use Rattle.pages.specs.Map.{page_at, IsThere};
ghost use Rattle.sqlval.specs.Faults.{IsNotDiskFault};
ghost use Rattle.tree_index.specs.Joining.{Binds, FansTwo, FindsKid, FindsLastKid, GivesEntry, JoinsAt, Merges, PartsAt, Seams, SpreadsTwo, Unites};

use crate::cells::{at_page, child_of, len_of, local_in};
use crate::freeing::free_entry;
use crate::growing::{cells_in, fanned};
use pages::{Pages, WritePages};
use sqlval::{Damage, Fault, R};
use std::alloc::Global;
use tree_pack::{Packed, entry_cell, join, splice};
use tree_page::TreePage;
use tree_store::{Fan, store};

/// The child at a place of an interior page; the last one stands after all cells. (`Damaged(Page, number)` for a leaf; what `child_of`
/// refuses.)
fn kid_of<P: Pages>(pages: &mut P, number: u32, place: usize) -> R<u32>
    ensures found { IsTrue (P.Pages.tells (P.Pages.below pages.old))
        → FindsKid (P.Pages.map pages.old) (P.Pages.limits (P.Pages.below pages.old)).page number place result }
    ensures stays { Stays P.Pages.below P.Pages.map P.Pages.count P.Pages.failures result pages.old pages.new }
{
    match child_of(pages, number, place)? {
        Some(child) => Ok(child),
        None => Err(Fault::Damaged(Damage::Page, number)),
    }
}

/// The last child of an interior page. (As for `kid_of`.)
fn last_kid_of<P: Pages>(pages: &mut P, number: u32) -> R<u32>
    ensures found { IsTrue (P.Pages.tells (P.Pages.below pages.old))
        → FindsLastKid (P.Pages.map pages.old) (P.Pages.limits (P.Pages.below pages.old)).page number result }
    ensures stays { Stays P.Pages.below P.Pages.map P.Pages.count P.Pages.failures result pages.old pages.new }
{
    let len = len_of(pages, number)?;
    kid_of(pages, number, len)
}

/// The cells of two pages side by side, on as many pages as they need. (What `load` and `join` refuse.)
fn merged<P: Pages>(alloc: Global, pages: &mut P, left: u32, right: u32) -> R<Packed>
    ensures merged { IsTrue (P.Pages.tells (P.Pages.below pages.old))
        → IsThere (P.Pages.map pages.old) (P.Pages.limits (P.Pages.below pages.old)).page left
        → IsThere (P.Pages.map pages.old) (P.Pages.limits (P.Pages.below pages.old)).page right
        → Merges (page_at (P.Pages.map pages.old) left) [] (page_at (P.Pages.map pages.old) right) result }
    ensures stays { Stays P.Pages.below P.Pages.map P.Pages.count P.Pages.failures result pages.old pages.new }
{
    pages.load(left)?;
    let first = pages.loaded().to_vec(alloc)?;
    pages.load(right)?;
    join(alloc, first.as_slice(), &[], pages.loaded())
}

/// The same with a cell between those of the two pages. (What `load` and `join` refuse.)
fn merged_around<P: Pages>(
    alloc: Global,
    pages: &mut P,
    left: u32,
    cell: &[u8],
    right: u32,
) -> R<Packed>
    ensures merged { IsTrue (P.Pages.tells (P.Pages.below pages.old))
        → IsThere (P.Pages.map pages.old) (P.Pages.limits (P.Pages.below pages.old)).page left
        → IsThere (P.Pages.map pages.old) (P.Pages.limits (P.Pages.below pages.old)).page right
        → Merges (page_at (P.Pages.map pages.old) left) (cell.now ∷ [])
        (page_at (P.Pages.map pages.old) right) result }
    ensures stays { Stays P.Pages.below P.Pages.map P.Pages.count P.Pages.failures result pages.old pages.new }
{
    pages.load(left)?;
    let first = pages.loaded().to_vec(alloc)?;
    pages.load(right)?;
    join(alloc, first.as_slice(), &[cell], pages.loaded())
}

/// The cells of two interior pages side by side, on as many pages as they need, where a fan stands in place of the last child of the first
/// and the first child of the second. (What `load`, `fanned` and `join` refuse.)
fn seamed<P: Pages>(alloc: Global, pages: &mut P, left: u32, fan: &Fan, right: u32) -> R<Packed>
    ensures seams { IsTrue (P.Pages.tells (P.Pages.below pages.old))
        → Seams (P.Pages.map pages.old) (P.Pages.limits (P.Pages.below pages.old)).page left fan.now
        right result }
    ensures stays { Stays P.Pages.below P.Pages.map P.Pages.count P.Pages.failures result pages.old pages.new }
{
    pages.load(right)?;
    let alone = Fan {
        cells: Vec::new(alloc),
        last: fan.last,
    };
    let other = fanned(alloc, pages.loaded(), 0, &alone)?;
    let cells = cells_in(alloc, fan.cells.as_slice())?;
    pages.load(left)?;
    join(
        alloc,
        pages.loaded(),
        cells.as_slice(),
        other.last.as_slice(),
    )
}

/// The pages that two trees of this depth side by side give way to, with the entries of both. All pages below these are stored.
pub(crate) fn united<P: WritePages>(
    alloc: Global,
    pages: &mut P,
    left: u32,
    right: u32,
    depth: u32,
) -> R<Packed>
    ensures united { IsTrue (P.Pages.tells (P.Pages.below pages.old))
        → Unites (P.Pages.map pages.old) (P.Pages.map pages.new)
        (P.Pages.limits (P.Pages.below pages.old)).page left right depth result }
    ensures kept { P.Pages.below pages.new ≡ P.Pages.below pages.old }
    ensures causes { Causes result (P.Pages.failures pages.old) (P.Pages.failures pages.new)
        (P.Pages.count pages.new ≡ (P.Pages.limits (P.Pages.below pages.new)).most) }
{
    if depth == 0 {
        return merged(alloc, pages, left, right);
    }
    let last = last_kid_of(pages, left)?;
    let first = kid_of(pages, right, 0)?;
    let packed = united(alloc, pages, last, first, depth - 1)?;
    let fan = store(alloc, pages, &[last, first], &packed)?;
    seamed(alloc, pages, left, &fan, right)
}

/// The cell of the entry at a place of a page, as a leaf would have it. (`Memory`; what `load` refuses; `Damaged` if there is none.)
fn entry_at<P: Pages>(alloc: Global, pages: &mut P, number: u32, place: usize) -> R<Vec<u8>>
    ensures given { IsTrue (P.Pages.tells (P.Pages.below pages.old))
        → GivesEntry (P.Pages.map pages.old) (P.Pages.limits (P.Pages.below pages.old)).page number
        place result }
    ensures stays { Stays P.Pages.below P.Pages.map P.Pages.count P.Pages.failures result pages.old pages.new }
{
    pages.load(number)?;
    match local_in(pages.loaded(), number, place) {
        Ok(local) => entry_cell(alloc, local.size, local.bytes),
        Err(fault) => Err(at_page(fault, number)),
    }
}

/// The cell of a child and the entry after it, whose own cell is given. (`Memory`.)
fn child_cell(alloc: Global, child: u32, entry: &[u8]) -> R<Vec<u8>>
    ensures is { IfOk result (λ cell. cell.items ≡ to_be_bytes w32 child ++ entry.now) }
    ensures refused { IfErr result (λ fault. fault ≡ Fault.Memory) }
{
    let mut cell = child.to_be_bytes().to_vec(alloc)?;
    cell.extend_from_slice(entry)?;
    Ok(cell)
}

/// The pages that two trees of this depth side by side give way to, with the entry of a cell between those of both. (What `last_kid_of`
/// and `merged_around` refuse.)
fn bound<P: Pages>(
    alloc: Global,
    pages: &mut P,
    left: u32,
    entry: &[u8],
    right: u32,
    depth: u32,
) -> R<Packed>
    ensures bound { IsTrue (P.Pages.tells (P.Pages.below pages.old))
        → Binds (P.Pages.map pages.old) (P.Pages.limits (P.Pages.below pages.old)).page left
        entry.now right depth result }
    ensures stays { Stays P.Pages.below P.Pages.map P.Pages.count P.Pages.failures result pages.old pages.new }
{
    if depth == 0 {
        return merged_around(alloc, pages, left, entry, right);
    }
    let last = last_kid_of(pages, left)?;
    let cell = child_cell(alloc, last, entry)?;
    merged_around(alloc, pages, left, cell.as_slice(), right)
}

/// The pages that an interior page gives way to when a fan stands in place of the children at a place of it and after it.
fn fanned_two(alloc: Global, page: &[u8], place: usize, fan: &Fan) -> R<Packed>
    ensures fans { FansTwo page.now place fan.now result }
    ensures not_disk { IfErr result IsNotDiskFault }
{
    let last = TreePage::over(page, 0)?.last_child();
    let other = splice(alloc, page, 0, place, 1, &[], last)?;
    fanned(alloc, other.last.as_slice(), place, fan)
}

/// The pages that an interior page gives way to when the children at a place of it and after it give way to packed pages, which are
/// stored.
fn spread_two<P: WritePages>(
    alloc: Global,
    pages: &mut P,
    number: u32,
    place: usize,
    left: u32,
    right: u32,
    packed: &Packed,
) -> R<Packed>
    ensures spread { IsTrue (P.Pages.tells (P.Pages.below pages.old))
        → SpreadsTwo (P.Pages.map pages.old) (P.Pages.map pages.new)
        (P.Pages.limits (P.Pages.below pages.old)).page number place left right packed.now result }
    ensures kept { P.Pages.below pages.new ≡ P.Pages.below pages.old }
    ensures causes { Causes result (P.Pages.failures pages.old) (P.Pages.failures pages.new)
        (P.Pages.count pages.new ≡ (P.Pages.limits (P.Pages.below pages.new)).most) }
{
    let fan = store(alloc, pages, &[left, right], packed)?;
    pages.load(number)?;
    fanned_two(alloc, pages.loaded(), place, &fan)
}

/// The pages that an interior page gives way to when the children at a place of it and after it, trees of this depth, are joined with the
/// entry between them. The joined pages are stored.
pub(crate) fn joined<P: WritePages>(
    alloc: Global,
    pages: &mut P,
    number: u32,
    place: usize,
    depth: u32,
) -> R<Packed>
    ensures joined { IsTrue (P.Pages.tells (P.Pages.below pages.old))
        → JoinsAt (P.Pages.map pages.old) (P.Pages.map pages.new)
        (P.Pages.limits (P.Pages.below pages.old)).page number place depth result }
    ensures kept { P.Pages.below pages.new ≡ P.Pages.below pages.old }
    ensures causes { Causes result (P.Pages.failures pages.old) (P.Pages.failures pages.new)
        (P.Pages.count pages.new ≡ (P.Pages.limits (P.Pages.below pages.new)).most) }
{
    let left = kid_of(pages, number, place)?;
    let right = kid_of(pages, number, place.saturating_add(1))?;
    let entry = entry_at(alloc, pages, number, place)?;
    let packed = bound(alloc, pages, left, entry.as_slice(), right, depth)?;
    spread_two(alloc, pages, number, place, left, right, &packed)
}

/// The pages that an interior page gives way to when the entry at a place of it is taken out: the children before and after it, trees of this
/// depth, are joined, and its overflow pages are given back. The joined pages are stored.
pub(crate) fn parted<P: WritePages>(
    alloc: Global,
    pages: &mut P,
    number: u32,
    place: usize,
    depth: u32,
) -> R<Packed>
    ensures parted { IsTrue (P.Pages.tells (P.Pages.below pages.old))
        → PartsAt (P.Pages.map pages.old) (P.Pages.map pages.new)
        (P.Pages.limits (P.Pages.below pages.old)).page number place depth result }
    ensures kept { P.Pages.below pages.new ≡ P.Pages.below pages.old }
    ensures causes { Causes result (P.Pages.failures pages.old) (P.Pages.failures pages.new)
        (P.Pages.count pages.new ≡ (P.Pages.limits (P.Pages.below pages.new)).most) }
{
    let left = kid_of(pages, number, place)?;
    let right = kid_of(pages, number, place.saturating_add(1))?;
    free_entry(alloc, pages, number, place)?;
    let packed = united(alloc, pages, left, right, depth)?;
    spread_two(alloc, pages, number, place, left, right, &packed)
}
