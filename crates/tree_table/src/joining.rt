//! Joining a page of a table's tree that has no cells with one beside it.

ghost use Rattle.std.specs.Prelude.{◌≡◌, length, IsTrue, IfErr};
ghost use Rattle.sqlval.specs.Faults.{IsNotDiskFault};
ghost use Rattle.pages.specs.Calls.{Causes, Stays};
ghost use Rattle.pages.specs.Map.{page_at, IsThere};
ghost use Rattle.tree_page.specs.Node.{Node, IsNode};
ghost use Rattle.tree_page.specs.Reading.{count_of};
ghost use Rattle.tree_table.specs.Growing.{Widens};
ghost use Rattle.tree_table.specs.Joining.{FansTwo, FindsPair, FindsPairOn, JoinsAt, MergesKeys, MergesRows};

use crate::descending::child_at;
use crate::growing::{Change, fanned, parent_cell, widened};
use crate::leaf::{at_page, start_of};
use pages::{Pages, WritePages};
use sqlval::R;
use std::alloc::Global;
use tree_pack::{Packed, join, splice};
use tree_page::TreePage;
use tree_store::{Fan, store};

/// Two children of an interior page, side by side.
#[derive(Drop)]
pub struct Pair {
    /// The place of the first.
    pub place: usize,
    /// The first one's page.
    pub left: u32,
    /// The second one's page.
    pub right: u32,
    /// The cell of the first.
    pub cell: Vec<u8>,
}

/// The child at a place of an interior page of these bytes, and the one on its left, or if it's the first, the one on its right; nothing
/// if it has none beside it. (`Memory`; `Damaged` for another page.)
fn pair_in(alloc: Global, bytes: &[u8], start: usize, place: usize) -> R<Option<Pair>>
    ensures found { FindsPair bytes.now start place result }
    ensures not_disk { IfErr result IsNotDiskFault }
{
    let page = TreePage::over(bytes, start)?;
    let first = place.saturating_sub(1);
    if first >= page.len() {
        return Ok(None);
    }
    let cell = page.cell(first)?.to_vec(alloc)?;
    let left = child_at(&page, first)?;
    let right = child_at(&page, first + 1)?;
    Ok(Some(Pair {
        place: first,
        left,
        right,
        cell,
    }))
}

/// The same of an interior page by its number. (`Memory`, what `load` refuses; `Damaged` for another page.)
fn pair_of<P: Pages>(alloc: Global, pages: &mut P, number: u32, place: usize) -> R<Option<Pair>>
    ensures found { IsTrue (P.Pages.tells (P.Pages.below pages.old))
        → FindsPairOn (P.Pages.map pages.old)
        (P.Pages.limits (P.Pages.below pages.old)).page number place result }
    ensures stays { Stays P.Pages.below P.Pages.map P.Pages.count P.Pages.failures result pages.old pages.new }
{
    pages.load(number)?;
    match pair_in(alloc, pages.loaded(), start_of(number), place) {
        Ok(found) => Ok(found),
        Err(fault) => Err(at_page(fault, number)),
    }
}

/// The cells of two pages side by side on as many pages as they need. On interior pages the last child of the first takes the key
/// of its cell in the page above. (`Memory`; `Damaged` for other pages.)
fn merged_in(alloc: Global, left: &[u8], cell: &[u8], right: &[u8]) -> R<Packed>
    ensures rows { MergesRows left.now right.now result }
    ensures keys { MergesKeys left.now cell.now right.now result }
    ensures not_disk { IfErr result IsNotDiskFault }
{
    let page = TreePage::over(left, 0)?;
    let Some(child) = page.last_child() else {
        return join(alloc, left, &[], right);
    };
    let between = parent_cell(alloc, cell, child)?;
    join(alloc, left, &[between.as_slice()], right)
}

/// The same of pages by their numbers. (`Memory`, what `load` refuses; `Damaged` for other pages.)
fn merged<P: Pages>(alloc: Global, pages: &mut P, pair: &Pair) -> R<Packed>
    ensures rows { IsTrue (P.Pages.tells (P.Pages.below pages.old))
        → IsThere (P.Pages.map pages.old) (P.Pages.limits (P.Pages.below pages.old)).page pair.now.left
        → IsThere (P.Pages.map pages.old) (P.Pages.limits (P.Pages.below pages.old)).page pair.now.right
        → MergesRows (page_at (P.Pages.map pages.old) pair.now.left)
        (page_at (P.Pages.map pages.old) pair.now.right) result }
    ensures keys { IsTrue (P.Pages.tells (P.Pages.below pages.old))
        → IsThere (P.Pages.map pages.old) (P.Pages.limits (P.Pages.below pages.old)).page pair.now.left
        → IsThere (P.Pages.map pages.old) (P.Pages.limits (P.Pages.below pages.old)).page pair.now.right
        → MergesKeys (page_at (P.Pages.map pages.old) pair.now.left) pair.now.cell.items
        (page_at (P.Pages.map pages.old) pair.now.right) result }
    ensures stays { Stays P.Pages.below P.Pages.map P.Pages.count P.Pages.failures result pages.old pages.new }
{
    pages.load(pair.left)?;
    let left = pages.loaded().to_vec(alloc)?;
    pages.load(pair.right)?;
    merged_in(alloc, left.as_slice(), pair.cell.as_slice(), pages.loaded())
}

/// The pages that an interior page gives way to when a fan stands in place of the children at a place of it and after it.
fn fanned_two(alloc: Global, page: &[u8], start: usize, place: usize, fan: &Fan) -> R<Packed>
    ensures fans { FansTwo page.now start place fan.now result }
    ensures not_disk { IfErr result IsNotDiskFault }
{
    let last = TreePage::over(page, start)?.last_child();
    let other = splice(alloc, page, start, place, 1, &[], last)?;
    fanned(alloc, other.last.as_slice(), start, place, fan)
}

/// The pages that an interior page gives way to when the child at a place of it is joined with the one on its left, or if it's the first, with
/// the one on its right. The joined pages are stored. Nothing if it has no child beside it.
pub(crate) fn joined<P: WritePages>(
    alloc: Global,
    pages: &mut P,
    number: u32,
    place: usize,
) -> R<Option<Packed>>
    ensures joined { IsTrue (P.Pages.tells (P.Pages.below pages.old))
        → JoinsAt (P.Pages.map pages.old) (P.Pages.map pages.new)
        (P.Pages.limits (P.Pages.below pages.old)).page number place result }
    ensures kept { P.Pages.below pages.new ≡ P.Pages.below pages.old }
    ensures causes { Causes result (P.Pages.failures pages.old) (P.Pages.failures pages.new)
        (P.Pages.count pages.new ≡ (P.Pages.limits (P.Pages.below pages.new)).most) }
{
    let Some(pair) = pair_of(alloc, pages, number, place)? else {
        return Ok(None);
    };
    let merged = merged(alloc, pages, &pair)?;
    let fan = store(alloc, pages, &[pair.left, pair.right], &merged)?;
    pages.load(number)?;
    let packed = fanned_two(alloc, pages.loaded(), start_of(number), pair.place, &fan)?;
    Ok(Some(packed))
}

/// Whether packed pages are one page without cells, other than page 1.
fn is_bare(packed: &Packed) -> bool
    ensures alone { IsTrue result → length packed.now.pieces.items ≡ 0 }
    ensures empty { (node : Node) → IsNode packed.now.last.items 0 node → IsTrue result
        → count_of node ≡ 0 }
    ensures only { (node : Node) → IsNode packed.now.last.items 0 node
        → length packed.now.pieces.items ≡ 0 → count_of node ≡ 0 → IsTrue result }
{
    let Ok(page) = TreePage::over(packed.last.as_slice(), 0) else {
        return false;
    };
    packed.pieces.is_empty() && page.len() == 0
}

/// What becomes of an interior page when the child at a place of it gives way to packed pages, which are stored. A child without cells is
/// joined with one beside it.
pub(crate) fn narrowed<P: WritePages>(
    alloc: Global,
    pages: &mut P,
    number: u32,
    place: usize,
    child: u32,
    packed: &Packed,
    deep: bool,
) -> R<Change>
    ensures widened { IsTrue (P.Pages.tells (P.Pages.below pages.old))
        → Widens (P.Pages.map pages.old) (P.Pages.map pages.new)
        (P.Pages.limits (P.Pages.below pages.old)).page number place child packed.now deep result }
    ensures kept { P.Pages.below pages.new ≡ P.Pages.below pages.old }
    ensures causes { Causes result (P.Pages.failures pages.old) (P.Pages.failures pages.new)
        (P.Pages.count pages.new ≡ (P.Pages.limits (P.Pages.below pages.new)).most) }
{
    match widened(alloc, pages, number, place, child, packed, deep)? {
        Change::Same => {
            if !is_bare(packed) {
                return Ok(Change::Same);
            }
            match joined(alloc, pages, number, place)? {
                Some(packed) => Ok(Change::Spread(packed, deep)),
                None => Ok(Change::Same),
            }
        }
        Change::Spread(packed, deep) => Ok(Change::Spread(packed, deep)),
        Change::Still => Ok(Change::Still),
    }
}
