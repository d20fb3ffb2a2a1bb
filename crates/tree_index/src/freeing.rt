//! Making an index's tree without entries, and giving the pages of one back.

ghost use Rattle.std.specs.Prelude.{◌≡◌, ◌≤◌, IsTrue, IfOk, IfErr};
ghost use Rattle.sqlval.specs.Faults.{IsNotDiskFault};
ghost use Rattle.sqlval.specs.PageSizes.{IsPageSize};
ghost use Rattle.pages.specs.Calls.{Causes};
ghost use Rattle.tree_index.specs.Calls.{ClearsTree, FreesTree, MakesTree};
ghost use Rattle.tree_index.specs.Freeing.{FreesBelow, FreesEntries, FreesEntry, FreesKids, IsEmptyPage};

use crate::cells::{at_page, child_of, len_of, local_in, most_in};
use freelist::{give, take};
use pages::WritePages;
use sqlval::{Damage, Fault, R};
use std::alloc::Global;
use tree_overflow::free_chain;
use tree_pack::{build, fits};
use tree_page::Kind;

/// How many pages may stand below a page on each way from a root.
pub(crate) const WAYS: u32 = 19;

/// A leaf without entries. (`Memory`; `Damaged(Page, 0)` if a page has no room for a header.)
fn empty(alloc: Global, page_size: usize) -> R<Vec<u8>>
    ensures is { IfOk result (λ page. IsEmptyPage page_size page.items) }
    ensures refused { IfErr result (λ fault. IsPageSize page_size → fault ≡ Fault.Memory) }
    ensures not_disk { IfErr result IsNotDiskFault }
{
    if !fits(page_size, 0, Kind::IndexLeaf, &[]) {
        return Err(Fault::Damaged(Damage::Page, 0));
    }
    build(alloc, &[], page_size, Kind::IndexLeaf, None, &[])
}

/// Makes a tree without entries on a page that nothing uses, and answers its root. (`Full` if there are as many pages as there may be; what
/// `take` refuses. A page that was taken before stays so.)
pub fn new_tree<P: WritePages>(alloc: Global, pages: &mut P) -> R<u32>
    ensures made { IsTrue (P.Pages.tells (P.Pages.below pages.old))
        → MakesTree (P.Pages.map pages.old) (P.Pages.map pages.new)
        (P.Pages.limits (P.Pages.below pages.old)).page result }
    ensures kept { P.Pages.below pages.new ≡ P.Pages.below pages.old }
    ensures causes { Causes result (P.Pages.failures pages.old) (P.Pages.failures pages.new)
        (P.Pages.count pages.new ≡ (P.Pages.limits (P.Pages.below pages.new)).most) }
{
    let page = empty(alloc, pages.page_size())?;
    let root = take(alloc, pages)?;
    pages.put(root, page.as_slice())?;
    Ok(root)
}

/// Gives the pages back over which the entry at a place of a page goes on. (`Damaged` if there is no such entry; what `load` and `free_chain`
/// refuse.)
pub(crate) fn free_entry<P: WritePages>(
    alloc: Global,
    pages: &mut P,
    number: u32,
    place: usize,
) -> R<()>
    ensures freed { IsTrue (P.Pages.tells (P.Pages.below pages.old))
        → FreesEntry (P.Pages.map pages.old) (P.Pages.map pages.new)
        (P.Pages.limits (P.Pages.below pages.old)).page number place result }
    ensures kept { P.Pages.below pages.new ≡ P.Pages.below pages.old }
    ensures causes { Causes result (P.Pages.failures pages.old) (P.Pages.failures pages.new) ⊥ }
{
    pages.load(number)?;
    let most = most_in(pages.page_size());
    let local = match local_in(pages.loaded(), number, place) {
        Ok(local) => local,
        Err(fault) => return Err(at_page(fault, number)),
    };
    let size = local.size;
    if size <= most as u64 {
        return Ok(());
    }
    // The chain is read through the same pages, which lend these bytes.
    let held = local.bytes.to_vec(alloc)?;
    free_chain(alloc, pages, size, most, held.as_slice())
}

/// Gives the pages back over which the entries of a page go on. (What `free_entry` refuses.)
fn free_entries<P: WritePages>(alloc: Global, pages: &mut P, number: u32, len: usize) -> R<()>
    ensures freed { IsTrue (P.Pages.tells (P.Pages.below pages.old))
        → FreesEntries (P.Pages.map pages.old) (P.Pages.map pages.new)
        (P.Pages.limits (P.Pages.below pages.old)).page number len result }
    ensures kept { P.Pages.below pages.new ≡ P.Pages.below pages.old }
    ensures causes { Causes result (P.Pages.failures pages.old) (P.Pages.failures pages.new) ⊥ }
{
    'entries: for place in 0..len {
        free_entry(alloc, pages, number, place)?;
    }
    Ok(())
}

/// Gives all pages of the subtrees below a page back, of which there are so many. (What `free_below`, `child_of` and `give` refuse. Pages
/// that were given back before stay so.)
#[cycle(freeing)]
fn free_kids<P: WritePages>(
    alloc: Global,
    pages: &mut P,
    number: u32,
    count: usize,
    ways: u32,
) -> R<()>
    requires { 1 ≤ ways }
    ensures freed { IsTrue (P.Pages.tells (P.Pages.below pages.old))
        → FreesKids (P.Pages.map pages.old) (P.Pages.map pages.new)
        (P.Pages.limits (P.Pages.below pages.old)).page number count ways result }
    ensures kept { P.Pages.below pages.new ≡ P.Pages.below pages.old }
    ensures causes { Causes result (P.Pages.failures pages.old) (P.Pages.failures pages.new) ⊥ }
{
    'kids: for place in 0..count {
        let Some(child) = child_of(pages, number, place)? else {
            return Err(Fault::Damaged(Damage::Page, number));
        };
        free_below(alloc, pages, child, ways - 1)?;
        give(alloc, pages, child)?;
    }
    Ok(())
}

/// Gives all pages of the tree under a page back but for this page, where as many more pages as `ways` may stand on a way below it.
/// (`Damaged(Depth, number)` if a way is longer; what `free_entries` and `free_kids` refuse. Pages that were given back before stay so.)
#[cycle(freeing)]
fn free_below<P: WritePages>(alloc: Global, pages: &mut P, number: u32, ways: u32) -> R<()>
    ensures freed { IsTrue (P.Pages.tells (P.Pages.below pages.old))
        → FreesBelow (P.Pages.map pages.old) (P.Pages.map pages.new)
        (P.Pages.limits (P.Pages.below pages.old)).page number ways result }
    ensures kept { P.Pages.below pages.new ≡ P.Pages.below pages.old }
    ensures causes { Causes result (P.Pages.failures pages.old) (P.Pages.failures pages.new) ⊥ }
{
    let len = len_of(pages, number)?;
    let first = child_of(pages, number, 0)?;
    free_entries(alloc, pages, number, len)?;
    if first.is_none() {
        return Ok(());
    }
    if ways == 0 {
        return Err(Fault::Damaged(Damage::Depth, number));
    }
    free_kids(alloc, pages, number, len.saturating_add(1), ways)
}

/// Gives all pages of the tree under a root back. (`Damaged(Depth, ..)` if a way has more than 20 pages; what `free_below` and `give` refuse.
/// Pages that were given back before stay so.)
pub fn free_tree<P: WritePages>(alloc: Global, pages: &mut P, root: u32) -> R<()>
    ensures freed { IsTrue (P.Pages.tells (P.Pages.below pages.old))
        → FreesTree (P.Pages.map pages.old) (P.Pages.map pages.new)
        (P.Pages.limits (P.Pages.below pages.old)).page root result }
    ensures kept { P.Pages.below pages.new ≡ P.Pages.below pages.old }
    ensures causes { Causes result (P.Pages.failures pages.old) (P.Pages.failures pages.new) ⊥ }
{
    free_below(alloc, pages, root, WAYS)?;
    give(alloc, pages, root)
}

/// Takes all entries out of the tree under a root, which keeps its number and is its one page then. (What `free_below` and `put` refuse.
/// Pages that were given back before stay so.)
pub fn clear<P: WritePages>(alloc: Global, pages: &mut P, root: u32) -> R<()>
    ensures cleared { IsTrue (P.Pages.tells (P.Pages.below pages.old))
        → ClearsTree (P.Pages.map pages.old) (P.Pages.map pages.new)
        (P.Pages.limits (P.Pages.below pages.old)).page root result }
    ensures kept { P.Pages.below pages.new ≡ P.Pages.below pages.old }
    ensures causes { Causes result (P.Pages.failures pages.old) (P.Pages.failures pages.new) ⊥ }
{
    let leaf = empty(alloc, pages.page_size())?;
    free_below(alloc, pages, root, WAYS)?;
    pages.put(root, leaf.as_slice())
}
