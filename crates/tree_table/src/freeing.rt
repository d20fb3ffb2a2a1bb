//! Making a table's tree without rows, and giving the pages of one back.

ghost use Rattle.std.specs.Prelude.{◌≡◌, ℕ, ℤ, Ok, List, IsTrue, IfErr};
ghost use Rattle.sqlval.specs.Faults.{IsNotDiskFault};
ghost use Rattle.pages.specs.Calls.{Causes, Stays};
ghost use Rattle.pages.specs.Counting as counting;
ghost use Rattle.tree_page.specs.Node.{Node, Keys, IsNode};
ghost use Rattle.tree_table.specs.Freeing.{ClearsTree, MakesTree, FindsParts, FreesBelow, FreesRow, FreesRows, FreesTree, IsOfTable, ReadsChild, parts_for};
ghost use Rattle.tree_table.specs.Stepping as stepping;

use crate::descending::child_at;
use crate::inserting::WAYS;
use crate::leaf::{at_page, emptied, empty, start_of};
use crate::reading::row_in;
use freelist::{give, take};
use pages::{Pages, WritePages};
use sqlval::{Damage, Fault, R};
use std::alloc::Global;
use tree_overflow::free_chain;
use tree_page::{Kind, TreePage};

/// What a page of a table's tree has.
#[derive(Clone, Copy)]
pub enum Parts {
    /// A leaf has so many rows.
    Cells(usize),
    /// An interior page has so many children.
    Children(usize),
}

/// Makes a tree without rows on a page that nothing uses, and answers its root. (`Full` if there are as many pages as there may be; what
/// `take` refuses. A page that was taken before stays so.)
pub fn new_tree<P: WritePages>(alloc: Global, pages: &mut P) -> R<u32>
    ensures made { IsTrue (P.Pages.tells (P.Pages.below pages.old))
        → MakesTree (P.Pages.map pages.old) (P.Pages.map pages.new)
        (P.Pages.limits (P.Pages.below pages.old)).page result }
    ensures kept { P.Pages.below pages.new ≡ P.Pages.below pages.old }
    ensures causes { Causes result (P.Pages.failures pages.old) (P.Pages.failures pages.new)
        (P.Pages.count pages.new ≡ (P.Pages.limits (P.Pages.below pages.new)).most) }
{
    let page = empty(alloc, pages.page_size())?;
    let root = take(alloc, pages)?;
    pages.put(root, page.as_slice())?;
    Ok(root)
}

/// The parts of a page of these bytes. (`Damaged` for one that is no page of a table.)
fn parts_in(bytes: &[u8], number: u32) -> R<Parts>
    ensures only { (node : Node) → IsNode bytes.now (counting.start_of number) node → IsOfTable node
        → result ≡ Ok (parts_for node) }
    ensures not_disk { IfErr result IsNotDiskFault }
{
    let page = TreePage::over(bytes, start_of(number))?;
    let len = page.len();
    match page.kind() {
        Kind::TableLeaf => Ok(Parts::Cells(len)),
        Kind::TableInterior => Ok(Parts::Children(len.saturating_add(1))),
        Kind::IndexLeaf | Kind::IndexInterior => Err(Fault::Damaged(Damage::Page, 0)),
    }
}

/// The parts of a page. (What `load` refuses; `Damaged` for one that is no page of a table.)
pub(crate) fn parts_of<P: Pages>(pages: &mut P, number: u32) -> R<Parts>
    ensures found { IsTrue (P.Pages.tells (P.Pages.below pages.old))
        → FindsParts (P.Pages.map pages.old) (P.Pages.limits (P.Pages.below pages.old)).page number result }
    ensures stays { Stays P.Pages.below P.Pages.map P.Pages.count P.Pages.failures result pages.old pages.new }
{
    pages.load(number)?;
    match parts_in(pages.loaded(), number) {
        Ok(parts) => Ok(parts),
        Err(fault) => Err(at_page(fault, number)),
    }
}

/// The child at a place of an interior page of these bytes. (`Damaged` if there is none.)
fn child_in(bytes: &[u8], number: u32, place: usize) -> R<u32>
    ensures only { (kids : List (ℕ × ℤ)) (last : ℕ)
        → IsNode bytes.now (counting.start_of number) (Keys kids last)
        → result ≡ Ok (stepping.child_at place kids last) }
    ensures not_disk { IfErr result IsNotDiskFault }
{
    let page = TreePage::over(bytes, start_of(number))?;
    child_at(&page, place)
}

/// The child at a place of an interior page. (What `load` refuses; `Damaged` if there is none.)
pub(crate) fn child_of<P: Pages>(pages: &mut P, number: u32, place: usize) -> R<u32>
    ensures read { IsTrue (P.Pages.tells (P.Pages.below pages.old))
        → ReadsChild (P.Pages.map pages.old) (P.Pages.limits (P.Pages.below pages.old)).page number
        place result }
    ensures stays { Stays P.Pages.below P.Pages.map P.Pages.count P.Pages.failures result pages.old pages.new }
{
    pages.load(number)?;
    match child_in(pages.loaded(), number, place) {
        Ok(child) => Ok(child),
        Err(fault) => Err(at_page(fault, number)),
    }
}

/// Gives the pages back over which the row at a place of a leaf goes on. (`Damaged` if there is no such row; what `load` and `free_chain`
/// refuse.)
pub(crate) fn free_row<P: WritePages>(
    alloc: Global,
    pages: &mut P,
    leaf: u32,
    place: usize,
) -> R<()>
    ensures freed { IsTrue (P.Pages.tells (P.Pages.below pages.old))
        → FreesRow (P.Pages.map pages.old) (P.Pages.map pages.new)
        (P.Pages.limits (P.Pages.below pages.old)).page leaf place result }
    ensures kept { P.Pages.below pages.new ≡ P.Pages.below pages.old }
    ensures causes { Causes result (P.Pages.failures pages.old) (P.Pages.failures pages.new) ⊥ }
{
    pages.load(leaf)?;
    let most = pages.page_size().saturating_sub(35);
    let row = match row_in(pages.loaded(), leaf, place) {
        Ok(row) => row,
        Err(fault) => return Err(at_page(fault, leaf)),
    };
    let size = row.payload.size;
    if size <= most as u64 {
        return Ok(());
    }
    // The chain is read through the same pages, which lend these bytes.
    let held = row.payload.bytes.to_vec(alloc)?;
    free_chain(alloc, pages, size, most, held.as_slice())
}

/// Gives the pages back over which the rows of a leaf go on. (What `free_row` refuses.)
fn free_rows<P: WritePages>(alloc: Global, pages: &mut P, leaf: u32, len: usize) -> R<()>
    ensures freed { IsTrue (P.Pages.tells (P.Pages.below pages.old))
        → FreesRows (P.Pages.map pages.old) (P.Pages.map pages.new)
        (P.Pages.limits (P.Pages.below pages.old)).page leaf len result }
    ensures kept { P.Pages.below pages.new ≡ P.Pages.below pages.old }
    ensures causes { Causes result (P.Pages.failures pages.old) (P.Pages.failures pages.new) ⊥ }
{
    'rows: for place in 0..len {
        free_row(alloc, pages, leaf, place)?;
    }
    Ok(())
}

/// Gives the pages back that stand below a page, where as many more pages as `ways` may stand on a way below it. The page itself stays.
/// (`Damaged(Depth, number)` if a way is longer; `Damaged` for pages that are none of a table's tree; what `give` refuses. Pages that were
/// given back before stay so.)
fn free_below<P: WritePages>(alloc: Global, pages: &mut P, number: u32, ways: u32) -> R<()>
    ensures freed { IsTrue (P.Pages.tells (P.Pages.below pages.old))
        → FreesBelow (P.Pages.map pages.old) (P.Pages.map pages.new)
        (P.Pages.limits (P.Pages.below pages.old)).page number ways result }
    ensures kept { P.Pages.below pages.new ≡ P.Pages.below pages.old }
    ensures causes { Causes result (P.Pages.failures pages.old) (P.Pages.failures pages.new) ⊥ }
{
    let len = match parts_of(pages, number)? {
        Parts::Cells(len) => return free_rows(alloc, pages, number, len),
        Parts::Children(len) => len,
    };
    if ways == 0 {
        return Err(Fault::Damaged(Damage::Depth, number));
    }
    'children: for place in 0..len {
        let child = child_of(pages, number, place)?;
        free_below(alloc, pages, child, ways - 1)?;
        give(alloc, pages, child)?;
    }
    Ok(())
}

/// Gives all pages of the tree under a root back. (`Damaged(Depth, ..)` if a way has more than 20 pages; what `free_below` and `give` refuse.
/// Pages that were given back before stay so.)
pub fn free_tree<P: WritePages>(alloc: Global, pages: &mut P, root: u32) -> R<()>
    ensures freed { IsTrue (P.Pages.tells (P.Pages.below pages.old))
        → FreesTree (P.Pages.map pages.old) (P.Pages.map pages.new)
        (P.Pages.limits (P.Pages.below pages.old)).page root result }
    ensures kept { P.Pages.below pages.new ≡ P.Pages.below pages.old }
    ensures causes { Causes result (P.Pages.failures pages.old) (P.Pages.failures pages.new)
        (P.Pages.count pages.new ≡ (P.Pages.limits (P.Pages.below pages.new)).most) }
{
    free_below(alloc, pages, root, WAYS)?;
    give(alloc, pages, root)
}

/// Takes all rows out of the tree under a root, which keeps its number and is its one page then. (What `free_below`, `load` and `put`
/// refuse. Pages that were given back before stay so.)
pub fn clear<P: WritePages>(alloc: Global, pages: &mut P, root: u32) -> R<()>
    ensures cleared { IsTrue (P.Pages.tells (P.Pages.below pages.old))
        → ClearsTree (P.Pages.map pages.old) (P.Pages.map pages.new)
        (P.Pages.limits (P.Pages.below pages.old)).page root result }
    ensures kept { P.Pages.below pages.new ≡ P.Pages.below pages.old }
    ensures causes { Causes result (P.Pages.failures pages.old) (P.Pages.failures pages.new)
        (P.Pages.count pages.new ≡ (P.Pages.limits (P.Pages.below pages.new)).most) }
{
    free_below(alloc, pages, root, WAYS)?;
    pages.load(root)?;
    let page = emptied(alloc, pages.loaded(), root)?;
    pages.put(root, page.as_slice())
}
