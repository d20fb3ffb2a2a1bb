//! What a page of an index's tree says.

ghost use Rattle.std.specs.Prelude.{◌≡◌, ◌<◌, ◌≤◌, Ok, IsTrue, IfErr, length, slice_index_or};
ghost use Rattle.sqlval.specs.Faults.{IsNotDiskFault};
ghost use Rattle.pages.specs.Calls.{Stays};
ghost use Rattle.pages.specs.Counting as counting;
ghost use Rattle.tree_page.specs.Node.{Local as LocalIs, Node, IsNode};
ghost use Rattle.tree_page.specs.Payload.{index_most};
ghost use Rattle.tree_page.specs.Reading.{Answers, count_of, local_of};
ghost use Rattle.tree_index.specs.Comparing.{CountsEntries, FindsChild, IsBetween, IsOfIndex, child_of as child_for, locals_of, placed};

use pages::Pages;
use sqlval::limits::DATABASE_HEADER_LEN;
use sqlval::{Damage, Fault, R};
use tree_page::{Kind, Local, TreePage};

/// Where the tree's part of a page begins, in bytes: page 1 has the database's header before it.
pub(crate) fn start_of(number: u32) -> usize
    ensures { result ≡ counting.start_of number }
{
    if number == 1 { DATABASE_HEADER_LEN } else { 0 }
}

/// The fault, with this page's number if it has none.
pub(crate) fn at_page(fault: Fault, number: u32) -> Fault
    ensures { result ≡ placed number fault }
{
    match fault {
        Fault::Damaged(damage, 0) => Fault::Damaged(damage, number),
        _ => fault,
    }
}

/// The longest payload that lies whole in a cell, in bytes, where a page has so many.
pub fn most_in(page_size: usize) -> usize
    ensures { result ≡ index_most page_size }
{
    let room = page_size.saturating_sub(12);
    (room / 255 * 64 + room % 255 * 64 / 255).saturating_sub(23)
}

/// What the cell at a place has of its entry, on this page. (`Damaged` for one that is no page of an index, or has no such cell.)
pub(crate) fn local_on<'a>(page: &TreePage<'a>, place: usize) -> R<Local<'a>>
    ensures only { (node : Node) (d : LocalIs) → IsNode page.now.bytes page.now.start node
        → IsOfIndex node
        → place < length (locals_of node) → Answers local_of result (slice_index_or (locals_of node) place d) }
    ensures not_disk { IfErr result IsNotDiskFault }
{
    match page.kind() {
        Kind::IndexLeaf => page.entry(place),
        Kind::IndexInterior => Ok(page.between(place)?.entry),
        Kind::TableLeaf | Kind::TableInterior => Err(Fault::Damaged(Damage::Page, 0)),
    }
}

/// The same of a page of these bytes. (And `Damaged` for one that is no page of a tree.)
pub(crate) fn local_in(bytes: &[u8], number: u32, place: usize) -> R<Local<'_>>
    ensures only { (node : Node) (d : LocalIs) → IsNode bytes.now (counting.start_of number) node
        → IsOfIndex node
        → place < length (locals_of node) → Answers local_of result (slice_index_or (locals_of node) place d) }
    ensures not_disk { IfErr result IsNotDiskFault }
{
    let page = TreePage::over(bytes, start_of(number))?;
    local_on(&page, place)
}

/// How many cells the page of these bytes has. (`Damaged` for one that is no page of a tree.)
pub(crate) fn len_in(bytes: &[u8], number: u32) -> R<usize>
    ensures only { (node : Node) → IsNode bytes.now (counting.start_of number) node
        → result ≡ Ok (count_of node) }
    ensures not_disk { IfErr result IsNotDiskFault }
{
    Ok(TreePage::over(bytes, start_of(number))?.len())
}

/// The child at a place of an interior page; the last one stands after all cells. (`Damaged(Cell, 0)` as for `between`.)
fn child_at(page: &TreePage<'_>, place: usize) -> R<Option<u32>>
    ensures only { (node : Node) → IsNode page.now.bytes page.now.start node → IsBetween node
        → result ≡ Ok (child_for place node) }
    ensures not_disk { IfErr result IsNotDiskFault }
{
    if place < page.len() {
        return Ok(Some(page.between(place)?.child));
    }
    Ok(page.last_child())
}

/// The child at a place of a page of these bytes, or None on a leaf. (`Damaged` for one that is no page of an index.)
pub(crate) fn child_in(bytes: &[u8], number: u32, place: usize) -> R<Option<u32>>
    ensures only { (node : Node) → IsNode bytes.now (counting.start_of number) node → IsOfIndex node
        → result ≡ Ok (child_for place node) }
    ensures not_disk { IfErr result IsNotDiskFault }
{
    let page = TreePage::over(bytes, start_of(number))?;
    match page.kind() {
        Kind::IndexLeaf => Ok(None),
        Kind::IndexInterior => child_at(&page, place),
        Kind::TableLeaf | Kind::TableInterior => Err(Fault::Damaged(Damage::Page, 0)),
    }
}

/// How many entries a page has. (What `load` refuses; `Damaged` for one that is no page of a tree.)
pub(crate) fn len_of<P: Pages>(pages: &mut P, number: u32) -> R<usize>
    ensures counted { IsTrue (P.Pages.tells (P.Pages.below pages.old))
        → CountsEntries (P.Pages.map pages.old) (P.Pages.limits (P.Pages.below pages.old)).page number result }
    ensures stays { Stays P.Pages.below P.Pages.map P.Pages.count P.Pages.failures result pages.old pages.new }
{
    pages.load(number)?;
    match len_in(pages.loaded(), number) {
        Ok(len) => Ok(len),
        Err(fault) => Err(at_page(fault, number)),
    }
}

/// The child at a place of a page, or None on a leaf. (What `load` refuses; `Damaged` for one that is no page of an index.)
pub(crate) fn child_of<P: Pages>(pages: &mut P, number: u32, place: usize) -> R<Option<u32>>
    ensures found { IsTrue (P.Pages.tells (P.Pages.below pages.old))
        → FindsChild (P.Pages.map pages.old) (P.Pages.limits (P.Pages.below pages.old)).page number
        place result }
    ensures stays { Stays P.Pages.below P.Pages.map P.Pages.count P.Pages.failures result pages.old pages.new }
{
    pages.load(number)?;
    match child_in(pages.loaded(), number, place) {
        Ok(child) => Ok(child),
        Err(fault) => Err(at_page(fault, number)),
    }
}
