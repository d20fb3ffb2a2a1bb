//! The root of a table's tree that lost rows.

ghost use Rattle.std.specs.Prelude.{◌≡◌, true, Ok, IsTrue, IfErr};
ghost use Rattle.sqlval.specs.Faults.{IsNotDiskFault};
ghost use Rattle.pages.specs.Calls.{Causes, Stays};
ghost use Rattle.tree_page.specs.Node.{Node, IsNode};
ghost use Rattle.tree_table.specs.Lowering.{lone_of, FindsLone, LowersRoot, SettlesRoot, TakesOver, EndsBare, TrimsRoot};

use crate::finding::last;
use crate::freeing::{Parts, child_of, clear, parts_of};
use crate::joining::joined;
use crate::leaf::{at_page, start_of};
use freelist::give;
use pages::{Pages, WritePages};
use sqlval::{Fault, R};
use std::alloc::Global;
use tree_page::TreePage;
use tree_store::put_node;

/// The one child of an interior page of these bytes that has no cells. (`Damaged` for one that is no page of a tree.)
fn lone_in(bytes: &[u8], start: usize) -> R<Option<u32>>
    ensures only { (node : Node) → IsNode bytes.now start node → result ≡ Ok (lone_of node) }
    ensures not_disk { IfErr result IsNotDiskFault }
{
    let page = TreePage::over(bytes, start)?;
    if page.len() > 0 {
        return Ok(None);
    }
    Ok(page.last_child())
}

/// The one child of an interior page that has no cells. (What `load` refuses; `Damaged` for one that is no page of a tree.)
fn lone_child<P: Pages>(pages: &mut P, number: u32) -> R<Option<u32>>
    ensures found { IsTrue (P.Pages.tells (P.Pages.below pages.old))
        → FindsLone (P.Pages.map pages.old) (P.Pages.limits (P.Pages.below pages.old)).page number result }
    ensures stays { Stays P.Pages.below P.Pages.map P.Pages.count P.Pages.failures result pages.old pages.new }
{
    pages.load(number)?;
    match lone_in(pages.loaded(), start_of(number)) {
        Ok(found) => Ok(found),
        Err(fault) => Err(at_page(fault, number)),
    }
}

/// Gives a page the bytes of another, which is given back. (`Memory`, what `load`, `put` and `give` refuse.)
fn take_over<P: WritePages>(alloc: Global, pages: &mut P, number: u32, child: u32) -> R<()>
    ensures taken { IsTrue (P.Pages.tells (P.Pages.below pages.old))
        → TakesOver (P.Pages.map pages.old) (P.Pages.map pages.new)
        (P.Pages.limits (P.Pages.below pages.old)).page number child result }
    ensures kept { P.Pages.below pages.new ≡ P.Pages.below pages.old }
    ensures causes { Causes result (P.Pages.failures pages.old) (P.Pages.failures pages.new) ⊥ }
{
    pages.load(child)?;
    let page = pages.loaded().to_vec(alloc)?;
    put_node(pages, number, page.as_slice())?;
    give(alloc, pages, child)
}

/// Where a root has one child alone and no cells, it takes over the child's cells. Page 1 has no room for all cells of another page: there its
/// one child takes over those of its own one child.
fn lower<P: WritePages>(alloc: Global, pages: &mut P, root: u32) -> R<()>
    ensures lowered { IsTrue (P.Pages.tells (P.Pages.below pages.old))
        → LowersRoot (P.Pages.map pages.old) (P.Pages.map pages.new)
        (P.Pages.limits (P.Pages.below pages.old)).page root result }
    ensures kept { P.Pages.below pages.new ≡ P.Pages.below pages.old }
    ensures causes { Causes result (P.Pages.failures pages.old) (P.Pages.failures pages.new) ⊥ }
{
    let Some(child) = lone_child(pages, root)? else {
        return Ok(());
    };
    if root > 1 {
        return take_over(alloc, pages, root, child);
    }
    let Some(below) = lone_child(pages, child)? else {
        return Ok(());
    };
    take_over(alloc, pages, child, below)
}

/// Leaves the root alone of a tree without rows, and lowers that of another. (What `last`, `clear` and `give` refuse.)
pub(crate) fn settle<P: WritePages>(alloc: Global, pages: &mut P, root: u32) -> R<()>
    ensures settled { IsTrue (P.Pages.tells (P.Pages.below pages.old))
        → SettlesRoot (P.Pages.map pages.old) (P.Pages.map pages.new)
        (P.Pages.limits (P.Pages.below pages.old)).page root result }
    ensures kept { P.Pages.below pages.new ≡ P.Pages.below pages.old }
    ensures causes { Causes result (P.Pages.failures pages.old) (P.Pages.failures pages.new)
        (P.Pages.count pages.new ≡ (P.Pages.limits (P.Pages.below pages.new)).most) }
{
    match last(pages, root)? {
        None => clear(alloc, pages, root),
        Some(_) => lower(alloc, pages, root),
    }
}

/// Whether an interior page has two children.
fn are_two(parts: Parts) -> bool
    ensures two { result ≡ true → parts ≡ Parts.Children 2 }
    ensures only { parts ≡ Parts.Children 2 → result ≡ true }
{
    matches!(parts, Parts::Children(2))
}

/// Whether a leaf has no rows.
fn is_bare(parts: Parts) -> bool
    ensures none { result ≡ true → parts ≡ Parts.Cells 0 }
    ensures only { parts ≡ Parts.Cells 0 → result ≡ true }
{
    matches!(parts, Parts::Cells(0))
}

/// Whether a root has two children, and the second is a leaf without rows. (What `load` refuses; `Damaged` for pages that are none of a
/// table's tree.)
fn ends_bare<P: Pages>(pages: &mut P, root: u32) -> R<bool>
    ensures found { IsTrue (P.Pages.tells (P.Pages.below pages.old))
        → EndsBare (P.Pages.map pages.old) (P.Pages.limits (P.Pages.below pages.old)).page root result }
    ensures stays { Stays P.Pages.below P.Pages.map P.Pages.count P.Pages.failures result pages.old pages.new }
{
    if !are_two(parts_of(pages, root)?) {
        return Ok(false);
    }
    let second = child_of(pages, root, 1)?;
    Ok(is_bare(parts_of(pages, second)?))
}

/// Leaves page 1 its first child alone where its second one has no rows, which is given back: `pack` puts such a page after a row that has no
/// room beside the database's header. (What `joined` and `put` refuse.)
pub(crate) fn trim<P: WritePages>(alloc: Global, pages: &mut P, root: u32) -> R<()>
    ensures trimmed { IsTrue (P.Pages.tells (P.Pages.below pages.old))
        → TrimsRoot (P.Pages.map pages.old) (P.Pages.map pages.new)
        (P.Pages.limits (P.Pages.below pages.old)).page root result }
    ensures kept { P.Pages.below pages.new ≡ P.Pages.below pages.old }
    ensures causes { Causes result (P.Pages.failures pages.old) (P.Pages.failures pages.new)
        (P.Pages.count pages.new ≡ (P.Pages.limits (P.Pages.below pages.new)).most) }
{
    if root > 1 {
        return Ok(());
    }
    if !ends_bare(pages, root)? {
        return Ok(());
    }
    let Some(packed) = joined(alloc, pages, root, 1)? else {
        return Ok(());
    };
    // Page 1 has a cell less than before, so this can't be.
    if !packed.pieces.is_empty() {
        return Err(Fault::Memory);
    }
    put_node(pages, root, packed.last.as_slice())
}
