//! The check of an index's tree.

ghost use Rattle.std.specs.Prelude.{◌≡◌, ℕ, List, IsTrue, OnOk, IfOk, IfErr, length};
ghost use Rattle.sqlval.specs.Faults.{IsNotDiskFault, IsOutside};
ghost use Rattle.pages.specs.Calls.{Stays};
ghost use Rattle.pages.specs.Counting as counting;
ghost use Rattle.pages.specs.Map.{PageMap, AreWhole};
ghost use Rattle.tree_page.specs.Node.{Local as LocalIs, Node, Between, IsNode, code_of};
ghost use Rattle.tree_page.specs.Reading.{type_of};
ghost use Rattle.tree_index.specs.Tree.{entries_of, pages_of};
ghost use Rattle.tree_check.specs.Checks.{CanMark, IsCheckedIndex, IsUnmarkedIndex, MarksIndex};
ghost use Rattle.tree_check.specs.Exact.{AreTold};
ghost use Rattle.tree_check.specs.InOrder.{ChecksOrdered};
ghost use Rattle.tree_check.specs.IndexTrees.{AreIndexSubtrees, IsIndexSubtree, ReadsKind, SaysKind, entries_along, pages_along};

use crate::branches::depth_of;
use crate::bytes::{at_page, start_of};
use crate::entries::{check_entries, check_entry};
use crate::marking::mark;
use pages::Pages;
use sqlval::{Collation, Damage, Fault, Many, R, Value};
use std::alloc::Global;
use tree_page::{Kind, TreePage};

/// A copy of these bytes of a page of this kind. (`Memory`; `Damaged` for one that is none.)
fn copy_of(
    alloc: Global,
    bytes: &[u8],
    number: u32,
    kind: Kind,
    taken: &mut Vec<bool>,
) -> R<Vec<u8>>
    ensures found { IfOk result (λ copy. (copy.items ≡ bytes.now)
        × SaysKind bytes.now (counting.start_of number) kind) }
    ensures only { (node : Node) → IsNode bytes.now (counting.start_of number) node
        → type_of kind ≡ code_of node
        → IfErr result (λ fault. fault ≡ Fault.Memory) }
    ensures not_disk { IfErr result IsNotDiskFault }
{
    let page = TreePage::over(bytes, start_of(number))?;
    page.check(taken)?;
    if page.kind() != kind {
        return Err(Fault::Damaged(Damage::Page, 0));
    }
    Ok(bytes.to_vec(alloc)?)
}

/// A copy of a page of this kind. (`Memory`; what `load` refuses; `Damaged` for a page that is none.)
fn copy_page<P: Pages>(
    alloc: Global,
    pages: &mut P,
    page: u32,
    kind: Kind,
    taken: &mut Vec<bool>,
) -> R<Vec<u8>>
    ensures read { (map : PageMap) (size : ℕ)
        → AreTold P.Pages.below P.Pages.tells P.Pages.limits P.Pages.map pages.old map size
        → AreWhole size map
        → ReadsKind (λ copy. copy.items) map page kind result }
    ensures stays { Stays P.Pages.below P.Pages.map P.Pages.count P.Pages.failures result pages.old pages.new }
{
    pages.load(page)?;
    match copy_of(alloc, pages.loaded(), page, kind, taken) {
        Ok(copy) => Ok(copy),
        Err(fault) => Err(at_page(fault, page)),
    }
}

/// Checks a leaf, and marks its page and those of its chains. (What `mark`, `copy_page` and `check_entries` refuse.)
fn check_end<P: Pages>(
    alloc: Global,
    pages: &mut P,
    page: u32,
    columns: &[Collation],
    last: &mut Many<Value>,
    taken: &mut Vec<bool>,
    marks: &mut Vec<bool>,
) -> R<()>
    ensures checked { (map : PageMap) (size : ℕ)
        → AreTold P.Pages.below P.Pages.tells P.Pages.limits P.Pages.map pages.old map size
        → CanMark map size marks.old.items
        → ChecksOrdered (IsIndexSubtree map size page 0) (pages_of 0)
        (entries_of 0) columns.now last.old last.new
        marks.old.items marks.new.items result }
    ensures long { length marks.new.items ≡ length marks.old.items }
    ensures stays { Stays P.Pages.below P.Pages.map P.Pages.count P.Pages.failures result pages.old pages.new }
{
    mark(marks, page)?;
    let bytes = copy_page(alloc, pages, page, Kind::IndexLeaf, taken)?;
    check_entries(alloc, pages, page, bytes.as_slice(), columns, last, marks)
}

/// Checks the trees under the children that a page of these bytes has, and the entries between them, and marks their pages. (What
/// `check_under` and `check_entry` refuse.)
#[cycle(under)]
fn check_along<P: Pages>(
    alloc: Global,
    pages: &mut P,
    page: u32,
    bytes: &[u8],
    depth: u32,
    columns: &[Collation],
    last: &mut Many<Value>,
    taken: &mut Vec<bool>,
    marks: &mut Vec<bool>,
) -> R<()>
    ensures checked { (map : PageMap) (size : ℕ)
        → AreTold P.Pages.below P.Pages.tells P.Pages.limits P.Pages.map pages.old map size
        → CanMark map size marks.old.items
        → (said : List (ℕ × LocalIs)) (end : ℕ)
        → IsNode bytes.now (counting.start_of page) (Between said end) → length bytes.now ≡ size
        → ChecksOrdered (AreIndexSubtrees map size said end depth) (pages_along depth)
        (entries_along depth) columns.now
        last.old last.new marks.old.items marks.new.items result }
    ensures long { length marks.new.items ≡ length marks.old.items }
    ensures stays { Stays P.Pages.below P.Pages.map P.Pages.count P.Pages.failures result pages.old pages.new }
{
    let node = TreePage::over(bytes, start_of(page))?;
    'cells: for index in 0..node.len() {
        let kid = node.between(index)?;
        check_under(alloc, pages, kid.child, depth, columns, last, taken, marks)?;
        check_entry(alloc, pages, page, kid.entry, columns, last, marks)?;
    }
    let Some(end) = node.last_child() else {
        return Err(Fault::Damaged(Damage::Page, page));
    };
    check_under(alloc, pages, end, depth, columns, last, taken, marks)
}

/// Checks the tree under a page, which has this many interior pages above each leaf, and marks its pages. Its entries come after the last
/// one. (What `mark`, `check_end` and `copy_page` refuse.)
#[cycle(under)]
fn check_under<P: Pages>(
    alloc: Global,
    pages: &mut P,
    page: u32,
    depth: u32,
    columns: &[Collation],
    last: &mut Many<Value>,
    taken: &mut Vec<bool>,
    marks: &mut Vec<bool>,
) -> R<()>
    ensures checked { (map : PageMap) (size : ℕ)
        → AreTold P.Pages.below P.Pages.tells P.Pages.limits P.Pages.map pages.old map size
        → CanMark map size marks.old.items
        → ChecksOrdered (IsIndexSubtree map size page depth) (pages_of depth)
        (entries_of depth) columns.now last.old last.new
        marks.old.items marks.new.items result }
    ensures long { length marks.new.items ≡ length marks.old.items }
    ensures stays { Stays P.Pages.below P.Pages.map P.Pages.count P.Pages.failures result pages.old pages.new }
{
    if depth == 0 {
        return check_end(alloc, pages, page, columns, last, taken, marks);
    }
    mark(marks, page)?;
    let bytes = copy_page(alloc, pages, page, Kind::IndexInterior, taken)?;
    check_along(
        alloc,
        pages,
        page,
        bytes.as_slice(),
        depth - 1,
        columns,
        last,
        taken,
        marks,
    )
}

/// Checks the tree of an index under a root, and marks its pages. (`Memory`, `Io`; `Damaged` with the page where it breaks off: `Page`
/// for one that is none of an index's tree, or stands at another depth, `Cell`, `Record`, `Order` for an entry that doesn't come after the
/// one before it, or has another number of values, `Depth`, `UsedTwice` for a page that was marked, `Size` for a number that is none of
/// a page; what `load` refuses.)
pub fn check_index_tree<P: Pages>(
    alloc: Global,
    pages: &mut P,
    root: u32,
    columns: &[Collation],
    marks: &mut Vec<bool>,
) -> R<()>
    ensures found { IsTrue (P.Pages.tells (P.Pages.below pages.old))
        → CanMark (P.Pages.map pages.old) (P.Pages.limits (P.Pages.below pages.old)).page marks.old.items
        → OnOk result (IsCheckedIndex (P.Pages.map pages.old)
        (P.Pages.limits (P.Pages.below pages.old)).page root columns.now
        marks.old.items marks.new.items) }
    ensures only { IsTrue (P.Pages.tells (P.Pages.below pages.old))
        → CanMark (P.Pages.map pages.old) (P.Pages.limits (P.Pages.below pages.old)).page marks.old.items
        → IsUnmarkedIndex (P.Pages.map pages.old)
        (P.Pages.limits (P.Pages.below pages.old)).page root columns.now marks.old.items
        → IfErr result IsOutside }
    ensures same { IsTrue (P.Pages.tells (P.Pages.below pages.old))
        → CanMark (P.Pages.map pages.old) (P.Pages.limits (P.Pages.below pages.old)).page marks.old.items
        → OnOk result (MarksIndex (P.Pages.map pages.old)
        (P.Pages.limits (P.Pages.below pages.old)).page root columns.now
        marks.old.items marks.new.items) }
    ensures long { length marks.new.items ≡ length marks.old.items }
    ensures stays { Stays P.Pages.below P.Pages.map P.Pages.count P.Pages.failures result pages.old pages.new }
{
    let mut taken = Vec::new(alloc);
    let mut last = Many::new(alloc);
    let depth = depth_of(pages, root)?;
    check_under(
        alloc, pages, root, depth, columns, &mut last, &mut taken, marks,
    )
}
