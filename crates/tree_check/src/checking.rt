//! The check of a table's tree.

ghost use Rattle.std.specs.Prelude.{◌≡◌, ℕ, IsTrue, OnOk, IfErr, length};
ghost use Rattle.sqlval.specs.Faults.{IsOutside};
ghost use Rattle.pages.specs.Calls.{Stays};
ghost use Rattle.pages.specs.Map.{PageMap};
ghost use Rattle.tree_table.specs.Tree.{pages_of};
ghost use Rattle.tree_check.specs.Checks.{CanMark, IsChecked, IsUnmarked, MarksTree};
ghost use Rattle.tree_check.specs.Exact.{AreTold, Checks};
ghost use Rattle.tree_check.specs.Subtrees.{IsSubtree, AreSubtrees, keys_in, pages_beside};

use crate::branches::{depth_of, read_kids};
use crate::chains::check_tails;
use crate::leaves::{read_leaf, wide};
use crate::marking::mark;
use pages::Pages;
use sqlval::R;
use std::alloc::Global;
use tree_page::Key;

/// Less than each rowid.
const BEFORE_ALL: i128 = -9223372036854775809;

/// The greatest rowid.
const LAST_ROWID: i128 = 9223372036854775807;

/// The key of a child.
fn key_wide(kid: Key) -> i128
    ensures { result ≡ kid.rowid }
{
    wide(kid.rowid)
}

/// Checks a leaf, and marks its page and those of its payloads. (What `mark`, `read_leaf` and `check_tails` refuse.)
fn check_leaf<P: Pages>(
    alloc: Global,
    pages: &mut P,
    page: u32,
    low: i128,
    high: i128,
    taken: &mut Vec<bool>,
    marks: &mut Vec<bool>,
) -> R<()>
    ensures checked { (map : PageMap) (size : ℕ)
        → AreTold P.Pages.below P.Pages.tells P.Pages.limits P.Pages.map pages.old map size
        → CanMark map size marks.old.items
        → Checks (IsSubtree map size page 0 low high) (pages_of 0) marks.old.items marks.new.items result }
    ensures long { length marks.new.items ≡ length marks.old.items }
    ensures stays { Stays P.Pages.below P.Pages.map P.Pages.count P.Pages.failures result pages.old pages.new }
{
    mark(marks, page)?;
    let tails = read_leaf(alloc, pages, page, low, high, taken)?;
    check_tails(pages, tails.as_slice(), marks)
}

/// Checks the trees under the children of a page, and marks their pages. (What `check_below` refuses.)
#[cycle(below)]
fn check_kids<P: Pages>(
    alloc: Global,
    pages: &mut P,
    kids: &[Key],
    last: u32,
    depth: u32,
    low: i128,
    high: i128,
    taken: &mut Vec<bool>,
    marks: &mut Vec<bool>,
) -> R<()>
    ensures checked { (map : PageMap) (size : ℕ)
        → AreTold P.Pages.below P.Pages.tells P.Pages.limits P.Pages.map pages.old map size
        → CanMark map size marks.old.items
        → Checks (AreSubtrees map size (keys_in kids.now) last depth low high) (pages_beside depth)
        marks.old.items marks.new.items result }
    ensures long { length marks.new.items ≡ length marks.old.items }
    ensures stays { Stays P.Pages.below P.Pages.map P.Pages.count P.Pages.failures result pages.old pages.new }
{
    let mut above = low;
    let mut rest = kids;
    'kids: while let [kid, after @ ..] = rest {
        let key = key_wide(*kid);
        check_below(alloc, pages, kid.child, depth, above, key, taken, marks)?;
        above = key;
        rest = after;
    }
    check_below(alloc, pages, last, depth, above, high, taken, marks)
}

/// Checks the tree under a page, which has this many interior pages above each leaf, and marks its pages. (What `mark`, `check_leaf`
/// and `read_kids` refuse.)
#[cycle(below)]
fn check_below<P: Pages>(
    alloc: Global,
    pages: &mut P,
    page: u32,
    depth: u32,
    low: i128,
    high: i128,
    taken: &mut Vec<bool>,
    marks: &mut Vec<bool>,
) -> R<()>
    ensures checked { (map : PageMap) (size : ℕ)
        → AreTold P.Pages.below P.Pages.tells P.Pages.limits P.Pages.map pages.old map size
        → CanMark map size marks.old.items
        → Checks (IsSubtree map size page depth low high)
        (pages_of depth) marks.old.items marks.new.items result }
    ensures long { length marks.new.items ≡ length marks.old.items }
    ensures stays { Stays P.Pages.below P.Pages.map P.Pages.count P.Pages.failures result pages.old pages.new }
{
    if depth == 0 {
        return check_leaf(alloc, pages, page, low, high, taken, marks);
    }
    mark(marks, page)?;
    let kids = read_kids(alloc, pages, page, taken)?;
    check_kids(
        alloc,
        pages,
        kids.keys.as_slice(),
        kids.last,
        depth - 1,
        low,
        high,
        taken,
        marks,
    )
}

/// Checks the tree of a table under a root, and marks its pages. (`Memory`, `Io`; `Damaged` with the page where it breaks off: `Page`
/// for one that is none of a table's tree, or stands at another depth, `Cell`, `Order`, `Depth`, `UsedTwice` for one that was marked,
/// `Size` for a number that is none of a page; what `load` refuses.)
pub fn check_tree<P: Pages>(alloc: Global, pages: &mut P, root: u32, marks: &mut Vec<bool>) -> R<()>
    ensures found { IsTrue (P.Pages.tells (P.Pages.below pages.old))
        → CanMark (P.Pages.map pages.old) (P.Pages.limits (P.Pages.below pages.old)).page marks.old.items
        → OnOk result (IsChecked (P.Pages.map pages.old) (P.Pages.limits (P.Pages.below pages.old)).page root
        marks.old.items marks.new.items) }
    ensures only { IsTrue (P.Pages.tells (P.Pages.below pages.old))
        → CanMark (P.Pages.map pages.old) (P.Pages.limits (P.Pages.below pages.old)).page marks.old.items
        → IsUnmarked (P.Pages.map pages.old) (P.Pages.limits (P.Pages.below pages.old)).page root
        marks.old.items
        → IfErr result IsOutside }
    ensures same { IsTrue (P.Pages.tells (P.Pages.below pages.old))
        → CanMark (P.Pages.map pages.old) (P.Pages.limits (P.Pages.below pages.old)).page marks.old.items
        → OnOk result (MarksTree (P.Pages.map pages.old) (P.Pages.limits (P.Pages.below pages.old)).page root
        marks.old.items marks.new.items) }
    ensures long { length marks.new.items ≡ length marks.old.items }
    ensures stays { Stays P.Pages.below P.Pages.map P.Pages.count P.Pages.failures result pages.old pages.new }
{
    let mut taken = Vec::new(alloc);
    let depth = depth_of(pages, root)?;
    check_below(
        alloc, pages, root, depth, BEFORE_ALL, LAST_ROWID, &mut taken, marks,
    )
}
