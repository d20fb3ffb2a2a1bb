//! The way from a tree's root down to the leaf where a rowid belongs.

ghost use Rattle.std.specs.Prelude.{◌≡◌, ℕ, ℤ, Ok, Some, IsTrue, IfOk, IfErr, OnOk, List, length, map};
ghost use Rattle.sqlval.specs.Faults.{IsNotDiskFault};
ghost use Rattle.pages.specs.Calls.{Stays};
ghost use Rattle.pages.specs.Counting as counting;
ghost use Rattle.pages.specs.Map.{page_at};
ghost use Rattle.tree_page.specs.Node.{Node, Keys, IsNode};
ghost use Rattle.tree_page.specs.Reading.{NeverFall, below, numbers_of};
ghost use Rattle.tree_table.specs.Ways.{left_for, way_for, step_for, IsAbout, IsStepAbout, FindsStep, FindsLeaf};

use crate::leaf::{at_page, start_of};
use pages::Pages;
use sqlval::{Damage, Fault, R};
use tree_page::{Kind, TreePage};

/// How many pages a way has at most.
const MOST_LEVELS: usize = 20;

/// A page on the way of a rowid, and the nearest keys beside the way.
#[derive(Clone, Copy)]
pub struct Way {
    /// The page's number.
    pub page: u32,
    /// The greatest key on the left, if there is one: all rows there are at most it.
    pub left: Option<i64>,
    /// The least key on the right, if there is one: all rows there are greater.
    pub right: Option<i64>,
}

/// The end of a way.
#[derive(Clone, Copy)]
pub struct End {
    /// The way, to a leaf.
    pub way: Way,
    /// The first place on the leaf whose rowid isn't less.
    pub place: usize,
}

/// Where a way goes on from a page.
#[derive(Clone, Copy)]
pub enum Step {
    /// The page is a leaf: the first place whose rowid isn't less.
    AtLeaf(usize),
    /// Down to a child.
    Down(Way),
}

/// Whether a rowid lies between two keys: above the left one, and at most the right one.
fn is_about(rowid: i64, way: Way) -> bool
    ensures yes { IsTrue result → IsAbout rowid way }
    ensures no { IsAbout rowid way → IsTrue result }
{
    if let Some(key) = way.left {
        if key >= rowid {
            return false;
        }
    }
    if let Some(key) = way.right {
        return rowid <= key;
    }
    true
}

/// The key on the left of the child at a place, where `left` is that on the left of the page. (`Damaged(Cell, 0)`)
fn left_of(page: &TreePage<'_>, left: Option<i64>, place: usize) -> R<Option<i64>>
    ensures only { (kids : List (ℕ × ℤ)) (last : ℕ) (rowid : ℤ)
        → IsNode page.now.bytes page.now.start (Keys kids last)
        → place ≡ below rowid (map (λ kid. kid.1) kids)
        → result ≡ Ok (left_for rowid left kids) }
    ensures not_disk { IfErr result IsNotDiskFault }
{
    if place == 0 {
        return Ok(left);
    }
    Ok(Some(page.key(place - 1)?.rowid))
}

/// The way on from an interior page to the child at a place. (`Damaged(Page, 0)` or `Damaged(Cell, 0)` if there is none.)
fn way_down(page: &TreePage<'_>, way: Way, place: usize) -> R<Way>
    ensures only { (kids : List (ℕ × ℤ)) (last : ℕ) (rowid : ℤ)
        → IsNode page.now.bytes page.now.start (Keys kids last)
        → place ≡ below rowid (map (λ kid. kid.1) kids)
        → result ≡ Ok (way_for rowid way kids last) }
    ensures not_disk { IfErr result IsNotDiskFault }
{
    let left = left_of(page, way.left, place)?;
    if place == page.len() {
        let child = page.last_child().ok_or(Fault::Damaged(Damage::Page, 0))?;
        return Ok(Way {
            page: child,
            left,
            right: way.right,
        });
    }
    let key = page.key(place)?;
    Ok(Way {
        page: key.child,
        left,
        right: Some(key.rowid),
    })
}

/// Where the way of a rowid goes on from a page of these bytes. (`Damaged` for one that is no page of a table; `Damaged(Order, 0)`
/// if its keys don't rise.)
fn step_in(bytes: &[u8], way: Way, rowid: i64) -> R<Step>
    ensures only { (node : Node) (numbers : List ℤ)
        → IsNode bytes.now (counting.start_of way.page) node → numbers_of node ≡ Some numbers
        → NeverFall numbers
        → IsStepAbout rowid (step_for rowid way node) → result ≡ Ok (step_for rowid way node) }
    ensures about { IfOk result (IsStepAbout rowid) }
    ensures not_disk { IfErr result IsNotDiskFault }
{
    let page = TreePage::over(bytes, start_of(way.page))?;
    let place = page.place(rowid)?;
    match page.kind() {
        Kind::TableLeaf => Ok(Step::AtLeaf(place)),
        Kind::TableInterior => {
            let down = way_down(&page, way, place)?;
            if !is_about(rowid, down) {
                return Err(Fault::Damaged(Damage::Order, 0));
            }
            Ok(Step::Down(down))
        }
        Kind::IndexLeaf | Kind::IndexInterior => Err(Fault::Damaged(Damage::Page, 0)),
    }
}

/// Where the way of a rowid goes on from its page. (What `load` refuses; `Damaged` for one that is no page of a table, or whose
/// keys don't rise.)
fn step_from<P: Pages>(pages: &mut P, way: Way, rowid: i64) -> R<Step>
    ensures found { IsTrue (P.Pages.tells (P.Pages.below pages.old))
        → FindsStep (P.Pages.map pages.old) (P.Pages.limits (P.Pages.below pages.old)).page way rowid result }
    ensures about { IfOk result (IsStepAbout rowid) }
    ensures held { IsTrue (P.Pages.tells (P.Pages.below pages.old))
        → OnOk result (P.Pages.held pages.new ≡ page_at (P.Pages.map pages.old) way.page) }
    ensures stays { Stays P.Pages.below P.Pages.map P.Pages.count P.Pages.failures result pages.old pages.new }
{
    pages.load(way.page)?;
    match step_in(pages.loaded(), way, rowid) {
        Ok(step) => Ok(step),
        Err(fault) => Err(at_page(fault, way.page)),
    }
}

/// The leaf where a rowid belongs, and the place. (`Damaged(Depth, root)` if the way has more than 20 pages; what the pages on
/// it refuse.)
pub fn find_leaf<P: Pages>(pages: &mut P, root: u32, rowid: i64) -> R<End>
    ensures found { IsTrue (P.Pages.tells (P.Pages.below pages.old))
        → FindsLeaf (P.Pages.map pages.old) (P.Pages.limits (P.Pages.below pages.old)).page root rowid result }
    ensures about { IfOk result (λ end. IsAbout rowid end.way) }
    // The leaf is loaded then.
    ensures held { IsTrue (P.Pages.tells (P.Pages.below pages.old))
        → IfOk result (λ end. P.Pages.held pages.new ≡ page_at (P.Pages.map pages.old) end.way.page) }
    ensures stays { Stays P.Pages.below P.Pages.map P.Pages.count P.Pages.failures result pages.old pages.new }
{
    let mut way = Way {
        page: root,
        left: None,
        right: None,
    };
    'levels: for _ in 0..MOST_LEVELS {
        match step_from(pages, way, rowid)? {
            Step::AtLeaf(place) => return Ok(End { way, place }),
            Step::Down(down) => way = down,
        }
    }
    Err(Fault::Damaged(Damage::Depth, root))
}
