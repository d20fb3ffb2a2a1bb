//! Reading an interior page: its children with their keys, and the way down the left edge.

ghost use Rattle.std.specs.Prelude.{◌≡◌, ◌<◌, ℕ, ℤ, List, Ok, IfOk, IfErr, MatchResult};
ghost use Rattle.sqlval.specs.Faults.{IsNotDiskFault};
ghost use Rattle.pages.specs.Calls.{Stays};
ghost use Rattle.pages.specs.Counting as counting;
ghost use Rattle.pages.specs.Map.{PageMap, AreWhole};
ghost use Rattle.tree_page.specs.Node.{Node, Keys, IsNode};
ghost use Rattle.tree_check.specs.Exact.{AreTold};
ghost use Rattle.tree_check.specs.Subtrees.{keys_in, IsBranchOf, ReadsBranch, FindsDepth, FindsLeft, first_child};

use crate::bytes::{at_page, start_of};
use pages::Pages;
use sqlval::{Damage, Fault, R};
use std::alloc::Global;
use tree_page::{Key, Kind, TreePage};

/// How many pages a way from the root to a leaf has at most.
const MOST_LEVELS: u32 = 20;

/// The children of an interior page.
#[derive(Drop)]
pub struct Kids {
    /// Each child but the last, with its key.
    pub keys: Vec<Key>,
    /// The last child.
    pub last: u32,
}

/// The children of an interior page with their keys, except for the last. (`Memory`)
fn keys_of(alloc: Global, page: &TreePage<'_>) -> R<Vec<Key>>
    ensures keys { (kids : List (ℕ × ℤ)) (last : ℕ)
        → IsNode page.now.bytes page.now.start (Keys kids last)
        → MatchResult result (λ keys. keys_in keys.items ≡ kids) (λ fault. fault ≡ Fault.Memory) }
    ensures not_disk { IfErr result IsNotDiskFault }
{
    let mut keys = Vec::with_capacity(alloc, page.len())?;
    'cells: for index in 0..page.len() {
        keys.push(page.key(index)?)?;
    }
    Ok(keys)
}

/// The children of an interior page of these bytes. (`Memory`; `Damaged` for one that is no interior page of a table's tree.)
fn kids_in(alloc: Global, bytes: &[u8], number: u32, taken: &mut Vec<bool>) -> R<Kids>
    ensures found { IfOk result (IsBranchOf bytes.now (counting.start_of number)) }
    ensures only { (kids : List (ℕ × ℤ)) (last : ℕ)
        → IsNode bytes.now (counting.start_of number) (Keys kids last)
        → IfErr result (λ fault. fault ≡ Fault.Memory) }
    ensures not_disk { IfErr result IsNotDiskFault }
{
    let page = TreePage::over(bytes, start_of(number))?;
    page.check(taken)?;
    match page.kind() {
        Kind::TableInterior => {
            let last = page.last_child().ok_or(Fault::Damaged(Damage::Page, 0))?;
            let keys = keys_of(alloc, &page)?;
            Ok(Kids { keys, last })
        }
        Kind::TableLeaf | Kind::IndexLeaf | Kind::IndexInterior => Err(Fault::Damaged(
            Damage::Page,
            0,
        )),
    }
}

/// The children of an interior page. (`Memory`; what `load` refuses; `Damaged` for a page that is no interior page of a table's
/// tree.)
pub(crate) fn read_kids<P: Pages>(
    alloc: Global,
    pages: &mut P,
    page: u32,
    taken: &mut Vec<bool>,
) -> R<Kids>
    ensures read { (map : PageMap) (size : ℕ)
        → AreTold P.Pages.below P.Pages.tells P.Pages.limits P.Pages.map pages.old map size
        → AreWhole size map
        → ReadsBranch map page result }
    ensures stays { Stays P.Pages.below P.Pages.map P.Pages.count P.Pages.failures result pages.old pages.new }
{
    pages.load(page)?;
    match kids_in(alloc, pages.loaded(), page, taken) {
        Ok(kids) => Ok(kids),
        Err(fault) => Err(at_page(fault, page)),
    }
}

/// The first child of a page of these bytes, or None for a leaf. (`Damaged` for one that is no page of a tree.)
fn left_in(bytes: &[u8], number: u32) -> R<Option<u32>>
    ensures only { (node : Node) → IsNode bytes.now (counting.start_of number) node
        → result ≡ Ok (first_child node) }
    ensures not_disk { IfErr result IsNotDiskFault }
{
    let page = TreePage::over(bytes, start_of(number))?;
    if page.len() == 0 {
        return Ok(page.last_child());
    }
    match page.kind() {
        Kind::TableInterior => Ok(Some(page.key(0)?.child)),
        Kind::IndexInterior => Ok(Some(page.between(0)?.child)),
        Kind::TableLeaf | Kind::IndexLeaf => Ok(None),
    }
}

/// The first child of a page, or None for a leaf. (What `load` refuses; `Damaged` for a page that is none of a tree.)
fn left_child<P: Pages>(pages: &mut P, page: u32) -> R<Option<u32>>
    ensures found { (map : PageMap) (size : ℕ)
        → AreTold P.Pages.below P.Pages.tells P.Pages.limits P.Pages.map pages.old map size
        → AreWhole size map
        → FindsLeft map page result }
    ensures stays { Stays P.Pages.below P.Pages.map P.Pages.count P.Pages.failures result pages.old pages.new }
{
    pages.load(page)?;
    match left_in(pages.loaded(), page) {
        Ok(left) => Ok(left),
        Err(fault) => Err(at_page(fault, page)),
    }
}

/// How many interior pages stand on the way down the left edge. (What `load` refuses; `Damaged` for a page that is none of a tree;
/// `Damaged(Depth, root)` if the way has more than 20 pages.)
pub(crate) fn depth_of<P: Pages>(pages: &mut P, root: u32) -> R<u32>
    ensures few { IfOk result (λ depth. depth < 20) }
    ensures found { (map : PageMap) (size : ℕ)
        → AreTold P.Pages.below P.Pages.tells P.Pages.limits P.Pages.map pages.old map size
        → AreWhole size map
        → FindsDepth map root result }
    ensures stays { Stays P.Pages.below P.Pages.map P.Pages.count P.Pages.failures result pages.old pages.new }
{
    let mut page = root;
    'levels: for depth in 0..MOST_LEVELS {
        match left_child(pages, page)? {
            None => return Ok(depth),
            Some(child) => page = child,
        }
    }
    Err(Fault::Damaged(Damage::Depth, root))
}
