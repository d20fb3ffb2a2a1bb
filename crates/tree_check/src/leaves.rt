//! Reading a leaf: the order of its rowids, and where its payloads go on.

ghost use Rattle.std.specs.Prelude.{◌≡◌, ℕ, ℤ, List, length, IfOk, IfErr};
ghost use Rattle.sqlval.specs.Faults.{IsNotDiskFault};
ghost use Rattle.pages.specs.Calls.{Stays};
ghost use Rattle.pages.specs.Counting as counting;
ghost use Rattle.pages.specs.Map.{PageMap, AreWhole};
ghost use Rattle.tree_page.specs.Node.{Local as LocalIs, Rows, IsNode};
ghost use Rattle.tree_check.specs.Exact.{AreTold};
ghost use Rattle.tree_check.specs.Tails.{AreTails};
ghost use Rattle.tree_check.specs.Subtrees.{IsLeafWith, ReadsLeaf, RisesAs};

use crate::bytes::{at_page, start_of};
use crate::chains::{Tail, add_tail};
use pages::Pages;
use sqlval::{Damage, Fault, R};
use std::alloc::Global;
use tree_page::{Kind, TreePage};

/// A rowid, as a number with room on both sides.
pub(crate) fn wide(rowid: i64) -> i128
    ensures { result ≡ rowid }
{
    rowid as i128
}

/// The tails of a leaf's rows, whose rowids rise above `low` and up to `high`. (`Memory`; `Damaged(Order, 0)` if they don't.)
fn tails_of(
    alloc: Global,
    page: &TreePage<'_>,
    usable: usize,
    low: i128,
    high: i128,
) -> R<Vec<Tail>>
    ensures found { (said : List (ℤ × LocalIs)) → IsNode page.now.bytes page.now.start (Rows said)
        → length page.now.bytes ≡ usable
        → IfOk result (λ tails. RisesAs low said high × AreTails usable said tails.items) }
    ensures only { (said : List (ℤ × LocalIs)) → IsNode page.now.bytes page.now.start (Rows said)
        → length page.now.bytes ≡ usable
        → RisesAs low said high → IfErr result (λ fault. fault ≡ Fault.Memory) }
    ensures not_disk { IfErr result IsNotDiskFault }
{
    let most = usable.saturating_sub(35) as u64;
    let mut tails = Vec::new(alloc);
    let mut above = low;
    'rows: for index in 0..page.len() {
        let row = page.row(index)?;
        let rowid = wide(row.rowid);
        if rowid <= above {
            return Err(Fault::Damaged(Damage::Order, 0));
        }
        above = rowid;
        add_tail(&mut tails, usable as u64, most, row.payload)?;
    }
    if above > high {
        return Err(Fault::Damaged(Damage::Order, 0));
    }
    Ok(tails)
}

/// The tails of the rows of a leaf of these bytes, whose rowids rise above `low` and up to `high`. (`Memory`; `Damaged` for one that
/// is no such leaf.)
fn leaf_in(
    alloc: Global,
    bytes: &[u8],
    number: u32,
    low: i128,
    high: i128,
    taken: &mut Vec<bool>,
) -> R<Vec<Tail>>
    ensures found { IfOk result (λ tails. IsLeafWith bytes.now
        (counting.start_of number) low high tails.items) }
    ensures only { (said : List (ℤ × LocalIs))
        → IsNode bytes.now (counting.start_of number) (Rows said) → RisesAs low said high
        → IfErr result (λ fault. fault ≡ Fault.Memory) }
    ensures not_disk { IfErr result IsNotDiskFault }
{
    let page = TreePage::over(bytes, start_of(number))?;
    page.check(taken)?;
    match page.kind() {
        Kind::TableLeaf => tails_of(alloc, &page, bytes.len(), low, high),
        Kind::TableInterior | Kind::IndexLeaf | Kind::IndexInterior => Err(Fault::Damaged(
            Damage::Page,
            0,
        )),
    }
}

/// The tails of the rows of a leaf, whose rowids rise above `low` and up to `high`. (`Memory`; what `load` refuses; `Damaged` for a
/// page that is no such leaf.)
pub(crate) fn read_leaf<P: Pages>(
    alloc: Global,
    pages: &mut P,
    page: u32,
    low: i128,
    high: i128,
    taken: &mut Vec<bool>,
) -> R<Vec<Tail>>
    ensures read { (map : PageMap) (size : ℕ)
        → AreTold P.Pages.below P.Pages.tells P.Pages.limits P.Pages.map pages.old map size
        → AreWhole size map
        → ReadsLeaf (λ tails. tails.items) map page low high result }
    ensures stays { Stays P.Pages.below P.Pages.map P.Pages.count P.Pages.failures result pages.old pages.new }
{
    pages.load(page)?;
    match leaf_in(alloc, pages.loaded(), page, low, high, taken) {
        Ok(tails) => Ok(tails),
        Err(fault) => Err(at_page(fault, page)),
    }
}
