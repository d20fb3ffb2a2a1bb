//! What a page of a table's tree leads to by a rowid.

ghost use Rattle.std.specs.Prelude.{◌≡◌, ◌==◌, IsTrue, IfErr};
ghost use Rattle.sqlval.specs.Faults.{IsNotDiskFault};
ghost use Rattle.pages.specs.Calls.{Stays};
ghost use Rattle.tree_page.specs.Reading.{type_of};
ghost use Rattle.tree_table.specs.Stepping.{FindsChild, LooksUp, StepsFrom};

use crate::leaf::{at_page, start_of};
use pages::Pages;
use sqlval::{Damage, Fault, R};
use tree_page::{Kind, TreePage};

/// Where the way to a rowid goes on from a page.
#[derive(Clone, Copy, Drop)]
pub(crate) enum Step {
    /// This leaf has a row of the rowid, at this place among the cells.
    Found(usize),
    /// This leaf has none. It would stand at this place among the cells.
    Here(usize),
    /// To the child at this place, with its page's number; the last child stands behind all cells.
    Down(usize, u32),
}

/// The child at a place of an interior page. (`Damaged(Page, 0)` if there is none.)
pub(crate) fn child_at(page: &TreePage<'_>, place: usize) -> R<u32>
    ensures found { FindsChild page.now place result }
    ensures not_disk { IfErr result IsNotDiskFault }
{
    if place < page.len() {
        return Ok(page.key(place)?.child);
    }
    page.last_child().ok_or(Fault::Damaged(Damage::Page, 0))
}

/// Whether a page of this kind is a leaf of a table.
fn is_leaf(kind: Kind) -> bool
    ensures { result ≡ (type_of kind == 13) }
{
    matches!(kind, Kind::TableLeaf)
}

/// Where the way to a rowid goes on from the page of these bytes, whose header begins at `start`.
pub(crate) fn look(bytes: &[u8], start: usize, rowid: i64) -> R<Step>
    ensures found { LooksUp bytes.now start rowid result }
    ensures not_disk { IfErr result IsNotDiskFault }
{
    let page = TreePage::over(bytes, start)?;
    let place = page.place(rowid)?;
    if !is_leaf(page.kind()) {
        return Ok(Step::Down(place, child_at(&page, place)?));
    }
    if place < page.len() && page.row(place)?.rowid == rowid {
        return Ok(Step::Found(place));
    }
    Ok(Step::Here(place))
}

/// Where the way to a rowid goes on from a page. (`Damaged(Page, number)` or `Damaged(Cell, number)` for another page than a table's.)
pub(crate) fn step_from<P: Pages>(pages: &mut P, number: u32, rowid: i64) -> R<Step>
    ensures found { IsTrue (P.Pages.tells (P.Pages.below pages.old))
        → StepsFrom (P.Pages.map pages.old) (P.Pages.limits (P.Pages.below pages.old)).page number
        rowid result }
    ensures stays { Stays P.Pages.below P.Pages.map P.Pages.count P.Pages.failures result pages.old pages.new }
{
    pages.load(number)?;
    match look(pages.loaded(), start_of(number), rowid) {
        Ok(step) => Ok(step),
        Err(fault) => Err(at_page(fault, number)),
    }
}
