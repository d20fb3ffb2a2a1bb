//! Each page can be read, and has as many bytes as a page has.

ghost use Rattle.std.specs.Prelude.{◌≡◌, ℕ, length, IfErr, OnOk};
ghost use Rattle.sqlval.specs.Faults.{IsOutside};
ghost use Rattle.pages.specs.Calls.{Stays};
ghost use Rattle.pages.specs.Map.{PageMap, AreWhole, IsThere, page_at};
ghost use Rattle.tree_check.specs.Exact.{AreTold};

use pages::Pages;
use sqlval::{Damage, Fault, R};

/// Checks that a page can be read and has as many bytes as a page has. (What `load` refuses; `Damaged(Page, number)`.)
fn check_page<P: Pages>(pages: &mut P, number: u32) -> R<()>
    ensures found { (map : PageMap) (size : ℕ)
        → AreTold P.Pages.below P.Pages.tells P.Pages.limits P.Pages.map pages.old map size
        → OnOk result (length (page_at map number) ≡ size) }
    ensures only { (map : PageMap) (size : ℕ)
        → AreTold P.Pages.below P.Pages.tells P.Pages.limits P.Pages.map pages.old map size
        → IsThere map size number → IfErr result IsOutside }
    ensures stays { Stays P.Pages.below P.Pages.map P.Pages.count P.Pages.failures result pages.old pages.new }
{
    pages.load(number)?;
    if pages.loaded().len() != pages.page_size() {
        return Err(Fault::Damaged(Damage::Page, number));
    }
    Ok(())
}

/// Checks that each page of so many can be read and has as many bytes as a page has. (What `check_page` refuses.)
pub(crate) fn check_whole<P: Pages>(pages: &mut P, size: u32) -> R<()>
    ensures found { (map : PageMap) (page : ℕ)
        → AreTold P.Pages.below P.Pages.tells P.Pages.limits P.Pages.map pages.old map page
        → size ≡ length map → OnOk result (AreWhole page map) }
    ensures only { (map : PageMap) (page : ℕ)
        → AreTold P.Pages.below P.Pages.tells P.Pages.limits P.Pages.map pages.old map page
        → size ≡ length map → AreWhole page map → IfErr result IsOutside }
    ensures stays { Stays P.Pages.below P.Pages.map P.Pages.count P.Pages.failures result pages.old pages.new }
{
    'numbers: for place in 0..size {
        check_page(pages, place + 1)?;
    }
    Ok(())
}
