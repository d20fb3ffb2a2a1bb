//! Copies of pages, and pages that are written together.

ghost use Rattle.std.specs.Prelude.{◌≡◌, ◌<◌, ℕ, List, length, IsTrue, IfOk, IfErr, OnOk};
ghost use Rattle.sqlval.specs.Faults.{IsOutside};
ghost use Rattle.pages.specs.Map.{page_at, with_page, IsThere};
ghost use Rattle.pages.specs.Calls.{Stays, Causes};

use pages::WritePages;
use sqlval::R;
use std::alloc::Global;

/// A copy of a page.
pub fn page_of<P: WritePages>(alloc: Global, pages: &mut P, number: u32) -> R<Vec<u8>>
    ensures bytes { IsTrue (P.Pages.tells (P.Pages.below pages.old))
        → IfOk result (λ page. page.items ≡ page_at (P.Pages.map pages.old) number) }
    ensures refusal { IsTrue (P.Pages.tells (P.Pages.below pages.old))
        → IsThere (P.Pages.map pages.old) (P.Pages.limits (P.Pages.below pages.old)).page number
        → IfErr result IsOutside }
    ensures stays { Stays P.Pages.below P.Pages.map P.Pages.count P.Pages.failures result pages.old pages.new }
{
    pages.load(number)?;
    Ok(pages.loaded().to_vec(alloc)?)
}

/// Writes a page after page 1, and then page 1.
#[tactic(auto, using(crate::proofs::Causing::causes_after, crate::proofs::Causing::there_after))]
pub fn put_both<P: WritePages>(pages: &mut P, number: u32, page: &[u8], first: &[u8]) -> R<()>
    ensures kept { P.Pages.below pages.new ≡ P.Pages.below pages.old }
    ensures counted { P.Pages.count pages.new ≡ P.Pages.count pages.old }
    ensures done { IsTrue (P.Pages.tells (P.Pages.below pages.old))
        → OnOk result (P.Pages.map pages.new ≡ with_page
        (with_page (P.Pages.map pages.old) number page.now) 1 first.now) }
    ensures refusal { IsTrue (P.Pages.tells (P.Pages.below pages.old)) → 1 < number
        → IsThere (P.Pages.map pages.old) (P.Pages.limits (P.Pages.below pages.old)).page number
        → IsThere (P.Pages.map pages.old) (P.Pages.limits (P.Pages.below pages.old)).page 1
        → length page.now ≡ (P.Pages.limits (P.Pages.below pages.old)).page
        → length first.now ≡ (P.Pages.limits (P.Pages.below pages.old)).page
        → IfErr result IsOutside }
    ensures causes { Causes result (P.Pages.failures pages.old) (P.Pages.failures pages.new) ⊥ }
{
    pages.put(number, page)?;
    pages.put(1, first)
}
