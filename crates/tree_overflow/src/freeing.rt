//! Giving the overflow pages of a payload back.

ghost use Rattle.std.specs.Prelude.{◌≡◌, IsTrue};
ghost use Rattle.pages.specs.Map.{AreWhole};
ghost use Rattle.pages.specs.Calls.{Stays, Causes};
ghost use Rattle.tree_overflow.specs.Calls.{Frees};
ghost use Rattle.tree_overflow.specs.Freeing.{FindsNext, FreesChain};

use crate::local::local_len;
use crate::reading::number_in;
use freelist::give;
use pages::{Pages, WritePages};
use sqlval::{Damage, Fault, R};
use std::alloc::Global;

/// The next page that an overflow page tells, or 0 at the end.
fn next_link<P: Pages>(pages: &mut P, page: u32) -> R<u32>
    ensures found { IsTrue (P.Pages.tells (P.Pages.below pages.old))
        → AreWhole (P.Pages.limits (P.Pages.below pages.old)).page (P.Pages.map pages.old)
        → FindsNext (P.Pages.map pages.old) (P.Pages.limits (P.Pages.below pages.old)).page page result }
    ensures stays { Stays P.Pages.below P.Pages.map P.Pages.count P.Pages.failures result pages.old pages.new }
{
    pages.load(page)?;
    let Some(next) = number_in(pages.loaded()) else {
        return Err(Fault::Damaged(Damage::Cell, page));
    };
    Ok(next)
}

/// Gives the pages of a chain back on which so many bytes lie, from this one on.
fn free_links<P: WritePages>(alloc: Global, pages: &mut P, first: u32, size: u64) -> R<()>
    ensures freed { IsTrue (P.Pages.tells (P.Pages.below pages.old))
        → FreesChain (P.Pages.map pages.old) (P.Pages.map pages.new)
        (P.Pages.limits (P.Pages.below pages.old)).page first size result }
    ensures kept { P.Pages.below pages.new ≡ P.Pages.below pages.old }
    ensures counted { P.Pages.count pages.new ≡ P.Pages.count pages.old }
    ensures causes { Causes result (P.Pages.failures pages.old) (P.Pages.failures pages.new) ⊥ }
{
    // No page is so short that an overflow page has no room.
    let room = pages.page_size().saturating_sub(4).max(1) as u64;
    let mut page = first;
    let mut left = size;
    'links: while left > 0 {
        let next = next_link(pages, page)?;
        give(alloc, pages, page)?;
        page = next;
        left = left.saturating_sub(room);
    }
    Ok(())
}

/// Gives the overflow pages back over which a payload of so many bytes goes on: `held` are its bytes
/// in a cell, where at most `most` may lie, and the number of the first overflow page. (`Memory`,
/// `Io`; `Damaged(Cell, ..)` if the cell or an overflow page tells no next page; what `load` and
/// `give` refuse. Pages that were given back before stay so.) At most as many pages are given back
/// as so many bytes take.
pub fn free_chain<P: WritePages>(
    alloc: Global,
    pages: &mut P,
    size: u64,
    most: usize,
    held: &[u8],
) -> R<()>
    ensures freed { IsTrue (P.Pages.tells (P.Pages.below pages.old))
        → Frees (P.Pages.map pages.old) (P.Pages.map pages.new)
        (P.Pages.limits (P.Pages.below pages.old)).page most held.now size result }
    ensures kept { P.Pages.below pages.new ≡ P.Pages.below pages.old }
    ensures counted { P.Pages.count pages.new ≡ P.Pages.count pages.old }
    ensures causes { Causes result (P.Pages.failures pages.old) (P.Pages.failures pages.new) ⊥ }
{
    let local = local_len(pages.page_size() as u64, most as u64, size).min(size);
    if local == size {
        return Ok(());
    }
    if local > held.len() as u64 {
        return Err(Fault::Damaged(Damage::Cell, 0));
    }
    let (_, rest) = held.split_at(local as usize);
    let Some(first) = number_in(rest) else {
        return Err(Fault::Damaged(Damage::Cell, 0));
    };
    free_links(alloc, pages, first, size - local)
}
