//! The check of chains of overflow pages.

ghost use Rattle.std.specs.Prelude.{◌≡◌, ℕ, length, IfErr};
ghost use Rattle.std.specs.List.{flat_map};
ghost use Rattle.sqlval.specs.Faults.{IsNotDiskFault};
ghost use Rattle.pages.specs.Calls.{Stays};
ghost use Rattle.pages.specs.Map.{PageMap};
ghost use Rattle.tree_page.specs.Cells.{Pairwise};
ghost use Rattle.tree_page.specs.Payload.{held_size};
ghost use Rattle.tree_page.specs.Reading.{local_of};
ghost use Rattle.tree_check.specs.Checks.{CanMark};
ghost use Rattle.tree_check.specs.Exact.{AreTold, Checks};
ghost use Rattle.tree_check.specs.Tails.{AddsTail, IsTailOn, ChecksLink};

use crate::bytes::number_at;
use crate::local::local_len;
use crate::marking::mark;
use pages::Pages;
use sqlval::{Damage, Fault, R};
use tree_page::Local;

/// Where a payload goes on over a chain of overflow pages.
#[derive(Clone, Copy)]
pub struct Tail {
    /// The first page.
    pub first: u32,
    /// How many bytes lie on the chain.
    pub size: u64,
}

/// Adds the tail of a payload, if it goes on over overflow pages: at most `most` bytes may lie in its cell. (`Memory`; `Damaged(Cell,
/// 0)` if its cell tells no overflow page.)
pub(crate) fn add_tail(tails: &mut Vec<Tail>, usable: u64, most: u64, payload: Local<'_>) -> R<()>
    ensures added { length payload.entry.bytes.now ≡ held_size usable most payload.entry.size
        → AddsTail usable most (local_of payload.entry) tails.old.items tails.new.items result }
    ensures not_disk { IfErr result IsNotDiskFault }
{
    if payload.size <= most {
        return Ok(());
    }
    let local = local_len(usable, most, payload.size);
    let Some(first) = number_at(payload.bytes, local as usize) else {
        return Err(Fault::Damaged(Damage::Cell, 0));
    };
    let size = payload.size.saturating_sub(local);
    tails.push(Tail { first, size })?;
    Ok(())
}

/// Marks an overflow page, and answers the next one that it tells, or 0 at the end. (What `mark` and `load` refuse; `Damaged(Cell,
/// page)` for page 1.)
fn check_link<P: Pages>(pages: &mut P, page: u32, marks: &mut Vec<bool>) -> R<u32>
    ensures checked { (map : PageMap) (size : ℕ)
        → AreTold P.Pages.below P.Pages.tells P.Pages.limits P.Pages.map pages.old map size
        → CanMark map size marks.old.items
        → ChecksLink map size page marks.old.items marks.new.items result }
    ensures long { length marks.new.items ≡ length marks.old.items }
    ensures stays { Stays P.Pages.below P.Pages.map P.Pages.count P.Pages.failures result pages.old pages.new }
{
    if page == 1 {
        return Err(Fault::Damaged(Damage::Cell, page));
    }
    mark(marks, page)?;
    pages.load(page)?;
    let Some(next) = number_at(pages.loaded(), 0) else {
        return Err(Fault::Damaged(Damage::Cell, page));
    };
    Ok(next)
}

/// Checks a chain of overflow pages, and marks its pages: all are full but the last, and it ends with the bytes. (What `check_link`
/// refuses; `Damaged(Cell, page)` for a page after the end.)
fn check_chain<P: Pages>(pages: &mut P, tail: Tail, marks: &mut Vec<bool>) -> R<()>
    ensures checked { (map : PageMap) (size : ℕ)
        → AreTold P.Pages.below P.Pages.tells P.Pages.limits P.Pages.map pages.old map size
        → CanMark map size marks.old.items
        → Checks (IsTailOn map size tail) (λ chain. chain.pages) marks.old.items marks.new.items result }
    ensures long { length marks.new.items ≡ length marks.old.items }
    ensures stays { Stays P.Pages.below P.Pages.map P.Pages.count P.Pages.failures result pages.old pages.new }
{
    // No page is so short that an overflow page has no room.
    let room = pages.page_size().saturating_sub(4).max(1) as u64;
    let mut page = tail.first;
    let mut left = tail.size;
    'links: while left > 0 {
        page = check_link(pages, page, marks)?;
        left = left.saturating_sub(room);
    }
    if page != 0 {
        return Err(Fault::Damaged(Damage::Cell, page));
    }
    Ok(())
}

/// Checks the chains of these tails, and marks their pages. (What `check_chain` refuses.)
pub(crate) fn check_tails<P: Pages>(pages: &mut P, tails: &[Tail], marks: &mut Vec<bool>) -> R<()>
    ensures checked { (map : PageMap) (size : ℕ)
        → AreTold P.Pages.below P.Pages.tells P.Pages.limits P.Pages.map pages.old map size
        → CanMark map size marks.old.items
        → Checks (Pairwise (IsTailOn map size) tails.now)
        (flat_map (λ chain. chain.pages)) marks.old.items marks.new.items result }
    ensures long { length marks.new.items ≡ length marks.old.items }
    ensures stays { Stays P.Pages.below P.Pages.map P.Pages.count P.Pages.failures result pages.old pages.new }
{
    let mut rest = tails;
    'tails: while let [tail, after @ ..] = rest {
        check_chain(pages, *tail, marks)?;
        rest = after;
    }
    Ok(())
}
