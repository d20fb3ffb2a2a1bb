//! Reading a payload.

ghost use Rattle.std.specs.Prelude.{◌≡◌, ◌<◌, ◌^◌, ◌++◌, ℕ, List, Some, option_map, IsTrue};
ghost use Rattle.std.specs.Int.{w32, to_be_bytes};
ghost use Rattle.pages.specs.Calls.{Stays};
ghost use Rattle.tree_overflow.specs.Calls.{Reads};
ghost use Rattle.tree_overflow.specs.Links.{FindsLink, ReadsLink, ReadsChain};

use crate::local::local_len;
use pages::Pages;
use sqlval::{Damage, Fault, R};

/// The number in the first four bytes; None if there are fewer.
pub fn number_in(bytes: &[u8]) -> Option<u32>
    ensures { (n : ℕ) (rest : List ℕ) → n < 2 ^ 32 → bytes.now ≡ to_be_bytes w32 n ++ rest
        → result ≡ Some n }
{
    if bytes.len() < 4 {
        return None;
    }
    Some(u32::from_be_bytes([bytes[0], bytes[1], bytes[2], bytes[3]]))
}

/// The next page that an overflow page tells, and the part of so many bytes that it has; None if it
/// is too short for them.
fn link_in(page: &[u8], left: u64) -> Option<(u32, &[u8])>
    ensures { FindsLink page.now left (option_map (λ found. (found.0, found.1.now)) result) }
{
    let next = number_in(page)?;
    let room = page.len().saturating_sub(4);
    let len = left.min(room as u64) as usize;
    let bytes = page.get(4..4 + len)?;
    Some((next, bytes))
}

/// Puts the part of so many bytes that an overflow page has behind others, and answers the next
/// page, or 0 at the end.
fn read_link<P: Pages>(pages: &mut P, page: u32, left: u64, out: &mut Vec<u8>) -> R<u32>
    ensures linked { IsTrue (P.Pages.tells (P.Pages.below pages.old))
        → ReadsLink (P.Pages.map pages.old) (P.Pages.limits (P.Pages.below pages.old)).page page
        left out.old.items out.new.items result }
    ensures stays { Stays P.Pages.below P.Pages.map P.Pages.count P.Pages.failures result pages.old pages.new }
{
    pages.load(page)?;
    let Some((next, bytes)) = link_in(pages.loaded(), left) else {
        return Err(Fault::Damaged(Damage::Cell, page));
    };
    out.extend_from_slice(bytes)?;
    Ok(next)
}

/// Puts so many bytes behind others, which lie on a chain of overflow pages from this one on.
fn read_chain<P: Pages>(pages: &mut P, first: u32, size: u64, out: &mut Vec<u8>) -> R<()>
    ensures read { IsTrue (P.Pages.tells (P.Pages.below pages.old))
        → ReadsChain (P.Pages.map pages.old) (P.Pages.limits (P.Pages.below pages.old)).page first
        size out.old.items out.new.items result }
    ensures stays { Stays P.Pages.below P.Pages.map P.Pages.count P.Pages.failures result pages.old pages.new }
{
    // No page is so short that an overflow page has no room.
    let room = pages.page_size().saturating_sub(4).max(1) as u64;
    let mut page = first;
    let mut left = size;
    'links: while left > 0 {
        page = read_link(pages, page, left, out)?;
        left = left.saturating_sub(room);
    }
    Ok(())
}

/// Puts a payload of so many bytes behind others: `held` are its bytes in a cell, where at most
/// `most` may lie, and where it goes on, the number of its first overflow page. (`Memory`, `Io`;
/// `Damaged(Cell, ..)` if the cell or an overflow page hasn't the bytes; what `load` refuses, for a
/// number that is none of a page.) At most as many pages are read as so many bytes take.
pub fn read_payload<P: Pages>(
    pages: &mut P,
    held: &[u8],
    size: u64,
    most: usize,
    out: &mut Vec<u8>,
) -> R<()>
    ensures read { IsTrue (P.Pages.tells (P.Pages.below pages.old))
        → Reads (P.Pages.map pages.old) (P.Pages.limits (P.Pages.below pages.old)).page most
        held.now size out.old.items out.new.items result }
    ensures stays { Stays P.Pages.below P.Pages.map P.Pages.count P.Pages.failures result pages.old pages.new }
{
    let local = local_len(pages.page_size() as u64, most as u64, size).min(size);
    if local > held.len() as u64 {
        return Err(Fault::Damaged(Damage::Cell, 0));
    }
    let (here, rest) = held.split_at(local as usize);
    out.extend_from_slice(here)?;
    if local == size {
        return Ok(());
    }
    let Some(first) = number_in(rest) else {
        return Err(Fault::Damaged(Damage::Cell, 0));
    };
    read_chain(pages, first, size - local, out)
}
