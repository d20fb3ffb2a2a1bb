//! Writing a payload.

ghost use Rattle.std.specs.Prelude.{◌≡◌, ◌≤◌, ◌+◌, ◌++◌, ℕ, List, length, drop, IsTrue};
ghost use Rattle.std.specs.Int.{w32, to_be_bytes};
ghost use Rattle.pages.specs.Calls.{Causes};
ghost use Rattle.tree_overflow.specs.Calls.{Writes};
ghost use Rattle.tree_overflow.specs.Writing.{PutsLink, Lays, LaysAnew};

use crate::local::local_len;
use freelist::take;
use pages::WritePages;
use sqlval::R;
use std::alloc::Global;

/// Writes the number of the next page and bytes over the front of a page, if it has room for them.
fn fill_link(link: &mut [u8], next: u32, bytes: &[u8])
    ensures filled { 4 + length bytes.now ≤ length link.old
        → link.new ≡ to_be_bytes w32 next ++ (bytes.now ++ drop (4 + length bytes.now) link.old) }
    ensures same { length link.new ≡ length link.old }
{
    if link.len() >= 4 && bytes.len() <= link.len() - 4 {
        link[..4].copy_from_slice(&next.to_be_bytes());
        link[4..4 + bytes.len()].copy_from_slice(bytes);
    }
}

/// Writes an overflow page: the number of the next, and bytes. `link` has room for a page.
fn put_link<P: WritePages>(
    pages: &mut P,
    link: &mut [u8],
    page: u32,
    next: u32,
    bytes: &[u8],
) -> R<()>
    ensures put { IsTrue (P.Pages.tells (P.Pages.below pages.old))
        → PutsLink (P.Pages.map pages.old) (P.Pages.map pages.new)
        (P.Pages.limits (P.Pages.below pages.old)).page
        link.old page next bytes.now result }
    ensures kept { P.Pages.below pages.new ≡ P.Pages.below pages.old }
    ensures same { length link.new ≡ length link.old }
    ensures causes { Causes result (P.Pages.failures pages.old) (P.Pages.failures pages.new) ⊥ }
{
    fill_link(link, next, bytes);
    pages.put(page, link)
}

/// Writes bytes on a chain of overflow pages that begins with a page which was taken. Each other
/// page is taken before the one before it is written.
fn lay_chain<P: WritePages>(alloc: Global, pages: &mut P, first: u32, bytes: &[u8]) -> R<()>
    ensures laid { IsTrue (P.Pages.tells (P.Pages.below pages.old))
        → Lays (P.Pages.map pages.old) (P.Pages.map pages.new)
        (P.Pages.limits (P.Pages.below pages.old)).page first bytes.now result }
    ensures kept { P.Pages.below pages.new ≡ P.Pages.below pages.old }
    ensures causes { Causes result (P.Pages.failures pages.old) (P.Pages.failures pages.new)
        (P.Pages.count pages.new ≡ (P.Pages.limits (P.Pages.below pages.new)).most) }
{
    let mut link = vec![in alloc; 0; pages.page_size()]?;
    // No page is so short that an overflow page has no room.
    let room = pages.page_size().saturating_sub(4).max(1);
    let mut page = first;
    let mut left = bytes;
    'links: while left.len() > room {
        let (here, rest) = left.split_at(room);
        let next = take(alloc, pages)?;
        put_link(pages, link.as_mut_slice(), page, next, here)?;
        page = next;
        left = rest;
    }
    put_link(pages, link.as_mut_slice(), page, 0, left)
}

/// Writes bytes on a chain of overflow pages, and answers its first page.
fn write_chain<P: WritePages>(alloc: Global, pages: &mut P, bytes: &[u8]) -> R<u32>
    ensures laid { IsTrue (P.Pages.tells (P.Pages.below pages.old))
        → LaysAnew (P.Pages.map pages.old) (P.Pages.map pages.new)
        (P.Pages.limits (P.Pages.below pages.old)).page bytes.now result }
    ensures kept { P.Pages.below pages.new ≡ P.Pages.below pages.old }
    ensures causes { Causes result (P.Pages.failures pages.old) (P.Pages.failures pages.new)
        (P.Pages.count pages.new ≡ (P.Pages.limits (P.Pages.below pages.new)).most) }
{
    let first = take(alloc, pages)?;
    lay_chain(alloc, pages, first, bytes)?;
    Ok(first)
}

/// Writes a payload, and answers its bytes in a cell, where at most `most` may lie, and where it
/// goes on, the number of its first overflow page. The overflow pages are taken, and each is written
/// once. (`Memory`, `Io`; `Full` where there are as many pages as there may be; what `take` refuses.
/// Pages that were taken before stay so.)
pub fn write_payload<P: WritePages>(
    alloc: Global,
    pages: &mut P,
    most: usize,
    payload: &[u8],
) -> R<Vec<u8>>
    ensures written { IsTrue (P.Pages.tells (P.Pages.below pages.old))
        → Writes (λ held. held.items) (P.Pages.map pages.old) (P.Pages.map pages.new)
        (P.Pages.limits (P.Pages.below pages.old)).page
        most payload.now result }
    ensures kept { P.Pages.below pages.new ≡ P.Pages.below pages.old }
    ensures causes { Causes result (P.Pages.failures pages.old) (P.Pages.failures pages.new)
        (P.Pages.count pages.new ≡ (P.Pages.limits (P.Pages.below pages.new)).most) }
{
    let size = payload.len() as u64;
    let local = local_len(pages.page_size() as u64, most as u64, size).min(size);
    let (here, rest) = payload.split_at(local as usize);
    let mut held = here.to_vec(alloc)?;
    if rest.is_empty() {
        return Ok(held);
    }
    let first = write_chain(alloc, pages, rest)?;
    held.extend_from_slice(&first.to_be_bytes())?;
    Ok(held)
}
