//! Taking a page.

ghost use Rattle.std.specs.Prelude.{◌≡◌, ◌≤◌, ◌+◌, ◌/◌, ℕ, List, length, IsTrue};
ghost use Rattle.sqlval.specs.PageSizes.{IsPageSize};
ghost use Rattle.pages.specs.Map.{page_at};
ghost use Rattle.pages.specs.Calls.{Causes};
ghost use Rattle.freelist.specs.Calls.{Takes};
ghost use Rattle.freelist.specs.PageBytes.{IsFront, LeadsTo};

use crate::bytes::{header_in, listed, set_header, take_last};
use crate::writing::{page_of, put_both};
use db_header::Header;
use pages::WritePages;
use sqlval::{Damage, Fault, R};
use std::alloc::Global;

/// Takes the first trunk page itself, which lists no page: the next one is the first now.
fn take_trunk<P: WritePages>(pages: &mut P, header: Header, next: u32, first: &mut [u8]) -> R<u32>
    requires size { IsPageSize header.page_size }
    requires some { 1 ≤ header.freelist_count }
    ensures taken { IsTrue (P.Pages.tells (P.Pages.below pages.old))
        → IsFront (P.Pages.map pages.old) first.old header
        → LeadsTo (page_at (P.Pages.map pages.old) header.freelist_trunk) next 0
        → Takes (P.Pages.map pages.old) (P.Pages.map pages.new)
        (P.Pages.limits (P.Pages.below pages.old)).page result }
    ensures kept { P.Pages.below pages.new ≡ P.Pages.below pages.old }
    ensures causes { Causes result (P.Pages.failures pages.old) (P.Pages.failures pages.new) ⊥ }
{
    let count = header.freelist_count - 1;
    set_header(
        first,
        &Header {
            freelist_trunk: next,
            freelist_count: count,
            ..header
        },
    );
    pages.put(1, first)?;
    Ok(header.freelist_trunk)
}

/// Takes the last of the pages that the first trunk page lists.
fn take_leaf<P: WritePages>(
    pages: &mut P,
    header: Header,
    len: u32,
    first: &mut [u8],
    trunk: &mut [u8],
) -> R<u32>
    requires size { IsPageSize header.page_size }
    requires some { 1 ≤ header.freelist_count }
    requires leaves { 1 ≤ len }
    requires room { len + 2 ≤ length trunk.now / 4 }
    ensures taken { IsTrue (P.Pages.tells (P.Pages.below pages.old))
        → IsFront (P.Pages.map pages.old) first.old header
        → trunk.old ≡ page_at (P.Pages.map pages.old) header.freelist_trunk
        → (next : ℕ) → LeadsTo (page_at (P.Pages.map pages.old) header.freelist_trunk) next len
        → Takes (P.Pages.map pages.old) (P.Pages.map pages.new)
        (P.Pages.limits (P.Pages.below pages.old)).page result }
    ensures kept { P.Pages.below pages.new ≡ P.Pages.below pages.old }
    ensures causes { Causes result (P.Pages.failures pages.old) (P.Pages.failures pages.new) ⊥ }
{
    let Some(leaf) = take_last(trunk, len) else {
        return Err(Fault::Damaged(Damage::Freelist, header.freelist_trunk));
    };
    let freelist_count = header.freelist_count - 1;
    set_header(
        first,
        &Header {
            freelist_count,
            ..header
        },
    );
    put_both(pages, header.freelist_trunk, trunk, first)?;
    Ok(leaf)
}

/// Takes a page that a freelist which isn't empty lists.
fn take_listed<P: WritePages>(
    alloc: Global,
    pages: &mut P,
    header: Header,
    first: &mut [u8],
) -> R<u32>
    requires size { IsPageSize header.page_size }
    requires some { 1 ≤ header.freelist_count }
    ensures taken { IsTrue (P.Pages.tells (P.Pages.below pages.old))
        → IsFront (P.Pages.map pages.old) first.old header
        → Takes (P.Pages.map pages.old) (P.Pages.map pages.new)
        (P.Pages.limits (P.Pages.below pages.old)).page result }
    ensures kept { P.Pages.below pages.new ≡ P.Pages.below pages.old }
    ensures causes { Causes result (P.Pages.failures pages.old) (P.Pages.failures pages.new) ⊥ }
{
    let mut trunk = page_of(alloc, pages, header.freelist_trunk)?;
    let Some((next, len)) = listed(trunk.as_slice()) else {
        return Err(Fault::Damaged(Damage::Freelist, header.freelist_trunk));
    };
    if len == 0 {
        return take_trunk(pages, header, next, first);
    }
    take_leaf(pages, header, len, first, trunk.as_mut_slice())
}

/// Takes a page that nothing uses: the last one that the first trunk page of the freelist lists, or
/// if it lists none, that trunk page itself; if the freelist is empty, the file grows by one page.
/// (`Full` if it can't; `Memory`, `Io`; `Damaged(Freelist, ..)` if page 1 and the trunk page tell
/// no such list.) What is on the page doesn't matter.
pub fn take<P: WritePages>(alloc: Global, pages: &mut P) -> R<u32>
    ensures taken { IsTrue (P.Pages.tells (P.Pages.below pages.old))
        → Takes (P.Pages.map pages.old) (P.Pages.map pages.new)
        (P.Pages.limits (P.Pages.below pages.old)).page result }
    ensures kept { P.Pages.below pages.new ≡ P.Pages.below pages.old }
    ensures causes { Causes result (P.Pages.failures pages.old) (P.Pages.failures pages.new)
        (P.Pages.count pages.new ≡ (P.Pages.limits (P.Pages.below pages.new)).most) }
{
    let mut first = page_of(alloc, pages, 1)?;
    let Some(header) = header_in(first.as_slice()) else {
        return Err(Fault::Damaged(Damage::Freelist, 1));
    };
    if header.freelist_count == 0 {
        return pages.grow();
    }
    take_listed(alloc, pages, header, first.as_mut_slice())
}
