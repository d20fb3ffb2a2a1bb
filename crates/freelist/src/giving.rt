//! Giving a page back.

ghost use Rattle.std.specs.Prelude.{◌≡◌, ◌≤◌, ◌<◌, ◌^◌, ◌+◌, ◌/◌, ℕ, List, length, IsTrue, OnOk};
ghost use Rattle.sqlval.specs.PageSizes.{IsPageSize};
ghost use Rattle.pages.specs.Map.{page_at};
ghost use Rattle.pages.specs.Calls.{Causes};
ghost use Rattle.freelist.specs.Calls.{Gives};
ghost use Rattle.freelist.specs.PageBytes.{IsFront, LeadsTo};

use crate::bytes::{empty_trunk, has_room, header_in, listed, put_leaf, set_header};
use crate::writing::{page_of, put_both};
use db_header::Header;
use pages::WritePages;
use sqlval::{Damage, Fault, R};
use std::alloc::Global;

/// Makes a page the first trunk page, which lists no page: the one that was the first is its next.
fn give_trunk<P: WritePages>(
    alloc: Global,
    pages: &mut P,
    header: Header,
    page: u32,
    first: &mut [u8],
) -> R<()>
    requires size { IsPageSize header.page_size }
    requires few { header.freelist_count + 1 < 2 ^ 32 }
    ensures given { IsTrue (P.Pages.tells (P.Pages.below pages.old))
        → IsFront (P.Pages.map pages.old) first.old header
        → Gives (P.Pages.map pages.old) (P.Pages.map pages.new)
        (P.Pages.limits (P.Pages.below pages.old)).page page result }
    ensures kept { P.Pages.below pages.new ≡ P.Pages.below pages.old }
    ensures counted { P.Pages.count pages.new ≡ P.Pages.count pages.old }
    ensures causes { Causes result (P.Pages.failures pages.old) (P.Pages.failures pages.new) ⊥ }
{
    let trunk = empty_trunk(alloc, first.len(), header.freelist_trunk)?;
    let count = header.freelist_count + 1;
    set_header(
        first,
        &Header {
            freelist_trunk: page,
            freelist_count: count,
            ..header
        },
    );
    put_both(pages, page, trunk.as_slice(), first)
}

/// Puts a page behind those that the first trunk page lists.
fn give_leaf<P: WritePages>(
    pages: &mut P,
    header: Header,
    len: u32,
    page: u32,
    first: &mut [u8],
    trunk: &mut [u8],
) -> R<()>
    requires size { IsPageSize header.page_size }
    requires few { header.freelist_count + 1 < 2 ^ 32 }
    requires room { len + 8 < length trunk.now / 4 }
    requires short { len + 1 < 2 ^ 32 }
    ensures given { IsTrue (P.Pages.tells (P.Pages.below pages.old))
        → IsFront (P.Pages.map pages.old) first.old header
        → trunk.old ≡ page_at (P.Pages.map pages.old) header.freelist_trunk
        → 1 ≤ header.freelist_count → (next : ℕ)
        → LeadsTo (page_at (P.Pages.map pages.old) header.freelist_trunk) next len
        → Gives (P.Pages.map pages.old) (P.Pages.map pages.new)
        (P.Pages.limits (P.Pages.below pages.old)).page page result }
    ensures kept { P.Pages.below pages.new ≡ P.Pages.below pages.old }
    ensures counted { P.Pages.count pages.new ≡ P.Pages.count pages.old }
    ensures causes { Causes result (P.Pages.failures pages.old) (P.Pages.failures pages.new) ⊥ }
{
    put_leaf(trunk, len, page);
    let freelist_count = header.freelist_count + 1;
    set_header(
        first,
        &Header {
            freelist_count,
            ..header
        },
    );
    put_both(pages, header.freelist_trunk, trunk, first)
}

/// Gives a page to a freelist which isn't empty.
fn give_listed<P: WritePages>(
    alloc: Global,
    pages: &mut P,
    header: Header,
    page: u32,
    first: &mut [u8],
) -> R<()>
    requires size { IsPageSize header.page_size }
    requires some { 1 ≤ header.freelist_count }
    requires few { header.freelist_count + 1 < 2 ^ 32 }
    ensures given { IsTrue (P.Pages.tells (P.Pages.below pages.old))
        → IsFront (P.Pages.map pages.old) first.old header
        → Gives (P.Pages.map pages.old) (P.Pages.map pages.new)
        (P.Pages.limits (P.Pages.below pages.old)).page page result }
    ensures kept { P.Pages.below pages.new ≡ P.Pages.below pages.old }
    ensures counted { P.Pages.count pages.new ≡ P.Pages.count pages.old }
    ensures causes { Causes result (P.Pages.failures pages.old) (P.Pages.failures pages.new) ⊥ }
{
    let mut trunk = page_of(alloc, pages, header.freelist_trunk)?;
    let Some((_, len)) = listed(trunk.as_slice()) else {
        return Err(Fault::Damaged(Damage::Freelist, header.freelist_trunk));
    };
    if has_room(len, trunk.len()) {
        return give_leaf(pages, header, len, page, first, trunk.as_mut_slice());
    }
    give_trunk(alloc, pages, header, page, first)
}

/// Gives a page to the freelist of a header.
fn give_told<P: WritePages>(
    alloc: Global,
    pages: &mut P,
    header: Header,
    page: u32,
    first: &mut [u8],
) -> R<()>
    requires size { IsPageSize header.page_size }
    ensures given { IsTrue (P.Pages.tells (P.Pages.below pages.old))
        → IsFront (P.Pages.map pages.old) first.old header
        → Gives (P.Pages.map pages.old) (P.Pages.map pages.new)
        (P.Pages.limits (P.Pages.below pages.old)).page page result }
    ensures counted_up { OnOk result (header.freelist_count + 1 < 2 ^ 32) }
    ensures kept { P.Pages.below pages.new ≡ P.Pages.below pages.old }
    ensures counted { P.Pages.count pages.new ≡ P.Pages.count pages.old }
    ensures causes { Causes result (P.Pages.failures pages.old) (P.Pages.failures pages.new) ⊥ }
{
    if header.freelist_count == u32::MAX {
        return Err(Fault::Damaged(Damage::Freelist, 1));
    }
    if header.freelist_count == 0 {
        return give_trunk(alloc, pages, header, page, first);
    }
    give_listed(alloc, pages, header, page, first)
}

/// Gives a page back that nothing uses any more: onto the list of the first trunk page, if that has
/// room, else the page becomes the first trunk page itself. What stood on the page is lost.
/// (`Memory`, `Io`; `Damaged(Freelist, ..)` if page 1 and the trunk page tell no such list; what
/// `put` refuses, if the page isn't one of the file.)
pub fn give<P: WritePages>(alloc: Global, pages: &mut P, page: u32) -> R<()>
    ensures given { IsTrue (P.Pages.tells (P.Pages.below pages.old))
        → Gives (P.Pages.map pages.old) (P.Pages.map pages.new)
        (P.Pages.limits (P.Pages.below pages.old)).page page result }
    ensures kept { P.Pages.below pages.new ≡ P.Pages.below pages.old }
    ensures counted { P.Pages.count pages.new ≡ P.Pages.count pages.old }
    ensures causes { Causes result (P.Pages.failures pages.old) (P.Pages.failures pages.new) ⊥ }
{
    let mut first = page_of(alloc, pages, 1)?;
    let Some(header) = header_in(first.as_slice()) else {
        return Err(Fault::Damaged(Damage::Freelist, 1));
    };
    give_told(alloc, pages, header, page, first.as_mut_slice())
}
