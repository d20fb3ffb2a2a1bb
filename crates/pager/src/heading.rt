//! The database header at the front of page 1.

ghost use Rattle.std.specs.Prelude.{◌≡◌, ◌≤◌, ◌++◌, drop, length};
ghost use Rattle.sqlval.specs.PageSizes.{IsPageSize};
ghost use Rattle.db_header.specs.Writing.{IsBytes};
ghost use Rattle.pager.specs.Writers.{FirstIsBytes, HasHeader, IsHeaded, IsInPlace, Reheads, SetsFirst};

use crate::pieces::{Pieces, spot_of};
use db_header::Header;
use wal::PageImage;

/// Writes bytes at the front of a page, as far as it has room.
fn put_front(page: &mut [u8], front: &[u8])
    ensures front { length front.now ≤ length page.old
        → page.new ≡ front.now ++ drop (length front.now) page.old }
    ensures bytes { IsBytes page.old }
{
    let count = page.len().min(front.len());
    page[..count].copy_from_slice(&front[..count]);
}

/// Writes a header at the front of a page.
fn give_header(page: &mut PageImage, header: &Header)
    requires { IsPageSize header.now.page_size }
    ensures number { page.new.number ≡ page.old.number }
    ensures headed { 100 ≤ length page.old.bytes.items
        → IsHeaded page.old.bytes.items page.new.bytes.items header.now }
    ensures place { IsInPlace page.old page.new }
    ensures bytes { IsBytes page.old.bytes.items }
{
    put_front(page.bytes.as_mut_slice(), &db_header::write(header));
}

/// Writes a header at the front of the first page of a piece.
fn rehead_piece(pages: &mut Vec<PageImage>, header: &Header)
    requires { IsPageSize header.now.page_size }
    ensures reheads { (old : Header) → HasHeader pages.old.items old
        → Reheads pages.old.items pages.new.items header.now }
    ensures first { SetsFirst pages.old.items pages.new.items }
    ensures bytes { FirstIsBytes pages.old.items }
{
    if let Some(page) = pages.first_mut() {
        give_header(page, header);
    }
}

/// Writes a header at the front of the first of some pages.
pub fn rehead(pages: &mut Pieces<PageImage>, header: &Header)
    requires { IsPageSize header.now.page_size }
    ensures reheads { (old : Header) → HasHeader pages.old.items old
        → Reheads pages.old.items pages.new.items header.now }
    ensures first { SetsFirst pages.old.items pages.new.items }
    ensures bytes { FirstIsBytes pages.old.items }
{
    if pages.len() > 0 {
        let first = spot_of(&pages.pieces, 0).piece;
        rehead_piece(&mut pages.pieces[first], header);
    }
}
