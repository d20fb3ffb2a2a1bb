//! The pages of a commit, and their frames.

ghost use Rattle.std.specs.Prelude.{◌≡◌, ◌<◌, ◌++◌, OnOk, IfOk, IfErr, ℕ, length};
ghost use Rattle.wal_frame.specs.Written.{SaltsFit, written, sum_after};
ghost use Rattle.wal.specs.Pages.{ArePages, framed, size_before};
ghost use Rattle.wal.specs.Refusals.{IsPagesRefusal};

use sqlval::{Damage, Fault, R};
use std::alloc::AllocError;
use wal_frame::{FrameHeader, LogHeader, Sum};

/// The new content of a page.
#[derive(Drop)]
pub struct PageImage {
    /// The page's number, from 1.
    pub number: u32,
    /// The page's bytes, as many as the page size.
    pub bytes: Vec<u8>,
}

/// Whether these may be the pages of a commit: at least one, by rising number from 1 to `size`, each of `page_size` bytes.
/// (`Damaged(Page)` with the number of the first that isn't so, or 0 where there is none.)
pub fn check_pages(pages: &[PageImage], size: u32, page_size: u32) -> R<()>
    ensures pages { OnOk result (ArePages 0 size page_size pages.now) }
    ensures refused { IfErr result (λ fault. IsPagesRefusal
        (ArePages 0 size page_size pages.now × (0 < length pages.now)) fault) }
    ensures some { OnOk result (0 < length pages.now) }
{
    if pages.is_empty() {
        return Err(Fault::Damaged(Damage::Page, 0));
    }
    let mut last = 0;
    let mut left = pages;
    'pages: while let [page, rest @ ..] = left {
        if page.number <= last || page.number > size || page.bytes.len() != page_size as usize {
            return Err(Fault::Damaged(Damage::Page, page.number));
        }
        last = page.number;
        left = rest;
    }
    Ok(())
}

/// The size that the frame before these pages has: only the last frame has one.
fn size_over(behind: &[PageImage], size: u32) -> u32
    ensures { result ≡ size_before behind.now size }
{
    match behind {
        [] => size,
        [_, ..] => 0,
    }
}

/// Appends the frames of these pages to `bytes`, the last with the size, and returns the sums carried over them from this one.
pub fn put_frames(
    bytes: &mut Vec<u8>,
    header: &LogHeader,
    before: Sum,
    pages: &[PageImage],
    size: u32,
) -> Result<Sum, AllocError>
    ensures bytes { OnOk result (bytes.new.items ≡ bytes.old.items ++ written header.now before
        (framed pages.now size)) }
    ensures fits { OnOk result (0 < length pages.now → SaltsFit header.now.salts) }
    ensures sum { IfOk result (λ sum. sum ≡ sum_after header.now before (framed pages.now size)) }
{
    let mut sum = before;
    let mut left = pages;
    'pages: while let [page, rest @ ..] = left {
        let frame = FrameHeader {
            page: page.number,
            size: size_over(rest, size),
        };
        sum = frame.put(bytes, header, sum, &page.bytes)?;
        left = rest;
    }
    Ok(sum)
}
