//! The index of the frames of a log.

ghost use Rattle.std.specs.Prelude.{◌≡◌, ◌≤◌, ◌+◌, length, IfOk, OnOk};
ghost use Rattle.wal_index.specs.Index.{SameFrames};
ghost use Rattle.wal.specs.Indexed.{IsIndexTo, EachFrame, IsOldOrNew, IsOfHead, KeepsFrames, HasEach, HasRooms, IsStrict, pages_said};
ghost use Rattle.wal.specs.Pages.{numbers_of};

use crate::pages::PageImage;
use std::alloc::{AllocError, Global};
use wal_frame::FrameHeader;
use wal_index::Index;

/// Reserves room for one more frame of each of these pages.
pub fn reserve_all(alloc: Global, index: &mut Index, pages: &[PageImage]) -> Result<(), AllocError>
    ensures same { SameFrames index.old index.new }
    ensures room { OnOk result (HasRooms 0 (length pages.now) (numbers_of pages.now) index.new) }
{
    'pages: for page in pages {
        index.reserve(alloc, page.number)?;
    }
    Ok(())
}

/// Adds a frame of each of these pages, numbered from `mark + 1` on.
pub fn add_all(index: &mut Index, pages: &[PageImage], mark: u32)
    requires room { mark + length pages.now ≤ 1000000 }
    requires indexed { IsIndexTo mark index.old }
    requires reserved { HasRooms 0 (length pages.now) (numbers_of pages.now) index.old }
    requires rising { IsStrict (numbers_of pages.now) }
    ensures indexed { IsIndexTo (mark + length pages.now) index.new }
    ensures frames { EachFrame (IsOldOrNew mark pages.now (length pages.now) index.old) index.new }
    ensures added { HasEach mark (numbers_of pages.now) (length pages.now) index.new }
    ensures kept { KeepsFrames index.old index.new }
{
    'pages: for i in 0..pages.len() {
        index.add(pages[i].number, mark + 1 + i as u32);
    }
}

/// The index of these frames.
pub fn index_of(alloc: Global, frames: &[FrameHeader]) -> Result<Index, AllocError>
    requires { length frames.now ≤ 1000000 }
    ensures indexed { IfOk result (λ index. IsIndexTo (length frames.now) index) }
    ensures pages { IfOk result (λ index. EachFrame (IsOfHead frames.now) index) }
    ensures all { IfOk result (λ index. HasEach 0 (pages_said frames.now) (length frames.now) index) }
{
    let mut index = Index::new(alloc);
    'frames: for i in 0..frames.len() {
        index.reserve(alloc, frames[i].page)?;
        index.add(frames[i].page, 1 + i as u32);
    }
    Ok(index)
}
