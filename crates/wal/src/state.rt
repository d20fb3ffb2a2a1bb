//! What is known of the two files.

ghost use Rattle.sqlval.specs.PageSizes.{is_size};
ghost use Rattle.std.specs.Prelude.{◌≡◌, ◌<◌, ◌≤◌, ◌+◌, ◌-◌, ◌*◌, ◌↔◌, ℕ, length, IsTrue, IfOk, IfErr, OnOk};
ghost use Rattle.wal_frame.specs.Accepted.{frame_start};
ghost use Rattle.wal_frame.specs.Written.{SaltsFit, written, sum_after};
ghost use Rattle.wal.specs.Indexed.{IsIndexTo, HasRooms, IsStrict};
ghost use Rattle.wal.specs.Sizes.{IsSizeWithinLimits, IsWithinLimits};
ghost use Rattle.wal.specs.Stands.{log_end};
ghost use Rattle.wal.specs.Pages.{framed, numbers_of};

use crate::indexed::{add_all, reserve_all};
use crate::pages::{PageImage, put_frames};
use crate::restarting::next_header;
use sqlval::limits::{MAX_DATABASE_BYTES, MAX_FRAMES, MAX_PAGES};
use sqlval::{Fault, R};
use std::alloc::{AllocError, Global};
use wal_frame::{FrameHeader, LogHeader, Sum};
use wal_index::Index;

/// Whether a database of `size` pages is within the limits.
pub fn is_within_limits(size: u32, page_size: u32) -> bool
    ensures { IsTrue result ↔ IsSizeWithinLimits page_size size }
{
    size <= MAX_PAGES && size as u64 * page_size as u64 <= MAX_DATABASE_BYTES
}

/// What is known of the two files.
#[derive(Drop)]
pub struct State {
    pub page_size: u32,
    /// The length of the database file, in bytes.
    pub db_len: u64,
    /// The log's header, or the one that the first commit writes.
    pub header: LogHeader,
    /// Whether the log has a header, whether nothing but older frames stands after its committed ones, and whether a call failed that
    /// left it unknown.
    pub is_begun: bool,
    pub is_clean: bool,
    pub is_failed: bool,
    /// How many frames are committed, and the sums carried over them.
    pub mark: u32,
    /// How many of these frames were copied into the database file since it was opened.
    pub copied: u32,
    /// Up to which number the database file has the pages of these frames: the size that was copied, or 0.
    pub copied_pages: u32,
    pub sum: Sum,
    /// The size after the newest commit, in pages.
    pub size: u32,
    pub index: Index,
    ghost size_is: { IsTrue (is_size page_size) },
    ghost same_size: { header.page_size ≡ page_size },
    ghost few: { mark ≤ 1000000 },
    ghost copied_few: { copied ≤ mark },
    ghost copied_long: { copied_pages * page_size ≤ db_len },
    ghost indexed: { IsIndexTo mark index },
    ghost served: { IsSizeWithinLimits page_size size },
}

impl State {
    ghost use Rattle.wal.specs.Anew.{begins_anew};
    ghost use Rattle.wal.specs.LogState.{state_in};
    ghost use Rattle.wal.specs.Restarts.{header_after_cut, is_copied};
    ghost use Rattle.wal.specs.State.{SameState, Admits, Restarts};

    /// Where the frame of this number, from 1, begins; one past the last for the next.
    pub fn offset(&self, frame: u32) -> u64
        requires { (1 ≤ frame) × (frame ≤ 1000001) }
        ensures { result ≡ frame_start self.now.header (frame - 1) }
    {
        32 + (frame as u64 - 1) * (FrameHeader::LEN as u64 + self.page_size as u64)
    }

    /// Where the committed frames end.
    pub fn end(&self) -> u64
        ensures { result ≡ log_end self.now.header self.now.is_begun self.now.mark }
    {
        if self.is_begun {
            self.offset(self.mark + 1)
        } else {
            0
        }
    }

    /// Whether the log has frames, and all of them were copied into the database file.
    pub fn is_copied(&self) -> bool
        ensures { result ≡ is_copied (state_in self.now) }
    {
        self.is_begun && self.mark > 0 && self.copied == self.mark
    }

    /// Whether a commit begins the log anew: it may, and all frames were copied.
    pub fn begins_anew(&self, may_restart: bool) -> bool
        ensures { result ≡ begins_anew (state_in self.now) may_restart }
    {
        may_restart && self.is_copied()
    }

    /// The header that the log gets when it was cut to nothing.
    pub fn header_after_cut(&self) -> LogHeader
        ensures { result ≡ header_after_cut (state_in self.now) }
    {
        if self.is_begun {
            next_header(self.header)
        } else {
            self.header
        }
    }

    /// Whether `frames` frames after so many, and this size, are within the limits. (`Full`.)
    pub fn check_limits(&self, mark: u32, frames: usize, size: u32) -> R<()>
        requires { mark ≤ 1000000 }
        ensures room { OnOk result (mark + frames ≤ 1000000) }
        ensures size { OnOk result (IsSizeWithinLimits self.now.page_size size) }
        ensures refused { IfErr result (λ fault. (fault ≡ Fault.Full)
            × (IsWithinLimits mark self.now.page_size frames size → ⊥)) }
    {
        if frames > MAX_FRAMES - mark as usize || !is_within_limits(size, self.page_size) {
            return Err(Fault::Full);
        }
        Ok(())
    }

    /// Reserves room for a frame of each page in the index.
    pub fn reserve(&mut self, alloc: Global, pages: &[PageImage]) -> Result<(), AllocError>
        ensures same { SameState self.old self.new }
        ensures room { OnOk result (HasRooms 0 (length pages.now) (numbers_of pages.now) self.new.index) }
    {
        reserve_all(alloc, &mut self.index, pages)
    }

    /// The frames of these pages under a header, as bytes, the last with the size, and the sums carried over them.
    pub fn make_frames(
        &self,
        alloc: Global,
        header: &LogHeader,
        sum: Sum,
        pages: &[PageImage],
        size: u32,
    ) -> Result<(Vec<u8>, Sum), AllocError>
        requires few { length pages.now ≤ 1000000 }
        ensures bytes { IfOk result (λ made. made.0.items ≡ written header.now sum (framed pages.now size)) }
        ensures fits { OnOk result (0 < length pages.now → SaltsFit header.now.salts) }
        ensures sum { IfOk result (λ made. made.1 ≡ sum_after header.now sum (framed pages.now size)) }
    {
        let mut bytes = Vec::with_capacity(
            alloc,
            pages.len() * (FrameHeader::LEN + self.page_size as usize),
        )?;
        let after = put_frames(&mut bytes, header, sum, pages, size)?;
        Ok((bytes, after))
    }

    /// Counts the frames of these pages as committed.
    pub fn advance(&mut self, pages: &[PageImage], size: u32, sum: Sum)
        requires room { self.old.mark + length pages.now ≤ 1000000 }
        requires reserved { HasRooms 0 (length pages.now) (numbers_of pages.now) self.old.index }
        requires rising { IsStrict (numbers_of pages.now) }
        requires size { IsSizeWithinLimits self.old.page_size size }
        ensures { Admits pages.now size sum self.old self.new }
    {
        add_all(&mut self.index, pages, self.mark);
        self.mark += pages.len() as u32;
        self.size = size;
        self.sum = sum;
    }

    /// Counts no frames, under this header, which the log has or is to get.
    pub fn restart(&mut self, header: LogHeader, has_header: bool)
        requires { header.page_size ≡ self.old.page_size }
        ensures { Restarts header has_header self.old self.new }
    {
        self.index.clear();
        self.sum = header.sum();
        self.header = header;
        self.is_begun = has_header;
        self.is_clean = true;
        self.mark = 0;
        self.copied = 0;
        self.copied_pages = 0;
    }
}
