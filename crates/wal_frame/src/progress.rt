//! What was read of a log.

ghost use Rattle.std.specs.Prelude.{◌≡◌, ◌<◌, ◌≤◌, ◌+◌, ◌^◌, OnOk, IfErr, ◌⊎◌, List, ℕ, length};
ghost use Rattle.sqlval.specs.declared.fault.Fault.TheVariants.{Memory, Unsupported};
ghost use Rattle.sqlval.specs.declared.fault.Feature.TheVariants.{Limit};

use crate::frame::FrameHeader;
use crate::log_header::LogHeader;
use crate::sums::Sum;
use sqlval::limits::MAX_FRAMES;
use sqlval::{Fault, Feature, R};
use std::alloc::Global;

/// What a log holds.
#[derive(Drop)]
pub struct Scan {
    /// The log's header, where it is valid.
    pub header: Option<LogHeader>,
    /// The committed frames, in order.
    pub frames: Vec<FrameHeader>,
    /// The sums after the last committed frame, or those of the header.
    pub sum: Sum,
    /// Where the last committed frame ends; 32 where there is none, and 0 where the header isn't valid.
    pub end: u64,
}

// The frames that were accepted so far, and the committed ones among them.
#[derive(Drop)]
pub struct Progress {
    pub frames: Vec<FrameHeader>,
    pub sum: Sum,
    pub at: u64,
    pub committed: usize,
    pub committed_sum: Sum,
    pub end: u64,
}

impl Progress {
    ghost use Rattle.wal_frame.specs.Progress.{Accepts, IsRead, IsReadWhole, IsMeasured};
    ghost use Rattle.wal_frame.specs.Accepted.{IsScanOf};

    /// Nothing was read but the header.
    pub fn start(alloc: Global, header: &LogHeader) -> Progress
        ensures read { (log : List ℕ) → IsRead header.now log result }
        ensures measured { IsMeasured header.now result }
        ensures none { length result.frames.items ≡ 0 }
    {
        Progress {
            frames: Vec::new(alloc),
            sum: header.sum(),
            at: 32,
            committed: 0,
            committed_sum: header.sum(),
            end: 32,
        }
    }

    /// The committed part.
    pub fn finish(self, header: &LogHeader) -> Scan
        requires { IsMeasured header.now self }
        ensures found { (log : List ℕ) → IsReadWhole header.now log self
            → IsScanOf header.now log result }
        ensures header { (result.header ≡ Some header.now)
            × (length result.frames.items ≤ 1000000) }
    {
        let Progress {
            mut frames,
            sum: _,
            at: _,
            committed,
            committed_sum,
            end,
        } = self;
        frames.truncate(committed);
        Scan {
            header: Some(*header),
            frames,
            sum: committed_sum,
            end,
        }
    }

    /// Counts one more frame, of `len` bytes, with the sums carried over it.
    pub fn accept(&mut self, frame: FrameHeader, sum: Sum, size: u64) -> R<()>
        requires { self.old.at + size < 2 ^ 64 }
        ensures accepted { OnOk result (Accepts frame sum size self.old self.new) }
        ensures refused { IfErr result (λ fault. (fault ≡ Memory) ⊎ (fault ≡ Unsupported Limit)
            × (1000000 ≤ length self.old.frames.items) × (frame.size ≡ 0 → ⊥)) }
    {
        self.frames.push(frame)?;
        self.sum = sum;
        self.at += size;
        if frame.size != 0 {
            if self.frames.len() > MAX_FRAMES {
                return Err(Fault::Unsupported(Feature::Limit));
            }
            self.committed = self.frames.len();
            self.committed_sum = sum;
            self.end = self.at;
        }
        Ok(())
    }
}
