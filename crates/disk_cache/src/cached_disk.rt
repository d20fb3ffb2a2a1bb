//! A disk over another.

ghost use Rattle.std.specs.Prelude.{◌≡◌, ◌≤◌, [], ℕ, IsTrue, List, length, take, drop};
ghost use Rattle.disk_cache.specs.Kept.{AreKept, IsKept, IsLength};
ghost use Rattle.disk.specs.Calls.{overwritten};

use crate::blocks::{Block, find, keep, let_go, part, renew};
use disk::Disk;
use sqlval::R;
use std::alloc::Global;

/// The longest reading or writing that is kept, in bytes.
const MAX_LEN: usize = 65536;

/// The length of a file after so many bytes were written from an offset on, if its length before is known.
fn len_after(len: Option<u64>, at: u64, count: usize) -> Option<u64>
    ensures { (bytes content : List ℕ) → length bytes ≡ count → at ≤ length content
        → IsLength len content
        → IsLength result (overwritten at bytes content) }
{
    match (len, at.checked_add(count as u64)) {
        (Some(len), Some(end)) => Some(len.max(end)),
        _ => None,
    }
}

/// A disk whose readings are kept in memory, its last writing and its length, so that the same bytes are read once and the length is asked
/// once. Writings go to the disk below at once. It takes memory where it finds some, and is never refused for it.
#[derive(Drop)]
pub struct CachedDisk<D: Disk> {
    disk: D,
    alloc: Global,
    /// How many blocks are kept at most.
    count: usize,
    blocks: Vec<Block>,
    /// The bytes of the last writing.
    written: Block,
    /// No block ends after it.
    end: u64,
    /// The length of the file, in bytes, if it is known.
    len: Option<u64>,
    ghost kept: { IsTrue (D.tells disk) → AreKept (D.file disk).content end blocks.items },
    ghost last: { IsTrue (D.tells disk) → IsKept (D.file disk).content end written },
    ghost long: { IsTrue (D.tells disk) → IsLength len (D.file disk).content },
}

impl<D: Disk> CachedDisk<D> {
    ghost use Rattle.disk_cache.specs.Below.{below};

    /// A disk over another, of which at most `count` readings are kept.
    pub fn new(alloc: Global, disk: D, count: usize) -> CachedDisk<D>
        ensures { below result ≡ disk }
    {
        CachedDisk {
            disk,
            alloc,
            count,
            blocks: Vec::new(alloc),
            written: Block {
                at: 0,
                bytes: Vec::new(alloc),
            },
            end: 0,
            len: None,
        }
    }

    /// Gives the disk below back.
    pub fn into_inner(self) -> D
        ensures { result ≡ below self }
    {
        let CachedDisk {
            disk,
            alloc: _,
            count: _,
            blocks: _,
            written: _,
            end: _,
            len: _,
        } = self;
        disk
    }

    /// Keeps what was read from an offset on.
    fn remember(&mut self, at: u64, bytes: &[u8])
        requires { IsTrue (D.tells (below self.old))
            → bytes.now ≡ take (length bytes.now) (drop at (D.file (below self.old)).content) }
        ensures { below self.new ≡ below self.old }
    {
        if bytes.len() > MAX_LEN {
            return;
        }
        let Some(end) = at.checked_add(bytes.len() as u64) else {
            return;
        };
        self.end = self.end.max(end);
        keep(self.alloc, &mut self.blocks, self.count, at, bytes);
    }

    /// Keeps what was written from an offset on.
    fn remember_writing(&mut self, at: u64, bytes: &[u8])
        requires { IsTrue (D.tells (below self.old))
            → bytes.now ≡ take (length bytes.now) (drop at (D.file (below self.old)).content) }
        ensures { below self.new ≡ below self.old }
    {
        if bytes.len() > MAX_LEN {
            return;
        }
        let Some(end) = at.checked_add(bytes.len() as u64) else {
            return;
        };
        self.end = self.end.max(end);
        renew(&mut self.written, at, bytes);
    }

    /// Lets go of all that is kept.
    fn forget(&mut self)
        ensures same { below self.new ≡ below self.old }
        ensures none { self.new.end ≡ 0 }
    {
        let_go(&mut self.blocks, &mut self.written);
        self.end = 0;
    }

    /// Lets go of all that is kept, unless it ends before an offset.
    fn keep_before(&mut self, at: u64)
        ensures same { below self.new ≡ below self.old }
        ensures before { self.new.end ≤ at }
        ensures kept { self.old.end ≤ at → self.new ≡ self.old }
    {
        if at < self.end {
            self.forget();
        }
    }
}

impl<D: Disk> Disk for CachedDisk<D> {
    ghost use Rattle.disk_cache.specs.Below.{below};

    ghost tells = { λ cached. D.tells (below cached) };

    ghost file = { λ cached. D.file (below cached) };

    ghost failures = { λ cached. D.failures (below cached) };

    fn len(&mut self) -> R<u64> {
        if let Some(len) = self.len {
            return Ok(len);
        }
        let len = self.disk.len()?;
        self.len = Some(len);
        Ok(len)
    }

    fn read_at(&mut self, at: u64, buf: &mut [u8]) -> R<()> {
        if let Some(bytes) = part(&self.written, at, buf.len()) {
            buf.copy_from_slice(bytes);
            return Ok(());
        }
        if let Some(bytes) = find(&self.blocks, at, buf.len()) {
            buf.copy_from_slice(bytes);
            return Ok(());
        }
        self.disk.read_at(at, buf)?;
        self.remember(at, buf);
        Ok(())
    }

    fn write_at(&mut self, at: u64, bytes: &[u8]) -> R<()> {
        self.keep_before(at);
        match self.disk.write_at(at, bytes) {
            Ok(()) => {
                self.len = len_after(self.len, at, bytes.len());
                self.remember_writing(at, bytes);
                Ok(())
            }
            Err(fault) => {
                let_go(&mut self.blocks, &mut self.written);
                self.len = None;
                Err(fault)
            }
        }
    }

    fn cut(&mut self, len: u64) -> R<()> {
        self.keep_before(len);
        match self.disk.cut(len) {
            Ok(()) => {
                self.len = Some(len);
                Ok(())
            }
            Err(fault) => {
                let_go(&mut self.blocks, &mut self.written);
                self.len = None;
                Err(fault)
            }
        }
    }

    fn sync(&mut self) -> R<()> {
        self.disk.sync()
    }
}
