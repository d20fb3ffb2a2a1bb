//! A disk that tells a person how much of it was read and written, while something takes long.

ghost use Rattle.std.specs.Prelude.{◌≡◌};

use disk::Disk;
use sqlval::R;
use std::alloc::{AllocError, Global};
use std::cell::Cell;
use std::rc::Rc;

/// A person is told again after so many bytes.
const STEP: u64 = 4 << 20;

/// How many bytes were read and written since something began that takes long.
#[derive(Drop)]
struct Counts {
    is_on: Cell<bool>,
    bytes: Cell<u64>,
}

/// What a disk and those who wait for it share.
#[derive(Drop)]
pub struct Progress {
    counts: Rc<Counts>,
}

impl Progress {
    /// Nothing has begun.
    pub fn new(alloc: Global) -> Result<Progress, AllocError> {
        let counts = Counts {
            is_on: Cell::new(false),
            bytes: Cell::new(0),
        };
        Ok(Progress {
            counts: Rc::new(alloc, counts)?,
        })
    }

    /// The same, for another to hold.
    pub fn share(&self) -> Result<Progress, AllocError> {
        Ok(Progress {
            counts: self.counts.clone()?,
        })
    }

    /// Something begins that takes long.
    pub fn begin(&self) {
        self.counts.bytes.set(0);
        self.counts.is_on.set(true);
    }

    /// It has ended. Answers whether a person was told of bytes.
    pub fn end(&self) -> bool {
        self.counts.is_on.set(false);
        self.counts.bytes.get() >= STEP
    }

    /// Counts bytes. Answers the whole count, in MiB, where a person is to be told of it.
    fn count(&self, len: usize) -> Option<u64> {
        if !self.counts.is_on.get() {
            return None;
        }
        let before = self.counts.bytes.get();
        let after = before.saturating_add(len as u64);
        self.counts.bytes.set(after);
        if before / STEP < after / STEP {
            Some(after >> 20)
        } else {
            None
        }
    }
}

/// A disk over another, which counts the bytes that are read and written.
#[derive(Drop)]
pub struct Watched<'a, D: Disk + Drop, F: Eprint> {
    disk: D,
    progress: Progress,
    errors: &'a F,
}

impl<'a, D: Disk + Drop, F: Eprint> Watched<'a, D, F> {
    /// A disk over another.
    pub fn new(disk: D, progress: Progress, errors: &'a F) -> Watched<'a, D, F> {
        Watched {
            disk,
            progress,
            errors,
        }
    }

    /// Counts bytes, and tells a person of them now and then.
    fn tell(&mut self, len: usize)
        ensures { self.new.disk ≡ self.old.disk }
    {
        if let Some(size) = self.progress.count(len) {
            let _ = eprint!(self.errors; "\r{size} MiB ..");
        }
    }
}

impl<'a, D: Disk + Drop, F: Eprint> Disk for Watched<'a, D, F> {
    ghost tells = { λ watched. D.tells watched.disk };

    ghost file = { λ watched. D.file watched.disk };

    ghost failures = { λ watched. D.failures watched.disk };

    fn len(&mut self) -> R<u64> {
        self.disk.len()
    }

    fn read_at(&mut self, at: u64, buf: &mut [u8]) -> R<()> {
        self.disk.read_at(at, buf)?;
        self.tell(buf.len());
        Ok(())
    }

    fn write_at(&mut self, at: u64, bytes: &[u8]) -> R<()> {
        self.disk.write_at(at, bytes)?;
        self.tell(bytes.len());
        Ok(())
    }

    fn cut(&mut self, len: u64) -> R<()> {
        self.disk.cut(len)
    }

    fn sync(&mut self) -> R<()> {
        self.disk.sync()
    }
}
