//! A disk that counts its calls.

ghost use Rattle.std.specs.Prelude.{◌≡◌};

use disk::Disk;
use sqlval::R;

/// A disk over another, which counts the calls.
#[derive(Drop)]
pub struct CountedDisk<D: Disk> {
    disk: D,
    calls: u64,
}

impl<D: Disk> CountedDisk<D> {
    /// A disk over another, without a call.
    pub fn new(disk: D) -> CountedDisk<D> {
        CountedDisk { disk, calls: 0 }
    }

    /// How many calls there were.
    pub fn calls(&self) -> u64 {
        self.calls
    }

    /// The disk below.
    pub fn inner(&self) -> &D {
        &self.disk
    }

    /// Counts a call.
    fn count(&mut self)
        ensures { self.new.disk ≡ self.old.disk }
    {
        self.calls = self.calls.saturating_add(1);
    }
}

impl<D: Disk> Disk for CountedDisk<D> {
    ghost tells = { λ c. D.tells c.disk };

    ghost file = { λ c. D.file c.disk };

    ghost failures = { λ c. D.failures c.disk };

    fn len(&mut self) -> R<u64> {
        self.count();
        self.disk.len()
    }

    fn read_at(&mut self, at: u64, buf: &mut [u8]) -> R<()> {
        self.count();
        self.disk.read_at(at, buf)
    }

    fn write_at(&mut self, at: u64, bytes: &[u8]) -> R<()> {
        self.count();
        self.disk.write_at(at, bytes)
    }

    fn cut(&mut self, len: u64) -> R<()> {
        self.count();
        self.disk.cut(len)
    }

    fn sync(&mut self) -> R<()> {
        self.count();
        self.disk.sync()
    }
}
