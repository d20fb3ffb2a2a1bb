//! The pages of a database file alone.

ghost use Rattle.std.specs.Prelude.{◌≡◌, ◌≤◌, ◌*◌, length, IsTrue, IfErr, OnOk};
ghost use Rattle.sqlval.specs.Faults.{IsOutside};
ghost use Rattle.wal_frame.specs.Accepted.{KeepsFile};
ghost use Rattle.pager.specs.Maps.{page_of_file, pages_in};
ghost use Rattle.pager.specs.Sound.{limits_of};
ghost use Rattle.pager_older.specs.Counting.{CountsIo};
ghost use Rattle.pager_older.specs.Older.{UnderFile, as_wal, tells_file, under_file, view_under_file};

use crate::versions::put_versions;
use disk::Disk;
use pages::Pages;
use sqlval::{Damage, Fault, R};

/// Puts the versions of WAL mode into a page, if it is page 1.
fn mend(number: u32, page: &mut [u8])
    ensures first { number ≡ 1 → 20 ≤ length page.old → page.new ≡ as_wal page.old }
    ensures other { 2 ≤ number → page.new ≡ page.old }
{
    if number == 1 {
        put_versions(page);
    }
}

/// Reads a page of a file of so many bytes into a buffer, which gets the page's size: page 1 with the versions of WAL mode.
/// (`Damaged(Size)` where the file hasn't got it whole; `Memory`, `Io`.)
fn fill<D: Disk>(db: &mut D, len: u64, page_size: u32, number: u32, buffer: &mut Vec<u8>) -> R<()>
    requires first { 1 ≤ number }
    requires measured { IsTrue (D.tells db.old) → len ≡ length (D.file db.old).content }
    ensures read { IsTrue (D.tells db.old) → 512 ≤ page_size
        → OnOk result (buffer.new.items ≡ page_of_file (as_wal (D.file db.old).content) page_size number) }
    ensures there { number * page_size ≤ len → IfErr result IsOutside }
    ensures kept { KeepsFile D.tells D.file db.old db.new }
    ensures counted { CountsIo result (D.failures db.old) (D.failures db.new) }
    ensures not_full { IfErr result (λ fault. fault ≡ Fault.Full → ⊥) }
{
    let size = u64::from(page_size);
    let end = u64::from(number) * size;
    if end > len {
        return Err(Fault::Damaged(Damage::Size, number));
    }
    buffer.resize(page_size as usize, 0)?;
    db.read_at(end - size, buffer.as_mut_slice())?;
    mend(number, buffer.as_mut_slice());
    Ok(())
}

/// The pages of a database file of the older kind, as they are once it is in WAL mode: so many, of this size, of a file of this length.
#[derive(Drop)]
pub struct FilePages<'a, 'b, D: Disk> {
    pub db: &'a mut D,
    /// The length of the file, in bytes.
    pub len: u64,
    /// Bytes of a page.
    pub page_size: u32,
    /// How many pages there are.
    pub count: u32,
    pub buffer: &'b mut Vec<u8>,
    pub ghost measured: { IsTrue (D.tells db.now) → len ≡ length (D.file db.now).content },
}

impl<'a, 'b, D: Disk> Pages for FilePages<'a, 'b, D> {
    ghost Base = { UnderFile };

    ghost below = { λ s. under_file D.tells D.file s.db.now s.len s.page_size s.count s.db.ghost_name s.buffer.ghost_name };

    ghost tells = { tells_file };

    ghost limits = { λ under. limits_of under.page_size };

    ghost map = { λ s. pages_in (view_under_file (under_file D.tells D.file s.db.now s.len s.page_size s.count s.db.ghost_name s.buffer.ghost_name)) };

    ghost count = { λ s. s.count };

    ghost held = { λ s. s.buffer.now.items };

    ghost failures = { λ s. (D.failures s.db.now, 0) };

    fn size(&self) -> u32 {
        self.count
    }

    fn page_size(&self) -> usize {
        self.page_size as usize
    }

    fn load(&mut self, number: u32) -> R<()> {
        if number == 0 || number > self.count {
            return Err(Fault::Damaged(Damage::Size, number));
        }
        fill(self.db, self.len, self.page_size, number, self.buffer)
    }

    fn loaded(&self) -> &[u8] {
        self.buffer.as_slice()
    }
}
