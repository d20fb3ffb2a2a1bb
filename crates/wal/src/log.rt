//! The log and the database file, as readers see them.

ghost use Rattle.std.specs.Prelude.{◌≡◌, ◌≤◌, length, false, IsTrue, IsFalse, OnOk, IfErr};
ghost use Rattle.disk.specs.File.{IsSynced};
ghost use Rattle.wal_frame.specs.Accepted.{KeepsFile};
ghost use Rattle.wal.specs.Alone.{HasCopiedPages, StandsWhereCopied};
ghost use Rattle.wal.specs.Stale.{HasCleanTail};
ghost use Rattle.wal.specs.Stands.{LogStands};
ghost use Rattle.wal.specs.View.{IsPage, IsPageRefusal, IsThere};

use crate::state::State;
use disk::Disk;
use sqlval::{Damage, Fault, R};
use wal_frame::FrameHeader;

/// A snapshot: the frames up to a mark.
#[derive(Clone, Copy, Debug, PartialEq, Eq)]
pub struct Snapshot {
    pub(crate) mark: u32,
    pub(crate) size: u32,
    ghost few: { size ≤ 65536 },
}

impl Snapshot {
    ghost use Rattle.std.specs.Prelude.{◌≡◌};
    ghost use Rattle.wal.specs.LogState.{seen_by};

    /// How many frames it sees.
    pub fn mark(&self) -> u32
        ensures { result ≡ seen_by self.now }
    {
        self.mark
    }
}

/// The two disks of files that couldn't be synced or opened, and why.
#[derive(Drop)]
pub struct Refused<D: Disk> {
    pub fault: Fault,
    pub db: D,
    pub log: D,
}

/// A database file and its log, both synced: a crash leaves what is read of them.
#[derive(Drop)]
pub struct Synced<D: Disk> {
    pub db: D,
    pub log: D,
    ghost db_synced: { IsTrue (D.tells db) → IsSynced (D.file db) },
    ghost log_synced: { IsTrue (D.tells log) → IsSynced (D.file log) },
}

/// A database file and its log.
#[derive(Drop)]
pub struct Log<D: Disk> {
    pub(crate) db: D,
    pub(crate) log: D,
    pub(crate) state: State,
    ghost db_there: { IsFalse state.is_failed → IsTrue (D.tells db) → state.db_len ≡ length (D.file db).content },
    ghost db_copied: { IsFalse state.is_failed → IsTrue (D.tells db) → IsTrue (D.tells log) → StandsWhereCopied state.header state.is_begun state.mark state.copied state.page_size state.size (D.file db).content (D.file log).content },
    ghost db_pages: { IsFalse state.is_failed → IsTrue (D.tells db) → IsTrue (D.tells log)
        → HasCopiedPages state state.copied_pages (D.file db).content (D.file log).content },
    ghost log_clean: { IsFalse state.is_failed → IsTrue (D.tells log) → IsTrue state.is_clean → HasCleanTail state.header state.is_begun state.mark (D.file log).content },
    ghost log_synced: { IsFalse state.is_failed → IsTrue (D.tells log) → IsSynced (D.file log) },
    ghost log_there: { IsFalse state.is_failed → IsTrue (D.tells log) → LogStands state.header state.is_begun state.mark state.sum state.index (D.file log).content },
}

impl<D: Disk> Log<D> {
    ghost use Rattle.wal.specs.LogState.{state_of, header_of, db_of, log_of, seen_by, size_of};
    ghost use Rattle.wal.specs.ErrorCauses.{HasCause};

    /// The size of a page, in bytes.
    pub fn page_size(&self) -> u32
        ensures { result ≡ (state_of self.now).page_size }
    {
        self.state.page_size
    }

    /// The newest snapshot.
    pub fn begin(&self) -> Snapshot
        ensures seen { seen_by result ≡ (state_of self.now).frames }
        ensures size { size_of result ≡ (state_of self.now).size }
    {
        Snapshot {
            mark: self.state.mark,
            size: self.state.size,
        }
    }

    /// How many frames are committed.
    pub fn frame_count(&self) -> u32
        ensures { result ≡ (state_of self.now).frames }
    {
        self.state.mark
    }

    /// How many of them were copied into the database file since it was opened.
    pub fn copied_count(&self) -> u32
        ensures is { result ≡ (state_of self.now).copied }
        ensures few { result ≤ (state_of self.now).frames }
    {
        self.state.copied
    }

    /// The size of a snapshot, in pages.
    pub fn size(&self, snapshot: Snapshot) -> u32
        ensures { result ≡ size_of snapshot }
    {
        snapshot.size
    }

    /// Reads a page of a snapshot: the newest frame of the page up to the snapshot's mark, or what the database file has.
    /// (`Io`, `Failed` after it; `Damaged(Size)` where the number isn't one of 1 to the size, neither file has the page, or `out` has
    /// another length than a page.)
    pub fn page(&mut self, snapshot: Snapshot, number: u32, out: &mut [u8]) -> R<()>
        ensures read { IsTrue (D.tells (db_of self.old)) → IsTrue (D.tells (log_of self.old))
            → seen_by snapshot ≤ (state_of self.old).frames
            → OnOk result (IsPage (D.file (db_of self.old)).content
            (D.file (log_of self.old)).content (state_of self.old).page_size
            (header_of (state_of self.old)) (seen_by snapshot) number out.new) }
        ensures kept { (state_of self.new ≡ state_of self.old)
            × KeepsFile D.tells D.file (db_of self.old) (db_of self.new)
            × KeepsFile D.tells D.file (log_of self.old) (log_of self.new) }
        ensures refused { IfErr result (IsPageRefusal (state_of self.old).has_failed number
            (IsTrue (D.tells (db_of self.old)) × IsTrue (D.tells (log_of self.old))
            × (seen_by snapshot ≤ (state_of self.old).frames)
            × IsThere (D.file (db_of self.old)).content (D.file (log_of self.old)).content
            (state_of self.old).page_size (header_of (state_of self.old)) (seen_by snapshot)
            (size_of snapshot) number (length out.old))) }
        ensures cause { HasCause false result self.old self.new }
        ensures within { OnOk result ((1 ≤ number) × (number ≤ size_of snapshot)
            × (length out.old ≡ (state_of self.old).page_size)) }
    {
        if number == 0 || number > snapshot.size || out.len() != self.state.page_size as usize {
            return Err(Fault::Damaged(Damage::Size, number));
        }
        if self.state.is_failed {
            return Err(Fault::Failed);
        }
        if let Some(frame) = self.state.index.find(number, snapshot.mark) {
            let at = self.state.offset(frame) + FrameHeader::LEN as u64;
            return self.log.read_at(at, out);
        }
        let size = self.state.page_size as u64;
        if number as u64 * size > self.state.db_len {
            return Err(Fault::Damaged(Damage::Size, number));
        }
        self.db.read_at((number as u64 - 1) * size, out)
    }

    /// Gives the files back.
    pub fn into_disks(self) -> (D, D)
        ensures db { result.0 ≡ db_of self }
        ensures log { result.1 ≡ log_of self }
    {
        let Log { db, log, state: _ } = self;
        (db, log)
    }
}
