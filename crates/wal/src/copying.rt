//! Frames that are copied into the database file.

ghost use Rattle.std.specs.Prelude.{◌≡◌, ◌⊎◌, ◌<◌, ◌≤◌, ◌+◌, ◌*◌, length, false, IsTrue, IsFalse, OnOk, OnErr, IfErr, IfSome, IsNone, MatchResult};
ghost use Rattle.disk.specs.Calls.{FailsToCut, Syncs};
ghost use Rattle.disk.specs.File.{IsSynced, IsCurrent, IsContentLeft};
ghost use Rattle.wal_frame.specs.Accepted.{KeepsFile};
ghost use Rattle.wal_index.specs.Index.{FindsFrame, FindsNone};
ghost use Rattle.wal.specs.Alone.{HasCopiedPage, HasCopiedPages, StandsAlone};
ghost use Rattle.wal.specs.Commits.{commits_of};
ghost use Rattle.wal.specs.Copies.{Copies, CopiesMeanwhile, HasCopied, IsCopyRefusal, IsMissing, IsStateCopied, copied_size, sees_uncopied};
ghost use Rattle.wal.specs.Copying.{AreReached, AreWhole, CopiesPage, CopiesTo, CutsTo, FailsPage, IsLeftOut, IsReached, LacksPage, Overwrites, LogStandsFor, ReachesPage, copied_len, frames_to, page_place, was_copied};
ghost use Rattle.wal.specs.ErrorCauses.{AreErrorCauses, HasCause, TouchesDisk};
ghost use Rattle.wal.specs.LogState.{state_in, seen_by};
ghost use Rattle.wal.specs.Restarts.{is_copied};

use crate::log::{Log, Snapshot};
use crate::state::State;
use disk::Disk;
use sqlval::{Damage, Fault, R};
use std::alloc::Global;
use wal_frame::FrameHeader;

/// Cuts the database file to a length, where it is longer and all frames are copied.
fn cut_file<D: Disk>(db: &mut D, is_all: bool, len: u64, end: u64) -> R<()>
    requires { IsTrue (D.tells db.old) → len ≡ length (D.file db.old).content }
    ensures cut { IsTrue (D.tells db.old) → OnOk result (CutsTo is_all end (D.file db.old) (D.file db.new)) }
    ensures failed { IsTrue (D.tells db.old) → OnErr result ((D.file db.new ≡ D.file db.old)
        ⊎ ((IsTrue is_all) × (end ≤ length (D.file db.old).content)
        × FailsToCut end (D.file db.old) (D.file db.new))) }
    ensures touches { TouchesDisk D.tells D.failures db.old db.new result }
{
    if !is_all || len <= end {
        return Ok(());
    }
    db.cut(end)
}

/// Syncs the database file.
fn sync_db<D: Disk>(db: &mut D) -> R<()>
    ensures done { IsTrue (D.tells db.old) → OnOk result (Syncs (D.file db.old) (D.file db.new)) }
    ensures failed { IsTrue (D.tells db.old) → OnErr result (D.file db.new ≡ D.file db.old) }
    ensures touches { TouchesDisk D.tells D.failures db.old db.new result }
{
    db.sync()
}

impl State {
    /// Whether a snapshot sees frames that aren't copied yet, and no more than there are.
    fn sees_uncopied(&self, target: Snapshot) -> bool
        ensures { result ≡ sees_uncopied (state_in self.now) target }
    {
        self.copied < target.mark && target.mark <= self.mark
    }

    /// How many pages are copied for a snapshot: those of the newest commit where it sees all frames.
    fn copied_size(&self, target: Snapshot) -> u32
        ensures is { result ≡ copied_size (state_in self.now) target }
        ensures few { result ≤ 65536 }
    {
        if target.mark == self.mark {
            self.size
        } else {
            target.size
        }
    }

    /// The length that the database file has after its frames were copied.
    fn copied_len(&self, target: Snapshot) -> u64
        ensures is { result ≡ copied_len (state_in self.now) target self.now.db_len }
        ensures long { copied_size (state_in self.now) target * self.now.page_size ≤ result }
    {
        let end = self.copied_size(target) as u64 * self.page_size as u64;
        if target.mark == self.mark || self.db_len < end {
            end
        } else {
            self.db_len
        }
    }

    /// The newest frame of a page up to a mark.
    fn newest_frame(&self, mark: u32, number: u32) -> Option<u32>
        ensures found { IfSome result (λ frame. FindsFrame number mark self.now.index frame) }
        ensures none { IsNone result → FindsNone number mark self.now.index }
    {
        self.index.find(number, mark)
    }

    /// Whether a page's frame is one of those that were copied, for a size that the page is within.
    fn was_copied(&self, number: u32, frame: u32) -> bool
        ensures { result ≡ was_copied self.now number frame }
    {
        frame <= self.copied && number <= self.copied_pages
    }

    /// The newest frame of a page up to a mark, unless it was copied before.
    fn uncopied_frame(&self, mark: u32, number: u32) -> Option<u32>
        ensures found { IfSome result (λ frame. FindsFrame number mark self.now.index frame) }
        ensures uncopied { IfSome result (λ frame. was_copied self.now number frame ≡ false) }
        ensures none { IsNone result → IsLeftOut self.now mark number }
    {
        match self.newest_frame(mark, number) {
            Some(frame) if self.was_copied(number, frame) => None,
            newest => newest,
        }
    }

    /// Where a page begins in the database file.
    fn place(&self, number: u32) -> u64
        requires { 1 ≤ number }
        ensures { result ≡ page_place self.now.page_size number }
    {
        (number as u64 - 1) * self.page_size as u64
    }

    /// Whether a page has a frame up to a mark, or is in the database file.
    fn is_there(&self, mark: u32, number: u32) -> bool
        ensures there { IsTrue result → IsReached self.now mark number self.now.db_len }
        ensures lacks { IsFalse result → FindsNone number mark self.now.index
            × (self.now.db_len < number * self.now.page_size) }
    {
        self.newest_frame(mark, number).is_some()
            || number as u64 * self.page_size as u64 <= self.db_len
    }

    /// Whether each page up to a size is in one of the two files. (`Damaged(Size)` with the number of the first that isn't.)
    fn check_there(&self, mark: u32, size: u32) -> R<()>
        ensures there { OnOk result (AreReached self.now mark size self.now.db_len) }
        ensures refused { IfErr result (LacksPage self.now mark size) }
    {
        'numbers: for i in 0..size {
            if !self.is_there(mark, i + 1) {
                return Err(Fault::Damaged(Damage::Size, i + 1));
            }
        }
        Ok(())
    }

    /// Copies a page's newest frame up to a mark into the database file, if it has one that wasn't copied before.
    fn copy_page<D: Disk>(
        &self,
        db: &mut D,
        log: &mut D,
        mark: u32,
        number: u32,
        page: &mut [u8],
    ) -> R<()>
        requires number { (1 ≤ number) × (number ≤ 65536) }
        requires mark { (self.now.copied ≤ mark) × (mark ≤ self.now.mark) }
        requires size { length page.old ≡ self.now.page_size }
        requires reaches { IsTrue (D.tells db.old)
            → ReachesPage self.now mark number (length (D.file db.old).content) }
        requires copied { IsTrue (D.tells db.old) → IsTrue (D.tells log.old)
            → HasCopiedPage self.now number (D.file db.old).content (D.file log.old).content }
        requires stands { IsTrue (D.tells log.old)
            → LogStandsFor self.now (D.file log.old).content }
        ensures copied { IsTrue (D.tells db.old)
            → OnOk result (CopiesPage (IsTrue (D.tells log.old)) self.now.page_size
            (frames_to self.now mark (D.file log.old).content) number (D.file db.old) (D.file db.new)) }
        ensures failed { IsTrue (D.tells db.old)
            → OnErr result (FailsPage (IsTrue (D.tells log.old)) self.now.page_size
            (frames_to self.now mark (D.file log.old).content) number (D.file db.old) (D.file db.new)) }
        ensures log { KeepsFile D.tells D.file log.old log.new }
        ensures tells { D.tells db.new ≡ D.tells db.old }
        ensures causes { AreErrorCauses false result (D.failures db.old) (D.failures db.new)
            (D.failures log.old) (D.failures log.new) }
        ensures io { IfErr result (λ fault. fault ≡ Fault.Io) }
    {
        let Some(frame) = self.uncopied_frame(mark, number) else {
            return Ok(());
        };
        let at = self.offset(frame) + FrameHeader::LEN as u64;
        log.read_at(at, page)?;
        db.write_at(self.place(number), page)
    }

    /// Copies the newest frame up to a mark of each page up to a size into the database file, except for those that were copied before.
    fn copy_pages<D: Disk>(
        &self,
        db: &mut D,
        log: &mut D,
        mark: u32,
        size: u32,
        page: &mut [u8],
    ) -> R<()>
        requires few { size ≤ 65536 }
        requires mark { (self.now.copied ≤ mark) × (mark ≤ self.now.mark) }
        requires size { length page.old ≡ self.now.page_size }
        requires there { IsTrue (D.tells db.old)
            → AreWhole self.now mark size (length (D.file db.old).content) }
        requires copied { IsTrue (D.tells db.old) → IsTrue (D.tells log.old)
            → HasCopiedPages self.now size (D.file db.old).content (D.file log.old).content }
        requires stands { IsTrue (D.tells log.old)
            → LogStandsFor self.now (D.file log.old).content }
        ensures copied { IsTrue (D.tells db.old)
            → OnOk result (CopiesTo (IsTrue (D.tells log.old)) self.now.page_size
            (frames_to self.now mark (D.file log.old).content) size (size + 1)
            (D.file db.old).content (D.file db.new).content) }
        ensures crash { IsTrue (D.tells db.old)
            → Overwrites (IsTrue (D.tells log.old)) self.now.page_size
            (frames_to self.now mark (D.file log.old).content) (D.file db.old) (D.file db.new) }
        ensures left { IsTrue (D.tells db.old) → IsCurrent (D.file db.old)
            → MatchResult result (λ _. IsCurrent (D.file db.new)) (λ _. IsContentLeft (D.file db.new)) }
        ensures kept { (D.tells db.new ≡ D.tells db.old)
            × KeepsFile D.tells D.file log.old log.new }
        ensures causes { AreErrorCauses false result (D.failures db.old) (D.failures db.new)
            (D.failures log.old) (D.failures log.new) }
        ensures io { IfErr result (λ fault. fault ≡ Fault.Io) }
    {
        'pages: for i in 0..size {
            self.copy_page(db, log, mark, i + 1, page)?;
        }
        Ok(())
    }

    /// Copies the frames that a snapshot sees into the database file, and syncs it.
    fn copy_frames<D: Disk>(
        &self,
        db: &mut D,
        log: &mut D,
        target: Snapshot,
        page: &mut [u8],
    ) -> R<()>
        requires seen { (self.now.copied ≤ seen_by target) × (seen_by target ≤ self.now.mark) }
        requires size { length page.old ≡ self.now.page_size }
        requires copied { IsTrue (D.tells db.old) → IsTrue (D.tells log.old)
            → HasCopiedPages self.now self.now.copied_pages (D.file db.old).content (D.file log.old).content }
        requires long { IsTrue (D.tells db.old) → self.now.db_len ≡ length (D.file db.old).content }
        requires there { AreReached self.now (seen_by target)
            (copied_size (state_in self.now) target) self.now.db_len }
        requires stands { IsTrue (D.tells log.old)
            → LogStandsFor self.now (D.file log.old).content }
        ensures done { IsTrue (D.tells db.old) → IsTrue (D.tells log.old)
            → OnOk result (HasCopied (state_in self.now) target (D.file log.old).content
            (D.file db.old).content (D.file db.new).content) }
        ensures synced { IsTrue (D.tells db.old) → OnOk result (IsSynced (D.file db.new)
            × (length (D.file db.new).content ≡ copied_len (state_in self.now) target self.now.db_len)) }
        ensures crash { IsTrue (D.tells db.old) → IsTrue (D.tells log.old)
            → IsSynced (D.file db.old)
            → CopiesMeanwhile (state_in self.now) target (D.file log.old).content (D.file db.old)
            (D.file db.new) }
        ensures kept { (D.tells db.new ≡ D.tells db.old)
            × KeepsFile D.tells D.file log.old log.new }
        ensures causes { AreErrorCauses false result (D.failures db.old) (D.failures db.new)
            (D.failures log.old) (D.failures log.new) }
        ensures io { IfErr result (λ fault. fault ≡ Fault.Io) }
    {
        let size = self.copied_size(target);
        let end = size as u64 * self.page_size as u64;
        cut_file(db, target.mark == self.mark, self.db_len, end)?;
        self.copy_pages(db, log, target.mark, size, page)?;
        sync_db(db)
    }
}

impl<D: Disk> Log<D> {
    ghost use Rattle.wal.specs.LogState.{state_of, db_of, log_of};

    /// Copies the newest frame of each page up to a snapshot's mark into the database file: cuts it to the size of the newest commit
    /// where it is longer and all frames are copied, writes the pages by rising number, and syncs the file. Only then these frames
    /// count as copied. A page whose newest frame was copied before isn't written again, unless its number is past the size that was
    /// copied last; nothing is done where all frames were copied. The log needs no sync: each commit synced it. (`Memory`; `Io`, after which
    /// each call answers `Failed`; `Failed`; `Damaged(Size)` where a page that the snapshot sees is in neither file, before anything is
    /// written.)
    pub fn copy(&mut self, alloc: Global, target: Snapshot) -> R<()>
        ensures done { IsTrue (D.tells (db_of self.old)) → IsTrue (D.tells (log_of self.old))
            → OnOk result (Copies (state_of self.old) target (D.file (log_of self.old)).content
            (D.file (db_of self.old)) (D.file (db_of self.new))) }
        ensures known { IsStateCopied result target (state_of self.old) (state_of self.new) }
        // At each moment a crash leaves a file that shows what it showed.
        ensures crash { IsFalse (state_of self.old).has_failed → IsTrue (D.tells (db_of self.old))
            → IsTrue (D.tells (log_of self.old))
            → IsSynced (D.file (db_of self.old))
            → CopiesMeanwhile (state_of self.old) target (D.file (log_of self.old)).content
            (D.file (db_of self.old)) (D.file (db_of self.new)) }
        ensures kept { (D.tells (db_of self.new) ≡ D.tells (db_of self.old))
            × KeepsFile D.tells D.file (log_of self.old) (log_of self.new) }
        ensures refused { IfErr result (IsCopyRefusal (state_of self.old).has_failed
            (λ number. IsTrue (D.tells (db_of self.old)) → IsTrue (D.tells (log_of self.old))
            → IsMissing (state_of self.old) target (D.file (db_of self.old)).content
            (D.file (log_of self.old)).content number)
            ((db_of self.new ≡ db_of self.old) × (log_of self.new ≡ log_of self.old))) }
        ensures cause { HasCause false result self.old self.new }
    {
        if self.state.is_failed {
            return Err(Fault::Failed);
        }
        if !self.state.sees_uncopied(target) {
            return Ok(());
        }
        let size = self.state.copied_size(target);
        self.state.check_there(target.mark, size)?;
        let mut page = vec![in alloc; 0; self.state.page_size as usize]?;
        self.state.is_failed = true;
        self.state
            .copy_frames(&mut self.db, &mut self.log, target, &mut page)?;
        let len = self.state.copied_len(target);
        // No page counts as copied while the length changes.
        self.state.copied_pages = 0;
        self.state.db_len = len;
        self.state.copied = target.mark;
        self.state.copied_pages = size;
        self.state.is_failed = false;
        Ok(())
    }

    /// Whether the log has frames and all of them are copied: then the database file alone has the pages of the newest commit.
    pub fn is_copied(&self) -> bool
        ensures is { result ≡ is_copied (state_of self.now) }
        ensures alone { IsTrue result → IsFalse (state_of self.now).has_failed
            → IsTrue (D.tells (db_of self.now)) → IsTrue (D.tells (log_of self.now))
            → StandsAlone (D.file (db_of self.now)).content (state_of self.now).page_size
            (commits_of (state_of self.now) (D.file (log_of self.now)).content) (state_of self.now).size }
    {
        self.state.is_copied()
    }
}
