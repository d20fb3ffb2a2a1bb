//! Commits.

ghost use Rattle.std.specs.Prelude.{◌≡◌, ◌<◌, ◌≤◌, ◌++◌, length, take, true, false, IsTrue, IsFalse, OnOk, OnErr, IfErr, MatchResult};
ghost use Rattle.disk.specs.Calls.{Syncs, overwritten};
ghost use Rattle.disk.specs.File.{IsSynced, IsContentLeft, Always};
ghost use Rattle.wal_frame.specs.Log.{header_bytes};
ghost use Rattle.wal_frame.specs.Written.{HeaderFits};
ghost use Rattle.wal.specs.Anew.{CommitsAnew, CommitsOver, IsStateCommitted, WritesAnew, WritesOver, base_of};
ghost use Rattle.wal.specs.Commits.{Commits, IsStateCut, IsCut, KeepsDisks, commits_of};
ghost use Rattle.wal.specs.Pages.{ArePages, framed};
ghost use Rattle.wal.specs.Refusals.{IsCommitRefusal, IsCutRefusal, IsWithin};
ghost use Rattle.wal.specs.Restarts.{is_copied, restarted};
ghost use Rattle.wal.specs.Stands.{front_at, kept_at, base_at, place_at};
ghost use Rattle.wal.specs.Crashes.{LeavesOneOf, LeavesHeader, AreEither, LeavesContent, LeavesWriting, LeavesCommits, WritesCommit};
ghost use Rattle.wal.specs.ErrorCauses.{TouchesDisk};

use crate::log::Log;
use crate::pages::{PageImage, check_pages};
use crate::restarting::{next_header, write_anew};
use disk::Disk;
use sqlval::{Fault, R};
use std::alloc::Global;
use wal_frame::LogHeader;

/// Syncs a log.
pub fn sync_log<D: Disk>(log: &mut D) -> R<()>
    ensures done { IsTrue (D.tells log.old) → OnOk result (Syncs (D.file log.old) (D.file log.new)) }
    ensures failed { IsTrue (D.tells log.old) → OnErr result (D.file log.new ≡ D.file log.old) }
    ensures touches { TouchesDisk D.tells D.failures log.old log.new result }
{
    log.sync()
}

/// Truncates a log to a length and syncs it, unless it is clean or no longer than that.
pub fn truncate_tail<D: Disk>(log: &mut D, end: u64, is_clean: bool) -> R<()>
    requires { IsTrue (D.tells log.old) → end ≤ length (D.file log.old).content }
    ensures idle { IsTrue is_clean → log.new ≡ log.old }
    ensures cut { IsTrue (D.tells log.old) → OnOk result
        ((D.file log.new).content ≡ kept_at is_clean end (D.file log.old).content) }
    ensures synced { IsTrue (D.tells log.old) → IsSynced (D.file log.old)
        → OnOk result (IsSynced (D.file log.new)) }
    ensures crash { IsTrue (D.tells log.old) → IsSynced (D.file log.old)
        → Always (D.file log.old) (D.file log.new)
        (LeavesOneOf (D.file log.old).content (take end (D.file log.old).content)) }
    ensures left { LeavesContent D.tells D.file log.old log.new }
    ensures touches { TouchesDisk D.tells D.failures log.old log.new result }
{
    if is_clean {
        return Ok(());
    }
    if log.len()? <= end {
        return Ok(());
    }
    log.cut(end)?;
    sync_log(log)
}

/// Writes a log's header and syncs it, if it has none.
pub fn give_header<D: Disk>(log: &mut D, header: &LogHeader, is_begun: bool) -> R<()>
    requires { IsTrue (D.tells log.old) → IsFalse is_begun → length (D.file log.old).content ≡ 0 }
    ensures given { IsTrue (D.tells log.old)
        → OnOk result ((D.file log.new).content ≡ front_at header.now is_begun
        (length (D.file log.old).content) (D.file log.old).content) }
    ensures fits { IsFalse is_begun → HeaderFits header.now }
    ensures synced { IsTrue (D.tells log.old) → IsSynced (D.file log.old)
        → OnOk result (IsSynced (D.file log.new)) }
    ensures crash { IsTrue (D.tells log.old) → IsSynced (D.file log.old)
        → Always (D.file log.old) (D.file log.new) (LeavesHeader header.now is_begun (D.file log.old).content) }
    ensures left { LeavesContent D.tells D.file log.old log.new }
    ensures touches { TouchesDisk D.tells D.failures log.old log.new result }
{
    if is_begun {
        return Ok(());
    }
    log.write_at(0, &header.write())?;
    sync_log(log)
}

/// Writes frames at a place of a log and syncs it.
pub fn write_frames<D: Disk>(log: &mut D, at: u64, bytes: &[u8]) -> R<()>
    requires { IsTrue (D.tells log.old) → at ≤ length (D.file log.old).content }
    ensures written { IsTrue (D.tells log.old)
        → OnOk result ((D.file log.new).content ≡ overwritten at bytes.now (D.file log.old).content) }
    ensures synced { IsTrue (D.tells log.old) → OnOk result (IsSynced (D.file log.new)) }
    ensures crash { IsTrue (D.tells log.old) → IsSynced (D.file log.old)
        → Always (D.file log.old) (D.file log.new)
        (AreEither (D.file log.old).content (overwritten at bytes.now (D.file log.old).content)) }
    ensures left { LeavesContent D.tells D.file log.old log.new }
    ensures touches { TouchesDisk D.tells D.failures log.old log.new result }
{
    log.write_at(at, bytes)?;
    sync_log(log)
}

/// Where frames are written: after the committed ones, or after the header that the log is to get.
fn place_of(is_begun: bool, end: u64) -> u64
    ensures { result ≡ place_at is_begun end }
{
    if is_begun { end } else { LogHeader::LEN }
}

/// Writes frames after the committed ones, which end at `end`, and syncs the log; a log without a header gets this one first.
fn write_out<D: Disk>(
    log: &mut D,
    header: LogHeader,
    is_begun: bool,
    is_clean: bool,
    end: u64,
    bytes: &[u8],
) -> R<()>
    requires inside { IsTrue (D.tells log.old) → end ≤ length (D.file log.old).content }
    requires clean { IsTrue (D.tells log.old) → IsTrue is_clean → IsFalse is_begun
        → length (D.file log.old).content ≡ 0 }
    requires none { IsFalse is_begun → end ≡ 0 }
    ensures written { IsTrue (D.tells log.old) → OnOk result ((D.file log.new).content
        ≡ overwritten (place_at is_begun end) bytes.now
        (base_at header is_begun is_clean end (D.file log.old).content)) }
    ensures fits { HeaderFits header }
    ensures synced { IsTrue (D.tells log.old) → OnOk result (IsSynced (D.file log.new)) }
    ensures crash { IsTrue (D.tells log.old) → IsSynced (D.file log.old)
        → Always (D.file log.old) (D.file log.new)
        (LeavesWriting header is_begun is_clean end bytes.now (D.file log.old).content) }
    ensures left { LeavesContent D.tells D.file log.old log.new }
    ensures touches { TouchesDisk D.tells D.failures log.old log.new result }
{
    truncate_tail(log, end, is_clean)?;
    give_header(log, &header, is_begun)?;
    write_frames(log, place_of(is_begun, end), bytes)
}

impl<D: Disk> Log<D> {
    ghost use Rattle.wal.specs.LogState.{state_of, db_of, log_of};
    ghost use Rattle.wal.specs.ErrorCauses.{HasCause};

    /// Writes a frame of each of these pages after the committed ones, and syncs the log. (`Memory`, `Io`, `Full`.)
    fn append(&mut self, alloc: Global, pages: &[PageImage], size: u32) -> R<()>
        requires whole { IsFalse (state_of self.old).has_failed }
        requires pages { ArePages 0 size (state_of self.old).page_size pages.now }
        requires some { 0 < length pages.now }
        ensures done { IsTrue (D.tells (log_of self.old))
            → OnOk result (Commits (state_of self.old) (framed pages.now size)
            (D.file (log_of self.old)) (D.file (log_of self.new))) }
        ensures known { IsStateCommitted false result (state_of self.old) (length pages.now) size
            (state_of self.new) }
        ensures crash { IsTrue (D.tells (log_of self.old))
            → WritesCommit (state_of self.old) (framed pages.now size) (D.file (log_of self.old))
            (D.file (log_of self.new)) }
        ensures refused { IfErr result (λ fault. IsCommitRefusal (state_of self.old).has_failed
            (ArePages 0 size (state_of self.old).page_size pages.now × (0 < length pages.now))
            (IsWithin (state_of self.old) (length pages.now) size) (log_of self.old)
            (log_of self.new) (D.failures (log_of self.old))
            (D.failures (log_of self.new)) fault) }
        ensures same { KeepsDisks D.tells D.failures (db_of self.old) (db_of self.new)
            (log_of self.old) (log_of self.new) }
        ensures cause { HasCause true result self.old self.new }
    {
        self.state.check_limits(self.state.mark, pages.len(), size)?;
        self.state.reserve(alloc, pages)?;
        let header = self.state.header;
        let sum = self.state.sum;
        let (bytes, sum_now) = self.state.make_frames(alloc, &header, sum, pages, size)?;
        let end = self.state.end();
        let is_begun = self.state.is_begun;
        let is_clean = self.state.is_clean;
        self.state.is_failed = true;
        write_out(&mut self.log, header, is_begun, is_clean, end, &bytes)?;
        self.state.is_begun = true;
        self.state.is_clean = true;
        self.state.is_failed = false;
        self.state.advance(pages, size, sum_now);
        Ok(())
    }

    /// Begins the log anew, where all its frames were copied: it gets the next header, which is synced, and then a frame of each of
    /// these pages. (`Memory`, `Io`, `Full`.)
    fn commit_anew(&mut self, alloc: Global, pages: &[PageImage], size: u32) -> R<()>
        requires whole { IsFalse (state_of self.old).has_failed }
        requires copied { IsTrue (is_copied (state_of self.old)) }
        requires pages { ArePages 0 size (state_of self.old).page_size pages.now }
        requires some { 0 < length pages.now }
        ensures done { IsTrue (D.tells (log_of self.old))
            → OnOk result (CommitsAnew (state_of self.old) (framed pages.now size) (D.file (log_of self.new))) }
        ensures known { IsStateCommitted true result (state_of self.old) (length pages.now) size
            (state_of self.new) }
        ensures crash { IsTrue (D.tells (log_of self.old))
            → WritesAnew (state_of self.old) (framed pages.now size) (D.file (log_of self.old))
            (D.file (log_of self.new)) }
        ensures refused { IfErr result (λ fault. IsCommitRefusal (state_of self.old).has_failed
            (ArePages 0 size (state_of self.old).page_size pages.now × (0 < length pages.now))
            (IsWithin (restarted (state_of self.old)) (length pages.now) size) (log_of self.old)
            (log_of self.new)
            (D.failures (log_of self.old)) (D.failures (log_of self.new)) fault) }
        ensures same { KeepsDisks D.tells D.failures (db_of self.old) (db_of self.new)
            (log_of self.old) (log_of self.new) }
        ensures cause { HasCause true result self.old self.new }
    {
        self.state.check_limits(0, pages.len(), size)?;
        self.state.reserve(alloc, pages)?;
        let header = next_header(self.state.header);
        let sum = header.sum();
        let (bytes, sum_now) = self.state.make_frames(alloc, &header, sum, pages, size)?;
        let end = self.state.end();
        let is_clean = self.state.is_clean;
        self.state.is_failed = true;
        write_anew(&mut self.log, &header, is_clean, end, &bytes)?;
        self.state.is_failed = false;
        self.state.restart(header, true);
        self.state.advance(pages, size, sum_now);
        Ok(())
    }

    /// Commits pages, by rising number, in a database of `size` pages: writes a frame each, after the committed ones, and
    /// syncs the log. Where the log may begin anew (`may_restart`: nobody else sees its frames) and all its frames were copied into
    /// the database file, it gets the next header first, which is synced, and has these frames alone. Nothing is written at a
    /// refusal but `Io`, after which each call answers `Failed`. (`Memory`, `Io`, `Failed`; `Damaged(Page)` where there is no page,
    /// one's number isn't greater than that before it, or is past the size, or its length isn't that of a page; `Full` where
    /// frames, pages or bytes would pass the limits.)
    pub fn commit(
        &mut self,
        alloc: Global,
        pages: &[PageImage],
        size: u32,
        may_restart: bool,
    ) -> R<()>
        ensures done { IsTrue (D.tells (log_of self.old))
            → OnOk result (CommitsOver (state_of self.old) may_restart (framed pages.now size)
            (D.file (log_of self.old)) (D.file (log_of self.new))) }
        ensures known { IsStateCommitted may_restart result (state_of self.old)
            (length pages.now) size (state_of self.new) }
        // A crash leaves what was committed, or that and these frames; where the log begins anew, no frames or these alone.
        ensures crash { IsFalse (state_of self.old).has_failed → IsTrue (D.tells (log_of self.old))
            → WritesOver (state_of self.old) may_restart (framed pages.now size)
            (D.file (log_of self.old)) (D.file (log_of self.new)) }
        ensures refused { IfErr result (λ fault. IsCommitRefusal (state_of self.old).has_failed
            (ArePages 0 size (state_of self.old).page_size pages.now × (0 < length pages.now))
            (IsWithin (base_of (state_of self.old) may_restart) (length pages.now) size)
            (log_of self.old) (log_of self.new)
            (D.failures (log_of self.old)) (D.failures (log_of self.new)) fault) }
        ensures same { KeepsDisks D.tells D.failures (db_of self.old) (db_of self.new)
            (log_of self.old) (log_of self.new) }
        ensures cause { HasCause true result self.old self.new }
    {
        if self.state.is_failed {
            return Err(Fault::Failed);
        }
        check_pages(pages, size, self.state.page_size)?;
        if self.state.begins_anew(may_restart) {
            return self.commit_anew(alloc, pages, size);
        }
        self.append(alloc, pages, size)
    }

    /// Cuts the log after its committed frames and syncs it, where it is longer. The first commit does it where nothing else has.
    /// (`Io`, after which each call answers `Failed`; `Failed`.)
    pub fn cut_tail(&mut self) -> R<()>
        ensures done { IsTrue (D.tells (log_of self.old))
            → OnOk result (IsCut (state_of self.old) (D.file (log_of self.old)) (D.file (log_of self.new))) }
        ensures known { IsStateCut result (state_of self.old) (state_of self.new) }
        ensures crash { IsFalse (state_of self.old).has_failed → IsTrue (D.tells (log_of self.old))
            → Always (D.file (log_of self.old)) (D.file (log_of self.new))
            (LeavesCommits (state_of self.old).page_size
            (commits_of (state_of self.old) (D.file (log_of self.old)).content)) }
        ensures left { IsFalse (state_of self.old).has_failed → IsTrue (D.tells (log_of self.old))
            → IsContentLeft (D.file (log_of self.new)) }
        ensures refused { MatchResult result (λ _. D.failures (log_of self.new) ≡ D.failures (log_of self.old))
            (λ fault. IsCutRefusal (state_of self.old).has_failed (log_of self.old)
            (log_of self.new) (D.failures (log_of self.old))
            (D.failures (log_of self.new)) fault) }
        ensures same { KeepsDisks D.tells D.failures (db_of self.old) (db_of self.new)
            (log_of self.old) (log_of self.new) }
    {
        if self.state.is_failed {
            return Err(Fault::Failed);
        }
        let end = self.state.end();
        self.state.is_failed = true;
        truncate_tail(&mut self.log, end, false)?;
        self.state.is_clean = true;
        self.state.is_failed = false;
        Ok(())
    }
}
