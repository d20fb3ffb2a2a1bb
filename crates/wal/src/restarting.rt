//! A log that begins anew.

ghost use Rattle.std.specs.Prelude.{◌≡◌, ◌⊎◌, ◌≤◌, ◌+◌, ◌++◌, length, take, drop, IsTrue, IsFalse, OnOk, MatchResult};
ghost use Rattle.disk.specs.File.{IsSynced, IsContentLeft, Always};
ghost use Rattle.wal_frame.specs.Log.{header_bytes};
ghost use Rattle.wal_frame.specs.Written.{HeaderFits};
ghost use Rattle.wal.specs.Anew.{IsRewritten, LeavesRewriting};
ghost use Rattle.wal.specs.Commits.{KeepsDisks, commits_of};
ghost use Rattle.wal.specs.Refusals.{IsCutRefusal};
ghost use Rattle.wal.specs.Restarts.{IsRestarted, IsStateAnew, IsStateTruncated, IsTruncated, LeavesOrNone, LeavesRenewed, next_header, renewed};
ghost use Rattle.wal.specs.Stands.{kept_at};
ghost use Rattle.wal.specs.Crashes.{LeavesContent, LeavesOneOf};
ghost use Rattle.wal.specs.ErrorCauses.{TouchesDisk};

use crate::committing::{give_header, sync_log, truncate_tail, write_frames};
use crate::log::Log;
use disk::Disk;
use sqlval::{Fault, R};
use wal_frame::{LogHeader, Salts, WordOrder};

/// What is added to the second salt of a header for that of the next.
const SALT_STEP: u32 = 0x9e37_79b9;

/// The header that a log gets after this one.
pub fn next_header(header: LogHeader) -> LogHeader
    ensures is { result ≡ next_header header }
    ensures salts { (result.salts.first ≡ 0) ⊎ (result.salts.first ≡ header.salts.first + 1) }
    ensures fits { HeaderFits result }
{
    LogHeader {
        order: WordOrder::Big,
        page_size: header.page_size,
        sequence: header.sequence.wrapping_add(1),
        salts: Salts {
            first: header.salts.first.wrapping_add(1),
            second: header.salts.second.wrapping_add(SALT_STEP),
        },
    }
}

/// Writes a header over that of a log, and syncs it.
fn rewrite_header<D: Disk>(log: &mut D, header: &LogHeader) -> R<()>
    requires { IsTrue (D.tells log.old) → 32 ≤ length (D.file log.old).content }
    ensures written { IsTrue (D.tells log.old)
        → OnOk result ((D.file log.new).content ≡ header_bytes header.now ++ drop 32 (D.file log.old).content) }
    ensures synced { IsTrue (D.tells log.old) → OnOk result (IsSynced (D.file log.new)) }
    ensures crash { IsTrue (D.tells log.old) → IsSynced (D.file log.old)
        → Always (D.file log.old) (D.file log.new)
        (LeavesOneOf (D.file log.old).content (header_bytes header.now ++ drop 32 (D.file log.old).content)) }
    ensures left { LeavesContent D.tells D.file log.old log.new }
    ensures touches { TouchesDisk D.tells D.failures log.old log.new result }
{
    log.write_at(0, &header.write())?;
    sync_log(log)
}

/// Gives a log another header and syncs it: over the old one, or, where its first salt is 0, after the log was cut to nothing.
fn renew<D: Disk>(log: &mut D, header: &LogHeader) -> R<()>
    requires { IsTrue (D.tells log.old) → 32 ≤ length (D.file log.old).content }
    ensures written { IsTrue (D.tells log.old)
        → OnOk result ((D.file log.new).content ≡ renewed header.now (D.file log.old).content) }
    ensures synced { IsTrue (D.tells log.old) → IsSynced (D.file log.old)
        → OnOk result (IsSynced (D.file log.new)) }
    ensures crash { IsTrue (D.tells log.old) → IsSynced (D.file log.old)
        → Always (D.file log.old) (D.file log.new)
        (LeavesRenewed header.now (D.file log.old).content (D.file log.old).content (D.file log.old).content) }
    ensures left { LeavesContent D.tells D.file log.old log.new }
    ensures touches { TouchesDisk D.tells D.failures log.old log.new result }
{
    if header.salts.first == 0 {
        truncate_tail(log, 0, false)?;
        return give_header(log, header, false);
    }
    rewrite_header(log, header)
}

/// Cuts a log after its committed frames, unless it is clean, and gives it another header.
fn clean_and_renew<D: Disk>(log: &mut D, header: &LogHeader, is_clean: bool, end: u64) -> R<()>
    requires long { 32 ≤ end }
    requires inside { IsTrue (D.tells log.old) → end ≤ length (D.file log.old).content }
    ensures written { IsTrue (D.tells log.old)
        → OnOk result ((D.file log.new).content ≡ renewed header.now
        (kept_at is_clean end (D.file log.old).content)) }
    ensures synced { IsTrue (D.tells log.old) → IsSynced (D.file log.old)
        → OnOk result (IsSynced (D.file log.new)) }
    ensures crash { IsTrue (D.tells log.old) → IsSynced (D.file log.old)
        → Always (D.file log.old) (D.file log.new)
        (LeavesRenewed header.now (D.file log.old).content (take end (D.file log.old).content)
        (kept_at is_clean end (D.file log.old).content)) }
    ensures left { LeavesContent D.tells D.file log.old log.new }
    ensures touches { TouchesDisk D.tells D.failures log.old log.new result }
{
    truncate_tail(log, end, is_clean)?;
    renew(log, header)
}

/// Gives a log another header, as above, and then writes frames after it, and syncs the log.
pub fn write_anew<D: Disk>(
    log: &mut D,
    header: &LogHeader,
    is_clean: bool,
    end: u64,
    bytes: &[u8],
) -> R<()>
    requires long { 32 ≤ end }
    requires inside { IsTrue (D.tells log.old) → end ≤ length (D.file log.old).content }
    ensures written { IsTrue (D.tells log.old) → IsSynced (D.file log.old)
        → OnOk result (IsRewritten header.now
        (kept_at is_clean end (D.file log.old).content) bytes.now (D.file log.new)) }
    ensures crash { IsTrue (D.tells log.old) → IsSynced (D.file log.old)
        → Always (D.file log.old) (D.file log.new)
        (LeavesRewriting header.now (D.file log.old).content (take end (D.file log.old).content)
        (kept_at is_clean end (D.file log.old).content) bytes.now) }
    ensures left { LeavesContent D.tells D.file log.old log.new }
    ensures touches { TouchesDisk D.tells D.failures log.old log.new result }
{
    clean_and_renew(log, header, is_clean, end)?;
    write_frames(log, LogHeader::LEN, bytes)
}

impl<D: Disk> Log<D> {
    ghost use Rattle.wal.specs.LogState.{state_of, db_of, log_of};

    /// Begins the log anew where it has frames and all of them were copied into the database file: it gets the next header, and syncs
    /// it; what stood after the header stays, and counts no more. Else nothing is done. (`Io`, after which each call answers `Failed`;
    /// `Failed`.)
    pub fn restart(&mut self) -> R<()>
        ensures done { IsTrue (D.tells (log_of self.old))
            → OnOk result (IsRestarted (state_of self.old) (D.file (log_of self.old))
            (D.file (log_of self.new))) }
        ensures known { IsStateAnew result (state_of self.old) (state_of self.new) }
        // A crash leaves what was committed, or no frames.
        ensures crash { IsFalse (state_of self.old).has_failed → IsTrue (D.tells (log_of self.old))
            → Always (D.file (log_of self.old)) (D.file (log_of self.new))
            (LeavesOrNone (state_of self.old).page_size
            (commits_of (state_of self.old) (D.file (log_of self.old)).content)) }
        ensures left { IsFalse (state_of self.old).has_failed → IsTrue (D.tells (log_of self.old))
            → IsContentLeft (D.file (log_of self.new)) }
        ensures refused { MatchResult result (λ _. D.failures (log_of self.new) ≡ D.failures (log_of self.old))
            (λ fault. IsCutRefusal (state_of self.old).has_failed (log_of self.old)
            (log_of self.new) (D.failures (log_of self.old))
            (D.failures (log_of self.new)) fault) }
        ensures same { KeepsDisks D.tells D.failures (db_of self.old) (db_of self.new)
            (log_of self.old) (log_of self.new) }
    {
        if self.state.is_failed {
            return Err(Fault::Failed);
        }
        if !self.state.is_copied() {
            return Ok(());
        }
        let header = next_header(self.state.header);
        let end = self.state.end();
        let is_clean = self.state.is_clean;
        self.state.is_failed = true;
        clean_and_renew(&mut self.log, &header, is_clean, end)?;
        self.state.is_failed = false;
        self.state.restart(header, true);
        Ok(())
    }

    /// Cuts the log to nothing and syncs it where all its frames were copied into the database file. Else nothing is done. (`Io`,
    /// after which each call answers `Failed`; `Failed`.)
    pub fn truncate(&mut self) -> R<()>
        ensures done { IsTrue (D.tells (log_of self.old))
            → OnOk result (IsTruncated (state_of self.old) (D.file (log_of self.old))
            (D.file (log_of self.new))) }
        ensures known { IsStateTruncated result (state_of self.old) (state_of self.new) }
        // A crash leaves what was committed, or no frames.
        ensures crash { IsFalse (state_of self.old).has_failed → IsTrue (D.tells (log_of self.old))
            → Always (D.file (log_of self.old)) (D.file (log_of self.new))
            (LeavesOrNone (state_of self.old).page_size
            (commits_of (state_of self.old) (D.file (log_of self.old)).content)) }
        ensures left { IsFalse (state_of self.old).has_failed → IsTrue (D.tells (log_of self.old))
            → IsContentLeft (D.file (log_of self.new)) }
        ensures refused { MatchResult result (λ _. D.failures (log_of self.new) ≡ D.failures (log_of self.old))
            (λ fault. IsCutRefusal (state_of self.old).has_failed (log_of self.old)
            (log_of self.new) (D.failures (log_of self.old))
            (D.failures (log_of self.new)) fault) }
        ensures same { KeepsDisks D.tells D.failures (db_of self.old) (db_of self.new)
            (log_of self.old) (log_of self.new) }
    {
        if self.state.is_failed {
            return Err(Fault::Failed);
        }
        if self.state.copied != self.state.mark {
            return Ok(());
        }
        let header = self.state.header_after_cut();
        self.state.is_failed = true;
        truncate_tail(&mut self.log, 0, false)?;
        self.state.is_failed = false;
        self.state.restart(header, false);
        Ok(())
    }
}
