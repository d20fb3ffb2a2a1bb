//! The three kinds of checkpoints.

ghost use Rattle.std.specs.Prelude.{◌≡◌, ◌⊎◌, ◌≤◌, ◌==◌, IsTrue, IsFalse, OnOk, IfOk, IfErr, true, false, not, if◌then◌else◌, []};
ghost use Rattle.wal.specs.Copies.{after_copying};
ghost use Rattle.wal.specs.ErrorCauses.{HasCause};
ghost use Rattle.wal.specs.LogState.{log_of, seen_by, state_of};
ghost use Rattle.pager.specs.Views.{Tells};
ghost use Rattle.wal_checkpoint.specs.Answers.{counts_of, no_counts};
ghost use Rattle.wal_checkpoint.specs.Emptied.{Emptied, EmptiedMeanwhile, IsRefusedEmptying, MayEmpty};
ghost use Rattle.wal_checkpoint.specs.Shown.{Checkpoints, IsRefusedCopying, MayCopy, Meanwhile};

use disk::Disk;
use sqlval::R;
use std::alloc::Global;
use wal::{Log, Snapshot};

/// What a checkpoint answers.
#[derive(Clone, Copy)]
pub struct Counts {
    /// Whether another connection's snapshot kept the log from being begun anew.
    pub is_blocked: bool,
    /// How many frames were committed in the log.
    pub frames: u32,
    /// How many of them are copied into the database file.
    pub copied: u32,
}

/// Copies the frames that a snapshot sees into the database file, if the log has frames.
fn copy_seen<D: Disk + Drop>(alloc: Global, log: &mut Log<D>, target: Snapshot) -> R<()>
    ensures known { OnOk result ((state_of log.new ≡ after_copying (state_of log.old) target)
        × (D.tells (log_of log.new) ≡ D.tells (log_of log.old))) }
    ensures kept { (state_of log.new).header ≡ (state_of log.old).header }
    ensures done { MayCopy log.old target → OnOk result (Checkpoints log.old target false log.new) }
    ensures crash { MayCopy log.old target → Meanwhile log.old target log.new }
    ensures refused { IfErr result (IsRefusedCopying log.old target log.new) }
    ensures cause { HasCause false result log.old log.new }
{
    if log.frame_count() == 0 {
        return Ok(());
    }
    log.copy(alloc, target)
}

/// Copies the frames that a snapshot sees into the database file. (`Memory`, which changes nothing; `Io`, after which each call of the log
/// answers `Failed`; what `Log::copy` refuses.)
pub fn passive<D: Disk + Drop>(alloc: Global, log: &mut Log<D>, target: Snapshot) -> R<Counts>
    ensures answer { IfOk result (λ counts. (counts ≡ counts_of false (state_of log.old) target)
        × (counts.copied ≤ counts.frames)) }
    ensures known { OnOk result ((state_of log.new ≡ after_copying (state_of log.old) target)
        × (D.tells (log_of log.new) ≡ D.tells (log_of log.old))) }
    ensures kept { (state_of log.new).header ≡ (state_of log.old).header }
    ensures done { MayCopy log.old target → OnOk result (Checkpoints log.old target false log.new) }
    ensures crash { MayCopy log.old target → Meanwhile log.old target log.new }
    ensures refused { IfErr result (IsRefusedCopying log.old target log.new) }
    ensures cause { HasCause false result log.old log.new }
{
    copy_seen(alloc, log, target)?;
    Ok(Counts {
        is_blocked: false,
        frames: log.frame_count(),
        copied: log.copied_count(),
    })
}

/// Whether all frames of a log are copied.
fn is_all_copied<D: Disk + Drop>(log: &Log<D>) -> bool
    ensures { result ≡ ((state_of log.now).copied == (state_of log.now).frames) }
{
    log.copied_count() == log.frame_count()
}

/// Begins a log anew where all its frames are copied.
fn begin_anew<D: Disk + Drop>(log: &mut Log<D>) -> R<()>
    ensures done { MayEmpty log.old → OnOk result (Emptied log.old log.new) }
    ensures crash { MayEmpty log.old → EmptiedMeanwhile log.old log.new }
    ensures anew { IsFalse (state_of log.old).has_failed → IsTrue (D.tells (log_of log.old))
        → (state_of log.old).copied ≡ (state_of log.old).frames
        → OnOk result ((state_of log.new).frames ≡ 0) }
    ensures refused { IfErr result (IsRefusedEmptying log.old) }
    ensures cause { HasCause false result log.old log.new }
{
    if !is_all_copied(log) {
        return Ok(());
    }
    log.restart()
}

/// Cuts a log to nothing where all its frames are copied.
fn cut_to_nothing<D: Disk + Drop>(log: &mut Log<D>) -> R<()>
    ensures done { MayEmpty log.old → OnOk result (Emptied log.old log.new) }
    ensures crash { MayEmpty log.old → EmptiedMeanwhile log.old log.new }
    ensures anew { (state_of log.old).copied ≡ (state_of log.old).frames
        → OnOk result (((state_of log.new).frames ≡ 0)
        × (IsTrue (D.tells (log_of log.old)) → (D.file (log_of log.new)).content ≡ [])) }
    ensures refused { IfErr result (IsRefusedEmptying log.old) }
    ensures cause { HasCause false result log.old log.new }
{
    if !is_all_copied(log) {
        return Ok(());
    }
    log.truncate()
}

/// Copies the frames that a snapshot sees, and begins the log anew where nobody else sees its frames. (As `passive`.)
pub fn restart<D: Disk + Drop>(
    alloc: Global,
    log: &mut Log<D>,
    target: Snapshot,
    is_alone: bool,
) -> R<Counts>
    ensures answer { IfOk result (λ counts. (counts ≡ counts_of (not is_alone)
        (state_of log.old) target) × (counts.copied ≤ counts.frames)) }
    ensures known { OnOk result (IsFalse is_alone
        → (state_of log.new ≡ after_copying (state_of log.old) target)
        × (D.tells (log_of log.new) ≡ D.tells (log_of log.old))) }
    ensures done { MayCopy log.old target → OnOk result (Checkpoints log.old target is_alone log.new) }
    ensures crash { MayCopy log.old target → Meanwhile log.old target log.new }
    ensures refused { IfErr result (IsRefusedCopying log.old target log.new) }
    ensures cause { HasCause false result log.old log.new }
    ensures anew { Tells log.old → (IsTrue is_alone → seen_by target ≡ (state_of log.old).frames)
        → OnOk result (IsTrue is_alone → (state_of log.new).frames ≡ 0) }
{
    let counts = passive(alloc, log, target)?;
    if !is_alone {
        return Ok(Counts {
            is_blocked: true,
            ..counts
        });
    }
    begin_anew(log)?;
    Ok(counts)
}

/// Copies the frames that a snapshot sees, and cuts the log to nothing where nobody else sees its frames. (As `passive`.)
pub fn truncate<D: Disk + Drop>(
    alloc: Global,
    log: &mut Log<D>,
    target: Snapshot,
    is_alone: bool,
) -> R<Counts>
    ensures answer { IfOk result (λ counts.
        (counts ≡ (if is_alone then no_counts else counts_of true (state_of log.old) target))
        × (counts.copied ≤ counts.frames)) }
    ensures known { OnOk result (IsFalse is_alone
        → (state_of log.new ≡ after_copying (state_of log.old) target)
        × (D.tells (log_of log.new) ≡ D.tells (log_of log.old))) }
    ensures done { MayCopy log.old target → OnOk result (Checkpoints log.old target is_alone log.new) }
    ensures crash { MayCopy log.old target → Meanwhile log.old target log.new }
    ensures refused { IfErr result (IsRefusedCopying log.old target log.new) }
    ensures cause { HasCause false result log.old log.new }
    ensures anew { (IsTrue is_alone → seen_by target ≡ (state_of log.old).frames)
        → OnOk result (IsTrue is_alone
        → ((state_of log.new).frames ≡ 0) × (IsTrue (D.tells (log_of log.old))
        → (D.file (log_of log.new)).content ≡ [])) }
{
    let counts = passive(alloc, log, target)?;
    if !is_alone {
        return Ok(Counts {
            is_blocked: true,
            ..counts
        });
    }
    cut_to_nothing(log)?;
    Ok(Counts {
        is_blocked: false,
        frames: 0,
        copied: 0,
    })
}
