//! What a commit writes, and the checkpoints of the log.

ghost use Rattle.std.specs.Prelude.{◌≡◌, Ok, Err, IfErr, true, false, IsTrue, IsFalse};
ghost use Rattle.pager.specs.Views.{newest_view};
ghost use Rattle.session.specs.Stored.{ShowsDatabase};
ghost use Rattle.catalog.specs.Database.{Database};
ghost use Rattle.session.specs.SavedTables.{committed_in};
ghost use Rattle.session.specs.ConnectionState.{is_io};
ghost use Rattle.session.specs.Failing.{CountsStay, HasCallFailed, IsRefusedHere, MarksFailure};
ghost use Rattle.session.specs.Applying.{CommitsThen, CanApply, KeepsAllButFiles, WritesChanges};

use crate::checkpoints::{copy_frames, put_counts};
use crate::seats::{Transaction, any_holds_snapshot};
use crate::transactions::Connections;
use disk::Disk;
use pager::Writer;
use row_scan::Rows;
use sql_syntax::{CheckpointMode, Statement};
use sqlval::{Fault, R};
use std::mem;
use wal_checkpoint::Counts;

/// How many frames the log has at least for a commit to be followed by a checkpoint.
const LONG_LOG: u32 = 1000;

/// Whether a call of a disk has failed.
fn is_io(fault: &Fault) -> bool
    ensures { result ≡ is_io fault.now }
{
    matches!(fault, Fault::Io)
}

impl<D: Disk + Drop> Connections<D> {
    ghost use Rattle.session.specs.Representation.{CommitsBy, CopiesAnswered, StepsOn, done_reply, is_alone, rows_reply};
    ghost use Rattle.session.specs.Checkpoints.{CopiesAfter, KeepsSeats};
    ghost use Rattle.session.specs.CopiedBack.{CopiesBack, KeepsDisksWhereShort};
    ghost use Rattle.sql_syntax.specs.declared.statement.Statement.TheVariants as statement;
    ghost use Rattle.session.specs.ConnectionState.{HasCauseIn, files_of, has_failed_in};

    /// Whether no other connection sees a snapshot.
    pub(crate) fn is_alone(&self) -> bool
        ensures { result ≡ is_alone self.now }
    {
        !any_holds_snapshot(&self.parked)
    }

    /// Writes those of a writer's pages that its snapshot doesn't show, as one commit. Where no other connection sees a snapshot, the log may
    /// begin anew. (What `pruned` and `commit` of `Writer` refuse.)
    pub(crate) fn write_changes(&mut self, writer: &mut Writer) -> R<()>
        ensures cause { HasCauseIn true result self.old self.new }
        ensures rest { KeepsAllButFiles self.old self.new }
        ensures writes { (db was : Database) → has_failed_in self.old ≡ false
            → CanApply self.old writer.old db
            → ShowsDatabase (newest_view (files_of self.old)) (committed_in self.old.catalog) was
            → WritesChanges self.old writer.old db result (files_of self.new) writer.new }
    {
        let is_alone = self.is_alone();
        match writer.pruned(self.alloc, &mut self.log, &mut self.buffer)? {
            None => writer.commit(self.alloc, &mut self.log, is_alone),
            Some(pruned) => {
                let mut pruned = pruned;
                pruned.commit(self.alloc, &mut self.log, is_alone)
            }
        }
    }

    /// Commits a writer's pages, and copies the log's frames where it has become long. After `Io` every statement is refused.
    pub(crate) fn commit_writer(&mut self, writer: &mut Writer) -> R<()>
        ensures cause { HasCauseIn true result self.old self.new }
        ensures marks { MarksFailure result self.old self.new }
        ensures commits { (db was : Database) → has_failed_in self.old ≡ false
            → CanApply self.old writer.old db
            → ShowsDatabase (newest_view (files_of self.old)) (committed_in self.old.catalog) was
            → CommitsThen self.old writer.old db result self.new writer.new }
    {
        if let Err(fault) = self.write_changes(writer) {
            self.has_failed |= is_io(&fault);
            return Err(fault);
        }
        self.catalog.commit(&mut self.newest);
        self.copy_long_log();
        Ok(())
    }

    /// Copies the frames of a log that has become long into the database file, as far as other connections' snapshots let it. A refusal isn't
    /// answered: out of memory nothing is done; after `Io` every later statement is refused.
    pub(crate) fn copy_long_log(&mut self)
        ensures copies { CopiesAfter self.old self.new }
        ensures counts { CountsStay (files_of self.old) (files_of self.new) }
        ensures marked { IsFalse (has_failed_in self.old) → IsTrue (has_failed_in self.new)
            → HasCallFailed (files_of self.old) (files_of self.new) }
    {
        if self.log.frame_count() < LONG_LOG {
            return;
        }
        let _ = self.copy_back(CheckpointMode::Passive);
    }

    pub(crate) fn commit_here(&mut self) -> R<()>
        ensures cause { HasCauseIn true result self.old self.new }
        ensures marks { MarksFailure result self.old self.new }
        ensures refused { IfErr result (IsRefusedHere self.old statement.Commit) }
        // A step of COMMIT, and of a RELEASE that comes to the same.
        ensures step { (s : Statement) → CommitsBy self.old s
            → StepsOn self.old s (done_reply result) self.new }
    {
        match mem::replace(&mut self.transaction, Transaction::Idle) {
            Transaction::Idle => Err(Fault::NoTransaction),
            Transaction::Begun | Transaction::Reading(_) => {
                self.catalog.rollback();
                Ok(())
            }
            Transaction::Writing(writer) => {
                let mut writer = writer;
                let result = self.commit_writer(&mut writer);
                if result.is_err() {
                    self.transaction = Transaction::Writing(writer);
                }
                result
            }
        }
    }

    /// Copies the log's frames into the database file, and begins the log anew or cuts it to nothing as the mode has it. The answer's memory is
    /// taken first, so that nothing changes where there is none.
    pub(crate) fn checkpoint(&mut self, mode: CheckpointMode) -> R<Rows>
        ensures cause { HasCauseIn false result self.old self.new }
        ensures marks { MarksFailure result self.old self.new }
        ensures refused { IfErr result (IsRefusedHere self.old (statement.Checkpoint mode)) }
        ensures copied { CopiesAnswered self.old.parked.items (files_of self.old)
            (statement.Checkpoint mode) (rows_reply result) (files_of self.new) }
        ensures early { KeepsDisksWhereShort (statement.Checkpoint mode) (files_of self.old) result
            (files_of self.new) }
        ensures step { StepsOn self.old (statement.Checkpoint mode) (rows_reply result) self.new }
    {
        if !self.is_idle() {
            return Err(Fault::InTransaction);
        }
        let mut rows = Vec::with_capacity(self.alloc, 1)?;
        let counts = self.copy_back(mode)?;
        put_counts(self.alloc, &mut rows, counts);
        Ok(rows)
    }

    /// The same of the files alone. After `Io` every statement is refused.
    pub(crate) fn copy_back(&mut self, mode: CheckpointMode) -> R<Counts>
        ensures cause { HasCauseIn false result self.old self.new }
        ensures marks { MarksFailure result self.old self.new }
        ensures seats { KeepsSeats result self.old self.new }
        ensures copies { CopiesBack mode self.old.parked.items (files_of self.old) result (files_of self.new) }
    {
        match copy_frames(self.alloc, &mut self.log, &self.parked, mode) {
            Ok(counts) => Ok(counts),
            Err(fault) => {
                self.has_failed |= is_io(&fault);
                Err(fault)
            }
        }
    }
}
