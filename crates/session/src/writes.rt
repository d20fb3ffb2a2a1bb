//! Changes of the database by the present connection: in its transaction, or as a statement of its own.

ghost use Rattle.std.specs.Prelude.{◌≡◌, Ok, Err, IfErr, true, false};
ghost use Rattle.pager.specs.Marks.{IsOverTheSame, marks_of, now_of};
ghost use Rattle.pager.specs.Views.{newest_view};
ghost use Rattle.executor.specs.Forms.{WhereKept};
ghost use Rattle.session.specs.Stored.{ShowsDatabase};
ghost use Rattle.catalog.specs.Database.{Database};
ghost use Rattle.session.specs.SavedTables.{committed_in};
ghost use Rattle.session.specs.Failing.{MarksFailure, ReadsFiles};
ghost use Rattle.session.specs.Applying.{EndsAlone, Applies, CanApply};
ghost use Rattle.executor_programs.specs.Writes.{written};

use crate::changes::apply;
use crate::marks::mark_times;
use crate::seats::Transaction;
use crate::transactions::Connections;
use disk::Disk;
use executor_programs::Write;
use pager::Writer;
use sqlval::{Fault, R};
use std::mem;

impl<D: Disk + Drop> Connections<D> {
    ghost use Rattle.session.specs.Representation.{MayWrite, StepsOn, done_reply, first_write_refusal, is_idle, is_reading, with_transaction};
    ghost use Rattle.session.specs.Writers.{is_stale};
    ghost use Rattle.session.specs.declared.seats.Transaction.TheVariants as transaction;
    ghost use Rattle.sql_syntax.specs.declared.statement.Statement.TheVariants as statement;
    ghost use Rattle.session.specs.ConnectionState.{HasCauseIn, files_of, has_failed_in};

    /// Changes the database, in the open transaction or in one of its own (autocommit).
    pub(crate) fn write(&mut self, write: Write<'_>) -> R<()>
        ensures cause { HasCauseIn true result self.old self.new }
        ensures marks { MarksFailure result self.old self.new }
        ensures step { WhereKept (written write.entry)
            (StepsOn self.old (written write.entry) (done_reply result) self.new) }
    {
        match mem::replace(&mut self.transaction, Transaction::Idle) {
            Transaction::Idle => self.autocommit(write),
            Transaction::Writing(writer) => self.continue_writing(writer, write),
            reading => self.write_reading(reading, write),
        }
    }

    /// Changes the database in a transaction that has written, which was taken out of `self`.
    pub(crate) fn continue_writing(&mut self, writer: Writer, write: Write<'_>) -> R<()>
        ensures cause { HasCauseIn true result self.old self.new }
        ensures reads { ReadsFiles self.old self.new }
        ensures step { WhereKept (written write.entry)
            (StepsOn (with_transaction self.old (transaction.Writing writer)) (written write.entry)
            (done_reply result) self.new) }
    {
        let mut writer = writer;
        let result = self.apply_marked(&mut writer, write);
        self.transaction = Transaction::Writing(writer);
        result
    }

    /// Changes the database in a transaction that hasn't written yet, which was taken out of `self`.
    pub(crate) fn write_reading(&mut self, reading: Transaction, write: Write<'_>) -> R<()>
        ensures cause { HasCauseIn true result self.old self.new }
        ensures reads { ReadsFiles self.old self.new }
        ensures step { WhereKept (written write.entry) (is_reading reading ≡ true
            → StepsOn (with_transaction self.old reading) (written write.entry) (done_reply result) self.new) }
    {
        self.transaction = reading;
        self.may_write()?;
        self.take_newest()?;
        self.start_writing(write)
    }

    /// Refuses a write on a snapshot that isn't the newest, or where another connection has the write right.
    pub(crate) fn may_write(&self) -> R<()>
        ensures { result ≡ first_write_refusal self.now }
    {
        if self.is_stale() {
            return Err(Fault::StaleSnapshot);
        }
        if self.is_busy() {
            return Err(Fault::Busy);
        }
        Ok(())
    }

    /// Whether the transaction reads on a snapshot that isn't the newest.
    pub(crate) fn is_stale(&self) -> bool
        ensures { result ≡ is_stale (files_of self.now) self.now.transaction }
    {
        match &self.transaction {
            Transaction::Reading(snapshot) => *snapshot != self.log.begin(),
            _ => false,
        }
    }

    pub(crate) fn autocommit(&mut self, write: Write<'_>) -> R<()>
        ensures cause { HasCauseIn true result self.old self.new }
        ensures marks { MarksFailure result self.old self.new }
        ensures step { WhereKept (written write.entry) (is_idle self.old.transaction ≡ true
            → StepsOn self.old (written write.entry) (done_reply result) self.new) }
    {
        if self.is_busy() {
            return Err(Fault::Busy);
        }
        self.take_newest()?;
        self.write_alone(write)
    }

    /// Changes the newest database in a transaction of the statement's own, where no other connection writes.
    pub(crate) fn write_alone(&mut self, write: Write<'_>) -> R<()>
        ensures cause { HasCauseIn true result self.old self.new }
        ensures marks { MarksFailure result self.old self.new }
        ensures step { WhereKept (written write.entry)
            (is_idle self.old.transaction ≡ true → MayWrite self.old
            → StepsOn self.old (written write.entry) (done_reply result) self.new) }
    {
        let newest = self.log.begin();
        let mut writer = Writer::begin(self.alloc, &mut self.log, newest)?;
        self.apply(&mut writer, write)?;
        self.commit_autocommit(writer)
    }

    /// Commits the pages of an autocommit statement; if that is refused, its changes are dropped.
    pub(crate) fn commit_autocommit(&mut self, writer: Writer) -> R<()>
        ensures cause { HasCauseIn true result self.old self.new }
        ensures marks { MarksFailure result self.old self.new }
        ensures ends { (db was : Database) → has_failed_in self.old ≡ false
            → CanApply self.old writer db
            → ShowsDatabase (newest_view (files_of self.old)) (committed_in self.old.catalog) was
            → EndsAlone self.old writer db result self.new }
    {
        let mut writer = writer;
        match self.commit_writer(&mut writer) {
            Ok(()) => Ok(()),
            Err(fault) => {
                self.catalog.rollback();
                Err(fault)
            }
        }
    }

    /// The first change of a transaction takes the write right, and sets a mark for each of its savepoints.
    pub(crate) fn start_writing(&mut self, write: Write<'_>) -> R<()>
        ensures cause { HasCauseIn true result self.old self.new }
        ensures reads { ReadsFiles self.old self.new }
        ensures step { WhereKept (written write.entry)
            (is_reading self.old.transaction ≡ true → MayWrite self.old
            → StepsOn self.old (written write.entry) (done_reply result) self.new) }
    {
        let snapshot = self.snapshot();
        let mut writer = Writer::begin(self.alloc, &mut self.log, snapshot)?;
        mark_times(&mut writer, self.catalog.count())?;
        self.apply(&mut writer, write)?;
        self.transaction = Transaction::Writing(writer);
        Ok(())
    }

    /// Makes a statement's change in the writer's pages, under a mark. A refused one goes back to it.
    pub(crate) fn apply_marked(&mut self, writer: &mut Writer, write: Write<'_>) -> R<()>
        ensures cause { HasCauseIn true result self.old self.new }
        ensures reads { ReadsFiles self.old self.new }
        ensures applies { (db : Database)
            → WhereKept (written write.entry) (CanApply self.old writer.old db
            → Applies (written write.entry) self.old writer.old db result self.new writer.new) }
        ensures marks { marks_of writer.new ≡ marks_of writer.old }
        ensures stands { IsOverTheSame writer.old writer.new }
        ensures back { IfErr result (λ fault. now_of writer.new ≡ now_of writer.old) }
    {
        let place = writer.mark()?;
        match self.apply(writer, write) {
            Ok(()) => {
                writer.release(place);
                Ok(())
            }
            Err(fault) => {
                writer.back_to(place);
                writer.release(place);
                Err(fault)
            }
        }
    }

    /// Makes a statement's change in the writer's pages. (After a refusal some of them may have changed.)
    pub(crate) fn apply(&mut self, writer: &mut Writer, write: Write<'_>) -> R<()>
        ensures cause { HasCauseIn true result self.old self.new }
        ensures reads { ReadsFiles self.old self.new }
        ensures applies { (db : Database)
            → WhereKept (written write.entry) (CanApply self.old writer.old db
            → Applies (written write.entry) self.old writer.old db result self.new writer.new) }
        ensures marks { marks_of writer.new ≡ marks_of writer.old }
        ensures stands { IsOverTheSame writer.old writer.new }
    {
        apply(
            self.alloc,
            &mut self.log,
            &mut self.buffer,
            &mut self.catalog,
            writer,
            write,
        )
    }
}
