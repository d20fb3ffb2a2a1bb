//! Savepoints of the present connection: made, released, and gone back to.

ghost use Rattle.std.specs.Prelude.{◌≡◌, Ok, Err, IfErr, true, false};
ghost use Rattle.session.specs.SavedTables.{HasRoom};
ghost use Rattle.session.specs.Failing.{IsRefusedHere, MarksFailure, ReadsFiles};
ghost use Rattle.executor_programs.specs.Writes.{written};

use crate::marks::save_marked;
use crate::seats::Transaction;
use crate::transactions::Connections;
use disk::Disk;
use pager::Writer;
use sqlval::{Fault, Name, R};
use std::mem;

impl<D: Disk + Drop> Connections<D> {
    ghost use Rattle.session.specs.Representation.{StepsOn, done_reply, is_idle, is_reading, with_transaction};
    ghost use Rattle.session.specs.declared.seats.Transaction.TheVariants as transaction;
    ghost use Rattle.sql_syntax.specs.declared.statement.Statement.TheVariants as statement;
    ghost use Rattle.session.specs.ConnectionState.{HasCauseIn};

    /// Makes a savepoint. Outside a transaction it begins one.
    pub(crate) fn savepoint_here(&mut self, name: &Name) -> R<()>
        ensures cause { HasCauseIn false result self.old self.new }
        ensures reads { ReadsFiles self.old self.new }
        ensures step { StepsOn self.old (statement.Savepoint name.now) (done_reply result) self.new }
    {
        if self.catalog.is_full() {
            return Err(Fault::TooLong);
        }
        let copy = name.copy(self.alloc)?;
        match mem::replace(&mut self.transaction, Transaction::Idle) {
            Transaction::Idle => self.begin_savepoint(copy),
            Transaction::Writing(writer) => self.save_writing(writer, copy),
            reading => self.save_reading(reading, copy),
        }
    }

    /// Begins a transaction by a savepoint.
    pub(crate) fn begin_savepoint(&mut self, name: Name) -> R<()>
        ensures cause { HasCauseIn false result self.old self.new }
        ensures reads { ReadsFiles self.old self.new }
        ensures step { HasRoom self.old.catalog → is_idle self.old.transaction ≡ true
            → StepsOn self.old (statement.Savepoint name) (done_reply result) self.new }
    {
        self.catalog.begin(name)?;
        self.begin_deferred()
    }

    /// Makes a savepoint in a transaction that hasn't written yet, which was taken out of `self`.
    pub(crate) fn save_reading(&mut self, reading: Transaction, name: Name) -> R<()>
        ensures cause { HasCauseIn false result self.old self.new }
        ensures reads { ReadsFiles self.old self.new }
        ensures step { HasRoom self.old.catalog → is_reading reading ≡ true
            → StepsOn (with_transaction self.old reading) (statement.Savepoint name)
            (done_reply result) self.new }
    {
        self.transaction = reading;
        self.catalog.save(name)
    }

    /// Makes a savepoint in a transaction that has written, which was taken out of `self`.
    pub(crate) fn save_writing(&mut self, writer: Writer, name: Name) -> R<()>
        ensures cause { HasCauseIn false result self.old self.new }
        ensures reads { ReadsFiles self.old self.new }
        ensures step { HasRoom self.old.catalog
            → StepsOn (with_transaction self.old (transaction.Writing writer))
            (statement.Savepoint name) (done_reply result) self.new }
    {
        let mut writer = writer;
        let result = save_marked(&mut self.catalog, &mut writer, name);
        self.transaction = Transaction::Writing(writer);
        result
    }

    /// Lets go of the newest savepoint of a name and of those made after it; the changes stay. The oldest one, where it began
    /// the transaction, commits it.
    pub(crate) fn release_here(&mut self, name: &Name) -> R<()>
        ensures cause { HasCauseIn true result self.old self.new }
        ensures marks { MarksFailure result self.old self.new }
        ensures refused { IfErr result (IsRefusedHere self.old (statement.Release name.now)) }
        ensures step { StepsOn self.old (statement.Release name.now) (done_reply result) self.new }
    {
        let Some(place) = self.catalog.place_of(name.as_str()) else {
            return Err(Fault::NoSavepoint);
        };
        if self.catalog.begins_at(place) {
            return self.commit_here();
        }
        self.catalog.release(place);
        self.transaction.release(place);
        Ok(())
    }

    /// Goes back to the newest savepoint of a name, which stays; those made after it are gone.
    pub(crate) fn rollback_to_here(&mut self, name: &Name) -> R<()>
        ensures cause { HasCauseIn false result self.old self.new }
        ensures reads { ReadsFiles self.old self.new }
        ensures refused { IfErr result (λ fault. fault ≡ Fault.NoSavepoint) }
        ensures step { StepsOn self.old (statement.RollbackTo name.now) (done_reply result) self.new }
    {
        let Some(place) = self.catalog.place_of(name.as_str()) else {
            return Err(Fault::NoSavepoint);
        };
        self.catalog.back_to(place);
        self.transaction.back_to(place);
        Ok(())
    }
}
