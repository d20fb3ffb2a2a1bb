//! The connections of an open database: whose statement runs, and how transactions begin and end.

ghost use Rattle.std.specs.List.{list_any};
ghost use Rattle.std.specs.Prelude.{◌≡◌, OnOk, Ok, Err, IfErr, true, false, IsTrue, IsFalse};
ghost use Rattle.sqlval.specs.declared.fault.Fault.TheVariants.{Memory};
ghost use Rattle.pager.specs.Views.{Tells, newest_view};
ghost use Rattle.executor.specs.Forms.{KeepsItsText, WhereKept};
ghost use Rattle.session.specs.Stored.{ShowsDatabase};
ghost use Rattle.catalog.specs.Database.{Database};
ghost use Rattle.catalog.specs.Listed.{Listed, listed_in};
ghost use Rattle.executor.specs.Forms as forms;
ghost use Rattle.wal.specs.LogState.{db_of, log_of};
ghost use Rattle.session.specs.Limits.{may_be_full};
ghost use Rattle.session.specs.Failing.{IsRefusedFor, IsRefusedHere, MarksFailure, ReadsFiles, is_immediate};
ghost use Rattle.executor_programs.specs.Writes.{written};

use crate::savepoints::SavedCatalogs;
use crate::seats::{Seat, Seats, Transaction, any_holds_writer, give_up_seats, trade};
use catalog::Catalog;
use disk::Disk;
use executor_programs::write_of;
use pager::Writer;
use row_scan::Rows;
use sql_syntax::{BeginMode, Statement};
use sqlval::{Fault, Feature, Misuse, R};
use std::alloc::Global;
use std::rc::Rc;
use wal::Log;

/// The sixteen connections of an open database.
#[derive(Drop)]
pub struct Connections<D: Disk + Drop> {
    pub(crate) alloc: Global,
    pub(crate) log: Log<D>,
    /// The tables of the newest commit.
    pub(crate) newest: Rc<Catalog>,
    /// Whose statement runs, or ran last: the present connection, from 1 on.
    pub(crate) connection: u32,
    /// Its tables.
    pub(crate) catalog: SavedCatalogs,
    pub(crate) transaction: Transaction,
    /// The others, each at the place before its number; at that of the present one stands an idle one.
    pub(crate) parked: Vec<Seat>,
    pub(crate) has_failed: bool,
    /// Where pages of the files are read.
    pub(crate) buffer: Vec<u8>,
}

/// Refuses a form of a statement.
fn unsupported_form<T>() -> R<T>
    ensures { result ≡ Err (Fault.Unsupported Feature.StatementForm) }
{
    Err(Fault::Unsupported(Feature::StatementForm))
}

impl<D: Disk + Drop> Connections<D> {
    ghost use Rattle.session.specs.Representation.{AreGivenUp, CopiesAnswered, IsGivenUp, MayWrite, RepresentsRunning, Steps, StepsOn, Switches, TakesNewest, TradesWith, done_reply, has_no_snapshot, is_idle, rows_reply, with_transaction};
    ghost use Rattle.session.specs.CopiedBack.{KeepsDisksWhereShort};
    ghost use Rattle.session.specs.Seats.{AreFresh, catalog_in, holds_writer};
    ghost use Rattle.session.specs.declared.seats.Transaction.TheVariants as transaction;
    ghost use Rattle.session.specs.Holding.{IsSettled};
    ghost use Rattle.session.specs.Machine.{fresh};
    ghost use Rattle.sql_syntax.specs.declared.statement.BeginMode.TheVariants.{Deferred, Immediate};
    ghost use Rattle.sql_syntax.specs.declared.statement.Statement.TheVariants as statement;
    ghost use Rattle.session.specs.ConnectionState.{HasCauseIn, files_of, first_refusal, has_failed_in};

    /// The connections of a database whose schema is read, all of them idle.
    pub fn new(alloc: Global, log: Log<D>, seats: Seats) -> Connections<D>
        ensures files { files_of result ≡ log }
        ensures whole { IsFalse (has_failed_in result) }
        // Where the files hold a database and the catalog lists its tables, the connections represent its machine.
        ensures shown { (db : Database) → Tells log → IsSettled log → AreFresh seats
            → ShowsDatabase (newest_view log) (listed_in (catalog_in seats)) db
            → RepresentsRunning result (fresh db) }
    {
        let Seats {
            newest,
            catalog,
            parked,
        } = seats;
        Connections {
            alloc,
            log,
            newest,
            connection: 1,
            catalog,
            transaction: Transaction::Idle,
            parked,
            has_failed: false,
            buffer: Vec::new(alloc),
        }
    }

    /// Gives the two disks back.
    pub fn into_disks(self) -> (D, D)
        ensures db { result.0 ≡ db_of (files_of self) }
        ensures log { result.1 ≡ log_of (files_of self) }
    {
        let Connections {
            alloc: _,
            log,
            newest: _,
            connection: _,
            catalog: _,
            transaction: _,
            parked: _,
            has_failed: _,
            buffer: _,
        } = self;
        log.into_disks()
    }

    /// Whether a commit or a checkpoint has failed, so that the files must be opened again.
    pub fn has_failed(&self) -> bool
        ensures { result ≡ has_failed_in self.now }
    {
        self.has_failed
    }

    /// Refuses every statement of a failed engine, and connection numbers outside 1 to 16.
    pub fn check(&self, connection: u32) -> R<()>
        ensures { result ≡ first_refusal (has_failed_in self.now) connection }
    {
        if self.has_failed {
            return Err(Fault::Failed);
        }
        if connection == 0 || connection > 16 {
            return Err(Fault::Misuse(Misuse::Connection));
        }
        Ok(())
    }

    /// Executes a statement on a connection that `check` doesn't refuse. A refused one changes nothing, except that RAISE(ROLLBACK) gives
    /// the connection's transaction up, and that `Io` of a commit or a checkpoint may mark the engine as failed: then all is refused.
    pub fn execute(&mut self, connection: u32, statement: &Statement) -> R<Rows>
        // `check` is the test.
        requires free { first_refusal (has_failed_in self.old) connection ≡ Ok tt }
        ensures cause { HasCauseIn (may_be_full statement.now) result self.old self.new }
        ensures marks { MarksFailure result self.old self.new }
        // Memory is short only where it is taken, and a COMMIT is refused as `Full` only past the limits.
        ensures refused { IfErr result (IsRefusedFor self.old connection statement.now) }
        // A checkpoint takes its memory before it changes a file.
        ensures early { KeepsDisksWhereShort statement.now (files_of self.old) result (files_of self.new) }
        // The reply is a step of each machine that was represented, and the machine after it is represented then. (A CREATE carries its own text.)
        ensures step { KeepsItsText statement.now
            → Steps self.old connection statement.now (rows_reply result) self.new }
    {
        self.switch(connection);
        match self.serve(statement) {
            Ok(rows) => Ok(rows),
            Err(fault) => Err(self.settle(fault)),
        }
    }

    /// Makes a connection the present one.
    pub(crate) fn switch(&mut self, connection: u32)
        ensures { Switches connection self.old self.new }
    {
        if connection == self.connection {
            return;
        }
        self.trade(self.connection);
        self.connection = connection;
        self.trade(connection);
    }

    /// Trades the present connection's state for that of the seat of a number.
    fn trade(&mut self, connection: u32)
        ensures { TradesWith connection self.old self.new }
    {
        let place = connection.saturating_sub(1) as usize;
        trade(
            &mut self.parked,
            place,
            &mut self.transaction,
            &mut self.catalog,
        );
    }

    /// Whether another connection has the write right.
    pub(crate) fn is_busy(&self) -> bool
        ensures { result ≡ list_any holds_writer self.now.parked.items }
    {
        any_holds_writer(&self.parked)
    }

    /// A transaction that has no snapshot yet sees the newest tables from now on. (`Memory` alone.)
    pub(crate) fn take_newest(&mut self) -> R<()>
        ensures taken { OnOk result (TakesNewest self.old self.new) }
        ensures refused { IfErr result (λ fault. (fault ≡ Memory) × (self.new ≡ self.old)) }
    {
        if self.has_no_snapshot() {
            let newest = self.newest.clone()?;
            self.catalog.rebase(newest);
        }
        Ok(())
    }

    /// Whether the transaction, if there is one, has neither read nor written yet.
    pub(crate) fn has_no_snapshot(&self) -> bool
        ensures { result ≡ has_no_snapshot self.now.transaction }
    {
        matches!(&self.transaction, Transaction::Idle | Transaction::Begun)
    }

    /// Executes a statement of the present connection.
    fn serve(&mut self, statement: &Statement) -> R<Rows>
        ensures cause { HasCauseIn (may_be_full statement.now) result self.old self.new }
        ensures marks { MarksFailure result self.old self.new }
        ensures refused { IfErr result (IsRefusedHere self.old statement.now) }
        ensures copied { CopiesAnswered self.old.parked.items (files_of self.old) statement.now
            (rows_reply result) (files_of self.new) }
        ensures early { KeepsDisksWhereShort statement.now (files_of self.old) result (files_of self.new) }
        ensures step { WhereKept statement.now
            (StepsOn self.old statement.now (rows_reply result) self.new) }
    {
        match statement {
            Statement::Select(query) => return self.select(query),
            Statement::Checkpoint(mode) => return self.checkpoint(*mode),
            _ => {}
        }
        self.change(statement)?;
        Ok(Vec::new(self.alloc))
    }

    /// Executes a statement that answers no rows.
    fn change(&mut self, statement: &Statement) -> R<()>
        ensures cause { HasCauseIn (may_be_full statement.now) result self.old self.new }
        ensures marks { MarksFailure result self.old self.new }
        ensures refused { IfErr result (IsRefusedHere self.old statement.now) }
        ensures step { WhereKept statement.now (forms.answers_rows statement.now ≡ false
            → StepsOn self.old statement.now (done_reply result) self.new) }
    {
        match statement {
            Statement::Begin(mode) => self.begin_here(*mode),
            Statement::Commit => self.commit_here(),
            Statement::Rollback => self.rollback_here(),
            Statement::Savepoint(name) => self.savepoint_here(name),
            Statement::Release(name) => self.release_here(name),
            Statement::RollbackTo(name) => self.rollback_to_here(name),
            _ => match write_of(statement) {
                Some(write) => self.write(write),
                // (Every form without rows is one of these, or writes.)
                None => unsupported_form(),
            },
        }
    }

    pub(crate) fn begin_here(&mut self, mode: BeginMode) -> R<()>
        ensures cause { HasCauseIn false result self.old self.new }
        ensures reads { ReadsFiles self.old self.new }
        ensures memory { IfErr result (λ fault. fault ≡ Memory → IsTrue (is_immediate mode)) }
        ensures step { StepsOn self.old (statement.Begin mode) (done_reply result) self.new }
    {
        if !self.is_idle() {
            return Err(Fault::InTransaction);
        }
        match mode {
            BeginMode::Deferred => self.begin_deferred(),
            BeginMode::Immediate => self.begin_immediate_here(),
        }
    }

    pub(crate) fn begin_deferred(&mut self) -> R<()>
        ensures cause { HasCauseIn false result self.old self.new }
        ensures reads { ReadsFiles self.old self.new }
        ensures done { result ≡ Ok tt }
        ensures begun { self.new ≡ with_transaction self.old transaction.Begun }
        ensures step { is_idle self.old.transaction ≡ true
            → StepsOn self.old (statement.Begin Deferred) (done_reply result) self.new }
    {
        self.transaction = Transaction::Begun;
        Ok(())
    }

    /// Takes the write right.
    pub(crate) fn begin_immediate_here(&mut self) -> R<()>
        ensures cause { HasCauseIn false result self.old self.new }
        ensures reads { ReadsFiles self.old self.new }
        ensures step { is_idle self.old.transaction ≡ true
            → StepsOn self.old (statement.Begin Immediate) (done_reply result) self.new }
    {
        if self.is_busy() {
            return Err(Fault::Busy);
        }
        self.take_newest()?;
        self.begin_writing()
    }

    /// Begins a transaction that writes on the newest commit, where no other connection writes.
    pub(crate) fn begin_writing(&mut self) -> R<()>
        ensures cause { HasCauseIn false result self.old self.new }
        ensures reads { ReadsFiles self.old self.new }
        ensures step { is_idle self.old.transaction ≡ true → MayWrite self.old
            → StepsOn self.old (statement.Begin Immediate) (done_reply result) self.new }
    {
        let newest = self.log.begin();
        let writer = Writer::begin(self.alloc, &mut self.log, newest)?;
        self.transaction = Transaction::Writing(writer);
        Ok(())
    }

    /// Whether there is no transaction.
    pub(crate) fn is_idle(&self) -> bool
        ensures { result ≡ is_idle self.now.transaction }
    {
        matches!(&self.transaction, Transaction::Idle)
    }

    pub(crate) fn rollback_here(&mut self) -> R<()>
        ensures cause { HasCauseIn false result self.old self.new }
        ensures reads { ReadsFiles self.old self.new }
        ensures refused { IfErr result (λ fault. fault ≡ Fault.NoTransaction) }
        ensures step { StepsOn self.old statement.Rollback (done_reply result) self.new }
    {
        if self.is_idle() {
            return Err(Fault::NoTransaction);
        }
        self.give_up();
        Ok(())
    }

    /// Drops the present connection's transaction, if any.
    pub(crate) fn give_up(&mut self)
        ensures { IsGivenUp self.old self.new }
    {
        self.catalog.rollback();
        self.transaction = Transaction::Idle;
    }

    /// Drops all open transactions.
    pub fn give_up_all(&mut self)
        ensures files { files_of self.new ≡ files_of self.old }
        ensures gone { AreGivenUp self.old self.new }
    {
        self.give_up();
        give_up_seats(&mut self.parked);
    }
}
