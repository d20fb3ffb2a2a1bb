//! Queries of the present connection, on its snapshot.

ghost use Rattle.std.specs.Prelude.{◌≡◌, map, Ok, false};
ghost use Rattle.executor.specs.Reading.{AnswersRead};
ghost use Rattle.row_scan.specs.Rows.{values_of};
ghost use Rattle.session.specs.Stored.{ShowsDatabase};
ghost use Rattle.executor.specs.Works.{read_on};
ghost use Rattle.catalog.specs.Database.{Database};
ghost use Rattle.session.specs.SavedTables.{current_in};
ghost use Rattle.session.specs.Failing.{ReadsFiles};
ghost use Rattle.executor_programs.specs.Writes.{written};

use crate::reads::{Sight, read};
use crate::seats::Transaction;
use crate::transactions::Connections;
use disk::Disk;
use pager::Writer;
use row_scan::Rows;
use sql_syntax::Query;
use sqlval::R;
use wal::Snapshot;

impl<D: Disk + Drop> Connections<D> {
    ghost use Rattle.session.specs.Representation.{OnlyReads, RepresentsRunning, SeesNewest, StartsReading, StepsOn, is_begun, rows_reply, seen_in};
    ghost use Rattle.session.specs.Writers.{SeesBy};
    ghost use Rattle.session.specs.declared.seats.Transaction.TheVariants as transaction;
    ghost use Rattle.session.specs.Machine.{Machine};
    ghost use Rattle.sql_syntax.specs.declared.statement.Statement.TheVariants as statement;
    ghost use Rattle.session.specs.ConnectionState.{HasCauseIn, files_of};

    /// The snapshot that a statement reads on, except for the changes of its own transaction.
    pub(crate) fn snapshot(&self) -> Snapshot
        ensures { SeesBy (files_of self.now) self.now.transaction result }
    {
        match &self.transaction {
            Transaction::Idle | Transaction::Begun => self.log.begin(),
            Transaction::Reading(snapshot) => *snapshot,
            Transaction::Writing(writer) => writer.snapshot(),
        }
    }

    /// The rows of a query on what the transaction sees.
    pub(crate) fn read(&mut self, query: &Query) -> R<Rows>
        ensures cause { HasCauseIn false result self.old self.new }
        ensures reads { OnlyReads self.old self.new }
        ensures answered { (m : Machine) (db : Database) → RepresentsRunning self.old m
            → ShowsDatabase (seen_in self.old.transaction (files_of self.old)) (current_in self.old.catalog) db
            → AnswersRead (λ rows. map values_of rows.items) (read_on db query.now) result }
    {
        match &self.transaction {
            Transaction::Writing(writer) => read(
                self.alloc,
                &mut self.log,
                &mut self.buffer,
                self.catalog.current(),
                Sight::Writer(writer),
                query,
            ),
            _ => {
                let snapshot = self.snapshot();
                read(
                    self.alloc,
                    &mut self.log,
                    &mut self.buffer,
                    self.catalog.current(),
                    Sight::Snapshot(snapshot),
                    query,
                )
            }
        }
    }

    /// Whether the transaction has neither read nor written yet.
    pub(crate) fn is_begun(&self) -> bool
        ensures { result ≡ is_begun self.now.transaction }
    {
        matches!(&self.transaction, Transaction::Begun)
    }

    /// The first query of a transaction takes the snapshot.
    pub(crate) fn begin_reading(&mut self)
        ensures { StartsReading self.old self.new }
    {
        if self.is_begun() {
            self.transaction = Transaction::Reading(self.log.begin());
        }
    }

    pub(crate) fn select(&mut self, query: &Query) -> R<Rows>
        ensures cause { HasCauseIn false result self.old self.new }
        ensures reads { ReadsFiles self.old self.new }
        ensures step { StepsOn self.old (statement.Select query.now) (rows_reply result) self.new }
    {
        self.take_newest()?;
        self.select_seen(query)
    }

    /// The rows of a query, where a transaction without a snapshot sees the newest tables.
    pub(crate) fn select_seen(&mut self, query: &Query) -> R<Rows>
        ensures cause { HasCauseIn false result self.old self.new }
        ensures reads { ReadsFiles self.old self.new }
        ensures step { SeesNewest self.old → StepsOn self.old (statement.Select query.now)
            (rows_reply result) self.new }
    {
        let rows = self.read(query)?;
        self.begin_reading();
        Ok(rows)
    }
}
