//! What a connection is told of the schema, without a statement.

ghost use Rattle.std.specs.Prelude.{◌≡◌, IfErr, Ok, OnOk, false};
ghost use Rattle.sqlval.specs.Faults.{IsNotDiskFault};
ghost use Rattle.catalog.specs.Database.{Database};
ghost use Rattle.session.specs.Looking.{IsPresentIn, Looks, NamesColumnsOf, TellsAllOf};
ghost use Rattle.session.specs.Machine.{Machine};
ghost use Rattle.session.specs.SavedTables.{current_in};
ghost use Rattle.session.specs.Stored.{ShowsDatabase};
ghost use Rattle.sqlval.specs.declared.fault.Fault.TheVariants.{Memory};

use crate::reads::{Sight, read_schema};
use crate::seats::Transaction;
use crate::transactions::Connections;
use disk::Disk;
use executor_schema::column_names;
use row_scan::Rows;
use sql_syntax::Query;
use sqlval::{Name, R};

impl<D: Disk + Drop> Connections<D> {
    ghost use Rattle.session.specs.ConnectionState.{HasCauseIn, files_of, first_refusal, has_failed_in};
    ghost use Rattle.session.specs.Failing.{MarksFailure};
    ghost use Rattle.session.specs.Representation.{OnlyReads, Represents, RepresentsRunning, SeesNewest, seen_in};

    /// Makes a connection the present one; if its transaction has no snapshot yet, it sees the newest tables. (`Memory` alone.)
    fn look_from(&mut self, connection: u32) -> R<()>
        requires free { first_refusal (has_failed_in self.old) connection ≡ Ok tt }
        ensures files { files_of self.new ≡ files_of self.old }
        ensures failed { has_failed_in self.new ≡ has_failed_in self.old }
        ensures turned { (m : Machine) → Represents self.old m → IsPresentIn m connection self.new }
        ensures newest { OnOk result (SeesNewest self.new) }
        ensures refused { IfErr result (λ fault. fault ≡ Memory) }
    {
        self.switch(connection);
        self.take_newest()?;
        Ok(())
    }

    /// The rows of the schema table that the present connection sees. (`Memory`, `Io`.)
    fn schema_seen(&mut self) -> R<Rows>
        ensures cause { HasCauseIn false result self.old self.new }
        ensures reads { OnlyReads self.old self.new }
        ensures told { (m : Machine) (db : Database) → RepresentsRunning self.old m
            → ShowsDatabase (seen_in self.old.transaction (files_of self.old)) (current_in self.old.catalog) db
            → TellsAllOf result db }
    {
        match &self.transaction {
            Transaction::Writing(writer) => read_schema(
                self.alloc,
                &mut self.log,
                &mut self.buffer,
                Sight::Writer(writer),
            ),
            _ => {
                let snapshot = self.snapshot();
                read_schema(
                    self.alloc,
                    &mut self.log,
                    &mut self.buffer,
                    Sight::Snapshot(snapshot),
                )
            }
        }
    }

    /// The rows of the schema table that a connection sees which `check` doesn't refuse. A transaction takes no snapshot by it. (`Memory`,
    /// `Io`.)
    pub fn objects(&mut self, connection: u32) -> R<Rows>
        // `check` is the test.
        requires free { first_refusal (has_failed_in self.old) connection ≡ Ok tt }
        ensures cause { HasCauseIn false result self.old self.new }
        ensures marks { MarksFailure result self.old self.new }
        ensures told { Looks (TellsAllOf result) self.old connection self.new }
    {
        self.look_from(connection)?;
        self.schema_seen()
    }

    /// For each result of a query the name of its column, in small letters, on what a connection sees which `check` doesn't refuse; none of
    /// an expression without AS that is no plain column. No file is read, and a transaction takes no snapshot by it. (What the names of the query
    /// are refused for; `Memory`.)
    pub fn columns(&mut self, connection: u32, query: &Query) -> R<Vec<Option<Name>>>
        // `check` is the test.
        requires free { first_refusal (has_failed_in self.old) connection ≡ Ok tt }
        ensures files { files_of self.new ≡ files_of self.old }
        ensures failed { has_failed_in self.new ≡ has_failed_in self.old }
        ensures not_disk { IfErr result (λ fault. IsNotDiskFault fault) }
        ensures told { Looks (NamesColumnsOf query.now result) self.old connection self.new }
    {
        self.look_from(connection)?;
        column_names(self.alloc, self.catalog.current(), query)
    }
}
