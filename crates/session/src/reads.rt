//! The reading of queries, and of the schema: on a snapshot, or with the changes of a writer.

ghost use Rattle.std.specs.Prelude.{◌≡◌, ◌≤◌, map, false};
ghost use Rattle.catalog.specs.Database.{Database};
ghost use Rattle.catalog.specs.Listed.{Listed, listed_in};
ghost use Rattle.pager.specs.Views.{Tells, view_at, view_of};
ghost use Rattle.row_scan.specs.Rows.{values_of};
ghost use Rattle.wal.specs.LogState.{state_of, seen_by};
ghost use Rattle.executor.specs.Reading.{AnswersRead};
ghost use Rattle.executor.specs.Works.{read_on};
ghost use Rattle.session.specs.ConnectionState.{HasCause};
ghost use Rattle.session.specs.Looking.{TellsAllOf};
ghost use Rattle.session.specs.Reading.{IsSightOf, view_by};
ghost use Rattle.session.specs.Representation.{ShowTheSame};
ghost use Rattle.session.specs.Writers.{IsWriter};
ghost use Rattle.session.specs.Stored.{ShowsDatabase};

use catalog::Catalog;
use disk::Disk;
use executor_schema::schema_rows;
use pager::{Reading, Viewing, Writer};
use row_scan::Rows;
use sql_syntax::Query;
use sqlval::R;
use std::alloc::Global;
use wal::{Log, Snapshot};

/// What a query reads.
#[derive(Clone, Copy)]
pub enum Sight<'a> {
    Snapshot(Snapshot),
    /// A writer's changes, and its snapshot below them.
    Writer(&'a Writer),
}

/// The rows of a query on a snapshot.
fn read_snapshot<D: Disk + Drop>(
    alloc: Global,
    log: &mut Log<D>,
    buffer: &mut Vec<u8>,
    catalog: &Catalog,
    snapshot: Snapshot,
    query: &Query,
) -> R<Rows>
    ensures cause { HasCause false result log.old log.new }
    ensures same { Tells log.old → ShowTheSame log.old log.new }
    ensures answered { (db : Database) → Tells log.old
        → seen_by snapshot ≤ (state_of log.old).frames
        → ShowsDatabase (view_at log.old snapshot) (listed_in catalog.now) db
        → AnswersRead (λ rows. map values_of rows.items) (read_on db query.now) result }
{
    let mut pages = Reading {
        log,
        snapshot,
        buffer,
    };
    executor::read(alloc, &mut pages, catalog, query)
}

/// The rows of a query as a writer sees them.
fn read_changes<D: Disk + Drop>(
    alloc: Global,
    log: &mut Log<D>,
    buffer: &mut Vec<u8>,
    catalog: &Catalog,
    writer: &Writer,
    query: &Query,
) -> R<Rows>
    ensures cause { HasCause false result log.old log.new }
    ensures same { Tells log.old → ShowTheSame log.old log.new }
    ensures answered { (db : Database) → Tells log.old → IsWriter log.old writer.now
        → ShowsDatabase (view_of log.old writer.now) (listed_in catalog.now) db
        → AnswersRead (λ rows. map values_of rows.items) (read_on db query.now) result }
{
    let mut pages = Viewing {
        log,
        writer,
        buffer,
        place: None,
    };
    executor::read(alloc, &mut pages, catalog, query)
}

/// The rows of the schema table on a snapshot.
fn read_schema_of_snapshot<D: Disk + Drop>(
    alloc: Global,
    log: &mut Log<D>,
    buffer: &mut Vec<u8>,
    snapshot: Snapshot,
) -> R<Rows>
    ensures cause { HasCause false result log.old log.new }
    ensures same { Tells log.old → ShowTheSame log.old log.new }
    ensures told { (tables : Listed) (db : Database) → Tells log.old
        → seen_by snapshot ≤ (state_of log.old).frames
        → ShowsDatabase (view_at log.old snapshot) tables db
        → TellsAllOf result db }
{
    let mut pages = Reading {
        log,
        snapshot,
        buffer,
    };
    schema_rows(alloc, &mut pages)
}

/// The rows of the schema table as a writer sees them.
fn read_schema_of_changes<D: Disk + Drop>(
    alloc: Global,
    log: &mut Log<D>,
    buffer: &mut Vec<u8>,
    writer: &Writer,
) -> R<Rows>
    ensures cause { HasCause false result log.old log.new }
    ensures same { Tells log.old → ShowTheSame log.old log.new }
    ensures told { (tables : Listed) (db : Database) → Tells log.old → IsWriter log.old writer.now
        → ShowsDatabase (view_of log.old writer.now) tables db
        → TellsAllOf result db }
{
    let mut pages = Viewing {
        log,
        writer,
        buffer,
        place: None,
    };
    schema_rows(alloc, &mut pages)
}

/// The rows of the schema table.
pub fn read_schema<D: Disk + Drop>(
    alloc: Global,
    log: &mut Log<D>,
    buffer: &mut Vec<u8>,
    sight: Sight<'_>,
) -> R<Rows>
    ensures cause { HasCause false result log.old log.new }
    ensures same { Tells log.old → ShowTheSame log.old log.new }
    ensures told { (tables : Listed) (db : Database) → Tells log.old → IsSightOf log.old sight.entry
        → ShowsDatabase (view_by log.old sight.entry) tables db
        → TellsAllOf result db }
{
    match sight {
        Sight::Snapshot(snapshot) => read_schema_of_snapshot(alloc, log, buffer, snapshot),
        Sight::Writer(writer) => read_schema_of_changes(alloc, log, buffer, writer),
    }
}

/// The rows of a query.
pub fn read<D: Disk + Drop>(
    alloc: Global,
    log: &mut Log<D>,
    buffer: &mut Vec<u8>,
    catalog: &Catalog,
    sight: Sight<'_>,
    query: &Query,
) -> R<Rows>
    ensures cause { HasCause false result log.old log.new }
    ensures same { Tells log.old → ShowTheSame log.old log.new }
    ensures answered { (db : Database) → Tells log.old → IsSightOf log.old sight.entry
        → ShowsDatabase (view_by log.old sight.entry) (listed_in catalog.now) db
        → AnswersRead (λ rows. map values_of rows.items) (read_on db query.now) result }
{
    match sight {
        Sight::Snapshot(snapshot) => read_snapshot(alloc, log, buffer, catalog, snapshot, query),
        Sight::Writer(writer) => read_changes(alloc, log, buffer, catalog, writer, query),
    }
}
