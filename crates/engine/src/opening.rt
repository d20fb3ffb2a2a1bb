//! Opening a database file with its log.

ghost use Rattle.std.specs.Prelude.{◌≡◌, ◌⊎◌, List, length, Ok, Err, IfOk, IfErr, OnOk, MatchResult, IsTrue, IsFalse, true, false};
ghost use Rattle.db_header.specs.Header.{IsHeader};
ghost use Rattle.sqlval.specs.Faults.{IsOrOutside, IsOutside};
ghost use Rattle.db_header.specs.declared.fields.Header.{Header as FileHeader};
ghost use Rattle.catalog.specs.Database.{Database};
ghost use Rattle.catalog.specs.Listed.{Listed};
ghost use Rattle.pager.specs.Views.{Tells, newest_view};
ghost use Rattle.pager.specs.Maps.{pages_in};
ghost use Rattle.session.specs.Holding.{IsFound, IsSettled};
ghost use Rattle.session.specs.Stored.{ShowsDatabase};
ghost use Rattle.db_load.specs.Loading.{FindsDatabase, IsLoadFault};
ghost use Rattle.disk.specs.File.{IsContentLeft, IsSynced, Throughout};
ghost use Rattle.wal_frame.specs.Accepted.{KeepsFile};
ghost use Rattle.wal.specs.LogState.{db_of, state_of, log_of};
ghost use Rattle.session.specs.ConnectionState.{HasCause};
ghost use Rattle.pager_older.specs.Counting.{CountsIo};
ghost use Rattle.engine.specs.Creating.{is_blank_content};
ghost use Rattle.engine.specs.Opening.{HasPageSize, IsCutTo, IsOpenFault, KeepsFiles, KeepsFilesBut, LeavesOpened, ReadsHeader, StartsWith, TellsBlank};
ghost use Rattle.sqlval.specs.declared.fault.Fault.TheVariants.{Io};
ghost use Rattle.disk.specs.Calls.{Rose};
ghost use Rattle.session.specs.Seats.{AreFresh, catalog_in};

use crate::creating::is_blank;
use crate::prepared::{Prepared, prepare, read_query};
use catalog::Catalog;
use db_header::Header;
use db_load::load;
use db_pages::pages_store_one_database;
use disk::Disk;
use pager::Reading;
use row_scan::Rows;
use session::{Connections, Seats};
use sql_bound::bound;
use sql_parser::{parse, release};
use sqlval::limits::DATABASE_HEADER_LEN;
use sqlval::{Fault, Feature, Misuse, Name, R, Value};
use std::alloc::Global;
use wal::{Log, Refused, Synced, sync_both};
use wal_frame::Salts;

/// An open database.
#[derive(Drop)]
pub struct Engine<D: Disk + Drop> {
    alloc: Global,
    connections: Connections<D>,
}

/// The header of a database file.
fn file_header<D: Disk>(db: &mut D) -> R<Header>
    ensures kept { KeepsFile D.tells D.file db.old db.new }
    ensures found { IsTrue (D.tells db.old) → IfOk result (λ header. IsHeader (D.file db.old).content header) }
    ensures read { (head : FileHeader) → IsTrue (D.tells db.old)
        → IsHeader (D.file db.old).content head → ReadsHeader head result }
    ensures counted { CountsIo result (D.failures db.old) (D.failures db.new) }
    ensures blank { IsTrue (D.tells db.old)
        → MatchResult result (λ _. is_blank_content (D.file db.old).content ≡ true → ⊥)
        (TellsBlank (D.file db.old).content) }
    ensures refused { IfErr result IsOpenFault }
{
    if is_blank(db)? {
        return Err(Fault::Blank);
    }
    if db.len()? < DATABASE_HEADER_LEN as u64 {
        return Err(Fault::NotADatabase);
    }
    let mut front = [0u8; DATABASE_HEADER_LEN];
    db.read_at(0, &mut front)?;
    db_header::read(&front)
}

/// Loads the tables of the newest snapshot. (What `load` refuses.)
fn load_files<D: Disk + Drop>(alloc: Global, log: &mut Log<D>) -> R<Catalog>
    ensures kept { KeepsFiles log.old log.new }
    // The tables of files that hold a database are loaded, unless memory runs out or a disk's call fails.
    ensures listed { (tables : Listed) (database : Database) → Tells log.old
        → ShowsDatabase (newest_view log.old) tables database
        → IsFound (newest_view log.old) → IfErr result IsOutside }
    // Tables are loaded only of a database that the newest view holds.
    ensures found { Tells log.old → IfOk result
        (FindsDatabase (pages_in (newest_view log.old)) (newest_view log.old).page_size) }
    ensures cause { HasCause false result log.old log.new }
    ensures refused { IfErr result IsLoadFault }
{
    let snapshot = log.begin();
    let size = log.size(snapshot);
    let mut buffer = Vec::new(alloc);
    let mut pages = Reading {
        log,
        snapshot,
        buffer: &mut buffer,
    };
    load(alloc, &mut pages, size)
}

/// Loads the tables of the newest snapshot, and makes the seats of the connections. (What `load` refuses.)
fn load_seats<D: Disk + Drop>(alloc: Global, log: &mut Log<D>) -> R<Seats>
    ensures kept { KeepsFiles log.old log.new }
    ensures listed { (tables : Listed) (database : Database) → Tells log.old
        → ShowsDatabase (newest_view log.old) tables database
        → IsFound (newest_view log.old) → IfErr result IsOutside }
    ensures found { Tells log.old
        → IfOk result (λ seats. FindsDatabase (pages_in (newest_view log.old))
        (newest_view log.old).page_size (catalog_in seats)) }
    ensures fresh { IfOk result AreFresh }
    ensures cause { HasCause false result log.old log.new }
    ensures refused { IfErr result IsLoadFault }
{
    let catalog = load_files(alloc, log)?;
    Seats::new(alloc, catalog)
}

/// Loads the tables of the newest snapshot, then truncates the log after its last committed frame.
fn load_and_truncate<D: Disk + Drop>(alloc: Global, log: &mut Log<D>) -> R<Seats>
    ensures crash { IsFalse (state_of log.old).has_failed
        → HasPageSize (D.file (db_of log.old)).content (state_of log.old).page_size
        → IsTrue (D.tells (db_of log.old)) → IsTrue (D.tells (log_of log.old))
        → IsSynced (D.file (db_of log.old))
        → IsSynced (D.file (log_of log.old))
        → Throughout (LeavesOpened (D.file (db_of log.old)) (D.file (log_of log.old)))
        (D.file (db_of log.old)) (D.file (log_of log.old)) (D.file (db_of log.new)) (D.file (log_of log.new)) }
    ensures cut { OnOk result ((state_of log.new ≡ state_of log.old)
        × (IsTrue (D.tells (log_of log.old))
        → IsCutTo (state_of log.old) (D.file (log_of log.old)).content (D.file (log_of log.new)).content)) }
    ensures left { IsFalse (state_of log.old).has_failed → IsTrue (D.tells (db_of log.old))
        → IsTrue (D.tells (log_of log.old))
        → IsContentLeft (D.file (db_of log.old)) → IsContentLeft (D.file (log_of log.old))
        → IsContentLeft (D.file (db_of log.new)) × IsContentLeft (D.file (log_of log.new)) }
    ensures kept { IsTrue (D.tells (db_of log.old)) → IsTrue (D.tells (log_of log.old))
        → IfErr result (KeepsFilesBut Io (D.file (db_of log.old)) (D.file (log_of log.old))
        (D.file (db_of log.new)) (D.file (log_of log.new))) }
    // Tables are loaded only of a database that the newest view holds.
    ensures found { Tells log.old
        → IfOk result (λ seats. FindsDatabase (pages_in (newest_view log.old))
        (newest_view log.old).page_size (catalog_in seats)) }
    // Of settled files that hold a database the catalog lists its tables, and the files stay settled.
    ensures opens { (tables : Listed) (database : Database) → Tells log.old → IsSettled log.old
        → ShowsDatabase (newest_view log.old) tables database
        → IsOrOutside (StartsWith database log.new) result }
    ensures cause { HasCause false result log.old log.new }
    ensures refused { IsFalse (state_of log.old).has_failed → IfErr result IsLoadFault }
{
    pages_store_one_database();
    let seats = load_seats(alloc, log)?;
    log.cut_tail()?;
    Ok(seats)
}

impl<D: Disk + Drop> Engine<D> {
    ghost use Rattle.session.specs.ConnectionState.{IsNoConnection};
    ghost use Rattle.engine.specs.EngineState.{db_disk, has_failed_of, log_disk};
    ghost use Rattle.engine.specs.Failing.{CountsFailures, HasFullCause, KeepsDisksOfText};
    ghost use Rattle.session.specs.Holding.{Hold, LeaveHeld};
    ghost use Rattle.engine.specs.Opening.{HoldsMeanwhile, IsOpenOf, IsOpenedFrom, IsRefusedOpen, db_left, log_left};
    ghost use Rattle.engine.specs.Serving.{GivesUp};
    ghost use Rattle.engine.specs.Looking.{LooksFrom, NamesByText};
    ghost use Rattle.engine.specs.Representation.{StepsByText, files_in};
    ghost use Rattle.session.specs.Limits.{may_be_full};
    ghost use Rattle.session.specs.Looking.{TellsAllOf};
    ghost use Rattle.session.specs.Representation.{rows_reply};
    ghost use Rattle.engine.specs.Preparing.{IsPrepared, StepsBound, TakesValues, parameters_in, statement_in};
    ghost use Rattle.sql_grammar.specs.Texts.{IsStatementText};
    ghost use Rattle.sql_parser.specs.Refusals.{IsTextRefusal};
    ghost use Rattle.sql_syntax.specs.declared.statement.Statement.{Statement as Parsed};

    /// Opens a database: syncs both files, checks them, each page of the database among them, and cuts the log to its
    /// committed frames. A log that has no valid
    /// header gets one with these salts at the first commit. Refusals give the files back, with no byte changed except for `Io`
    /// in the cut: `Blank`, `NotADatabase`, `Unsupported`, `Damaged`, `Io`, `Memory`.
    pub fn open(alloc: Global, db: D, log: D, salts: Salts) -> Result<Engine<D>, Refused<D>>
        // A crash leaves what was there before, or what was read of it; or the database file that was read, with a log of the same commits.
        ensures crash { IsTrue (D.tells db) → IsTrue (D.tells log)
            → Throughout (LeavesOpened (D.file db) (D.file log)) (D.file db) (D.file log)
            (D.file (db_left result)) (D.file (log_left result)) }
        // Files that hold a database, as a crash left them, hold it at each moment.
        ensures holds { HoldsMeanwhile db log result }
        // What is in the files then, also where a call failed, a crash may leave.
        ensures left { IsTrue (D.tells db) → IsTrue (D.tells log) → IsContentLeft (D.file db)
            → IsContentLeft (D.file log)
            → IsContentLeft (D.file (db_left result)) × IsContentLeft (D.file (log_left result)) }
        ensures opened { IfOk result (IsOpenedFrom db log salts) }
        ensures refused { IfErr result (IsRefusedOpen D.tells D.file D.failures db log) }
        // Files that hold a database are opened with it and 16 idle connections, unless memory runs out or a disk's call fails.
        ensures opens { IsOpenOf db log result }
    {
        let files = sync_both(db, log)?;
        let Synced { db, log } = files;
        let mut db = db;
        let header = match file_header(&mut db) {
            Ok(header) => header,
            Err(fault) => return Err(Refused { fault, db, log }),
        };
        let mut log = Log::open(
            alloc,
            Synced { db, log },
            header.page_size,
            header.counted_size(),
            salts,
        )?;
        match load_and_truncate(alloc, &mut log) {
            Ok(seats) => Ok(Engine {
                alloc,
                connections: Connections::new(alloc, log, seats),
            }),
            Err(fault) => {
                let (db, log) = log.into_disks();
                Err(Refused { fault, db, log })
            }
        }
    }

    /// Gives the two disks back. Open transactions are dropped.
    pub fn into_disks(self) -> (D, D)
        ensures db { result.0 ≡ db_disk self }
        ensures log { result.1 ≡ log_disk self }
    {
        let Engine {
            alloc: _,
            connections,
        } = self;
        connections.into_disks()
    }

    /// Executes a statement on a connection, 1 to 16. A refused one changes nothing, except that RAISE(ROLLBACK) ends the connection's
    /// transaction, and that `Io` of a commit or a checkpoint may mark the engine as failed: then every statement answers `Failed`.
    pub fn execute(&mut self, connection: u32, text: &str) -> R<Rows>
        // Once a commit or a checkpoint has failed so, every statement is refused, and nothing changes any more.
        ensures failed { IsTrue (has_failed_of self.old) → (result ≡ Err Fault.Failed)
            × (self.new ≡ self.old) }
        ensures numbered { IsFalse (has_failed_of self.old) → IsNoConnection connection
            → (result ≡ Err (Fault.Misuse Misuse.Connection)) × (self.new ≡ self.old) }
        // What the counts of the two disks' failed calls say of the answer, and of the mark of a failed engine.
        ensures counted { CountsFailures result self.old self.new }
        // What only reads, begins or rolls back is never refused as `Full`, and a COMMIT, or a RELEASE that commits, only past the limits.
        ensures full { HasFullCause self.old connection text.now result }
        // A checkpoint that finds no memory leaves both disks as they were.
        ensures early { KeepsDisksOfText self.old text.now result self.new }
        // The reply to the text is a step of each machine that was represented, and the machine after it is represented then.
        ensures step { StepsByText self.old connection text.now (rows_reply result) self.new }
    {
        self.connections.check(connection)?;
        let statement = parse(self.alloc, text)?;
        let rows = self.connections.execute(connection, &statement);
        release(statement);
        rows
    }

    /// Reads a query or a change of rows, to be run with values: a place for one is the quoted name `"?1"`, `"?2"` and so on. (What `execute`
    /// refuses of the text; `Unsupported(StatementForm)` for other statements.)
    pub fn prepare(&self, text: &str) -> R<Prepared>
        ensures is { IfOk result (IsPrepared text.now) }
        ensures refused { IfErr result (λ fault. IsTextRefusal text.now fault
            ⊎ ((fault ≡ Fault.Unsupported Feature.StatementForm)
            × ((statement : Parsed) → IsStatementText text.now statement → TakesValues statement → ⊥))) }
    {
        prepare(self.alloc, text)
    }

    /// Executes a statement that was prepared, with these values in their places, on a connection, 1 to 16. (`Misuse(Count)` where these aren't
    /// as many as there are places; else as `execute`.)
    pub fn run_prepared(
        &mut self,
        connection: u32,
        prepared: &Prepared,
        values: &[Value],
    ) -> R<Rows>
        ensures failed { IsTrue (has_failed_of self.old) → (result ≡ Err Fault.Failed)
            × (self.new ≡ self.old) }
        ensures numbered { IsFalse (has_failed_of self.old) → IsNoConnection connection
            → (result ≡ Err (Fault.Misuse Misuse.Connection)) × (self.new ≡ self.old) }
        // As many values are wanted as there are places.
        ensures placed { IsFalse (has_failed_of self.old) → (IsNoConnection connection → ⊥)
            → (length values.now ≡ parameters_in prepared.now → ⊥)
            → (result ≡ Err (Fault.Misuse Misuse.Count)) × (self.new ≡ self.old) }
        ensures counted { CountsFailures result self.old self.new }
        // What only reads is never refused as `Full`.
        ensures full { result ≡ Err Fault.Full → IsTrue (may_be_full (statement_in prepared.now)) }
        // The reply is a step of each machine that was represented, by the statement with these values in their places.
        ensures step { IsFalse (has_failed_of self.old) → (IsNoConnection connection → ⊥)
            → length values.now ≡ parameters_in prepared.now
            → StepsBound self.old connection (statement_in prepared.now) values.now (rows_reply result) self.new }
    {
        self.connections.check(connection)?;
        if values.len() != prepared.count() {
            return Err(Fault::Misuse(Misuse::Count));
        }
        let Some(statement) = bound(self.alloc, &prepared.statement, values)? else {
            return Err(Fault::Unsupported(Feature::StatementForm));
        };
        let reply = self.connections.execute(connection, &statement);
        release(statement);
        reply
    }

    /// The rows of the schema table that a connection, 1 to 16, sees: of each table, index, view and trigger its kind, its name, that of its table
    /// or view, the page where its tree begins (0 where it has none), and its text (NULL of an automatic index). No transaction takes a
    /// snapshot by it. (`Memory`, `Io`.)
    pub fn objects(&mut self, connection: u32) -> R<Rows>
        ensures failed { IsTrue (has_failed_of self.old) → (result ≡ Err Fault.Failed)
            × (self.new ≡ self.old) }
        ensures numbered { IsFalse (has_failed_of self.old) → IsNoConnection connection
            → (result ≡ Err (Fault.Misuse Misuse.Connection)) × (self.new ≡ self.old) }
        ensures counted { CountsFailures result self.old self.new }
        // Each row tells one object of the database that the connection sees, and each object is told by one.
        ensures told { IsFalse (has_failed_of self.old) → (IsNoConnection connection → ⊥)
            → LooksFrom (TellsAllOf result) self.old connection self.new }
    {
        self.connections.check(connection)?;
        self.connections.objects(connection)
    }

    /// For each result of a query the name of its column, in small letters, on what a connection, 1 to 16, sees: that after AS, or a plain
    /// column's; none of another expression. No file is read. (What `execute` refuses of the text or its names;
    /// `Unsupported(StatementForm)` for another statement.)
    pub fn columns(&mut self, connection: u32, text: &str) -> R<Vec<Option<Name>>>
        ensures failed { IsTrue (has_failed_of self.old) → (result ≡ Err Fault.Failed)
            × (self.new ≡ self.old) }
        ensures numbered { IsFalse (has_failed_of self.old) → IsNoConnection connection
            → (result ≡ Err (Fault.Misuse Misuse.Connection)) × (self.new ≡ self.old) }
        ensures files { files_in self.new ≡ files_in self.old }
        ensures told { IsFalse (has_failed_of self.old) → (IsNoConnection connection → ⊥)
            → NamesByText text.now result self.old connection self.new }
    {
        self.connections.check(connection)?;
        let query = read_query(self.alloc, text)?;
        let names = self.connections.columns(connection, &query);
        drop(query);
        names
    }

    /// Whether a commit or a checkpoint has failed, so that the files must be opened again.
    pub(crate) fn has_failed(&self) -> bool
        ensures { result ≡ has_failed_of self.now }
    {
        self.connections.has_failed()
    }

    /// Drops the open transactions.
    pub(crate) fn give_up(&mut self)
        ensures { GivesUp self.old self.new }
    {
        self.connections.give_up_all();
    }

    pub(crate) fn allocator(&self) -> Global {
        self.alloc
    }
}
