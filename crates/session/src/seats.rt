//! The seats of an engine's connections, each with its transaction and the tables of it.

ghost use Rattle.std.specs.Prelude.{◌≡◌, ◌<◌, Some, length, IfErr, IfOk};
ghost use Rattle.std.specs.List.{AllByRecursion, list_any};
ghost use Rattle.sqlval.specs.declared.fault.Fault.TheVariants.{Memory};
ghost use Rattle.pager.specs.Marks.{marks_of};
ghost use Rattle.session.specs.Seats.{IsIdleSeat, IsLeast, Trades, holds_snapshot, holds_writer, snapshot_in, IsFewer};

use crate::marks::{go_back, let_go};
use crate::savepoints::SavedCatalogs;
use catalog::Catalog;
use pager::Writer;
use sqlval::R;
use std::alloc::Global;
use std::mem;
use std::rc::Rc;
use wal::Snapshot;

/// How many connections there are.
const CONNECTIONS: usize = 16;

/// The state of a transaction.
#[derive(Drop)]
pub enum Transaction {
    /// No transaction.
    Idle,
    /// After BEGIN, with nothing read or written yet.
    Begun,
    Reading(Snapshot),
    Writing(Writer),
}

impl Transaction {
    ghost use Rattle.session.specs.Saving.{GoesBackToMark, OnWriter, ReleasesMarks};

    /// Goes back to a mark of its writer, where it has written; the mark stays.
    pub fn back_to(&mut self, place: usize)
        ensures { OnWriter (λ old new. place < length (marks_of old) → GoesBackToMark place old new)
            self.old self.new }
    {
        if let Transaction::Writing(writer) = self {
            go_back(writer, place);
        }
    }

    /// Lets go of a mark of its writer and of those set after it, where it has written.
    pub fn release(&mut self, place: usize)
        ensures { OnWriter (λ old new. place < length (marks_of old) → ReleasesMarks place old new)
            self.old self.new }
    {
        if let Transaction::Writing(writer) = self {
            let_go(writer, place);
        }
    }
}

/// A connection: its transaction, and the tables that this sees.
#[derive(Drop)]
pub struct Seat {
    pub transaction: Transaction,
    pub catalog: SavedCatalogs,
}

impl Seat {
    /// Whether its transaction has the write right.
    fn holds_writer(&self) -> bool
        ensures { result ≡ holds_writer self.now }
    {
        matches!(&self.transaction, Transaction::Writing(_))
    }

    /// Whether its transaction sees a snapshot.
    fn holds_snapshot(&self) -> bool
        ensures { result ≡ holds_snapshot self.now }
    {
        matches!(
            &self.transaction,
            Transaction::Reading(_) | Transaction::Writing(_)
        )
    }

    /// The snapshot that its transaction sees.
    fn snapshot(&self) -> Option<Snapshot>
        ensures { result ≡ snapshot_in self.now.transaction }
    {
        match &self.transaction {
            Transaction::Idle | Transaction::Begun => None,
            Transaction::Reading(snapshot) => Some(*snapshot),
            Transaction::Writing(writer) => Some(writer.snapshot()),
        }
    }

    /// Trades its transaction and its tables for these.
    fn trade(&mut self, transaction: &mut Transaction, catalog: &mut SavedCatalogs)
        ensures out { (transaction.new ≡ self.old.transaction) × (catalog.new ≡ self.old.catalog) }
        ensures now { self.new ≡ record { transaction = transaction.old; catalog = catalog.old } }
    {
        mem::swap(&mut self.transaction, transaction);
        mem::swap(&mut self.catalog, catalog);
    }

    /// Drops its transaction, if any.
    fn give_up(&mut self)
        ensures { IsIdleSeat self.new }
    {
        self.catalog.rollback();
        self.transaction = Transaction::Idle;
    }
}

/// Trades the transaction and the tables of the seat at a place for these, where there is one.
pub fn trade(
    seats: &mut Vec<Seat>,
    place: usize,
    transaction: &mut Transaction,
    catalog: &mut SavedCatalogs,
)
    ensures { Trades place seats.old.items (record
        { transaction = transaction.old; catalog = catalog.old }) seats.new.items
        (record { transaction = transaction.new; catalog = catalog.new }) }
{
    if place < seats.len() {
        seats[place].trade(transaction, catalog);
    }
}

/// Whether a seat has the write right.
pub fn any_holds_writer(seats: &[Seat]) -> bool
    ensures { result ≡ list_any holds_writer seats.now }
{
    seats.iter().any(|seat| seat.holds_writer())
}

/// Whether the transaction of a seat sees a snapshot.
pub fn any_holds_snapshot(seats: &[Seat]) -> bool
    ensures { result ≡ list_any holds_snapshot seats.now }
{
    seats.iter().any(|seat| seat.holds_snapshot())
}

/// That of two snapshots which sees fewer frames, or the second.
fn fewer_of(own: Snapshot, other: Snapshot) -> Snapshot
    ensures { IsFewer (Some own) other result }
{
    if own.mark() < other.mark() {
        own
    } else {
        other
    }
}

/// The same where the first may be missing.
fn fewer(own: Option<Snapshot>, other: Snapshot) -> Snapshot
    ensures { IsFewer own other result }
{
    match own {
        Some(snapshot) => fewer_of(snapshot, other),
        None => other,
    }
}

/// Of the snapshots of these seats, and the newest, one that sees the fewest frames.
pub fn least_snapshot(seats: &[Seat], newest: Snapshot) -> Snapshot
    ensures { IsLeast seats.now newest result }
{
    match seats.split_first() {
        None => newest,
        Some((seat, rest)) => fewer(seat.snapshot(), least_snapshot(rest, newest)),
    }
}

/// Drops the transactions of all seats.
pub fn give_up_seats(seats: &mut Vec<Seat>)
    ensures idle { AllByRecursion IsIdleSeat seats.new.items }
    ensures count { length seats.new.items ≡ length seats.old.items }
{
    'seats: for seat in seats.iter_mut() {
        seat.give_up();
    }
}

/// Seats without transactions, which share these tables. (`Memory` alone.)
fn idle_seats(alloc: Global, tables: &Rc<Catalog>) -> R<Vec<Seat>>
    ensures idle { IfOk result (λ seats. AllByRecursion IsIdleSeat seats.items) }
    ensures count { IfOk result (λ seats. length seats.items ≡ 16) }
    ensures refused { IfErr result (λ fault. fault ≡ Memory) }
{
    let mut seats = Vec::new(alloc);
    'seats: for _ in 0..CONNECTIONS {
        seats.push(Seat {
            transaction: Transaction::Idle,
            catalog: SavedCatalogs::new(alloc, tables.clone()?),
        })?;
    }
    Ok(seats)
}

/// The seats of the sixteen connections of a database that is opened, and its tables.
#[derive(Drop)]
pub struct Seats {
    /// The tables of the newest commit.
    pub(crate) newest: Rc<Catalog>,
    /// Those of the first connection.
    pub(crate) catalog: SavedCatalogs,
    /// The others'; at the place of the first stands an idle one.
    pub(crate) parked: Vec<Seat>,
}

impl Seats {
    ghost use Rattle.session.specs.Seats.{AreFresh, catalog_in};

    /// Sixteen idle connections of a database of these tables. (`Memory` alone.)
    pub fn new(alloc: Global, tables: Catalog) -> R<Seats>
        ensures fresh { IfOk result AreFresh }
        ensures tables { IfOk result (λ seats. catalog_in seats ≡ tables) }
        ensures refused { IfErr result (λ fault. fault ≡ Memory) }
    {
        let newest = Rc::new(alloc, tables)?;
        let catalog = SavedCatalogs::new(alloc, newest.clone()?);
        let parked = idle_seats(alloc, &newest)?;
        Ok(Seats {
            newest,
            catalog,
            parked,
        })
    }
}
