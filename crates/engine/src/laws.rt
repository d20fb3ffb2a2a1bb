//! Laws of what a crash leaves.

ghost use Rattle.engine.specs.Promises.{ConvertingKeeps, CrashKeepsCommits, CrashKeepsPrepared, CrashKeepsRuns, CreatingKeeps, FailedFilesHold, HeldOnce, HoldsEarlier, OpeningKeeps, RepresentedFilesHold};

use crate::opening::Engine;
use db_pages::pages_store_one_database;
use disk::Disk;
use wal::Refused;

/// What a crash may leave only grows until the next sync: what is said of it at the end of that time is true before.
pub fn held_earlier()
    ensures { HoldsEarlier }
{}

/// The contents of two files hold one database at most.
pub fn files_hold_one_database()
    ensures { HeldOnce }
{
    pages_store_one_database();
}

/// The files of an engine that hasn't failed hold the newest committed database.
pub fn represented_files_hold<D: Disk + Drop>(_engine: &Engine<D>)
    ensures { RepresentedFilesHold _engine.now }
{}

/// The files of an engine that has failed hold, as they are, a database that was committed or that the failed commit left in doubt: opening them
/// without a crash finds it.
pub fn failed_files_hold<D: Disk + Drop>(_engine: &Engine<D>)
    ensures { FailedFilesHold _engine.now }
{}

/// Whenever a crash comes during a statement, opening what it leaves finds a database that was committed.
pub fn crash_keeps_commits<D: Disk + Drop>(_old: &Engine<D>, _new: &Engine<D>)
    ensures { CrashKeepsCommits _old.now _new.now }
{}

/// Whenever a crash comes during a run of a prepared statement, opening what it leaves finds a database that was committed.
pub fn crash_keeps_prepared<D: Disk + Drop>(_old: &Engine<D>, _new: &Engine<D>)
    ensures { CrashKeepsPrepared _old.now _new.now }
{}

/// Whenever a crash comes while lines are served, opening what it leaves finds a database that was committed.
pub fn crash_keeps_runs<D: Disk + Drop>(_old: &Engine<D>, _new: &Engine<D>)
    ensures { CrashKeepsRuns _old.now _new.now }
{}

/// Whenever a crash comes while files are opened, opening what it leaves finds the database that they held.
pub fn opening_keeps<D: Disk + Drop>(_db: &D, _log: &D, _opened: &Result<Engine<D>, Refused<D>>)
    ensures { OpeningKeeps _db.now _log.now _opened.now }
{}

/// Whenever a crash comes while a database is created, it leaves a blank database file, or opening what it leaves finds the database of no objects.
pub fn creating_keeps<D: Disk + Drop>(_page_size: u32, _db: &D, _log: &D, _new_db: &D, _new_log: &D)
    ensures { CreatingKeeps (record { tells = D.tells; file = D.file; failures = D.failures }) _page_size _db.now _log.now _new_db.now _new_log.now }
{}

/// Whenever a crash comes while a file is converted, it leaves a file that holds its database alone, or opening what it leaves finds the same.
pub fn converting_keeps<D: Disk + Drop>(_db: &D, _log: &D, _new_db: &D, _new_log: &D)
    ensures { ConvertingKeeps (record { tells = D.tells; file = D.file; failures = D.failures }) _db.now _log.now _new_db.now _new_log.now }
{}
