//! Opening the database file and its log.

use crate::arguments::ShellOptions;
use crate::watched::{Progress, Watched};
use disk_cache::CachedDisk;
use disk_file::{FileDisk, file_len, sync_folder};
use engine::{Engine, Refused, convert, create};
use sqlval::{Fault, R};
use std::alloc::Global;
use std::fs::File;
use std::rt::Files;

/// How many pages of each file are kept in memory at most.
const KEPT_PAGES: usize = 1024;

/// A file whose pages are read once, as long as they are kept.
pub type PageFile<'a, F> = CachedDisk<Watched<'a, FileDisk, F>>;

/// Opens a file, which is created where it doesn't exist.
fn open_file<'a, F: Files<File = File> + Eprint>(
    files: &'a F,
    alloc: Global,
    progress: &Progress,
    name: &str,
) -> R<PageFile<'a, F>> {
    let disk = FileDisk::open(files, name)?;
    let watched = Watched::new(disk, progress.share()?, files);
    Ok(CachedDisk::new(alloc, watched, KEPT_PAGES))
}

/// The name of the log of a database file.
pub fn log_name(alloc: Global, name: &str) -> R<String> {
    Ok(format!(in alloc; "{name}-wal")?)
}

/// Opens the database file and its log, which are created where they don't exist. Then their folder is synced, so that no crash loses a
/// name.
fn open_files<'a, F: Files<File = File> + Eprint>(
    files: &'a F,
    alloc: Global,
    progress: &Progress,
    name: &str,
) -> R<(PageFile<'a, F>, PageFile<'a, F>)> {
    let log = log_name(alloc, name)?;
    let db = open_file(files, alloc, progress, name)?;
    let log = open_file(files, alloc, progress, log.as_str())?;
    sync_folder(files, name)?;
    Ok((db, log))
}

/// Turns the database file into one in WAL mode, where it is of the older kind and has no journal beside it.
fn convert_files<'a, F: Files<File = File> + Eprint>(
    files: &'a F,
    alloc: Global,
    opened: (PageFile<'a, F>, PageFile<'a, F>),
    name: &str,
) -> R<(PageFile<'a, F>, PageFile<'a, F>)> {
    let (mut db, mut log) = opened;
    let journal_name = format!(in alloc; "{name}-journal")?;
    let journal = file_len(files, journal_name.as_str())?;
    convert(alloc, &mut db, &mut log, journal)?;
    Ok((db, log))
}

/// Opens the database of these files, which is created if the database file is blank.
fn open_or_create<'a, F: Eprint>(
    alloc: Global,
    files: (PageFile<'a, F>, PageFile<'a, F>),
    options: &ShellOptions<'_>,
) -> R<Engine<PageFile<'a, F>>> {
    let (db, log) = files;
    let Refused { fault, db, log } = match Engine::open(alloc, db, log, options.salts) {
        Ok(engine) => return Ok(engine),
        Err(refused) => refused,
    };
    let Fault::Blank = fault else {
        return Err(fault);
    };
    let mut db = db;
    let mut log = log;
    create(alloc, &mut db, &mut log, options.page_size)?;
    match Engine::open(alloc, db, log, options.salts) {
        Ok(engine) => Ok(engine),
        Err(
            Refused {
                fault,
                db: _,
                log: _,
            },
        ) => Err(fault),
    }
}

/// Opens the database that the options name.
pub fn open<'a, F: Files<File = File> + Eprint>(
    files: &'a F,
    alloc: Global,
    progress: &Progress,
    options: &ShellOptions<'_>,
) -> R<Engine<PageFile<'a, F>>> {
    let opened = open_files(files, alloc, progress, options.name)?;
    if !options.convert {
        return open_or_create(alloc, opened, options);
    }
    let converted = convert_files(files, alloc, opened, options.name)?;
    open_or_create(alloc, converted, options)
}
