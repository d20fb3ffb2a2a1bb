//! The program over given arguments, input and output.

use disk_cache::CachedDisk;
use disk_file::{FileDisk, file_len, sync_folder};
use engine::{Engine, Refused, Rows, convert, create, put_reply};
use messages::put_message;
use sqlval::{Fault, R};
use std::alloc::Global;
use std::fs::File;
use std::io::{BufRead, Write};
use std::rt::Files;
use walsql_args::{ArgsError, StartOptions, settings};

/// Exit status at the end of input.
const SUCCESS: u8 = 0;

/// Exit status if the database can't be opened or created, or if memory, input or output fails.
const REFUSED: u8 = 1;

/// Exit status for bad arguments.
const MISUSED: u8 = 2;

/// How many pages of each file are kept in memory at most.
const KEPT_PAGES: usize = 1024;

/// A file whose pages are read once, as long as they are kept.
type PageFile = CachedDisk<FileDisk>;

/// Opens a file, which is created where it doesn't exist.
fn open_file<F: Files<File = File>>(files: &F, alloc: Global, name: &str) -> R<PageFile> {
    let disk = FileDisk::open(files, name)?;
    Ok(CachedDisk::new(alloc, disk, KEPT_PAGES))
}

/// Opens the database file and its log, which are created where they don't exist. Then their folder is synced, so that no crash loses a name.
fn open_files<F: Files<File = File>>(
    files: &F,
    alloc: Global,
    name: &str,
) -> R<(PageFile, PageFile)> {
    let log_name = format!(in alloc; "{name}-wal")?;
    let db = open_file(files, alloc, name)?;
    let log = open_file(files, alloc, log_name.as_str())?;
    sync_folder(files, name)?;
    Ok((db, log))
}

/// Opens the database of these files, which is created if the database file is blank.
fn open_or_create(
    alloc: Global,
    files: (PageFile, PageFile),
    options: &StartOptions<'_>,
) -> R<Engine<PageFile>> {
    let (db, log) = files;
    let Refused { fault, db, log } = match Engine::open(alloc, db, log, options.salts) {
        Ok(engine) => return Ok(engine),
        Err(refused) => refused,
    };
    let Fault::Blank = fault else {
        return Err(fault);
    };
    let mut db = db;
    let mut log = log;
    create(alloc, &mut db, &mut log, options.page_size)?;
    match Engine::open(alloc, db, log, options.salts) {
        Ok(engine) => Ok(engine),
        Err(
            Refused {
                fault,
                db: _,
                log: _,
            },
        ) => Err(fault),
    }
}

/// Turns the database file into one in WAL mode, where it is of the older kind and has no journal beside it.
fn convert_files<F: Files<File = File>>(
    files: &F,
    alloc: Global,
    opened: (PageFile, PageFile),
    name: &str,
) -> R<(PageFile, PageFile)> {
    let (db, log) = opened;
    let mut db = db;
    let mut log = log;
    let journal_name = format!(in alloc; "{name}-journal")?;
    let journal = file_len(files, journal_name.as_str())?;
    convert(alloc, &mut db, &mut log, journal)?;
    Ok((db, log))
}

/// Opens the database that the options name.
fn start<F: Files<File = File>>(
    files: &F,
    alloc: Global,
    options: &StartOptions<'_>,
) -> R<Engine<PageFile>> {
    let opened = open_files(files, alloc, options.name)?;
    if !options.convert {
        return open_or_create(alloc, opened, options);
    }
    let converted = convert_files(files, alloc, opened, options.name)?;
    open_or_create(alloc, converted, options)
}

/// Writes a reply to a start, which was refused, as a line of output.
fn show<O: Write>(alloc: Global, output: &mut O, reply: &R<Rows>) {
    let mut line = Vec::new(alloc);
    if put_reply(alloc, &mut line, reply).is_ok() {
        let _ = output.write_all(&line);
        let _ = output.flush();
    }
}

/// Says to a person why a start is refused: the file, and the message of the refusal.
fn report<E: Write>(alloc: Global, errors: &mut E, name: &str, reply: &R<Rows>) {
    let Err(fault) = reply else {
        return;
    };
    let mut message = Vec::new(alloc);
    if put_message(&mut message, fault).is_ok() {
        let _ = write!(errors, "walsql: {name}: ");
        let _ = errors.write_all(&message);
        let _ = errors.write_all(b"\n");
    }
}

/// Writes why the arguments are refused, or the help if they ask for it.
fn explain<O: Write, E: Write>(output: &mut O, errors: &mut E, refused: &ArgsError<'_>) -> u8 {
    match refused {
        ArgsError::Salt(digits) => {
            let _ = write!(
                errors,
                "error: invalid value '{digits}' for '--salt <HEX>': expected 16 hexadecimal digits\n"
            );
            MISUSED
        }
        ArgsError::Usage(error) if error.use_stderr() => {
            let _ = write!(errors, "{error}");
            MISUSED
        }
        ArgsError::Usage(error) => {
            let _ = write!(output, "{error}");
            SUCCESS
        }
    }
}

/// Runs the input's lines on the database that the arguments name. Answers the exit status: 0 at the end of input or after
/// help; 1 if the database can't be opened or created, which a line of output says and one of `errors` explains, or if memory, input
/// or output fails; 2 for bad arguments, which `errors` explains.
pub fn program<F: Files<File = File>, I: BufRead, O: Write, E: Write>(
    files: &F,
    alloc: Global,
    arguments: &[String],
    input: &mut I,
    output: &mut O,
    errors: &mut E,
) -> u8 {
    let options = match settings(alloc, arguments) {
        Ok(options) => options,
        Err(refused) => return explain(output, errors, &refused),
    };
    let mut engine = match start(files, alloc, &options) {
        Ok(engine) => engine,
        Err(fault) => {
            let refused = Err(fault);
            show(alloc, output, &refused);
            report(alloc, errors, options.name, &refused);
            return REFUSED;
        }
    };
    match engine.run(input, output) {
        Ok(()) => SUCCESS,
        Err(_) => REFUSED,
    }
}
