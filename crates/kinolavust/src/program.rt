//! The program over given arguments, input and outputs.

use crate::arguments::{ArgsError, ShellOptions, options};
use crate::interpreter::{Session, Settings};
use crate::opening::{PageFile, open};
use crate::sources::read_line;
use crate::watched::Progress;
use disk_file::file_len;
use engine::Engine;
use shell::{Mode, put_error};
use sqlval::{Fault, R};
use std::alloc::Global;
use std::fs::File;
use std::io::{BufRead, Write};
use std::rt::{Clock, Files};

/// Exit status if nothing was refused.
const SUCCESS: u8 = 0;

/// Exit status if the database can't be opened or created, if a statement was refused, or if memory, input or output fails.
const REFUSED: u8 = 1;

/// Exit status for bad arguments.
const MISUSED: u8 = 2;

/// A person is told of the opening of a file of so many bytes.
const LARGE_FILE: u64 = 16 << 20;

/// Which of the input, the output and the place of errors are terminals.
#[derive(Clone, Copy)]
pub struct Terminals {
    pub input: bool,
    pub output: bool,
    pub errors: bool,
}

/// Writes why the arguments are refused, or the help if they ask for it.
fn explain<O: Write, E: Write>(output: &mut O, errors: &mut E, refused: &ArgsError<'_>) -> u8 {
    match refused {
        ArgsError::Salt(digits) => {
            let _ = write!(
                errors,
                "error: invalid value '{digits}' for '--salt <HEX>': expected 16 hexadecimal digits\n"
            );
            MISUSED
        }
        ArgsError::Mode(name) => {
            let _ = write!(
                errors,
                "error: invalid value '{name}' for '--mode <MODE>': expected list, csv, table, line or quote\n"
            );
            MISUSED
        }
        ArgsError::Usage(error) if error.use_stderr() => {
            let _ = write!(errors, "{error}");
            MISUSED
        }
        ArgsError::Usage(error) => {
            let _ = write!(output, "{error}");
            let _ = output.flush();
            SUCCESS
        }
    }
}

/// Says why a database can't be opened.
fn report<E: Write>(alloc: Global, errors: &mut E, name: &str, fault: &Fault) {
    let mut message = Vec::new(alloc);
    if put_error(&mut message, fault).is_ok() {
        let _ = write!(errors, "kinolavust: {name}: ");
        let _ = errors.write_all(&message);
    }
}

/// Opens the database, and tells a person of it where the file is large.
fn open_told<'a, F: Files<File = File> + Eprint>(
    files: &'a F,
    alloc: Global,
    progress: &Progress,
    tells: bool,
    options: &ShellOptions<'_>,
) -> R<Engine<PageFile<'a, F>>> {
    let name = options.name;
    let len = file_len(files, name).unwrap_or(0);
    if !tells || len < LARGE_FILE {
        return open(files, alloc, progress, options);
    }
    let size = len >> 20;
    let _ = eprint!(files; "opening {name}, {size} MiB, which are read up to three times\n");
    progress.begin();
    let opened = open(files, alloc, progress, options);
    let _ = progress.end();
    let _ = eprint!(files; "\rdone       \n");
    opened
}

/// Puts the next line in place of what a buffer holds: one of a file that is being read, or of the input. Answers whether there was one.
fn next_line<F, I, O, E>(
    files: &F,
    input: &mut I,
    session: &mut Session<PageFile<'_, F>, O, E>,
    asks: bool,
    line: &mut Vec<u8>,
) -> R<bool>
where
    F: Files<File = File> + Clock + Eprint,
    I: BufRead,
    O: Write + Drop,
    E: Write + Drop,
{
    if session.next_line(files, line)? {
        return Ok(true);
    }
    if session.has_ended() {
        return Ok(false);
    }
    if asks {
        session.prompt()?;
    }
    read_line(input, line)
}

/// Runs lines until there are no more, or one ends the shell.
fn serve<F, I, O, E>(
    files: &F,
    alloc: Global,
    input: &mut I,
    session: &mut Session<PageFile<'_, F>, O, E>,
    asks: bool,
) -> R<()>
where
    F: Files<File = File> + Clock + Eprint + Alloc<A = Global>,
    I: BufRead,
    O: Write + Drop,
    E: Write + Drop,
{
    let mut line = Vec::new(alloc);
    for _ in 0..u64::MAX {
        if !next_line(files, input, session, asks, &mut line)? {
            return session.finish(files);
        }
        session.take_line(files, &line)?;
        if session.has_ended() {
            return Ok(());
        }
    }
    Err(Fault::Io)
}

/// Runs lines, after a word to the person who is asked for them.
fn serve_greeted<F, I, O, E>(
    files: &F,
    alloc: Global,
    input: &mut I,
    session: &mut Session<PageFile<'_, F>, O, E>,
    asks: bool,
    name: &str,
) -> R<()>
where
    F: Files<File = File> + Clock + Eprint + Alloc<A = Global>,
    I: BufRead,
    O: Write + Drop,
    E: Write + Drop,
{
    if !asks {
        return serve(files, alloc, input, session, asks);
    }
    greet(alloc, session, name)?;
    serve(files, alloc, input, session, asks)?;
    if session.has_ended() {
        return Ok(());
    }
    session.say(b"\n")
}

/// Runs the statements of an argument until there are no more, or one ends the shell.
fn serve_text<F, O, E>(
    files: &F,
    alloc: Global,
    session: &mut Session<PageFile<'_, F>, O, E>,
    text: &str,
) -> R<()>
where
    F: Files<File = File> + Clock + Eprint + Alloc<A = Global>,
    O: Write + Drop,
    E: Write + Drop,
{
    session.read_text(Vec::from_slice(alloc, text.as_bytes())?)?;
    let mut line = Vec::new(alloc);
    for _ in 0..u64::MAX {
        if !session.next_line(files, &mut line)? {
            return Ok(());
        }
        session.take_line(files, &line)?;
        if session.has_ended() {
            return Ok(());
        }
    }
    Err(Fault::Io)
}

/// The mode of output, by the options and whether the output is a terminal.
fn first_mode(options: &ShellOptions<'_>, terminals: Terminals) -> Mode {
    match options.mode {
        Some(mode) => mode,
        None if terminals.output => Mode::Table,
        None => Mode::List,
    }
}

/// The status at the end.
fn status_of(ended: R<()>, has_refused: bool, is_asked: bool) -> u8 {
    match ended {
        Err(_) => REFUSED,
        Ok(()) if has_refused && !is_asked => REFUSED,
        Ok(()) => SUCCESS,
    }
}

/// Says to a person what program this is.
fn greet<F: Eprint, O: Write + Drop, E: Write + Drop>(
    alloc: Global,
    session: &mut Session<PageFile<'_, F>, O, E>,
    name: &str,
) -> R<()> {
    let text = format!(in alloc;
        "kinolavust on {name}. Statements end with a semicolon; .help lists commands.\n"
    )?;
    session.say(text.as_str().as_bytes())
}

/// Runs the statements and commands of the input, or those of an argument, on a database that was opened. Answers the exit status.
fn run<F, I, O, E>(
    files: &F,
    alloc: Global,
    options: &ShellOptions<'_>,
    is_terminal: bool,
    input: &mut I,
    session: &mut Session<PageFile<'_, F>, O, E>,
) -> u8
where
    F: Files<File = File> + Clock + Eprint + Alloc<A = Global>,
    I: BufRead,
    O: Write + Drop,
    E: Write + Drop,
{
    let asks = is_terminal && options.sql.is_none();
    let ended = match options.sql {
        Some(text) => serve_text(files, alloc, session, text),
        None => serve_greeted(files, alloc, input, session, asks, options.name),
    };
    status_of(ended, session.has_refused(), asks)
}

/// Runs the statements and commands of the input, or those of an argument, on the database that the arguments name. Answers the exit
/// status: 0 at the end of input, or after help; 1 if the database can't be opened or created, if a statement or a command was refused
/// where no person is asked for lines, or if memory, input or output fails; 2 for bad arguments. `errors` tells why.
pub fn program<F, I, O, E>(
    files: &F,
    alloc: Global,
    arguments: &[String],
    terminals: Terminals,
    input: &mut I,
    output: O,
    errors: E,
) -> u8
where
    F: Files<File = File> + Clock + Eprint + Alloc<A = Global>,
    I: BufRead,
    O: Write + Drop,
    E: Write + Drop,
{
    let mut output = output;
    let mut errors = errors;
    let options = match options(alloc, arguments) {
        Ok(options) => options,
        Err(refused) => return explain(&mut output, &mut errors, &refused),
    };
    let Ok(progress) = Progress::new(alloc) else {
        return REFUSED;
    };
    let engine = match open_told(files, alloc, &progress, terminals.errors, &options) {
        Ok(engine) => engine,
        Err(fault) => {
            report(alloc, &mut errors, options.name, &fault);
            return REFUSED;
        }
    };
    let settings = Settings {
        bail: options.bail,
        tells: terminals.errors,
        progress,
    };
    let mode = first_mode(&options, terminals);
    let headers = options.headers;
    let mut session = Session::new(alloc, engine, output, errors, settings, mode, headers);
    let is_terminal = terminals.input && terminals.output;
    run(files, alloc, &options, is_terminal, input, &mut session)
}
