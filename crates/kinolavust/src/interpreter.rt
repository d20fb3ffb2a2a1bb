//! What the shell keeps between lines, and what a line does.

mod commands;

use crate::headings::{headings, other_headings};
use crate::sources::Source;
use crate::watched::Progress;
use disk::Disk;
use engine::{Engine, Rows};
use shell::{Mode, is_blank, put_error, put_place, put_rows, statement_end};
use sqlval::{Fault, Misuse, Name, R};
use std::alloc::Global;
use std::fs::File;
use std::io::Write;
use std::mem;
use std::rt::{Clock, Files};
use std::time::Instant;

/// A statement of more bytes that hasn't ended isn't waited for.
const MAX_PENDING: usize = 1 << 20;

/// What doesn't change as lines run.
#[derive(Drop)]
pub struct Settings {
    /// Whether the first refusal ends the shell.
    pub bail: bool,
    /// Whether a person is told of what takes long.
    pub tells: bool,
    /// Where that is counted.
    pub progress: Progress,
}

/// The shell over a database, an output and a place for errors.
#[derive(Drop)]
pub struct Session<D: Disk + Drop, O: Write + Drop, E: Write + Drop> {
    alloc: Global,
    engine: Engine<D>,
    output: O,
    errors: E,
    settings: Settings,
    /// The connection of the next statement.
    connection: u32,
    mode: Mode,
    headers: bool,
    timer: bool,
    /// What was read of a statement that hasn't ended.
    pending: Vec<u8>,
    /// The files that are being read, the innermost last.
    sources: Vec<Source>,
    /// Whether a statement or a command was refused.
    has_refused: bool,
    /// Whether no further line is to run.
    has_ended: bool,
}

impl<D: Disk + Drop, O: Write + Drop, E: Write + Drop> Session<D, O, E> {
    /// A shell that nothing was run in.
    pub fn new(
        alloc: Global,
        engine: Engine<D>,
        output: O,
        errors: E,
        settings: Settings,
        mode: Mode,
        headers: bool,
    ) -> Session<D, O, E> {
        Session {
            alloc,
            engine,
            output,
            errors,
            settings,
            connection: 1,
            mode,
            headers,
            timer: false,
            pending: Vec::new(alloc),
            sources: Vec::new(alloc),
            has_refused: false,
            has_ended: false,
        }
    }

    /// Whether no further line is to run.
    pub fn has_ended(&self) -> bool {
        self.has_ended
    }

    /// Whether a statement or a command was refused.
    pub fn has_refused(&self) -> bool {
        self.has_refused
    }

    /// Whether a statement has begun.
    pub fn is_inside(&self) -> bool {
        !self.pending.is_empty()
    }

    /// Writes bytes, which a reader sees at once.
    pub fn say(&mut self, text: &[u8]) -> R<()> {
        if self.output.write_all(text).is_err() || self.output.flush().is_err() {
            return Err(Fault::Io);
        }
        Ok(())
    }

    /// Writes bytes where errors go.
    fn complain(&mut self, text: &[u8]) {
        let _ = self.output.flush();
        let _ = self.errors.write_all(text);
        let _ = self.errors.flush();
    }

    /// Notes that something was refused.
    fn note_refusal(&mut self) {
        self.has_refused = true;
        if self.settings.bail {
            self.has_ended = true;
        }
    }

    /// Says why a statement was refused, and where.
    fn refuse(&mut self, text: &[u8], fault: &Fault) -> R<()> {
        let mut message = Vec::new(self.alloc);
        put_error(&mut message, fault)?;
        if let Fault::Syntax(place) = fault {
            put_place(&mut message, text, *place)?;
        }
        self.complain(&message);
        self.note_refusal();
        Ok(())
    }

    /// Says what is wrong with a command.
    fn reject(&mut self, what: &str, line: &[u8]) -> R<()> {
        let mut message = Vec::new(self.alloc);
        message.extend_from_slice(b"error: ")?;
        message.extend_from_slice(what.as_bytes())?;
        message.extend_from_slice(b": ")?;
        message.extend_from_slice(line.trim_ascii())?;
        message.push(b'\n')?;
        self.complain(&message);
        self.note_refusal();
        Ok(())
    }

    /// The names of the columns of a reply.
    fn names(&mut self, text: &str, count: usize) -> R<Vec<Name>> {
        let names = match self.engine.columns(self.connection, text) {
            Ok(known) => headings(self.alloc, text, known)?,
            Err(_) => other_headings(self.alloc, count)?,
        };
        Ok(names)
    }

    /// Whether names of columns are written with rows.
    fn wants_names(&self) -> bool {
        match self.mode {
            Mode::Table | Mode::Line => true,
            _ => self.headers,
        }
    }

    /// Writes the rows that a statement answered.
    fn show(&mut self, text: &str, rows: &Rows) -> R<()> {
        let Some(first) = rows.as_slice().first() else {
            return Ok(());
        };
        let names = if self.wants_names() {
            self.names(text, first.as_slice().len())?
        } else {
            Vec::new(self.alloc)
        };
        let mut written = Vec::new(self.alloc);
        put_rows(
            self.alloc,
            &mut written,
            self.mode,
            self.headers,
            &names,
            rows.as_slice(),
        )?;
        self.say(&written)
    }

    /// Writes what a statement answered.
    fn answer(&mut self, text: &str, reply: R<Rows>) -> R<()> {
        match reply {
            Ok(rows) => self.show(text, &rows),
            Err(fault) => self.refuse(text.as_bytes(), &fault),
        }
    }

    /// Runs a statement, which has no semicolon at its end.
    fn run_statement(&mut self, text: &str) -> R<()> {
        let reply = self.engine.execute(self.connection, text);
        self.answer(text, reply)
    }

    /// Writes how long a statement took.
    fn say_time<F: Clock>(&mut self, files: &F, start: Instant) -> R<()> {
        let Ok(time) = start.elapsed(files) else {
            return Ok(());
        };
        let seconds = time.as_secs();
        let micros = time.subsec_micros();
        let line = format!(in self.alloc; "time: {seconds}.{micros:06} s\n")?;
        self.say(line.as_str().as_bytes())
    }

    /// Runs a statement, and says how long it took where that is asked for.
    fn run_timed<F: Clock>(&mut self, files: &F, text: &str) -> R<()> {
        if !self.timer {
            return self.run_statement(text);
        }
        let Ok(start) = Instant::now(files) else {
            return self.run_statement(text);
        };
        self.run_statement(text)?;
        self.say_time(files, start)
    }

    /// Runs the bytes of a statement, where there is one.
    fn run_bytes<F: Clock>(&mut self, files: &F, bytes: &[u8]) -> R<()> {
        if is_blank(bytes) {
            return Ok(());
        }
        let bytes = bytes.trim_ascii();
        match str::from_utf8(bytes) {
            Ok(text) => self.run_timed(files, text),
            Err(_) => self.refuse(bytes, &Fault::Misuse(Misuse::InputLine)),
        }
    }

    /// Runs the statements of a text that end in it, and keeps the rest.
    fn run_ended<F: Clock>(&mut self, files: &F, text: &[u8]) -> R<()> {
        let mut rest = text;
        for _ in 0..u64::MAX {
            if self.has_ended {
                return Ok(());
            }
            let Some(end) = statement_end(rest) else {
                break;
            };
            self.run_bytes(files, &rest[..end - 1])?;
            rest = &rest[end..];
        }
        if !is_blank(rest) {
            self.pending.extend_from_slice(rest)?;
        }
        Ok(())
    }

    /// Takes what is pending.
    fn take_pending(&mut self) -> Vec<u8> {
        mem::replace(&mut self.pending, Vec::new(self.alloc))
    }

    /// Adds a line to the statement that has begun, and runs those that have ended.
    fn take_statement_line<F: Clock>(&mut self, files: &F, line: &[u8]) -> R<()> {
        self.pending.extend_from_slice(line)?;
        let may_end = line.iter().any(|byte| *byte == b';');
        if may_end || !self.is_begun() {
            let text = self.take_pending();
            self.run_ended(files, &text)?;
        }
        self.check_pending()
    }

    /// Ends the shell where a statement goes on without an end: what follows it could be a part of its text.
    fn check_pending(&mut self) -> R<()> {
        if self.pending.len() <= MAX_PENDING {
            return Ok(());
        }
        self.pending.clear();
        self.has_ended = true;
        self.refuse(b"", &Fault::TooLong)
    }

    /// Whether what is pending is more than spaces and comments.
    fn is_begun(&self) -> bool {
        !is_blank(&self.pending)
    }

    /// Runs what is pending at the end of an input or a file.
    pub fn finish<F: Clock>(&mut self, files: &F) -> R<()> {
        let text = self.take_pending();
        if self.has_ended {
            return Ok(());
        }
        self.run_bytes(files, &text)
    }

    /// Does what a line says: a command, or a part of statements.
    pub fn take_line<F: Files<File = File> + Clock + Alloc<A = Global>>(
        &mut self,
        files: &F,
        line: &[u8],
    ) -> R<()> {
        if self.pending.is_empty() && line.starts_with(b".") {
            return self.obey(files, line);
        }
        self.take_statement_line(files, line)
    }

    /// Puts the next line of the files that are being read in place of what a buffer holds. Answers whether there was one. At the end of a
    /// file the statement that is pending runs.
    pub fn next_line<F: Clock>(&mut self, files: &F, line: &mut Vec<u8>) -> R<bool> {
        for _ in 0..u64::MAX {
            let Some(source) = self.sources.last_mut() else {
                return Ok(false);
            };
            if source.next_line(line)? {
                return Ok(true);
            }
            drop(self.sources.pop());
            self.finish(files)?;
        }
        Err(Fault::Io)
    }

    /// Reads lines of a text before any other.
    pub fn read_text(&mut self, text: Vec<u8>) -> R<()> {
        self.sources.push(Source::new(text))?;
        Ok(())
    }

    /// Writes what asks for a line.
    pub fn prompt(&mut self) -> R<()> {
        if self.is_inside() {
            self.say(b"       ...> ")
        } else {
            self.say(b"kinolavust> ")
        }
    }
}
