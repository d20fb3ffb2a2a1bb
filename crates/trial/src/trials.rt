//! Scripts: lines one by one.

use crate::directives::{Directive, Picks, directive_of};
use crate::files::{Contents, Database, Disks, Schedules, Which, closed, created, open};
use crate::replies::{put_answer, put_detail};
use crate::sweeps::{Sweep, put_sweep};
use engine::{Refused, put_reply};
use sha2::{Digest, Sha256};
use sqlval::R;
use std::alloc::Global;

/// The run of a script.
#[derive(Drop)]
struct Trial {
    alloc: Global,
    /// The database, while it is open.
    database: Option<Database>,
    /// The files, while it is closed.
    disks: Disks,
    /// The failures of the next opening.
    schedules: Schedules,
    /// The sweep whose statements are being read.
    sweep: Option<Sweep>,
    has_details: bool,
}

/// Runs a script, and writes what it shows.
pub fn perform(alloc: Global, script: &[u8], out: &mut Vec<u8>) -> R<()> {
    let Ok(text) = str::from_utf8(script) else {
        out.extend_from_slice(b"the script isn't UTF-8\n")?;
        return Ok(());
    };
    let mut trial = Trial::new(alloc)?;
    for line in text.lines() {
        trial.take(out, line)?;
    }
    Ok(())
}

/// Writes a line.
fn put_line(out: &mut Vec<u8>, line: &str) -> R<()> {
    out.extend_from_slice(line.as_bytes())?;
    out.push(b'\n')?;
    Ok(())
}

/// Writes a name and the SHA-256 of some bytes.
fn put_sum(alloc: Global, out: &mut Vec<u8>, name: &str, bytes: &[u8]) -> R<()> {
    let sum: [u8; 32] = Sha256::digest(bytes);
    let digits = hex::encode(alloc, sum.as_slice())?;
    let line = format!(in alloc; "{name} {digits}")?;
    put_line(out, line.as_str())
}

impl Trial {
    /// A run without a database.
    fn new(alloc: Global) -> R<Trial> {
        Ok(Trial {
            alloc,
            database: None,
            disks: Disks::new(alloc, &Contents::empty(alloc), Schedules::HEALTHY)?,
            schedules: Schedules::HEALTHY,
            sweep: None,
            has_details: false,
        })
    }

    /// Runs a line.
    fn take(&mut self, out: &mut Vec<u8>, line: &str) -> R<()> {
        if self.sweep.is_some() {
            return self.take_swept(out, line);
        }
        if line.is_empty() || line.starts_with('#') {
            return Ok(());
        }
        if !line.starts_with('.') {
            return self.answer(out, line);
        }
        match directive_of(self.alloc, line)? {
            Some(directive) => self.follow(out, directive),
            None => put_line(out, "no directive"),
        }
    }

    /// Takes a statement of a sweep, or runs the sweep at its end.
    fn take_swept(&mut self, out: &mut Vec<u8>, line: &str) -> R<()> {
        let Some(sweep) = self.sweep.take() else {
            return Ok(());
        };
        if line == ".end" {
            self.close();
            let start = self.disks.newest(self.alloc)?;
            return put_sweep(self.alloc, out, start, sweep);
        }
        let mut sweep = sweep;
        sweep.statements.push(String::from_str(self.alloc, line)?)?;
        self.sweep = Some(sweep);
        Ok(())
    }

    /// Writes the reply to a statement.
    fn answer(&mut self, out: &mut Vec<u8>, line: &str) -> R<()> {
        let Some(database) = &mut self.database else {
            return put_line(out, "closed");
        };
        match put_answer(self.alloc, out, database, line)? {
            Some(fault) if self.has_details => put_detail(self.alloc, out, &fault),
            _ => Ok(()),
        }
    }

    /// Does what a directive asks for.
    fn follow(&mut self, out: &mut Vec<u8>, directive: Directive) -> R<()> {
        match directive {
            Directive::Create(size) => return self.create(out, size),
            Directive::Open => return self.open(out),
            Directive::Fail(which, call) => self.fail(which, call),
            Directive::Stop(which, call) => self.stop(which, call),
            Directive::Crash(db, log) => return self.crash(&db, &log),
            Directive::Cut(which, len) => return self.cut(which, len),
            Directive::Lengths => return self.put_lengths(out),
            Directive::Sums => return self.put_sums(out),
            Directive::Calls => return self.put_calls(out),
            Directive::Sweep(sweep) => self.sweep = Some(sweep),
            Directive::Details => self.has_details = true,
        }
        Ok(())
    }

    /// Closes the database, if it is open.
    fn close(&mut self) {
        if let Some(database) = self.database.take() {
            self.disks = closed(database);
        }
    }

    /// Closes the database, and puts files with these bytes in the place of its files.
    fn replace(&mut self, contents: &Contents) -> R<()> {
        self.database = None;
        self.disks = Disks::new(self.alloc, contents, Schedules::HEALTHY)?;
        Ok(())
    }

    /// Makes a database with pages of a size, and opens it.
    fn create(&mut self, out: &mut Vec<u8>, page_size: u32) -> R<()> {
        match created(self.alloc, page_size) {
            Ok(contents) => {
                self.replace(&contents)?;
                self.open(out)
            }
            Err(fault) => {
                self.replace(&Contents::empty(self.alloc))?;
                Ok(put_reply(self.alloc, out, &Err(fault))?)
            }
        }
    }

    /// Opens the files as they stand.
    fn open(&mut self, out: &mut Vec<u8>) -> R<()> {
        self.close();
        let contents = self.disks.newest(self.alloc)?;
        let schedules = self.schedules;
        self.schedules = Schedules::HEALTHY;
        match open(self.alloc, &contents, schedules)? {
            Ok(database) => {
                self.database = Some(database);
                put_line(out, "ok")
            }
            Err(Refused { fault, db, log }) => {
                self.disks = Disks { db, log };
                Ok(put_reply(self.alloc, out, &Err(fault))?)
            }
        }
    }

    /// Lets a call of a file fail alone, after the next opening.
    fn fail(&mut self, which: Which, call: u64) {
        match which {
            Which::Database => self.schedules.db.fail_at = Some(call),
            Which::Log => self.schedules.log.fail_at = Some(call),
        }
    }

    /// Lets a file fail from a call on, after the next opening.
    fn stop(&mut self, which: Which, call: u64) {
        match which {
            Which::Database => self.schedules.db.stop_at = Some(call),
            Which::Log => self.schedules.log.stop_at = Some(call),
        }
    }

    /// Closes the database, and lets both files become what a crash leaves.
    fn crash(&mut self, db: &Picks, log: &Picks) -> R<()> {
        self.close();
        let left = self
            .disks
            .crashed(self.alloc, db.as_slice(), log.as_slice())?;
        self.replace(&left)
    }

    /// Closes the database, and cuts a file.
    fn cut(&mut self, which: Which, len: usize) -> R<()> {
        self.close();
        let mut contents = self.disks.newest(self.alloc)?;
        contents.cut(which, len);
        self.replace(&contents)
    }

    /// Closes the database, and writes the lengths of its files.
    fn put_lengths(&mut self, out: &mut Vec<u8>) -> R<()> {
        self.close();
        let contents = self.disks.newest(self.alloc)?;
        let db = contents.db.len();
        let log = contents.log.len();
        let line = format!(in self.alloc; "db {db} log {log}")?;
        put_line(out, line.as_str())
    }

    /// Closes the database, and writes the SHA-256 of its files.
    fn put_sums(&mut self, out: &mut Vec<u8>) -> R<()> {
        self.close();
        let contents = self.disks.newest(self.alloc)?;
        put_sum(self.alloc, out, "db", &contents.db)?;
        put_sum(self.alloc, out, "log", &contents.log)
    }

    /// Closes the database, and writes how many calls its files have had.
    fn put_calls(&mut self, out: &mut Vec<u8>) -> R<()> {
        self.close();
        let db = self.disks.calls(Which::Database);
        let log = self.disks.calls(Which::Log);
        let line = format!(in self.alloc; "db {db} log {log}")?;
        put_line(out, line.as_str())
    }
}
