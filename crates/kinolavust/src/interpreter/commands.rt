//! What a command does.

use super::Session;
use crate::dump::put_dump;
use crate::objects::{index_names, put_lines, put_schema, table_names};
use crate::sources::MAX_NESTED;
use disk::Disk;
use engine::Rows;
use shell::{Command, Depth, Mistake, command_of, split_command};
use sqlval::R;
use std::alloc::Global;
use std::fs;
use std::fs::File;
use std::io::Write;
use std::rt::{Clock, Files};

/// What `.help` writes.
const HELP: &str =
    ".checkpoint [MODE]   writes the log into the database file: passive, restart or truncate
.connection N        goes on with connection N, 1 to 16; each has its own transaction
.dump [TABLE]        writes statements that make the database, or a table, anew
.exit, .quit         ends
.headers on|off      whether list, csv and quote begin with the names of columns
.help                writes this
.indexes [TABLE]     writes the names of indexes
.mode MODE           how rows are written: list, csv, table, line or quote
.read FILE           runs the statements and commands of a file
.schema [TABLE]      writes the statements that made the database, or a table
.tables [NAME]       writes the names of tables and views, or of those that begin with NAME
.timer on|off        whether the seconds of each statement are written
";

impl<D: Disk + Drop, O: Write + Drop, E: Write + Drop> Session<D, O, E> {
    /// Does what a command says.
    pub(super) fn obey<F: Files<File = File> + Clock + Alloc<A = Global>>(
        &mut self,
        files: &F,
        line: &[u8],
    ) -> R<()> {
        let (word, argument) = split_command(line);
        let Ok(text) = str::from_utf8(argument) else {
            return self.reject("the argument isn't UTF-8", line);
        };
        match command_of(word, argument) {
            Ok(command) => self.perform(files, command, text, line),
            Err(Mistake::Word) => self.reject("no such command (.help lists them)", line),
            Err(Mistake::Argument) => {
                self.reject("wrong argument of a command (.help lists them)", line)
            }
        }
    }

    /// Does what a command says, with its argument.
    fn perform<F: Files<File = File> + Clock + Alloc<A = Global>>(
        &mut self,
        files: &F,
        command: Command,
        argument: &str,
        line: &[u8],
    ) -> R<()> {
        match command {
            Command::Help => self.say(HELP.as_bytes()),
            Command::Tables | Command::Schema | Command::Indexes => {
                self.list(command, argument, line)
            }
            Command::Dump => self.dump(argument, line),
            Command::Read => self.read_file(files, argument, line),
            Command::Checkpoint(depth) => self.checkpoint(depth),
            other => {
                self.switch(other);
                Ok(())
            }
        }
    }

    /// Changes what the shell keeps.
    fn switch(&mut self, command: Command) {
        match command {
            Command::Quit => self.has_ended = true,
            Command::Mode(mode) => self.mode = mode,
            Command::Headers(is_on) => self.headers = is_on,
            Command::Timer(is_on) => self.timer = is_on,
            Command::Connection(number) => self.connection = number,
            _ => {}
        }
    }

    /// The text of a list of objects.
    fn listed(&self, command: Command, objects: &Rows, name: &str) -> R<Vec<u8>> {
        let mut out = Vec::new(self.alloc);
        match command {
            Command::Tables => {
                let names = table_names(self.alloc, objects, name)?;
                put_lines(&mut out, &names)?;
            }
            Command::Indexes => {
                let names = index_names(self.alloc, objects, name)?;
                put_lines(&mut out, &names)?;
            }
            _ => put_schema(&mut out, objects, name)?,
        }
        Ok(out)
    }

    /// Writes a list of objects.
    fn list(&mut self, command: Command, name: &str, line: &[u8]) -> R<()> {
        match self.engine.objects(self.connection) {
            Ok(objects) => {
                let text = self.listed(command, &objects, name)?;
                self.say(&text)
            }
            Err(fault) => self.refuse(line, &fault),
        }
    }

    /// Writes statements that make a table, or the database, anew.
    fn dump(&mut self, table: &str, line: &[u8]) -> R<()> {
        let mut out = Vec::new(self.alloc);
        match put_dump(
            self.alloc,
            &mut self.engine,
            self.connection,
            &mut out,
            table,
        ) {
            Ok(()) => self.say(&out),
            Err(fault) => self.refuse(line, &fault),
        }
    }

    /// Reads the lines of a file before any other.
    fn read_file<F: Files<File = File> + Alloc<A = Global>>(
        &mut self,
        files: &F,
        name: &str,
        line: &[u8],
    ) -> R<()> {
        if self.sources.len() >= MAX_NESTED {
            return self.reject("files are read inside one another more than 8 deep", line);
        }
        match fs::read(files, name) {
            Ok(text) => self.read_text(text),
            Err(_) => self.reject("the file can't be read", line),
        }
    }

    /// From here on a person is told of bytes that are read and written.
    fn begin_telling(&self) {
        if self.settings.tells {
            self.settings.progress.begin();
        }
    }

    /// A person is told no more, and goes on in a new line.
    fn end_telling(&mut self) {
        if self.settings.tells && self.settings.progress.end() {
            self.complain(b"\rdone       \n");
        }
    }

    /// Writes the log into the database file, and tells a person how far it has come.
    fn checkpoint(&mut self, depth: Depth) -> R<()> {
        let text = match depth {
            Depth::Passive => "PRAGMA wal_checkpoint(passive)",
            Depth::Restart => "PRAGMA wal_checkpoint(restart)",
            Depth::Truncate => "PRAGMA wal_checkpoint(truncate)",
        };
        self.begin_telling();
        let reply = self.engine.execute(self.connection, text);
        self.end_telling();
        self.answer(text, reply)
    }
}
