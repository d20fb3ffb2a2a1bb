//! An open database over the bytes of its files.

ghost use Rattle.std.specs.Prelude.{◌≡◌, ◌==◌, ◌⊎◌, List, Err, None, IfErr, IfOk, IsTrue, MatchResult, cond, is_some, length};
ghost use Rattle.smallvec.specs.SmallVec.{SmallVec};
ghost use Rattle.sqlval.specs.declared.value.Value.{Value};
ghost use Rattle.kinolavust_c.specs.Numbers.{refusal_number};
ghost use Rattle.kinolavust_c.specs.Replies.{IsReply, kept_reply, rows_bytes};
ghost use Rattle.kinolavust_c.specs.Slots.{Prepares, Puts, RunsWith, kept_in};

use crate::replies::{number, put_rows, refusal_or_nothing};
use crate::slots::Slots;
use crate::values::values_of;
use disk_image::{File, ImageDisk, Journal};
use engine::{Engine, Refused, Salts, create};
use sqlval::{Fault, Misuse, R, Row};
use std::alloc::Global;
use std::mem;

/// An open database, with its prepared statements, and the reply to the last statement.
#[derive(Drop)]
pub struct Session {
    alloc: Global,
    engine: Engine<ImageDisk>,
    journal: Journal,
    slots: Slots,
    reply: Vec<u8>,
}

/// A statement as text. One that isn't UTF-8 is refused.
fn statement_text(text: &[u8]) -> R<&str>
    ensures { IfOk result (λ same. same.now ≡ text.now) }
{
    match str::from_utf8(text) {
        Ok(text) => Ok(text),
        Err(_) => Err(Fault::Misuse(Misuse::InputLine)),
    }
}

/// Rows as bytes, in the place of those that this memory has.
fn bytes_in(memory: Vec<u8>, rows: &[Row]) -> R<Vec<u8>>
    ensures { IfOk result (λ bytes. bytes.items ≡ rows_bytes rows.now) }
{
    let mut bytes = memory;
    bytes.clear();
    put_rows(&mut bytes, rows)?;
    Ok(bytes)
}

/// How many bytes of memory the next reply takes over from the one before, at most.
const MOST_KEPT: usize = 65_536;

/// A disk over one of the files of a journal.
fn disk(journal: &Journal, file: File) -> R<ImageDisk> {
    Ok(ImageDisk::new(journal.share()?, file))
}

/// Opens the database of two disks.
fn open_disks(
    alloc: Global,
    db: ImageDisk,
    log: ImageDisk,
    salts: Salts,
) -> Result<Engine<ImageDisk>, (Fault, ImageDisk, ImageDisk)> {
    match Engine::open(alloc, db, log, salts) {
        Ok(engine) => Ok(engine),
        Err(Refused { fault, db, log }) => Err((fault, db, log)),
    }
}

/// Opens the database of two disks, which is created if the database file is blank.
fn open_or_create(
    alloc: Global,
    db: ImageDisk,
    log: ImageDisk,
    page_size: u32,
    salts: Salts,
) -> R<Engine<ImageDisk>> {
    let (fault, db, log) = match open_disks(alloc, db, log, salts) {
        Ok(engine) => return Ok(engine),
        Err(refused) => refused,
    };
    let Fault::Blank = fault else {
        return Err(fault);
    };
    let mut db = db;
    let mut log = log;
    create(alloc, &mut db, &mut log, page_size)?;
    match open_disks(alloc, db, log, salts) {
        Ok(engine) => Ok(engine),
        Err((fault, _, _)) => Err(fault),
    }
}

/// Opens the database of these bytes, which is created if the database file is blank.
pub fn open(alloc: Global, db: &[u8], log: &[u8], page_size: u32, salts: Salts) -> R<Box<Session>> {
    let db = Vec::from_slice(alloc, db)?;
    let log = Vec::from_slice(alloc, log)?;
    let journal = Journal::new(alloc, db, log)?;
    let db = disk(&journal, File::Database)?;
    let log = disk(&journal, File::Log)?;
    let engine = open_or_create(alloc, db, log, page_size, salts)?;
    let session = Session {
        alloc,
        engine,
        journal,
        slots: Slots::new(alloc),
        reply: Vec::new(alloc),
    };
    Ok(Box::new(alloc, session)?)
}

impl Session {
    /// Memory for a reply: that of the reply before, which is forgotten, where it isn't much.
    fn memory(&mut self) -> Vec<u8>
        ensures { self.new.slots ≡ self.old.slots }
    {
        let memory = mem::replace(&mut self.reply, Vec::new(self.alloc));
        if memory.capacity() <= MOST_KEPT {
            memory
        } else {
            Vec::new(self.alloc)
        }
    }

    /// The rows of a statement's reply, as bytes. A text that isn't UTF-8 is refused.
    fn rows(&mut self, connection: u32, text: &[u8]) -> R<Vec<u8>>
        ensures { IfOk result (λ bytes. (rows : List (SmallVec Value)) × (bytes.items ≡ rows_bytes rows)) }
    {
        let text = statement_text(text)?;
        let rows = self.engine.execute(connection, text)?;
        bytes_in(self.memory(), rows.as_slice())
    }

    /// The rows of the reply of a statement that was prepared, as bytes. A slot that isn't in use is refused, and bytes that are those of no
    /// values.
    fn prepared_rows(&mut self, connection: u32, slot: usize, values: &[u8]) -> R<Vec<u8>>
        ensures rows { IfOk result (λ bytes. (rows : List (SmallVec Value)) × (bytes.items ≡ rows_bytes rows)) }
        ensures unused { kept_in self.old.slots slot ≡ None → result ≡ Err (Fault.Misuse Misuse.InputLine) }
        ensures taken { IfOk result (λ _. RunsWith self.old.slots slot values.now) }
        ensures same { self.new.slots ≡ self.old.slots }
    {
        let Some(statement) = self.slots.get(slot) else {
            return Err(Fault::Misuse(Misuse::InputLine));
        };
        let values = values_of(self.alloc, values)?;
        let rows = self
            .engine
            .run_prepared(connection, statement, values.as_slice())?;
        bytes_in(self.memory(), rows.as_slice())
    }

    /// Reads a statement and keeps it. Answers its slot, and how many values it takes.
    fn kept_statement(&mut self, text: &[u8]) -> R<(usize, usize)>
        ensures kept { IfOk result (λ kept. Prepares self.old.slots text.now kept.0 kept.1 self.new.slots) }
    {
        let text = statement_text(text)?;
        let statement = self.engine.prepare(text)?;
        let count = statement.count();
        let statement = Box::new(self.alloc, statement)?;
        let slot = self.slots.keep(statement)?;
        Ok((slot, count))
    }

    /// Keeps the reply of rows, or of a refusal. Answers 0, or the number of the refusal.
    fn keep(&mut self, reply: R<Vec<u8>>) -> u32
        requires { IfOk reply (λ bytes. (rows : List (SmallVec Value)) × (bytes.items ≡ rows_bytes rows)) }
        ensures reply { IsReply result (kept_reply self.new) }
        ensures number { MatchResult reply (λ _. result ≡ 0) (λ fault. result ≡ refusal_number fault) }
        ensures same { self.new.slots ≡ self.old.slots }
    {
        match reply {
            Ok(bytes) => {
                self.reply = bytes;
                0
            }
            Err(fault) => {
                self.reply = refusal_or_nothing(self.alloc, &fault);
                number(&fault)
            }
        }
    }

    /// Executes a statement on a connection, and keeps the reply. Answers 0, or the number of a refusal.
    pub fn execute(&mut self, connection: u32, text: &[u8]) -> u32
        ensures { IsReply result (kept_reply self.new) }
    {
        let reply = self.rows(connection, text);
        self.keep(reply)
    }

    /// Reads a statement, to be run with values, and gives its slot and how many values it takes. Answers 0, or the number of a refusal.
    pub fn prepare(&mut self, text: &[u8], slot: &mut usize, count: &mut usize) -> u32
        ensures reply { IsReply result (kept_reply self.new) }
        ensures kept { result ≡ 0 → Prepares self.old.slots text.now slot.new count.new self.new.slots }
    {
        let alloc = self.alloc;
        match self.kept_statement(text) {
            Ok((kept, taken)) => {
                *slot = kept;
                *count = taken;
                self.keep(Ok(Vec::new(alloc)))
            }
            Err(fault) => self.keep(Err(fault)),
        }
    }

    /// Runs the statement of a slot with values on a connection, and keeps the reply. Answers 0, or the number of a refusal.
    pub fn run(&mut self, connection: u32, slot: usize, values: &[u8]) -> u32
        ensures reply { IsReply result (kept_reply self.new) }
        ensures unused { kept_in self.old.slots slot ≡ None → result ≡ 11 }
        ensures taken { result ≡ 0 → RunsWith self.old.slots slot values.now }
        ensures same { self.new.slots ≡ self.old.slots }
    {
        let reply = self.prepared_rows(connection, slot, values);
        self.keep(reply)
    }

    /// Lets go of the statement of a slot. Answers 0, or the number of a refusal.
    pub fn finish(&mut self, slot: usize) -> u32
        ensures reply { IsReply result (kept_reply self.new) }
        ensures was { result ≡ cond (is_some (kept_in self.old.slots slot)) 0 11 }
        ensures free { Puts self.old.slots slot None self.new.slots }
    {
        let alloc = self.alloc;
        let reply = match self.slots.finish(slot) {
            true => Ok(Vec::new(alloc)),
            false => Err(Fault::Misuse(Misuse::InputLine)),
        };
        self.keep(reply)
    }

    /// The reply to the last statement.
    pub fn reply(&self) -> &[u8]
        ensures { result.now ≡ kept_reply self.now }
    {
        self.reply.as_slice()
    }

    /// The changes that are still to be carried out.
    pub fn journal(&self) -> &Journal {
        &self.journal
    }
}

/// Copies bytes, if there is just room for them. Answers whether it did.
pub fn copy(bytes: &[u8], out: &mut [u8]) -> bool
    ensures copied { IsTrue result → out.new ≡ bytes.now }
    ensures room { result ≡ (length out.old == length bytes.now) }
{
    if bytes.len() != out.len() {
        return false;
    }
    out.copy_from_slice(bytes);
    true
}
