//! The pages of a snapshot and of a transaction, as calls.

ghost use Rattle.std.specs.Prelude.{◌≡◌, ◌≤◌, ◌+◌, ℕ, List, length, false, IfErr, IfOk, IsTrue, OnOk};
ghost use Rattle.pages.specs.Map.{IsThere, page_at, written_over};
ghost use Rattle.sqlval.specs.Faults.{IsOutside};
ghost use Rattle.wal_frame.specs.Accepted.{KeepsFile};
ghost use Rattle.wal.specs.ErrorCauses.{HasCause};
ghost use Rattle.wal.specs.LogState.{db_of, state_of, log_of, seen_by, size_of};
ghost use Rattle.pager.specs.Limits.{page_size_of, pages_of};
ghost use Rattle.pager.specs.Maps.{pages_in};
ghost use Rattle.pager.specs.Sights.{UnderReader, UnderWriter, failures_of, map_over, page_held, tells_reader, tells_writer, under_reader, under_writer, view_under};
ghost use Rattle.pager.specs.Sound.{limits_of};
ghost use Rattle.pager.specs.Views.{IsViewPage, Tells, ViewHas, changes_of, view_at};
ghost use Rattle.pager.specs.Writers.{snapshot_of};

use crate::parts::write_within;
use crate::reading::read_into;
use crate::writer::Writer;
use disk::Disk;
use pages::{Pages, WritePages};
use sqlval::{Damage, Fault, R};
use std::alloc::Global;
use wal::{Log, Snapshot};

/// Reads a page of a snapshot into a buffer, which gets the page size.
pub(crate) fn fill<D: Disk + Drop>(
    log: &mut Log<D>,
    snapshot: Snapshot,
    number: u32,
    buffer: &mut Vec<u8>,
) -> R<()>
    ensures kept { (state_of log.new ≡ state_of log.old)
        × KeepsFile D.tells D.file (db_of log.old) (db_of log.new)
        × KeepsFile D.tells D.file (log_of log.old) (log_of log.new) }
    ensures cause { HasCause false result log.old log.new }
    ensures read { Tells log.old → seen_by snapshot ≤ (state_of log.old).frames
        → OnOk result (ViewHas (view_at log.old snapshot) number buffer.new.items) }
    ensures there { (bytes : List ℕ) → Tells log.old → seen_by snapshot ≤ (state_of log.old).frames
        → IsViewPage (view_at log.old snapshot) number bytes
        → IfErr result IsOutside }
    ensures within { OnOk result ((1 ≤ number) × (number ≤ size_of snapshot)) }
{
    buffer.resize(log.page_size() as usize, 0)?;
    read_into(log, snapshot, number, buffer.as_mut_slice())
}

/// The pages that a snapshot shows.
#[derive(Drop)]
pub struct Reading<'a, D: Disk + Drop> {
    pub log: &'a mut Log<D>,
    pub snapshot: Snapshot,
    pub buffer: &'a mut Vec<u8>,
}

impl<'a, D: Disk + Drop> Pages for Reading<'a, D> {
    ghost Base = { UnderReader };

    ghost below = { λ s. under_reader s.log.now s.snapshot s.log.ghost_name s.buffer.ghost_name };

    ghost tells = { tells_reader };

    ghost limits = { λ under. limits_of under.known.page_size };

    ghost map = { λ s. pages_in (view_under (under_reader s.log.now s.snapshot s.log.ghost_name s.buffer.ghost_name)) };

    ghost count = { λ s. size_of s.snapshot };

    ghost held = { λ s. s.buffer.now.items };

    ghost failures = { λ s. failures_of s.log.now };

    fn size(&self) -> u32 {
        self.log.size(self.snapshot)
    }

    fn page_size(&self) -> usize {
        self.log.page_size() as usize
    }

    fn load(&mut self, number: u32) -> R<()> {
        fill(self.log, self.snapshot, number, self.buffer)
    }

    fn loaded(&self) -> &[u8] {
        self.buffer.as_slice()
    }
}

/// Finds a page that a writer sees: its place among the changed ones, which is looked for at a known one first, or None where it is read into the
/// buffer. (`Damaged` for a number outside 1 to the size; what `fill` refuses.)
fn fetch<D: Disk + Drop>(
    log: &mut Log<D>,
    writer: &Writer,
    known: Option<usize>,
    number: u32,
    buffer: &mut Vec<u8>,
) -> R<Option<usize>>
    ensures kept { (state_of log.new ≡ state_of log.old)
        × KeepsFile D.tells D.file (db_of log.old) (db_of log.new)
        × KeepsFile D.tells D.file (log_of log.old) (log_of log.new) }
    ensures cause { HasCause false result log.old log.new }
    ensures bytes { (a w b : ℕ) → IsTrue (tells_writer (under_writer log.old writer.now a w b))
        → IfOk result (λ place. page_held place (changes_of writer.now) buffer.new.items
        ≡ page_at (map_over (under_reader log.old (snapshot_of writer.now) a b) writer.now) number) }
    ensures there { (a w b : ℕ) → IsTrue (tells_writer (under_writer log.old writer.now a w b))
        → IsThere (map_over (under_reader log.old (snapshot_of writer.now) a b) writer.now)
        (page_size_of writer.now) number
        → IfErr result IsOutside }
{
    if number == 0 || number > writer.size() {
        return Err(Fault::Damaged(Damage::Size, number));
    }
    match writer.place_from(known, number) {
        Some(index) => Ok(Some(index)),
        None => {
            fill(log, writer.snapshot(), number, buffer)?;
            Ok(None)
        }
    }
}

/// The bytes of a page that `fetch` found.
fn lend<'a>(writer: &'a Writer, place: Option<usize>, buffer: &'a [u8]) -> &'a [u8]
    ensures { result.now ≡ page_held place (changes_of writer.now) buffer.now }
{
    match place {
        Some(index) => writer.bytes_at(index),
        None => buffer,
    }
}

/// The bytes of a page that a writer sees, with these over a part of them. (`Damaged` where the page ends before; `Memory`, and what `fetch`
/// refuses.)
fn page_over<D: Disk + Drop>(
    alloc: Global,
    log: &mut Log<D>,
    writer: &Writer,
    number: u32,
    buffer: &mut Vec<u8>,
    offset: usize,
    bytes: &[u8],
) -> R<Vec<u8>>
    ensures kept { (state_of log.new ≡ state_of log.old)
        × KeepsFile D.tells D.file (db_of log.old) (db_of log.new)
        × KeepsFile D.tells D.file (log_of log.old) (log_of log.new) }
    ensures cause { HasCause false result log.old log.new }
    ensures written { (a w b : ℕ) → IsTrue (tells_writer (under_writer log.old writer.now a w b))
        → IfOk result (λ page. page.items
        ≡ written_over offset bytes.now (page_at (map_over (under_reader log.old (snapshot_of writer.now) a b) writer.now) number)) }
    ensures there { (a w b : ℕ) → IsTrue (tells_writer (under_writer log.old writer.now a w b))
        → IsThere (map_over (under_reader log.old (snapshot_of writer.now) a b) writer.now)
        (page_size_of writer.now) number
        → offset + length bytes.now ≤ page_size_of writer.now
        → IfErr result IsOutside }
{
    let place = fetch(log, writer, None, number, buffer)?;
    let mut page = lend(writer, place, buffer.as_slice()).to_vec(alloc)?;
    if !write_within(&mut page, offset, bytes) {
        return Err(Fault::Damaged(Damage::Page, number));
    }
    Ok(page)
}

/// The pages that a transaction sees, to be read alone.
#[derive(Drop)]
pub struct Viewing<'a, D: Disk + Drop> {
    pub log: &'a mut Log<D>,
    pub writer: &'a Writer,
    pub buffer: &'a mut Vec<u8>,
    /// The place of the loaded page among the changed ones; None where the buffer has it.
    pub place: Option<usize>,
}

impl<'a, D: Disk + Drop> Pages for Viewing<'a, D> {
    ghost Base = { UnderWriter };

    ghost below = { λ s. under_writer s.log.now s.writer.now s.log.ghost_name 0 s.buffer.ghost_name };

    ghost tells = { tells_writer };

    ghost limits = { λ under. limits_of under.page_size };

    ghost map = { λ s. map_over (under_reader s.log.now (snapshot_of s.writer.now) s.log.ghost_name s.buffer.ghost_name) s.writer.now };

    ghost count = { λ s. pages_of s.writer.now };

    ghost held = { λ s. page_held s.place (changes_of s.writer.now) s.buffer.now.items };

    ghost failures = { λ s. failures_of s.log.now };

    fn size(&self) -> u32 {
        self.writer.size()
    }

    fn page_size(&self) -> usize {
        self.writer.page_size()
    }

    fn load(&mut self, number: u32) -> R<()> {
        self.place = fetch(self.log, self.writer, self.place, number, self.buffer)?;
        Ok(())
    }

    fn loaded(&self) -> &[u8] {
        lend(self.writer, self.place, self.buffer.as_slice())
    }
}

/// The pages that a transaction sees.
#[derive(Drop)]
pub struct Writing<'a, D: Disk + Drop> {
    pub alloc: Global,
    pub log: &'a mut Log<D>,
    pub writer: &'a mut Writer,
    pub buffer: &'a mut Vec<u8>,
    /// The place of the loaded page among the changed ones; None where the buffer has it.
    pub place: Option<usize>,
}

impl<'a, D: Disk + Drop> Pages for Writing<'a, D> {
    ghost Base = { UnderWriter };

    ghost below = { λ s. under_writer s.log.now s.writer.now s.log.ghost_name s.writer.ghost_name s.buffer.ghost_name };

    ghost tells = { tells_writer };

    ghost limits = { λ under. limits_of under.page_size };

    ghost map = { λ s. map_over (under_reader s.log.now (snapshot_of s.writer.now) s.log.ghost_name s.buffer.ghost_name) s.writer.now };

    ghost count = { λ s. pages_of s.writer.now };

    ghost held = { λ s. page_held s.place (changes_of s.writer.now) s.buffer.now.items };

    ghost failures = { λ s. failures_of s.log.now };

    fn size(&self) -> u32 {
        self.writer.size()
    }

    fn page_size(&self) -> usize {
        self.writer.page_size()
    }

    fn load(&mut self, number: u32) -> R<()> {
        self.place = fetch(self.log, self.writer, self.place, number, self.buffer)?;
        Ok(())
    }

    fn loaded(&self) -> &[u8] {
        lend(self.writer, self.place, self.buffer.as_slice())
    }
}

impl<'a, D: Disk + Drop> WritePages for Writing<'a, D> {
    fn put(&mut self, number: u32, bytes: &[u8]) -> R<()> {
        let shown = self.log.size(self.writer.snapshot());
        self.writer.write(self.alloc, shown, number, bytes)
    }

    fn write_over(&mut self, number: u32, offset: usize, bytes: &[u8]) -> R<()> {
        if let Some(index) = self.writer.place_from(self.place, number) {
            return self
                .writer
                .write_part(self.alloc, index, number, offset, bytes);
        }
        let page = page_over(
            self.alloc,
            self.log,
            self.writer,
            number,
            self.buffer,
            offset,
            bytes,
        )?;
        let shown = self.log.size(self.writer.snapshot());
        self.writer
            .write(self.alloc, shown, number, page.as_slice())
    }

    fn grow(&mut self) -> R<u32> {
        self.writer.add(self.alloc)
    }
}
