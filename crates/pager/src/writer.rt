//! The pages that a transaction has changed.

ghost use Rattle.std.specs.Prelude.{◌+◌, ◌≤◌, length, vec_capacity};
ghost use Rattle.pager.specs.Undo.{IsKept, IsKept-prop, newest_stamp, older_than};

use crate::heading::rehead;
use crate::parts::write_within;
use crate::pieces::Pieces;
use crate::reading::{header_of, read_page};
use crate::restarting::begins_anew;
use crate::saved::{Mark, Saved, ends_within, fill_part, place_of, refill};
use crate::sizes::is_too_large;
use db_header::Header;
use disk::Disk;
use sqlval::limits::{MAX_DATABASE_BYTES, MAX_PAGES};
use sqlval::{Damage, Fault, R};
use std::alloc::{AllocError, Global};
use wal::{Log, PageImage, Snapshot};

/// How many changes may be saved before a part of a page is saved as the whole page.
const MOST_PARTS: usize = 256;

/// The pages that a transaction has changed, by rising number, page 1 among them, over a snapshot.
#[derive(Drop)]
pub struct Writer {
    pub(crate) snapshot: Snapshot,
    pub(crate) size: u32,
    pub(crate) page_size: u32,
    pub(crate) pages: Pieces<PageImage>,
    pub(crate) has_new_objects: bool,
    /// For each page the greatest stamp that there was when it came, or when its image before was saved.
    pub(crate) stamps: Pieces<u64>,
    /// What pages were since the oldest mark, the newest last. It has room for each page that is older than the newest mark.
    pub(crate) saved: Vec<Saved>,
    pub(crate) marks: Vec<Mark>,
    /// The greatest stamp so far.
    pub(crate) stamp: u64,
    ghost kept: { IsKept stamp saved.items pages.items stamps.items marks.items } by { IsKept-prop stamp saved.items pages.items stamps.items marks.items },
    ghost room: { older_than (newest_stamp marks.items) stamps.items + length saved.items ≤ vec_capacity saved },
}

impl Writer {
    ghost use Rattle.sqlval.specs.PageSizes.{IsPageSize};
    ghost use Rattle.std.specs.Prelude.{◌≡◌, ◌⊎◌, ◌↔◌, ◌<◌, ◌≤◌, ◌+◌, ℕ, List, replicate, slice_index_or, [], ◌∷◌, ◌++◌, length, drop, Ok, true, false, IfOk, IfErr, IfSome, IfNone, IsTrue, OnOk, vec_capacity};
    ghost use Rattle.sqlval.specs.Faults.{IsNotDiskFault, IsOutside};
    ghost use Rattle.sqlval.specs.declared.fault.Fault.TheVariants.{Memory, Io};
    ghost use Rattle.wal.specs.Anew.{IsStateCommitted};
    ghost use Rattle.wal.specs.Commits.{KeepsDisks};
    ghost use Rattle.wal.specs.LogState.{db_of, state_of, log_of, seen_by, size_of};
    ghost use Rattle.wal.specs.Laws.{IsAmong, IsNotAmong};
    ghost use Rattle.wal.specs.ErrorCauses.{HasCause};
    ghost use Rattle.wal_frame.specs.Accepted.{KeepsFile};
    ghost use Rattle.pages.specs.Map.{written_over};
    ghost use Rattle.pager.specs.Commits.{CommitsPages, IsRefusedCommit, LeavesCommit, MayCommit};
    ghost use Rattle.pager.specs.Limits as limits;
    ghost use Rattle.pager.specs.Limits.{one_more, pages_of, page_size_of};
    ghost use Rattle.pager.specs.Marks.{IsOverTheSame, marks_of, now_of};
    ghost use Rattle.pager.specs.Sights.{bytes_of};
    ghost use Rattle.pager.specs.Sound.{GetsPage, IsSound, KeepsRest, most_of};
    ghost use Rattle.pager.specs.Views.{ViewHas, IsViewPage, Tells, View, changes_of, view_at};
    ghost use Rattle.pager.specs.Writers.{DiffersInPages, EndsWithin, FirstIsBytes, HasHeader, IsAt, IsBegun, IsGapFor, IsHeaded, IsInPlace, IsNextHeader, IsConsistent, Reheads, SetsFirst, makes_objects, seen, snapshot_of};

    /// Starts a writer on a snapshot, with no change but a copy of page 1.
    pub fn begin<D: Disk + Drop>(alloc: Global, log: &mut Log<D>, snapshot: Snapshot) -> R<Writer>
        ensures kept { (state_of log.new ≡ state_of log.old)
            × KeepsFile D.tells D.file (db_of log.old) (db_of log.new)
            × KeepsFile D.tells D.file (log_of log.old) (log_of log.new) }
        ensures cause { HasCause false result log.old log.new }
        ensures stands { IfOk result (λ writer. snapshot_of writer ≡ snapshot) }
        ensures begun { Tells log.old → seen_by snapshot ≤ (state_of log.old).frames
            → 1 ≤ size_of snapshot
            → IfOk result (λ writer. IsBegun (view_at log.old snapshot) writer) }
        // Where page 1 exists, it is refused only if out of memory or if a disk's call failed.
        ensures there { (bytes : List ℕ) → Tells log.old
            → seen_by snapshot ≤ (state_of log.old).frames
            → IsViewPage (view_at log.old snapshot) 1 bytes
            → IfErr result IsOutside }
    {
        let bytes = read_page(alloc, log, snapshot, 1)?;
        let mut pages = Vec::new(alloc);
        pages.push(PageImage { number: 1, bytes })?;
        let mut stamps = Vec::new(alloc);
        stamps.push(0)?;
        Ok(Writer {
            snapshot,
            size: log.size(snapshot),
            page_size: log.page_size(),
            pages: Pieces::from_vec(alloc, pages)?,
            has_new_objects: false,
            stamps: Pieces::from_vec(alloc, stamps)?,
            saved: Vec::new(alloc),
            marks: Vec::new(alloc),
            stamp: 0,
        })
    }

    /// The snapshot that the writer started from.
    pub fn snapshot(&self) -> Snapshot
        ensures { result ≡ snapshot_of self.now }
    {
        self.snapshot
    }

    /// The place of a page among the changed ones, or the place where it would go.
    fn search(&self, number: u32) -> Result<usize, usize>
        ensures found { IfOk result (λ index. IsAt (changes_of self.now) number index) }
        ensures gap { IfErr result (λ index. IsGapFor (changes_of self.now) number index) }
    {
        place_of(&self.pages, number)
    }

    /// The content of a changed page; None if the page isn't changed.
    fn find(&self, number: u32) -> Option<&[u8]>
        ensures found { IfSome result (λ page. IsAmong (changes_of self.now) number page.now) }
        ensures none { IsConsistent self.now → IfNone result (IsNotAmong (changes_of self.now) number) }
    {
        match self.search(number) {
            Ok(index) => Some(self.pages.at(index).bytes.as_slice()),
            Err(_) => None,
        }
    }

    /// The number that a new page gets: one past the size. `Full` past the limits.
    pub fn next_number(&self) -> R<u32>
        ensures { result ≡ one_more (pages_of self.now) (page_size_of self.now) }
    {
        if self.size >= MAX_PAGES
            || u64::from(self.size + 1) * u64::from(self.page_size) > MAX_DATABASE_BYTES
        {
            return Err(Fault::Full);
        }
        Ok(self.size + 1)
    }

    /// The page size, in bytes.
    pub fn page_size(&self) -> usize
        ensures { result ≡ page_size_of self.now }
    {
        self.page_size as usize
    }

    /// Notes that the schema changes: the commit counts the schema cookie up.
    pub fn note_schema(&mut self)
        ensures noted { now_of self.new ≡ record (now_of self.old) { makes_objects = true } }
        ensures marks { marks_of self.new ≡ marks_of self.old }
        ensures stands { IsOverTheSame self.old self.new }
    {
        self.has_new_objects = true;
    }

    /// Commits the pages: page 1 gets the next change counter and the size, and the next schema cookie where an object
    /// was made. After a refusal the pages are as they were. Where nobody else sees the log's frames (`may_restart`) and all of them
    /// are copied, the log is begun anew.
    pub fn commit<D: Disk + Drop>(
        &mut self,
        alloc: Global,
        log: &mut Log<D>,
        may_restart: bool,
    ) -> R<()>
        ensures commits { (page : List ℕ) (header : Header) → MayCommit log.old self.old page header
            → OnOk result (CommitsPages log.old may_restart self.old page header log.new) }
        ensures refused { (page : List ℕ) (header : Header) → MayCommit log.old self.old page header
            → IfErr result (IsRefusedCommit log.old may_restart self.old page header log.new self.new) }
        // A crash leaves the frames of the newest view, or those of the one that the commit leaves, unless the log is as it was.
        ensures crash { (page : List ℕ) (header : Header) → MayCommit log.old self.old page header
            → (log_of log.new ≡ log_of log.old)
            ⊎ LeavesCommit log.old self.old page header log.new }
        ensures known { (page : List ℕ) (header : Header) → MayCommit log.old self.old page header
            → IsStateCommitted may_restart result (state_of log.old) (length (changes_of self.old))
            (pages_of self.old) (state_of log.new) }
        ensures disks { KeepsDisks D.tells D.failures (db_of log.old) (db_of log.new)
            (log_of log.old) (log_of log.new) }
        ensures cause { HasCause true result log.old log.new }
    {
        let old = self.header()?;
        let new = self.next_header(&old);
        self.set_header(&new);
        if self.join_pages(alloc).is_err() {
            self.set_header(&old);
            return Err(Fault::Memory);
        }
        let restarts = begins_anew(log, may_restart);
        if let Err(fault) = log.commit(alloc, self.pages.as_slice(), self.size, restarts) {
            self.set_header(&old);
            return Err(fault);
        }
        Ok(())
    }

    /// The header on page 1 as the commit is to leave it.
    fn next_header(&self, old: &Header) -> Header
        ensures page_size { result.page_size ≡ old.now.page_size }
        ensures next { 0 < pages_of self.now → IsNextHeader old.now result (makes_objects self.now)
            (pages_of self.now) }
    {
        let counter = old.change_counter.wrapping_add(1);
        let cookie = if self.has_new_objects {
            old.schema_cookie.wrapping_add(1)
        } else {
            old.schema_cookie
        };
        Header {
            change_counter: counter,
            version_valid_for: counter,
            size: self.size,
            schema_cookie: cookie,
            ..*old
        }
    }

    fn header(&self) -> R<Header>
        ensures size { IfOk result (λ header. IsPageSize header.page_size) }
        ensures only { (header : Header) → IsConsistent self.now
            → HasHeader (changes_of self.now) header → result ≡ Ok header }
        ensures refused { IfErr result (λ fault. IsNotDiskFault fault) }
    {
        match self.find(1) {
            Some(page) => header_of(page),
            None => Err(Fault::Damaged(Damage::Size, 1)),
        }
    }

    fn set_header(&mut self, header: &Header)
        requires { IsPageSize header.now.page_size }
        ensures reheads { (old : Header) → HasHeader (changes_of self.old) old
            → Reheads (changes_of self.old) (changes_of self.new) header.now }
        ensures rest { (pages_of self.new ≡ pages_of self.old)
            × (page_size_of self.new ≡ page_size_of self.old)
            × (snapshot_of self.new ≡ snapshot_of self.old)
            × (makes_objects self.new ≡ makes_objects self.old) }
        ensures first { SetsFirst (changes_of self.old) (changes_of self.new) }
        ensures bytes { FirstIsBytes (changes_of self.old) }
        ensures log { (self.new.saved ≡ self.old.saved) × (self.new.marks ≡ self.old.marks) }
    {
        rehead(&mut self.pages, header);
    }

    /// Puts all pages into one piece. If out of memory, nothing changes.
    fn join_pages(&mut self, alloc: Global) -> Result<(), AllocError>
        ensures whole { OnOk result (IsTrue self.new.pages.is_whole) }
        ensures pages { changes_of self.new ≡ changes_of self.old }
        ensures rest { (pages_of self.new ≡ pages_of self.old)
            × (page_size_of self.new ≡ page_size_of self.old)
            × (snapshot_of self.new ≡ snapshot_of self.old)
            × (makes_objects self.new ≡ makes_objects self.old) }
        ensures log { (self.new.saved ≡ self.old.saved) × (self.new.marks ≡ self.old.marks) }
    {
        self.pages.join(alloc)
    }

    /// The number of pages.
    pub(crate) fn size(&self) -> u32
        ensures { result ≡ pages_of self.now }
    {
        self.size
    }

    /// The place of a page among the changed ones; None if the page isn't changed.
    pub(crate) fn place(&self, number: u32) -> Option<usize>
        ensures found { IfSome result (λ index. IsAt (changes_of self.now) number index) }
        ensures none { IsConsistent self.now → IfNone result (IsNotAmong (changes_of self.now) number) }
    {
        match self.search(number) {
            Ok(index) => Some(index),
            Err(_) => None,
        }
    }

    /// Whether the changed page at a place has this number.
    fn is_at(&self, index: usize, number: u32) -> bool
        ensures { IsTrue result → IsAt (changes_of self.now) number index }
    {
        index < self.pages.len() && self.pages.at(index).number == number
    }

    /// The place of a page among the changed ones, which is looked for at a known one first; None if the page isn't changed.
    pub(crate) fn place_from(&self, known: Option<usize>, number: u32) -> Option<usize>
        ensures found { IfSome result (λ index. IsAt (changes_of self.now) number index) }
        ensures none { IsConsistent self.now → IfNone result (IsNotAmong (changes_of self.now) number) }
    {
        if let Some(index) = known {
            if self.is_at(index, number) {
                return Some(index);
            }
        }
        self.place(number)
    }

    /// The bytes of the changed page at a place, and none past the last place.
    pub(crate) fn bytes_at(&self, index: usize) -> &[u8]
        ensures { result.now ≡ slice_index_or (bytes_of (changes_of self.now)) index [] }
    {
        if index >= self.pages.len() {
            return &[];
        }
        self.pages.at(index).bytes.as_slice()
    }

    /// Gives the changed page at a place these bytes. (`Damaged` where it had another length;
    /// `Memory` where its image has to be saved.)
    fn overwrite(&mut self, alloc: Global, index: usize, number: u32, bytes: &[u8]) -> R<()>
        requires place { IsAt (changes_of self.old) number index }
        requires length { length bytes.now ≡ page_size_of self.old }
        ensures rest { KeepsRest self.old self.new }
        ensures size { pages_of self.new ≡ pages_of self.old }
        ensures page { IsConsistent self.old → OnOk result (GetsPage number bytes.now self.old self.new) }
        ensures there { IsConsistent self.old → IfErr result (λ fault. fault ≡ Memory) }
        ensures not_disk { IfErr result (λ fault. IsNotDiskFault fault) }
    {
        if self.pages.at(index).bytes.len() != bytes.len() {
            return Err(Fault::Damaged(Damage::Page, number));
        }
        if self.is_saved(index) {
            refill(&mut self.pages, index, bytes);
            return Ok(());
        }
        let bytes = bytes.to_vec(alloc)?;
        self.replace(index, PageImage { number, bytes });
        Ok(())
    }

    /// Whether the changed page at a place is as long as a page, and has so many bytes from an offset on.
    fn has_room(&self, index: usize, offset: usize, count: usize) -> bool
        requires { index < length (changes_of self.now) }
        ensures long { IsTrue result → (d : PageImage)
            → length (slice_index_or (changes_of self.now) index d).bytes.items ≡ page_size_of self.now }
        ensures fits { IsTrue result → offset + count ≤ page_size_of self.now }
        ensures there { IsConsistent self.now → offset + count ≤ page_size_of self.now → IsTrue result }
    {
        let size = self.page_size();
        if self.pages.at(index).bytes.len() != size {
            return false;
        }
        offset <= size && count <= size - offset
    }

    /// Whether what stood on a part of a page is saved as that part, and not as the page: while there is no mark but a statement's, and
    /// little is saved since.
    fn saves_parts(&self) -> bool {
        self.marks.len() <= 1 && self.saved.len() < MOST_PARTS
    }

    /// Writes bytes over a part of the changed page at a place. (`Damaged` for a number outside 1 to the size, and where the page ends
    /// before; `Memory` where what stood there has to be saved.)
    pub(crate) fn write_part(
        &mut self,
        alloc: Global,
        index: usize,
        number: u32,
        offset: usize,
        bytes: &[u8],
    ) -> R<()>
        requires { IsAt (changes_of self.old) number index }
        ensures rest { KeepsRest self.old self.new }
        ensures size { pages_of self.new ≡ pages_of self.old }
        ensures page { IsConsistent self.old → OnOk result (GetsPage number
            (written_over offset bytes.now (slice_index_or (bytes_of (changes_of self.old)) index []))
            self.old self.new) }
        ensures there { IsConsistent self.old → 1 ≤ number → number ≤ pages_of self.old
            → offset + length bytes.now ≤ page_size_of self.old
            → IfErr result (λ fault. fault ≡ Memory) }
        ensures within { OnOk result ((1 ≤ number) × (number ≤ pages_of self.old)) }
        ensures not_disk { IfErr result (λ fault. IsNotDiskFault fault) }
    {
        if number == 0 || number > self.size {
            return Err(Fault::Damaged(Damage::Size, number));
        }
        if !self.has_room(index, offset, bytes.len()) {
            return Err(Fault::Damaged(Damage::Page, number));
        }
        if self.is_saved(index) {
            fill_part(&mut self.pages, index, offset, bytes);
            return Ok(());
        }
        if self.saves_parts() {
            return self.replace_part(alloc, index, offset, bytes);
        }
        let mut page = self.pages.at(index).bytes.as_slice().to_vec(alloc)?;
        let _ = write_within(&mut page, offset, bytes);
        self.replace(
            index,
            PageImage {
                number,
                bytes: page,
            },
        );
        Ok(())
    }

    /// Puts a page that the snapshot shows among the changed ones, at its place.
    fn insert(&mut self, alloc: Global, index: usize, page: PageImage) -> R<()>
        requires place { 1 ≤ index }
        requires gap { IsGapFor (changes_of self.old) page.number index }
        requires number { (1 ≤ page.number) × (page.number ≤ pages_of self.old)
            × (page.number ≤ size_of (snapshot_of self.old)) }
        requires length { length page.bytes.items ≡ page_size_of self.old }
        ensures rest { KeepsRest self.old self.new }
        ensures size { pages_of self.new ≡ pages_of self.old }
        ensures page { IsConsistent self.old → OnOk result
            (GetsPage page.number page.bytes.items self.old self.new) }
        ensures refused { IfErr result (λ fault. fault ≡ Memory) }
    {
        self.insert_page(alloc, index, page)?;
        Ok(())
    }

    /// Gives a page these bytes, over a snapshot of `shown` pages. (`Damaged` where the writer
    /// can't have the page, or for another length; `Memory`.)
    pub(crate) fn write(&mut self, alloc: Global, shown: u32, number: u32, bytes: &[u8]) -> R<()>
        requires { shown ≡ size_of (snapshot_of self.old) }
        ensures rest { KeepsRest self.old self.new }
        ensures size { pages_of self.new ≡ pages_of self.old }
        ensures page { IsConsistent self.old → OnOk result (GetsPage number bytes.now self.old self.new) }
        ensures there { IsSound self.old → 1 ≤ number → number ≤ pages_of self.old
            → length bytes.now ≡ page_size_of self.old
            → IfErr result (λ fault. fault ≡ Memory) }
        ensures within { OnOk result ((1 ≤ number) × (number ≤ pages_of self.old)) }
        ensures not_disk { IfErr result (λ fault. IsNotDiskFault fault) }
    {
        if number == 0 || number > self.size || bytes.len() != self.page_size() {
            return Err(Fault::Damaged(Damage::Size, number));
        }
        match self.search(number) {
            Ok(index) => self.overwrite(alloc, index, number, bytes),
            Err(index) => {
                if index == 0 || number > shown {
                    return Err(Fault::Damaged(Damage::Size, number));
                }
                let bytes = bytes.to_vec(alloc)?;
                self.insert(alloc, index, PageImage { number, bytes })
            }
        }
    }

    /// Adds a page of zeros at the end, and answers its number. (`Full` where there are as many
    /// pages as there may be; `Memory`; `Damaged` where the writer isn't sound.)
    pub(crate) fn add(&mut self, alloc: Global) -> R<u32>
        ensures rest { KeepsRest self.old self.new }
        ensures page { IsConsistent self.old
            → OnOk result (GetsPage (pages_of self.old + 1)
            (replicate (page_size_of self.old) 0) self.old self.new) }
        ensures counted { IfOk result (λ n. (n ≡ pages_of self.old + 1) × (pages_of self.new ≡ n)
            × (n ≤ most_of (page_size_of self.old))) }
        ensures full { IfErr result (λ fault. fault ≡ Fault.Full
            → pages_of self.new ≡ most_of (page_size_of self.new)) }
        ensures refused { IsSound self.old → IfErr result (λ fault. (fault ≡ Memory) ⊎ (fault ≡ Fault.Full)) }
        ensures not_io { IfErr result (λ fault. fault ≡ Io → ⊥) }
    {
        if !ends_within(&self.pages, self.size) || is_too_large(self.size, self.page_size) {
            return Err(Fault::Damaged(Damage::Size, self.size));
        }
        let number = self.next_number()?;
        let bytes = vec![in alloc; 0; self.page_size()]?;
        let index = self.pages.len();
        self.insert_page(alloc, index, PageImage { number, bytes })?;
        self.size = number;
        Ok(number)
    }
}
