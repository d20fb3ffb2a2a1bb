//! Which of a writer's changes a commit has to write.

ghost use Rattle.std.specs.Prelude.{◌≡◌, ◌≤◌, ◌↔◌, true, false, IfErr, IfOk};
ghost use Rattle.sqlval.specs.Faults.{IsOutside};
ghost use Rattle.wal_frame.specs.Accepted.{KeepsFile};
ghost use Rattle.wal.specs.ErrorCauses.{HasCause};
ghost use Rattle.wal.specs.LogState.{db_of, log_of, seen_by, state_of};
ghost use Rattle.pager.specs.Pruning.{AreAllThere, AreNew, AreNumbered, AreSome, IsShown, Prunes};
ghost use Rattle.pager.specs.Sound.{IsSound};
ghost use Rattle.pager.specs.Undo.{NumbersRise};
ghost use Rattle.pager.specs.Views.{Tells, changes_of, view_at};
ghost use Rattle.pager.specs.Limits.{page_size_of, pages_of};
ghost use Rattle.pager.specs.Writers.{makes_objects, snapshot_of};

use crate::pieces::Pieces;
use crate::sights::fill;
use crate::writer::Writer;
use disk::Disk;
use sqlval::R;
use std::alloc::{AllocError, Global};
use wal::{Log, PageImage, Snapshot};

/// Whether a page other than page 1 has the bytes that the snapshot shows. (What `fill` refuses.)
fn is_shown<D: Disk + Drop>(
    log: &mut Log<D>,
    snapshot: Snapshot,
    page: &PageImage,
    buffer: &mut Vec<u8>,
) -> R<bool>
    ensures kept { (state_of log.new ≡ state_of log.old)
        × KeepsFile D.tells D.file (db_of log.old) (db_of log.new)
        × KeepsFile D.tells D.file (log_of log.old) (log_of log.new) }
    ensures cause { HasCause false result log.old log.new }
    ensures shown { Tells log.old → seen_by snapshot ≤ (state_of log.old).frames
        → IfOk result (λ is. (is ≡ true) ↔ IsShown (view_at log.old snapshot) page.now) }
    ensures refused { Tells log.old → seen_by snapshot ≤ (state_of log.old).frames
        → AreAllThere (view_at log.old snapshot)
        → 1 ≤ page.now.number → IfErr result IsOutside }
{
    if page.number == 1 || page.number > log.size(snapshot) {
        return Ok(false);
    }
    fill(log, snapshot, page.number, buffer)?;
    Ok(buffer.as_slice() == page.bytes.as_slice())
}

/// Whether the snapshot shows one of these pages as it is. (What `is_shown` refuses.)
fn is_one_shown<D: Disk + Drop>(
    log: &mut Log<D>,
    snapshot: Snapshot,
    pages: &Pieces<PageImage>,
    buffer: &mut Vec<u8>,
) -> R<bool>
    ensures kept { (state_of log.new ≡ state_of log.old)
        × KeepsFile D.tells D.file (db_of log.old) (db_of log.new)
        × KeepsFile D.tells D.file (log_of log.old) (log_of log.new) }
    ensures cause { HasCause false result log.old log.new }
    ensures none { Tells log.old → seen_by snapshot ≤ (state_of log.old).frames
        → IfOk result (λ is. is ≡ false → AreNew (view_at log.old snapshot) pages.now.items pages.now.items) }
    ensures refused { Tells log.old → seen_by snapshot ≤ (state_of log.old).frames
        → AreAllThere (view_at log.old snapshot)
        → AreNumbered pages.now.items → IfErr result IsOutside }
{
    let mut place = 0;
    'pages: while place < pages.len() {
        if is_shown(log, snapshot, pages.at(place), buffer)? {
            return Ok(true);
        }
        place += 1;
    }
    Ok(false)
}

/// A copy of a page. (`Memory`.)
fn copy_of(alloc: Global, page: &PageImage) -> Result<PageImage, AllocError>
    ensures { IfOk result (λ copy. (copy.number ≡ page.now.number)
        × (copy.bytes.items ≡ page.now.bytes.items)) }
{
    Ok(PageImage {
        number: page.number,
        bytes: page.bytes.as_slice().to_vec(alloc)?,
    })
}

/// Copies of those of these pages that the snapshot doesn't show. (`Memory`, and what `is_shown` refuses.)
fn new_pages<D: Disk + Drop>(
    alloc: Global,
    log: &mut Log<D>,
    snapshot: Snapshot,
    pages: &Pieces<PageImage>,
    buffer: &mut Vec<u8>,
) -> R<Vec<PageImage>>
    ensures kept { (state_of log.new ≡ state_of log.old)
        × KeepsFile D.tells D.file (db_of log.old) (db_of log.new)
        × KeepsFile D.tells D.file (log_of log.old) (log_of log.new) }
    ensures cause { HasCause false result log.old log.new }
    ensures new { Tells log.old → seen_by snapshot ≤ (state_of log.old).frames
        → IfOk result (λ new. AreNew (view_at log.old snapshot) pages.now.items new.items) }
    ensures some { IfOk result (λ new. AreSome pages.now.items new.items) }
    ensures refused { Tells log.old → seen_by snapshot ≤ (state_of log.old).frames
        → AreAllThere (view_at log.old snapshot)
        → AreNumbered pages.now.items → IfErr result IsOutside }
{
    let mut new = Vec::new(alloc);
    let mut place = 0;
    'pages: while place < pages.len() {
        let page = pages.at(place);
        place += 1;
        if !is_shown(log, snapshot, page, buffer)? {
            new.push(copy_of(alloc, page)?)?;
        }
    }
    Ok(new)
}

impl Writer {
    ghost use Rattle.std.specs.Prelude.{◌≡◌, ◌≤◌, IfErr, IfOk};

    /// A writer over the same snapshot, with these changes and without a mark. (`Memory`.)
    fn with_pages(&self, alloc: Global, pages: Vec<PageImage>) -> Result<Writer, AllocError>
        requires { NumbersRise 0 pages.items }
        ensures changes { IfOk result (λ writer. changes_of writer ≡ pages.items) }
        ensures over { IfOk result (λ writer. (pages_of writer ≡ pages_of self.now)
            × (page_size_of writer ≡ page_size_of self.now)
            × (snapshot_of writer ≡ snapshot_of self.now)
            × (makes_objects writer ≡ makes_objects self.now)) }
    {
        let stamps = vec![in alloc; 0; pages.as_slice().len()]?;
        Ok(Writer {
            snapshot: self.snapshot,
            size: self.size,
            page_size: self.page_size,
            pages: Pieces::from_vec(alloc, pages)?,
            has_new_objects: self.has_new_objects,
            stamps: Pieces::from_vec(alloc, stamps)?,
            saved: Vec::new(alloc),
            marks: Vec::new(alloc),
            stamp: 0,
        })
    }

    /// A writer that sees the same, and has those of the changes that its commit has to write: page 1, and the pages whose bytes aren't
    /// those that the snapshot shows. None if that are all of them. (`Memory`, `Io`; what reading a page refuses.)
    pub fn pruned<D: Disk + Drop>(
        &self,
        alloc: Global,
        log: &mut Log<D>,
        buffer: &mut Vec<u8>,
    ) -> R<Option<Writer>>
        ensures kept { (state_of log.new ≡ state_of log.old)
            × KeepsFile D.tells D.file (db_of log.old) (db_of log.new)
            × KeepsFile D.tells D.file (log_of log.old) (log_of log.new) }
        ensures cause { HasCause false result log.old log.new }
        ensures pruned { Tells log.old → seen_by (snapshot_of self.now) ≤ (state_of log.old).frames
            → IsSound self.now
            → IfOk result (Prunes (view_at log.old (snapshot_of self.now)) self.now) }
        ensures refused { Tells log.old → seen_by (snapshot_of self.now) ≤ (state_of log.old).frames
            → IsSound self.now
            → AreAllThere (view_at log.old (snapshot_of self.now)) → IfErr result IsOutside }
    {
        if !is_one_shown(log, self.snapshot, &self.pages, buffer)? {
            return Ok(None);
        }
        let pages = new_pages(alloc, log, self.snapshot, &self.pages, buffer)?;
        Ok(Some(self.with_pages(alloc, pages)?))
    }
}
