//! Reading an index's entries in order.

ghost use Rattle.std.specs.Prelude.{◌≡◌, ◌≤◌, ◌++◌, ◌∷◌, [], List, ℕ, length, map, true, false, IsTrue, IfOk, IfErr, slice_index_or};
ghost use Rattle.sqlval.specs.Faults.{IsNotDiskFault, IsOrMemory};
ghost use Rattle.sqlval.specs.declared.value.Value.{Value as ValueIs};
ghost use Rattle.record.specs.Record.{IsRecord};
ghost use Rattle.pages.specs.Calls.{Stays};
ghost use Rattle.pages.specs.Map.{PageMap, page_at};
ghost use Rattle.tree_page.specs.Payload.{index_most};
ghost use Rattle.sqlval.specs.declared.collation.Collation.{Collation as CollationIs};
ghost use Rattle.tree_index.specs.Entries.{Entry, entries_from};
ghost use Rattle.tree_index.specs.Scanning.{CopiesEntries, CopiesFirst, CopiesLying, GivesBatch, GivesBelow, PushesEntry, PushesLying, ReadsEntry, coming};

use crate::cells::{at_page, child_of, len_of, local_in, most_in, start_of};
use crate::comparing::Key;
use crate::freeing::WAYS;
use crate::placing::place_of;
use pages::Pages;
use record::Record;
use sqlval::{Collation, Damage, Fault, R, Value};
use std::alloc::Global;
use std::mem::replace;
use tree_overflow::read_payload;
use tree_page::{Kind, TreePage};

/// Puts the record of the entry at a place of a page after what `out` has. (What `load` and `read_payload` refuse; `Damaged` for a page that
/// has no such entry.)
fn read_entry<P: Pages>(pages: &mut P, number: u32, place: usize, out: &mut Vec<u8>) -> R<()>
    ensures read { IsTrue (P.Pages.tells (P.Pages.below pages.old))
        → ReadsEntry (P.Pages.map pages.old) (P.Pages.limits (P.Pages.below pages.old)).page number
        place out.old.items out.new.items result }
    ensures stays { Stays P.Pages.below P.Pages.map P.Pages.count P.Pages.failures result pages.old pages.new }
{
    pages.load(number)?;
    let most = most_in(pages.page_size());
    let local = match local_in(pages.loaded(), number, place) {
        Ok(local) => local,
        Err(fault) => return Err(at_page(fault, number)),
    };
    let size = local.size;
    if size <= most as u64 {
        out.extend_from_slice(local.bytes)?;
        return Ok(());
    }
    // The chain is read through the same pages, which lend these bytes.
    let held = local.bytes.to_vec(*out.allocator())?;
    read_payload(pages, held.as_slice(), size, most, out)
}

/// Puts the record of the entry at a place of a page after those of the batch. (What `read_entry` refuses.)
fn push_entry<P: Pages>(pages: &mut P, number: u32, place: usize, batch: &mut Vec<Vec<u8>>) -> R<()>
    ensures pushed { IsTrue (P.Pages.tells (P.Pages.below pages.old))
        → PushesEntry (P.Pages.map pages.old) (P.Pages.limits (P.Pages.below pages.old)).page number place
        (map (λ bytes. bytes.items) batch.old.items) (map (λ bytes. bytes.items) batch.new.items) result }
    ensures stays { Stays P.Pages.below P.Pages.map P.Pages.count P.Pages.failures result pages.old pages.new }
{
    let mut entry = Vec::new(*batch.allocator());
    read_entry(pages, number, place, &mut entry)?;
    batch.push(entry)?;
    Ok(())
}

/// Memory for a record, without bytes: that of one of these, if there is one.
fn memory_of(alloc: Global, spare: &mut Vec<Vec<u8>>) -> Vec<u8>
    ensures { result.items ≡ [] }
{
    match spare.pop() {
        Some(mut bytes) => {
            bytes.clear();
            bytes
        }
        None => Vec::new(alloc),
    }
}

/// Puts the record of the entry at a place of a leaf after those of the batch, if it lies whole in its cell, of which `most` bytes at most lie
/// there. Answers whether it does. (As `TreePage::entry` refuses it; `Memory`.)
fn push_lying(
    page: &TreePage<'_>,
    number: u32,
    place: usize,
    most: usize,
    batch: &mut Vec<Vec<u8>>,
    spare: &mut Vec<Vec<u8>>,
) -> R<bool>
    ensures pushed { PushesLying page.now most place (map (λ bytes. bytes.items) batch.old.items)
        (map (λ bytes. bytes.items) batch.new.items) result }
    ensures not_disk { IfErr result IsNotDiskFault }
{
    let local = match page.entry(place) {
        Ok(local) => local,
        Err(fault) => return Err(at_page(fault, number)),
    };
    if local.size > most as u64 {
        return Ok(false);
    }
    let mut entry = memory_of(*batch.allocator(), spare);
    entry.extend_from_slice(local.bytes)?;
    batch.push(entry)?;
    Ok(true)
}

/// Puts the records of the entries of a leaf from a place up to another after those of the batch, as far as they lie whole in their cells. Answers
/// up to which place. (What `push_lying` refuses.)
fn copy_lying(
    page: &TreePage<'_>,
    number: u32,
    from: usize,
    upto: usize,
    most: usize,
    batch: &mut Vec<Vec<u8>>,
    spare: &mut Vec<Vec<u8>>,
) -> R<usize>
    ensures copied { CopiesLying page.now most from upto (map (λ bytes. bytes.items) batch.old.items)
        (map (λ bytes. bytes.items) batch.new.items) result }
    ensures from { IfOk result (λ at. from ≤ at) }
    ensures not_disk { IfErr result IsNotDiskFault }
{
    let mut at = from;
    'entries: while at < upto {
        if !push_lying(page, number, at, most, batch, spare)? {
            return Ok(at);
        }
        at += 1;
    }
    Ok(at)
}

/// The same for the page of these bytes, whatever it is: of a page that is no leaf none. (What `TreePage::over` and `copy_lying` refuse.)
fn copy_first(
    bytes: &[u8],
    number: u32,
    from: usize,
    upto: usize,
    most: usize,
    batch: &mut Vec<Vec<u8>>,
    spare: &mut Vec<Vec<u8>>,
) -> R<usize>
    ensures copied { (pages : PageMap) (size : ℕ) → bytes.now ≡ page_at pages number → most ≡ index_most size
        → CopiesFirst pages size number from upto (map (λ bytes. bytes.items) batch.old.items)
        (map (λ bytes. bytes.items) batch.new.items) result }
    ensures from { IfOk result (λ at. from ≤ at) }
    ensures not_disk { IfErr result IsNotDiskFault }
{
    let page = match TreePage::over(bytes, start_of(number)) {
        Ok(page) => page,
        Err(fault) => return Err(at_page(fault, number)),
    };
    match page.kind() {
        Kind::IndexLeaf => copy_lying(&page, number, from, upto, most, batch, spare),
        _ => Ok(from),
    }
}

/// Puts the records of the entries of a page from a place on after those of the batch, up to `most` of them. Answers whether these are all.
/// (What `len_of`, `load`, `copy_first` and `push_entry` refuse.)
fn copy_entries<P: Pages>(
    pages: &mut P,
    number: u32,
    place: usize,
    most: usize,
    batch: &mut Vec<Vec<u8>>,
    spare: &mut Vec<Vec<u8>>,
) -> R<bool>
    ensures copied { IsTrue (P.Pages.tells (P.Pages.below pages.old))
        → CopiesEntries (P.Pages.map pages.old)
        (P.Pages.limits (P.Pages.below pages.old)).page number place most
        (map (λ bytes. bytes.items) batch.old.items) (map (λ bytes. bytes.items) batch.new.items) result }
    ensures stays { Stays P.Pages.below P.Pages.map P.Pages.count P.Pages.failures result pages.old pages.new }
{
    let len = len_of(pages, number)?;
    let left = len.saturating_sub(place);
    let count = most.min(left);
    pages.load(number)?;
    let whole = most_in(pages.page_size());
    let first = copy_first(
        pages.loaded(),
        number,
        place,
        place + count,
        whole,
        batch,
        spare,
    )?;
    'entries: for at in first..place + count {
        push_entry(pages, number, at, batch)?;
    }
    Ok(left <= most)
}

/// Puts the records of the first entries that come in the subtree under a page after those of the batch: up to `most` of a leaf (one, if that
/// is 0), and if these are all of the leaf, the entry after them. Answers whether these are all. `spare` has records whose memory is used again.
/// (`Damaged(Depth, number)` if a way has more pages than `ways` below it; what `place_of`, `child_of` and `push_entry` refuse.)
fn batch_below<P: Pages>(
    pages: &mut P,
    number: u32,
    ways: u32,
    key: Key<'_>,
    after: bool,
    most: usize,
    batch: &mut Vec<Vec<u8>>,
    spare: &mut Vec<Vec<u8>>,
    scratch: &mut Vec<u8>,
) -> R<bool>
    ensures given { IsTrue (P.Pages.tells (P.Pages.below pages.old))
        → GivesBelow (P.Pages.map pages.old) (P.Pages.limits (P.Pages.below pages.old)).page number ways after
        key.entry.columns.now key.entry.values.now (map (λ bytes. bytes.items) batch.old.items)
        (map (λ bytes. bytes.items) batch.new.items) result }
    ensures stays { Stays P.Pages.below P.Pages.map P.Pages.count P.Pages.failures result pages.old pages.new }
{
    let place = place_of(pages, number, key, after, scratch)?;
    let Some(child) = child_of(pages, number, place)? else {
        let all = copy_entries(pages, number, place, most.max(1), batch, spare)?;
        return Ok(all);
    };
    if ways == 0 {
        return Err(Fault::Damaged(Damage::Depth, number));
    }
    if !batch_below(
        pages,
        child,
        ways - 1,
        key,
        after,
        most,
        batch,
        spare,
        scratch,
    )? {
        return Ok(false);
    }
    if place >= len_of(pages, number)? {
        return Ok(true);
    }
    push_entry(pages, number, place, batch)?;
    Ok(false)
}

/// The values of a record. (`Memory`.)
fn values_of(alloc: Global, record: &Record<'_>) -> R<Vec<Value>>
    ensures are { IfOk result (λ values. values.items ≡ record.now) }
    ensures refused { IfErr result (λ fault. fault ≡ Fault.Memory) }
{
    let mut values = Vec::new(alloc);
    'values: for place in 0..record.len() {
        let value = record.column(place).to_value(alloc)?;
        values.push(value)?;
    }
    Ok(values)
}

/// The values of the record of these bytes. (`Memory`, and what `Record::over` refuses.)
fn values_in(alloc: Global, bytes: &[u8]) -> R<Vec<Value>>
    ensures only { (entry : List ValueIs) → IsRecord bytes.now entry
        → IsOrMemory (λ values. values.items ≡ entry) result }
    ensures not_disk { IfErr result IsNotDiskFault }
{
    let record = Record::over(alloc, bytes)?;
    values_of(alloc, &record)
}

/// The values of the last of these records. (`Memory`, and what `Record::over` refuses; `Damaged(Record, 0)` if there is none.)
fn last_values(alloc: Global, batch: &[Vec<u8>]) -> R<Vec<Value>>
    ensures only { (front : List (List ℕ)) (last : List ℕ) (entry : List ValueIs)
        → map (λ bytes. bytes.items) batch.now ≡ front ++ last ∷ []
        → IsRecord last entry → IsOrMemory (λ values. values.items ≡ entry) result }
    ensures not_disk { IfErr result IsNotDiskFault }
{
    let Some(last) = batch.last() else {
        return Err(Fault::Damaged(Damage::Record, 0));
    };
    values_in(alloc, last.as_slice())
}

/// How many records of a leaf the first batch of a cursor has at most.
const FIRST: usize = 8;

/// How many records of a leaf a batch has at most.
const MOST: usize = 4096;

/// A place among the entries of an index's tree: before those from a key on, or before those after it; or at the end.
#[derive(Drop)]
pub struct Cursor {
    /// The page of the tree's root.
    pub root: u32,
    /// The values of an entry, or its first ones.
    pub key: Vec<Value>,
    /// Whether entries that equal the key are passed too.
    pub after: bool,
    /// Whether all entries are passed.
    pub ended: bool,
    /// How many records of a leaf the next batch has at most.
    most: usize,
}

impl Cursor {
    /// The place before the entries from a key on. Those that begin with the key come first.
    pub fn seek(root: u32, key: Vec<Value>) -> Cursor
        ensures root { result.root ≡ root }
        ensures from { (columns : List CollationIs) (entries : List Entry)
            → coming result.ended result.after columns result.key.items entries
            ≡ entries_from false columns key.items entries }
    {
        Cursor::new(root, key, false)
    }

    /// The place before the entries from a key on; or, if `after`, before the greater ones, past those that begin with the key.
    pub fn new(root: u32, key: Vec<Value>, after: bool) -> Cursor
        ensures root { result.root ≡ root }
        ensures from { (columns : List CollationIs) (entries : List Entry)
            → coming result.ended result.after columns result.key.items entries
            ≡ entries_from after columns key.items entries }
    {
        Cursor {
            root,
            key,
            after,
            ended: false,
            most: FIRST,
        }
    }

    /// The place where `new` stands. The first batch has at most two records of a leaf: enough to see whether a second entry follows.
    pub fn brief(root: u32, key: Vec<Value>, after: bool) -> Cursor
        ensures root { result.root ≡ root }
        ensures from { (columns : List CollationIs) (entries : List Entry)
            → coming result.ended result.after columns result.key.items entries
            ≡ entries_from after columns key.items entries }
    {
        Cursor {
            root,
            key,
            after,
            ended: false,
            most: 2,
        }
    }

    /// Reads the records of the next entries in place of those that the batch has: at least one, unless the cursor is at the end; few at first,
    /// and more each time. (`Memory`, `Io`; for pages that aren't an index's tree, what `batch_below` and `last_values` refuse.)
    pub fn next_batch<P: Pages>(
        &mut self,
        pages: &mut P,
        columns: &[Collation],
        batch: &mut Vec<Vec<u8>>,
    ) -> R<()>
        ensures given { IsTrue (P.Pages.tells (P.Pages.below pages.old))
            → GivesBatch (P.Pages.map pages.old)
            (P.Pages.limits (P.Pages.below pages.old)).page self.old.root columns.now
            (coming self.old.ended self.old.after columns.now self.old.key.items)
            (coming self.new.ended self.new.after columns.now self.new.key.items)
            self.new.ended (map (λ bytes. bytes.items) batch.new.items) result }
        ensures root { self.new.root ≡ self.old.root }
        ensures stays { Stays P.Pages.below P.Pages.map P.Pages.count P.Pages.failures result
            pages.old pages.new }
    {
        let alloc = *batch.allocator();
        let mut spare = replace(batch, Vec::new(alloc));
        if self.ended {
            return Ok(());
        }
        let mut scratch = Vec::new(alloc);
        let key = Key {
            columns,
            values: self.key.as_slice(),
        };
        let most = self.most;
        let whole = batch_below(
            pages,
            self.root,
            WAYS,
            key,
            self.after,
            most,
            batch,
            &mut spare,
            &mut scratch,
        )?;
        if whole {
            self.ended = true;
            return Ok(());
        }
        self.key = last_values(alloc, batch.as_slice())?;
        self.after = true;
        self.most = most.saturating_mul(2).min(MOST);
        Ok(())
    }
}
