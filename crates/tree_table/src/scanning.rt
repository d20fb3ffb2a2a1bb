//! Reading a tree's rows in order.

ghost use Rattle.std.specs.Prelude.{◌≡◌, ◌<◌, ◌≤◌, ◌+◌, ◌-◌, ◌^◌, ◌++◌, [], ◌∷◌, List, length, slice_index_or, take, drop, Some, IsTrue, IfOk, IfErr, OnOk};
ghost use Rattle.sqlval.specs.Faults.{IsNotDiskFault};
ghost use Rattle.pages.specs.Calls.{Stays};
ghost use Rattle.pages.specs.Counting as counting;
ghost use Rattle.pages.specs.Map.{page_at};
ghost use Rattle.tree_leaf.specs.Leaf.{Entry};
ghost use Rattle.tree_page.specs.Reading.{row_of};
ghost use Rattle.tree_table.specs.Scanning.{BeginsAll, CopiesRows, GivesBatch, GivesLeaf, IsForward, IsNextOf, entries_from, entry_in, start_at};
ghost use Rattle.tree_table.specs.Scanning.{AreBatched, CopiesShort, GoesOn, whole_row};

use crate::leaf::{at_page, start_of};
use crate::reading::{count_rows, read_long_row};
use crate::way::find_leaf;
use pages::Pages;
use sqlval::{Fault, R};
use std::alloc::Global;
use std::marker::Model;
use tree_page::{Row, TreePage};

/// A row of a batch: its rowid, and where its payload ends in the batch's bytes.
#[derive(Clone, Copy)]
pub struct BatchRow {
    pub rowid: i64,
    pub end: usize,
}

/// Rows that were read together, by rising rowid. It keeps its memory from batch to batch.
#[derive(Drop)]
pub struct Batch {
    rows: Vec<BatchRow>,
    bytes: Vec<u8>,
}

impl Model for Batch {
    ghost use Rattle.std.specs.Prelude.{List};
    ghost use Rattle.tree_leaf.specs.Leaf.{Entry};
    ghost use Rattle.tree_table.specs.Scanning.{entries_from};

    ghost Value = { List Entry };

    ghost view = { λ batch. entries_from 0 batch.rows.items batch.bytes.items };
}

/// A row of a batch, whose payload lies in it.
#[derive(Clone, Copy)]
pub struct BatchEntry<'a> {
    pub rowid: i64,
    pub payload: &'a [u8],
}

/// The bytes from a place up to another, as far as there are any.
fn part(bytes: &[u8], start: usize, end: usize) -> &[u8]
    ensures { result.now ≡ take (end - start) (drop start bytes.now) }
{
    let rest = &bytes[start.min(bytes.len())..];
    &rest[..end.saturating_sub(start).min(rest.len())]
}

/// A row whose payload begins at a place of these bytes.
fn entry_at(row: BatchRow, bytes: &[u8], start: usize) -> BatchEntry<'_>
    ensures { entry_in result ≡ record {
      rowid = row.rowid;
      payload = take (row.end - start)
          (drop start bytes.now);
    } }
{
    BatchEntry {
        rowid: row.rowid,
        payload: part(bytes, start, row.end),
    }
}

/// Where the payload of the row at a place begins.
fn start_in(rows: &[BatchRow], index: usize) -> usize
    requires { index < length rows.now }
    ensures { result ≡ start_at 0 rows.now index }
{
    if index == 0 { 0 } else { rows[index - 1].end }
}

/// The row at a place of these, whose payloads lie one after another.
fn nth_entry<'a>(rows: &[BatchRow], bytes: &'a [u8], index: usize) -> BatchEntry<'a>
    requires { index < length rows.now }
    ensures { (d : Entry) → entry_in result ≡ slice_index_or (entries_from 0 rows.now bytes.now) index d }
{
    entry_at(rows[index], bytes, start_in(rows, index))
}

/// Puts a row behind those of a batch. (`Memory`.)
fn put_row(row: Row<'_>, rows: &mut Vec<BatchRow>, out: &mut Vec<u8>) -> R<()>
    ensures put { (entries : List Entry) → AreBatched entries rows.old.items out.old.items
        → OnOk result (AreBatched (entries ++ whole_row (row_of row.entry) ∷ []) rows.new.items out.new.items) }
    ensures memory { IfErr result (λ fault. fault ≡ Fault.Memory) }
{
    out.extend_from_slice(row.payload.bytes)?;
    let end = out.len();
    rows.push(BatchRow {
        rowid: row.rowid,
        end,
    })?;
    Ok(())
}

/// Puts the rows of a leaf of these bytes from a place on behind those of a batch, up to the first whose payload has more than `most` bytes, and
/// answers its place, or that of the end. (`Memory`; `Damaged` for one that is no page of a tree, or whose rows aren't there.)
fn copy_short_rows(
    bytes: &[u8],
    leaf: u32,
    most: usize,
    place: usize,
    rows: &mut Vec<BatchRow>,
    out: &mut Vec<u8>,
) -> R<usize>
    ensures copied { CopiesShort bytes.now (counting.start_of leaf) most place rows.old.items out.old.items
        rows.new.items out.new.items result }
    ensures forward { IfOk result (λ to. place ≤ to) }
    ensures not_disk { IfErr result IsNotDiskFault }
{
    let page = TreePage::over(bytes, start_of(leaf))?;
    let len = page.len();
    let mut at = place;
    'rows: while at < len {
        let row = page.row(at)?;
        if row.payload.size > most as u64 {
            return Ok(at);
        }
        put_row(row, rows, out)?;
        at += 1;
    }
    Ok(at)
}

/// Like `copy_short_rows`, of a leaf that was loaded last: up to the first row with a chain.
fn copy_whole_rows<P: Pages>(
    pages: &P,
    leaf: u32,
    place: usize,
    rows: &mut Vec<BatchRow>,
    out: &mut Vec<u8>,
) -> R<usize>
    ensures copied { IsTrue (P.Pages.tells (P.Pages.below pages.now))
        → P.Pages.held pages.now ≡ page_at (P.Pages.map pages.now) leaf
        → GoesOn (P.Pages.map pages.now) (P.Pages.limits (P.Pages.below pages.now)).page leaf place
        rows.old.items out.old.items rows.new.items out.new.items result }
    ensures forward { IfOk result (λ to. place ≤ to) }
    ensures not_disk { IfErr result IsNotDiskFault }
{
    let most = pages.page_size().saturating_sub(35);
    match copy_short_rows(pages.loaded(), leaf, most, place, rows, out) {
        Ok(to) => Ok(to),
        Err(fault) => Err(at_page(fault, leaf)),
    }
}

/// Puts a row of a leaf behind those of a batch, whatever pages its payload lies on, and answers the place after it. The leaf is loaded
/// afterwards. (`Memory`; what `read_long_row` refuses.)
fn copy_long_row<P: Pages>(
    pages: &mut P,
    leaf: u32,
    place: usize,
    rows: &mut Vec<BatchRow>,
    out: &mut Vec<u8>,
) -> R<usize>
    requires { place + 1 < 2 ^ 64 }
    ensures copied { IsTrue (P.Pages.tells (P.Pages.below pages.old))
        → GoesOn (P.Pages.map pages.old) (P.Pages.limits (P.Pages.below pages.old)).page leaf place
        rows.old.items out.old.items rows.new.items out.new.items result }
    ensures next { IfOk result (λ to. to ≡ place + 1) }
    ensures held { IsTrue (P.Pages.tells (P.Pages.below pages.old))
        → OnOk result (P.Pages.held pages.new ≡ page_at (P.Pages.map pages.old) leaf) }
    ensures stays { Stays P.Pages.below P.Pages.map P.Pages.count P.Pages.failures result pages.old pages.new }
{
    let rowid = read_long_row(pages, leaf, place, out)?;
    let end = out.len();
    rows.push(BatchRow { rowid, end })?;
    Ok(place + 1)
}

/// Reads the rows of a leaf from a place on, in place of these rows and bytes. (What `count_rows` and `read_long_row` refuse.)
fn copy_rows<P: Pages>(
    pages: &mut P,
    leaf: u32,
    place: usize,
    rows: &mut Vec<BatchRow>,
    bytes: &mut Vec<u8>,
) -> R<()>
    ensures copied { IsTrue (P.Pages.tells (P.Pages.below pages.old))
        → CopiesRows (P.Pages.map pages.old) (P.Pages.limits (P.Pages.below pages.old)).page leaf place
        (entries_from 0 rows.new.items bytes.new.items) result }
    ensures stays { Stays P.Pages.below P.Pages.map P.Pages.count P.Pages.failures result pages.old pages.new }
{
    rows.clear();
    bytes.clear();
    let len = count_rows(pages, leaf)?;
    rows.reserve(len.saturating_sub(place))?;
    bytes.reserve(pages.page_size())?;
    let mut at = place;
    'rows: while at < len {
        at = copy_whole_rows(pages, leaf, at, rows, bytes)?;
        if at < len {
            at = copy_long_row(pages, leaf, at, rows, bytes)?;
        }
    }
    Ok(())
}

impl Batch {
    /// A batch without rows.
    pub fn new(alloc: Global) -> Batch
        ensures { result ≡ [] }
    {
        Batch {
            rows: Vec::new(alloc),
            bytes: Vec::new(alloc),
        }
    }

    /// The number of rows.
    pub fn len(&self) -> usize
        ensures { result ≡ length self.now }
    {
        self.rows.as_slice().len()
    }

    /// The row at a place.
    pub fn row(&self, index: usize) -> BatchEntry<'_>
        requires { index < length self.now }
        ensures { (d : Entry) → entry_in result ≡ slice_index_or self.now index d }
    {
        nth_entry(self.rows.as_slice(), self.bytes.as_slice(), index)
    }

    /// Lets go of all rows.
    fn clear(&mut self)
        ensures { self.new ≡ [] }
    {
        self.rows.clear();
        self.bytes.clear();
    }

    /// Reads the rows of a leaf from a place on, in place of those that the batch has. (What `copy_rows` refuses.)
    fn fill<P: Pages>(&mut self, pages: &mut P, leaf: u32, place: usize) -> R<()>
        ensures copied { IsTrue (P.Pages.tells (P.Pages.below pages.old))
            → CopiesRows (P.Pages.map pages.old)
            (P.Pages.limits (P.Pages.below pages.old)).page leaf place self.new result }
        ensures stays { Stays P.Pages.below P.Pages.map P.Pages.count P.Pages.failures result
            pages.old pages.new }
    {
        copy_rows(pages, leaf, place, &mut self.rows, &mut self.bytes)
    }
}

/// The rowid after that of a key, if there is one.
fn next_of(key: Option<i64>) -> Option<i64>
    ensures { IsNextOf key result }
{
    match key {
        None => None,
        Some(key) => key.checked_add(1),
    }
}

/// Reads the rows of the leaf where a rowid belongs, from that rowid on, in place of those that the batch has. Answers where the rows
/// after them begin. (What `find_leaf` and `copy_rows` refuse.)
fn next_leaf<P: Pages>(pages: &mut P, root: u32, next: i64, batch: &mut Batch) -> R<Option<i64>>
    ensures given { IsTrue (P.Pages.tells (P.Pages.below pages.old))
        → GivesLeaf (P.Pages.map pages.old) (P.Pages.limits (P.Pages.below pages.old)).page root
        next batch.new result }
    ensures forward { IfOk result (IsForward (Some next)) }
    ensures stays { Stays P.Pages.below P.Pages.map P.Pages.count P.Pages.failures result pages.old pages.new }
{
    let end = find_leaf(pages, root, next)?;
    batch.fill(pages, end.way.page, end.place)?;
    Ok(next_of(end.way.right))
}

/// A place among the rows of a tree: the least rowid that comes, or None at the end.
#[derive(Clone, Copy, Drop)]
pub struct Cursor {
    pub root: u32,
    pub next: Option<i64>,
}

impl Cursor {
    /// The place before all rows of the tree under a root.
    pub fn new(root: u32) -> Cursor
        ensures root { result.root ≡ root }
        ensures first { BeginsAll result.next }
    {
        Cursor {
            root,
            next: Some(i64::MIN),
        }
    }

    /// Reads the next rows of the tree in place of those that the batch has: at least one, unless the cursor is at the end. (`Memory`, `Io`;
    /// for pages that aren't a table's tree, what `get` refuses.)
    pub fn next_batch<P: Pages>(&mut self, pages: &mut P, batch: &mut Batch) -> R<()>
        ensures given { IsTrue (P.Pages.tells (P.Pages.below pages.old))
            → GivesBatch (P.Pages.map pages.old)
            (P.Pages.limits (P.Pages.below pages.old)).page self.old.root self.old.next
            self.new.next batch.new result }
        ensures forward { OnOk result (IsForward self.old.next self.new.next) }
        ensures root { self.new.root ≡ self.old.root }
        ensures stays { Stays P.Pages.below P.Pages.map P.Pages.count P.Pages.failures result
            pages.old pages.new }
    {
        batch.clear();
        'leaves: while let Some(next) = self.next {
            self.next = next_leaf(pages, self.root, next, batch)?;
            if batch.len() > 0 {
                return Ok(());
            }
        }
        Ok(())
    }
}
