//! What pages were before they changed, and how that is put back.

ghost use Rattle.std.specs.Prelude.{◌≡◌, ◌<◌, ◌≤◌, ◌+◌, ◌++◌, length, drop, set, take, vec_capacity, slice_index_or, IfErr, IfOk, IsFalse, IsTrue, OnOk};
ghost use Rattle.pager.specs.Pieces.{all_items};
ghost use Rattle.pager.specs.Undo.{NumbersRise, needed, newest_stamp, part_over, parts_over, stays, swapped, swapped_stamps, without, without_stamps};
ghost use Rattle.std.specs.List.{insert};
ghost use Rattle.sqlval.specs.declared.fault.Fault.TheVariants.{Memory};
ghost use Rattle.pager.specs.Writers.{AreBelow, EndsFrom, EndsWithin, IsAt, IsGapFor, Refills};

use crate::parts::write_within;
use crate::pieces::{Pieces, spot_of};
use sqlval::{Fault, R};
use std::alloc::Global;
use wal::PageImage;

/// What a page was before a change.
#[derive(Drop)]
pub enum Saved {
    /// A page of this number wasn't among the changed ones.
    Added(u32),
    /// It had this image, with this stamp.
    Changed(PageImage, u64),
    /// The page of this number had these bytes from this offset on.
    Part(u32, usize, Vec<u8>),
}

/// A moment to which a transaction's changes can go back.
#[derive(Clone, Copy)]
pub struct Mark {
    /// How much was saved before it.
    pub saved: usize,
    /// Pages with a lesser stamp have the image that they had then.
    pub stamp: u64,
    /// How many pages the database had.
    pub size: u32,
    /// Whether a new object was among the changes.
    pub has_new_objects: bool,
}

/// The place of a page among those by rising number, or the place where it would go.
fn page_in(pages: &[PageImage], number: u32) -> Result<usize, usize>
    ensures found { IfOk result (λ index. IsAt pages.now number index) }
    ensures gap { NumbersRise 0 pages.now → IfErr result (λ index. IsGapFor pages.now number index) }
    ensures within { IfErr result (λ index. index ≤ length pages.now) }
{
    pages.binary_search_by_key(&number, |page| page.number)
}

/// Whether some pages by rising number don't end before a number.
fn reaches(pages: &[PageImage], number: u32) -> bool
    ensures reached { IsTrue result → EndsFrom number pages.now }
    ensures below { NumbersRise 0 pages.now → IsFalse result → AreBelow number pages.now }
{
    match pages {
        [] => false,
        [.., last] => last.number >= number,
    }
}

/// The place of a page among those of all pieces, so many, or the place where it would go.
fn place_in(pieces: &[Vec<PageImage>], len: usize, number: u32) -> Result<usize, usize>
    requires { len ≡ length (all_items pieces.now) }
    ensures found { IfOk result (λ index. IsAt (all_items pieces.now) number index) }
    ensures gap { NumbersRise 0 (all_items pieces.now)
        → IfErr result (λ index. IsGapFor (all_items pieces.now) number index) }
{
    let mut before = 0;
    for piece in pieces {
        if reaches(piece, number) {
            return match page_in(piece, number) {
                Ok(at) => Ok(before + at),
                Err(at) => Err(before + at),
            };
        }
        before += piece.len();
    }
    Err(len)
}

/// The place of a page among those by rising number, or the place where it would go.
pub fn place_of(pages: &Pieces<PageImage>, number: u32) -> Result<usize, usize>
    ensures found { IfOk result (λ index. IsAt pages.now.items number index) }
    ensures gap { NumbersRise 0 pages.now.items → IfErr result (λ index. IsGapFor pages.now.items number index) }
{
    place_in(&pages.pieces, pages.len(), number)
}

/// Gives the page at a place of a piece other bytes, as many as it has.
fn refill_in(pages: &mut Vec<PageImage>, at: usize, bytes: &[u8])
    requires within { at < length pages.old.items }
    requires long { (d : PageImage) → length (slice_index_or pages.old.items at d).bytes.items
        ≡ length bytes.now }
    ensures { Refills at bytes.now pages.old.items pages.new.items }
{
    pages[at].bytes.copy_from_slice(bytes);
}

/// Gives the page at a place other bytes, as many as it has.
pub fn refill(pages: &mut Pieces<PageImage>, index: usize, bytes: &[u8])
    requires within { index < length pages.old.items }
    requires long { (d : PageImage) → length (slice_index_or pages.old.items index d).bytes.items
        ≡ length bytes.now }
    ensures { Refills index bytes.now pages.old.items pages.new.items }
{
    let spot = spot_of(&pages.pieces, index);
    refill_in(&mut pages.pieces[spot.piece], spot.at, bytes);
}

/// Writes bytes over a part of the page at a place of a piece. Where it ends before, nothing changes.
fn fill_in(pages: &mut Vec<PageImage>, at: usize, offset: usize, bytes: &[u8])
    requires { at < length pages.old.items }
    ensures { (d : PageImage) → pages.new.items
        ≡ set pages.old.items at (part_over offset bytes.now (slice_index_or pages.old.items at d)) }
{
    let _ = write_within(&mut pages[at].bytes, offset, bytes);
}

/// Writes bytes over a part of the page at a place. Where it ends before, nothing changes.
pub fn fill_part(pages: &mut Pieces<PageImage>, index: usize, offset: usize, bytes: &[u8])
    requires { index < length pages.old.items }
    ensures { (d : PageImage) → pages.new.items
        ≡ set pages.old.items index (part_over offset bytes.now (slice_index_or pages.old.items index d)) }
{
    let spot = spot_of(&pages.pieces, index);
    fill_in(&mut pages.pieces[spot.piece], spot.at, offset, bytes);
}

/// Puts a page and its stamp in their place. A refused page changes nothing.
pub fn insert_stamped(
    alloc: Global,
    pages: &mut Pieces<PageImage>,
    stamps: &mut Pieces<u64>,
    index: usize,
    page: PageImage,
    stamp: u64,
) -> R<()>
    requires within { index ≤ length pages.old.items }
    requires even { length stamps.old.items ≡ length pages.old.items }
    ensures pages { OnOk result (pages.new.items ≡ insert pages.old.items index page) }
    ensures stamps { OnOk result (stamps.new.items ≡ insert stamps.old.items index stamp) }
    ensures refused { IfErr result (λ fault. (fault ≡ Memory) × (pages.new.items ≡ pages.old.items)
        × (stamps.new.items ≡ stamps.old.items)) }
{
    stamps.insert(alloc, index, stamp)?;
    match pages.insert(alloc, index, page) {
        Ok(()) => Ok(()),
        Err(_) => {
            let _ = stamps.remove(index);
            Err(Fault::Memory)
        }
    }
}

/// Whether there are pages, and none past a size.
pub fn ends_within(pages: &Pieces<PageImage>, size: u32) -> bool
    ensures within { IsTrue result → EndsWithin size pages.now.items }
    ensures past { EndsWithin size pages.now.items → IsTrue result }
{
    let count = pages.len();
    if count == 0 {
        return false;
    }
    pages.at(count - 1).number <= size
}

/// The stamp of the newest mark, or 0.
pub fn newest_stamp(marks: &[Mark]) -> u64
    ensures { result ≡ newest_stamp marks.now }
{
    match marks {
        [] => 0,
        [.., last] => last.stamp,
    }
}

/// Gives a page its older image, where it is there.
pub fn put_back(
    pages: &mut Pieces<PageImage>,
    stamps: &mut Pieces<u64>,
    page: PageImage,
    stamp: u64,
)
    requires rises { NumbersRise 0 pages.old.items }
    requires even { length stamps.old.items ≡ length pages.old.items }
    ensures pages { pages.new.items ≡ swapped page pages.old.items }
    ensures stamps { stamps.new.items ≡ swapped_stamps page.number stamp pages.old.items stamps.old.items }
{
    if let Ok(index) = place_of(pages, page.number) {
        let _ = pages.replace(index, page);
        let _ = stamps.replace(index, stamp);
    }
}

/// Writes older bytes over a part of a page, where it is there.
pub fn part_back(pages: &mut Pieces<PageImage>, number: u32, offset: usize, bytes: &[u8])
    requires { NumbersRise 0 pages.old.items }
    ensures { pages.new.items ≡ parts_over number offset bytes.now pages.old.items }
{
    if let Ok(index) = place_of(pages, number) {
        fill_part(pages, index, offset, bytes);
    }
}

/// Takes a page out, where it is there.
pub fn take_out(pages: &mut Pieces<PageImage>, stamps: &mut Pieces<u64>, number: u32)
    requires rises { NumbersRise 0 pages.old.items }
    requires even { length stamps.old.items ≡ length pages.old.items }
    ensures pages { pages.new.items ≡ without number pages.old.items }
    ensures stamps { stamps.new.items ≡ without_stamps number pages.old.items stamps.old.items }
{
    if let Ok(index) = place_of(pages, number) {
        let _ = pages.remove(index);
        let _ = stamps.remove(index);
    }
}

/// Whether what was saved has to stay for marks up to this stamp.
fn stays(saved: &Saved, limit: u64) -> bool
    ensures { result ≡ stays limit saved.now }
{
    match saved {
        Saved::Added(_) => true,
        Saved::Changed(_, stamp) => *stamp < limit,
        Saved::Part(_, _, _) => true,
    }
}

/// Moves one that stays to the end of those that stayed, and returns where that is then.
fn step(saved: &mut Vec<Saved>, to: usize, at: usize, limit: u64) -> usize
    requires low { to ≤ at }
    requires high { at < length saved.old.items }
    ensures bounds { (to ≤ result) × (result ≤ at + 1) }
    ensures len { length saved.new.items ≡ length saved.old.items }
    ensures capacity { vec_capacity saved.new ≡ vec_capacity saved.old }
    ensures same { take result saved.new.items ++ needed limit (drop (at + 1) saved.new.items)
        ≡ take to saved.old.items
        ++ needed limit (drop at saved.old.items) }
{
    if !stays(&saved[at], limit) {
        return to;
    }
    saved.swap(to, at);
    to + 1
}

/// Leaves out those from a place on that don't have to stay.
pub fn leave_out(saved: &mut Vec<Saved>, from: usize, limit: u64)
    requires { from ≤ length saved.old.items }
    ensures left { saved.new.items ≡ take from saved.old.items ++ needed limit (drop from saved.old.items) }
    ensures capacity { vec_capacity saved.new ≡ vec_capacity saved.old }
{
    let mut to = from;
    let mut at = from;
    'saved: while at < saved.len() {
        to = step(saved, to, at, limit);
        at += 1;
    }
    saved.truncate(to);
}
