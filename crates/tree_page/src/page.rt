//! A page of a tree, read in place.

ghost use Rattle.std.specs.Prelude.{◌≡◌, ◌⊎◌, ◌<◌, ℕ, ℤ, Ok, Some, IfOk, IfErr, OnOk, [], List, length, slice_index_or};
ghost use Rattle.tree_page.specs.Bytes.{header_parts, header_on, IsNumberAt};
ghost use Rattle.tree_page.specs.Node.{Local as LocalIs, Node, Rows, Keys, Entries, Between as BetweenIs, IsNode, code_of};
ghost use Rattle.tree_page.specs.Reading.{Answers, count_of, last_of, numbers_of, NeverFall, below, type_of, local_of, row_of, key_of, between_of};
ghost use Rattle.tree_page.specs.Checking.{IsSaid};
ghost use Rattle.tree_page.specs.Laws.{SaysOne, StaysAfterFront};

use crate::cells::{find_between, find_cell, find_entry, find_key, find_number, find_row};
use crate::checking::check_cells;
use crate::header::{Header, read_header, read_last};
use crate::items::{Between, Key, Kind, Local, Row};
use sqlval::{Damage, Fault, R};
use std::marker::Model;

/// A page of a tree. It is read in place: nothing is copied, and no call but `check` takes memory.
#[derive(Drop)]
pub struct TreePage<'a> {
    bytes: &'a [u8],
    start: usize,
    header: Header,
    ghost sound: { header_on bytes.now start ≡ Some (header_parts header) },
}

impl<'a> Model for TreePage<'a> {
    ghost use Rattle.tree_page.specs.Reading.{Place};

    ghost Value = { Place };

    ghost view = { λ page. record { bytes = page.bytes.now; start = page.start } };
}

impl<'a> TreePage<'a> {
    /// The page whose header begins at an offset. (`Damaged(Page, 0)` for bytes that are no page of a tree, or too short for its
    /// header and pointers; the cells aren't looked at.)
    pub fn over(bytes: &'a [u8], start: usize) -> R<TreePage<'a>>
        ensures place { IfOk result (λ page. page ≡ record { bytes = bytes.now; start = start }) }
        ensures only { (node : Node) → IsNode bytes.now start node → IfErr result (λ fault. ⊥) }
        ensures refused { IfErr result (λ fault. fault ≡ Fault.Damaged Damage.Page 0) }
    {
        let Some(header) = read_header(bytes, start) else {
            return Err(Fault::Damaged(Damage::Page, 0));
        };
        Ok(TreePage {
            bytes,
            start,
            header,
        })
    }

    /// Checks that the page says something: each cell lies on the page behind the pointers, shares no byte with another, and is
    /// one of the page's kind. `taken` is only memory that is used again from page to page. (`Memory`; `Damaged(Cell, 0)` for a
    /// page that says nothing.)
    pub fn check(&self, taken: &mut Vec<bool>) -> R<()>
        ensures found { OnOk result (IsSaid self.now) }
        ensures only { (node : Node) → IsNode self.now.bytes self.now.start node
            → IfErr result (λ fault. fault ≡ Fault.Memory) }
        ensures refused { IfErr result (λ fault. (fault ≡ Fault.Memory)
            ⊎ (fault ≡ Fault.Damaged Damage.Cell 0)) }
    {
        check_cells(self.bytes, self.start, self.header, taken)
    }

    /// The kind of the page.
    pub fn kind(&self) -> Kind
        ensures { (node : Node) → IsNode self.now.bytes self.now.start node
            → type_of result ≡ code_of node }
    {
        self.header.kind
    }

    /// How many cells the page has.
    pub fn len(&self) -> usize
        ensures { (node : Node) → IsNode self.now.bytes self.now.start node
            → result ≡ count_of node }
    {
        usize::from(self.header.len)
    }

    /// The last child of an interior page.
    pub fn last_child(&self) -> Option<u32>
        ensures { (node : Node) → IsNode self.now.bytes self.now.start node
            → result ≡ last_of node }
    {
        read_last(self.bytes, self.start, self.header.kind)
    }

    /// The bytes of a cell. (`Damaged(Cell, 0)` if the page ends before, or has no such cell.)
    pub fn cell(&self, index: usize) -> R<&'a [u8]>
        ensures only { (node : Node) (is : IsNode self.now.bytes self.now.start node)
            → index < count_of node
            → Answers (λ cell. cell.now) result (slice_index_or is.cells index []) }
        ensures refused { IfErr result (λ fault. fault ≡ Fault.Damaged Damage.Cell 0) }
    {
        match find_cell(self.bytes, self.start, self.header, index) {
            Some(found) => Ok(found),
            None => Err(Fault::Damaged(Damage::Cell, 0)),
        }
    }

    /// A row of a table's leaf. (`Damaged(Cell, 0)` as for `cell`.)
    #[inline(always)]
    pub fn row(&self, index: usize) -> R<Row<'a>>
        ensures only { (rows : List (ℤ × LocalIs)) (d : ℤ × LocalIs)
            → IsNode self.now.bytes self.now.start (Rows rows)
            → index < length rows → Answers row_of result (slice_index_or rows index d) }
        ensures refused { IfErr result (λ fault. fault ≡ Fault.Damaged Damage.Cell 0) }
    {
        match find_row(self.bytes, self.start, self.header, index) {
            Some(found) => Ok(found),
            None => Err(Fault::Damaged(Damage::Cell, 0)),
        }
    }

    /// A child of a table's interior page, with its key. (`Damaged(Cell, 0)` as for `cell`.)
    pub fn key(&self, index: usize) -> R<Key>
        ensures only { (kids : List (ℕ × ℤ)) (last : ℕ) (d : ℕ × ℤ)
            → IsNode self.now.bytes self.now.start (Keys kids last)
            → index < length kids → Answers key_of result (slice_index_or kids index d) }
        ensures refused { IfErr result (λ fault. fault ≡ Fault.Damaged Damage.Cell 0) }
    {
        match find_key(self.bytes, self.start, self.header, index) {
            Some(found) => Ok(found),
            None => Err(Fault::Damaged(Damage::Cell, 0)),
        }
    }

    /// An entry of an index's leaf. (`Damaged(Cell, 0)` as for `cell`.)
    pub fn entry(&self, index: usize) -> R<Local<'a>>
        ensures only { (entries : List LocalIs) (d : LocalIs)
            → IsNode self.now.bytes self.now.start (Entries entries)
            → index < length entries → Answers local_of result (slice_index_or entries index d) }
        ensures refused { IfErr result (λ fault. fault ≡ Fault.Damaged Damage.Cell 0) }
    {
        match find_entry(self.bytes, self.start, self.header, index) {
            Some(found) => Ok(found),
            None => Err(Fault::Damaged(Damage::Cell, 0)),
        }
    }

    /// A child of an index's interior page, with the entry after it. (`Damaged(Cell, 0)` as for `cell`.)
    pub fn between(&self, index: usize) -> R<Between<'a>>
        ensures only { (kids : List (ℕ × LocalIs)) (last : ℕ) (d : ℕ × LocalIs)
            → IsNode self.now.bytes self.now.start (BetweenIs kids last) → index < length kids
            → Answers between_of result (slice_index_or kids index d) }
        ensures refused { IfErr result (λ fault. fault ≡ Fault.Damaged Damage.Cell 0) }
    {
        match find_between(self.bytes, self.start, self.header, index) {
            Some(found) => Ok(found),
            None => Err(Fault::Damaged(Damage::Cell, 0)),
        }
    }

    /// The rowid of a row, or the key of a child, on a page of a table. (`Damaged(Cell, 0)` as for `cell`.)
    fn number(&self, index: usize) -> R<i64>
        ensures only { IsNumberAt self.now index result }
        ensures refused { IfErr result (λ fault. fault ≡ Fault.Damaged Damage.Cell 0) }
    {
        match find_number(self.bytes, self.start, self.header, index) {
            Some(found) => Ok(found),
            None => Err(Fault::Damaged(Damage::Cell, 0)),
        }
    }

    /// The first place on a page of a table whose rowid, or key, isn't less; by halving, after a look at the last one, since most rows come after
    /// it. (`Damaged(Cell, 0)` as for `cell`.)
    pub fn place(&self, rowid: i64) -> R<usize>
        ensures only { (node : Node) (numbers : List ℤ) → IsNode self.now.bytes self.now.start node
            → numbers_of node ≡ Some numbers
            → NeverFall numbers → result ≡ Ok (below rowid numbers) }
        ensures refused { IfErr result (λ fault. fault ≡ Fault.Damaged Damage.Cell 0) }
    {
        let mut low = 0;
        let mut high = self.len();
        if high > 0 && self.number(high - 1)? < rowid {
            return Ok(high);
        }
        'halves: while low < high {
            let middle = low + (high - low) / 2;
            if self.number(middle)? < rowid {
                low = middle + 1;
            } else {
                high = middle;
            }
        }
        Ok(low)
    }
}

/// A page says one thing.
pub fn a_page_says_one_thing()
    ensures { SaysOne }
{}

/// What stands before a page's header says nothing of the page: on page 1 that is the header of the database.
pub fn a_front_says_nothing()
    ensures { StaysAfterFront }
{}
