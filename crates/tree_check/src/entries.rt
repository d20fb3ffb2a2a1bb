//! The check of entries: their payloads, and their order.

ghost use Rattle.std.specs.Prelude.{◌≡◌, ◌+◌, ℕ, List, length, IsTrue, IfOk, IfErr};
ghost use Rattle.sqlval.specs.Faults.{IsNotDiskFault};
ghost use Rattle.sqlval.specs.declared.value.Value.{Value as ValueIs};
ghost use Rattle.pages.specs.Calls.{Stays};
ghost use Rattle.pages.specs.Counting as counting;
ghost use Rattle.pages.specs.Map.{PageMap};
ghost use Rattle.record.specs.Record.{IsRecord};
ghost use Rattle.tree_page.specs.Cells.{Pairwise};
ghost use Rattle.tree_page.specs.Node.{Local as LocalIs, Entries, IsNode};
ghost use Rattle.tree_page.specs.Payload.{held_size, index_most};
ghost use Rattle.tree_page.specs.Reading.{local_of};
ghost use Rattle.tree_index.specs.Tree.{IsHeldAs};
ghost use Rattle.tree_check.specs.Checks.{CanMark};
ghost use Rattle.tree_check.specs.Exact.{AreTold};
ghost use Rattle.tree_check.specs.InOrder.{ChecksOrdered, IsNext};
ghost use Rattle.tree_check.specs.IndexTrees.{chain_of, chains_of, entry_in, entries_in};
ghost use Rattle.tree_check.specs.Tails.{ChecksPayload, payload_in};

use crate::bytes::{at_page, start_of};
use crate::chains::{add_tail, check_tails};
use crate::last::{LastEntry, copies_of};
use pages::Pages;
use record::{Record, bytes_determine_values};
use sqlval::{Collation, Damage, Fault, Many, R, Value};
use std::alloc::Global;
use std::mem::replace;
use tree_index::most_in;
use tree_overflow::read_payload;
use tree_page::{Local, TreePage};

/// Checks the chain of a payload, marks its pages, and answers a copy of the payload, where it doesn't lie whole in its cell. (What `add_tail`,
/// `check_tails` and `read_payload` refuse.)
fn check_payload<P: Pages>(
    alloc: Global,
    pages: &mut P,
    local: Local<'_>,
    marks: &mut Vec<bool>,
) -> R<Option<Vec<u8>>>
    ensures checked { (map : PageMap) (size : ℕ)
        → AreTold P.Pages.below P.Pages.tells P.Pages.limits P.Pages.map pages.old map size
        → CanMark map size marks.old.items
        → length local.entry.bytes.now ≡ held_size size (index_most size) local.entry.size
        → ChecksPayload (payload_in local.entry.bytes.now) map size
        (local_of local.entry) marks.old.items marks.new.items result }
    ensures long { length marks.new.items ≡ length marks.old.items }
    ensures stays { Stays P.Pages.below P.Pages.map P.Pages.count P.Pages.failures result pages.old pages.new }
{
    let usable = pages.page_size();
    let most = most_in(usable);
    let mut tails = Vec::new(alloc);
    add_tail(&mut tails, usable as u64, most as u64, local)?;
    check_tails(pages, tails.as_slice(), marks)?;
    if tails.is_empty() {
        return Ok(None);
    }
    let mut payload = Vec::new(alloc);
    read_payload(pages, local.bytes, local.size, most, &mut payload)?;
    Ok(Some(payload))
}

/// Whether an entry has a value for each column and a rowid, and comes after the last one.
fn is_next(columns: &[Collation], last: &LastEntry<'_>, entry: &Record<'_>) -> bool
    ensures { (IsTrue result → IsNext columns.now last.now entry.now)
        × (IsNext columns.now last.now entry.now → IsTrue result) }
{
    if entry.len() != columns.len() + 1 {
        return false;
    }
    last.is_before(columns, entry)
}

/// The record of these bytes as the next entry. (`Damaged(Order, 0)` if it isn't; what `Record::over` refuses.)
fn next_record<'a>(
    alloc: Global,
    columns: &[Collation],
    last: &LastEntry<'_>,
    payload: &'a [u8],
) -> R<Record<'a>>
    ensures found { IfOk result (λ entry. IsRecord payload.now entry
        × IsNext columns.now last.now entry) }
    ensures only { (entry : List ValueIs) → IsRecord payload.now entry
        → IsNext columns.now last.now entry
        → IfErr result (λ fault. fault ≡ Fault.Memory) }
    ensures not_disk { IfErr result IsNotDiskFault }
{
    let entry = Record::over(alloc, payload)?;
    if !is_next(columns, last, &entry) {
        return Err(Fault::Damaged(Damage::Order, 0));
    }
    Ok(entry)
}

/// The values of a record as the next entry. (`Memory`, and what `next_record` refuses.)
fn next_values(
    alloc: Global,
    columns: &[Collation],
    last: &LastEntry<'_>,
    payload: &[u8],
) -> R<Many<Value>>
    ensures found { IfOk result (λ entry. IsRecord payload.now entry
        × IsNext columns.now last.now entry) }
    ensures only { (entry : List ValueIs) → IsRecord payload.now entry
        → IsNext columns.now last.now entry
        → IfErr result (λ fault. fault ≡ Fault.Memory) }
    ensures not_disk { IfErr result IsNotDiskFault }
{
    let entry = next_record(alloc, columns, last, payload)?;
    Ok(copies_of(alloc, &entry)?)
}

/// The next entry, whose payload is this copy or, where there is none, these bytes. (What `next_record` and `next_values` refuse.)
fn next_entry<'a>(
    alloc: Global,
    columns: &[Collation],
    last: &LastEntry<'_>,
    bytes: &'a [u8],
    copy: Option<Vec<u8>>,
) -> R<LastEntry<'a>>
    ensures found { IfOk result (λ entry. IsRecord (payload_in bytes.now copy) entry
        × IsNext columns.now last.now entry) }
    ensures only { (entry : List ValueIs) → IsRecord (payload_in bytes.now copy) entry
        → IsNext columns.now last.now entry
        → IfErr result (λ fault. fault ≡ Fault.Memory) }
    ensures not_disk { IfErr result IsNotDiskFault }
{
    match copy {
        None => Ok(LastEntry::lying(next_record(alloc, columns, last, bytes)?)),
        Some(copy) => {
            let values = next_values(alloc, columns, last, copy.as_slice())?;
            Ok(LastEntry::copied(values))
        }
    }
}

/// Checks an entry on a page, which comes after the last one and is the last then, and marks the pages of its chain. (What `check_payload`
/// and `next_entry` refuse.)
fn check_lying<'a, P: Pages>(
    alloc: Global,
    pages: &mut P,
    page: u32,
    local: Local<'a>,
    columns: &[Collation],
    last: &mut LastEntry<'a>,
    marks: &mut Vec<bool>,
) -> R<()>
    ensures checked { (map : PageMap) (size : ℕ)
        → AreTold P.Pages.below P.Pages.tells P.Pages.limits P.Pages.map pages.old map size
        → CanMark map size marks.old.items
        → length local.entry.bytes.now ≡ held_size size (index_most size) local.entry.size
        → ChecksOrdered (IsHeldAs map size (local_of local.entry)) chain_of entry_in columns.now
        last.old last.new
        marks.old.items marks.new.items result }
    ensures long { length marks.new.items ≡ length marks.old.items }
    ensures stays { Stays P.Pages.below P.Pages.map P.Pages.count P.Pages.failures result pages.old pages.new }
{
    bytes_determine_values();
    let copy = check_payload(alloc, pages, local, marks)?;
    match next_entry(alloc, columns, last, local.bytes, copy) {
        Ok(entry) => {
            *last = entry;
            Ok(())
        }
        Err(fault) => Err(at_page(fault, page)),
    }
}

/// Checks an entry between subtrees, as `check_lying` does, with a copy of its values for the last one's. (What `check_lying` refuses; `Memory`.)
pub(crate) fn check_entry<P: Pages>(
    alloc: Global,
    pages: &mut P,
    page: u32,
    local: Local<'_>,
    columns: &[Collation],
    last: &mut Many<Value>,
    marks: &mut Vec<bool>,
) -> R<()>
    ensures checked { (map : PageMap) (size : ℕ)
        → AreTold P.Pages.below P.Pages.tells P.Pages.limits P.Pages.map pages.old map size
        → CanMark map size marks.old.items
        → length local.entry.bytes.now ≡ held_size size (index_most size) local.entry.size
        → ChecksOrdered (IsHeldAs map size (local_of local.entry)) chain_of entry_in columns.now
        last.old last.new
        marks.old.items marks.new.items result }
    ensures long { length marks.new.items ≡ length marks.old.items }
    ensures stays { Stays P.Pages.below P.Pages.map P.Pages.count P.Pages.failures result pages.old pages.new }
{
    let mut seen = LastEntry::copied(replace(last, Many::new(alloc)));
    check_lying(alloc, pages, page, local, columns, &mut seen, marks)?;
    *last = seen.into_values(alloc)?;
    Ok(())
}

/// Checks the entries of a leaf of these bytes where they lie, and marks the pages of their chains. (What `check_lying` refuses.)
fn check_each<'a, P: Pages>(
    alloc: Global,
    pages: &mut P,
    page: u32,
    bytes: &'a [u8],
    columns: &[Collation],
    last: &mut LastEntry<'a>,
    marks: &mut Vec<bool>,
) -> R<()>
    ensures checked { (map : PageMap) (size : ℕ)
        → AreTold P.Pages.below P.Pages.tells P.Pages.limits P.Pages.map pages.old map size
        → CanMark map size marks.old.items
        → (said : List LocalIs) → IsNode bytes.now (counting.start_of page) (Entries said)
        → length bytes.now ≡ size
        → ChecksOrdered (Pairwise (IsHeldAs map size) said) chains_of entries_in columns.now last.old last.new
        marks.old.items marks.new.items result }
    ensures long { length marks.new.items ≡ length marks.old.items }
    ensures stays { Stays P.Pages.below P.Pages.map P.Pages.count P.Pages.failures result pages.old pages.new }
{
    let leaf = TreePage::over(bytes, start_of(page))?;
    'entries: for index in 0..leaf.len() {
        let local = leaf.entry(index)?;
        check_lying(alloc, pages, page, local, columns, last, marks)?;
    }
    Ok(())
}

/// Checks the entries of a leaf of these bytes, and marks the pages of their chains. (What `check_each` refuses; `Memory`.)
pub(crate) fn check_entries<P: Pages>(
    alloc: Global,
    pages: &mut P,
    page: u32,
    bytes: &[u8],
    columns: &[Collation],
    last: &mut Many<Value>,
    marks: &mut Vec<bool>,
) -> R<()>
    ensures checked { (map : PageMap) (size : ℕ)
        → AreTold P.Pages.below P.Pages.tells P.Pages.limits P.Pages.map pages.old map size
        → CanMark map size marks.old.items
        → (said : List LocalIs) → IsNode bytes.now (counting.start_of page) (Entries said)
        → length bytes.now ≡ size
        → ChecksOrdered (Pairwise (IsHeldAs map size) said) chains_of entries_in columns.now last.old last.new
        marks.old.items marks.new.items result }
    ensures long { length marks.new.items ≡ length marks.old.items }
    ensures stays { Stays P.Pages.below P.Pages.map P.Pages.count P.Pages.failures result pages.old pages.new }
{
    let mut seen = LastEntry::copied(replace(last, Many::new(alloc)));
    check_each(alloc, pages, page, bytes, columns, &mut seen, marks)?;
    *last = seen.into_values(alloc)?;
    Ok(())
}
