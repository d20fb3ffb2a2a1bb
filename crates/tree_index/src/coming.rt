//! Putting entries on a leaf, one after another.

ghost use Rattle.std.specs.Prelude.{◌≡◌, ◌≤◌, ℕ, IsTrue, IfErr, IfOk, IfSome, length};
ghost use Rattle.pages.specs.Calls.{Causes};
ghost use Rattle.pages.specs.Map.{PageMap, page_at};
ghost use Rattle.tree_page.specs.Payload.{index_most};
ghost use Rattle.tree_index.specs.Coming.{IsBetweenAt, IsWholeCell, PutsNext, RunsOn};

use crate::cells::{len_in, most_in};
use crate::comparing::Key;
use crate::taking::{FIRST_LEAP, Landing, leap, whole_order};
use pages::WritePages;
use record::encode_row;
use sqlval::{Collation, Fault, Many, R, Value};
use std::alloc::Global;
use std::cmp::Ordering;
use tree_pack::entry_cell;
use tree_store::place_on;

/// Whether the key stands after the entry before a place of the page of these bytes, and before the one there, which both lie whole in their cells,
/// as `most` bytes do.
fn is_between(bytes: &[u8], number: u32, place: usize, most: usize, key: Key<'_>) -> bool
    ensures found { IsTrue result → (pages : PageMap) (size : ℕ)
        → bytes.now ≡ page_at pages number → most ≡ index_most size
        → IsBetweenAt pages size number key.entry.columns.now key.entry.values.now place }
{
    if place == 0 {
        return false;
    }
    let Some(Ordering::Greater) = whole_order(bytes, number, place - 1, most, key) else {
        return false;
    };
    match whole_order(bytes, number, place, most, key) {
        Some(Ordering::Less) => true,
        _ => false,
    }
}

/// The place on the page of these bytes where the key stands between two entries: sought from a place on. (None where it stands before that
/// place, or after the last entry.)
fn gap_from(bytes: &[u8], number: u32, near: usize, most: usize, key: Key<'_>) -> Option<usize>
    ensures found { IfSome result (λ place. (pages : PageMap) (size : ℕ)
        → bytes.now ≡ page_at pages number → most ≡ index_most size
        → IsBetweenAt pages size number key.entry.columns.now key.entry.values.now place) }
{
    let Ok(len) = len_in(bytes, number) else {
        return None;
    };
    let Some(Ordering::Less) = whole_order(bytes, number, len.saturating_sub(1), most, key) else {
        return None;
    };
    if near > len {
        return None;
    }
    let Landing::Gap(place, is_after, is_before) = leap(
        bytes, number, near, len, FIRST_LEAP, most, key,
    )?
    else {
        return None;
    };
    if is_after && is_before {
        return Some(place);
    }
    if is_between(bytes, number, place, most, key) {
        return Some(place);
    }
    None
}

/// The same, sought first at a place so far ahead, and then as `gap_from` does.
fn gap_ahead(
    bytes: &[u8],
    number: u32,
    near: usize,
    ahead: usize,
    most: usize,
    key: Key<'_>,
) -> Option<usize>
    ensures found { IfSome result (λ place. (pages : PageMap) (size : ℕ)
        → bytes.now ≡ page_at pages number → most ≡ index_most size
        → IsBetweenAt pages size number key.entry.columns.now key.entry.values.now place) }
{
    let at = near.saturating_add(ahead);
    if is_between(bytes, number, at, most, key) {
        return Some(at);
    }
    gap_from(bytes, number, near, most, key)
}

/// The cell of an entry that lies whole in it, as `most` bytes do. (None for a longer one, and for one that no record can hold.)
fn whole_cell(alloc: Global, most: usize, entry: &[Value]) -> R<Option<Vec<u8>>>
    ensures is { IfOk result (λ found. IfSome found (λ cell. (usable : ℕ) → most ≡ index_most usable
        → IsWholeCell usable entry.now cell.items)) }
    ensures refused { IfErr result (λ fault. fault ≡ Fault.Memory) }
{
    let Ok(payload) = encode_row(alloc, entry) else {
        return Ok(None);
    };
    if payload.len() > most {
        return Ok(None);
    }
    let cell = entry_cell(alloc, payload.len() as u64, payload.as_slice())?;
    Ok(Some(cell))
}

/// Puts the entry of a key on a leaf in place, where it comes between two others: sought as `gap_ahead` does. Answers where. (None where it doesn't
/// come so, or the page has no room for it: nothing has changed then. `Memory`; what `load` and `place_on` refuse.)
fn next_on<P: WritePages>(
    alloc: Global,
    pages: &mut P,
    number: u32,
    near: usize,
    ahead: usize,
    key: Key<'_>,
) -> R<Option<usize>>
    ensures put { IsTrue (P.Pages.tells (P.Pages.below pages.old))
        → PutsNext (P.Pages.map pages.old) (P.Pages.map pages.new)
        (P.Pages.limits (P.Pages.below pages.old)).page number
        key.entry.columns.now key.entry.values.now result }
    ensures kept { P.Pages.below pages.new ≡ P.Pages.below pages.old }
    ensures causes { Causes result (P.Pages.failures pages.old) (P.Pages.failures pages.new) ⊥ }
{
    pages.load(number)?;
    let most = most_in(pages.page_size());
    let Some(place) = gap_ahead(pages.loaded(), number, near, ahead, most, key) else {
        return Ok(None);
    };
    let Some(cell) = whole_cell(alloc, most, key.values)? else {
        return Ok(None);
    };
    if place_on(alloc, pages, number, place, cell.as_slice())? {
        return Ok(Some(place));
    }
    Ok(None)
}

/// Puts entries on a leaf in place, in their order, up to the first that doesn't come between two others or has no room: how many. The first is sought
/// from a place on, each other one as far after the one before as that was after its own, and then from there on. (What `next_on` refuses.)
pub(crate) fn run_on<P: WritePages>(
    alloc: Global,
    pages: &mut P,
    number: u32,
    place: usize,
    columns: &[Collation],
    entries: &[Many<Value>],
) -> R<usize>
    ensures put { IsTrue (P.Pages.tells (P.Pages.below pages.old))
        → RunsOn (P.Pages.map pages.old) (P.Pages.map pages.new)
        (P.Pages.limits (P.Pages.below pages.old)).page number columns.now entries.now result }
    ensures kept { P.Pages.below pages.new ≡ P.Pages.below pages.old }
    ensures causes { Causes result (P.Pages.failures pages.old) (P.Pages.failures pages.new) ⊥ }
{
    let mut near = place;
    let mut ahead = 0;
    let mut put = 0;
    'run: while put < entries.len() {
        let values = entries[put].as_slice();
        let key = Key { columns, values };
        let Some(found) = next_on(alloc, pages, number, near, ahead, key)? else {
            return Ok(put);
        };
        ahead = found.saturating_sub(near);
        near = found.saturating_add(1);
        put += 1;
    }
    Ok(put)
}
