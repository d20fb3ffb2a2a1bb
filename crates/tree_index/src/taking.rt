//! Taking entries off a leaf, one after another.

ghost use Rattle.std.specs.Prelude.{◌≡◌, ◌≤◌, ℕ, IsTrue, IfOk, IfSome, length};
ghost use Rattle.pages.specs.Calls.{Causes};
ghost use Rattle.pages.specs.Map.{PageMap, page_at};
ghost use Rattle.tree_page.specs.Payload.{index_most};
ghost use Rattle.tree_index.specs.Taking.{ComparesWhole, IsWholeAt, Leaps, RunsOff, TakesNext};
ghost use Rattle.tree_index.specs.declared.taking.Landing.TheVariants as TheLanding;

use crate::cells::{len_in, most_in, start_of};
use crate::comparing::{Key, order_on};
use pages::WritePages;
use sqlval::{Collation, Many, R, Value};
use std::alloc::Global;
use std::cmp::Ordering;
use tree_page::TreePage;
use tree_store::take_off;

/// The order of a key and the entry at a place of the page of these bytes, of which `most` lie whole in a cell. (None where there is no such
/// entry, or it goes on in overflow pages.)
pub(crate) fn whole_order(
    bytes: &[u8],
    number: u32,
    place: usize,
    most: usize,
    key: Key<'_>,
) -> Option<Ordering>
    ensures found { IfSome result (λ order. (pages : PageMap) (size : ℕ)
        → bytes.now ≡ page_at pages number → most ≡ index_most size
        → ComparesWhole pages size number place key.entry.columns.now key.entry.values.now order) }
{
    let Ok(page) = TreePage::over(bytes, start_of(number)) else {
        return None;
    };
    if place >= page.len() {
        return None;
    }
    order_on(&page, place, most, key)?.ok()
}

/// Whether the entry at a place of the page of these bytes equals the key, and lies whole in its cell, as `most` bytes do.
fn is_whole_at(bytes: &[u8], number: u32, place: usize, most: usize, key: Key<'_>) -> bool
    ensures found { IsTrue result → (pages : PageMap) (size : ℕ)
        → bytes.now ≡ page_at pages number → most ≡ index_most size
        → IsWholeAt pages size number key.entry.columns.now key.entry.values.now place }
{
    match whole_order(bytes, number, place, most, key) {
        Some(order) => order.is_eq(),
        None => false,
    }
}

/// Where leaps on a page come down.
#[derive(Clone, Copy, Drop)]
pub(crate) enum Landing {
    /// The entry at this place equals the key, and lies whole in its cell.
    There(usize),
    /// No such entry was met: the place that the key doesn't stand after; whether the key is known to stand after the entry before it, and before
    /// the one there.
    Gap(usize, bool, bool),
}

/// Where a key stands on the page of these bytes, from `low` on and up to `high`: sought in leaps that grow, the first one of `step` places, and then
/// by halving. (None where an entry on the way goes on in overflow pages.)
pub(crate) fn leap(
    bytes: &[u8],
    number: u32,
    low: usize,
    high: usize,
    step: usize,
    most: usize,
    key: Key<'_>,
) -> Option<Landing>
    requires { low ≤ high }
    ensures found { IfSome result (λ leap. (pages : PageMap) (size : ℕ)
        → bytes.now ≡ page_at pages number → most ≡ index_most size
        → Leaps pages size number key.entry.columns.now key.entry.values.now leap) }
{
    let mut low = low;
    let mut high = high;
    let mut step = step;
    let mut is_after = false;
    let mut is_before = false;
    'leaps: while low < high {
        let at = low + ((high - low) / 2).min(step);
        match whole_order(bytes, number, at, most, key)? {
            Ordering::Equal => return Some(Landing::There(at)),
            Ordering::Greater => {
                low = at + 1;
                is_after = true;
                step = step.saturating_mul(2);
            }
            Ordering::Less => {
                high = at;
                is_before = true;
            }
        }
    }
    Some(Landing::Gap(low, is_after, is_before))
}

/// The place of an entry that leaps came to.
fn place_there(leap: Landing) -> Option<usize>
    ensures { IfSome result (λ place. leap ≡ TheLanding.There place) }
{
    match leap {
        Landing::There(place) => Some(place),
        Landing::Gap(_, _, _) => None,
    }
}

/// How long the first leap is: entries that lie nearer are found by halving.
pub(crate) const FIRST_LEAP: usize = 3;

/// The place after this one of the entry on the page of these bytes that equals the key and lies whole in its cell: the next, or one that leaps
/// come to. (None where none is found, as where the key stands after the last entry.)
fn place_later(bytes: &[u8], number: u32, near: usize, most: usize, key: Key<'_>) -> Option<usize>
    ensures found { IfSome result (λ place. (pages : PageMap) (size : ℕ)
        → bytes.now ≡ page_at pages number → most ≡ index_most size
        → IsWholeAt pages size number key.entry.columns.now key.entry.values.now place) }
{
    let after = near.saturating_add(1);
    if is_whole_at(bytes, number, after, most, key) {
        return Some(after);
    }
    let len = len_in(bytes, number).ok()?;
    let low = after.saturating_add(1);
    if low >= len || whole_order(bytes, number, len - 1, most, key)?.is_gt() {
        return None;
    }
    place_there(leap(bytes, number, low, len, FIRST_LEAP, most, key)?)
}

/// The place before this one of such an entry, which halving comes to. (None where none is found, as where the key stands before the first entry.)
fn place_earlier(bytes: &[u8], number: u32, near: usize, most: usize, key: Key<'_>) -> Option<usize>
    ensures found { IfSome result (λ place. (pages : PageMap) (size : ℕ)
        → bytes.now ≡ page_at pages number → most ≡ index_most size
        → IsWholeAt pages size number key.entry.columns.now key.entry.values.now place) }
{
    if whole_order(bytes, number, 0, most, key)?.is_lt() {
        return None;
    }
    place_there(leap(bytes, number, 0, near, near, most, key)?)
}

/// The place of the entry on the page of these bytes that equals the key and lies whole in its cell, as `most` bytes do: sought at a place, after it as
/// `place_later` does, or before it. (None where none is found.)
fn place_near(bytes: &[u8], number: u32, near: usize, most: usize, key: Key<'_>) -> Option<usize>
    ensures found { IfSome result (λ place. (pages : PageMap) (size : ℕ)
        → bytes.now ≡ page_at pages number → most ≡ index_most size
        → IsWholeAt pages size number key.entry.columns.now key.entry.values.now place) }
{
    match whole_order(bytes, number, near, most, key)? {
        Ordering::Equal => Some(near),
        Ordering::Greater => place_later(bytes, number, near, most, key),
        Ordering::Less => place_earlier(bytes, number, near, most, key),
    }
}

/// The same, sought first at a place so far ahead, and then as `place_near` does.
fn place_ahead(
    bytes: &[u8],
    number: u32,
    near: usize,
    ahead: usize,
    most: usize,
    key: Key<'_>,
) -> Option<usize>
    ensures found { IfSome result (λ place. (pages : PageMap) (size : ℕ)
        → bytes.now ≡ page_at pages number → most ≡ index_most size
        → IsWholeAt pages size number key.entry.columns.now key.entry.values.now place) }
{
    let at = near.saturating_add(ahead);
    if ahead > 0 && is_whole_at(bytes, number, at, most, key) {
        return Some(at);
    }
    place_near(bytes, number, near, most, key)
}

/// Takes the entry of a key off a leaf in place, and answers where it was: sought as `place_ahead` does. (None where none is found, or it can't be
/// taken off in place: nothing has changed then. What `load` and `take_off` refuse.)
fn next_off<P: WritePages>(
    alloc: Global,
    pages: &mut P,
    number: u32,
    near: usize,
    ahead: usize,
    key: Key<'_>,
) -> R<Option<usize>>
    ensures taken { IsTrue (P.Pages.tells (P.Pages.below pages.old))
        → TakesNext (P.Pages.map pages.old) (P.Pages.map pages.new)
        (P.Pages.limits (P.Pages.below pages.old)).page number
        key.entry.columns.now key.entry.values.now result }
    ensures kept { P.Pages.below pages.new ≡ P.Pages.below pages.old }
    ensures causes { Causes result (P.Pages.failures pages.old) (P.Pages.failures pages.new) ⊥ }
{
    pages.load(number)?;
    let most = most_in(pages.page_size());
    let Some(place) = place_ahead(pages.loaded(), number, near, ahead, most, key) else {
        return Ok(None);
    };
    if take_off(alloc, pages, number, place)? {
        return Ok(Some(place));
    }
    Ok(None)
}

/// Takes entries off a leaf in place, in their order, up to the first that isn't there or can't be: how many. The first is sought at a place,
/// each other one as far from the one before as that was from its own, and then near it. (What `next_off` refuses.)
pub(crate) fn run_off<P: WritePages>(
    alloc: Global,
    pages: &mut P,
    number: u32,
    place: usize,
    columns: &[Collation],
    entries: &[Many<Value>],
) -> R<usize>
    ensures taken { IsTrue (P.Pages.tells (P.Pages.below pages.old))
        → RunsOff (P.Pages.map pages.old) (P.Pages.map pages.new)
        (P.Pages.limits (P.Pages.below pages.old)).page number columns.now entries.now result }
    ensures kept { P.Pages.below pages.new ≡ P.Pages.below pages.old }
    ensures causes { Causes result (P.Pages.failures pages.old) (P.Pages.failures pages.new) ⊥ }
{
    let mut near = place;
    let mut ahead = 0;
    let mut taken = 0;
    'run: while taken < entries.len() {
        let values = entries[taken].as_slice();
        let key = Key { columns, values };
        let Some(found) = next_off(alloc, pages, number, near, ahead, key)? else {
            return Ok(taken);
        };
        ahead = found.saturating_sub(near);
        near = found;
        taken += 1;
    }
    Ok(taken)
}
