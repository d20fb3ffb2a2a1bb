//! Where a key stands among the entries of a page.

ghost use Rattle.std.specs.Prelude.{◌≡◌, ℕ, IsTrue, IfErr, IfSome};
ghost use Rattle.sqlval.specs.Faults.{IsNotDiskFault};
ghost use Rattle.pages.specs.Calls.{Stays};
ghost use Rattle.pages.specs.Map.{PageMap, page_at};
ghost use Rattle.tree_page.specs.Payload.{index_most};
ghost use Rattle.tree_index.specs.Comparing.{FindsPlace};
ghost use Rattle.tree_index.specs.Entries.{is_passed};
ghost use Rattle.tree_index.specs.Growing.{FindsEqual, StepsFrom};

use crate::cells::{at_page, child_in, child_of, len_of, most_in, start_of};
use crate::comparing::{Key, order, order_on};
use pages::Pages;
use sqlval::R;
use std::cmp::Ordering;
use tree_page::TreePage;

/// Where the way to an entry goes on from a page.
#[derive(Clone, Copy, Drop)]
pub(crate) enum Step {
    /// The entry is at this place of the page.
    Found(usize),
    /// This leaf hasn't the entry. It would stand at this place.
    Here(usize),
    /// To the child at this place, with its page's number; the last child stands after all cells.
    Down(usize, u32),
}

/// Whether an entry that compares so with a key is passed: it is less, or, where the key itself is passed, equal.
fn is_past(order: Ordering, after: bool) -> bool
    ensures { result ≡ is_passed after order }
{
    if after { !order.is_lt() } else { order.is_gt() }
}

/// The first place on the page of these bytes, found as `place_of` does; None if the payload of an entry that is compared goes on in overflow
/// pages. (As `len_of` and `order_on` refuse it.)
pub(crate) fn place_in(
    bytes: &[u8],
    number: u32,
    most: usize,
    key: Key<'_>,
    after: bool,
) -> Option<R<usize>>
    ensures found { IfSome result (λ found. (pages : PageMap) (size : ℕ)
        → bytes.now ≡ page_at pages number → most ≡ index_most size
        → FindsPlace pages size number after key.entry.columns.now key.entry.values.now found) }
    ensures not_disk { IfSome result (λ found. IfErr found IsNotDiskFault) }
{
    let page = match TreePage::over(bytes, start_of(number)) {
        Ok(page) => page,
        Err(fault) => return Some(Err(at_page(fault, number))),
    };
    let mut low = 0;
    let mut high = page.len();
    'halves: while low < high {
        let middle = low + (high - low) / 2;
        let order = match order_on(&page, middle, most, key)? {
            Ok(order) => order,
            Err(fault) => return Some(Err(at_page(fault, number))),
        };
        if is_past(order, after) {
            low = middle + 1;
        } else {
            high = middle;
        }
    }
    Some(Ok(low))
}

/// The first place on a page, found as `place_of` does, where overflow pages may be read between its entries. (What `len_of` and `order`
/// refuse.)
fn place_over_chains<P: Pages>(
    pages: &mut P,
    number: u32,
    key: Key<'_>,
    after: bool,
    scratch: &mut Vec<u8>,
) -> R<usize>
    ensures found { IsTrue (P.Pages.tells (P.Pages.below pages.old))
        → FindsPlace (P.Pages.map pages.old) (P.Pages.limits (P.Pages.below pages.old)).page number
        after key.entry.columns.now key.entry.values.now result }
    ensures stays { Stays P.Pages.below P.Pages.map P.Pages.count P.Pages.failures result pages.old pages.new }
{
    let mut low = 0;
    let mut high = len_of(pages, number)?;
    'halves: while low < high {
        let middle = low + (high - low) / 2;
        let order = order(pages, number, middle, key, scratch)?;
        if is_past(order, after) {
            low = middle + 1;
        } else {
            high = middle;
        }
    }
    Ok(low)
}

/// The first place on a page whose entry isn't less than the key, or, where `after` is set, is greater, by halving: on the page as it
/// was loaded, unless an entry goes on in overflow pages. (What `load`, `len_of` and `order` refuse.)
pub(crate) fn place_of<P: Pages>(
    pages: &mut P,
    number: u32,
    key: Key<'_>,
    after: bool,
    scratch: &mut Vec<u8>,
) -> R<usize>
    ensures found { IsTrue (P.Pages.tells (P.Pages.below pages.old))
        → FindsPlace (P.Pages.map pages.old) (P.Pages.limits (P.Pages.below pages.old)).page number
        after key.entry.columns.now key.entry.values.now result }
    ensures stays { Stays P.Pages.below P.Pages.map P.Pages.count P.Pages.failures result pages.old pages.new }
{
    pages.load(number)?;
    let most = most_in(pages.page_size());
    if let Some(found) = place_in(pages.loaded(), number, most, key, after) {
        return found;
    }
    place_over_chains(pages, number, key, after, scratch)
}

/// Whether the entry at a place of a page equals the key. (What `len_of` and `order` refuse.)
fn is_equal_at<P: Pages>(
    pages: &mut P,
    number: u32,
    place: usize,
    key: Key<'_>,
    scratch: &mut Vec<u8>,
) -> R<bool>
    ensures found { IsTrue (P.Pages.tells (P.Pages.below pages.old))
        → FindsEqual (P.Pages.map pages.old) (P.Pages.limits (P.Pages.below pages.old)).page number
        place key.entry.columns.now key.entry.values.now result }
    ensures stays { Stays P.Pages.below P.Pages.map P.Pages.count P.Pages.failures result pages.old pages.new }
{
    if place >= len_of(pages, number)? {
        return Ok(false);
    }
    Ok(order(pages, number, place, key, scratch)?.is_eq())
}

/// Whether the entry at a place of the page of these bytes equals the key; None as for `place_in`. (As `len_of` and `order_on` refuse it.)
fn is_equal_in(
    bytes: &[u8],
    number: u32,
    place: usize,
    most: usize,
    key: Key<'_>,
) -> Option<R<bool>>
    ensures found { IfSome result (λ found. (pages : PageMap) (size : ℕ)
        → bytes.now ≡ page_at pages number → most ≡ index_most size
        → FindsEqual pages size number place key.entry.columns.now key.entry.values.now found) }
    ensures not_disk { IfSome result (λ found. IfErr found IsNotDiskFault) }
{
    let page = match TreePage::over(bytes, start_of(number)) {
        Ok(page) => page,
        Err(fault) => return Some(Err(at_page(fault, number))),
    };
    if place >= page.len() {
        return Some(Ok(false));
    }
    match order_on(&page, place, most, key)? {
        Ok(order) => Some(Ok(order.is_eq())),
        Err(fault) => Some(Err(at_page(fault, number))),
    }
}

/// Where the way to an entry goes on from the page of these bytes; None as for `place_in`. (What `place_in`, `is_equal_in` and `child_in` refuse.)
fn step_in(bytes: &[u8], number: u32, most: usize, key: Key<'_>) -> Option<R<Step>>
    ensures found { IfSome result (λ found. (pages : PageMap) (size : ℕ)
        → bytes.now ≡ page_at pages number → most ≡ index_most size
        → StepsFrom pages size number key.entry.columns.now key.entry.values.now found) }
    ensures not_disk { IfSome result (λ found. IfErr found IsNotDiskFault) }
{
    let place = match place_in(bytes, number, most, key, false)? {
        Ok(place) => place,
        Err(fault) => return Some(Err(fault)),
    };
    let is_found = match is_equal_in(bytes, number, place, most, key)? {
        Ok(is_found) => is_found,
        Err(fault) => return Some(Err(fault)),
    };
    if is_found {
        return Some(Ok(Step::Found(place)));
    }
    match child_in(bytes, number, place) {
        Ok(Some(child)) => Some(Ok(Step::Down(place, child))),
        Ok(None) => Some(Ok(Step::Here(place))),
        Err(fault) => Some(Err(at_page(fault, number))),
    }
}

/// Where the way to an entry goes on from a page, where overflow pages may be read on the way. (What `place_of`, `is_equal_at` and `child_of`
/// refuse.)
fn step_over_chains<P: Pages>(
    pages: &mut P,
    number: u32,
    key: Key<'_>,
    scratch: &mut Vec<u8>,
) -> R<Step>
    ensures found { IsTrue (P.Pages.tells (P.Pages.below pages.old))
        → StepsFrom (P.Pages.map pages.old) (P.Pages.limits (P.Pages.below pages.old)).page number
        key.entry.columns.now key.entry.values.now result }
    ensures stays { Stays P.Pages.below P.Pages.map P.Pages.count P.Pages.failures result pages.old pages.new }
{
    let place = place_of(pages, number, key, false, scratch)?;
    if is_equal_at(pages, number, place, key, scratch)? {
        return Ok(Step::Found(place));
    }
    match child_of(pages, number, place)? {
        Some(child) => Ok(Step::Down(place, child)),
        None => Ok(Step::Here(place)),
    }
}

/// Where the way to an entry goes on from a page: told by the page as it was loaded, unless an entry on the way goes on in overflow pages. (What
/// `load` and `step_over_chains` refuse.)
pub(crate) fn step_from<P: Pages>(
    pages: &mut P,
    number: u32,
    key: Key<'_>,
    scratch: &mut Vec<u8>,
) -> R<Step>
    ensures found { IsTrue (P.Pages.tells (P.Pages.below pages.old))
        → StepsFrom (P.Pages.map pages.old) (P.Pages.limits (P.Pages.below pages.old)).page number
        key.entry.columns.now key.entry.values.now result }
    ensures stays { Stays P.Pages.below P.Pages.map P.Pages.count P.Pages.failures result pages.old pages.new }
{
    pages.load(number)?;
    let most = most_in(pages.page_size());
    if let Some(found) = step_in(pages.loaded(), number, most, key) {
        return found;
    }
    step_over_chains(pages, number, key, scratch)
}
