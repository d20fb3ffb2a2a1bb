//! How an entry compares with those on a page.

ghost use Rattle.std.specs.Prelude.{◌≡◌, ◌≤◌, ◌<◌, ℕ, List, Ok, length, map, IsTrue, IfErr, IfSome};
ghost use Rattle.sqlval.specs.Faults.{IsNotDiskFault};
ghost use Rattle.sqlval.specs.Fields.{value_of};
ghost use Rattle.sqlval.specs.Order.{order as value_order};
ghost use Rattle.sqlval.specs.declared.value.Value.{Value as ValueIs};
ghost use Rattle.pages.specs.Calls.{Stays};
ghost use Rattle.pages.specs.Map.{PageMap};
ghost use Rattle.record.specs.Reading.{columns_at};
ghost use Rattle.record.specs.Record.{IsRecord};
ghost use Rattle.tree_page.specs.Payload.{index_most};
ghost use Rattle.tree_index.specs.Comparing.{ComparesEntry, IsPageOf, LiesWhole, collation_for};
ghost use Rattle.tree_index.specs.Entries.{entry_cmp};

use crate::cells::{at_page, local_in, local_on, most_in};
use pages::Pages;
use record::{Record, halves_of, read_field, records_are_read};
use sqlval::{Collation, Field, R, Value, compare_fields};
use std::cmp::Ordering;
use tree_overflow::read_payload;
use tree_page::TreePage;

/// What is sought in an index: the values of an entry, or its first ones, in the order of the columns, the rowid last.
#[derive(Clone, Copy)]
pub struct Key<'a> {
    pub columns: &'a [Collation],
    pub values: &'a [Value],
}

/// The collation of the value at a place of an entry: that of the column, and BINARY for the rowid.
fn collation_at(columns: &[Collation], place: usize) -> Collation
    ensures { result ≡ collation_for place columns.now }
{
    if place < columns.len() {
        return columns[place];
    }
    Collation::Binary
}

/// The order of a value and a field.
fn compare_field(value: &Value, field: Field<'_>, collation: Collation) -> Ordering
    ensures { result ≡ value_order collation value.now (value_of field.entry) }
{
    compare_fields(value.as_field(), field, collation)
}

/// The order of a key and an entry.
pub fn compare_entry(key: Key<'_>, entry: &Record<'_>) -> Ordering
    ensures { result ≡ entry_cmp key.entry.columns.now key.entry.values.now entry.now }
{
    let most = key.values.len().min(entry.len());
    'values: for place in 0..most {
        if place > key.columns.len() {
            return Ordering::Equal;
        }
        let collation = collation_at(key.columns, place);
        let order = compare_field(&key.values[place], entry.column(place), collation);
        if order.is_ne() {
            return order;
        }
    }
    Ordering::Equal
}

/// The order of two entries.
pub fn compare_records(columns: &[Collation], a: &Record<'_>, b: &Record<'_>) -> Ordering
    ensures { result ≡ entry_cmp columns.now a.now b.now }
{
    let most = a.len().min(b.len());
    'values: for place in 0..most {
        if place > columns.len() {
            return Ordering::Equal;
        }
        let collation = collation_at(columns, place);
        let order = compare_fields(a.column(place), b.column(place), collation);
        if order.is_ne() {
            return order;
        }
    }
    Ordering::Equal
}

/// The order of a key and the entry with these types and bodies: value by value, each where it lies, up to the first that differs. (Any order
/// where they are none of an entry.)
fn compare_lying(key: Key<'_>, types: &[u8], bodies: &[u8]) -> Ordering
    ensures { (entry : List ValueIs) → columns_at (length types.now) types.now bodies.now ≡ Ok entry
        → result ≡ entry_cmp key.entry.columns.now key.entry.values.now entry }
{
    let most = key.values.len().min(key.columns.len() + 1);
    let mut types_left = types;
    let mut bodies_left = bodies;
    'values: for place in 0..most {
        let Ok((field, types_after, bodies_after)) = read_field(types_left, bodies_left) else {
            return Ordering::Equal;
        };
        let collation = collation_at(key.columns, place);
        let order = compare_field(&key.values[place], field, collation);
        if order.is_ne() {
            return order;
        }
        types_left = types_after;
        bodies_left = bodies_after;
    }
    Ordering::Equal
}

/// The order of a key and the entry of a payload, which is compared where it lies. (Any order for bytes that are no record.)
fn compare_payload(key: Key<'_>, payload: &[u8]) -> Ordering
    ensures { (entry : List ValueIs) → IsRecord payload.now entry
        → result ≡ entry_cmp key.entry.columns.now key.entry.values.now entry }
{
    records_are_read();
    match halves_of(payload) {
        Ok((types, bodies)) => compare_lying(key, types, bodies),
        Err(_) => Ordering::Equal,
    }
}

/// The order of a key and the entry at a place of this page, of which `most` bytes lie whole in a cell; None if its payload goes on in overflow
/// pages. (`Damaged` for a page that is none of an index, or has no such entry.)
pub(crate) fn order_on(
    page: &TreePage<'_>,
    place: usize,
    most: usize,
    key: Key<'_>,
) -> Option<R<Ordering>>
    ensures found { IfSome result (λ found. (pages : PageMap) (size number : ℕ)
        → IsPageOf pages number page.now → most ≡ index_most size
        → ComparesEntry pages size number place key.entry.columns.now key.entry.values.now found) }
    ensures whole { IfSome result (λ found. (pages : PageMap) (size number : ℕ)
        → IsPageOf pages number page.now → most ≡ index_most size
        → LiesWhole pages size number place) }
    ensures not_disk { IfSome result (λ found. IfErr found IsNotDiskFault) }
{
    let local = match local_on(page, place) {
        Ok(local) => local,
        Err(fault) => return Some(Err(fault)),
    };
    if local.size > most as u64 {
        return None;
    }
    Some(Ok(compare_payload(key, local.bytes)))
}

/// The order of a key and the entry at a place of a page: from the page if its payload lies whole there, else from `scratch`, which it is read
/// into. (What `load` and `read_payload` refuse, and short memory; `Damaged` for a page that is none of an index, or has no such entry.)
pub fn order<P: Pages>(
    pages: &mut P,
    number: u32,
    place: usize,
    key: Key<'_>,
    scratch: &mut Vec<u8>,
) -> R<Ordering>
    ensures found { IsTrue (P.Pages.tells (P.Pages.below pages.old))
        → ComparesEntry (P.Pages.map pages.old)
        (P.Pages.limits (P.Pages.below pages.old)).page number place key.entry.columns.now
        key.entry.values.now result }
    ensures stays { Stays P.Pages.below P.Pages.map P.Pages.count P.Pages.failures result pages.old pages.new }
{
    pages.load(number)?;
    let most = most_in(pages.page_size());
    let local = match local_in(pages.loaded(), number, place) {
        Ok(local) => local,
        Err(fault) => return Err(at_page(fault, number)),
    };
    let size = local.size;
    if size <= most as u64 {
        return Ok(compare_payload(key, local.bytes));
    }
    // The chain is read through the same pages, which lend these bytes.
    let held = local.bytes.to_vec(*scratch.allocator())?;
    scratch.clear();
    read_payload(pages, held.as_slice(), size, most, scratch)?;
    Ok(compare_payload(key, scratch.as_slice()))
}
