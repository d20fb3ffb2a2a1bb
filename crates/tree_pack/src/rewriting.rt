//! Putting payloads in the places of others that are as long, in the rows of a leaf.

ghost use Rattle.std.specs.Prelude.{◌≡◌, ◌<◌, ◌≤◌, ◌+◌, IfSome, IsFalse, IsTrue, List, drop, length, slice_index_or, ℤ};
ghost use Rattle.tree_page.specs.Node.{Local, Rows, IsNode};
ghost use Rattle.tree_pack.specs.Replacing.{no_span, written_over};
ghost use Rattle.tree_pack.specs.Rewriting.{IsPayloadAt, IsRewritten};

use crate::replacing::write_over;
use record::get_varint;

/// The bytes of a page from the cell at a place of a table's leaf on.
fn cell_on(page: &[u8], start: usize, place: usize) -> Option<&[u8]>
    ensures { (said : List (ℤ × Local)) (is : IsNode page.now start (Rows said)) → place < length is.cells
        → IfSome result (λ cell. cell.now ≡ drop (slice_index_or is.page_is.spans place no_span).from page.now) }
{
    let pointer = place.checked_mul(2)?.checked_add(start)?.checked_add(8)?;
    if page.len() < pointer {
        return None;
    }
    let [high, low, ..] = &page[pointer..] else {
        return None;
    };
    let at = usize::from(u16::from_be_bytes([*high, *low]));
    if page.len() < at {
        return None;
    }
    Some(&page[at..])
}

/// Where the payload begins of the row at a place of a table's leaf, if it has so many bytes.
fn payload_at(page: &[u8], start: usize, place: usize, size: usize) -> Option<usize>
    ensures { (said : List (ℤ × Local)) (is : IsNode page.now start (Rows said)) → place < length is.cells
        → IfSome result (IsPayloadAt page.now start said is place size) }
{
    let cell = cell_on(page, start, place)?;
    let (whole, rest) = get_varint(cell)?;
    let (_, payload) = get_varint(rest)?;
    if whole == size as u64 {
        Some(page.len().saturating_sub(payload.len()))
    } else {
        None
    }
}

/// Where a payload can be written over that of the row at a place of a table's leaf. None where that doesn't lie whole in its cell, or isn't as
/// long.
pub fn payload_place(page: &[u8], start: usize, place: usize, payload: &[u8]) -> Option<usize>
    ensures on_page { IfSome result (λ at. at + length payload.now ≤ length page.now) }
    ensures rewritten { (said : List (ℤ × Local)) (is : IsNode page.now start (Rows said)) → place < length is.cells
        → IfSome result (λ at. IsRewritten page.now start said is place payload.now (written_over at payload.now page.now)) }
{
    if page.len().saturating_sub(35) < payload.len() {
        return None;
    }
    let at = payload_at(page, start, place, payload.len())?;
    if page.len() < at || page.len() - at < payload.len() {
        return None;
    }
    Some(at)
}

/// Writes a payload over that of the row at a place of a table's leaf, if that lies whole in its cell and is as long. Answers whether it did; if
/// not, nothing changes.
pub fn put_payload(page: &mut Vec<u8>, start: usize, place: usize, payload: &[u8]) -> bool
    ensures written { (said : List (ℤ × Local)) (is : IsNode page.old.items start (Rows said)) → place < length is.cells
        → IsTrue result → IsRewritten page.old.items start said is place payload.now page.new.items }
    ensures same { IsFalse result → page.new.items ≡ page.old.items }
{
    match payload_place(page.as_slice(), start, place, payload) {
        Some(at) => write_over(page, at, payload),
        None => false,
    }
}
