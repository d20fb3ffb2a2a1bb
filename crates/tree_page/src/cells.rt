//! Cells at the front of bytes.

ghost use Rattle.std.specs.Prelude.{◌≡◌, ◌≤◌, ◌<◌, ◌^◌, Some, length, IfSome, option_map};
ghost use Rattle.tree_page.specs.Payload.{least as least_part, index_most, held_size};
ghost use Rattle.tree_page.specs.Bytes.{header_parts, header_on, leading_local, leading_row, leading_rowid, leading_key, leading_entry, leading_between, after_cell, item_on, cell_on, number_on};
ghost use Rattle.tree_page.specs.Reading.{local_of, row_of, key_of, between_of};
ghost use Rattle.tree_page.specs.Checking.{ends_on};

use crate::header::{Header, read_page, read_tail};
use crate::items::{Between, Key, Kind, Local, Row};
use record::get_varint;

/// The longest payload that lies whole in an index page's cell.
fn index_limit(usable: u64) -> u64
    ensures value { result ≡ index_most usable }
    ensures within { result ≤ usable }
{
    let room = usable.saturating_sub(12);
    (room / 255 * 64 + room % 255 * 64 / 255).saturating_sub(23)
}

/// The least part of a longer payload that lies in its cell.
fn least_len(usable: u64) -> u64
    ensures value { result ≡ least_part usable }
    ensures within { result ≤ usable }
{
    let room = usable.saturating_sub(12);
    (room / 255 * 32 + room % 255 * 32 / 255).saturating_sub(23)
}

/// How many bytes of a cell are for a payload that doesn't lie whole there: with the number of the first overflow page.
#[cold]
#[inline(never)]
fn cut_len(usable: u64, most: u64, size: u64) -> u64
    requires short { usable < 2 ^ 63 }
    requires within { most ≤ usable }
    requires cut { most < size }
    ensures { result ≡ held_size usable most size }
{
    let least = least_len(usable);
    // A page is longer than its header of 8 bytes: the 1 only keeps the division whole.
    let room = usable.saturating_sub(4).max(1);
    let fitted = least + size.saturating_sub(least) % room;
    if fitted <= most {
        fitted + 4
    } else {
        least + 4
    }
}

/// How many bytes of a cell are for a payload, of which at most `most` lie there: with the number of the first overflow
/// page, where there is one.
#[inline(always)]
fn held_len(usable: u64, most: u64, size: u64) -> u64
    requires short { usable < 2 ^ 63 }
    requires within { most ≤ usable }
    ensures { result ≡ held_size usable most size }
{
    if size <= most {
        size
    } else {
        cut_len(usable, most, size)
    }
}

/// What a cell has of a payload, and the bytes after it; None if they end before.
#[inline(always)]
#[tactic(auto, unfolding(crate::specs::Bytes::leading_local))]
fn read_local(usable: u64, most: u64, size: u64, bytes: &[u8]) -> Option<(Local<'_>, &[u8])>
    requires short { usable < 2 ^ 63 }
    requires within { most ≤ usable }
    ensures { option_map (λ found. (local_of found.0, found.1.now)) result
        ≡ leading_local usable most size bytes.now }
{
    let held = held_len(usable, most, size);
    if (bytes.len() as u64) < held {
        return None;
    }
    let (bytes, rest) = bytes.split_at(held as usize);
    Some((Local { size, bytes }, rest))
}

/// How many bytes of an index page's cell are for a payload: a short one lies there whole, without asking how long it may be.
#[inline(always)]
fn held_entry(usable: u64, size: u64) -> u64
    requires { usable < 2 ^ 63 }
    ensures { result ≡ held_size usable (index_most usable) size }
{
    if size <= 105 && 522 <= usable {
        return size;
    }
    held_len(usable, index_limit(usable), size)
}

/// What a cell of an index page has of a payload, and the bytes after it; None if they end before.
#[inline(always)]
#[tactic(auto, unfolding(crate::specs::Bytes::leading_local))]
fn read_payload(usable: u64, size: u64, bytes: &[u8]) -> Option<(Local<'_>, &[u8])>
    requires { usable < 2 ^ 63 }
    ensures { option_map (λ found. (local_of found.0, found.1.now)) result
        ≡ leading_local usable (index_most usable) size bytes.now }
{
    let held = held_entry(usable, size);
    if (bytes.len() as u64) < held {
        return None;
    }
    let (bytes, rest) = bytes.split_at(held as usize);
    Some((Local { size, bytes }, rest))
}

/// A row, and the bytes after its cell; None if they end before.
#[inline(always)]
#[tactic(auto, unfolding(crate::specs::Bytes::leading_row))]
fn read_row(usable: u64, bytes: &[u8]) -> Option<(Row<'_>, &[u8])>
    requires { usable < 2 ^ 63 }
    ensures { option_map (λ found. (row_of found.0, found.1.now)) result ≡ leading_row usable bytes.now }
{
    let (size, rest) = get_varint(bytes)?;
    let (rowid, rest) = get_varint(rest)?;
    let (payload, rest) = read_local(usable, usable.saturating_sub(35), size, rest)?;
    let rowid = rowid.cast_signed();
    Some((Row { rowid, payload }, rest))
}

/// A row's rowid; None if the bytes end before. What lies after it isn't looked at.
#[tactic(auto, unfolding(crate::specs::Bytes::leading_rowid))]
fn read_rowid(bytes: &[u8]) -> Option<i64>
    ensures { result ≡ leading_rowid bytes.now }
{
    let (_, rest) = get_varint(bytes)?;
    let (rowid, _) = get_varint(rest)?;
    Some(rowid.cast_signed())
}

/// A child and its key, and the bytes after their cell; None if they end before.
#[tactic(auto, unfolding(crate::specs::Bytes::leading_key))]
fn read_key(bytes: &[u8]) -> Option<(Key, &[u8])>
    ensures { option_map (λ found. (key_of found.0, found.1.now)) result ≡ leading_key bytes.now }
{
    let (child, rest) = read_page(bytes)?;
    let (rowid, rest) = get_varint(rest)?;
    let rowid = rowid.cast_signed();
    Some((Key { child, rowid }, rest))
}

/// An entry, and the bytes after its cell; None if they end before.
#[tactic(auto, unfolding(crate::specs::Bytes::leading_entry))]
fn read_entry(usable: u64, bytes: &[u8]) -> Option<(Local<'_>, &[u8])>
    requires { usable < 2 ^ 63 }
    ensures { option_map (λ found. (local_of found.0, found.1.now)) result ≡ leading_entry usable bytes.now }
{
    let (size, rest) = get_varint(bytes)?;
    read_payload(usable, size, rest)
}

/// A child and the entry after it, and the bytes after their cell; None if they end before.
#[tactic(auto, unfolding(crate::specs::Bytes::leading_between))]
fn read_between(usable: u64, bytes: &[u8]) -> Option<(Between<'_>, &[u8])>
    requires { usable < 2 ^ 63 }
    ensures { option_map (λ found. (between_of found.0, found.1.now)) result
        ≡ leading_between usable bytes.now }
{
    let (child, rest) = read_page(bytes)?;
    let (entry, rest) = read_entry(usable, rest)?;
    Some((Between { child, entry }, rest))
}

/// The bytes after the cell at the front, on a page of this kind; None if they end before.
#[tactic(auto, unfolding(crate::specs::Bytes::after_cell))]
fn skip_cell(kind: Kind, usable: u64, bytes: &[u8]) -> Option<&[u8]>
    requires { usable < 2 ^ 63 }
    ensures { option_map (λ rest. rest.now) result ≡ after_cell kind usable bytes.now }
{
    match kind {
        Kind::TableLeaf => Some(read_row(usable, bytes)?.1),
        Kind::TableInterior => Some(read_key(bytes)?.1),
        Kind::IndexLeaf => Some(read_entry(usable, bytes)?.1),
        Kind::IndexInterior => Some(read_between(usable, bytes)?.1),
    }
}

/// A row of a page whose header begins at an offset; None if the page ends before, or has no such row.
#[inline(always)]
pub fn find_row(page: &[u8], start: usize, header: Header, index: usize) -> Option<Row<'_>>
    requires { header_on page.now start ≡ Some (header_parts header) }
    ensures { option_map row_of result ≡ item_on leading_row page.now start (header_parts header) index }
{
    let tail = read_tail(page, start, header, index)?;
    Some(read_row(page.len() as u64, tail)?.0)
}

/// A child and its key; None as for `find_row`.
pub fn find_key(page: &[u8], start: usize, header: Header, index: usize) -> Option<Key>
    requires { header_on page.now start ≡ Some (header_parts header) }
    ensures { option_map key_of result ≡ item_on (λ usable. leading_key) page.now start
        (header_parts header) index }
{
    let tail = read_tail(page, start, header, index)?;
    Some(read_key(tail)?.0)
}

/// An entry; None as for `find_row`.
pub fn find_entry(page: &[u8], start: usize, header: Header, index: usize) -> Option<Local<'_>>
    requires { header_on page.now start ≡ Some (header_parts header) }
    ensures { option_map local_of result ≡ item_on leading_entry page.now start (header_parts header) index }
{
    let tail = read_tail(page, start, header, index)?;
    Some(read_entry(page.len() as u64, tail)?.0)
}

/// A child and the entry after it; None as for `find_row`.
pub fn find_between(page: &[u8], start: usize, header: Header, index: usize) -> Option<Between<'_>>
    requires { header_on page.now start ≡ Some (header_parts header) }
    ensures { option_map between_of result ≡ item_on leading_between page.now start
        (header_parts header) index }
{
    let tail = read_tail(page, start, header, index)?;
    Some(read_between(page.len() as u64, tail)?.0)
}

/// The rowid of a row, or the key of a child, on a page of a table; None where the page ends before it, or has no such cell, and on a page of an
/// index.
#[tactic(auto, unfolding(crate::specs::Bytes::number_on))]
pub fn find_number(page: &[u8], start: usize, header: Header, index: usize) -> Option<i64>
    requires { header_on page.now start ≡ Some (header_parts header) }
    ensures { result ≡ number_on header.kind page.now start (header_parts header) index }
{
    match header.kind {
        Kind::TableLeaf => read_rowid(read_tail(page, start, header, index)?),
        Kind::TableInterior => Some(find_key(page, start, header, index)?.rowid),
        Kind::IndexLeaf | Kind::IndexInterior => None,
    }
}

/// The bytes of a cell; None as for `find_row`.
pub fn find_cell(page: &[u8], start: usize, header: Header, index: usize) -> Option<&[u8]>
    requires { header_on page.now start ≡ Some (header_parts header) }
    ensures { option_map (λ cell. cell.now) result ≡ cell_on page.now start (header_parts header) index }
{
    let tail = read_tail(page, start, header, index)?;
    let rest = skip_cell(header.kind, page.len() as u64, tail)?;
    Some(&tail[..tail.len() - rest.len()])
}

/// The offsets where a cell begins and where it ends; None as for `find_row`.
pub fn find_ends(page: &[u8], start: usize, header: Header, index: usize) -> Option<(usize, usize)>
    requires { header_on page.now start ≡ Some (header_parts header) }
    ensures value { result ≡ ends_on page.now start (header_parts header) index }
    ensures within { IfSome result (λ ends. (ends.0 ≤ ends.1) × (ends.1 ≤ length page.now)) }
{
    let tail = read_tail(page, start, header, index)?;
    let rest = skip_cell(header.kind, page.len() as u64, tail)?;
    Some((page.len() - tail.len(), page.len() - rest.len()))
}
