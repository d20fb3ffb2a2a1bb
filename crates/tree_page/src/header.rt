//! The header of a page, and the pointers after it.

ghost use Rattle.std.specs.Prelude.{◌≡◌, ◌<◌, ◌≤◌, ◌^◌, ℕ, Some, option_map};
ghost use Rattle.tree_page.specs.Bytes.{header_parts, bytes_from, leading_pair, leading_child, kind_of_type, right_size, node_header, header_on, last_on, tail_on};
ghost use Rattle.tree_page.specs.Checking.{front_end};

use crate::items::Kind;

/// What the header of a page says.
#[derive(Clone, Copy)]
pub struct Header {
    /// The kind of the page.
    pub kind: Kind,
    /// How many cells it has.
    pub len: u16,
}

/// The bytes from an offset on; None if they end before it.
#[tactic(auto, unfolding(crate::specs::Bytes::bytes_from))]
pub fn skip(bytes: &[u8], offset: usize) -> Option<&[u8]>
    ensures { option_map (λ rest. rest.now) result ≡ bytes_from offset bytes.now }
{
    if bytes.len() < offset {
        return None;
    }
    Some(&bytes[offset..])
}

/// The number in the first two bytes, big-endian.
#[tactic(auto, unfolding(crate::specs::Bytes::leading_pair))]
fn read_pair(bytes: &[u8]) -> Option<u16>
    ensures { result ≡ leading_pair bytes.now }
{
    let (number, _) = bytes.split_first_chunk::<2>()?;
    Some(u16::from_be_bytes(*number))
}

/// The page number in the first four bytes, big-endian, and the bytes after it.
#[tactic(auto, unfolding(crate::specs::Bytes::leading_child))]
pub fn read_page(bytes: &[u8]) -> Option<(u32, &[u8])>
    ensures { option_map (λ found. (found.0, found.1.now)) result ≡ leading_child bytes.now }
{
    let (number, rest) = bytes.split_first_chunk::<4>()?;
    Some((u32::from_be_bytes(*number), rest))
}

/// The kind of a page of this type; None if trees have no such pages.
#[tactic(auto, unfolding(crate::specs::Bytes::kind_of_type))]
fn kind_of(byte: u8) -> Option<Kind>
    ensures { result ≡ kind_of_type byte }
{
    match byte {
        13 => Some(Kind::TableLeaf),
        5 => Some(Kind::TableInterior),
        10 => Some(Kind::IndexLeaf),
        2 => Some(Kind::IndexInterior),
        _ => None,
    }
}

/// How many bytes the number of the last child takes.
#[tactic(auto, unfolding(crate::specs::Bytes::right_size))]
fn right_len(kind: Kind) -> usize
    ensures value { result ≡ right_size kind }
    ensures small { result ≤ 4 }
{
    match kind {
        Kind::TableLeaf | Kind::IndexLeaf => 0,
        Kind::TableInterior | Kind::IndexInterior => 4,
    }
}

/// The header at the front; None if it is none, or if the bytes end before its pointers do.
#[tactic(auto, unfolding(crate::specs::Bytes::node_header))]
fn read_node(node: &[u8]) -> Option<Header>
    ensures { option_map header_parts result ≡ node_header node.now }
{
    let [byte, _, _, high, low, _, _, _, rest @ ..] = node else {
        return None;
    };
    let kind = kind_of(*byte)?;
    let len = u16::from_be_bytes([*high, *low]);
    if rest.len() < right_len(kind) + 2 * usize::from(len) {
        return None;
    }
    Some(Header { kind, len })
}

/// The header that begins at an offset; None as for `read_node`.
pub fn read_header(bytes: &[u8], start: usize) -> Option<Header>
    ensures { option_map header_parts result ≡ header_on bytes.now start }
{
    read_node(skip(bytes, start)?)
}

/// Where the pointers end that stand after the header that begins at an offset.
#[tactic(auto, unfolding(crate::specs::Checking::front_end))]
pub fn front_len(start: usize, header: Header) -> usize
    requires { front_end start (header_parts header) < 2 ^ 64 }
    ensures { result ≡ front_end start (header_parts header) }
{
    start + 8 + right_len(header.kind) + 2 * usize::from(header.len)
}

/// The number of the last child; None on a leaf.
#[tactic(auto, unfolding(crate::specs::Bytes::last_on))]
pub fn read_last(bytes: &[u8], start: usize, kind: Kind) -> Option<u32>
    ensures { result ≡ last_on bytes.now start kind }
{
    if right_len(kind) == 0 {
        return None;
    }
    let node = skip(bytes, start)?;
    let (last, _) = read_page(skip(node, 8)?)?;
    Some(last)
}

/// The page from a cell on; None past the last cell, and if the page ends before the cell begins. That the pointers are there is known
/// since the header was read.
#[tactic(auto, unfolding(crate::specs::Bytes::tail_on))]
pub fn read_tail(bytes: &[u8], start: usize, header: Header, index: usize) -> Option<&[u8]>
    requires { header_on bytes.now start ≡ Some (header_parts header) }
    ensures { option_map (λ tail. tail.now) result ≡ tail_on bytes.now start (header_parts header) index }
{
    if index >= usize::from(header.len) {
        return None;
    }
    let at = start + 8 + right_len(header.kind) + 2 * index;
    let pointer = read_pair(&bytes[at..at + 2])?;
    skip(bytes, usize::from(pointer))
}
