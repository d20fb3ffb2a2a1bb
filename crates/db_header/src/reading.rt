//! Reading a header.

ghost use Rattle.std.specs.Prelude.{◌≡◌, ◌≤◌, ◌+◌, length, IfOk, Ok};
ghost use Rattle.std.specs.Str.{bytes_eq};
ghost use Rattle.db_header.specs.declared.fields.Header.{Header};
ghost use Rattle.db_header.specs.Header.{IsHeader, two_at, four_at, part, size_said};
ghost use Rattle.db_header.specs.Reading.{has_text, feature_of, is_fixed, fields_of, header_at};

use crate::fields::Header;
use byteorder::{BigEndian, ByteOrder};
use sqlval::{Damage, Fault, Feature, R, is_page_size};

/// The number in the two bytes from an offset on.
#[tactic(auto, unfolding(crate::specs::Header::two_at))]
fn u16_at(bytes: &[u8], offset: usize) -> u32
    requires { offset + 2 ≤ length bytes.now }
    ensures { result ≡ two_at offset bytes.now }
{
    u32::from(BigEndian::read_u16(&bytes[offset..]))
}

/// The page size that the bytes say: 1 stands for 65536.
#[tactic(auto, unfolding(crate::specs::Header::size_said))]
fn page_size(bytes: &[u8]) -> u32
    requires { 100 ≤ length bytes.now }
    ensures { result ≡ size_said (two_at 16 bytes.now) }
{
    match u16_at(bytes, 16) {
        1 => 65536,
        size => size,
    }
}

/// The number in the four bytes from an offset on.
#[tactic(auto, unfolding(crate::specs::Header::four_at))]
fn u32_at(bytes: &[u8], offset: usize) -> u32
    requires { offset + 4 ≤ length bytes.now }
    ensures { result ≡ four_at offset bytes.now }
{
    BigEndian::read_u32(&bytes[offset..])
}

/// Whether the bytes from an offset on are these.
fn is_at(bytes: &[u8], offset: usize, wanted: &[u8]) -> bool
    requires { offset + length wanted.now ≤ length bytes.now }
    ensures { result ≡ bytes_eq (part offset (length wanted.now) bytes.now) wanted.now }
{
    &bytes[offset..offset + wanted.len()] == wanted
}

/// Whether the bytes are long enough and begin as those of a database file do.
#[tactic(auto, unfolding(crate::specs::Reading::has_text))]
fn is_database(bytes: &[u8]) -> bool
    ensures { result ≡ has_text bytes.now }
{
    bytes.len() >= 100 && is_at(bytes, 0, b"SQLite format 3\0".as_slice())
}

/// The first thing outside what is supported.
#[tactic(auto, unfolding(crate::specs::Reading::feature_of))]
fn unsupported(bytes: &[u8]) -> Option<Feature>
    requires { 100 ≤ length bytes.now }
    ensures { result ≡ feature_of bytes.now }
{
    if !is_page_size(page_size(bytes)) {
        Some(Feature::PageSize)
    } else if !is_at(bytes, 18, &[2, 2]) {
        Some(Feature::FileVersion)
    } else if !is_at(bytes, 20, &[0]) {
        Some(Feature::ReservedBytes)
    } else if u32_at(bytes, 44) != 4 {
        Some(Feature::SchemaFormat)
    } else if u32_at(bytes, 52) != 0 {
        Some(Feature::AutoVacuum)
    } else if u32_at(bytes, 64) != 0 {
        Some(Feature::AutoVacuum)
    } else if u32_at(bytes, 56) != 1 {
        Some(Feature::Encoding)
    } else {
        None
    }
}

/// Whether the bytes that are the same in every file are so.
#[tactic(auto, unfolding(crate::specs::Reading::is_fixed))]
fn has_fixed_bytes(bytes: &[u8]) -> bool
    requires { 100 ≤ length bytes.now }
    ensures { result ≡ is_fixed bytes.now }
{
    is_at(bytes, 21, &[64, 32, 32]) && is_at(bytes, 72, &[0; 20])
}

/// What the numbers say.
#[tactic(auto, unfolding(crate::specs::Reading::fields_of))]
fn fields(bytes: &[u8]) -> Header
    requires { 100 ≤ length bytes.now }
    ensures { result ≡ fields_of bytes.now }
{
    Header {
        page_size: page_size(bytes),
        change_counter: u32_at(bytes, 24),
        size: u32_at(bytes, 28),
        freelist_trunk: u32_at(bytes, 32),
        freelist_count: u32_at(bytes, 36),
        schema_cookie: u32_at(bytes, 40),
        default_cache_size: u32_at(bytes, 48),
        user_version: u32_at(bytes, 60),
        application_id: u32_at(bytes, 68),
        version_valid_for: u32_at(bytes, 92),
        writer_version: u32_at(bytes, 96),
    }
}

#[tactic(auto, unfolding(crate::specs::Reading::header_at, crate::specs::Reading::has_text))]
fn header(bytes: &[u8]) -> R<Header>
    ensures { result ≡ header_at bytes.now }
{
    if !is_database(bytes) {
        return Err(Fault::NotADatabase);
    }
    if let Some(feature) = unsupported(bytes) {
        return Err(Fault::Unsupported(feature));
    }
    if !has_fixed_bytes(bytes) {
        return Err(Fault::Damaged(Damage::Header, 1));
    }
    Ok(fields(bytes))
}

/// The header in the first 100 bytes of a database file. Fewer bytes, or others at the front, are
/// `Fault::NotADatabase`; what the profile leaves out is `Fault::Unsupported`, by the feature; bytes that are the same
/// in every file and aren't so here are `Fault::Damaged(Damage::Header, 1)`.
pub fn read(bytes: &[u8]) -> R<Header>
    // What is read stands there.
    ensures found { IfOk result (λ header. IsHeader bytes.now header) }
    // A header is read.
    ensures only { (header : Header) → IsHeader bytes.now header → result ≡ Ok header }
    // Which refusal it is.
    ensures exact { result ≡ header_at bytes.now }
{
    header(bytes)
}
