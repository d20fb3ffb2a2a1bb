//! Numbers and the header on a page, as bytes.

ghost use Rattle.std.specs.Prelude.{◌≡◌, ◌≤◌, ◌<◌, ◌^◌, ◌++◌, ◌+◌, ◌/◌, ◌⊎◌, [], ◌∷◌, ℕ, List, length, Some, IfSome, IfOk, IfErr, false, true};
ghost use Rattle.std.specs.Int.{w32, to_be_bytes};
ghost use Rattle.sqlval.specs.declared.fault.Fault.TheVariants.{Memory};
ghost use Rattle.sqlval.specs.PageSizes.{IsPageSize};
ghost use Rattle.db_header.specs.declared.fields.Header.{Header};
ghost use Rattle.db_header.specs.Header.{IsHeader};
ghost use Rattle.freelist.specs.PageBytes.{Reheads, IsTrunkPage, IsLastTaken, IsLeafPut};

use db_header::Header;
use sqlval::R;
use std::alloc::Global;

/// The number in the four bytes from a place on; None if the page ends before.
pub fn number_at(page: &[u8], at: usize) -> Option<u32>
    ensures only { (n : ℕ) (front rest : List ℕ) → n < 2 ^ 32
        → page.now ≡ front ++ (to_be_bytes w32 n ++ rest) → length front ≡ at
        → result ≡ Some n }
{
    if page.len() < 4 || at > page.len() - 4 {
        return None;
    }
    Some(u32::from_be_bytes([page[at], page[at + 1], page[at + 2], page[at + 3]]))
}

/// Writes a number over the four bytes from a place on, if the page has them.
pub fn set_number(page: &mut [u8], at: usize, number: u32)
    ensures set { (cell front rest : List ℕ) → length cell ≡ 4 → page.old ≡ front ++ (cell ++ rest)
        → length front ≡ at
        → page.new ≡ front ++ (to_be_bytes w32 number ++ rest) }
    ensures same { length page.new ≡ length page.old }
{
    if page.len() >= 4 && at <= page.len() - 4 {
        page[at..at + 4].copy_from_slice(&number.to_be_bytes());
    }
}

/// The header on page 1; None if it tells none.
pub fn header_in(page: &[u8]) -> Option<Header>
    ensures found { IfSome result (λ header. IsHeader page.now header) }
    ensures only { (header : Header) → IsHeader page.now header → result ≡ Some header }
{
    db_header::read(page).ok()
}

/// Writes a header over the one on page 1.
pub fn set_header(page: &mut [u8], header: &Header)
    requires { IsPageSize header.now.page_size }
    ensures reheads { 100 ≤ length page.old → Reheads page.old page.new header.now }
{
    if page.len() >= 100 {
        page[..100].copy_from_slice(&db_header::write(header));
    }
}

/// The next trunk page, and how many pages a trunk page lists; None if it has no room for them.
pub fn listed(page: &[u8]) -> Option<(u32, u32)>
    ensures only { (next : ℕ) (leaves : List ℕ) → IsTrunkPage page.now next leaves
        → result ≡ Some (next, length leaves) }
    ensures room { IfSome result (λ found. found.1 + 2 ≤ length page.now / 4) }
{
    let next = number_at(page, 0)?;
    let len = number_at(page, 4)?;
    if page.len() / 4 < 2 || len as usize > page.len() / 4 - 2 {
        return None;
    }
    Some((next, len))
}

/// Takes the last of so many pages from the list of a trunk page.
pub fn take_last(page: &mut [u8], len: u32) -> Option<u32>
    requires some { 1 ≤ len }
    requires room { len + 2 ≤ length page.now / 4 }
    ensures last { IsLastTaken page.old page.new len result }
    ensures same { length page.new ≡ length page.old }
{
    let leaf = number_at(page, 4 + 4 * len as usize)?;
    set_number(page, 4, len - 1);
    Some(leaf)
}

/// Whether a trunk page of so many bytes that lists so many pages takes one more. Older readers of
/// the format want six places at its end left free.
pub fn has_room(len: u32, size: usize) -> bool
    ensures room { result ≡ true → len + 8 < size / 4 }
    ensures short { result ≡ true → len + 1 < 2 ^ 32 }
    ensures full { result ≡ false → (2 ^ 32 ≤ len + 1) ⊎ (size / 4 ≤ len + 8) }
{
    len < u32::MAX && len as usize + 8 < size / 4
}

/// Puts a page behind the so many that a trunk page lists.
pub fn put_leaf(page: &mut [u8], len: u32, leaf: u32)
    requires room { len + 8 < length page.now / 4 }
    requires short { len + 1 < 2 ^ 32 }
    ensures listed { IsLeafPut page.old page.new len leaf }
    ensures same { length page.new ≡ length page.old }
{
    set_number(page, 8 + 4 * len as usize, leaf);
    set_number(page, 4, len + 1);
}

/// The bytes of a trunk page that tells the next one and lists no page. (`Memory`.)
pub fn empty_trunk(alloc: Global, size: usize, next: u32) -> R<Vec<u8>>
    ensures trunk { 8 ≤ size → IfOk result (λ page. IsTrunkPage page.items next []) }
    ensures size { IfOk result (λ page. length page.items ≡ size) }
    ensures refusal { IfErr result (λ fault. fault ≡ Memory) }
{
    let mut page = vec![in alloc; 0; size]?;
    set_number(page.as_mut_slice(), 0, next);
    Ok(page)
}
