//! Numbers on a page, and where its tree's part begins.

ghost use Rattle.std.specs.Prelude.{◌≡◌, ◌≤◌, ◌<◌, ◌+◌, IfNone, IfSome, length, take, drop};
ghost use Rattle.std.specs.Int.{w32, to_be_bytes};
ghost use Rattle.pages.specs.Counting as counting;
ghost use Rattle.tree_table.specs.SingleLeaf.{placed};

use sqlval::Fault;
use sqlval::limits::DATABASE_HEADER_LEN;

/// Where a tree's part of a page begins: after the database's header on page 1.
pub(crate) fn start_of(number: u32) -> usize
    ensures { result ≡ counting.start_of number }
{
    if number == 1 { DATABASE_HEADER_LEN } else { 0 }
}

/// The fault, with this page's number if it has none.
pub(crate) fn at_page(fault: Fault, number: u32) -> Fault
    ensures { result ≡ placed number fault }
{
    match fault {
        Fault::Damaged(damage, 0) => Fault::Damaged(damage, number),
        _ => fault,
    }
}

/// The number in the four bytes from a place on; None if there are fewer.
pub(crate) fn number_at(bytes: &[u8], at: usize) -> Option<u32>
    ensures found { IfSome result (λ n. to_be_bytes w32 n ≡ take 4 (drop at bytes.now)) }
    ensures only { at + 4 ≤ length bytes.now → IfNone result ⊥ }
{
    if bytes.len() < 4 || at > bytes.len() - 4 {
        return None;
    }
    Some(u32::from_be_bytes([bytes[at], bytes[at + 1], bytes[at + 2], bytes[at + 3]]))
}
