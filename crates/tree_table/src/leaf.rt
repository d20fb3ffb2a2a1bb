//! Pages of a table's tree without rows, and where a page's node begins.

ghost use Rattle.std.specs.Prelude.{◌≡◌, ◌≤◌, ◌⊎◌, length, take, IfOk, IfErr, []};
ghost use Rattle.sqlval.specs.Faults.{IsNotDiskFault};
ghost use Rattle.sqlval.specs.PageSizes.{IsPageSize};
ghost use Rattle.tree_leaf.specs.Leaf.{IsTableLeaf};
ghost use Rattle.tree_leaf.specs.Writing.{Fits};
ghost use Rattle.pages.specs.Counting as counting;
ghost use Rattle.tree_table.specs.SingleLeaf.{placed};

use sqlval::limits::DATABASE_HEADER_LEN;
use sqlval::{Damage, Fault, R};
use std::alloc::Global;
use tree_leaf::build;

/// Where the tree's node begins on a page: after the database's header on page 1.
pub(crate) fn start_of(number: u32) -> usize
    ensures { result ≡ counting.start_of number }
{
    if number == 1 { DATABASE_HEADER_LEN } else { 0 }
}

/// The fault, with this page's number if it has none.
pub(crate) fn at_page(fault: Fault, number: u32) -> Fault
    ensures { result ≡ placed number fault }
{
    match fault {
        Fault::Damaged(damage, 0) => Fault::Damaged(damage, number),
        _ => fault,
    }
}

/// Builds the page of a table without rows, other than page 1. A page without room for a header is `TooLong`.
pub(crate) fn empty(alloc: Global, page_size: usize) -> R<Vec<u8>>
    ensures leaf { IfOk result (λ page. IsTableLeaf page.items 0 []
        × (length page.items ≡ page_size)) }
    ensures refused { IfErr result (λ fault. (fault ≡ Fault.Memory)
        ⊎ ((fault ≡ Fault.TooLong) × (Fits page_size 0 [] → ⊥))) }
{
    build(alloc, &[], page_size, &[])
}

/// The bytes of a page without cells, with what stands before its header as it was.
fn without_cells(alloc: Global, page: &[u8], start: usize) -> R<Vec<u8>>
    requires { start ≤ length page.now }
    ensures leaf { IfOk result (λ new. IsTableLeaf new.items start []) }
    ensures size { IfOk result (λ new. length new.items ≡ length page.now) }
    ensures front { IfOk result (λ new. take start new.items ≡ take start page.now) }
    ensures refused { IfErr result (λ fault. (fault ≡ Fault.Memory)
        ⊎ ((fault ≡ Fault.TooLong) × (Fits (length page.now) start [] → ⊥))) }
{
    build(alloc, &page[..start], page.len(), &[])
}

/// The bytes of a page without its rows; what stands before the tree's node stays. (`Memory`; `Damaged(Page, number)` for a page that is too
/// short.)
pub(crate) fn emptied(alloc: Global, page: &[u8], number: u32) -> R<Vec<u8>>
    ensures leaf { IfOk result (λ new. IsTableLeaf new.items (counting.start_of number) []) }
    ensures size { IfOk result (λ new. length new.items ≡ length page.now) }
    ensures front { IfOk result (λ new. take (counting.start_of number) new.items ≡ take
        (counting.start_of number) page.now) }
    ensures refused { IfErr result (λ fault. IsPageSize (length page.now) → fault ≡ Fault.Memory) }
    ensures not_disk { IfErr result IsNotDiskFault }
{
    let start = start_of(number);
    if page.len() < start {
        return Err(Fault::Damaged(Damage::Page, number));
    }
    without_cells(alloc, page, start)
}
