//! Whether a page says something: its cells are there, and share no byte.

ghost use Rattle.std.specs.Prelude.{◌≡◌, ◌⊎◌, ◌≤◌, Some, length, option_map, IfErr, OnOk, IsTrue};
ghost use Rattle.tree_page.specs.Bytes.{header_parts, header_on};
ghost use Rattle.tree_page.specs.Node.{Node, IsNode};
ghost use Rattle.tree_page.specs.Checking.{IsSaid, front_end, taken_up_to, claimed, claimed_from};

use crate::cells::find_ends;
use crate::header::{Header, front_len};
use sqlval::{Damage, Fault, R};

/// Whether each cell ends at or before the beginning of the one before it, and all of them begin after the pointers. False also
/// where a cell isn't there.
fn lie_in_falling_order(page: &[u8], start: usize, header: Header) -> bool
    requires { header_on page.now start ≡ Some (header_parts header) }
    ensures { IsTrue result → IsSaid (record { bytes = page.now; start = start }) }
{
    let front = front_len(start, header);
    let mut low = page.len();
    'cells: for index in 0..usize::from(header.len) {
        let Some((from, to)) = find_ends(page, start, header, index) else {
            return false;
        };
        if from < front || low < to {
            return false;
        }
        low = from;
    }
    true
}

/// Takes the bytes from one offset up to another; None if one of them is taken.
#[tactic(auto, unfolding(crate::specs::Checking::claimed))]
fn claim(taken: &mut [bool], from: usize, to: usize) -> Option<()>
    requires ordered { from ≤ to }
    requires within { to ≤ length taken.old }
    ensures { option_map (λ done. taken.new) result ≡ claimed taken.old from to }
{
    if taken[from..to].contains(&true) {
        return None;
    }
    taken[from..to].fill(true);
    Some(())
}

/// Takes the bytes of each cell; None if one isn't there, or if one of its bytes is taken.
fn claim_cells(page: &[u8], start: usize, header: Header, taken: &mut [bool]) -> Option<()>
    requires header { header_on page.now start ≡ Some (header_parts header) }
    requires taken { length taken.old ≡ length page.now }
    ensures { option_map (λ done. taken.new) result ≡ claimed_from page.now start
        (header_parts header) taken.old 0 header.len }
{
    'cells: for index in 0..usize::from(header.len) {
        let (from, to) = find_ends(page, start, header, index)?;
        claim(taken, from, to)?;
    }
    Some(())
}

/// Sets so many bytes, of which those of the front are taken. (`Memory`.)
fn take_front(taken: &mut Vec<bool>, front: usize, len: usize) -> R<()>
    requires { front ≤ len }
    ensures set { OnOk result (taken.new.items ≡ taken_up_to front len) }
    ensures refused { IfErr result (λ fault. fault ≡ Fault.Memory) }
{
    taken.clear();
    taken.resize(front, true)?;
    taken.resize(len, false)?;
    Ok(())
}

/// Checks that the page with this header says something. (`Memory`; `Damaged(Cell, 0)` for a page that says nothing.)
pub fn check_cells(page: &[u8], start: usize, header: Header, taken: &mut Vec<bool>) -> R<()>
    requires { header_on page.now start ≡ Some (header_parts header) }
    ensures found { OnOk result (IsSaid (record { bytes = page.now; start = start })) }
    ensures only { (node : Node) → IsNode page.now start node
        → IfErr result (λ fault. fault ≡ Fault.Memory) }
    ensures refused { IfErr result (λ fault. (fault ≡ Fault.Memory)
        ⊎ (fault ≡ Fault.Damaged Damage.Cell 0)) }
{
    if lie_in_falling_order(page, start, header) {
        return Ok(());
    }
    let len = page.len();
    take_front(taken, front_len(start, header), len)?;
    claim_cells(page, start, header, taken).ok_or(Fault::Damaged(Damage::Cell, 0))
}
