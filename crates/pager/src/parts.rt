//! A part of a page.

ghost use Rattle.std.specs.Prelude.{◌≡◌, ◌≤◌, ◌+◌, length, take, drop, IfErr, IfOk, IsTrue, IsFalse};
ghost use Rattle.std.specs.Vec.{with_items};
ghost use Rattle.sqlval.specs.declared.fault.Fault.TheVariants.{Memory};
ghost use Rattle.pages.specs.Map.{written_over};

use sqlval::R;
use std::alloc::Global;

/// Writes bytes over those of a page from an offset on. Answers `false` where it ends before: then nothing changes.
pub fn write_within(page: &mut Vec<u8>, offset: usize, bytes: &[u8]) -> bool
    ensures fits { IsTrue result → offset + length bytes.now ≤ length page.old.items }
    ensures short { offset + length bytes.now ≤ length page.old.items → IsTrue result }
    ensures written { IsTrue result → page.new.items ≡ written_over offset bytes.now page.old.items }
    ensures place { IsTrue result → page.new ≡ with_items page.old (written_over offset bytes.now page.old.items) }
    ensures same { IsFalse result → page.new ≡ page.old }
{
    if page.len() < offset || page.len() - offset < bytes.len() {
        return false;
    }
    page[offset..offset + bytes.len()].copy_from_slice(bytes);
    true
}

/// A copy of so many bytes of a page, from an offset on.
pub fn copy_part(alloc: Global, page: &[u8], offset: usize, count: usize) -> R<Vec<u8>>
    requires { offset + count ≤ length page.now }
    ensures copied { IfOk result (λ part. part.items ≡ take count (drop offset page.now)) }
    ensures refused { IfErr result (λ fault. fault ≡ Memory) }
{
    Ok(page[offset..offset + count].to_vec(alloc)?)
}
