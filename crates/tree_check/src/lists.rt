//! The check of the freelist, and of the marks of all pages.

ghost use Rattle.std.specs.Prelude.{◌≡◌, ◌≤◌, ◌<◌, ◌^◌, ◌+◌, ◌/◌, ◌↔◌, ℕ, suc, IsTrue, IfSome, IfNone, IfErr, OnOk, length, take, drop};
ghost use Rattle.std.specs.Int.{w32, to_be_bytes};
ghost use Rattle.std.specs.List.{list_all};
ghost use Rattle.sqlval.specs.Faults.{IsOutside, IsNotDiskFault};
ghost use Rattle.pages.specs.Calls.{Stays};
ghost use Rattle.pages.specs.Map.{PageMap};
ghost use Rattle.freelist.specs.Freelist.{IsFreelist, pages_of};
ghost use Rattle.tree_check.specs.Checks.{CanMark, IsCheckedList, IsUnmarkedList, MarksList};
ghost use Rattle.tree_check.specs.Exact.{AreTold, Checks};
ghost use Rattle.tree_check.specs.Marks.{mark_of};
ghost use Rattle.tree_check.specs.Trunks.{AreListed, TellsList, ChecksTrunk};

use crate::bytes::number_at;
use crate::marking::mark;
use pages::Pages;
use sqlval::{Damage, Fault, R};

/// What a trunk page tells.
#[derive(Clone, Copy)]
pub struct Listed {
    /// The next trunk page, or 0.
    pub next: u32,
    /// How many pages it lists.
    pub len: u32,
}

/// What a trunk page of these bytes tells; None if it has no room for so many pages, or doesn't list fewer than `left`.
fn listed_in(bytes: &[u8], left: u32) -> Option<Listed>
    ensures found { IfSome result (TellsList bytes.now left) }
    ensures only { (n : ℕ) → n < 2 ^ 32 → to_be_bytes w32 n ≡ take 4 (drop 4 bytes.now)
        → n + 2 ≤ length bytes.now / 4 → n < left
        → IfNone result ⊥ }
{
    let next = number_at(bytes, 0)?;
    let len = number_at(bytes, 4)?;
    if bytes.len() / 4 < 2 || len as usize > bytes.len() / 4 - 2 || len >= left {
        return None;
    }
    Some(Listed { next, len })
}

/// Marks the pages that a trunk page of these bytes lists. (What `mark` refuses; `Damaged(Freelist, 0)` if the bytes end before.)
fn mark_leaves(bytes: &[u8], len: u32, marks: &mut Vec<bool>) -> R<()>
    ensures checked { (map : PageMap) → length marks.old.items ≡ suc (length map)
        → Checks (AreListed map (drop 8 bytes.now) len)
        (λ leaves. leaves) marks.old.items marks.new.items result }
    ensures long { length marks.new.items ≡ length marks.old.items }
    ensures not_disk { IfErr result IsNotDiskFault }
{
    'leaves: for index in 0..len as usize {
        let Some(leaf) = number_at(bytes, 8 + 4 * index) else {
            return Err(Fault::Damaged(Damage::Freelist, 0));
        };
        mark(marks, leaf)?;
    }
    Ok(())
}

/// Checks a trunk page that lists fewer than so many pages, marks it and these, and answers what it tells. (What `mark` and `load`
/// refuse; `Damaged(Freelist, trunk)` for another page.)
fn check_trunk<P: Pages>(pages: &mut P, trunk: u32, left: u32, marks: &mut Vec<bool>) -> R<Listed>
    ensures checked { (map : PageMap) (size : ℕ)
        → AreTold P.Pages.below P.Pages.tells P.Pages.limits P.Pages.map pages.old map size
        → CanMark map size marks.old.items
        → ChecksTrunk map size trunk left marks.old.items marks.new.items result }
    ensures long { length marks.new.items ≡ length marks.old.items }
    ensures stays { Stays P.Pages.below P.Pages.map P.Pages.count P.Pages.failures result pages.old pages.new }
{
    mark(marks, trunk)?;
    pages.load(trunk)?;
    let Some(listed) = listed_in(pages.loaded(), left) else {
        return Err(Fault::Damaged(Damage::Freelist, trunk));
    };
    mark_leaves(pages.loaded(), listed.len, marks)?;
    Ok(listed)
}

/// Checks trunk pages, from the first one on, and marks them and the pages that they list, so many in all. (What `check_trunk`
/// refuses; `Damaged(Freelist, trunk)` for a trunk page after these.)
fn check_trunks<P: Pages>(pages: &mut P, first: u32, count: u32, marks: &mut Vec<bool>) -> R<()>
    ensures checked { (map : PageMap) (size : ℕ)
        → AreTold P.Pages.below P.Pages.tells P.Pages.limits P.Pages.map pages.old map size
        → CanMark map size marks.old.items
        → Checks (IsFreelist map size first count) pages_of marks.old.items marks.new.items result }
    ensures long { length marks.new.items ≡ length marks.old.items }
    ensures stays { Stays P.Pages.below P.Pages.map P.Pages.count P.Pages.failures result pages.old pages.new }
{
    let mut trunk = first;
    let mut left = count;
    'trunks: while left > 0 {
        let listed = check_trunk(pages, trunk, left, marks)?;
        left = left.saturating_sub(listed.len).saturating_sub(1);
        trunk = listed.next;
    }
    if trunk != 0 {
        return Err(Fault::Damaged(Damage::Freelist, trunk));
    }
    Ok(())
}

/// Checks the freelist that begins at a trunk page and has so many pages, and marks them. (`Io`; `Damaged` with the page where it
/// breaks off: `Freelist` for a trunk page, `UsedTwice` for a page that was marked, `Size` for a number that is none of a page; what
/// `load` refuses.)
pub fn check_freelist<P: Pages>(
    pages: &mut P,
    first: u32,
    count: u32,
    marks: &mut Vec<bool>,
) -> R<()>
    ensures found { IsTrue (P.Pages.tells (P.Pages.below pages.old))
        → CanMark (P.Pages.map pages.old) (P.Pages.limits (P.Pages.below pages.old)).page marks.old.items
        → OnOk result (IsCheckedList (P.Pages.map pages.old)
        (P.Pages.limits (P.Pages.below pages.old)).page first count
        marks.old.items marks.new.items) }
    ensures only { IsTrue (P.Pages.tells (P.Pages.below pages.old))
        → CanMark (P.Pages.map pages.old) (P.Pages.limits (P.Pages.below pages.old)).page marks.old.items
        → IsUnmarkedList (P.Pages.map pages.old)
        (P.Pages.limits (P.Pages.below pages.old)).page first count marks.old.items
        → IfErr result IsOutside }
    ensures same { IsTrue (P.Pages.tells (P.Pages.below pages.old))
        → CanMark (P.Pages.map pages.old) (P.Pages.limits (P.Pages.below pages.old)).page marks.old.items
        → OnOk result (MarksList (P.Pages.map pages.old)
        (P.Pages.limits (P.Pages.below pages.old)).page first count
        marks.old.items marks.new.items) }
    ensures long { length marks.new.items ≡ length marks.old.items }
    ensures stays { Stays P.Pages.below P.Pages.map P.Pages.count P.Pages.failures result pages.old pages.new }
{
    check_trunks(pages, first, count, marks)
}

/// Whether all are true.
fn are_all(marks: &[bool]) -> bool
    ensures { result ≡ list_all (λ mark. mark) marks.now }
{
    marks.iter().all(|mark| *mark)
}

/// Whether each page is marked, from page 1 on.
pub fn are_all_marked(marks: &[bool]) -> bool
    ensures exact { IsTrue result ↔ ((n : ℕ) → 1 ≤ n → n < length marks.now
        → mark_of n marks.now ≡ 1) }
{
    match marks {
        [] => true,
        [_, rest @ ..] => are_all(rest),
    }
}
