//! Changing rows of a table's tree: taking them out, and giving them other payloads.

ghost use Rattle.std.specs.Prelude.{◌≡◌, ◌<◌, ◌≤◌, length, IsTrue, IsFalse, IfOk};
ghost use Rattle.std.specs.List.{AllByRecursion};
ghost use Rattle.pages.specs.Calls.{Causes};
ghost use Rattle.tree_table.specs.Calls.{ChangesRows, RemovesRow};
ghost use Rattle.tree_table.specs.Runs.{EditsRun, IsFirst, Replaces, RunsAt};

use crate::flattening::store_top;
use crate::growing::Change;
use crate::inserting::WAYS;
use crate::lowering::settle;
use crate::runs::changed_below;
use pages::WritePages;
use sqlval::R;
use std::alloc::Global;

/// A change of a row: another payload for the row of this rowid, or its removal.
#[derive(Drop)]
pub struct RowChange {
    /// The row's rowid.
    pub rowid: i64,
    /// The payload that it gets, or None if it is removed.
    pub payload: Option<Vec<u8>>,
}

/// Makes the first changes, those of rows on one leaf, in the tree under this root, which keeps its number. Answers how many they are, and
/// whether there is a row of this rowid, that of the first change; if there is none, nothing changes.
fn edit_run<P: WritePages>(
    alloc: Global,
    pages: &mut P,
    root: u32,
    rowid: i64,
    changes: &[RowChange],
) -> R<(usize, bool)>
    requires { IsFirst rowid changes.now }
    ensures edited { IsTrue (P.Pages.tells (P.Pages.below pages.old))
        → EditsRun (P.Pages.map pages.old) (P.Pages.map pages.new)
        (P.Pages.limits (P.Pages.below pages.old)).page root rowid changes.now result }
    ensures some { IfOk result (λ done. (0 < done.0) × (done.0 ≤ length changes.now)) }
    ensures kept { P.Pages.below pages.new ≡ P.Pages.below pages.old }
    ensures causes { Causes result (P.Pages.failures pages.old) (P.Pages.failures pages.new)
        (P.Pages.count pages.new ≡ (P.Pages.limits (P.Pages.below pages.new)).most) }
{
    let (count, change) = changed_below(alloc, pages, root, WAYS, rowid, changes)?;
    match change {
        Change::Still => Ok((count, false)),
        Change::Same => Ok((count, true)),
        Change::Spread(packed, deep) => {
            store_top(alloc, pages, root, &packed, deep)?;
            Ok((count, true))
        }
    }
}

/// Whether one of these changes takes a row out.
fn removes(changes: &[RowChange]) -> bool
    ensures { IsFalse result → AllByRecursion Replaces changes.now }
{
    changes.iter().any(|change| change.payload.is_none())
}

/// The same, and a tree whose last row went is its root alone then.
fn change_run<P: WritePages>(
    alloc: Global,
    pages: &mut P,
    root: u32,
    rowid: i64,
    changes: &[RowChange],
) -> R<(usize, bool)>
    requires { IsFirst rowid changes.now }
    ensures changed { IsTrue (P.Pages.tells (P.Pages.below pages.old))
        → RunsAt (P.Pages.map pages.old) (P.Pages.map pages.new)
        (P.Pages.limits (P.Pages.below pages.old)).page root rowid changes.now result }
    ensures some { IfOk result (λ done. (0 < done.0) × (done.0 ≤ length changes.now)) }
    ensures kept { P.Pages.below pages.new ≡ P.Pages.below pages.old }
    ensures causes { Causes result (P.Pages.failures pages.old) (P.Pages.failures pages.new)
        (P.Pages.count pages.new ≡ (P.Pages.limits (P.Pages.below pages.new)).most) }
{
    let (count, there) = edit_run(alloc, pages, root, rowid, changes)?;
    if !there {
        return Ok((count, false));
    }
    let (made, _) = changes.split_at(count);
    if !removes(made) {
        return Ok((count, true));
    }
    settle(alloc, pages, root)?;
    Ok((count, true))
}

/// Takes the row of this rowid out of the tree under this root, which keeps its number. Answers `false` if there is none: then nothing
/// changes. A tree whose last row went is its root alone. (What the calls of pages refuse, `Full` among them: where pages are joined,
/// the key between them may become longer; `Damaged` for pages that are none of a table's tree.)
pub fn remove<P: WritePages>(alloc: Global, pages: &mut P, root: u32, rowid: i64) -> R<bool>
    ensures removed { IsTrue (P.Pages.tells (P.Pages.below pages.old))
        → RemovesRow (P.Pages.map pages.old) (P.Pages.map pages.new)
        (P.Pages.limits (P.Pages.below pages.old)).page root rowid result }
    ensures kept { P.Pages.below pages.new ≡ P.Pages.below pages.old }
    ensures causes { Causes result (P.Pages.failures pages.old) (P.Pages.failures pages.new)
        (P.Pages.count pages.new ≡ (P.Pages.limits (P.Pages.below pages.new)).most) }
{
    let changes = [RowChange {
        rowid,
        payload: None,
    }];
    let (_, there) = change_run(alloc, pages, root, rowid, &changes)?;
    Ok(there)
}

/// Changes rows of the tree under this root, which keeps its number, one after another. A change of a rowid that no row has changes
/// nothing. Changes by rising rowid go down the tree once for each leaf. (As for `remove` and `insert`. What a refusal leaves no clause
/// says: some of the changes may be made.)
pub fn change_rows<P: WritePages>(
    alloc: Global,
    pages: &mut P,
    root: u32,
    changes: &[RowChange],
) -> R<()>
    ensures changed { IsTrue (P.Pages.tells (P.Pages.below pages.old))
        → ChangesRows (P.Pages.map pages.old) (P.Pages.map pages.new)
        (P.Pages.limits (P.Pages.below pages.old)).page root changes.now result }
    ensures kept { P.Pages.below pages.new ≡ P.Pages.below pages.old }
    ensures causes { Causes result (P.Pages.failures pages.old) (P.Pages.failures pages.new)
        (P.Pages.count pages.new ≡ (P.Pages.limits (P.Pages.below pages.new)).most) }
{
    let mut rest = changes;
    'runs: while let Some((first, _)) = rest.split_first() {
        let (count, _) = change_run(alloc, pages, root, first.rowid, rest)?;
        let (_, left) = rest.split_at(count);
        rest = left;
    }
    Ok(())
}
