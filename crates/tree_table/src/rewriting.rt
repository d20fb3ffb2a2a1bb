//! Changing a run of rows where they stand: each payload is written over one that is as long.

ghost use Rattle.std.specs.Prelude.{◌≡◌, IfErr, IsTrue};
ghost use Rattle.sqlval.specs.declared.fault.Fault.TheVariants.{Memory};
ghost use Rattle.pages.specs.Calls.{Causes};
ghost use Rattle.tree_table.specs.Rewriting.{Rewrites, RewritesOne};
ghost use Rattle.tree_table.specs.Runs.{IsOneChange, RewritesRow};

use crate::changing::RowChange;
use pages::WritePages;
use sqlval::R;
use std::alloc::Global;
use tree_pack::{Packed, put_payload};
use tree_page::TreePage;
use tree_store::rewrite_on;

/// Writes the payload of a change over that of the row at a place of a leaf, if it is as long and lies whole there. Answers whether it did.
fn rewrite(page: &mut Vec<u8>, start: usize, place: usize, change: &RowChange) -> bool
    ensures { RewritesOne page.old.items start place change.now result page.new.items }
{
    match &change.payload {
        Some(payload) => put_payload(page, start, place, payload.as_slice()),
        None => false,
    }
}

/// Whether there is one change alone.
pub(crate) fn is_one_change(changes: &[RowChange]) -> bool
    ensures { IsTrue result → IsOneChange changes.now }
{
    match changes {
        [_] => true,
        _ => false,
    }
}

/// Writes the payload that the only change gives over that of the row at a place of a leaf, in its page, if it is as long and lies whole there.
/// Answers whether it did; if not, nothing changes. (What `rewrite_on` refuses.)
pub(crate) fn rewrite_row<P: WritePages>(
    pages: &mut P,
    number: u32,
    place: usize,
    changes: &[RowChange],
) -> R<bool>
    ensures rewritten { IsTrue (P.Pages.tells (P.Pages.below pages.old))
        → RewritesRow (P.Pages.map pages.old) (P.Pages.map pages.new)
        (P.Pages.limits (P.Pages.below pages.old)).page number place changes.now result }
    ensures kept { P.Pages.below pages.new ≡ P.Pages.below pages.old }
    ensures causes { Causes result (P.Pages.failures pages.old) (P.Pages.failures pages.new) ⊥ }
{
    if !is_one_change(changes) {
        return Ok(false);
    }
    let Some((change, _)) = changes.split_first() else {
        return Ok(false);
    };
    match &change.payload {
        Some(payload) => rewrite_on(pages, number, place, payload.as_slice()),
        None => Ok(false),
    }
}

/// Whether the row at the first of these places is as long as the first change has it: else the page needn't be copied to find out.
fn begins_as_long(bytes: &[u8], start: usize, places: &[usize], changes: &[RowChange]) -> bool {
    let Ok(page) = TreePage::over(bytes, start) else {
        return false;
    };
    let Some((place, _)) = places.split_first() else {
        return true;
    };
    let Some((change, _)) = changes.split_first() else {
        return true;
    };
    let Some(payload) = &change.payload else {
        return false;
    };
    match page.row(*place) {
        Ok(row) => row.payload.size == payload.len() as u64,
        Err(_) => false,
    }
}

/// The page of a leaf of these bytes, with the payloads of the first changes over those of the rows at these places; None where one isn't as long, or
/// doesn't lie whole in its cell. (`Memory`.)
pub(crate) fn rewritten(
    alloc: Global,
    bytes: &[u8],
    start: usize,
    places: &[usize],
    changes: &[RowChange],
) -> R<Option<Packed>>
    ensures rewritten { Rewrites bytes.now start places.now changes.now result }
    ensures memory { IfErr result (λ fault. fault ≡ Memory) }
{
    if !begins_as_long(bytes, start, places, changes) {
        return Ok(None);
    }
    let mut page = bytes.to_vec(alloc)?;
    let most = places.len().min(changes.len());
    'places: for index in 0..most {
        if !rewrite(&mut page, start, places[index], &changes[index]) {
            return Ok(None);
        }
    }
    Ok(Some(Packed {
        pieces: Vec::new(alloc),
        last: page,
    }))
}
