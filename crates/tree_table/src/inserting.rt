//! Putting a row into a table's tree.

ghost use Rattle.std.specs.Prelude.{◌≡◌, IsTrue};
ghost use Rattle.pages.specs.Calls.{Causes};
ghost use Rattle.tree_table.specs.Calls.{InsertsRow};

use crate::flattening::store_top;
use crate::growing::{Change, packed_below};
use crate::lowering::trim;
use pages::WritePages;
use sqlval::R;
use std::alloc::Global;

/// How many pages may stand below a page on each way from a root.
pub(crate) const WAYS: u32 = 19;

/// Puts a row into the tree under this root, which keeps its number. Answers `false` if there is a row of this rowid: then nothing
/// changes. A tree whose ways would have more than 20 pages is built anew. (What the calls of pages refuse; `Damaged` for pages that
/// are none of a table's tree.)
pub fn insert<P: WritePages>(
    alloc: Global,
    pages: &mut P,
    root: u32,
    rowid: i64,
    payload: &[u8],
) -> R<bool>
    ensures inserted { IsTrue (P.Pages.tells (P.Pages.below pages.old))
        → InsertsRow (P.Pages.map pages.old) (P.Pages.map pages.new)
        (P.Pages.limits (P.Pages.below pages.old)).page root
        (record { rowid = rowid; payload = payload.now }) result }
    ensures kept { P.Pages.below pages.new ≡ P.Pages.below pages.old }
    ensures causes { Causes result (P.Pages.failures pages.old) (P.Pages.failures pages.new)
        (P.Pages.count pages.new ≡ (P.Pages.limits (P.Pages.below pages.new)).most) }
{
    match packed_below(alloc, pages, root, WAYS, rowid, payload)? {
        Change::Still => Ok(false),
        Change::Same => Ok(true),
        Change::Spread(packed, deep) => {
            store_top(alloc, pages, root, &packed, deep)?;
            trim(alloc, pages, root)?;
            Ok(true)
        }
    }
}
