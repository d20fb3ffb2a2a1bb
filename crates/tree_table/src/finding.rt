//! Finding a row of a table's tree.

ghost use Rattle.std.specs.Prelude.{◌≡◌, ◌+ℤ◌, pos, Some, IsTrue, IfOk, IfErr, MatchOption};
ghost use Rattle.pages.specs.Calls.{Stays};
ghost use Rattle.tree_table.specs.Calls.{FindsLast, FindsRow};

use crate::reading::{is_row_at, last_row, read_next_row};
use crate::way::find_leaf;
use pages::Pages;
use sqlval::{Fault, R};

/// Puts the payload of the row of this rowid behind what `out` has, and answers whether there is one. Each page on the way is loaded once. (`Memory`, `Io`;
/// `Damaged(Depth, root)` if a way has more than 20 pages; `Damaged` for pages that are none of a table's tree; what `load` and
/// `read_payload` refuse.)
pub fn get<P: Pages>(pages: &mut P, root: u32, rowid: i64, out: &mut Vec<u8>) -> R<bool>
    ensures found { IsTrue (P.Pages.tells (P.Pages.below pages.old))
        → FindsRow (P.Pages.map pages.old) (P.Pages.limits (P.Pages.below pages.old)).page root
        rowid out.old.items out.new.items result }
    ensures stays { Stays P.Pages.below P.Pages.map P.Pages.count P.Pages.failures result pages.old pages.new }
{
    let end = find_leaf(pages, root, rowid)?;
    if !is_row_at(pages, end.way.page, end.place, rowid)? {
        return Ok(false);
    }
    read_next_row(pages, end.way.page, end.place, out)?;
    Ok(true)
}

/// The greatest rowid of a tree, if it has rows. (What `get` refuses.)
pub fn last<P: Pages>(pages: &mut P, root: u32) -> R<Option<i64>>
    ensures found { IsTrue (P.Pages.tells (P.Pages.below pages.old))
        → FindsLast (P.Pages.map pages.old) (P.Pages.limits (P.Pages.below pages.old)).page root result }
    ensures stays { Stays P.Pages.below P.Pages.map P.Pages.count P.Pages.failures result pages.old pages.new }
{
    // No row is greater.
    let mut most = i64::MAX;
    'leaves: loop {
        let end = find_leaf(pages, root, most)?;
        let last = last_row(pages, end.way.page)?;
        if last.is_some() {
            return Ok(last);
        }
        // This leaf has no rows, and those on its left are at most the key there.
        let Some(key) = end.way.left else {
            return Ok(None);
        };
        most = key;
    }
}

/// The rowid of a new row after those up to `last`. `RowidFull` where that is the greatest of 64 bits.
pub fn next_rowid(last: Option<i64>) -> R<i64>
    ensures next { IfOk result (λ rowid. MatchOption last (rowid ≡ pos 1) (λ before. rowid ≡ before +ℤ pos 1)) }
    ensures full { IfErr result (λ fault. (fault ≡ Fault.RowidFull)
        × (last ≡ Some (pos 9223372036854775807))) }
{
    match last {
        None => Ok(1),
        Some(last) => last.checked_add(1).ok_or(Fault::RowidFull),
    }
}
