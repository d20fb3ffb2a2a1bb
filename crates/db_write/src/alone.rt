//! Rows that clash with no other row of their table.

ghost use Rattle.std.specs.Prelude.{◌≡◌, map, IsTrue};
ghost use Rattle.pages.specs.Calls.{Stays};
ghost use Rattle.index_entries.specs.Keeping.{row_in};
ghost use Rattle.db_write.specs.Kept.{SeeAlone, SeeApart, SeesAlone, SeesApart};

use catalog::{Index, TableRow};
use index_build::keys_are_apart;
use index_entries::{collations_of, is_alone};
use pages::Pages;
use sqlval::R;
use std::alloc::Global;

/// Whether each of these rows is seen to clash with no other row in the tree of an index, if that is UNIQUE. (What `is_alone` refuses.)
fn are_alone_at<P: Pages>(alloc: Global, pages: &mut P, index: &Index, rows: &[TableRow]) -> R<bool>
    ensures seen { IsTrue (P.Pages.tells (P.Pages.below pages.old))
        → SeesAlone (P.Pages.map pages.old) (P.Pages.limits (P.Pages.below pages.old)).page
        index.now (map row_in rows.now) result }
    ensures stays { Stays P.Pages.below P.Pages.map P.Pages.count P.Pages.failures result pages.old pages.new }
{
    if !index.is_unique {
        return Ok(true);
    }
    let columns = index.columns.as_slice();
    let under = collations_of(alloc, columns)?;
    'rows: for row in rows {
        if !is_alone(alloc, pages, index.root, columns, &under, row)? {
            return Ok(false);
        }
    }
    Ok(true)
}

/// Whether each of these rows is seen to clash with no other row in the trees of these indexes, where they are UNIQUE. (What `is_alone` refuses.)
pub(crate) fn are_alone<P: Pages>(
    alloc: Global,
    pages: &mut P,
    indexes: &[Index],
    rows: &[TableRow],
) -> R<bool>
    ensures seen { IsTrue (P.Pages.tells (P.Pages.below pages.old))
        → SeeAlone (P.Pages.map pages.old) (P.Pages.limits (P.Pages.below pages.old)).page
        indexes.now (map row_in rows.now) result }
    ensures stays { Stays P.Pages.below P.Pages.map P.Pages.count P.Pages.failures result pages.old pages.new }
{
    'indexes: for index in indexes {
        if !are_alone_at(alloc, pages, index, rows)? {
            return Ok(false);
        }
    }
    Ok(true)
}

/// Whether it is seen that no two rows clash in the tree of an index, if that is UNIQUE, in reading at most so many leaves. (What
/// `keys_are_apart` refuses.)
fn keys_are_apart_at<P: Pages>(alloc: Global, pages: &mut P, index: &Index, most: usize) -> R<bool>
    ensures seen { IsTrue (P.Pages.tells (P.Pages.below pages.old))
        → SeesApart (P.Pages.map pages.old) (P.Pages.limits (P.Pages.below pages.old)).page index.now result }
    ensures stays { Stays P.Pages.below P.Pages.map P.Pages.count P.Pages.failures result pages.old pages.new }
{
    if !index.is_unique {
        return Ok(true);
    }
    let columns = index.columns.as_slice();
    let under = collations_of(alloc, columns)?;
    keys_are_apart(alloc, pages, index.root, columns, &under, most)
}

/// Whether it is seen that no two rows clash in the trees of these indexes, where they are UNIQUE, in reading at most so many leaves of each.
/// (What `keys_are_apart` refuses.)
pub(crate) fn all_keys_are_apart<P: Pages>(
    alloc: Global,
    pages: &mut P,
    indexes: &[Index],
    most: usize,
) -> R<bool>
    ensures seen { IsTrue (P.Pages.tells (P.Pages.below pages.old))
        → SeeApart (P.Pages.map pages.old) (P.Pages.limits (P.Pages.below pages.old)).page indexes.now result }
    ensures stays { Stays P.Pages.below P.Pages.map P.Pages.count P.Pages.failures result pages.old pages.new }
{
    'indexes: for index in indexes {
        if !keys_are_apart_at(alloc, pages, index, most)? {
            return Ok(false);
        }
    }
    Ok(true)
}
