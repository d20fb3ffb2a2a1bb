//! Entries of rows that go from a table, and of rows that take others' places, in the tree of each of its indexes.

ghost use Rattle.std.specs.Prelude.{◌≡◌, IsTrue, map};
ghost use Rattle.pages.specs.Calls.{Causes};
ghost use Rattle.query_terms.specs.Rows.{row_at};
ghost use Rattle.catalog.specs.Rows.{as_row};
ghost use Rattle.index_entries.specs.Keeping.{TakesEntries, row_in};
ghost use Rattle.index_entries.specs.Replacing.{ReplacesEntries};
ghost use Rattle.db_layout.specs.Trees.{columns_of};
ghost use Rattle.db_write.specs.Turning.{ClearsIndexes, FreesIndexes, ReplacesInIndexes, TakesFromIndexes};

use catalog::{Index, TableRow};
use index_entries::{replace_entries, take_entries};
use pages::WritePages;
use query_terms::SourceRow;
use sqlval::{Many, R};
use std::alloc::Global;
use tree_index::{clear, free_tree};

/// Takes the entries of the rows at these places out of an index's tree. (What `take_entries` refuses.)
fn take_from_index<P: WritePages>(
    alloc: Global,
    pages: &mut P,
    index: &Index,
    rows: &Many<SourceRow>,
    places: &[usize],
) -> R<()>
    ensures taken { IsTrue (P.Pages.tells (P.Pages.below pages.old))
        → TakesEntries (P.Pages.map pages.old) (P.Pages.map pages.new)
        (P.Pages.limits (P.Pages.below pages.old)).page
        index.now.root (columns_of index.now) (map (λ place. as_row (row_at rows.now place)) places.now) result }
    ensures kept { P.Pages.below pages.new ≡ P.Pages.below pages.old }
    ensures causes { Causes result (P.Pages.failures pages.old) (P.Pages.failures pages.new)
        (P.Pages.count pages.new ≡ (P.Pages.limits (P.Pages.below pages.new)).most) }
{
    let columns = index.columns.as_slice();
    take_entries(alloc, pages, index.root, columns, rows, places)
}

/// Takes the entries of the rows at these places, which go from a table, out of the tree of each of these indexes. (What `take_entries` refuses. Then
/// some entries may be out.)
pub(crate) fn take_from_indexes<P: WritePages>(
    alloc: Global,
    pages: &mut P,
    indexes: &[Index],
    rows: &Many<SourceRow>,
    places: &[usize],
) -> R<()>
    ensures taken { IsTrue (P.Pages.tells (P.Pages.below pages.old))
        → TakesFromIndexes (P.Pages.map pages.old) (P.Pages.map pages.new)
        (P.Pages.limits (P.Pages.below pages.old)).page
        indexes.now (map (λ place. as_row (row_at rows.now place)) places.now) result }
    ensures kept { P.Pages.below pages.new ≡ P.Pages.below pages.old }
    ensures causes { Causes result (P.Pages.failures pages.old) (P.Pages.failures pages.new)
        (P.Pages.count pages.new ≡ (P.Pages.limits (P.Pages.below pages.new)).most) }
{
    let mut left = indexes;
    'indexes: while let [index, rest @ ..] = left {
        take_from_index(alloc, pages, index, rows, places)?;
        left = rest;
    }
    Ok(())
}

/// Puts the entries of rows in place of those of others of their rowids in an index's tree. (What `replace_entries` refuses.)
fn replace_in_index<P: WritePages>(
    alloc: Global,
    pages: &mut P,
    index: &Index,
    gone: &[TableRow],
    come: &[TableRow],
) -> R<()>
    ensures replaced { IsTrue (P.Pages.tells (P.Pages.below pages.old))
        → ReplacesEntries (P.Pages.map pages.old) (P.Pages.map pages.new)
        (P.Pages.limits (P.Pages.below pages.old)).page
        index.now.root (columns_of index.now) (map row_in gone.now) (map row_in come.now) result }
    ensures kept { P.Pages.below pages.new ≡ P.Pages.below pages.old }
    ensures causes { Causes result (P.Pages.failures pages.old) (P.Pages.failures pages.new)
        (P.Pages.count pages.new ≡ (P.Pages.limits (P.Pages.below pages.new)).most) }
{
    replace_entries(
        alloc,
        pages,
        index.root,
        index.columns.as_slice(),
        gone,
        come,
    )
}

/// Puts the entries of rows in place of those of others of their rowids in the tree of each of these indexes. (What `replace_entries` refuses.
/// Then some entries may have changed.)
pub(crate) fn replace_in_indexes<P: WritePages>(
    alloc: Global,
    pages: &mut P,
    indexes: &[Index],
    gone: &[TableRow],
    come: &[TableRow],
) -> R<()>
    ensures replaced { IsTrue (P.Pages.tells (P.Pages.below pages.old))
        → ReplacesInIndexes (P.Pages.map pages.old) (P.Pages.map pages.new)
        (P.Pages.limits (P.Pages.below pages.old)).page
        indexes.now (map row_in gone.now) (map row_in come.now) result }
    ensures kept { P.Pages.below pages.new ≡ P.Pages.below pages.old }
    ensures causes { Causes result (P.Pages.failures pages.old) (P.Pages.failures pages.new)
        (P.Pages.count pages.new ≡ (P.Pages.limits (P.Pages.below pages.new)).most) }
{
    let mut left = indexes;
    'indexes: while let [index, rest @ ..] = left {
        replace_in_index(alloc, pages, index, gone, come)?;
        left = rest;
    }
    Ok(())
}

/// Takes all entries out of the tree of each of these indexes. (What `clear` refuses. Then some trees may be without entries.)
pub(crate) fn clear_indexes<P: WritePages>(alloc: Global, pages: &mut P, indexes: &[Index]) -> R<()>
    ensures cleared { IsTrue (P.Pages.tells (P.Pages.below pages.old))
        → ClearsIndexes (P.Pages.map pages.old) (P.Pages.map pages.new)
        (P.Pages.limits (P.Pages.below pages.old)).page
        indexes.now result }
    ensures kept { P.Pages.below pages.new ≡ P.Pages.below pages.old }
    ensures causes { Causes result (P.Pages.failures pages.old) (P.Pages.failures pages.new)
        (P.Pages.count pages.new ≡ (P.Pages.limits (P.Pages.below pages.new)).most) }
{
    let mut left = indexes;
    'indexes: while let [index, rest @ ..] = left {
        clear(alloc, pages, index.root)?;
        left = rest;
    }
    Ok(())
}

/// Gives the tree of each of these indexes back. (What `free_tree` refuses. Then some pages may be free.)
pub(crate) fn free_indexes<P: WritePages>(alloc: Global, pages: &mut P, indexes: &[Index]) -> R<()>
    ensures freed { IsTrue (P.Pages.tells (P.Pages.below pages.old))
        → FreesIndexes (P.Pages.map pages.old) (P.Pages.map pages.new)
        (P.Pages.limits (P.Pages.below pages.old)).page
        indexes.now result }
    ensures kept { P.Pages.below pages.new ≡ P.Pages.below pages.old }
    ensures causes { Causes result (P.Pages.failures pages.old) (P.Pages.failures pages.new)
        (P.Pages.count pages.new ≡ (P.Pages.limits (P.Pages.below pages.new)).most) }
{
    let mut left = indexes;
    'indexes: while let [index, rest @ ..] = left {
        free_tree(alloc, pages, index.root)?;
        left = rest;
    }
    Ok(())
}
