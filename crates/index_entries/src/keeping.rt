//! Entries of rows that come to a table, and of rows that go.

ghost use Rattle.std.specs.Prelude.{◌≡◌, ◌∷◌, [], map, IsTrue};
ghost use Rattle.pages.specs.Calls.{Causes};
ghost use Rattle.query_terms.specs.Rows.{row_at};
ghost use Rattle.catalog.specs.Rows.{as_row};
ghost use Rattle.index_entries.specs.Keeping.{AddsEntries, TakesEntries, TakesEntry, columns_in, row_in};

use crate::columns::{collations_of, entry_of};
use crate::taking::take_batch_at;
use catalog::{IndexColumn, TableRow};
use pages::WritePages;
use query_terms::SourceRow;
use sqlval::{Collation, Damage, Fault, Many, R};
use std::alloc::Global;
use tree_index::{insert, remove};

/// Of how many rows the entries are in memory at once.
pub(crate) const BATCH: usize = 256;

/// Puts the entry of a row into an index's tree. (What `insert` refuses; `Damaged(Index, root)` if it is there.)
pub(crate) fn add_entry<P: WritePages>(
    alloc: Global,
    pages: &mut P,
    root: u32,
    columns: &[IndexColumn],
    under: &[Collation],
    row: &TableRow,
) -> R<()>
    requires { under.now ≡ map (λ column. column.collation) columns.now }
    ensures added { IsTrue (P.Pages.tells (P.Pages.below pages.old))
        → AddsEntries (P.Pages.map pages.old) (P.Pages.map pages.new)
        (P.Pages.limits (P.Pages.below pages.old)).page
        root (columns_in columns.now) (row_in row.now ∷ []) result }
    ensures kept { P.Pages.below pages.new ≡ P.Pages.below pages.old }
    ensures causes { Causes result (P.Pages.failures pages.old) (P.Pages.failures pages.new)
        (P.Pages.count pages.new ≡ (P.Pages.limits (P.Pages.below pages.new)).most) }
{
    let entry = entry_of(alloc, columns, row)?;
    if insert(alloc, pages, root, under, &entry)? {
        return Ok(());
    }
    Err(Fault::Damaged(Damage::Index, root))
}

/// Takes the entry of a row out of an index's tree. (What `remove` refuses; `Damaged(Index, root)` if it isn't there.)
pub(crate) fn take_entry<P: WritePages>(
    alloc: Global,
    pages: &mut P,
    root: u32,
    columns: &[IndexColumn],
    under: &[Collation],
    row: &TableRow,
) -> R<()>
    requires { under.now ≡ map (λ column. column.collation) columns.now }
    ensures taken { IsTrue (P.Pages.tells (P.Pages.below pages.old))
        → TakesEntry (P.Pages.map pages.old) (P.Pages.map pages.new)
        (P.Pages.limits (P.Pages.below pages.old)).page
        root (columns_in columns.now) (row_in row.now) result }
    ensures kept { P.Pages.below pages.new ≡ P.Pages.below pages.old }
    ensures causes { Causes result (P.Pages.failures pages.old) (P.Pages.failures pages.new)
        (P.Pages.count pages.new ≡ (P.Pages.limits (P.Pages.below pages.new)).most) }
{
    let entry = entry_of(alloc, columns, row)?;
    if remove(alloc, pages, root, under, &entry)? {
        return Ok(());
    }
    Err(Fault::Damaged(Damage::Index, root))
}

/// Puts the entry of a row that comes to a table into the tree of one of its indexes. (`Memory`, `Io`, `Full`; `TooLong` if no record can hold
/// the entry.)
pub fn add_row<P: WritePages>(
    alloc: Global,
    pages: &mut P,
    root: u32,
    columns: &[IndexColumn],
    row: &TableRow,
) -> R<()>
    ensures added { IsTrue (P.Pages.tells (P.Pages.below pages.old))
        → AddsEntries (P.Pages.map pages.old) (P.Pages.map pages.new)
        (P.Pages.limits (P.Pages.below pages.old)).page
        root (columns_in columns.now) (row_in row.now ∷ []) result }
    ensures kept { P.Pages.below pages.new ≡ P.Pages.below pages.old }
    ensures causes { Causes result (P.Pages.failures pages.old) (P.Pages.failures pages.new)
        (P.Pages.count pages.new ≡ (P.Pages.limits (P.Pages.below pages.new)).most) }
{
    let under = collations_of(alloc, columns)?;
    add_entry(alloc, pages, root, columns, &under, row)
}

/// Takes the entry of a row that goes from a table out of the tree of one of its indexes. (`Memory`, `Io`, `Full`.)
pub fn take_row<P: WritePages>(
    alloc: Global,
    pages: &mut P,
    root: u32,
    columns: &[IndexColumn],
    row: &TableRow,
) -> R<()>
    ensures taken { IsTrue (P.Pages.tells (P.Pages.below pages.old))
        → TakesEntries (P.Pages.map pages.old) (P.Pages.map pages.new)
        (P.Pages.limits (P.Pages.below pages.old)).page
        root (columns_in columns.now) (row_in row.now ∷ []) result }
    ensures kept { P.Pages.below pages.new ≡ P.Pages.below pages.old }
    ensures causes { Causes result (P.Pages.failures pages.old) (P.Pages.failures pages.new)
        (P.Pages.count pages.new ≡ (P.Pages.limits (P.Pages.below pages.new)).most) }
{
    let under = collations_of(alloc, columns)?;
    take_entry(alloc, pages, root, columns, &under, row)
}

/// Takes the entries of the rows at these places, which go from a table, out of the tree of one of its indexes; of rows that were read, none is
/// copied whole. (`Memory`, `Io`, `Full`. Then some entries may be out.)
pub fn take_entries<P: WritePages>(
    alloc: Global,
    pages: &mut P,
    root: u32,
    columns: &[IndexColumn],
    rows: &Many<SourceRow>,
    places: &[usize],
) -> R<()>
    ensures taken { IsTrue (P.Pages.tells (P.Pages.below pages.old))
        → TakesEntries (P.Pages.map pages.old) (P.Pages.map pages.new)
        (P.Pages.limits (P.Pages.below pages.old)).page
        root (columns_in columns.now) (map (λ place. as_row (row_at rows.now place)) places.now) result }
    ensures kept { P.Pages.below pages.new ≡ P.Pages.below pages.old }
    ensures causes { Causes result (P.Pages.failures pages.old) (P.Pages.failures pages.new)
        (P.Pages.count pages.new ≡ (P.Pages.limits (P.Pages.below pages.new)).most) }
{
    let under = collations_of(alloc, columns)?;
    let mut left = places;
    'batches: while !left.is_empty() {
        let (batch, rest) = left.split_at(left.len().min(BATCH));
        take_batch_at(alloc, pages, root, columns, &under, rows, batch)?;
        left = rest;
    }
    Ok(())
}
