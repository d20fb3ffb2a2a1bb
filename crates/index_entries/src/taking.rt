//! Entries of rows that go, taken out of an index's tree some at a time.

ghost use Rattle.std.specs.Prelude.{◌≡◌, map, IsTrue, IfErr, IfOk};
ghost use Rattle.pages.specs.Calls.{Causes};
ghost use Rattle.query_terms.specs.Rows.{row_at};
ghost use Rattle.catalog.specs.Rows.{as_row};
ghost use Rattle.index_entries.specs.Entries.{indexed};
ghost use Rattle.index_entries.specs.Keeping.{columns_in, row_in};
ghost use Rattle.index_entries.specs.Taking.{TakesBatch, TakesGone};

use crate::columns::entry_of;
use crate::places::entries_at;
use catalog::{IndexColumn, TableRow};
use pages::WritePages;
use query_terms::SourceRow;
use sqlval::{Collation, Damage, Fault, Many, R, Value};
use std::alloc::Global;
use tree_index::remove_run;

/// The entries of rows. (`Memory`.)
pub(crate) fn entries_for(
    alloc: Global,
    columns: &[IndexColumn],
    rows: &[TableRow],
) -> R<Vec<Many<Value>>>
    ensures made { IfOk result (λ entries. entries.items
        ≡ map (λ row. indexed (columns_in columns.now) (row_in row)) rows.now) }
    ensures refused { IfErr result (λ fault. fault ≡ Fault.Memory) }
{
    let mut entries = Vec::with_capacity(alloc, rows.len())?;
    'rows: for row in rows {
        entries.push(Many::from_vec(entry_of(alloc, columns, row)?))?;
    }
    Ok(entries)
}

/// Takes entries out of an index's tree, as many at a time as one descent takes. (What `remove_run` refuses; `Damaged(Index, root)` if one isn't
/// there. Then some may be out.)
fn take_gone<P: WritePages>(
    alloc: Global,
    pages: &mut P,
    root: u32,
    under: &[Collation],
    entries: &[Many<Value>],
) -> R<()>
    ensures taken { IsTrue (P.Pages.tells (P.Pages.below pages.old))
        → TakesGone (P.Pages.map pages.old) (P.Pages.map pages.new)
        (P.Pages.limits (P.Pages.below pages.old)).page
        root under.now entries.now result }
    ensures kept { P.Pages.below pages.new ≡ P.Pages.below pages.old }
    ensures causes { Causes result (P.Pages.failures pages.old) (P.Pages.failures pages.new)
        (P.Pages.count pages.new ≡ (P.Pages.limits (P.Pages.below pages.new)).most) }
{
    let mut left = entries;
    'runs: while !left.is_empty() {
        let count = remove_run(alloc, pages, root, under, left)?;
        if count == 0 {
            return Err(Fault::Damaged(Damage::Index, root));
        }
        left = left.split_at(count).1;
    }
    Ok(())
}

/// Takes the entries of rows that go from among others out of an index's tree. (What `take_gone` refuses. Then some may be out.)
pub(crate) fn take_batch<P: WritePages>(
    alloc: Global,
    pages: &mut P,
    root: u32,
    columns: &[IndexColumn],
    under: &[Collation],
    rows: &[TableRow],
) -> R<()>
    requires { under.now ≡ map (λ column. column.collation) columns.now }
    ensures taken { IsTrue (P.Pages.tells (P.Pages.below pages.old))
        → TakesBatch (P.Pages.map pages.old) (P.Pages.map pages.new)
        (P.Pages.limits (P.Pages.below pages.old)).page
        root (columns_in columns.now) (map row_in rows.now) result }
    ensures kept { P.Pages.below pages.new ≡ P.Pages.below pages.old }
    ensures causes { Causes result (P.Pages.failures pages.old) (P.Pages.failures pages.new)
        (P.Pages.count pages.new ≡ (P.Pages.limits (P.Pages.below pages.new)).most) }
{
    let entries = entries_for(alloc, columns, rows)?;
    take_gone(alloc, pages, root, under, entries.as_slice())
}

/// Takes the entries of the rows at these places, which go from among others, out of an index's tree. (What `take_gone` refuses. Then some may be
/// out.)
pub(crate) fn take_batch_at<P: WritePages>(
    alloc: Global,
    pages: &mut P,
    root: u32,
    columns: &[IndexColumn],
    under: &[Collation],
    rows: &Many<SourceRow>,
    places: &[usize],
) -> R<()>
    requires { under.now ≡ map (λ column. column.collation) columns.now }
    ensures taken { IsTrue (P.Pages.tells (P.Pages.below pages.old))
        → TakesBatch (P.Pages.map pages.old) (P.Pages.map pages.new)
        (P.Pages.limits (P.Pages.below pages.old)).page
        root (columns_in columns.now) (map (λ place. as_row (row_at rows.now place)) places.now) result }
    ensures kept { P.Pages.below pages.new ≡ P.Pages.below pages.old }
    ensures causes { Causes result (P.Pages.failures pages.old) (P.Pages.failures pages.new)
        (P.Pages.count pages.new ≡ (P.Pages.limits (P.Pages.below pages.new)).most) }
{
    let entries = entries_at(alloc, columns, rows, places)?;
    take_gone(alloc, pages, root, under, entries.as_slice())
}
