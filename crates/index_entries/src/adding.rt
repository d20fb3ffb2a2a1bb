//! Entries of rows that come, put into an index's tree some at a time.

ghost use Rattle.std.specs.Prelude.{◌≡◌, map, IsTrue};
ghost use Rattle.pages.specs.Calls.{Causes};
ghost use Rattle.index_entries.specs.Coming.{PutsCome};
ghost use Rattle.index_entries.specs.Keeping.{AddsEntries, columns_in, row_in};

use crate::taking::entries_for;
use catalog::{IndexColumn, TableRow};
use pages::WritePages;
use sqlval::{Collation, Damage, Fault, Many, R, Value};
use std::alloc::Global;
use tree_index::insert_run;

/// Puts entries into an index's tree, as many at a time as one descent puts. (What `insert_run` refuses; `Damaged(Index, root)` if one is there.
/// Then some may be in.)
fn put_come<P: WritePages>(
    alloc: Global,
    pages: &mut P,
    root: u32,
    under: &[Collation],
    entries: &[Many<Value>],
) -> R<()>
    ensures put { IsTrue (P.Pages.tells (P.Pages.below pages.old))
        → PutsCome (P.Pages.map pages.old) (P.Pages.map pages.new)
        (P.Pages.limits (P.Pages.below pages.old)).page
        root under.now entries.now result }
    ensures kept { P.Pages.below pages.new ≡ P.Pages.below pages.old }
    ensures causes { Causes result (P.Pages.failures pages.old) (P.Pages.failures pages.new)
        (P.Pages.count pages.new ≡ (P.Pages.limits (P.Pages.below pages.new)).most) }
{
    let mut left = entries;
    'runs: while !left.is_empty() {
        let count = insert_run(alloc, pages, root, under, left)?;
        if count == 0 {
            return Err(Fault::Damaged(Damage::Index, root));
        }
        left = left.split_at(count).1;
    }
    Ok(())
}

/// Puts the entries of rows that come into an index's tree, in order. (What `put_come` refuses. Then some may be in.)
pub(crate) fn add_batch<P: WritePages>(
    alloc: Global,
    pages: &mut P,
    root: u32,
    columns: &[IndexColumn],
    under: &[Collation],
    rows: &[TableRow],
) -> R<()>
    requires { under.now ≡ map (λ column. column.collation) columns.now }
    ensures added { IsTrue (P.Pages.tells (P.Pages.below pages.old))
        → AddsEntries (P.Pages.map pages.old) (P.Pages.map pages.new)
        (P.Pages.limits (P.Pages.below pages.old)).page
        root (columns_in columns.now) (map row_in rows.now) result }
    ensures kept { P.Pages.below pages.new ≡ P.Pages.below pages.old }
    ensures causes { Causes result (P.Pages.failures pages.old) (P.Pages.failures pages.new)
        (P.Pages.count pages.new ≡ (P.Pages.limits (P.Pages.below pages.new)).most) }
{
    let entries = entries_for(alloc, columns, rows)?;
    put_come(alloc, pages, root, under, entries.as_slice())
}
