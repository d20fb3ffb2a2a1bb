//! Whether another row of a table has a row's key.

ghost use Rattle.std.specs.Prelude.{◌≡◌, ◌++◌, [], List, ℕ, map, true, IsTrue, IfErr, MatchResult};
ghost use Rattle.std.specs.Ordering.{is_eq};
ghost use Rattle.sqlval.specs.Faults.{IsNotDiskFault, IsOrMemory, IsOutside};
ghost use Rattle.sqlval.specs.declared.value.Value.{Value as ValueIs};
ghost use Rattle.record.specs.Record.{IsRecord};
ghost use Rattle.pages.specs.Calls.{Stays};
ghost use Rattle.pages.specs.Map.{AreWhole};
ghost use Rattle.tree_page.specs.Cells.{Pairwise};
ghost use Rattle.tree_index.specs.Entries.{Entry, entries_from, entry_cmp};
ghost use Rattle.tree_index.specs.Tree.{IsIndexTree};
ghost use Rattle.index_entries.specs.Keeping.{columns_in, row_in};
ghost use Rattle.index_entries.specs.Others.{FindsAlone, FindsNext};

use crate::alone::has_null;
use crate::columns::{entry_of, key_of};
use catalog::{IndexColumn, TableRow};
use pages::Pages;
use record::Record;
use sqlval::{Collation, R, Value};
use std::alloc::Global;
use tree_index::{Cursor, Key, compare_entry};

/// Whether the entry of a record equals a key. (What `Record::over` refuses.)
fn is_entry(alloc: Global, under: &[Collation], bytes: &[u8], values: &[Value]) -> R<bool>
    ensures only { (entry : List ValueIs) → IsRecord bytes.now entry
        → IsOrMemory (λ same. same ≡ is_eq (entry_cmp under.now values.now entry)) result }
    ensures not_disk { IfErr result IsNotDiskFault }
{
    let entry = Record::over(alloc, bytes)?;
    let key = Key {
        columns: under,
        values,
    };
    Ok(compare_entry(key, &entry).is_eq())
}

/// The records of the first entries from a key on, or, if `after`, after those that begin with it: mostly two, and at least one unless none
/// comes. (What `Cursor::next_batch` refuses.)
fn first_records<P: Pages>(
    alloc: Global,
    pages: &mut P,
    root: u32,
    under: &[Collation],
    from: Vec<Value>,
    after: bool,
) -> R<Vec<Vec<u8>>>
    ensures found { IsTrue (P.Pages.tells (P.Pages.below pages.old)) → (entries : List Entry) (used : List ℕ)
        → AreWhole (P.Pages.limits (P.Pages.below pages.old)).page (P.Pages.map pages.old)
        → IsIndexTree (P.Pages.map pages.old) (P.Pages.limits (P.Pages.below pages.old)).page root under.now entries used
        → MatchResult result (λ batch. (given : List Entry) × (later : List Entry)
        × Pairwise IsRecord (map (λ bytes. bytes.items) batch.items) given
        × (entries_from after under.now from.items entries ≡ given ++ later)
        × (given ≡ [] → later ≡ [])) IsOutside }
    ensures stays { Stays P.Pages.below P.Pages.map P.Pages.count P.Pages.failures result pages.old pages.new }
{
    let mut batch = Vec::new(alloc);
    let mut cursor = Cursor::brief(root, from, after);
    cursor.next_batch(pages, under, &mut batch)?;
    Ok(batch)
}

/// Whether the first entry after those that begin with a key equals another key. (What `first_records` and `is_entry` refuse.)
fn is_next<P: Pages>(
    alloc: Global,
    pages: &mut P,
    root: u32,
    under: &[Collation],
    from: Vec<Value>,
    values: &[Value],
) -> R<bool>
    ensures found { IsTrue (P.Pages.tells (P.Pages.below pages.old))
        → FindsNext (P.Pages.map pages.old) (P.Pages.limits (P.Pages.below pages.old)).page root
        under.now from.items true values.now result }
    ensures stays { Stays P.Pages.below P.Pages.map P.Pages.count P.Pages.failures result pages.old pages.new }
{
    let records = first_records(alloc, pages, root, under, from, true)?;
    if records.is_empty() {
        return Ok(false);
    }
    is_entry(alloc, under, records[0].as_slice(), values)
}

/// Whether a row whose entry is in the tree of a UNIQUE index clashes with no other row: mostly by one descent.
/// (What `first_records`, `is_entry` and `is_next` refuse.)
pub fn is_alone<P: Pages>(
    alloc: Global,
    pages: &mut P,
    root: u32,
    columns: &[IndexColumn],
    under: &[Collation],
    row: &TableRow,
) -> R<bool>
    requires { under.now ≡ map (λ column. column.collation) columns.now }
    ensures found { IsTrue (P.Pages.tells (P.Pages.below pages.old))
        → FindsAlone (P.Pages.map pages.old) (P.Pages.limits (P.Pages.below pages.old)).page root
        (columns_in columns.now) (row_in row.now) result }
    ensures stays { Stays P.Pages.below P.Pages.map P.Pages.count P.Pages.failures result pages.old pages.new }
{
    if has_null(columns, &row.values) {
        return Ok(true);
    }
    let entry = entry_of(alloc, columns, row)?;
    let from = key_of(alloc, columns, &row.values)?;
    let records = first_records(alloc, pages, root, under, from, false)?;
    if records.is_empty() {
        return Ok(false);
    }
    if !is_entry(alloc, under, records[0].as_slice(), &entry)? {
        return Ok(false);
    }
    let key = key_of(alloc, columns, &row.values)?;
    if records.len() > 1 {
        return Ok(!is_entry(alloc, under, records[1].as_slice(), &key)?);
    }
    Ok(!is_next(alloc, pages, root, under, entry, &key)?)
}
