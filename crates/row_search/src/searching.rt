//! The rows of a table that an index finds.

ghost use Rattle.std.specs.Prelude.{IsTrue, option_map};
ghost use Rattle.pages.specs.Calls.{Stays};
ghost use Rattle.row_search.specs.Searching.{LoadsInRange, LoadsKeyed, LoadsSought};

use crate::entries::sought_rowids;
use crate::rows::rows_of;
use catalog::Index;
use index_entries::collations_of;
use pages::Pages;
use query_names::BoundSource;
use query_plan::Range;
use query_terms::SourceRow;
use sqlval::{Many, R, Value};
use std::alloc::Global;
use tree_index::Key;

/// The rows of a table whose entries in an index begin with a key, and go on with a value that lies in a range, if there is one, by rising
/// rowid. (What `Cursor::next_batch` and `source_rows_at` refuse; `Memory`.)
fn sought_rows<P: Pages>(
    alloc: Global,
    pages: &mut P,
    table: BoundSource,
    index: &Index,
    key: &[Value],
    range: Option<&Range>,
) -> R<Many<SourceRow>>
    ensures loaded { IsTrue (P.Pages.tells (P.Pages.below pages.old))
        → LoadsSought (P.Pages.map pages.old) (P.Pages.limits (P.Pages.below pages.old)).page table
        index.now.root index.now.columns key.now (option_map (λ r. r.now) range.entry) result }
    ensures stays { Stays P.Pages.below P.Pages.map P.Pages.count P.Pages.failures result pages.old pages.new }
{
    let collations = collations_of(alloc, index.columns.as_slice())?;
    let key = Key {
        columns: collations.as_slice(),
        values: key,
    };
    let rowids = sought_rowids(alloc, pages, index.root, key, range)?;
    rows_of(alloc, pages, table, rowids.as_slice())
}

/// The rows of a table whose values of an index's first columns are a key, by rising rowid. (What `sought_rows` refuses.)
pub(crate) fn rows_by_key<P: Pages>(
    alloc: Global,
    pages: &mut P,
    table: BoundSource,
    index: &Index,
    key: Many<Value>,
) -> R<Many<SourceRow>>
    ensures loaded { IsTrue (P.Pages.tells (P.Pages.below pages.old))
        → LoadsKeyed (P.Pages.map pages.old) (P.Pages.limits (P.Pages.below pages.old)).page table
        index.now.root index.now.columns key result }
    ensures stays { Stays P.Pages.below P.Pages.map P.Pages.count P.Pages.failures result pages.old pages.new }
{
    sought_rows(alloc, pages, table, index, key.as_slice(), None)
}

/// The rows of a table whose values of an index's first columns are a key, which may be empty, and whose value of the next column lies in a
/// range, by rising rowid. (What `sought_rows` refuses.)
pub(crate) fn rows_in_range<P: Pages>(
    alloc: Global,
    pages: &mut P,
    table: BoundSource,
    index: &Index,
    key: Many<Value>,
    range: &Range,
) -> R<Many<SourceRow>>
    ensures loaded { IsTrue (P.Pages.tells (P.Pages.below pages.old))
        → LoadsInRange (P.Pages.map pages.old) (P.Pages.limits (P.Pages.below pages.old)).page table
        index.now.root index.now.columns key range.now result }
    ensures stays { Stays P.Pages.below P.Pages.map P.Pages.count P.Pages.failures result pages.old pages.new }
{
    sought_rows(alloc, pages, table, index, key.as_slice(), Some(range))
}
