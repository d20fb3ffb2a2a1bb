//! The tree of a new index, made of its table's rows.

ghost use Rattle.std.specs.Prelude.{◌≡◌, IsTrue};
ghost use Rattle.pages.specs.Calls.{Causes};
ghost use Rattle.index_build.specs.Making.{MakesIndex, MakesUniqueIndex};

use crate::clashes::has_clash;
use crate::entries::sorted_entries;
use catalog::IndexColumn;
use pages::WritePages;
use query_names::BoundSource;
use sqlval::{Fault, R};
use std::alloc::Global;
use tree_index::fill_tree;

/// Makes the tree of an index of these columns over a table's rows, and answers its root. (What `sorted_entries` and `fill_tree` refuse.
/// Pages that were taken before stay so.)
pub fn make_index<P: WritePages>(
    alloc: Global,
    pages: &mut P,
    table: BoundSource,
    columns: &[IndexColumn],
) -> R<u32>
    ensures made { IsTrue (P.Pages.tells (P.Pages.below pages.old))
        → MakesIndex (P.Pages.map pages.old) (P.Pages.map pages.new)
        (P.Pages.limits (P.Pages.below pages.old)).page table columns.now result }
    ensures kept { P.Pages.below pages.new ≡ P.Pages.below pages.old }
    ensures causes { Causes result (P.Pages.failures pages.old) (P.Pages.failures pages.new)
        (P.Pages.count pages.new ≡ (P.Pages.limits (P.Pages.below pages.new)).most) }
{
    let entries = sorted_entries(alloc, pages, table, columns)?;
    fill_tree(alloc, pages, entries.as_slice())
}

/// Makes the tree of a UNIQUE index of these columns over a table's rows, as `make_index` does, and answers its root. (`Unique` if two rows
/// have one key without NULL: then no page changes; what `make_index` refuses.)
pub fn make_unique_index<P: WritePages>(
    alloc: Global,
    pages: &mut P,
    table: BoundSource,
    columns: &[IndexColumn],
) -> R<u32>
    ensures made { IsTrue (P.Pages.tells (P.Pages.below pages.old))
        → MakesUniqueIndex (P.Pages.map pages.old) (P.Pages.map pages.new)
        (P.Pages.limits (P.Pages.below pages.old)).page table columns.now result }
    ensures kept { P.Pages.below pages.new ≡ P.Pages.below pages.old }
    ensures causes { Causes result (P.Pages.failures pages.old) (P.Pages.failures pages.new)
        (P.Pages.count pages.new ≡ (P.Pages.limits (P.Pages.below pages.new)).most) }
{
    let sorted = sorted_entries(alloc, pages, table, columns)?;
    let entries = sorted.as_slice();
    if has_clash(entries, columns) {
        return Err(Fault::Unique);
    }
    fill_tree(alloc, pages, entries)
}
