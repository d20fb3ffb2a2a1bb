//! The tree of a new index, beside a table's others.

ghost use Rattle.std.specs.Prelude.{◌≡◌, IsTrue};
ghost use Rattle.pages.specs.Calls.{Causes};
ghost use Rattle.db_write.specs.Changing.{AddsIndex};

use crate::reading::source_of;
use catalog::{IndexColumn, Table};
use index_build::{make_index, make_unique_index};
use pages::WritePages;
use sqlval::R;
use std::alloc::Global;

/// Makes the tree of an index of these columns, UNIQUE or not, over a table's rows, and answers its root. (What `make_index` and
/// `make_unique_index` refuse. Pages that were taken before stay so.)
pub fn add_index<P: WritePages>(
    alloc: Global,
    pages: &mut P,
    table: &Table,
    columns: &[IndexColumn],
    is_unique: bool,
) -> R<u32>
    ensures added { IsTrue (P.Pages.tells (P.Pages.below pages.old))
        → AddsIndex (P.Pages.map pages.old) (P.Pages.map pages.new)
        (P.Pages.limits (P.Pages.below pages.old)).page
        table.now columns.now is_unique result }
    ensures kept { P.Pages.below pages.new ≡ P.Pages.below pages.old }
    ensures causes { Causes result (P.Pages.failures pages.old) (P.Pages.failures pages.new)
        (P.Pages.count pages.new ≡ (P.Pages.limits (P.Pages.below pages.new)).most) }
{
    let source = source_of(table);
    if is_unique {
        make_unique_index(alloc, pages, source, columns)
    } else {
        make_index(alloc, pages, source, columns)
    }
}
