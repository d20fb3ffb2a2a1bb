//! Trees that are given back.

ghost use Rattle.std.specs.Prelude.{◌≡◌, IsTrue};
ghost use Rattle.pages.specs.Calls.{Causes};
ghost use Rattle.db_write.specs.Changing.{DropsTrees, FreesIndex};

use crate::entries::free_indexes;
use catalog::Table;
use pages::WritePages;
use sqlval::R;
use std::alloc::Global;
use tree_index::free_tree as free_entries;
use tree_table::free_tree;

/// Gives the tree of a table's rows and those of its indexes back. (What the two `free_tree` refuse. Then some pages may be free.)
pub fn drop_trees<P: WritePages>(alloc: Global, pages: &mut P, table: &Table) -> R<()>
    ensures dropped { IsTrue (P.Pages.tells (P.Pages.below pages.old))
        → DropsTrees (P.Pages.map pages.old) (P.Pages.map pages.new)
        (P.Pages.limits (P.Pages.below pages.old)).page
        table.now result }
    ensures kept { P.Pages.below pages.new ≡ P.Pages.below pages.old }
    ensures causes { Causes result (P.Pages.failures pages.old) (P.Pages.failures pages.new)
        (P.Pages.count pages.new ≡ (P.Pages.limits (P.Pages.below pages.new)).most) }
{
    free_tree(alloc, pages, table.root)?;
    free_indexes(alloc, pages, table.indexes.as_slice())
}

/// Gives the tree of one of a table's indexes back. (What `free_tree` refuses. Then some pages may be free.)
pub fn free_index<P: WritePages>(alloc: Global, pages: &mut P, root: u32) -> R<()>
    ensures freed { IsTrue (P.Pages.tells (P.Pages.below pages.old))
        → FreesIndex (P.Pages.map pages.old) (P.Pages.map pages.new)
        (P.Pages.limits (P.Pages.below pages.old)).page
        root result }
    ensures kept { P.Pages.below pages.new ≡ P.Pages.below pages.old }
    ensures causes { Causes result (P.Pages.failures pages.old) (P.Pages.failures pages.new)
        (P.Pages.count pages.new ≡ (P.Pages.limits (P.Pages.below pages.new)).most) }
{
    free_entries(alloc, pages, root)
}
