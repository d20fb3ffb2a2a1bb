//! The check of the tables' trees, of their rows, and of the trees of their indexes.

ghost use Rattle.std.specs.Prelude.{◌≡◌, ℕ, List, length};
ghost use Rattle.pages.specs.Calls.{Stays};
ghost use Rattle.pages.specs.Map.{PageMap};
ghost use Rattle.tree_page.specs.Cells.{Pairwise};
ghost use Rattle.db_layout.specs.Layout.{used_by};
ghost use Rattle.catalog.specs.Listed.{shape_of, shared};
ghost use Rattle.row_scan.specs.Rows.{TableRow};
ghost use Rattle.row_scan.specs.Trees.{HasRows};
ghost use Rattle.tree_check.specs.Checks.{CanMark};
ghost use Rattle.tree_check.specs.Exact.{AreTold, Checks};
ghost use Rattle.db_load.specs.Uses.{HasEntries, HasTrees, pages_held};

use catalog::{Index, Table};
use index_build::check_entries;
use index_entries::collations_of;
use pages::Pages;
use query_names::BoundSource;
use row_scan::check_tree_rows;
use sqlval::R;
use std::alloc::Global;
use std::rc::Rc;
use tree_check::{check_index_tree, check_tree};

/// A table, as a source of rows.
fn source_of(table: &Table) -> BoundSource
    ensures root { result.root ≡ table.now.root }
    ensures shape { result.shape ≡ shape_of table.now }
{
    BoundSource {
        root: table.root,
        shape: table.shape(),
    }
}

/// Checks the tree of an index of a table, and that it has exactly the entries of the table's rows. Marks the tree's pages. (`Memory`; what
/// `check_index_tree` and `check_entries` refuse.)
fn check_index<P: Pages>(
    alloc: Global,
    pages: &mut P,
    table: &Table,
    index: &Index,
    marks: &mut Vec<bool>,
) -> R<()>
    ensures checked { (map : PageMap) (size : ℕ)
        → AreTold P.Pages.below P.Pages.tells P.Pages.limits P.Pages.map pages.old map size
        → CanMark map size marks.old.items
        → (rows : List TableRow) → HasRows map size table.now.root (shape_of table.now) rows
        → Checks (HasEntries map size rows index.now)
        (λ owner. owner.used) marks.old.items marks.new.items result }
    ensures long { length marks.new.items ≡ length marks.old.items }
    ensures stays { Stays P.Pages.below P.Pages.map P.Pages.count P.Pages.failures result pages.old pages.new }
{
    let columns = index.columns.as_slice();
    let collations = collations_of(alloc, columns)?;
    check_index_tree(alloc, pages, index.root, &collations, marks)?;
    check_entries(alloc, pages, index.root, source_of(table), columns)
}

/// Checks the trees of a table's indexes, and marks their pages. (What `check_index` refuses.)
fn check_indexes<P: Pages>(
    alloc: Global,
    pages: &mut P,
    table: &Table,
    indexes: &[Index],
    marks: &mut Vec<bool>,
) -> R<()>
    ensures checked { (map : PageMap) (size : ℕ)
        → AreTold P.Pages.below P.Pages.tells P.Pages.limits P.Pages.map pages.old map size
        → CanMark map size marks.old.items
        → (rows : List TableRow) → HasRows map size table.now.root (shape_of table.now) rows
        → Checks (Pairwise (HasEntries map size rows) indexes.now) used_by marks.old.items
        marks.new.items result }
    ensures long { length marks.new.items ≡ length marks.old.items }
    ensures stays { Stays P.Pages.below P.Pages.map P.Pages.count P.Pages.failures result pages.old pages.new }
{
    let mut rest = indexes;
    'indexes: while let [index, after @ ..] = rest {
        check_index(alloc, pages, table, index, marks)?;
        rest = after;
    }
    Ok(())
}

/// Checks a table's tree, its rows and the trees of its indexes, and marks their pages. (What `check_tree`, `check_tree_rows` and
/// `check_indexes` refuse.)
fn check_table<P: Pages>(
    alloc: Global,
    pages: &mut P,
    table: &Table,
    marks: &mut Vec<bool>,
) -> R<()>
    ensures checked { (map : PageMap) (size : ℕ)
        → AreTold P.Pages.below P.Pages.tells P.Pages.limits P.Pages.map pages.old map size
        → CanMark map size marks.old.items
        → Checks (HasTrees map size table.now) used_by marks.old.items marks.new.items result }
    ensures long { length marks.new.items ≡ length marks.old.items }
    ensures stays { Stays P.Pages.below P.Pages.map P.Pages.count P.Pages.failures result pages.old pages.new }
{
    check_tree(alloc, pages, table.root, marks)?;
    check_tree_rows(alloc, pages, source_of(table))?;
    check_indexes(alloc, pages, table, table.indexes.as_slice(), marks)
}

/// Checks the trees of tables and of their indexes, and marks the trees' pages. (What `check_table` refuses.)
pub(crate) fn check_tables<P: Pages>(
    alloc: Global,
    pages: &mut P,
    tables: &[Rc<Table>],
    marks: &mut Vec<bool>,
) -> R<()>
    ensures checked { (map : PageMap) (size : ℕ)
        → AreTold P.Pages.below P.Pages.tells P.Pages.limits P.Pages.map pages.old map size
        → CanMark map size marks.old.items
        → Checks (Pairwise (HasTrees map size) (shared tables.now)) pages_held marks.old.items
        marks.new.items result }
    ensures long { length marks.new.items ≡ length marks.old.items }
    ensures stays { Stays P.Pages.below P.Pages.map P.Pages.count P.Pages.failures result pages.old pages.new }
{
    let mut rest = tables;
    'tables: while let [table, after @ ..] = rest {
        check_table(alloc, pages, table, marks)?;
        rest = after;
    }
    Ok(())
}
