//! What holds of files whose pages are shared by trees and the freelist.

ghost use Rattle.db_layout.specs.Layout.{IndexTreesStand, ReplacesTrees, TreesStand};

/// Where some trees gave way to others, all pages are shared again.
pub fn trees_give_way()
    ensures { ReplacesTrees }
{}

/// Among trees that share pages with the freelist, each table's stands beside the free pages.
pub fn table_trees_stand()
    ensures { TreesStand }
{}

/// Among trees that share pages with the freelist, each index's stands beside the free pages.
pub fn index_trees_stand()
    ensures { IndexTreesStand }
{}
