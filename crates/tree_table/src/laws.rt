//! What holds of every table's tree.

ghost use Rattle.tree_table.specs.Laws.{OneTree, TreesStay};

/// A tree stays where what trees see of its pages stays.
pub fn table_trees_stay()
    ensures { TreesStay }
{}

/// Under one root there is one tree.
pub fn one_table_tree()
    ensures { OneTree }
{}
