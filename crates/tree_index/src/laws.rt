//! What holds of every index's tree.

ghost use Rattle.tree_index.specs.Laws.{TreesStay};

/// A tree stays where what trees see of its pages stays.
pub fn index_trees_stay()
    ensures { TreesStay }
{}
