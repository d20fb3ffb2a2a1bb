//! Which database pages hold, said in two ways, and that it is one.

ghost use Rattle.db_pages.specs.Standing.{StandingStored, StoredOnce, StoredStand};

use query_bind::triggers_are_created_as_defined;
use record::bytes_determine_values;
use sql_parser::one_tree;
use tree_table::one_table_tree;

/// Pages that store a database stand for it, where their header counts them.
pub fn stored_pages_stand()
    ensures { StoredStand }
{
    triggers_are_created_as_defined();
}

/// Pages that stand for a database store it.
pub fn standing_pages_are_stored()
    ensures { StandingStored }
{
    triggers_are_created_as_defined();
}

/// Pages store one database at most.
pub fn pages_store_one_database()
    ensures { StoredOnce }
{
    one_table_tree();
    one_tree();
    bytes_determine_values();
}
