//! What names, expressions and queries mean on a database, and what CREATE and DROP make of it, as definitions; and the names
//! of the statements that are supported, looked up.
#![tactic(auto)]

mod checks;
mod columns;
mod copying;
mod definitions;
mod expressions;
mod forms;
mod functions;
mod inserting;
mod keys;
mod names;
mod outer;
mod queries;
mod reading;
mod scope;

ghost use Rattle.query_names.specs.Comprehension.{IsComprehension};
ghost use Rattle.query_names.specs.Creating.{KeepsNamesOnce, MakesListedTable, RefusesTableAsDefined};
ghost use Rattle.query_names.specs.Laws.{CalmIsNotRefused, KnowsListed, SourcesAreKnown, ViewsAreKnown};

use catalog::listed_tables_are_found;
pub use checks::bind_checks;
pub use columns::{ambiguous, cell_of};
pub use copying::{column_copy, source_copy};
pub use definitions::bind_columns;
pub use expressions::bind_term;
pub use functions::collation_named;
pub use inserting::{BoundInsert, Target, bind_target, has_doubled};
pub use keys::{BoundKeys, automatic_name, bind_keys};
pub use names::{find_table, missing};
pub use outer::shown_beside;
pub use queries::{BoundSource, Origin};
pub use reading::{Condition, Reading};
pub use scope::{ScopeColumn, ScopeSource, folded, scope_column};

/// A calm condition isn't refused, so a plan may leave rows unread.
pub fn calm_is_not_refused()
    ensures { CalmIsNotRefused }
{}

/// Where nothing is refused, a query without groups, DISTINCT, ORDER BY and LIMIT nests its sources' rows, filters them, and
/// gives the results of each.
pub fn plain_query_is_a_comprehension()
    ensures { IsComprehension }
{}

/// What a name stands for on a database is the table, or else the view, that a catalog lists under it, and that view's query is looked up
/// among what the catalog lists.
pub fn listed_tables_are_known()
    ensures { KnowsListed }
{
    listed_tables_are_found();
}

/// Each source of a query that isn't refused names a table or a view that isn't refused.
pub fn sources_are_known()
    ensures { SourcesAreKnown }
{}

/// The query of a view that isn't refused where it is used isn't refused by itself, and reads what isn't refused either, with room for one
/// view less within another.
pub fn views_are_known()
    ensures { ViewsAreKnown }
{}

/// A CREATE TABLE, beside listed tables, makes the table of the definition's columns, CHECKs and keys, with the indexes that these ask for, or
/// is refused for each cause that there is.
pub fn tables_are_created_as_defined()
    ensures makes { MakesListedTable }
    ensures refuses { RefusesTableAsDefined }
    ensures once { KeepsNamesOnce }
{
    listed_tables_are_found();
}
