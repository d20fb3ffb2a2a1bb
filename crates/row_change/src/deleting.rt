//! DELETE.

ghost use Rattle.row_change.specs.Agreement.{DeletesRows, DeletesSome};

use catalog::{named_databases_are_one, other_rows_are_listed};

/// A DELETE that sets off no trigger leaves the table without its rows: without any where all are deleted.
pub fn delete_takes_its_rows()
    ensures all { DeletesRows }
    ensures some { DeletesSome }
{
    other_rows_are_listed();
    named_databases_are_one();
}
