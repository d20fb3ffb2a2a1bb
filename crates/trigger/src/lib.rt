//! The effect of a statement that changes rows, with the triggers that it sets off, as definitions.
#![tactic(auto)]

mod events;

ghost use Rattle.trigger.specs.Laws.{BindsAlone, DeleteTakesChosen, DeleteTakesRows, InsertAddsRows, InsertIsRefused, InsertOfNoneStays, SetsNothingOff, UpdateSetsRows, ViewsAreReadOnly};

pub use events::{RowEvent, is_still, sets_off};
use row_change::{delete_takes_its_rows, insert_adds_its_rows, update_sets_its_rows};

/// What sets no trigger off does nothing more, and the refusals of binding a change are its own there.
pub fn only_tables_set_nothing_off()
    ensures still { SetsNothingOff }
    ensures binds { BindsAlone }
{}

/// Where no trigger is set off, an INSERT adds its rows, or is refused as they are.
pub fn insert_sets_off_nothing()
    ensures refused { InsertIsRefused }
    ensures inserts { InsertAddsRows }
    ensures none { InsertOfNoneStays }
{
    insert_adds_its_rows();
}

/// Where no trigger is set off, a DELETE takes all rows out, or those for which its condition is true.
pub fn delete_sets_off_nothing()
    ensures deletes { DeleteTakesRows }
    ensures chosen { DeleteTakesChosen }
{
    delete_takes_its_rows();
}

/// Where no trigger is set off, an UPDATE sets values in all rows, or in those for which its condition is true, or is refused as they are.
pub fn update_sets_off_nothing()
    ensures { UpdateSetsRows }
{
    update_sets_its_rows();
}

/// Where no trigger is set off, a change of a view is refused.
pub fn views_are_read_only()
    ensures { ViewsAreReadOnly }
{}
