//! Which table or view a change is for, and by which event.

ghost use Rattle.std.specs.Prelude.{◌≡◌};
ghost use Rattle.sqlval.specs.Names.{folded};
ghost use Rattle.trigger.specs.Binding.{aim_of};
ghost use Rattle.trigger.specs.Events.{event_of};

use sql_syntax::Change;
use sqlval::Name;
use trigger::RowEvent;

/// The table or view whose rows a change is for.
pub fn target_of(change: &Change) -> &Name
    ensures { folded result.now ≡ (aim_of change.now).target }
{
    match change {
        Change::Insert(insert) => &insert.table,
        Change::Update(update) => &update.table,
        Change::Delete(delete) => &delete.table,
    }
}

/// What a change does to the rows.
pub fn event_in(change: &Change) -> RowEvent<'_>
    ensures { event_of result ≡ (aim_of change.now).event }
{
    match change {
        Change::Insert(_) => RowEvent::Insert,
        Change::Update(update) => RowEvent::Update(update.assignments.as_slice()),
        Change::Delete(_) => RowEvent::Delete,
    }
}
