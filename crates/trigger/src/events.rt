//! The triggers that a statement sets off.

ghost use Rattle.std.specs.Prelude.{◌≡◌, ◌&&◌, not, ℕ, ℤ, List, map};
ghost use Rattle.std.specs.List.{list_any};
ghost use Rattle.sqlval.specs.Names.{folded, is_same_name};
ghost use Rattle.sqlval.specs.declared.value.Value.{Value};
ghost use Rattle.catalog.specs.Database.{Database};
ghost use Rattle.catalog.specs.Listed.{is_on, listed_in, triggers_in};
ghost use Rattle.catalog.specs.Named.{IsOfListed};
ghost use Rattle.row_change.specs.RowChanges.{Updating, is_quiet, is_set_off};
ghost use Rattle.trigger.specs.Events.{event_of};

use catalog::{Catalog, Trigger, listed_triggers_are_found};
use sql_syntax::{Assignment, TriggerEvent};
use sqlval::Name;
use std::rc::Rc;

/// What a statement does to rows; an UPDATE with what stands after SET.
#[derive(Clone, Copy)]
pub enum RowEvent<'a> {
    Insert,
    Delete,
    Update(&'a [Assignment]),
}

/// Whether one of the assignments is to a column of this name.
fn is_assigned(assignments: &[Assignment], name: &Name) -> bool
    ensures { result ≡ list_any (λ a. is_same_name name.now a.column) assignments.now }
{
    assignments
        .iter()
        .any(|assignment| name.is_same(assignment.column.as_str()))
}

/// Whether one of these columns is assigned to.
fn names_assigned(columns: &[Name], assignments: &[Assignment]) -> bool
    ensures { result ≡ list_any (λ n. list_any (λ a. is_same_name n a.column) assignments.now) columns.now }
{
    columns
        .iter()
        .any(|column| is_assigned(assignments, column))
}

/// Whether one of these columns is among those that an UPDATE assigns to.
fn are_assigned(columns: &[Name], assignments: &[Assignment]) -> bool
    ensures { result ≡ list_any (λ n. list_any (is_same_name n) (map (λ a. folded a.column) assignments.now)) columns.now }
{
    names_assigned(columns, assignments)
}

/// Whether an UPDATE sets off what a trigger waits for.
fn waits_for_update(event: &TriggerEvent, assignments: &[Assignment]) -> bool
    ensures { result ≡ is_set_off event.now (Updating (map (λ a. folded a.column) assignments.now)) }
{
    match event {
        TriggerEvent::Update(None) => true,
        TriggerEvent::Update(Some(columns)) => are_assigned(columns.as_slice(), assignments),
        _ => false,
    }
}

/// Whether an event sets off what a trigger waits for.
fn meets(event: &TriggerEvent, by: RowEvent<'_>) -> bool
    ensures { result ≡ is_set_off event.now (event_of by.entry) }
{
    match by {
        RowEvent::Insert => matches!(event, TriggerEvent::Insert),
        RowEvent::Delete => matches!(event, TriggerEvent::Delete),
        RowEvent::Update(assignments) => waits_for_update(event, assignments),
    }
}

/// Whether an event at the table or view of this name sets a trigger off, at whatever time.
pub fn sets_off(trigger: &Trigger, target: &Name, event: RowEvent<'_>) -> bool
    ensures { result ≡ (is_on target.now trigger.now && is_set_off trigger.now.definition.event (event_of event.entry)) }
{
    target.is_same(trigger.definition.target.as_str()) && meets(&trigger.definition.event, event)
}

/// Whether an event at a table or view sets one of these triggers off.
fn any_set_off(triggers: &[Rc<Trigger>], target: &Name, event: RowEvent<'_>) -> bool
    ensures { result ≡ list_any (λ t. is_on target.now t.value && is_set_off t.value.definition.event (event_of event.entry)) triggers.now }
{
    triggers
        .iter()
        .any(|trigger| sets_off(trigger, target, event))
}

/// Whether an event at a table or view sets no trigger off.
pub fn is_still(catalog: &Catalog, target: &Name, event: RowEvent<'_>) -> bool
    ensures { (rows_at : ℕ → List (ℤ × List Value)) (db : Database) → IsOfListed rows_at (listed_in catalog.now) db
        → result ≡ is_quiet (event_of event.entry) db (folded target.now) }
{
    listed_triggers_are_found();
    !any_set_off(catalog.triggers(), target, event)
}
