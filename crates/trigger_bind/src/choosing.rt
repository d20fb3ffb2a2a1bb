//! The triggers that an event sets off, in the order in which they run.

ghost use Rattle.std.specs.Prelude.{◌≡◌, ◌&&◌, IfErr, IfOk, OnOk, List, map, filter, ℕ, ℤ};
ghost use Rattle.sqlval.specs.Faults.{IsOrMemory};
ghost use Rattle.sqlval.specs.Lists.{sorted};
ghost use Rattle.sqlval.specs.Names.{folded};
ghost use Rattle.sqlval.specs.declared.value.Value.{Value as Stored};
ghost use Rattle.catalog.specs.Database.{Database, name_order};
ghost use Rattle.catalog.specs.Listed.{listed_in, shared};
ghost use Rattle.catalog.specs.Named.{IsOfListed};
ghost use Rattle.trigger.specs.Events.{event_of};
ghost use Rattle.trigger.specs.Triggers as meant;
ghost use Rattle.trigger.specs.Triggers.{triggers_at};
ghost use Rattle.trigger_bind.specs.Choosing.{by_name, is_at, named_definition};

use catalog::{Catalog, Trigger};
use sql_syntax::TriggerTime;
use sqlval::{Collation, Fault, Field, Name, R, compare_fields};
use std::alloc::Global;
use std::cmp::Ordering;
use std::rc::Rc;
use trigger::{RowEvent, sets_off};

/// Whether both times are the same.
fn is_same_time(time: TriggerTime, other: TriggerTime) -> bool
    ensures { result ≡ meant.is_same_time time other }
{
    match time {
        TriggerTime::Before => matches!(other, TriggerTime::Before),
        TriggerTime::After => matches!(other, TriggerTime::After),
        TriggerTime::InsteadOf => matches!(other, TriggerTime::InsteadOf),
    }
}

/// Whether an event at a table or view sets a trigger of this time off.
fn is_set_off(trigger: &Trigger, time: TriggerTime, event: RowEvent<'_>, target: &Name) -> bool
    ensures { result ≡ is_at time (event_of event.entry) target.now trigger.now }
{
    is_same_time(trigger.definition.time, time) && sets_off(trigger, target, event)
}

/// The triggers of a time that an event sets off, in the order in which they were added. (`Memory` alone.)
fn chosen(
    alloc: Global,
    triggers: &[Rc<Trigger>],
    time: TriggerTime,
    event: RowEvent<'_>,
    target: &Name,
) -> R<Vec<Rc<Trigger>>>
    ensures chosen { IfOk result (λ found. shared found.items
        ≡ filter (is_at time (event_of event.entry) target.now) (shared triggers.now)) }
    ensures refused { IfErr result (λ fault. fault ≡ Fault.Memory) }
{
    let mut found = Vec::new(alloc);
    'triggers: for trigger in triggers {
        if is_set_off(trigger, time, event, target) {
            found.push(trigger.clone()?)?;
        }
    }
    Ok(found)
}

/// How two names stand, in letters of either case.
fn compare_names(a: &Name, b: &Name) -> Ordering
    ensures { result ≡ name_order (folded a.now) (folded b.now) }
{
    compare_fields(
        Field::Text(a.as_str()),
        Field::Text(b.as_str()),
        Collation::NoCase,
    )
}

/// Puts triggers in the order of their names. (`Memory` alone.)
fn sort_by_name(triggers: &mut Vec<Rc<Trigger>>) -> R<()>
    ensures sorted { OnOk result (triggers.new.items
        ≡ sorted (λ a b. by_name a.value b.value) triggers.old.items) }
    ensures refused { IfErr result (λ fault. fault ≡ Fault.Memory) }
{
    triggers.sort_by(|a, b| compare_names(&a.definition.name, &b.definition.name))?;
    Ok(())
}

/// The triggers of a time that an event at a table or view sets off, by name. (`Memory` alone.)
pub fn set_off(
    alloc: Global,
    catalog: &Catalog,
    time: TriggerTime,
    event: RowEvent<'_>,
    target: &Name,
) -> R<Vec<Rc<Trigger>>>
    ensures found { (rows_at : ℕ → List (ℤ × List Stored)) (db : Database) → IsOfListed rows_at (listed_in catalog.now) db
        → IsOrMemory (λ found. map (λ t. named_definition t.value) found.items
        ≡ triggers_at time (event_of event.entry) db (folded target.now)) result }
    ensures refused { IfErr result (λ fault. fault ≡ Fault.Memory) }
{
    let mut found = chosen(alloc, catalog.triggers(), time, event, target)?;
    sort_by_name(&mut found)?;
    Ok(found)
}
