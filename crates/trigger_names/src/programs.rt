//! What the programs see of a row that an event sets them off at: NEW and OLD.

ghost use Rattle.std.specs.Prelude.{◌≡◌, ◌++◌, IfErr, IfOk, OnOk};
ghost use Rattle.sqlval.specs.Faults.{IsOrMemory};
ghost use Rattle.query_bind.specs.Named.{AreOuter};
ghost use Rattle.row_change.specs.RowChanges.{Firing};
ghost use Rattle.trigger.specs.Events.{event_of};
ghost use Rattle.trigger.specs.Triggers.{outer_of};
ghost use Rattle.trigger_names.specs.Programs as seen;
ghost use Rattle.trigger_names.specs.Programs.{HasRowsOf, SeeRows, row_if, row_named};

use query_names::{ScopeSource, source_copy};
use sqlval::{Fault, Name, R};
use std::alloc::Global;
use trigger::RowEvent;

/// Whether an event has a row as it is after it.
fn has_new(event: RowEvent<'_>) -> bool
    ensures { result ≡ seen.has_new (event_of event.entry) }
{
    match event {
        RowEvent::Insert | RowEvent::Update(_) => true,
        RowEvent::Delete => false,
    }
}

/// Whether an event has a row as it was before it.
fn has_old(event: RowEvent<'_>) -> bool
    ensures { result ≡ seen.has_old (event_of event.entry) }
{
    match event {
        RowEvent::Delete | RowEvent::Update(_) => true,
        RowEvent::Insert => false,
    }
}

/// A row of this table or view, as a program sees it by name. (`Memory` alone.)
fn named_row(alloc: Global, name: &str, source: &ScopeSource) -> R<ScopeSource>
    ensures { IsOrMemory (λ row. row ≡ row_named name.now source.now) result }
{
    let copy = source_copy(alloc, source)?;
    Ok(ScopeSource {
        name: Name::from_str(alloc, name)?,
        columns: copy.columns,
        has_rowid: copy.has_rowid,
        needs_name: true,
        is_known: true,
    })
}

/// Adds a row under this name, where the event has it. (`Memory` alone.)
fn push_row(
    alloc: Global,
    scope: &mut Vec<ScopeSource>,
    is_there: bool,
    name: &str,
    source: &ScopeSource,
) -> R<()>
    ensures pushed { OnOk result (scope.new.items ≡ scope.old.items ++ row_if is_there name.now source.now) }
    ensures refused { IfErr result (λ fault. fault ≡ Fault.Memory) }
{
    if is_there {
        scope.push(named_row(alloc, name, source)?)?;
    }
    Ok(())
}

/// NEW and OLD, as the programs see them that an event at rows of this table or view sets off: NEW but for a DELETE, OLD but for an INSERT.
/// (`Memory` alone.)
pub fn outer_scope(alloc: Global, source: &ScopeSource, event: RowEvent<'_>) -> R<Vec<ScopeSource>>
    ensures seen { (firing : Firing) → firing.columns ≡ source.now.columns → firing.has_rowid ≡ source.now.has_rowid
        → HasRowsOf (event_of event.entry) firing → IsOrMemory (λ scope. scope.items ≡ (outer_of firing).scope) result }
    ensures outer { IfOk result (λ scope. AreOuter scope.items) }
{
    let mut scope = Vec::new(alloc);
    push_row(alloc, &mut scope, has_new(event), "new", source)?;
    push_row(alloc, &mut scope, has_old(event), "old", source)?;
    Ok(scope)
}

/// What the programs see that a change can set off, before any row of it is known, is what they see at each row: where its table or view isn't
/// refused.
pub fn programs_see_rows()
    ensures { SeeRows }
{}
