//! The names of triggers' programs, looked up.

ghost use Rattle.std.specs.Prelude.{◌≡◌, ◌<◌, ℕ, ℤ, List, Some, flat_map, length, slice_get, IfErr, IfOk, OnOk};
ghost use Rattle.sqlval.specs.Faults.{IsNotDiskFault, IsOrMemory};
ghost use Rattle.sqlval.specs.declared.value.Value.{Value as Stored};
ghost use Rattle.catalog.specs.Database.{Database};
ghost use Rattle.catalog.specs.Listed.{listed_in, triggers_in};
ghost use Rattle.catalog.specs.Named.{IsOfListed};
ghost use Rattle.catalog.specs.declared.tables.Trigger.{Trigger as Listed};
ghost use Rattle.query_names.specs.Checked.{faults};
ghost use Rattle.query_names.specs.Queries.{resolve_query};
ghost use Rattle.query_names.specs.Views.{look_up};
ghost use Rattle.query_bind.specs.Named.{AreOuter};
ghost use Rattle.trigger.specs.Binding.{faults_after, program_scope, statement_faults, when_faults};
ghost use Rattle.trigger.specs.Events.{event_of};
ghost use Rattle.trigger_bind.specs.Choosing.{is_set_off_by, sets_off_in, sets_off_within};
ghost use Rattle.trigger_bind.specs.Needs.{NotesThose};
ghost use Rattle.trigger_bind.specs.Programs as meant;
ghost use Rattle.trigger_bind.specs.Programs.{HasTarget, KnowsBeside, KnowsItself, aim_awaited};

use crate::needs::{Needs, note_set_off};
use catalog::{Catalog, Trigger};
use query_bind::{bind_filter, bind_reading_beside, bind_source};
use query_names::ScopeSource;
use sql_syntax::{Change, Expr, Query, TriggerDefinition, TriggerEvent, TriggerStatement};
use sqlval::{Fault, R};
use std::alloc::Global;
use trigger::RowEvent;
use trigger_names::{bind_change, outer_scope};

/// Looks up the names of a change, beside what its program sees. (What `bind_change` refuses.)
fn know_names(alloc: Global, catalog: &Catalog, outer: &[ScopeSource], change: &Change) -> R<()>
    ensures known { KnowsBeside (listed_in catalog.now) outer.now
        (λ db seen. faults_after 0 db seen change.now) result }
    ensures not_disk { IfErr result IsNotDiskFault }
{
    drop(bind_change(alloc, catalog, outer, change)?);
    Ok(())
}

/// Looks up the names of a change, and notes the triggers that it sets off. (What `know_names` refuses.)
fn know_beside(
    alloc: Global,
    catalog: &Catalog,
    outer: &[ScopeSource],
    change: &Change,
    needs: &mut Needs,
) -> R<()>
    requires many { length needs.old.needed.items ≡ length (triggers_in catalog.now) }
    ensures known { KnowsBeside (listed_in catalog.now) outer.now
        (λ db seen. faults_after 0 db seen change.now) result }
    ensures noted { OnOk result (NotesThose (triggers_in catalog.now)
        (is_set_off_by change.now) needs.old needs.new) }
    ensures not_disk { IfErr result IsNotDiskFault }
{
    know_names(alloc, catalog, outer, change)?;
    note_set_off(catalog.triggers(), change, needs)
}

/// Looks up the names of a query of a program. (What `bind_reading_beside` refuses.)
fn know_query(alloc: Global, catalog: &Catalog, outer: &[ScopeSource], query: &Query) -> R<()>
    ensures known { KnowsBeside (listed_in catalog.now) outer.now
        (λ db seen. faults (resolve_query (look_up db) seen.scope query.now)) result }
    ensures not_disk { IfErr result IsNotDiskFault }
{
    drop(bind_reading_beside(alloc, catalog, outer, query)?);
    Ok(())
}

/// Looks up the names of a statement of a program, and notes the triggers that it sets off. (What `know_beside` and `know_query` refuse.)
fn know_statement(
    alloc: Global,
    catalog: &Catalog,
    outer: &[ScopeSource],
    statement: &TriggerStatement,
    needs: &mut Needs,
) -> R<()>
    requires many { length needs.old.needed.items ≡ length (triggers_in catalog.now) }
    ensures known { KnowsBeside (listed_in catalog.now) outer.now
        (λ db seen. statement_faults (faults_after 0 db) db seen statement.now) result }
    ensures noted { OnOk result (NotesThose (triggers_in catalog.now)
        (sets_off_in statement.now) needs.old needs.new) }
    ensures not_disk { IfErr result IsNotDiskFault }
{
    match statement {
        TriggerStatement::Change(change) => know_beside(alloc, catalog, outer, change, needs),
        TriggerStatement::Select(query) => know_query(alloc, catalog, outer, query),
    }
}

/// Looks up the names of a program's statements, and notes the triggers that they set off. (What `know_statement` refuses.)
fn know_body(
    alloc: Global,
    catalog: &Catalog,
    outer: &[ScopeSource],
    body: &[TriggerStatement],
    needs: &mut Needs,
) -> R<()>
    requires many { length needs.old.needed.items ≡ length (triggers_in catalog.now) }
    ensures known { KnowsBeside (listed_in catalog.now) outer.now
        (λ db seen. flat_map (statement_faults (faults_after 0 db) db seen) body.now) result }
    ensures noted { OnOk result (NotesThose (triggers_in catalog.now)
        (sets_off_within body.now) needs.old needs.new) }
    ensures not_disk { IfErr result IsNotDiskFault }
{
    'body: for statement in body {
        know_statement(alloc, catalog, outer, statement, needs)?;
    }
    Ok(())
}

/// Looks up the names of a WHEN. (What `bind_filter` refuses.)
fn know_when(alloc: Global, outer: &[ScopeSource], condition: &Option<Expr>) -> R<()>
    ensures known { meant.KnowsWhen outer.now condition.now result }
    ensures not_disk { IfErr result IsNotDiskFault }
{
    drop(bind_filter(alloc, outer, condition)?);
    Ok(())
}

/// The event that a trigger waits for.
fn event_awaited(event: &TriggerEvent) -> RowEvent<'_>
    ensures { event_of result ≡ meant.event_awaited event.now }
{
    match event {
        TriggerEvent::Insert => RowEvent::Insert,
        TriggerEvent::Delete => RowEvent::Delete,
        TriggerEvent::Update(_) => RowEvent::Update(&[]),
    }
}

/// NEW and OLD, as the program of a trigger sees them. (What `bind_source` refuses.)
fn outer_for(
    alloc: Global,
    catalog: &Catalog,
    definition: &TriggerDefinition,
) -> R<Vec<ScopeSource>>
    ensures seen { (rows_at : ℕ → List (ℤ × List Stored)) (db : Database) → IsOfListed rows_at (listed_in catalog.now) db
        → HasTarget db definition.now
        → IsOrMemory (λ scope. scope.items ≡ (program_scope db (aim_awaited definition.now)).scope) result }
    ensures outer { IfOk result (λ scope. AreOuter scope.items) }
    ensures not_disk { IfErr result IsNotDiskFault }
{
    let source = bind_source(alloc, catalog, &definition.target)?;
    outer_scope(alloc, &source, event_awaited(&definition.event))
}

/// Looks up the names of a trigger's WHEN and program, and notes the triggers that it sets off. (What `outer_for`, `know_when` and
/// `know_body` refuse.)
fn know_program(
    alloc: Global,
    catalog: &Catalog,
    definition: &TriggerDefinition,
    needs: &mut Needs,
) -> R<()>
    requires many { length needs.old.needed.items ≡ length (triggers_in catalog.now) }
    ensures known { KnowsItself (listed_in catalog.now) definition.now result }
    ensures noted { OnOk result (NotesThose (triggers_in catalog.now)
        (sets_off_within definition.now.body) needs.old needs.new) }
    ensures not_disk { IfErr result IsNotDiskFault }
{
    let outer = outer_for(alloc, catalog, definition)?;
    know_when(alloc, &outer, &definition.condition)?;
    know_body(alloc, catalog, &outer, definition.body.as_slice(), needs)
}

/// Looks up the names of the trigger at a place of the catalog, and notes the triggers that it sets off. (What `know_program` refuses.)
pub(crate) fn know_place(alloc: Global, catalog: &Catalog, place: usize, needs: &mut Needs) -> R<()>
    requires many { length needs.old.needed.items ≡ length (triggers_in catalog.now) }
    requires within { place < length (triggers_in catalog.now) }
    ensures known { (t : Listed) → slice_get (triggers_in catalog.now) place ≡ Some t
        → KnowsItself (listed_in catalog.now) t.definition result }
    ensures noted { (t : Listed) → slice_get (triggers_in catalog.now) place ≡ Some t
        → OnOk result (NotesThose (triggers_in catalog.now)
        (sets_off_within t.definition.body) needs.old needs.new) }
    ensures not_disk { IfErr result IsNotDiskFault }
{
    let trigger: &Trigger = &catalog.triggers()[place];
    know_program(alloc, catalog, &trigger.definition, needs)
}
