//! What a change does at each of its rows, and the triggers around them.

ghost use Rattle.std.specs.Prelude.{◌≡◌, ◌==◌, ◌&&◌, ℕ, ℤ, false, length, IfErr, IfOk, List};
ghost use Rattle.sqlval.specs.Faults.{IsOrMemory};
ghost use Rattle.sqlval.specs.declared.value.Value.{Value as Stored};
ghost use Rattle.catalog.specs.Database.{Database};
ghost use Rattle.catalog.specs.Listed.{listed_in};
ghost use Rattle.catalog.specs.Named.{IsOfListed};
ghost use Rattle.query_bind.specs.Named.{AreOuter};
ghost use Rattle.row_change.specs.RowChanges.{Firing};
ghost use Rattle.trigger.specs.Events.{event_of};
ghost use Rattle.trigger.specs.Triggers.{outer_of};
ghost use Rattle.trigger_names.specs.Programs.{HasRowsOf};
ghost use Rattle.executor_programs.specs.Acts.{ActsAround, time_before};

use catalog::{Catalog, Table, TableRow, Trigger};
use query_names::ScopeSource;
use query_terms::{SourceRow, Term};
use sql_syntax::{Change, TriggerTime};
use sqlval::{Fault, R, Row};
use std::alloc::Global;
use std::rc::Rc;
use trigger::RowEvent;
use trigger_bind::set_off;
use trigger_names::{event_in, outer_scope, target_of};

/// What a change does at each of its rows, and the triggers around it.
#[derive(Drop)]
pub struct Act {
    /// The place of the column of each value that an INSERT gives.
    pub places: Vec<usize>,
    /// For each column of a table the place of its value, where there is one.
    pub by_column: Vec<Option<usize>>,
    /// What SET gives the columns of these places.
    pub sets: Vec<(usize, Term)>,
    /// NEW and OLD, as the triggers see them.
    pub scope: Vec<ScopeSource>,
    /// The triggers that run before it, or of a view in its place.
    pub before: Vec<Rc<Trigger>>,
    pub after: Vec<Rc<Trigger>>,
}

/// A row of a table that is changed, by its rowid where it is there.
#[derive(Drop)]
pub enum TableItem {
    Insert(Row),
    Update(i64),
    Delete(i64),
}

/// A row of a view that is changed.
#[derive(Drop)]
pub enum ViewItem {
    Insert(Row),
    Update(SourceRow),
    Delete(SourceRow),
}

/// A change of a table's rows, with the first of them as it was found if it is there, or of those of a view of so many columns.
#[derive(Drop)]
pub enum Work<'a> {
    Table(&'a Table, Act, Vec<TableItem>, Option<TableRow>),
    View(usize, Act, Vec<ViewItem>),
}

/// When the triggers run that run first.
fn first_time(is_table: bool) -> TriggerTime
    ensures { result ≡ time_before is_table }
{
    if is_table {
        TriggerTime::Before
    } else {
        TriggerTime::InsteadOf
    }
}

/// Whether it is a table around which no trigger stands.
fn is_bare(is_table: bool, before: &[Rc<Trigger>], after: &[Rc<Trigger>]) -> bool
    ensures { result ≡ (is_table && ((length before.now == 0) && (length after.now == 0))) }
{
    is_table && before.is_empty() && after.is_empty()
}

/// What triggers see of a row; nothing where there are none. (`Memory` alone.)
fn scope_around(
    alloc: Global,
    source: &ScopeSource,
    event: RowEvent<'_>,
    is_alone: bool,
) -> R<Vec<ScopeSource>>
    ensures seen { (f : Firing) → is_alone ≡ false → f.columns ≡ source.now.columns → f.has_rowid ≡ source.now.has_rowid
        → HasRowsOf (event_of event.entry) f → IsOrMemory (λ scope. scope.items ≡ (outer_of f).scope) result }
    ensures outer { IfOk result (λ scope. AreOuter scope.items) }
    ensures refused { IfErr result (λ fault. fault ≡ Fault.Memory) }
{
    if is_alone {
        return Ok(Vec::new(alloc));
    }
    outer_scope(alloc, source, event)
}

/// The triggers around each row, and what they see: of a table without any, nothing. (`Memory` alone.)
pub(crate) fn act_around(
    alloc: Global,
    catalog: &Catalog,
    source: &ScopeSource,
    change: &Change,
    is_table: bool,
) -> R<Act>
    ensures around { (rows_at : ℕ → List (ℤ × List Stored)) (db : Database) → IsOfListed rows_at (listed_in catalog.now) db
        → IsOrMemory (ActsAround (listed_in catalog.now) source.now change.now (time_before is_table)) result }
    ensures refused { IfErr result (λ fault. fault ≡ Fault.Memory) }
{
    let target = target_of(change);
    let event = event_in(change);
    let before = set_off(alloc, catalog, first_time(is_table), event, target)?;
    let after = set_off(alloc, catalog, TriggerTime::After, event, target)?;
    let is_alone = is_bare(is_table, &before, &after);
    let scope = scope_around(alloc, source, event, is_alone)?;
    Ok(Act {
        places: Vec::new(alloc),
        by_column: Vec::new(alloc),
        sets: Vec::new(alloc),
        scope,
        before,
        after,
    })
}
