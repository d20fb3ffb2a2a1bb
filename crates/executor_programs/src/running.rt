//! Changes and the programs of triggers, which set one another off.

ghost use Rattle.std.specs.Prelude.{◌≡◌, ◌∷◌, [], suc, IfErr, IsTrue, List, OnOk};
ghost use Rattle.std.specs.List.{AllByRecursion, list_any};
ghost use Rattle.sqlval.specs.Faults.{IsNotDiskFault};
ghost use Rattle.sqlval.specs.Refusals.{fold_answer};
ghost use Rattle.pages.specs.Calls.{Causes, Stays};
ghost use Rattle.sql_syntax.specs.declared.change.Change.{Change as Text};
ghost use Rattle.catalog.specs.Database.{Database};
ghost use Rattle.catalog.specs.Listed.{is_shared_trigger, listed_in, shared};
ghost use Rattle.query_names.specs.declared.scope.ScopeColumn.{ScopeColumn};
ghost use Rattle.query_terms.specs.Outcome.{AnswersBy};
ghost use Rattle.row_change.specs.Changes.{Outer};
ghost use Rattle.trigger.specs.Binding.{aim_of, when_faults};
ghost use Rattle.trigger.specs.Effects as meant;
ghost use Rattle.trigger.specs.Effects.{change_with, programs};
ghost use Rattle.trigger.specs.Triggers.{fired, run_trigger, when_holds};
ghost use Rattle.row_change.specs.RowChanges.{Firing};
ghost use Rattle.sql_syntax.specs.declared.create.TriggerTime.{TriggerTime};
ghost use Rattle.trigger_bind.specs.Choosing.{named_definition};
ghost use Rattle.trigger_bind.specs.Knowing.{IsLookedUpAs};
ghost use Rattle.executor_programs.specs.Acts.{AreSetOff, IsItemOf, IsRowIn, IsSeenOf, IsTableAct, IsViewAct};
ghost use Rattle.executor_programs.specs.Begun.{IsSeenAt, IsRowOnPages};
ghost use Rattle.executor_programs.specs.Outer.{Shows};
ghost use Rattle.executor_programs.specs.Rows.{columns_listed_of, row_changed, seen_changed};
ghost use Rattle.executor_programs.specs.Running.{KnowsNames, KnowsBody, KnowsEach, KnowsQuery, KnowsRows, ReadsOnly, Runs, definitions, running_names};

use crate::acts::{Act, TableItem, ViewItem, Work};
use crate::outer::{OuterRows, is_true_beside};
use crate::querying::queried_rows;
use crate::rows::{AtRow, begin, finish, rows_at};
use crate::seen::rows_seen;
use crate::work::work_of;
use catalog::{Catalog, Table, TableRow, Trigger};
use pages::WritePages;
use query_bind::{bind_filter, bind_reading_beside};
use query_names::{ScopeSource, listed_tables_are_known};
use sql_syntax::{Change, Query, TriggerStatement};
use sqlval::{Fault, R};
use std::alloc::Global;
use std::rc::Rc;
use trigger_bind::programs_are_known;
use trigger_names::{BoundChange, bind_change};

/// What programs run over: the catalog, and how many more triggers may run within another.
#[derive(Clone, Copy)]
pub struct Run<'a> {
    pub alloc: Global,
    pub catalog: &'a Catalog,
    pub room: usize,
}

/// Whether a trigger of this name is running.
fn is_running(running: &[Rc<Trigger>], name: &str) -> bool
    ensures { result ≡ list_any (is_shared_trigger name.now) running.now }
{
    running
        .iter()
        .any(|trigger| trigger.definition.name.is_same(name))
}

/// Whether what stands after WHEN is true beside NEW and OLD, or nothing stands there. (What it refuses.)
fn holds_at(alloc: Global, outer: OuterRows<'_>, trigger: &Trigger) -> R<bool>
    ensures answered { (seen : Outer) → Shows outer.entry seen → when_faults seen trigger.now.definition.condition ≡ []
        → AnswersBy (λ test. test) (when_holds seen trigger.now.definition.condition) result }
    ensures not_disk { IfErr result (λ fault. IsNotDiskFault fault) }
{
    let condition = bind_filter(alloc, outer.scope, &trigger.definition.condition)?;
    is_true_beside(alloc, outer, &condition)
}

/// Answers a query of a program, and leaves its rows. (What `bind_reading_beside` and `queried_rows` refuse.)
fn read_beside<P: WritePages>(
    run: Run<'_>,
    pages: &mut P,
    outer: OuterRows<'_>,
    query: &Query,
) -> R<()>
    ensures read { (seen : Outer) → IsTrue (P.Pages.tells (P.Pages.below pages.old)) → Shows outer.entry seen
        → KnowsQuery (listed_in run.entry.catalog.now) seen query.now
        → ReadsOnly (P.Pages.map pages.old) (P.Pages.limits (P.Pages.below pages.old)).page
        (listed_in run.entry.catalog.now) seen query.now result }
    ensures stays { Stays P.Pages.below P.Pages.map P.Pages.count P.Pages.failures result pages.old pages.new }
{
    let bound = bind_reading_beside(run.alloc, run.catalog, outer.scope, query)?;
    queried_rows(run.alloc, pages, run.catalog, outer, bound.reading)?;
    Ok(())
}

/// The statements of a program, one after another.
#[cycle(run)]
fn run_program<P: WritePages>(
    run: Run<'_>,
    pages: &mut P,
    running: &mut Vec<Rc<Trigger>>,
    outer: OuterRows<'_>,
    body: &[TriggerStatement],
) -> R<()>
    ensures runs { (seen : Outer) → IsTrue (P.Pages.tells (P.Pages.below pages.old)) → Shows outer.entry seen
        → KnowsBody (listed_in run.entry.catalog.now) seen body.now
        → Runs (P.Pages.map pages.old) (P.Pages.map pages.new) (P.Pages.limits (P.Pages.below pages.old)).page
        (listed_in run.entry.catalog.now)
        (λ db. programs (suc run.entry.room) (running_names running.old.items) seen db body.now) result }
    ensures running { OnOk result (running.new.items ≡ running.old.items) }
    ensures kept { P.Pages.below pages.new ≡ P.Pages.below pages.old }
    ensures causes { Causes result (P.Pages.failures pages.old) (P.Pages.failures pages.new)
        (P.Pages.count pages.new ≡ (P.Pages.limits (P.Pages.below pages.new)).most) }
{
    let mut left = body;
    'statements: while let [statement, rest @ ..] = left {
        run_statement(run, pages, running, outer, statement)?;
        left = rest;
    }
    Ok(())
}

/// A statement of a program.
#[cycle(run)]
fn run_statement<P: WritePages>(
    run: Run<'_>,
    pages: &mut P,
    running: &mut Vec<Rc<Trigger>>,
    outer: OuterRows<'_>,
    statement: &TriggerStatement,
) -> R<()>
    ensures runs { (seen : Outer) → IsTrue (P.Pages.tells (P.Pages.below pages.old)) → Shows outer.entry seen
        → KnowsBody (listed_in run.entry.catalog.now) seen (statement.now ∷ [])
        → Runs (P.Pages.map pages.old) (P.Pages.map pages.new) (P.Pages.limits (P.Pages.below pages.old)).page
        (listed_in run.entry.catalog.now)
        (λ db. meant.run_statement (programs run.entry.room) (running_names running.old.items) seen db statement.now) result }
    ensures running { OnOk result (running.new.items ≡ running.old.items) }
    ensures kept { P.Pages.below pages.new ≡ P.Pages.below pages.old }
    ensures causes { Causes result (P.Pages.failures pages.old) (P.Pages.failures pages.new)
        (P.Pages.count pages.new ≡ (P.Pages.limits (P.Pages.below pages.new)).most) }
{
    match statement {
        TriggerStatement::Change(change) => run_change(run, pages, running, outer, change),
        TriggerStatement::Select(query) => read_beside(run, pages, outer, query),
    }
}

/// A change of rows, beside NEW and OLD. (What `bind_change` and `run_bound` refuse.)
#[cycle(run)]
fn run_change<P: WritePages>(
    run: Run<'_>,
    pages: &mut P,
    running: &mut Vec<Rc<Trigger>>,
    outer: OuterRows<'_>,
    change: &Change,
) -> R<()>
    ensures runs { (seen : Outer) → IsTrue (P.Pages.tells (P.Pages.below pages.old)) → Shows outer.entry seen
        → KnowsNames (listed_in run.entry.catalog.now) seen change.now
        → Runs (P.Pages.map pages.old) (P.Pages.map pages.new) (P.Pages.limits (P.Pages.below pages.old)).page
        (listed_in run.entry.catalog.now)
        (λ db. change_with (programs run.entry.room) (running_names running.old.items) seen db change.now) result }
    ensures running { OnOk result (running.new.items ≡ running.old.items) }
    ensures kept { P.Pages.below pages.new ≡ P.Pages.below pages.old }
    ensures causes { Causes result (P.Pages.failures pages.old) (P.Pages.failures pages.new)
        (P.Pages.count pages.new ≡ (P.Pages.limits (P.Pages.below pages.new)).most) }
{
    let bound = bind_change(run.alloc, run.catalog, outer.scope, change)?;
    run_bound(run, pages, running, outer, change, bound)
}

/// A change of rows whose names were looked up, beside NEW and OLD.
#[cycle(run)]
pub fn run_bound<P: WritePages>(
    run: Run<'_>,
    pages: &mut P,
    running: &mut Vec<Rc<Trigger>>,
    outer: OuterRows<'_>,
    change: &Change,
    bound: BoundChange,
) -> R<()>
    ensures runs { (seen : Outer) → IsTrue (P.Pages.tells (P.Pages.below pages.old)) → Shows outer.entry seen
        → KnowsNames (listed_in run.entry.catalog.now) seen change.now
        → IsLookedUpAs (listed_in run.entry.catalog.now) outer.entry.scope.now change.now bound
        → Runs (P.Pages.map pages.old) (P.Pages.map pages.new) (P.Pages.limits (P.Pages.below pages.old)).page
        (listed_in run.entry.catalog.now)
        (λ db. change_with (programs run.entry.room) (running_names running.old.items) seen db change.now) result }
    ensures running { OnOk result (running.new.items ≡ running.old.items) }
    ensures kept { P.Pages.below pages.new ≡ P.Pages.below pages.old }
    ensures causes { Causes result (P.Pages.failures pages.old) (P.Pages.failures pages.new)
        (P.Pages.count pages.new ≡ (P.Pages.limits (P.Pages.below pages.new)).most) }
{
    programs_are_known();
    match work_of(run.alloc, pages, run.catalog, outer, change, bound)? {
        Work::Table(table, act, items, first) => {
            change_rows(run, pages, running, outer, table, &act, &items, first)
        }
        Work::View(width, act, items) => {
            change_seen(run, pages, running, outer, width, &act, &items)
        }
    }
}

/// Rows of a table, one after another. `first` is the first of them as it is, where that is known.
#[cycle(run)]
fn change_rows<P: WritePages>(
    run: Run<'_>,
    pages: &mut P,
    running: &mut Vec<Rc<Trigger>>,
    outer: OuterRows<'_>,
    table: &Table,
    act: &Act,
    items: &[TableItem],
    first: Option<TableRow>,
) -> R<()>
    ensures runs { (seen : Outer) (c : Text) → IsTrue (P.Pages.tells (P.Pages.below pages.old)) → Shows outer.entry seen
        → IsTableAct (listed_in run.entry.catalog.now) c table.now act.now → AllByRecursion (IsItemOf c table.now act.now) items.now
        → KnowsRows (listed_in run.entry.catalog.now) c → IsRowOnPages (P.Pages.map pages.old)
        (P.Pages.limits (P.Pages.below pages.old)).page (listed_in run.entry.catalog.now) (aim_of c).target first
        → Runs (P.Pages.map pages.old) (P.Pages.map pages.new) (P.Pages.limits (P.Pages.below pages.old)).page
        (listed_in run.entry.catalog.now)
        (λ db. fold_answer (λ db i.
        row_changed (fired (programs run.entry.room) (running_names running.old.items)) seen c act.now i db)
        db items.now) result }
    ensures running { OnOk result (running.new.items ≡ running.old.items) }
    ensures kept { P.Pages.below pages.new ≡ P.Pages.below pages.old }
    ensures causes { Causes result (P.Pages.failures pages.old) (P.Pages.failures pages.new)
        (P.Pages.count pages.new ≡ (P.Pages.limits (P.Pages.below pages.new)).most) }
{
    let mut left = items;
    let mut known = first;
    'rows: while let [item, rest @ ..] = left {
        change_row(run, pages, running, outer, table, act, item, known)?;
        known = None;
        left = rest;
    }
    Ok(())
}

/// A row of a table, with the triggers around it; one that is gone is passed over. `known` is the row as it is, where that is known.
#[cycle(run)]
fn change_row<P: WritePages>(
    run: Run<'_>,
    pages: &mut P,
    running: &mut Vec<Rc<Trigger>>,
    outer: OuterRows<'_>,
    table: &Table,
    act: &Act,
    item: &TableItem,
    known: Option<TableRow>,
) -> R<()>
    ensures runs { (seen : Outer) (c : Text) → IsTrue (P.Pages.tells (P.Pages.below pages.old)) → Shows outer.entry seen
        → IsTableAct (listed_in run.entry.catalog.now) c table.now act.now → IsItemOf c table.now act.now item.now
        → KnowsRows (listed_in run.entry.catalog.now) c → IsRowOnPages (P.Pages.map pages.old)
        (P.Pages.limits (P.Pages.below pages.old)).page (listed_in run.entry.catalog.now) (aim_of c).target known
        → Runs (P.Pages.map pages.old) (P.Pages.map pages.new) (P.Pages.limits (P.Pages.below pages.old)).page
        (listed_in run.entry.catalog.now)
        (λ db. row_changed (fired (programs run.entry.room) (running_names running.old.items)) seen c act.now item.now db) result }
    ensures running { OnOk result (running.new.items ≡ running.old.items) }
    ensures kept { P.Pages.below pages.new ≡ P.Pages.below pages.old }
    ensures causes { Causes result (P.Pages.failures pages.old) (P.Pages.failures pages.new)
        (P.Pages.count pages.new ≡ (P.Pages.limits (P.Pages.below pages.new)).most) }
{
    let Some(begun) = begin(
        run.alloc,
        pages,
        run.catalog,
        outer,
        table,
        act,
        item,
        known,
    )?
    else {
        return Ok(());
    };
    fire_at(
        run,
        pages,
        running,
        &act.scope,
        &act.before,
        AtRow::Before(&begun),
    )?;
    let now = finish(run.alloc, pages, run.catalog, table, act, item, &begun)?;
    let after = AtRow::After(&begun, now);
    fire_at(run, pages, running, &act.scope, &act.after, after)
}

/// The triggers at a row's event, which see it: what they see isn't made where there are none.
#[cycle(run)]
fn fire_at<P: WritePages>(
    run: Run<'_>,
    pages: &mut P,
    running: &mut Vec<Rc<Trigger>>,
    scope: &[ScopeSource],
    triggers: &[Rc<Trigger>],
    event: AtRow<'_>,
) -> R<()>
    ensures runs { (c : Text) (time : TriggerTime) (f : Firing) → IsTrue (P.Pages.tells (P.Pages.below pages.old))
        → AreSetOff (listed_in run.entry.catalog.now) c time scope.now triggers.now → IsRowIn (listed_in run.entry.catalog.now) (aim_of c) f
        → IsSeenAt event.entry f → KnowsRows (listed_in run.entry.catalog.now) c
        → Runs (P.Pages.map pages.old) (P.Pages.map pages.new) (P.Pages.limits (P.Pages.below pages.old)).page
        (listed_in run.entry.catalog.now) (fired (programs run.entry.room) (running_names running.old.items) time f) result }
    ensures running { OnOk result (running.new.items ≡ running.old.items) }
    ensures kept { P.Pages.below pages.new ≡ P.Pages.below pages.old }
    ensures causes { Causes result (P.Pages.failures pages.old) (P.Pages.failures pages.new)
        (P.Pages.count pages.new ≡ (P.Pages.limits (P.Pages.below pages.new)).most) }
{
    listed_tables_are_known();
    if triggers.is_empty() {
        return Ok(());
    }
    let rows = rows_at(run.alloc, event)?;
    let around = OuterRows { scope, rows: &rows };
    fire(run, pages, running, around, triggers)
}

/// Rows of a view, one after another.
#[cycle(run)]
fn change_seen<P: WritePages>(
    run: Run<'_>,
    pages: &mut P,
    running: &mut Vec<Rc<Trigger>>,
    outer: OuterRows<'_>,
    width: usize,
    act: &Act,
    items: &[ViewItem],
) -> R<()>
    ensures runs { (seen : Outer) (c : Text) → IsTrue (P.Pages.tells (P.Pages.below pages.old)) → Shows outer.entry seen
        → IsViewAct (listed_in run.entry.catalog.now) c width act.now → AllByRecursion (IsSeenOf c) items.now
        → KnowsRows (listed_in run.entry.catalog.now) c
        → Runs (P.Pages.map pages.old) (P.Pages.map pages.new) (P.Pages.limits (P.Pages.below pages.old)).page
        (listed_in run.entry.catalog.now)
        (λ db. fold_answer (λ db i. seen_changed (fired (programs run.entry.room) (running_names running.old.items)) seen c
        (columns_listed_of (listed_in run.entry.catalog.now) (aim_of c).target) act.now i db) db items.now) result }
    ensures running { OnOk result (running.new.items ≡ running.old.items) }
    ensures kept { P.Pages.below pages.new ≡ P.Pages.below pages.old }
    ensures causes { Causes result (P.Pages.failures pages.old) (P.Pages.failures pages.new)
        (P.Pages.count pages.new ≡ (P.Pages.limits (P.Pages.below pages.new)).most) }
{
    let mut left = items;
    'rows: while let [item, rest @ ..] = left {
        change_one_seen(run, pages, running, outer, width, act, item)?;
        left = rest;
    }
    Ok(())
}

/// A row of a view: the triggers run that stand in its change's place.
#[cycle(run)]
fn change_one_seen<P: WritePages>(
    run: Run<'_>,
    pages: &mut P,
    running: &mut Vec<Rc<Trigger>>,
    outer: OuterRows<'_>,
    width: usize,
    act: &Act,
    item: &ViewItem,
) -> R<()>
    ensures runs { (seen : Outer) (c : Text) → IsTrue (P.Pages.tells (P.Pages.below pages.old)) → Shows outer.entry seen
        → IsViewAct (listed_in run.entry.catalog.now) c width act.now → IsSeenOf c item.now
        → KnowsRows (listed_in run.entry.catalog.now) c
        → Runs (P.Pages.map pages.old) (P.Pages.map pages.new) (P.Pages.limits (P.Pages.below pages.old)).page
        (listed_in run.entry.catalog.now)
        (λ db. seen_changed (fired (programs run.entry.room) (running_names running.old.items)) seen c
        (columns_listed_of (listed_in run.entry.catalog.now) (aim_of c).target) act.now item.now db) result }
    ensures running { OnOk result (running.new.items ≡ running.old.items) }
    ensures kept { P.Pages.below pages.new ≡ P.Pages.below pages.old }
    ensures causes { Causes result (P.Pages.failures pages.old) (P.Pages.failures pages.new)
        (P.Pages.count pages.new ≡ (P.Pages.limits (P.Pages.below pages.new)).most) }
{
    listed_tables_are_known();
    let rows = rows_seen(run.alloc, outer, width, act, item)?;
    let around = OuterRows {
        scope: &act.scope,
        rows: &rows,
    };
    fire(run, pages, running, around, &act.before)
}

/// Triggers, one after another.
#[cycle(run)]
fn fire<P: WritePages>(
    run: Run<'_>,
    pages: &mut P,
    running: &mut Vec<Rc<Trigger>>,
    outer: OuterRows<'_>,
    triggers: &[Rc<Trigger>],
) -> R<()>
    ensures runs { (seen : Outer) → IsTrue (P.Pages.tells (P.Pages.below pages.old)) → Shows outer.entry seen
        → KnowsEach (listed_in run.entry.catalog.now) seen (shared triggers.now)
        → Runs (P.Pages.map pages.old) (P.Pages.map pages.new) (P.Pages.limits (P.Pages.below pages.old)).page
        (listed_in run.entry.catalog.now)
        (λ db. fold_answer (run_trigger (programs run.entry.room) (running_names running.old.items) seen) db (definitions triggers.now)) result }
    ensures running { OnOk result (running.new.items ≡ running.old.items) }
    ensures kept { P.Pages.below pages.new ≡ P.Pages.below pages.old }
    ensures causes { Causes result (P.Pages.failures pages.old) (P.Pages.failures pages.new)
        (P.Pages.count pages.new ≡ (P.Pages.limits (P.Pages.below pages.new)).most) }
{
    let mut left = triggers;
    'triggers: while let [trigger, rest @ ..] = left {
        fire_one(run, pages, running, outer, trigger)?;
        left = rest;
    }
    Ok(())
}

/// A trigger, unless it is running or its condition isn't true. (`TooLong` if so many run as may run at once.)
#[cycle(run)]
fn fire_one<P: WritePages>(
    run: Run<'_>,
    pages: &mut P,
    running: &mut Vec<Rc<Trigger>>,
    outer: OuterRows<'_>,
    trigger: &Rc<Trigger>,
) -> R<()>
    ensures runs { (seen : Outer) → IsTrue (P.Pages.tells (P.Pages.below pages.old)) → Shows outer.entry seen
        → KnowsEach (listed_in run.entry.catalog.now) seen (trigger.now.value ∷ [])
        → Runs (P.Pages.map pages.old) (P.Pages.map pages.new) (P.Pages.limits (P.Pages.below pages.old)).page
        (listed_in run.entry.catalog.now)
        (λ db. run_trigger (programs run.entry.room) (running_names running.old.items) seen db (named_definition trigger.now.value)) result }
    ensures running { OnOk result (running.new.items ≡ running.old.items) }
    ensures kept { P.Pages.below pages.new ≡ P.Pages.below pages.old }
    ensures causes { Causes result (P.Pages.failures pages.old) (P.Pages.failures pages.new)
        (P.Pages.count pages.new ≡ (P.Pages.limits (P.Pages.below pages.new)).most) }
{
    if is_running(running, trigger.definition.name.as_str())
        || !holds_at(run.alloc, outer, trigger)?
    {
        return Ok(());
    }
    if run.room == 0 {
        return Err(Fault::TooLong);
    }
    let within = Run {
        alloc: run.alloc,
        catalog: run.catalog,
        room: run.room - 1,
    };
    running.push(trigger.clone()?)?;
    run_program(
        within,
        pages,
        running,
        outer,
        trigger.definition.body.as_slice(),
    )?;
    running.pop();
    Ok(())
}
