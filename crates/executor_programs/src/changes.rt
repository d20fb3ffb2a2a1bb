//! What statements make of a database, by one call.

ghost use Rattle.std.specs.Prelude.{◌≡◌, IfNone, IfOk, IfSome, IsTrue, is_some, false};
ghost use Rattle.pages.specs.Calls.{Causes};
ghost use Rattle.sql_syntax.specs.declared.statement.Statement.TheVariants as statement;
ghost use Rattle.catalog.specs.Listed.{listed_in};
ghost use Rattle.executor.specs.Changing.{MakesQuietly};
ghost use Rattle.executor.specs.Forms as forms;
ghost use Rattle.executor_programs.specs.Making.{MakesBySetting, CarriesOut};
ghost use Rattle.executor_programs.specs.Writes.{changes_objects, listed_then, written};

use crate::outer::OuterRows;
use crate::running::{Run, run_bound};
use catalog::Catalog;
use executor::{
    create_index, create_table, create_trigger, create_view, delete_rows, drop_object, insert,
    update_rows,
};
use pages::WritePages;
use sql_syntax::{
    Change, Create, IndexDefinition, NewObject, ObjectKind, Statement, TableDefinition,
    TriggerDefinition, ViewDefinition,
};
use sqlval::{Name, R, Text};
use std::alloc::Global;
use trigger::is_still;
use trigger_bind::know_change;
use trigger_names::{event_in, target_of};

/// The most triggers that run one within another.
const MAX_RUNNING: usize = 64;

/// A statement that changes the database.
#[derive(Clone, Copy)]
pub enum Write<'a> {
    Change(&'a Change),
    CreateTable(&'a Text, &'a TableDefinition),
    CreateIndex(&'a Text, &'a IndexDefinition),
    CreateView(&'a Text, &'a ViewDefinition),
    CreateTrigger(&'a Text, &'a TriggerDefinition),
    Drop(ObjectKind, &'a Name),
}

/// The change that a statement makes, if it makes one.
pub fn write_of(statement: &Statement) -> Option<Write<'_>>
    ensures same { IfSome result (λ write. written write ≡ statement.now) }
    ensures none { IfNone result (forms.is_write statement.now ≡ false) }
{
    match statement {
        Statement::Change(change) => Some(Write::Change(change)),
        Statement::Create(
            Create {
                sql,
                object: NewObject::Table(table),
            },
        ) => Some(Write::CreateTable(sql, table)),
        Statement::Create(
            Create {
                sql,
                object: NewObject::Index(index),
            },
        ) => Some(Write::CreateIndex(sql, index)),
        Statement::Create(
            Create {
                sql,
                object: NewObject::View(view),
            },
        ) => Some(Write::CreateView(sql, view)),
        Statement::Create(
            Create {
                sql,
                object: NewObject::Trigger(trigger),
            },
        ) => Some(Write::CreateTrigger(sql, trigger)),
        Statement::Drop(kind, name) => Some(Write::Drop(*kind, name)),
        _ => None,
    }
}

/// Changes rows, where that sets no trigger off. (What `insert`, `delete_rows` and `update_rows` refuse.)
fn change_quietly<P: WritePages>(
    alloc: Global,
    pages: &mut P,
    catalog: &Catalog,
    change: &Change,
) -> R<()>
    ensures made { IsTrue (P.Pages.tells (P.Pages.below pages.old))
        → MakesQuietly change.now (P.Pages.map pages.old) (P.Pages.map pages.new)
        (P.Pages.limits (P.Pages.below pages.old)).page (listed_in catalog.now) result }
    ensures kept { P.Pages.below pages.new ≡ P.Pages.below pages.old }
    ensures causes { Causes result (P.Pages.failures pages.old) (P.Pages.failures pages.new)
        (P.Pages.count pages.new ≡ (P.Pages.limits (P.Pages.below pages.new)).most) }
{
    match change {
        Change::Insert(rows) => insert(alloc, pages, catalog, rows),
        Change::Delete(rows) => delete_rows(alloc, pages, catalog, rows),
        Change::Update(rows) => update_rows(alloc, pages, catalog, rows),
    }
}

/// Changes rows, with the triggers that this sets off: the names of all their programs are looked up first. (What `know_change` and `run_bound`
/// refuse.)
fn change_and_run<P: WritePages>(
    alloc: Global,
    pages: &mut P,
    catalog: &Catalog,
    change: &Change,
) -> R<()>
    ensures made { IsTrue (P.Pages.tells (P.Pages.below pages.old))
        → MakesBySetting change.now (P.Pages.map pages.old) (P.Pages.map pages.new)
        (P.Pages.limits (P.Pages.below pages.old)).page (listed_in catalog.now) result }
    ensures kept { P.Pages.below pages.new ≡ P.Pages.below pages.old }
    ensures causes { Causes result (P.Pages.failures pages.old) (P.Pages.failures pages.new)
        (P.Pages.count pages.new ≡ (P.Pages.limits (P.Pages.below pages.new)).most) }
{
    let bound = know_change(alloc, catalog, change)?;
    let run = Run {
        alloc,
        catalog,
        room: MAX_RUNNING,
    };
    let outer = OuterRows {
        scope: &[],
        rows: &[],
    };
    let mut running = Vec::new(alloc);
    run_bound(run, pages, &mut running, outer, change, bound)
}

/// Changes rows, with the triggers that this sets off. (What `change_quietly` and `change_and_run` refuse. Then some pages may have changed.)
pub fn change_rows<P: WritePages>(
    alloc: Global,
    pages: &mut P,
    catalog: &Catalog,
    change: &Change,
) -> R<()>
    ensures made { IsTrue (P.Pages.tells (P.Pages.below pages.old))
        → CarriesOut (λ done. listed_in catalog.now) (statement.Change change.now)
        (P.Pages.map pages.old) (P.Pages.map pages.new)
        (P.Pages.limits (P.Pages.below pages.old)).page (listed_in catalog.now) result }
    ensures kept { P.Pages.below pages.new ≡ P.Pages.below pages.old }
    ensures causes { Causes result (P.Pages.failures pages.old) (P.Pages.failures pages.new)
        (P.Pages.count pages.new ≡ (P.Pages.limits (P.Pages.below pages.new)).most) }
{
    if is_still(catalog, target_of(change), event_in(change)) {
        return change_quietly(alloc, pages, catalog, change);
    }
    change_and_run(alloc, pages, catalog, change)
}

/// Changes rows, or which objects there are. Answers the catalog with what is created, or without what is dropped, and none where the tables
/// stay. (What the statement's own call refuses. Then some pages may have changed.)
pub fn change<P: WritePages>(
    alloc: Global,
    pages: &mut P,
    catalog: &Catalog,
    write: Write<'_>,
) -> R<Option<Catalog>>
    ensures made { IsTrue (P.Pages.tells (P.Pages.below pages.old))
        → forms.WhereKept (written write.entry)
        (CarriesOut (listed_then (listed_in catalog.now)) (written write.entry)
        (P.Pages.map pages.old) (P.Pages.map pages.new)
        (P.Pages.limits (P.Pages.below pages.old)).page (listed_in catalog.now) result) }
    ensures listed { IfOk result (λ next. is_some next ≡ changes_objects write.entry) }
    ensures kept { P.Pages.below pages.new ≡ P.Pages.below pages.old }
    ensures causes { Causes result (P.Pages.failures pages.old) (P.Pages.failures pages.new)
        (P.Pages.count pages.new ≡ (P.Pages.limits (P.Pages.below pages.new)).most) }
{
    match write {
        Write::Change(rows) => {
            change_rows(alloc, pages, catalog, rows)?;
            Ok(None)
        }
        Write::CreateTable(sql, table) => Ok(Some(create_table(
            alloc, pages, catalog, sql, table,
        )?)),
        Write::CreateIndex(sql, index) => Ok(Some(create_index(
            alloc, pages, catalog, sql, index,
        )?)),
        Write::CreateView(sql, view) => Ok(Some(create_view(alloc, pages, catalog, sql, view)?)),
        Write::CreateTrigger(sql, trigger) => Ok(Some(create_trigger(
            alloc, pages, catalog, sql, trigger,
        )?)),
        Write::Drop(kind, name) => Ok(Some(drop_object(alloc, pages, catalog, kind, name)?)),
    }
}
