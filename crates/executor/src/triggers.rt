//! CREATE TRIGGER and DROP TRIGGER.

ghost use Rattle.std.specs.Prelude.{◌≡◌, ◌⊎◌, ℤ, None, Ok, Some, option_map, IfErr, IfOk, IsTrue};
ghost use Rattle.sqlval.specs.Faults.{IsNotDiskFault, IsOrMemory};
ghost use Rattle.sqlval.specs.Refusals as refusal;
ghost use Rattle.sqlval.specs.Refusals.{refusal_of};
ghost use Rattle.pages.specs.Calls.{Causes};
ghost use Rattle.sql_syntax.specs.declared.create.NewObject.TheVariants as object;
ghost use Rattle.sql_syntax.specs.declared.create.TriggerDefinition.{TriggerDefinition as Defined};
ghost use Rattle.sql_syntax.specs.declared.statement.ObjectKind.TheVariants as kinds;
ghost use Rattle.sql_syntax.specs.declared.statement.Statement.TheVariants as statement;
ghost use Rattle.catalog.specs.Listed.{listed_in, tables_of, trigger_named, triggers_in};
ghost use Rattle.query_names.specs.Bound.{AreOnce};
ghost use Rattle.db_pages.specs.Schema.{IsCreateOf};
ghost use Rattle.executor.specs.Changing.{MakesChange};
ghost use Rattle.executor.specs.Listing.{AreAfter, target_row};

use crate::creating::{add_treeless_row, row_of};
use crate::dropping::{no_such, take_row};
use crate::kept::kept_object;
use catalog::{Catalog, Trigger, View, listed_tables_are_found, triggers_come_and_go};
use db_layout::{table_trees_stand, trees_give_way};
use pages::WritePages;
use query_bind::{bind_trigger, triggers_are_created_as_defined};
use sql_syntax::{NewObject, ObjectKind, TriggerDefinition};
use sqlval::{Damage, Fault, Name, R, Text};
use std::alloc::Global;

/// The trigger of what is created. (`Damaged(Schema, 1)` if it is none.)
fn defined_trigger(new: NewObject) -> R<TriggerDefinition>
    ensures trigger { (d : Defined) → new ≡ object.Trigger d → result ≡ Ok d }
    ensures not_disk { IfErr result (λ fault. IsNotDiskFault fault) }
{
    match new {
        NewObject::Trigger(trigger) => Ok(trigger),
        other => {
            drop(other);
            Err(Fault::Damaged(Damage::Schema, 1))
        }
    }
}

/// The trigger that a text creates, read from it anew. (What `kept_object` and `defined_trigger` refuse.)
fn kept_trigger(alloc: Global, sql: &Text) -> R<TriggerDefinition>
    ensures kept { (d : Defined) → IsCreateOf sql.now (object.Trigger d) → IsOrMemory (λ trigger. trigger ≡ d) result }
    ensures not_disk { IfErr result (λ fault. IsNotDiskFault fault) }
{
    defined_trigger(kept_object(alloc, sql)?)
}

/// The rowid of a view's row in the schema table.
fn row_of_view(view: &View) -> i64
    ensures { result ≡ view.now.rowid }
{
    view.rowid
}

/// The rowid of the row of the table of this name, or else of the view, in the schema table.
fn row_of_target(catalog: &Catalog, name: &str) -> i64
    ensures { (rowid : ℤ) → target_row (listed_in catalog.now) name.now ≡ Some rowid → result ≡ rowid }
{
    match catalog.table(name) {
        Some(table) => row_of(table),
        None => match catalog.view(name) {
            Some(view) => row_of_view(view),
            None => 0,
        },
    }
}

/// Makes a trigger: its row in the schema table. Answers the catalog with it. Its program isn't looked at. (What `bind_trigger` refuses;
/// `RowidFull` if no rowid after that of its table or view is free; `TooLong` if no record can hold its row. Then some pages may have changed.)
pub fn create_trigger<P: WritePages>(
    alloc: Global,
    pages: &mut P,
    catalog: &Catalog,
    sql: &Text,
    definition: &TriggerDefinition,
) -> R<Catalog>
    ensures made { IsTrue (P.Pages.tells (P.Pages.below pages.old))
        → IsCreateOf sql.now (object.Trigger definition.now)
        → MakesChange listed_in (statement.Create
        (record { sql = sql.now; object = object.Trigger definition.now })) (P.Pages.map pages.old)
        (P.Pages.map pages.new) (P.Pages.limits (P.Pages.below pages.old)).page (listed_in catalog.now) result }
    ensures after { IfOk result (λ next. IsCreateOf sql.now (object.Trigger definition.now)
        → AreOnce (tables_of catalog.now)
        → AreAfter (listed_in catalog.now) → AreAfter (listed_in next)) }
    ensures kept { P.Pages.below pages.new ≡ P.Pages.below pages.old }
    ensures causes { Causes result (P.Pages.failures pages.old) (P.Pages.failures pages.new)
        (P.Pages.count pages.new ≡ (P.Pages.limits (P.Pages.below pages.new)).most) }
{
    triggers_come_and_go();
    triggers_are_created_as_defined();
    trees_give_way();
    table_trees_stand();
    bind_trigger(alloc, catalog, definition)?;
    let first = row_of_target(catalog, definition.target.as_str());
    let rowid = catalog.unused_after(alloc, first)?;
    let trigger = Trigger {
        definition: kept_trigger(alloc, sql)?,
        rowid,
    };
    let name = &definition.name;
    add_treeless_row(
        alloc,
        pages,
        rowid,
        "trigger",
        name,
        &definition.target,
        sql,
    )?;
    catalog.with_trigger(alloc, trigger)
}

/// The trigger of a name. (`NoSuch` if none has it.)
fn listed_trigger<'a>(alloc: Global, catalog: &'a Catalog, name: &Name) -> R<&'a Trigger>
    ensures found { IfOk result (λ trigger. trigger_named name.now (triggers_in catalog.now) ≡ Some trigger.now) }
    ensures refused { IfErr result (λ fault. (fault ≡ Fault.Memory)
        ⊎ (refusal_of fault ≡ refusal.NoSuch)
        × (trigger_named name.now (triggers_in catalog.now) ≡ None)) }
    ensures not_disk { IfErr result (λ fault. IsNotDiskFault fault) }
{
    match catalog.trigger(name.as_str()) {
        Some(trigger) => Ok(trigger),
        None => Err(no_such(alloc, ObjectKind::Trigger, name)),
    }
}

/// Drops a trigger: its row in the schema table. Answers the catalog without it. (`NoSuch`; what `take_row` refuses. Then some pages may have
/// changed.)
pub(crate) fn drop_trigger<P: WritePages>(
    alloc: Global,
    pages: &mut P,
    catalog: &Catalog,
    name: &Name,
) -> R<Catalog>
    ensures made { IsTrue (P.Pages.tells (P.Pages.below pages.old))
        → MakesChange listed_in (statement.Drop kinds.Trigger name.now) (P.Pages.map pages.old)
        (P.Pages.map pages.new)
        (P.Pages.limits (P.Pages.below pages.old)).page (listed_in catalog.now) result }
    ensures kept { P.Pages.below pages.new ≡ P.Pages.below pages.old }
    ensures causes { Causes result (P.Pages.failures pages.old) (P.Pages.failures pages.new)
        (P.Pages.count pages.new ≡ (P.Pages.limits (P.Pages.below pages.new)).most) }
{
    triggers_come_and_go();
    listed_tables_are_found();
    trees_give_way();
    table_trees_stand();
    let trigger = listed_trigger(alloc, catalog, name)?;
    let left = catalog.without_trigger(alloc, name.as_str())?;
    take_row(alloc, pages, trigger.rowid)?;
    Ok(left)
}
