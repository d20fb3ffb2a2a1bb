//! The triggers that the rows of the schema table tell, and what they are on.

ghost use Rattle.std.specs.Prelude.{◌≡◌, false, true, IfErr, IfOk, Ok, OnOk};
ghost use Rattle.sqlval.specs.Faults.{IsOrMemory};
ghost use Rattle.sql_syntax.specs.declared.create.Create.{Create as Made};
ghost use Rattle.sql_syntax.specs.declared.create.NewObject.TheVariants as new;
ghost use Rattle.sql_syntax.specs.declared.create.TriggerDefinition.{TriggerDefinition as Defined};
ghost use Rattle.sql_syntax.specs.declared.statement.Statement.TheVariants as parsed;
ghost use Rattle.catalog.specs.Listed.{listed_in, tables_of};
ghost use Rattle.catalog.specs.declared.tables.Trigger.{Trigger as Listed};
ghost use Rattle.query_names.specs.Bound.{AreOnce};
ghost use Rattle.query_bind.specs.Triggers.{FitsTarget};
ghost use Rattle.db_pages.specs.Schema as told;
ghost use Rattle.db_load.specs.Loading.{IsOfTriggerRow, IsSchemaFault, IsTextOf, TellsTrigger};
ghost use Rattle.db_load.specs.Reading.{AddsTold, AreOnTargets, FindsParts, ReadsTold};
ghost use Rattle.db_load.specs.declared.schema.SchemaKind.TheVariants as kind;

use crate::schema::{SchemaRow, damaged, is_new, outside, statement_of};
use catalog::{Catalog, Trigger, is_reserved};
use query_bind::fit_target;
use sql_parser::release;
use sql_syntax::{Create, NewObject, Statement, TriggerDefinition};
use sqlval::{Fault, Feature, R};
use std::alloc::Global;

/// The definition of a trigger, which a CREATE must make.
fn trigger_in(create: Create) -> R<TriggerDefinition>
    ensures tells { (definition : Defined) → create.object ≡ new.Trigger definition → result ≡ Ok definition }
    ensures found { IfOk result (λ definition. create.object ≡ new.Trigger definition) }
    ensures not_disk { IfErr result (λ fault. IsSchemaFault fault) }
{
    let Create { sql, object } = create;
    match object {
        NewObject::Trigger(definition) => Ok(definition),
        object => {
            release(Statement::Create(Create { sql, object }));
            Err(damaged())
        }
    }
}

/// The definition in a CREATE TRIGGER.
fn trigger_definition_in(statement: Statement) -> R<TriggerDefinition>
    ensures tells { (made : Made) (definition : Defined) → statement ≡ parsed.Create made
        → made.object ≡ new.Trigger definition → result ≡ Ok definition }
    ensures found { IfOk result (λ definition. (made : Made) × (statement ≡ parsed.Create made)
        × (made.object ≡ new.Trigger definition)) }
    ensures not_disk { IfErr result (λ fault. IsSchemaFault fault) }
{
    match statement {
        Statement::Create(create) => trigger_in(create),
        other => {
            release(other);
            Err(Fault::Unsupported(Feature::SchemaObject))
        }
    }
}

/// Checks that the row has the name of the trigger and that of its table or view, and that the trigger's name may be given.
fn is_of_trigger_row(definition: &TriggerDefinition, row: &SchemaRow<'_>) -> R<()>
    ensures tells { IsOfTriggerRow row.now definition.now → result ≡ Ok tt }
    ensures found { OnOk result (IsOfTriggerRow row.now definition.now) }
    ensures not_disk { IfErr result (λ fault. IsSchemaFault fault) }
{
    if !definition.name.is_same(row.name) {
        return Err(damaged());
    }
    if !definition.target.is_same(row.table_name) {
        return Err(damaged());
    }
    if is_reserved(definition.name.as_str()) {
        return Err(Fault::Unsupported(Feature::SchemaObject));
    }
    Ok(())
}

/// The trigger of this row and of the definition in its text. (What `is_of_trigger_row` refuses.)
fn trigger_made(row: &SchemaRow<'_>, definition: TriggerDefinition) -> R<Trigger>
    ensures tells { (trigger : Listed) → TellsTrigger trigger row.now → definition ≡ trigger.definition
        → result ≡ Ok trigger }
    ensures found { IfOk result (λ trigger. IsOfTriggerRow row.now definition
        × (trigger.definition ≡ definition) × (trigger.rowid ≡ row.now.rowid)) }
    ensures not_disk { IfErr result (λ fault. IsSchemaFault fault) }
{
    match is_of_trigger_row(&definition, row) {
        Ok(()) => Ok(Trigger {
            definition,
            rowid: row.rowid,
        }),
        Err(fault) => {
            drop(definition);
            Err(fault)
        }
    }
}

/// The trigger that a row tells.
fn trigger_of(alloc: Global, row: &SchemaRow<'_>) -> R<Trigger>
    ensures tells { (trigger : Listed) → TellsTrigger trigger row.now
        → IsOrMemory (λ found. found ≡ trigger) result }
    ensures found { IfOk result (λ trigger. TellsTrigger trigger row.now) }
    ensures not_disk { IfErr result (λ fault. IsSchemaFault fault) }
{
    let statement = statement_of(alloc, row)?;
    let definition = trigger_definition_in(statement)?;
    trigger_made(row, definition)
}

/// Adds a trigger of a new name after the others.
fn add_new(alloc: Global, catalog: &mut Catalog, trigger: Trigger) -> R<()>
    ensures tells { ReadsTold true (told.TriggerTold trigger) (listed_in catalog.old) (listed_in catalog.new) result }
    ensures found { OnOk result
        (AddsTold (told.TriggerTold trigger) (listed_in catalog.old) (listed_in catalog.new)) }
    ensures not_disk { IfErr result (λ fault. IsSchemaFault fault) }
{
    match is_new(catalog, &trigger.definition.name) {
        Ok(()) => catalog.add_trigger(alloc, trigger),
        Err(fault) => {
            drop(trigger);
            Err(fault)
        }
    }
}

/// Adds the trigger that a row tells, after the others. What it is on is checked at last, by `check_targets`.
pub(crate) fn add_trigger(alloc: Global, catalog: &mut Catalog, row: &SchemaRow<'_>) -> R<()>
    // Where a row tells a trigger of a new name, that is listed, unless memory runs out.
    ensures tells { (trigger : Listed) → TellsTrigger trigger row.now
        → ReadsTold true (told.TriggerTold trigger) (listed_in catalog.old) (listed_in catalog.new) result }
    // What is listed is the trigger that the row tells.
    ensures found { row.now.kind ≡ kind.Trigger → OnOk result
        (FindsParts true row.now (listed_in catalog.old) (listed_in catalog.new)) }
    ensures not_disk { IfErr result (λ fault. IsSchemaFault fault) }
{
    let trigger = trigger_of(alloc, row)?;
    add_new(alloc, catalog, trigger)
}

/// Checks that a trigger fits the table or view that its ON names. (`Unsupported(SchemaObject)`.)
fn check_target(alloc: Global, catalog: &Catalog, trigger: &Trigger) -> R<()>
    ensures found { AreOnce (tables_of catalog.now)
        → OnOk result (FitsTarget (listed_in catalog.now) trigger.now.definition) }
    ensures only { AreOnce (tables_of catalog.now) → FitsTarget (listed_in catalog.now) trigger.now.definition
        → IfErr result (λ fault. fault ≡ Fault.Memory) }
    ensures not_disk { IfErr result (λ fault. IsSchemaFault fault) }
{
    match fit_target(alloc, catalog, &trigger.definition) {
        Ok(()) => Ok(()),
        Err(fault) => Err(outside(fault)),
    }
}

/// Checks that each trigger fits the table or view that its ON names. (What `check_target` refuses.)
pub(crate) fn check_targets(alloc: Global, catalog: &Catalog) -> R<()>
    ensures found { AreOnce (tables_of catalog.now) → OnOk result (AreOnTargets (listed_in catalog.now)) }
    ensures only { AreOnce (tables_of catalog.now) → AreOnTargets (listed_in catalog.now)
        → IfErr result (λ fault. fault ≡ Fault.Memory) }
    ensures not_disk { IfErr result (λ fault. IsSchemaFault fault) }
{
    let mut rest = catalog.triggers();
    'triggers: while let [trigger, after @ ..] = rest {
        check_target(alloc, catalog, trigger)?;
        rest = after;
    }
    Ok(())
}
