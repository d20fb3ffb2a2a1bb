//! CREATE TRIGGER, whose names are looked up.

ghost use Rattle.std.specs.Prelude.{◌≡◌, ◌⊎◌, ◌∷◌, [], false, map, IfErr, IfOk, Some};
ghost use Rattle.sqlval.specs.Faults.{IsNotDiskFault};
ghost use Rattle.sqlval.specs.Refusals.{refusal_of};
ghost use Rattle.catalog.specs.Database.{ATable, ATrigger, AView, View};
ghost use Rattle.catalog.specs.Listed.{listed_in, tables_of, with_rows};
ghost use Rattle.query_names.specs.Bound.{AreOnce, is_twice_named, source_seen};
ghost use Rattle.query_names.specs.Checked.{known_all};
ghost use Rattle.query_names.specs.Named.{NamesBy};
ghost use Rattle.query_names.specs.Schema.{trigger_made};
ghost use Rattle.query_names.specs.Scopes.{place_of};
ghost use Rattle.query_bind.specs.Triggers.{IsTriggerOn, IsTriggerRefusal, KnowsTriggers, MakesListedTrigger, RefusesTriggerAsDefined, trigger_listed};

use crate::indexed::place_in;
use catalog::{Catalog, Table, is_reserved, listed_tables_are_found};
use query_names::missing;
use sql_syntax::{TriggerDefinition, TriggerEvent, TriggerTime};
use sqlval::{Fault, Misuse, Name, Object, R};
use std::alloc::Global;

/// The place of each of a table's columns that a list names. (`NoSuch`.)
fn column_places(alloc: Global, as_name: &Name, table: &Table, names: &[Name]) -> R<Vec<usize>>
    ensures places { is_twice_named table.now.columns ≡ false
        → NamesBy (λ places. places.items)
        (known_all (map (place_of (source_seen as_name.now table.now)) names.now)) result }
    ensures not_disk { IfErr result (λ fault. IsNotDiskFault fault) }
{
    let mut places = Vec::new(alloc);
    'names: for name in names {
        places.push(place_in(alloc, as_name, table, name)?)?;
    }
    Ok(places)
}

/// That a trigger fits a table: it isn't INSTEAD OF, and each column after OF is the table's. (`Misuse(TriggerTime)`, `NoSuch`.)
fn fit_table(alloc: Global, table: &Table, definition: &TriggerDefinition) -> R<()>
    ensures fits { is_twice_named table.now.columns ≡ false
        → NamesBy (λ done. ATrigger definition.now) (trigger_made (Some (ATable (with_rows table.now []))) definition.now) result }
    ensures not_disk { IfErr result (λ fault. IsNotDiskFault fault) }
{
    if definition.time == TriggerTime::InsteadOf {
        return Err(Fault::Misuse(Misuse::TriggerTime));
    }
    if let TriggerEvent::Update(Some(columns)) = &definition.event {
        column_places(alloc, &definition.target, table, columns.as_slice())?;
    }
    Ok(())
}

/// That a trigger fits a view: it is INSTEAD OF. (`Misuse(TriggerTime)`.)
fn fit_view(definition: &TriggerDefinition) -> R<()>
    ensures fits { (v : View) → NamesBy (λ done. ATrigger definition.now) (trigger_made (Some (AView v)) definition.now) result }
    ensures why { IfErr result (λ fault. fault ≡ Fault.Misuse Misuse.TriggerTime) }
    ensures not_disk { IfErr result (λ fault. IsNotDiskFault fault) }
{
    if definition.time == TriggerTime::InsteadOf {
        return Ok(());
    }
    Err(Fault::Misuse(Misuse::TriggerTime))
}

/// That a trigger fits the table or view that its ON names. (`NoSuch`, `Misuse(TriggerTime)`.)
pub fn fit_target(alloc: Global, catalog: &Catalog, definition: &TriggerDefinition) -> R<()>
    ensures fits { AreOnce (tables_of catalog.now)
        → NamesBy (λ done. ATrigger definition.now) (trigger_listed (listed_in catalog.now) definition.now) result }
    ensures not_disk { IfErr result (λ fault. IsNotDiskFault fault) }
{
    let target = definition.target.as_str();
    if let Some(table) = catalog.table(target) {
        return fit_table(alloc, table, definition);
    }
    match catalog.view(target) {
        Some(_) => fit_view(definition),
        None => Err(missing(alloc, Object::Table, &definition.target)),
    }
}

/// Looks the names of a CREATE TRIGGER up; its program isn't looked at. (`Misuse(ReservedName)`, `Exists`, what `fit_target` refuses.)
pub fn bind_trigger(alloc: Global, catalog: &Catalog, definition: &TriggerDefinition) -> R<()>
    ensures made { AreOnce (tables_of catalog.now)
        → IfOk result (λ done. IsTriggerOn (listed_in catalog.now) definition.now) }
    ensures refused { AreOnce (tables_of catalog.now)
        → IfErr result (λ fault. (fault ≡ Fault.Memory)
        ⊎ IsTriggerRefusal (listed_in catalog.now) definition.now (refusal_of fault)) }
    ensures not_disk { IfErr result (λ fault. IsNotDiskFault fault) }
{
    if is_reserved(definition.name.as_str()) {
        return Err(Fault::Misuse(Misuse::ReservedName));
    }
    if catalog.has_name(definition.name.as_str()) {
        return Err(Fault::Exists(definition.name.copy(alloc)?));
    }
    fit_target(alloc, catalog, definition)
}

/// What a trigger is beside what is listed it is on the database: a CREATE TRIGGER makes the trigger of its definition, or is refused for
/// each cause that there is.
pub fn triggers_are_created_as_defined()
    ensures knows { KnowsTriggers }
    ensures makes { MakesListedTrigger }
    ensures refuses { RefusesTriggerAsDefined }
{
    listed_tables_are_found();
}
