//! Handles to tables, views and triggers, which catalogs share.

ghost use Rattle.std.specs.Prelude.{◌≡◌, IfOk, IfErr, OnErr, OnOk, option_map};
ghost use Rattle.std.specs.List.{find, insert, list_any};
ghost use Rattle.catalog.specs.Listed as listed;

use crate::tables::{Table, Trigger, View};
use sqlval::{Fault, Name, R};
use std::alloc::Global;
use std::rc::Rc;

/// Handles to the same. (`Memory` alone.)
pub(crate) fn handles_copy<T: Drop>(alloc: Global, handles: &[Rc<T>]) -> R<Vec<Rc<T>>>
    ensures same { IfOk result (λ copy. listed.shared copy.items ≡ listed.shared handles.now) }
    ensures refused { IfErr result (λ fault. fault ≡ Fault.Memory) }
{
    let mut copy = Vec::with_capacity(alloc, handles.len().saturating_add(1))?;
    'handles: for handle in handles {
        copy.push(handle.clone()?)?;
    }
    Ok(copy)
}

/// Puts a handle at a place, or after the last where there are fewer. An `Err` changes nothing. (`Memory` alone.)
pub(crate) fn put_at(tables: &mut Vec<Rc<Table>>, place: usize, table: Rc<Table>) -> R<()>
    ensures added { OnOk result (listed.shared tables.new.items ≡ insert
        (listed.shared tables.old.items) place table.value) }
    ensures unchanged { OnErr result (listed.shared tables.new.items ≡ listed.shared tables.old.items) }
    ensures refused { IfErr result (λ fault. fault ≡ Fault.Memory) }
{
    let end = tables.as_slice().len();
    tables.insert(place.min(end), table)?;
    Ok(())
}

/// The first handle to a table of a name.
pub(crate) fn handle_named<'a>(tables: &'a [Rc<Table>], name: &str) -> Option<&'a Rc<Table>>
    ensures { option_map (λ t. t.now) result ≡ find (listed.is_shared name.now) tables.now }
{
    tables.iter().find(|table| table.name.is_same(name))
}

/// The first handle to a table with an index of a name.
pub(crate) fn handle_with_index<'a>(tables: &'a [Rc<Table>], name: &str) -> Option<&'a Rc<Table>>
    ensures { option_map (λ t. t.now) result ≡ find (listed.has_index_shared name.now) tables.now }
{
    tables.iter().find(|table| has_index(table, name))
}

/// Whether an index of a table has a name.
pub(crate) fn has_index(table: &Table, name: &str) -> bool
    ensures { result ≡ listed.has_index name.now table.now }
{
    table
        .indexes
        .as_slice()
        .iter()
        .any(|index| index.name.is_same(name))
}

/// The first handle to a view of a name.
pub(crate) fn view_handle_named<'a>(views: &'a [Rc<View>], name: &str) -> Option<&'a Rc<View>>
    ensures { option_map (λ v. v.now) result ≡ find (listed.is_shared_view name.now) views.now }
{
    views.iter().find(|view| view.definition.name.is_same(name))
}

/// Whether one of the tables has an index of a name.
pub(crate) fn is_index_named(tables: &[Rc<Table>], name: &str) -> bool
    ensures { result ≡ list_any (listed.has_index_shared name.now) tables.now }
{
    tables.iter().any(|table| has_index(table, name))
}

/// A handle to the new table, if the other has its name, or else to the other. (`Memory` alone.)
pub(crate) fn replaced_by(table: &Rc<Table>, new: &Rc<Table>) -> R<Rc<Table>>
    ensures is { IfOk result (λ handle. handle.value ≡ listed.replaced_by new.now.value table.now.value) }
    ensures refused { IfErr result (λ fault. fault ≡ Fault.Memory) }
{
    if table.name.is_same(new.name.as_str()) {
        Ok(new.clone()?)
    } else {
        Ok(table.clone()?)
    }
}

/// Handles to the tables, with the new one in place of those of its name. (`Memory` alone.)
pub(crate) fn handles_replaced(
    alloc: Global,
    tables: &[Rc<Table>],
    new: &Rc<Table>,
) -> R<Vec<Rc<Table>>>
    ensures replaced { IfOk result (λ replaced. listed.shared replaced.items
        ≡ listed.with_replaced new.now.value (listed.shared tables.now)) }
    ensures refused { IfErr result (λ fault. fault ≡ Fault.Memory) }
{
    let mut replaced = Vec::with_capacity(alloc, tables.len())?;
    'tables: for table in tables {
        replaced.push(replaced_by(table, new)?)?;
    }
    Ok(replaced)
}

/// Handles to the tables that don't have this name. (`Memory` alone.)
pub(crate) fn other_handles(alloc: Global, tables: &[Rc<Table>], name: &str) -> R<Vec<Rc<Table>>>
    ensures left { IfOk result (λ left. listed.shared left.items
        ≡ listed.without_table name.now (listed.shared tables.now)) }
    ensures refused { IfErr result (λ fault. fault ≡ Fault.Memory) }
{
    let mut left = Vec::new(alloc);
    'tables: for table in tables {
        if !table.name.is_same(name) {
            left.push(table.clone()?)?;
        }
    }
    Ok(left)
}

/// The first handle to a trigger of a name.
pub(crate) fn trigger_handle_named<'a>(
    triggers: &'a [Rc<Trigger>],
    name: &str,
) -> Option<&'a Rc<Trigger>>
    ensures { option_map (λ t. t.now) result ≡ find (listed.is_shared_trigger name.now) triggers.now }
{
    triggers
        .iter()
        .find(|trigger| trigger.definition.name.is_same(name))
}

/// Handles to the triggers of other tables and views than that of this name. (`Memory` alone.)
pub(crate) fn triggers_elsewhere(
    alloc: Global,
    triggers: &[Rc<Trigger>],
    name: &Name,
) -> R<Vec<Rc<Trigger>>>
    ensures left { IfOk result (λ left. listed.shared left.items
        ≡ listed.without_triggers_on name.now (listed.shared triggers.now)) }
    ensures refused { IfErr result (λ fault. fault ≡ Fault.Memory) }
{
    let mut left = Vec::new(alloc);
    'triggers: for trigger in triggers {
        if !name.is_same(trigger.definition.target.as_str()) {
            left.push(trigger.clone()?)?;
        }
    }
    Ok(left)
}
