//! Rowids of the schema table that are free.

ghost use Rattle.std.specs.Prelude.{◌≡◌, ◌⊎◌, ◌<◌, ◌<ℤ◌, ◌++◌, ℤ, length, slice_index_or, false, flat_map, map, IfOk, IfErr, OnOk};
ghost use Rattle.catalog.specs.Listed as listed;
ghost use Rattle.catalog.specs.UnusedRowids as unused;

use crate::tables::{Index, Table, Trigger, View};
use sqlval::{Fault, R};
use std::alloc::Global;
use std::rc::Rc;

/// The rowid of an index's row.
fn rowid_of(index: &Index) -> i64
    ensures { result ≡ index.now.rowid }
{
    index.rowid
}

/// The rowid of a table's row.
fn rowid_of_table(table: &Table) -> i64
    ensures { result ≡ table.now.rowid }
{
    table.rowid
}

/// Adds the rowids of a table's row and of those of its indexes. (`Memory` alone.)
fn push_rowids(rowids: &mut Vec<i64>, table: &Table) -> R<()>
    ensures pushed { OnOk result (rowids.new.items ≡ rowids.old.items ++ listed.rowids_in table.now) }
    ensures refused { IfErr result (λ fault. fault ≡ Fault.Memory) }
{
    rowids.push(rowid_of_table(table))?;
    'indexes: for index in table.indexes.as_slice() {
        rowids.push(rowid_of(index))?;
    }
    Ok(())
}

/// The rowid of a view's row.
fn rowid_of_view(view: &View) -> i64
    ensures { result ≡ view.now.rowid }
{
    view.rowid
}

/// The rowids of the rows of tables and of their indexes. (`Memory` alone.)
fn table_rowids(alloc: Global, tables: &[Rc<Table>]) -> R<Vec<i64>>
    ensures are { IfOk result (λ rowids. rowids.items ≡ flat_map listed.rowids_in (listed.shared tables.now)) }
    ensures refused { IfErr result (λ fault. fault ≡ Fault.Memory) }
{
    let mut rowids = Vec::new(alloc);
    'tables: for table in tables {
        push_rowids(&mut rowids, table)?;
    }
    Ok(rowids)
}

/// The rowid of a trigger's row.
fn rowid_of_trigger(trigger: &Trigger) -> i64
    ensures { result ≡ trigger.now.rowid }
{
    trigger.rowid
}

/// Adds the rowids of the rows of views. (`Memory` alone.)
fn push_views(rowids: &mut Vec<i64>, views: &[Rc<View>]) -> R<()>
    ensures pushed { OnOk result (rowids.new.items ≡ rowids.old.items ++ map (λ v. v.rowid) (listed.shared views.now)) }
    ensures refused { IfErr result (λ fault. fault ≡ Fault.Memory) }
{
    'views: for view in views {
        rowids.push(rowid_of_view(view))?;
    }
    Ok(())
}

/// Adds the rowids of the rows of triggers. (`Memory` alone.)
fn push_triggers(rowids: &mut Vec<i64>, triggers: &[Rc<Trigger>]) -> R<()>
    ensures pushed { OnOk result (rowids.new.items ≡ rowids.old.items ++ map (λ t. t.rowid) (listed.shared triggers.now)) }
    ensures refused { IfErr result (λ fault. fault ≡ Fault.Memory) }
{
    'triggers: for trigger in triggers {
        rowids.push(rowid_of_trigger(trigger))?;
    }
    Ok(())
}

/// The rowids of all rows of the schema table. (`Memory` alone.)
pub(crate) fn rowids_of(
    alloc: Global,
    tables: &[Rc<Table>],
    views: &[Rc<View>],
    triggers: &[Rc<Trigger>],
) -> R<Vec<i64>>
    ensures are { IfOk result (λ rowids. rowids.items
        ≡ listed.rowids_of (record { tables = listed.shared tables.now; views = listed.shared views.now; triggers = listed.shared triggers.now })) }
    ensures refused { IfErr result (λ fault. fault ≡ Fault.Memory) }
{
    let mut rowids = table_rowids(alloc, tables)?;
    push_views(&mut rowids, views)?;
    push_triggers(&mut rowids, triggers)?;
    Ok(rowids)
}

/// The rowid at a place.
fn at(rowids: &[i64], place: usize) -> i64
    requires { place < length rowids.now }
    ensures { (d : ℤ) → result ≡ slice_index_or rowids.now place d }
{
    rowids[place]
}

/// The greatest of these, or 0 if none is greater.
fn greatest(rowids: &[i64]) -> i64
    ensures { unused.AreUpTo result rowids.now }
{
    let mut greatest = 0;
    'rowids: for place in 0..rowids.len() {
        greatest = greatest.max(at(rowids, place));
    }
    greatest
}

/// Whether a rowid is one of these.
fn is_among(rowids: &[i64], rowid: i64) -> bool
    ensures { result ≡ unused.is_among rowid rowids.now }
{
    rowids.iter().any(|other| *other == rowid)
}

/// The greatest rowid that is none of these.
fn greatest_unused(rowids: &[i64]) -> i64
    ensures { unused.is_among result rowids.now ≡ false }
{
    let mut rowid = i64::MAX;
    'taken: for _ in 0..rowids.len() {
        if !is_among(rowids, rowid) {
            return rowid;
        }
        rowid -= 1;
    }
    rowid
}

/// A rowid that is none of these: the one after the greatest, or else the greatest that is free.
pub(crate) fn unused_among(rowids: &[i64]) -> i64
    ensures { unused.is_among result rowids.now ≡ false }
{
    match greatest(rowids).checked_add(1) {
        Some(rowid) => rowid,
        None => greatest_unused(rowids),
    }
}

/// The least rowid after this one that is none of these. (`RowidFull` if there is none.)
fn least_unused(rowids: &[i64], after: i64) -> R<i64>
    ensures free { IfOk result (λ rowid. unused.is_among rowid rowids.now ≡ false) }
    ensures after { IfOk result (λ rowid. after <ℤ rowid) }
    ensures refused { IfErr result (λ fault. (fault ≡ Fault.RowidFull) × unused.AreTakenAfter after rowids.now) }
{
    let mut rowid = after;
    'taken: for _ in 0..rowids.len() {
        let Some(next) = rowid.checked_add(1) else {
            return Err(Fault::RowidFull);
        };
        if !is_among(rowids, next) {
            return Ok(next);
        }
        rowid = next;
    }
    match rowid.checked_add(1) {
        Some(next) => Ok(next),
        None => Err(Fault::RowidFull),
    }
}

/// A rowid after this one that is none of these: the one after the greatest of all, or else the least that is free. (`RowidFull` if there is none.)
pub(crate) fn unused_past(rowids: &[i64], after: i64) -> R<i64>
    ensures free { IfOk result (λ rowid. unused.is_among rowid rowids.now ≡ false) }
    ensures after { IfOk result (λ rowid. after <ℤ rowid) }
    ensures refused { IfErr result (λ fault. (fault ≡ Fault.RowidFull) × unused.AreTakenAfter after rowids.now) }
{
    match greatest(rowids).max(after).checked_add(1) {
        Some(rowid) => Ok(rowid),
        None => least_unused(rowids, after),
    }
}
