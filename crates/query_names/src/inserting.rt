//! Insertions whose names are looked up.

ghost use Rattle.sqlval.specs.Faults.{IsNotDiskFault};
ghost use Rattle.std.specs.Prelude.{◌≡◌, ◌⊎◌, Some, map, option_map, is_none, IfOk, IfErr, OnOk};
ghost use Rattle.std.specs.List.{find, list_any, position_from, range_with_len};
ghost use Rattle.sqlval.specs.Names.{is_same_name};
ghost use Rattle.sqlval.specs.Refusals.{refusal_of};
ghost use Rattle.catalog.specs.Listed.{place_named, table_named, tables_of};
ghost use Rattle.query_names.specs.Bound.{count_wanted};
ghost use Rattle.query_names.specs.Inserts.{AreColumns, IsListRefusal, IsTargetFault, places_in};
ghost use Rattle.query_names.specs.Scopes.{is_doubled};

use crate::names::{find_table, missing};
use catalog::{Catalog, Column, Table};
use sql_syntax::Insert;
use sqlval::{Fault, Many, Misuse, Name, Object, R, Row};
use std::alloc::Global;

/// An insertion whose names are looked up.
#[derive(Drop)]
pub struct BoundInsert<'a> {
    pub table: &'a Table,
    /// For each column of the table, the place of its value in the given rows, if any.
    pub places: Vec<Option<usize>>,
    pub rows: Vec<Row>,
}

/// The place of a column in a list.
fn place_in(names: &[Name], column: &str) -> Option<usize>
    ensures { result ≡ position_from (λ name. is_same_name name column.now) 0 names.now }
{
    names.iter().position(|name| name.is_same(column))
}

/// The first name of a list that no column of the table has.
fn unknown_in<'n>(table: &Table, names: &'n [Name]) -> Option<&'n Name>
    ensures { option_map (λ name. name.now) result ≡ find
        (λ name. is_none (place_named name table.now.columns)) names.now }
{
    names
        .iter()
        .find(|name| table.place_of(name.as_str()).is_none())
}

/// Whether a list has this name.
fn has_name(names: &[Name], name: &Name) -> bool
    ensures { result ≡ list_any (is_same_name name.now) names.now }
{
    names.iter().any(|other| name.is_same(other.as_str()))
}

/// Whether a name stands twice in a list.
pub fn has_doubled(names: &[Name]) -> bool
    ensures { result ≡ is_doubled names.now }
{
    let mut rest = names;
    'names: while let [name, after @ ..] = rest {
        if has_name(after, name) {
            return true;
        }
        rest = after;
    }
    false
}

/// Each name of the list is one of the table's columns, and stands there once.
fn check_names(alloc: Global, table: &Table, names: &[Name]) -> R<()>
    ensures listed { OnOk result (AreColumns table.now.columns (Some names.now)) }
    ensures refused { IfErr result (λ fault. (fault ≡ Fault.Memory)
        ⊎ IsListRefusal table.now.columns (Some names.now) (refusal_of fault)) }
    ensures not_disk { IfErr result (λ fault. IsNotDiskFault fault) }
{
    if let Some(name) = unknown_in(table, names) {
        return Err(missing(alloc, Object::Column, name));
    }
    if has_doubled(names) {
        return Err(Fault::Misuse(Misuse::DoubledColumn));
    }
    Ok(())
}

fn check_list(alloc: Global, table: &Table, list: &Option<Many<Name>>) -> R<()>
    ensures listed { OnOk result (AreColumns table.now.columns list.now) }
    ensures refused { IfErr result (λ fault. (fault ≡ Fault.Memory)
        ⊎ IsListRefusal table.now.columns list.now (refusal_of fault)) }
    ensures not_disk { IfErr result (λ fault. IsNotDiskFault fault) }
{
    match list {
        Some(names) => check_names(alloc, table, names.as_slice()),
        None => Ok(()),
    }
}

/// Each column's own place.
fn own_places(alloc: Global, count: usize) -> R<Vec<Option<usize>>>
    ensures places { IfOk result (λ places. places.items ≡ map Some (range_with_len 0 count)) }
    ensures refused { IfErr result (λ fault. fault ≡ Fault.Memory) }
    ensures not_disk { IfErr result (λ fault. IsNotDiskFault fault) }
{
    let mut places = Vec::new(alloc);
    'columns: for index in 0..count {
        places.push(Some(index))?;
    }
    Ok(places)
}

/// Each column's place in the list.
fn listed_places(alloc: Global, columns: &[Column], names: &[Name]) -> R<Vec<Option<usize>>>
    ensures places { IfOk result (λ places. places.items ≡ places_in columns.now (Some names.now)) }
    ensures refused { IfErr result (λ fault. fault ≡ Fault.Memory) }
    ensures not_disk { IfErr result (λ fault. IsNotDiskFault fault) }
{
    let mut places = Vec::new(alloc);
    'columns: for column in columns {
        let place = place_in(names, column.name.as_str());
        places.push(place)?;
    }
    Ok(places)
}

/// Finds, for each column of the table, the place of its value in the given rows.
fn places_of(alloc: Global, table: &Table, list: &Option<Many<Name>>) -> R<Vec<Option<usize>>>
    ensures places { IfOk result (λ places. places.items ≡ places_in table.now.columns list.now) }
    ensures refused { IfErr result (λ fault. fault ≡ Fault.Memory) }
    ensures not_disk { IfErr result (λ fault. IsNotDiskFault fault) }
{
    let columns = table.columns.as_slice();
    match list {
        Some(names) => listed_places(alloc, columns, names.as_slice()),
        None => own_places(alloc, columns.len()),
    }
}

/// The number of values that each row must have.
fn count_of(columns: &Option<Many<Name>>, table: &Table) -> usize
    ensures { result ≡ count_wanted columns.now table.now }
{
    match columns {
        Some(names) => names.len(),
        None => table.columns.len(),
    }
}

/// The table and the columns of an INSERT, looked up.
#[derive(Drop)]
pub struct Target<'a> {
    pub table: &'a Table,
    /// For each column of the table, the place of its value in the given rows, if any.
    pub places: Vec<Option<usize>>,
    /// The number of values that each row must have.
    pub count: usize,
}

/// Looks up the table of an INSERT and its columns. (`NoSuch`, and `Misuse` for a column that is named twice.)
pub fn bind_target<'a>(alloc: Global, insert: &Insert, catalog: &'a Catalog) -> R<Target<'a>>
    ensures table { IfOk result (λ target. table_named insert.now.table (tables_of catalog.now)
        ≡ Some target.table.now) }
    ensures places { IfOk result (λ target. target.places.items
        ≡ places_in target.table.now.columns insert.now.columns) }
    ensures count { IfOk result (λ target. target.count ≡ count_wanted insert.now.columns target.table.now) }
    ensures listed { IfOk result (λ target. AreColumns target.table.now.columns insert.now.columns) }
    ensures refused { IfErr result (λ fault. IsTargetFault (tables_of catalog.now) insert.now fault) }
    ensures not_disk { IfErr result (λ fault. IsNotDiskFault fault) }
{
    let table = find_table(alloc, catalog, &insert.table)?;
    check_list(alloc, table, &insert.columns)?;
    let places = places_of(alloc, table, &insert.columns)?;
    let count = count_of(&insert.columns, table);
    Ok(Target {
        table,
        places,
        count,
    })
}
