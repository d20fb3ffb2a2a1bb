//! A change whose names are looked up, with all rows that it is about.

ghost use Rattle.std.specs.Prelude.{◌≡◌, ◌≤◌, length, map, option_map, slice_get, IsTrue};
ghost use Rattle.sqlval.specs.Faults.{IsOrMemory};
ghost use Rattle.pages.specs.Calls.{Stays};
ghost use Rattle.sql_syntax.specs.declared.change.Change as meant_change;
ghost use Rattle.trigger_names.specs.declared.changes.BoundChange.TheVariants as bound_as;
ghost use Rattle.catalog.specs.Listed.{listed_in};
ghost use Rattle.row_change.specs.NewRows.{row_of as pair_of};
ghost use Rattle.trigger.specs.Effects.{id_of};
ghost use Rattle.trigger_names.specs.Resolved.{GivesAsMany};
ghost use Rattle.executor_programs.specs.Acts.{ChangesAs, IsTableAct, IsViewAct, WorksAs};
ghost use Rattle.executor_programs.specs.declared.acts.TableItem.TheVariants as table_item;
ghost use Rattle.executor_programs.specs.declared.acts.ViewItem.TheVariants as view_item;

use crate::acts::{Act, TableItem, ViewItem, Work, act_around};
use crate::choosing::chosen_rows;
use crate::outer::OuterRows;
use crate::querying::given_rows;
use catalog::{Catalog, Table, TableRow, listed_tables_are_found};
use executor::places_by_column;
use pages::Pages;
use query_bind::bind_source;
use query_names::listed_tables_are_known;
use query_terms::{SourceRow, Term};
use row_scan::Rows;
use sql_syntax::Change;
use sqlval::{Fault, R};
use std::alloc::Global;
use trigger_names::{BoundChange, BoundRows, target_of};

/// The rowids of rows; 0 where one has none.
fn rowid_of(row: &SourceRow) -> i64
    ensures { result ≡ id_of row.now }
{
    row.rowid().unwrap_or(0)
}

/// The first of a table's rows, if there is one. (`Memory` alone.)
fn first_row(alloc: Global, rows: &[SourceRow]) -> R<Option<TableRow>>
    ensures { IsOrMemory (λ first. option_map pair_of first ≡ option_map (λ r. (id_of r, r.values)) (slice_get rows.now 0)) result }
{
    let Some(row) = rows.first() else {
        return Ok(None);
    };
    Ok(Some(TableRow {
        rowid: rowid_of(row),
        values: row.values(alloc)?.into_vec(),
    }))
}

/// Rows of a table that are inserted. (`Memory` alone.)
fn inserted_items(alloc: Global, rows: Rows) -> R<Vec<TableItem>>
    ensures { IsOrMemory (λ items. items.items ≡ map table_item.Insert rows.items) result }
{
    let mut items = Vec::with_capacity(alloc, rows.len())?;
    'rows: for row in rows {
        items.push(TableItem::Insert(row))?;
    }
    Ok(items)
}

/// Rows of a table that are updated. (`Memory` alone.)
fn updated_items(alloc: Global, rows: &[SourceRow]) -> R<Vec<TableItem>>
    ensures { IsOrMemory (λ items. items.items ≡ map (λ r. table_item.Update (id_of r)) rows.now) result }
{
    let mut items = Vec::with_capacity(alloc, rows.len())?;
    'rows: for row in rows {
        items.push(TableItem::Update(rowid_of(row)))?;
    }
    Ok(items)
}

/// Rows of a table that are deleted. (`Memory` alone.)
fn deleted_items(alloc: Global, rows: &[SourceRow]) -> R<Vec<TableItem>>
    ensures { IsOrMemory (λ items. items.items ≡ map (λ r. table_item.Delete (id_of r)) rows.now) result }
{
    let mut items = Vec::with_capacity(alloc, rows.len())?;
    'rows: for row in rows {
        items.push(TableItem::Delete(rowid_of(row)))?;
    }
    Ok(items)
}

/// Rows that are inserted into a view. (`Memory` alone.)
fn inserted_seen(alloc: Global, rows: Rows) -> R<Vec<ViewItem>>
    ensures { IsOrMemory (λ items. items.items ≡ map view_item.Insert rows.items) result }
{
    let mut items = Vec::with_capacity(alloc, rows.len())?;
    'rows: for row in rows {
        items.push(ViewItem::Insert(row))?;
    }
    Ok(items)
}

/// Rows of a view that are updated. (`Memory` alone.)
fn updated_seen(alloc: Global, rows: Vec<SourceRow>) -> R<Vec<ViewItem>>
    ensures { IsOrMemory (λ items. items.items ≡ map view_item.Update rows.items) result }
{
    let mut items = Vec::with_capacity(alloc, rows.len())?;
    'rows: for row in rows {
        items.push(ViewItem::Update(row))?;
    }
    Ok(items)
}

/// Rows of a view that are deleted. (`Memory` alone.)
fn deleted_seen(alloc: Global, rows: Vec<SourceRow>) -> R<Vec<ViewItem>>
    ensures { IsOrMemory (λ items. items.items ≡ map view_item.Delete rows.items) result }
{
    let mut items = Vec::with_capacity(alloc, rows.len())?;
    'rows: for row in rows {
        items.push(ViewItem::Delete(row))?;
    }
    Ok(items)
}

/// An INSERT into a table. (What `given_rows` refuses.)
fn insert_rows<'a, P: Pages>(
    alloc: Global,
    pages: &mut P,
    catalog: &Catalog,
    outer: OuterRows<'_>,
    places: Vec<usize>,
    rows: BoundRows,
    table: &'a Table,
    act: Act,
) -> R<Work<'a>>
    ensures found { (c : meant_change.Change) → IsTrue (P.Pages.tells (P.Pages.below pages.old))
        → IsTableAct (listed_in catalog.now) c table.now act
        → GivesAsMany (bound_as.Insert places rows) → WorksAs (P.Pages.map pages.old) (P.Pages.limits (P.Pages.below pages.old)).page
        (listed_in catalog.now) outer.entry c (bound_as.Insert places rows) result }
    ensures stays { Stays P.Pages.below P.Pages.map P.Pages.count P.Pages.failures result pages.old pages.new }
{
    listed_tables_are_found();
    let mut act = act;
    act.by_column = places_by_column(alloc, table, &places)?;
    act.places = places;
    let found = given_rows(alloc, pages, catalog, outer, rows)?;
    let items = inserted_items(alloc, found)?;
    Ok(Work::Table(table, act, items, None))
}

/// An UPDATE of a table's rows. (What `chosen_rows` refuses.)
fn update_rows<'a, P: Pages>(
    alloc: Global,
    pages: &mut P,
    catalog: &Catalog,
    outer: OuterRows<'_>,
    change: &Change,
    sets: Vec<(usize, Term)>,
    condition: Option<Term>,
    table: &'a Table,
    act: Act,
) -> R<Work<'a>>
    ensures found { IsTrue (P.Pages.tells (P.Pages.below pages.old))
        → IsTableAct (listed_in catalog.now) change.now table.now act
        → WorksAs (P.Pages.map pages.old) (P.Pages.limits (P.Pages.below pages.old)).page
        (listed_in catalog.now) outer.entry change.now (bound_as.Update sets condition) result }
    ensures stays { Stays P.Pages.below P.Pages.map P.Pages.count P.Pages.failures result pages.old pages.new }
{
    listed_tables_are_found();
    let mut act = act;
    act.sets = sets;
    let name = target_of(change);
    let found = chosen_rows(alloc, pages, catalog, name, outer, &condition)?;
    let items = updated_items(alloc, &found)?;
    let first = first_row(alloc, &found)?;
    Ok(Work::Table(table, act, items, first))
}

/// A DELETE of a table's rows. (What `chosen_rows` refuses.)
fn delete_rows<'a, P: Pages>(
    alloc: Global,
    pages: &mut P,
    catalog: &Catalog,
    outer: OuterRows<'_>,
    change: &Change,
    condition: Option<Term>,
    table: &'a Table,
    act: Act,
) -> R<Work<'a>>
    ensures found { IsTrue (P.Pages.tells (P.Pages.below pages.old))
        → IsTableAct (listed_in catalog.now) change.now table.now act
        → WorksAs (P.Pages.map pages.old) (P.Pages.limits (P.Pages.below pages.old)).page
        (listed_in catalog.now) outer.entry change.now (bound_as.Delete condition) result }
    ensures stays { Stays P.Pages.below P.Pages.map P.Pages.count P.Pages.failures result pages.old pages.new }
{
    listed_tables_are_found();
    let name = target_of(change);
    let found = chosen_rows(alloc, pages, catalog, name, outer, &condition)?;
    let items = deleted_items(alloc, &found)?;
    let first = first_row(alloc, &found)?;
    Ok(Work::Table(table, act, items, first))
}

/// A change of a table's rows. (What `given_rows` and `chosen_rows` refuse.)
fn table_work<'a, P: Pages>(
    alloc: Global,
    pages: &mut P,
    catalog: &Catalog,
    outer: OuterRows<'_>,
    change: &Change,
    bound: BoundChange,
    table: &'a Table,
    act: Act,
) -> R<Work<'a>>
    ensures found { IsTrue (P.Pages.tells (P.Pages.below pages.old))
        → IsTableAct (listed_in catalog.now) change.now table.now act
        → GivesAsMany bound → WorksAs (P.Pages.map pages.old) (P.Pages.limits (P.Pages.below pages.old)).page
        (listed_in catalog.now) outer.entry change.now bound result }
    ensures stays { Stays P.Pages.below P.Pages.map P.Pages.count P.Pages.failures result pages.old pages.new }
{
    match bound {
        BoundChange::Insert(places, rows) => {
            insert_rows(alloc, pages, catalog, outer, places, rows, table, act)
        }
        BoundChange::Update(sets, condition) => update_rows(
            alloc, pages, catalog, outer, change, sets, condition, table, act,
        ),
        BoundChange::Delete(condition) => {
            delete_rows(alloc, pages, catalog, outer, change, condition, table, act)
        }
    }
}

/// An INSERT into a view. (What `given_rows` refuses.)
fn insert_seen<'a, P: Pages>(
    alloc: Global,
    pages: &mut P,
    catalog: &Catalog,
    outer: OuterRows<'_>,
    places: Vec<usize>,
    rows: BoundRows,
    width: usize,
    act: Act,
) -> R<Work<'a>>
    ensures found { (c : meant_change.Change) → IsTrue (P.Pages.tells (P.Pages.below pages.old))
        → IsViewAct (listed_in catalog.now) c width act
        → 1 ≤ length act.before.items → WorksAs (P.Pages.map pages.old) (P.Pages.limits (P.Pages.below pages.old)).page
        (listed_in catalog.now) outer.entry c (bound_as.Insert places rows) result }
    ensures stays { Stays P.Pages.below P.Pages.map P.Pages.count P.Pages.failures result pages.old pages.new }
{
    listed_tables_are_found();
    listed_tables_are_known();
    let mut act = act;
    act.places = places;
    let found = given_rows(alloc, pages, catalog, outer, rows)?;
    let items = inserted_seen(alloc, found)?;
    Ok(Work::View(width, act, items))
}

/// An UPDATE of a view's rows. (What `chosen_rows` refuses.)
fn update_seen<'a, P: Pages>(
    alloc: Global,
    pages: &mut P,
    catalog: &Catalog,
    outer: OuterRows<'_>,
    change: &Change,
    sets: Vec<(usize, Term)>,
    condition: Option<Term>,
    width: usize,
    act: Act,
) -> R<Work<'a>>
    ensures found { IsTrue (P.Pages.tells (P.Pages.below pages.old))
        → IsViewAct (listed_in catalog.now) change.now width act
        → 1 ≤ length act.before.items → WorksAs (P.Pages.map pages.old) (P.Pages.limits (P.Pages.below pages.old)).page
        (listed_in catalog.now) outer.entry change.now (bound_as.Update sets condition) result }
    ensures stays { Stays P.Pages.below P.Pages.map P.Pages.count P.Pages.failures result pages.old pages.new }
{
    listed_tables_are_found();
    listed_tables_are_known();
    let mut act = act;
    act.sets = sets;
    let name = target_of(change);
    let found = chosen_rows(alloc, pages, catalog, name, outer, &condition)?;
    let items = updated_seen(alloc, found)?;
    Ok(Work::View(width, act, items))
}

/// A DELETE of a view's rows. (What `chosen_rows` refuses.)
fn delete_seen<'a, P: Pages>(
    alloc: Global,
    pages: &mut P,
    catalog: &Catalog,
    outer: OuterRows<'_>,
    change: &Change,
    condition: Option<Term>,
    width: usize,
    act: Act,
) -> R<Work<'a>>
    ensures found { IsTrue (P.Pages.tells (P.Pages.below pages.old))
        → IsViewAct (listed_in catalog.now) change.now width act
        → 1 ≤ length act.before.items → WorksAs (P.Pages.map pages.old) (P.Pages.limits (P.Pages.below pages.old)).page
        (listed_in catalog.now) outer.entry change.now (bound_as.Delete condition) result }
    ensures stays { Stays P.Pages.below P.Pages.map P.Pages.count P.Pages.failures result pages.old pages.new }
{
    listed_tables_are_found();
    listed_tables_are_known();
    let name = target_of(change);
    let found = chosen_rows(alloc, pages, catalog, name, outer, &condition)?;
    let items = deleted_seen(alloc, found)?;
    Ok(Work::View(width, act, items))
}

/// A change of a view's rows. (What `given_rows` and `chosen_rows` refuse; `ViewReadOnly` where no trigger stands in the change's place.)
fn view_work<'a, P: Pages>(
    alloc: Global,
    pages: &mut P,
    catalog: &Catalog,
    outer: OuterRows<'_>,
    change: &Change,
    bound: BoundChange,
    width: usize,
    act: Act,
) -> R<Work<'a>>
    ensures found { IsTrue (P.Pages.tells (P.Pages.below pages.old))
        → IsViewAct (listed_in catalog.now) change.now width act
        → WorksAs (P.Pages.map pages.old) (P.Pages.limits (P.Pages.below pages.old)).page
        (listed_in catalog.now) outer.entry change.now bound result }
    ensures stays { Stays P.Pages.below P.Pages.map P.Pages.count P.Pages.failures result pages.old pages.new }
{
    listed_tables_are_found();
    listed_tables_are_known();
    if act.before.is_empty() {
        return Err(Fault::ViewReadOnly);
    }
    match bound {
        BoundChange::Insert(places, rows) => {
            insert_seen(alloc, pages, catalog, outer, places, rows, width, act)
        }
        BoundChange::Update(sets, condition) => update_seen(
            alloc, pages, catalog, outer, change, sets, condition, width, act,
        ),
        BoundChange::Delete(condition) => {
            delete_seen(alloc, pages, catalog, outer, change, condition, width, act)
        }
    }
}

/// Finds all rows that a change is about whose names were looked up, and the triggers around them. (What `table_work` and `view_work` refuse.)
pub(crate) fn work_of<'a, P: Pages>(
    alloc: Global,
    pages: &mut P,
    catalog: &'a Catalog,
    outer: OuterRows<'_>,
    change: &Change,
    bound: BoundChange,
) -> R<Work<'a>>
    ensures found { IsTrue (P.Pages.tells (P.Pages.below pages.old))
        → ChangesAs (P.Pages.map pages.old) (P.Pages.limits (P.Pages.below pages.old)).page
        (listed_in catalog.now) outer.entry change.now bound result }
    ensures stays { Stays P.Pages.below P.Pages.map P.Pages.count P.Pages.failures result pages.old pages.new }
{
    listed_tables_are_found();
    listed_tables_are_known();
    let name = target_of(change);
    let source = bind_source(alloc, catalog, name)?;
    let table = catalog.table(name.as_str());
    let act = act_around(alloc, catalog, &source, change, table.is_some())?;
    match table {
        Some(table) => table_work(alloc, pages, catalog, outer, change, bound, table, act),
        None => {
            let width = source.columns.len();
            view_work(alloc, pages, catalog, outer, change, bound, width, act)
        }
    }
}
