//! One row of a table: what its triggers see of it before and after, and the change itself.

ghost use Rattle.std.specs.Prelude.{◌≡◌, ◌==◌, map, option_map, length, Option, Some, IfErr, IsTrue, List, ℕ};
ghost use Rattle.std.specs.Cmp.Lexicographic.{pointwise};
ghost use Rattle.sqlval.specs.Faults.{IsNotDiskFault, IsOrMemory};
ghost use Rattle.sqlval.specs.Sameness as same;
ghost use Rattle.sqlval.specs.declared.value.Value.{Value as Stored};
ghost use Rattle.pages.specs.Calls.{Causes, Stays};
ghost use Rattle.pages.specs.Map.{PageMap};
ghost use Rattle.sql_syntax.specs.declared.change.Change.{Change as Text};
ghost use Rattle.catalog.specs.Listed.{Listed, listed_in, own_column};
ghost use Rattle.catalog.specs.declared.tables.TableRow.{TableRow as Kept};
ghost use Rattle.query_terms.specs.Values as meant_row;
ghost use Rattle.row_change.specs.Constraints as stored;
ghost use Rattle.row_change.specs.Inserting as inserting;
ghost use Rattle.row_change.specs.NewRows.{row_of as pair_of};
ghost use Rattle.row_change.specs.RowChanges.{Firing, same_row};
ghost use Rattle.executor_programs.specs.Begun.{Begins, BeginsSet, ExpectsUnchanged, FindsNow, Finishes, FinishesDelete, FinishesInsert, FinishesUpdate, IsBegunAt, IsSeenAt, as_seen, both_rows as rows_of_both, given_in, old_in, shown};
ghost use Rattle.executor_programs.specs.declared.acts.Act.{Act as Doing};
ghost use Rattle.executor_programs.specs.declared.acts.TableItem.TheVariants as work;
ghost use Rattle.executor_programs.specs.declared.outer.OuterRows.{OuterRows as Outside};

use crate::acts::{Act, TableItem};
use crate::outer::{OuterRows, only_row};
use crate::values::{defaults_of, put_given, values_set};
use catalog::{Catalog, Table, TableRow, listed_tables_are_found};
use executor::{
    insert_row, row_at, set_row, source_row, stored_values_stay, take_row, value_copies,
};
use pages::{Pages, WritePages};
use query_terms::SourceRow;
use row_change::stored_row;
use sqlval::{Fault, Many, R, Row, Value};
use std::alloc::Global;

/// A row that is about to be changed.
#[derive(Drop)]
pub enum Begun {
    /// NEW: its rowid, as far as it is given, and its values as the columns store them.
    Insert(Value, Vec<Value>),
    /// OLD, and NEW.
    Update(TableRow, Value, Vec<Value>),
    /// OLD.
    Delete(TableRow),
}

/// A row before its change, or after it: then with the row as it is, if it is there.
#[derive(Drop)]
pub enum AtRow<'a> {
    Before(&'a Begun),
    After(&'a Begun, Option<TableRow>),
}

/// The value of the rowid's own column, NULL where there is none. (`Memory` alone.)
fn own_value(alloc: Global, table: &Table, values: &[Value]) -> R<Value>
    ensures { IsOrMemory (λ value. value ≡ inserting.own_value (own_column table.now) values.now) result }
{
    match table.own_column() {
        Some(place) if place < values.len() => Ok(values[place].copy(alloc)?),
        _ => Ok(Value::Null),
    }
}

/// What NEW shows of the rowid of a row that is updated, before it is settled. (`Memory` alone.)
fn shown_rowid(alloc: Global, table: &Table, rowid: i64, values: &[Value]) -> R<Value>
    ensures { IsOrMemory (λ value. value ≡ shown (own_column table.now) rowid values.now) result }
{
    match table.own_column() {
        Some(_) => own_value(alloc, table, values),
        None => Ok(Value::Int(rowid)),
    }
}

/// A row of an INSERT before its triggers run. (`RealRefused`, `Memory`.)
fn begin_insert(alloc: Global, table: &Table, act: &Act, given: &Row) -> R<Option<Begun>>
    ensures begun { (pages : PageMap) (size : ℕ) (l : Listed) (o : Outside) (c : Text) (known : Option Kept)
        → Begins pages size l o c table.now act.now (work.Insert given.now) known result }
    ensures not_disk { IfErr result (λ fault. IsNotDiskFault fault) }
{
    listed_tables_are_found();
    let columns = table.columns.as_slice();
    let mut values = defaults_of(alloc, columns)?;
    put_given(alloc, &mut values, &act.places, given.as_slice())?;
    let kept = stored_row(alloc, columns, &values)?;
    let rowid = own_value(alloc, table, &kept)?;
    Ok(Some(Begun::Insert(rowid, kept)))
}

/// A row of an UPDATE before its triggers run. (What SET's expressions refuse; `RealRefused`.)
fn begin_set(
    alloc: Global,
    outer: OuterRows<'_>,
    table: &Table,
    act: &Act,
    old: TableRow,
) -> R<Option<Begun>>
    ensures begun { BeginsSet outer.entry table.now act.now old result }
    ensures not_disk { IfErr result (λ fault. IsNotDiskFault fault) }
{
    stored_values_stay();
    let row = source_row(alloc, &old)?;
    let was = value_copies(alloc, &old.values)?;
    let values = values_set(alloc, outer, &act.sets, row, was)?;
    let kept = stored_row(alloc, table.columns.as_slice(), &values)?;
    let rowid = shown_rowid(alloc, table, old.rowid, &kept)?;
    Ok(Some(Begun::Update(old, rowid, kept)))
}

/// The row of a rowid, if there is one: it isn't read where it is known. (What `row_at` refuses.)
fn row_now<P: Pages>(
    alloc: Global,
    pages: &mut P,
    table: &Table,
    rowid: i64,
    known: Option<TableRow>,
) -> R<Option<TableRow>>
    ensures found { IsTrue (P.Pages.tells (P.Pages.below pages.old))
        → FindsNow (P.Pages.map pages.old) (P.Pages.limits (P.Pages.below pages.old)).page table.now rowid known result }
    ensures stays { Stays P.Pages.below P.Pages.map P.Pages.count P.Pages.failures result pages.old pages.new }
{
    if let Some(row) = known {
        if row.rowid == rowid {
            return Ok(Some(row));
        }
    }
    row_at(alloc, pages, table, rowid)
}

/// The row of a rowid before its triggers run, where it is there. (What `row_now` and `begin_set` refuse.)
fn begin_update<P: Pages>(
    alloc: Global,
    pages: &mut P,
    outer: OuterRows<'_>,
    table: &Table,
    act: &Act,
    rowid: i64,
    known: Option<TableRow>,
) -> R<Option<Begun>>
    ensures begun { (l : Listed) (c : Text) → IsTrue (P.Pages.tells (P.Pages.below pages.old))
        → Begins (P.Pages.map pages.old) (P.Pages.limits (P.Pages.below pages.old)).page
        l outer.entry c table.now act.now (work.Update rowid) known result }
    ensures stays { Stays P.Pages.below P.Pages.map P.Pages.count P.Pages.failures result pages.old pages.new }
{
    listed_tables_are_found();
    match row_now(alloc, pages, table, rowid, known)? {
        Some(old) => begin_set(alloc, outer, table, act, old),
        None => Ok(None),
    }
}

/// The same of a DELETE. (What `row_now` refuses.)
fn begin_delete<P: Pages>(
    alloc: Global,
    pages: &mut P,
    table: &Table,
    rowid: i64,
    known: Option<TableRow>,
) -> R<Option<Begun>>
    ensures begun { (l : Listed) (o : Outside) (c : Text) (act : Doing) → IsTrue (P.Pages.tells (P.Pages.below pages.old))
        → Begins (P.Pages.map pages.old) (P.Pages.limits (P.Pages.below pages.old)).page
        l o c table.now act (work.Delete rowid) known result }
    ensures stays { Stays P.Pages.below P.Pages.map P.Pages.count P.Pages.failures result pages.old pages.new }
{
    listed_tables_are_found();
    match row_now(alloc, pages, table, rowid, known)? {
        Some(old) => Ok(Some(Begun::Delete(old))),
        None => Ok(None),
    }
}

/// A row before its triggers run; nothing where it is gone. `known` is the row as it is, where that is known. (What `begin_insert`,
/// `begin_update` and `begin_delete` refuse.)
pub fn begin<P: Pages>(
    alloc: Global,
    pages: &mut P,
    catalog: &Catalog,
    outer: OuterRows<'_>,
    table: &Table,
    act: &Act,
    item: &TableItem,
    known: Option<TableRow>,
) -> R<Option<Begun>>
    ensures begun { (c : Text) → IsTrue (P.Pages.tells (P.Pages.below pages.old))
        → Begins (P.Pages.map pages.old) (P.Pages.limits (P.Pages.below pages.old)).page
        (listed_in catalog.now) outer.entry c table.now act.now item.now known result }
    ensures stays { Stays P.Pages.below P.Pages.map P.Pages.count P.Pages.failures result pages.old pages.new }
{
    match item {
        TableItem::Insert(given) => begin_insert(alloc, table, act, given),
        TableItem::Update(rowid) => { begin_update(alloc, pages, outer, table, act, *rowid, known) }
        TableItem::Delete(rowid) => begin_delete(alloc, pages, table, *rowid, known),
    }
}

/// Lists of one row each, NEW before OLD. (`Memory` alone.)
pub(crate) fn both_rows(
    alloc: Global,
    new: Option<SourceRow>,
    old: Option<SourceRow>,
) -> R<Vec<Many<SourceRow>>>
    ensures { IsOrMemory (λ rows. rows.items ≡ rows_of_both new old) result }
{
    let mut rows = Vec::new(alloc);
    if let Some(row) = new {
        rows.push(only_row(alloc, row)?)?;
    }
    if let Some(row) = old {
        rows.push(only_row(alloc, row)?)?;
    }
    Ok(rows)
}

/// NEW, before its rowid is settled. (`Memory` alone.)
fn new_row(alloc: Global, rowid: &Value, values: &[Value]) -> R<SourceRow>
    ensures { IsOrMemory (λ row. row ≡ record { rowid = rowid.now; values = values.now }) result }
{
    let values = Many::from_vec(value_copies(alloc, values)?);
    Ok(SourceRow::made(rowid.copy(alloc)?, values))
}

/// NEW and OLD before the change. (`Memory` alone.)
fn rows_before(alloc: Global, begun: &Begun) -> R<Vec<Many<SourceRow>>>
    ensures { (f : Firing) → IsBegunAt begun.now f → IsOrMemory (λ rows. rows.items ≡ rows_of_both f.new f.old) result }
{
    match begun {
        Begun::Insert(rowid, values) => {
            both_rows(alloc, Some(new_row(alloc, rowid, values)?), None)
        }
        Begun::Update(old, rowid, values) => {
            let new = new_row(alloc, rowid, values)?;
            both_rows(alloc, Some(new), Some(source_row(alloc, old)?))
        }
        Begun::Delete(old) => both_rows(alloc, None, Some(source_row(alloc, old)?)),
    }
}

/// A row of a table as a source's, with the values that it had.
fn made_row(row: TableRow) -> SourceRow
    ensures { result ≡ stored.row_of row.rowid row.values.items }
{
    SourceRow::made(Value::Int(row.rowid), Many::from_vec(row.values))
}

/// The row as it is then; none after a DELETE.
fn new_after(now: Option<TableRow>) -> Option<SourceRow>
    ensures { result ≡ option_map as_seen now }
{
    match now {
        Some(row) => Some(made_row(row)),
        None => None,
    }
}

/// The row as it was; none of an INSERT. (`Memory` alone.)
fn old_row(alloc: Global, begun: &Begun) -> R<Option<SourceRow>>
    ensures { IsOrMemory (λ row. row ≡ option_map as_seen (old_in begun.now)) result }
{
    match begun {
        Begun::Insert(_, _) => Ok(None),
        Begun::Update(old, _, _) | Begun::Delete(old) => Ok(Some(source_row(alloc, old)?)),
    }
}

/// NEW and OLD after the change. (`Memory` alone.)
fn rows_after(alloc: Global, begun: &Begun, now: Option<TableRow>) -> R<Vec<Many<SourceRow>>>
    ensures { IsOrMemory (λ rows. rows.items ≡ rows_of_both (option_map as_seen now) (option_map as_seen (old_in begun.now))) result }
{
    let new = new_after(now);
    let old = old_row(alloc, begun)?;
    both_rows(alloc, new, old)
}

/// NEW and OLD, as the triggers at an event see them. (`Memory` alone.)
pub fn rows_at(alloc: Global, event: AtRow<'_>) -> R<Vec<Many<SourceRow>>>
    ensures { (f : Firing) → IsSeenAt event.entry f → IsOrMemory (λ rows. rows.items ≡ rows_of_both f.new f.old) result }
{
    match event {
        AtRow::Before(begun) => rows_before(alloc, begun),
        AtRow::After(begun, now) => rows_after(alloc, begun, now),
    }
}

/// Whether both are one value, by kind and bytes.
fn same_value(left: &Value, right: &Value) -> bool
    ensures { result ≡ same.is_same_value left.now right.now }
{
    match (left, right) {
        (Value::Null, Value::Null) => true,
        (Value::Int(number), Value::Int(other)) => *number == *other,
        (Value::Text(text), Value::Text(other)) => {
            text.as_str().as_bytes() == other.as_str().as_bytes()
        }
        (Value::Blob(bytes), Value::Blob(other)) => bytes.as_slice() == other.as_slice(),
        _ => false,
    }
}

/// Whether the values are the same, one after another.
fn same_values(left: &[Value], right: &[Value]) -> bool
    ensures { result ≡ pointwise same.is_same_value left.now right.now }
{
    let mut first = left;
    let mut second = right;
    'pairs: loop {
        let Some((x, xs)) = first.split_first() else {
            return second.is_empty();
        };
        let Some((y, ys)) = second.split_first() else {
            return false;
        };
        if !same_value(x, y) {
            return false;
        }
        first = xs;
        second = ys;
    }
}

/// Whether the row is there, with the values that it had.
fn is_as_it_was(now: &Option<TableRow>, old: &TableRow) -> bool
    ensures { result ≡ same_row (option_map (λ row. row.values.items) now.now) old.now.values.items }
{
    match now {
        Some(now) => same_values(&now.values, &old.values),
        None => false,
    }
}

/// That the row is as it was before its triggers ran; it is where none did. (`RowChangedBefore`, and what `row_at` refuses.)
fn expect_unchanged<P: Pages>(
    alloc: Global,
    pages: &mut P,
    table: &Table,
    old: &TableRow,
    is_alone: bool,
) -> R<()>
    ensures expected { IsTrue (P.Pages.tells (P.Pages.below pages.old))
        → ExpectsUnchanged (P.Pages.map pages.old) (P.Pages.limits (P.Pages.below pages.old)).page
        table.now is_alone (pair_of old.now) result }
    ensures stays { Stays P.Pages.below P.Pages.map P.Pages.count P.Pages.failures result pages.old pages.new }
{
    if is_alone {
        return Ok(());
    }
    let now = row_at(alloc, pages, table, old.rowid)?;
    if !is_as_it_was(&now, old) {
        return Err(Fault::RowChangedBefore);
    }
    Ok(())
}

/// Inserts the row that is given. (What `insert_row` refuses.)
fn finish_insert<P: WritePages>(
    alloc: Global,
    pages: &mut P,
    table: &Table,
    act: &Act,
    given: &[Value],
) -> R<Option<TableRow>>
    ensures finished { IsTrue (P.Pages.tells (P.Pages.below pages.old))
        → FinishesInsert (P.Pages.map pages.old) (P.Pages.map pages.new)
        (P.Pages.limits (P.Pages.below pages.old)).page table.now act.now given.now result }
    ensures kept { P.Pages.below pages.new ≡ P.Pages.below pages.old }
    ensures causes { Causes result (P.Pages.failures pages.old) (P.Pages.failures pages.new)
        (P.Pages.count pages.new ≡ (P.Pages.limits (P.Pages.below pages.new)).most) }
{
    listed_tables_are_found();
    let row = insert_row(alloc, pages, table, &act.by_column, given)?;
    Ok(Some(row))
}

/// Gives the row the values that SET makes of it. (What `expect_unchanged` and `set_row` refuse.)
fn finish_update<P: WritePages>(
    alloc: Global,
    pages: &mut P,
    table: &Table,
    old: &TableRow,
    values: &[Value],
    is_alone: bool,
) -> R<Option<TableRow>>
    ensures finished { IsTrue (P.Pages.tells (P.Pages.below pages.old))
        → FinishesUpdate (P.Pages.map pages.old) (P.Pages.map pages.new)
        (P.Pages.limits (P.Pages.below pages.old)).page table.now old.now values.now is_alone result }
    ensures kept { P.Pages.below pages.new ≡ P.Pages.below pages.old }
    ensures causes { Causes result (P.Pages.failures pages.old) (P.Pages.failures pages.new)
        (P.Pages.count pages.new ≡ (P.Pages.limits (P.Pages.below pages.new)).most) }
{
    listed_tables_are_found();
    expect_unchanged(alloc, pages, table, old, is_alone)?;
    let row = set_row(alloc, pages, table, old, values)?;
    Ok(Some(row))
}

/// Takes the row out. (What `expect_unchanged` and `take_row` refuse.)
fn finish_delete<P: WritePages>(
    alloc: Global,
    pages: &mut P,
    table: &Table,
    old: &TableRow,
    is_alone: bool,
) -> R<Option<TableRow>>
    ensures finished { IsTrue (P.Pages.tells (P.Pages.below pages.old))
        → FinishesDelete (P.Pages.map pages.old) (P.Pages.map pages.new)
        (P.Pages.limits (P.Pages.below pages.old)).page table.now old.now is_alone result }
    ensures kept { P.Pages.below pages.new ≡ P.Pages.below pages.old }
    ensures causes { Causes result (P.Pages.failures pages.old) (P.Pages.failures pages.new)
        (P.Pages.count pages.new ≡ (P.Pages.limits (P.Pages.below pages.new)).most) }
{
    listed_tables_are_found();
    expect_unchanged(alloc, pages, table, old, is_alone)?;
    take_row(alloc, pages, table, old)?;
    Ok(None)
}

/// The values that an INSERT gives; none of another change.
fn given_of(item: &TableItem) -> &[Value]
    ensures { result.now ≡ given_in item.now }
{
    match item {
        TableItem::Insert(given) => given.as_slice(),
        _ => &[],
    }
}

/// Makes the change of a row, and answers the row as it is then, none after a DELETE. Where no trigger runs before, it is as it was begun.
/// (`RowChangedBefore`, and what `insert_row`, `set_row` and `take_row` refuse.)
pub fn finish<P: WritePages>(
    alloc: Global,
    pages: &mut P,
    catalog: &Catalog,
    table: &Table,
    act: &Act,
    item: &TableItem,
    begun: &Begun,
) -> R<Option<TableRow>>
    ensures finished { (c : Text) → IsTrue (P.Pages.tells (P.Pages.below pages.old))
        → Finishes (P.Pages.map pages.old) (P.Pages.map pages.new)
        (P.Pages.limits (P.Pages.below pages.old)).page
        (listed_in catalog.now) c table.now act.now item.now begun.now
        (length act.now.before.items == 0) result }
    ensures kept { P.Pages.below pages.new ≡ P.Pages.below pages.old }
    ensures causes { Causes result (P.Pages.failures pages.old) (P.Pages.failures pages.new)
        (P.Pages.count pages.new ≡ (P.Pages.limits (P.Pages.below pages.new)).most) }
{
    let is_alone = act.before.is_empty();
    match begun {
        Begun::Insert(_, _) => finish_insert(alloc, pages, table, act, given_of(item)),
        Begun::Update(old, _, values) => {
            finish_update(alloc, pages, table, old, values, is_alone)
        }
        Begun::Delete(old) => finish_delete(alloc, pages, table, old, is_alone),
    }
}
