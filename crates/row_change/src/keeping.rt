//! UPDATEs that leave the rowids and the values in the columns of indexes: no row is copied, and no index looks at them.

ghost use Rattle.std.specs.Prelude.{◌≡◌, ◌&&◌, IfErr, IfOk, IfSome, IsTrue, OnOk, false, true, length, map, not, slice_set, zip};
ghost use Rattle.std.specs.List.{list_all};
ghost use Rattle.sqlval.specs.Conversion.{converted};
ghost use Rattle.sqlval.specs.Fields.{value_of};
ghost use Rattle.record.specs.Record.{IsRecord};
ghost use Rattle.record.specs.Writing as writing;
ghost use Rattle.record.specs.Writing.{AreStorable};
ghost use Rattle.pages.specs.Calls.{Causes};
ghost use Rattle.tree_page.specs.Cells.{Pairwise};
ghost use Rattle.catalog.specs.Listed.{as_column};
ghost use Rattle.catalog.specs.Rows.{in_record, is_value};
ghost use Rattle.query_names.specs.Keys as key;
ghost use Rattle.query_names.specs.Readings.{values};
ghost use Rattle.query_terms.specs.Rows.{datum, row_at, seen};
ghost use Rattle.row_change.specs.Constraints as wanted;
ghost use Rattle.row_change.specs.Constraints.{set_values};
ghost use Rattle.row_change.specs.Keeping as law;
ghost use Rattle.row_change.specs.Keeping.{AreStoredAsGiven, IsChangeTo, IsKeptBy, KeepsAll, PutsKept, SetsKeptAsEach};
ghost use Rattle.row_change.specs.Setting.{rowid_left};

use crate::inserting::bytes_are_small;
use crate::setting::{env_at, names_place, places_meant, rowid_at};
use catalog::{Column, Index, Table};
use pages::WritePages;
use query_terms::{Datum, Env, SourceRow, Term, evaluate};
use record::{Fields, encode_fields};
use smallvec::SmallVec;
use sqlval::{Affinity, Fault, Field, Many, R};
use std::alloc::Global;
use std::array::from_ref;
use tree_table::{RowChange, change_rows};

/// Whether SET names a column of the index.
fn names_column(index: &Index, sets: &[(usize, Term)]) -> bool
    ensures { result ≡ law.names_column sets.now index.now }
{
    index
        .columns
        .as_slice()
        .iter()
        .any(|column| names_place(sets, column.place))
}

/// Whether SET names a column of one of the table's indexes.
fn names_key(table: &Table, sets: &[(usize, Term)]) -> bool
    ensures { result ≡ law.names_key table.now sets.now }
{
    table
        .indexes
        .as_slice()
        .iter()
        .any(|index| names_column(index, sets))
}

/// Whether a value stays as it is under an affinity, as is seen by its kind.
fn stays_under(affinity: Affinity, field: Field<'_>) -> bool
    ensures { IsTrue result → converted affinity (value_of field.entry) ≡ Ok (value_of field.entry) }
{
    match field {
        Field::Null | Field::Blob(_) => true,
        Field::Int(_) => !matches!(affinity, Affinity::Text),
        Field::Text(_) => matches!(affinity, Affinity::Text | Affinity::Blob),
    }
}

/// Whether it is NULL.
fn is_null(field: Field<'_>) -> bool
    ensures { result ≡ key.is_null (value_of field.entry) }
{
    matches!(field, Field::Null)
}

/// Whether it has at most 1,000,000 bytes, if it is a text or a blob.
fn is_short(field: Field<'_>) -> bool
    ensures { result ≡ wanted.is_short (value_of field.entry) }
{
    match field {
        Field::Text(text) => text.len() <= 1_000_000,
        Field::Blob(bytes) => bytes.len() <= 1_000_000,
        _ => true,
    }
}

/// Whether a column stores a value as it is, which isn't NULL where it refuses that.
fn stores_as_given(column: &Column, field: Field<'_>) -> bool
    ensures stored { IsTrue result → converted column.now.affinity (value_of field.entry) ≡ Ok (value_of field.entry) }
    ensures filled { IsTrue result → not (column.now.is_filled && key.is_null (value_of field.entry)) ≡ true }
    ensures short { IsTrue result → wanted.is_short (value_of field.entry) ≡ true }
{
    stays_under(column.affinity, field) && !(column.is_filled && is_null(field)) && is_short(field)
}

/// Whether each column stores its value as it is, and a record can hold the values.
fn store_as_given(columns: &[Column], fields: &[Field<'_>]) -> bool
    ensures { IsTrue result → AreStoredAsGiven (map as_column columns.now) (map value_of fields.now) }
{
    if columns.len() != fields.len() || fields.len() > 1000 {
        return false;
    }
    'columns: for index in 0..columns.len() {
        if !stores_as_given(&columns[index], fields[index]) {
            return false;
        }
    }
    true
}

/// Whether the rowid's own column, if there is one, has this rowid.
fn has_own(own: Option<usize>, rowid: i64, fields: &[Field<'_>]) -> bool
    ensures { IsTrue result → rowid_left own rowid (map value_of fields.now) ≡ Ok rowid }
{
    let Some(place) = own else {
        return true;
    };
    match fields.get(place) {
        Some(Field::Int(now)) => *now == rowid,
        _ => false,
    }
}

/// Puts NULL at the place of the rowid's own column, if there is one.
fn hide_own(fields: &mut Fields<'_>, own: Option<usize>)
    ensures { map value_of fields.new.items ≡ in_record own (map value_of fields.old.items) }
{
    if let Some(place) = own
        && place < fields.len()
    {
        fields[place] = Field::Null;
    }
}

/// The record of these values. (`Memory`.)
fn record_of(alloc: Global, fields: &[Field<'_>]) -> R<Vec<u8>>
    requires { AreStorable (map value_of fields.now) }
    ensures is { IfOk result (λ payload. IsRecord payload.items (map value_of fields.now)) }
    ensures exact { IfOk result (λ payload. payload.items ≡ writing.record_of (map value_of fields.now)) }
    ensures fit { OnOk result (list_all is_value (map value_of fields.now) ≡ true) }
{
    let payload = encode_fields(alloc, fields)?;
    bytes_are_small(&payload);
    Ok(payload)
}

/// The change of the row of a rowid to these values, where the columns store them as they are. (`Memory`.)
fn change_to(
    alloc: Global,
    table: &Table,
    rowid: i64,
    fields: &mut Fields<'_>,
) -> R<Option<RowChange>>
    requires { length table.now.checks ≡ 0 }
    ensures { IfOk result (λ found. IfSome found (IsChangeTo table.now (rowid, map value_of fields.old.items))) }
{
    let own = table.own_column();
    if !store_as_given(table.columns.as_slice(), fields) || !has_own(own, rowid, fields) {
        return Ok(None);
    }
    hide_own(fields, own);
    let payload = Some(record_of(alloc, fields)?);
    Ok(Some(RowChange { rowid, payload }))
}

/// Puts the values of SET's expressions in place of those that are given. (What the expressions refuse, in order.)
fn give_values<'a>(
    alloc: Global,
    sets: &'a [(usize, Term)],
    env: Env<'a>,
    given: &mut Vec<Datum<'a>>,
) -> R<()>
    ensures { OnOk result (values (seen env.entry) (map (λ set. set.1) sets.now) ≡ Ok (map datum given.new.items)) }
{
    given.clear();
    'sets: for (_, term) in sets {
        given.push(evaluate(alloc, term, env)?)?;
    }
    Ok(())
}

/// Puts a value at its place, if there is one.
fn put_field<'a>(fields: &mut Fields<'a>, place: usize, field: Field<'a>)
    ensures { map value_of fields.new.items ≡ slice_set (map value_of fields.old.items) place (value_of field.entry) }
{
    if place < fields.len() {
        fields[place] = field;
    }
}

/// Puts the values of SET at their places, one after another.
fn put_given<'a>(fields: &mut Fields<'a>, sets: &[(usize, Term)], given: &'a [Datum<'a>])
    ensures { map value_of fields.new.items
        ≡ set_values (map value_of fields.old.items) (zip (map (λ set. set.0) sets.now) (map datum given.now)) }
{
    let most = sets.len().min(given.len());
    'sets: for index in 0..most {
        put_field(fields, sets[index].0, given[index].as_field());
    }
}

/// The change of a row, of this rowid, to what it is with the values of SET at their places, where the columns store them as they are. (`Memory`.)
fn change_with<'a>(
    alloc: Global,
    table: &Table,
    sets: &[(usize, Term)],
    row: &'a SourceRow,
    rowid: i64,
    given: &'a [Datum<'a>],
) -> R<Option<RowChange>>
    requires { length table.now.checks ≡ 0 }
    ensures { IfOk result (λ found. IfSome found (IsChangeTo table.now (
      rowid,
      set_values row.now.values
          (zip (map (λ set. set.0) sets.now) (map datum given.now)),
    ))) }
{
    let mut fields = SmallVec::new(alloc);
    row.read_fields(&mut fields)?;
    put_given(&mut fields, sets, given);
    change_to(alloc, table, rowid, &mut fields)
}

/// The change of the row at a place, where it is kept. `given` is memory for the values of SET. (What SET's expressions refuse; `Memory`.)
fn kept_change<'a>(
    alloc: Global,
    table: &Table,
    sets: &'a [(usize, Term)],
    rows: &'a Many<SourceRow>,
    place: &'a usize,
    given: &mut Vec<Datum<'a>>,
) -> R<Option<RowChange>>
    requires free { length table.now.checks ≡ 0 }
    requires apart { law.names_key table.now sets.now ≡ false }
    ensures { IfOk result (λ found. IfSome found (IsKeptBy table.now sets.now (row_at rows.now place.now))) }
{
    let Some(row) = rows.as_slice().get(*place) else {
        return Ok(None);
    };
    let env = env_at(rows, from_ref(place).as_slice());
    give_values(alloc, sets, env, given)?;
    let rowid = rowid_at(rows, *place);
    let values = given.as_slice();
    change_with(alloc, table, sets, row, rowid, values)
}

/// The changes of the rows at these places, where each is kept. (What SET's expressions refuse; `Memory`.)
fn changes_at(
    alloc: Global,
    table: &Table,
    sets: &[(usize, Term)],
    rows: &Many<SourceRow>,
    places: &[usize],
) -> R<Option<Vec<RowChange>>>
    requires free { length table.now.checks ≡ 0 }
    requires apart { law.names_key table.now sets.now ≡ false }
    ensures { IfOk result (λ found. IfSome found (λ changes.
        Pairwise (IsKeptBy table.now sets.now) (map (row_at rows.now) places.now) changes.items)) }
{
    let mut changes = Vec::with_capacity(alloc, places.len())?;
    let mut given = Vec::with_capacity(alloc, sets.len())?;
    'places: for place in places {
        let Some(change) = kept_change(alloc, table, sets, rows, place, &mut given)? else {
            return Ok(None);
        };
        changes.push(change)?;
    }
    Ok(Some(changes))
}

/// The changes of the rows that are meant, where each is kept. (What the condition and SET's expressions refuse; `Memory`.)
fn changes_meant(
    alloc: Global,
    table: &Table,
    sets: &[(usize, Term)],
    rows: &Many<SourceRow>,
    condition: &Option<Term>,
) -> R<Option<Vec<RowChange>>>
    ensures { IfOk result (λ found. IfSome found (λ changes.
        KeepsAll table.now sets.now condition.now rows.now changes.items)) }
{
    if names_key(table, sets) || !table.checks.as_slice().is_empty() {
        return Ok(None);
    }
    let places = places_meant(alloc, rows, condition)?;
    changes_at(alloc, table, sets, rows, &places)
}

/// The changes by which SET's values come to the rows of a table that are meant, where SET names no column of an index, and leaves the rowids, the
/// table has no CHECK, and its columns store the values as they are. None where that isn't so, or where the condition or an expression refuses.
/// The rows given are enough of the table's for the condition. (`Memory`.)
pub fn kept_changes(
    alloc: Global,
    table: &Table,
    sets: &[(usize, Term)],
    rows: &Many<SourceRow>,
    condition: &Option<Term>,
) -> R<Option<Vec<RowChange>>>
    ensures kept { IfOk result (λ found. IfSome found (λ changes.
        KeepsAll table.now sets.now condition.now rows.now changes.items)) }
    ensures memory { IfErr result (λ fault. fault ≡ Fault.Memory) }
{
    match changes_meant(alloc, table, sets, rows, condition) {
        Ok(changes) => Ok(changes),
        Err(fault) => {
            let is_memory = matches!(&fault, Fault::Memory);
            drop(fault);
            if is_memory {
                Err(Fault::Memory)
            } else {
                Ok(None)
            }
        }
    }
}

/// Puts the records of rows that are set and kept in their places in the table's tree. (What `change_rows` refuses; then some may be there.)
pub fn put_changes<P: WritePages>(
    alloc: Global,
    pages: &mut P,
    table: &Table,
    changes: &[RowChange],
) -> R<()>
    ensures put { IsTrue (P.Pages.tells (P.Pages.below pages.old))
        → PutsKept (P.Pages.map pages.old) (P.Pages.map pages.new)
        (P.Pages.limits (P.Pages.below pages.old)).page
        table.now changes.now result }
    ensures kept { P.Pages.below pages.new ≡ P.Pages.below pages.old }
    ensures causes { Causes result (P.Pages.failures pages.old) (P.Pages.failures pages.new)
        (P.Pages.count pages.new ≡ (P.Pages.limits (P.Pages.below pages.new)).most) }
{
    change_rows(alloc, pages, table.root, changes)
}

/// Where rows are kept and each of them was alone, rows are set as they become.
pub fn kept_rows_stay_alone()
    ensures { SetsKeptAsEach }
{}
