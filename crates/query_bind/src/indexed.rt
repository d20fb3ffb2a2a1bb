//! CREATE INDEX, whose names are looked up.

ghost use Rattle.std.specs.Prelude.{◌≡◌, ◌⊎◌, [], false, map, IfErr, IfOk};
ghost use Rattle.std.specs.List.{list_any};
ghost use Rattle.sqlval.specs.Faults.{IsNotDiskFault};
ghost use Rattle.sqlval.specs.Names.{is_same_name};
ghost use Rattle.sqlval.specs.Refusals.{refusal_of};
ghost use Rattle.catalog.specs.Listed.{as_column, listed_in, with_rows, tables_of};
ghost use Rattle.query_names.specs.Bound.{AreOnce, is_twice_named, source_seen};
ghost use Rattle.query_names.specs.Checked.{known_all};
ghost use Rattle.query_names.specs.Named.{Names, NamesBy};
ghost use Rattle.query_names.specs.Schema.{resolve_index_column};
ghost use Rattle.query_names.specs.Scopes.{is_doubled, place_of};
ghost use Rattle.query_names.specs.Tables as meant;
ghost use Rattle.query_bind.specs.Indexed.{IsIndexOn, IsIndexRefusal, MakesListedIndex, RefusesIndexAsDefined, collation_written, key_of, names_in};

use catalog::{Catalog, Column, IndexColumn, Table, is_reserved, listed_tables_are_found};
use query_names::{collation_named, find_table, missing};
use sql_syntax::{IndexColumn as Written, IndexDefinition};
use sqlval::{Collation, Fault, Many, Misuse, Name, Object, R};
use std::alloc::Global;

/// A CREATE INDEX whose names are looked up.
#[derive(Drop)]
pub struct BoundIndex<'a> {
    pub table: &'a Table,
    pub columns: Many<IndexColumn>,
}

/// The place of a column in a table that is known by this name. (`NoSuch`.)
pub(crate) fn place_in(alloc: Global, as_name: &Name, table: &Table, name: &Name) -> R<usize>
    ensures place { is_twice_named table.now.columns ≡ false
        → Names (place_of (source_seen as_name.now table.now) name.now) result }
    ensures not_disk { IfErr result (λ fault. IsNotDiskFault fault) }
{
    match table.place_of(name.as_str()) {
        Some(place) => Ok(place),
        None => Err(missing(alloc, Object::Column, name)),
    }
}

/// The collation of the column at a place, BINARY past the last.
fn collation_at(columns: &[Column], place: usize) -> Collation
    ensures { result ≡ meant.collation_at (map as_column columns.now) place }
{
    match columns.get(place) {
        Some(column) => column.collation,
        None => Collation::Binary,
    }
}

/// The collation that is written, or that of the table's column at the place. (`NoSuch`.)
fn collation_of(alloc: Global, table: &Table, place: usize, written: &Option<Name>) -> R<Collation>
    ensures collation { Names (collation_written table.now.columns place written.now) result }
    ensures not_disk { IfErr result (λ fault. IsNotDiskFault fault) }
{
    match written {
        Some(name) => collation_named(alloc, name),
        None => Ok(collation_at(table.columns.as_slice(), place)),
    }
}

/// A column of an index. (What `place_in` and `collation_of` refuse.)
fn index_column(alloc: Global, as_name: &Name, table: &Table, written: &Written) -> R<IndexColumn>
    ensures column { is_twice_named table.now.columns ≡ false
        → NamesBy key_of (resolve_index_column as_name.now (with_rows table.now []) written.now) result }
    ensures not_disk { IfErr result (λ fault. IsNotDiskFault fault) }
{
    let place = place_in(alloc, as_name, table, &written.name)?;
    let collation = collation_of(alloc, table, place, &written.collation)?;
    Ok(IndexColumn { place, collation })
}

/// The columns of an index. (What `index_column` refuses.)
fn index_columns(
    alloc: Global,
    as_name: &Name,
    table: &Table,
    written: &[Written],
) -> R<Vec<IndexColumn>>
    ensures columns { is_twice_named table.now.columns ≡ false
        → NamesBy (λ columns. map key_of columns.items)
        (known_all (map (resolve_index_column as_name.now (with_rows table.now [])) written.now)) result }
    ensures not_disk { IfErr result (λ fault. IsNotDiskFault fault) }
{
    let mut columns = Vec::new(alloc);
    'columns: for column in written {
        columns.push(index_column(alloc, as_name, table, column)?)?;
    }
    Ok(columns)
}

/// Whether one of these columns is of this name.
fn is_column(columns: &[Written], name: &Name) -> bool
    ensures { result ≡ list_any (λ c. is_same_name name.now c.name) columns.now }
{
    columns
        .iter()
        .any(|other| name.is_same(other.name.as_str()))
}

/// Whether this name is that of one of these columns.
fn has_column(columns: &[Written], name: &Name) -> bool
    ensures { result ≡ list_any (is_same_name name.now) (names_in columns.now) }
{
    is_column(columns, name)
}

/// Whether two of these columns have one name.
fn has_doubled(columns: &[Written]) -> bool
    ensures { result ≡ is_doubled (names_in columns.now) }
{
    let mut rest = columns;
    'columns: while let [column, after @ ..] = rest {
        if has_column(after, &column.name) {
            return true;
        }
        rest = after;
    }
    false
}

/// Looks the names of a CREATE INDEX up among the tables. (`Misuse(ReservedName)`, `Exists`, `Misuse(DoubledColumn)`, `NoSuch`.)
pub fn bind_index<'a>(
    alloc: Global,
    catalog: &'a Catalog,
    definition: &IndexDefinition,
) -> R<BoundIndex<'a>>
    ensures made { AreOnce (tables_of catalog.now)
        → IfOk result (λ made. IsIndexOn (listed_in catalog.now) definition.now made.table.now made.columns) }
    ensures refused { AreOnce (tables_of catalog.now)
        → IfErr result (λ fault. (fault ≡ Fault.Memory)
        ⊎ IsIndexRefusal (listed_in catalog.now) definition.now (refusal_of fault)) }
    ensures not_disk { IfErr result (λ fault. IsNotDiskFault fault) }
{
    if is_reserved(definition.name.as_str()) {
        return Err(Fault::Misuse(Misuse::ReservedName));
    }
    if catalog.has_name(definition.name.as_str()) {
        return Err(Fault::Exists(definition.name.copy(alloc)?));
    }
    if has_doubled(definition.columns.as_slice()) {
        return Err(Fault::Misuse(Misuse::DoubledColumn));
    }
    let table = find_table(alloc, catalog, &definition.table)?;
    let columns = index_columns(
        alloc,
        &definition.table,
        table,
        definition.columns.as_slice(),
    )?;
    Ok(BoundIndex {
        table,
        columns: Many::from_vec(columns),
    })
}

/// A CREATE INDEX on a listed table makes the index of the columns that it names, or is refused for each cause that there is.
pub fn indexes_are_created_as_defined()
    ensures makes { MakesListedIndex }
    ensures refuses { RefusesIndexAsDefined }
{
    listed_tables_are_found();
}
