//! The UNIQUE and PRIMARY KEYs that a CREATE TABLE defines.

ghost use Rattle.std.specs.Prelude.{◌≡◌, ◌&&◌, ◌++◌, ◌||◌, ℕ, List, [], ◌∷◌, false, true, Some, flat_map, map, IfErr, IfOk, MatchOption, OnOk, slice_get};
ghost use Rattle.std.specs.Cmp.Lexicographic.{pointwise};
ghost use Rattle.std.specs.List.{list_any};
ghost use Rattle.sqlval.specs.Faults.{IsNotDiskFault, IsOrMemory};
ghost use Rattle.sqlval.specs.Lists.{any_twice};
ghost use Rattle.sqlval.specs.Names.{is_same_name};
ghost use Rattle.sqlval.specs.declared.collation.Collation.{Collation};
ghost use Rattle.catalog.specs.Listed.{as_column, key_columns, place_named};
ghost use Rattle.query_names.specs.Bound.{is_twice_named};
ghost use Rattle.query_names.specs.Checked.{known_all, known_map};
ghost use Rattle.query_names.specs.Creating as creating;
ghost use Rattle.query_names.specs.Creating.{as_bound, as_keys, as_written, key_known, places_known, table_keys_known};
ghost use Rattle.query_names.specs.Named.{NamesBy};
ghost use Rattle.query_names.specs.Schema as schema;
ghost use Rattle.query_names.specs.Scopes.{place_of};
ghost use Rattle.query_names.specs.Tables as meant;

use crate::inserting::has_doubled;
use crate::names::missing;
use catalog::{Column, IndexColumn, key_copy};
use itoa::Buffer;
use sql_syntax::{ColumnDefinition, ColumnRule, TableDefinition, TableRule};
use sqlval::{Fault, Many, Misuse, Name, Object, R};
use std::alloc::Global;
use std::array::from_ref;

/// A UNIQUE or PRIMARY KEY as it is written.
#[derive(Clone, Copy)]
struct WrittenKey<'a> {
    is_primary: bool,
    names: &'a [Name],
}

/// The key that a rule of a column is.
fn column_key<'a>(name: &'a Name, rule: &ColumnRule) -> Option<WrittenKey<'a>>
    ensures { MatchOption result (meant.column_key name.now rule.now ≡ []) (λ key. meant.column_key name.now rule.now
        ≡ as_written key ∷ []) }
{
    let names = from_ref(name).as_slice();
    match rule {
        ColumnRule::PrimaryKey => Some(WrittenKey {
            is_primary: true,
            names,
        }),
        ColumnRule::Unique => Some(WrittenKey {
            is_primary: false,
            names,
        }),
        _ => None,
    }
}

/// The key that a rule of a table is.
fn table_key(rule: &TableRule) -> Option<WrittenKey<'_>>
    ensures { MatchOption result (meant.table_key rule.now ≡ []) (λ key. meant.table_key rule.now
        ≡ as_written key ∷ []) }
{
    match rule {
        TableRule::PrimaryKey(names) => Some(WrittenKey {
            is_primary: true,
            names: names.as_slice(),
        }),
        TableRule::Unique(names) => Some(WrittenKey {
            is_primary: false,
            names: names.as_slice(),
        }),
        TableRule::Check(_) => None,
    }
}

/// Adds the keys that a column is by its rules. (`Memory` alone.)
fn push_of_column<'a>(
    found: &mut Vec<WrittenKey<'a>>,
    name: &'a Name,
    rules: &[ColumnRule],
) -> R<()>
    ensures pushed { OnOk result (map as_written found.new.items
        ≡ map as_written found.old.items ++ flat_map (meant.column_key name.now) rules.now) }
    ensures refused { IfErr result (λ fault. fault ≡ Fault.Memory) }
{
    'rules: for rule in rules {
        if let Some(key) = column_key(name, rule) {
            found.push(key)?;
        }
    }
    Ok(())
}

/// Adds the keys that columns are by themselves. (`Memory` alone.)
fn push_of_columns<'a>(found: &mut Vec<WrittenKey<'a>>, columns: &'a [ColumnDefinition]) -> R<()>
    ensures pushed { OnOk result (map as_written found.new.items
        ≡ map as_written found.old.items ++ flat_map
        (λ c. flat_map (meant.column_key c.name) c.rules) columns.now) }
    ensures refused { IfErr result (λ fault. fault ≡ Fault.Memory) }
{
    'columns: for column in columns {
        push_of_column(found, &column.name, column.rules.as_slice())?;
    }
    Ok(())
}

/// Adds the keys among a table's rules. (`Memory` alone.)
fn push_of_table<'a>(found: &mut Vec<WrittenKey<'a>>, rules: &'a [TableRule]) -> R<()>
    ensures pushed { OnOk result (map as_written found.new.items
        ≡ map as_written found.old.items ++ flat_map meant.table_key rules.now) }
    ensures refused { IfErr result (λ fault. fault ≡ Fault.Memory) }
{
    'rules: for rule in rules {
        if let Some(key) = table_key(rule) {
            found.push(key)?;
        }
    }
    Ok(())
}

/// The keys of a definition: those of its columns in their order, then those of the table. (`Memory` alone.)
fn written_keys(alloc: Global, definition: &TableDefinition) -> R<Vec<WrittenKey<'_>>>
    ensures are { IfOk result (λ keys. map as_written keys.items ≡ meant.keys_of definition.now) }
    ensures refused { IfErr result (λ fault. fault ≡ Fault.Memory) }
{
    let mut found = Vec::new(alloc);
    push_of_columns(&mut found, definition.columns.as_slice())?;
    push_of_table(&mut found, definition.rules.as_slice())?;
    Ok(found)
}

/// Whether two lists have the same names, one by one.
fn have_same_names(names: &[Name], others: &[Name]) -> bool
    ensures { result ≡ pointwise is_same_name names.now others.now }
{
    let mut left = names;
    let mut right = others;
    'names: while let ([name, left_after @ ..], [other, right_after @ ..]) = (left, right) {
        if !name.is_same(other.as_str()) {
            return false;
        }
        left = left_after;
        right = right_after;
    }
    left.is_empty() && right.is_empty()
}

/// Whether both keys are primary, or of the same columns.
fn are_doubled(key: WrittenKey<'_>, other: WrittenKey<'_>) -> bool
    ensures { result ≡ creating.are_doubled (as_written key.entry) (as_written other.entry) }
{
    key.is_primary && other.is_primary || have_same_names(key.names, other.names)
}

/// Whether a key is doubled by one of these.
fn is_doubled_by(keys: &[WrittenKey<'_>], key: WrittenKey<'_>) -> bool
    ensures { result ≡ list_any (λ other. creating.are_doubled (as_written key.entry) (as_written other)) keys.now }
{
    keys.iter().any(|other| are_doubled(key, *other))
}

/// Whether two of these keys are doubled.
fn has_doubled_keys(keys: &[WrittenKey<'_>]) -> bool
    ensures { result ≡ any_twice creating.are_doubled (map as_written keys.now) }
{
    'keys: for place in 0..keys.len() {
        if is_doubled_by(&keys[place + 1..], keys[place]) {
            return true;
        }
    }
    false
}

/// The place of the first column of a name.
fn place_in(columns: &[Column], name: &str) -> Option<usize>
    ensures { result ≡ place_named name.now columns.now }
{
    columns.iter().position(|column| column.name.is_same(name))
}

/// The column of this name, with its collation. (`NoSuch`.)
fn key_column(alloc: Global, columns: &[Column], name: &Name) -> R<IndexColumn>
    ensures column { (table : List ℕ) → is_twice_named columns.now ≡ false
        → NamesBy {A = ℕ × Collation} (λ column. (column.place, column.collation)) (known_map
        (λ i. (i, meant.collation_at (map as_column columns.now) i))
        (place_of (meant.new_source table (map as_column columns.now)) name.now)) result }
    ensures not_disk { IfErr result (λ fault. IsNotDiskFault fault) }
{
    match place_in(columns, name.as_str()) {
        Some(place) => Ok(IndexColumn {
            place,
            collation: columns[place].collation,
        }),
        None => Err(missing(alloc, Object::Column, name)),
    }
}

/// The columns of a key. (`NoSuch`; `Misuse` for a column that is named twice.)
fn bound_key(alloc: Global, columns: &[Column], names: &[Name]) -> R<Many<IndexColumn>>
    ensures columns { (table : List ℕ) → is_twice_named columns.now ≡ false
        → NamesBy key_columns (places_known table columns.now names.now) result }
    ensures not_disk { IfErr result (λ fault. IsNotDiskFault fault) }
{
    if has_doubled(names) {
        return Err(Fault::Misuse(Misuse::DoubledColumn));
    }
    let mut found = Vec::new(alloc);
    'names: for name in names {
        found.push(key_column(alloc, columns, name)?)?;
    }
    Ok(Many::from_vec(found))
}

/// A key whose columns are known.
#[derive(Drop)]
struct KnownKey {
    is_primary: bool,
    columns: Many<IndexColumn>,
}

/// The columns of each of these keys. (What `bound_key` refuses.)
fn bound_keys(alloc: Global, columns: &[Column], written: &[WrittenKey<'_>]) -> R<Vec<KnownKey>>
    ensures keys { (table : List ℕ) → is_twice_named columns.now ≡ false
        → NamesBy (λ keys. map as_bound keys.items) (known_all (map
        (λ key. key_known table columns.now (as_written key)) written.now)) result }
    ensures not_disk { IfErr result (λ fault. IsNotDiskFault fault) }
{
    let mut keys = Vec::new(alloc);
    'keys: for key in written {
        keys.push(KnownKey {
            is_primary: key.is_primary,
            columns: bound_key(alloc, columns, key.names)?,
        })?;
    }
    Ok(keys)
}

/// Whether a column's type is the one word INTEGER.
fn is_integer(column: &ColumnDefinition) -> bool
    ensures { result ≡ meant.is_integer (Some column.now) }
{
    match column.declared.words.as_slice() {
        [word] => word.is_same("integer") && !column.declared.is_sized,
        _ => false,
    }
}

/// Whether the type of the column at a place is the one word INTEGER.
fn is_integer_at(columns: &[ColumnDefinition], place: usize) -> bool
    ensures { result ≡ meant.is_integer (slice_get columns.now place) }
{
    match columns.get(place) {
        Some(column) => is_integer(column),
        None => false,
    }
}

/// The place of the column that a key makes another name of the rowid.
fn rowid_place(columns: &[ColumnDefinition], key: &KnownKey) -> Option<usize>
    ensures { result ≡ creating.rowid_place columns.now (as_bound key.now) }
{
    match key.columns.as_slice() {
        [column] if key.is_primary && is_integer_at(columns, column.place) => Some(column.place),
        _ => None,
    }
}

/// The place of the column that the first of these keys that does so makes another name of the rowid.
fn first_place(columns: &[ColumnDefinition], keys: &[KnownKey]) -> Option<usize>
    ensures { result ≡ meant.first_some (creating.rowid_place columns.now) (map as_bound keys.now) }
{
    'keys: for key in keys {
        let place = rowid_place(columns, key);
        if place.is_some() {
            return place;
        }
    }
    None
}

/// The columns of each of the keys that make none another name of the rowid. (`Memory` alone.)
fn other_keys(
    alloc: Global,
    columns: &[ColumnDefinition],
    keys: &[KnownKey],
) -> R<Many<Many<IndexColumn>>>
    ensures { IsOrMemory (λ left. map key_columns left ≡ creating.other_keys columns.now (map as_bound keys.now)) result }
{
    let mut left = Vec::new(alloc);
    'keys: for key in keys {
        if rowid_place(columns, key).is_none() {
            left.push(key_copy(alloc, key.columns.as_slice())?)?;
        }
    }
    Ok(Many::from_vec(left))
}

/// What the UNIQUE and PRIMARY KEYs of a table ask for.
#[derive(Drop)]
pub struct BoundKeys {
    /// The place of the column that is another name of the rowid.
    pub rowid_column: Option<usize>,
    /// The columns of each index.
    pub indexes: Many<Many<IndexColumn>>,
}

/// What the keys of a definition ask for, over the columns that it gives its table. (`Misuse` for two keys that are primary or of the same
/// columns, and for a column that is named twice; `NoSuch`.)
pub fn bind_keys(alloc: Global, definition: &TableDefinition, columns: &[Column]) -> R<BoundKeys>
    ensures names { is_twice_named columns.now ≡ false
        → NamesBy as_keys (table_keys_known definition.now columns.now) result }
    ensures not_disk { IfErr result (λ fault. IsNotDiskFault fault) }
{
    let written = written_keys(alloc, definition)?;
    if has_doubled_keys(&written) {
        return Err(Fault::Misuse(Misuse::DoubledKey));
    }
    let keys = bound_keys(alloc, columns, &written)?;
    let definitions = definition.columns.as_slice();
    Ok(BoundKeys {
        rowid_column: first_place(definitions, &keys),
        indexes: other_keys(alloc, definitions, &keys)?,
    })
}

/// The name of the automatic index that a table's key of this number makes; the first key has number 1. (`Memory` alone.)
pub fn automatic_name(alloc: Global, table: &Name, number: usize) -> R<Name>
    ensures { IsOrMemory (λ name. name ≡ schema.automatic_name table.now number) result }
{
    let mut text = String::new(alloc);
    text.push_str("sqlite_autoindex_")?;
    text.push_str(table.as_str())?;
    text.push('_')?;
    text.push_str(Buffer::new().format(number))?;
    Ok(Name::from_str(alloc, text.as_str())?)
}
