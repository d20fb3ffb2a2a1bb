//! The columns that a CREATE TABLE defines.

ghost use Rattle.std.specs.Prelude.{◌≡◌, ◌⊎◌, ◌++◌, ◌∷◌, false, true, flat_map, map, IfErr, IfOk, OnOk, option_map, string_bytes};
ghost use Rattle.std.specs.List.{Contains, join_with_byte, list_any};
ghost use Rattle.sqlval.specs.Affinity.{declared_affinity};
ghost use Rattle.sqlval.specs.Faults.{IsNotDiskFault};
ghost use Rattle.sqlval.specs.Refusals.{refusal_of};
ghost use Rattle.sqlval.specs.declared.value.Value.TheVariants.{Null};
ghost use Rattle.catalog.specs.Listed.{as_column, is_column, type_text};
ghost use Rattle.query_names.specs.Bound.{IsFaultOf};
ghost use Rattle.query_names.specs.Checked.{faults, known_all};
ghost use Rattle.query_names.specs.Creating.{defined, described, has_doubled};
ghost use Rattle.query_names.specs.Named.{Names};
ghost use Rattle.query_names.specs.Tables as meant;
ghost use Rattle.query_names.specs.Tables.{affinity_known, default_of, is_not_null, last_of};

use crate::functions::collation_named;
use catalog::Column;
use sql_syntax::{ColumnDefinition, ColumnRule, TableDefinition};
use sqlval::{Affinity, Collation, Fault, Feature, Many, Misuse, Name, R, Value, affinity_of};
use std::alloc::Global;

/// Appends words to a text, each after a space.
fn put_words(text: &mut String, words: &[Name]) -> R<()>
    ensures text { OnOk result (string_bytes text.new ≡ string_bytes text.old ++ flat_map
        (λ word. 32 ∷ word) words.now) }
    ensures refused { IfErr result (λ fault. fault ≡ Fault.Memory) }
    ensures not_disk { IfErr result (λ fault. IsNotDiskFault fault) }
{
    'words: for word in words {
        text.push(' ')?;
        text.push_str(word.as_str())?;
    }
    Ok(())
}

/// The words of a type, joined by spaces.
fn joined(alloc: Global, words: &[Name]) -> R<String>
    ensures text { IfOk result (λ text. string_bytes text ≡ join_with_byte 32 words.now) }
    ensures refused { IfErr result (λ fault. fault ≡ Fault.Memory) }
    ensures not_disk { IfErr result (λ fault. IsNotDiskFault fault) }
{
    let mut text = String::new(alloc);
    let Some((first, rest)) = words.split_first() else {
        return Ok(text);
    };
    text.push_str(first.as_str())?;
    put_words(&mut text, rest)?;
    Ok(text)
}

/// The affinity of a column's type. (`Unsupported(RealColumn)`.)
fn affinity_in(alloc: Global, definition: &ColumnDefinition) -> R<Affinity>
    ensures names { Names (affinity_known (declared_affinity (type_text definition.now))) result }
    ensures why { IfErr result (λ fault. (fault ≡ Fault.Memory) ⊎ (fault ≡ Fault.Unsupported Feature.RealColumn)) }
    ensures not_disk { IfErr result (λ fault. IsNotDiskFault fault) }
{
    let declared = joined(alloc, definition.declared.words.as_slice())?;
    match affinity_of(declared.as_str()) {
        Some(affinity) => Ok(affinity),
        None => Err(Fault::Unsupported(Feature::RealColumn)),
    }
}

/// The collation that a rule writes.
fn written_collation(rule: &ColumnRule) -> Option<&Name>
    ensures { option_map (λ name. name.now) result ≡ meant.collation_in rule.now }
{
    match rule {
        ColumnRule::Collate(name) => Some(name),
        _ => None,
    }
}

/// The default that a rule writes.
fn written_default(rule: &ColumnRule) -> Option<&Value>
    ensures { option_map (λ value. value.now) result ≡ default_of rule.now }
{
    match rule {
        ColumnRule::Default(value) => Some(value),
        _ => None,
    }
}

/// The last of the collations that are written, BINARY where none is. (`NoSuch`.)
fn collation_in(alloc: Global, rules: &[ColumnRule]) -> R<Collation>
    ensures names { Names (meant.collation_of rules.now) result }
    ensures not_disk { IfErr result (λ fault. IsNotDiskFault fault) }
{
    let mut last = Collation::Binary;
    let mut left = rules;
    'rules: while let [rule, rest @ ..] = left {
        if let Some(name) = written_collation(rule) {
            last = collation_named(alloc, name)?;
        }
        left = rest;
    }
    Ok(last)
}

/// The last of the defaults that are written, NULL where none is. (`Memory`.)
fn default_in(alloc: Global, rules: &[ColumnRule]) -> R<Value>
    ensures default { IfOk result (λ value. value ≡ last_of default_of Null rules.now) }
    ensures refused { IfErr result (λ fault. fault ≡ Fault.Memory) }
{
    let mut last = Value::Null;
    let mut left = rules;
    'rules: while let [rule, rest @ ..] = left {
        if let Some(value) = written_default(rule) {
            last = value.copy(alloc)?;
        }
        left = rest;
    }
    Ok(last)
}

/// Whether the rule is NOT NULL.
fn is_not_null(rule: &ColumnRule) -> bool
    ensures { result ≡ meant.is_not_null rule.now }
{
    matches!(rule, ColumnRule::NotNull)
}

/// Whether one of the rules is NOT NULL.
fn is_filled(rules: &[ColumnRule]) -> bool
    ensures { result ≡ list_any meant.is_not_null rules.now }
{
    rules.iter().any(|rule| is_not_null(rule))
}

/// The column of a definition. (What `affinity_in` and `collation_in` refuse.)
fn column_of(alloc: Global, definition: &ColumnDefinition) -> R<Column>
    ensures described { IfOk result (λ column. described column ≡ defined definition.now) }
    ensures refused { IfErr result (λ fault. IsFaultOf (faults (meant.column_of definition.now)) fault) }
    ensures not_disk { IfErr result (λ fault. IsNotDiskFault fault) }
{
    let rules = definition.rules.as_slice();
    Ok(Column {
        name: definition.name.copy(alloc)?,
        affinity: affinity_in(alloc, definition)?,
        collation: collation_in(alloc, rules)?,
        is_filled: is_filled(rules),
        default: default_in(alloc, rules)?,
    })
}

/// Whether one of the columns has this name.
pub fn has_column(columns: &[Column], name: &str) -> bool
    ensures { result ≡ list_any (is_column name.now) columns.now }
{
    columns.iter().any(|column| column.name.is_same(name))
}

/// The columns that a definition gives a table. `DoubledColumn` only where two have one name, `Unsupported(RealColumn)` only where a
/// type is that of reals, `NoSuch` only where a collation isn't one.
pub fn bind_columns(alloc: Global, definition: &TableDefinition) -> R<Many<Column>>
    ensures columns { IfOk result (λ columns. map described columns ≡ map defined definition.now.columns) }
    ensures once { IfOk result (λ columns. has_doubled definition.now.columns ≡ false) }
    ensures refused { IfErr result (λ fault. (fault ≡ Fault.Memory)
        ⊎ (fault ≡ Fault.Misuse Misuse.DoubledColumn) × (has_doubled definition.now.columns ≡ true)
        ⊎ Contains (faults (known_all (map meant.column_of definition.now.columns))) (refusal_of fault)) }
    ensures not_disk { IfErr result (λ fault. IsNotDiskFault fault) }
{
    let definitions = definition.columns.as_slice();
    let mut columns: Vec<Column> = Vec::new(alloc);
    'columns: for column in definitions {
        if has_column(&columns, column.name.as_str()) {
            return Err(Fault::Misuse(Misuse::DoubledColumn));
        }
        columns.push(column_of(alloc, column)?)?;
    }
    Ok(Many::from_vec(columns))
}
