//! The values that a condition asks for by comparisons with literals, and the key that it asks for of an index.

ghost use Rattle.std.specs.Prelude.{◌≡◌, ◌==◌, false, None, IfErr, IfOk};
ghost use Rattle.std.specs.Option.{option_or};
ghost use Rattle.std.specs.Result.{result_ok};
ghost use Rattle.sqlval.specs.Conversion.{converted};
ghost use Rattle.query_terms.specs.Terms as tree;
ghost use Rattle.query_terms.specs.Values as meant;
ghost use Rattle.query_plan.specs.Asking as asking;
ghost use Rattle.query_plan.specs.Keys as keys;
ghost use Rattle.query_plan.specs.Keys.{is_same_collation};

use crate::calm::conversion;
use catalog::IndexColumn;
use query_terms::{Comparison, Node, Place, Term, TwoSided, affinity, conversion_is_one};
use sqlval::{Affinity, Collation, Fault, Many, R, Value, apply};
use std::alloc::Global;

/// Whose comparisons are looked for: those of a source's column, or of its rowid, under a collation.
#[derive(Clone, Copy)]
pub(crate) struct Wanted {
    /// The number of the source.
    pub source: usize,
    pub place: Place,
    pub collation: Collation,
}

/// An index's column of a source.
pub(crate) fn of_column(source: usize, column: IndexColumn) -> Wanted
    ensures { result ≡ keys.of_column source column }
{
    Wanted {
        source,
        place: Place::At(column.place),
        collation: column.collation,
    }
}

/// Whether both are one place.
fn same_place(left: Place, right: Place) -> bool
    ensures { result ≡ tree.same_place left right }
{
    match (left, right) {
        (Place::RowId, Place::RowId) => true,
        (Place::At(place), Place::At(other)) => place == other,
        _ => false,
    }
}

/// Whether both are one collation.
fn same_collation(left: Collation, right: Collation) -> bool
    ensures { result ≡ is_same_collation left right }
{
    left == right
}

/// Whether both are one comparison.
fn same_comparison(left: Comparison, right: Comparison) -> bool
    ensures { result ≡ (tree.comparison_index left == tree.comparison_index right) }
{
    left == right
}

/// Whether an expression is what is looked for, compared under its collation.
fn is_wanted(term: &Term, wanted: Wanted) -> bool
    ensures { result ≡ asking.is_wanted wanted term.now }
{
    match &term.node {
        Node::Cell(source, place, _, collation) => {
            *source == wanted.source
                && same_place(wanted.place, *place)
                && same_collation(wanted.collation, *collation)
        }
        _ => false,
    }
}

/// A value as a column of this affinity is compared with it, or None where its conversion is refused. (`Memory`.)
fn value_key(alloc: Global, affinity: Option<Affinity>, value: Value) -> R<Option<Value>>
    ensures found { IfOk result (λ key. key ≡ result_ok (converted (meant.conversion None affinity) value)) }
    ensures refused { IfErr result (λ fault. fault ≡ Fault.Memory) }
{
    conversion_is_one();
    match apply(alloc, conversion(None, affinity), value) {
        Ok(key) => Ok(Some(key)),
        Err(Fault::Memory) => Err(Fault::Memory),
        Err(_) => Ok(None),
    }
}

/// A number as a column of this affinity is compared with it, or None where it doesn't have 64 bits. (`Memory`.)
fn number_key(alloc: Global, affinity: Option<Affinity>, number: u64) -> R<Option<Value>>
    ensures found { IfOk result (λ key. key ≡ asking.literal_key affinity (tree.Digits number)) }
    ensures refused { IfErr result (λ fault. fault ≡ Fault.Memory) }
{
    match i64::try_from(number) {
        Ok(number) => value_key(alloc, affinity, Value::Int(number)),
        Err(_) => Ok(None),
    }
}

/// A literal as a column of this affinity is compared with it, or None where its conversion is refused or it is no literal. (`Memory`.)
fn literal_key(alloc: Global, affinity: Option<Affinity>, term: &Term) -> R<Option<Value>>
    ensures found { IfOk result (λ key. key ≡ asking.literal_key affinity term.now) }
    ensures refused { IfErr result (λ fault. fault ≡ Fault.Memory) }
{
    match &term.node {
        Node::Const(value) => value_key(alloc, affinity, value.copy(alloc)?),
        Node::Digits(number) => number_key(alloc, affinity, *number),
        _ => Ok(None),
    }
}

/// The value that a literal on the right asks of what is looked for on the left. (`Memory`.)
fn asked_key(alloc: Global, left: &Term, right: &Term, wanted: Wanted) -> R<Option<Value>>
    ensures found { IfOk result (λ key. key ≡ asking.asked_key wanted left.now right.now) }
    ensures refused { IfErr result (λ fault. fault ≡ Fault.Memory) }
{
    if !is_wanted(left, wanted) {
        return Ok(None);
    }
    literal_key(alloc, affinity(left), right)
}

/// The value that two compared sides ask for, if their comparison is the one looked for. (`Memory`.)
fn compared_key(
    alloc: Global,
    comparison: Comparison,
    left: &Term,
    right: &Term,
    wanted: Wanted,
    by: Comparison,
) -> R<Option<Value>>
    ensures found { IfOk result (λ key. key ≡ asking.compared_key wanted by comparison left.now right.now) }
    ensures refused { IfErr result (λ fault. fault ≡ Fault.Memory) }
{
    if !same_comparison(comparison, by) {
        return Ok(None);
    }
    asked_key(alloc, left, right, wanted)
}

/// The value that one of the comparisons asks for which BETWEEN stands for. (`Memory`.)
fn key_in_between(
    alloc: Global,
    operand: &Term,
    low: &Term,
    high: &Term,
    wanted: Wanted,
    by: Comparison,
) -> R<Option<Value>>
    ensures found { IfOk result (λ key. key ≡ asking.key_in wanted by
        (tree.Between false operand.now low.now high.now)) }
    ensures refused { IfErr result (λ fault. fault ≡ Fault.Memory) }
{
    match compared_key(alloc, Comparison::GreaterOrEqual, operand, low, wanted, by)? {
        Some(key) => Ok(Some(key)),
        None => compared_key(alloc, Comparison::LessOrEqual, operand, high, wanted, by),
    }
}

/// The value that one of two conditions asks for. (`Memory`.)
#[cycle(key)]
fn key_in_either(
    alloc: Global,
    left: &Term,
    right: &Term,
    wanted: Wanted,
    by: Comparison,
) -> R<Option<Value>>
    ensures found { IfOk result (λ key. key ≡ option_or (asking.key_in wanted by left.now)
        (asking.key_in wanted by right.now)) }
    ensures refused { IfErr result (λ fault. fault ≡ Fault.Memory) }
{
    match key_in(alloc, left, wanted, by)? {
        Some(key) => Ok(Some(key)),
        None => key_in(alloc, right, wanted, by),
    }
}

/// The value that one of the parts which AND joins asks for by a comparison, the first of several. BETWEEN is two comparisons. (`Memory`.)
#[cycle(key)]
pub(crate) fn key_in(
    alloc: Global,
    condition: &Term,
    wanted: Wanted,
    by: Comparison,
) -> R<Option<Value>>
    ensures found { IfOk result (λ key. key ≡ asking.key_in wanted by condition.now) }
    ensures refused { IfErr result (λ fault. fault ≡ Fault.Memory) }
{
    match &condition.node {
        Node::Two(TwoSided::And, left, right) => key_in_either(alloc, left, right, wanted, by),
        Node::Two(TwoSided::Compare(comparison), left, right) => {
            compared_key(alloc, *comparison, left, right, wanted, by)
        }
        Node::Between(false, operand, low, high) => {
            key_in_between(alloc, operand, low, high, wanted, by)
        }
        _ => Ok(None),
    }
}

/// The values that a condition asks of an index's columns from the first on, up to one that it doesn't ask for. (`Memory`.)
pub(crate) fn key_for(
    alloc: Global,
    condition: &Term,
    source: usize,
    columns: &[IndexColumn],
) -> R<Many<Value>>
    ensures found { IfOk result (λ key. key ≡ asking.key_for source condition.now columns.now) }
    ensures refused { IfErr result (λ fault. fault ≡ Fault.Memory) }
{
    let mut key = Many::new(alloc);
    'columns: for column in columns {
        let wanted = of_column(source, *column);
        let Some(value) = key_in(alloc, condition, wanted, Comparison::Equal)? else {
            return Ok(key);
        };
        key.push(value)?;
    }
    Ok(key)
}
