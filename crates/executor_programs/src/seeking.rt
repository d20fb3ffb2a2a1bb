//! The rows that an UPDATE or a DELETE of a program may choose: where its condition can't be refused, those that it seeks of its table, with the
//! values of NEW and OLD as literals.

ghost use Rattle.std.specs.Prelude.{◌≡◌, ◌<◌, length, true, IfErr, IfSome, IsTrue, List, None, Ok};
ghost use Rattle.sqlval.specs.Conversion.{converted};
ghost use Rattle.sqlval.specs.Faults.{IsNotDiskFault, IsOrMemory};
ghost use Rattle.sqlval.specs.declared.collation.Collation.{Collation};
ghost use Rattle.pages.specs.Calls.{Stays};
ghost use Rattle.catalog.specs.Database.{Database};
ghost use Rattle.catalog.specs.Listed.{listed_in};
ghost use Rattle.query_names.specs.Known.{IsKnownIn};
ghost use Rattle.query_terms.specs.Terms.{Cell, Term as Asked, Two as pair, affinity, written};
ghost use Rattle.query_terms.specs.Values.{Environment, Row, conversion, value as value_of};
ghost use Rattle.query_terms.specs.declared.tree.TwoSided.TheVariants.{And as both, Compare as comparing};
ghost use Rattle.row_change.specs.Changes.{Outer};
ghost use Rattle.db_pages.specs.Stored.{Stores};
ghost use Rattle.executor_programs.specs.Outer.{Shows};
ghost use Rattle.executor_programs.specs.Seeking.{AreEnoughBeside, FollowsBeside, IsSettledSide, SeeksBeside, is_kept_beside};

use crate::outer::{OuterRows, env_at, first_places};
use catalog::{Catalog, Table};
use executor::{all_rows, rows_sought};
use pages::Pages;
use query_names::calm_is_not_refused;
use query_plan::{Search, is_calm, other_rows_fail, search_for};
use query_terms::{Comparison, Node, Place, SourceRow, Term, TwoSided};
use sqlval::{Affinity, Many, Name, R, Value};
use std::alloc::Global;

/// Whether both are one affinity, or none.
fn same_affinity(left: Option<Affinity>, right: Option<Affinity>) -> bool
    ensures { result ≡ true → left ≡ right }
{
    match left {
        Some(kind) => right == Some(kind),
        None => right.is_none(),
    }
}

/// Whether a value stays as it is where a column of this affinity is compared with it.
fn stays_beside(affinity: Option<Affinity>, value: &Value) -> bool
    ensures kind { result ≡ is_kept_beside affinity value.now }
    ensures same { result ≡ true → converted (conversion None affinity) value.now ≡ Ok value.now }
{
    match value {
        Value::Null | Value::Blob(_) => true,
        Value::Int(_) => !matches!(affinity, Some(Affinity::Text)),
        Value::Text(_) => !matches!(affinity, Some(Affinity::Integer | Affinity::Numeric)),
    }
}

/// A literal of this value: of a number from 0 on its digits, by which a rowid is sought.
fn literal(value: Value) -> Term
    ensures valued { (env : Environment) → value_of result env ≡ Ok value }
    ensures plain { affinity result ≡ None }
    ensures bare { written result ≡ None }
{
    match value {
        Value::Int(number) if number >= 0 => Term {
            node: Node::Digits(number as u64),
        },
        other => Term {
            node: Node::Const(other),
        },
    }
}

/// The value of NEW or OLD at a place as a literal, where a column of this affinity is compared with it as with the place. (`Memory` alone.)
fn settled_cell(
    alloc: Global,
    outer: OuterRows<'_>,
    own: Option<Affinity>,
    source: usize,
    place: Place,
) -> R<Option<Term>>
    ensures settled { (seen : Outer) → Shows outer.entry seen → source < length outer.entry.rows.now
        → IsOrMemory (λ found. IfSome found (λ made. (collation : Collation)
        → IsSettledSide seen.rows own (Cell source place own collation) made)) result }
    ensures not_disk { IfErr result (λ fault. IsNotDiskFault fault) }
{
    let picked = first_places(alloc, outer.rows.len())?;
    let value = env_at(outer.rows, &picked)
        .cell(source, place)
        .to_value(alloc)?;
    if !stays_beside(own, &value) {
        return Ok(None);
    }
    Ok(Some(literal(value)))
}

/// The side that a column of this affinity is compared with, as a literal, where it is one or is NEW's or OLD's. (`Memory` alone.)
fn settled_side(
    alloc: Global,
    outer: OuterRows<'_>,
    own: Option<Affinity>,
    side: &Term,
) -> R<Option<Term>>
    ensures settled { (seen : Outer) → Shows outer.entry seen → IsOrMemory (λ found. IfSome found (λ made.
        IsSettledSide seen.rows own side.now made)) result }
    ensures not_disk { IfErr result (λ fault. IsNotDiskFault fault) }
{
    match &side.node {
        Node::Const(value) => Ok(Some(literal(value.copy(alloc)?))),
        Node::Digits(number) => Ok(Some(Term {
            node: Node::Digits(*number),
        })),
        Node::Cell(source, place, affinity, _)
            if *source < outer.rows.len() && same_affinity(own, *affinity) => {
            settled_cell(alloc, outer, own, *source, *place)
        }
        _ => Ok(None),
    }
}

/// A comparison of the table's column with a literal, where it is one beside NEW and OLD. (`Memory` alone.)
fn settled_pair(
    alloc: Global,
    outer: OuterRows<'_>,
    comparison: Comparison,
    left: &Term,
    right: &Term,
) -> R<Option<Term>>
    ensures follows { (seen : Outer) → Shows outer.entry seen → IsOrMemory (λ found. IfSome found
        (FollowsBeside seen.rows (pair (comparing comparison) left.now right.now))) result }
    ensures not_disk { IfErr result (λ fault. IsNotDiskFault fault) }
{
    match &left.node {
        Node::Cell(source, place, affinity, collation) if *source == outer.rows.len() => {
            let Some(settled) = settled_side(alloc, outer, *affinity, right)? else {
                return Ok(None);
            };
            let column = Term {
                node: Node::Cell(*source, *place, *affinity, *collation),
            };
            joined(alloc, TwoSided::Compare(comparison), column, settled)
        }
        _ => Ok(None),
    }
}

/// Two terms with what stands between them. (`Memory` alone.)
fn joined(alloc: Global, between: TwoSided, left: Term, right: Term) -> R<Option<Term>>
    ensures { IsOrMemory (λ made. IfSome made (λ term. term ≡ pair between left right)) result }
{
    let left = Box::new(alloc, left)?;
    let right = Box::new(alloc, right)?;
    Ok(Some(Term {
        node: Node::Two(between, left, right),
    }))
}

/// Both of two terms, or the one that is there. (`Memory` alone.)
fn both_asked(alloc: Global, left: Option<Term>, right: Option<Term>) -> R<Option<Term>>
    ensures follows { (beside : List Row) (a b : Asked) → IfSome left (FollowsBeside beside a) → IfSome right (FollowsBeside beside b)
        → IsOrMemory (λ made. IfSome made (FollowsBeside beside (pair both a b))) result }
    ensures not_disk { IfErr result (λ fault. IsNotDiskFault fault) }
{
    match left {
        Some(first) => match right {
            Some(second) => joined(alloc, TwoSided::And, first, second),
            None => Ok(Some(first)),
        },
        None => Ok(right),
    }
}

/// What a condition asks of its table's columns by comparisons that AND joins, beside NEW and OLD: each with a literal. None where it asks
/// nothing so. (`Memory` alone.)
fn asked_beside(alloc: Global, outer: OuterRows<'_>, condition: &Term) -> R<Option<Term>>
    ensures follows { (seen : Outer) → Shows outer.entry seen → IsOrMemory (λ found. IfSome found
        (FollowsBeside seen.rows condition.now)) result }
    ensures not_disk { IfErr result (λ fault. IsNotDiskFault fault) }
{
    match &condition.node {
        Node::Two(TwoSided::And, left, right) => {
            let first = asked_beside(alloc, outer, left)?;
            let second = asked_beside(alloc, outer, right)?;
            both_asked(alloc, first, second)
        }
        Node::Two(TwoSided::Compare(comparison), left, right) => {
            settled_pair(alloc, outer, *comparison, left, right)
        }
        _ => Ok(None),
    }
}

/// What a condition seeks of its table beside NEW and OLD; none where it seeks nothing, or may be refused. (`Memory` alone.)
fn search_beside(
    alloc: Global,
    outer: OuterRows<'_>,
    table: &Table,
    condition: &Term,
) -> R<Option<Search>>
    ensures seeks { (seen : Outer) → Shows outer.entry seen → IsOrMemory (λ found. IfSome found
        (SeeksBeside table.now.indexes seen.rows condition.now)) result }
    ensures not_disk { IfErr result (λ fault. IsNotDiskFault fault) }
{
    if !is_calm(alloc, condition)? {
        return Ok(None);
    }
    match asked_beside(alloc, outer, condition)? {
        Some(asked) => search_for(alloc, &asked, outer.rows.len(), table.indexes.as_slice()),
        None => Ok(None),
    }
}

/// The rows of a table or view of which a condition chooses what it chooses of all, beside NEW and OLD. (What `all_rows` refuses.)
pub(crate) fn rows_to_ask<P: Pages>(
    alloc: Global,
    pages: &mut P,
    catalog: &Catalog,
    name: &Name,
    outer: OuterRows<'_>,
    condition: &Option<Term>,
) -> R<Many<SourceRow>>
    ensures enough { (db : Database) (seen : Outer) → IsTrue (P.Pages.tells (P.Pages.below pages.old))
        → Stores (P.Pages.map pages.old) (P.Pages.limits (P.Pages.below pages.old)).page
        (listed_in catalog.now) db → Shows outer.entry seen → IsKnownIn 64 db name.now
        → AreEnoughBeside db seen name.now condition.now result }
    ensures stays { Stays P.Pages.below P.Pages.map P.Pages.count P.Pages.failures result pages.old pages.new }
{
    other_rows_fail();
    calm_is_not_refused();
    let Some(table) = catalog.table(name.as_str()) else {
        return all_rows(alloc, pages, catalog, name);
    };
    let Some(term) = condition else {
        return all_rows(alloc, pages, catalog, name);
    };
    match search_beside(alloc, outer, table, term)? {
        Some(search) => rows_sought(alloc, pages, table, search),
        None => all_rows(alloc, pages, catalog, name),
    }
}
