//! One row of a view: what the triggers see that stand in the place of its change.

ghost use Rattle.std.specs.Prelude.{◌≡◌, length, replicate, zip, IfErr, List, Some, None};
ghost use Rattle.sqlval.specs.Faults.{IsNotDiskFault, IsOrMemory};
ghost use Rattle.sqlval.specs.declared.value.Value.TheVariants.{Null};
ghost use Rattle.query_terms.specs.Outcome.{AnswersBy};
ghost use Rattle.query_names.specs.declared.scope.ScopeColumn.{ScopeColumn};
ghost use Rattle.row_change.specs.Changes.{Outer};
ghost use Rattle.row_change.specs.Constraints.{set_values};
ghost use Rattle.trigger.specs.Effects.{view_row};
ghost use Rattle.executor_programs.specs.Begun.{SeesRows, both_rows as rows_of_both};
ghost use Rattle.executor_programs.specs.Outer.{Shows};
ghost use Rattle.executor_programs.specs.Seen as meant;

use crate::acts::{Act, ViewItem};
use crate::outer::{OuterRows, row_copy};
use crate::rows::both_rows;
use crate::values::{nulls, put_given, values_set};
use query_terms::SourceRow;
use sqlval::{Many, R, Value};
use std::alloc::Global;

/// A row that is inserted into a view. (`Memory` alone.)
fn inserted_row(alloc: Global, width: usize, act: &Act, given: &[Value]) -> R<Vec<Many<SourceRow>>>
    ensures { IsOrMemory (λ rows. rows.items ≡ rows_of_both (Some (view_row
        (set_values (replicate width Null) (zip act.now.places.items given.now)))) None) result }
{
    let mut values = nulls(alloc, width)?;
    put_given(alloc, &mut values, &act.places, given)?;
    let new = SourceRow::made(Value::Null, Many::from_vec(values));
    both_rows(alloc, Some(new), None)
}

/// A row of a view that is updated. (What SET's expressions refuse.)
fn updated_row(
    alloc: Global,
    outer: OuterRows<'_>,
    act: &Act,
    row: &SourceRow,
) -> R<Vec<Many<SourceRow>>>
    ensures updated { (seen : Outer) → Shows outer.entry seen → AnswersBy (λ rows. rows.items)
        (meant.updated seen act.now.sets.items row.now) result }
    ensures not_disk { IfErr result (λ fault. IsNotDiskFault fault) }
{
    let own = row_copy(alloc, row)?;
    let was = row.values(alloc)?.into_vec();
    let set = values_set(alloc, outer, &act.sets, own, was)?;
    let new = SourceRow::made(Value::Null, Many::from_vec(set));
    both_rows(alloc, Some(new), Some(row_copy(alloc, row)?))
}

/// NEW and OLD of a row of a view of so many columns. (What SET's expressions refuse.)
pub fn rows_seen(
    alloc: Global,
    outer: OuterRows<'_>,
    width: usize,
    act: &Act,
    item: &ViewItem,
) -> R<Vec<Many<SourceRow>>>
    ensures shown { (seen : Outer) (columns : List ScopeColumn) → Shows outer.entry seen → length columns ≡ width
        → SeesRows seen columns act.now item.now result }
    ensures not_disk { IfErr result (λ fault. IsNotDiskFault fault) }
{
    match item {
        ViewItem::Insert(given) => inserted_row(alloc, width, act, given),
        ViewItem::Update(row) => updated_row(alloc, outer, act, row),
        ViewItem::Delete(row) => both_rows(alloc, None, Some(row_copy(alloc, row)?)),
    }
}
