//! Changes of rows copied, with the values of parameters.

ghost use Rattle.std.specs.Prelude.{◌≡◌, map};
ghost use Rattle.sqlval.specs.Faults.{IsOrMemory};
ghost use Rattle.sql_bound.specs.Bound as meant;
ghost use Rattle.sql_bound.specs.Bound.{bound_tree};

use crate::expressions::{bound_condition, bound_expression, bound_expressions};
use crate::queries::bound_query;
use sql_syntax::{Assignment, Change, Delete, Expr, Insert, InsertSource, Update};
use sqlval::{Many, Name, R, Value};
use std::alloc::Global;

/// Copies of names.
fn names_copy(alloc: Global, names: &[Name]) -> R<Many<Name>>
    ensures { IsOrMemory (λ copies. copies ≡ names.now) result }
{
    let mut copies = Vec::new(alloc);
    'names: for name in names {
        copies.push(name.copy(alloc)?)?;
    }
    Ok(Many::from_vec(copies))
}

/// A copy of the columns of INSERT, where they are written.
fn columns_copy(alloc: Global, columns: &Option<Many<Name>>) -> R<Option<Many<Name>>>
    ensures { IsOrMemory (λ copy. copy ≡ columns.now) result }
{
    match columns {
        Some(columns) => Ok(Some(names_copy(alloc, columns.as_slice())?)),
        None => Ok(None),
    }
}

/// Copies of the rows of VALUES.
fn bound_rows(alloc: Global, values: &[Value], rows: &[Many<Expr>]) -> R<Many<Many<Expr>>>
    ensures { IsOrMemory (λ copies. copies ≡ map (map (bound_tree values.now)) rows.now) result }
{
    let mut copies = Vec::new(alloc);
    'rows: for row in rows {
        let copy = bound_expressions(alloc, values, row.as_slice())?;
        copies.push(copy)?;
    }
    Ok(Many::from_vec(copies))
}

/// A copy of what INSERT takes its rows from.
fn bound_source(alloc: Global, values: &[Value], source: &InsertSource) -> R<InsertSource>
    ensures { IsOrMemory (λ copy. copy ≡ meant.bound_source values.now source.now) result }
{
    match source {
        InsertSource::Rows(rows) => {
            Ok(InsertSource::Rows(bound_rows(alloc, values, rows.as_slice())?))
        }
        InsertSource::Query(query) => Ok(InsertSource::Query(bound_query(alloc, values, query)?)),
    }
}

/// A copy of INSERT.
fn bound_insert(alloc: Global, values: &[Value], insert: &Insert) -> R<Insert>
    ensures { IsOrMemory (λ copy. copy ≡ meant.bound_insert values.now insert.now) result }
{
    let table = insert.table.copy(alloc)?;
    let columns = columns_copy(alloc, &insert.columns)?;
    let source = bound_source(alloc, values, &insert.source)?;
    Ok(Insert {
        table,
        columns,
        source,
    })
}

/// A copy of what SET gives a column.
fn bound_assignment(alloc: Global, values: &[Value], assignment: &Assignment) -> R<Assignment>
    ensures { IsOrMemory (λ copy. copy ≡ meant.bound_assignment values.now assignment.now) result }
{
    let column = assignment.column.copy(alloc)?;
    let value = bound_expression(alloc, values, &assignment.value)?;
    Ok(Assignment { column, value })
}

/// Copies of what SET gives columns.
fn bound_assignments(
    alloc: Global,
    values: &[Value],
    assignments: &[Assignment],
) -> R<Many<Assignment>>
    ensures { IsOrMemory (λ copies. copies ≡ map (meant.bound_assignment values.now) assignments.now) result }
{
    let mut copies = Vec::new(alloc);
    'assignments: for assignment in assignments {
        let copy = bound_assignment(alloc, values, assignment)?;
        copies.push(copy)?;
    }
    Ok(Many::from_vec(copies))
}

/// A copy of UPDATE.
fn bound_update(alloc: Global, values: &[Value], update: &Update) -> R<Update>
    ensures { IsOrMemory (λ copy. copy ≡ meant.bound_update values.now update.now) result }
{
    let table = update.table.copy(alloc)?;
    let assignments = bound_assignments(alloc, values, update.assignments.as_slice())?;
    let condition = bound_condition(alloc, values, &update.condition)?;
    Ok(Update {
        table,
        assignments,
        condition,
    })
}

/// A copy of DELETE.
fn bound_delete(alloc: Global, values: &[Value], delete: &Delete) -> R<Delete>
    ensures { IsOrMemory (λ copy. copy ≡ meant.bound_delete values.now delete.now) result }
{
    let table = delete.table.copy(alloc)?;
    let condition = bound_condition(alloc, values, &delete.condition)?;
    Ok(Delete { table, condition })
}

/// A copy of a change of rows in which each parameter is the literal of its value. (`Memory` alone.)
pub fn bound_change(alloc: Global, values: &[Value], change: &Change) -> R<Change>
    ensures { IsOrMemory (λ copy. copy ≡ meant.bound_change values.now change.now) result }
{
    match change {
        Change::Insert(insert) => Ok(Change::Insert(bound_insert(alloc, values, insert)?)),
        Change::Update(update) => Ok(Change::Update(bound_update(alloc, values, update)?)),
        Change::Delete(delete) => Ok(Change::Delete(bound_delete(alloc, values, delete)?)),
    }
}
