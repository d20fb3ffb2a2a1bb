//! SET of an UPDATE.

ghost use Rattle.std.specs.Prelude.{◌≡◌, ◌⊎◌, ◌∷◌, [], IfErr, IfOk, OnOk, Some, is_none, map, option_map, unwrap_or};
ghost use Rattle.std.specs.List.{Contains, find, list_any};
ghost use Rattle.sqlval.specs.Faults.{IsNotDiskFault};
ghost use Rattle.sqlval.specs.Names.{is_same_name};
ghost use Rattle.sqlval.specs.Refusals.{refusal_of};
ghost use Rattle.catalog.specs.Listed.{place_named};
ghost use Rattle.query_names.specs.Bound.{source_seen};
ghost use Rattle.query_names.specs.Checked.{Meant, faults};
ghost use Rattle.query_names.specs.Inserts.{AreColumns, IsListRefusal};
ghost use Rattle.query_names.specs.Named.{NamesBy};
ghost use Rattle.query_names.specs.Scopes.{is_doubled};
ghost use Rattle.query_bind.specs.Assigned.{columns_set, set_known, sets_known};

use crate::sources::source_of;
use catalog::Table;
use query_names::{ScopeSource, bind_term, missing};
use query_terms::Term;
use sql_syntax::Assignment;
use sqlval::{Fault, Misuse, Name, Object, R};
use std::alloc::Global;
use std::array::from_ref;

/// The first assignment whose column the table doesn't have.
fn unknown_in<'a>(table: &Table, assignments: &'a [Assignment]) -> Option<&'a Assignment>
    ensures { option_map (λ a. a.now) result ≡ find
        (λ a. is_none (place_named a.column table.now.columns)) assignments.now }
{
    assignments.iter().find(|assignment| table.place_of(assignment.column.as_str()).is_none())
}

/// Whether one of the assignments is to a column of this name.
fn is_assigned(assignments: &[Assignment], name: &Name) -> bool
    ensures { result ≡ list_any (λ a. is_same_name name.now a.column) assignments.now }
{
    assignments
        .iter()
        .any(|other| name.is_same(other.column.as_str()))
}

/// Whether a column of this name is one of those that are assigned.
fn has_column(assignments: &[Assignment], name: &Name) -> bool
    ensures { result ≡ list_any (is_same_name name.now) (columns_set assignments.now) }
{
    is_assigned(assignments, name)
}

/// Whether two of the assignments are to one column.
fn has_doubled(assignments: &[Assignment]) -> bool
    ensures { result ≡ is_doubled (columns_set assignments.now) }
{
    let mut rest = assignments;
    'assignments: while let [assignment, after @ ..] = rest {
        if has_column(after, &assignment.column) {
            return true;
        }
        rest = after;
    }
    false
}

/// The place of an assignment's column, 0 where there is none.
fn place_of(table: &Table, assignment: &Assignment) -> usize
    ensures { result ≡ unwrap_or (place_named assignment.now.column table.now.columns) 0 }
{
    table.place_of(assignment.column.as_str()).unwrap_or(0)
}

/// The place of an assignment's column, and its expression. (What `bind_term` refuses.)
fn bind_set(
    alloc: Global,
    table: &Table,
    scope: &[ScopeSource],
    assignment: &Assignment,
) -> R<(usize, Term)>
    ensures { NamesBy (λ set. set)
        (set_known table.now.columns scope.now assignment.now) result }
{
    let term = bind_term(alloc, false, scope, &assignment.value)?;
    Ok((place_of(table, assignment), term))
}

/// The places of the assignments' columns, and their expressions. (What `bind_set` refuses.)
fn bind_each(
    alloc: Global,
    table: &Table,
    scope: &[ScopeSource],
    assignments: &[Assignment],
) -> R<Vec<(usize, Term)>>
    ensures { NamesBy (λ sets. sets.items)
        (sets_known table.now.columns scope.now assignments.now) result }
{
    let mut sets = Vec::new(alloc);
    'assignments: for assignment in assignments {
        let set = bind_set(alloc, table, scope, assignment)?;
        sets.push(set)?;
    }
    Ok(sets)
}

/// The columns that SET names, by their places in a table that it knows by this name, each with its expression; or one of the refusals
/// that the text has. (`NoSuch`, `Misuse` for a column twice, and what `bind_term` refuses.)
pub fn bind_sets(
    alloc: Global,
    name: &Name,
    table: &Table,
    assignments: &[Assignment],
) -> R<Vec<(usize, Term)>>
    ensures known { OnOk result (AreColumns table.now.columns (Some (columns_set assignments.now))) }
    ensures sets { IfOk result (λ sets. sets_known table.now.columns
        (source_seen name.now table.now ∷ []) assignments.now ≡ Meant sets.items []) }
    ensures refused { IfErr result (λ fault. (fault ≡ Fault.Memory)
        ⊎ IsListRefusal table.now.columns (Some (columns_set assignments.now)) (refusal_of fault)
        ⊎ Contains (faults (sets_known table.now.columns
        (source_seen name.now table.now ∷ []) assignments.now)) (refusal_of fault)) }
    ensures not_disk { IfErr result (λ fault. IsNotDiskFault fault) }
{
    if let Some(unknown) = unknown_in(table, assignments) {
        return Err(missing(alloc, Object::Column, &unknown.column));
    }
    if has_doubled(assignments) {
        return Err(Fault::Misuse(Misuse::DoubledColumn));
    }
    let source = source_of(alloc, name, table)?;
    bind_each(alloc, table, from_ref(&source).as_slice(), assignments)
}
