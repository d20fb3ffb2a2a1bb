//! What an UPDATE sets, by its names.

ghost use Rattle.std.specs.Prelude.{◌≡◌, ◌++◌, false, length, map, zip, IfErr, OnOk};
ghost use Rattle.sqlval.specs.Faults.{IsNotDiskFault, IsOrMemory};
ghost use Rattle.query_names.specs.Checked.{known_all, known_map};
ghost use Rattle.query_names.specs.Expressions.{resolve};
ghost use Rattle.query_names.specs.Named.{NamesBy};
ghost use Rattle.query_names.specs.Scopes.{resolve_places};
ghost use Rattle.query_bind.specs.Assigned.{columns_set};
ghost use Rattle.trigger_names.specs.Resolved.{set_at};

use query_bind::{bind_places, bind_values};
use query_names::ScopeSource;
use query_terms::Term;
use sql_syntax::Assignment;
use sqlval::{Fault, Name, R};
use std::alloc::Global;

/// The names of the columns that SET names. (`Memory` alone.)
fn names_set(alloc: Global, assignments: &[Assignment]) -> R<Vec<Name>>
    ensures { IsOrMemory (λ names. names.items ≡ columns_set assignments.now) result }
{
    let mut names = Vec::new(alloc);
    'assignments: for assignment in assignments {
        names.push(assignment.column.copy(alloc)?)?;
    }
    Ok(names)
}

/// The places of the columns that SET names, none of them twice. (`NoSuch`, `Ambiguous`, `Misuse`.)
pub fn places_set(alloc: Global, source: &ScopeSource, assignments: &[Assignment]) -> R<Vec<usize>>
    ensures named { NamesBy (λ places. places.items) (resolve_places source.now (columns_set assignments.now)) result }
    ensures not_disk { IfErr result IsNotDiskFault }
{
    let names = names_set(alloc, assignments)?;
    bind_places(alloc, source, &names)
}

/// Adds a term with the next of the places, where there is one. (`Memory` alone.)
fn push_set(sets: &mut Vec<(usize, Term)>, places: &[usize], term: Term) -> R<()>
    ensures pushed { OnOk result (sets.new.items ≡ sets.old.items ++ set_at places.now (length sets.old.items) term) }
    ensures refused { IfErr result (λ fault. fault ≡ Fault.Memory) }
{
    let Some(place) = places.get(sets.len()) else {
        drop(term);
        return Ok(());
    };
    sets.push((*place, term))?;
    Ok(())
}

/// Each place with its term. (`Memory` alone.)
fn paired(alloc: Global, places: &[usize], terms: Vec<Term>) -> R<Vec<(usize, Term)>>
    ensures { IsOrMemory (λ sets. sets.items ≡ zip places.now terms.items) result }
{
    let mut sets = Vec::new(alloc);
    'terms: for term in terms {
        push_set(&mut sets, places, term)?;
    }
    Ok(sets)
}

/// The expressions of SET, each with the place of its column. (`NoSuch`, `Ambiguous`, `Misuse`.)
pub fn bind_sets_at(
    alloc: Global,
    scope: &[ScopeSource],
    places: &[usize],
    assignments: &[Assignment],
) -> R<Vec<(usize, Term)>>
    ensures named { NamesBy (λ sets. sets.items)
        (known_map (zip places.now) (known_all (map (λ a. resolve false scope.now a.value) assignments.now))) result }
    ensures not_disk { IfErr result IsNotDiskFault }
{
    let terms = bind_values(alloc, scope, assignments)?;
    paired(alloc, places, terms)
}
