//! What a query in a trigger's program sees of it: NEW and OLD.

ghost use Rattle.std.specs.Prelude.{◌≡◌, Some, true, map, not, IfErr, OnOk};
ghost use Rattle.std.specs.List.{list_any};
ghost use Rattle.sqlval.specs.Faults.{IsNotDiskFault, IsOrMemory};
ghost use Rattle.query_names.specs.Queries.{source_name};
ghost use Rattle.query_bind.specs.Named.{AreTables, outer_shown, sources_from};

use crate::sources::name_of;
use query_names::{ScopeSource, folded, missing, shown_beside};
use sql_syntax::FromClause;
use sqlval::{Fault, Name, Object, R};
use std::alloc::Global;

/// The names of the sources of FROM. (`Memory` alone.)
fn names_in(alloc: Global, from: &FromClause) -> R<Vec<Name>>
    ensures { IsOrMemory (λ names. names.items ≡ map (λ j. source_name j.source) (sources_from (Some from.now))) result }
{
    let mut names = Vec::new(alloc);
    names.push(folded(alloc, name_of(&from.first))?)?;
    'joins: for join in from.joins.as_slice() {
        names.push(folded(alloc, name_of(&join.source))?)?;
    }
    Ok(names)
}

/// NEW and OLD, as far as they are reached beside the sources of FROM. (`Memory` alone.)
pub fn outer_beside(
    alloc: Global,
    outer: &[ScopeSource],
    from: &Option<FromClause>,
) -> R<Vec<ScopeSource>>
    ensures { IsOrMemory (λ seen. seen.items ≡ outer_shown outer.now from.now) result }
{
    if outer.is_empty() {
        return Ok(Vec::new(alloc));
    }
    let Some(from) = from else {
        return shown_beside(alloc, outer, &[]);
    };
    let names = names_in(alloc, from)?;
    shown_beside(alloc, outer, names.as_slice())
}

/// Whether a source isn't known.
fn is_unknown(source: &ScopeSource) -> bool
    ensures { result ≡ not source.now.is_known }
{
    !source.is_known
}

/// The first source that isn't known is refused. (`NoSuch`.)
pub fn expect_known(alloc: Global, scope: &[ScopeSource]) -> R<()>
    ensures known { OnOk result (AreTables scope.now) }
    ensures refused { AreTables scope.now → IfErr result (λ fault. fault ≡ Fault.Memory) }
    ensures not_disk { IfErr result (λ fault. IsNotDiskFault fault) }
{
    'sources: for source in scope {
        if is_unknown(source) {
            return Err(missing(alloc, Object::Table, &source.name));
        }
    }
    Ok(())
}
