//! WHERE over one table.

ghost use Rattle.std.specs.Prelude.{◌∷◌, [], IfErr};
ghost use Rattle.sqlval.specs.Faults.{IsNotDiskFault};
ghost use Rattle.query_names.specs.Bound.{source_seen};
ghost use Rattle.query_names.specs.Named.{Names};
ghost use Rattle.query_names.specs.Queries.{resolve_filter};

use crate::clauses::bind_filter;
use crate::sources::source_of;
use catalog::Table;
use query_terms::Term;
use sql_syntax::Expr;
use sqlval::{Name, R};
use std::alloc::Global;
use std::array::from_ref;

/// A WHERE over the rows of a table, which it knows by this name, or one of the refusals that its text has.
/// (`NoSuch`, `Ambiguous`, `Misuse`.)
pub fn bind_where(
    alloc: Global,
    name: &Name,
    table: &Table,
    condition: &Option<Expr>,
) -> R<Option<Term>>
    ensures named { Names (resolve_filter (source_seen name.now table.now ∷ []) condition.now) result }
    ensures not_disk { IfErr result (λ fault. IsNotDiskFault fault) }
{
    let source = source_of(alloc, name, table)?;
    bind_filter(alloc, from_ref(&source).as_slice(), condition)
}
