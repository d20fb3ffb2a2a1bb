//! NEW and OLD, which a trigger's program sees, and RAISE, which stands there alone.

ghost use Rattle.std.specs.Prelude.{◌≡◌, [], true, false, not};
ghost use Rattle.std.specs.List.{list_any};
ghost use Rattle.sqlval.specs.Faults.{IsOrMemory};
ghost use Rattle.sqlval.specs.Names.{is_same_name};
ghost use Rattle.sqlval.specs.Refusals as refusal;
ghost use Rattle.query_terms.specs.Terms as term;
ghost use Rattle.query_names.specs.Checked.{good, unless};
ghost use Rattle.query_names.specs.Named.{Names};
ghost use Rattle.query_names.specs.Scopes.{beside, reached};

use crate::copying::source_copy;
use crate::scope::ScopeSource;
use query_terms::{Node, Term};
use sql_syntax::RaiseAction;
use sqlval::{Fault, Many, Misuse, Name, R, Text};
use std::alloc::Global;

/// Whether a source is found by its name alone, as NEW and OLD are.
fn has_needed(scope: &[ScopeSource]) -> bool
    ensures { result ≡ list_any (λ s. s.needs_name) scope.now }
{
    scope.iter().any(|one| one.needs_name)
}

/// RAISE, in a trigger's program alone. (`Misuse`.)
pub fn bind_raise(alloc: Global, scope: &[ScopeSource], action: RaiseAction, text: &Text) -> R<Term>
    ensures { Names (unless (not (list_any (λ s. s.needs_name) scope.now)) refusal.Misuse
        (good (term.Raise action text.now))) result }
{
    if !has_needed(scope) {
        return Err(Fault::Misuse(Misuse::Raise));
    }
    let text = text.copy(alloc)?;
    Ok(Term {
        node: Node::Raise(action, text),
    })
}

/// Whether a source of the statement has the name.
fn is_taken(names: &[Name], name: &Name) -> bool
    ensures { result ≡ list_any (is_same_name name.now) names.now }
{
    names.iter().any(|other| name.is_same(other.as_str()))
}

/// A source of that name without columns. (`Memory` alone.)
fn hidden(alloc: Global, source: &ScopeSource) -> R<ScopeSource>
    ensures { IsOrMemory (λ seen. seen ≡ record source.now { columns = []; has_rowid = false; is_known = true }) result }
{
    let name = source.name.copy(alloc)?;
    Ok(ScopeSource {
        name,
        columns: Many::new(alloc),
        has_rowid: false,
        needs_name: source.needs_name,
        is_known: true,
    })
}

/// NEW or OLD, as they are reached beside sources of these names. (`Memory` alone.)
fn shown(alloc: Global, names: &[Name], source: &ScopeSource) -> R<ScopeSource>
    ensures { IsOrMemory (λ seen. seen ≡ reached names.now source.now) result }
{
    if is_taken(names, &source.name) {
        hidden(alloc, source)
    } else {
        source_copy(alloc, source)
    }
}

/// NEW and OLD, as far as they are reached beside sources of these names. (`Memory` alone.)
pub fn shown_beside(alloc: Global, outer: &[ScopeSource], names: &[Name]) -> R<Vec<ScopeSource>>
    ensures { IsOrMemory (λ seen. seen.items ≡ beside outer.now names.now) result }
{
    let mut seen = Vec::new(alloc);
    'sources: for source in outer {
        seen.push(shown(alloc, names, source)?)?;
    }
    Ok(seen)
}
