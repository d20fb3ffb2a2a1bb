//! The sources of a query.

ghost use Rattle.std.specs.Prelude.{◌≡◌, ◌++◌, ◌∷◌, [], IfErr, IfOk, OnOk};
ghost use Rattle.sqlval.specs.Faults.{IsOrMemory};
ghost use Rattle.sqlval.specs.Names as spelled;
ghost use Rattle.catalog.specs.Listed.{Listed};
ghost use Rattle.query_names.specs.Bound.{source_seen, columns_seen};
ghost use Rattle.query_names.specs.Checked.{good};
ghost use Rattle.query_names.specs.Named.{Names, NamesBy};
ghost use Rattle.query_names.specs.Queries as meant;
ghost use Rattle.query_names.specs.Queries.{resolve_join};
ghost use Rattle.query_names.specs.Scopes as seen;
ghost use Rattle.query_bind.specs.Named.{ArePlaced, AreTables, IsOriginOf, onto_source, place_seen, source_joined};

use catalog::Table;
use query_names::{
    BoundSource, Condition, Origin, ScopeColumn, ScopeSource, bind_term, folded, scope_column,
};
use sql_syntax::{Expr, JoinKind, Source};
use sqlval::{Fault, Many, Name, R};
use std::alloc::Global;

/// The sources of FROM: what expressions see, each with its condition, and where their rows come from.
#[derive(Drop)]
pub struct Sources {
    pub scope: Vec<ScopeSource>,
    pub joined: Vec<(Name, Condition)>,
    pub origins: Vec<Origin>,
}

/// A table or a view, looked up: its columns, whether it has a rowid, and where its rows come from.
#[derive(Drop)]
pub struct Found {
    pub columns: Many<ScopeColumn>,
    pub has_rowid: bool,
    pub origin: Origin,
}

/// A table's columns, as expressions see them.
fn columns_of(alloc: Global, table: &Table) -> R<Many<ScopeColumn>>
    ensures { IsOrMemory (λ seen. seen ≡ (columns_seen table.now).0) result }
{
    let columns = table.columns.as_slice();
    let own = table.own_column();
    let mut seen = Vec::new(alloc);
    'columns: for place in 0..columns.len() {
        let is_rowid = own == Some(place);
        seen.push(scope_column(alloc, &columns[place], is_rowid)?)?;
    }
    Ok(Many::from_vec(seen))
}

/// A table, looked up.
pub fn table_found(alloc: Global, table: &Table) -> R<Found>
    ensures seen { IsOrMemory (λ found. (found.columns, found.has_rowid) ≡ columns_seen table.now) result }
    ensures placed { IfOk result (λ found. found.origin ≡ Origin.Tree (place_seen table.now)) }
{
    let columns = columns_of(alloc, table)?;
    Ok(Found {
        columns,
        has_rowid: true,
        origin: Origin::Tree(BoundSource {
            root: table.root,
            shape: table.shape(),
        }),
    })
}

/// The name of a source in its query.
pub fn name_of(source: &Source) -> &Name
    ensures { spelled.folded result.now ≡ meant.source_name source.now }
{
    match &source.alias {
        Some(alias) => alias,
        None => &source.name,
    }
}

/// A table as a source of this name.
pub fn source_of(alloc: Global, name: &Name, table: &Table) -> R<ScopeSource>
    ensures { IsOrMemory (λ seen. seen ≡ source_seen name.now table.now) result }
{
    let name = folded(alloc, name)?;
    let columns = columns_of(alloc, table)?;
    Ok(ScopeSource {
        name,
        columns,
        has_rowid: true,
        needs_name: false,
        is_known: true,
    })
}

/// What was looked up, as a source of this name. (`Memory` alone.)
pub fn source_found(alloc: Global, name: &Name, found: Found) -> R<ScopeSource>
    ensures { IsOrMemory (λ source. source ≡ seen.source_of (spelled.folded name.now)
        (good (found.columns, found.has_rowid))) result }
{
    Ok(ScopeSource {
        name: folded(alloc, name)?,
        columns: found.columns,
        has_rowid: found.has_rowid,
        needs_name: false,
        is_known: true,
    })
}

/// What stands after ON.
#[tactic(auto, using(query_names::proofs::PartRefusals::mapped))]
fn condition_of(
    alloc: Global,
    scope: &[ScopeSource],
    kind: JoinKind,
    condition: &Option<Expr>,
) -> R<Condition>
    ensures { Names (resolve_join scope.now kind condition.now) result }
{
    match condition {
        None => Ok(Condition::Always),
        Some(tree) => match kind {
            JoinKind::Left => Ok(Condition::OrNulls(bind_term(alloc, false, scope, tree)?)),
            _ => Ok(Condition::Where(bind_term(alloc, false, scope, tree)?)),
        },
    }
}

/// Notes a further source, whose rows come from there, under this condition.
fn note_source(
    alloc: Global,
    found: &mut Sources,
    name: &Name,
    origin: Origin,
    condition: Condition,
) -> R<()>
    ensures joined { OnOk result (found.new.joined.items ≡ found.old.joined.items ++
        (spelled.folded name.now, condition) ∷ []) }
    ensures placed { OnOk result (found.new.origins.items ≡ found.old.origins.items ++ origin ∷ []) }
    ensures kept { found.new.scope.items ≡ found.old.scope.items }
    ensures refused { IfErr result (λ fault. fault ≡ Fault.Memory) }
{
    let name = folded(alloc, name)?;
    found.joined.push((name, condition))?;
    found.origins.push(origin)?;
    Ok(())
}

/// Adds one more source, which was looked up, with its ON, which sees the sources up to its own.
pub fn join_source(
    alloc: Global,
    found: &mut Sources,
    kind: JoinKind,
    source: &Source,
    condition: &Option<Expr>,
    seen: Found,
) -> R<()>
    ensures named { AreTables found.old.scope.items
        → NamesBy (λ done. (found.new.scope.items, found.new.joined.items))
        (onto_source found.old.joined.items
        (source_joined found.old.scope.items kind source.now condition.now
        (good (seen.columns, seen.has_rowid)))) result }
    ensures seen { AreTables found.old.scope.items → OnOk result (AreTables found.new.scope.items) }
    ensures placed { (l : Listed) → IsOriginOf l source.now.name seen.origin
        → ArePlaced l found.old.joined.items found.old.origins.items
        → OnOk result (ArePlaced l found.new.joined.items found.new.origins.items) }
{
    let origin = seen.origin;
    let here = source_found(alloc, name_of(source), seen)?;
    found.scope.push(here)?;
    let condition = condition_of(alloc, found.scope.as_slice(), kind, condition)?;
    note_source(alloc, found, &source.name, origin, condition)
}
