//! The sources of a query, looked up among tables and views. A view's query is looked up where the view is used.

ghost use Rattle.std.specs.Prelude.{◌≡◌, ◌∷◌, [], false, map, IfOk, OnOk, slice_get};
ghost use Rattle.std.specs.List.{list_any};
ghost use Rattle.sqlval.specs.Faults.{IsOrMemory};
ghost use Rattle.sqlval.specs.Names as spelled;
ghost use Rattle.sqlval.specs.Names.{is_same_name};
ghost use Rattle.catalog.specs.Listed.{as_view, listed_in, names_listed};
ghost use Rattle.query_names.specs.Checked.{good};
ghost use Rattle.query_names.specs.Known.{columns_in};
ghost use Rattle.query_names.specs.Named.{NamesBy};
ghost use Rattle.query_names.specs.Queries.{resolve_query, resolve_sources};
ghost use Rattle.query_names.specs.Views as meant;
ghost use Rattle.query_bind.specs.Named.{ArePlaced, AreTables, IsOriginOf, column_renamed, onto_source, onto_sources, outer_shown, resolve_source, sources_from, view_in};

use crate::beside::outer_beside;
use crate::copying::column_copy;
use crate::querying::{BoundReading, bind_clauses};
use crate::sources::{Found, Sources, join_source, table_found};
use catalog::{Catalog, View};
use query_names::{Origin, Reading, ScopeColumn, ScopeSource, folded, missing};
use sql_syntax::{Expr, FromClause, Join, JoinKind, Query, Source, ViewDefinition};
use sqlval::{Fault, Many, Misuse, Name, Object, R};
use std::alloc::Global;

/// Whether one of these names is this one.
fn is_among(names: &[Name], name: &Name) -> bool
    ensures { result ≡ list_any (is_same_name name.now) names.now }
{
    names.iter().any(|other| name.is_same(other.as_str()))
}

/// A name, folded, and these after it. (`Memory` alone.)
fn with_name(alloc: Global, name: &Name, names: &[Name]) -> R<Vec<Name>>
    ensures { IsOrMemory (λ all. all.items ≡ spelled.folded name.now ∷ names.now) result }
{
    let mut all = Vec::new(alloc);
    all.push(folded(alloc, name)?)?;
    'names: for other in names {
        all.push(other.copy(alloc)?)?;
    }
    Ok(all)
}

/// The names that a view lists.
fn names_of(definition: &ViewDefinition) -> &[Name]
    ensures { result.now ≡ names_listed definition.now }
{
    match &definition.columns {
        Some(names) => names.as_slice(),
        None => &[],
    }
}

/// A copy of a column under the name at its place in a list, or under its own where there is none. (`Memory` alone.)
fn renamed_column(
    alloc: Global,
    names: &[Name],
    place: usize,
    column: &ScopeColumn,
) -> R<ScopeColumn>
    ensures { IsOrMemory (λ copy. copy ≡ column_renamed (slice_get names.now place) column.now) result }
{
    match names.get(place) {
        Some(name) => Ok(ScopeColumn {
            name: Some(folded(alloc, name)?),
            affinity: column.affinity,
            collation: column.collation,
            is_rowid: column.is_rowid,
        }),
        None => column_copy(alloc, column, column.is_rowid),
    }
}

/// Copies of columns under the names of a list. (`Memory` alone.)
fn renamed(alloc: Global, names: &[Name], columns: &[ScopeColumn]) -> R<Vec<ScopeColumn>>
    ensures { IsOrMemory (λ copies. copies.items ≡ meant.renamed
        (map spelled.folded names.now) columns.now) result }
{
    let mut copies = Vec::new(alloc);
    'columns: for place in 0..columns.len() {
        copies.push(renamed_column(alloc, names, place, &columns[place])?)?;
    }
    Ok(copies)
}

/// The columns of a view whose query has this reading: its columns under the names of the view's list, which must be as many.
fn listed_columns(alloc: Global, view: &View, reading: &Reading) -> R<Many<ScopeColumn>>
    ensures { reading.now.is_open ≡ false
        → NamesBy (λ columns. (columns, false)) (meant.view_columns (as_view view.now) (good reading.now)) result }
{
    let names = names_of(&view.definition);
    let columns = reading.columns.as_slice();
    if !names.is_empty() && names.len() != columns.len() {
        return Err(Fault::Misuse(Misuse::Count));
    }
    Ok(Many::from_vec(renamed(alloc, names, columns)?))
}

/// The columns of a view, with room for so many views one within another; around are the views that it stands in.
#[cycle(views)]
fn bind_view(
    alloc: Global,
    catalog: &Catalog,
    room: usize,
    around: &[Name],
    name: &Name,
    view: &View,
) -> R<Many<ScopeColumn>>
    ensures { NamesBy (λ columns. (columns, false))
        (view_in room (listed_in catalog.now) around.now name.now view.now) result }
{
    if is_among(around, name) {
        return Err(Fault::Misuse(Misuse::ViewInItself));
    }
    if room == 0 {
        return Err(Fault::TooLong);
    }
    let within = with_name(alloc, name, around)?;
    let bound = bind_query(
        alloc,
        catalog,
        room - 1,
        within.as_slice(),
        &[],
        &view.definition.query,
    )?;
    listed_columns(alloc, view, &bound.reading)
}

/// A view, looked up.
#[cycle(views)]
fn view_found(
    alloc: Global,
    catalog: &Catalog,
    room: usize,
    around: &[Name],
    name: &Name,
    view: &View,
) -> R<Found>
    ensures named { NamesBy (λ found. (found.columns, found.has_rowid))
        (view_in room (listed_in catalog.now) around.now name.now view.now) result }
    ensures placed { IfOk result (λ found. found.origin ≡ Origin.View) }
{
    let columns = bind_view(alloc, catalog, room, around, name, view)?;
    Ok(Found {
        columns,
        has_rowid: false,
        origin: Origin::View,
    })
}

/// The table, or else the view, of a name.
#[cycle(views)]
pub fn find_source(
    alloc: Global,
    catalog: &Catalog,
    room: usize,
    around: &[Name],
    name: &Name,
) -> R<Found>
    ensures named { NamesBy (λ found. (found.columns, found.has_rowid))
        (columns_in room (listed_in catalog.now) around.now name.now) result }
    ensures placed { IfOk result (λ found. IsOriginOf (listed_in catalog.now) name.now found.origin) }
{
    match catalog.table(name.as_str()) {
        Some(table) => table_found(alloc, table),
        None => match catalog.view(name.as_str()) {
            Some(view) => view_found(alloc, catalog, room, around, name, view),
            None => Err(missing(alloc, Object::Table, name)),
        },
    }
}

/// Looks up one more source and its ON.
#[cycle(views)]
fn add_source(
    alloc: Global,
    catalog: &Catalog,
    room: usize,
    around: &[Name],
    found: &mut Sources,
    kind: JoinKind,
    source: &Source,
    condition: &Option<Expr>,
) -> R<()>
    ensures named { AreTables found.old.scope.items
        → NamesBy (λ done. (found.new.scope.items, found.new.joined.items))
        (onto_source found.old.joined.items
        (resolve_source (columns_in room (listed_in catalog.now) around.now) found.old.scope.items kind
        source.now condition.now)) result }
    ensures seen { AreTables found.old.scope.items → OnOk result (AreTables found.new.scope.items) }
    ensures placed { ArePlaced (listed_in catalog.now) found.old.joined.items found.old.origins.items
        → OnOk result (ArePlaced (listed_in catalog.now) found.new.joined.items found.new.origins.items) }
{
    let seen = find_source(alloc, catalog, room, around, &source.name)?;
    join_source(alloc, found, kind, source, condition, seen)
}

/// The sources after the first, each after those before it.
#[cycle(views)]
fn add_joins(
    alloc: Global,
    catalog: &Catalog,
    room: usize,
    around: &[Name],
    found: &mut Sources,
    joins: &[Join],
) -> R<()>
    ensures named { AreTables found.old.scope.items
        → NamesBy (λ done. (found.new.scope.items, found.new.joined.items))
        (onto_sources found.old.joined.items
        (resolve_sources (columns_in room (listed_in catalog.now) around.now) found.old.scope.items joins.now)) result }
    ensures seen { AreTables found.old.scope.items → OnOk result (AreTables found.new.scope.items) }
    ensures placed { ArePlaced (listed_in catalog.now) found.old.joined.items found.old.origins.items
        → OnOk result (ArePlaced (listed_in catalog.now) found.new.joined.items found.new.origins.items) }
{
    'joins: for join in joins {
        add_source(
            alloc,
            catalog,
            room,
            around,
            found,
            join.kind,
            &join.source,
            &join.condition,
        )?;
    }
    Ok(())
}

/// The sources of a query, after those of the trigger that it stands in.
#[cycle(views)]
fn bind_sources(
    alloc: Global,
    catalog: &Catalog,
    room: usize,
    around: &[Name],
    outer: &[ScopeSource],
    from: &Option<FromClause>,
) -> R<Sources>
    ensures named { AreTables outer.now → NamesBy (λ found. (found.scope.items, found.joined.items))
        (resolve_sources (columns_in room (listed_in catalog.now) around.now) (outer_shown outer.now from.now)
        (sources_from from.now)) result }
    ensures seen { AreTables outer.now → IfOk result (λ found. AreTables found.scope.items) }
    ensures placed { IfOk result (λ found. ArePlaced
        (listed_in catalog.now) found.joined.items found.origins.items) }
{
    let mut found = Sources {
        scope: outer_beside(alloc, outer, from)?,
        joined: Vec::new(alloc),
        origins: Vec::new(alloc),
    };
    if let Some(from) = from {
        add_source(
            alloc,
            catalog,
            room,
            around,
            &mut found,
            JoinKind::Comma,
            &from.first,
            &None,
        )?;
        add_joins(
            alloc,
            catalog,
            room,
            around,
            &mut found,
            from.joins.as_slice(),
        )?;
    }
    Ok(found)
}

/// A query's reading, and where its sources' rows come from, with room for so many views one within another; around are the views that
/// it stands in, and outer what it sees of a trigger.
#[cycle(views)]
pub fn bind_query(
    alloc: Global,
    catalog: &Catalog,
    room: usize,
    around: &[Name],
    outer: &[ScopeSource],
    query: &Query,
) -> R<BoundReading>
    ensures named { AreTables outer.now → NamesBy (λ bound. bound.reading)
        (resolve_query (columns_in room (listed_in catalog.now) around.now) outer.now query.now) result }
    ensures placed { AreTables outer.now → IfOk result (λ bound. ArePlaced
        (listed_in catalog.now) bound.reading.sources bound.origins) }
    ensures closed { IfOk result (λ bound. bound.reading.is_open ≡ false) }
{
    let Sources {
        scope,
        joined,
        origins,
    } = bind_sources(alloc, catalog, room, around, outer, &query.from)?;
    let reading = bind_clauses(alloc, outer.len(), scope.as_slice(), joined, query)?;
    Ok(BoundReading {
        reading,
        origins: Many::from_vec(origins),
    })
}
