//! Views that show values of each row of a table.

ghost use Rattle.std.specs.Prelude.{◌≡◌, ◌∷◌, [], IfErr, IfNone, IfOk, IfSome, IsTrue, option_map};
ghost use Rattle.catalog.specs.Listed.{listed_in, views_of};
ghost use Rattle.query_names.specs.declared.queries.BoundSource.{BoundSource as Tree};
ghost use Rattle.query_names.specs.declared.queries.Origin.TheVariants as source;
ghost use Rattle.executor.specs.Reading.{IsSeenView, IsStreamedView, SeesTable, ShowsTable, source_view};

use crate::reading::streamed_source;
use catalog::{Catalog, View};
use query_answer::{gives_in_order, is_row_by_row, shown_places};
use query_bind::{BoundReading, bind_reading};
use query_names::{BoundSource, Origin, Reading};
use query_terms::Place;
use sqlval::{Fault, R};
use std::alloc::Global;
use std::rc::Rc;

/// The table that a query's only source is, where it has one source and that is a table.
pub(crate) fn only_tree(origins: &[Origin]) -> Option<BoundSource>
    ensures is { IfSome result (λ place. origins.now ≡ source.Tree place ∷ []) }
    ensures none { IfNone result ((place : Tree) → origins.now ≡ source.Tree place ∷ [] → ⊥) }
{
    let (first, rest) = origins.split_first()?;
    if !rest.is_empty() {
        return None;
    }
    match *first {
        Origin::Tree(place) => Some(place),
        Origin::View => None,
    }
}

/// The view that a query's source of a number is, if there is one of its name.
pub(crate) fn view_of<'a>(
    catalog: &'a Catalog,
    reading: &Reading,
    source: usize,
) -> Option<&'a View>
    ensures { option_map (λ view. view.now) result ≡ source_view
        (views_of catalog.now) reading.now.sources source }
{
    let (name, _) = reading.sources.as_slice().get(source)?;
    catalog.view(name.as_str())
}

/// A table, and the places of the values of its rows that a view shows.
#[derive(Drop)]
pub(crate) struct ShownTable {
    pub table: BoundSource,
    pub places: Rc<Vec<Place>>,
}

/// The table of which a view shows each row, in their order: of each the values at some places. None of another view, and where it isn't looked up.
/// (`Memory`.)
pub(crate) fn shown_table(alloc: Global, catalog: &Catalog, view: &View) -> R<Option<ShownTable>>
    ensures shown { IfOk result (λ found. IfSome found (λ shown. ShowsTable
        (listed_in catalog.now) view.now shown.table shown.places.value.items)) }
    ensures refused { IfErr result (λ fault. fault ≡ Fault.Memory) }
{
    let Ok(bound) = bind_reading(alloc, catalog, &view.definition.query) else {
        return Ok(None);
    };
    let Some(table) = only_tree(bound.origins.as_slice()) else {
        return Ok(None);
    };
    match shown_places(alloc, &bound.reading)? {
        Some(places) => {
            let places = Rc::new(alloc, places)?;
            Ok(Some(ShownTable { table, places }))
        }
        None => Ok(None),
    }
}

/// Whether a query's only source is a view.
fn is_only_view(origins: &[Origin]) -> bool
    ensures { IsTrue result → origins.now ≡ source.View ∷ [] }
{
    matches!(origins, [Origin::View])
}

/// What the only source of a query that is row by row shows, where that is a view that shows each row of a table. None where no view may stand within
/// the query. (`Memory`.)
pub(crate) fn streamed_view(
    alloc: Global,
    catalog: &Catalog,
    room: usize,
    bound: &BoundReading,
) -> R<Option<ShownTable>>
    ensures is { IfOk result (λ found. IfSome found (λ shown. IsStreamedView
        (listed_in catalog.now) room bound.now shown.table shown.places.value.items)) }
    ensures refused { IfErr result (λ fault. fault ≡ Fault.Memory) }
{
    if room == 0 || !is_only_view(bound.origins.as_slice()) || !is_row_by_row(&bound.reading) {
        return Ok(None);
    }
    match view_of(catalog, &bound.reading, 0) {
        Some(view) => shown_table(alloc, catalog, view),
        None => Ok(None),
    }
}

/// A table, or what is shown of its rows, as the source of a view's query.
#[derive(Drop)]
pub(crate) struct SeenTable {
    pub view: Reading,
    pub table: BoundSource,
    pub places: Option<Rc<Vec<Place>>>,
}

/// The table that a view's query goes over, where it gives each row by itself: a table of which it seeks nothing, or a view that shows values of one's
/// rows. None of another view, and where it isn't looked up. (`Memory`.)
fn seen_table(alloc: Global, catalog: &Catalog, room: usize, view: &View) -> R<Option<SeenTable>>
    ensures sees { IfOk result (λ found. IfSome found (λ seen. SeesTable (listed_in catalog.now) room view.now
        seen.view seen.table (option_map (λ places. places.value.items) seen.places))) }
    ensures refused { IfErr result (λ fault. fault ≡ Fault.Memory) }
{
    let Ok(bound) = bind_reading(alloc, catalog, &view.definition.query) else {
        return Ok(None);
    };
    if !gives_in_order(&bound.reading) {
        return Ok(None);
    }
    if let Some(table) = streamed_source(alloc, catalog, &bound)? {
        let view = bound.reading;
        let places = None;
        return Ok(Some(SeenTable {
            view,
            table,
            places,
        }));
    }
    match streamed_view(alloc, catalog, room, &bound)? {
        Some(shown) => {
            let view = bound.reading;
            let places = Some(shown.places);
            let table = shown.table;
            Ok(Some(SeenTable {
                view,
                table,
                places,
            }))
        }
        None => Ok(None),
    }
}

/// What the only source of a query that is row by row goes over, where that is a view whose query gives each row by itself. None where no view may
/// stand within the query. (`Memory`.)
pub(crate) fn seen_view(
    alloc: Global,
    catalog: &Catalog,
    room: usize,
    bound: &BoundReading,
) -> R<Option<SeenTable>>
    ensures is { IfOk result (λ found. IfSome found (λ seen. IsSeenView (listed_in catalog.now) room bound.now
        seen.view seen.table (option_map (λ places. places.value.items) seen.places))) }
    ensures refused { IfErr result (λ fault. fault ≡ Fault.Memory) }
{
    if room == 0 || !is_only_view(bound.origins.as_slice()) || !is_row_by_row(&bound.reading) {
        return Ok(None);
    }
    match view_of(catalog, &bound.reading, 0) {
        Some(view) => seen_table(alloc, catalog, room - 1, view),
        None => Ok(None),
    }
}
