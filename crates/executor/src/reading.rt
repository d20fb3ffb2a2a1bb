//! The rows of a query.

ghost use Rattle.std.specs.Prelude.{◌≡◌, ◌+◌, ◌∷◌, [], false, length, map, option_map, true, IfErr, IfNone, IfOk, IfSome, IsTrue};
ghost use Rattle.sqlval.specs.Faults.{IsOrMemory};
ghost use Rattle.pages.specs.Calls.{Stays};
ghost use Rattle.catalog.specs.Database.{Database};
ghost use Rattle.catalog.specs.Listed.{listed_in, tables_of, views_of};
ghost use Rattle.query_names.specs.Views.{plain_rows};
ghost use Rattle.query_names.specs.declared.queries.BoundSource.{BoundSource as Place};
ghost use Rattle.query_names.specs.declared.queries.Origin.TheVariants as source;
ghost use Rattle.query_answer.specs.Answers.{HaveWidth};
ghost use Rattle.query_answer.specs.Parts.{GivesInOrder, answer_on, is_row_by_row as row_by_row};
ghost use Rattle.query_view.specs.Seen.{answer_through};
ghost use Rattle.row_scan.specs.Rows.{values_of};
ghost use Rattle.row_scan.specs.Sources.{places_shown};
ghost use Rattle.executor.specs.Reading.{AnswersAsked, AnswersBound, AnswersRead, IsLoaded, IsScanned, IsSearched, IsStreamed, LoadsNeeded, LoadsSought, LoadsSource, LoadsSources, ReadsView, Streams, source_table};
ghost use Rattle.db_pages.specs.Stored.{Stores};
ghost use Rattle.executor.specs.Works.{read_on};

use crate::shown::{only_tree, seen_view, shown_table, streamed_view, view_of};
use catalog::{Catalog, Table, View, listed_tables_are_found};
use pages::Pages;
use query_answer::{
    GivenRows, answer, finish, give_rows, is_row_by_row, rows_are_given_in_parts,
    rows_are_loaded_beside_conditions, search_at, searches_as_scans,
};
use query_bind::{BoundReading, bind_reading};
use query_filter::Filter;
use query_names::{BoundSource, Origin, Reading, sources_are_known, views_are_known};
use query_terms::{Place, SourceRow};
use query_view::{SeenRows, finish_seen, see_rows};
use row_scan::{Rows, next_shown_rows, rows_are_held, shown_rows, source_rows};
use row_search::found_rows;
use sql_syntax::Query;
use sqlval::{Fault, Many, R, Value};
use std::alloc::Global;
use std::rc::Rc;
use tree_table::{Batch, Cursor};

/// How many views may stand one within another.
pub(crate) const MAX_VIEWS: usize = 64;

/// The table that a query's source of a number is, if there is one of its name.
fn table_of<'a>(catalog: &'a Catalog, reading: &Reading, source: usize) -> Option<&'a Table>
    ensures { option_map (λ table. table.now) result ≡ source_table
        (tables_of catalog.now) reading.now.sources source }
{
    let (name, _) = reading.sources.as_slice().get(source)?;
    catalog.table(name.as_str())
}

/// The rows of a query's source that it needs, by rising rowid: those that what it seeks of the source finds, or all. (What `search_at`,
/// `found_rows` and `source_rows` refuse.)
fn needed_rows<P: Pages>(
    alloc: Global,
    pages: &mut P,
    catalog: &Catalog,
    reading: &Reading,
    source: usize,
    place: BoundSource,
) -> R<Many<SourceRow>>
    ensures loaded { IsTrue (P.Pages.tells (P.Pages.below pages.old))
        → LoadsNeeded (P.Pages.map pages.old) (P.Pages.limits (P.Pages.below pages.old)).page
        (tables_of catalog.now) reading.now source place result }
    ensures exact { IsTrue (P.Pages.tells (P.Pages.below pages.old))
        → LoadsSought (P.Pages.map pages.old) (P.Pages.limits (P.Pages.below pages.old)).page
        (tables_of catalog.now) reading.now source place result }
    ensures stays { Stays P.Pages.below P.Pages.map P.Pages.count P.Pages.failures result pages.old pages.new }
{
    let Some(table) = table_of(catalog, reading, source) else {
        return source_rows(alloc, pages, place);
    };
    let indexes = table.indexes.as_slice();
    searches_as_scans();
    match search_at(alloc, reading, source, indexes)? {
        Some(search) => found_rows(alloc, pages, place, indexes, search),
        None => source_rows(alloc, pages, place),
    }
}

/// The rows of a query that is row by row: the tree of a table is read leaf by leaf, and no more of it is held than one leaf. Its source has the rows
/// of the table, or what is shown of them. (What `next_shown_rows`, `give_rows` and `finish` refuse.)
fn streamed_rows<P: Pages>(
    alloc: Global,
    pages: &mut P,
    reading: &Reading,
    table: BoundSource,
    shown: Option<&Rc<Vec<Place>>>,
) -> R<Rows>
    requires { row_by_row reading.now ≡ true }
    ensures answered { IsTrue (P.Pages.tells (P.Pages.below pages.old))
        → Streams (λ rows. map values_of rows.items) (answer_on reading.now) (P.Pages.map pages.old)
        (P.Pages.limits (P.Pages.below pages.old)).page table (places_shown shown.entry) result }
    ensures wide { IfOk result (λ rows. HaveWidth (length reading.now.results) (map values_of rows.items)) }
    ensures stays { Stays P.Pages.below P.Pages.map P.Pages.count P.Pages.failures result pages.old pages.new }
{
    rows_are_given_in_parts();
    rows_are_held();
    let filter = Filter::new(alloc, &reading.filter)?;
    let mut found = GivenRows::new(alloc, reading)?;
    let mut rows = Many::new(alloc);
    let mut batch = Batch::new(alloc);
    let mut cursor = Cursor::new(table.root);
    'leaves: while cursor.next.is_some() {
        rows = next_shown_rows(
            alloc,
            pages,
            &mut cursor,
            &mut batch,
            table.shape.own,
            shown,
            rows,
        )?;
        give_rows(alloc, reading, &filter, &rows, &mut found)?;
    }
    finish(alloc, reading, found)
}

/// The rows of a query over a view whose own query gives each row by itself, where both are row by row: the tree of the table under the view is read leaf
/// by leaf, and no more of it, or of the view's rows, is held than one leaf makes. (What `next_shown_rows`, `see_rows` and `finish_seen` refuse.)
fn seen_rows<P: Pages>(
    alloc: Global,
    pages: &mut P,
    reading: &Reading,
    view: &Reading,
    table: BoundSource,
    shown: Option<&Rc<Vec<Place>>>,
) -> R<Rows>
    requires row_by_row { row_by_row reading.now ≡ true }
    requires in_order { GivesInOrder view.now }
    ensures answered { IsTrue (P.Pages.tells (P.Pages.below pages.old))
        → Streams (λ rows. map values_of rows.items) (answer_through view.now reading.now) (P.Pages.map pages.old)
        (P.Pages.limits (P.Pages.below pages.old)).page table (places_shown shown.entry) result }
    ensures wide { IfOk result (λ rows. HaveWidth (length reading.now.results) (map values_of rows.items)) }
    ensures stays { Stays P.Pages.below P.Pages.map P.Pages.count P.Pages.failures result pages.old pages.new }
{
    rows_are_held();
    let filter = Filter::new(alloc, &reading.filter)?;
    let inner = Filter::new(alloc, &view.filter)?;
    let mut seen = SeenRows::new(alloc, reading)?;
    let mut rows = Many::new(alloc);
    let mut batch = Batch::new(alloc);
    let mut cursor = Cursor::new(table.root);
    'leaves: while cursor.next.is_some() {
        rows = next_shown_rows(
            alloc,
            pages,
            &mut cursor,
            &mut batch,
            table.shape.own,
            shown,
            rows,
        )?;
        see_rows(alloc, view, &inner, reading, &filter, &rows, &mut seen)?;
    }
    finish_seen(alloc, reading, seen)
}

/// Whether a query seeks something of a source. (`Memory`.)
fn seeks(alloc: Global, catalog: &Catalog, reading: &Reading, source: usize) -> R<bool>
    ensures seen { IfOk result (λ seeks. seeks ≡ true
        → IsSearched (tables_of catalog.now) reading.now source) }
    ensures only { IfOk result (λ seeks. seeks ≡ false
        → IsScanned (tables_of catalog.now) reading.now source) }
    ensures refused { IfErr result (λ fault. fault ≡ Fault.Memory) }
{
    match table_of(catalog, reading, source) {
        Some(table) => Ok(search_at(alloc, reading, source, table.indexes.as_slice())?.is_some()),
        None => Ok(false),
    }
}

/// The only source of a query that is row by row, where it is a table of which the query seeks nothing. (`Memory`.)
pub(crate) fn streamed_source(
    alloc: Global,
    catalog: &Catalog,
    bound: &BoundReading,
) -> R<Option<BoundSource>>
    ensures is { IfOk result (λ found. IfSome found (IsStreamed (tables_of catalog.now) bound.now)) }
    ensures only { IfOk result (λ found. IfNone found (IsLoaded (tables_of catalog.now) bound.now)) }
    ensures refused { IfErr result (λ fault. fault ≡ Fault.Memory) }
{
    let Some(place) = only_tree(bound.origins.as_slice()) else {
        return Ok(None);
    };
    if !is_row_by_row(&bound.reading) || seeks(alloc, catalog, &bound.reading, 0)? {
        return Ok(None);
    }
    Ok(Some(place))
}

/// The rows of an answer, without rowids, as those of a source. (`Memory` alone.)
fn made_rows(alloc: Global, rows: Rows) -> R<Many<SourceRow>>
    ensures { IsOrMemory (λ made. made ≡ plain_rows (map values_of rows.items)) result }
{
    let mut made = Vec::with_capacity(alloc, rows.len())?;
    'rows: for row in rows {
        let values = Many::from_vec(row.into_vec()?);
        made.push(SourceRow::made(Value::Null, values))?;
    }
    Ok(Many::from_vec(made))
}

/// All rows of a view, in the order of its answer, where up to `room` views stand one within another. (What `bind_reading` and `rows_within`
/// refuse.)
#[cycle(rows_within)]
pub(crate) fn view_rows<P: Pages>(
    alloc: Global,
    pages: &mut P,
    catalog: &Catalog,
    room: usize,
    view: &View,
) -> R<Many<SourceRow>>
    ensures read { IsTrue (P.Pages.tells (P.Pages.below pages.old))
        → ReadsView (P.Pages.map pages.old) (P.Pages.limits (P.Pages.below pages.old)).page
        (listed_in catalog.now) room view.now result }
    ensures stays { Stays P.Pages.below P.Pages.map P.Pages.count P.Pages.failures result pages.old pages.new }
{
    views_are_known();
    listed_tables_are_found();
    rows_are_loaded_beside_conditions();
    if room == 0 {
        return Err(Fault::TooLong);
    }
    match shown_table(alloc, catalog, view)? {
        Some(shown) => shown_rows(alloc, pages, shown.table, Some(&shown.places)),
        None => answered_rows(alloc, pages, catalog, room - 1, view),
    }
}

/// The rows that the query of a view answers, as those of a source, where up to `room` views stand within it. (What `bind_reading` and `rows_within`
/// refuse.)
#[cycle(rows_within)]
fn answered_rows<P: Pages>(
    alloc: Global,
    pages: &mut P,
    catalog: &Catalog,
    room: usize,
    view: &View,
) -> R<Many<SourceRow>>
    ensures read { IsTrue (P.Pages.tells (P.Pages.below pages.old))
        → ReadsView (P.Pages.map pages.old) (P.Pages.limits (P.Pages.below pages.old)).page
        (listed_in catalog.now) (room + 1) view.now result }
    ensures stays { Stays P.Pages.below P.Pages.map P.Pages.count P.Pages.failures result pages.old pages.new }
{
    views_are_known();
    listed_tables_are_found();
    let bound = bind_reading(alloc, catalog, &view.definition.query)?;
    let rows = rows_within(alloc, pages, catalog, room, &bound)?;
    made_rows(alloc, rows)
}

/// The rows of a query's source: of a table those that the query needs, and all of a view. (What `needed_rows` and `view_rows` refuse.)
#[cycle(rows_within)]
fn rows_of_source<P: Pages>(
    alloc: Global,
    pages: &mut P,
    catalog: &Catalog,
    room: usize,
    reading: &Reading,
    source: usize,
    origin: Origin,
) -> R<Many<SourceRow>>
    ensures loaded { IsTrue (P.Pages.tells (P.Pages.below pages.old))
        → LoadsSource (P.Pages.map pages.old) (P.Pages.limits (P.Pages.below pages.old)).page
        (listed_in catalog.now) room reading.now source origin result }
    ensures stays { Stays P.Pages.below P.Pages.map P.Pages.count P.Pages.failures result pages.old pages.new }
{
    match origin {
        Origin::Tree(place) => needed_rows(alloc, pages, catalog, reading, source, place),
        Origin::View => match view_of(catalog, reading, source) {
            Some(view) => view_rows(alloc, pages, catalog, room, view),
            None => Ok(Many::new(alloc)),
        },
    }
}

/// The rows of each source of a query, in their order, until one is refused. (What `rows_of_source` refuses.)
#[cycle(rows_within)]
fn load_sources<P: Pages>(
    alloc: Global,
    pages: &mut P,
    catalog: &Catalog,
    room: usize,
    reading: &Reading,
    origins: &[Origin],
) -> R<Vec<Many<SourceRow>>>
    ensures loaded { IsTrue (P.Pages.tells (P.Pages.below pages.old))
        → LoadsSources (λ sources. sources.items) (P.Pages.map pages.old)
        (P.Pages.limits (P.Pages.below pages.old)).page
        (listed_in catalog.now) room reading.now origins.now result }
    ensures stays { Stays P.Pages.below P.Pages.map P.Pages.count P.Pages.failures result pages.old pages.new }
{
    let mut sources = Vec::new(alloc);
    let mut left = origins;
    'sources: while let Some((origin, rest)) = left.split_first() {
        let source = sources.len();
        let rows = rows_of_source(alloc, pages, catalog, room, reading, source, *origin)?;
        sources.push(rows)?;
        left = rest;
    }
    Ok(sources)
}

/// The rows of a query over the rows of its sources that it needs. (What `load_sources` and `answer` refuse.)
#[cycle(rows_within)]
fn loaded_rows<P: Pages>(
    alloc: Global,
    pages: &mut P,
    catalog: &Catalog,
    room: usize,
    bound: &BoundReading,
) -> R<Rows>
    ensures answered { IsTrue (P.Pages.tells (P.Pages.below pages.old))
        → AnswersBound (λ rows. map values_of rows.items) (P.Pages.map pages.old)
        (P.Pages.limits (P.Pages.below pages.old)).page
        (listed_in catalog.now) room bound.now result }
    ensures wide { IfOk result (λ rows. HaveWidth (length bound.now.reading.results)
        (map values_of rows.items)) }
    ensures stays { Stays P.Pages.below P.Pages.map P.Pages.count P.Pages.failures result pages.old pages.new }
{
    rows_are_loaded_beside_conditions();
    let origins = bound.origins.as_slice();
    let sources = load_sources(alloc, pages, catalog, room, &bound.reading, origins)?;
    answer(alloc, &bound.reading, 0, &sources)
}

/// The rows of a query whose names are looked up, where up to `room` views stand one within another. (What `streamed_source`, `streamed_rows`
/// and `loaded_rows` refuse; `Memory`.)
#[cycle(rows_within)]
fn rows_within<P: Pages>(
    alloc: Global,
    pages: &mut P,
    catalog: &Catalog,
    room: usize,
    bound: &BoundReading,
) -> R<Rows>
    ensures answered { IsTrue (P.Pages.tells (P.Pages.below pages.old))
        → AnswersBound (λ rows. map values_of rows.items) (P.Pages.map pages.old)
        (P.Pages.limits (P.Pages.below pages.old)).page
        (listed_in catalog.now) room bound.now result }
    ensures wide { IfOk result (λ rows. HaveWidth (length bound.now.reading.results)
        (map values_of rows.items)) }
    ensures stays { Stays P.Pages.below P.Pages.map P.Pages.count P.Pages.failures result pages.old pages.new }
{
    rows_are_loaded_beside_conditions();
    listed_tables_are_found();
    views_are_known();
    if let Some(place) = streamed_source(alloc, catalog, bound)? {
        return streamed_rows(alloc, pages, &bound.reading, place, None);
    }
    if let Some(shown) = streamed_view(alloc, catalog, room, bound)? {
        let places = Some(&shown.places);
        return streamed_rows(alloc, pages, &bound.reading, shown.table, places);
    }
    match seen_view(alloc, catalog, room, bound)? {
        Some(seen) => {
            let places = seen.places.as_ref();
            seen_rows(alloc, pages, &bound.reading, &seen.view, seen.table, places)
        }
        None => loaded_rows(alloc, pages, catalog, room, bound),
    }
}

/// The rows of a statement's query whose names are looked up. (What `rows_within` refuses.)
pub(crate) fn bound_rows<P: Pages>(
    alloc: Global,
    pages: &mut P,
    catalog: &Catalog,
    bound: &BoundReading,
) -> R<Rows>
    ensures answered { IsTrue (P.Pages.tells (P.Pages.below pages.old))
        → AnswersAsked (λ rows. map values_of rows.items) (P.Pages.map pages.old)
        (P.Pages.limits (P.Pages.below pages.old)).page
        (listed_in catalog.now) bound.now result }
    ensures wide { IfOk result (λ rows. HaveWidth (length bound.now.reading.results)
        (map values_of rows.items)) }
    ensures stays { Stays P.Pages.below P.Pages.map P.Pages.count P.Pages.failures result pages.old pages.new }
{
    sources_are_known();
    rows_within(alloc, pages, catalog, MAX_VIEWS, bound)
}

/// The rows of a query. (What `bind_reading` and `bound_rows` refuse.)
pub fn read<P: Pages>(alloc: Global, pages: &mut P, catalog: &Catalog, query: &Query) -> R<Rows>
    ensures answered { (db : Database) → IsTrue (P.Pages.tells (P.Pages.below pages.old))
        → Stores (P.Pages.map pages.old) (P.Pages.limits (P.Pages.below pages.old)).page
        (listed_in catalog.now) db
        → AnswersRead (λ rows. map values_of rows.items) (read_on db query.now) result }
    ensures stays { Stays P.Pages.below P.Pages.map P.Pages.count P.Pages.failures result pages.old pages.new }
{
    let bound = bind_reading(alloc, catalog, query)?;
    bound_rows(alloc, pages, catalog, &bound)
}
