//! The rows that an UPDATE or a DELETE chooses, all of them before the first is changed.

ghost use Rattle.std.specs.Prelude.{◌≡◌, ◌++◌, ◌∷◌, [], length, map, IfErr, IsTrue, List, OnOk, if◌then◌else◌};
ghost use Rattle.sqlval.specs.Faults.{IsNotDiskFault, IsOrMemory};
ghost use Rattle.pages.specs.Calls.{Stays};
ghost use Rattle.catalog.specs.Database.{Database};
ghost use Rattle.catalog.specs.Listed.{listed_in};
ghost use Rattle.query_names.specs.Known.{IsKnownIn};
ghost use Rattle.query_terms.specs.Outcome.{AnswersBy};
ghost use Rattle.query_terms.specs.Rows.{picked_rows, row_at};
ghost use Rattle.query_terms.specs.Values as meant_row;
ghost use Rattle.row_scan.specs.Trees.{AnswersOrFails};
ghost use Rattle.row_change.specs.Changes.{Outer};
ghost use Rattle.trigger.specs.Effects as meant;
ghost use Rattle.db_pages.specs.Stored.{Stores};
ghost use Rattle.executor_programs.specs.Choosing.{rows_chosen};
ghost use Rattle.executor_programs.specs.Outer.{Shows, is_true as condition_is_true, only};

use crate::outer::{OuterRows, first_places, is_true, row_copy, with_source};
use crate::seeking::rows_to_ask;
use catalog::Catalog;
use pages::Pages;
use query_terms::{SourceRow, Term};
use sqlval::{Fault, Many, Name, R, Value};
use std::alloc::Global;

/// Whether a condition is true where a row of the next source is picked too, or there is none. (What `is_true` refuses.)
fn is_true_at(
    alloc: Global,
    condition: &Option<Term>,
    sources: &[Many<SourceRow>],
    picked: &mut Vec<usize>,
    place: usize,
) -> R<bool>
    ensures tested { AnswersBy (λ test. test) (condition_is_true condition.now
        (picked_rows sources.now (picked.old.items ++ place ∷ []))) result }
    ensures kept { OnOk result (picked.new.items ≡ picked.old.items) }
{
    picked.push(place)?;
    let test = is_true(alloc, condition, sources, picked)?;
    picked.pop();
    Ok(test)
}

/// Adds a place, if the row there is chosen. (`Memory` alone.)
fn push_if(places: &mut Vec<usize>, place: usize, is_chosen: bool) -> R<()>
    ensures pushed { OnOk result (places.new.items
        ≡ (if is_chosen then places.old.items ++ place ∷ [] else places.old.items)) }
    ensures refused { IfErr result (λ fault. fault ≡ Fault.Memory) }
{
    if is_chosen {
        places.push(place)?;
    }
    Ok(())
}

/// The places of the rows of the last source for which a condition is true beside NEW and OLD. (What `is_true_at` refuses.)
fn chosen_places(
    alloc: Global,
    sources: &[Many<SourceRow>],
    outer: usize,
    count: usize,
    condition: &Option<Term>,
) -> R<Vec<usize>>
    ensures chosen { (beside : List meant_row.Row) (rows : List meant_row.Row)
        → sources.now ≡ map only beside ++ rows ∷ [] → length beside ≡ outer → length rows ≡ count
        → AnswersBy (λ places. map (row_at rows) places.items) (rows_chosen beside condition.now rows) result }
    ensures not_disk { IfErr result (λ fault. IsNotDiskFault fault) }
{
    let mut picked = first_places(alloc, outer)?;
    let mut places = Vec::new(alloc);
    'rows: for place in 0..count {
        let test = is_true_at(alloc, condition, sources, &mut picked, place)?;
        push_if(&mut places, place, test)?;
    }
    Ok(places)
}

/// A copy of the row at a place, of NULLs past the last. (`Memory` alone.)
fn copy_at(alloc: Global, rows: &[SourceRow], place: usize) -> R<SourceRow>
    ensures { IsOrMemory (λ copy. copy ≡ row_at rows.now place) result }
{
    match rows.get(place) {
        Some(row) => row_copy(alloc, row),
        None => Ok(SourceRow::made(Value::Null, Many::new(alloc))),
    }
}

/// Copies of the rows at these places. (`Memory` alone.)
fn copies_at(alloc: Global, rows: &[SourceRow], places: &[usize]) -> R<Vec<SourceRow>>
    ensures { IsOrMemory (λ copies. copies.items ≡ map (row_at rows.now) places.now) result }
{
    let mut copies = Vec::new(alloc);
    'places: for place in places {
        copies.push(copy_at(alloc, rows, *place)?)?;
    }
    Ok(copies)
}

/// The rows of a table or a view for which a condition is true beside NEW and OLD, in order. (What `rows_to_ask` and the condition refuse.)
pub fn chosen_rows<P: Pages>(
    alloc: Global,
    pages: &mut P,
    catalog: &Catalog,
    name: &Name,
    outer: OuterRows<'_>,
    condition: &Option<Term>,
) -> R<Vec<SourceRow>>
    ensures chosen { (db : Database) (seen : Outer) → IsTrue (P.Pages.tells (P.Pages.below pages.old))
        → Stores (P.Pages.map pages.old) (P.Pages.limits (P.Pages.below pages.old)).page
        (listed_in catalog.now) db → Shows outer.entry seen → IsKnownIn 64 db name.now
        → AnswersOrFails (λ rows. rows.items) (meant.chosen_rows db seen name.now condition.now) result }
    ensures stays { Stays P.Pages.below P.Pages.map P.Pages.count P.Pages.failures result pages.old pages.new }
{
    let rows = rows_to_ask(alloc, pages, catalog, name, outer, condition)?;
    let count = rows.len();
    let sources = with_source(alloc, outer.rows, rows)?;
    let places = chosen_places(alloc, &sources, outer.rows.len(), count, condition)?;
    copies_at(alloc, sources[outer.rows.len()].as_slice(), &places)
}
