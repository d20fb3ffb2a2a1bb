//! Queries that show values of each row of a source, and do nothing else.

ghost use Rattle.std.specs.Prelude.{◌≡◌, ◌∷◌, [], IfErr, IfOk, IfSome, IsTrue, Ok, Some, map};
ghost use Rattle.query_terms.specs.Values as meant;
ghost use Rattle.query_terms.specs.Values.{Row, at_row};
ghost use Rattle.query_names.specs.Readings.{env_of, values};
ghost use Rattle.query_answer.specs.Shown.{AnswersAll, IsBare, ShowsPlaces};

use query_names::{Condition, Reading};
use query_terms::{Node, Place, Term};
use sqlval::{Fault, Name, R};
use std::alloc::Global;

/// The place in the first source's row of the value that an expression is.
fn place_of(term: &Term) -> Option<Place>
    ensures { IfSome result (λ place. (row : Row) → meant.value term.now (env_of (row ∷ [])) ≡ Ok (at_row (Some row) place)) }
{
    match &term.node {
        Node::Cell(0, place, _, _) => Some(*place),
        _ => None,
    }
}

/// Their places, where each expression is a value of the first source's row. (`Memory` alone.)
fn places_of(alloc: Global, terms: &[Term]) -> R<Option<Vec<Place>>>
    ensures found { IfOk result (λ found. IfSome found (λ places. (row : Row)
        → values (env_of (row ∷ [])) terms.now ≡ Ok (map (at_row (Some row)) places.items))) }
    ensures refused { IfErr result (λ fault. fault ≡ Fault.Memory) }
{
    let mut places = Vec::with_capacity(alloc, terms.len())?;
    'terms: for term in terms {
        let Some(place) = place_of(term) else {
            return Ok(None);
        };
        places.push(place)?;
    }
    Ok(Some(places))
}

/// Whether there is one source, of which each row is taken.
fn is_bare(sources: &[(Name, Condition)]) -> bool
    ensures { IsTrue result → IsBare sources.now }
{
    matches!(sources, [(_, Condition::Always)])
}

/// Whether a query answers a row for each row of its only source, in their order.
fn answers_all(reading: &Reading) -> bool
    ensures { IsTrue result → AnswersAll reading.now }
{
    if !is_bare(reading.sources.as_slice()) || reading.filter.is_some() {
        return false;
    }
    if reading.is_grouped || reading.distinct || reading.limit.is_some() {
        return false;
    }
    reading.order.len() == 0
}

/// The places of the values that a query shows of each row of its only source, where it shows each row once, in their order, and columns alone.
/// (`Memory` alone.)
pub fn shown_places(alloc: Global, reading: &Reading) -> R<Option<Vec<Place>>>
    ensures shown { IfOk result (λ found. IfSome found (λ places. ShowsPlaces reading.now places.items)) }
    ensures refused { IfErr result (λ fault. fault ≡ Fault.Memory) }
{
    if !answers_all(reading) {
        return Ok(None);
    }
    places_of(alloc, reading.results.as_slice())
}
