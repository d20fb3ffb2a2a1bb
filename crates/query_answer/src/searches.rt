//! What literals seek of a query's sources, so that the other rows of a source needn't be read.

ghost use Rattle.std.specs.Prelude.{◌≡◌, drop, IfErr, IfNone, IfOk, IfSome, option_map};
ghost use Rattle.query_answer.specs.Searches.{IsReadAmong, IsScannedAt, IsSearchAmong, IsSearchAt, IsSoughtBy, NothingIsSought};
ghost use Rattle.query_answer.specs.Searches as meant;

use crate::keys::may_wait;
use catalog::Index;
use query_names::{Condition, Reading};
use query_plan::{Search, search_for};
use query_terms::Term;
use sqlval::{Fault, Name, R};
use std::alloc::Global;

/// The condition by which a source's rows join those before it.
fn own_term(condition: &Condition) -> Option<&Term>
    ensures { option_map (λ r. r.now) result ≡ meant.own_term condition.now }
{
    match condition {
        Condition::Always => None,
        Condition::Where(term) => Some(term),
        Condition::OrNulls(term) => Some(term),
    }
}

/// What a condition, if there is one, seeks of a source. (`Memory`.)
fn search_by(
    alloc: Global,
    condition: Option<&Term>,
    source: usize,
    indexes: &[Index],
) -> R<Option<Search>>
    ensures found { IfOk result (λ found. IfSome found
        (IsSoughtBy indexes.now source (option_map (λ r. r.now) condition.entry))) }
    ensures only { IfOk result (λ found. IfNone found
        (NothingIsSought indexes.now source (option_map (λ r. r.now) condition.entry))) }
    ensures refused { IfErr result (λ fault. fault ≡ Fault.Memory) }
{
    match condition {
        Some(term) => search_for(alloc, term, source, indexes),
        None => Ok(None),
    }
}

/// What is sought of the first of these sources: by its own condition, or where that seeks nothing by WHERE. (`Memory`.)
fn search_among(
    alloc: Global,
    filter: &Option<Term>,
    sources: &[(Name, Condition)],
    source: usize,
    indexes: &[Index],
) -> R<Option<Search>>
    ensures found { IfOk result (λ found. IfSome found
        (IsSearchAmong indexes.now source filter.now sources.now)) }
    ensures only { IfOk result (λ found. IfNone found (IsReadAmong indexes.now source filter.now sources.now)) }
    ensures refused { IfErr result (λ fault. fault ≡ Fault.Memory) }
{
    let [(_, condition), others @ ..] = sources else {
        return Ok(None);
    };
    if let Some(search) = search_by(alloc, own_term(condition), source, indexes)? {
        return Ok(Some(search));
    }
    if !may_wait(alloc, condition, others)? {
        return Ok(None);
    }
    search_by(alloc, filter.as_ref(), source, indexes)
}

/// What a query seeks of its source of a number, a table with these indexes: by the source's own condition, or else by WHERE, unless the
/// source is a LEFT JOIN's own, or the conditions of it and of those after it may be refused. None where it seeks nothing. (`Memory`.)
pub fn search_at(
    alloc: Global,
    reading: &Reading,
    source: usize,
    indexes: &[Index],
) -> R<Option<Search>>
    ensures found { IfOk result (λ found. IfSome found
        (λ search. IsSearchAt indexes.now reading.now source search)) }
    ensures only { IfOk result (λ found. IfNone found (IsScannedAt indexes.now reading.now source)) }
    ensures refused { IfErr result (λ fault. fault ≡ Fault.Memory) }
{
    let sources = reading.sources.as_slice();
    if source >= sources.len() {
        return Ok(None);
    }
    search_among(alloc, &reading.filter, &sources[source..], source, indexes)
}
