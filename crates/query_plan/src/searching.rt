//! What a condition seeks of a source.

ghost use Rattle.std.specs.Prelude.{◌≡◌, false, true, IfErr, IfNone, IfOk, IfSome};
ghost use Rattle.std.specs.List.{list_any};
ghost use Rattle.query_names.specs.Calm as calm;
ghost use Rattle.query_plan.specs.Asking as asking;
ghost use Rattle.query_plan.specs.Asking.{AsksNoRange, IsChosen, SeeksNothing};
ghost use Rattle.query_plan.specs.Searching.{IsSought};
ghost use Rattle.query_plan.specs.Seeking.{no_index};

use crate::calm::is_calm;
use crate::keys::key_for;
use crate::ranges::{Range, has_ends, no_range, range_in};
use crate::rowids::rowids_in;
use crate::seeking::rowid_in;
use catalog::{Index, IndexColumn};
use query_terms::Term;
use sqlval::{Fault, Many, R, Value};
use std::alloc::Global;

/// What the rows of a source are found by that a condition needs.
#[derive(Drop)]
pub enum Search {
    /// The row of a rowid.
    Rowid(i64),
    /// The rows whose rowids are from the first to the second, both among them.
    Rowids(i64, i64),
    /// The rows whose values of an index's first columns are this key: the index's place among its table's, and the key.
    Key(usize, Many<Value>),
    /// The rows whose values of an index's first columns are this key, which may be empty, and whose value of the next column lies in a
    /// range.
    Range(usize, Many<Value>, Range),
}

/// What a condition asks of an index: the index's place among its table's, a key, and a range of the next column.
#[derive(Drop)]
pub(crate) struct Candidate {
    pub place: usize,
    pub key: Many<Value>,
    pub range: Range,
}

/// What a condition asks of an index. (`Memory`.)
fn candidate_of(
    alloc: Global,
    condition: &Term,
    source: usize,
    place: usize,
    columns: &[IndexColumn],
) -> R<Candidate>
    ensures found { IfOk result (λ it. it ≡ asking.candidate_of source condition.now place columns.now) }
    ensures refused { IfErr result (λ fault. fault ≡ Fault.Memory) }
{
    let key = key_for(alloc, condition, source, columns)?;
    let range = range_in(alloc, condition, source, columns.get(key.len()).copied())?;
    Ok(Candidate { place, key, range })
}

/// Whether the second has the longer key, or one of the same length and a range, where the first has none.
fn asks_less(found: &Candidate, other: &Candidate) -> bool
    ensures { result ≡ asking.asks_less found.now other.now }
{
    found.key.len() < other.key.len()
        || found.key.len() == other.key.len() && !has_ends(&found.range) && has_ends(&other.range)
}

/// The one that asks more; the first if they ask the same.
fn more_asked(found: Candidate, other: Candidate) -> Candidate
    ensures { result ≡ asking.more_asked found other }
{
    if asks_less(&found, &other) {
        other
    } else {
        found
    }
}

/// What a condition asks of the index that it asks the most of; the first of several. (`Memory`.)
fn most_asked(alloc: Global, condition: &Term, source: usize, indexes: &[Index]) -> R<Candidate>
    ensures found { IfOk result (λ found. found
        ≡ asking.most_asked source condition.now 0 asking.asks_nothing indexes.now) }
    ensures refused { IfErr result (λ fault. fault ≡ Fault.Memory) }
{
    let mut found = Candidate {
        place: 0,
        key: Many::new(alloc),
        range: no_range(),
    };
    'indexes: for place in 0..indexes.len() {
        let columns = indexes[place].columns.as_slice();
        let other = candidate_of(alloc, condition, source, place, columns)?;
        found = more_asked(found, other);
    }
    Ok(found)
}

/// What an index is searched by of which this is asked: the key and the range after it, or else the key alone. None where there is neither.
fn search_by(asked: Candidate) -> Option<Search>
    ensures { result ≡ asking.search_by asked }
{
    let Candidate { place, key, range } = asked;
    if has_ends(&range) {
        return Some(Search::Range(place, key, range));
    }
    if key.len() == 0 {
        return None;
    }
    Some(Search::Key(place, key))
}

/// What a condition seeks that asks for no rowid: a key of an index, with a range or without, or else a range of rowids, or else a range of
/// an index's first column. None where it seeks none. (`Memory`.)
fn many_sought(
    alloc: Global,
    condition: &Term,
    source: usize,
    indexes: &[Index],
) -> R<Option<Search>>
    requires calm { calm.is_calm condition.now ≡ true }
    requires none { list_any (calm.finds source no_index) (calm.parts condition.now) ≡ false }
    ensures found { IfOk result (λ found. IfSome found (λ it. IsSought indexes.now source condition.now it)) }
    ensures chosen { IfOk result (λ found. IfSome found (λ it. IsChosen indexes.now source condition.now it)) }
    ensures only { IfOk result (λ found. IfNone found (asking.IsNotAsked source condition.now indexes.now)) }
    ensures ranges { IfOk result (λ found. IfNone found (AsksNoRange indexes.now source condition.now)) }
    ensures refused { IfErr result (λ fault. fault ≡ Fault.Memory) }
{
    let most = most_asked(alloc, condition, source, indexes)?;
    if most.key.len() > 0 {
        return Ok(search_by(most));
    }
    match rowids_in(alloc, condition, source)? {
        Some(found) => Ok(Some(Search::Rowids(found.0, found.1))),
        None => Ok(search_by(most)),
    }
}

/// What a condition seeks of the source of a number, a table with these indexes: a rowid, or else a key of an index, with a range or without,
/// or else a range of rowids, or else a range of an index's first column. None where it seeks none, or may be refused. (`Memory`.)
pub fn search_for(
    alloc: Global,
    condition: &Term,
    source: usize,
    indexes: &[Index],
) -> R<Option<Search>>
    ensures found { IfOk result (λ found. IfSome found (λ it. IsSought indexes.now source condition.now it)) }
    ensures chosen { IfOk result (λ found. IfSome found (λ it. IsChosen indexes.now source condition.now it)) }
    ensures only { IfOk result (λ found. IfNone found (SeeksNothing indexes.now source condition.now)) }
    ensures refused { IfErr result (λ fault. fault ≡ Fault.Memory) }
{
    if !is_calm(alloc, condition)? {
        return Ok(None);
    }
    match rowid_in(condition, source) {
        Some(rowid) => Ok(Some(Search::Rowid(rowid))),
        None => many_sought(alloc, condition, source, indexes),
    }
}
