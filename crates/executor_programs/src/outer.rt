//! What a program sees of the row at which its trigger runs, and terms beside it.

ghost use Rattle.std.specs.Prelude.{◌≡◌, ◌++◌, ◌∷◌, ◌==◌, [], length, map, replicate, true, ℕ, IfErr, IfOk};
ghost use Rattle.std.specs.List.{list_all};
ghost use Rattle.sqlval.specs.Faults.{IsNotDiskFault, IsOrMemory};
ghost use Rattle.sqlval.specs.Refusals.{all_answers};
ghost use Rattle.query_names.specs.Readings.{env_of, values};
ghost use Rattle.query_terms.specs.Outcome.{AnswersBy};
ghost use Rattle.query_terms.specs.Rows.{picked_rows, seen};
ghost use Rattle.query_answer.specs.Answers.{HaveWidth};
ghost use Rattle.row_change.specs.Changes.{Outer};
ghost use Rattle.row_scan.specs.Rows.{values_of};
ghost use Rattle.executor_programs.specs.Outer as meant;
ghost use Rattle.executor_programs.specs.Outer.{Shows};

use query_names::ScopeSource;
use query_terms::{Env, SourceRow, Term, evaluate, holds};
use row_scan::Rows;
use smallvec::SmallVec;
use sqlval::{Many, R, Row};
use std::alloc::Global;

/// NEW and OLD, by the names under which they are seen, with the row of each.
#[derive(Clone, Copy)]
pub struct OuterRows<'a> {
    pub scope: &'a [ScopeSource],
    /// Each a list of one row.
    pub rows: &'a [Many<SourceRow>],
}

/// The first place of each of so many sources. (`Memory` alone.)
pub(crate) fn first_places(alloc: Global, count: usize) -> R<Vec<usize>>
    ensures { IsOrMemory (λ places. places.items ≡ replicate count 0) result }
{
    Ok(vec![in alloc; 0; count]?)
}

/// What terms are evaluated over, where a row of each source is picked.
pub(crate) fn env_at<'a>(sources: &'a [Many<SourceRow>], picked: &'a [usize]) -> Env<'a>
    ensures { seen result ≡ env_of (picked_rows sources.now picked.now) }
{
    Env {
        sources,
        picked,
        group: &[],
        keys: &[],
    }
}

/// A copy of a row. (`Memory` alone.)
pub(crate) fn row_copy(alloc: Global, row: &SourceRow) -> R<SourceRow>
    ensures { IsOrMemory (λ copy. copy ≡ row.now) result }
{
    let rowid = row.rowid_field().to_value(alloc)?;
    Ok(SourceRow::made(rowid, row.values(alloc)?))
}

/// A list of one row. (`Memory` alone.)
pub(crate) fn only_row(alloc: Global, row: SourceRow) -> R<Many<SourceRow>>
    ensures { IsOrMemory (λ rows. rows ≡ row ∷ []) result }
{
    let mut rows = Many::new(alloc);
    rows.push(row)?;
    Ok(rows)
}

/// Copies of these rows. (`Memory` alone.)
fn rows_copy(alloc: Global, rows: &[SourceRow]) -> R<Many<SourceRow>>
    ensures { IsOrMemory (λ copies. copies ≡ rows.now) result }
{
    let mut copies = Many::new(alloc);
    'rows: for row in rows {
        copies.push(row_copy(alloc, row)?)?;
    }
    Ok(copies)
}

/// Copies of NEW and OLD. (`Memory` alone.)
pub(crate) fn outer_copies(alloc: Global, rows: &[Many<SourceRow>]) -> R<Vec<Many<SourceRow>>>
    ensures { IsOrMemory (λ copies. copies.items ≡ rows.now) result }
{
    let mut copies = Vec::new(alloc);
    'rows: for one in rows {
        copies.push(rows_copy(alloc, one.as_slice())?)?;
    }
    Ok(copies)
}

/// Copies of NEW and OLD, and these rows as one more source after them. (`Memory` alone.)
pub(crate) fn with_source(
    alloc: Global,
    outer: &[Many<SourceRow>],
    rows: Many<SourceRow>,
) -> R<Vec<Many<SourceRow>>>
    ensures { IsOrMemory (λ sources. sources.items ≡ outer.now ++ rows ∷ []) result }
{
    let mut sources = outer_copies(alloc, outer)?;
    sources.push(rows)?;
    Ok(sources)
}

/// The values of terms, from left to right. (What `evaluate` refuses.)
fn values_of_terms(alloc: Global, terms: &[Term], env: Env<'_>) -> R<Row>
    ensures { AnswersBy (λ row. row.items) (values (seen env.entry) terms.now) result }
{
    let mut row = SmallVec::new(alloc);
    'terms: for term in terms {
        row.push(evaluate(alloc, term, env)?.into_value(alloc)?)?;
    }
    Ok(row)
}

/// The values of each row's terms. (What `evaluate` refuses.)
fn rows_of_terms(alloc: Global, rows: &[Many<Term>], env: Env<'_>) -> R<Rows>
    ensures { AnswersBy (λ found. map values_of found.items)
        (all_answers (map (values (seen env.entry)) rows.now)) result }
{
    let mut found = Vec::new(alloc);
    'rows: for terms in rows {
        found.push(values_of_terms(alloc, terms.as_slice(), env)?)?;
    }
    Ok(found)
}

/// The values of each row's terms, beside NEW and OLD. (What `evaluate` refuses.)
pub(crate) fn written_rows(alloc: Global, outer: OuterRows<'_>, rows: &[Many<Term>]) -> R<Rows>
    ensures written { (seen : Outer) → Shows outer.entry seen → AnswersBy (λ found. map values_of found.items)
        (all_answers (map (values (env_of seen.rows)) rows.now)) result }
    ensures wide { (count : ℕ) → list_all (λ row. length row == count) rows.now ≡ true
        → IfOk result (λ found. HaveWidth count (map values_of found.items)) }
    ensures not_disk { IfErr result (λ fault. IsNotDiskFault fault) }
{
    let picked = first_places(alloc, outer.rows.len())?;
    rows_of_terms(alloc, rows, env_at(outer.rows, &picked))
}

/// Whether a condition is true where these rows are picked, or there is none. (What `holds` refuses.)
pub(crate) fn is_true(
    alloc: Global,
    condition: &Option<Term>,
    sources: &[Many<SourceRow>],
    picked: &[usize],
) -> R<bool>
    ensures { AnswersBy (λ test. test)
        (meant.is_true condition.now (picked_rows sources.now picked.now)) result }
{
    match condition {
        Some(term) => Ok(holds(alloc, term, env_at(sources, picked))?.unwrap_or(false)),
        None => Ok(true),
    }
}

/// Whether a condition is true beside NEW and OLD, or there is none. (What `holds` refuses.)
pub fn is_true_beside(alloc: Global, outer: OuterRows<'_>, condition: &Option<Term>) -> R<bool>
    ensures answered { (seen : Outer) → Shows outer.entry seen
        → AnswersBy (λ test. test) (meant.is_true condition.now seen.rows) result }
    ensures not_disk { IfErr result (λ fault. IsNotDiskFault fault) }
{
    let picked = first_places(alloc, outer.rows.len())?;
    is_true(alloc, condition, outer.rows, &picked)
}
