//! Rows that a query makes of its only source's, in the memory of those that it made before.

ghost use Rattle.std.specs.Prelude.{◌≡◌, ◌++◌, ◌∷◌, [], IfErr, List, Ok};
ghost use Rattle.sqlval.specs.Faults.{IsNotDiskFault};
ghost use Rattle.sqlval.specs.Refusals.{◌then◌};
ghost use Rattle.sqlval.specs.declared.value.Value.TheVariants.{Null};
ghost use Rattle.query_terms.specs.Outcome.{AnswersBy};
ghost use Rattle.query_terms.specs.Rows.{picked_rows};
ghost use Rattle.query_names.specs.Views.{plain_rows};
ghost use Rattle.query_answer.specs.Nesting.{Found, filtered_by, kept_row, onto};
ghost use Rattle.query_answer.specs.Parts.{GivesInOrder, answer_on, of_row, of_rows, rows_made};

use crate::nesting::{Loops, condition_of, joins};
use crate::parts::{gives_in_order, loops_over};
use crate::results::values_over;
use query_filter::Filter;
use query_names::{Condition, Reading};
use query_terms::SourceRow;
use sqlval::{Fault, Many, Misuse, R, Value};
use std::alloc::Global;
use std::marker::Model;
use std::mem::replace;

/// Rows that a query has made, the first of these: contracts see them, and not the others, whose memory the next take.
#[derive(Drop)]
struct MadeRows {
    rows: Vec<SourceRow>,
    /// How many are made.
    count: usize,
    /// Values of no row.
    spare: Many<Value>,
}

impl Model for MadeRows {
    ghost use Rattle.std.specs.Prelude.{◌≤◌, List, length, take};
    ghost use Rattle.query_terms.specs.Values.{Row};

    ghost Value = { List Row };

    ghost view = { λ made. take made.count made.rows.items };

    ghost invariant = { λ made. made.count ≤ length made.rows.items };
}

impl MadeRows {
    ghost use Rattle.std.specs.Prelude.{◌≡◌, ◌++◌, ◌∷◌, []};
    ghost use Rattle.sqlval.specs.Faults.{IsOrMemory};
    ghost use Rattle.sqlval.specs.declared.value.Value.TheVariants.{Null};

    /// No row as yet, and others whose memory is free.
    fn new(alloc: Global, others: Many<SourceRow>) -> MadeRows
        ensures { result ≡ [] }
    {
        MadeRows {
            rows: others.into_vec(),
            count: 0,
            spare: Many::new(alloc),
        }
    }

    /// Adds a row of these values, in the place of another if there is one. (`Memory`.)
    fn add(&mut self, alloc: Global, values: Many<Value>) -> R<()>
        ensures { IsOrMemory (λ done. self.new ≡ self.old ++ record { rowid = Null; values = values } ∷ []) result }
    {
        if self.count < self.rows.len() {
            self.spare = self.rows[self.count].remake(alloc, Value::Null, values);
        } else {
            self.rows.push(SourceRow::made(Value::Null, values))?;
        }
        self.count += 1;
        Ok(())
    }

    /// The rows that were made.
    fn into_rows(self) -> Many<SourceRow>
        ensures { result ≡ self }
    {
        let MadeRows {
            mut rows,
            count,
            ..
        } = self;
        rows.truncate(count);
        Many::from_vec(rows)
    }
}

/// Makes a row of one that WHERE keeps.
fn make_row(alloc: Global, loops: Loops<'_>, picked: &[usize], made: &mut MadeRows) -> R<()>
    requires { GivesInOrder loops.reading.now }
    ensures { (before : List Found) → made.old ≡ rows_made before
        → AnswersBy (λ u. made.new) (kept_row loops.entry.reading.now
        (picked_rows loops.entry.sources.now picked.now) then λ f. Ok (rows_made (before ++ f ∷ []))) result }
{
    let values = replace(&mut made.spare, Many::new(alloc));
    let results = loops.reading.results.as_slice();
    let values = values_over(alloc, results, loops.env(picked), values)?;
    made.add(alloc, values)
}

/// Makes a row of that at a place, where it joins and WHERE keeps it.
fn make_at(
    alloc: Global,
    loops: Loops<'_>,
    condition: &Condition,
    index: usize,
    made: &mut MadeRows,
) -> R<()>
    requires { GivesInOrder loops.reading.now }
    ensures { (before : List Found) → made.old ≡ rows_made before
        → AnswersBy (λ u. made.new)
        (onto before (of_row (filtered_by loops.entry.filter.now loops.entry.reading.now) condition.now
        (picked_rows loops.entry.sources.now (index ∷ []))) then λ all. Ok (rows_made all)) result }
{
    let picked = [index];
    if !joins(alloc, loops, picked.as_slice(), condition)? {
        return Ok(());
    }
    if loops.filter.passes(alloc, loops.env(picked.as_slice()))? {
        make_row(alloc, loops, picked.as_slice(), made)?;
    }
    Ok(())
}

/// Makes rows of these.
fn make_each(
    alloc: Global,
    loops: Loops<'_>,
    condition: &Condition,
    rows: &[SourceRow],
    made: &mut MadeRows,
) -> R<()>
    requires sources { loops.sources.now ≡ rows.now ∷ [] }
    requires in_order { GivesInOrder loops.reading.now }
    ensures { (before : List Found) → made.old ≡ rows_made before
        → AnswersBy (λ u. made.new)
        (onto before (of_rows (filtered_by loops.entry.filter.now loops.entry.reading.now) condition.now
        rows.now) then λ all. Ok (rows_made all)) result }
{
    'rows: for index in 0..rows.len() {
        make_at(alloc, loops, condition, index, made)?;
    }
    Ok(())
}

/// Makes rows of these rows of the only source.
fn make_part(
    alloc: Global,
    reading: &Reading,
    filter: &Filter<'_>,
    rows: &Many<SourceRow>,
    made: &mut MadeRows,
) -> R<()>
    requires { GivesInOrder reading.now }
    ensures made { filter.now ≡ reading.now.filter → made.old ≡ []
        → AnswersBy (λ u. made.new) (answer_on reading.now rows.now then λ made. Ok (plain_rows made)) result }
    ensures not_disk { filter.now ≡ reading.now.filter → made.old ≡ [] → IfErr result IsNotDiskFault }
{
    let condition = condition_of(reading.sources.as_slice(), 0);
    let loops = loops_over(reading, filter, rows);
    make_each(alloc, loops, condition, rows.as_slice(), made)
}

/// The rows, without rowids, that a query, with its WHERE prepared, makes of these rows of its only source, in the memory of others; or its first
/// refusal. A query that doesn't give each row by itself is refused.
pub fn make_rows(
    alloc: Global,
    reading: &Reading,
    filter: &Filter<'_>,
    rows: &Many<SourceRow>,
    others: Many<SourceRow>,
) -> R<Many<SourceRow>>
    ensures made { GivesInOrder reading.now → filter.now ≡ reading.now.filter
        → AnswersBy (λ made. made) (answer_on reading.now rows.now then λ made. Ok (plain_rows made)) result }
    ensures not_disk { GivesInOrder reading.now → filter.now ≡ reading.now.filter → IfErr result IsNotDiskFault }
{
    if !gives_in_order(reading) {
        return Err(Fault::Misuse(Misuse::Count));
    }
    let mut made = MadeRows::new(alloc, others);
    make_part(alloc, reading, filter, rows, &mut made)?;
    Ok(made.into_rows())
}
