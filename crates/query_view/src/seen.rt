//! What a query gives of a view's rows, which come part after part: as many of them as one part makes are held at a time.

ghost use Rattle.std.specs.Prelude.{◌≡◌, ◌++◌, IfErr, IfOk, List, MatchResult, Ok, Some, length, map, true};
ghost use Rattle.sqlval.specs.Faults.{IsNotDiskFault};
ghost use Rattle.sqlval.specs.Refusals.{◌then◌};
ghost use Rattle.query_terms.specs.Outcome.{AnswersBy};
ghost use Rattle.query_terms.specs.Values.{Row as Meant};
ghost use Rattle.query_names.specs.Views.{plain_rows};
ghost use Rattle.query_names.specs.declared.reading.Reading.{Reading as Query};
ghost use Rattle.query_answer.specs.Answers.{HaveWidth, values_of};
ghost use Rattle.query_answer.specs.Parts.{GivesInOrder, answer_on, is_row_by_row};
ghost use Rattle.query_view.specs.Seen.{HasKept, HasSeen, IsRefusedFrom, answer_through};

use query_answer::{
    GivenRows, finish, give_rows, make_rows, parts_follow_one_another, rows_are_given_in_parts,
};
use query_filter::Filter;
use query_names::Reading;
use query_terms::SourceRow;
use sqlval::{Fault, Many, R, Row};
use std::alloc::Global;
use std::marker::Model;
use std::mem::replace;

/// What a query has kept of a view's rows so far, and its first refusal, which waits until the view's are through: contracts see both.
#[derive(Drop)]
pub struct SeenRows {
    found: GivenRows,
    refusal: Option<Fault>,
    /// The view's rows of the part before, whose memory those of the next take.
    others: Many<SourceRow>,
}

impl Model for SeenRows {
    ghost use Rattle.std.specs.Prelude.{Option};
    ghost use Rattle.sqlval.specs.declared.fault.Fault.{Fault as Why};
    ghost use Rattle.query_answer.specs.Parts.{Kept};

    ghost Value = { Kept × Option Why };

    ghost view = { λ seen. (seen.found, seen.refusal) };
}

impl SeenRows {
    ghost use Rattle.std.specs.Prelude.{◌≡◌, [], true};
    ghost use Rattle.sqlval.specs.Faults.{IsOrMemory};
    ghost use Rattle.query_names.specs.declared.reading.Reading.{Reading as Query};
    ghost use Rattle.query_answer.specs.Parts.{GivesInOrder, is_row_by_row};
    ghost use Rattle.query_view.specs.Seen.{HasSeen};

    /// What a query has kept before the first row. (`Memory`.)
    pub fn new(alloc: Global, reading: &Reading) -> R<SeenRows>
        ensures { IsOrMemory (λ seen. is_row_by_row reading.now ≡ true → (view : Query) → GivesInOrder view
            → HasSeen view reading.now [] seen) result }
    {
        parts_follow_one_another();
        Ok(SeenRows {
            found: GivenRows::new(alloc, reading)?,
            refusal: None,
            others: Many::new(alloc),
        })
    }
}

/// Notes a refusal.
fn note(refusal: &mut Option<Fault>, fault: Fault)
    ensures { refusal.new ≡ Some fault }
{
    *refusal = Some(fault);
}

/// Keeps what a query keeps of these rows, or its first refusal.
fn keep(
    alloc: Global,
    reading: &Reading,
    filter: &Filter<'_>,
    rows: &Many<SourceRow>,
    seen: &mut SeenRows,
)
    ensures { is_row_by_row reading.now ≡ true → filter.now ≡ reading.now.filter
        → (before : List Meant) → HasKept reading.now before seen.old.0 seen.old.1
        → HasKept reading.now (before ++ rows.now) seen.new.0 seen.new.1 }
{
    rows_are_given_in_parts();
    if seen.refusal.is_some() {
        return;
    }
    if let Err(fault) = give_rows(alloc, reading, filter, rows, &mut seen.found) {
        note(&mut seen.refusal, fault);
    }
}

/// Adds what a query keeps of the rows that a view's query makes of these to what it kept of those before them; the WHERE of each is prepared. The
/// view's first refusal comes at once; the query's own waits for `finish_seen`, since all rows of a view are there before a query over it is answered.
pub fn see_rows(
    alloc: Global,
    view: &Reading,
    view_filter: &Filter<'_>,
    reading: &Reading,
    filter: &Filter<'_>,
    rows: &Many<SourceRow>,
    seen: &mut SeenRows,
) -> R<()>
    ensures seen { GivesInOrder view.now → is_row_by_row reading.now ≡ true → view_filter.now ≡ view.now.filter → filter.now ≡ reading.now.filter
        → (before : List Meant) → HasSeen view.now reading.now before seen.old
        → MatchResult result (λ u. HasSeen view.now reading.now (before ++ rows.now) seen.new)
        (IsRefusedFrom (answer_through view.now reading.now) (before ++ rows.now)) }
    ensures not_disk { GivesInOrder view.now → view_filter.now ≡ view.now.filter → IfErr result IsNotDiskFault }
{
    parts_follow_one_another();
    let others = replace(&mut seen.others, Many::new(alloc));
    let made = make_rows(alloc, view, view_filter, rows, others)?;
    keep(alloc, reading, filter, &made, seen);
    seen.others = made;
    Ok(())
}

/// The answer of a query that has kept this of a view's rows; or its first refusal. (`Memory`.)
pub fn finish_seen(alloc: Global, reading: &Reading, seen: SeenRows) -> R<Vec<Row>>
    ensures answered { (view : Query) (rows : List Meant) → is_row_by_row reading.now ≡ true → HasSeen view reading.now rows seen
        → AnswersBy (λ rows. map values_of rows.items) (answer_through view reading.now rows) result }
    ensures wide { (view : Query) (rows : List Meant) → is_row_by_row reading.now ≡ true → HasSeen view reading.now rows seen
        → IfOk result (λ rows. HaveWidth (length reading.now.results) (map values_of rows.items)) }
    ensures not_disk { (view : Query) (rows : List Meant) → HasSeen view reading.now rows seen → IfErr result IsNotDiskFault }
{
    let SeenRows { found, refusal, .. } = seen;
    match refusal {
        Some(fault) => Err(fault),
        None => finish(alloc, reading, found),
    }
}
