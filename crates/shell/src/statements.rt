//! Where a statement ends: at its first semicolon; that of a trigger at the semicolon after its END.

ghost use Rattle.std.specs.Prelude.{◌≡◌, ◌<◌, ◌≤◌, ◌-◌, length, drop, slice_index, IfSome, IsTrue};
ghost use Rattle.shell.specs.Statements as spec;

use crate::pieces::{Sort, front};

/// What the pieces of a statement have told so far.
#[derive(Clone, Copy, PartialEq, Eq)]
pub enum Phase {
    /// Nothing but spaces and comments.
    Start,
    /// EXPLAIN, and words that may stand before CREATE.
    Explain,
    /// CREATE, and maybe TEMP.
    Create,
    /// A statement that ends at its semicolon.
    Plain,
    /// CREATE TRIGGER, or a statement in its program.
    Trigger,
    /// A semicolon in a trigger's program.
    Between,
    /// END after such a semicolon.
    End,
}

/// The phase after a first piece.
fn after_start(sort: Sort) -> Phase
    ensures { result ≡ spec.after_start sort }
{
    match sort {
        Sort::Gap => Phase::Start,
        Sort::Explain => Phase::Explain,
        Sort::Create => Phase::Create,
        _ => Phase::Plain,
    }
}

/// The phase after a piece that follows EXPLAIN.
fn after_explain(sort: Sort) -> Phase
    ensures { result ≡ spec.after_explain sort }
{
    match sort {
        Sort::Gap | Sort::Other => Phase::Explain,
        Sort::Create => Phase::Create,
        _ => Phase::Plain,
    }
}

/// The phase after a piece that follows CREATE.
fn after_create(sort: Sort) -> Phase
    ensures { result ≡ spec.after_create sort }
{
    match sort {
        Sort::Gap | Sort::Temp => Phase::Create,
        Sort::Trigger => Phase::Trigger,
        _ => Phase::Plain,
    }
}

/// The phase after a piece of a trigger's program that no semicolon comes before.
fn after_trigger(sort: Sort) -> Phase
    ensures { result ≡ spec.after_trigger sort }
{
    match sort {
        Sort::Semicolon => Phase::Between,
        _ => Phase::Trigger,
    }
}

/// The phase after a piece that follows a semicolon of a trigger's program.
fn after_semicolon(sort: Sort) -> Phase
    ensures { result ≡ spec.after_semicolon sort }
{
    match sort {
        Sort::Gap | Sort::Semicolon => Phase::Between,
        Sort::End => Phase::End,
        _ => Phase::Trigger,
    }
}

/// The phase after a piece that follows END.
fn after_end(sort: Sort) -> Phase
    ensures { result ≡ spec.after_end sort }
{
    match sort {
        Sort::Gap => Phase::End,
        _ => Phase::Trigger,
    }
}

/// The phase after a piece.
fn after(phase: Phase, sort: Sort) -> Phase
    ensures { result ≡ spec.phase_after phase sort }
{
    match phase {
        Phase::Start => after_start(sort),
        Phase::Explain => after_explain(sort),
        Phase::Create => after_create(sort),
        Phase::Plain => Phase::Plain,
        Phase::Trigger => after_trigger(sort),
        Phase::Between => after_semicolon(sort),
        Phase::End => after_end(sort),
    }
}

/// Whether a semicolon ends a statement in this phase.
fn is_last(phase: Phase) -> bool
    ensures { result ≡ spec.is_last phase }
{
    match phase {
        Phase::Trigger | Phase::Between => false,
        _ => true,
    }
}

/// Whether a piece ends a statement.
fn ends(phase: Phase, sort: Sort) -> bool
    ensures value { result ≡ spec.ends phase sort }
    ensures semicolon { IsTrue result → sort ≡ Sort.Semicolon }
{
    match sort {
        Sort::Semicolon => is_last(phase),
        _ => false,
    }
}

/// What follows so many bytes.
fn rest_of(text: &[u8], len: usize) -> &[u8]
    requires { len ≤ length text.now }
    ensures { result.now ≡ drop len text.now }
{
    &text[len..]
}

/// The place after the semicolon that ends the first statement of a text; none where it goes on.
#[tactic(auto, using(crate::proofs::Passed::ended, crate::proofs::Passed::goes, crate::proofs::Passed::never_ended))]
pub fn statement_end(text: &[u8]) -> Option<usize>
    ensures end { result ≡ spec.statement_end text.now }
    ensures within { IfSome result (λ n. n ≤ length text.now) }
    ensures semicolon { IfSome result (λ n. (0 < n) × (slice_index text.now (n - 1) ≡ 59)) }
{
    let mut rest = text;
    let mut at = 0;
    let mut phase = Phase::Start;
    'pieces: while !rest.is_empty() {
        let (sort, len) = front(rest);
        at += len;
        if ends(phase, sort) {
            return Some(at);
        }
        phase = after(phase, sort);
        rest = rest_of(rest, len);
    }
    None
}

/// Whether a piece is a space or a comment.
fn is_gap(sort: Sort) -> bool
    ensures { result ≡ spec.is_gap sort }
{
    match sort {
        Sort::Gap => true,
        _ => false,
    }
}

/// Whether a text has nothing but spaces and comments, each of which has ended.
#[tactic(auto, using(crate::proofs::Passed::filled, crate::proofs::Passed::blank, crate::proofs::Passed::all_blank))]
pub fn is_blank(text: &[u8]) -> bool
    ensures { result ≡ spec.is_blank text.now }
{
    let mut rest = text;
    'pieces: while !rest.is_empty() {
        let (sort, len) = front(rest);
        if !is_gap(sort) {
            return false;
        }
        rest = rest_of(rest, len);
    }
    true
}
