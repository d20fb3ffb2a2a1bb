//! Sweeps over the calls of a file.

use crate::checks::{Breach, Script};
use crate::files::{Contents, Schedules, Which};
use crate::replies::shown;
use crate::runs::run_statements;
use sqlval::R;
use std::alloc::Global;

/// What a sweep does at each call.
#[derive(Clone, Copy)]
pub enum Kind {
    /// The call fails and each later one, and a crash comes.
    Stop,
    /// The call fails alone.
    Fail,
    /// As `Stop`, and a second crash comes while the files are opened.
    Twice,
}

impl Kind {
    /// The kind of a word.
    pub fn from_word(word: &str) -> Option<Kind> {
        match word {
            "stop" => Some(Kind::Stop),
            "fail" => Some(Kind::Fail),
            "twice" => Some(Kind::Twice),
            _ => None,
        }
    }
}

/// A sweep over the calls of a file while statements run.
#[derive(Drop)]
pub struct Sweep {
    pub kind: Kind,
    pub which: Which,
    pub query: String,
    pub statements: Vec<String>,
}

/// What the files show before all statements, and after each.
fn states(alloc: Global, start: &Contents, sweep: &Sweep) -> R<Vec<Vec<u8>>> {
    let query = sweep.query.as_str();
    let mut found = Vec::new(alloc);
    found.push(shown(alloc, start, query)?)?;
    for last in 0..sweep.statements.len() {
        let front = sweep.statements.get(..=last).unwrap_or(&[]);
        let left = run_statements(alloc, start, Schedules::HEALTHY, front, &[])?;
        found.push(shown(alloc, &left.disks.newest(alloc)?, query)?)?;
    }
    Ok(found)
}

/// Writes each state that differs from the one before, and after how many statements it comes.
fn put_states(alloc: Global, out: &mut Vec<u8>, states: &[Vec<u8>]) -> R<()> {
    let mut last: &[u8] = &[];
    for (number, state) in states.iter().enumerate() {
        if state.as_slice() != last {
            let line = format!(in alloc; "after {number}:\n")?;
            out.extend_from_slice(line.as_bytes())?;
            out.extend_from_slice(state)?;
        }
        last = state.as_slice();
    }
    Ok(())
}

/// Writes what breaks a rule at a call.
fn put_breach(alloc: Global, out: &mut Vec<u8>, call: u64, breach: &Breach) -> R<()> {
    let db = breach.ways.db.word();
    let log = breach.ways.log.word();
    let answered = breach.answered;
    let line = format!(in alloc;
        "call {call}: {db} {log}: {answered} statements were answered, and the files show:\n"
    )?;
    out.extend_from_slice(line.as_bytes())?;
    out.extend_from_slice(&breach.shown)?;
    Ok(())
}

/// What breaks the rule of a kind of sweep at a call.
fn breach_at(
    alloc: Global,
    script: &Script,
    kind: Kind,
    which: Which,
    call: u64,
) -> R<Option<Breach>> {
    match kind {
        Kind::Stop => script.breach_of_stop(alloc, which, call),
        Kind::Fail => script.breach_of_failure(alloc, which, call),
        Kind::Twice => script.breach_of_two(alloc, which, call),
    }
}

/// Tries each of so many calls, and writes how many they are, or what breaks the rule at the first that breaks it.
fn put_calls(
    alloc: Global,
    out: &mut Vec<u8>,
    script: &Script,
    kind: Kind,
    which: Which,
    calls: u64,
) -> R<()> {
    for call in 1..calls.saturating_add(1) {
        if let Some(breach) = breach_at(alloc, script, kind, which, call)? {
            return put_breach(alloc, out, call, &breach);
        }
    }
    let line = format!(in alloc; "swept {calls} calls\n")?;
    out.extend_from_slice(line.as_bytes())?;
    Ok(())
}

/// Sweeps over each call of a file that statements make, on copies of files, and writes what it finds.
pub fn put_sweep(alloc: Global, out: &mut Vec<u8>, start: Contents, sweep: Sweep) -> R<()> {
    let healthy = run_statements(alloc, &start, Schedules::HEALTHY, &sweep.statements, &[])?;
    if healthy.answered < sweep.statements.len() {
        let answered = healthy.answered;
        let line = format!(in alloc; "a statement was refused after {answered} others\n")?;
        out.extend_from_slice(line.as_bytes())?;
        return Ok(());
    }
    let states = states(alloc, &start, &sweep)?;
    put_states(alloc, out, &states)?;
    let Sweep {
        kind,
        which,
        query,
        statements,
    } = sweep;
    let calls = healthy.disks.calls(which);
    let script = Script {
        start,
        query,
        statements,
        states,
    };
    put_calls(alloc, out, &script, kind, which, calls)
}
