//! Runs of statements on files of which one fails.

use crate::files::{Contents, Database, Disks, Schedules, closed, open};
use crate::replies::put_answer;
use engine::Refused;
use sqlval::{Fault, R};
use std::alloc::Global;

/// What a run of statements leaves.
#[derive(Drop)]
pub struct Run {
    /// How many statements were answered without a refusal, before the first one.
    pub answered: usize,
    /// Whether a statement was refused for another reason than a disk's failure.
    pub is_odd: bool,
    /// Whether the files were opened.
    pub is_open: bool,
    /// The replies to the later lines.
    pub later: Vec<u8>,
    pub disks: Disks,
}

/// How many statements are answered before a refusal, and the refusal if there is one.
fn answered(
    alloc: Global,
    database: &mut Database,
    statements: &[String],
) -> R<(usize, Option<Fault>)> {
    let mut count: usize = 0;
    let mut replies = Vec::new(alloc);
    for statement in statements {
        let refusal = put_answer(alloc, &mut replies, database, statement.as_str())?;
        if refusal.is_some() {
            return Ok((count, refusal));
        }
        count = count.saturating_add(1);
    }
    Ok((count, None))
}

/// The replies to lines.
fn replies(alloc: Global, database: &mut Database, lines: &[&str]) -> R<Vec<u8>> {
    let mut replies = Vec::new(alloc);
    for line in lines {
        put_answer(alloc, &mut replies, database, line)?;
    }
    Ok(replies)
}

/// Whether a refusal tells of something else than a disk's failure.
fn is_odd(refusal: &Option<Fault>) -> bool {
    match refusal {
        None | Some(Fault::Io) => false,
        Some(_) => true,
    }
}

/// Runs statements on an open database until one is refused, then the later lines.
fn run_open(
    alloc: Global,
    database: Database,
    statements: &[String],
    later_lines: &[&str],
) -> R<Run> {
    let mut database = database;
    let (answered, refusal) = answered(alloc, &mut database, statements)?;
    let later = replies(alloc, &mut database, later_lines)?;
    Ok(Run {
        answered,
        is_odd: is_odd(&refusal),
        is_open: true,
        later,
        disks: closed(database),
    })
}

/// Opens copies of files, and runs statements on them until one is refused, then the later lines.
pub fn run_statements(
    alloc: Global,
    contents: &Contents,
    schedules: Schedules,
    statements: &[String],
    later_lines: &[&str],
) -> R<Run> {
    match open(alloc, contents, schedules)? {
        Ok(database) => run_open(alloc, database, statements, later_lines),
        Err(Refused { fault, db, log }) => Ok(Run {
            answered: 0,
            is_odd: is_odd(&Some(fault)),
            is_open: false,
            later: Vec::new(alloc),
            disks: Disks { db, log },
        }),
    }
}

/// The files after an opening of copies with this schedule.
pub fn disks_after_opening(alloc: Global, contents: &Contents, schedules: Schedules) -> R<Disks> {
    match open(alloc, contents, schedules)? {
        Ok(database) => Ok(closed(database)),
        Err(Refused { fault: _, db, log }) => Ok(Disks { db, log }),
    }
}
