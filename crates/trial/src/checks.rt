//! What has to hold of files that failures and crashes leave.

use crate::files::{Contents, Schedule, Schedules, Which};
use crate::replies::shown;
use crate::runs::{Run, disks_after_opening, run_statements};
use crate::ways::{WAYS, Way, Ways};
use sqlval::R;
use std::alloc::Global;

/// How many calls of an opening a second crash is tried at.
const OPENING_CALLS: u64 = 11;

/// The lines that show whether the engine still serves.
const LATER: [&str; 3] = ["1 SELECT 1", "2 COMMIT", "x"];

/// The replies to those lines after a commit that failed.
const FAILED: &[u8] = b"error E28 Failed\nerror E28 Failed\nerror E28 Failed\n";

/// The reply to the first of them otherwise.
const SERVED: &[u8] = b"1\nok\n";

/// The statements of a sweep, and what a query shows of the files after each.
#[derive(Drop)]
pub struct Script {
    pub start: Contents,
    pub query: String,
    pub statements: Vec<String>,
    /// What the files show before all statements, and after each.
    pub states: Vec<Vec<u8>>,
}

/// What breaks a rule: how a crash left the files, how many statements were answered before, and what the files show.
#[derive(Drop)]
pub struct Breach {
    pub ways: Ways,
    pub answered: usize,
    pub shown: Vec<u8>,
}

/// Both files as they stand.
const NEWEST: Ways = Ways {
    db: Way::Newest,
    log: Way::Newest,
};

impl Script {
    /// Whether this is what the files show after so many statements.
    fn is_state(&self, number: usize, shown: &[u8]) -> bool {
        match self.states.get(number) {
            Some(state) => state.as_slice() == shown,
            None => false,
        }
    }

    /// The number of statements after which the files show this: those that were answered, or one more where the files were opened.
    fn state_of(&self, left: &Run, shown: &[u8]) -> Option<usize> {
        if left.is_odd {
            return None;
        }
        let more = left.answered.saturating_add(1);
        if self.is_state(left.answered, shown) {
            Some(left.answered)
        } else if left.is_open && self.is_state(more, shown) {
            Some(more)
        } else {
            None
        }
    }

    /// Runs the statements where a file has this schedule.
    fn run(&self, alloc: Global, which: Which, schedule: Schedule, later_lines: &[&str]) -> R<Run> {
        let schedules = Schedules::of(which, schedule);
        run_statements(alloc, &self.start, schedules, &self.statements, later_lines)
    }

    /// What the files show after a crash in these ways, if it is neither what the answered statements leave nor one more.
    fn breach_after(&self, alloc: Global, left: &Run, ways: Ways) -> R<Option<Breach>> {
        let contents = left.disks.crashed_so(alloc, ways)?;
        let shown = shown(alloc, &contents, self.query.as_str())?;
        if self.state_of(left, &shown).is_some() {
            return Ok(None);
        }
        Ok(Some(Breach {
            ways,
            answered: left.answered,
            shown,
        }))
    }

    /// The same for each way of the log.
    fn breach_of_log(&self, alloc: Global, left: &Run, db: Way) -> R<Option<Breach>> {
        for log in &WAYS {
            let breach = self.breach_after(alloc, left, Ways { db, log: *log })?;
            if breach.is_some() {
                return Ok(breach);
            }
        }
        Ok(None)
    }

    /// Where a file stops at a call, each crash leaves what the answered statements leave, or one more.
    pub fn breach_of_stop(&self, alloc: Global, which: Which, call: u64) -> R<Option<Breach>> {
        let left = self.run(alloc, which, Schedule::stopping(call), &[])?;
        for db in &WAYS {
            let breach = self.breach_of_log(alloc, &left, *db)?;
            if breach.is_some() {
                return Ok(breach);
            }
        }
        Ok(None)
    }

    /// Where a call fails alone, the files show what the answered statements leave. One more is shown only where the engine serves
    /// no more, and then a crash while they are opened leaves what they show.
    pub fn breach_of_failure(&self, alloc: Global, which: Which, call: u64) -> R<Option<Breach>> {
        let left = self.run(alloc, which, Schedule::failing(call), &LATER)?;
        let contents = left.disks.newest(alloc)?;
        let shown = shown(alloc, &contents, self.query.as_str())?;
        let holds = match self.state_of(&left, &shown) {
            Some(_) if left.later.as_slice() == FAILED => self.survives_openings(
                alloc, &contents, &shown,
            )?,
            Some(number) => {
                number == left.answered && (!left.is_open || left.later.starts_with(SERVED))
            }
            None => false,
        };
        if holds {
            return Ok(None);
        }
        Ok(Some(Breach {
            ways: NEWEST,
            answered: left.answered,
            shown,
        }))
    }

    /// Where a file stops at a call, a crash leaves what the answered statements leave, or one more; and a second crash, while the
    /// files are opened, leaves what the first one left.
    pub fn breach_of_two(&self, alloc: Global, which: Which, call: u64) -> R<Option<Breach>> {
        let left = self.run(alloc, which, Schedule::stopping(call), &[])?;
        let ways = ways_of_call(which, call);
        let contents = left.disks.crashed_so(alloc, ways)?;
        let shown = shown(alloc, &contents, self.query.as_str())?;
        let holds = self.state_of(&left, &shown).is_some()
            && self.survives_openings(alloc, &contents, &shown)?;
        if holds {
            return Ok(None);
        }
        Ok(Some(Breach {
            ways,
            answered: left.answered,
            shown,
        }))
    }

    /// Whether a crash at each of the first calls of an opening leaves what the files show.
    fn survives_openings(&self, alloc: Global, contents: &Contents, shows: &[u8]) -> R<bool> {
        for call in 1..OPENING_CALLS + 1 {
            let stops = Schedule::stopping(call);
            let of_db = Schedules::of(Which::Database, stops);
            let of_log = Schedules::of(Which::Log, stops);
            if !self.survives_opening(alloc, contents, of_db, Way::Mixed, shows)?
                || !self.survives_opening(alloc, contents, of_log, Way::Newest, shows)?
            {
                return Ok(false);
            }
        }
        Ok(true)
    }

    /// Whether a crash while files are opened, in this way of both, leaves what they show.
    fn survives_opening(
        &self,
        alloc: Global,
        contents: &Contents,
        schedules: Schedules,
        way: Way,
        shows: &[u8],
    ) -> R<bool> {
        let disks = disks_after_opening(alloc, contents, schedules)?;
        let left = disks.crashed_so(alloc, Ways { db: way, log: way })?;
        let found = shown(alloc, &left, self.query.as_str())?;
        Ok(found.as_slice() == shows)
    }
}

/// The ways of a first crash: the file that stops has each in turn, and of the other one what was synced is left.
fn ways_of_call(which: Which, call: u64) -> Ways {
    let way = Way::of_number(call);
    match which {
        Which::Database => Ways {
            db: way,
            log: Way::Synced,
        },
        Which::Log => Ways {
            db: Way::Synced,
            log: way,
        },
    }
}
