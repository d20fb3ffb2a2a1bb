//! The two files of a database in memory.

use crate::counted::CountedDisk;
use crate::ways::Ways;
use disk::MemDisk;
use engine::{Engine, Refused, Salts, create};
use sqlval::R;
use std::alloc::Global;

/// The salts of each new log.
const SALTS: Salts = Salts {
    first: 1,
    second: 2,
};

/// A file in memory.
pub type File = CountedDisk<MemDisk>;

/// An open database.
pub type Database = Engine<File>;

/// One of the two files.
#[derive(Clone, Copy)]
pub enum Which {
    Database,
    Log,
}

impl Which {
    /// The file of a word.
    pub fn from_word(word: &str) -> Option<Which> {
        match word {
            "db" => Some(Which::Database),
            "log" => Some(Which::Log),
            _ => None,
        }
    }
}

/// Which call of a file fails alone, and from which on each fails.
#[derive(Clone, Copy)]
pub struct Schedule {
    pub fail_at: Option<u64>,
    pub stop_at: Option<u64>,
}

impl Schedule {
    /// The schedule without a failure.
    pub const HEALTHY: Schedule = Schedule {
        fail_at: None,
        stop_at: None,
    };

    /// One call fails alone.
    pub fn failing(call: u64) -> Schedule {
        Schedule {
            fail_at: Some(call),
            stop_at: None,
        }
    }

    /// From one call on each fails.
    pub fn stopping(call: u64) -> Schedule {
        Schedule {
            fail_at: None,
            stop_at: Some(call),
        }
    }
}

/// The schedules of both files.
#[derive(Clone, Copy)]
pub struct Schedules {
    pub db: Schedule,
    pub log: Schedule,
}

impl Schedules {
    /// Both without a failure.
    pub const HEALTHY: Schedules = Schedules {
        db: Schedule::HEALTHY,
        log: Schedule::HEALTHY,
    };

    /// One file has this schedule, and the other has no failure.
    pub fn of(which: Which, schedule: Schedule) -> Schedules {
        match which {
            Which::Database => Schedules {
                db: schedule,
                log: Schedule::HEALTHY,
            },
            Which::Log => Schedules {
                db: Schedule::HEALTHY,
                log: schedule,
            },
        }
    }
}

/// The bytes of both files, all of them synced.
#[derive(Drop)]
pub struct Contents {
    pub db: Vec<u8>,
    pub log: Vec<u8>,
}

impl Contents {
    /// Files without a byte.
    pub fn empty(alloc: Global) -> Contents {
        Contents {
            db: Vec::new(alloc),
            log: Vec::new(alloc),
        }
    }

    /// Cuts a file to a length, if it is longer.
    pub fn cut(&mut self, which: Which, len: usize) {
        match which {
            Which::Database => self.db.truncate(len),
            Which::Log => self.log.truncate(len),
        }
    }
}

/// Both files, with what a crash may leave of them.
#[derive(Drop)]
pub struct Disks {
    pub db: File,
    pub log: File,
}

impl Disks {
    /// Files with these bytes.
    pub fn new(alloc: Global, contents: &Contents, schedules: Schedules) -> R<Disks> {
        Ok(Disks {
            db: file(alloc, &contents.db, schedules.db)?,
            log: file(alloc, &contents.log, schedules.log)?,
        })
    }

    /// Their newest content.
    pub fn newest(&self, alloc: Global) -> R<Contents> {
        Ok(Contents {
            db: self.db.inner().content().to_vec(alloc)?,
            log: self.log.inner().content().to_vec(alloc)?,
        })
    }

    /// What a crash leaves by these picks.
    pub fn crashed(&self, alloc: Global, db_picks: &[u32], log_picks: &[u32]) -> R<Contents> {
        Ok(Contents {
            db: self.db.inner().crash(alloc, db_picks)?,
            log: self.log.inner().crash(alloc, log_picks)?,
        })
    }

    /// What a crash leaves in these ways.
    pub fn crashed_so(&self, alloc: Global, ways: Ways) -> R<Contents> {
        self.crashed(alloc, ways.db.picks(), ways.log.picks())
    }

    /// How many calls a file has had.
    pub fn calls(&self, which: Which) -> u64 {
        match which {
            Which::Database => self.db.calls(),
            Which::Log => self.log.calls(),
        }
    }
}

/// A file with these bytes, all of them synced.
fn file(alloc: Global, bytes: &[u8], schedule: Schedule) -> R<File> {
    let disk = MemDisk::new(
        alloc,
        bytes.to_vec(alloc)?,
        schedule.fail_at,
        schedule.stop_at,
    )?;
    Ok(CountedDisk::new(disk))
}

/// The files of the empty database, with pages of this size.
pub fn created(alloc: Global, page_size: u32) -> R<Contents> {
    let mut disks = Disks::new(alloc, &Contents::empty(alloc), Schedules::HEALTHY)?;
    create(alloc, &mut disks.db, &mut disks.log, page_size)?;
    disks.newest(alloc)
}

/// Opens files with these bytes, or gives them back.
pub fn open(
    alloc: Global,
    contents: &Contents,
    schedules: Schedules,
) -> R<Result<Database, Refused<File>>> {
    let Disks { db, log } = Disks::new(alloc, contents, schedules)?;
    Ok(Engine::open(alloc, db, log, SALTS))
}

/// The files of an open database, which is closed.
pub fn closed(database: Database) -> Disks {
    let (db, log) = database.into_disks();
    Disks { db, log }
}
