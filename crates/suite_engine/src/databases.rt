//! Databases in memory, for the tests that open one.

use disk::MemDisk;
use engine::{Engine, Salts, create};
use sqlval::R;
use std::alloc::Global;

/// The salts of each new log.
const SALTS: Salts = Salts {
    first: 1,
    second: 2,
};

/// A file with these bytes, all of them synced.
pub fn file(alloc: Global, bytes: &[u8]) -> R<MemDisk> {
    MemDisk::new(alloc, bytes.to_vec(alloc)?, None, None)
}

/// The empty database, with pages of 512 bytes.
pub fn new_engine(alloc: Global) -> R<Engine<MemDisk>> {
    let mut db = file(alloc, b"")?;
    let mut log = file(alloc, b"")?;
    create(alloc, &mut db, &mut log, 512)?;
    match Engine::open(alloc, db, log, SALTS) {
        Ok(engine) => Ok(engine),
        Err(refused) => Err(refused.fault),
    }
}
