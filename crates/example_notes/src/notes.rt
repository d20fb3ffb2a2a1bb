//! The notes, and a query of them.

use disk::MemDisk;
use engine::{Engine, Rows, Salts, create};
use sqlval::R;
use std::alloc::Global;

/// Makes a database of notes, and answers the texts of those about home.
pub fn notes_of(alloc: Global) -> R<Rows> {
    let mut db = MemDisk::new(alloc, Vec::new(alloc), None, None)?;
    let mut log = MemDisk::new(alloc, Vec::new(alloc), None, None)?;
    create(alloc, &mut db, &mut log, 4096)?;
    let salts = Salts {
        first: 1,
        second: 2,
    };
    let mut engine = Engine::open(alloc, db, log, salts).map_err(|refused| refused.fault)?;
    engine.execute(1, "CREATE TABLE notes(subject TEXT, note TEXT)")?;
    engine.execute(
        1,
        "INSERT INTO notes VALUES ('home', 'call Ann'), ('work', 'write the report')",
    )?;
    engine.execute(1, "SELECT note FROM notes WHERE subject = 'home'")
}
