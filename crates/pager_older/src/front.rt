//! Which mode a database file is in.

ghost use Rattle.std.specs.Prelude.{◌≡◌, ◌≤◌, ℕ, List, length, IsTrue, IfErr, IfOk};
ghost use Rattle.db_header.specs.Reading.{has_text};
ghost use Rattle.wal_frame.specs.Accepted.{KeepsFile};
ghost use Rattle.sqlval.specs.Faults.{IsNotDiskFault};
ghost use Rattle.pager_older.specs.Counting.{CountsIo};
ghost use Rattle.pager_older.specs.Older.{IsPaddedFront, IsFrontRefusal, TellsFront};

use crate::versions::{has_versions, put_versions};
use disk::Disk;
use sqlval::limits::DATABASE_HEADER_LEN;
use sqlval::{Fault, Feature, R};

/// Whether a file that begins with these bytes, and has so many, is long enough and begins as a database's does.
#[tactic(auto, unfolding(db_header::specs::Reading::has_text))]
fn is_named(front: &[u8], there: usize) -> bool
    requires { length front.now ≡ 100 }
    ensures { (bytes : List ℕ) → IsPaddedFront bytes front.now there → result ≡ has_text bytes }
{
    there >= DATABASE_HEADER_LEN && &front[..16] == b"SQLite format 3\0".as_slice()
}

/// What the first bytes of a file, with zeros after them, say of its mode: as `older_front`, which reads them.
fn judged(mut front: [u8; 100], there: usize) -> R<Option<[u8; 100]>>
    ensures told { (bytes : List ℕ) → IsPaddedFront bytes front there → IfOk result (TellsFront bytes) }
    ensures refused { (bytes : List ℕ) → IsPaddedFront bytes front there
        → IfErr result (IsFrontRefusal bytes) }
    ensures not_disk { IfErr result (λ fault. IsNotDiskFault fault) }
{
    if has_versions(&front, 2) {
        return Ok(None);
    }
    if !is_named(&front, there) {
        return Err(Fault::NotADatabase);
    }
    if !has_versions(&front, 1) {
        return Err(Fault::Unsupported(Feature::FileVersion));
    }
    put_versions(&mut front);
    Ok(Some(front))
}

/// The first 100 bytes of a database file of the older kind, with the versions of WAL mode in their places; None for a file that has these.
/// (`NotADatabase` for fewer bytes or others at the front; `Unsupported(FileVersion)` for other versions; `Io`.)
pub fn older_front<D: Disk>(db: &mut D) -> R<Option<[u8; 100]>>
    ensures told { IsTrue (D.tells db.old) → IfOk result (TellsFront (D.file db.old).content) }
    ensures refused { IsTrue (D.tells db.old) → IfErr result (IsFrontRefusal (D.file db.old).content) }
    ensures kept { KeepsFile D.tells D.file db.old db.new }
    ensures counted { CountsIo result (D.failures db.old) (D.failures db.new) }
{
    let len = db.len()?;
    let mut front = [0u8; DATABASE_HEADER_LEN];
    let there = len.min(DATABASE_HEADER_LEN as u64) as usize;
    db.read_at(0, &mut front[..there])?;
    judged(front, there)
}
