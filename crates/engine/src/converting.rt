//! Database files of the older kind, whose changes a rollback journal undoes.

ghost use Rattle.std.specs.Prelude.{◌≡◌, ◌↔◌, ◌≤◌, ℕ, [], length, take, true, IsTrue, IfErr, IfOk, Ok, OnOk, MatchOption};
ghost use Rattle.catalog.specs.Database.{Database};
ghost use Rattle.catalog.specs.Listed.{Listed};
ghost use Rattle.db_header.specs.Header.{counted_of};
ghost use Rattle.db_load.specs.Loading.{FindsDatabase};
ghost use Rattle.db_pages.specs.Stored.{IsCounted, Stores};
ghost use Rattle.disk.specs.File.{Always, IsSynced, Throughout};
ghost use Rattle.pager.specs.Maps.{pages_in};
ghost use Rattle.pager_older.specs.Counting.{CountsIo};
ghost use Rattle.pager_older.specs.Older.{HasVersions, as_wal, file_view};
ghost use Rattle.session.specs.Holding.{Hold};
ghost use Rattle.sqlval.specs.Faults.{IsNotDiskFault, IsOrOutside, IsOutside};
ghost use Rattle.sqlval.specs.PageSizes.{IsPageSize};
ghost use Rattle.wal.specs.Opened.{LeavesOld};
ghost use Rattle.wal.specs.Sizes.{IsSizeWithinLimits, IsViewSize};
ghost use Rattle.wal_frame.specs.Accepted.{KeepsFile};
ghost use Rattle.engine.specs.Converting.{CountsBoth, CountsCalls, HoldsAlone, LeaveAloneOrHeld, LeavesConverted, TellsConverted};

use crate::creating::is_blank;
use catalog::Catalog;
use db_header::Header;
use db_load::load;
use disk::Disk;
use pager_older::{FilePages, older_front, write_versions};
use session::stored_files_hold;
use sqlval::limits::{MAX_DATABASE_BYTES, MAX_PAGES};
use sqlval::{Damage, Fault, Feature, Misuse, R};
use std::alloc::Global;

/// How many pages a file of this length has: what its header counts, or else as many as there are. (`Damaged(Size)` where these aren't
/// whole; `Unsupported(Limit)` past 32 bits.)
fn counted_pages(header: &Header, len: u64) -> R<u32>
    requires { IsPageSize header.now.page_size }
    ensures found { IfOk result (λ count. IsViewSize [] (counted_of header.now) len header.now.page_size count) }
    ensures not_disk { IfErr result (λ fault. IsNotDiskFault fault) }
    ensures refused { IfErr result (λ _. (count : ℕ)
        → IsViewSize [] (counted_of header.now) len header.now.page_size count
        → IsSizeWithinLimits header.now.page_size count → ⊥) }
{
    if let Some(count) = header.counted_size() {
        return Ok(count);
    }
    if len % u64::from(header.page_size) != 0 {
        return Err(Fault::Damaged(Damage::Size, 0));
    }
    u32::try_from(len / u64::from(header.page_size)).map_err(|_| Fault::Unsupported(Feature::Limit))
}

/// Whether so many pages of this size are within the limits.
fn is_within_limits(count: u32, page_size: u32) -> bool
    ensures { IsTrue result ↔ IsSizeWithinLimits page_size count }
{
    count <= MAX_PAGES && u64::from(count) * u64::from(page_size) <= MAX_DATABASE_BYTES
}

/// The same, where it is within the limits. (What `counted_pages` refuses; `Unsupported(Limit)`.)
fn page_count(header: &Header, len: u64) -> R<u32>
    requires { IsPageSize header.now.page_size }
    ensures found { IfOk result (λ count. IsViewSize [] (counted_of header.now) len header.now.page_size count
        × IsSizeWithinLimits header.now.page_size count) }
    ensures only { (count : ℕ) → IsViewSize [] (counted_of header.now) len header.now.page_size count
        → IsSizeWithinLimits header.now.page_size count → result ≡ Ok count }
    ensures not_disk { IfErr result (λ fault. IsNotDiskFault fault) }
{
    let count = counted_pages(header, len)?;
    if !is_within_limits(count, header.page_size) {
        return Err(Fault::Unsupported(Feature::Limit));
    }
    Ok(count)
}

/// Loads what so many pages of a file of the older kind hold, as they are once it is in WAL mode. (What `load` refuses.)
fn load_alone<D: Disk>(
    alloc: Global,
    db: &mut D,
    len: u64,
    page_size: u32,
    count: u32,
) -> R<Catalog>
    requires { IsTrue (D.tells db.old) → len ≡ length (D.file db.old).content }
    ensures found { IsTrue (D.tells db.old) → 512 ≤ page_size
        → IfOk result (FindsDatabase (pages_in (file_view (D.file db.old).content page_size count)) page_size) }
    ensures listed { (tables : Listed) (database : Database) → IsTrue (D.tells db.old) → 512 ≤ page_size
        → Stores (pages_in (file_view (D.file db.old).content page_size count)) page_size tables database
        → IsCounted (pages_in (file_view (D.file db.old).content page_size count)) → IfErr result IsOutside }
    ensures kept { KeepsFile D.tells D.file db.old db.new }
    ensures counted { CountsCalls result (D.failures db.old) (D.failures db.new) }
{
    let mut buffer = Vec::new(alloc);
    let mut pages = FilePages {
        db,
        len,
        page_size,
        count,
        buffer: &mut buffer,
    };
    load(alloc, &mut pages, count)
}

/// Checks that a file of the older kind holds a database, where these are its first bytes with the versions of WAL mode. (`Damaged`,
/// `Unsupported`, `Memory`, `Io`.)
fn check_file<D: Disk>(alloc: Global, db: &mut D, front: &[u8; 100]) -> R<()>
    requires { IsTrue (D.tells db.old) → front.now ≡ take 100 (as_wal (D.file db.old).content) }
    ensures found { IsTrue (D.tells db.old)
        → OnOk result ((database : Database) × Hold (as_wal (D.file db.old).content) [] database) }
    ensures held { (database : Database) → IsTrue (D.tells db.old)
        → Hold (as_wal (D.file db.old).content) [] database → IfErr result IsOutside }
    ensures kept { KeepsFile D.tells D.file db.old db.new }
    ensures counted { CountsCalls result (D.failures db.old) (D.failures db.new) }
{
    stored_files_hold();
    let header = db_header::read(front)?;
    let len = db.len()?;
    let count = page_count(&header, len)?;
    load_alone(alloc, db, len, header.page_size, count)?;
    Ok(())
}

/// Whether the database file is one to convert, as `convert` answers it and refuses others. Nothing is written.
fn is_convertible<D: Disk>(alloc: Global, db: &mut D, log: &mut D, journal: u64) -> R<bool>
    ensures told { IsTrue (D.tells db.old) → IsTrue (D.tells log.old)
        → TellsConverted (D.file db.old).content (D.file log.old).content journal result }
    ensures older { IsTrue (D.tells db.old) → IfOk result (λ done. done ≡ true
        → HasVersions 1 (D.file db.old).content) }
    ensures db_kept { KeepsFile D.tells D.file db.old db.new }
    ensures log_kept { KeepsFile D.tells D.file log.old log.new }
    ensures counted { CountsBoth D.failures result db.old log.old db.new log.new }
{
    if is_blank(db)? {
        return Ok(false);
    }
    let Some(front) = older_front(db)? else {
        return Ok(false);
    };
    if journal != 0 {
        return Err(Fault::Journal);
    }
    if log.len()? != 0 {
        return Err(Fault::Misuse(Misuse::LogNotEmpty));
    }
    check_file(alloc, db, &front)?;
    Ok(true)
}

/// Syncs a file, so that a crash leaves what is read of it. The one refusal is `Io`.
fn settle<D: Disk>(file: &mut D) -> R<()>
    ensures told { D.tells file.new ≡ D.tells file.old }
    ensures same { IsTrue (D.tells file.old) → (D.file file.new).content ≡ (D.file file.old).content }
    ensures synced { IsTrue (D.tells file.old) → OnOk result (IsSynced (D.file file.new)) }
    ensures crash { IsTrue (D.tells file.old)
        → Always (D.file file.old) (D.file file.new) (LeavesOld (D.file file.old)) }
    ensures refused { IfErr result (λ fault. fault ≡ Fault.Io) }
    ensures counted { CountsIo result (D.failures file.old) (D.failures file.new) }
{
    file.sync()
}

/// Turns a database file of the older kind, beside an empty log, into one in WAL mode: syncs both files, checks the whole file, and changes
/// its two versions. `journal` is the length of the rollback journal that lies beside it, 0 where there is none. Answers whether the file was
/// changed: a blank file and one in WAL mode stay as they are. (`NotADatabase`; `Unsupported` and `Damaged` for a file that holds no database;
/// `Journal` where there is one, which the older kind's own library has to undo; `Misuse(LogNotEmpty)`; `Memory`, `Io`. Nothing has changed
/// then, except that after `Io` both versions may be those of WAL mode.)
pub fn convert<D: Disk>(alloc: Global, db: &mut D, log: &mut D, journal: u64) -> R<bool>
    // What the answer says of the files: in which of them there was nothing to do, that a database is held, and why a file is refused.
    ensures told { IsTrue (D.tells db.old) → IsTrue (D.tells log.old)
        → TellsConverted (D.file db.old).content (D.file log.old).content journal result }
    // A file that holds a database alone is converted, unless memory runs out or a disk's call fails.
    ensures converts { (database : Database) → IsTrue (D.tells db.old) → IsTrue (D.tells log.old)
        → HoldsAlone (D.file db.old).content database → (D.file log.old).content ≡ [] → journal ≡ 0
        → IsOrOutside (λ done. done ≡ true) result }
    ensures left { IsTrue (D.tells db.old) → IsTrue (D.tells log.old)
        → LeavesConverted (D.file db.old) (D.file log.old) (D.file db.new) (D.file log.new) result }
    // At each moment a crash leaves files that hold the database: the one alone, or both.
    ensures crash { (database : Database) → IsTrue (D.tells db.old) → IsTrue (D.tells log.old)
        → IsSynced (D.file db.old) → HoldsAlone (D.file db.old).content database
        → (D.file log.old).content ≡ []
        → Throughout (LeaveAloneOrHeld database) (D.file db.old) (D.file log.old)
        (D.file db.new) (D.file log.new) }
    ensures counted { CountsBoth D.failures result db.old log.old db.new log.new }
{
    settle(db)?;
    settle(log)?;
    if !is_convertible(alloc, db, log, journal)? {
        return Ok(false);
    }
    write_versions(db)?;
    Ok(true)
}
