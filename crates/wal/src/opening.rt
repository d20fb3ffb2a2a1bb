//! Opening the two files.

ghost use Rattle.std.specs.Prelude.{◌≡◌, ◌⊎◌, ◌<◌, ◌≤◌, ◌-◌, ℕ, length, IsTrue, IfOk, IfErr, IsFalse, IsNone, OnOk, MatchResult};
ghost use Rattle.disk.specs.Calls.{Rose};
ghost use Rattle.disk.specs.File.{IsSynced, Always, Throughout};
ghost use Rattle.wal_frame.specs.Accepted.{KeepsFile};
ghost use Rattle.wal.specs.Sizes.{IsHeaderOf, IsSumOf, IsViewSize, IsSizeWithinLimits, IsOfSize};
ghost use Rattle.wal.specs.Opened.{fresh_header, IsOpened, IsStateOf, CanOpen, KeepsContent, LeavesOld, LeavesAsBefore, db_synced, log_synced};
ghost use Rattle.wal.specs.ErrorCauses.{TouchesDisk};
ghost use Rattle.wal.specs.LogState.{state_in};
ghost use Rattle.wal.specs.Refusals.{IsOpenRefusal};
ghost use Rattle.wal.specs.Stands.{LogStands};

use crate::indexed::index_of;
use crate::log::{Log, Refused, Synced};
use crate::state::{State, is_within_limits};
use disk::Disk;
use sqlval::{Damage, Fault, Feature, R, is_page_size};
use std::alloc::Global;
use wal_frame::{FrameHeader, LogHeader, Salts, Scan, Sum, WordOrder, scan};

/// The size of the newest view, in pages.
fn view_size(
    frames: &[FrameHeader],
    counted_size: Option<u32>,
    db_len: u64,
    page_size: u32,
) -> R<u32>
    requires { 0 < page_size }
    ensures size { IfOk result (λ size. IsViewSize frames.now counted_size db_len page_size size) }
    ensures refused { IfErr result (λ fault. IsOpenRefusal ⊥
        ((size : ℕ) → IsViewSize frames.now counted_size db_len page_size size
        → IsSizeWithinLimits page_size size → ⊥) fault) }
{
    if let Some(last) = frames.last() {
        return Ok(last.size);
    }
    if let Some(size) = counted_size {
        return Ok(size);
    }
    if db_len % page_size as u64 != 0 {
        return Err(Fault::Damaged(Damage::Size, 0));
    }
    u32::try_from(db_len / page_size as u64).map_err(|_| Fault::Unsupported(Feature::Limit))
}

fn header_of(scanned: &Scan, page_size: u32, salts: Salts) -> R<LogHeader>
    ensures fresh { IsNone scanned.now.header
        → IfOk result (λ header. header ≡ fresh_header page_size salts) }
    ensures size { IfOk result (λ header. header.page_size ≡ page_size) }
    ensures found { IfOk result (λ header. IsHeaderOf scanned.now header) }
    ensures refused { IfErr result (λ fault. IsOpenRefusal ⊥
        (IsOfSize scanned.now.header page_size → ⊥) fault) }
{
    match scanned.header {
        Some(header) if header.page_size != page_size => Err(Fault::Damaged(Damage::Header, 0)),
        Some(header) => Ok(header),
        None => Ok(LogHeader {
            order: WordOrder::Big,
            page_size,
            sequence: 0,
            salts,
        }),
    }
}

/// The sums after the last committed frame, or those of the header.
fn sum_of(scanned: &Scan, header: &LogHeader) -> Sum
    ensures { IsSumOf scanned.now header.now result }
{
    match scanned.header {
        Some(_) => scanned.sum,
        None => header.sum(),
    }
}

/// Syncs a file, so that a crash leaves what is read of it.
fn sync_file<D: Disk>(file: &mut D) -> R<()>
    ensures kept { KeepsContent D.tells D.file D.failures file.old file.new }
    ensures synced { OnOk result (IsTrue (D.tells file.old) → IsSynced (D.file file.new)) }
    ensures crash { IsTrue (D.tells file.old)
        → Always (D.file file.old) (D.file file.new) (LeavesOld (D.file file.old)) }
    ensures touches { TouchesDisk D.tells D.failures file.old file.new result }
{
    file.sync()
}

/// Syncs both files.
#[tactic(auto, using(crate::proofs::Beginning::old_stays))]
fn sync_files<D: Disk>(db: &mut D, log: &mut D) -> R<()>
    ensures db { KeepsContent D.tells D.file D.failures db.old db.new }
    ensures log { KeepsContent D.tells D.file D.failures log.old log.new }
    ensures synced { OnOk result ((IsTrue (D.tells db.old) → IsSynced (D.file db.new))
        × (IsTrue (D.tells log.old) → IsSynced (D.file log.new))) }
    ensures db_crash { IsTrue (D.tells db.old)
        → Always (D.file db.old) (D.file db.new) (LeavesOld (D.file db.old)) }
    ensures log_crash { IsTrue (D.tells log.old)
        → Always (D.file log.old) (D.file log.new) (LeavesOld (D.file log.old)) }
    ensures none_failed { OnOk result ((D.failures db.new ≡ D.failures db.old)
        × (D.failures log.new ≡ D.failures log.old)) }
    ensures refused { IfErr result (λ fault. (fault ≡ Fault.Io)
        × (Rose (D.failures db.old) (D.failures db.new)
        ⊎ Rose (D.failures log.old) (D.failures log.new))) }
{
    sync_file(db)?;
    sync_file(log)
}

/// Reads the state of the two files.
fn recover<D: Disk>(
    alloc: Global,
    db: &mut D,
    log: &mut D,
    page_size: u32,
    counted_size: Option<u32>,
    salts: Salts,
) -> R<State>
    ensures db { IsTrue (D.tells db.new) → IfOk result
        (λ state. state.db_len ≡ length (D.file db.new).content) }
    ensures log { IsTrue (D.tells log.new)
        → IfOk result (λ state. LogStands state.header state.is_begun state.mark state.sum
        state.index (D.file log.new).content) }
    ensures known { IfOk result (λ state. IsOpened page_size salts (state_in state)
        × IsFalse state.is_clean × (state.copied_pages ≡ 0)) }
    ensures view { IsTrue (D.tells db.new) → IsTrue (D.tells log.new)
        → IfOk result (λ state. IsStateOf counted_size (D.file db.new).content
        (D.file log.new).content (state_in state)) }
    ensures refused { IfErr result (λ fault. IsOpenRefusal (Rose (D.failures db.old) (D.failures db.new)
        ⊎ Rose (D.failures log.old) (D.failures log.new)) (IsTrue (D.tells db.old) → IsTrue (D.tells log.old)
        → CanOpen page_size counted_size (D.file db.old).content (D.file log.old).content → ⊥) fault) }
    ensures none_failed { OnOk result ((D.failures db.new ≡ D.failures db.old)
        × (D.failures log.new ≡ D.failures log.old)) }
    ensures kept { KeepsFile D.tells D.file db.old db.new × KeepsFile D.tells D.file log.old log.new
        × (D.failures db.old ≤ D.failures db.new) × (D.failures log.old ≤ D.failures log.new) }
{
    if !is_page_size(page_size) {
        return Err(Fault::Unsupported(Feature::PageSize));
    }
    let db_len = db.len()?;
    let scanned = scan(alloc, log)?;
    let header = header_of(&scanned, page_size, salts)?;
    let size = view_size(&scanned.frames, counted_size, db_len, page_size)?;
    if !is_within_limits(size, page_size) {
        return Err(Fault::Unsupported(Feature::Limit));
    }
    let is_begun = scanned.header.is_some();
    Ok(State {
        page_size,
        db_len,
        header,
        is_begun,
        is_clean: false,
        is_failed: false,
        mark: scanned.frames.len() as u32,
        copied: 0,
        copied_pages: 0,
        sum: sum_of(&scanned, &header),
        size,
        index: index_of(alloc, &scanned.frames)?,
    })
}

/// Syncs both files, so that a crash leaves what is read of them. (`Io`.)
pub fn sync_both<D: Disk>(db: D, log: D) -> Result<Synced<D>, Refused<D>>
    ensures kept { KeepsContent D.tells D.file D.failures db (db_synced result)
        × KeepsContent D.tells D.file D.failures log (log_synced result) }
    ensures crash { IsTrue (D.tells db) → IsTrue (D.tells log)
        → Throughout (LeavesAsBefore (D.file db) (D.file log)) (D.file db) (D.file log)
        (D.file (db_synced result)) (D.file (log_synced result)) }
    ensures refused { MatchResult result (λ files. (D.failures files.db ≡ D.failures db)
        × (D.failures files.log ≡ D.failures log))
        (λ refused. (refused.fault ≡ Fault.Io)
        × (Rose (D.failures db) (D.failures refused.db)
        ⊎ Rose (D.failures log) (D.failures refused.log))) }
{
    let mut db = db;
    let mut log = log;
    match sync_files(&mut db, &mut log) {
        Ok(()) => Ok(Synced { db, log }),
        Err(fault) => Err(Refused { fault, db, log }),
    }
}

impl<D: Disk> Log<D> {
    ghost use Rattle.wal.specs.LogState.{state_of, db_of, log_of};
    ghost use Rattle.wal.specs.Opened.{db_in, log_in};

    /// Opens a database file, whose pages have `page_size` bytes and whose header counts `counted_size` pages, with its log. A
    /// log without a valid header gets one with these salts at the first commit. Nothing is written. (`Memory`, `Io`; `Damaged(Header)`
    /// where the log is of another page size, `Damaged(Size)` where nothing counts the pages and the file isn't of whole ones;
    /// `Unsupported` of `PageSize`, `LogFormat`, or `Limit` where there are more than 65,536 pages, 1,073,741,824 bytes or
    /// 1,000,000 committed frames.)
    pub fn open(
        alloc: Global,
        files: Synced<D>,
        page_size: u32,
        counted_size: Option<u32>,
        salts: Salts,
    ) -> Result<Log<D>, Refused<D>>
        ensures kept { KeepsFile D.tells D.file files.db (db_in result)
            × KeepsFile D.tells D.file files.log (log_in result)
            × (D.failures files.db ≤ D.failures (db_in result))
            × (D.failures files.log ≤ D.failures (log_in result)) }
        ensures known { IfOk result (λ opened. IsOpened page_size salts (state_of opened)) }
        ensures view { IfOk result (λ opened. IsTrue (D.tells files.db) → IsTrue (D.tells files.log)
            → IsStateOf counted_size (D.file (db_of opened)).content
            (D.file (log_of opened)).content (state_of opened)) }
        ensures refused { MatchResult result (λ opened. (D.failures (db_of opened) ≡ D.failures files.db)
            × (D.failures (log_of opened) ≡ D.failures files.log))
            (λ refused. IsOpenRefusal (Rose (D.failures files.db) (D.failures refused.db)
            ⊎ Rose (D.failures files.log) (D.failures refused.log))
            (IsTrue (D.tells files.db) → IsTrue (D.tells files.log)
            → CanOpen page_size counted_size (D.file files.db).content (D.file files.log).content
            → ⊥) refused.fault) }
    {
        let Synced { db, log } = files;
        let mut db = db;
        let mut log = log;
        match recover(alloc, &mut db, &mut log, page_size, counted_size, salts) {
            Ok(state) => Ok(Log { db, log, state }),
            Err(fault) => Err(Refused { fault, db, log }),
        }
    }
}
