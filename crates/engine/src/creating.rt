//! Blank files, and the empty database.

ghost use Rattle.sqlval.specs.PageSizes.{IsPageSize};
ghost use Rattle.std.specs.Prelude.{◌≡◌, ◌≢◌, ◌⊎◌, ℕ, List, [], true, false, IsTrue, IfOk, IfErr, OnOk, OnErr, length};
ghost use Rattle.std.specs.List.{list_all};
ghost use Rattle.sqlval.specs.declared.fault.Fault.TheVariants.{Io, Memory};
ghost use Rattle.disk.specs.Calls.{Rose};
ghost use Rattle.disk.specs.File.{Elapses, IsSynced};
ghost use Rattle.pager_older.specs.Counting.{CountsIo};
ghost use Rattle.pager_older.specs.Older.{IsSyncedAs};
ghost use Rattle.engine.specs.Creating.{is_blank_content, is_zero_byte, BecomesDatabase, BecomesPage, CreatedHold, HasCreated, IsBlankOr, IsBlankOrCreated, IsNewFileRefusal, IsEmptyDatabase, Stays};

use db_header::Header;
use disk::Disk;
use sqlval::{Fault, Feature, Misuse, R, is_page_size};
use std::alloc::Global;
use tree_leaf::build;

/// The most bytes of a blank file.
const MAX_BLANK: u64 = 65_536;

/// The bytes that are read at once.
const PIECE: usize = 4096;

/// Whether these bytes are zero.
fn are_zero(bytes: &[u8]) -> bool
    ensures { result ≡ list_all is_zero_byte bytes.now }
{
    bytes.iter().all(|byte| *byte == 0)
}

/// Whether all bytes of a file of this length are zero.
fn is_zero<D: Disk>(db: &mut D, len: u64) -> R<bool>
    requires { IsTrue (D.tells db.old) → len ≡ length (D.file db.old).content }
    ensures zero { IsTrue (D.tells db.old) → IfOk result
        (λ zero. zero ≡ list_all is_zero_byte (D.file db.old).content) }
    ensures kept { Stays D.tells D.file db.old db.new }
    ensures refused { IfErr result (λ fault. fault ≡ Io) }
    ensures counted { CountsIo result (D.failures db.old) (D.failures db.new) }
{
    let mut piece = [0u8; PIECE];
    let mut at = 0;
    'pieces: while at < len {
        let count = (len - at).min(PIECE as u64);
        let part = &mut piece[..count as usize];
        db.read_at(at, part)?;
        if !are_zero(part) {
            return Ok(false);
        }
        at += count;
    }
    Ok(true)
}

/// Whether a database file is blank: at most 65,536 bytes, all of them zero.
pub fn is_blank<D: Disk>(db: &mut D) -> R<bool>
    ensures blank { IsTrue (D.tells db.old) → IfOk result
        (λ blank. blank ≡ is_blank_content (D.file db.old).content) }
    ensures kept { Stays D.tells D.file db.old db.new }
    ensures refused { IfErr result (λ fault. fault ≡ Io) }
    ensures counted { CountsIo result (D.failures db.old) (D.failures db.new) }
{
    let len = db.len()?;
    if len > MAX_BLANK {
        return Ok(false);
    }
    is_zero(db, len)
}

/// Page 1 of the empty database.
fn empty_page(alloc: Global, page_size: u32) -> R<Vec<u8>>
    requires { IsPageSize page_size }
    ensures made { IfOk result (λ page. IsEmptyDatabase page_size page.items) }
    ensures refused { IfErr result (λ fault. fault ≡ Memory) }
{
    let header = db_header::write(&Header::empty(page_size));
    build(alloc, &header, page_size as usize, &[])
}

/// Cuts a log to nothing and syncs it.
fn empty_log<D: Disk>(log: &mut D) -> R<()>
    ensures emptied { IsTrue (D.tells log.old) → OnOk result (IsSyncedAs [] (D.file log.new)) }
    ensures moments { IsTrue (D.tells log.old) → Elapses (D.file log.old) (D.file log.new) }
    ensures refused { IfErr result (λ fault. fault ≡ Io) }
    ensures counted { CountsIo result (D.failures log.old) (D.failures log.new) }
{
    log.cut(0)?;
    log.sync()
}

/// Makes a page the content of a blank file and syncs it.
fn put_page<D: Disk>(db: &mut D, page: &[u8]) -> R<()>
    ensures made { IsTrue (D.tells db.old) → OnOk result (IsSyncedAs page.now (D.file db.new)) }
    ensures crash { (size : ℕ) → IsPageSize size → IsEmptyDatabase size page.now
        → IsTrue (D.tells db.old) → IsSynced (D.file db.old)
        → is_blank_content (D.file db.old).content ≡ true
        → BecomesPage page.now (D.file db.old) (D.file db.new) }
    ensures left { (size : ℕ) → IsPageSize size → IsEmptyDatabase size page.now → IsTrue (D.tells db.old)
        → is_blank_content (D.file db.old).content ≡ true → IsBlankOr page.now (D.file db.new).content }
    ensures refused { IfErr result (λ fault. fault ≡ Io) }
    ensures counted { CountsIo result (D.failures db.old) (D.failures db.new) }
{
    db.cut(0)?;
    db.write_at(0, page)?;
    db.sync()
}

/// Empties the log, and makes page 1 of the empty database the content of the database file.
fn put_empty<D: Disk>(db: &mut D, log: &mut D, page: &[u8]) -> R<()>
    ensures made { IsTrue (D.tells db.old) → OnOk result (IsSyncedAs page.now (D.file db.new)) }
    ensures emptied { IsTrue (D.tells log.old) → OnOk result (IsSyncedAs [] (D.file log.new)) }
    ensures none_failed { OnOk result ((D.failures db.new ≡ D.failures db.old)
        × (D.failures log.new ≡ D.failures log.old)) }
    ensures crash { (size : ℕ) → IsPageSize size → IsEmptyDatabase size page.now
        → IsTrue (D.tells db.old) → IsTrue (D.tells log.old)
        → IsSynced (D.file db.old) → is_blank_content (D.file db.old).content ≡ true
        → BecomesDatabase size (D.file db.old) (D.file log.old) (D.file db.new) (D.file log.new) }
    ensures left { (size : ℕ) → IsPageSize size → IsEmptyDatabase size page.now
        → IsTrue (D.tells db.old) → IsTrue (D.tells log.old)
        → is_blank_content (D.file db.old).content ≡ true
        → IsBlankOrCreated size (D.file db.new).content (D.file log.new).content }
    ensures refused { IfErr result (λ fault. fault ≡ Io) }
    ensures called { OnErr result (Rose (D.failures db.old) (D.failures db.new)
        ⊎ Rose (D.failures log.old) (D.failures log.new)) }
{
    empty_log(log)?;
    put_page(db, page)
}

/// Makes the empty database of a blank file: the log is cut to nothing, then page 1 is written. Refusals: `Misuse` where
/// the file isn't blank, `Unsupported` where the page size is no power of two from 512 to 65536, `Memory`; then nothing
/// has changed. `Io`: of a blank file the database file is blank still, or the empty database beside a log without a byte;
/// any other file is as it was, and so is its log.
pub fn create<D: Disk>(alloc: Global, db: &mut D, log: &mut D, page_size: u32) -> R<()>
    ensures made { OnOk result (HasCreated D.tells D.file D.failures page_size db.old log.old db.new log.new) }
    // A blank file isn't refused for what it holds.
    ensures refused { IfErr result (λ fault. IsNewFileRefusal page_size (IsTrue (D.tells db.old)
        → is_blank_content (D.file db.old).content ≡ false)
        (Rose (D.failures db.old) (D.failures db.new)
        ⊎ Rose (D.failures log.old) (D.failures log.new)) fault) }
    // A refusal other than a disk's failure changes nothing.
    ensures kept { IfErr result (λ fault. fault ≢ Io → Stays D.tells D.file db.old db.new
        × Stays D.tells D.file log.old log.new) }
    // Whatever the answer, nothing but a blank file is written over, and its log alone is cut.
    ensures untouched { IsTrue (D.tells db.old) → is_blank_content (D.file db.old).content ≡ false
        → Stays D.tells D.file db.old db.new × Stays D.tells D.file log.old log.new }
    // Of a blank file, synced or not, each answer leaves a blank database file, or the empty database beside a log without a byte.
    ensures left { IsTrue (D.tells db.old) → IsTrue (D.tells log.old)
        → is_blank_content (D.file db.old).content ≡ true
        → IsBlankOrCreated page_size (D.file db.new).content (D.file log.new).content }
    // Of one that was synced before, a crash at any moment leaves such files too.
    ensures crash { IsTrue (D.tells db.old) → IsTrue (D.tells log.old) → IsSynced (D.file db.old)
        → is_blank_content (D.file db.old).content ≡ true
        → BecomesDatabase page_size (D.file db.old) (D.file log.old) (D.file db.new) (D.file log.new) }
{
    if !is_page_size(page_size) {
        return Err(Fault::Unsupported(Feature::PageSize));
    }
    if !is_blank(db)? {
        return Err(Fault::Misuse(Misuse::NotBlank));
    }
    let page = empty_page(alloc, page_size)?;
    put_empty(db, log, &page)
}

/// The files that `create` leaves hold the empty database.
pub fn created_files_hold_nothing()
    ensures { CreatedHold }
{}
