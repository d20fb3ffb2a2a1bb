//! The pages of a snapshot.

ghost use Rattle.sqlval.specs.PageSizes.{IsPageSize};
ghost use Rattle.std.specs.Prelude.{◌≡◌, ◌⊎◌, ◌≤◌, ℕ, List, length, false, IfOk, IfErr, OnOk, Ok};
ghost use Rattle.sqlval.specs.Faults.{IsNotDiskFault, IsOutside};
ghost use Rattle.db_header.specs.Header.{IsHeader};
ghost use Rattle.wal.specs.LogState.{db_of, state_of, log_of, seen_by, size_of};
ghost use Rattle.pager.specs.Views.{ViewHas, IsViewPage, Tells, view_at};
ghost use Rattle.wal_frame.specs.Accepted.{KeepsFile};
ghost use Rattle.wal.specs.ErrorCauses.{HasCause};

use db_header::Header;
use disk::Disk;
use sqlval::limits::DATABASE_HEADER_LEN;
use sqlval::{Fault, R};
use std::alloc::Global;
use wal::{Log, Snapshot};

/// Reads a page of a snapshot into a buffer of the page size.
pub(crate) fn read_into<D: Disk + Drop>(
    log: &mut Log<D>,
    snapshot: Snapshot,
    number: u32,
    page: &mut [u8],
) -> R<()>
    ensures kept { (state_of log.new ≡ state_of log.old)
        × KeepsFile D.tells D.file (db_of log.old) (db_of log.new)
        × KeepsFile D.tells D.file (log_of log.old) (log_of log.new) }
    ensures cause { HasCause false result log.old log.new }
    ensures read { Tells log.old → seen_by snapshot ≤ (state_of log.old).frames
        → OnOk result (ViewHas (view_at log.old snapshot) number page.new) }
    ensures there { (bytes : List ℕ) → length page.old ≡ (state_of log.old).page_size
        → Tells log.old
        → seen_by snapshot ≤ (state_of log.old).frames
        → IsViewPage (view_at log.old snapshot) number bytes
        → IfErr result IsOutside }
    ensures within { OnOk result ((1 ≤ number) × (number ≤ size_of snapshot)
        × (length page.old ≡ (state_of log.old).page_size)) }
    ensures not_blank { IfErr result (λ fault. fault ≡ Fault.Blank → ⊥) }
{
    log.page(snapshot, number, page)
}

/// A page of a snapshot.
pub(crate) fn read_page<D: Disk + Drop>(
    alloc: Global,
    log: &mut Log<D>,
    snapshot: Snapshot,
    number: u32,
) -> R<Vec<u8>>
    ensures kept { (state_of log.new ≡ state_of log.old)
        × KeepsFile D.tells D.file (db_of log.old) (db_of log.new)
        × KeepsFile D.tells D.file (log_of log.old) (log_of log.new) }
    ensures cause { HasCause false result log.old log.new }
    ensures read { Tells log.old → seen_by snapshot ≤ (state_of log.old).frames
        → IfOk result (λ page. ViewHas (view_at log.old snapshot) number page.items) }
    // A page that exists is refused only if out of memory or if a disk's call failed.
    ensures there { (bytes : List ℕ) → Tells log.old → seen_by snapshot ≤ (state_of log.old).frames
        → IsViewPage (view_at log.old snapshot) number bytes
        → IfErr result IsOutside }
    ensures len { IfOk result (λ page. length page.items ≡ (state_of log.old).page_size) }
    // No page past the snapshot's size is read.
    ensures within { OnOk result ((1 ≤ number) × (number ≤ size_of snapshot)) }
    ensures not_blank { IfErr result (λ fault. fault ≡ Fault.Blank → ⊥) }
{
    let mut page = vec![in alloc; 0; log.page_size() as usize]?;
    read_into(log, snapshot, number, page.as_mut_slice())?;
    Ok(page)
}

/// The header at the front of a page 1.
pub fn header_of(page: &[u8]) -> R<Header>
    ensures size { IfOk result (λ header. IsPageSize header.page_size) }
    // A header that is there is read.
    ensures only { (header : Header) → IsHeader page.now header → result ≡ Ok header }
    ensures found { IfOk result (λ header. IsHeader page.now header) }
    ensures refused { IfErr result (λ fault. IsNotDiskFault fault) }
    ensures not_blank { IfErr result (λ fault. fault ≡ Fault.Blank → ⊥) }
{
    match page.get(..DATABASE_HEADER_LEN) {
        Some(front) => db_header::read(front),
        None => Err(Fault::NotADatabase),
    }
}
