//! Reading a log.

ghost use Rattle.sqlval.specs.PageSizes.{IsPageSize};
ghost use Rattle.std.specs.Prelude.{◌≡◌, ◌≤◌, ◌+◌, ◌↔◌, length, IsTrue, IfOk, IfErr, IsSome, OnOk, Err};
ghost use Rattle.wal_frame.specs.Log.{header_in};
ghost use Rattle.wal_frame.specs.Progress.{IsMeasured, IsReadWhole};
ghost use Rattle.wal_frame.specs.Accepted.{KeepsFile, IsScanOf, IsScan, HasTooMany, IsTooLong, IsRefusal};

use crate::frame::{FrameHeader, read_frame, stands, sum_of};
use crate::log_header::LogHeader;
use crate::progress::{Progress, Scan};
use crate::sums::Sum;
use disk::Disk;
use sqlval::{R, is_page_size};
use std::alloc::Global;

fn read_header<D: Disk>(disk: &mut D, len: u64) -> R<Option<LogHeader>>
    requires { IsTrue (D.tells disk.old) → len ≡ length (D.file disk.old).content }
    ensures found { IsTrue (D.tells disk.old)
        → IfOk result (λ header. header_in (D.file disk.old).content ≡ Ok header) }
    ensures some { IfOk result (λ header. IsSome header → 32 ≤ len) }
    ensures kept { KeepsFile D.tells D.file disk.old disk.new }
    ensures refused { IfErr result (λ fault. IsRefusal (IsTrue (D.tells disk.old)
        → header_in (D.file disk.old).content ≡ Err fault) ⊥ fault (D.failures disk.old)
        (D.failures disk.new)) }
    ensures counts { D.failures disk.old ≤ D.failures disk.new }
    ensures none_failed { OnOk result (D.failures disk.new ≡ D.failures disk.old) }
{
    if len < 32 {
        return Ok(None);
    }
    let mut bytes = [0; 32];
    disk.read_at(0, &mut bytes)?;
    LogHeader::read(&bytes)
}

/// Reads frames up to one that isn't accepted.
fn read_accepted<D: Disk>(alloc: Global, disk: &mut D, header: &LogHeader, len: u64) -> R<Progress>
    requires told { IsTrue (D.tells disk.old) → len ≡ length (D.file disk.old).content }
    requires some { 32 ≤ len }
    ensures found { IsTrue (D.tells disk.old)
        → IfOk result (λ progress. IsReadWhole header.now (D.file disk.old).content progress) }
    ensures measured { IfOk result (λ progress. IsMeasured header.now progress) }
    ensures kept { KeepsFile D.tells D.file disk.old disk.new }
    ensures refused { IfErr result (λ fault. IsRefusal ⊥ (IsTrue (D.tells disk.old)
        → HasTooMany header.now (D.file disk.old).content) fault (D.failures disk.old) (D.failures disk.new)) }
    ensures counts { D.failures disk.old ≤ D.failures disk.new }
    ensures none_failed { OnOk result (D.failures disk.new ≡ D.failures disk.old) }
{
    let mut so_far = Progress::start(alloc, header);
    if !is_page_size(header.page_size) {
        return Ok(so_far);
    }
    let size = FrameHeader::LEN + header.page_size as usize;
    let mut frame = vec![in alloc; 0; size]?;
    'frames: while size as u64 <= len - so_far.at {
        disk.read_at(so_far.at, &mut frame)?;
        let sum = sum_of(header, so_far.sum, &frame);
        if !stands(header, sum, &frame) {
            return Ok(so_far);
        }
        so_far.accept(read_frame(&frame), sum, size as u64)?;
    }
    Ok(so_far)
}

/// Reads the committed frames.
fn read_frames<D: Disk>(alloc: Global, disk: &mut D, header: &LogHeader, len: u64) -> R<Scan>
    requires told { IsTrue (D.tells disk.old) → len ≡ length (D.file disk.old).content }
    requires some { 32 ≤ len }
    ensures found { IsTrue (D.tells disk.old)
        → IfOk result (λ scan. IsScanOf header.now (D.file disk.old).content scan) }
    ensures header { IfOk result (λ scan. (scan.header ≡ Some header.now)
        × (length scan.frames.items ≤ 1000000)) }
    ensures kept { KeepsFile D.tells D.file disk.old disk.new }
    ensures refused { IfErr result (λ fault. IsRefusal ⊥ (IsTrue (D.tells disk.old)
        → HasTooMany header.now (D.file disk.old).content) fault (D.failures disk.old) (D.failures disk.new)) }
    ensures counts { D.failures disk.old ≤ D.failures disk.new }
    ensures none_failed { OnOk result (D.failures disk.new ≡ D.failures disk.old) }
{
    let so_far = read_accepted(alloc, disk, header, len)?;
    Ok(so_far.finish(header))
}

/// Reads a log, frame by frame, up to the first frame that isn't accepted. (`Memory`, `Io`, `Unsupported(LogFormat)`, and
/// `Unsupported(Limit)` where more than 1,000,000 frames are committed.)
pub fn scan<D: Disk>(alloc: Global, disk: &mut D) -> R<Scan>
    ensures found { IsTrue (D.tells disk.old)
        → IfOk result (λ scan. IsScan (D.file disk.old).content scan) }
    ensures few { IfOk result (λ scan. length scan.frames.items ≤ 1000000) }
    ensures kept { KeepsFile D.tells D.file disk.old disk.new }
    ensures refused { IfErr result (λ fault. IsRefusal (IsTrue (D.tells disk.old)
        → header_in (D.file disk.old).content ≡ Err fault) (IsTrue (D.tells disk.old)
        → IsTooLong (D.file disk.old).content) fault (D.failures disk.old) (D.failures disk.new)) }
    ensures counts { D.failures disk.old ≤ D.failures disk.new }
    ensures none_failed { OnOk result (D.failures disk.new ≡ D.failures disk.old) }
{
    let len = disk.len()?;
    match read_header(disk, len)? {
        Some(header) => read_frames(alloc, disk, &header, len),
        None => Ok(Scan {
            header: None,
            frames: Vec::new(alloc),
            sum: Sum::ZERO,
            end: 0,
        }),
    }
}
