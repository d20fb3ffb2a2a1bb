//! A file in memory.

ghost use Rattle.std.specs.Prelude.{not, ◌≡◌, ◌+◌, ◌-◌, ◌^◌, [], ◌∷◌, ◌++◌, ℕ, true, false, is_ok, length, take, drop, IfOk, OnOk, OnErr, IfErr, IsOk, IsTrue, IsFalse, ◌⊎◌, ◌≤◌, ◌<◌, slice_index};
ghost use Rattle.disk.specs.Calls.{CountsFailure, CutsFile, FailsToCut, FailsToWrite, Syncs, Writes, cut_version, overwritten, write_version};
ghost use Rattle.disk.specs.File.{Elapses, IsLeft, version_at, versions};
ghost use Rattle.disk.specs.Picked.{left_by};
ghost use Rattle.disk.specs.Replay.{file_of};

use crate::change::Change;
use crate::changed::{cut_to, note_sync, overwrite};
use crate::crashing::last_time;
use crate::device::Disk;
use crate::schedule::{has_come, is_call};
use sqlval::{Fault, R};
use std::alloc::{AllocError, Global};

/// A file in memory, whose calls can be made to fail. A call that finds no memory fails too.
#[derive(Drop)]
pub struct MemDisk {
    alloc: Global,
    start: Vec<u8>,
    changes: Vec<Change>,
    content: Vec<u8>,
    call: u64,
    fail_at: Option<u64>,
    stop_at: Option<u64>,
    failures: u64,
    lacks_memory: bool,
    ghost content_is: { content.items ≡ (file_of start.items changes.items).content },
}

impl MemDisk {
    ghost use Rattle.disk.specs.Memory.{memory_file, failed_calls, calls_of, lacked_memory, schedule_of};
    ghost use Rattle.disk.specs.Schedule as schedule;
    ghost use Rattle.disk.specs.Schedule.{is_failing, IsNextCall};
    ghost use Rattle.disk.specs.Landing.{has_landed};
    ghost use Rattle.disk.specs.Replay.{fresh};

    /// A file with these bytes, all of them synced. The call numbered `fail_at`, from 1, fails alone. From `stop_at` on each call
    /// fails: that one may still land, where it is a write or a cut, and no later one does anything. (`Memory`.)
    pub fn new(
        alloc: Global,
        bytes: Vec<u8>,
        fail_at: Option<u64>,
        stop_at: Option<u64>,
    ) -> R<MemDisk>
        ensures file { IfOk result (λ m. memory_file m ≡ fresh bytes.items) }
        ensures failures { IfOk result (λ m. failed_calls m ≡ 0) }
        ensures schedule { IfOk result (λ m. (schedule_of m
            ≡ record { fail_at = fail_at; stop_at = stop_at }) × (calls_of m ≡ 0)) }
        ensures refused { IfErr result (λ fault. fault ≡ Fault.Memory) }
    {
        let start = bytes.to_vec(alloc)?;
        Ok(MemDisk {
            alloc,
            start,
            changes: Vec::new(alloc),
            content: bytes,
            call: 0,
            fail_at,
            stop_at,
            failures: 0,
            lacks_memory: false,
        })
    }

    /// The content.
    pub fn content(&self) -> &[u8]
        ensures { result.now ≡ (memory_file self.now).content }
    {
        &self.content
    }

    /// Whether the last call failed since it found no memory.
    pub fn lacks_memory(&self) -> bool
        ensures { result ≡ lacked_memory self.now }
    {
        self.lacks_memory
    }

    /// Whether the call at which the file crashed is over.
    fn is_gone(&self) -> bool
        ensures { result ≡ schedule.has_come (schedule_of self.now).stop_at (calls_of self.now) }
    {
        has_come(self.stop_at, self.call)
    }

    /// Counts a call. Answers whether it is to fail.
    fn is_to_fail(&mut self) -> bool
        ensures same { self.new ≡ record self.old { call = self.new.call; lacks_memory = false } }
        ensures counted { IsNextCall (calls_of self.old) (calls_of self.new) }
        ensures value { result ≡ is_failing (schedule_of self.old) (calls_of self.new) }
    {
        self.call = self.call.saturating_add(1);
        self.lacks_memory = false;
        is_call(self.fail_at, self.call) || has_come(self.stop_at, self.call)
    }

    /// Answers a call that was to change the file, by whether it landed.
    fn finish(&mut self, landed: Result<bool, AllocError>) -> R<()>
        ensures same { self.new ≡ record self.old
            { failures = self.new.failures; lacks_memory = not (is_ok landed) } }
        ensures variant { is_ok result ≡ has_landed landed }
        ensures refused { IfErr result (λ fault. fault ≡ Fault.Io) }
        ensures count { CountsFailure result (failed_calls self.old) (failed_calls self.new) }
    {
        self.lacks_memory = landed.is_err();
        self.answer(landed.unwrap_or(false))
    }

    fn answer(&mut self, ok: bool) -> R<()>
        ensures same { self.new ≡ record self.old { failures = self.new.failures } }
        ensures variant { is_ok result ≡ ok }
        ensures refused { IfErr result (λ fault. fault ≡ Fault.Io) }
        ensures ok { OnOk result (self.new.failures ≡ self.old.failures) }
        ensures count { OnErr result ((self.new.failures ≡ self.old.failures + 1)
            ⊎ ((2 ^ 64 - 1 ≤ self.old.failures) × (self.new.failures ≡ self.old.failures))) }
    {
        if ok {
            Ok(())
        } else {
            self.failures = self.failures.saturating_add(1);
            Err(Fault::Io)
        }
    }

    /// What a crash may leave: the first pick chooses the version that gives the length, and each further one that of
    /// a sector of 512 bytes, among those before the next cut. A pick is taken modulo the number of versions that it chooses
    /// from, and one that is missing counts as 0. Fails with `Fault::Memory` alone.
    pub fn crash(&self, alloc: Global, picks: &[u32]) -> R<Vec<u8>>
        ensures exact { IfOk result (λ c. c.items ≡ left_by (versions (memory_file self.now)) picks.now) }
        ensures left { IfOk result (λ c. IsLeft (versions (memory_file self.now)) c.items) }
        ensures refused { IfErr result (λ fault. fault ≡ Fault.Memory) }
    {
        let time = last_time(alloc, &self.start, &self.changes)?;
        Ok(time.left(alloc, picks)?)
    }
}

impl Disk for MemDisk {
    ghost use Rattle.disk.specs.Memory.{memory_file, failed_calls, Follows, FollowsWith};

    ghost tells = { λ _. true };

    ghost file = { memory_file };

    ghost failures = { failed_calls };

    fn len(&mut self) -> R<u64>
        ensures length { IfOk result (λ n. n ≡ length (memory_file self.old).content) }
        ensures same { memory_file self.new ≡ memory_file self.old }
        ensures refused { IfErr result (λ fault. fault ≡ Fault.Io) }
        ensures count { CountsFailure result (failed_calls self.old) (failed_calls self.new) }
        ensures follows { Follows self.old self.new (is_ok result) }
    {
        let ok = !self.is_to_fail();
        self.answer(ok)?;
        Ok(self.content.len() as u64)
    }

    fn read_at(&mut self, at: u64, buf: &mut [u8]) -> R<()>
        requires { at + length buf.old ≤ length (memory_file self.old).content }
        ensures read { OnOk result (buf.new ≡ take (length buf.old) (drop at (memory_file self.old).content)) }
        ensures same { memory_file self.new ≡ memory_file self.old }
        ensures refused { IfErr result (λ fault. fault ≡ Fault.Io) }
        ensures count { CountsFailure result (failed_calls self.old) (failed_calls self.new) }
        ensures follows { Follows self.old self.new (is_ok result) }
    {
        let ok = !self.is_to_fail();
        self.answer(ok)?;
        let at = at as usize;
        buf.copy_from_slice(&self.content[at..at + buf.len()]);
        Ok(())
    }

    fn write_at(&mut self, at: u64, bytes: &[u8]) -> R<()>
        requires { at ≤ length (memory_file self.old).content }
        ensures done { OnOk result (Writes at bytes.now (memory_file self.old) (memory_file self.new)) }
        ensures failed { OnErr result ((memory_file self.new ≡ memory_file self.old)
            ⊎ FailsToWrite at bytes.now (memory_file self.old) (memory_file self.new)) }
        ensures moments { Elapses (memory_file self.old) (memory_file self.new) }
        ensures refused { IfErr result (λ fault. fault ≡ Fault.Io) }
        ensures count { CountsFailure result (failed_calls self.old) (failed_calls self.new) }
        ensures follows { FollowsWith (write_version at bytes.now (memory_file self.old)) self.old
            self.new (is_ok result) }
    {
        let is_gone = self.is_gone();
        let ok = !self.is_to_fail();
        let landed = overwrite(
            self.alloc,
            &mut self.changes,
            &mut self.content,
            at,
            bytes,
            is_gone,
            ok,
        );
        self.finish(landed)
    }

    fn cut(&mut self, len: u64) -> R<()>
        requires { len ≤ length (memory_file self.old).content }
        ensures done { OnOk result (CutsFile len (memory_file self.old) (memory_file self.new)) }
        ensures failed { OnErr result ((memory_file self.new ≡ memory_file self.old)
            ⊎ FailsToCut len (memory_file self.old) (memory_file self.new)) }
        ensures moments { Elapses (memory_file self.old) (memory_file self.new) }
        ensures refused { IfErr result (λ fault. fault ≡ Fault.Io) }
        ensures count { CountsFailure result (failed_calls self.old) (failed_calls self.new) }
        ensures follows { FollowsWith (cut_version len (memory_file self.old)) self.old self.new
            (is_ok result) }
    {
        let is_gone = self.is_gone();
        let ok = !self.is_to_fail();
        let landed = cut_to(&mut self.changes, &mut self.content, len, is_gone, ok);
        self.finish(landed)
    }

    fn sync(&mut self) -> R<()>
        ensures done { OnOk result (Syncs (memory_file self.old) (memory_file self.new)) }
        ensures failed { OnErr result (memory_file self.new ≡ memory_file self.old) }
        ensures moments { Elapses (memory_file self.old) (memory_file self.new) }
        ensures refused { IfErr result (λ fault. fault ≡ Fault.Io) }
        ensures count { CountsFailure result (failed_calls self.old) (failed_calls self.new) }
        ensures follows { Follows self.old self.new (is_ok result) }
    {
        let ok = !self.is_to_fail();
        let landed = note_sync(&mut self.changes, ok);
        self.finish(landed)
    }
}
