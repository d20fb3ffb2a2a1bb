//! What a crash may leave of a file in memory.

ghost use Rattle.std.specs.Prelude.{◌≡◌, ◌++◌, ◌+◌, drop, take, ◌^◌, ◌≤◌, ◌<◌, ℕ, List, length, IfOk, OnOk, slice_index};
ghost use Rattle.disk.specs.File.{File, Version, IsLeft, version_at, versions};
ghost use Rattle.disk.specs.Calls.{overwritten};
ghost use Rattle.disk.specs.StoredVersion.{versions_of, Stands};
ghost use Rattle.disk.specs.Picked.{picked, choices, left_by, IsPicked};
ghost use Rattle.disk.specs.Replay.{file_of, step};

use crate::change::Change;
use crate::changed::{put, shorten};
use crate::versions::{StoredVersion, VersionsSinceSync};
use std::alloc::{AllocError, Global};

/// The contents since the last sync.
pub fn last_time(
    alloc: Global,
    start: &[u8],
    changes: &[Change],
) -> Result<VersionsSinceSync, AllocError>
    ensures { IfOk result (λ t. versions_of t ≡ versions (file_of start.now changes.now)) }
{
    let mut content = start.to_vec(alloc)?;
    let mut time = VersionsSinceSync {
        first: start.to_vec(alloc)?,
        later: Vec::new(alloc),
    };
    for change in changes {
        apply(alloc, &mut content, &mut time, change)?;
    }
    Ok(time)
}

/// A copy of the content, with one more change.
fn after_write(alloc: Global, content: &[u8], at: u64, bytes: &[u8]) -> Result<Vec<u8>, AllocError>
    ensures { IfOk result (λ v. v.items ≡ overwritten at bytes.now content.now) }
{
    let mut next = content.to_vec(alloc)?;
    put(&mut next, at, bytes)?;
    Ok(next)
}

fn after_cut(alloc: Global, content: &[u8], len: u64) -> Result<Vec<u8>, AllocError>
    ensures { IfOk result (λ v. v.items ≡ take len content.now) }
{
    let mut next = content.to_vec(alloc)?;
    shorten(&mut next, len);
    Ok(next)
}

fn apply(
    alloc: Global,
    content: &mut Vec<u8>,
    time: &mut VersionsSinceSync,
    change: &Change,
) -> Result<(), AllocError>
    ensures { OnOk result ((f : File) → Stands content.old.items time.old f
        → Stands content.new.items time.new (step f change.now)) }
{
    match change {
        Change::Write { at, bytes, landed } => {
            let next = after_write(alloc, content, *at, bytes)?;
            time.later.push(StoredVersion {
                is_cut: false,
                bytes: next.to_vec(alloc)?,
            })?;
            if *landed {
                *content = next;
            }
        }
        Change::Cut { len, landed } => {
            let next = after_cut(alloc, content, *len)?;
            time.later.push(StoredVersion {
                is_cut: true,
                bytes: next.to_vec(alloc)?,
            })?;
            if *landed {
                *content = next;
            }
        }
        Change::Sync => {
            *time = VersionsSinceSync {
                first: content.to_vec(alloc)?,
                later: Vec::new(alloc),
            };
        }
    }
    Ok(())
}

impl VersionsSinceSync {
    fn bytes_at(&self, at: usize) -> &[u8]
        requires { at ≤ length self.now.later.items }
        ensures { result.now ≡ (version_at (versions_of self.now) at).bytes }
    {
        if at == 0 {
            &self.first
        } else {
            &self.later[at - 1].bytes
        }
    }

    fn is_cut_at(&self, at: usize) -> bool
        requires { at ≤ length self.now.later.items }
        ensures { result ≡ (version_at (versions_of self.now) at).is_cut }
    {
        if at == 0 {
            false
        } else {
            self.later[at - 1].is_cut
        }
    }

    /// How many versions a sector may come from, where this one gives the length.
    fn count_choices(&self, from: usize) -> usize
        requires { from ≤ length self.now.later.items }
        ensures exact { result ≡ choices (versions_of self.now) from }
        ensures within { result ≤ length self.now.later.items + 1 }
    {
        let count = self.later.len();
        'behind: for at in from + 1..count + 1 {
            if self.is_cut_at(at) {
                return at;
            }
        }
        count + 1
    }

    /// What a crash may leave, by these picks.
    pub fn left(&self, alloc: Global, picks: &[u32]) -> Result<Vec<u8>, AllocError>
        ensures exact { IfOk result (λ c. c.items ≡ left_by (versions_of self.now) picks.now) }
        ensures left { IfOk result (λ c. IsLeft (versions_of self.now) c.items) }
    {
        let from = pick(picks, 0, self.later.len() + 1);
        let choices = self.count_choices(from);
        let mut left = Vec::new(alloc);
        'bytes: for at in 0..self.bytes_at(from).len() {
            let source = pick(picks, 1 + at / 512, choices);
            left.push(byte_at(self.bytes_at(source), at))?;
        }
        Ok(left)
    }
}

/// The byte at a place, which counts as zero past the end.
fn byte_at(bytes: &[u8], at: usize) -> u8
    ensures { result ≡ slice_index bytes.now at }
{
    if at < bytes.len() { bytes[at] } else { 0 }
}

fn pick(picks: &[u32], at: usize, count: usize) -> usize
    requires { 0 < count }
    ensures { result ≡ picked picks.now at count }
{
    match picks.get(at) {
        Some(pick) => *pick as usize % count,
        None => 0,
    }
}

/// The picks of `MemDisk::crash` reach each file that a crash may leave, and no other.
pub fn every_left_file_is_picked()
    ensures reached { (versions : List Version) (c : List ℕ) → length versions < 2 ^ 32
        → IsLeft versions c → IsPicked versions c }
    ensures no_other { (versions : List Version) (picks : List ℕ) → 0 < length versions
        → IsLeft versions (left_by versions picks) }
{}
