//! Which frames of a log have a page.

ghost use Rattle.std.specs.Prelude.{◌≡◌, ◌≤◌, ◌<◌, ℕ, [], length, IsTrue, IsFalse, IfSome, IsNone, OnOk};
ghost use Rattle.wal_index.specs.Rows.{AreRising, AreUpTo, IsRising};

use sqlval::limits::MAX_PAGES;
use std::alloc::{AllocError, Global};

/// For each page, from the first on, its frames by rising number. Frames are numbered from 1.
#[derive(Drop)]
pub struct Index {
    lists: Vec<Vec<u32>>,
    ghost rising: { AreRising lists.items },
}

/// Whether none of these rising frames is greater than this one.
fn are_up_to(frames: &[u32], frame: u32) -> bool
    requires { IsRising frames.now }
    ensures yes { IsTrue result → AreUpTo frame frames.now }
    ensures no { IsFalse result → AreUpTo frame frames.now → ⊥ }
{
    match frames.last() {
        Some(last) => *last <= frame,
        None => true,
    }
}

impl Index {
    ghost use Rattle.wal_index.specs.Index.{frames_of, SameFrames, AddsFrame, FindsFrame, FindsNone, IsPageNumber, HasFrame, room_for, KeepsRoom, KeepsRoomBut};

    /// The index of a log without frames.
    pub fn new(alloc: Global) -> Index
        ensures { (p : ℕ) → frames_of result p ≡ [] }
    {
        Index {
            lists: Vec::new(alloc),
        }
    }

    /// Reserves room for one more frame of a page from 1 to 65,536.
    pub fn reserve(&mut self, alloc: Global, page: u32) -> Result<(), AllocError>
        ensures same { SameFrames self.old self.new }
        ensures kept { KeepsRoom self.old self.new }
        ensures room { OnOk result (IsPageNumber page → 0 < room_for self.new page) }
        ensures few { length self.old.lists.items ≤ 65536 → length self.new.lists.items ≤ 65536 }
    {
        if page == 0 || page > MAX_PAGES {
            return Ok(());
        }
        let at = page as usize - 1;
        'lists: while self.lists.len() <= at {
            self.lists.push(Vec::new(alloc))?;
        }
        self.lists[at].reserve(1)
    }

    /// Adds a frame of a page, where there is room for it and the page has no greater frame; else nothing is added.
    pub fn add(&mut self, page: u32, frame: u32)
        ensures frames { AddsFrame page frame self.old self.new }
        ensures added { 1 ≤ page → 0 < room_for self.old page
            → AreUpTo frame (frames_of self.old page) → HasFrame self.new page frame }
        ensures kept { KeepsRoomBut page self.old self.new }
    {
        if page == 0 || page as usize > self.lists.len() {
            return;
        }
        let at = page as usize - 1;
        if are_up_to(&self.lists[at], frame) {
            let _ = self.lists[at].push(frame);
        }
    }

    /// Takes all frames out, and keeps the room.
    pub fn clear(&mut self)
        ensures none { (p : ℕ) → frames_of self.new p ≡ [] }
        ensures kept { KeepsRoom self.old self.new }
    {
        'lists: for i in 0..self.lists.len() {
            self.lists[i].clear();
        }
    }

    /// The greatest frame of the page that is at most `mark`.
    pub fn find(&self, page: u32, mark: u32) -> Option<u32>
        ensures found { IfSome result (λ frame. FindsFrame page mark self.now frame) }
        ensures none { IsNone result → FindsNone page mark self.now }
    {
        if page == 0 {
            return None;
        }
        let frames = self.lists.get(page as usize - 1)?;
        let count = frames.partition_point(|frame| *frame <= mark);
        if count == 0 {
            None
        } else {
            Some(frames[count - 1])
        }
    }
}
