//! Marks of a writer: moments to which its changes go back, without memory and without refusal.

ghost use Rattle.std.specs.Prelude.{◌≡◌, ◌<◌, ◌≤◌, ◌+◌, ◌++◌, ◌∷◌, [], length, set, take, vec_capacity, slice_index_or, IfErr, IfOk, IsTrue, OnOk};
ghost use Rattle.std.specs.List.{insert};
ghost use Rattle.sqlval.specs.declared.fault.Fault.TheVariants.{Memory};
ghost use Rattle.pager.specs.Marks.{Changes, IsOverTheSame, IsSaved, kept_count, marks_of, now_of};
ghost use Rattle.pager.specs.Undo.{AllSaved, part_over};
ghost use Rattle.pager.specs.Views.{changes_of};
ghost use Rattle.pager.specs.Writers.{DiffersInPages, IsAt, IsGapFor};

use crate::parts::copy_part;
use crate::saved::{
    Mark, Saved, fill_part, insert_stamped, leave_out, newest_stamp, part_back, put_back, take_out,
};
use crate::writer::Writer;
use sqlval::{Fault, R};
use std::alloc::Global;
use wal::PageImage;

impl Writer {
    /// How many marks there are.
    pub fn marks(&self) -> usize
        ensures { result ≡ length (marks_of self.now) }
    {
        self.marks.len()
    }

    /// Sets a mark, and answers its place. (`Memory`.)
    pub fn mark(&mut self) -> R<usize>
        ensures marked { IfOk result (λ place. (place ≡ length (marks_of self.old))
            × (marks_of self.new ≡ marks_of self.old ++ now_of self.old ∷ [])) }
        ensures same { now_of self.new ≡ now_of self.old }
        ensures stands { IsOverTheSame self.old self.new }
        ensures refused { IfErr result (λ fault. (fault ≡ Memory)
            × (marks_of self.new ≡ marks_of self.old)) }
    {
        let Some(stamp) = self.stamp.checked_add(1) else {
            return Err(Fault::Memory);
        };
        self.saved.reserve(self.pages.len())?;
        let place = self.marks.len();
        self.marks.push(Mark {
            saved: self.saved.len(),
            stamp,
            size: self.size,
            has_new_objects: self.has_new_objects,
        })?;
        self.stamp = stamp;
        Ok(place)
    }

    /// Goes back to a mark, which stays: the marks set after it are gone.
    pub fn back_to(&mut self, mark: usize)
        requires { mark < length (marks_of self.old) }
        ensures back { (d : Changes) → now_of self.new ≡ slice_index_or (marks_of self.old) mark d }
        ensures marks { marks_of self.new ≡ take (mark + 1) (marks_of self.old) }
        ensures stands { IsOverTheSame self.old self.new }
    {
        let Mark {
            saved,
            stamp: _,
            size,
            has_new_objects,
        } = self.marks[mark];
        self.marks.truncate(mark + 1);
        'changes: while self.saved.len() > saved {
            self.undo();
        }
        self.size = size;
        self.has_new_objects = has_new_objects;
    }

    /// Lets go of a mark and of those set after it; the changes stay.
    pub fn release(&mut self, mark: usize)
        requires { mark < length (marks_of self.old) }
        ensures same { now_of self.new ≡ now_of self.old }
        ensures marks { marks_of self.new ≡ take mark (marks_of self.old) }
        // With the last mark all that was kept for a way back goes.
        ensures none { mark ≡ 0 → kept_count self.new ≡ 0 }
        ensures stands { IsOverTheSame self.old self.new }
    {
        if mark == 0 {
            self.marks.clear();
            self.saved.clear();
            return;
        }
        let from = self.marks[mark].saved;
        self.marks.truncate(mark);
        leave_out(&mut self.saved, from, newest_stamp(&self.marks));
    }

    /// Takes back the newest change that was saved.
    fn undo(&mut self)
        requires some { 0 < length self.old.saved.items }
        requires below { AllSaved (length self.old.saved.items) self.old.marks.items }
        ensures marks { marks_of self.new ≡ marks_of self.old }
        ensures same { self.new.marks ≡ self.old.marks }
        ensures len { length self.new.saved.items + 1 ≡ length self.old.saved.items }
        ensures stands { IsOverTheSame self.old self.new }
    {
        match self.saved.pop() {
            Some(Saved::Changed(page, stamp)) => {
                put_back(&mut self.pages, &mut self.stamps, page, stamp);
            }
            Some(Saved::Added(number)) => take_out(&mut self.pages, &mut self.stamps, number),
            Some(Saved::Part(number, offset, bytes)) => {
                part_back(&mut self.pages, number, offset, bytes.as_slice());
            }
            None => (),
        }
    }

    /// Whether the image that a changed page had at the newest mark is saved, or there is no mark.
    pub(crate) fn is_saved(&self, index: usize) -> bool
        requires { index < length (changes_of self.now) }
        ensures found { IsTrue result → IsSaved self.now index }
        ensures only { IsSaved self.now index → IsTrue result }
    {
        *self.stamps.at(index) >= newest_stamp(&self.marks)
    }

    /// Gives a changed page another image. The one that it had at the newest mark is saved.
    pub(crate) fn replace(&mut self, index: usize, page: PageImage)
        requires { IsAt (changes_of self.old) page.number index }
        ensures pages { changes_of self.new ≡ set (changes_of self.old) index page }
        ensures rest { DiffersInPages self.old self.new }
    {
        let stamp = *self.stamps.at(index);
        let old = self.pages.replace(index, page);
        if stamp < newest_stamp(&self.marks) {
            let _ = self.stamps.replace(index, self.stamp);
            let _ = self.saved.push(Saved::Changed(old, stamp));
        }
    }

    /// Writes bytes over a part of a changed page. What stood there is saved. A refused part changes nothing.
    pub(crate) fn replace_part(
        &mut self,
        alloc: Global,
        index: usize,
        offset: usize,
        bytes: &[u8],
    ) -> R<()>
        requires within { index < length (changes_of self.old) }
        requires fits { (d : PageImage) → offset + length bytes.now
            ≤ length (slice_index_or (changes_of self.old) index d).bytes.items }
        ensures pages { (d : PageImage) → OnOk result (changes_of self.new
            ≡ set (changes_of self.old) index (part_over offset bytes.now (slice_index_or (changes_of self.old) index d))) }
        ensures rest { DiffersInPages self.old self.new }
        ensures refused { IfErr result (λ fault. (fault ≡ Memory)
            × (changes_of self.new ≡ changes_of self.old)) }
    {
        let number = self.pages.at(index).number;
        let old = copy_part(
            alloc,
            self.pages.at(index).bytes.as_slice(),
            offset,
            bytes.len(),
        )?;
        self.saved.reserve(self.pages.len() + 1)?;
        fill_part(&mut self.pages, index, offset, bytes);
        let _ = self.saved.push(Saved::Part(number, offset, old));
        Ok(())
    }

    /// Puts a page in its gap. A refused one changes nothing.
    pub(crate) fn insert_page(&mut self, alloc: Global, index: usize, page: PageImage) -> R<()>
        requires { IsGapFor (changes_of self.old) page.number index }
        ensures pages { OnOk result (changes_of self.new ≡ insert (changes_of self.old) index page) }
        ensures rest { DiffersInPages self.old self.new }
        ensures refused { IfErr result (λ fault. (fault ≡ Memory)
            × (changes_of self.new ≡ changes_of self.old)) }
    {
        if self.marks.is_empty() {
            return insert_stamped(
                alloc,
                &mut self.pages,
                &mut self.stamps,
                index,
                page,
                self.stamp,
            );
        }
        self.saved.reserve(self.pages.len() + 1)?;
        let number = page.number;
        insert_stamped(
            alloc,
            &mut self.pages,
            &mut self.stamps,
            index,
            page,
            self.stamp,
        )?;
        let _ = self.saved.push(Saved::Added(number));
        Ok(())
    }
}
