//! Statements that a session keeps prepared, each in a slot: one that is finished leaves its slot to the next.

ghost use Rattle.std.specs.Prelude.{◌≡◌, ◌≤◌, ℕ, IfErr, IfOk, None, Some, is_some, length, option_map};
ghost use Rattle.kinolavust_c.specs.Slots.{Puts, kept_in};

use engine::Prepared;
use std::alloc::{AllocError, Global};
use std::mem;

/// Slots of statements, some of them free.
#[derive(Drop)]
pub struct Slots {
    slots: Vec<Option<Box<Prepared>>>,
}

impl Slots {
    /// No slots yet.
    pub fn new(alloc: Global) -> Slots
        ensures { (slot : ℕ) → kept_in result slot ≡ None }
    {
        Slots {
            slots: Vec::new(alloc),
        }
    }

    /// The first free slot, or the one after the last.
    fn first_free(&self) -> usize
        ensures within { result ≤ length self.now.slots.items }
        ensures free { kept_in self.now result ≡ None }
    {
        let mut slot = 0;
        'slots: for kept in &self.slots {
            if kept.is_none() {
                return slot;
            }
            slot += 1;
        }
        slot
    }

    /// Keeps a statement. Answers its slot.
    pub fn keep(&mut self, statement: Box<Prepared>) -> Result<usize, AllocError>
        ensures kept { IfOk result (λ slot. (kept_in self.old slot ≡ None) × Puts self.old slot (Some statement.value) self.new) }
        ensures same { IfErr result (λ _. (slot : ℕ) → kept_in self.new slot ≡ kept_in self.old slot) }
    {
        let slot = self.first_free();
        if slot < self.slots.len() {
            drop(mem::replace(&mut self.slots[slot], Some(statement)));
        } else {
            self.slots.push(Some(statement))?;
        }
        Ok(slot)
    }

    /// The statement of a slot that is in use.
    pub fn get(&self, slot: usize) -> Option<&Prepared>
        ensures { option_map (λ statement. statement.now) result ≡ kept_in self.now slot }
    {
        match self.slots.get(slot)? {
            Some(statement) => Some(statement),
            None => None,
        }
    }

    /// Lets go of the statement of a slot. Answers whether there was one.
    pub fn finish(&mut self, slot: usize) -> bool
        ensures was { result ≡ is_some (kept_in self.old slot) }
        ensures free { Puts self.old slot None self.new }
    {
        if self.slots.len() <= slot {
            return false;
        }
        let kept = mem::replace(&mut self.slots[slot], None);
        let was_kept = kept.is_some();
        drop(kept);
        was_kept
    }
}
