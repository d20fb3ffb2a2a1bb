//! Which triggers are needed, and which of them are still to be looked at.

ghost use Rattle.std.specs.Prelude.{◌≡◌, ◌<◌, ◌∷◌, ◌++◌, [], ℕ, length, Some, None, slice_get, IfErr, IfOk, OnOk};
ghost use Rattle.catalog.specs.Listed.{shared};
ghost use Rattle.trigger_bind.specs.Choosing as meant;
ghost use Rattle.trigger_bind.specs.Needs.{IsNeeded, NotesPlace, NotesThose};

use catalog::Trigger;
use sql_syntax::Change;
use sqlval::{Fault, R};
use std::alloc::Global;
use std::rc::Rc;
use trigger::sets_off;
use trigger_names::{event_in, target_of};

/// Which triggers are needed, by their places in the catalog, and the places of those that are still to be looked at.
#[derive(Drop)]
pub(crate) struct Needs {
    pub(crate) needed: Vec<bool>,
    pub(crate) queue: Vec<usize>,
}

/// Where nothing is needed of so many triggers. (`Memory` alone.)
pub(crate) fn nothing_needed(alloc: Global, count: usize) -> R<Needs>
    ensures nothing { IfOk result (λ needs. (length needs.needed.items ≡ count)
        × ((i : ℕ) → IsNeeded needs.needed.items i → ⊥) × (needs.queue.items ≡ [])) }
    ensures refused { IfErr result (λ fault. fault ≡ Fault.Memory) }
{
    let mut needed = Vec::new(alloc);
    'places: for place in 0..count {
        needed.push(false)?;
    }
    Ok(Needs {
        needed,
        queue: Vec::new(alloc),
    })
}

/// Whether the trigger at a place is needed.
fn is_needed(needed: &[bool], place: usize) -> bool
    requires { place < length needed.now }
    ensures { slice_get needed.now place ≡ Some result }
{
    needed[place]
}

/// Notes that the trigger at a place is needed. (`Memory` alone.)
fn note(needs: &mut Needs, place: usize) -> R<()>
    requires within { place < length needs.old.needed.items }
    ensures noted { OnOk result (NotesPlace place needs.old needs.new) }
    ensures refused { IfErr result (λ fault. fault ≡ Fault.Memory) }
{
    if is_needed(&needs.needed, place) {
        return Ok(());
    }
    needs.queue.push(place)?;
    needs.needed[place] = true;
    Ok(())
}

/// Whether a change sets a trigger off, at whatever time.
fn is_set_off_by(change: &Change, trigger: &Trigger) -> bool
    ensures { result ≡ meant.is_set_off_by change.now trigger.now }
{
    sets_off(trigger, target_of(change), event_in(change))
}

/// Notes each trigger that a change sets off. (`Memory` alone.)
pub(crate) fn note_set_off(triggers: &[Rc<Trigger>], change: &Change, needs: &mut Needs) -> R<()>
    requires many { length needs.old.needed.items ≡ length triggers.now }
    ensures noted { OnOk result (NotesThose (shared triggers.now)
        (meant.is_set_off_by change.now) needs.old needs.new) }
    ensures refused { IfErr result (λ fault. fault ≡ Fault.Memory) }
{
    'triggers: for place in 0..triggers.len() {
        if is_set_off_by(change, &triggers[place]) {
            note(needs, place)?;
        }
    }
    Ok(())
}

/// Takes a place out of those that are still to be looked at.
pub(crate) fn next_needed(needs: &mut Needs) -> Option<usize>
    ensures needed { needs.new.needed ≡ needs.old.needed }
    ensures taken { (place : ℕ) → result ≡ Some place → needs.old.queue.items ≡ needs.new.queue.items ++ place ∷ [] }
    ensures nothing { result ≡ None → (needs.old.queue.items ≡ []) × (needs.new.queue.items ≡ []) }
{
    needs.queue.pop()
}
