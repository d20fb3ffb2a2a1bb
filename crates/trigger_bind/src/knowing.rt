//! Whether the names of a change are known, and those of all programs that it can set off.

ghost use Rattle.std.specs.Prelude.{◌≡◌, ◌⊎◌, [], ℕ, ℤ, List, IfErr, IfOk, MatchResult};
ghost use Rattle.sqlval.specs.Faults.{IsNotDiskFault};
ghost use Rattle.sqlval.specs.Refusals.{Refusal, refusal_of};
ghost use Rattle.sqlval.specs.declared.value.Value.{Value as Stored};
ghost use Rattle.catalog.specs.Database.{Database};
ghost use Rattle.catalog.specs.Listed.{listed_in};
ghost use Rattle.catalog.specs.Named.{IsOfListed};
ghost use Rattle.trigger.specs.Binding.{IsFault};
ghost use Rattle.trigger_bind.specs.Knowing.{IsLookedUpAs};

use crate::needs::{next_needed, note_set_off, nothing_needed};
use crate::programs::know_place;
use catalog::Catalog;
use sql_syntax::Change;
use sqlval::{Fault, R};
use std::alloc::Global;
use trigger_names::{BoundChange, bind_change};

/// Looks up the names of a change of rows, and those of each program that it can set off, through any chain of triggers; or answers one of
/// the refusals that these have. (`NoSuch`, `Ambiguous`, `Misuse`, `TooLong`.)
pub fn know_change(alloc: Global, catalog: &Catalog, change: &Change) -> R<BoundChange>
    ensures known { (rows_at : ℕ → List (ℤ × List Stored)) (db : Database) → IsOfListed rows_at (listed_in catalog.now) db
        → MatchResult result (λ bound. (r : Refusal) → IsFault db change.now r → ⊥)
        (λ fault. (fault ≡ Fault.Memory) ⊎ IsFault db change.now (refusal_of fault)) }
    ensures named { IfOk result (IsLookedUpAs (listed_in catalog.now) [] change.now) }
    ensures not_disk { IfErr result IsNotDiskFault }
{
    let bound = bind_change(alloc, catalog, &[], change)?;
    let triggers = catalog.triggers();
    let mut needs = nothing_needed(alloc, triggers.len())?;
    note_set_off(triggers, change, &mut needs)?;
    'queue: while let Some(place) = next_needed(&mut needs) {
        know_place(alloc, catalog, place, &mut needs)?;
    }
    Ok(bound)
}
