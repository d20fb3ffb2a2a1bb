//! RAISE.

ghost use Rattle.std.specs.Prelude.{◌≡◌, ◌⊎◌, if◌then◌else◌, ℕ, List};
ghost use Rattle.sqlval.specs.Refusals.{Raised, RaisedRollback, refusal_of};
ghost use Rattle.sqlval.specs.declared.fault.Fault.TheVariants.{Memory};
ghost use Rattle.query_terms.specs.Values as meant;

use sql_syntax::RaiseAction;
use sqlval::{Fault, RaisedText, Text};
use std::alloc::Global;

/// Whether the transaction ends.
fn ends(action: RaiseAction) -> bool
    ensures { (text : List ℕ) → (if result then RaisedRollback text else Raised text) ≡ meant.raised action text }
{
    match action {
        RaiseAction::Abort => false,
        RaiseAction::Rollback => true,
    }
}

/// The refusal, with a copy of the text.
pub fn raised(alloc: Global, action: RaiseAction, text: &Text) -> Fault
    ensures { (result ≡ Memory) ⊎ (refusal_of result ≡ meant.raised action text.now) }
{
    match text.copy(alloc) {
        Ok(text) => Fault::Raised(RaisedText {
            ends: ends(action),
            text,
        }),
        Err(_) => Fault::Memory,
    }
}
