//! The CHECKs of a table.

ghost use Rattle.std.specs.Prelude.{◌≡◌};
ghost use Rattle.sqlval.specs.Faults.{IsOrMemory};

use query_terms::Term;
use sqlval::{Many, R};
use std::alloc::Global;
use std::marker::Model;
use std::rc::Rc;

/// The CHECKs of a table in the order of their text, which copies of the table share: contracts see the list.
#[derive(Drop)]
pub struct Checks {
    terms: Rc<Many<Term>>,
}

impl Model for Checks {
    ghost use Rattle.std.specs.Prelude.{List};
    ghost use Rattle.query_terms.specs.Terms.{Term};

    ghost Value = { List Term };

    ghost use Rattle.std.specs.Coded.{codes};
    ghost use Rattle.query_terms.specs.Code.{tree_code};

    ghost coded = { Prim.hlevel (codes, tree_code) };

    ghost view = { λ a. a.terms.value };
}

impl Checks {
    /// These CHECKs. (`Memory` alone.)
    pub fn new(alloc: Global, terms: Many<Term>) -> R<Checks>
        ensures { IsOrMemory (λ checks. checks ≡ terms) result }
    {
        Ok(Checks {
            terms: Rc::new(alloc, terms)?,
        })
    }

    /// The same ones, for another table. (`Memory` alone.)
    pub fn share(&self) -> R<Checks>
        ensures { IsOrMemory (λ checks. checks ≡ self.now) result }
    {
        Ok(Checks {
            terms: self.terms.clone()?,
        })
    }

    /// The CHECKs, one after another.
    pub fn as_slice(&self) -> &[Term]
        ensures { result.now ≡ self.now }
    {
        self.terms.as_slice()
    }
}
