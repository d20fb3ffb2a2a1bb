//! Terms made of their parts.

ghost use Rattle.std.specs.Prelude.{◌≡◌};
ghost use Rattle.sqlval.specs.declared.value.Value.TheVariants.{Null};
ghost use Rattle.query_terms.specs.Terms as term;
ghost use Rattle.query_names.specs.Checked.{good};
ghost use Rattle.query_names.specs.Named.{Names};

use query_terms::{Aggregate, Node, Term};
use sqlval::{R, Value};
use std::alloc::Global;

/// A value that is written.
pub fn constant(value: Value) -> Term
    ensures { result ≡ term.Const value }
{
    Term {
        node: Node::Const(value),
    }
}

/// NULL.
pub fn null() -> Term
    ensures { result ≡ term.Const Null }
{
    constant(Value::Null)
}

/// A number without a minus.
pub fn digits(number: u64) -> Term
    ensures { result ≡ term.Digits number }
{
    Term {
        node: Node::Digits(number),
    }
}

/// An aggregate of its argument.
pub fn total(alloc: Global, aggregate: Aggregate, argument: Term) -> R<Term>
    ensures { Names (good (term.Total aggregate argument)) result }
{
    let argument = Box::new(alloc, argument)?;
    Ok(Term {
        node: Node::Total(aggregate, argument),
    })
}
