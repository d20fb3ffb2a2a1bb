//! Functions and collations by name, and calls.

ghost use Rattle.std.specs.Prelude.{◌≡◌, ◌⊎◌, ◌&&◌, not, Some, false, true, length, IfErr};
ghost use Rattle.sqlval.specs.Faults.{IsNotDiskFault};
ghost use Rattle.query_terms.specs.Terms.{terms};
ghost use Rattle.query_names.specs.Checked.{known_map};
ghost use Rattle.query_names.specs.Expressions as meant;
ghost use Rattle.query_names.specs.Named.{Names};

use crate::forms::{null, total};
use crate::names::missing;
use query_terms::{Aggregate, Function, Node, Term};
use sqlval::{Collation, Fault, Misuse, Name, Object, R};
use std::alloc::Global;

/// What a call may be.
#[derive(Clone, Copy, PartialEq, Eq)]
pub enum Called {
    /// So many arguments, or, where it is true, more.
    OfFunction(Function, usize, bool),
    OfAggregate(Aggregate),
}

/// One of the three collations.
pub fn collation_named(alloc: Global, name: &Name) -> R<Collation>
    ensures names { Names (meant.resolve_collation name.now) result }
    ensures not_disk { IfErr result (λ fault. IsNotDiskFault fault) }
{
    if name.is_same("binary") {
        Ok(Collation::Binary)
    } else if name.is_same("nocase") {
        Ok(Collation::NoCase)
    } else if name.is_same("rtrim") {
        Ok(Collation::RTrim)
    } else {
        Err(missing(alloc, Object::Collation, name))
    }
}

/// A supported function.
pub fn function_named(name: &Name) -> Option<Called>
    ensures { result ≡ meant.function_named name.now }
{
    if name.is_same("abs") {
        Some(Called::OfFunction(Function::Abs, 1, false))
    } else if name.is_same("coalesce") {
        Some(Called::OfFunction(Function::Coalesce, 2, true))
    } else if name.is_same("length") {
        Some(Called::OfFunction(Function::Length, 1, false))
    } else if name.is_same("lower") {
        Some(Called::OfFunction(Function::Lower, 1, false))
    } else if name.is_same("upper") {
        Some(Called::OfFunction(Function::Upper, 1, false))
    } else if name.is_same("typeof") {
        Some(Called::OfFunction(Function::TypeOf, 1, false))
    } else if name.is_same("count") {
        Some(Called::OfAggregate(Aggregate::Count))
    } else if name.is_same("sum") {
        Some(Called::OfAggregate(Aggregate::Sum))
    } else if name.is_same("min") {
        Some(Called::OfAggregate(Aggregate::Min))
    } else if name.is_same("max") {
        Some(Called::OfAggregate(Aggregate::Max))
    } else {
        None
    }
}

/// Whether an aggregate may stand among a call's arguments.
pub fn may_hold_totals(totals: bool, called: Option<Called>) -> bool
    ensures { result ≡ (totals && not (meant.is_aggregate called)) }
{
    totals && !matches!(called, Some(Called::OfAggregate(_)))
}

/// A call of these arguments; `totals` says whether an aggregate may stand there.
pub fn call_of(
    alloc: Global,
    totals: bool,
    called: Option<Called>,
    name: &Name,
    arguments: Vec<Term>,
) -> R<Term>
    ensures { Names
        (known_map (λ call. call (terms arguments.items))
        (meant.called totals called (length arguments.items))) result }
{
    match called {
        Some(called) => known_call(alloc, totals, called, arguments),
        None => Err(missing(alloc, Object::Function, name)),
    }
}

/// A call of a function that there is.
fn known_call(alloc: Global, totals: bool, called: Called, arguments: Vec<Term>) -> R<Term>
    ensures { Names
        (known_map (λ call. call (terms arguments.items))
        (meant.called totals (Some called) (length arguments.items))) result }
{
    match called {
        Called::OfFunction(function, count, or_more) => {
            function_of(function, count, or_more, arguments)
        }
        Called::OfAggregate(aggregate) => aggregate_of(alloc, totals, aggregate, arguments),
    }
}

/// A function of one row, where the count of its arguments fits.
fn function_of(function: Function, count: usize, or_more: bool, arguments: Vec<Term>) -> R<Term>
    ensures { Names (known_map (λ call. call (terms arguments.items))
        (meant.called true (Some (Called.OfFunction function count or_more)) (length arguments.items))) result }
{
    if arguments.len() == count || or_more && count < arguments.len() {
        return Ok(Term {
            node: Node::Apply(function, arguments),
        });
    }
    Err(Fault::Misuse(Misuse::Count))
}

/// An aggregate, where one may stand and has one argument.
fn aggregate_of(
    alloc: Global,
    totals: bool,
    aggregate: Aggregate,
    mut arguments: Vec<Term>,
) -> R<Term>
    ensures names { Names (known_map (λ call. call (terms arguments.items))
        (meant.called totals (Some (Called.OfAggregate aggregate)) (length arguments.items))) result }
    ensures why { IfErr result (λ fault. (fault ≡ Fault.Memory)
        ⊎ ((fault ≡ Fault.Misuse Misuse.Aggregate) × (totals ≡ false)
        ⊎ (fault ≡ Fault.Misuse Misuse.Count) × (totals ≡ true))) }
{
    if !totals {
        return Err(Fault::Misuse(Misuse::Aggregate));
    }
    if arguments.len() != 1 {
        return Err(Fault::Misuse(Misuse::Count));
    }
    match arguments.pop() {
        Some(argument) => total(alloc, aggregate, argument),
        None => Err(Fault::Misuse(Misuse::Count)),
    }
}

/// A function of `*`.
pub fn call_of_all(alloc: Global, totals: bool, name: &Name) -> R<Term>
    ensures { Names (meant.called_star totals (meant.function_named name.now)) result }
{
    match function_named(name) {
        Some(Called::OfAggregate(Aggregate::Count)) if totals => total(
            alloc,
            Aggregate::CountAll,
            null(),
        ),
        Some(Called::OfAggregate(Aggregate::Count)) => Err(Fault::Misuse(Misuse::Aggregate)),
        _ => Err(Fault::Misuse(Misuse::Star)),
    }
}
