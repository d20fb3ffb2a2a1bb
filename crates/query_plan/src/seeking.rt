//! The rowid that a condition seeks.

ghost use Rattle.std.specs.Prelude.{◌≡◌, false, true, IfNone, IfSome};
ghost use Rattle.std.specs.List.{list_any};
ghost use Rattle.query_names.specs.Calm as calm;
ghost use Rattle.query_plan.specs.Seeking.{Seeks, SeeksRowid, asked, digits, is_rowid, is_rowid_cell, no_index};

use query_terms::{Comparison, Node, Place, Term, TwoSided};

/// The number where an expression is one as it is written.
fn digits_of(term: &Term) -> Option<u64>
    ensures { result ≡ digits term.now }
{
    match &term.node {
        Node::Digits(number) => Some(*number),
        _ => None,
    }
}

/// Whether an expression is the rowid of a source.
fn is_rowid_of(term: &Term, source: usize) -> bool
    ensures { result ≡ is_rowid_cell source term.now }
{
    match &term.node {
        Node::Cell(number, Place::RowId, _, _) => *number == source,
        _ => false,
    }
}

/// The rowid that two sides ask for which are compared as equal.
fn asked_of(left: &Term, right: &Term, source: usize) -> Option<u64>
    ensures { result ≡ asked source left.now right.now }
{
    if !is_rowid_of(left, source) {
        return None;
    }
    digits_of(right)
}

/// The rowid that is asked for by one of the parts that AND joins.
#[cycle(asked)]
fn asked_in(condition: &Term, source: usize) -> Option<u64>
    ensures found { IfSome result (λ rowid. list_any (is_rowid source rowid)
        (calm.parts condition.now) ≡ true) }
    ensures none { IfNone result (list_any (calm.finds source no_index) (calm.parts condition.now) ≡ false) }
{
    match &condition.node {
        Node::Two(TwoSided::And, left, right) => asked_in(left, source).or(asked_in(right, source)),
        Node::Two(TwoSided::Compare(Comparison::Equal), left, right) => asked_of(
            left, right, source,
        ),
        _ => None,
    }
}

/// The rowid that a condition which can't be refused seeks in a source, or None where it seeks none.
pub(crate) fn rowid_in(condition: &Term, source: usize) -> Option<i64>
    requires { calm.is_calm condition.now ≡ true }
    ensures found { IfSome result (λ rowid. SeeksRowid source condition.now rowid) }
    ensures none { IfNone result (list_any (calm.finds source no_index) (calm.parts condition.now) ≡ false) }
{
    match asked_in(condition, source) {
        Some(number) => i64::try_from(number).ok(),
        None => None,
    }
}
