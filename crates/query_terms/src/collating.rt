//! The affinity and the collation of an expression.

ghost use Rattle.std.specs.Prelude.{◌≡◌};
ghost use Rattle.query_terms.specs.Rows.{alone, manner_of};
ghost use Rattle.query_terms.specs.Terms as meant;
ghost use Rattle.query_terms.specs.Terms.{terms};

use crate::comparing::Manner;
use crate::tree::{Node, Term};
use sqlval::{Affinity, Collation};

/// Of a column; a literal or a computed value has none.
pub fn affinity(term: &Term) -> Option<Affinity>
    ensures { result ≡ meant.affinity term.now }
{
    match &term.node {
        Node::Cell(_, _, affinity, _) => *affinity,
        Node::Key(_, inner) | Node::Collate(_, inner) => affinity(inner),
        _ => None,
    }
}

/// The collation of the column that it is, where it is one.
fn column_collation(term: &Term) -> Option<Collation>
    ensures { result ≡ meant.column_collation term.now }
{
    match &term.node {
        Node::Cell(_, _, _, collation) => Some(*collation),
        Node::Key(_, inner) | Node::Collate(_, inner) => column_collation(inner),
        _ => None,
    }
}

/// The leftmost collation that is written in it.
#[cycle(written)]
fn written(term: &Term) -> Option<Collation>
    ensures { result ≡ meant.written term.now }
{
    match &term.node {
        Node::Key(_, inner) | Node::Total(_, inner) | Node::One(_, inner) => written(inner),
        Node::Apply(_, list) => written_in(list),
        Node::Two(_, left, right) => written(left).or(written(right)),
        Node::Collate(collation, inner) => written(inner).or(Some(*collation)),
        Node::In(_, operand, list) => written(operand).or(written_in(list)),
        Node::Between(_, operand, low, high) => written(operand).or(written(low).or(written(high))),
        _ => None,
    }
}

/// The leftmost collation that is written in a list.
#[cycle(written)]
#[tactic(auto, using(crate::proofs::Items::item_falls))]
fn written_in(list: &[Term]) -> Option<Collation>
    ensures { result ≡ meant.written_in (terms list.now) }
{
    'terms: for term in list {
        let collation = written(term);
        if collation.is_some() {
            return collation;
        }
    }
    None
}

/// Under which collation an expression is sorted, grouped and told apart.
pub fn collation(term: &Term) -> Collation
    ensures { result ≡ meant.collation term.now }
{
    written(term)
        .or(column_collation(term))
        .unwrap_or(Collation::Binary)
}

/// Under which collation two expressions are compared.
fn collation_of_two(left: &Term, right: &Term) -> Collation
    ensures { result ≡ meant.collation_of_two left.now right.now }
{
    let columns = column_collation(left).or(column_collation(right));
    written(left)
        .or(written(right))
        .or(columns)
        .unwrap_or(Collation::Binary)
}

/// How two expressions are compared.
pub fn manner_of_two(left: &Term, right: &Term) -> Manner
    ensures { result ≡ manner_of left.now right.now }
{
    Manner {
        collation: collation_of_two(left, right),
        left: affinity(left),
        right: affinity(right),
    }
}

/// How an expression is compared with what has neither affinity nor collation.
pub fn manner_alone(term: &Term) -> Manner
    ensures { result ≡ alone term.now }
{
    Manner {
        collation: collation(term),
        left: affinity(term),
        right: None,
    }
}
