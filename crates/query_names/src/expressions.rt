//! Expressions whose names are looked up.

ghost use Rattle.std.specs.Prelude.{◌≡◌, length, IfOk};
ghost use Rattle.sql_syntax.specs.Tree as tree;
ghost use Rattle.sql_syntax.specs.Tree.{trees};
ghost use Rattle.query_terms.specs.Terms as term;
ghost use Rattle.query_terms.specs.Terms.{terms};
ghost use Rattle.query_names.specs.Checked.{known_map};
ghost use Rattle.query_names.specs.Expressions as meant;
ghost use Rattle.query_names.specs.Expressions.{count_of, resolve, resolve_all};
ghost use Rattle.query_names.specs.Named.{Names, NamesBy};

use crate::columns::bind_name;
use crate::forms::{constant, digits};
use crate::functions::{call_of, call_of_all, collation_named, function_named, may_hold_totals};
use crate::outer::bind_raise;
use crate::scope::ScopeSource;
use query_terms::{Arithmetic, Comparison, Node, OneSided, Term, TwoSided};
use sql_syntax::{Expr, Node as Tree, Operator};
use sqlval::{Name, R, Value};
use std::alloc::Global;

/// What an operator of the grammar is.
fn operator_of(operator: Operator) -> TwoSided
    ensures { result ≡ meant.two_sided operator }
{
    match operator {
        Operator::Or => TwoSided::Or,
        Operator::And => TwoSided::And,
        Operator::Equal => TwoSided::Compare(Comparison::Equal),
        Operator::NotEqual => TwoSided::Compare(Comparison::NotEqual),
        Operator::Is => TwoSided::Is,
        Operator::IsNot => TwoSided::IsNot,
        Operator::Less => TwoSided::Compare(Comparison::Less),
        Operator::LessOrEqual => TwoSided::Compare(Comparison::LessOrEqual),
        Operator::Greater => TwoSided::Compare(Comparison::Greater),
        Operator::GreaterOrEqual => TwoSided::Compare(Comparison::GreaterOrEqual),
        Operator::Add => TwoSided::Calculate(Arithmetic::Add),
        Operator::Subtract => TwoSided::Calculate(Arithmetic::Subtract),
        Operator::Multiply => TwoSided::Calculate(Arithmetic::Multiply),
        Operator::Divide => TwoSided::Calculate(Arithmetic::Divide),
        Operator::Remainder => TwoSided::Calculate(Arithmetic::Remainder),
        Operator::Concatenate => TwoSided::Concatenate,
    }
}

/// An expression, whose names are looked up among these sources; `totals` says whether an aggregate may stand there.
#[cycle(bind_term)]
#[tactic(auto, using(crate::proofs::PartRefusals::mapped))]
pub fn bind_term(alloc: Global, totals: bool, scope: &[ScopeSource], tree: &Expr) -> R<Term>
    ensures { Names (resolve totals scope.now tree.now) result }
{
    match &tree.node {
        Tree::Null => Ok(constant(Value::Null)),
        Tree::Integer(number) => Ok(digits(*number)),
        Tree::Text(text) => Ok(constant(Value::Text(text.copy(alloc)?))),
        Tree::Blob(bytes) => Ok(constant(Value::Blob(bytes.copy(alloc)?))),
        Tree::Column(source, name) => bind_name(alloc, scope, source, name),
        Tree::Paren(inner) => bind_term(alloc, totals, scope, inner),
        Tree::Negated(inner) => bind_one(alloc, totals, scope, OneSided::Negated, inner),
        Tree::Not(inner) => bind_one(alloc, totals, scope, OneSided::Not, inner),
        Tree::Binary(operator, left, right) => {
            bind_two(alloc, totals, scope, *operator, left, right)
        }
        Tree::Between(is_negated, operand, low, high) => {
            bind_between(alloc, totals, scope, *is_negated, operand, low, high)
        }
        Tree::In(is_negated, operand, list) => {
            bind_among(alloc, totals, scope, *is_negated, operand, list)
        }
        Tree::Collate(inner, name) => bind_collated(alloc, totals, scope, inner, name),
        Tree::Call(name, list) => bind_call(alloc, totals, scope, name, list),
        Tree::CallAll(name) => call_of_all(alloc, totals, name),
        Tree::Raise(action, text) => bind_raise(alloc, scope, *action, text),
    }
}

/// The same, to stand within another term.
#[cycle(bind_term)]
fn bind_boxed(alloc: Global, totals: bool, scope: &[ScopeSource], tree: &Expr) -> R<Box<Term>>
    ensures { NamesBy (λ boxed. boxed.value) (resolve totals scope.now tree.now) result }
{
    let term = bind_term(alloc, totals, scope, tree)?;
    Ok(Box::new(alloc, term)?)
}

/// An operator before an operand.
#[cycle(bind_term)]
#[tactic(auto, using(crate::proofs::PartRefusals::mapped))]
fn bind_one(
    alloc: Global,
    totals: bool,
    scope: &[ScopeSource],
    operator: OneSided,
    operand: &Expr,
) -> R<Term>
    ensures { Names (known_map (term.One operator)
        (resolve totals scope.now operand.now)) result }
{
    let operand = bind_boxed(alloc, totals, scope, operand)?;
    Ok(Term {
        node: Node::One(operator, operand),
    })
}

/// An operator between two operands.
#[cycle(bind_term)]
#[tactic(auto, using(crate::proofs::PartRefusals::left, crate::proofs::PartRefusals::right))]
fn bind_two(
    alloc: Global,
    totals: bool,
    scope: &[ScopeSource],
    operator: Operator,
    left: &Expr,
    right: &Expr,
) -> R<Term>
    ensures { Names (resolve totals scope.now
        (tree.Binary operator left.now right.now)) result }
{
    let left = bind_boxed(alloc, totals, scope, left)?;
    let right = bind_boxed(alloc, totals, scope, right)?;
    Ok(Term {
        node: Node::Two(operator_of(operator), left, right),
    })
}

/// COLLATE.
#[cycle(bind_term)]
#[tactic(auto, using(crate::proofs::PartRefusals::left, crate::proofs::PartRefusals::right))]
fn bind_collated(
    alloc: Global,
    totals: bool,
    scope: &[ScopeSource],
    operand: &Expr,
    name: &Name,
) -> R<Term>
    ensures { Names (resolve totals scope.now
        (tree.Collate operand.now name.now)) result }
{
    let collation = collation_named(alloc, name)?;
    let operand = bind_boxed(alloc, totals, scope, operand)?;
    Ok(Term {
        node: Node::Collate(collation, operand),
    })
}

/// BETWEEN and NOT BETWEEN.
#[cycle(bind_term)]
#[tactic(auto, using(crate::proofs::PartRefusals::first, crate::proofs::PartRefusals::second, crate::proofs::PartRefusals::third))]
fn bind_between(
    alloc: Global,
    totals: bool,
    scope: &[ScopeSource],
    is_negated: bool,
    operand: &Expr,
    low: &Expr,
    high: &Expr,
) -> R<Term>
    ensures { Names (resolve totals scope.now (tree.Between is_negated operand.now low.now high.now)) result }
{
    let operand = bind_boxed(alloc, totals, scope, operand)?;
    let low = bind_boxed(alloc, totals, scope, low)?;
    let high = bind_boxed(alloc, totals, scope, high)?;
    Ok(Term {
        node: Node::Between(is_negated, operand, low, high),
    })
}

/// IN and NOT IN.
#[cycle(bind_term)]
#[tactic(auto, using(crate::proofs::PartRefusals::left, crate::proofs::PartRefusals::right))]
fn bind_among(
    alloc: Global,
    totals: bool,
    scope: &[ScopeSource],
    is_negated: bool,
    operand: &Expr,
    list: &[Expr],
) -> R<Term>
    ensures { Names (resolve totals scope.now (tree.In is_negated operand.now (trees list.now))) result }
{
    let operand = bind_boxed(alloc, totals, scope, operand)?;
    let list = bind_all(alloc, totals, scope, list)?;
    Ok(Term {
        node: Node::In(is_negated, operand, list),
    })
}

/// A call. Within an aggregate's arguments no aggregate may stand.
#[cycle(bind_term)]
#[tactic(auto, using(crate::proofs::PartRefusals::right))]
fn bind_call(
    alloc: Global,
    totals: bool,
    scope: &[ScopeSource],
    name: &Name,
    list: &[Expr],
) -> R<Term>
    ensures { Names (resolve totals scope.now
        (tree.Call name.now (trees list.now))) result }
{
    let called = function_named(name);
    let arguments = bind_all(alloc, may_hold_totals(totals, called), scope, list)?;
    call_of(alloc, totals, called, name, arguments)
}

/// The expressions of a list, each by itself.
#[cycle(bind_term)]
#[tactic(auto, using(crate::proofs::Trees::item_falls))]
fn bind_all(alloc: Global, totals: bool, scope: &[ScopeSource], list: &[Expr]) -> R<Vec<Term>>
    ensures found { NamesBy (λ found. terms found.items) (resolve_all totals scope.now (trees list.now)) result }
    ensures counted { IfOk result (λ found. length found.items ≡ count_of (trees list.now)) }
{
    let mut found = Vec::new(alloc);
    'trees: for tree in list {
        let term = bind_term(alloc, totals, scope, tree)?;
        found.push(term)?;
    }
    Ok(found)
}
