//! Expressions copied, with the values of parameters.

ghost use Rattle.std.specs.Prelude.{◌≡◌, map};
ghost use Rattle.sqlval.specs.Faults.{IsOrMemory};
ghost use Rattle.sql_syntax.specs.Tree as tree;
ghost use Rattle.sql_syntax.specs.Tree.{trees};
ghost use Rattle.sql_bound.specs.Bound as meant;
ghost use Rattle.sql_bound.specs.Bound.{bound_tree, bound_trees};

use crate::parameters::{expression_of, literal, parameter_value};
use sql_syntax::{Expr, Node, Operator, RaiseAction};
use sqlval::{Many, Name, R, Text, Value};
use std::alloc::Global;

/// A copy of a name, where there is one.
pub fn name_copy(alloc: Global, name: &Option<Name>) -> R<Option<Name>>
    ensures { IsOrMemory (λ copy. copy ≡ name.now) result }
{
    match name {
        Some(name) => Ok(Some(name.copy(alloc)?)),
        None => Ok(None),
    }
}

/// A copy of RAISE.
fn raise_copy(alloc: Global, action: RaiseAction, text: &Text) -> R<Expr>
    ensures { IsOrMemory (λ copy. copy ≡ tree.Raise action text.now) result }
{
    let text = text.copy(alloc)?;
    Ok(expression_of(Node::Raise(action, text)))
}

/// A copy of a column.
fn column_copy(alloc: Global, source: &Option<Name>, name: &Name) -> R<Expr>
    ensures { IsOrMemory (λ copy. copy ≡ tree.Column source.now name.now) result }
{
    let source = name_copy(alloc, source)?;
    let name = name.copy(alloc)?;
    Ok(expression_of(Node::Column(source, name)))
}

/// The literal of a parameter's value, or a copy of a column.
fn bound_column(alloc: Global, values: &[Value], source: &Option<Name>, name: &Name) -> R<Expr>
    ensures { IsOrMemory (λ copy. copy ≡ bound_tree values.now (tree.Column source.now name.now)) result }
{
    match (source, parameter_value(values, name)) {
        (None, Some(value)) => literal(alloc, value),
        _ => column_copy(alloc, source, name),
    }
}

/// A copy of an expression in which each parameter is the literal of its value. (`Memory` alone.)
#[cycle(bound_expression)]
pub fn bound_expression(alloc: Global, values: &[Value], expression: &Expr) -> R<Expr>
    ensures { IsOrMemory (λ copy. copy ≡ bound_tree values.now expression.now) result }
{
    match &expression.node {
        Node::Null => Ok(expression_of(Node::Null)),
        Node::Integer(number) => Ok(expression_of(Node::Integer(*number))),
        Node::Text(text) => Ok(expression_of(Node::Text(text.copy(alloc)?))),
        Node::Blob(bytes) => Ok(expression_of(Node::Blob(bytes.copy(alloc)?))),
        Node::Column(source, name) => bound_column(alloc, values, source, name),
        Node::Paren(inner) => bound_paren(alloc, values, inner),
        Node::Negated(operand) => bound_negated(alloc, values, operand),
        Node::Not(operand) => bound_not(alloc, values, operand),
        Node::Binary(operator, left, right) => bound_binary(alloc, values, *operator, left, right),
        Node::Between(is_negated, operand, low, high) => {
            bound_between(alloc, values, *is_negated, operand, low, high)
        }
        Node::In(is_negated, operand, list) => bound_in(alloc, values, *is_negated, operand, list),
        Node::Collate(operand, name) => bound_collate(alloc, values, operand, name),
        Node::Call(name, list) => bound_call(alloc, values, name, list),
        Node::CallAll(name) => Ok(expression_of(Node::CallAll(name.copy(alloc)?))),
        Node::Raise(action, text) => raise_copy(alloc, *action, text),
    }
}

/// A copy of an expression with its parameters' values, to stand within another.
#[cycle(bound_expression)]
fn bound_boxed(alloc: Global, values: &[Value], expression: &Expr) -> R<Box<Expr>>
    ensures { IsOrMemory (λ copy. copy.value ≡ bound_tree values.now expression.now) result }
{
    let copy = bound_expression(alloc, values, expression)?;
    Ok(Box::new(alloc, copy)?)
}

/// Parentheses, copied.
#[cycle(bound_expression)]
fn bound_paren(alloc: Global, values: &[Value], inner: &Expr) -> R<Expr>
    ensures { IsOrMemory (λ copy. copy ≡ tree.Paren (bound_tree values.now inner.now)) result }
{
    let inner = bound_boxed(alloc, values, inner)?;
    Ok(expression_of(Node::Paren(inner)))
}

/// A minus before an operand, copied.
#[cycle(bound_expression)]
fn bound_negated(alloc: Global, values: &[Value], operand: &Expr) -> R<Expr>
    ensures { IsOrMemory (λ copy. copy ≡ tree.Negated (bound_tree values.now operand.now)) result }
{
    let operand = bound_boxed(alloc, values, operand)?;
    Ok(expression_of(Node::Negated(operand)))
}

/// NOT, copied.
#[cycle(bound_expression)]
fn bound_not(alloc: Global, values: &[Value], operand: &Expr) -> R<Expr>
    ensures { IsOrMemory (λ copy. copy ≡ tree.Not (bound_tree values.now operand.now)) result }
{
    let operand = bound_boxed(alloc, values, operand)?;
    Ok(expression_of(Node::Not(operand)))
}

/// An operator between two operands, copied.
#[cycle(bound_expression)]
fn bound_binary(
    alloc: Global,
    values: &[Value],
    operator: Operator,
    left: &Expr,
    right: &Expr,
) -> R<Expr>
    ensures { IsOrMemory (λ copy. copy ≡ tree.Binary operator (bound_tree values.now left.now)
        (bound_tree values.now right.now)) result }
{
    let left = bound_boxed(alloc, values, left)?;
    let right = bound_boxed(alloc, values, right)?;
    Ok(expression_of(Node::Binary(operator, left, right)))
}

/// BETWEEN or NOT BETWEEN, copied.
#[cycle(bound_expression)]
fn bound_between(
    alloc: Global,
    values: &[Value],
    is_negated: bool,
    operand: &Expr,
    low: &Expr,
    high: &Expr,
) -> R<Expr>
    ensures { IsOrMemory (λ copy. copy
        ≡ tree.Between is_negated (bound_tree values.now operand.now) (bound_tree values.now low.now)
        (bound_tree values.now high.now)) result }
{
    let operand = bound_boxed(alloc, values, operand)?;
    let low = bound_boxed(alloc, values, low)?;
    let high = bound_boxed(alloc, values, high)?;
    Ok(expression_of(Node::Between(is_negated, operand, low, high)))
}

/// IN or NOT IN, copied.
#[cycle(bound_expression)]
fn bound_in(
    alloc: Global,
    values: &[Value],
    is_negated: bool,
    operand: &Expr,
    list: &[Expr],
) -> R<Expr>
    ensures { IsOrMemory
        (λ copy. copy ≡ tree.In is_negated (bound_tree values.now operand.now)
        (bound_trees values.now (trees list.now))) result }
{
    let operand = bound_boxed(alloc, values, operand)?;
    let list = bound_list(alloc, values, list)?;
    Ok(expression_of(Node::In(is_negated, operand, list)))
}

/// COLLATE, copied.
#[cycle(bound_expression)]
fn bound_collate(alloc: Global, values: &[Value], operand: &Expr, name: &Name) -> R<Expr>
    ensures { IsOrMemory (λ copy. copy ≡ tree.Collate (bound_tree values.now operand.now) name.now) result }
{
    let name = name.copy(alloc)?;
    let operand = bound_boxed(alloc, values, operand)?;
    Ok(expression_of(Node::Collate(operand, name)))
}

/// A call, copied.
#[cycle(bound_expression)]
fn bound_call(alloc: Global, values: &[Value], name: &Name, list: &[Expr]) -> R<Expr>
    ensures { IsOrMemory (λ copy. copy ≡ tree.Call name.now (bound_trees values.now (trees list.now))) result }
{
    let name = name.copy(alloc)?;
    let list = bound_list(alloc, values, list)?;
    Ok(expression_of(Node::Call(name, list)))
}

/// Copies of the expressions of IN or of a call, with their parameters' values.
#[cycle(bound_expression)]
#[tactic(auto, using(crate::proofs::TreeLists::item_falls))]
fn bound_list(alloc: Global, values: &[Value], list: &[Expr]) -> R<Vec<Expr>>
    ensures { IsOrMemory (λ copies. trees copies.items ≡ bound_trees values.now (trees list.now)) result }
{
    let mut copies = Vec::new(alloc);
    'expressions: for expression in list {
        let copy = bound_expression(alloc, values, expression)?;
        copies.push(copy)?;
    }
    Ok(copies)
}

/// Copies of the expressions of GROUP BY or of a row of VALUES, with their parameters' values. (`Memory` alone.)
pub fn bound_expressions(alloc: Global, values: &[Value], list: &[Expr]) -> R<Many<Expr>>
    ensures { IsOrMemory (λ copies. copies ≡ map (bound_tree values.now) list.now) result }
{
    let mut copies = Vec::new(alloc);
    'expressions: for expression in list {
        let copy = bound_expression(alloc, values, expression)?;
        copies.push(copy)?;
    }
    Ok(Many::from_vec(copies))
}

/// A copy of an expression that may be left out, with its parameters' values. (`Memory` alone.)
pub fn bound_condition(alloc: Global, values: &[Value], condition: &Option<Expr>) -> R<Option<Expr>>
    ensures { IsOrMemory (λ copy. copy ≡ meant.bound_condition values.now condition.now) result }
{
    match condition {
        Some(condition) => Ok(Some(bound_expression(alloc, values, condition)?)),
        None => Ok(None),
    }
}
