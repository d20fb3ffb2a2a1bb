//! The greatest number of a parameter.

ghost use Rattle.std.specs.Prelude.{◌≡◌};
ghost use Rattle.sql_syntax.specs.Tree.{trees};
ghost use Rattle.sql_syntax.specs.Tree as tree;
ghost use Rattle.sql_bound.specs.Greatest as meant;
ghost use Rattle.sql_bound.specs.Greatest.{greatest_of};

use crate::parameters::parameter_number;
use sql_syntax::{
    Assignment, Change, Expr, FromClause, InsertSource, Join, Node, OrderTerm, Query, ResultItem,
    Statement,
};
use sqlval::{Many, Name};

/// The number of a column's name, where it is a parameter.
fn greatest_in_column(source: &Option<Name>, name: &Name) -> usize
    ensures { result ≡ meant.greatest_in (tree.Column source.now name.now) }
{
    match source {
        Some(_) => 0,
        None => parameter_number(name.as_str().as_bytes()).unwrap_or(0),
    }
}

/// The greatest number in an expression.
#[cycle(greatest_in)]
fn greatest_in(expression: &Expr) -> usize
    ensures { result ≡ meant.greatest_in expression.now }
{
    match &expression.node {
        Node::Column(source, name) => greatest_in_column(source, name),
        Node::Paren(inner) => greatest_in(inner),
        Node::Negated(operand) => greatest_in(operand),
        Node::Not(operand) => greatest_in(operand),
        Node::Binary(_, left, right) => greatest_in(left).max(greatest_in(right)),
        Node::Between(_, operand, low, high) => {
            greatest_in(operand).max(greatest_in(low).max(greatest_in(high)))
        }
        Node::In(_, operand, list) => greatest_in(operand).max(greatest_among(list)),
        Node::Collate(operand, _) => greatest_in(operand),
        Node::Call(_, list) => greatest_among(list),
        _ => 0,
    }
}

/// The greatest number in a list of expressions.
#[cycle(greatest_in)]
#[tactic(auto, using(crate::proofs::TreeLists::item_falls))]
fn greatest_among(list: &[Expr]) -> usize
    ensures { result ≡ meant.greatest_among (trees list.now) }
{
    let mut greatest = 0;
    'expressions: for expression in list {
        greatest = greatest.max(greatest_in(expression));
    }
    greatest
}

/// The greatest number in an expression that may be left out.
fn greatest_in_condition(condition: &Option<Expr>) -> usize
    ensures { result ≡ meant.greatest_in_condition condition.now }
{
    match condition {
        Some(condition) => greatest_in(condition),
        None => 0,
    }
}

/// The greatest number in a result.
fn greatest_in_result(item: &ResultItem) -> usize
    ensures { result ≡ meant.greatest_in_result item.now }
{
    match item {
        ResultItem::Of(expression, _) => greatest_in(expression),
        _ => 0,
    }
}

/// The greatest number in results.
fn greatest_in_results(results: &[ResultItem]) -> usize
    ensures { result ≡ greatest_of meant.greatest_in_result results.now }
{
    let mut greatest = 0;
    'results: for item in results {
        greatest = greatest.max(greatest_in_result(item));
    }
    greatest
}

/// The greatest number in the conditions of further sources.
fn greatest_in_joins(joins: &[Join]) -> usize
    ensures { result ≡ greatest_of (λ join. meant.greatest_in_condition join.condition) joins.now }
{
    let mut greatest = 0;
    'joins: for join in joins {
        greatest = greatest.max(greatest_in_condition(&join.condition));
    }
    greatest
}

/// The greatest number in FROM, where it is written.
fn greatest_in_from(from: &Option<FromClause>) -> usize
    ensures { result ≡ meant.greatest_if_given meant.greatest_in_from from.now }
{
    match from {
        Some(from) => greatest_in_joins(from.joins.as_slice()),
        None => 0,
    }
}

/// The greatest number in ORDER BY.
fn greatest_in_orders(terms: &[OrderTerm]) -> usize
    ensures { result ≡ greatest_of (λ term. meant.greatest_in term.expression) terms.now }
{
    let mut greatest = 0;
    'terms: for term in terms {
        greatest = greatest.max(greatest_in(&term.expression));
    }
    greatest
}

/// The greatest number in a query.
fn greatest_in_query(query: &Query) -> usize
    ensures { result ≡ meant.greatest_in_query query.now }
{
    let results = greatest_in_results(query.results.as_slice());
    let from = greatest_in_from(&query.from);
    let condition = greatest_in_condition(&query.condition);
    let groups = greatest_among(query.groups.as_slice());
    let order = greatest_in_orders(query.order.as_slice());
    results.max(from.max(condition.max(groups.max(order))))
}

/// The greatest number in the rows of VALUES.
fn greatest_in_rows(rows: &[Many<Expr>]) -> usize
    ensures { result ≡ greatest_of (λ row. meant.greatest_among (trees row)) rows.now }
{
    let mut greatest = 0;
    'rows: for row in rows {
        greatest = greatest.max(greatest_among(row.as_slice()));
    }
    greatest
}

/// The greatest number in what INSERT takes its rows from.
fn greatest_in_source(source: &InsertSource) -> usize
    ensures { result ≡ meant.greatest_in_source source.now }
{
    match source {
        InsertSource::Rows(rows) => greatest_in_rows(rows.as_slice()),
        InsertSource::Query(query) => greatest_in_query(query),
    }
}

/// The greatest number in what SET gives columns.
fn greatest_in_assignments(assignments: &[Assignment]) -> usize
    ensures { result ≡ greatest_of (λ assignment. meant.greatest_in assignment.value) assignments.now }
{
    let mut greatest = 0;
    'assignments: for assignment in assignments {
        greatest = greatest.max(greatest_in(&assignment.value));
    }
    greatest
}

/// The greatest number in a change of rows.
fn greatest_in_change(change: &Change) -> usize
    ensures { result ≡ meant.greatest_in_change change.now }
{
    match change {
        Change::Insert(insert) => greatest_in_source(&insert.source),
        Change::Update(update) => {
            let assignments = greatest_in_assignments(update.assignments.as_slice());
            assignments.max(greatest_in_condition(&update.condition))
        }
        Change::Delete(delete) => greatest_in_condition(&delete.condition),
    }
}

/// The greatest number of a parameter in a query or a change of rows, 0 where there is none.
pub fn parameter_count(statement: &Statement) -> usize
    ensures { result ≡ meant.greatest_parameter statement.now }
{
    match statement {
        Statement::Select(query) => greatest_in_query(query),
        Statement::Change(change) => greatest_in_change(change),
        _ => 0,
    }
}
