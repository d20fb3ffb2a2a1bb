//! Expressions.

use sqlval::{Bytes, Name, Text};
use std::marker::Model;

/// What stands between two operands.
#[derive(Clone, Copy, PartialEq, Eq)]
pub enum Operator {
    Or,
    And,
    Equal,
    NotEqual,
    Is,
    IsNot,
    Less,
    LessOrEqual,
    Greater,
    GreaterOrEqual,
    Add,
    Subtract,
    Multiply,
    Divide,
    Remainder,
    Concatenate,
}

/// What RAISE undoes.
#[derive(Clone, Copy, PartialEq, Eq)]
pub enum RaiseAction {
    /// The statement.
    Abort,
    /// The transaction.
    Rollback,
}

/// An expression: contracts see the tree, without where it lies in memory.
#[derive(Drop)]
#[cycle(expr)]
pub struct Expr {
    pub node: Node,
}

/// An expression by its outermost form, with names and texts as they are meant: quotes once.
#[derive(Drop)]
#[cycle(expr)]
pub enum Node {
    Null,
    /// At most 9223372036854775808, which stands after a minus only.
    Integer(u64),
    Text(Text),
    Blob(Bytes),
    /// The source, where it is written, and the column.
    Column(Option<Name>, Name),
    Paren(Box<Expr>),
    Negated(Box<Expr>),
    Not(Box<Expr>),
    Binary(Operator, Box<Expr>, Box<Expr>),
    /// Whether NOT is written, the operand, the least and the greatest.
    Between(bool, Box<Expr>, Box<Expr>, Box<Expr>),
    /// Whether NOT is written, the operand, and the list.
    In(bool, Box<Expr>, Vec<Expr>),
    /// The operand and the collation.
    Collate(Box<Expr>, Name),
    /// The function and its arguments.
    Call(Name, Vec<Expr>),
    /// The function of `*`.
    CallAll(Name),
    Raise(RaiseAction, Text),
}

impl Model for Expr {
    ghost use Rattle.sql_syntax.specs.Tree as tree;
    ghost use Rattle.sql_syntax.specs.Code.{tree_code};

    ghost Value = { tree.Tree };

    ghost coded = { tree_code };

    ghost use Rattle.sql_syntax.specs.View.{tree_of};

    ghost view = { λ a. tree_of a.node };

    ghost size = { tree.size };

    ghost use Rattle.std.proofs.Common.{arith};
    ghost use Rattle.sql_syntax.specs.Falls.{falls};

    ghost size_decreases = { λ a h. omega (arith, falls a.node) };
}
