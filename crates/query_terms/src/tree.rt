//! Expressions whose names are looked up.

use sql_syntax::RaiseAction;
use sqlval::{Affinity, Collation, Text, Value};
use std::marker::Model;

/// What compares two values by their order.
#[derive(Clone, Copy, PartialEq, Eq)]
pub enum Comparison {
    Equal,
    NotEqual,
    Less,
    LessOrEqual,
    Greater,
    GreaterOrEqual,
}

/// What computes an integer of two.
#[derive(Clone, Copy, PartialEq, Eq)]
pub enum Arithmetic {
    Add,
    Subtract,
    Multiply,
    Divide,
    Remainder,
}

/// What stands before one operand.
#[derive(Clone, Copy, PartialEq, Eq)]
pub enum OneSided {
    Negated,
    Not,
}

/// What stands between two operands.
#[derive(Clone, Copy, PartialEq, Eq)]
pub enum TwoSided {
    Compare(Comparison),
    Calculate(Arithmetic),
    Is,
    IsNot,
    And,
    Or,
    Concatenate,
}

/// Where a source has a value.
#[derive(Clone, Copy, PartialEq, Eq)]
pub enum Place {
    RowId,
    /// The column at this place.
    At(usize),
}

/// The functions of one row.
#[derive(Clone, Copy, PartialEq, Eq)]
pub enum Function {
    Abs,
    Coalesce,
    Length,
    Lower,
    Upper,
    TypeOf,
}

/// The functions of a group's rows.
#[derive(Clone, Copy, PartialEq, Eq)]
pub enum Aggregate {
    CountAll,
    Count,
    Sum,
    Min,
    Max,
}

/// An expression whose names are looked up: contracts see the tree, without where it lies in memory.
#[derive(Drop)]
#[cycle(term)]
pub struct Term {
    pub node: Node,
}

/// An expression by its outermost form.
#[derive(Drop)]
#[cycle(term)]
pub enum Node {
    Const(Value),
    /// A number as it is written, without a minus.
    Digits(u64),
    /// A source's place, with the column's affinity and collation.
    Cell(usize, Place, Option<Affinity>, Collation),
    /// A GROUP BY expression, by its place.
    Key(usize, Box<Term>),
    Apply(Function, Vec<Term>),
    /// An aggregate of its argument; `count(*)` has NULL there.
    Total(Aggregate, Box<Term>),
    One(OneSided, Box<Term>),
    Two(TwoSided, Box<Term>, Box<Term>),
    Collate(Collation, Box<Term>),
    /// Whether NOT is written, the operand, and the list.
    In(bool, Box<Term>, Vec<Term>),
    /// Whether NOT is written, the operand, the least and the greatest.
    Between(bool, Box<Term>, Box<Term>, Box<Term>),
    /// RAISE with its text.
    Raise(RaiseAction, Text),
}

impl Model for Term {
    ghost use Rattle.query_terms.specs.Terms as tree;
    ghost use Rattle.query_terms.specs.Code.{tree_code};

    ghost Value = { tree.Term };

    ghost coded = { tree_code };

    ghost use Rattle.query_terms.specs.View.{tree_of};

    ghost view = { λ a. tree_of a.node };

    ghost size = { tree.size };

    ghost use Rattle.std.proofs.Common.{arith};
    ghost use Rattle.query_terms.specs.Falls.{falls};

    ghost size_decreases = { λ a h. omega (arith, falls a.node) };
}
