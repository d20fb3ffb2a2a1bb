//! Queries whose names are looked up.

use crate::scope::ScopeColumn;
use query_terms::Term;
use sqlval::{Many, Name};

/// Which of the combinations with a source's rows stay.
#[derive(Drop)]
pub enum Condition {
    Always,
    /// Those for which the term is true.
    Where(Term),
    /// The same, and where none stays, one of NULLs.
    OrNulls(Term),
}

/// A query whose names are looked up.
#[derive(Drop)]
pub struct Reading {
    /// Each source by name, with the condition under which its rows join.
    pub sources: Many<(Name, Condition)>,
    pub filter: Option<Term>,
    /// Whether the results are of groups of rows.
    pub is_grouped: bool,
    /// The keys by which rows are grouped; without any, all rows are one group.
    pub keys: Many<Term>,
    pub results: Many<Term>,
    /// What a view of the query has as its columns.
    pub columns: Many<ScopeColumn>,
    /// Whether a `*` is among the results whose source isn't known.
    pub is_open: bool,
    /// The expressions of ORDER BY, and whether each falls.
    pub order: Many<(Term, bool)>,
    pub distinct: bool,
    pub limit: Option<u64>,
    pub offset: u64,
}
