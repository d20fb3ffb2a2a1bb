//! What the reading of queries and changes is worth.

ghost use Rattle.sql_expr.specs.Exact.{Exact};
ghost use Rattle.sql_grammar.specs.Changes.{EndsStatement, IsChange, IsDelete, IsInsert, IsUpdate, is_change_within, is_delete_within, is_insert_within, is_update_within};
ghost use Rattle.sql_grammar.specs.Queries.{IsQuery, IsSelection};
ghost use Rattle.sql_grammar.specs.Within.{is_selection_within};
ghost use Rattle.sql_query.specs.ChangeReading.{change_from, delete_from, insert_from, update_from};
ghost use Rattle.sql_query.specs.QueryReading.{query_from, selection_from};

/// The queries that are read, after SELECT and with it, are those of the grammar within the limits, each as its one tree;
/// past the limits they are `TooLong`.
pub fn queries_are_exact()
    ensures selections { Exact selection_from IsSelection is_selection_within EndsStatement }
    ensures queries { Exact query_from IsQuery is_selection_within EndsStatement }
{}

/// The same of INSERT, UPDATE and DELETE.
pub fn changes_are_exact()
    ensures inserts { Exact insert_from IsInsert is_insert_within EndsStatement }
    ensures deletes { Exact delete_from IsDelete is_delete_within EndsStatement }
    ensures updates { Exact update_from IsUpdate is_update_within EndsStatement }
    ensures all { Exact change_from IsChange is_change_within EndsStatement }
{}
