//! What the reading of tables and indexes is worth.

ghost use Rattle.sql_expr.specs.Exact.{Exact};
ghost use Rattle.sql_expr.specs.Follows.{Anything};
ghost use Rattle.sql_grammar.specs.Objects.{IsIndex, is_index_within};
ghost use Rattle.sql_grammar.specs.Tables.{IsTable, is_table_within};
ghost use Rattle.sql_create.specs.IndexReading.{index_from};
ghost use Rattle.sql_create.specs.TableReading.{table_from};

/// The tables and indexes that are read are those of the grammar within the limits, each as its one tree; past the limits
/// they are `TooLong`.
pub fn tables_are_exact()
    ensures tables { Exact table_from IsTable is_table_within Anything }
    ensures indexes { Exact index_from IsIndex is_index_within Anything }
{}
