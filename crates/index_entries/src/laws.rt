//! How the entries of a table's rows change with the rows.

ghost use Rattle.index_entries.specs.Alone.{FindsKeys};
ghost use Rattle.index_entries.specs.Laws.{AddsItsEntry, SameWhereParted, TakesItsEntry};

/// With a row more there is its entry more, without it one less. The entries don't depend on where some of the rows stand.
pub fn entries_follow_rows()
    ensures adds { AddsItsEntry }
    ensures takes { TakesItsEntry }
    ensures parted { SameWhereParted }
{}

/// A key is among the entries of rows exactly where one of the rows has it.
pub fn entries_have_keys()
    ensures { FindsKeys }
{}
