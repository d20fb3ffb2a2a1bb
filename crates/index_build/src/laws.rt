//! How rows clash by the entries of a UNIQUE index.

ghost use Rattle.index_build.specs.Laws.{ClashesAlike};

/// Two rows clash by the entries of a UNIQUE index exactly where they do by its definition.
pub fn rows_clash_alike()
    ensures { ClashesAlike }
{}
