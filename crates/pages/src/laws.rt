//! Laws of pages that move.

ghost use Rattle.pages.specs.Laws.{MovesBesideFree, MovesBesideUsed, MovesFollow, PagesAdd};

/// Two lists have their pages together.
pub fn pages_are_counted()
    ensures { PagesAdd }
{}

/// Two moves, one after the other, are one.
pub fn moves_follow()
    ensures { MovesFollow }
{}

/// Pages that moved move beside others too, which are used, or free, before and after.
pub fn moves_stand_beside()
    ensures used { MovesBesideUsed }
    ensures free { MovesBesideFree }
{}
