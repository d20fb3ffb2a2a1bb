//! The connections of an open database: what each statement may answer, and what is left after a crash, with the machine that
//! defines it.
#![tactic(auto)]

mod calls;
mod changes;
mod checkpoints;
mod commits;
mod endings;
mod laws;
mod looking;
mod marks;
mod points;
mod queries;
mod reads;
mod savepoints;
mod seats;
mod transactions;
mod writes;

ghost use Rattle.session.specs.Laws.{LeavesOthers, RefusalsAddNothing};

pub use laws::stored_files_hold;
pub use seats::Seats;
pub use transactions::Connections;

/// A refused statement commits nothing.
pub fn refusals_add_nothing()
    ensures { RefusalsAddNothing }
{}

/// A statement leaves the other connections as they were, and each committed database in its place.
pub fn others_see_the_same()
    ensures { LeavesOthers }
{}
