//! What a change is once its names are known, and what it does to one row of a table, as definitions; and insertion into the
//! tables that are supported.
#![tactic(auto)]

mod choosing;
mod deleting;
mod demands;
mod giving;
mod inserting;
mod keeping;
mod meaning;
mod putting;
mod setting;
mod taking;
mod updating;

ghost use Rattle.row_change.specs.Agreement.{SetsAsEach};

pub use choosing::chosen_rowids;
pub use deleting::delete_takes_its_rows;
pub use giving::gives_rowid;
pub use inserting::insert_adds_its_rows;
pub use keeping::{kept_changes, kept_rows_stay_alone, put_changes};
pub use meaning::{copies_at, meant_places, meant_rows, row_copy};
pub use putting::put_new_row;
pub use setting::{keeps_rowids, stored_row};
pub use taking::{take_rows, take_these};
pub use updating::{set_new_rows, set_row, set_rows_at, update_sets_its_rows};

/// Without a UNIQUE index, and where SET leaves the rowids, rows are set as they become.
pub fn rows_without_keys_are_free()
    ensures { SetsAsEach }
{}
