//! A database over pages: what a query reads of it, and what a statement makes of it.
#![tactic(auto)]

mod creating;
mod deleting;
mod dropping;
mod giving;
mod inserting;
mod kept;
mod reading;
mod refusing;
mod rows;
mod shown;
mod triggers;
mod updating;
mod views;

pub use creating::{create_index, create_table};
pub use deleting::delete_rows;
pub use dropping::drop_object;
pub use inserting::insert;
pub use reading::read;
pub use rows::{
    all_rows, insert_row, places_by_column, row_at, rows_sought, set_row, source_row,
    stored_values_stay, take_row, value_copies,
};
pub use triggers::create_trigger;
pub use updating::update_rows;
pub use views::create_view;
