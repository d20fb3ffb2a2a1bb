//! Putting the cells of a tree's page onto as many pages as they need.
#![tactic(auto)]

mod building;
mod cells;
mod cutting;
mod freeing;
mod laws;
mod placing;
mod removing;
mod replacing;
mod rewriting;
mod slots;
mod splicing;
mod spreading;

pub use building::{build, fits};
pub use cells::{between_cell, entry_cell, key_cell, row_cell};
pub use freeing::FreeblockHead;
pub use laws::{
    cells_are_small, cells_lie_on_pages, entries_are_joined, keys_are_short, parts_are_few,
    parts_are_filled, parts_are_well_filled, parts_lie_within, rows_are_joined, rows_are_parted,
    sides_are_joined,
};
pub use placing::{CellRoom, place_cell, room_for};
pub use removing::{CellCut, cut_for};
pub use rewriting::{payload_place, put_payload};
pub use splicing::{join, splice};
pub use spreading::{Packed, Piece, pack};
