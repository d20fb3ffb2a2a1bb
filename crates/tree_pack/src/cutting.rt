//! Cutting cells into the parts that stand on pages of their own.

ghost use Rattle.std.specs.Prelude.{◌≡◌, ◌≤◌, ◌<◌, ◌+◌, ◌^◌, IfOk, length, map};
ghost use Rattle.tree_pack.specs.Parts.{IsPart, AreParts, IsCut};
ghost use Rattle.tree_pack.specs.Building.{cell_room};

use crate::building::{cell_len, room_of};
use std::alloc::{AllocError, Global};

/// How many cells make the first part, where some have to stand after it.
fn part_len(cells: &[&[u8]], room: usize, goal: usize, up: usize) -> usize
    requires { up + 2 ≤ length cells.now }
    ensures { IsPart up room goal (map cell_room (map (λ cell. cell.now) cells.now)) result }
{
    let most = cells.len() - up - 1;
    let mut count = 1;
    let mut sum = cell_len(cells[0]);
    'cells: while count < most {
        let size = cell_len(cells[count]);
        if goal <= sum {
            return count;
        }
        if room.saturating_sub(sum) < size {
            return count;
        }
        sum += size;
        count += 1;
    }
    count
}

/// The parts of cells that don't make a single part.
fn cut_on(
    alloc: Global,
    cells: &[&[u8]],
    room: usize,
    goal: usize,
    up: usize,
) -> Result<Vec<usize>, AllocError>
    requires one { up ≤ 1 }
    requires room { room < 2 ^ 16 }
    ensures { IfOk result (λ counts. AreParts up room goal counts.items
        (map cell_room (map (λ cell. cell.now) cells.now))) }
{
    let mut counts = Vec::new(alloc);
    let mut left = cells;
    'parts: while room < room_of(left, room + 1) {
        if left.len() < up + 2 {
            return Ok(counts);
        }
        let count = part_len(left, room, goal, up);
        counts.push(count)?;
        left = &left[count + up..];
    }
    Ok(counts)
}

/// How many cells stand in each part that has another after it; the last part has the cells that are left. `room` is that of
/// the cells of one page, with their pointers. Between two parts `up` cells go to the page above. `rises` says that the change
/// stands after all other cells: then each part is full, else the parts are about half full. If all cells fit, no memory is
/// taken.
pub(crate) fn cut(
    alloc: Global,
    cells: &[&[u8]],
    room: usize,
    up: usize,
    rises: bool,
) -> Result<Vec<usize>, AllocError>
    requires one { up ≤ 1 }
    requires room { room < 2 ^ 16 }
    ensures { IfOk result (λ counts. IsCut up room rises
        (map cell_room (map (λ cell. cell.now) cells.now)) counts.items) }
{
    let sum = room_of(cells, 2 * room + 2);
    if sum <= room {
        return Ok(Vec::new(alloc));
    }
    if cells.len() == up + 1 {
        return Ok(vec![in alloc; 1]?);
    }
    let goal = if rises { room + 1 } else { sum - sum / 2 };
    cut_on(alloc, cells, room, goal, up)
}
