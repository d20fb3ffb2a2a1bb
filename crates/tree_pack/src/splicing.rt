//! Putting other cells in the place of some of a page's, and the cells of two pages onto one.

ghost use Rattle.std.specs.Prelude.{◌≡◌, ◌⊎◌, ◌≤◌, ◌+◌, ◌-◌, ◌++◌, ◌∷◌, [], length, map, take, drop, vec_capacity, IfOk, IfErr, OnOk, MatchResult};
ghost use Rattle.tree_page.specs.Node.{Node, IsNode};
ghost use Rattle.tree_pack.specs.Building.{right_bytes};
ghost use Rattle.tree_pack.specs.Splicing.{Splices, SplicesOne, Joins};

use crate::place_cell;
use crate::removing::remove_cell;
use crate::replacing::{cell_at, replace_cells};
use crate::spreading::{Packed, pack};
use sqlval::{Damage, Fault, R};
use std::alloc::Global;
use tree_page::TreePage;

/// Appends the cells of a page from one place up to another, where there is room for them. (`Damaged(Cell, 0)` if the page has no such
/// cells.)
fn append_cells<'a>(out: &mut Vec<&'a [u8]>, page: &TreePage<'a>, from: usize, to: usize) -> R<()>
    requires { length out.old.items + (to - from) ≤ vec_capacity out.old }
    ensures put { (node : Node) (is : IsNode page.now.bytes page.now.start node) → from ≤ to
        → to ≤ length is.cells
        → MatchResult result (λ _. map (λ cell. cell.now) out.new.items ≡ map
        (λ cell. cell.now) out.old.items ++ take (to - from) (drop from is.cells))
        (λ fault. ⊥) }
    ensures len { OnOk result (length out.new.items ≡ length out.old.items + (to - from)) }
    ensures capacity { vec_capacity out.old ≤ vec_capacity out.new }
    ensures refused { IfErr result (λ fault. fault ≡ Fault.Damaged Damage.Cell 0) }
{
    let mut index = from;
    'cells: while index < to {
        out.push_reserved(page.cell(index)?);
        index += 1;
    }
    Ok(())
}

/// Room for the cells of one page before a place, for others, and for those of another page from a place on. (`Memory` alone.)
fn room_for<'a>(alloc: Global, to: usize, between: usize, rest: usize) -> R<Vec<&'a [u8]>>
    ensures empty { IfOk result (λ room. room.items ≡ []) }
    ensures reserved { IfOk result (λ room. to + between + rest ≤ vec_capacity room) }
    ensures refused { IfErr result (λ fault. fault ≡ Fault.Memory) }
{
    let Some(both) = to.checked_add(between) else {
        return Err(Fault::Memory);
    };
    let Some(all) = both.checked_add(rest) else {
        return Err(Fault::Memory);
    };
    Ok(Vec::with_capacity(alloc, all)?)
}

/// The cells of a page before a place, those given, and those of another page from a place on. (Refusals as for `append_cells`.)
fn cells_around<'a>(
    alloc: Global,
    left: &TreePage<'a>,
    to: usize,
    between: &[&'a [u8]],
    right: &TreePage<'a>,
    from: usize,
) -> R<Vec<&'a [u8]>>
    ensures around { (a b : Node) (is_a : IsNode left.now.bytes left.now.start a)
        (is_b : IsNode right.now.bytes right.now.start b)
        → to ≤ length is_a.cells → from ≤ length is_b.cells
        → MatchResult result (λ all. map (λ cell. cell.now) all.items ≡ take to is_a.cells ++
        (map (λ cell. cell.now) between.now ++ drop from is_b.cells))
        (λ fault. fault ≡ Fault.Memory) }
    ensures refused { IfErr result (λ fault. (fault ≡ Fault.Memory)
        ⊎ (fault ≡ Fault.Damaged Damage.Cell 0)) }
{
    let end = right.len();
    let mut all = room_for(alloc, to, between.len(), end.saturating_sub(from))?;
    append_cells(&mut all, left, 0, to)?;
    all.extend_from_slice(between)?;
    append_cells(&mut all, right, from, end)?;
    Ok(all)
}

/// Whether the cell at a place of a page is as long as another.
fn is_as_long(page: &[u8], start: usize, place: usize, cell: &[u8]) -> bool {
    match cell_at(page, start, place) {
        Some(there) => there.end.saturating_sub(there.at) == cell.len(),
        None => false,
    }
}

/// The page with a cell in the place of another: written over it, if it is as long, else put where there is room without moving any.
/// (`Memory` alone.)
fn exchange_cell(
    alloc: Global,
    page: &[u8],
    start: usize,
    place: usize,
    cell: &[u8],
) -> R<Option<Vec<u8>>>
    ensures exchanged { SplicesOne page.now start place 1 (cell.now ∷ []) result }
    ensures refused { IfErr result (λ fault. fault ≡ Fault.Memory) }
{
    if is_as_long(page, start, place, cell) {
        return replace_cells(alloc, page, start, place, &[cell]);
    }
    match remove_cell(alloc, page, start, place)? {
        Some(without) => place_cell(alloc, &without, start, place, cell),
        None => Ok(None),
    }
}

/// The page with one cell more, where no other gives way to it, and there is room without moving any; or with cells in the places of
/// others that are as long. (`Memory` alone.)
fn splice_in_place(
    alloc: Global,
    page: &[u8],
    start: usize,
    from: usize,
    count: usize,
    cells: &[&[u8]],
) -> R<Option<Vec<u8>>>
    ensures placed { SplicesOne page.now start from count (map (λ cell. cell.now) cells.now) result }
    ensures refused { IfErr result (λ fault. fault ≡ Fault.Memory) }
{
    match cells {
        [cell] if count == 0 => place_cell(alloc, page, start, from, cell),
        [cell] if count == 1 => exchange_cell(alloc, page, start, from, cell),
        [] if count == 1 => remove_cell(alloc, page, start, from),
        _ if count == cells.len() => replace_cells(alloc, page, start, from, cells),
        _ => Ok(None),
    }
}

/// Puts the cells of a page, `count` of which from place `from` on give way to `cells`, onto as many pages as they need, as `pack`
/// does. `right` is the last child of an interior page then. (`Damaged(Page, 0)` or `Damaged(Cell, 0)` for a page that says nothing,
/// or has no such cells, and as for `pack`.)
pub fn splice<'a>(
    alloc: Global,
    page: &'a [u8],
    start: usize,
    from: usize,
    count: usize,
    cells: &[&'a [u8]],
    right: Option<u32>,
) -> R<Packed>
    ensures spliced { Splices page.now start from count (map (λ cell. cell.now) cells.now)
        (right_bytes right) result }
    ensures refused { IfErr result (λ fault. (fault ≡ Fault.Memory)
        ⊎ ((fault ≡ Fault.Damaged Damage.Cell 0) ⊎ (fault ≡ Fault.Damaged Damage.Page 0))) }
{
    let tree = TreePage::over(page, start)?;
    let len = tree.len();
    if len < from || len - from < count {
        return Err(Fault::Damaged(Damage::Cell, 0));
    }
    if tree.last_child() == right {
        if let Some(last) = splice_in_place(alloc, page, start, from, count, cells)? {
            return Ok(Packed {
                pieces: Vec::new(alloc),
                last,
            });
        }
    }
    let end = from + count;
    let all = cells_around(alloc, &tree, from, cells, &tree, end)?;
    let front = &page[..start.min(page.len())];
    pack(
        alloc,
        front,
        page.len(),
        tree.kind(),
        right,
        &all,
        end == len,
    )
}

/// Puts the cells of two pages of one kind, with `between` between them, onto as many pages as they need, as `pack` does. (Refusals
/// as for `splice`.)
pub fn join<'a>(alloc: Global, left: &'a [u8], between: &[&'a [u8]], right: &'a [u8]) -> R<Packed>
    ensures joined { Joins left.now (map (λ cell. cell.now) between.now) right.now result }
    ensures refused { IfErr result (λ fault. (fault ≡ Fault.Memory)
        ⊎ ((fault ≡ Fault.Damaged Damage.Cell 0) ⊎ (fault ≡ Fault.Damaged Damage.Page 0))) }
{
    let first = TreePage::over(left, 0)?;
    let second = TreePage::over(right, 0)?;
    let all = cells_around(alloc, &first, first.len(), between, &second, 0)?;
    pack(
        alloc,
        &[],
        left.len(),
        first.kind(),
        second.last_child(),
        &all,
        false,
    )
}
