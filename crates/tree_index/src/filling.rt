//! Making an index's tree of entries that rise: leaves that are full, from left to right, and pages above them.

ghost use Rattle.std.specs.Prelude.{◌≡◌, ◌∷◌, [], map, IsTrue};
ghost use Rattle.pages.specs.Calls.{Causes};
ghost use Rattle.tree_index.specs.Filling.{MakesCells, PlantsLeaves, FillsTree};

use crate::cells::most_in;
use crate::flattening::{LEVELS, build_over};
use crate::freeing::new_tree;
use crate::growing::cells_in;
use pages::WritePages;
use record::encode_row;
use sqlval::{Many, R, Value};
use std::alloc::Global;
use tree_overflow::write_payload;
use tree_pack::{entry_cell, pack};
use tree_page::Kind;
use tree_store::{put_node, store};

/// The cell of an entry. What doesn't fit it is written on overflow pages. (`TooLong` if no record can hold the entry; what `write_payload`
/// refuses.)
fn cell_for<P: WritePages>(alloc: Global, pages: &mut P, entry: &[Value]) -> R<Vec<u8>>
    ensures made { IsTrue (P.Pages.tells (P.Pages.below pages.old))
        → MakesCells (λ cell. cell.items ∷ []) (P.Pages.map pages.old) (P.Pages.map pages.new)
        (P.Pages.limits (P.Pages.below pages.old)).page (entry.now ∷ []) result }
    ensures kept { P.Pages.below pages.new ≡ P.Pages.below pages.old }
    ensures causes { Causes result (P.Pages.failures pages.old) (P.Pages.failures pages.new)
        (P.Pages.count pages.new ≡ (P.Pages.limits (P.Pages.below pages.new)).most) }
{
    let encoded = encode_row(alloc, entry)?;
    let payload = encoded.as_slice();
    let most = most_in(pages.page_size());
    let held = write_payload(alloc, pages, most, payload)?;
    entry_cell(alloc, payload.len() as u64, held.as_slice())
}

/// The cells of entries, in order. (What `cell_for` refuses.)
fn cells_for<P: WritePages>(
    alloc: Global,
    pages: &mut P,
    entries: &[Many<Value>],
) -> R<Vec<Vec<u8>>>
    ensures made { IsTrue (P.Pages.tells (P.Pages.below pages.old))
        → MakesCells (λ cells. map (λ cell. cell.items) cells.items) (P.Pages.map pages.old)
        (P.Pages.map pages.new)
        (P.Pages.limits (P.Pages.below pages.old)).page entries.now result }
    ensures kept { P.Pages.below pages.new ≡ P.Pages.below pages.old }
    ensures causes { Causes result (P.Pages.failures pages.old) (P.Pages.failures pages.new)
        (P.Pages.count pages.new ≡ (P.Pages.limits (P.Pages.below pages.new)).most) }
{
    let mut cells = Vec::with_capacity(alloc, entries.len())?;
    'entries: for entry in entries {
        cells.push(cell_for(alloc, pages, entry.as_slice())?)?;
    }
    Ok(cells)
}

/// Puts cells of entries on as many leaves as they need, below a root that has none yet. (`Memory`; what `store` and `build_over` refuse.)
fn plant<P: WritePages>(alloc: Global, pages: &mut P, root: u32, cells: &[Vec<u8>]) -> R<()>
    ensures planted { IsTrue (P.Pages.tells (P.Pages.below pages.old))
        → PlantsLeaves (P.Pages.map pages.old) (P.Pages.map pages.new)
        (P.Pages.limits (P.Pages.below pages.old)).page root
        (map (λ cell. cell.items) cells.now) result }
    ensures kept { P.Pages.below pages.new ≡ P.Pages.below pages.old }
    ensures causes { Causes result (P.Pages.failures pages.old) (P.Pages.failures pages.new)
        (P.Pages.count pages.new ≡ (P.Pages.limits (P.Pages.below pages.new)).most) }
{
    let cells = cells_in(alloc, cells)?;
    let packed = pack(
        alloc,
        &[],
        pages.page_size(),
        Kind::IndexLeaf,
        None,
        cells.as_slice(),
        true,
    )?;
    if packed.pieces.is_empty() {
        return put_node(pages, root, packed.last.as_slice());
    }
    let fan = store(alloc, pages, &[], &packed)?;
    build_over(alloc, pages, root, &fan, LEVELS)
}

/// Makes a tree of entries that rise under the columns' collations, each once, and answers its root. (What `new_tree` and `write_payload`
/// refuse, and `TooLong` if no record can hold an entry. Pages that were taken before stay so.)
pub fn fill_tree<P: WritePages>(alloc: Global, pages: &mut P, entries: &[Many<Value>]) -> R<u32>
    ensures filled { IsTrue (P.Pages.tells (P.Pages.below pages.old))
        → FillsTree (P.Pages.map pages.old) (P.Pages.map pages.new)
        (P.Pages.limits (P.Pages.below pages.old)).page entries.now result }
    ensures kept { P.Pages.below pages.new ≡ P.Pages.below pages.old }
    ensures causes { Causes result (P.Pages.failures pages.old) (P.Pages.failures pages.new)
        (P.Pages.count pages.new ≡ (P.Pages.limits (P.Pages.below pages.new)).most) }
{
    let root = new_tree(alloc, pages)?;
    let cells = cells_for(alloc, pages, entries)?;
    plant(alloc, pages, root, cells.as_slice())?;
    Ok(root)
}
