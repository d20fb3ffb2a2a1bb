//! What holds of the parts that counts make, whatever the cells say.

ghost use Rattle.std.specs.Prelude.{◌≡◌, ◌≤◌, ◌<◌, ◌+◌, ◌-◌, ◌*◌, ◌^◌, ℕ, ℤ, Bool, true, false, List, [], ◌∷◌, length, map, take};
ghost use Rattle.std.specs.List.{AllByRecursion};
ghost use Rattle.tree_pack.specs.Parts.{total, IsCut};
ghost use Rattle.tree_pack.specs.Building.{cell_room};
ghost use Rattle.tree_pack.specs.Filling.{AreWithin, BeginsAboutHalf};
ghost use Rattle.tree_pack.specs.Rows.{Rises, last_number, Parted, LieWithin};
ghost use Rattle.tree_page.specs.Cells.{IsTreePage};
ghost use Rattle.tree_page.specs.Node.{Local, Node, Rows, Keys, IsRowCell, IsKeyCell, IsEntryCell, IsBetweenCell};
ghost use Rattle.tree_pack.specs.Packing.{IsSmall, CanPack, AreOf, divider_bytes, Packs};
ghost use Rattle.tree_pack.specs.Lists.{parts_of, row_parts, fan, pieces, entry_parts, between, Side, side_parts, joined, side_pieces};

use crate::spreading::Packed;
use tree_page::Kind;

/// The parts of rows are the rows.
pub fn rows_are_joined<A, K>()
    ensures whole { (key : List A → K) (counts : List ℕ) (rows : List A)
        → fan (λ part. part) (row_parts key counts rows).0 (row_parts key counts rows).1 ≡ rows }
    ensures parts { (key : List A → K) (counts : List ℕ) (rows : List A)
        → pieces (row_parts key counts rows).0 (row_parts key counts rows).1 ≡ parts_of 0 counts rows }
{}

/// If the numbers of rows rise, those of each part do, from the key before it up to its own, which is its last number.
pub fn rows_are_parted<X>()
    ensures { (none low high : ℤ) (counts : List ℕ) (rows : List (ℤ × X))
        → LieWithin 0 counts (length rows) → Rises low rows high
        → Parted Rises low (row_parts (last_number none) counts rows).0
        (row_parts (last_number none) counts rows).1 high }
{}

/// The parts of an index's entries, with those that go up, are the entries.
pub fn entries_are_joined<A>()
    ensures whole { (counts : List ℕ) (items : List A)
        → between (entry_parts counts items).0 (entry_parts counts items).1 ≡ items }
    ensures parts { (room : ℕ) (rises : Bool) (sizes counts : List ℕ) (items : List A)
        → length sizes ≡ length items
        → IsCut 1 room rises sizes counts
        → pieces (entry_parts counts items).0 (entry_parts counts items).1 ≡ parts_of 1 counts items }
{}

/// The parts of children with their keys are these.
pub fn sides_are_joined<T, K>()
    ensures whole { (counts : List ℕ) (side : Side T K)
        → joined (side_parts counts side).0 (side_parts counts side).1 ≡ side }
    ensures parts { (room : ℕ) (rises : Bool) (sizes counts : List ℕ) (side : Side T K)
        → length sizes ≡ length side.0
        → IsCut 1 room rises sizes counts → side_pieces (side_parts counts side).0
        (side_parts counts side).1 ≡ parts_of 1 counts side.0 }
{}

/// The parts, each with what goes up after it, lie within the list.
pub fn parts_lie_within()
    ensures { (up room : ℕ) (rises : Bool) (sizes counts : List ℕ)
        → IsCut up room rises sizes counts → LieWithin up counts (length sizes) }
{}

/// No part is empty, but for the second one of a single cell.
pub fn parts_are_filled<A>()
    ensures { (up room : ℕ) (rises : Bool) (sizes counts : List ℕ) (items : List A)
        → length sizes ≡ length items → up + 2 ≤ length items
        → IsCut up room rises sizes counts → AllByRecursion (λ part. 1 ≤ length part)
        (parts_of up counts items) }
{}

/// What fits is one part, and nothing else is. If a cell is put after all others, the old ones stay; else the parts are about
/// half full. Mostly there are two.
pub fn parts_are_well_filled()
    ensures one { (up room : ℕ) (rises : Bool) (sizes : List ℕ) → up + 1 ≤ length sizes
        → IsCut up room rises sizes []
        → total sizes ≤ room }
    ensures rising { (up room : ℕ) (sizes counts : List ℕ) → up + 2 ≤ length sizes
        → room < total sizes
        → total (take (length sizes - up - 1) sizes) ≤ room → IsCut up room true sizes counts
        → counts ≡ (length sizes - up - 1) ∷ [] }
    ensures half { (up room most : ℕ) (sizes counts : List ℕ) → up + 2 ≤ length sizes
        → room < total sizes → AreWithin most sizes
        → IsCut up room false sizes counts → BeginsAboutHalf up room most sizes counts }
    ensures two { (up room most : ℕ) (rises : Bool) (sizes counts : List ℕ) → AreWithin most sizes
        → total sizes + most ≤ 2 * room → IsCut up room rises sizes counts → length counts ≤ 1 }
    ensures three { (up room : ℕ) (rises : Bool) (sizes counts : List ℕ) → total sizes ≤ 2 * room
        → IsCut up room rises sizes counts
        → length counts ≤ 2 }
{}

/// A part that has another after it overfills a page, with the cell that goes up or the first of the next part: so all
/// pages but the last have at most twice the room that the cells take, and no more than it where a cell goes up.
pub fn parts_are_few()
    ensures few { (up room : ℕ) (rises : Bool) (sizes counts : List ℕ)
        → IsCut up room rises sizes counts
        → room * length counts ≤ 2 * total sizes }
    ensures fewer { (up room : ℕ) (rises : Bool) (sizes counts : List ℕ) → 1 ≤ up
        → IsCut up room rises sizes counts
        → room * length counts ≤ total sizes }
{}

/// What divides the pages of a table is a key, of at most nine bytes.
pub fn keys_are_short()
    ensures rows { (kind : Kind) (page_size : ℕ) (front : List ℕ) (rises : Bool)
        (cells : List (List ℕ)) (rows : List (ℤ
        × Local)) (packed : Packed)
        → Packs kind page_size front rises cells (Rows rows) packed
        → AllByRecursion (λ bytes. length bytes ≤ 9) (divider_bytes packed) }
    ensures keys { (kind : Kind) (page_size : ℕ) (front : List ℕ) (rises : Bool)
        (cells : List (List ℕ)) (kids : List (ℕ
        × ℤ)) (last : ℕ) (packed : Packed)
        → Packs kind page_size front rises cells (Keys kids last) packed
        → AllByRecursion (λ bytes. length bytes ≤ 9) (divider_bytes packed) }
{}

/// The cells of the format are small from 512 bytes a page on, whatever spelling their numbers have, and so the cells of any
/// node can be packed; also on page 1, where the header of the database stands before the tree's.
pub fn cells_are_small()
    ensures row { (page_size : ℕ) (cell : List ℕ) (row : ℤ × Local) → 512 ≤ page_size
        → IsRowCell page_size cell row
        → IsSmall Kind.TableLeaf page_size cell }
    ensures key { (page_size start : ℕ) (cell : List ℕ) (kid : ℕ × ℤ) → 512 ≤ page_size
        → start ≤ 100
        → IsKeyCell cell kid → IsSmall Kind.TableInterior (page_size - start) cell }
    ensures entry { (page_size : ℕ) (cell : List ℕ) (entry : Local) → 512 ≤ page_size
        → IsEntryCell page_size cell entry → IsSmall Kind.IndexLeaf page_size cell }
    ensures between { (page_size : ℕ) (cell : List ℕ) (kid : ℕ × Local) → 512 ≤ page_size
        → IsBetweenCell page_size cell kid → IsSmall Kind.IndexInterior page_size cell }
    ensures all { (kind : Kind) (page_size start : ℕ) (right : List ℕ) (cells : List (List ℕ)) (node : Node)
        → 512 ≤ page_size → page_size ≤ 2 ^ 16 → start ≤ 100 → AreOf kind page_size right cells node
        → CanPack page_size start kind cells }
{}

/// The cells of a page, each with its pointer, lie on it beside the header.
pub fn cells_lie_on_pages()
    ensures { (kind : ℕ) (page : List ℕ) (start : ℕ) (right : List ℕ) (cells : List (List ℕ))
        → IsTreePage kind page start right cells
        → start + 8 + length right + total (map cell_room cells) ≤ length page }
{}
