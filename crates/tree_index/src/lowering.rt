//! The root of an index's tree that lost an entry.

ghost use Rattle.std.specs.Prelude.{◌≡◌, [], length, IsTrue, IfSome};
ghost use Rattle.pages.specs.Calls.{Causes};
ghost use Rattle.tree_page.specs.Node.{Node, IsNode};
ghost use Rattle.tree_page.specs.Reading.{count_of, last_of};
ghost use Rattle.tree_index.specs.Flattening.{StoresTop};
ghost use Rattle.tree_index.specs.Lowering.{IsLone, TakesOver};

use crate::flattening::store_top;
use freelist::give;
use pages::WritePages;
use sqlval::R;
use std::alloc::Global;
use tree_pack::Packed;
use tree_page::TreePage;
use tree_store::put_node;

/// The one child of packed pages that are one interior page without cells.
fn lone_child(packed: &Packed) -> Option<u32>
    ensures lone { IfSome result (IsLone packed.now) }
    ensures only { (node : Node) → IsNode packed.now.last.items 0 node
        → length packed.now.pieces.items ≡ 0 → count_of node ≡ 0 → result ≡ last_of node }
{
    let Ok(page) = TreePage::over(packed.last.as_slice(), 0) else {
        return None;
    };
    if packed.pieces.is_empty() && page.len() == 0 {
        return page.last_child();
    }
    None
}

/// Gives a page the bytes of another, which is given back. (`Memory`, what `load`, `put` and `give` refuse.)
fn take_over<P: WritePages>(alloc: Global, pages: &mut P, number: u32, child: u32) -> R<()>
    ensures taken { IsTrue (P.Pages.tells (P.Pages.below pages.old))
        → TakesOver (P.Pages.map pages.old) (P.Pages.map pages.new)
        (P.Pages.limits (P.Pages.below pages.old)).page number child result }
    ensures kept { P.Pages.below pages.new ≡ P.Pages.below pages.old }
    ensures causes { Causes result (P.Pages.failures pages.old) (P.Pages.failures pages.new) ⊥ }
{
    pages.load(child)?;
    let page = pages.loaded().to_vec(alloc)?;
    put_node(pages, number, page.as_slice())?;
    give(alloc, pages, child)
}

/// Puts packed pages in place of a root, which keeps its number. Where they are one page over one child alone, the root takes over that
/// child's cells. A tree whose ways would have more than 20 pages is built anew. (What `take_over` and `store_top` refuse.)
pub(crate) fn settle<P: WritePages>(
    alloc: Global,
    pages: &mut P,
    root: u32,
    packed: &Packed,
    deep: bool,
) -> R<()>
    ensures settled { IsTrue (P.Pages.tells (P.Pages.below pages.old))
        → StoresTop (P.Pages.map pages.old) (P.Pages.map pages.new)
        (P.Pages.limits (P.Pages.below pages.old)).page root packed.now deep result }
    ensures kept { P.Pages.below pages.new ≡ P.Pages.below pages.old }
    ensures causes { Causes result (P.Pages.failures pages.old) (P.Pages.failures pages.new)
        (P.Pages.count pages.new ≡ (P.Pages.limits (P.Pages.below pages.new)).most) }
{
    match lone_child(packed) {
        Some(child) => take_over(alloc, pages, root, child),
        None => store_top(alloc, pages, root, packed, deep),
    }
}
