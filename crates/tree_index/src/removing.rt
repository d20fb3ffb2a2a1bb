//! Taking an entry out of an index's tree.

ghost use Rattle.std.specs.Prelude.{◌≡◌, ◌<◌, ◌≤◌, ◌+◌, ◌-◌, length, IsTrue, IfOk};
ghost use Rattle.pages.specs.Calls.{Causes, Stays};
ghost use Rattle.tree_page.specs.Node.{Node, IsNode};
ghost use Rattle.tree_page.specs.Reading.{count_of};
ghost use Rattle.tree_index.specs.Calls.{RemovesEntry, RemovesRun};
ghost use Rattle.tree_index.specs.Removing.{CutsLeaf, FindsDepth, Lessens, Narrows, RemovesFirst, TakesAt};

use crate::cells::{child_of, len_of};
use crate::comparing::Key;
use crate::freeing::{WAYS, free_entry};
use crate::growing::fanned;
use crate::joining::{joined, parted};
use crate::lowering::settle;
use crate::placing::{Step, step_from};
use crate::taking::run_off;
use pages::{Pages, WritePages};
use sqlval::{Collation, Damage, Fault, Many, R, Value};
use std::alloc::Global;
use tree_pack::{Packed, splice};
use tree_page::TreePage;
use tree_store::{store, take_off};

/// What becomes of a page out of whose tree an entry is taken.
#[derive(Drop)]
pub(crate) enum Loss {
    /// There is no such entry: nothing has changed.
    Still,
    /// The page stays, and below it all is done: so many of the entries after the first are out too.
    Done(usize),
    /// The page gives way to these, which aren't stored yet.
    Spread(Packed),
}

/// How many pages stand below a page on a way from it. (`Damaged(Depth, number)` if there are more than `ways`; what `child_of` refuses.)
fn depth_below<P: Pages>(pages: &mut P, number: u32, ways: u32) -> R<u32>
    ensures found { IsTrue (P.Pages.tells (P.Pages.below pages.old))
        → FindsDepth (P.Pages.map pages.old) (P.Pages.limits (P.Pages.below pages.old)).page number
        ways result }
    ensures stays { Stays P.Pages.below P.Pages.map P.Pages.count P.Pages.failures result pages.old pages.new }
    ensures within { IfOk result (λ depth. depth ≤ ways) }
{
    let Some(child) = child_of(pages, number, 0)? else {
        return Ok(0);
    };
    if ways == 0 {
        return Err(Fault::Damaged(Damage::Depth, number));
    }
    Ok(depth_below(pages, child, ways - 1)? + 1)
}

/// Takes the entry at a place of a leaf out, and gives its overflow pages back: the cell is taken off the page where its bytes can be told as free;
/// else the leaf gives way to these pages, which aren't stored yet.
fn cut_leaf<P: WritePages>(
    alloc: Global,
    pages: &mut P,
    number: u32,
    place: usize,
) -> R<Option<Packed>>
    ensures cut { IsTrue (P.Pages.tells (P.Pages.below pages.old))
        → CutsLeaf (P.Pages.map pages.old) (P.Pages.map pages.new)
        (P.Pages.limits (P.Pages.below pages.old)).page number place result }
    ensures kept { P.Pages.below pages.new ≡ P.Pages.below pages.old }
    ensures causes { Causes result (P.Pages.failures pages.old) (P.Pages.failures pages.new) ⊥ }
{
    free_entry(alloc, pages, number, place)?;
    if take_off(alloc, pages, number, place)? {
        return Ok(None);
    }
    pages.load(number)?;
    let packed = splice(alloc, pages.loaded(), 0, place, 1, &[], None)?;
    Ok(Some(packed))
}

/// Takes the entry at a place of a leaf out, and, where the leaf stays in its place, those that `run_off` takes off it: what becomes of
/// the leaf.
fn cut_run<P: WritePages>(
    alloc: Global,
    pages: &mut P,
    number: u32,
    place: usize,
    columns: &[Collation],
    rest: &[Many<Value>],
) -> R<Loss>
    ensures taken { IsTrue (P.Pages.tells (P.Pages.below pages.old))
        → TakesAt (P.Pages.map pages.old) (P.Pages.map pages.new)
        (P.Pages.limits (P.Pages.below pages.old)).page number place 0 columns.now rest.now result }
    ensures kept { P.Pages.below pages.new ≡ P.Pages.below pages.old }
    ensures causes { Causes result (P.Pages.failures pages.old) (P.Pages.failures pages.new) ⊥ }
{
    if let Some(packed) = cut_leaf(alloc, pages, number, place)? {
        return Ok(Loss::Spread(packed));
    }
    Ok(Loss::Done(run_off(alloc, pages, number, place, columns, rest)?))
}

/// Takes the entry at a place of the top of a tree of this depth out, and from a leaf as many of the rest as `cut_run` does: what becomes of
/// that page. All pages below it are stored then.
fn taken_out<P: WritePages>(
    alloc: Global,
    pages: &mut P,
    number: u32,
    place: usize,
    depth: u32,
    columns: &[Collation],
    rest: &[Many<Value>],
) -> R<Loss>
    ensures taken { IsTrue (P.Pages.tells (P.Pages.below pages.old))
        → TakesAt (P.Pages.map pages.old) (P.Pages.map pages.new)
        (P.Pages.limits (P.Pages.below pages.old)).page number place depth columns.now rest.now result }
    ensures kept { P.Pages.below pages.new ≡ P.Pages.below pages.old }
    ensures causes { Causes result (P.Pages.failures pages.old) (P.Pages.failures pages.new)
        (P.Pages.count pages.new ≡ (P.Pages.limits (P.Pages.below pages.new)).most) }
{
    if depth == 0 {
        return cut_run(alloc, pages, number, place, columns, rest);
    }
    let packed = parted(alloc, pages, number, place, depth - 1)?;
    Ok(Loss::Spread(packed))
}

/// Whether packed pages are one page without cells.
fn is_bare(packed: &Packed) -> bool
    ensures alone { IsTrue result → length packed.now.pieces.items ≡ 0 }
    ensures empty { (node : Node) → IsNode packed.now.last.items 0 node → IsTrue result
        → count_of node ≡ 0 }
    ensures only { (node : Node) → IsNode packed.now.last.items 0 node
        → length packed.now.pieces.items ≡ 0 → count_of node ≡ 0 → IsTrue result }
{
    let Ok(page) = TreePage::over(packed.last.as_slice(), 0) else {
        return false;
    };
    packed.pieces.is_empty() && page.len() == 0
}

/// The place itself, or if it is after all, the last one.
fn place_within(place: usize, len: usize) -> usize
    ensures within { 1 ≤ len → result < len }
    ensures same { place < len → result ≡ place }
    ensures last { len ≤ place → result ≡ len - 1 }
{
    if place < len {
        place
    } else {
        len.saturating_sub(1)
    }
}

/// What becomes of an interior page when the child at a place of it, a tree of this depth, gives way to packed pages, which are stored. A
/// child without cells is joined with one beside it.
fn narrowed<P: WritePages>(
    alloc: Global,
    pages: &mut P,
    number: u32,
    place: usize,
    child: u32,
    packed: &Packed,
    depth: u32,
) -> R<Loss>
    ensures narrowed { IsTrue (P.Pages.tells (P.Pages.below pages.old))
        → Narrows (P.Pages.map pages.old) (P.Pages.map pages.new)
        (P.Pages.limits (P.Pages.below pages.old)).page number place child packed.now depth result }
    ensures kept { P.Pages.below pages.new ≡ P.Pages.below pages.old }
    ensures causes { Causes result (P.Pages.failures pages.old) (P.Pages.failures pages.new)
        (P.Pages.count pages.new ≡ (P.Pages.limits (P.Pages.below pages.new)).most) }
{
    let fan = store(alloc, pages, &[child], packed)?;
    if !fan.cells.is_empty() {
        pages.load(number)?;
        let spread = fanned(alloc, pages.loaded(), place, &fan)?;
        return Ok(Loss::Spread(spread));
    }
    if !is_bare(packed) {
        return Ok(Loss::Done(0));
    }
    let len = len_of(pages, number)?;
    if len == 0 {
        return Ok(Loss::Done(0));
    }
    let spread = joined(alloc, pages, number, place_within(place, len), depth)?;
    Ok(Loss::Spread(spread))
}

/// What becomes of the top of a tree of this depth when an entry is taken out of the tree, and with it as many of the rest as are taken off
/// the same leaf. All pages below it are stored then. (`Damaged(Depth, number)` if a way is longer.)
fn removed_below<P: WritePages>(
    alloc: Global,
    pages: &mut P,
    number: u32,
    depth: u32,
    key: Key<'_>,
    rest: &[Many<Value>],
    scratch: &mut Vec<u8>,
) -> R<Loss>
    ensures lessens { IsTrue (P.Pages.tells (P.Pages.below pages.old))
        → Lessens (P.Pages.map pages.old) (P.Pages.map pages.new)
        (P.Pages.limits (P.Pages.below pages.old)).page number depth
        key.entry.columns.now key.entry.values.now rest.now result }
    ensures kept { P.Pages.below pages.new ≡ P.Pages.below pages.old }
    ensures causes { Causes result (P.Pages.failures pages.old) (P.Pages.failures pages.new)
        (P.Pages.count pages.new ≡ (P.Pages.limits (P.Pages.below pages.new)).most) }
{
    let (place, child) = match step_from(pages, number, key, scratch)? {
        Step::Found(place) => {
            return taken_out(alloc, pages, number, place, depth, key.columns, rest);
        }
        Step::Here(_) => return Ok(Loss::Still),
        Step::Down(place, child) => (place, child),
    };
    if depth == 0 {
        return Err(Fault::Damaged(Damage::Depth, number));
    }
    let loss = removed_below(alloc, pages, child, depth - 1, key, rest, scratch)?;
    match loss {
        Loss::Spread(packed) => narrowed(alloc, pages, number, place, child, &packed, depth - 1),
        Loss::Done(more) => Ok(Loss::Done(more)),
        Loss::Still => Ok(Loss::Still),
    }
}

/// Takes the entry of a key out of the tree under this root, and with it as many of the rest, in their order, as are taken off the same leaf in
/// place: how many of these. None if there is no such entry: then nothing changes.
fn removed<P: WritePages>(
    alloc: Global,
    pages: &mut P,
    root: u32,
    key: Key<'_>,
    rest: &[Many<Value>],
) -> R<Option<usize>>
    ensures removed { IsTrue (P.Pages.tells (P.Pages.below pages.old))
        → RemovesFirst (P.Pages.map pages.old) (P.Pages.map pages.new)
        (P.Pages.limits (P.Pages.below pages.old)).page root
        key.entry.columns.now key.entry.values.now rest.now result }
    ensures kept { P.Pages.below pages.new ≡ P.Pages.below pages.old }
    ensures causes { Causes result (P.Pages.failures pages.old) (P.Pages.failures pages.new)
        (P.Pages.count pages.new ≡ (P.Pages.limits (P.Pages.below pages.new)).most) }
{
    let depth = depth_below(pages, root, WAYS)?;
    let mut scratch = Vec::new(alloc);
    match removed_below(alloc, pages, root, depth, key, rest, &mut scratch)? {
        Loss::Still => Ok(None),
        Loss::Done(more) => Ok(Some(more)),
        Loss::Spread(packed) => {
            settle(alloc, pages, root, &packed, depth == WAYS)?;
            Ok(Some(0))
        }
    }
}

/// Takes an entry out of the tree under this root, which keeps its number. Answers `false` if there is no such entry: then nothing changes.
/// A tree whose ways would have more than 20 pages then is built anew. (What the calls of pages refuse, `Full` among them: pages beside the
/// entry that are joined may need one more; `Damaged` for pages that are none of an index's tree.)
pub fn remove<P: WritePages>(
    alloc: Global,
    pages: &mut P,
    root: u32,
    columns: &[Collation],
    entry: &[Value],
) -> R<bool>
    ensures removed { IsTrue (P.Pages.tells (P.Pages.below pages.old))
        → RemovesEntry (P.Pages.map pages.old) (P.Pages.map pages.new)
        (P.Pages.limits (P.Pages.below pages.old)).page root columns.now entry.now result }
    ensures kept { P.Pages.below pages.new ≡ P.Pages.below pages.old }
    ensures causes { Causes result (P.Pages.failures pages.old) (P.Pages.failures pages.new)
        (P.Pages.count pages.new ≡ (P.Pages.limits (P.Pages.below pages.new)).most) }
{
    let key = Key {
        columns,
        values: entry,
    };
    Ok(removed(alloc, pages, root, key, &[])?.is_some())
}

/// The first, and so many more: at most `most` in all.
pub(crate) fn with_first(more: usize, most: usize) -> usize
    ensures counted { more < most → result ≡ more + 1 }
    ensures within { result ≤ most }
{
    more.saturating_add(1).min(most)
}

/// Takes the first of these entries out of the tree under this root, and with it as many of those after it, in their order, as lie whole on the
/// same leaf and are taken off it in place: how many in all. Answers 0 if none is given or the first isn't there: then nothing changes. (What
/// `remove` refuses.)
pub fn remove_run<P: WritePages>(
    alloc: Global,
    pages: &mut P,
    root: u32,
    columns: &[Collation],
    entries: &[Many<Value>],
) -> R<usize>
    ensures removed { IsTrue (P.Pages.tells (P.Pages.below pages.old))
        → RemovesRun (P.Pages.map pages.old) (P.Pages.map pages.new)
        (P.Pages.limits (P.Pages.below pages.old)).page root columns.now entries.now result }
    ensures within { IfOk result (λ count. count ≤ length entries.now) }
    ensures kept { P.Pages.below pages.new ≡ P.Pages.below pages.old }
    ensures causes { Causes result (P.Pages.failures pages.old) (P.Pages.failures pages.new)
        (P.Pages.count pages.new ≡ (P.Pages.limits (P.Pages.below pages.new)).most) }
{
    let Some((first, rest)) = entries.split_first() else {
        return Ok(0);
    };
    let key = Key {
        columns,
        values: first.as_slice(),
    };
    match removed(alloc, pages, root, key, rest)? {
        Some(more) => Ok(with_first(more, entries.len())),
        None => Ok(0),
    }
}
