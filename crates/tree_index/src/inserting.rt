//! Putting an entry into an index's tree.

ghost use Rattle.std.specs.Prelude.{◌≡◌, ◌≤◌, IfOk, IsTrue, length};
ghost use Rattle.pages.specs.Calls.{Causes};
ghost use Rattle.tree_index.specs.Calls.{InsertsAlone, InsertsEntry, InsertsRun, PutsEntry};
ghost use Rattle.tree_index.specs.Entries.{key_in};

use crate::comparing::Key;
use crate::flattening::store_top;
use crate::freeing::WAYS;
use crate::growing::{Change, New, packed_below};
use crate::removing::with_first;
use pages::WritePages;
use record::encode_row;
use sqlval::{Collation, Many, R, Value};
use std::alloc::Global;

/// Puts an entry into the tree under this root, which keeps its number, and with it as many of the rest, in their order, as are put on the same leaf
/// in place: how many of these. None if there is one that equals the key: then nothing changes. A tree whose ways would have more than 20 pages is
/// built anew. (What the calls of pages refuse; `Damaged` for pages that are none of an index's tree.)
fn put_new<P: WritePages>(
    alloc: Global,
    pages: &mut P,
    root: u32,
    new: New<'_>,
    rest: &[Many<Value>],
) -> R<Option<usize>>
    ensures put { IsTrue (P.Pages.tells (P.Pages.below pages.old))
        → PutsEntry (P.Pages.map pages.old) (P.Pages.map pages.new)
        (P.Pages.limits (P.Pages.below pages.old)).page root
        new.entry.key.columns.now new.entry.key.values.now new.entry.payload.now rest.now result }
    ensures kept { P.Pages.below pages.new ≡ P.Pages.below pages.old }
    ensures causes { Causes result (P.Pages.failures pages.old) (P.Pages.failures pages.new)
        (P.Pages.count pages.new ≡ (P.Pages.limits (P.Pages.below pages.new)).most) }
{
    let mut scratch = Vec::new(alloc);
    match packed_below(alloc, pages, root, WAYS, new, rest, &mut scratch)? {
        Change::There => Ok(None),
        Change::Same(more) => Ok(Some(more)),
        Change::Spread(packed, deep) => {
            store_top(alloc, pages, root, &packed, deep)?;
            Ok(Some(0))
        }
    }
}

/// Puts an entry into the tree under this root. Answers `false` if the entry is there: then nothing changes. (`TooLong` if no record can hold
/// the entry; what `put_new` refuses.)
pub fn insert<P: WritePages>(
    alloc: Global,
    pages: &mut P,
    root: u32,
    columns: &[Collation],
    entry: &[Value],
) -> R<bool>
    ensures inserted { IsTrue (P.Pages.tells (P.Pages.below pages.old))
        → InsertsEntry (P.Pages.map pages.old) (P.Pages.map pages.new)
        (P.Pages.limits (P.Pages.below pages.old)).page root columns.now entry.now result }
    ensures kept { P.Pages.below pages.new ≡ P.Pages.below pages.old }
    ensures causes { Causes result (P.Pages.failures pages.old) (P.Pages.failures pages.new)
        (P.Pages.count pages.new ≡ (P.Pages.limits (P.Pages.below pages.new)).most) }
{
    let payload = encode_row(alloc, entry)?;
    let key = Key {
        columns,
        values: entry,
    };
    let payload = payload.as_slice();
    Ok(put_new(alloc, pages, root, New { key, payload }, &[])?.is_some())
}

/// The values of an entry's columns, without the rowid.
fn values_in<'a>(columns: &[Collation], entry: &'a [Value]) -> &'a [Value]
    ensures { result.now ≡ key_in columns.now entry.now }
{
    &entry[..columns.len().min(entry.len())]
}

/// Puts an entry into the tree under this root, unless one is there that has the values of its columns, whatever its rowid: then it answers
/// `false`, and nothing changes. The tree is gone down once. (As `insert`.)
pub fn insert_alone<P: WritePages>(
    alloc: Global,
    pages: &mut P,
    root: u32,
    columns: &[Collation],
    entry: &[Value],
) -> R<bool>
    ensures inserted { IsTrue (P.Pages.tells (P.Pages.below pages.old))
        → InsertsAlone (P.Pages.map pages.old) (P.Pages.map pages.new)
        (P.Pages.limits (P.Pages.below pages.old)).page root columns.now entry.now result }
    ensures kept { P.Pages.below pages.new ≡ P.Pages.below pages.old }
    ensures causes { Causes result (P.Pages.failures pages.old) (P.Pages.failures pages.new)
        (P.Pages.count pages.new ≡ (P.Pages.limits (P.Pages.below pages.new)).most) }
{
    let payload = encode_row(alloc, entry)?;
    let key = Key {
        columns,
        values: values_in(columns, entry),
    };
    let payload = payload.as_slice();
    Ok(put_new(alloc, pages, root, New { key, payload }, &[])?.is_some())
}

/// Puts the first of these entries into the tree under this root, and with it as many of those after it, in their order, as are put on the same leaf in
/// place: how many in all. Answers 0 if none is given or the first is there: then nothing changes. (As `insert`, of the first.)
pub fn insert_run<P: WritePages>(
    alloc: Global,
    pages: &mut P,
    root: u32,
    columns: &[Collation],
    entries: &[Many<Value>],
) -> R<usize>
    ensures inserted { IsTrue (P.Pages.tells (P.Pages.below pages.old))
        → InsertsRun (P.Pages.map pages.old) (P.Pages.map pages.new)
        (P.Pages.limits (P.Pages.below pages.old)).page root columns.now entries.now result }
    ensures within { IfOk result (λ count. count ≤ length entries.now) }
    ensures kept { P.Pages.below pages.new ≡ P.Pages.below pages.old }
    ensures causes { Causes result (P.Pages.failures pages.old) (P.Pages.failures pages.new)
        (P.Pages.count pages.new ≡ (P.Pages.limits (P.Pages.below pages.new)).most) }
{
    let Some((first, rest)) = entries.split_first() else {
        return Ok(0);
    };
    let encoded = encode_row(alloc, first.as_slice())?;
    let key = Key {
        columns,
        values: first.as_slice(),
    };
    let payload = encoded.as_slice();
    match put_new(alloc, pages, root, New { key, payload }, rest)? {
        Some(more) => Ok(with_first(more, entries.len())),
        None => Ok(0),
    }
}
