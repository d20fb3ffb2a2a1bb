//! Calls that no statement makes: rows by falling rowid, changes by falling rowid and of rows that aren't there, entries that come
//! twice, and the check of an index's tree by itself.

use db_header::Header;
use pages::{MemPages, Pages, WritePages};
use sqlval::{Collation, Damage, Fault, R, Value};
use std::alloc::Global;
use std::test::*;
use tree_check::check_index_tree;
use tree_table::{RowChange, change_rows, get, insert, new_tree, remove};

/// How many rows the trees have. A cell of 100 bytes takes 104 with its pointer, so that four fit a leaf of 512.
const ROWS: i64 = 12;

/// The pages of a database without tables, of 512 bytes each: page 1 with an empty leaf after the header.
pub(crate) fn new_pages(alloc: Global) -> R<MemPages> {
    let mut pages = MemPages::new(alloc, 512, 65536);
    pages.grow()?;
    let mut first = Vec::new(alloc);
    first.extend_from_slice(&db_header::write(&Header::empty(512)))?;
    first.extend_from_slice(&[13, 0, 0, 0, 0, 2, 0, 0])?;
    first.resize(512, 0)?;
    pages.put(1, &first)?;
    Ok(pages)
}

/// Makes a tree of rows of 100 bytes, which are put in by falling rowid; answers its root.
fn grown(alloc: Global, pages: &mut MemPages) -> R<u32> {
    let root = new_tree(alloc, pages)?;
    let payload = vec![in alloc; 7; 100]?;
    for step in 0..ROWS {
        insert(alloc, pages, root, ROWS.saturating_sub(step), &payload)?;
    }
    Ok(root)
}

/// The byte at the beginning of a page.
fn kind_of(pages: &mut MemPages, number: u32) -> R<u8> {
    pages.load(number)?;
    Ok(pages.loaded().first().copied().unwrap_or(0))
}

#[test]
fn falling_rows_keep_the_root(rt: HostRuntime) -> Result<(), Fail> {
    let alloc = rt.alloc();
    let mut pages = new_pages(alloc)?;
    let root = grown(alloc, &mut pages)?;
    assert_eq!(rt; root, 2);
    assert_eq!(rt; kind_of(&mut pages, root)?, 5);
    assert_eq!(rt; insert(alloc, &mut pages, root, 7, &[1])?, false);
    assert_eq!(rt; insert(alloc, &mut pages, root, 13, &[1])?, true);
    Ok(())
}

#[test]
fn a_row_that_is_not_there_stays_out(rt: HostRuntime) -> Result<(), Fail> {
    let alloc = rt.alloc();
    let mut pages = new_pages(alloc)?;
    let root = new_tree(alloc, &mut pages)?;
    assert_eq!(rt; remove(alloc, &mut pages, root, 1)?, false);
    insert(alloc, &mut pages, root, 1, &[1])?;
    assert_eq!(rt; remove(alloc, &mut pages, root, 2)?, false);
    assert_eq!(rt; remove(alloc, &mut pages, root, 1)?, true);
    assert_eq!(rt; remove(alloc, &mut pages, root, 1)?, false);
    Ok(())
}

/// How long the payload of a row is after the changes, if it is there: each second row is removed, and of the others each third gets 600
/// bytes and each fifth none.
fn size_after(rowid: i64) -> Option<usize> {
    if rowid % 2 == 0 || rowid > ROWS {
        None
    } else if rowid % 3 == 0 {
        Some(600)
    } else if rowid % 5 == 0 {
        Some(0)
    } else {
        Some(100)
    }
}

/// The change of a row to what it is then.
fn change_of(alloc: Global, rowid: i64) -> R<RowChange> {
    let payload = match size_after(rowid) {
        None => None,
        Some(size) => Some(vec![in alloc; 9; size]?),
    };
    Ok(RowChange { rowid, payload })
}

/// The changes of all rows by rising rowid, and of two that aren't there.
fn changes(alloc: Global) -> R<Vec<RowChange>> {
    let mut changes = Vec::new(alloc);
    for rowid in 1..=ROWS {
        changes.push(change_of(alloc, rowid)?)?;
    }
    changes.push(change_of(alloc, 999)?)?;
    changes.push(RowChange {
        rowid: 1000,
        payload: Some(Vec::new(alloc)),
    })?;
    Ok(changes)
}

/// Whether the row of a rowid is as it is after the changes.
fn is_as_changed(alloc: Global, pages: &mut MemPages, root: u32, rowid: i64) -> R<bool> {
    let mut out = Vec::new(alloc);
    let there = get(pages, root, rowid, &mut out)?;
    Ok(match size_after(rowid) {
        None => !there,
        Some(size) => there && out.len() == size,
    })
}

/// Whether all rows are as they are after the changes, made by rising or by falling rowid.
fn are_made(alloc: Global, falling: bool) -> R<bool> {
    let mut pages = new_pages(alloc)?;
    let root = grown(alloc, &mut pages)?;
    let mut changes = changes(alloc)?;
    if falling {
        changes.reverse();
    }
    change_rows(alloc, &mut pages, root, &changes)?;
    let mut right = true;
    for rowid in 1..=1000 {
        right = right && is_as_changed(alloc, &mut pages, root, rowid)?;
    }
    Ok(right)
}

#[test]
fn runs_of_rows_are_changed(rt: HostRuntime) -> Result<(), Fail> {
    assert_eq!(rt; are_made(rt.alloc(), false)?, true);
    Ok(())
}

#[test]
fn changes_in_any_order_are_made(rt: HostRuntime) -> Result<(), Fail> {
    assert_eq!(rt; are_made(rt.alloc(), true)?, true);
    Ok(())
}

#[test]
fn an_entry_comes_and_goes_once(rt: HostRuntime) -> Result<(), Fail> {
    let alloc = rt.alloc();
    let mut pages = new_pages(alloc)?;
    let root = tree_index::new_tree(alloc, &mut pages)?;
    let entry = vec![in alloc; Value::Int(5), Value::Int(1)]?;
    let columns = [Collation::Binary];
    assert_eq!(rt;
        tree_index::insert(alloc, &mut pages, root, &columns, &entry)?,
        true
    );
    assert_eq!(rt;
        tree_index::insert(alloc, &mut pages, root, &columns, &entry)?,
        false
    );
    assert_eq!(rt;
        tree_index::remove(alloc, &mut pages, root, &columns, &entry)?,
        true
    );
    assert_eq!(rt;
        tree_index::remove(alloc, &mut pages, root, &columns, &entry)?,
        false
    );
    Ok(())
}

/// Whether the check of an index's tree is refused for its order.
fn is_out_of_order(alloc: Global, pages: &mut MemPages, root: u32) -> R<bool> {
    let mut marks = Vec::new(alloc);
    marks.resize(pages.size() as usize + 1, false)?;
    match check_index_tree(alloc, pages, root, &[Collation::Binary], &mut marks) {
        Err(Fault::Damaged(Damage::Order, _)) => Ok(true),
        Err(fault) => Err(fault),
        Ok(()) => Ok(false),
    }
}

/// Puts a leaf of the numbers 6 and this one on a page.
fn put_numbers(alloc: Global, pages: &mut MemPages, number: u32, second: u8) -> R<()> {
    let mut page = Vec::new(alloc);
    page.extend_from_slice(&[10, 0, 0, 0, 2, 1, 244, 0, 1, 250, 1, 244])?;
    page.resize(500, 0)?;
    page.extend_from_slice(&[5, 3, 1, 1, second, 1])?;
    page.extend_from_slice(&[5, 3, 1, 1, 6, 1])?;
    pages.put(number, &page)
}

#[test]
fn an_entry_out_of_order_is_refused(rt: HostRuntime) -> Result<(), Fail> {
    let alloc = rt.alloc();
    let mut pages = new_pages(alloc)?;
    let root = tree_index::new_tree(alloc, &mut pages)?;
    put_numbers(alloc, &mut pages, root, 7)?;
    assert_eq!(rt; is_out_of_order(alloc, &mut pages, root)?, false);
    put_numbers(alloc, &mut pages, root, 5)?;
    assert_eq!(rt; is_out_of_order(alloc, &mut pages, root)?, true);
    Ok(())
}
