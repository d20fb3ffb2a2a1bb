//! Keys of UNIQUE indexes: entries and rows that come alone, rows that change, and an index over rows of a table.

use crate::calls::new_pages;
use catalog::{IndexColumn, RowShape, TableRow};
use index_build::make_unique_index;
use index_entries::{add_alone, replace_alone};
use pages::MemPages;
use query_names::BoundSource;
use record::encode_row;
use sqlval::{Collation, Fault, R, Text, Value};
use std::alloc::Global;
use std::test::*;
use tree_index::{insert, insert_alone};

#[test]
fn an_entry_of_a_key_comes_alone(rt: HostRuntime) -> Result<(), Fail> {
    let alloc = rt.alloc();
    let mut pages = new_pages(alloc)?;
    let root = tree_index::new_tree(alloc, &mut pages)?;
    let columns = [Collation::Binary];
    let first = vec![in alloc; Value::Int(5), Value::Int(1)]?;
    let second = vec![in alloc; Value::Int(5), Value::Int(2)]?;
    assert_eq!(rt;
        insert_alone(alloc, &mut pages, root, &columns, &first)?,
        true
    );
    assert_eq!(rt;
        insert_alone(alloc, &mut pages, root, &columns, &second)?,
        false
    );
    assert_eq!(rt; insert(alloc, &mut pages, root, &columns, &second)?, true);
    Ok(())
}

/// A row of a text, or of NULL for an empty one.
fn row_of(alloc: Global, rowid: i64, text: &str) -> R<TableRow> {
    let value = if text.is_empty() {
        Value::Null
    } else {
        Value::Text(Text::from_str(alloc, text)?)
    };
    let values = vec![in alloc; value]?;
    Ok(TableRow { rowid, values })
}

/// The column of an index under NOCASE.
const FIRST: IndexColumn = IndexColumn {
    place: 0,
    collation: Collation::NoCase,
};

/// Puts the entry of a row into an index.
fn put_row(alloc: Global, pages: &mut MemPages, root: u32, rowid: i64, text: &str) -> R<bool> {
    let row = row_of(alloc, rowid, text)?;
    add_alone(alloc, pages, root, &[FIRST], &row)
}

/// Puts the entry of the row of rowid 2 in place of its old one.
fn set_row(alloc: Global, pages: &mut MemPages, root: u32, old: &str, new: &str) -> R<bool> {
    let gone = row_of(alloc, 2, old)?;
    let come = row_of(alloc, 2, new)?;
    replace_alone(alloc, pages, root, &[FIRST], &gone, &come)
}

#[test]
fn a_row_comes_where_it_clashes_with_none(rt: HostRuntime) -> Result<(), Fail> {
    let alloc = rt.alloc();
    let mut pages = new_pages(alloc)?;
    let root = tree_index::new_tree(alloc, &mut pages)?;
    assert_eq!(rt; put_row(alloc, &mut pages, root, 1, "a")?, true);
    assert_eq!(rt; put_row(alloc, &mut pages, root, 2, "A")?, false);
    assert_eq!(rt; put_row(alloc, &mut pages, root, 3, "")?, true);
    assert_eq!(rt; put_row(alloc, &mut pages, root, 4, "")?, true);
    Ok(())
}

#[test]
fn a_row_changes_where_it_clashes_with_none(rt: HostRuntime) -> Result<(), Fail> {
    let alloc = rt.alloc();
    let mut pages = new_pages(alloc)?;
    let root = tree_index::new_tree(alloc, &mut pages)?;
    put_row(alloc, &mut pages, root, 1, "a")?;
    put_row(alloc, &mut pages, root, 2, "b")?;
    assert_eq!(rt; set_row(alloc, &mut pages, root, "b", "B")?, true);
    assert_eq!(rt; set_row(alloc, &mut pages, root, "B", "B")?, true);
    assert_eq!(rt; set_row(alloc, &mut pages, root, "B", "A")?, false);
    Ok(())
}

/// Whether a UNIQUE index is made over rows of one number each.
fn is_made(alloc: Global, numbers: &[i64]) -> R<bool> {
    let mut pages = new_pages(alloc)?;
    let root = tree_table::new_tree(alloc, &mut pages)?;
    let mut rowid: i64 = 1;
    for number in numbers {
        let row = vec![in alloc; Value::Int(*number)]?;
        let payload = encode_row(alloc, &row)?;
        tree_table::insert(alloc, &mut pages, root, rowid, &payload)?;
        rowid = rowid.saturating_add(1);
    }
    let shape = RowShape {
        width: 1,
        own: None,
    };
    match make_unique_index(alloc, &mut pages, BoundSource { root, shape }, &[FIRST]) {
        Ok(_) => Ok(true),
        Err(Fault::Unique) => Ok(false),
        Err(fault) => Err(fault),
    }
}

#[test]
fn an_index_of_rows_that_clash_is_refused(rt: HostRuntime) -> Result<(), Fail> {
    let alloc = rt.alloc();
    assert_eq!(rt; is_made(alloc, &[3, 1, 2])?, true);
    assert_eq!(rt; is_made(alloc, &[3, 1, 2, 3])?, false);
    Ok(())
}
