//! A database as statements that make it anew.

use crate::objects::{Entry, entry_of, put_statement};
use disk::Disk;
use engine::{Engine, Rows};
use shell::{put_insert, put_name};
use sqlval::R;
use std::alloc::Global;

/// Writes the rows of a table as INSERTs.
fn put_table_rows<D: Disk + Drop>(
    alloc: Global,
    engine: &mut Engine<D>,
    connection: u32,
    out: &mut Vec<u8>,
    name: &str,
) -> R<()> {
    let mut text = Vec::new(alloc);
    text.extend_from_slice(b"SELECT * FROM ")?;
    put_name(alloc, &mut text, name)?;
    let Ok(text) = str::from_utf8(&text) else {
        return Ok(());
    };
    let rows = engine.execute(connection, text)?;
    for row in rows.as_slice() {
        put_insert(alloc, out, name, row.as_slice())?;
    }
    Ok(())
}

/// Writes the statements of a kind of object.
fn put_kind(out: &mut Vec<u8>, objects: &Rows, table: &str, kind: &str) -> R<()> {
    for row in objects.as_slice() {
        if let Some(entry) = entry_of(row) {
            if entry.kind == kind && entry.is_of(table) && entry.is_shown() {
                put_statement(out, &entry)?;
            }
        }
    }
    Ok(())
}

/// Whether an object is a table whose rows are written.
fn has_rows(entry: &Entry<'_>, table: &str) -> bool {
    entry.kind == "table" && entry.is_of(table) && entry.is_shown()
}

/// Writes the tables, each with its rows.
fn put_tables<D: Disk + Drop>(
    alloc: Global,
    engine: &mut Engine<D>,
    connection: u32,
    out: &mut Vec<u8>,
    objects: &Rows,
    table: &str,
) -> R<()> {
    for row in objects.as_slice() {
        if let Some(entry) = entry_of(row) {
            if has_rows(&entry, table) {
                put_statement(out, &entry)?;
                put_table_rows(alloc, engine, connection, out, entry.name)?;
            }
        }
    }
    Ok(())
}

/// Writes the statements that make a table, or the database, anew: tables with their rows, then indexes, views and triggers.
pub fn put_dump<D: Disk + Drop>(
    alloc: Global,
    engine: &mut Engine<D>,
    connection: u32,
    out: &mut Vec<u8>,
    table: &str,
) -> R<()> {
    let objects = engine.objects(connection)?;
    out.extend_from_slice(b"BEGIN TRANSACTION;\n")?;
    put_tables(alloc, engine, connection, out, &objects, table)?;
    put_kind(out, &objects, table, "index")?;
    put_kind(out, &objects, table, "view")?;
    put_kind(out, &objects, table, "trigger")?;
    out.extend_from_slice(b"COMMIT;\n")?;
    Ok(())
}
