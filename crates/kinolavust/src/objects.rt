//! The objects of a database: its tables, indexes, views and triggers.

use engine::Rows;
use sqlval::{R, Row, Value};
use std::alloc::Global;

/// An object of the schema.
#[derive(Clone, Copy)]
pub struct Entry<'a> {
    /// `table`, `index`, `view` or `trigger`.
    pub kind: &'a str,
    pub name: &'a str,
    /// The name of its table.
    pub table: &'a str,
    /// The statement that creates it; none of an index of a key.
    pub text: Option<&'a str>,
}

/// The object of a row of the schema table.
pub fn entry_of(row: &Row) -> Option<Entry<'_>> {
    match row.as_slice() {
        [
            Value::Text(kind),
            Value::Text(name),
            Value::Text(table),
            _,
            text,
        ] => Some(Entry {
            kind: kind.as_str(),
            name: name.as_str(),
            table: table.as_str(),
            text: match text {
                Value::Text(text) => Some(text.as_str()),
                _ => None,
            },
        }),
        _ => None,
    }
}

/// Whether a text begins with another, in letters of any case.
fn begins_with(text: &str, start: &str) -> bool {
    match text.as_bytes().get(..start.len()) {
        Some(front) => front.eq_ignore_ascii_case(start.as_bytes()),
        None => false,
    }
}

impl Entry<'_> {
    /// Whether its statement is to be shown: not that of a table of SQLite's own.
    pub fn is_shown(&self) -> bool {
        !begins_with(self.name, "sqlite_")
    }

    /// Whether it is a table or a view whose name begins so.
    pub fn is_table(&self, start: &str) -> bool {
        (self.kind == "table" || self.kind == "view")
            && self.is_shown()
            && begins_with(self.name, start)
    }

    /// Whether it belongs to a table of this name, or any if it is empty.
    pub fn is_of(&self, table: &str) -> bool {
        table.is_empty() || self.table.eq_ignore_ascii_case(table)
    }

    /// Whether it is an index of a table of this name, or of any if it is empty.
    pub fn is_index(&self, table: &str) -> bool {
        self.kind == "index" && self.is_of(table)
    }
}

/// The names of the tables and views that begin so, in their order.
pub fn table_names<'a>(alloc: Global, objects: &'a Rows, start: &str) -> R<Vec<&'a str>> {
    let mut names = Vec::new(alloc);
    for row in objects.as_slice() {
        if let Some(entry) = entry_of(row) {
            if entry.is_table(start) {
                names.push(entry.name)?;
            }
        }
    }
    names.sort_unstable();
    Ok(names)
}

/// The names of the indexes of a table, or of all tables, in their order.
pub fn index_names<'a>(alloc: Global, objects: &'a Rows, table: &str) -> R<Vec<&'a str>> {
    let mut names = Vec::new(alloc);
    for row in objects.as_slice() {
        if let Some(entry) = entry_of(row) {
            if entry.is_index(table) {
                names.push(entry.name)?;
            }
        }
    }
    names.sort_unstable();
    Ok(names)
}

/// The statements that create the objects of a table, or all, each with a semicolon as a line.
pub fn put_schema(out: &mut Vec<u8>, objects: &Rows, table: &str) -> R<()> {
    for row in objects.as_slice() {
        if let Some(entry) = entry_of(row) {
            if entry.is_of(table) && entry.is_shown() {
                put_statement(out, &entry)?;
            }
        }
    }
    Ok(())
}

/// Writes the statement that creates an object, with a semicolon as a line.
pub fn put_statement(out: &mut Vec<u8>, entry: &Entry<'_>) -> R<()> {
    if let Some(text) = entry.text {
        out.extend_from_slice(text.as_bytes())?;
        out.extend_from_slice(b";\n")?;
    }
    Ok(())
}

/// Writes names, each as a line.
pub fn put_lines(out: &mut Vec<u8>, names: &[&str]) -> R<()> {
    for name in names {
        out.extend_from_slice(name.as_bytes())?;
        out.push(b'\n')?;
    }
    Ok(())
}
