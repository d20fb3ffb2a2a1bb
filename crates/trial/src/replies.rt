//! The replies to lines.

use crate::files::{Contents, Database, Schedules, open};
use engine::put_reply;
use sqlval::{Fault, R};
use std::alloc::Global;

/// A connection's number, from 1 to 16, or 0 where it is none.
fn connection(number: &[u8]) -> u32 {
    match number {
        [digit @ b'1'..=b'9'] => u32::from(*digit - b'0'),
        [b'1', digit @ b'0'..=b'6'] => 10 + u32::from(*digit - b'0'),
        _ => 0,
    }
}

/// The connection's number of a line, and its statement. A line that has none is one of connection 0, which the engine refuses as it
/// refuses such a line.
fn split_line(line: &str) -> (u32, &str) {
    match line.split_once(' ') {
        Some((number, statement)) => (connection(number.as_bytes()), statement),
        None => (0, ""),
    }
}

/// Writes the reply to a line. Answers why it is refused, or nothing where it isn't.
pub fn put_answer(
    alloc: Global,
    out: &mut Vec<u8>,
    database: &mut Database,
    line: &str,
) -> R<Option<Fault>> {
    let (connection, statement) = split_line(line);
    let reply = database.execute(connection, statement);
    put_reply(alloc, out, &reply)?;
    Ok(reply.err())
}

/// Writes the reply to a query, and closes the database.
fn put_query(alloc: Global, out: &mut Vec<u8>, database: Database, query: &str) -> R<()> {
    let mut database = database;
    put_answer(alloc, out, &mut database, query)?;
    Ok(())
}

/// Writes why files are refused.
fn put_refused(alloc: Global, out: &mut Vec<u8>, fault: Fault) -> R<()> {
    out.extend_from_slice(b"not opened: ")?;
    put_reply(alloc, out, &Err(fault))?;
    Ok(())
}

/// What files show: the reply to a query after they were opened, or why they are refused.
pub fn shown(alloc: Global, contents: &Contents, query: &str) -> R<Vec<u8>> {
    let mut out = Vec::new(alloc);
    match open(alloc, contents, Schedules::HEALTHY)? {
        Ok(database) => put_query(alloc, &mut out, database, query)?,
        Err(refused) => put_refused(alloc, &mut out, refused.fault)?,
    }
    Ok(out)
}

/// Writes the place, the page or the name that a refusal carries, if it has one.
pub fn put_detail(alloc: Global, out: &mut Vec<u8>, fault: &Fault) -> R<()> {
    let line = match fault {
        Fault::Syntax(place) => format!(in alloc; "at {place}\n")?,
        Fault::Damaged(_, page) => format!(in alloc; "page {page}\n")?,
        Fault::NoSuch(_, name) | Fault::Exists(name) | Fault::Ambiguous(name) => {
            let name = name.as_str();
            format!(in alloc; "name {name}\n")?
        }
        Fault::Raised(raised) => {
            let text = raised.text.as_str();
            format!(in alloc; "name {text}\n")?
        }
        _ => return Ok(()),
    };
    out.extend_from_slice(line.as_bytes())?;
    Ok(())
}
