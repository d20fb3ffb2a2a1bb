//! Lines of a script that begin with a point.

use crate::files::Which;
use crate::sweeps::{Kind, Sweep};
use crate::ways::Way;
use sqlval::R;
use std::alloc::Global;

/// What a crash picks of a file's versions.
#[derive(Drop)]
pub enum Picks {
    By(Way),
    Given(Vec<u32>),
}

impl Picks {
    /// The picks.
    pub fn as_slice(&self) -> &[u32] {
        match self {
            Picks::By(way) => way.picks(),
            Picks::Given(picks) => picks,
        }
    }
}

/// What a line of a script asks for.
#[derive(Drop)]
pub enum Directive {
    /// Make a database with pages of this size, and open it.
    Create(u32),
    /// Open the files as they stand.
    Open,
    /// Let this call of a file fail alone.
    Fail(Which, u64),
    /// Let a file fail from this call on.
    Stop(Which, u64),
    /// Let both files crash.
    Crash(Picks, Picks),
    /// Cut a file to a length.
    Cut(Which, usize),
    /// Write the lengths of both files.
    Lengths,
    /// Write the SHA-256 of both files.
    Sums,
    /// Write how many calls each file has had.
    Calls,
    /// Sweep over the calls of a file.
    Sweep(Sweep),
    /// Write what a refusal carries from now on.
    Details,
}

/// The directive of a line, or nothing if it is none.
pub fn directive_of(alloc: Global, line: &str) -> R<Option<Directive>> {
    let (name, rest) = match line.split_once(' ') {
        Some(parts) => parts,
        None => return Ok(plain_of(line)),
    };
    match name {
        ".crash" => crash_of(alloc, rest),
        ".sweep" => sweep_of(alloc, rest),
        ".create" => Ok(create_of(rest)),
        ".details" => Ok(details_of(rest)),
        _ => Ok(of_file(name, rest)),
    }
}

/// The directive of a word that stands alone.
fn plain_of(word: &str) -> Option<Directive> {
    match word {
        ".open" => Some(Directive::Open),
        ".len" => Some(Directive::Lengths),
        ".sums" => Some(Directive::Sums),
        ".calls" => Some(Directive::Calls),
        _ => None,
    }
}

/// `.create` with a size.
fn create_of(size: &str) -> Option<Directive> {
    match size.parse::<u32>() {
        Ok(size) => Some(Directive::Create(size)),
        Err(_) => None,
    }
}

/// `.details` with a word.
fn details_of(word: &str) -> Option<Directive> {
    match word {
        "on" => Some(Directive::Details),
        _ => None,
    }
}

/// A directive with a file and a number.
fn of_file(name: &str, rest: &str) -> Option<Directive> {
    let (file, number) = rest.split_once(' ')?;
    let which = Which::from_word(file)?;
    let Ok(number) = number.parse::<u64>() else {
        return None;
    };
    match name {
        ".fail" => Some(Directive::Fail(which, number)),
        ".stop" => Some(Directive::Stop(which, number)),
        ".cut" => Some(Directive::Cut(which, number as usize)),
        _ => None,
    }
}

/// `.crash` with two ways.
fn crash_of(alloc: Global, rest: &str) -> R<Option<Directive>> {
    let Some((first, second)) = rest.split_once(' ') else {
        return Ok(None);
    };
    let db = picks_of(alloc, first)?;
    let log = picks_of(alloc, second)?;
    match (db, log) {
        (Some(db), Some(log)) => Ok(Some(Directive::Crash(db, log))),
        _ => Ok(None),
    }
}

/// The picks of a way, or of numbers between commas.
fn picks_of(alloc: Global, text: &str) -> R<Option<Picks>> {
    if let Some(way) = Way::from_word(text) {
        return Ok(Some(Picks::By(way)));
    }
    let mut given = Vec::new(alloc);
    for part in text.split(',') {
        let Ok(pick) = part.parse::<u32>() else {
            return Ok(None);
        };
        given.push(pick)?;
    }
    Ok(Some(Picks::Given(given)))
}

/// `.sweep` with a kind, a file and a query.
fn sweep_of(alloc: Global, rest: &str) -> R<Option<Directive>> {
    let Some((kind, which, query)) = sweep_parts(rest) else {
        return Ok(None);
    };
    Ok(Some(Directive::Sweep(Sweep {
        kind,
        which,
        query: String::from_str(alloc, query)?,
        statements: Vec::new(alloc),
    })))
}

/// The kind, the file and the query.
fn sweep_parts(rest: &str) -> Option<(Kind, Which, &str)> {
    let (kind, rest) = rest.split_once(' ')?;
    let (file, query) = rest.split_once(' ')?;
    Some((Kind::from_word(kind)?, Which::from_word(file)?, query))
}
