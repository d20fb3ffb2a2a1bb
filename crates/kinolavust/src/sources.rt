//! Where lines come from: the input, and files that `.read` names.

use sqlval::{Fault, R};
use std::alloc::Global;
use std::io::{BufRead, ErrorKind};

/// How many files may be read inside one another.
pub const MAX_NESTED: usize = 8;

/// A text whose lines are being read.
#[derive(Drop)]
pub struct Source {
    text: Vec<u8>,
    /// The place where the next line begins.
    at: usize,
}

impl Source {
    /// A text of which no line was read.
    pub fn new(text: Vec<u8>) -> Source {
        Source { text, at: 0 }
    }

    /// Puts the next line in place of what a buffer holds, with its line feed. Answers whether there was one.
    pub fn next_line(&mut self, line: &mut Vec<u8>) -> R<bool> {
        line.clear();
        let rest = self.text.get(self.at..).unwrap_or(&[]);
        let len = match rest.iter().position(|byte| *byte == b'\n') {
            Some(end) => end + 1,
            None => rest.len(),
        };
        line.extend_from_slice(&rest[..len])?;
        self.at = self.at.saturating_add(len);
        Ok(len > 0)
    }
}

/// Puts the next line of an input in place of what a buffer holds, with its line feed. Answers whether there was one.
pub fn read_line<I: BufRead>(input: &mut I, line: &mut Vec<u8>) -> R<bool> {
    line.clear();
    match input.read_until(b'\n', line) {
        Ok(len) => Ok(len > 0),
        Err(error) => match error.kind() {
            ErrorKind::OutOfMemory => Err(Fault::Memory),
            _ => Err(Fault::Io),
        },
    }
}
