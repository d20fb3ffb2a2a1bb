//! Replies over an output that shows its bytes only where it is flushed.

use crate::databases::new_engine;
use sqlval::{Fault, R};
use std::alloc::Global;
use std::cell::Cell;
use std::io;
use std::io::{BufRead, ErrorKind, Read, Write};
use std::test::*;

/// An output that holds its bytes until a flush, or whose flushes fail.
#[derive(Drop)]
struct HeldOutput<'a> {
    held: Vec<u8>,
    flush_fails: bool,
    /// How many bytes were flushed.
    shown: &'a Cell<usize>,
}

impl<'a> Write for HeldOutput<'a> {
    fn write(&mut self, buf: &[u8]) -> io::Result<usize> {
        match self.held.extend_from_slice(buf) {
            Ok(()) => Ok(buf.len()),
            Err(_) => Err(ErrorKind::OutOfMemory.into()),
        }
    }

    fn flush(&mut self) -> io::Result<()> {
        if self.flush_fails {
            return Err(ErrorKind::Other.into());
        }
        self.shown.set(self.held.len());
        Ok(())
    }
}

/// An input that gives one line at a time, and notes how much of the output is shown before each.
#[derive(Drop)]
struct LineInput<'a> {
    rest: &'a [u8],
    shown: &'a Cell<usize>,
    seen: Vec<usize>,
}

impl<'a> LineInput<'a> {
    /// The first line of the rest, with its end.
    fn line(&self) -> &'a [u8] {
        'bytes: for at in 0..self.rest.len() {
            if self.rest[at] == b'\n' {
                return &self.rest[..at + 1];
            }
        }
        self.rest
    }
}

impl<'a> Read for LineInput<'a> {
    fn read(&mut self, buf: &mut [u8]) -> io::Result<usize> {
        let line = self.line();
        let count = line.len().min(buf.len());
        buf[..count].copy_from_slice(&line[..count]);
        self.consume(count);
        Ok(count)
    }
}

impl<'a> BufRead for LineInput<'a> {
    fn fill_buf(&mut self) -> io::Result<&[u8]> {
        let line = self.line();
        match self.seen.push(self.shown.get()) {
            Ok(()) => Ok(line),
            Err(_) => Err(ErrorKind::OutOfMemory.into()),
        }
    }

    fn consume(&mut self, amount: usize) {
        self.rest = &self.rest[amount.min(self.rest.len())..];
    }
}

/// Three lines, whose replies end after 3, 6 and 11 bytes.
const LINES: &[u8] = b"1 CREATE TABLE t(a)\n1 INSERT INTO t VALUES (1)\n1 SELECT a FROM t\n";

fn held(alloc: Global, flush_fails: bool, shown: &Cell<usize>) -> HeldOutput<'_> {
    HeldOutput {
        held: Vec::new(alloc),
        flush_fails,
        shown,
    }
}

/// Runs the lines on the empty database.
fn run<I: BufRead, O: Write>(alloc: Global, input: &mut I, output: &mut O) -> R<()> {
    let mut engine = new_engine(alloc)?;
    engine.run(input, output)
}

#[test]
fn each_reply_is_shown_before_the_next_line_is_read(rt: HostRuntime) -> Result<(), Fail> {
    let alloc = rt.alloc();
    let shown = Cell::new(0);
    let mut input = LineInput {
        rest: LINES,
        shown: &shown,
        seen: Vec::new(alloc),
    };
    let mut output = held(alloc, false, &shown);
    run(alloc, &mut input, &mut output)?;
    assert!(rt; output.held.as_slice() == b"ok\nok\n1\nok\n".as_slice());
    assert!(rt; input.seen.as_slice() == [0, 3, 6, 11].as_slice());
    Ok(())
}

#[test]
fn a_flush_that_fails_is_refused(rt: HostRuntime) -> Result<(), Fail> {
    let alloc = rt.alloc();
    let shown = Cell::new(0);
    let mut input = LINES;
    let mut output = held(alloc, true, &shown);
    assert!(rt; matches!(run(alloc, &mut input, &mut output), Err(Fault::Io)));
    assert!(rt; output.held.as_slice() == b"ok\n".as_slice());
    Ok(())
}
