//! Lines of input.

ghost use Rattle.std.specs.Prelude.{◌≡◌, ◌≤◌, ◌+◌, ◌-◌, ◌++◌, All, IfOk, IfErr, OnOk, length, option_map, take};
ghost use Rattle.engine.specs.Lines.{HasPart, HasRead, IsInputRefusal, IsLineRefusal, IsNoLineFeed, IsInputLine, line_number_at, tail_of};

use sqlval::limits::MAX_STATEMENT_BYTES;
use sqlval::{Fault, Misuse, R};
use std::alloc::AllocError;
use std::io;
use std::io::{BufRead, ErrorKind};

/// What is kept of a line: a number, a space and one byte more than a statement may have.
const MAX_KEPT: usize = MAX_STATEMENT_BYTES + 4;

/// What stands after the bytes of a line that were read.
#[derive(Drop)]
enum Met {
    Nothing,
    LineFeed,
    End,
}

impl Met {
    /// The bytes that it takes.
    fn len(&self) -> usize
        ensures { result ≡ length (tail_of self.now) }
    {
        match self {
            Met::LineFeed => 1,
            _ => 0,
        }
    }
}

/// What an input that failed has shown: nothing where it was interrupted, and else it is refused.
fn not_shown(error: io::Error) -> R<Met>
    ensures met { IfOk result (λ met. met ≡ Met.Nothing) }
    ensures refused { IfErr result IsInputRefusal }
{
    match error.kind() {
        ErrorKind::Interrupted => Ok(Met::Nothing),
        ErrorKind::OutOfMemory => Err(Fault::Memory),
        _ => Err(Fault::Io),
    }
}

/// How many bytes of a line are shown, and what stands after them.
fn line_end(shown: &[u8]) -> (usize, Met)
    ensures within { result.0 + length (tail_of result.1) ≤ length shown.now }
    ensures line { All IsNoLineFeed (take result.0 shown.now) }
    ensures tail { take (result.0 + length (tail_of result.1)) shown.now
        ≡ take result.0 shown.now ++ tail_of result.1 }
    ensures end { (result.1 ≡ Met.End) → length shown.now ≡ 0 }
{
    if shown.is_empty() {
        return (0, Met::End);
    }
    let mut at = 0;
    'bytes: while at < shown.len() {
        if shown[at] == b'\n' {
            return (at, Met::LineFeed);
        }
        at += 1;
    }
    (shown.len(), Met::Nothing)
}

/// Keeps those bytes of a line that there is room for.
fn keep(line: &mut Vec<u8>, part: &[u8]) -> Result<(), AllocError>
    ensures { OnOk result (line.new.items ≡ line.old.items ++ take (65540 - length line.old.items) part.now) }
{
    let room = MAX_KEPT.saturating_sub(line.len());
    let kept = part.len().min(room);
    line.extend_from_slice(&part[..kept])
}

/// Reads what the input has at hand of a line, and says what it met after that.
fn read_part<I: BufRead>(input: &mut I, line: &mut Vec<u8>) -> R<Met>
    ensures part { IfOk result (λ met. HasPart met (I.remaining input.old)
        (I.remaining input.new) line.old.items line.new.items) }
    ensures refused { IfErr result IsInputRefusal }
{
    let shown = match input.fill_buf() {
        Ok(shown) => shown,
        Err(error) => return not_shown(error),
    };
    let (count, met) = line_end(shown);
    keep(line, &shown[..count])?;
    let read = count + met.len();
    input.consume(read);
    Ok(met)
}

/// Reads a line without its line feed, and of a long one the beginning. Answers whether there was one.
pub fn read_line<I: BufRead>(input: &mut I, line: &mut Vec<u8>) -> R<bool>
    ensures read { IfOk result (λ is_line. HasRead is_line (I.remaining input.old)
        (I.remaining input.new) line.new.items) }
    ensures refused { IfErr result IsInputRefusal }
{
    line.clear();
    'parts: for _ in 0..u64::MAX {
        match read_part(input, line)? {
            Met::Nothing => {}
            Met::LineFeed => return Ok(true),
            Met::End => return Ok(!line.is_empty()),
        }
    }
    Err(Fault::Io)
}

/// The connection's number and the statement's bytes.
#[tactic(auto, unfolding(crate::specs::Lines::line_number_at))]
fn split_number(line: &[u8]) -> Option<(u32, &[u8])>
    ensures { option_map (λ found. (found.0, found.1.now)) result ≡ line_number_at line.now }
{
    match line {
        [digit @ b'1'..=b'9', b' ', rest @ ..] => Some((u32::from(*digit - b'0'), rest)),
        [b'1', digit @ b'0'..=b'6', b' ', rest @ ..] => Some((10 + u32::from(*digit - b'0'), rest)),
        _ => None,
    }
}

/// The connection's number and the statement of a line.
pub fn split_line(line: &[u8]) -> R<(u32, &str)>
    ensures found { IfOk result (λ found. IsInputLine line.now found.0 found.1.now
        × (length found.1.now ≤ 65536)) }
    ensures refused { IfErr result (IsLineRefusal line.now) }
{
    let Some((connection, statement)) = split_number(line) else {
        return Err(Fault::Misuse(Misuse::InputLine));
    };
    if statement.len() > MAX_STATEMENT_BYTES {
        return Err(Fault::TooLong);
    }
    match str::from_utf8(statement) {
        Ok(text) => Ok((connection, text)),
        Err(_) => Err(Fault::Misuse(Misuse::InputLine)),
    }
}
