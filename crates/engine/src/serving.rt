//! Running lines of text.

ghost use Rattle.std.specs.Prelude.{◌≡◌, ◌++◌, IfErr, IfOk, OnOk, OnErr};
ghost use Rattle.std.specs.Io.KnownBytes.{Appends, Keeps};
ghost use Rattle.engine.specs.Lines.{IsInputRefusal};
ghost use Rattle.engine.specs.Output.{reply_text};
ghost use Rattle.engine.specs.Replies.{reply_of};
ghost use Rattle.engine.specs.Serving.{AnswersKept, AppendsPart, HasRun, HasRunInPart, HasServed, HasServedInPart, HasWritten};

use crate::lines::{read_line, split_line};
use crate::opening::Engine;
use crate::output::put_reply;
use disk::Disk;
use row_scan::Rows;
use sqlval::{Fault, R};
use std::alloc::Global;
use std::io::{BufRead, ErrorKind, Write};

/// Writes some bytes of a text, and returns the rest: the whole text if the output was interrupted.
fn write_some<'a, O: Write>(output: &mut O, text: &'a [u8]) -> R<&'a [u8]>
    ensures written { IfOk result (λ rest. HasWritten (O.contents output.old)
        (O.contents output.new) text.now rest.now) }
    ensures refused { OnErr result (Keeps (O.contents output.old) (O.contents output.new)) }
    ensures why { IfErr result IsInputRefusal }
{
    match output.write(text) {
        Ok(0) => Err(Fault::Io),
        Ok(count) => Ok(&text[count..]),
        Err(error) => {
            if error.kind() == ErrorKind::Interrupted {
                return Ok(text);
            }
            Err(Fault::Io)
        }
    }
}

/// Writes a text, or a beginning of it where the output fails.
fn write_text<O: Write>(output: &mut O, text: &[u8]) -> R<()>
    ensures written { OnOk result (Appends (O.contents output.old) (O.contents output.new) text.now) }
    ensures refused { OnErr result (AppendsPart (O.contents output.old) (O.contents output.new) text.now) }
    ensures why { IfErr result IsInputRefusal }
{
    let mut rest = text;
    'writes: for _ in 0..u64::MAX {
        if rest.is_empty() {
            return Ok(());
        }
        rest = write_some(output, rest)?;
    }
    Err(Fault::Io)
}

/// Writes a reply, or a beginning of it.
fn write_reply<O: Write>(
    alloc: Global,
    text: &mut Vec<u8>,
    output: &mut O,
    reply: &R<Rows>,
) -> R<()>
    ensures written { OnOk result (Appends (O.contents output.old) (O.contents output.new)
        (reply_text (reply_of reply.now))) }
    ensures refused { OnErr result (AppendsPart (O.contents output.old) (O.contents output.new)
        (reply_text (reply_of reply.now))) }
    ensures why { IfErr result IsInputRefusal }
{
    text.clear();
    put_reply(alloc, text, reply)?;
    write_text(output, text.as_slice())?;
    if output.flush().is_err() {
        return Err(Fault::Io);
    }
    Ok(())
}

impl<D: Disk + Drop> Engine<D> {
    ghost use Rattle.engine.specs.Failing.{MarksWhereCounted};

    /// The reply to a line: a connection's number, a space and a statement.
    fn answer(&mut self, line: &[u8]) -> R<Rows>
        ensures { AnswersKept self.old line.now (reply_of result) self.new }
    {
        if self.has_failed() {
            return Err(Fault::Failed);
        }
        let (connection, text) = split_line(line)?;
        self.execute(connection, text)
    }

    /// Executes lines until the input ends, and writes the reply to each. Then open transactions are dropped. `Memory`, or
    /// `Io` if the input or the output fails; what is written is then a beginning of the replies.
    pub fn run<I: BufRead, O: Write>(&mut self, input: &mut I, output: &mut O) -> R<()>
        ensures served { OnOk result (HasRun self.old (I.remaining input.old)
            (I.remaining input.new) (O.contents output.old)
            (O.contents output.new) self.new) }
        ensures refused { OnErr result (HasRunInPart self.old (I.remaining input.old)
            (O.contents output.old) (O.contents output.new) self.new) }
        ensures why { IfErr result IsInputRefusal }
        // The engine is marked as failed only where a call of a disk failed.
        ensures marked { MarksWhereCounted self.old self.new }
    {
        let result = self.serve(input, output);
        self.give_up();
        result
    }

    fn serve<I: BufRead, O: Write>(&mut self, input: &mut I, output: &mut O) -> R<()>
        ensures served { OnOk result (HasServed self.old (I.remaining input.old)
            (I.remaining input.new) (O.contents output.old)
            (O.contents output.new) self.new) }
        ensures refused { OnErr result (HasServedInPart self.old (I.remaining input.old)
            (O.contents output.old) (O.contents output.new) self.new) }
        ensures why { IfErr result IsInputRefusal }
    {
        let alloc = self.allocator();
        let mut line = Vec::new(alloc);
        let mut text = Vec::new(alloc);
        'lines: for _ in 0..u64::MAX {
            if !read_line(input, &mut line)? {
                return Ok(());
            }
            let reply = self.answer(&line);
            write_reply(alloc, &mut text, output, &reply)?;
        }
        Err(Fault::Io)
    }
}
