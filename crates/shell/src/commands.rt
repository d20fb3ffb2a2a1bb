//! The commands: lines that begin with a dot.

ghost use Rattle.std.specs.Prelude.{◌≡◌, ◌≤◌, length, not, drop, take};
ghost use Rattle.std.specs.List.{prefix_len};
ghost use Rattle.std.specs.Str.{IsTrimAscii};
ghost use Rattle.sql_lexer.specs.Bytes as lexed;
ghost use Rattle.shell.specs.Commands as spec;

use crate::bytes::is_space;
use crate::output::Mode;
use crate::words::lookup;

/// A command. A name or a file stands in the argument.
#[derive(Clone, Copy, PartialEq, Eq)]
pub enum Command {
    Help,
    Quit,
    Tables,
    Schema,
    Indexes,
    Mode(Mode),
    Headers(bool),
    Timer(bool),
    Read,
    Dump,
    /// The number of a connection, 1 to 16.
    Connection(u32),
    Checkpoint(Depth),
}

/// How far a checkpoint goes.
#[derive(Clone, Copy, PartialEq, Eq)]
pub enum Depth {
    Passive,
    Restart,
    Truncate,
}

/// What is wrong with a command.
#[derive(Clone, Copy, PartialEq, Eq)]
pub enum Mistake {
    /// No command has the word.
    Word,
    /// The command doesn't take the argument, or wants one.
    Argument,
}

/// The word of a command.
#[derive(Clone, Copy, PartialEq, Eq)]
pub enum Word {
    Help,
    Quit,
    Tables,
    Schema,
    Indexes,
    Mode,
    Headers,
    Timer,
    Read,
    Dump,
    Connection,
    Checkpoint,
}

const WORDS: [(&[u8], Word); 13] = [
    (b".help", Word::Help),
    (b".quit", Word::Quit),
    (b".exit", Word::Quit),
    (b".tables", Word::Tables),
    (b".schema", Word::Schema),
    (b".indexes", Word::Indexes),
    (b".mode", Word::Mode),
    (b".headers", Word::Headers),
    (b".timer", Word::Timer),
    (b".read", Word::Read),
    (b".dump", Word::Dump),
    (b".connection", Word::Connection),
    (b".checkpoint", Word::Checkpoint),
];

const MODES: [(&[u8], Mode); 5] = [
    (b"list", Mode::List),
    (b"csv", Mode::Csv),
    (b"table", Mode::Table),
    (b"line", Mode::Line),
    (b"quote", Mode::Quote),
];

const SWITCHES: [(&[u8], bool); 2] = [(b"on", true), (b"off", false)];

const CONNECTIONS: [(&[u8], u32); 16] = [
    (b"1", 1),
    (b"2", 2),
    (b"3", 3),
    (b"4", 4),
    (b"5", 5),
    (b"6", 6),
    (b"7", 7),
    (b"8", 8),
    (b"9", 9),
    (b"10", 10),
    (b"11", 11),
    (b"12", 12),
    (b"13", 13),
    (b"14", 14),
    (b"15", 15),
    (b"16", 16),
];

const DEPTHS: [(&[u8], Depth); 4] = [
    (b"", Depth::Passive),
    (b"passive", Depth::Passive),
    (b"restart", Depth::Restart),
    (b"truncate", Depth::Truncate),
];

/// How many bytes at the front are no spaces.
fn word_len(line: &[u8]) -> usize
    ensures value { result ≡ prefix_len (λ b. not (lexed.is_space b)) line.now }
    ensures within { result ≤ length line.now }
{
    let mut end = 0;
    'bytes: while end < line.len() && !is_space(line[end]) {
        end += 1;
    }
    end
}

/// The word at the front of a line, and what follows it, without the spaces before and after that.
pub fn split_command(line: &[u8]) -> (&[u8], &[u8])
    ensures word { result.0.now ≡ take (spec.word_len line.now) line.now }
    ensures argument { IsTrimAscii (drop (spec.word_len line.now) line.now) result.1.now }
{
    let len = word_len(line);
    (&line[..len], line[len..].trim_ascii())
}

/// A command that takes no argument.
fn alone(command: Command, argument: &[u8]) -> Result<Command, Mistake>
    ensures { result ≡ spec.without_argument command argument.now }
{
    match argument {
        [] => Ok(command),
        _ => Err(Mistake::Argument),
    }
}

/// A command that wants an argument.
fn with(command: Command, argument: &[u8]) -> Result<Command, Mistake>
    ensures { result ≡ spec.with_one command argument.now }
{
    match argument {
        [] => Err(Mistake::Argument),
        _ => Ok(command),
    }
}

/// The command that sets the mode of output.
fn mode_of(argument: &[u8]) -> Result<Command, Mistake>
    ensures { result ≡ spec.mode_command argument.now }
{
    match lookup(&MODES, argument) {
        Some(mode) => Ok(Command::Mode(mode)),
        None => Err(Mistake::Argument),
    }
}

/// The command that switches the headings of rows.
fn headers_of(argument: &[u8]) -> Result<Command, Mistake>
    ensures { result ≡ spec.headers_command argument.now }
{
    match lookup(&SWITCHES, argument) {
        Some(is_on) => Ok(Command::Headers(is_on)),
        None => Err(Mistake::Argument),
    }
}

/// The command that switches the timer.
fn timer_of(argument: &[u8]) -> Result<Command, Mistake>
    ensures { result ≡ spec.timer_command argument.now }
{
    match lookup(&SWITCHES, argument) {
        Some(is_on) => Ok(Command::Timer(is_on)),
        None => Err(Mistake::Argument),
    }
}

/// The command that changes the connection.
fn connection_of(argument: &[u8]) -> Result<Command, Mistake>
    ensures { result ≡ spec.connection_command argument.now }
{
    match lookup(&CONNECTIONS, argument) {
        Some(number) => Ok(Command::Connection(number)),
        None => Err(Mistake::Argument),
    }
}

/// The command that makes a checkpoint.
fn checkpoint_of(argument: &[u8]) -> Result<Command, Mistake>
    ensures { result ≡ spec.checkpoint_command argument.now }
{
    match lookup(&DEPTHS, argument) {
        Some(depth) => Ok(Command::Checkpoint(depth)),
        None => Err(Mistake::Argument),
    }
}

/// The command of a known word.
fn command_by(word: Word, argument: &[u8]) -> Result<Command, Mistake>
    ensures { result ≡ spec.command_by word argument.now }
{
    match word {
        Word::Help => alone(Command::Help, argument),
        Word::Quit => alone(Command::Quit, argument),
        Word::Tables => Ok(Command::Tables),
        Word::Schema => Ok(Command::Schema),
        Word::Indexes => Ok(Command::Indexes),
        Word::Mode => mode_of(argument),
        Word::Headers => headers_of(argument),
        Word::Timer => timer_of(argument),
        Word::Read => with(Command::Read, argument),
        Word::Dump => Ok(Command::Dump),
        Word::Connection => connection_of(argument),
        Word::Checkpoint => checkpoint_of(argument),
    }
}

/// The command that a word, with its dot, and an argument are; or what is wrong with them.
pub fn command_of(word: &[u8], argument: &[u8]) -> Result<Command, Mistake>
    ensures { result ≡ spec.command_of word.now argument.now }
{
    match lookup(&WORDS, word) {
        Some(word) => command_by(word, argument),
        None => Err(Mistake::Word),
    }
}
