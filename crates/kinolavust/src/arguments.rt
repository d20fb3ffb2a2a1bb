//! The arguments of the command line.

use byteorder::{BigEndian, ByteOrder};
use clap::{Arg, ArgAction, ArgMatches, Command, value_parser};
use hex::FromHex;
use shell::{Mode, command_of};
use std::alloc::Global;
use wal_frame::Salts;

/// Page size of a new database without `--page-size`, in bytes.
const DEFAULT_PAGE_SIZE: u32 = 4096;

/// Text after the options in the help.
const AFTER_HELP: &str =
    "Statements end with a semicolon. A line that begins with a dot is a command: .help lists them.";

/// The program's options.
#[derive(Clone, Copy)]
pub struct ShellOptions<'a> {
    /// Page size of a new database, in bytes.
    pub page_size: u32,
    /// Salts of a new log.
    pub salts: Salts,
    /// Whether a database file of the older kind is turned into one in WAL mode.
    pub convert: bool,
    /// The mode of output, where one is asked for.
    pub mode: Option<Mode>,
    /// Whether list, csv and quote begin with the names of columns.
    pub headers: bool,
    /// Whether the first refusal ends the program.
    pub bail: bool,
    /// Name of the database file.
    pub name: &'a str,
    /// The statements to run in place of those of the input.
    pub sql: Option<&'a str>,
}

/// Why the arguments are refused.
#[derive(Debug, Drop)]
pub enum ArgsError<'a> {
    /// They don't match the usage, or ask for help.
    Usage(clap::Error),
    /// The value of `--salt`, which isn't 16 hexadecimal digits.
    Salt(&'a str),
    /// The value of `--mode`, which is no mode.
    Mode(&'a str),
}

impl<'a> From<clap::Error> for ArgsError<'a> {
    fn from(error: clap::Error) -> ArgsError<'a> {
        ArgsError::Usage(error)
    }
}

/// An option that takes a value.
fn value_arg<'a>(alloc: Global, name: &'a str, value: &'a str, help: &'a str) -> Arg<'a> {
    Arg::new(alloc, name)
        .long(name)
        .value_name(value)
        .help(help)
}

/// An option that takes none.
fn flag_arg<'a>(alloc: Global, name: &'a str, help: &'a str) -> Arg<'a> {
    Arg::new(alloc, name)
        .long(name)
        .action(ArgAction::SetTrue)
        .help(help)
}

/// The options of output.
fn with_output<'a>(alloc: Global, command: Command<'a>) -> Result<Command<'a>, clap::Error> {
    let mode =
        "How rows are written: list, csv, table, line or quote [default: table on a terminal, else list]";
    let command = command
        .arg(value_arg(alloc, "mode", "MODE", mode))?
        .arg(flag_arg(
            alloc,
            "headers",
            "Writes the names of columns in list, csv and quote too",
        ))?
        .arg(flag_arg(
            alloc,
            "no-headers",
            "Writes them in table and line alone, as without --headers",
        ))?
        .arg(flag_arg(alloc, "bail", "Ends at the first statement that is refused"))?;
    Ok(command)
}

/// The options of files.
fn with_files<'a>(alloc: Global, command: Command<'a>) -> Result<Command<'a>, clap::Error> {
    let size =
        "Page size in bytes of a new database: a power of two from 512 to 65536 [default: 4096]";
    let salt = "Salts of a new log: 16 hexadecimal digits [default: 0000000100000002]";
    let convert =
        "Turns a database file that isn't in WAL mode into one that is, before it is opened";
    let command = command
        .arg(value_arg(alloc, "page-size", "N", size).value_parser(value_parser!(u32)))?
        .arg(value_arg(alloc, "salt", "HEX", salt))?
        .arg(flag_arg(alloc, "convert", convert))?;
    Ok(command)
}

/// The command line that the program takes.
fn command<'a>(alloc: Global) -> Result<Command<'a>, clap::Error> {
    let command = Command::new(alloc, "kinolavust")
        .about("Runs SQL statements on an SQLite database in WAL mode, for people at a terminal.")
        .version("0.1.0")
        .after_help(AFTER_HELP);
    let name = Arg::new(alloc, "DB")
        .required(true)
        .action(ArgAction::Set)
        .help("Database file, created where it doesn't exist; its log is DB-wal");
    let sql = Arg::new(alloc, "SQL")
        .action(ArgAction::Set)
        .help("Statements to run in place of those of the input");
    let command = with_files(alloc, with_output(alloc, command)?)?
        .arg(name)?
        .arg(sql)?;
    Ok(command)
}

/// The salts that 16 hexadecimal digits spell.
fn salts_of<'a>(digits: Option<&'a str>) -> Result<Salts, ArgsError<'a>> {
    let Some(digits) = digits else {
        return Ok(Salts {
            first: 1,
            second: 2,
        });
    };
    match <[u8; 8] as FromHex>::from_hex(digits) {
        Ok(bytes) => Ok(Salts {
            first: BigEndian::read_u32(&bytes[..4]),
            second: BigEndian::read_u32(&bytes[4..]),
        }),
        Err(_) => Err(ArgsError::Salt(digits)),
    }
}

/// The page size that digits spell, or the default without digits.
fn page_size_of(digits: Option<&str>) -> u32 {
    match digits {
        Some(digits) => digits.parse::<u32>().unwrap_or(DEFAULT_PAGE_SIZE),
        None => DEFAULT_PAGE_SIZE,
    }
}

/// The mode that a name means.
fn mode_of<'a>(name: Option<&'a str>) -> Result<Option<Mode>, ArgsError<'a>> {
    let Some(name) = name else {
        return Ok(None);
    };
    match command_of(b".mode", name.as_bytes()) {
        Ok(shell::Command::Mode(mode)) => Ok(Some(mode)),
        _ => Err(ArgsError::Mode(name)),
    }
}

/// Whether this is the value of a flag that is set.
fn is_set(value: Option<&str>) -> bool {
    match value {
        Some(text) => text == "true",
        None => false,
    }
}

/// The options that the matches give.
fn options_of<'a>(matches: &ArgMatches<'a>) -> Result<ShellOptions<'a>, ArgsError<'a>> {
    let salts = salts_of(matches.get_str("salt"))?;
    let mode = mode_of(matches.get_str("mode"))?;
    Ok(ShellOptions {
        page_size: page_size_of(matches.get_str("page-size")),
        salts,
        convert: is_set(matches.get_str("convert")),
        mode,
        headers: is_set(matches.get_str("headers")) && !is_set(matches.get_str("no-headers")),
        bail: is_set(matches.get_str("bail")),
        name: matches.get_str("DB").unwrap_or(""),
        sql: matches.get_str("SQL"),
    })
}

/// The options that the arguments give; the first argument is the program's name.
pub fn options<'a>(
    alloc: Global,
    arguments: &'a [String],
) -> Result<ShellOptions<'a>, ArgsError<'a>> {
    let matches = command(alloc)?.try_get_matches_from(arguments)?;
    options_of(&matches)
}
