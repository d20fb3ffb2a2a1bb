//! The arguments of the command line.

ghost use Rattle.std.specs.Prelude.{◌≡◌, ◌↔◌, IsTrue, IfOk, IfErr, MatchOption, codes, map, option_map, Some, true, false, string_bytes};
ghost use Rattle.clap.specs.Words.{app_of, first_value, found_of, kind_of, rule_of, takes};
ghost use Rattle.clap.specs.declared.error.ErrorKind.TheVariants.{OutOfMemory};
ghost use Rattle.walsql_args.specs.Settings.{AreSettings, Counts, IsRefusalOf, SpellsSalts, value_in, convert_rule, name_rule, page_size_rule, salt_rule, walsql, walsql_options};

use byteorder::{BigEndian, ByteOrder};
use clap::{Arg, ArgAction, ArgMatches, Command, value_parser};
use hex::FromHex;
use std::alloc::Global;
use wal_frame::Salts;

/// Page size of a new database without `--page-size`, in bytes.
const DEFAULT_PAGE_SIZE: u32 = 4096;

/// Text after the options in the help.
const AFTER_HELP: &str =
    "Each input line is a connection number (1 to 16), a space and one statement. A reply is its rows, one a line, then `ok`; or one line `error E18 Unique`.";

/// The program's options.
#[derive(Clone, Copy, Debug, PartialEq, Eq)]
pub struct StartOptions<'a> {
    /// Page size of a new database, in bytes.
    pub page_size: u32,
    /// Salts of a new log.
    pub salts: Salts,
    /// Whether a database file of the older kind is turned into one in WAL mode.
    pub convert: bool,
    /// Name of the database file.
    pub name: &'a str,
}

/// Why the arguments are refused.
#[derive(Debug, Drop)]
pub enum ArgsError<'a> {
    /// They don't match the usage, or ask for help.
    Usage(clap::Error),
    /// The value of `--salt`, which isn't 16 hexadecimal digits.
    Salt(&'a str),
}

impl<'a> From<clap::Error> for ArgsError<'a> {
    ghost use Rattle.walsql_args.specs.declared.arguments.ArgsError.TheVariants.{Usage};

    ghost from_gives = { λ error refused. refused ≡ Usage error };

    fn from(error: clap::Error) -> ArgsError<'a> {
        ArgsError::Usage(error)
    }
}

/// `--page-size N`.
fn page_size_arg<'a>(alloc: Global) -> Arg<'a>
    ensures rule { rule_of result ≡ page_size_rule }
    ensures local { result.global ≡ false }
{
    Arg::new(alloc, "page-size")
        .long("page-size")
        .value_name("N")
        .help(
            "Page size in bytes of a new database: a power of two from 512 to 65536 [default: 4096]",
        )
        .value_parser(value_parser!(u32))
}

/// `--salt HEX`.
fn salt_arg<'a>(alloc: Global) -> Arg<'a>
    ensures rule { rule_of result ≡ salt_rule }
    ensures local { result.global ≡ false }
{
    Arg::new(alloc, "salt").long("salt").value_name("HEX").help(
        "Salts of a new log: 16 hexadecimal digits [default: 0000000100000002]",
    )
}

/// `--convert`.
fn convert_arg<'a>(alloc: Global) -> Arg<'a>
    ensures rule { rule_of result ≡ convert_rule }
    ensures local { result.global ≡ false }
{
    Arg::new(alloc, "convert")
        .long("convert")
        .action(ArgAction::SetTrue)
        .help("Turns a database file that isn't in WAL mode into one that is, before it is opened")
}

/// `DB`.
fn name_arg<'a>(alloc: Global) -> Arg<'a>
    ensures rule { rule_of result ≡ name_rule }
    ensures local { result.global ≡ false }
{
    Arg::new(alloc, "DB")
        .required(true)
        .action(ArgAction::Set)
        .help("Database file, created where it doesn't exist; its log is DB-wal")
}

/// The command line that the program takes, as far as its options.
fn options<'a>(alloc: Global) -> Result<Command<'a>, clap::Error>
    ensures app { IfOk result (λ command. app_of command ≡ walsql_options) }
    ensures memory { IfErr result (λ error. kind_of error ≡ OutOfMemory) }
{
    let command = Command::new(alloc, "walsql")
        .about("Runs SQL statements from standard input on an SQLite database in WAL mode.")
        .after_help(AFTER_HELP)
        .arg(page_size_arg(alloc))?
        .arg(salt_arg(alloc))?
        .arg(convert_arg(alloc))?;
    Ok(command)
}

/// The command line that the program takes.
fn command<'a>(alloc: Global) -> Result<Command<'a>, clap::Error>
    ensures app { IfOk result (λ command. app_of command ≡ walsql) }
    ensures memory { IfErr result (λ error. kind_of error ≡ OutOfMemory) }
{
    Ok(options(alloc)?.arg(name_arg(alloc))?)
}

/// The salts that 16 hexadecimal digits spell.
fn salts_of<'a>(digits: &'a str) -> Result<Salts, ArgsError<'a>>
    ensures given { IfOk result (λ salts. SpellsSalts digits.now salts) }
    ensures refused { IfErr result (IsRefusalOf (Some digits.now)) }
{
    match <[u8; 8] as FromHex>::from_hex(digits) {
        Ok(bytes) => Ok(Salts {
            first: BigEndian::read_u32(&bytes[..4]),
            second: BigEndian::read_u32(&bytes[4..]),
        }),
        Err(_) => Err(ArgsError::Salt(digits)),
    }
}

/// The page size that digits spell, or the default without digits.
fn page_size_of(digits: Option<&str>) -> u32
    ensures { MatchOption (option_map (λ text. text.now) digits.entry) (result ≡ 4096)
        (λ text. Counts text result) }
{
    match digits {
        Some(digits) => digits.parse::<u32>().unwrap_or(DEFAULT_PAGE_SIZE),
        None => DEFAULT_PAGE_SIZE,
    }
}

/// The salts that digits spell, or the default without digits.
fn salts_or_first<'a>(digits: Option<&'a str>) -> Result<Salts, ArgsError<'a>>
    ensures given { IfOk result (λ salts. MatchOption (option_map (λ text. text.now) digits.entry)
        (salts ≡ record { first = 1; second = 2 }) (λ text. SpellsSalts text salts)) }
    ensures refused { IfErr result (λ refused. IsRefusalOf
        (option_map (λ text. text.now) digits.entry) refused) }
{
    match digits {
        Some(digits) => salts_of(digits),
        None => Ok(Salts {
            first: 1,
            second: 2,
        }),
    }
}

/// Whether this is the value of a flag that is set.
fn is_set(value: Option<&str>) -> bool
    ensures { IsTrue result ↔ (option_map (λ text. text.now) value.entry ≡ Some (codes "true")) }
{
    match value {
        Some(text) => text == "true",
        None => false,
    }
}

/// The options that the matches give.
fn settings_of<'a>(matches: &ArgMatches<'a>) -> Result<StartOptions<'a>, ArgsError<'a>>
    ensures given { IfOk result (λ options. AreSettings
        (first_value (found_of matches.now)) options.page_size options.salts options.convert options.name.now) }
    ensures refused { IfErr result (λ refused. IsRefusalOf
        (first_value (found_of matches.now) (codes "salt")) refused) }
{
    let salts = salts_or_first(matches.get_str("salt"))?;
    Ok(StartOptions {
        page_size: page_size_of(matches.get_str("page-size")),
        salts,
        convert: is_set(matches.get_str("convert")),
        name: matches.get_str("DB").unwrap_or(""),
    })
}

/// The options that the arguments give; the first argument is the program's name.
pub fn settings<'a>(
    alloc: Global,
    arguments: &'a [String],
) -> Result<StartOptions<'a>, ArgsError<'a>>
    // The options are those that the arguments match.
    ensures given { IfOk result (λ options. AreSettings
        (value_in (map string_bytes arguments.entry.now)) options.page_size options.salts options.convert options.name.now) }
    // Of arguments that match the usage, only a `--salt` other than 16 hexadecimal digits is refused, or memory runs out.
    ensures refused { takes walsql (map string_bytes arguments.entry.now) ≡ true
        → IfErr result (λ refused. IsRefusalOf
        (value_in (map string_bytes arguments.entry.now) (codes "salt")) refused) }
{
    let matches = command(alloc)?.try_get_matches_from(arguments)?;
    settings_of(&matches)
}
