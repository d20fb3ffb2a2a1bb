//! Runs a script of statements, failures and crashes on a database in memory, and writes what it shows.
#![tactic(auto)]

mod checks;
mod counted;
mod directives;
mod files;
mod replies;
mod runs;
mod sweeps;
mod trials;
mod ways;

use std::io;
use std::io::{Read, Write};
use std::process::ExitCode;
use trials::perform;

/// Exit status where the whole script ran.
const SUCCESS: u8 = 0;

/// Exit status where memory ran out.
const REFUSED: u8 = 1;

fn main(rt: HostRuntime) -> io::Result<ExitCode> {
    let alloc = rt.alloc();
    let mut script = Vec::new(alloc);
    rt.reader().read_to_end(&mut script)?;
    let mut shown = Vec::new(alloc);
    let status = match perform(alloc, &script, &mut shown) {
        Ok(()) => SUCCESS,
        Err(_) => REFUSED,
    };
    let mut output = rt.stdout();
    output.write_all(&shown)?;
    output.flush()?;
    Ok(ExitCode::from(status))
}
