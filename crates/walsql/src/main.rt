//! Runs SQL statements on a database file and its log: each line of input is a connection number, a space and one statement.
#![tactic(auto)]

mod program;

pub use program::program;
use std::alloc::Global;
use std::io::{BufReader, BufWriter};
use std::process::ExitCode;
use std::{env, io};

fn main(rt: HostRuntime) -> io::Result<ExitCode> {
    let alloc = rt.alloc();
    let arguments: Vec<String> = env::args(&rt)?.collect(alloc)?;
    let mut input = BufReader::new(alloc, rt.reader())?;
    let mut output = BufWriter::new(alloc, rt.stdout())?;
    let mut errors = rt.stderr();
    let status = program(&rt, alloc, &arguments, &mut input, &mut output, &mut errors);
    Ok(ExitCode::from(status))
}
