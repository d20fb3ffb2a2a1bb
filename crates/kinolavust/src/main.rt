//! A shell for people: SQL statements and commands of a terminal or a file, on a database file and its log.
#![tactic(auto)]

mod arguments;
mod dump;
mod headings;
mod interpreter;
mod objects;
mod opening;
mod program;
mod sources;
mod watched;

pub use program::{Terminals, program};
use std::alloc::Global;
use std::io::{BufReader, BufWriter, IsTerminal};
use std::process::ExitCode;
use std::{env, io};

fn main(rt: HostRuntime) -> io::Result<ExitCode> {
    let alloc = rt.alloc();
    let arguments: Vec<String> = env::args(&rt)?.collect(alloc)?;
    let terminals = Terminals {
        input: rt.stdin().is_terminal(),
        output: rt.stdout().is_terminal(),
        errors: rt.stderr().is_terminal(),
    };
    let mut input = BufReader::new(alloc, rt.reader())?;
    let output = BufWriter::new(alloc, rt.stdout())?;
    let status = program(
        &rt,
        alloc,
        &arguments,
        terminals,
        &mut input,
        output,
        rt.stderr(),
    );
    Ok(ExitCode::from(status))
}
