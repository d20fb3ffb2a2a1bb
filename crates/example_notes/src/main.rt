//! Notes in a database that is held in memory: they are put in, and those of a subject are printed.
#![tactic(auto)]

mod notes;

use notes::notes_of;
use sqlval::Value;
use std::io::{self, Write};
use std::process::ExitCode;

fn main(rt: HostRuntime) -> io::Result<ExitCode> {
    let alloc = rt.alloc();
    let mut output = rt.stdout();
    let Ok(rows) = notes_of(alloc) else {
        return Ok(ExitCode::FAILURE);
    };
    for row in rows.as_slice() {
        if let [Value::Text(note)] = row.as_slice() {
            writeln!(output, "{}", note.as_str())?;
        }
    }
    Ok(ExitCode::SUCCESS)
}
