//! The modes of output.

ghost use Rattle.std.specs.Prelude.{◌≡◌, ◌++◌, OnOk, map};
ghost use Rattle.shell.specs.Fields.{row_values};
ghost use Rattle.shell.specs.Output.{rows_text};

use crate::boxes::put_boxed;
use crate::fields::{Style, put_separated};
use crate::pairs::put_paired;
use sqlval::{Name, Row};
use std::alloc::{AllocError, Global};

/// How rows are written.
#[derive(Clone, Copy, PartialEq, Eq)]
pub enum Mode {
    /// Values with bars between them.
    List,
    /// Comma-separated values.
    Csv,
    /// Columns in a box.
    Table,
    /// A line for each value, with its name.
    Line,
    /// Literals of SQL with commas between them.
    Quote,
}

/// Writes rows and the names of their columns. Nothing is written of no rows; `table` and `line` have the names always.
pub fn put_rows(
    alloc: Global,
    out: &mut Vec<u8>,
    mode: Mode,
    headers: bool,
    names: &[Name],
    rows: &[Row],
) -> Result<(), AllocError>
    ensures { OnOk result (out.new.items ≡ out.old.items
        ++ rows_text mode headers names.now (map row_values rows.now)) }
{
    if rows.is_empty() {
        return Ok(());
    }
    match mode {
        Mode::List => put_separated(alloc, out, Style::Plain, headers, names, rows),
        Mode::Csv => put_separated(alloc, out, Style::Csv, headers, names, rows),
        Mode::Quote => put_separated(alloc, out, Style::Quoted, headers, names, rows),
        Mode::Table => put_boxed(alloc, out, names, rows),
        Mode::Line => put_paired(alloc, out, names, rows),
    }
}
