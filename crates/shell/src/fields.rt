//! Rows as fields with a mark between them: the modes `list`, `csv` and `quote`.

ghost use Rattle.std.specs.Prelude.{◌≡◌, ◌++◌, ◌∷◌, OnOk, map};
ghost use Rattle.std.specs.List.{flat_map};
ghost use Rattle.shell.specs.Fields as spec;

use crate::cells::{put_between, put_csv, put_csv_value, put_literal, put_plain};
use sqlval::{Name, Row, Value};
use std::alloc::{AllocError, Global};

/// How a field is written, and what stands between and after fields.
#[derive(Clone, Copy, PartialEq, Eq)]
pub enum Style {
    /// Texts as they are, and bars between.
    Plain,
    /// Fields of CSV.
    Csv,
    /// Literals of SQL, and commas between.
    Quoted,
}

/// Writes a value as a field.
fn put_field(
    alloc: Global,
    out: &mut Vec<u8>,
    style: Style,
    value: &Value,
) -> Result<(), AllocError>
    ensures { OnOk result (out.new.items ≡ out.old.items ++ spec.field style value.now) }
{
    match style {
        Style::Plain => put_plain(alloc, out, value),
        Style::Csv => put_csv_value(alloc, out, value),
        Style::Quoted => put_literal(alloc, out, value),
    }
}

/// Writes a name as a field.
fn put_title(out: &mut Vec<u8>, style: Style, name: &[u8]) -> Result<(), AllocError>
    ensures { OnOk result (out.new.items ≡ out.old.items ++ spec.title style name.now) }
{
    match style {
        Style::Plain => out.extend_from_slice(name),
        Style::Csv => put_csv(out, name),
        Style::Quoted => put_between(out, b'\'', name),
    }
}

/// The mark between two fields.
fn mark(style: Style) -> u8
    ensures { result ≡ spec.field_mark style }
{
    match style {
        Style::Plain => b'|',
        _ => b',',
    }
}

/// Writes the end of a line.
fn put_end(out: &mut Vec<u8>, style: Style) -> Result<(), AllocError>
    ensures { OnOk result (out.new.items ≡ out.old.items ++ spec.line_end style) }
{
    if let Style::Csv = style {
        out.push(b'\r')?;
    }
    out.push(b'\n')?;
    Ok(())
}

/// Writes values as fields, each after a mark.
fn put_fields(
    alloc: Global,
    out: &mut Vec<u8>,
    style: Style,
    values: &[Value],
) -> Result<(), AllocError>
    ensures { OnOk result (out.new.items ≡ out.old.items
        ++ flat_map (λ next. spec.field_mark style ∷ spec.field style next) values.now) }
{
    'values: for value in values {
        out.push(mark(style))?;
        put_field(alloc, out, style, value)?;
    }
    Ok(())
}

/// Writes values as fields.
fn put_values(
    alloc: Global,
    out: &mut Vec<u8>,
    style: Style,
    row: &[Value],
) -> Result<(), AllocError>
    ensures { OnOk result (out.new.items ≡ out.old.items
        ++ spec.with_marks (spec.field_mark style) (spec.field style) row.now) }
{
    let [first, others @ ..] = row else {
        return Ok(());
    };
    put_field(alloc, out, style, first)?;
    put_fields(alloc, out, style, others)
}

/// Writes a row as a line.
fn put_row(alloc: Global, out: &mut Vec<u8>, style: Style, row: &[Value]) -> Result<(), AllocError>
    ensures { OnOk result (out.new.items ≡ out.old.items ++ spec.row_fields style row.now) }
{
    put_values(alloc, out, style, row)?;
    put_end(out, style)
}

/// Writes names as fields, each after a mark.
fn put_titles(out: &mut Vec<u8>, style: Style, names: &[Name]) -> Result<(), AllocError>
    ensures { OnOk result (out.new.items ≡ out.old.items
        ++ flat_map (λ next. spec.field_mark style ∷ spec.title style next) names.now) }
{
    'names: for name in names {
        out.push(mark(style))?;
        put_title(out, style, name.as_str().as_bytes())?;
    }
    Ok(())
}

/// Writes names as fields.
fn put_names(out: &mut Vec<u8>, style: Style, names: &[Name]) -> Result<(), AllocError>
    ensures { OnOk result (out.new.items ≡ out.old.items
        ++ spec.with_marks (spec.field_mark style) (spec.title style) names.now) }
{
    let [first, others @ ..] = names else {
        return Ok(());
    };
    put_title(out, style, first.as_str().as_bytes())?;
    put_titles(out, style, others)
}

/// Writes the names of the columns as a line.
fn put_heading(out: &mut Vec<u8>, style: Style, names: &[Name]) -> Result<(), AllocError>
    ensures { OnOk result (out.new.items ≡ out.old.items ++ spec.title_fields style names.now) }
{
    put_names(out, style, names)?;
    put_end(out, style)
}

/// Writes rows, each as a line.
fn put_lines(alloc: Global, out: &mut Vec<u8>, style: Style, rows: &[Row]) -> Result<(), AllocError>
    ensures { OnOk result (out.new.items ≡ out.old.items
        ++ flat_map (spec.row_fields style) (map spec.row_values rows.now)) }
{
    'rows: for row in rows {
        put_row(alloc, out, style, row.as_slice())?;
    }
    Ok(())
}

/// Writes rows, each as a line, after a line of names where they are asked for.
pub fn put_separated(
    alloc: Global,
    out: &mut Vec<u8>,
    style: Style,
    headers: bool,
    names: &[Name],
    rows: &[Row],
) -> Result<(), AllocError>
    ensures { OnOk result (out.new.items ≡ out.old.items
        ++ spec.separated style headers names.now (map spec.row_values rows.now)) }
{
    if headers {
        put_heading(out, style, names)?;
    }
    put_lines(alloc, out, style, rows)
}
