//! Rows in a box: the mode `table`.

ghost use Rattle.std.specs.Prelude.{◌≡◌, ◌++◌, ◌∷◌, OnOk, IfOk, map};
ghost use Rattle.std.specs.List.{flat_map};
ghost use Rattle.shell.specs.Boxes as spec;
ghost use Rattle.shell.specs.Fields.{row_values};

use crate::bytes::{put_times, width};
use crate::cells::{cell_of, cell_width, heading_of, heading_width};
use sqlval::{Name, Row, Value};
use std::alloc::{AllocError, Global};

/// The widths of names.
fn name_widths(alloc: Global, names: &[Name]) -> Result<Vec<usize>, AllocError>
    ensures { IfOk result (λ found. found.items ≡ map spec.name_width names.now) }
{
    let mut found = Vec::new(alloc);
    'names: for name in names {
        found.push(heading_width(alloc, name.as_str().as_bytes())?)?;
    }
    Ok(found)
}

/// Widths that a row has room in too.
fn widened(alloc: Global, widths: &[usize], row: &[Value]) -> Result<Vec<usize>, AllocError>
    ensures { IfOk result (λ found. found.items ≡ spec.widened widths.now row.now) }
{
    let mut found = Vec::new(alloc);
    let mut widths = widths;
    let mut values = row;
    'columns: while let [width, other_widths @ ..] = widths {
        let [value, other_values @ ..] = values else {
            return Ok(found);
        };
        found.push(cell_width(alloc, value)?.max(*width))?;
        widths = other_widths;
        values = other_values;
    }
    Ok(found)
}

/// The widths of columns.
fn column_widths(alloc: Global, names: &[Name], rows: &[Row]) -> Result<Vec<usize>, AllocError>
    ensures { IfOk result (λ found. found.items
        ≡ spec.all_widened (map spec.name_width names.now) (map row_values rows.now)) }
{
    let mut widths = name_widths(alloc, names)?;
    'rows: for row in rows {
        widths = widened(alloc, &widths, row.as_slice())?;
    }
    Ok(widths)
}

/// Writes the line between parts of the box.
fn put_rule(out: &mut Vec<u8>, widths: &[usize]) -> Result<(), AllocError>
    ensures { OnOk result (out.new.items ≡ out.old.items ++ spec.rule widths.now) }
{
    out.push(b'+')?;
    'columns: for width in widths {
        out.extend_from_slice(b"--")?;
        put_times(out, b'-', *width)?;
        out.push(b'+')?;
    }
    out.push(b'\n')?;
    Ok(())
}

/// Writes a text with a space before it, and the spaces that it leaves of a width after it.
fn put_cell(out: &mut Vec<u8>, most: usize, text: &[u8]) -> Result<(), AllocError>
    ensures { OnOk result (out.new.items ≡ out.old.items ++ spec.left_cell most text.now) }
{
    out.push(b' ')?;
    out.extend_from_slice(text)?;
    put_times(out, b' ', most.saturating_sub(width(text)))?;
    out.extend_from_slice(b" |")
}

/// Writes a text in the middle of a width.
fn put_middle(out: &mut Vec<u8>, most: usize, text: &[u8]) -> Result<(), AllocError>
    ensures { OnOk result (out.new.items ≡ out.old.items ++ spec.middle_cell most text.now) }
{
    let room = most.saturating_sub(width(text));
    out.push(b' ')?;
    put_times(out, b' ', room / 2)?;
    out.extend_from_slice(text)?;
    put_times(out, b' ', room - room / 2)?;
    out.extend_from_slice(b" |")
}

/// Writes the values of a row, each in the width of its column.
fn put_cells(
    alloc: Global,
    out: &mut Vec<u8>,
    widths: &[usize],
    row: &[Value],
) -> Result<(), AllocError>
    ensures { OnOk result (out.new.items ≡ out.old.items ++ spec.cells widths.now row.now) }
{
    let mut widths = widths;
    let mut values = row;
    'columns: while let [width, other_widths @ ..] = widths {
        let [value, other_values @ ..] = values else {
            return Ok(());
        };
        let text = cell_of(alloc, value)?;
        put_cell(out, *width, &text)?;
        widths = other_widths;
        values = other_values;
    }
    Ok(())
}

/// Writes the names of columns, each in the middle of its column.
fn put_names(
    alloc: Global,
    out: &mut Vec<u8>,
    widths: &[usize],
    names: &[Name],
) -> Result<(), AllocError>
    ensures { OnOk result (out.new.items ≡ out.old.items ++ spec.titles widths.now names.now) }
{
    let mut widths = widths;
    let mut names = names;
    'columns: while let [width, other_widths @ ..] = widths {
        let [name, other_names @ ..] = names else {
            return Ok(());
        };
        let text = heading_of(alloc, name.as_str().as_bytes())?;
        put_middle(out, *width, &text)?;
        widths = other_widths;
        names = other_names;
    }
    Ok(())
}

/// Writes a row as a line of the box.
fn put_box_row(
    alloc: Global,
    out: &mut Vec<u8>,
    widths: &[usize],
    row: &[Value],
) -> Result<(), AllocError>
    ensures { OnOk result (out.new.items ≡ out.old.items ++ spec.box_row widths.now row.now) }
{
    out.push(b'|')?;
    put_cells(alloc, out, widths, row)?;
    out.push(b'\n')?;
    Ok(())
}

/// Writes the names of columns as a line of the box.
fn put_box_head(
    alloc: Global,
    out: &mut Vec<u8>,
    widths: &[usize],
    names: &[Name],
) -> Result<(), AllocError>
    ensures { OnOk result (out.new.items ≡ out.old.items ++ spec.box_head widths.now names.now) }
{
    out.push(b'|')?;
    put_names(alloc, out, widths, names)?;
    out.push(b'\n')?;
    Ok(())
}

/// Writes rows as lines of the box.
fn put_box_rows(
    alloc: Global,
    out: &mut Vec<u8>,
    widths: &[usize],
    rows: &[Row],
) -> Result<(), AllocError>
    ensures { OnOk result (out.new.items ≡ out.old.items
        ++ flat_map (spec.box_row widths.now) (map row_values rows.now)) }
{
    'rows: for row in rows {
        put_box_row(alloc, out, widths, row.as_slice())?;
    }
    Ok(())
}

/// Writes names and rows in a box whose columns have these widths.
fn put_box_of(
    alloc: Global,
    out: &mut Vec<u8>,
    widths: &[usize],
    names: &[Name],
    rows: &[Row],
) -> Result<(), AllocError>
    ensures { OnOk result (out.new.items ≡ out.old.items
        ++ spec.box_of widths.now names.now (map row_values rows.now)) }
{
    put_rule(out, widths)?;
    put_box_head(alloc, out, widths, names)?;
    put_rule(out, widths)?;
    put_box_rows(alloc, out, widths, rows)?;
    put_rule(out, widths)
}

/// Writes names and rows in a box.
pub fn put_boxed(
    alloc: Global,
    out: &mut Vec<u8>,
    names: &[Name],
    rows: &[Row],
) -> Result<(), AllocError>
    ensures { OnOk result (out.new.items ≡ out.old.items
        ++ spec.boxed names.now (map row_values rows.now)) }
{
    let widths = column_widths(alloc, names, rows)?;
    put_box_of(alloc, out, &widths, names, rows)
}
