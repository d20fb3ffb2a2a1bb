//! Rows as lines of a name and a value: the mode `line`.

ghost use Rattle.std.specs.Prelude.{◌≡◌, ◌++◌, ◌∷◌, OnOk, map, length, ◌≤◌};
ghost use Rattle.std.specs.List.{flat_map};
ghost use Rattle.shell.specs.Fields.{row_values};
ghost use Rattle.shell.specs.Pairs as spec;

use crate::bytes::{put_times, width};
use crate::cells::put_plain;
use sqlval::{Name, Row, Value};
use std::alloc::{AllocError, Global};

/// The width of the longest name, at least so much.
fn widest(least: usize, names: &[Name]) -> usize
    ensures { result ≡ spec.widest least names.now }
{
    let mut most = least;
    'names: for name in names {
        most = most.max(width(name.as_str().as_bytes()));
    }
    most
}

/// Writes a name, after the spaces that it leaves of a width.
fn put_right(out: &mut Vec<u8>, most: usize, name: &[u8]) -> Result<(), AllocError>
    ensures { OnOk result (out.new.items ≡ out.old.items ++ spec.right most name.now) }
{
    put_times(out, b' ', most.saturating_sub(width(name)))?;
    out.extend_from_slice(name)
}

/// Writes a name and a value as a line.
fn put_pair(
    alloc: Global,
    out: &mut Vec<u8>,
    most: usize,
    name: &[u8],
    value: &Value,
) -> Result<(), AllocError>
    ensures { OnOk result (out.new.items ≡ out.old.items ++ spec.named_value most name.now value.now) }
{
    put_right(out, most, name)?;
    out.extend_from_slice(b" = ")?;
    put_plain(alloc, out, value)?;
    out.push(b'\n')?;
    Ok(())
}

/// Writes a line for each name and the value beside it.
fn put_pairs(
    alloc: Global,
    out: &mut Vec<u8>,
    most: usize,
    names: &[Name],
    row: &[Value],
) -> Result<(), AllocError>
    ensures { OnOk result (out.new.items ≡ out.old.items ++ spec.named_values most names.now row.now) }
{
    let mut names = names;
    let mut values = row;
    'columns: while let [name, other_names @ ..] = names {
        let [value, other_values @ ..] = values else {
            return Ok(());
        };
        put_pair(alloc, out, most, name.as_str().as_bytes(), value)?;
        names = other_names;
        values = other_values;
    }
    Ok(())
}

/// Writes rows, each after an empty line.
fn put_others(
    alloc: Global,
    out: &mut Vec<u8>,
    names: &[Name],
    rows: &[Row],
) -> Result<(), AllocError>
    ensures { OnOk result (out.new.items ≡ out.old.items
        ++ flat_map (λ row. 10 ∷ spec.named_values (spec.widest 5 names.now) names.now row)
        (map row_values rows.now)) }
{
    let most = widest(5, names);
    'rows: for row in rows {
        out.push(b'\n')?;
        put_pairs(alloc, out, most, names, row.as_slice())?;
    }
    Ok(())
}

/// Writes rows, with an empty line between two.
pub fn put_paired(
    alloc: Global,
    out: &mut Vec<u8>,
    names: &[Name],
    rows: &[Row],
) -> Result<(), AllocError>
    ensures { OnOk result (out.new.items ≡ out.old.items
        ++ spec.paired names.now (map row_values rows.now)) }
{
    let [first, others @ ..] = rows else {
        return Ok(());
    };
    put_pairs(alloc, out, widest(5, names), names, first.as_slice())?;
    put_others(alloc, out, names, others)
}
