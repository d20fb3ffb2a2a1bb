//! Where in an index the entries begin that are looked for.

ghost use Rattle.std.specs.Prelude.{◌≡◌, IfErr, IfOk, List, option_map};
ghost use Rattle.sqlval.specs.declared.collation.Collation.{Collation as CollationIs};
ghost use Rattle.tree_index.specs.Entries.{Entry};
ghost use Rattle.tree_index.specs.Scanning.{coming};
ghost use Rattle.row_search.specs.Finding as finding;

use crate::ranges::is_null;
use query_plan::{Bound, Range};
use sqlval::{Fault, R, Value};
use std::alloc::Global;
use tree_index::Cursor;

/// Copies of values. (`Memory`.)
fn copies_of(alloc: Global, values: &[Value]) -> R<Vec<Value>>
    ensures copied { IfOk result (λ copies. copies.items ≡ values.now) }
    ensures refused { IfErr result (λ fault. fault ≡ Fault.Memory) }
{
    let mut copies = Vec::with_capacity(alloc, values.len())?;
    'values: for value in values {
        copies.push(value.copy(alloc)?)?;
    }
    Ok(copies)
}

/// The value of a low end, NULL where there is none. (`Memory`.)
fn low_value(alloc: Global, low: &Option<Bound>) -> R<Value>
    ensures is { IfOk result (λ value. value ≡ finding.low_value low.now) }
    ensures refused { IfErr result (λ fault. fault ≡ Fault.Memory) }
{
    match low {
        Some(end) => Ok(end.value.copy(alloc)?),
        None => Ok(Value::Null),
    }
}

/// Whether what equals the value of a low end is before the range too: the end isn't in it, or is NULL.
fn passes_low(low: &Option<Bound>) -> bool
    ensures { result ≡ finding.passes_low low.now }
{
    match low {
        Some(end) => !end.within || is_null(end.value.as_field()),
        None => true,
    }
}

/// The place before the entries that begin with a key, and whose next value isn't before a range, if there is one. (`Memory`.)
pub(crate) fn seek(alloc: Global, root: u32, key: &[Value], range: Option<&Range>) -> R<Cursor>
    ensures root { IfOk result (λ cursor. cursor.root ≡ root) }
    ensures from { IfOk result (λ cursor. (columns : List CollationIs) (entries : List Entry)
        → coming cursor.ended cursor.after columns cursor.key.items entries
        ≡ finding.sought_from columns key.now (option_map (λ r. r.now) range.entry) entries) }
    ensures refused { IfErr result (λ fault. fault ≡ Fault.Memory) }
{
    let mut values = copies_of(alloc, key)?;
    let Some(range) = range else {
        return Ok(Cursor::seek(root, values));
    };
    values.push(low_value(alloc, &range.low)?)?;
    Ok(Cursor::new(root, values, passes_low(&range.low)))
}
