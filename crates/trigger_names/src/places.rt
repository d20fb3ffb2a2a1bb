//! The columns that an INSERT gives values for, by their places.

ghost use Rattle.std.specs.Prelude.{◌≡◌, Some, length, true, IfErr, IfOk};
ghost use Rattle.std.specs.List.{range_with_len};
ghost use Rattle.sqlval.specs.Faults.{IsNotDiskFault, IsOrMemory};
ghost use Rattle.query_names.specs.Named.{NamesBy};
ghost use Rattle.row_change.specs.Changes.{insert_places, wanted};
ghost use Rattle.trigger_names.specs.Resolved.{values_for};

use query_bind::bind_places;
use query_names::ScopeSource;
use sqlval::{Many, Name, R};
use std::alloc::Global;

/// The first so many places. (`Memory` alone.)
fn first_places(alloc: Global, count: usize) -> R<Vec<usize>>
    ensures { IsOrMemory (λ places. places.items ≡ range_with_len 0 count) result }
{
    let mut places = Vec::new(alloc);
    'places: for place in 0..count {
        places.push(place)?;
    }
    Ok(places)
}

/// The places of the columns that an INSERT gives values for: of those that its list names, or of all. (`NoSuch`, `Ambiguous`, `Misuse`.)
pub fn value_places(
    alloc: Global,
    source: &ScopeSource,
    columns: &Option<Many<Name>>,
) -> R<Vec<usize>>
    ensures named { NamesBy (λ places. places.items) (insert_places source.now columns.now) result }
    ensures many { IfOk result (λ places. length places.items ≡ values_for source.now columns.now) }
    ensures not_disk { IfErr result IsNotDiskFault }
{
    match columns {
        Some(names) => bind_places(alloc, source, names.as_slice()),
        None => first_places(alloc, source.columns.len()),
    }
}

/// How many values each row of an INSERT is to have.
pub fn values_wanted(source: &ScopeSource, columns: &Option<Many<Name>>) -> usize
    ensures wanted { source.now.is_known ≡ true → wanted source.now columns.now ≡ Some result }
    ensures many { result ≡ values_for source.now columns.now }
{
    match columns {
        Some(names) => names.len(),
        None => source.columns.len(),
    }
}
