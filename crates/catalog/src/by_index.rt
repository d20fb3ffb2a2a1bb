//! Indexes of tables that are found by their names, by halves.

ghost use Rattle.std.specs.Prelude.{◌≡◌, IfErr, IfOk, IsTrue, length};
ghost use Rattle.std.specs.List.Sorted.{IsSearchInRange};
ghost use Rattle.catalog.specs.ByIndex.{AreMore, any_of, index_name, indexes_elsewhere};
ghost use Rattle.catalog.specs.ByName.{HasNameAt, IsGapOfName, RiseBy, in_handles};

use crate::by_name::compare_names;
use crate::tables::Table;
use sqlval::{Fault, R};
use std::alloc::Global;
use std::rc::Rc;

/// Stands for the index at a place of a table.
#[derive(Drop)]
pub(crate) struct IndexHandle {
    table: Rc<Table>,
    place: usize,
}

impl IndexHandle {
    /// The name of the index.
    fn name(&self) -> &str
        ensures { result.now ≡ index_name self.now }
    {
        match self.table.indexes.as_slice().get(self.place) {
            Some(index) => index.name.as_str(),
            None => "",
        }
    }
}

/// The place of the index of a name among indexes by rising name, or the place where it would go.
pub(crate) fn place_of_index(handles: &[Rc<IndexHandle>], name: &str) -> Result<usize, usize>
    ensures within { IsSearchInRange result (length handles.now) }
    ensures found { IfOk result (HasNameAt index_name name.now handles.now) }
    ensures gap { RiseBy index_name (in_handles handles.now) → IfErr result (IsGapOfName index_name name.now handles.now) }
{
    handles.binary_search_by(|handle| compare_names(handle.name(), name))
}

/// Puts an index among indexes by rising name, and answers true; or false where one of them has its name. (`Memory` alone.)
fn put_index(handles: &mut Vec<Rc<IndexHandle>>, handle: Rc<IndexHandle>) -> R<bool>
    ensures new { IfOk result (λ is_new. IsTrue is_new → AreMore (λ test. test handle.value.table.value (index_name handle.value))
        (in_handles handles.old.items) (in_handles handles.new.items)) }
    ensures refused { IfErr result (λ fault. fault ≡ Fault.Memory) }
{
    match place_of_index(handles.as_slice(), handle.name()) {
        Ok(_) => Ok(false),
        Err(place) => {
            handles.insert(place, handle)?;
            Ok(true)
        }
    }
}

/// Puts the indexes of a table among indexes by rising name, and answers true; or false where two of them have one name. (`Memory` alone.)
pub(crate) fn put_indexes(
    alloc: Global,
    handles: &mut Vec<Rc<IndexHandle>>,
    table: &Rc<Table>,
) -> R<bool>
    ensures new { IfOk result (λ are_new. IsTrue are_new → AreMore (λ test. any_of test table.now.value table.now.value.indexes)
        (in_handles handles.old.items) (in_handles handles.new.items)) }
    ensures refused { IfErr result (λ fault. fault ≡ Fault.Memory) }
{
    'indexes: for place in 0..table.indexes.len() {
        let table = table.clone()?;
        let handle = Rc::new(alloc, IndexHandle { table, place })?;
        if !put_index(handles, handle)? {
            return Ok(false);
        }
    }
    Ok(true)
}

/// Handles to the indexes of the tables that don't have this name. (`Memory` alone.)
pub(crate) fn indexes_of_others(
    alloc: Global,
    handles: &[Rc<IndexHandle>],
    name: &str,
) -> R<Vec<Rc<IndexHandle>>>
    ensures left { IfOk result (λ left. in_handles left.items
        ≡ indexes_elsewhere name.now (in_handles handles.now)) }
    ensures refused { IfErr result (λ fault. fault ≡ Fault.Memory) }
{
    let mut left = Vec::new(alloc);
    'handles: for handle in handles {
        if !handle.table.name.is_same(name) {
            left.push(handle.clone()?)?;
        }
    }
    Ok(left)
}
