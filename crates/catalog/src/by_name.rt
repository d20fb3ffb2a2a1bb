//! Tables that are found by their names, and by those of their indexes, by halves.

ghost use Rattle.std.specs.Prelude.{◌≡◌, ◌++◌, ◌∷◌, [], ℕ, List, IfErr, IfOk, IsTrue, OnErr, OnOk, length, option_map};
ghost use Rattle.std.specs.List.{find, insert, list_any};
ghost use Rattle.std.specs.List.Sorted.{IsSearchInRange};
ghost use Rattle.sqlval.specs.Faults.{IsOrMemory};
ghost use Rattle.catalog.specs.ByName.{AreByName, HasNameAt, IsGapOfName, Rise, compared_names, in_handles, table_name};
ghost use Rattle.catalog.specs.Listed as listed;
ghost use Rattle.catalog.specs.declared.tables.Table.{Table};

use crate::by_index::{IndexHandle, indexes_of_others, place_of_index, put_indexes};
use crate::handles::{
    handle_named, handles_copy, handles_replaced, is_index_named, other_handles, put_at,
};
use crate::tables::Table;
use sqlval::{Collation, Fault, Field, R, compare_fields};
use std::alloc::Global;
use std::cmp::Ordering;
use std::marker::Model;
use std::rc::Rc;

/// Tables in the order in which they are listed: contracts see these.
#[derive(Drop)]
pub(crate) struct Tables {
    listed: Vec<Rc<Table>>,
    /// The first table of each name, by rising name without the case of letters.
    by_name: Vec<Rc<Table>>,
    /// The indexes of all tables, by rising name in the same way.
    indexes: Vec<Rc<IndexHandle>>,
    /// Whether `by_name` and `indexes` are so. Else they aren't looked at, as where two tables or two indexes have one name.
    is_by_name: bool,
}

impl Model for Tables {
    ghost use Rattle.std.specs.Prelude.{IsTrue, List};
    ghost use Rattle.catalog.specs.ByIndex.{AreIndexesByName};
    ghost use Rattle.catalog.specs.ByName.{AreByName, in_handles};
    ghost use Rattle.catalog.specs.declared.tables.Table.{Table};

    ghost Value = { List Table };

    ghost use Rattle.std.specs.Coded.{codes};
    ghost use Rattle.query_terms.specs.Code.{tree_code};

    ghost coded = { Prim.hlevel (codes, tree_code) };

    ghost view = { λ t. in_handles t.listed.items };

    ghost invariant = { λ t. IsTrue t.is_by_name → AreByName (in_handles t.listed.items) (in_handles t.by_name.items)
        × AreIndexesByName (in_handles t.listed.items) (in_handles t.indexes.items) };
}

/// How two names compare, without the case of letters.
pub(crate) fn compare_names(one: &str, other: &str) -> Ordering
    ensures { result ≡ compared_names one.now other.now }
{
    compare_fields(Field::Text(one), Field::Text(other), Collation::NoCase)
}

/// The place of the table of a name among tables by rising name, or the place where it would go.
fn place_by_name(by_name: &[Rc<Table>], name: &str) -> Result<usize, usize>
    ensures within { IsSearchInRange result (length by_name.now) }
    ensures found { IfOk result (HasNameAt table_name name.now by_name.now) }
    ensures gap { Rise (in_handles by_name.now) → IfErr result (IsGapOfName table_name name.now by_name.now) }
{
    by_name.binary_search_by(|table| compare_names(table.name.as_str(), name))
}

/// The table of a name among tables by rising name.
fn found_among<'a>(by_name: &'a [Rc<Table>], name: &str) -> Option<&'a Rc<Table>>
    ensures { Rise (in_handles by_name.now) → option_map (λ t. t.now) result
        ≡ find (listed.is_shared name.now) by_name.now }
{
    match place_by_name(by_name, name) {
        Ok(place) => Some(&by_name[place]),
        Err(_) => None,
    }
}

/// Puts a table among tables by rising name, and answers true; or false where one of them has its name. (`Memory` alone.)
fn put_by_name(by_name: &mut Vec<Rc<Table>>, table: Rc<Table>) -> R<bool>
    ensures new { IfOk result (λ is_new. IsTrue is_new → (tables : List Table) (place : ℕ)
        → AreByName tables (in_handles by_name.old.items)
        → AreByName (insert tables place table.value) (in_handles by_name.new.items)) }
    ensures refused { IfErr result (λ fault. fault ≡ Fault.Memory) }
{
    match place_by_name(by_name.as_slice(), table.name.as_str()) {
        Ok(_) => Ok(false),
        Err(place) => {
            by_name.insert(place, table)?;
            Ok(true)
        }
    }
}

impl Tables {
    /// No tables.
    pub(crate) fn empty(alloc: Global) -> Tables
        ensures { result ≡ [] }
    {
        Tables {
            listed: Vec::new(alloc),
            by_name: Vec::new(alloc),
            indexes: Vec::new(alloc),
            is_by_name: true,
        }
    }

    /// Handles to the tables, as they are listed.
    pub(crate) fn as_slice(&self) -> &[Rc<Table>]
        ensures { in_handles result.now ≡ self.now }
    {
        self.listed.as_slice()
    }

    /// The first table of a name.
    pub(crate) fn find(&self, name: &str) -> Option<&Rc<Table>>
        ensures { option_map (λ t. t.now.value) result ≡ listed.table_named name.now self.now }
    {
        if self.is_by_name {
            found_among(self.by_name.as_slice(), name)
        } else {
            handle_named(self.listed.as_slice(), name)
        }
    }

    /// Whether one of the tables has an index of a name.
    pub(crate) fn has_index(&self, name: &str) -> bool
        ensures { result ≡ list_any (listed.has_index name.now) self.now }
    {
        if self.is_by_name {
            place_of_index(self.indexes.as_slice(), name).is_ok()
        } else {
            is_index_named(self.listed.as_slice(), name)
        }
    }

    /// Puts a table at a place, or after the last where there are fewer. An `Err` changes nothing. (`Memory` alone.)
    pub(crate) fn put(&mut self, alloc: Global, place: usize, table: Rc<Table>) -> R<()>
        ensures added { OnOk result (self.new ≡ insert self.old place table.value) }
        ensures unchanged { OnErr result (self.new ≡ self.old) }
        ensures refused { IfErr result (λ fault. fault ≡ Fault.Memory) }
    {
        let twin = table.clone()?;
        let was_by_name = self.is_by_name;
        self.is_by_name = false;
        let are_new = put_indexes(alloc, &mut self.indexes, &table)?;
        let is_new = put_by_name(&mut self.by_name, twin)?;
        put_at(&mut self.listed, place, table)?;
        self.is_by_name = was_by_name && are_new && is_new;
        Ok(())
    }

    /// Adds a table after the others. An `Err` changes nothing. (`Memory` alone.)
    pub(crate) fn push(&mut self, alloc: Global, table: Rc<Table>) -> R<()>
        ensures added { OnOk result (self.new ≡ self.old ++ table.value ∷ []) }
        ensures unchanged { OnErr result (self.new ≡ self.old) }
        ensures refused { IfErr result (λ fault. fault ≡ Fault.Memory) }
    {
        let end = self.as_slice().len();
        self.put(alloc, end, table)
    }

    /// The same tables. (`Memory` alone.)
    pub(crate) fn copy(&self, alloc: Global) -> R<Tables>
        ensures { IsOrMemory (λ copy. copy ≡ self.now) result }
    {
        Ok(Tables {
            listed: handles_copy(alloc, self.listed.as_slice())?,
            by_name: handles_copy(alloc, self.by_name.as_slice())?,
            indexes: handles_copy(alloc, self.indexes.as_slice())?,
            is_by_name: self.is_by_name,
        })
    }

    /// The tables that don't have this name. (`Memory` alone.)
    pub(crate) fn without(&self, alloc: Global, name: &str) -> R<Tables>
        ensures { IsOrMemory (λ left. left ≡ listed.without_table name.now self.now) result }
    {
        Ok(Tables {
            listed: other_handles(alloc, self.listed.as_slice(), name)?,
            by_name: other_handles(alloc, self.by_name.as_slice(), name)?,
            indexes: indexes_of_others(alloc, self.indexes.as_slice(), name)?,
            is_by_name: self.is_by_name,
        })
    }

    /// The tables with this one in place of those of its name. (`Memory` alone.)
    pub(crate) fn replacing(&self, alloc: Global, new: &Rc<Table>) -> R<Tables>
        ensures { IsOrMemory (λ replaced. replaced ≡ listed.with_replaced new.now.value self.now) result }
    {
        let is_listed = self.find(new.name.as_str()).is_some();
        let mut indexes = indexes_of_others(alloc, self.indexes.as_slice(), new.name.as_str())?;
        let are_new = put_indexes(alloc, &mut indexes, new)?;
        Ok(Tables {
            listed: handles_replaced(alloc, self.listed.as_slice(), new)?,
            by_name: handles_replaced(alloc, self.by_name.as_slice(), new)?,
            indexes,
            // Where no table has its name, its indexes are of no listed table.
            is_by_name: self.is_by_name && is_listed && are_new,
        })
    }
}
