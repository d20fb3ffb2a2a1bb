//! The last entry that a check has seen.

ghost use Rattle.std.specs.Prelude.{◌≡◌, IfOk, IsTrue};
ghost use Rattle.tree_check.specs.InOrder.{IsAfter};

use record::Record;
use sqlval::{Collation, Many, Value};
use std::alloc::{AllocError, Global};
use std::marker::Model;
use tree_index::{Key, compare_entry, compare_records};

/// Where an entry is: in its record on a page, or in a copy.
#[derive(Drop)]
enum Place<'a> {
    Lying(Record<'a>),
    Copied(Many<Value>),
}

/// The last entry that was seen, where it lies on its page, or a copy of its values: contracts see the values.
#[derive(Drop)]
pub(crate) struct LastEntry<'a> {
    place: Place<'a>,
}

impl<'a> Model for LastEntry<'a> {
    ghost use Rattle.std.specs.Prelude.{List};
    ghost use Rattle.sqlval.specs.declared.value.Value.{Value as Stored};
    ghost use Rattle.tree_check.specs.declared.last.Place.TheVariants.{Lying, Copied};

    ghost Value = { List Stored };

    ghost view = { λ last. elim last.place [
      | Lying lying ↦ lying
      | Copied values ↦ values
    ] };
}

/// Whether an entry comes after another, or that one has no values.
fn follows_record(columns: &[Collation], last: &Record<'_>, entry: &Record<'_>) -> bool
    ensures { (IsTrue result → IsAfter columns.now last.now entry.now)
        × (IsAfter columns.now last.now entry.now → IsTrue result) }
{
    if last.len() == 0 {
        return true;
    }
    compare_records(columns, last, entry).is_lt()
}

/// Whether an entry comes after one of these values, or there are none.
fn follows_values(columns: &[Collation], last: &[Value], entry: &Record<'_>) -> bool
    ensures { (IsTrue result → IsAfter columns.now last.now entry.now)
        × (IsAfter columns.now last.now entry.now → IsTrue result) }
{
    if last.is_empty() {
        return true;
    }
    let key = Key {
        columns,
        values: last,
    };
    compare_entry(key, entry).is_lt()
}

/// Copies of the values of a record.
pub(crate) fn copies_of(alloc: Global, entry: &Record<'_>) -> Result<Many<Value>, AllocError>
    ensures { IfOk result (λ copies. copies ≡ entry.now) }
{
    let mut copies = Vec::with_capacity(alloc, entry.len())?;
    'values: for place in 0..entry.len() {
        copies.push(entry.column(place).to_value(alloc)?)?;
    }
    Ok(Many::from_vec(copies))
}

impl<'a> LastEntry<'a> {
    /// The entry of a record.
    pub(crate) fn lying(entry: Record<'a>) -> LastEntry<'a>
        ensures { result ≡ entry.entry }
    {
        LastEntry {
            place: Place::Lying(entry),
        }
    }

    /// The entry of these values, which are none where no entry was seen.
    pub(crate) fn copied(values: Many<Value>) -> LastEntry<'a>
        ensures { result ≡ values }
    {
        LastEntry {
            place: Place::Copied(values),
        }
    }

    /// Whether an entry comes after it, or there is none.
    pub(crate) fn is_before(&self, columns: &[Collation], entry: &Record<'_>) -> bool
        ensures { (IsTrue result → IsAfter columns.now self.now entry.now)
            × (IsAfter columns.now self.now entry.now → IsTrue result) }
    {
        match &self.place {
            Place::Lying(last) => follows_record(columns, last, entry),
            Place::Copied(values) => follows_values(columns, values.as_slice(), entry),
        }
    }

    /// Its values. (`Memory` alone.)
    pub(crate) fn into_values(self, alloc: Global) -> Result<Many<Value>, AllocError>
        ensures { IfOk result (λ values. values ≡ self.entry) }
    {
        let LastEntry { place } = self;
        match place {
            Place::Lying(entry) => copies_of(alloc, &entry),
            Place::Copied(values) => Ok(values),
        }
    }
}
