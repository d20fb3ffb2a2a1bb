//! Values that are lent or made.

ghost use Rattle.std.specs.Prelude.{◌≡◌, IfOk};
ghost use Rattle.sqlval.specs.Fields.{value_of};
ghost use Rattle.query_terms.specs.Rows.{datum};

use sqlval::{Field, Value};
use std::alloc::{AllocError, Global};

/// A value whose bytes a row or an expression lends, or one that was made.
#[derive(Drop)]
pub enum Datum<'a> {
    Lent(Field<'a>),
    Made(Value),
}

impl Datum<'_> {
    /// The value without a copy of its bytes.
    pub fn as_field(&self) -> Field<'_>
        ensures { value_of result ≡ datum self.now }
    {
        match self {
            Datum::Lent(field) => *field,
            Datum::Made(value) => value.as_field(),
        }
    }

    /// The value, copied where it is lent.
    pub fn into_value(self, alloc: Global) -> Result<Value, AllocError>
        ensures { IfOk result (λ v. v ≡ datum self.entry) }
    {
        match self {
            Datum::Lent(field) => field.to_value(alloc),
            Datum::Made(value) => Ok(value),
        }
    }
}
