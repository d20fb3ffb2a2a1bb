//! The order of values.

ghost use Rattle.std.specs.Prelude.{◌≡◌};
ghost use Rattle.std.specs.Ordering.{nat_cmp};
ghost use Rattle.std.specs.Cmp.Lexicographic.{slice_cmp};
ghost use Rattle.sqlval.specs.Names.{folded};
ghost use Rattle.sqlval.specs.Fields.{value_of};
ghost use Rattle.sqlval.specs.Laws.{OrderIsTotal, EqualAreAlike, AlikeAreEqual};
ghost use Rattle.sqlval.specs.Order.{trimmed, seen_by, kind_of, order};

use crate::value::{Field, Value};
use std::cmp::Ordering;

/// How texts are compared.
#[derive(Clone, Copy, Debug, PartialEq, Eq)]
pub enum Collation {
    /// By their bytes.
    Binary,
    /// By their bytes, the 26 ASCII letters in lower case.
    NoCase,
    /// By their bytes, without the spaces at the end.
    RTrim,
}

fn compare_folded(a: &[u8], b: &[u8]) -> Ordering
    ensures { result ≡ slice_cmp nat_cmp (folded a.now) (folded b.now) }
{
    let mut left = a;
    let mut right = b;
    'pairs: loop {
        let Some((x, xs)) = left.split_first() else {
            return if right.is_empty() {
                Ordering::Equal
            } else {
                Ordering::Less
            };
        };
        let Some((y, ys)) = right.split_first() else {
            return Ordering::Greater;
        };
        if *x != *y {
            let order = x.to_ascii_lowercase().cmp(&y.to_ascii_lowercase());
            if order != Ordering::Equal {
                return order;
            }
        }
        left = xs;
        right = ys;
    }
}

fn without_end_spaces(text: &[u8]) -> &[u8]
    ensures { result.now ≡ trimmed text.now }
{
    let mut end = text.len();
    while end > 0 && text[end - 1] == b' ' {
        end -= 1;
    }
    &text[..end]
}

fn compare_texts(a: &[u8], b: &[u8], collation: Collation) -> Ordering
    ensures { result ≡ slice_cmp nat_cmp (seen_by collation a.now) (seen_by collation b.now) }
{
    match collation {
        Collation::Binary => a.cmp(&b),
        Collation::NoCase => compare_folded(a, b),
        Collation::RTrim => without_end_spaces(a).cmp(&without_end_spaces(b)),
    }
}

/// The order of values under a collation, wherever their bytes lie.
pub fn compare_fields(a: Field<'_>, b: Field<'_>, collation: Collation) -> Ordering
    ensures { result ≡ order collation (value_of a.entry) (value_of b.entry) }
{
    match (a, b) {
        (Field::Null, Field::Null) => Ordering::Equal,
        (Field::Int(m), Field::Int(n)) => m.cmp(&n),
        (Field::Text(s), Field::Text(t)) => compare_texts(s.as_bytes(), t.as_bytes(), collation),
        (Field::Blob(s), Field::Blob(t)) => s.cmp(&t),
        _ => kind(a).cmp(&kind(b)),
    }
}

/// The order of values under a collation.
pub fn compare(a: &Value, b: &Value, collation: Collation) -> Ordering
    ensures { result ≡ order collation a.now b.now }
{
    compare_fields(a.as_field(), b.as_field(), collation)
}

/// NULL, then integers, then texts, then blobs.
fn kind(value: Field<'_>) -> u8
    ensures { result ≡ kind_of (value_of value.entry) }
{
    match value {
        Field::Null => 0,
        Field::Int(_) => 1,
        Field::Text(_) => 2,
        Field::Blob(_) => 3,
    }
}

/// The order of values is total under each collation, and only what the collation can't tell apart has one place in it.
pub fn order_is_total()
    ensures total { OrderIsTotal }
    ensures equal { EqualAreAlike }
    ensures alike { AlikeAreEqual }
{}
