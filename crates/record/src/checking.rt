//! The check of a row's record where it lies: each value is looked at once, from left to right, and none is kept.

ghost use Rattle.std.specs.Prelude.{◌≡◌, ◌↔◌, ◌++◌, ◌∷◌, [], IsTrue, false, true, List, length, All, Ok, Err, IfOk, IfErr, OnOk};
ghost use Rattle.std.specs.Str.{is_utf8};
ghost use Rattle.sqlval.specs.Sameness.{is_same_value};
ghost use Rattle.sqlval.specs.declared.value.Value.{Value};
ghost use Rattle.sqlval.specs.declared.value.Value.TheVariants.{Null};
ghost use Rattle.record.specs.declared.field.Wrong.{Wrong};
ghost use Rattle.record.specs.Record.{IsRecord};
ghost use Rattle.record.specs.Reading.{body_at, column_at, columns_at, fault_of, record_at};
ghost use Rattle.record.specs.Rows.{AreOfRow, IsRefusedInOrder, IsRowFault, has_null_at};
ghost use Rattle.record.specs.Writing.{IsStorable};

use crate::field::{Wrong, body_size};
use crate::row::halves_of;
use crate::varint::get_varint;
use sqlval::{Damage, Fault, Feature, R};

/// A value that was passed over: what is known of it, and what is left of the types and of the bodies.
#[derive(Clone, Copy)]
struct Passed<'a> {
    is_null: bool,
    is_storable: bool,
    types: &'a [u8],
    bodies: &'a [u8],
}

/// Whether bytes are UTF-8. Most texts are ASCII, which takes less to see.
fn is_text(body: &[u8]) -> bool
    ensures { result ≡ is_utf8 body.now }
{
    body.is_ascii() || str::from_utf8(body).is_ok()
}

/// Checks that there is a value of this type with this body. (As `read_body`.)
#[inline(always)]
#[tactic(auto, unfolding(crate::specs::Reading::body_at))]
fn check_body(serial: u64, body: &[u8]) -> Result<(), Wrong>
    ensures found { OnOk result ((value : Value) × (body_at serial body.now ≡ Ok value)) }
    ensures why { IfErr result (λ wrong. body_at serial body.now ≡ Err wrong) }
{
    match serial {
        7 => Err(Wrong::Float),
        10 | 11 => Err(Wrong::Broken),
        13.. if serial % 2 == 1 && !is_text(body) => Err(Wrong::Broken),
        _ => Ok(()),
    }
}

/// Passes over the first value. (As `read_field`, which makes it.)
#[inline(always)]
#[tactic(auto, unfolding(crate::specs::Reading::column_at))]
fn pass_value<'a>(types: &'a [u8], bodies: &'a [u8]) -> Result<Passed<'a>, Wrong>
    ensures found { IfOk result (λ passed. (value : Value)
        × (column_at types.now bodies.now ≡ Ok (value, passed.types.now, passed.bodies.now))
        × (passed.is_null ≡ is_same_value value Null)
        × (IsTrue passed.is_storable ↔ IsStorable value)) }
    ensures why { IfErr result (λ wrong. column_at types.now bodies.now ≡ Err wrong) }
{
    let Some((serial, types)) = get_varint(types) else {
        return Err(Wrong::Broken);
    };
    let size = body_size(serial);
    if (bodies.len() as u64) < size {
        return Err(Wrong::Broken);
    }
    let (body, bodies) = bodies.split_at(size as usize);
    check_body(serial, body)?;
    Ok(Passed {
        is_null: serial == 0,
        is_storable: size <= 1_000_000,
        types,
        bodies,
    })
}

/// What is known of the values that were looked at: how many they are, whether NULL stands at the place that is asked for, if one is, and whether
/// each can be stored.
#[derive(Clone, Copy)]
struct Seen {
    count: usize,
    has_null: bool,
    is_storable: bool,
}

/// Whether NULL stands at a place, if one is asked for, when one more value comes after so many.
#[inline(always)]
fn has_null_after(own: Option<usize>, count: usize, has_null: bool, is_null: bool) -> bool
    ensures { (values : List Value) (value : Value) → count ≡ length values
        → has_null ≡ has_null_at own values → is_null ≡ is_same_value value Null
        → result ≡ has_null_at own (values ++ value ∷ []) }
{
    if own == Some(count) {
        is_null
    } else {
        has_null
    }
}

/// Looks at the values of these types, which take all of the bodies.
fn look_over(types: &[u8], bodies: &[u8], own: Option<usize>) -> Result<Seen, Wrong>
    ensures found { IfOk result (λ seen. (values : List Value)
        × (columns_at (length types.now) types.now bodies.now ≡ Ok values)
        × (seen.count ≡ length values) × (seen.has_null ≡ has_null_at own values)
        × (IsTrue seen.is_storable ↔ All IsStorable values)) }
    ensures why { IfErr result (λ wrong. columns_at (length types.now) types.now bodies.now ≡ Err wrong) }
{
    let mut types_left = types;
    let mut bodies_left = bodies;
    let mut count = 0;
    let mut has_null = own.is_none();
    let mut is_storable = true;
    'columns: while !types_left.is_empty() {
        let passed = pass_value(types_left, bodies_left)?;
        has_null = has_null_after(own, count, has_null, passed.is_null);
        is_storable &= passed.is_storable;
        count += 1;
        types_left = passed.types;
        bodies_left = passed.bodies;
    }
    if !bodies_left.is_empty() {
        return Err(Wrong::Broken);
    }
    Ok(Seen {
        count,
        has_null,
        is_storable,
    })
}

/// Checks that the values that were looked at are those of a row of so many. (Another number: `Unsupported(ColumnCount)`; no NULL at the place:
/// `Damaged(Record, 0)`; one that can't be stored: `Unsupported(Limit)`.)
fn check_seen(seen: Seen, width: usize) -> R<()>
    ensures found { OnOk result ((seen.count ≡ width) × IsTrue seen.has_null × IsTrue seen.is_storable) }
    ensures only { seen.count ≡ width → IsTrue seen.has_null → IsTrue seen.is_storable → result ≡ Ok tt }
    ensures refused { IfErr result (λ fault. IsRowFault fault) }
    ensures count { (seen.count ≡ width → ⊥) → result ≡ Err (Fault.Unsupported Feature.ColumnCount) }
    ensures place { seen.count ≡ width → seen.has_null ≡ false → result ≡ Err (Fault.Damaged Damage.Record 0) }
    ensures limit { seen.count ≡ width → IsTrue seen.has_null → (IsTrue seen.is_storable → ⊥)
        → result ≡ Err (Fault.Unsupported Feature.Limit) }
{
    if seen.count != width {
        return Err(Fault::Unsupported(Feature::ColumnCount));
    }
    if !seen.has_null {
        return Err(Fault::Damaged(Damage::Record, 0));
    }
    if !seen.is_storable {
        return Err(Fault::Unsupported(Feature::Limit));
    }
    Ok(())
}

/// Checks that bytes are the record of a row of a table: of so many values, each of which can be stored, with NULL at the place of the rowid's own
/// column, if there is one. It takes no memory. What is no record is refused as by `Record::over`, and else the first of these: another number of
/// values is `Unsupported(ColumnCount)`, a value in the place of NULL `Damaged(Record, 0)`, a text or blob of more than 1,000,000 bytes
/// `Unsupported(Limit)`.
pub fn check_record(bytes: &[u8], width: usize, own: Option<usize>) -> R<()>
    // What passes is the record of such values,
    ensures found { OnOk result ((values : List Value) × IsRecord bytes.now values
        × AreOfRow width own values) }
    // and the record of such values passes.
    ensures only { (values : List Value) → IsRecord bytes.now values → AreOfRow width own values
        → result ≡ Ok tt }
    // What is no record is refused for that first.
    ensures why { (wrong : Wrong) → record_at bytes.now ≡ Err wrong → result ≡ Err (fault_of wrong) }
    ensures refused { IfErr result (λ fault. IsRowFault fault) }
    // A record is refused for the first of these: another number of values, a value in the place of NULL, one that can't be stored.
    ensures first { (values : List Value) → IsRecord bytes.now values → IsRefusedInOrder width own values result }
{
    let (types, bodies) = halves_of(bytes)?;
    let seen = look_over(types, bodies, own)?;
    check_seen(seen, width)
}
