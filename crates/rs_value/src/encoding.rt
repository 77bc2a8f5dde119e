//! Rows as bytes of one width for each list of columns.
//!
//! It promises that the bytes of a row say this row and no other, and that they compare as rows do.

ghost use Rattle.std.specs.Prelude.{◌≡◌, ◌==◌, ℕ, ℤ, pos, ◌+ℤ◌, ◌+◌, ◌-◌, ◌*◌, ◌^◌, ◌≤◌, ◌↔◌, List, ◌∷◌, ◌++◌, length, replicate, nat_abs, IsTrue, IfSome, IfNone};
ghost use Rattle.std.specs.List.{position_or_len};
ghost use Rattle.std.specs.Int.{w64, to_be_bytes};
ghost use Rattle.rs_value.specs.declared.column.TheConstants.{TEXT_BYTES};
ghost use Rattle.rs_value.specs.Row as rows;
ghost use Rattle.rs_value.specs.Row.{Datum, Row};
ghost use Rattle.rs_value.specs.Values.{IsValue, IsOfType, IsRowOf};
ghost use Rattle.rs_value.specs.View.{datum_of, row_of};
ghost use Rattle.rs_value.specs.Encoding.{width, row_width, SaysNumber, SaysText, SaysDatum, SaysRow};

use crate::column::{ColumnType, Schema, TEXT_BYTES};
use crate::text::has_control;
use crate::value::{Tuple, Value};
use arrayvec::ArrayString;
use std::str;

// The greatest distance of a number from 0.
const GREATEST_NUMBER: u64 = 1_000_000_000_000;

/// The byte before a value that is not NULL. Before NULL it is 0.
pub(crate) const PRESENT: u8 = 1;

// What 0 is written as: its distance from the least `i64`.
const ZERO: u64 = 1 << 63;

/// How many bytes a row of these columns takes, whatever its values are.
pub fn row_width(schema: &Schema) -> usize
    ensures { result ≡ row_width schema.now.items }
{
    let columns = schema.as_slice();
    let mut total = 0;
    for column in columns {
        total += column_width(*column);
    }
    total
}

/// How many bytes a value of the column takes.
pub fn column_width(column: ColumnType) -> usize
    ensures value { result ≡ width column }
    ensures few { result ≤ 256 }
{
    match column {
        ColumnType::Int => 9,
        ColumnType::Text(most) => usize::from(most) + 1,
    }
}

/// Writes a row of the columns over as many bytes as it takes, column by column. NULL is zeros. A number
/// is 1 and its distance from -2^63 in eight bytes, the highest first; a text is 1, its bytes, and zeros.
pub fn encode(schema: &Schema, values: &[Value], bytes: &mut [u8])
    requires row { IsRowOf schema.now.items (row_of values.now) }
    requires width { length bytes.old ≡ row_width schema.now.items }
    ensures says { SaysRow schema.now.items bytes.new (row_of values.now) }
{
    let columns = schema.as_slice();
    let mut at = 0;
    for (i, column) in columns.iter().enumerate() {
        let end = at + column_width(*column);
        encode_value(*column, &values[i], &mut bytes[at..end]);
        at = end;
    }
}

// Writes a value over the bytes of its column.
fn encode_value(column: ColumnType, value: &Value, bytes: &mut [u8])
    requires value { IsOfType column (datum_of value.now) }
    requires width { length bytes.old ≡ width column }
    ensures { SaysDatum column bytes.new (datum_of value.now) }
{
    match value {
        Value::Null => bytes.fill(0),
        Value::Int(number) => encode_number(*number, bytes),
        Value::Text(text) => encode_text(text.as_str(), bytes),
    }
}

// Writes a number over nine bytes.
fn encode_number(number: i64, bytes: &mut [u8])
    requires number { IsValue (rows.number number) }
    requires width { length bytes.old ≡ 9 }
    ensures { SaysNumber bytes.new number }
{
    let above = above_least(number);
    bytes[0] = PRESENT;
    bytes[1..].copy_from_slice(&above.to_be_bytes());
}

/// How far a number is above the least `i64`.
pub(crate) fn above_least(number: i64) -> u64
    ensures { pos result ≡ number +ℤ pos (2 ^ 63) }
{
    ZERO.wrapping_add_signed(number)
}

// Writes a text over the bytes of its column.
fn encode_text(text: &str, bytes: &mut [u8])
    requires room { length text.now + 1 ≤ length bytes.old }
    ensures { bytes.new ≡ 1 ∷ text.now ++ replicate (length bytes.old - 1 - length text.now) 0 }
{
    bytes[0] = PRESENT;
    fill_up(text.as_bytes(), &mut bytes[1..]);
}

// Writes a text over the bytes, and zeros after it.
fn fill_up(text: &[u8], bytes: &mut [u8])
    requires room { length text.now ≤ length bytes.old }
    ensures { bytes.new ≡ text.now ++ replicate (length bytes.old - length text.now) 0 }
{
    let (front, back) = bytes.split_at_mut(text.len());
    front.copy_from_slice(text);
    back.fill(0);
}

/// The row that the bytes say. There is none where they say no row of these columns: where their number is
/// another than a row takes, a value begins with a byte other than 0 or 1, a byte other than 0 follows NULL or a
/// text, a number is beyond 10^12, or a text is no UTF-8 or holds a control character.
pub fn decode(schema: &Schema, bytes: &[u8]) -> Option<Tuple>
    ensures row { IfSome result (λ tuple. SaysRow schema.now.items bytes.now (row_of tuple.items)) }
    ensures none { IfNone result ((row : Row) → SaysRow schema.now.items bytes.now row → ⊥) }
{
    let columns = schema.as_slice();
    let mut tuple = Tuple::new();
    let mut rest = bytes;
    for column in columns {
        let (first, others) = rest.split_at_checked(column_width(*column))?;
        tuple.push(decode_value(*column, first)?);
        rest = others;
    }
    if rest.is_empty() { Some(tuple) } else { None }
}

// The value that the bytes of a column say.
fn decode_value(column: ColumnType, bytes: &[u8]) -> Option<Value>
    requires { length bytes.now ≡ width column }
    ensures value { IfSome result (λ value. SaysDatum column bytes.now (datum_of value)) }
    ensures none { IfNone result ((datum : Datum) → SaysDatum column bytes.now datum → ⊥) }
{
    if are_zeros(bytes) {
        return Some(Value::Null);
    }
    if bytes[0] != PRESENT {
        return None;
    }
    match column {
        ColumnType::Int => Some(Value::Int(decode_number(&bytes[1..])?)),
        ColumnType::Text(_) => Some(Value::Text(decode_text(&bytes[1..])?)),
    }
}

/// Whether all bytes are zeros: eight at a time, since most of a short text's column is.
pub(crate) fn are_zeros(bytes: &[u8]) -> bool
    ensures { IsTrue result ↔ (bytes.now ≡ replicate (length bytes.now) 0) }
{
    let mut rest = bytes;
    while let Some((first, more)) = rest.split_first_chunk::<8>() {
        if u64::from_be_bytes(*first) != 0 {
            return false;
        }
        rest = more;
    }
    rest.iter().all(|byte| *byte == 0)
}

/// The number that eight bytes say.
pub(crate) fn decode_number(bytes: &[u8]) -> Option<i64>
    requires { length bytes.now ≡ 8 }
    ensures value { IfSome result (λ n. IsValue (rows.number n) × SaysNumber (1 ∷ bytes.now) n) }
    ensures none { IfNone result ((n : ℤ) → IsValue (rows.number n) → SaysNumber (1 ∷ bytes.now) n → ⊥) }
{
    let number = number_above(eight_bytes(bytes));
    if number.unsigned_abs() > GREATEST_NUMBER {
        None
    } else {
        Some(number)
    }
}

/// The number of eight bytes, the highest first.
pub(crate) fn eight_bytes(bytes: &[u8]) -> u64
    requires { length bytes.now ≡ 8 }
    ensures { to_be_bytes w64 result ≡ bytes.now }
{
    u64::from_be_bytes(bytes.try_into().unwrap())
}

/// The number that is so far above the least `i64`.
pub(crate) fn number_above(above: u64) -> i64
    ensures { pos above ≡ result +ℤ pos (2 ^ 63) }
{
    above.wrapping_sub(ZERO).cast_signed()
}

// The text that bytes with zeros after it say.
fn decode_text(bytes: &[u8]) -> Option<ArrayString<TEXT_BYTES>>
    ensures value { IfSome result (λ text. IsValue (rows.text text.bytes) × SaysText (length bytes.now) (1 ∷ bytes.now) text.bytes) }
    ensures none { IfNone result ((said : List ℕ) → IsValue (rows.text said) → SaysText (length bytes.now) (1 ∷ bytes.now) said → ⊥) }
{
    let (text, zeros) = bytes.split_at(length_before_zero(bytes));
    if are_zeros(zeros) {
        text_of(text)
    } else {
        None
    }
}

/// How many bytes there are before the first zero.
pub(crate) fn length_before_zero(bytes: &[u8]) -> usize
    ensures { result ≡ position_or_len (λ byte. byte == 0) bytes.now }
{
    bytes.iter().take_while(|byte| **byte != 0).count()
}

// The text of these bytes, where they are one and it fits.
fn text_of(bytes: &[u8]) -> Option<ArrayString<TEXT_BYTES>>
    ensures text { IfSome result (λ text. IsValue (rows.text text.bytes) × (text.bytes ≡ bytes.now)) }
    ensures room { IfSome result (λ text. length text.bytes ≤ TEXT_BYTES) }
    ensures none { IfNone result (IsValue (rows.text bytes.now) → length bytes.now ≤ TEXT_BYTES → ⊥) }
{
    if has_control(bytes) {
        return None;
    }
    match str::from_utf8(bytes) {
        Ok(text) => ArrayString::from(text).ok(),
        Err(_) => None,
    }
}
