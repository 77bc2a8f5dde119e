//! Rows that are kept, and the bytes of one width that a file holds of them.

ghost use Rattle.std.specs.Prelude.{◌≡◌, ◌++◌, ◌↔◌, ◌∷◌, ℕ, List, length, replicate, IsTrue, IfOk, OnOk, IfSome, IfNone};
ghost use Rattle.rs_value.specs.Encoding.{width, SaysText, SaysDatum, SaysRow};
ghost use Rattle.rs_value.specs.Kept.{Keeps, IsShort};
ghost use Rattle.rs_value.specs.LentView.{lent_datum};
ghost use Rattle.rs_value.specs.Row as rows;
ghost use Rattle.rs_value.specs.Row.{Datum, Row};
ghost use Rattle.rs_value.specs.Values.{IsValue, IsOfType, IsRowOf};

use crate::column::{ColumnType, Schema, TEXT_BYTES};
use crate::encoding::{
    PRESENT, above_least, are_zeros, column_width, decode_number, eight_bytes, length_before_zero,
    number_above,
};
use crate::kept_bytes::{first_value, push_kept, split_first, text_width};
use crate::lent::LentValue;
use crate::row_bytes::{INLINE_BYTES, RowBytes};
use crate::text::{are_plain, as_text};
use std::alloc::{AllocError, Global};

/// Whether bytes say a row of these columns. It takes no memory.
pub fn says_row(schema: &Schema, encoded: &[u8]) -> bool
    ensures { IsTrue result ↔ ((row : Row) × SaysRow schema.now.items encoded.now row) }
{
    let columns = schema.as_slice();
    let mut rest = encoded;
    for column in columns {
        let Some((first, others)) = rest.split_at_checked(column_width(*column)) else {
            return false;
        };
        let Some(_value) = said_value(*column, first) else {
            return false;
        };
        rest = others;
    }
    rest.is_empty()
}

/// The bytes that keep the row that bytes of these columns say, if they say one. The only refusal is for want of memory.
pub(crate) fn kept_of(
    alloc: Global,
    schema: &Schema,
    encoded: &[u8],
) -> Result<Option<RowBytes>, AllocError>
    ensures row { IfOk result (λ found. IfSome found (λ bytes. (row : Row) × Keeps bytes.items row × SaysRow schema.now.items encoded.now row)) }
    ensures none { IfOk result (λ found. IfNone found ((row : Row) → SaysRow schema.now.items encoded.now row → ⊥)) }
{
    let columns = schema.as_slice();
    let mut bytes = RowBytes::with_capacity(alloc, room_for(columns, encoded))?;
    let mut rest = encoded;
    for column in columns {
        let Some((first, others)) = rest.split_at_checked(column_width(*column)) else {
            return Ok(None);
        };
        let Some(value) = said_value(*column, first) else {
            return Ok(None);
        };
        push_kept(&mut bytes, value)?;
        rest = others;
    }
    if rest.is_empty() {
        Ok(Some(bytes))
    } else {
        Ok(None)
    }
}

// How many bytes keep a row that bytes of these columns say, where they may be more than lie in the value itself.
fn room_for(columns: &[ColumnType], encoded: &[u8]) -> usize {
    if encoded.len() <= INLINE_BYTES {
        return 0;
    }
    let mut total = 0_usize;
    let mut rest = encoded;
    for column in columns {
        let Some((first, others)) = rest.split_at_checked(column_width(*column)) else {
            return total;
        };
        total = total.saturating_add(room_for_value(*column, first));
        rest = others;
    }
    total
}

// How many bytes keep a value that the bytes of a column say.
fn room_for_value(column: ColumnType, bytes: &[u8]) -> usize {
    match (column, bytes.split_first()) {
        (ColumnType::Text(_), Some((&PRESENT, rest))) => text_width(rest),
        (ColumnType::Int, Some((&PRESENT, _))) => 9,
        _ => 1,
    }
}

/// The value that the bytes of a column say, which say one: it is not checked again.
pub fn read_value(column: ColumnType, bytes: &[u8]) -> LentValue<'_>
    requires { (datum : Datum) × SaysDatum column bytes.now datum }
    ensures { (datum : Datum) → SaysDatum column bytes.now datum → lent_datum result ≡ datum }
{
    if bytes[0] != PRESENT {
        return LentValue::Null;
    }
    match column {
        ColumnType::Int => LentValue::Int(number_above(eight_bytes(&bytes[1..]))),
        ColumnType::Text(_) => LentValue::Text(text_before_zeros(&bytes[1..])),
    }
}

// The bytes before the first zero.
fn text_before_zeros(bytes: &[u8]) -> &[u8]
    ensures { (said : List ℕ) → IsValue (rows.text said) → SaysText (length bytes.now) (1 ∷ bytes.now) said → result.now ≡ said }
{
    &bytes[..length_before_zero(bytes)]
}

// The value that the bytes of a column say.
fn said_value(column: ColumnType, bytes: &[u8]) -> Option<LentValue<'_>>
    requires { length bytes.now ≡ width column }
    ensures value { IfSome result (λ value. SaysDatum column bytes.now (lent_datum value)) }
    ensures none { IfNone result ((datum : Datum) → SaysDatum column bytes.now datum → ⊥) }
{
    if are_zeros(bytes) {
        return Some(LentValue::Null);
    }
    if bytes[0] != PRESENT {
        return None;
    }
    match column {
        ColumnType::Int => Some(LentValue::Int(decode_number(&bytes[1..])?)),
        ColumnType::Text(_) => Some(LentValue::Text(said_text(&bytes[1..])?)),
    }
}

// The text that bytes with zeros after it say.
fn said_text(bytes: &[u8]) -> Option<&[u8]>
    ensures value { IfSome result (λ text. IsValue (rows.text text.now) × SaysText (length bytes.now) (1 ∷ bytes.now) text.now) }
    ensures none { IfNone result ((said : List ℕ) → IsValue (rows.text said) → SaysText (length bytes.now) (1 ∷ bytes.now) said → ⊥) }
{
    let (text, zeros) = bytes.split_at(length_before_zero(bytes));
    if is_kept_text(text) && are_zeros(zeros) {
        Some(text)
    } else {
        None
    }
}

// Whether the bytes are a text that is as long as any may be, at the most.
fn is_kept_text(bytes: &[u8]) -> bool
    ensures { IsTrue result ↔ (IsValue (rows.text bytes.now) × IsShort (rows.text bytes.now)) }
{
    bytes.len() <= TEXT_BYTES && (are_plain(bytes) || as_text(bytes).is_some())
}

/// Puts a row that these bytes keep after others, as `encode` writes it. The only refusal is for want of memory.
pub(crate) fn push_encoded(
    kept: &[u8],
    schema: &Schema,
    bytes: &mut Vec<u8>,
) -> Result<(), AllocError>
    requires { (row : Row) × Keeps kept.now row × IsRowOf schema.now.items row }
    ensures { (row : Row) → Keeps kept.now row → OnOk result ((said : List ℕ) × SaysRow schema.now.items said row × (bytes.new.items ≡ bytes.old.items ++ said)) }
{
    let columns = schema.as_slice();
    let mut rest = kept;
    for column in columns {
        push_said(bytes, *column, first_value(rest))?;
        rest = split_first(rest).1;
    }
    Ok(())
}

// Puts a value of a column after the bytes, as `encode` writes it.
fn push_said(
    bytes: &mut Vec<u8>,
    column: ColumnType,
    value: LentValue<'_>,
) -> Result<(), AllocError>
    requires of_type { IsOfType column (lent_datum value) }
    requires short { IsShort (lent_datum value) }
    ensures { OnOk result ((said : List ℕ) × SaysDatum column said (lent_datum value.entry) × (bytes.new.items ≡ bytes.old.items ++ said)) }
{
    match value {
        LentValue::Null => push_zeros(bytes, column_width(column)),
        LentValue::Int(number) => {
            bytes.extend_from_slice(&[PRESENT])?;
            bytes.extend_from_slice(&above_least(number).to_be_bytes())
        }
        LentValue::Text(text) => {
            bytes.extend_from_slice(&[PRESENT])?;
            bytes.extend_from_slice(text)?;
            push_zeros(bytes, column_width(column) - 1 - text.len())
        }
    }
}

// Puts so many zeros after the bytes.
fn push_zeros(bytes: &mut Vec<u8>, count: usize) -> Result<(), AllocError>
    ensures { OnOk result (bytes.new.items ≡ bytes.old.items ++ replicate count 0) }
{
    bytes.resize(bytes.len().saturating_add(count), 0)
}
