//! The bytes that keep a row: values are put after them, and read from their front.

ghost use Rattle.std.specs.Prelude.{◌≡◌, ◌≤◌, ◌+◌, ◌^◌, pos, ◌+ℤ◌, ◌++◌, ◌∷◌, [], take, drop, get_or, length, OnOk};
ghost use Rattle.std.specs.List.{position_or_len};
ghost use Rattle.std.specs.Int.{w64, to_be_bytes, from_be_bytes};
ghost use Rattle.rs_value.specs.Kept.{Keeps, above_least, kept_datum, first_width, is_zero};
ghost use Rattle.rs_value.specs.LentView.{lent_datum};
ghost use Rattle.rs_value.specs.Row.{Row, null};

use crate::encoding::{above_least, eight_bytes, length_before_zero, number_above};
use crate::lent::LentValue;
use crate::row_bytes::RowBytes;
use std::alloc::AllocError;

/// The byte that is NULL.
pub(crate) const NULL: u8 = 0;

// The byte before a number.
const NUMBER: u8 = 1;

// The byte before a text.
const TEXT: u8 = 2;

// The byte after a text.
const END: u8 = 0;

/// Puts a value after the bytes. The only refusal is for want of memory.
pub(crate) fn push_kept(bytes: &mut RowBytes, value: LentValue<'_>) -> Result<(), AllocError>
    ensures { OnOk result (bytes.new.items ≡ bytes.old.items ++ kept_datum (lent_datum value.entry)) }
{
    match value {
        LentValue::Null => bytes.extend_from_slice(&[NULL]),
        LentValue::Int(number) => push_number(bytes, number),
        LentValue::Text(text) => push_text(bytes, text),
    }
}

// Puts a number after the bytes.
fn push_number(bytes: &mut RowBytes, number: i64) -> Result<(), AllocError>
    ensures { OnOk result (bytes.new.items ≡ bytes.old.items ++ 1 ∷ to_be_bytes w64 (above_least number)) }
{
    let mut kept = [NUMBER; 9];
    kept[1..].copy_from_slice(&above_least(number).to_be_bytes());
    bytes.extend_from_slice(&kept)
}

// Puts a text after the bytes.
fn push_text(bytes: &mut RowBytes, text: &[u8]) -> Result<(), AllocError>
    ensures { OnOk result (bytes.new.items ≡ bytes.old.items ++ 2 ∷ text.now ++ 0 ∷ []) }
{
    bytes.push(TEXT)?;
    bytes.extend_from_slice(text)?;
    bytes.push(END)?;
    Ok(())
}

/// How many bytes keep a value.
pub(crate) fn kept_width(value: LentValue<'_>) -> usize
    ensures { result ≡ length (kept_datum (lent_datum value.entry)) }
{
    match value {
        LentValue::Null => 1,
        LentValue::Int(_) => 9,
        LentValue::Text(text) => text.len() + 2,
    }
}

// How many bytes the first value takes; 0 where there is none.
fn first_width(bytes: &[u8]) -> usize
    ensures { result ≡ first_width bytes.now }
{
    let Some((mark, rest)) = bytes.split_first() else {
        return 0;
    };
    if *mark == NULL {
        1
    } else if *mark == NUMBER {
        9
    } else {
        text_width(rest)
    }
}

/// How many bytes keep a text that these bytes begin with and a zero ends.
pub(crate) fn text_width(bytes: &[u8]) -> usize
    ensures { result ≡ position_or_len is_zero bytes.now + 2 }
{
    length_before_zero(bytes).min(bytes.len()) + 2
}

/// The bytes of the first value, and those after it; none where there is no value.
pub(crate) fn split_first(bytes: &[u8]) -> (&[u8], &[u8])
    ensures first { (row : Row) → Keeps bytes.now row → Keeps result.0.now (take 1 row) }
    ensures rest { (row : Row) → Keeps bytes.now row → Keeps result.1.now (drop 1 row) }
{
    bytes.split_at(first_width(bytes).min(bytes.len()))
}

/// The bytes after so many values; none where there are no more.
pub(crate) fn after_values(bytes: &[u8], count: usize) -> &[u8]
    ensures { (row : Row) → Keeps bytes.now row → Keeps result.now (drop count row) }
{
    let mut rest = bytes;
    for _ in 0..count {
        rest = split_first(rest).1;
    }
    rest
}

/// How many values the bytes keep. Each takes a byte at least.
pub(crate) fn count_values(bytes: &[u8]) -> usize
    requires { (row : Row) × Keeps bytes.now row }
    ensures { (row : Row) → Keeps bytes.now row → result ≡ length row }
{
    let most = bytes.len();
    let mut rest = bytes;
    let mut count = 0;
    while count < most && !rest.is_empty() {
        rest = split_first(rest).1;
        count += 1;
    }
    count
}

/// The first value; NULL where there is none.
pub(crate) fn first_value(bytes: &[u8]) -> LentValue<'_>
    requires { (row : Row) × Keeps bytes.now row }
    ensures { (row : Row) → Keeps bytes.now row → lent_datum result ≡ get_or row 0 null }
{
    let Some((mark, rest)) = bytes.split_first() else {
        return LentValue::Null;
    };
    if *mark == NULL {
        LentValue::Null
    } else if *mark == NUMBER {
        LentValue::Int(number_in(rest))
    } else {
        LentValue::Text(&rest[..length_before_zero(rest)])
    }
}

// The number that the first eight bytes keep.
fn number_in(bytes: &[u8]) -> i64
    requires { 8 ≤ length bytes.now }
    ensures { pos (from_be_bytes w64 (take 8 bytes.now)) ≡ result +ℤ pos (2 ^ 63) }
{
    let (eight, _) = bytes.split_at(8);
    number_above(eight_bytes(eight))
}
