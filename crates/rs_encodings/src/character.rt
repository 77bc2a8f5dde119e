//! The first character of some bytes.

ghost use Rattle.std.specs.Prelude.{◌≡◌, ◌<◌, [], IfSome, length, false, true, None, Some};
ghost use Rattle.std.specs.Char.Utf16.{is_high_surrogate, is_low_surrogate, lone_unit_char, surrogate_pair_char};
ghost use Rattle.rs_encodings.specs.Forms.{Begins};
ghost use Rattle.rs_encodings.specs.Texts.{unit_of};

use crate::encoding::{ByteOrder, Code};

/// What comes first.
#[derive(Clone, Copy)]
pub struct First {
    /// The character. None where there is none: a surrogate without its partner, or a byte that is half a unit.
    pub character: Option<char>,
    /// How many bytes it takes.
    pub count: usize,
}

// The unit of two bytes.
fn unit(order: ByteOrder, first: u8, second: u8) -> u16
    ensures { result ≡ unit_of order first second }
{
    match order {
        ByteOrder::LowFirst => u16::from(first) + 256 * u16::from(second),
        ByteOrder::HighFirst => 256 * u16::from(first) + u16::from(second),
    }
}

// Whether a unit is the first of two.
fn is_high(unit: u16) -> bool
    ensures { result ≡ is_high_surrogate unit }
{
    0xd800 <= unit && unit < 0xdc00
}

// Whether a unit is the second of two.
fn is_low(unit: u16) -> bool
    ensures { result ≡ is_low_surrogate unit }
{
    0xdc00 <= unit && unit < 0xe000
}

// The character of a unit alone.
fn alone(unit: u16) -> First
    ensures character { result.character ≡ lone_unit_char unit }
    ensures count { result.count ≡ 2 }
{
    First {
        character: char::from_u32(u32::from(unit)),
        count: 2,
    }
}

// The character of two units.
fn paired(high: u16, low: u16) -> First
    requires high { is_high_surrogate high ≡ true }
    requires low { is_low_surrogate low ≡ true }
    ensures character { result.character ≡ Some (surrogate_pair_char high low) }
    ensures count { result.count ≡ 4 }
{
    let code = 0x1_0000 + (u32::from(high) - 0xd800) * 0x400 + (u32::from(low) - 0xdc00);
    First {
        character: char::from_u32(code),
        count: 4,
    }
}

// The first character in Latin-1.
fn first_of_latin1(bytes: &[u8]) -> Option<First>
    ensures some { IfSome result (Begins Code.Latin1 false bytes.now) }
    ensures none { result ≡ None → bytes.now ≡ [] }
{
    if bytes.is_empty() {
        return None;
    }
    Some(First {
        character: Some(char::from(bytes[0])),
        count: 1,
    })
}

// The first character in UTF-16, of bytes that are the last ones or not.
fn first_of_utf16(order: ByteOrder, bytes: &[u8], is_last: bool) -> Option<First>
    ensures some { IfSome result (Begins (Code.Utf16 order) is_last bytes.now) }
    ensures none { result ≡ None → (length bytes.now < 4) × (is_last ≡ true → bytes.now ≡ []) }
{
    if bytes.len() < 2 {
        return if is_last && !bytes.is_empty() {
            Some(First {
                character: None,
                count: 1,
            })
        } else {
            None
        };
    }
    let first = unit(order, bytes[0], bytes[1]);
    if !is_high(first) {
        return Some(alone(first));
    }
    if bytes.len() < 4 {
        return if is_last { Some(alone(first)) } else { None };
    }
    let second = unit(order, bytes[2], bytes[3]);
    if is_low(second) {
        Some(paired(first, second))
    } else {
        Some(alone(first))
    }
}

/// The first character of bytes, which are the last ones or not. None where there is none, or where more bytes have to be known.
pub fn first_character(code: Code, bytes: &[u8], is_last: bool) -> Option<First>
    ensures some { IfSome result (Begins code is_last bytes.now) }
    ensures none { result ≡ None → (length bytes.now < 4) × (is_last ≡ true → bytes.now ≡ []) }
{
    match code {
        Code::Latin1 => first_of_latin1(bytes),
        Code::Utf16(order) => first_of_utf16(order, bytes, is_last),
    }
}
