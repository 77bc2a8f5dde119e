//! The text of a value, as replies and dumps have it, is put before what is at the end of a buffer.

ghost use Rattle.std.specs.Prelude.{◌≡◌, ◌≤◌, ◌∷◌, ◌++◌, IfSome, drop, false, length};
ghost use Rattle.rs_value.specs.LentView.{lent_datum};
ghost use Rattle.rs_value.specs.Row as rows;
ghost use Rattle.rs_value.specs.Text.{datum_text, quotes_doubled};

use crate::parts::{put_before, put_word_before};
use itoa::write_digits;
use rs_value::LentValue;

/// The byte of a quote.
pub const QUOTE: u8 = b'\'';

/// The most bytes of a mark and a number.
const NUMBER_BYTES: usize = 22;

/// Puts a mark and the text of a value before the byte at `end`, and says where the mark is, if they have room and no quote is in the
/// value. Else what is in the bytes is unspecified.
pub fn put_value_before(
    mark: u8,
    value: LentValue<'_>,
    bytes: &mut [u8],
    end: usize,
) -> Option<usize>
    requires inside { end ≤ length bytes.old }
    ensures begins { IfSome result (λ start. start ≤ end) }
    ensures length { IfSome result (λ _. length bytes.new ≡ length bytes.old) }
    ensures put { IfSome result (λ start. drop start bytes.new ≡ mark ∷ (datum_text (lent_datum value.entry) ++ drop end bytes.old)) }
{
    if end < NUMBER_BYTES {
        return None;
    }
    match value {
        LentValue::Null => {
            let word = put_word_before(b"NULL", bytes, end);
            Some(put_before(mark, bytes, word))
        }
        LentValue::Int(number) => {
            let digits = put_number_before(number, bytes, end);
            Some(put_before(mark, bytes, digits))
        }
        LentValue::Text(text) => put_text_before(mark, text, bytes, end),
    }
}

/// Puts the digits of a number, and its sign, before the byte at `end`.
fn put_number_before(number: i64, bytes: &mut [u8], end: usize) -> usize
    requires room { NUMBER_BYTES ≤ end }
    requires inside { end ≤ length bytes.old }
    ensures begins { result ≤ end }
    ensures some { 1 ≤ result }
    ensures length { length bytes.new ≡ length bytes.old }
    ensures put { drop result bytes.new ≡ datum_text (rows.number number) ++ drop end bytes.old }
{
    let digits = write_digits(number.unsigned_abs(), bytes, end);
    if number >= 0 {
        return digits;
    }
    put_before(b'-', bytes, digits)
}

/// Puts a mark and a text between quotes before the byte at `end`, and says where the mark is, if they have room and no quote is in the
/// text.
fn put_text_before(mark: u8, text: &[u8], bytes: &mut [u8], end: usize) -> Option<usize>
    requires room { 3 ≤ end }
    requires inside { end ≤ length bytes.old }
    ensures begins { IfSome result (λ start. start ≤ end) }
    ensures length { IfSome result (λ _. length bytes.new ≡ length bytes.old) }
    ensures put { IfSome result (λ start. drop start bytes.new ≡ mark ∷ (datum_text (rows.text text.now) ++ drop end bytes.old)) }
{
    if text.len() > end - 3 || has_quote(text) {
        return None;
    }
    let after = put_before(QUOTE, bytes, end);
    let within = put_word_before(text, bytes, after);
    let quote = put_before(QUOTE, bytes, within);
    Some(put_before(mark, bytes, quote))
}

/// Whether a quote is among the bytes.
pub fn has_quote(bytes: &[u8]) -> bool
    ensures { result ≡ false → quotes_doubled bytes.now ≡ bytes.now }
{
    for byte in bytes {
        if *byte == QUOTE {
            return true;
        }
    }
    false
}
