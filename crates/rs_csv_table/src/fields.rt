//! A field of CSV: its width in characters, whether it is a number, and how it is shown.

ghost use Rattle.std.specs.Prelude.{◌≡◌, ◌++◌, OnOk};
ghost use Rattle.std.specs.Char.{is_ascii_digit};
ghost use Rattle.std.specs.List.{list_all, list_any};
ghost use Rattle.rs_csv_table.specs.Fields.{begins_character, fits_right, is_figure, is_number, shown, shown_byte, width};

use std::alloc::AllocError;

/// How many characters a field has.
pub fn width_of(field: &[u8]) -> usize
    ensures { result ≡ width field.now }
{
    let mut width: usize = 0;
    for byte in field {
        if begins_character(*byte) {
            width += 1;
        }
    }
    width
}

/// Whether a byte begins a character.
fn begins_character(byte: u8) -> bool
    ensures { result ≡ begins_character byte }
{
    byte < 128 || byte >= 192
}

/// Whether a field is a number, or empty.
pub fn is_at_right(field: &[u8]) -> bool
    ensures { result ≡ fits_right field.now }
{
    field.is_empty() || has_number(field)
}

/// Whether a field is a number: digits, with signs, points and percent signs.
fn has_number(field: &[u8]) -> bool
    ensures { result ≡ is_number field.now }
{
    has_figures_alone(field) && has_digit(field)
}

/// Whether a field has digits, signs, points and percent signs alone.
fn has_figures_alone(field: &[u8]) -> bool
    ensures { result ≡ list_all is_figure field.now }
{
    field.iter().all(|byte| byte.is_ascii_digit()
        || *byte == b'+'
        || *byte == b'-'
        || *byte == b'.'
        || *byte == b'%')
}

/// Whether a field has a digit.
fn has_digit(field: &[u8]) -> bool
    ensures { result ≡ list_any is_ascii_digit field.now }
{
    field.iter().any(|byte| byte.is_ascii_digit())
}

/// Appends a field as it is shown: a control character, such as a line feed, is a space. Where memory runs out, a part may have been
/// appended, here and in what calls it.
pub fn push_shown(text: &mut Vec<u8>, field: &[u8]) -> Result<(), AllocError>
    ensures { OnOk result (text.new.items ≡ text.old.items ++ shown field.now) }
{
    for byte in field {
        text.push(shown_byte(*byte))?;
    }
    Ok(())
}

/// A byte as it is shown.
fn shown_byte(byte: u8) -> u8
    ensures { result ≡ shown_byte byte }
{
    if byte < 32 || byte == 127 { b' ' } else { byte }
}
