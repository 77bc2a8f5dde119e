//! A row of a reply as a record of CSV.
//!
//! It promises that exactly the row's record is appended, unless memory runs out.

ghost use Rattle.std.specs.Prelude.{◌≡◌, ◌==◌, ◌&&◌, ◌++◌, [], ◌∷◌, OnOk, false, if◌then◌else◌, not};
ghost use Rattle.std.specs.List.{list_any};
ghost use Rattle.rs_csv_answers.specs.Records.{bare_field, calls_for_marks, field_of, fields_from, marks_doubled, needs_marks, quotes_single, record_of, text_field, without_last};

use std::alloc::AllocError;

/// Appends the record of a row, with its line feed. Where memory runs out, a part may have been appended.
pub fn push_record(text: &mut Vec<u8>, row: &[u8]) -> Result<(), AllocError>
    ensures { OnOk result (text.new.items ≡ text.old.items ++ record_of row.now) }
{
    push_fields(text, row)?;
    text.push(b'\n')?;
    Ok(())
}

/// Appends the fields of a row, with a comma between them.
fn push_fields(text: &mut Vec<u8>, row: &[u8]) -> Result<(), AllocError>
    ensures { OnOk result (text.new.items ≡ text.old.items ++ fields_from false [] row.now) }
{
    let mut begin = 0;
    let mut is_quoted = false;
    for place in 0..row.len() {
        let byte = row[place];
        if ends_field(byte, is_quoted) {
            push_field(text, &row[begin..place])?;
            text.push(b',')?;
            begin = place + 1;
        } else {
            is_quoted = is_quoted_after(byte, is_quoted);
        }
    }
    push_field(text, &row[begin..])
}

/// Whether a byte ends a field: a space between no quotes.
fn ends_field(byte: u8, is_quoted: bool) -> bool
    ensures { result ≡ (byte == 32 && not is_quoted) }
{
    byte == b' ' && !is_quoted
}

/// Whether what follows a byte stands between quotes.
fn is_quoted_after(byte: u8, is_quoted: bool) -> bool
    ensures { result ≡ (if byte == 39 then not is_quoted else is_quoted) }
{
    if byte == b'\'' { !is_quoted } else { is_quoted }
}

/// Appends a field: NULL is an empty one, and what begins with a quote is a text.
fn push_field(text: &mut Vec<u8>, cell: &[u8]) -> Result<(), AllocError>
    ensures { OnOk result (text.new.items ≡ text.old.items ++ field_of cell.now) }
{
    match cell.split_first() {
        Some((b'\'', rest)) => push_text(text, front_of(rest)),
        _ => push_bare(text, cell),
    }
}

/// All but the last byte.
fn front_of(bytes: &[u8]) -> &[u8]
    ensures { result.now ≡ without_last bytes.now }
{
    &bytes[..bytes.len().saturating_sub(1)]
}

/// Appends what has no quotes, which is nothing for NULL.
fn push_bare(text: &mut Vec<u8>, cell: &[u8]) -> Result<(), AllocError>
    ensures { OnOk result (text.new.items ≡ text.old.items ++ bare_field cell.now) }
{
    if cell == b"NULL".as_slice() {
        Ok(())
    } else {
        text.extend_from_slice(cell)
    }
}

/// Appends a text, given by the bytes between its quotes.
fn push_text(text: &mut Vec<u8>, inner: &[u8]) -> Result<(), AllocError>
    ensures { OnOk result (text.new.items ≡ text.old.items ++ text_field (quotes_single false inner.now)) }
{
    if has_to_be_marked(inner) {
        text.push(b'"')?;
        push_doubled(text, inner)?;
        text.push(b'"')?;
        Ok(())
    } else {
        push_doubled(text, inner)
    }
}

/// Whether a text stands between marks, by the bytes between its quotes.
fn has_to_be_marked(inner: &[u8]) -> bool
    ensures { result ≡ needs_marks (quotes_single false inner.now) }
{
    inner.is_empty() || has_any_call(inner)
}

/// Whether some byte of a text calls for marks.
fn has_any_call(bytes: &[u8]) -> bool
    ensures { result ≡ list_any calls_for_marks bytes.now }
{
    bytes.iter().any(|byte| *byte == b',' || *byte == b'"' || *byte == b'\n' || *byte == b'\r')
}

/// Appends the bytes of a text with its marks doubled, given by the bytes between its quotes.
fn push_doubled(text: &mut Vec<u8>, inner: &[u8]) -> Result<(), AllocError>
    ensures { OnOk result (text.new.items ≡ text.old.items ++ marks_doubled (quotes_single false inner.now)) }
{
    let mut is_second = false;
    for byte in inner {
        if is_second && *byte == b'\'' {
            is_second = false;
        } else {
            push_byte(text, *byte)?;
            is_second = *byte == b'\'';
        }
    }
    Ok(())
}

/// Appends a byte, a mark twice.
fn push_byte(text: &mut Vec<u8>, byte: u8) -> Result<(), AllocError>
    ensures { OnOk result (text.new.items ≡ text.old.items ++ marks_doubled (byte ∷ [])) }
{
    if byte == b'"' {
        text.push(byte)?;
    }
    text.push(byte)?;
    Ok(())
}
