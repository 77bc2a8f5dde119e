//! Records that are left out, as CSV with the reason in a last column: mended, they are read again.
//!
//! It promises that a row has the fields of its record as they stood, and the reason in quotes after them.

ghost use Rattle.std.specs.Prelude.{◌≡◌, ◌≤◌, ◌++◌, ℕ, List, Option, None, IfOk, OnOk, false, length, take};
ghost use Rattle.std.specs.Io.KnownBytes.{Appends};
ghost use Rattle.csv.specs.Records.{fields_of};
ghost use Rattle.rs_csv.specs.Rejects.{IsHeaderRow, fields_text, option_taken, padding, quoted, raw_field, reject_line, twice};

use csv::ByteRecord;
use rs_protocol::{Fault, put_parts};
use std::alloc::{AllocError, Global};
use std::io::Write;

/// The name of the column that has the reason.
const REASON: &[u8] = b"left_out_because";

/// What takes records that are left out.
pub trait Rejecting {
    /// The bytes that it took, where they are known. They are not where no records are wanted.
    ghost taken: { Self → Option (List ℕ) };

    /// Whether they are wanted.
    fn is_wanted(&self) -> bool
        ensures { result ≡ false → taken self.now ≡ None };

    /// Takes the row of one.
    fn reject(&mut self, row: &[u8]) -> Result<(), Fault>
        ensures { OnOk result (Appends (taken self.old) (taken self.new) row.now) };
}

/// A writer takes their rows, where there is one.
impl<W: Write> Rejecting for Option<W> {
    ghost taken = { option_taken W.contents };

    fn is_wanted(&self) -> bool {
        self.is_some()
    }

    fn reject(&mut self, row: &[u8]) -> Result<(), Fault> {
        match self {
            Some(writer) => put_parts(writer, &[row]),
            None => Ok(()),
        }
    }
}

// Adds a byte of a text in quotes: a quote twice.
fn push_twice(row: &mut Vec<u8>, byte: u8) -> Result<(), AllocError>
    ensures { OnOk result (row.new.items ≡ row.old.items ++ twice byte) }
{
    if byte == b'"' {
        row.extend_from_slice(b"\"\"")
    } else {
        row.push(byte)?;
        Ok(())
    }
}

/// Adds a text in quotes, each quote of it twice.
pub fn push_quoted(row: &mut Vec<u8>, text: &[u8]) -> Result<(), AllocError>
    ensures { OnOk result (row.new.items ≡ row.old.items ++ quoted text.now) }
{
    row.push(b'"')?;
    for byte in text {
        push_twice(row, *byte)?;
    }
    row.push(b'"')?;
    Ok(())
}

// Adds a field as it stood: in quotes, where it was read with one before it.
fn push_field(row: &mut Vec<u8>, field: &[u8]) -> Result<(), AllocError>
    ensures { OnOk result (row.new.items ≡ row.old.items ++ raw_field field.now) }
{
    match field.split_first() {
        None => Ok(()),
        Some((first, text)) => {
            if *first == b'"' {
                push_quoted(row, text)
            } else {
                row.extend_from_slice(field)
            }
        }
    }
}

// Adds the first fields of a record, each with the separator after it.
fn push_fields(
    row: &mut Vec<u8>,
    csv_record: &ByteRecord,
    count: usize,
    separator: u8,
) -> Result<(), AllocError>
    requires { count ≤ length (fields_of csv_record.now) }
    ensures { OnOk result (row.new.items ≡ row.old.items ++ fields_text separator (take count (fields_of csv_record.now))) }
{
    for place in 0..count {
        match csv_record.get(place) {
            Some(field) => push_field(row, field)?,
            None => unreachable!(),
        }
        row.push(separator)?;
    }
    Ok(())
}

// Adds so many empty fields.
fn push_padding(row: &mut Vec<u8>, count: usize, separator: u8) -> Result<(), AllocError>
    ensures { OnOk result (row.new.items ≡ row.old.items ++ padding separator count) }
{
    for _ in 0..count {
        row.push(separator)?;
    }
    Ok(())
}

// Whether the last column of a header has reasons of an earlier time.
fn has_reasons(header: &ByteRecord) -> bool {
    match header.get(header.len().saturating_sub(1)) {
        Some(field) => field == REASON || field.split_first() == Some((&b'"', REASON)),
        None => false,
    }
}

/// How many columns a header has, without that of reasons of an earlier time.
pub fn width_of(header: &ByteRecord) -> usize {
    if has_reasons(header) {
        header.len().saturating_sub(1)
    } else {
        header.len()
    }
}

/// How many fields a record has, without a reason of an earlier time.
pub fn count_of(header: &ByteRecord, csv_record: &ByteRecord) -> usize
    ensures { result ≤ length (fields_of csv_record.now) }
{
    let fields = csv_record.len();
    if has_reasons(header) && fields >= header.len() {
        fields.saturating_sub(1)
    } else {
        fields
    }
}

/// Adds the row of a record, with the reason in the column after those of the header. A reason of an earlier time is left out, and what
/// a record lacks is empty.
pub fn push_reject(
    row: &mut Vec<u8>,
    header: &ByteRecord,
    csv_record: &ByteRecord,
    separator: u8,
    reason: &[u8],
) -> Result<(), AllocError>
    ensures { OnOk result ((count : ℕ) × (lacking : ℕ) × (count ≤ length (fields_of csv_record.now)) × (row.new.items ≡ row.old.items ++ reject_line separator (take count (fields_of csv_record.now)) lacking reason.now)) }
{
    let count = count_of(header, csv_record);
    push_fields(row, csv_record, count, separator)?;
    push_padding(row, width_of(header).saturating_sub(count), separator)?;
    push_quoted(row, reason)?;
    row.push(b'\n')?;
    Ok(())
}

/// The header of such rows, where it is wanted.
pub fn header_row(
    alloc: Global,
    header: &ByteRecord,
    separator: u8,
    is_wanted: bool,
) -> Result<Vec<u8>, AllocError>
    ensures { IfOk result (λ row. IsHeaderRow separator (fields_of header.now) row.items) }
{
    let mut row = Vec::new(alloc);
    if !is_wanted {
        return Ok(row);
    }
    push_reject(&mut row, header, header, separator, REASON)?;
    Ok(row)
}
