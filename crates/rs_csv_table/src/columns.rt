//! The columns of records, the first of which is the header: how wide each is, and at which side its fields stand.

ghost use Rattle.std.specs.Prelude.{◌≡◌, IfOk, max};
ghost use Rattle.rs_csv_table.specs.Columns.{are_numbers, column_in, columns_of, field_in, most_fields, rows_after, width_in};
ghost use Rattle.rs_csv_table.specs.Records.{fields_of, records_of};

use crate::fields::{is_at_right, width_of};
use std::alloc::{AllocError, Global};

/// How the fields of a column stand.
#[derive(Clone, Copy)]
pub struct Column {
    /// How many characters its widest field has.
    pub width: usize,
    /// Whether they stand at the right.
    pub is_right: bool,
}

/// The columns of some records, as many as the longest of them has fields.
pub fn columns_of(alloc: Global, records: &[Vec<Vec<u8>>]) -> Result<Vec<Column>, AllocError>
    ensures { IfOk result (λ columns. columns.items ≡ columns_of (records_of records.now)) }
{
    let mut columns = Vec::new(alloc);
    for place in 0..most_fields(records) {
        columns.push(column_in(records, place))?;
    }
    Ok(columns)
}

/// The column at a place.
fn column_in(records: &[Vec<Vec<u8>>], place: usize) -> Column
    ensures { result ≡ column_in (records_of records.now) place }
{
    Column {
        width: width_in(records, place),
        is_right: are_numbers(rows_after(records), place),
    }
}

/// The records after the header.
fn rows_after(records: &[Vec<Vec<u8>>]) -> &[Vec<Vec<u8>>]
    ensures { records_of result.now ≡ rows_after (records_of records.now) }
{
    match records.split_first() {
        Some((_, rows)) => rows,
        None => &[],
    }
}

/// The greatest width of a column's fields.
fn width_in(records: &[Vec<Vec<u8>>], place: usize) -> usize
    ensures { result ≡ width_in place (records_of records.now) }
{
    let mut width: usize = 0;
    for record in records {
        width = width.max(width_of(field_in(record.as_slice(), place)));
    }
    width
}

/// Whether all fields of a column are numbers, but for those that are empty.
fn are_numbers(rows: &[Vec<Vec<u8>>], place: usize) -> bool
    ensures { result ≡ are_numbers place (records_of rows.now) }
{
    for row in rows {
        if !is_at_right(field_in(row.as_slice(), place)) {
            return false;
        }
    }
    true
}

/// The field in a column, or nothing where the record is shorter.
fn field_in(record: &[Vec<u8>], place: usize) -> &[u8]
    ensures { result.now ≡ field_in place (fields_of record.now) }
{
    match record.get(place) {
        Some(field) => field.as_slice(),
        None => &[],
    }
}

/// How many fields the longest record has.
fn most_fields(records: &[Vec<Vec<u8>>]) -> usize
    ensures { result ≡ most_fields (records_of records.now) }
{
    let mut most: usize = 0;
    for record in records {
        most = most.max(record.len());
    }
    most
}
