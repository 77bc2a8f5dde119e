//! Records as lines, with their fields in columns.

ghost use Rattle.std.specs.Prelude.{◌≡◌, ◌-◌, ◌++◌, ◌∷◌, [], OnOk, flat_map};
ghost use Rattle.rs_csv_table.specs.Fields.{width};
ghost use Rattle.rs_csv_table.specs.Records.{fields_of, records_of};
ghost use Rattle.rs_csv_table.specs.Tables.{cell, cells_of, gap, line_of, portion_text, spaces};

use crate::columns::{Column, columns_of};
use crate::fields::{push_shown, width_of};
use std::alloc::{AllocError, Global};

/// Appends a portion: a line for each of its records, the first of which is the header.
pub fn push_portion(
    alloc: Global,
    text: &mut Vec<u8>,
    records: &[Vec<Vec<u8>>],
) -> Result<(), AllocError>
    ensures { OnOk result (text.new.items ≡ text.old.items ++ portion_text (records_of records.now)) }
{
    let columns = columns_of(alloc, records)?;
    push_lines(text, columns.as_slice(), records)
}

/// Appends a line for each record.
fn push_lines(
    text: &mut Vec<u8>,
    columns: &[Column],
    records: &[Vec<Vec<u8>>],
) -> Result<(), AllocError>
    ensures { OnOk result (text.new.items ≡ text.old.items ++ flat_map (line_of columns.now) (records_of records.now)) }
{
    for record in records {
        push_line(text, columns, record.as_slice())?;
    }
    Ok(())
}

/// Appends the line of a record.
fn push_line(text: &mut Vec<u8>, columns: &[Column], record: &[Vec<u8>]) -> Result<(), AllocError>
    ensures { OnOk result (text.new.items ≡ text.old.items ++ line_of columns.now (fields_of record.now)) }
{
    push_cells(text, columns, record)?;
    text.push(b'\n')?;
    Ok(())
}

/// Appends the cells of a record, with two spaces between them.
fn push_cells(text: &mut Vec<u8>, columns: &[Column], record: &[Vec<u8>]) -> Result<(), AllocError>
    ensures { OnOk result (text.new.items ≡ text.old.items ++ cells_of (fields_of record.now) columns.now) }
{
    let mut columns_left = columns;
    let mut left = record;
    while let Some((field, after)) = left.split_first() {
        let Some((column, columns_after)) = columns_left.split_first() else {
            return Ok(());
        };
        push_cell(text, column, after.is_empty(), field.as_slice())?;
        columns_left = columns_after;
        left = after;
    }
    Ok(())
}

/// Appends a field in its column, and two spaces after it where it is not the last.
fn push_cell(
    text: &mut Vec<u8>,
    column: &Column,
    is_last: bool,
    field: &[u8],
) -> Result<(), AllocError>
    ensures { OnOk result (text.new.items ≡ text.old.items ++ (cell column.now is_last field.now ++ gap is_last)) }
{
    let room = column.width.saturating_sub(width_of(field));
    if column.is_right {
        push_spaces(text, room)?;
        push_shown(text, field)?;
    } else {
        push_shown(text, field)?;
        if !is_last {
            push_spaces(text, room)?;
        }
    }
    if !is_last {
        push_spaces(text, 2)?;
    }
    Ok(())
}

/// Appends so many spaces.
fn push_spaces(text: &mut Vec<u8>, count: usize) -> Result<(), AllocError>
    ensures { OnOk result (text.new.items ≡ text.old.items ++ spaces count) }
{
    for _ in 0..count {
        text.push(b' ')?;
    }
    Ok(())
}
