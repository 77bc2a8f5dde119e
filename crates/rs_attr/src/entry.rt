//! This module writes the bytes of an index's entries: those of a value, and then those of a cell.

ghost use Rattle.std.specs.Prelude.{◌≡◌, ◌≤◌, ◌+◌, ◌++◌, IfOk, drop, length, take};
ghost use Rattle.rs_value.specs.Encoding.{SaysDatum, width};
ghost use Rattle.rs_value.specs.Values.{IsOfType};
ghost use Rattle.rs_value.specs.View.{datum_of};

use rs_value::{ColumnType, Schema, Value, column_width, encode};
use std::alloc::{AllocError, Global};
use std::slice;

/// The bytes of a cell from `start` on, so many, and then the cell.
pub(crate) fn entry_of(
    alloc: Global,
    cell: &[u8],
    start: usize,
    wide: usize,
) -> Result<Vec<u8>, AllocError>
    requires within { start + wide ≤ length cell.now }
    ensures { IfOk result (λ entry. entry.items ≡ take wide (drop start cell.now) ++ cell.now) }
{
    let mut entry = Vec::new(alloc);
    entry.extend_from_slice(&cell[start..start + wide])?;
    entry.extend_from_slice(cell)?;
    Ok(entry)
}

/// Writes the entry that `entry_of` makes over as many bytes.
pub(crate) fn write_entry(bytes: &mut [u8], cell: &[u8], start: usize, wide: usize)
    requires within { start + wide ≤ length cell.now }
    requires room { length bytes.old ≡ wide + length cell.now }
    ensures { bytes.new ≡ take wide (drop start cell.now) ++ cell.now }
{
    let (front, back) = bytes.split_at_mut(wide);
    front.copy_from_slice(&cell[start..start + wide]);
    back.copy_from_slice(cell);
}

/// The bytes of a value in a column of its type.
pub(crate) fn value_bytes(
    alloc: Global,
    column: ColumnType,
    value: &Value,
) -> Result<Vec<u8>, AllocError>
    requires of_type { IsOfType column (datum_of value.now) }
    ensures says { IfOk result (λ bytes. SaysDatum column bytes.items (datum_of value.now)) }
    ensures width { IfOk result (λ bytes. length bytes.items ≡ width column) }
{
    let mut schema = Schema::new();
    schema.push(column);
    let mut bytes = Vec::new(alloc);
    bytes.resize(column_width(column), 0)?;
    encode(&schema, slice::from_ref(value), &mut bytes);
    Ok(bytes)
}

/// The bytes, then the others.
pub(crate) fn followed_by(alloc: Global, bytes: &[u8], others: &[u8]) -> Result<Vec<u8>, AllocError>
    ensures { IfOk result (λ both. both.items ≡ bytes.now ++ others.now) }
{
    let mut both = Vec::new(alloc);
    both.extend_from_slice(bytes)?;
    both.extend_from_slice(others)?;
    Ok(both)
}
