//! The bytes of a row are made of literals, and of those of other rows.

ghost use Rattle.std.specs.Prelude.{◌++◌, ◌∷◌, [], map, get_or, replicate, IfOk};
ghost use Rattle.std.specs.List.{AllByRecursion};
ghost use Rattle.rs_value.specs.Kept.{Keeps, MayBeKept};
ghost use Rattle.rs_value.specs.Row.{Row, null};
ghost use Rattle.rs_value.specs.View.{literal_row};

use crate::kept_bytes::{NULL, after_values, kept_width, push_kept, split_first};
use crate::lent::lent_literal;
use crate::row_bytes::{INLINE_BYTES, RowBytes};
use crate::value::Literal;
use std::alloc::{AllocError, Global};

/// The bytes of the row that these literals write. The only refusal is for want of memory.
pub(crate) fn bytes_of_literals(alloc: Global, literals: &[Literal]) -> Result<RowBytes, AllocError>
    requires { AllByRecursion MayBeKept (literal_row literals.now) }
    ensures { IfOk result (λ bytes. Keeps bytes.items (literal_row literals.now)) }
{
    let mut bytes = RowBytes::with_capacity(alloc, width_of_literals(literals))?;
    for literal in literals {
        push_kept(&mut bytes, lent_literal(literal))?;
    }
    Ok(bytes)
}

// How many bytes keep what the literals write.
fn width_of_literals(literals: &[Literal]) -> usize {
    let mut total = 0_usize;
    for literal in literals {
        total = total.saturating_add(kept_width(lent_literal(literal)));
    }
    total
}

/// The bytes of a row of so many NULLs. The only refusal is for want of memory.
pub(crate) fn bytes_of_nulls(alloc: Global, width: usize) -> Result<RowBytes, AllocError>
    ensures { IfOk result (λ bytes. Keeps bytes.items (replicate width null)) }
{
    RowBytes::from_elem(alloc, NULL, width)
}

/// The bytes of two rows, one after the other. The only refusal is for want of memory.
pub(crate) fn joined(alloc: Global, left: &[u8], right: &[u8]) -> Result<RowBytes, AllocError>
    ensures { (x y : Row) → Keeps left.now x → Keeps right.now y → IfOk result (λ bytes. Keeps bytes.items (x ++ y)) }
{
    let mut bytes = RowBytes::with_capacity(alloc, left.len().saturating_add(right.len()))?;
    bytes.extend_from_slice(left)?;
    bytes.extend_from_slice(right)?;
    Ok(bytes)
}

/// The bytes of the values in the columns named, of a row that these bytes keep. The only refusal is for want of memory.
pub(crate) fn columns_of(alloc: Global, kept: &[u8], columns: &[u8]) -> Result<RowBytes, AllocError>
    ensures { (row : Row) → Keeps kept.now row → IfOk result (λ bytes. Keeps bytes.items (map (λ column. get_or row column null) columns.now)) }
{
    let room = RowBytes::with_capacity(alloc, columns_width(kept, columns))?;
    columns_in(room, kept, columns)
}

/// The same in the room of other bytes, which are forgotten.
pub(crate) fn columns_in(
    room: RowBytes,
    kept: &[u8],
    columns: &[u8],
) -> Result<RowBytes, AllocError>
    ensures { (row : Row) → Keeps kept.now row → IfOk result (λ bytes. Keeps bytes.items (map (λ column. get_or row column null) columns.now)) }
{
    let mut bytes = room;
    bytes.clear();
    for column in columns {
        bytes.extend_from_slice(column_bytes(kept, *column))?;
    }
    Ok(bytes)
}

// How many bytes keep the values in the columns named, where they may be more than lie in the value itself.
fn columns_width(kept: &[u8], columns: &[u8]) -> usize {
    if kept.len() <= INLINE_BYTES {
        return 0;
    }
    let mut total = 0_usize;
    for column in columns {
        total = total.saturating_add(column_bytes(kept, *column).len());
    }
    total
}

// The bytes of the value in a column, of a row that these bytes keep.
fn column_bytes(kept: &[u8], column: u8) -> &[u8]
    ensures { (row : Row) → Keeps kept.now row → Keeps result.now (get_or row column null ∷ []) }
{
    let rest = after_values(kept, usize::from(column));
    if rest.is_empty() {
        &[NULL]
    } else {
        split_first(rest).0
    }
}
