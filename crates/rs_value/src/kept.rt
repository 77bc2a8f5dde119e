//! A row that is kept: the bytes of its values, and no more room than they take.
//!
//! A contract sees it as the row. Rows compare by their bytes, and no value is read but the one that is asked for.

ghost use Rattle.std.specs.Prelude.{◌≡◌, ◌++◌, ◌↔◌, List, ℕ, length, map, get_or, replicate, IsTrue, IfOk, OnOk, IfSome, IfNone, string_bytes};
ghost use Rattle.std.specs.List.{AllByRecursion};
ghost use Rattle.rs_value.specs.Encoding.{SaysRow};
ghost use Rattle.rs_value.specs.Kept.{MayBeKept};
ghost use Rattle.rs_value.specs.LentView.{lent_datum};
ghost use Rattle.rs_value.specs.Row.{Row, row_cmp, null};
ghost use Rattle.rs_value.specs.Text.{values_text};
ghost use Rattle.rs_value.specs.Values.{IsRowOf};
ghost use Rattle.rs_value.specs.View.{literal_row};

use crate::byte_order::{compare_bytes, same_bytes};
use crate::column::Schema;
use crate::kept_bytes::{after_values, count_values, first_value};
use crate::kept_encoding::{kept_of, push_encoded};
use crate::kept_making::{bytes_of_literals, bytes_of_nulls, columns_in, columns_of, joined};
use crate::kept_text::push_each;
use crate::lent::LentValue;
use crate::row_bytes::RowBytes;
use crate::value::Literal;
use std::alloc::{AllocError, Global};
use std::cmp::Ordering;
use std::marker::Model;

/// A row that is kept: one value for each column, from the left.
#[derive(Debug, Drop)]
pub struct KeptRow {
    bytes: RowBytes,
}

impl Model for KeptRow {
    ghost use Rattle.rs_value.specs.Row.{Row};
    ghost use Rattle.rs_value.specs.Kept.{Keeps, row_in};

    ghost Value = { Row };

    ghost view = { λ kept. row_in kept.bytes.items };

    ghost invariant = { λ kept. Keeps kept.bytes.items (row_in kept.bytes.items) };
}

impl KeptRow {
    /// The row that these literals write. The only refusal is for want of memory.
    pub fn of_literals(alloc: Global, literals: &[Literal]) -> Result<Self, AllocError>
        requires { AllByRecursion MayBeKept (literal_row literals.now) }
        ensures { IfOk result (λ kept. kept ≡ literal_row literals.now) }
    {
        let bytes = bytes_of_literals(alloc, literals)?;
        Ok(KeptRow { bytes })
    }

    /// A row of so many NULLs. The only refusal is for want of memory.
    pub fn nulls(alloc: Global, width: usize) -> Result<Self, AllocError>
        ensures { IfOk result (λ kept. kept ≡ replicate width null) }
    {
        let bytes = bytes_of_nulls(alloc, width)?;
        Ok(KeptRow { bytes })
    }

    /// A copy of the row. The only refusal is for want of memory.
    pub fn copied(&self, alloc: Global) -> Result<Self, AllocError>
        ensures { IfOk result (λ kept. kept ≡ self.now) }
    {
        let bytes = RowBytes::from_slice(alloc, self.bytes.as_slice())?;
        Ok(KeptRow { bytes })
    }

    /// The values of this row before those of another. The only refusal is for want of memory.
    pub fn beside(&self, alloc: Global, other: &KeptRow) -> Result<Self, AllocError>
        ensures { IfOk result (λ kept. kept ≡ self.now ++ other.now) }
    {
        let bytes = joined(alloc, self.bytes.as_slice(), other.bytes.as_slice())?;
        Ok(KeptRow { bytes })
    }

    /// The values in the columns named, the leftmost 0, in the order of their names; NULL for one past the end. The only
    /// refusal is for want of memory.
    pub fn chosen(&self, alloc: Global, columns: &[u8]) -> Result<Self, AllocError>
        ensures { IfOk result (λ kept. kept ≡ map (λ column. get_or self.now column null) columns.now) }
    {
        let bytes = columns_of(alloc, self.bytes.as_slice(), columns)?;
        Ok(KeptRow { bytes })
    }

    /// The same in the room of another row, which is forgotten. The only refusal is for want of memory.
    pub fn chosen_in(&self, room: KeptRow, columns: &[u8]) -> Result<Self, AllocError>
        ensures { IfOk result (λ kept. kept ≡ map (λ column. get_or self.now column null) columns.now) }
    {
        let bytes = columns_in(room.bytes, self.bytes.as_slice(), columns)?;
        Ok(KeptRow { bytes })
    }

    /// How many values the row has.
    pub fn width(&self) -> usize
        ensures { result ≡ length self.now }
    {
        count_values(self.bytes.as_slice())
    }

    /// The value in a column, the leftmost 0; NULL past the end.
    pub fn value_at(&self, column: usize) -> LentValue<'_>
        ensures value { lent_datum result ≡ get_or self.now column null }
        ensures kept { MayBeKept (lent_datum result) }
    {
        first_value(after_values(self.bytes.as_slice(), column))
    }

    /// The row that bytes of these columns say, as `encode` writes them; none as `decode`. The only refusal is for want of memory.
    pub fn of_encoded(
        alloc: Global,
        schema: &Schema,
        encoded: &[u8],
    ) -> Result<Option<Self>, AllocError>
        ensures row { IfOk result (λ found. IfSome found (λ kept. SaysRow schema.now.items encoded.now kept)) }
        ensures none { IfOk result (λ found. IfNone found ((row : Row) → SaysRow schema.now.items encoded.now row → ⊥)) }
    {
        match kept_of(alloc, schema, encoded)? {
            Some(bytes) => Ok(Some(KeptRow { bytes })),
            None => Ok(None),
        }
    }

    /// Puts the row after the bytes, as `encode` writes it. The only refusal is for want of memory.
    pub fn push_encoded(&self, schema: &Schema, bytes: &mut Vec<u8>) -> Result<(), AllocError>
        requires row { IsRowOf schema.now.items self.now }
        ensures { OnOk result ((row : List ℕ) × SaysRow schema.now.items row self.now × (bytes.new.items ≡ bytes.old.items ++ row)) }
    {
        push_encoded(self.bytes.as_slice(), schema, bytes)
    }
}

/// Compares two rows in the order of rows.
pub fn compare_rows(left: &KeptRow, right: &KeptRow) -> Ordering
    ensures { result ≡ row_cmp left.now right.now }
{
    compare_bytes(left.bytes.as_slice(), right.bytes.as_slice())
}

/// Whether two rows are the same.
pub fn same_row(left: &KeptRow, right: &KeptRow) -> bool
    ensures { IsTrue result ↔ (left.now ≡ right.now) }
{
    same_bytes(left.bytes.as_slice(), right.bytes.as_slice())
}

/// Appends a space and the text of each value of a row. Where memory runs out, a part may have been appended.
pub fn push_values(text: &mut String, row: &KeptRow) -> Result<(), AllocError>
    ensures { OnOk result (string_bytes text.new ≡ string_bytes text.old ++ values_text row.now) }
{
    push_each(text, row.bytes.as_slice())
}
