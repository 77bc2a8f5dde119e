//! What a table holds: points or lines, and columns of numbers or texts.

use arrayvec::ArrayVec;

/// How many columns a table or a query has at the most.
pub const COLUMNS: usize = 16;

/// How many bytes of UTF-8 a text has at the most.
pub const TEXT_BYTES: usize = 120;

/// How many bytes a row of a table takes at the most in a record: the widths of its columns together, whatever its values are.
pub const ROW_BYTES: usize = 960;

/// Whether a table or a query holds point events, at one thousandth each, or line events, along spans.
#[derive(Clone, Copy, PartialEq, Eq, Debug)]
pub enum Kind {
    /// Point events (ISO 19148's punctual events).
    Point,
    /// Line events (ISO 19148's linear events).
    Line,
}

/// What a column holds beside NULL. By default it is a number.
#[derive(Clone, Copy, PartialEq, Eq, Debug, Default)]
pub enum ColumnType {
    /// A whole number from -10^12 to 10^12.
    #[default]
    Int,
    /// A text of at most so many bytes of UTF-8, from 1 to `TEXT_BYTES`.
    Text(u8),
}

/// The types of a table's columns, from the left.
pub type Schema = ArrayVec<ColumnType, COLUMNS>;
