//! Values, rows of values, and values as a line writes them.
//!
//! The order of values is NULL, then numbers by value, then texts by bytes; rows compare column by
//! column.

use crate::column::{COLUMNS, TEXT_BYTES};
use arrayvec::{ArrayString, ArrayVec};

/// A value in a column of a row. By default it is NULL.
#[derive(Clone, Copy, PartialEq, Eq, PartialOrd, Ord, Debug, Default)]
pub enum Value {
    /// No value.
    #[default]
    Null,
    /// A whole number from -10^12 to 10^12.
    Int(i64),
    /// A text, of UTF-8 without the bytes 0 to 31 and 127.
    Text(ArrayString<TEXT_BYTES>),
}

/// A row on the stack: one value for each column, from the left. It has room for `COLUMNS` values, some 2,200
/// bytes, so it goes by reference. A row that is kept is a `KeptRow`.
pub type Tuple = ArrayVec<Value, COLUMNS>;

/// A value as a line writes it, of any length.
#[derive(PartialEq, Eq, Debug, Drop)]
pub enum Literal {
    /// `NULL`.
    Null,
    /// A number, with its sign.
    Int(i64),
    /// A text, its doubled quotes made single.
    Text(String),
}
