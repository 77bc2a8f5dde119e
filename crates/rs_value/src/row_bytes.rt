//! The bytes that keep a row: those of a short row lie in the value itself, without memory of their own.

use smallvec::SmallVec;

/// How many bytes lie in the value itself: two numbers and a text of four bytes, or a number and a text of 13.
pub(crate) const INLINE_BYTES: usize = 24;

/// The bytes that keep a row.
pub(crate) type RowBytes = SmallVec<u8, INLINE_BYTES>;
