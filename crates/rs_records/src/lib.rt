//! Records of one width in bytes, one after another, and their order.
//!
//! A list of records is read, searched and changed in place. What the bytes after the last record hold is left open.
#![tactic(auto)]

pub mod cells;
pub mod laws;
pub mod order;
pub mod records;

pub use cells::Cells;
pub use order::is_below;
pub use records::{copy_tail, place, record_at, splice};
