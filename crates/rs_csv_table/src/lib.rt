//! CSV as a table for the eye: its columns are aligned, numbers to the right.
//!
//! Records are read one by one, and at most 1,000 of them are held at once, which are aligned by themselves.
#![tactic(auto)]

pub mod columns;
pub mod fields;
pub mod laws;
pub mod lines;
pub mod table;

pub use table::{Stop, align_columns};
