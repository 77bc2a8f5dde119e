//! Event records that overlap a span, found in a tree that keeps the greatest end of the records below each page.
//!
//! A cell is an event record: route, from, row, born, to and died. The search is over any implementation of pages.
#![tactic(auto)]

pub mod greatest_end;
pub mod laws;
pub mod number;
pub mod search;

pub use greatest_end::{AFTER_BIRTH_BYTES, GreatestEnd};
pub use number::number_of_four;
pub use search::{beginning, overlapping};
