//! The spans of one table on one route: copies of them, where they lie, and what a removal leaves of them.
//!
//! It promises that copies mean the same, and its definitions say which rows a removal takes and what is left of each span.
#![tactic(auto)]

mod copies;

pub use copies::copy_spans;
