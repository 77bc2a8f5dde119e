//! CSV to lines: a table of records becomes the lines that define it and insert its rows.
//!
//! `write_lines` is a filter: records go one by one, and one that says no row is told and left out. It promises that each other one
//! has its INSERT, in their order, and that besides only lines that define the table and its routes are written.
#![tactic(auto)]

pub mod batch;
pub mod definition;
pub mod filter;
pub mod head;
pub mod header;
pub mod held;
pub mod laws;
pub mod left_out;
pub mod made;
pub mod names;
pub mod names_file;
pub mod packing;
pub mod progress;
pub mod quoting;
pub mod rejects;
pub mod routes;
pub mod spot;
pub mod tell;
pub mod texts;
pub mod told;
pub mod word;
pub mod words;

pub use filter::{Stop, Wanted, write_lines};
pub use names_file::{MadeNames, write_names};
pub use rejects::Rejecting;
