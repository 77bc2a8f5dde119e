//! Reads of the events of a table in pages, at a version: all that touch a stretch of a route, or those alone that have a value in the
//! column of an index.
//!
//! A read takes the pages that lead to what it finds, and answers how many they were. It changes no page and nothing of what is open,
//! whatever it answers.
#![tactic(auto)]

pub mod event_cells;
pub mod finding;
mod keys;
pub mod laws;
mod picking;
pub mod reading;
pub mod searching;
pub mod window;

pub use event_cells::FoundEvents;
pub use finding::found_events;
pub use reading::spans;
pub use searching::spans_with;
pub use window::{ColumnIndex, RouteWindow};
