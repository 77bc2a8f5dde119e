//! Changes of the events of a table in pages: a row put along a span of a route, and rows taken away between two thousandths.
//!
//! Each is made at a version after the one that was accepted last: some events end, others come, and no other part of the table is
//! read. Versions that are live see what they saw, and this version has just the maximal runs of its facts where the accepted one had.
#![tactic(auto)]

mod changing;
mod edit;
mod insertion;
mod joining;
mod laws;
mod leaving;
pub mod moment;
mod picking;
mod removal;

pub use insertion::insert;
pub use moment::Moment;
pub use removal::{RouteStretch, remove};
