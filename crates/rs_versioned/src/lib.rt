//! This crate keeps the events and referents of a file by version, and says which version sees which record.
//!
//! A record is seen by the versions from its birth on, up to its end. Each table's records lie in a tree of pages of its own.
#![tactic(auto)]

pub mod event;
pub mod event_table;
pub mod kind;
pub mod laws;
mod meant;
pub mod opening;
pub mod record_table;
pub mod referent;
pub mod referent_table;
pub mod route_span;
pub mod run_laws;
mod seeing;

pub use event_table::{EventTable, Events};
pub use kind::RecordKind;
pub use record_table::RecordTable;
pub use referent_table::{ReferentTable, Referents};
pub use route_span::RouteSpan;
pub use rs_cell_versions::ToldRecords;
