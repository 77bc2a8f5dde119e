//! What commands and queries say once they have been read.
//!
//! The syntax has been read elsewhere, so a number out of its range is all that can be wrong.
#![tactic(auto)]

pub mod meaning;
mod said_alignments;
pub mod said_commands;
pub mod said_conditions;
mod said_cursors;
mod said_definitions;
mod said_drops;
mod said_events;
pub mod said_places;
pub mod said_queries;
mod said_totals;
