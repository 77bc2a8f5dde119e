//! Commands and queries read by the grammar: recursive descent over the tokens of a line.
//!
//! The tokens are read by the table of the grammar. What they say is looked at in `rs_meaning`.
#![tactic(auto)]

mod alignments;
mod columns;
pub mod conditions;
pub mod cursors;
pub mod definitions;
pub mod drops;
pub mod events;
pub mod front;
mod indexes;
pub mod moves;
pub mod names;
pub mod positions;
pub mod queries;
pub mod totals;
pub mod values;
pub mod windows;
