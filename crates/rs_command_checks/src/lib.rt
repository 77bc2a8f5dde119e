//! The checks of each command, in their order, against what is in memory: the definitions, the referents, the cursors and the
//! count of changes.
//!
//! It promises the reference machine's refusal or what the machine makes of an accepted command, whichever spans tables have
//! and whichever lines cursors have still to give.
#![tactic(auto)]

mod alignments;
pub mod checks;
mod columns;
mod cursors;
mod definitions;
mod drops;
mod events;
mod indexes;
pub mod laws;
mod queries;
mod referents;
mod views;

pub use checks::Checks;
pub use events::{Insertion, Removal};
pub use indexes::TableColumn;
