//! This crate keeps cells with the versions that see them in a tree: they are added, ended, and cleared once no version that is
//! asked for sees them.
//!
//! The dead are listed in memory in the order in which they died, so that clearing finds them without a search. Cells that lie
//! in a tree already are checked against what is told of them before they are used.
#![tactic(auto)]

mod bounding;
pub mod cell;
mod changing;
mod dead;
mod dying;
pub mod laws;
pub mod opening;
mod tally;
pub mod told;
pub mod versions;

pub use cell::{LIVING, born_of, died_of, end_at, is_living, sees};
pub use opening::Opening;
pub use rs_btree;
pub use told::ToldRecords;
pub use versions::Versions;
