//! The changes that commands make of a file, each as a whole: its part changes in the pages, records are cleared, and the next version
//! is the one that was accepted last.
//!
//! Each call says what becomes of whatever contents the file holds. After a refusal the working pages are to be abandoned, and what
//! is open to be taken back.
#![tactic(auto)]

pub mod clearing;
mod completing;
pub mod counting;
pub mod definitions;
pub mod referents;
pub mod rows;
pub mod tables;

pub use clearing::clear_only;
pub use counting::garbage;
pub use definitions::{drop_route, redefine};
pub use referents::{define_referent, drop_referent, move_referent};
pub use rows::{Insertion, Removal, insert, remove};
pub use rs_change_laws;
pub use tables::{IndexPlace, NewIndex, define_index, define_table, drop_index, drop_table};
