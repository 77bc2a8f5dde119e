//! The dump of an inventory: the command lines that rebuild what is held, written in an order in which each is accepted.
//!
//! It goes route by route through what is read, and keeps no more than one route's spans of one table. What holds the inventory is a
//! trait, `Held`, and is only read.
#![tactic(auto)]

pub mod alignments;
pub mod definitions;
pub mod dumping;
pub mod held;
pub mod laws;
pub mod put;
pub mod referents;
pub mod rows;
pub mod stop;
pub mod tell;
pub mod views;

pub use dumping::{Wanted, dump};
pub use held::{Held, NamedTable};
pub use stop::Stop;
