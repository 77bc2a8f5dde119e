//! What a dump of a state is, and laws of it, each the contract of a function that does nothing.
//!
//! A dump is the commands that rebuild a state: all its parts in an order in which each is accepted. The laws say that from
//! the machine at the beginning each is accepted and the last leaves the state, and that a line can say each of them.
#![tactic(auto)]

pub mod dump;
pub mod keeping;
pub mod listing;
pub mod replaying;
