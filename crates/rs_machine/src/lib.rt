//! The reference machine: its state, its step, what may be answered, and the stream of lines.
//!
//! The definitions are in `specs/`. The limits that they name are constants here, which code and definitions share.
#![tactic(auto)]

pub mod laws;
pub mod limits;
