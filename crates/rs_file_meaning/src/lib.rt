//! What a file stands for: the state of the machine that its contents have, and which files stand for one.
//!
//! It has no running code: definitions in `specs/`, and laws, each the contract of a function that does nothing.
#![tactic(auto)]

pub mod changes;
pub mod live;
pub mod standing;
pub mod versions;
