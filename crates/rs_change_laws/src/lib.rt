//! What state a file stands for after each change of its contents: laws, each the contract of a function that does nothing.
#![tactic(auto)]

pub mod clearing;
pub mod completing;
pub mod definitions;
pub mod referents;
pub mod rows;
pub mod tables;
