//! Laws of the reference machine: what is so of every state that it comes to, and what a cursor gives over steps.
//!
//! They are proved beside the engine, which needs none of them. Each is the contract of a function that does
//! nothing.
#![tactic(auto)]

pub mod cursors;
pub mod lawful;
pub mod plans;
pub mod positions;
pub mod printed;
pub mod view_lines;
pub mod wide_views;
