//! Texts that are made from their end: each part is put before those that are there, at the end of a buffer.
//!
//! A line made so is copied once, with just the room that it takes.
#![tactic(auto)]

pub mod measures;
pub mod parts;
pub mod values;
