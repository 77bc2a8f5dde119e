//! The lines of a dump: they are written, and laws say what they ask.
//!
//! A measure is written in its shortest form, and the line of each command of a dump asks it.
#![tactic(auto)]

pub mod asking;
pub mod lists;
pub mod measures;
mod parts;
pub mod rows;
mod values;
pub mod writing;
