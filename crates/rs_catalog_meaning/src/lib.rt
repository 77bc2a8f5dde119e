//! It says what the definitions of a file mean: whether each passes the checks and limits of its DEFINE line, beside the others.
#![tactic(auto)]

mod alignments;
pub mod by_number;
pub mod checking;
pub mod laws;
mod names;
mod routes;
mod tables;

pub use checking::check_meaning;
