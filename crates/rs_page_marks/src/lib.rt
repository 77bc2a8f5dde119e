//! Pages of a file that were reached, each once at the most.
//!
//! Who checks a file marks each page before it is read. In the end each page has one owner where none is left.
#![tactic(auto)]

pub mod laws;
pub mod reached;

pub use reached::Reached;
