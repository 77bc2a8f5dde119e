//! Crash safety of a file's pages: a checkpoint brings what is committed into the file, recovery ends one that a crash cut short, and a
//! migration makes a file of version 1 one of version 2.
//!
//! At each moment of these calls a crash leaves the pages kept last or the committed ones, as a whole.
#![tactic(auto)]

mod checkpointing;
pub mod laws;

pub use checkpointing::{checkpoint, migrate};
pub use rs_journal::recover;
