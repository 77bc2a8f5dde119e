//! The command line of `roadseg`: what the words after the program's name ask.
//!
//! It promises which words are refused and why, and that an accepted line is answered with the very
//! command, texts and number that `clap` finds in it.
#![tactic(auto)]

mod arguments;
pub mod command_line;
pub mod laws;
pub mod separator;
mod subcommands;

pub use command_line::{Asked, CsvWords, read_words};
pub use separator::separator_of;
