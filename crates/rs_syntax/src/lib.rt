//! The language: the commands that a line may be, how each is written, and what it says.
//!
//! The definitions are in `specs/`. Each line has an answer, and one only: its command, or the first refusal.
#![tactic(auto)]

pub mod commands;
pub mod laws;
pub mod queries;
pub mod written;

pub use commands::{ColumnDefinition, Command, EventLocation, Piece};
pub use laws::{command_of_a_line_is_sound, line_has_an_answer, line_has_one_answer};
pub use queries::{Atom, Operand, Query, Window};
pub use rs_methods::{Method, Name, Position, Sign};
