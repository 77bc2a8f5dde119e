//! The parser: the command that the tokens of a line are.
//!
//! The tokens are read by the table of the grammar, and then the ranges of numbers are looked at.
#![tactic(auto)]

pub mod parser;
mod reading;

pub use parser::{command_of, parse};
pub use rs_grammar::kind::{BRACKETS, FETCHED_ROWS, NAME_BYTES, TokenKind};
pub use rs_lexer::{Token, tokens};
