//! The tokens of a line, and which texts are names.
//!
//! A line is cut by the longest match: each token is a slice of the line, in order, and only blanks come
//! between them. A line has one cut, or none, and then it is refused.
#![tactic(auto)]

ghost use Rattle.std.specs.Prelude.{◌≡◌, ℕ, List};
ghost use Rattle.rs_lexer.specs.declared.token.Token.{Token};
ghost use Rattle.rs_lexer.specs.Lexis.{AreTokensFrom};

pub mod names;
mod scan;
pub mod token;

pub use names::{are_name_bytes, is_name};
pub use rs_grammar::kind::{NAME_BYTES, TokenKind};
pub use scan::front_token;
pub use token::{Token, tokens};

/// A line has one cut into tokens at the most.
pub fn line_has_one_cut()
    ensures { (line : List ℕ) (from : ℕ) (a b : List Token) → AreTokensFrom line from a → AreTokensFrom line from b → a ≡ b }
{}
