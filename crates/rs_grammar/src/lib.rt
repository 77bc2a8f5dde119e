//! The grammar of the language: the kinds of token, a table of productions, and one law about reading by it.
//!
//! Reading with one token ahead finds the commands, and the first token that no command goes on with. The
//! law holds of every table that passes a few checks, so a production is added by a line of the table.
#![tactic(auto)]

ghost use Rattle.std.specs.Prelude.{◌≡◌, List, [], ◌∷◌, ◌++◌, Some, Ok, Err};
ghost use Rattle.rs_grammar.specs.declared.kind.TokenKind.{TokenKind};
ghost use Rattle.rs_grammar.specs.Grammar.{command_form, IsCommand, IsViable};
ghost use Rattle.rs_grammar.specs.Reading.{Runs, StopsAt};

pub mod kind;
pub mod limits;

pub use kind::{BRACKETS, FETCHED_ROWS, NAME_BYTES, TokenKind};

/// Reading by the table finds the commands, and the first token that fits no rule.
pub fn reading_finds_the_first_fault()
    ensures command { (tokens : List TokenKind) → Runs command_form tokens (Ok []) → IsCommand tokens }
    ensures no_command { (tokens : List TokenKind) → Runs command_form tokens (Err (Some [])) → IsCommand tokens → ⊥ }
    ensures viable { (tokens left front : List TokenKind) → StopsAt tokens (Some left) → tokens ≡ front ++ left → IsViable front }
    ensures fault { (tokens front left : List TokenKind) (kind : TokenKind) → StopsAt tokens (Some (kind ∷ left))
        → tokens ≡ front ++ kind ∷ left → IsViable (front ++ kind ∷ []) → ⊥ }
{}
