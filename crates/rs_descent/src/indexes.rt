//! The descent's part for DEFINE INDEX.
//!
//! The function takes tokens from the front and returns the others, or those at which it stopped.

ghost use Rattle.std.specs.Prelude.{◌≡◌, ◌∷◌, ◌++◌, IfOk};
ghost use Rattle.rs_grammar.specs.declared.kind.TokenKind.TheVariants as kinds;
ghost use Rattle.rs_grammar.specs.Grammar.{define_index_form};
ghost use Rattle.rs_syntax.specs.Written.{mark, spelling, lexemes_of, IsFull};
ghost use Rattle.rs_syntax.specs.View.{written_of};
ghost use Rattle.rs_descent.specs.Reading.{RunsTo};

use crate::front::{Stop, need_mark, need_text};
use rs_grammar::kind::TokenKind;
use rs_lexer::Token;
use rs_syntax::written::WrittenCommand;

/// After DEFINE INDEX: name ON table "(" column ")"
pub fn define_index(tokens: &[Token]) -> Result<(WrittenCommand, &[Token]), Stop<'_>>
    ensures runs { RunsTo define_index_form tokens.now result }
    ensures spelled { IfOk result (λ found. mark kinds.Define ∷ mark kinds.Index ∷ lexemes_of tokens.now
        ≡ spelling (written_of found.0) ++ lexemes_of found.1.now) }
    ensures full { IfOk result (λ found. IsFull (written_of found.0)) }
{
    let (name, rest) = need_text(tokens, TokenKind::Name)?;
    let rest = need_mark(rest, TokenKind::On)?;
    let (table, rest) = need_text(rest, TokenKind::Name)?;
    let rest = need_mark(rest, TokenKind::LeftParen)?;
    let (column, rest) = need_text(rest, TokenKind::Name)?;
    let rest = need_mark(rest, TokenKind::RightParen)?;
    let command = WrittenCommand::DefineIndex {
        name,
        table,
        column,
    };
    Ok((command, rest))
}
