//! The descent's part for MOVE and TRANSLATE.
//!
//! Each function takes tokens from the front and returns the others, or those at which it stopped.

ghost use Rattle.std.specs.Prelude.{◌≡◌, ◌∷◌, ◌++◌, IfOk};
ghost use Rattle.rs_grammar.specs.declared.kind.TokenKind.TheVariants as kinds;
ghost use Rattle.rs_grammar.specs.Grammar.{move_form, translate_form};
ghost use Rattle.rs_syntax.specs.Written.{mark, spelling, lexemes_of, IsFull};
ghost use Rattle.rs_syntax.specs.View.{written_of};
ghost use Rattle.rs_descent.specs.Reading.{RunsTo};

use crate::front::{Stop, need_mark, need_text};
use crate::positions::{method, position};
use rs_grammar::kind::TokenKind;
use rs_lexer::Token;
use rs_syntax::written::WrittenCommand;

/// After MOVE: REFERENT route name TO pos
pub fn move_referent(tokens: &[Token]) -> Result<(WrittenCommand, &[Token]), Stop<'_>>
    ensures runs { RunsTo move_form tokens.now result }
    ensures spelled { IfOk result (λ found. mark kinds.Move ∷ lexemes_of tokens.now
        ≡ spelling (written_of found.0) ++ lexemes_of found.1.now) }
    ensures full { IfOk result (λ found. IsFull (written_of found.0)) }
{
    let rest = need_mark(tokens, TokenKind::Referent)?;
    let (route, rest) = need_text(rest, TokenKind::Name)?;
    let (name, rest) = need_text(rest, TokenKind::Name)?;
    let rest = need_mark(rest, TokenKind::To)?;
    let (position, rest) = position(rest)?;
    let command = WrittenCommand::MoveReferent {
        route,
        name,
        position,
    };
    Ok((command, rest))
}

/// After TRANSLATE: route pos AS method
pub fn translate(tokens: &[Token]) -> Result<(WrittenCommand, &[Token]), Stop<'_>>
    ensures runs { RunsTo translate_form tokens.now result }
    ensures spelled { IfOk result (λ found. mark kinds.Translate ∷ lexemes_of tokens.now
        ≡ spelling (written_of found.0) ++ lexemes_of found.1.now) }
    ensures full { IfOk result (λ found. IsFull (written_of found.0)) }
{
    let (route, rest) = need_text(tokens, TokenKind::Name)?;
    let (position, rest) = position(rest)?;
    let rest = need_mark(rest, TokenKind::As)?;
    let (method, rest) = method(rest)?;
    let command = WrittenCommand::Translate {
        route,
        position,
        method,
    };
    Ok((command, rest))
}
