//! The descent's part for windows: a whole route, or a part of it.
//!
//! Each function takes tokens from the front and returns the others, or those at which it stopped.

ghost use Rattle.std.specs.Prelude.{◌≡◌, ◌<◌, ◌++◌, length, IfOk};
ghost use Rattle.rs_grammar.specs.Grammar.{window_form};
ghost use Rattle.rs_syntax.specs.Written.{window_lexemes, lexemes_of};
ghost use Rattle.rs_descent.specs.Reading.{RunsTo};

use crate::front::{Stop, mark, need_text};
use crate::positions::span;
use rs_grammar::kind::TokenKind;
use rs_lexer::Token;
use rs_syntax::written::WrittenWindow;

/// route [ FROM pos TO pos ]
pub fn window(tokens: &[Token]) -> Result<(WrittenWindow, &[Token]), Stop<'_>>
    ensures runs { RunsTo window_form tokens.now result }
    ensures spelled { IfOk result (λ found. lexemes_of tokens.now ≡ window_lexemes found.0 ++ lexemes_of found.1.now) }
    ensures shorter { IfOk result (λ found. length found.1.now < length tokens.now) }
{
    let (route, rest) = need_text(tokens, TokenKind::Name)?;
    match mark(rest, TokenKind::From) {
        Some(behind) => {
            let ((from, to), rest) = span(behind)?;
            Ok((WrittenWindow::Part { route, from, to }, rest))
        }
        None => Ok((WrittenWindow::Whole { route }, rest)),
    }
}
