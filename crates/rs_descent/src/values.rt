//! The descent's part for values.
//!
//! Each function takes tokens from the front and returns the others, or those at which it stopped.

ghost use Rattle.std.specs.Prelude.{◌≡◌, ◌<◌, ◌++◌, length, IfOk};
ghost use Rattle.rs_grammar.specs.Grammar.{value_form};
ghost use Rattle.rs_syntax.specs.Written.{value_lexemes, lexemes_of};
ghost use Rattle.rs_descent.specs.Reading.{RunsTo};

use crate::front::{Stop, mark, text};
use rs_grammar::kind::TokenKind;
use rs_lexer::Token;
use rs_syntax::written::WrittenValue;

/// NULL | [ "-" ] Whole | Quoted
pub fn value(tokens: &[Token]) -> Result<(WrittenValue, &[Token]), Stop<'_>>
    ensures runs { RunsTo value_form tokens.now result }
    ensures spelled { IfOk result (λ found. lexemes_of tokens.now ≡ value_lexemes found.0 ++ lexemes_of found.1.now) }
    ensures shorter { IfOk result (λ found. length found.1.now < length tokens.now) }
{
    if let Some(rest) = mark(tokens, TokenKind::Null) {
        return Ok((WrittenValue::Null, rest));
    }
    if let Some(rest) = mark(tokens, TokenKind::MinusSign) {
        return match text(rest, TokenKind::Whole) {
            Some((digits, rest)) => Ok((WrittenValue::Whole(true, digits), rest)),
            None => Err(Stop::At(rest)),
        };
    }
    if let Some((digits, rest)) = text(tokens, TokenKind::Whole) {
        return Ok((WrittenValue::Whole(false, digits), rest));
    }
    if let Some((quoted, rest)) = text(tokens, TokenKind::Quoted) {
        return Ok((WrittenValue::Quoted(quoted), rest));
    }
    Err(Stop::At(tokens))
}
