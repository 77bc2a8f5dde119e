//! The descent's part for measures, positions, places and methods.
//!
//! Each function takes tokens from the front and returns the others, or those at which it stopped.

ghost use Rattle.std.specs.Prelude.{◌≡◌, ◌<◌, ◌∷◌, ◌++◌, length, IfOk};
ghost use Rattle.rs_grammar.specs.declared.kind.TokenKind.TheVariants as kinds;
ghost use Rattle.rs_grammar.specs.Grammar.{span_form, place_form, measure_form, position_form, offset_form, method_form, wanted_form};
ghost use Rattle.rs_syntax.specs.Written.{mark, told, measure_lexemes, position_lexemes, span_lexemes, location_lexemes, method_lexemes, wanted_lexemes, lexemes_of};
ghost use Rattle.rs_descent.specs.Reading.{RunsTo};

use crate::front::{Stop, mark, need_mark, need_text, text};
use rs_grammar::kind::TokenKind;
use rs_lexer::Token;
use rs_methods::Method;
use rs_syntax::written::{WrittenLocation, WrittenPosition};

/// Whole | Decimal
pub fn measure(tokens: &[Token]) -> Result<(Token, &[Token]), Stop<'_>>
    ensures runs { RunsTo measure_form tokens.now result }
    ensures spelled { IfOk result (λ found. lexemes_of tokens.now ≡ measure_lexemes found.0 ++ lexemes_of found.1.now) }
{
    match text(tokens, TokenKind::Whole) {
        Some(found) => Ok(found),
        None => need_text(tokens, TokenKind::Decimal),
    }
}

// after a referent's name: [ ( "+" | "-" ) measure ]
fn offset(referent: Token, tokens: &[Token]) -> Result<(WrittenPosition, &[Token]), Stop<'_>>
    ensures runs { RunsTo offset_form tokens.now result }
    ensures spelled { IfOk result (λ found. mark kinds.AtSign ∷ told kinds.Name referent ∷ lexemes_of tokens.now
        ≡ position_lexemes found.0 ++ lexemes_of found.1.now) }
{
    if let Some(rest) = mark(tokens, TokenKind::PlusSign) {
        let (measure, rest) = measure(rest)?;
        return Ok((WrittenPosition::Beyond(referent, measure), rest));
    }
    if let Some(rest) = mark(tokens, TokenKind::MinusSign) {
        let (measure, rest) = measure(rest)?;
        return Ok((WrittenPosition::Before(referent, measure), rest));
    }
    Ok((WrittenPosition::Referent(referent), tokens))
}

/// measure [ "%" ] | "@" name [ ( "+" | "-" ) measure ]
pub fn position(tokens: &[Token]) -> Result<(WrittenPosition, &[Token]), Stop<'_>>
    ensures runs { RunsTo position_form tokens.now result }
    ensures spelled { IfOk result (λ found. lexemes_of tokens.now ≡ position_lexemes found.0 ++ lexemes_of found.1.now) }
{
    if let Some(rest) = mark(tokens, TokenKind::AtSign) {
        return match text(rest, TokenKind::Name) {
            Some((referent, rest)) => offset(referent, rest),
            None => Err(Stop::At(rest)),
        };
    }
    let (number, rest) = measure(tokens)?;
    match mark(rest, TokenKind::PercentSign) {
        Some(behind) => Ok((WrittenPosition::Percentage(number), behind)),
        None => Ok((WrittenPosition::Measure(number), rest)),
    }
}

/// After FROM: pos TO pos
pub fn span(tokens: &[Token]) -> Result<((WrittenPosition, WrittenPosition), &[Token]), Stop<'_>>
    ensures runs { RunsTo span_form tokens.now result }
    ensures spelled { IfOk result (λ found. lexemes_of tokens.now ≡ span_lexemes found.0.0 found.0.1 ++ lexemes_of found.1.now) }
    ensures shorter { IfOk result (λ found. length found.1.now < length tokens.now) }
{
    let (from, rest) = position(tokens)?;
    let rest = need_mark(rest, TokenKind::To)?;
    let (to, rest) = position(rest)?;
    Ok(((from, to), rest))
}

/// FROM pos TO pos | AT pos
pub fn place(tokens: &[Token]) -> Result<(WrittenLocation, &[Token]), Stop<'_>>
    ensures runs { RunsTo place_form tokens.now result }
    ensures spelled { IfOk result (λ found. lexemes_of tokens.now ≡ location_lexemes found.0 ++ lexemes_of found.1.now) }
{
    if let Some(rest) = mark(tokens, TokenKind::From) {
        let ((from, to), rest) = span(rest)?;
        return Ok((WrittenLocation::Along { from, to }, rest));
    }
    let rest = need_mark(tokens, TokenKind::At)?;
    let (position, rest) = position(rest)?;
    Ok((WrittenLocation::At { position }, rest))
}

/// ABSOLUTE | RELATIVE | INTERPOLATIVE
pub fn method(tokens: &[Token]) -> Result<(Method, &[Token]), Stop<'_>>
    ensures runs { RunsTo method_form tokens.now result }
    ensures spelled { IfOk result (λ found. lexemes_of tokens.now ≡ method_lexemes found.0 ++ lexemes_of found.1.now) }
{
    if let Some(rest) = mark(tokens, TokenKind::Absolute) {
        return Ok((Method::Absolute, rest));
    }
    if let Some(rest) = mark(tokens, TokenKind::Relative) {
        return Ok((Method::Relative, rest));
    }
    if let Some(rest) = mark(tokens, TokenKind::Interpolative) {
        return Ok((Method::Interpolative, rest));
    }
    Err(Stop::At(tokens))
}

/// [ AS method ]
pub fn wanted_method(tokens: &[Token]) -> Result<(Option<Method>, &[Token]), Stop<'_>>
    ensures runs { RunsTo wanted_form tokens.now result }
    ensures spelled { IfOk result (λ found. lexemes_of tokens.now ≡ wanted_lexemes found.0 ++ lexemes_of found.1.now) }
{
    match mark(tokens, TokenKind::As) {
        Some(rest) => {
            let (method, rest) = method(rest)?;
            Ok((Some(method), rest))
        }
        None => Ok((None, tokens)),
    }
}
