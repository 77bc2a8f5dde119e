//! The descent's part for DEFINE ALIGNMENT.
//!
//! Each function takes tokens from the front and returns the others, or those at which it stopped. A
//! list is a loop.

ghost use Rattle.std.specs.Prelude.{◌≡◌, ◌<◌, ◌∷◌, ◌++◌, length, IfOk};
ghost use Rattle.rs_grammar.specs.declared.kind.TokenKind.TheVariants as kinds;
ghost use Rattle.rs_grammar.specs.Grammar.{define_alignment_form, pieces_form, piece_form};
ghost use Rattle.rs_syntax.specs.Written.{mark, told, measure_lexemes, piece_lexemes, list_lexemes, spelling, lexemes_of, IsFull};
ghost use Rattle.rs_syntax.specs.View.{written_of};
ghost use Rattle.rs_descent.specs.Reading.{RunsTo, Begins};
ghost use Rattle.rs_descent.specs.Forms.{carried_form, landing_form};

use crate::front::{Stop, mark, need_mark, need_text};
use crate::positions::measure;
use rs_grammar::kind::TokenKind;
use rs_lexer::Token;
use rs_syntax::written::{WrittenCommand, WrittenPiece};
use std::alloc::Global;

// A part of a route: its name, and the measures between which it lies.
#[derive(Clone, Copy)]
struct WrittenPart {
    route: Token,
    from: Token,
    to: Token,
}

// route FROM measure TO measure
fn carried(tokens: &[Token]) -> Result<(WrittenPart, &[Token]), Stop<'_>>
    ensures begins { Begins carried_form tokens.now result }
    ensures spelled { IfOk result (λ found. lexemes_of tokens.now ≡ told kinds.Name found.0.route ∷ mark kinds.From
        ∷ (measure_lexemes found.0.from ++ mark kinds.To ∷ (measure_lexemes found.0.to ++ lexemes_of found.1.now))) }
{
    let (route, rest) = need_text(tokens, TokenKind::Name)?;
    let rest = need_mark(rest, TokenKind::From)?;
    let (from, rest) = measure(rest)?;
    let rest = need_mark(rest, TokenKind::To)?;
    let (to, rest) = measure(rest)?;
    Ok((WrittenPart { route, from, to }, rest))
}

// INTO route AT measure
fn landing(tokens: &[Token]) -> Result<((Token, Token), &[Token]), Stop<'_>>
    ensures runs { RunsTo landing_form tokens.now result }
    ensures spelled { IfOk result (λ found. lexemes_of tokens.now
        ≡ mark kinds.Into ∷ told kinds.Name found.0.0 ∷ mark kinds.At ∷ (measure_lexemes found.0.1 ++ lexemes_of found.1.now)) }
{
    let rest = need_mark(tokens, TokenKind::Into)?;
    let (route, rest) = need_text(rest, TokenKind::Name)?;
    let rest = need_mark(rest, TokenKind::At)?;
    let (at, rest) = measure(rest)?;
    Ok(((route, at), rest))
}

// route FROM measure TO measure INTO route AT measure
fn piece(tokens: &[Token]) -> Result<(WrittenPiece, &[Token]), Stop<'_>>
    ensures runs { RunsTo piece_form tokens.now result }
    ensures spelled { IfOk result (λ found. lexemes_of tokens.now ≡ piece_lexemes found.0 ++ lexemes_of found.1.now) }
    ensures shorter { IfOk result (λ found. length found.1.now < length tokens.now) }
{
    let (part, rest) = carried(tokens)?;
    let ((onto_route, onto), rest) = landing(rest)?;
    let piece = WrittenPiece {
        from_route: part.route,
        from: part.from,
        to: part.to,
        onto_route,
        onto,
    };
    Ok((piece, rest))
}

// piece { "," piece }
fn pieces(alloc: Global, tokens: &[Token]) -> Result<(Vec<WrittenPiece>, &[Token]), Stop<'_>>
    ensures runs { RunsTo pieces_form tokens.now result }
    ensures spelled { IfOk result (λ found.
        lexemes_of tokens.now ≡ list_lexemes kinds.Comma piece_lexemes found.0.items ++ lexemes_of found.1.now) }
    ensures some { IfOk result (λ found. 0 < length found.0.items) }
{
    let mut pieces = Vec::new(alloc);
    let mut rest = tokens;
    loop {
        let (piece, behind) = piece(rest)?;
        pieces.push(piece)?;
        match mark(behind, TokenKind::Comma) {
            Some(next) => rest = next,
            None => return Ok((pieces, behind)),
        }
    }
}

/// After DEFINE ALIGNMENT: name "(" pieces ")"
pub fn define_alignment(
    alloc: Global,
    tokens: &[Token],
) -> Result<(WrittenCommand, &[Token]), Stop<'_>>
    ensures runs { RunsTo define_alignment_form tokens.now result }
    ensures spelled { IfOk result (λ found. mark kinds.Define ∷ mark kinds.Alignment ∷ lexemes_of tokens.now
        ≡ spelling (written_of found.0) ++ lexemes_of found.1.now) }
    ensures full { IfOk result (λ found. IsFull (written_of found.0)) }
{
    let (name, rest) = need_text(tokens, TokenKind::Name)?;
    let rest = need_mark(rest, TokenKind::LeftParen)?;
    let (pieces, rest) = pieces(alloc, rest)?;
    match mark(rest, TokenKind::RightParen) {
        Some(behind) => Ok((WrittenCommand::DefineAlignment { name, pieces }, behind)),
        None => Err(Stop::At(rest)),
    }
}
