//! The descent's part for INSERT and REMOVE.
//!
//! Each function takes tokens from the front and returns the others, or those at which it stopped. A
//! list is a loop.

ghost use Rattle.std.specs.Prelude.{◌≡◌, ◌<◌, ◌∷◌, ◌++◌, length, IfOk};
ghost use Rattle.rs_grammar.specs.declared.kind.TokenKind.TheVariants as kinds;
ghost use Rattle.rs_grammar.specs.Grammar.{insert_form, values_form, remove_form, removal_form};
ghost use Rattle.rs_syntax.specs.Written.{mark, told, value_lexemes, list_lexemes, removal_lexemes, spelling, lexemes_of, IsFull};
ghost use Rattle.rs_syntax.specs.View.{written_of};
ghost use Rattle.rs_syntax.specs.WrittenView.{removal_syntax};
ghost use Rattle.rs_descent.specs.Reading.{RunsTo, Begins};
ghost use Rattle.rs_descent.specs.Forms.{into_form, row_form};

use crate::conditions::condition;
use crate::front::{Stop, mark, need_mark, need_text, text};
use crate::positions::place;
use crate::values::value;
use crate::windows::window;
use rs_grammar::kind::TokenKind;
use rs_lexer::Token;
use rs_syntax::written::{WrittenAtom, WrittenCommand, WrittenValue};
use std::alloc::Global;

// value { "," value }
fn values(alloc: Global, tokens: &[Token]) -> Result<(Vec<WrittenValue>, &[Token]), Stop<'_>>
    ensures runs { RunsTo values_form tokens.now result }
    ensures spelled { IfOk result (λ found.
        lexemes_of tokens.now ≡ list_lexemes kinds.Comma value_lexemes found.0.items ++ lexemes_of found.1.now) }
    ensures some { IfOk result (λ found. 0 < length found.0.items) }
{
    let mut values = Vec::new(alloc);
    let mut rest = tokens;
    loop {
        let (value, behind) = value(rest)?;
        values.push(value)?;
        match mark(behind, TokenKind::Comma) {
            Some(next) => rest = next,
            None => return Ok((values, behind)),
        }
    }
}

// VALUES "(" values ")"
fn row(alloc: Global, tokens: &[Token]) -> Result<(Vec<WrittenValue>, &[Token]), Stop<'_>>
    ensures runs { RunsTo row_form tokens.now result }
    ensures spelled { IfOk result (λ found. lexemes_of tokens.now ≡ mark kinds.Values ∷ mark kinds.LeftParen
        ∷ (list_lexemes kinds.Comma value_lexemes found.0.items ++ mark kinds.RightParen ∷ lexemes_of found.1.now)) }
    ensures some { IfOk result (λ found. 0 < length found.0.items) }
{
    let rest = need_mark(tokens, TokenKind::Values)?;
    let rest = need_mark(rest, TokenKind::LeftParen)?;
    let (values, rest) = values(alloc, rest)?;
    match mark(rest, TokenKind::RightParen) {
        Some(behind) => Ok((values, behind)),
        None => Err(Stop::At(rest)),
    }
}

// INTO table ON route
fn table_on_route(tokens: &[Token]) -> Result<((Token, Token), &[Token]), Stop<'_>>
    ensures begins { Begins into_form tokens.now result }
    ensures spelled { IfOk result (λ found. lexemes_of tokens.now ≡ mark kinds.Into ∷ told kinds.Name found.0.0
        ∷ mark kinds.On ∷ told kinds.Name found.0.1 ∷ lexemes_of found.1.now) }
{
    let rest = need_mark(tokens, TokenKind::Into)?;
    let (table, rest) = need_text(rest, TokenKind::Name)?;
    let rest = need_mark(rest, TokenKind::On)?;
    match text(rest, TokenKind::Name) {
        Some((route, behind)) => Ok(((table, route), behind)),
        None => Err(Stop::At(rest)),
    }
}

/// After INSERT: INTO table ON route place VALUES "(" values ")"
pub fn insert(alloc: Global, tokens: &[Token]) -> Result<(WrittenCommand, &[Token]), Stop<'_>>
    ensures runs { RunsTo insert_form tokens.now result }
    ensures spelled { IfOk result (λ found. mark kinds.Insert ∷ lexemes_of tokens.now
        ≡ spelling (written_of found.0) ++ lexemes_of found.1.now) }
    ensures full { IfOk result (λ found. IsFull (written_of found.0)) }
{
    let ((table, route), rest) = table_on_route(tokens)?;
    let (place, rest) = place(rest)?;
    let (values, rest) = row(alloc, rest)?;
    let command = WrittenCommand::Insert {
        table,
        route,
        place,
        values,
    };
    Ok((command, rest))
}

// [ WHERE condition ]
fn removal(
    alloc: Global,
    tokens: &[Token],
) -> Result<(Option<Vec<Vec<WrittenAtom>>>, &[Token]), Stop<'_>>
    ensures runs { RunsTo removal_form tokens.now result }
    ensures spelled { IfOk result (λ found.
        lexemes_of tokens.now ≡ removal_lexemes (removal_syntax found.0) ++ lexemes_of found.1.now) }
{
    match mark(tokens, TokenKind::Where) {
        Some(rest) => {
            let (condition, rest) = condition(alloc, rest)?;
            Ok((Some(condition), rest))
        }
        None => Ok((None, tokens)),
    }
}

/// After REMOVE: table ON window [ WHERE condition ]
pub fn remove(alloc: Global, tokens: &[Token]) -> Result<(WrittenCommand, &[Token]), Stop<'_>>
    ensures runs { RunsTo remove_form tokens.now result }
    ensures spelled { IfOk result (λ found. mark kinds.Remove ∷ lexemes_of tokens.now
        ≡ spelling (written_of found.0) ++ lexemes_of found.1.now) }
    ensures full { IfOk result (λ found. IsFull (written_of found.0)) }
{
    let (table, rest) = need_text(tokens, TokenKind::Name)?;
    let rest = need_mark(rest, TokenKind::On)?;
    let (window, rest) = window(rest)?;
    let (condition, rest) = removal(alloc, rest)?;
    let command = WrittenCommand::Remove {
        table,
        window,
        condition,
    };
    Ok((command, rest))
}
