//! The descent's part for the commands of cursors and of the file.
//!
//! Each function takes tokens from the front and returns the others, or those at which it stopped.

ghost use Rattle.std.specs.Prelude.{◌≡◌, ◌∷◌, ◌++◌, IfOk};
ghost use Rattle.rs_grammar.specs.declared.kind.TokenKind.TheVariants as kinds;
ghost use Rattle.rs_grammar.specs.Grammar.{open_form, fetch_form, close_form};
ghost use Rattle.rs_syntax.specs.Written.{mark, spelling, lexemes_of, IsFull};
ghost use Rattle.rs_syntax.specs.View.{written_of};
ghost use Rattle.rs_descent.specs.Reading.{RunsTo};
ghost use Rattle.rs_descent.specs.Forms.{file_form, session_form};

use crate::front::{Stop, mark, need_mark, need_text};
use crate::positions::wanted_method;
use crate::queries::boxed_query;
use rs_grammar::kind::TokenKind;
use rs_lexer::Token;
use rs_syntax::written::WrittenCommand;
use std::alloc::Global;

// after OPEN: cursor FOR query [ AS method ]
fn open(alloc: Global, tokens: &[Token]) -> Result<(WrittenCommand, &[Token]), Stop<'_>>
    ensures runs { RunsTo open_form tokens.now result }
    ensures spelled { IfOk result (λ found. mark kinds.Open ∷ lexemes_of tokens.now
        ≡ spelling (written_of found.0) ++ lexemes_of found.1.now) }
    ensures full { IfOk result (λ found. IsFull (written_of found.0)) }
{
    let (cursor, rest) = need_text(tokens, TokenKind::Name)?;
    let rest = need_mark(rest, TokenKind::For)?;
    let (query, rest) = boxed_query(alloc, rest)?;
    let (method, rest) = wanted_method(rest)?;
    let command = WrittenCommand::Open {
        cursor,
        query,
        method,
    };
    Ok((command, rest))
}

// after FETCH: cursor Whole
fn fetch(tokens: &[Token]) -> Result<(WrittenCommand, &[Token]), Stop<'_>>
    ensures runs { RunsTo fetch_form tokens.now result }
    ensures spelled { IfOk result (λ found. mark kinds.Fetch ∷ lexemes_of tokens.now
        ≡ spelling (written_of found.0) ++ lexemes_of found.1.now) }
    ensures full { IfOk result (λ found. IsFull (written_of found.0)) }
{
    let (cursor, rest) = need_text(tokens, TokenKind::Name)?;
    let (rows, rest) = need_text(rest, TokenKind::Whole)?;
    Ok((WrittenCommand::Fetch { cursor, rows }, rest))
}

// after CLOSE: cursor
fn close(tokens: &[Token]) -> Result<(WrittenCommand, &[Token]), Stop<'_>>
    ensures runs { RunsTo close_form tokens.now result }
    ensures spelled { IfOk result (λ found. mark kinds.Close ∷ lexemes_of tokens.now
        ≡ spelling (written_of found.0) ++ lexemes_of found.1.now) }
    ensures full { IfOk result (λ found. IsFull (written_of found.0)) }
{
    let (cursor, rest) = need_text(tokens, TokenKind::Name)?;
    Ok((WrittenCommand::Close { cursor }, rest))
}

// SAVE | REOPEN
fn file_command(tokens: &[Token]) -> Result<(WrittenCommand, &[Token]), Stop<'_>>
    ensures runs { RunsTo file_form tokens.now result }
    ensures spelled { IfOk result (λ found. lexemes_of tokens.now ≡ spelling (written_of found.0) ++ lexemes_of found.1.now) }
    ensures full { IfOk result (λ found. IsFull (written_of found.0)) }
{
    if let Some(rest) = mark(tokens, TokenKind::Save) {
        return Ok((WrittenCommand::Save, rest));
    }
    match mark(tokens, TokenKind::Reopen) {
        Some(rest) => Ok((WrittenCommand::Reopen, rest)),
        None => Err(Stop::At(tokens)),
    }
}

/// A command of a cursor or of the file: OPEN, FETCH, CLOSE, SAVE or REOPEN.
pub fn session_command(
    alloc: Global,
    tokens: &[Token],
) -> Result<(WrittenCommand, &[Token]), Stop<'_>>
    ensures runs { RunsTo session_form tokens.now result }
    ensures spelled { IfOk result (λ found. lexemes_of tokens.now ≡ spelling (written_of found.0) ++ lexemes_of found.1.now) }
    ensures full { IfOk result (λ found. IsFull (written_of found.0)) }
{
    if let Some(rest) = mark(tokens, TokenKind::Open) {
        return open(alloc, rest);
    }
    if let Some(rest) = mark(tokens, TokenKind::Fetch) {
        return fetch(rest);
    }
    if let Some(rest) = mark(tokens, TokenKind::Close) {
        return close(rest);
    }
    file_command(tokens)
}
