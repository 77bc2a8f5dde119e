//! The descent: reads the syntax of a command by the table of the grammar, one token ahead.
//!
//! Each function takes tokens from the front and returns the others, or the tokens from the first on
//! that no rule goes on with. Lists are loops, so calls nest only with the brackets of a line.

ghost use Rattle.std.specs.Prelude.{◌≡◌, ◌∷◌, ◌++◌, IfOk};
ghost use Rattle.rs_grammar.specs.declared.kind.TokenKind.TheVariants as kinds;
ghost use Rattle.rs_grammar.specs.Grammar.{command_form, select_form, explain_form};
ghost use Rattle.rs_syntax.specs.Written.{mark, spelling, lexemes_of, IsFull};
ghost use Rattle.rs_syntax.specs.View.{written_of};
ghost use Rattle.rs_descent.specs.Reading.{RunsTo};
ghost use Rattle.rs_descent.specs.Forms.{asking_form};

use rs_descent::cursors::session_command;
use rs_descent::definitions::define;
use rs_descent::drops::drop_command;
use rs_descent::events::{insert, remove};
use rs_descent::front::{Stop, mark};
use rs_descent::moves::{move_referent, translate};
use rs_descent::positions::wanted_method;
use rs_descent::queries::boxed_query;
use rs_descent::totals::total;
use rs_grammar::kind::TokenKind;
use rs_lexer::Token;
use rs_syntax::written::WrittenCommand;
use std::alloc::Global;

// after SELECT: query [ AS method ]
fn select(alloc: Global, tokens: &[Token]) -> Result<(WrittenCommand, &[Token]), Stop<'_>>
    ensures runs { RunsTo select_form tokens.now result }
    ensures spelled { IfOk result (λ found. mark kinds.Select ∷ lexemes_of tokens.now
        ≡ spelling (written_of found.0) ++ lexemes_of found.1.now) }
    ensures full { IfOk result (λ found. IsFull (written_of found.0)) }
{
    let (query, rest) = boxed_query(alloc, tokens)?;
    let (method, rest) = wanted_method(rest)?;
    Ok((WrittenCommand::Select { query, method }, rest))
}

// after EXPLAIN: query
fn explain(alloc: Global, tokens: &[Token]) -> Result<(WrittenCommand, &[Token]), Stop<'_>>
    ensures runs { RunsTo explain_form tokens.now result }
    ensures spelled { IfOk result (λ found. mark kinds.Explain ∷ lexemes_of tokens.now
        ≡ spelling (written_of found.0) ++ lexemes_of found.1.now) }
    ensures full { IfOk result (λ found. IsFull (written_of found.0)) }
{
    let (query, rest) = boxed_query(alloc, tokens)?;
    Ok((WrittenCommand::Explain { query }, rest))
}

// A question, or a command of a cursor or of the file.
fn asking(alloc: Global, tokens: &[Token]) -> Result<(WrittenCommand, &[Token]), Stop<'_>>
    ensures runs { RunsTo asking_form tokens.now result }
    ensures spelled { IfOk result (λ found. lexemes_of tokens.now ≡ spelling (written_of found.0) ++ lexemes_of found.1.now) }
    ensures full { IfOk result (λ found. IsFull (written_of found.0)) }
{
    if let Some(rest) = mark(tokens, TokenKind::Translate) {
        return translate(rest);
    }
    if let Some(rest) = mark(tokens, TokenKind::Select) {
        return select(alloc, rest);
    }
    if let Some(rest) = mark(tokens, TokenKind::Total) {
        return total(alloc, rest);
    }
    if let Some(rest) = mark(tokens, TokenKind::Explain) {
        return explain(alloc, rest);
    }
    session_command(alloc, tokens)
}

/// Reads the syntax of a command from the front, and returns the tokens after it.
pub fn command(alloc: Global, tokens: &[Token]) -> Result<(WrittenCommand, &[Token]), Stop<'_>>
    ensures runs { RunsTo command_form tokens.now result }
    ensures spelled { IfOk result (λ found. lexemes_of tokens.now ≡ spelling (written_of found.0) ++ lexemes_of found.1.now) }
    ensures full { IfOk result (λ found. IsFull (written_of found.0)) }
{
    if let Some(rest) = mark(tokens, TokenKind::Define) {
        return define(alloc, rest);
    }
    if let Some(rest) = mark(tokens, TokenKind::Drop) {
        return drop_command(rest);
    }
    if let Some(rest) = mark(tokens, TokenKind::Move) {
        return move_referent(rest);
    }
    if let Some(rest) = mark(tokens, TokenKind::Insert) {
        return insert(alloc, rest);
    }
    if let Some(rest) = mark(tokens, TokenKind::Remove) {
        return remove(alloc, rest);
    }
    asking(alloc, tokens)
}
