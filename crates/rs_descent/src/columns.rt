//! The descent's part for the columns of a table.
//!
//! Each function takes tokens from the front and returns the others, or those at which it stopped. A
//! list is a loop.

ghost use Rattle.std.specs.Prelude.{◌≡◌, ◌<◌, ◌++◌, length, IfOk};
ghost use Rattle.rs_grammar.specs.declared.kind.TokenKind.TheVariants as kinds;
ghost use Rattle.rs_grammar.specs.Grammar.{columns_form, column_form, type_form};
ghost use Rattle.rs_syntax.specs.Written.{type_lexemes, column_lexemes, list_lexemes, lexemes_of};
ghost use Rattle.rs_descent.specs.Reading.{RunsTo};

use crate::front::{Stop, mark, need_mark, need_text};
use rs_grammar::kind::TokenKind;
use rs_lexer::Token;
use rs_syntax::written::{WrittenColumn, WrittenType};
use std::alloc::Global;

// INT | TEXT "(" Whole ")"
fn column_type(tokens: &[Token]) -> Result<(WrittenType, &[Token]), Stop<'_>>
    ensures runs { RunsTo type_form tokens.now result }
    ensures spelled { IfOk result (λ found. lexemes_of tokens.now ≡ type_lexemes found.0 ++ lexemes_of found.1.now) }
{
    if let Some(rest) = mark(tokens, TokenKind::Int) {
        return Ok((WrittenType::Int, rest));
    }
    let rest = need_mark(tokens, TokenKind::Text)?;
    let rest = need_mark(rest, TokenKind::LeftParen)?;
    let (most, rest) = need_text(rest, TokenKind::Whole)?;
    match mark(rest, TokenKind::RightParen) {
        Some(behind) => Ok((WrittenType::Text(most), behind)),
        None => Err(Stop::At(rest)),
    }
}

// name type
fn column(tokens: &[Token]) -> Result<(WrittenColumn, &[Token]), Stop<'_>>
    ensures runs { RunsTo column_form tokens.now result }
    ensures spelled { IfOk result (λ found. lexemes_of tokens.now ≡ column_lexemes found.0 ++ lexemes_of found.1.now) }
    ensures shorter { IfOk result (λ found. length found.1.now < length tokens.now) }
{
    let (name, rest) = need_text(tokens, TokenKind::Name)?;
    let (column_type, rest) = column_type(rest)?;
    Ok((WrittenColumn { name, column_type }, rest))
}

/// column { "," column }
pub fn columns(alloc: Global, tokens: &[Token]) -> Result<(Vec<WrittenColumn>, &[Token]), Stop<'_>>
    ensures runs { RunsTo columns_form tokens.now result }
    ensures spelled { IfOk result (λ found.
        lexemes_of tokens.now ≡ list_lexemes kinds.Comma column_lexemes found.0.items ++ lexemes_of found.1.now) }
    ensures some { IfOk result (λ found. 0 < length found.0.items) }
{
    let mut columns = Vec::new(alloc);
    let mut rest = tokens;
    loop {
        let (column, behind) = column(rest)?;
        columns.push(column)?;
        match mark(behind, TokenKind::Comma) {
            Some(next) => rest = next,
            None => return Ok((columns, behind)),
        }
    }
}
