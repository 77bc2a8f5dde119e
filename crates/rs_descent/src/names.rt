//! The descent's part for lists of names.
//!
//! Each function takes tokens from the front and returns the others, or those at which it stopped. A
//! list is a loop.

ghost use Rattle.std.specs.Prelude.{◌≡◌, ◌<◌, ◌++◌, length, IfOk};
ghost use Rattle.rs_grammar.specs.declared.kind.TokenKind.TheVariants as kinds;
ghost use Rattle.rs_grammar.specs.Grammar.{column_name_form, names_form, bracketed_names_form};
ghost use Rattle.rs_syntax.specs.Written.{name_lexemes, list_lexemes, bracketed_names_lexemes, lexemes_of};
ghost use Rattle.rs_descent.specs.Reading.{RunsTo};

use crate::front::{Stop, mark, need_mark, need_text};
use rs_grammar::kind::TokenKind;
use rs_lexer::Token;
use std::alloc::Global;

// name
fn column_name(tokens: &[Token]) -> Result<(Token, &[Token]), Stop<'_>>
    ensures runs { RunsTo column_name_form tokens.now result }
    ensures spelled { IfOk result (λ found. lexemes_of tokens.now ≡ name_lexemes found.0 ++ lexemes_of found.1.now) }
    ensures shorter { IfOk result (λ found. length found.1.now < length tokens.now) }
{
    need_text(tokens, TokenKind::Name)
}

// name { "," name }
fn names(alloc: Global, tokens: &[Token]) -> Result<(Vec<Token>, &[Token]), Stop<'_>>
    ensures runs { RunsTo names_form tokens.now result }
    ensures spelled { IfOk result (λ found.
        lexemes_of tokens.now ≡ list_lexemes kinds.Comma name_lexemes found.0.items ++ lexemes_of found.1.now) }
    ensures shorter { IfOk result (λ found. length found.1.now < length tokens.now) }
{
    let mut names = Vec::new(alloc);
    let mut rest = tokens;
    loop {
        let (name, behind) = column_name(rest)?;
        names.push(name)?;
        match mark(behind, TokenKind::Comma) {
            Some(next) => rest = next,
            None => return Ok((names, behind)),
        }
    }
}

/// "(" [ name { "," name } ] ")"
pub fn bracketed_names(alloc: Global, tokens: &[Token]) -> Result<(Vec<Token>, &[Token]), Stop<'_>>
    ensures runs { RunsTo bracketed_names_form tokens.now result }
    ensures spelled { IfOk result (λ found.
        lexemes_of tokens.now ≡ bracketed_names_lexemes found.0.items ++ lexemes_of found.1.now) }
    ensures shorter { IfOk result (λ found. length found.1.now < length tokens.now) }
{
    let rest = need_mark(tokens, TokenKind::LeftParen)?;
    if let Some(behind) = mark(rest, TokenKind::RightParen) {
        return Ok((Vec::new(alloc), behind));
    }
    let (names, rest) = names(alloc, rest)?;
    match mark(rest, TokenKind::RightParen) {
        Some(behind) => Ok((names, behind)),
        None => Err(Stop::At(rest)),
    }
}
