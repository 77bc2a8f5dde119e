//! The descent's part for TOTAL.
//!
//! Each function takes tokens from the front and returns the others, or those at which it stopped.

ghost use Rattle.std.specs.Prelude.{◌≡◌, ◌∷◌, ◌++◌, IfOk};
ghost use Rattle.rs_grammar.specs.declared.kind.TokenKind.TheVariants as kinds;
ghost use Rattle.rs_grammar.specs.Grammar.{summed_form, total_form};
ghost use Rattle.rs_syntax.specs.Written.{mark, summed_lexemes, spelling, lexemes_of, IsFull};
ghost use Rattle.rs_syntax.specs.View.{written_of};
ghost use Rattle.rs_descent.specs.Reading.{RunsTo};

use crate::front::{Stop, mark, need_mark, text};
use crate::names::bracketed_names;
use crate::queries::boxed_query;
use rs_grammar::kind::TokenKind;
use rs_lexer::Token;
use rs_syntax::written::WrittenCommand;
use std::alloc::Global;

// [ SUM column ]
fn summed_column(tokens: &[Token]) -> Result<(Option<Token>, &[Token]), Stop<'_>>
    ensures runs { RunsTo summed_form tokens.now result }
    ensures spelled { IfOk result (λ found. lexemes_of tokens.now ≡ summed_lexemes found.0 ++ lexemes_of found.1.now) }
{
    if let Some(rest) = mark(tokens, TokenKind::Sum) {
        return match text(rest, TokenKind::Name) {
            Some((column, rest)) => Ok((Some(column), rest)),
            None => Err(Stop::At(rest)),
        };
    }
    Ok((None, tokens))
}

/// After TOTAL: query BY "(" [ columns ] ")" [ SUM column ]
pub fn total(alloc: Global, tokens: &[Token]) -> Result<(WrittenCommand, &[Token]), Stop<'_>>
    ensures runs { RunsTo total_form tokens.now result }
    ensures spelled { IfOk result (λ found. mark kinds.Total ∷ lexemes_of tokens.now
        ≡ spelling (written_of found.0) ++ lexemes_of found.1.now) }
    ensures full { IfOk result (λ found. IsFull (written_of found.0)) }
{
    let (query, rest) = boxed_query(alloc, tokens)?;
    let rest = need_mark(rest, TokenKind::By)?;
    let (by, rest) = bracketed_names(alloc, rest)?;
    let (summed, rest) = summed_column(rest)?;
    Ok((WrittenCommand::Total { query, by, summed }, rest))
}
