//! The descent's part for queries.
//!
//! Each function takes tokens from the front and returns the others, or those at which it stopped.
//! Calls nest only with the brackets of a line.

ghost use Rattle.std.specs.Prelude.{◌≡◌, ◌<◌, ◌∷◌, ◌++◌, length, IfOk};
ghost use Rattle.rs_grammar.specs.declared.kind.TokenKind.TheVariants as kinds;
ghost use Rattle.rs_grammar.specs.Grammar.{query_form, operand_query_form, where_form, dissolve_form, rename_form, pair_form, window_query_form, transform_form, gaps_form};
ghost use Rattle.rs_syntax.specs.Written.{mark, told, pair_kind, query_lexemes, lexemes_of};
ghost use Rattle.rs_syntax.specs.WrittenView.{query_syntax};
ghost use Rattle.rs_descent.specs.Reading.{RunsTo, Begins, renaming_form, closing_form};

use crate::conditions::condition;
use crate::front::{Stop, mark, need_mark, need_text, text};
use crate::names::bracketed_names;
use crate::windows::window;
use rs_grammar::kind::TokenKind;
use rs_lexer::Token;
use rs_syntax::written::{PairOperator, WrittenQuery};
use std::alloc::Global;

// a bracket that closes, after all else of a query
fn closed(query: WrittenQuery, tokens: &[Token]) -> Result<(WrittenQuery, &[Token]), Stop<'_>>
    ensures runs { RunsTo closing_form tokens.now result }
    ensures same { IfOk result (λ found. found.0 ≡ query) }
    ensures spelled { IfOk result (λ found. lexemes_of tokens.now ≡ mark kinds.RightParen ∷ lexemes_of found.1.now) }
    ensures shorter { IfOk result (λ found. length found.1.now < length tokens.now) }
{
    match mark(tokens, TokenKind::RightParen) {
        Some(rest) => Ok((query, rest)),
        None => Err(Stop::At(tokens)),
    }
}

// name TO name
fn renaming(tokens: &[Token]) -> Result<((Token, Token), &[Token]), Stop<'_>>
    ensures begins { Begins renaming_form tokens.now result }
    ensures spelled { IfOk result (λ found. lexemes_of tokens.now
        ≡ told kinds.Name found.0.0 ∷ mark kinds.To ∷ told kinds.Name found.0.1 ∷ lexemes_of found.1.now) }
    ensures shorter { IfOk result (λ found. length found.1.now < length tokens.now) }
{
    let (from, rest) = need_text(tokens, TokenKind::Name)?;
    let rest = need_mark(rest, TokenKind::To)?;
    let (to, rest) = need_text(rest, TokenKind::Name)?;
    Ok(((from, to), rest))
}

/// Reads the syntax of a query from the front into a box, and returns the tokens after it.
#[cycle(reading)]
pub fn boxed_query(
    alloc: Global,
    tokens: &[Token],
) -> Result<(Box<WrittenQuery>, &[Token]), Stop<'_>>
    ensures runs { RunsTo query_form tokens.now result }
    ensures spelled { IfOk result (λ found.
        lexemes_of tokens.now ≡ query_lexemes (query_syntax found.0.value) ++ lexemes_of found.1.now) }
    ensures shorter { IfOk result (λ found. length found.1.now < length tokens.now) }
{
    let (query, rest) = query(alloc, tokens)?;
    Ok((Box::new(alloc, query)?, rest))
}

// "(" query ","
#[cycle(reading)]
fn operand_query(alloc: Global, tokens: &[Token]) -> Result<(Box<WrittenQuery>, &[Token]), Stop<'_>>
    ensures begins { Begins operand_query_form tokens.now result }
    ensures spelled { IfOk result (λ found. lexemes_of tokens.now
        ≡ mark kinds.LeftParen ∷ (query_lexemes (query_syntax found.0.value) ++ mark kinds.Comma ∷ lexemes_of found.1.now)) }
    ensures shorter { IfOk result (λ found. length found.1.now < length tokens.now) }
{
    let rest = need_mark(tokens, TokenKind::LeftParen)?;
    let (query, rest) = boxed_query(alloc, rest)?;
    match mark(rest, TokenKind::Comma) {
        Some(behind) => Ok((query, behind)),
        None => Err(Stop::At(rest)),
    }
}

// after WHERE: "(" query "," condition ")"
#[cycle(reading)]
fn where_query(alloc: Global, tokens: &[Token]) -> Result<(WrittenQuery, &[Token]), Stop<'_>>
    ensures runs { RunsTo where_form tokens.now result }
    ensures spelled { IfOk result (λ found. mark kinds.Where ∷ lexemes_of tokens.now
        ≡ query_lexemes (query_syntax found.0) ++ lexemes_of found.1.now) }
    ensures shorter { IfOk result (λ found. length found.1.now < length tokens.now) }
{
    let (query, rest) = operand_query(alloc, tokens)?;
    let (condition, rest) = condition(alloc, rest)?;
    closed(WrittenQuery::Where(query, condition), rest)
}

// after DISSOLVE: "(" query "," "(" [ names ] ")" ")"
#[cycle(reading)]
fn dissolve_query(alloc: Global, tokens: &[Token]) -> Result<(WrittenQuery, &[Token]), Stop<'_>>
    ensures runs { RunsTo dissolve_form tokens.now result }
    ensures spelled { IfOk result (λ found. mark kinds.Dissolve ∷ lexemes_of tokens.now
        ≡ query_lexemes (query_syntax found.0) ++ lexemes_of found.1.now) }
    ensures shorter { IfOk result (λ found. length found.1.now < length tokens.now) }
{
    let (query, rest) = operand_query(alloc, tokens)?;
    let (names, rest) = bracketed_names(alloc, rest)?;
    closed(WrittenQuery::Dissolve(query, names), rest)
}

// after RENAME: "(" query "," name TO name ")"
#[cycle(reading)]
fn rename_query(alloc: Global, tokens: &[Token]) -> Result<(WrittenQuery, &[Token]), Stop<'_>>
    ensures runs { RunsTo rename_form tokens.now result }
    ensures spelled { IfOk result (λ found. mark kinds.Rename ∷ lexemes_of tokens.now
        ≡ query_lexemes (query_syntax found.0) ++ lexemes_of found.1.now) }
    ensures shorter { IfOk result (λ found. length found.1.now < length tokens.now) }
{
    let (query, rest) = operand_query(alloc, tokens)?;
    let ((from, to), rest) = renaming(rest)?;
    closed(WrittenQuery::Rename(query, from, to), rest)
}

// after an operator's word: "(" query "," query ")"
#[cycle(reading)]
fn pair_query(
    alloc: Global,
    operator: PairOperator,
    tokens: &[Token],
) -> Result<(WrittenQuery, &[Token]), Stop<'_>>
    ensures runs { RunsTo pair_form tokens.now result }
    ensures spelled { IfOk result (λ found. mark (pair_kind operator) ∷ lexemes_of tokens.now
        ≡ query_lexemes (query_syntax found.0) ++ lexemes_of found.1.now) }
    ensures shorter { IfOk result (λ found. length found.1.now < length tokens.now) }
{
    let (left, rest) = operand_query(alloc, tokens)?;
    let (right, rest) = boxed_query(alloc, rest)?;
    closed(WrittenQuery::Pair(operator, left, right), rest)
}

// after WINDOW: "(" query "," window ")"
#[cycle(reading)]
fn window_query(alloc: Global, tokens: &[Token]) -> Result<(WrittenQuery, &[Token]), Stop<'_>>
    ensures runs { RunsTo window_query_form tokens.now result }
    ensures spelled { IfOk result (λ found. mark kinds.Window ∷ lexemes_of tokens.now
        ≡ query_lexemes (query_syntax found.0) ++ lexemes_of found.1.now) }
    ensures shorter { IfOk result (λ found. length found.1.now < length tokens.now) }
{
    let (query, rest) = operand_query(alloc, tokens)?;
    let (window, rest) = window(rest)?;
    closed(WrittenQuery::Window(query, window), rest)
}

// after TRANSFORM: "(" query "," name ")"
#[cycle(reading)]
fn transform_query(alloc: Global, tokens: &[Token]) -> Result<(WrittenQuery, &[Token]), Stop<'_>>
    ensures runs { RunsTo transform_form tokens.now result }
    ensures spelled { IfOk result (λ found. mark kinds.Transform ∷ lexemes_of tokens.now
        ≡ query_lexemes (query_syntax found.0) ++ lexemes_of found.1.now) }
    ensures shorter { IfOk result (λ found. length found.1.now < length tokens.now) }
{
    let (query, rest) = operand_query(alloc, tokens)?;
    match text(rest, TokenKind::Name) {
        Some((alignment, behind)) => closed(WrittenQuery::Transform(query, alignment), behind),
        None => Err(Stop::At(rest)),
    }
}

// after GAPS: "(" query ")"
#[cycle(reading)]
fn gaps_query(alloc: Global, tokens: &[Token]) -> Result<(WrittenQuery, &[Token]), Stop<'_>>
    ensures runs { RunsTo gaps_form tokens.now result }
    ensures spelled { IfOk result (λ found. mark kinds.Gaps ∷ lexemes_of tokens.now
        ≡ query_lexemes (query_syntax found.0) ++ lexemes_of found.1.now) }
    ensures shorter { IfOk result (λ found. length found.1.now < length tokens.now) }
{
    let rest = need_mark(tokens, TokenKind::LeftParen)?;
    let (query, rest) = boxed_query(alloc, rest)?;
    closed(WrittenQuery::Gaps(query), rest)
}

// query
#[cycle(reading)]
fn query(alloc: Global, tokens: &[Token]) -> Result<(WrittenQuery, &[Token]), Stop<'_>>
    ensures runs { RunsTo query_form tokens.now result }
    ensures spelled { IfOk result (λ found.
        lexemes_of tokens.now ≡ query_lexemes (query_syntax found.0) ++ lexemes_of found.1.now) }
    ensures shorter { IfOk result (λ found. length found.1.now < length tokens.now) }
{
    if let Some(rest) = mark(tokens, TokenKind::Where) {
        return where_query(alloc, rest);
    }
    if let Some(rest) = mark(tokens, TokenKind::Dissolve) {
        return dissolve_query(alloc, rest);
    }
    if let Some(rest) = mark(tokens, TokenKind::Rename) {
        return rename_query(alloc, rest);
    }
    if let Some(rest) = mark(tokens, TokenKind::Overlay) {
        return pair_query(alloc, PairOperator::Overlay, rest);
    }
    if let Some(rest) = mark(tokens, TokenKind::Cover) {
        return pair_query(alloc, PairOperator::Cover, rest);
    }
    if let Some(rest) = mark(tokens, TokenKind::Merge) {
        return pair_query(alloc, PairOperator::Merge, rest);
    }
    if let Some(rest) = mark(tokens, TokenKind::Minus) {
        return pair_query(alloc, PairOperator::Minus, rest);
    }
    if let Some(rest) = mark(tokens, TokenKind::Window) {
        return window_query(alloc, rest);
    }
    if let Some(rest) = mark(tokens, TokenKind::Transform) {
        return transform_query(alloc, rest);
    }
    if let Some(rest) = mark(tokens, TokenKind::Gaps) {
        return gaps_query(alloc, rest);
    }
    match text(tokens, TokenKind::Name) {
        Some((name, rest)) => Ok((WrittenQuery::Named(name), rest)),
        None => Err(Stop::At(tokens)),
    }
}
