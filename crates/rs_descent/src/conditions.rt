//! The descent's part for conditions.
//!
//! Each function takes tokens from the front and returns the others, or those at which it stopped.
//! Chains of AND and OR are loops, so calls nest only with the brackets of a line.

ghost use Rattle.std.specs.Prelude.{◌≡◌, ◌<◌, ◌∷◌, ◌++◌, length, IfOk};
ghost use Rattle.rs_grammar.specs.declared.kind.TokenKind.TheVariants as kinds;
ghost use Rattle.rs_grammar.specs.Grammar.{condition_form, conjunction_form, inside_form, null_form, test_form, atom_form, comparison_form, operand_form};
ghost use Rattle.rs_syntax.specs.Written.{mark, told, comparison_lexemes, operand_lexemes, atom_lexemes, conjunction_lexemes, condition_lexemes, lexemes_of};
ghost use Rattle.rs_syntax.specs.WrittenView.{atom_syntax, conjunction_syntax, condition_syntax};
ghost use Rattle.rs_descent.specs.Reading.{RunsTo};

use crate::front::{Stop, mark, need_mark, text};
use rs_grammar::kind::TokenKind;
use rs_lexer::Token;
use rs_syntax::written::{WrittenAtom, WrittenOperand};
use rs_value::Comparison;
use std::alloc::Global;

// "=" | "<>" | "<" | "<=" | ">" | ">="
fn comparison(tokens: &[Token]) -> Result<(Comparison, &[Token]), Stop<'_>>
    ensures runs { RunsTo comparison_form tokens.now result }
    ensures spelled { IfOk result (λ found. lexemes_of tokens.now ≡ comparison_lexemes found.0 ++ lexemes_of found.1.now) }
    ensures shorter { IfOk result (λ found. length found.1.now < length tokens.now) }
{
    if let Some(rest) = mark(tokens, TokenKind::Equal) {
        return Ok((Comparison::Equal, rest));
    }
    if let Some(rest) = mark(tokens, TokenKind::Unequal) {
        return Ok((Comparison::Unequal, rest));
    }
    if let Some(rest) = mark(tokens, TokenKind::Less) {
        return Ok((Comparison::Less, rest));
    }
    if let Some(rest) = mark(tokens, TokenKind::LessOrEqual) {
        return Ok((Comparison::LessOrEqual, rest));
    }
    if let Some(rest) = mark(tokens, TokenKind::Greater) {
        return Ok((Comparison::Greater, rest));
    }
    if let Some(rest) = mark(tokens, TokenKind::GreaterOrEqual) {
        return Ok((Comparison::GreaterOrEqual, rest));
    }
    Err(Stop::At(tokens))
}

// name | [ "-" ] Whole | Quoted
fn operand(tokens: &[Token]) -> Result<(WrittenOperand, &[Token]), Stop<'_>>
    ensures runs { RunsTo operand_form tokens.now result }
    ensures spelled { IfOk result (λ found. lexemes_of tokens.now ≡ operand_lexemes found.0 ++ lexemes_of found.1.now) }
    ensures shorter { IfOk result (λ found. length found.1.now < length tokens.now) }
{
    if let Some((name, rest)) = text(tokens, TokenKind::Name) {
        return Ok((WrittenOperand::Column(name), rest));
    }
    if let Some(rest) = mark(tokens, TokenKind::MinusSign) {
        return match text(rest, TokenKind::Whole) {
            Some((digits, rest)) => Ok((WrittenOperand::Whole(true, digits), rest)),
            None => Err(Stop::At(rest)),
        };
    }
    if let Some((digits, rest)) = text(tokens, TokenKind::Whole) {
        return Ok((WrittenOperand::Whole(false, digits), rest));
    }
    if let Some((quoted, rest)) = text(tokens, TokenKind::Quoted) {
        return Ok((WrittenOperand::Quoted(quoted), rest));
    }
    Err(Stop::At(tokens))
}

// after a column and IS: [ NOT ] NULL
fn null_test(name: Token, tokens: &[Token]) -> Result<(WrittenAtom, &[Token]), Stop<'_>>
    ensures runs { RunsTo null_form tokens.now result }
    ensures spelled { IfOk result (λ found. told kinds.Name name ∷ mark kinds.Is ∷ lexemes_of tokens.now
        ≡ atom_lexemes (atom_syntax found.0) ++ lexemes_of found.1.now) }
    ensures shorter { IfOk result (λ found. length found.1.now < length tokens.now) }
{
    if let Some(rest) = mark(tokens, TokenKind::Not) {
        return match mark(rest, TokenKind::Null) {
            Some(rest) => Ok((WrittenAtom::IsNotNull(name), rest)),
            None => Err(Stop::At(rest)),
        };
    }
    if let Some(rest) = mark(tokens, TokenKind::Null) {
        return Ok((WrittenAtom::IsNull(name), rest));
    }
    Err(Stop::At(tokens))
}

// after a column: IS [ NOT ] NULL | comparison operand
fn test(name: Token, tokens: &[Token]) -> Result<(WrittenAtom, &[Token]), Stop<'_>>
    ensures runs { RunsTo test_form tokens.now result }
    ensures spelled { IfOk result (λ found. told kinds.Name name ∷ lexemes_of tokens.now
        ≡ atom_lexemes (atom_syntax found.0) ++ lexemes_of found.1.now) }
    ensures shorter { IfOk result (λ found. length found.1.now < length tokens.now) }
{
    if let Some(rest) = mark(tokens, TokenKind::Is) {
        return null_test(name, rest);
    }
    let (comparison, rest) = comparison(tokens)?;
    let (operand, rest) = operand(rest)?;
    Ok((WrittenAtom::Compare(name, comparison, operand), rest))
}

// after "(": condition ")"
#[cycle(reading)]
fn inside(alloc: Global, tokens: &[Token]) -> Result<(Vec<Vec<WrittenAtom>>, &[Token]), Stop<'_>>
    ensures runs { RunsTo inside_form tokens.now result }
    ensures spelled { IfOk result (λ found. lexemes_of tokens.now
        ≡ condition_lexemes (condition_syntax found.0.items) ++ mark kinds.RightParen ∷ lexemes_of found.1.now) }
    ensures shorter { IfOk result (λ found. length found.1.now < length tokens.now) }
{
    let (condition, rest) = condition(alloc, tokens)?;
    match mark(rest, TokenKind::RightParen) {
        Some(behind) => Ok((condition, behind)),
        None => Err(Stop::At(rest)),
    }
}

// [ NOT ] "(" condition ")" | name test
#[cycle(reading)]
fn atom(alloc: Global, tokens: &[Token]) -> Result<(WrittenAtom, &[Token]), Stop<'_>>
    ensures runs { RunsTo atom_form tokens.now result }
    ensures spelled { IfOk result (λ found. lexemes_of tokens.now ≡ atom_lexemes (atom_syntax found.0) ++ lexemes_of found.1.now) }
    ensures shorter { IfOk result (λ found. length found.1.now < length tokens.now) }
{
    if let Some(rest) = mark(tokens, TokenKind::LeftParen) {
        let (condition, rest) = inside(alloc, rest)?;
        return Ok((WrittenAtom::Bracketed(condition), rest));
    }
    if let Some(rest) = mark(tokens, TokenKind::Not) {
        let rest = need_mark(rest, TokenKind::LeftParen)?;
        let (condition, rest) = inside(alloc, rest)?;
        return Ok((WrittenAtom::Negated(condition), rest));
    }
    match text(tokens, TokenKind::Name) {
        Some((name, rest)) => test(name, rest),
        None => Err(Stop::At(tokens)),
    }
}

// atom { AND atom }
#[cycle(reading)]
fn conjunction(alloc: Global, tokens: &[Token]) -> Result<(Vec<WrittenAtom>, &[Token]), Stop<'_>>
    ensures runs { RunsTo conjunction_form tokens.now result }
    ensures spelled { IfOk result (λ found.
        lexemes_of tokens.now ≡ conjunction_lexemes (conjunction_syntax found.0.items) ++ lexemes_of found.1.now) }
    ensures shorter { IfOk result (λ found. length found.1.now < length tokens.now) }
{
    let mut atoms = Vec::new(alloc);
    let mut rest = tokens;
    loop {
        let (atom, behind) = atom(alloc, rest)?;
        atoms.push(atom)?;
        match mark(behind, TokenKind::And) {
            Some(next) => rest = next,
            None => return Ok((atoms, behind)),
        }
    }
}

/// conjunction { OR conjunction }
///
/// An OR of ANDs, each with a part at least.
#[cycle(reading)]
pub fn condition(
    alloc: Global,
    tokens: &[Token],
) -> Result<(Vec<Vec<WrittenAtom>>, &[Token]), Stop<'_>>
    ensures runs { RunsTo condition_form tokens.now result }
    ensures spelled { IfOk result (λ found.
        lexemes_of tokens.now ≡ condition_lexemes (condition_syntax found.0.items) ++ lexemes_of found.1.now) }
    ensures some { IfOk result (λ found. 0 < length found.0.items) }
    ensures shorter { IfOk result (λ found. length found.1.now < length tokens.now) }
{
    let mut conjunctions = Vec::new(alloc);
    let mut rest = tokens;
    loop {
        let (conjunction, behind) = conjunction(alloc, rest)?;
        conjunctions.push(conjunction)?;
        match mark(behind, TokenKind::Or) {
            Some(next) => rest = next,
            None => return Ok((conjunctions, behind)),
        }
    }
}
