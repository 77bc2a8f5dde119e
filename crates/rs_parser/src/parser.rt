//! From the tokens of a line to its command, or the first refusal.
//!
//! The syntax comes before the ranges of numbers, and an unknown character before both.

ghost use Rattle.std.specs.Prelude.{◌≡◌, ◌+◌, ◌<◌, ◌≤◌, ◌⊎◌, [], Ok, Err, length, take, IfOk, IfErr, OnOk, All, IsTrue};
ghost use Rattle.rs_lexer.specs.Lexis.{kinds_of, IsTokenOf};
ghost use Rattle.rs_grammar.specs.Grammar.{IsShallow, command_form};
ghost use Rattle.rs_syntax.specs.Written.{spelling, lexemes_of, IsFull};
ghost use Rattle.rs_syntax.specs.View.{tree_of, written_of};
ghost use Rattle.rs_descent.specs.Reading.{Runs, halt_of, StopsAt};
ghost use Rattle.rs_value.specs.Values.{is_text};
ghost use Rattle.rs_syntax.specs.Sound.{IsSound};
ghost use Rattle.rs_syntax.specs.Verdict.{fault_column, IsWritten, Parses, Reads};

use crate::reading::command;
use rs_descent::front::Stop;
use rs_grammar::kind::{BRACKETS, TokenKind};
use rs_lexer::{Token, tokens};
use rs_meaning::said_commands::meaning;
use rs_refusal::Refusal;
use rs_syntax::Command;
use rs_syntax::written::WrittenCommand;
use std::alloc::Global;

// How many tokens stand before the first that opens a bracket too many.
fn shallow_count(tokens: &[Token]) -> usize
    ensures inside { result ≤ length tokens.now }
    ensures shallow { IsShallow (take result (kinds_of tokens.now)) }
    ensures too_deep { result < length tokens.now → IsShallow (take (result + 1) (kinds_of tokens.now)) → ⊥ }
{
    let mut open = 0;
    for (place, token) in tokens.iter().enumerate() {
        match token.kind {
            TokenKind::LeftParen => {
                if open == BRACKETS {
                    return place;
                }
                open += 1;
            }
            TokenKind::RightParen => open = open.saturating_sub(1),
            _ => {}
        }
    }
    tokens.len()
}

// The refusal at the first of these tokens, or after the line's last byte where there is none.
fn syntax_fault(line: &str, tokens: &[Token]) -> Refusal
    requires { All (IsTokenOf line.now) tokens.now }
    ensures { result ≡ Refusal.Syntax (fault_column line.now tokens.now) }
{
    match tokens.first() {
        Some(token) => Refusal::Syntax(token.first + 1),
        None => Refusal::Syntax(line.len() + 1),
    }
}

// The command that all of the tokens are, as it is written.
fn whole_command(alloc: Global, tokens: &[Token]) -> Result<WrittenCommand, Stop<'_>>
    ensures read { OnOk result (Runs command_form (kinds_of tokens.now) (Ok [])) }
    ensures spelled { IfOk result (λ written. lexemes_of tokens.now ≡ spelling (written_of written)) }
    ensures full { IfOk result (λ written. IsFull (written_of written)) }
    ensures stops { IfErr result (λ stop. StopsAt (kinds_of tokens.now) (halt_of stop)) }
{
    let (written, rest) = command(alloc, tokens)?;
    if rest.is_empty() {
        Ok(written)
    } else {
        Err(Stop::At(rest))
    }
}

// The syntax of the command that the tokens are.
fn syntax(alloc: Global, line: &str, tokens: &[Token]) -> Result<WrittenCommand, Refusal>
    requires { All (IsTokenOf line.now) tokens.now }
    ensures ok { IfOk result (λ written. IsWritten tokens.now (written_of written)) }
    ensures full { IfOk result (λ written. IsFull (written_of written)) }
    ensures err { IfErr result (λ refusal. (refusal ≡ Refusal.OutOfMemory) ⊎ Parses line.now tokens.now (Err refusal)) }
{
    let shallow = shallow_count(tokens);
    match whole_command(alloc, &tokens[..shallow]) {
        Ok(written) => {
            if shallow == tokens.len() {
                Ok(written)
            } else {
                Err(syntax_fault(line, &tokens[shallow..]))
            }
        }
        Err(Stop::At(rest)) => Err(syntax_fault(line, &tokens[shallow - rest.len()..])),
        Err(Stop::OutOfMemory) => Err(Refusal::OutOfMemory),
    }
}

/// The command that the tokens of a line are.
///
/// Refused `Syntax` with the column of the first token that fits no rule, `NumberOutOfRange` where all
/// fit and a number is out of its range, and `OutOfMemory` where a growth was refused.
pub fn parse(alloc: Global, line: &str, tokens: &[Token]) -> Result<Command, Refusal>
    requires { All (IsTokenOf line.now) tokens.now }
    ensures ok { IfOk result (λ command. Parses line.now tokens.now (Ok (tree_of command))) }
    ensures sound { IsTrue (is_text line.now) → IfOk result (λ command. IsSound (tree_of command)) }
    ensures err { IfErr result (λ refusal. (refusal ≡ Refusal.OutOfMemory) ⊎ Parses line.now tokens.now (Err refusal)) }
{
    let written = syntax(alloc, line, tokens)?;
    meaning(alloc, line, tokens, &written)
}

/// The command that the text of a line is from a byte place on.
///
/// Refused `UnknownCharacter` where the text can't be cut into tokens, then as by `parse`.
pub fn command_of(alloc: Global, line: &str, from: usize) -> Result<Command, Refusal>
    ensures ok { IfOk result (λ command. Reads line.now from (Ok (tree_of command))) }
    ensures sound { IsTrue (is_text line.now) → IfOk result (λ command. IsSound (tree_of command)) }
    ensures err { IfErr result (λ refusal. (refusal ≡ Refusal.OutOfMemory) ⊎ Reads line.now from (Err refusal)) }
{
    let tokens = tokens(alloc, line, from)?;
    parse(alloc, line, &tokens)
}
