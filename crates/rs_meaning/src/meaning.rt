//! What names, numbers, texts, positions and types of a line say.
//!
//! The syntax has been read, so a number out of its range is all that can be wrong with them.

ghost use Rattle.std.specs.Prelude.{◌≡◌, ℕ, ◌≤◌, ◌^◌, ◌⊎◌, Some, SomeIff, All, MatchOption, IfOk, IfErr, OnErr, string_bytes};
ghost use Rattle.rs_measure.specs.FixedPoint.{number_of_digits};
ghost use Rattle.rs_measure.specs.Measure.{SaysMeasure};
ghost use Rattle.rs_measure.specs.Part.{SaysPart};
ghost use Rattle.rs_methods.specs.Position.{PositionExpression, expression_of};
ghost use Rattle.rs_value.specs.Row.{Datum};
ghost use Rattle.rs_value.specs.View.{literal_datum};
ghost use Rattle.rs_value.specs.declared.column.ColumnType.{ColumnType};
ghost use Rattle.rs_grammar.specs.declared.kind.TokenKind.TheVariants as kinds;
ghost use Rattle.rs_lexer.specs.Lexis.{token_kind, token_text, IsTokenOf};
ghost use Rattle.rs_syntax.specs.Written.{position_lexemes, value_lexemes, type_lexemes, unquoted, view_text, SaysDatum, SaysPosition, SaysType, AreToldOf};

use rs_lexer::Token;
use rs_measure::{Measure, Part, read_measure, read_part};
use rs_methods::{Name, Position, Sign};
use rs_refusal::Refusal;
use rs_syntax::written::{WrittenPosition, WrittenType, WrittenValue};
use rs_value::column::TEXT_BYTES;
use rs_value::{ColumnType, Literal};
use std::alloc::Global;

/// The greatest number that a literal says, and with a minus sign the least.
pub const GREATEST_NUMBER: u64 = 1_000_000_000_000;

/// The bytes of a token.
pub fn text(line: &str, token: Token) -> &str
    requires { IsTokenOf line.now token }
    ensures { result.now ≡ token_text line.now token }
{
    &line[token.first..token.first + token.length]
}

/// A token that is a name.
pub fn name(line: &str, token: Token) -> Name
    requires inside { IsTokenOf line.now token }
    requires kind { token.kind ≡ kinds.Name }
    ensures { result.bytes ≡ token_text line.now token }
{
    let mut name = Name::new();
    name.push_str(text(line, token));
    name
}

/// A token that is a measure.
pub fn measure(line: &str, token: Token) -> Result<Measure, Refusal>
    requires { IsTokenOf line.now token }
    ensures ok { IfOk result (λ measure. SaysMeasure (token_text line.now token) measure) }
    ensures err { IfErr result (λ refusal. refusal ≡ Refusal.NumberOutOfRange) }
    ensures refused { OnErr result ((n : ℕ) → SaysMeasure (token_text line.now token) n → ⊥) }
{
    read_measure(text(line, token))
}

/// A token that is the number of a percentage.
pub fn part(line: &str, token: Token) -> Result<Part, Refusal>
    requires { IsTokenOf line.now token }
    ensures ok { IfOk result (λ part. SaysPart (token_text line.now token) part) }
    ensures err { IfErr result (λ refusal. refusal ≡ Refusal.NumberOutOfRange) }
    ensures refused { OnErr result ((n : ℕ) → SaysPart (token_text line.now token) n → ⊥) }
{
    read_part(text(line, token))
}

/// A position.
pub fn position(line: &str, written: WrittenPosition) -> Result<Position, Refusal>
    requires { AreToldOf line.now (position_lexemes written) }
    ensures ok { IfOk result (λ position. SaysPosition line.now written (expression_of position)) }
    ensures err { IfErr result (λ refusal. refusal ≡ Refusal.NumberOutOfRange) }
    ensures refused { OnErr result ((p : PositionExpression) → SaysPosition line.now written p → ⊥) }
{
    match written {
        WrittenPosition::Measure(token) => Ok(Position::Absolute(measure(line, token)?)),
        WrittenPosition::Percentage(token) => Ok(Position::Interpolative(part(line, token)?)),
        WrittenPosition::Referent(referent) => {
            let here = Measure::from_thousandths(0);
            Ok(Position::Relative(name(line, referent), Sign::Plus, here))
        }
        WrittenPosition::Beyond(referent, token) => {
            let beyond = measure(line, token)?;
            Ok(Position::Relative(name(line, referent), Sign::Plus, beyond))
        }
        WrittenPosition::Before(referent, token) => {
            let before = measure(line, token)?;
            Ok(Position::Relative(name(line, referent), Sign::Minus, before))
        }
    }
}

/// The number that digits say, if it is not above `most`.
pub fn number(text: &str, most: u64) -> Option<u64>
    requires { most ≤ 10 ^ 12 }
    ensures { SomeIff result (number_of_digits text.now ≤ most) (number_of_digits text.now) }
{
    let mut number = 0u64;
    for byte in text.as_bytes() {
        number = 10 * number + u64::from(byte.saturating_sub(b'0'));
        if number > most {
            return None;
        }
    }
    Some(number)
}

/// A quoted text without its quotes, each doubled quote once.
pub fn unquoted(alloc: Global, quoted: &str) -> Result<String, Refusal>
    requires { token_kind quoted.now ≡ Some kinds.Quoted }
    ensures ok { IfOk result (λ text. string_bytes text ≡ unquoted quoted.now) }
    ensures err { IfErr result (λ refusal. refusal ≡ Refusal.OutOfMemory) }
{
    let mut text = String::new(alloc);
    let mut is_behind_quote = false;
    let rest = &quoted[1..];
    for character in rest.chars() {
        if character == '\'' && !is_behind_quote {
            is_behind_quote = true;
        } else {
            text.push(character)?;
            is_behind_quote = false;
        }
    }
    Ok(text)
}

/// A value of a row.
pub fn literal(alloc: Global, line: &str, written: WrittenValue) -> Result<Literal, Refusal>
    requires { AreToldOf line.now (value_lexemes written) }
    ensures ok { IfOk result (λ literal. SaysDatum line.now written (literal_datum literal)) }
    ensures err { IfErr result (λ refusal. (refusal ≡ Refusal.OutOfMemory)
        ⊎ ((refusal ≡ Refusal.NumberOutOfRange) × ((datum : Datum) → SaysDatum line.now written datum → ⊥))) }
{
    match written {
        WrittenValue::Null => Ok(Literal::Null),
        WrittenValue::Whole(is_negative, digits) => {
            let Some(size) = number(text(line, digits), GREATEST_NUMBER) else {
                return Err(Refusal::NumberOutOfRange);
            };
            let size = size as i64;
            Ok(Literal::Int(if is_negative { -size } else { size }))
        }
        WrittenValue::Quoted(quoted) => Ok(Literal::Text(unquoted(alloc, text(line, quoted))?)),
    }
}

/// The type of a column, if its number is in range.
pub fn type_said(line: &str, written: WrittenType) -> Option<ColumnType>
    requires { AreToldOf line.now (type_lexemes written) }
    ensures { MatchOption result ((t : ColumnType) → SaysType line.now written t → ⊥) (SaysType line.now written) }
{
    match written {
        WrittenType::Int => Some(ColumnType::Int),
        WrittenType::Text(token) => {
            let most = number(text(line, token), TEXT_BYTES as u64)?;
            if most == 0 {
                None
            } else {
                Some(ColumnType::Text(most as u8))
            }
        }
    }
}

/// The text of a view's query, which begins with the fifth token of the line and ends with the last.
pub fn view_text<'a>(line: &'a str, tokens: &[Token]) -> &'a str
    requires { All (IsTokenOf line.now) tokens.now }
    ensures { result.now ≡ view_text line.now tokens.now }
{
    match (tokens.get(4), tokens.last()) {
        (Some(first), Some(last)) => line
            .get(first.first..last.first + last.length)
            .unwrap_or(""),
        _ => "",
    }
}
