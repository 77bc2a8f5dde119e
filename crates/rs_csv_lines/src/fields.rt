//! What a field says: a text, a name, a position or a number.
//!
//! Names, positions and numbers are read by the grammar that reads lines, so blanks may stand around them.

ghost use Rattle.std.specs.Prelude.{◌≡◌, ◌++◌, ◌∷◌, [], IfOk, IfSome, IsTrue};
ghost use Rattle.csv.specs.Records.{fields_of};
ghost use Rattle.rs_lexer.specs.Lexis.{AreTokensFrom};
ghost use Rattle.rs_methods.specs.Position.{beyond, expression_of};
ghost use Rattle.rs_csv_lines.specs.Fields.{content, sign_text, HasText, SaysName, SpellsPosition, SpellsNumber};
ghost use Rattle.rs_value.specs.Values.{is_text};
ghost use Rattle.rs_csv_lines.specs.Inserts.{Field};

use crate::numbers::{
    GREATEST_PERCENTAGE, PART_DIGITS, PART_PLACES, are_zeros, count_digits, read_units,
    written_number,
};
use crate::plan::{Cause, Misfit};
use csv::ByteRecord;
use rs_descent::front::Stop;
use rs_grammar::kind::TokenKind;
use rs_lexer::{Token, front_token, tokens};
use rs_meaning::meaning::{self, GREATEST_NUMBER};
use rs_methods::{Name, Position, Sign};
use rs_refusal::Refusal;
use rs_syntax::written::{WrittenPosition, WrittenValue};
use rs_value::as_text;
use std::alloc::Global;

/// The text of a field, without the quote that was read before it, and whether the field has nothing.
#[derive(Clone, Copy)]
pub struct FieldText<'a> {
    /// The text.
    pub text: &'a str,
    /// Whether the field has nothing, not even quotes.
    pub is_empty: bool,
}

/// The bytes of a field without the quote that was read before them.
pub fn content(field: &[u8]) -> &[u8]
    ensures { result.now ≡ content field.now }
{
    match field.split_first() {
        Some((first, rest)) => { if *first == b'"' { rest } else { field } }
        None => field,
    }
}

/// The text of a field, which stands at a place.
#[inline]
pub fn text_in(field: &[u8], place: usize) -> Result<FieldText<'_>, Misfit>
    ensures { IfOk result (λ found. IsTrue (is_text (content field.now)) × HasText found.text.now found.is_empty field.now) }
{
    match as_text(content(field)) {
        Some(text) => Ok(FieldText {
            text,
            is_empty: field.is_empty(),
        }),
        None => Err(Misfit::Field(place, Cause::NotText)),
    }
}

/// The text of the field at a place of a record.
pub fn field_text(csv_record: &ByteRecord, place: usize) -> Result<FieldText<'_>, Misfit>
    ensures { IfOk result (λ found. Field (fields_of csv_record.now) place (HasText found.text.now found.is_empty)) }
{
    match csv_record.get(place) {
        Some(field) => text_in(field, place),
        None => Err(Misfit::Field(place, Cause::Missing)),
    }
}

// The tokens of a text; where it can't be cut into tokens, this is wrong with the field.
fn field_tokens(alloc: Global, text: &str, place: usize, cause: Cause) -> Result<Vec<Token>, Misfit>
    ensures { IfOk result (λ tokens. AreTokensFrom text.now 0 tokens.items) }
{
    match tokens(alloc, text, 0) {
        Ok(tokens) => Ok(tokens),
        Err(Refusal::OutOfMemory) => Err(Misfit::OutOfMemory),
        Err(_) => Err(Misfit::Field(place, cause)),
    }
}

// The token that a text is, where it is one.
fn lone_token(text: &str) -> Option<Token>
    ensures { IfSome result (λ token. AreTokensFrom text.now 0 (token ∷ [])) }
{
    let (kind, length) = front_token(text.as_bytes())?;
    if length < text.len() {
        return None;
    }
    Some(Token {
        kind,
        first: 0,
        length,
    })
}

// The name that tokens are.
fn name_of(text: &str, tokens: &[Token], place: usize) -> Result<Name, Misfit>
    requires { AreTokensFrom text.now 0 tokens.now }
    ensures { IfOk result (λ name. SaysName text.now name.bytes) }
{
    match tokens {
        [token] => {
            if token.kind == TokenKind::Name {
                Ok(meaning::name(text, *token))
            } else {
                Err(Misfit::Field(place, Cause::NotName))
            }
        }
        _ => Err(Misfit::Field(place, Cause::NotName)),
    }
}

/// The name that a text is.
pub fn name_in(alloc: Global, text: &str, place: usize) -> Result<Name, Misfit>
    ensures { IfOk result (λ name. SaysName text.now name.bytes) }
{
    if let Some(token) = lone_token(text) {
        return name_of(text, &[token], place);
    }
    let tokens = field_tokens(alloc, text, place, Cause::NotName)?;
    name_of(text, tokens.as_slice(), place)
}

// How many decimals a text has after its first point.
fn decimals_in(text: &str) -> usize {
    match text.split_once('.') {
        Some((_, behind)) => count_digits(behind.as_bytes()),
        None => 0,
    }
}

// Whether a percentage that is refused, and not for its decimals, is above 100. It may be refused for its digits before the point.
fn is_past_whole(text: &str) -> bool {
    let Some((front, _)) = text.split_once('%') else {
        return false;
    };
    let Some(number) = written_number(front.as_bytes()) else {
        return false;
    };
    if number.whole.len() <= PART_DIGITS {
        return true;
    }
    let greatest = if are_zeros(number.decimals) {
        GREATEST_PERCENTAGE
    } else {
        GREATEST_PERCENTAGE - 1
    };
    match read_units(&number, 0, greatest, false) {
        Err(Cause::PastGreatest) => true,
        _ => false,
    }
}

// Why a position of the grammar is refused: a percentage has too many decimals or is above 100, or it has another number that it may not have.
fn position_cause(text: &str, written: WrittenPosition) -> Cause {
    let count = decimals_in(text);
    match written {
        WrittenPosition::Percentage(_) if count > PART_PLACES => Cause::Decimals(count),
        WrittenPosition::Percentage(_) if is_past_whole(text) => Cause::PastWhole,
        _ => Cause::NotPosition,
    }
}

// The position that tokens are: how it is written, and what it says.
fn position_of(
    text: &str,
    tokens: &[Token],
    place: usize,
) -> Result<(WrittenPosition, Position), Misfit>
    requires { AreTokensFrom text.now 0 tokens.now }
    ensures { IfOk result (λ found. SpellsPosition text.now found.0 (expression_of found.1)) }
{
    match rs_descent::positions::position(tokens) {
        Ok((written, [])) => match meaning::position(text, written) {
            Ok(position) => Ok((written, position)),
            Err(_) => Err(Misfit::Field(place, position_cause(text, written))),
        },
        Err(Stop::OutOfMemory) => Err(Misfit::OutOfMemory),
        _ => Err(Misfit::Field(place, Cause::NotPosition)),
    }
}

/// The position that a text is: how it is written, and what it says.
pub fn position_in(
    alloc: Global,
    text: &str,
    place: usize,
) -> Result<(WrittenPosition, Position), Misfit>
    ensures { IfOk result (λ found. SpellsPosition text.now found.0 (expression_of found.1)) }
{
    if let Some(token) = lone_token(text) {
        return position_of(text, &[token], place);
    }
    let tokens = field_tokens(alloc, text, place, Cause::NotPosition)?;
    position_of(text, tokens.as_slice(), place)
}

/// A text with a sign in it.
#[derive(Clone, Copy)]
pub struct SignedText<'a> {
    /// What is before the sign.
    pub front: &'a str,
    /// The sign.
    pub sign: Sign,
    /// What is after it.
    pub number: &'a str,
}

/// The text cut at its first plus sign, or at its first minus sign where it has none.
pub fn cut_at_sign(text: &str) -> Option<SignedText<'_>>
    ensures { IfSome result (λ cut. text.now ≡ cut.front.now ++ sign_text cut.sign ++ cut.number.now) }
{
    match text.split_once('+') {
        Some((front, number)) => Some(SignedText {
            front,
            sign: Sign::Plus,
            number,
        }),
        None => {
            let (front, number) = text.split_once('-')?;
            Some(SignedText {
                front,
                sign: Sign::Minus,
                number,
            })
        }
    }
}

/// The name of the referent that a text is.
pub fn referent_in(alloc: Global, text: &str, place: usize) -> Result<Name, Misfit>
    ensures { IfOk result (λ name. (referent : Token) × SpellsPosition text.now (WrittenPosition.Referent referent) (beyond name.bytes 0)) }
{
    match position_in(alloc, text, place)? {
        (WrittenPosition::Referent(referent), _) => Ok(meaning::name(text, referent)),
        _ => Err(Misfit::Field(place, Cause::NotPosition)),
    }
}

// The number that tokens are: whether a minus sign stands before it, and its digits.
fn number_of(text: &str, tokens: &[Token], place: usize) -> Result<(bool, Token), Misfit>
    requires { AreTokensFrom text.now 0 tokens.now }
    ensures { IfOk result (λ found. SpellsNumber text.now found.0 found.1) }
{
    match rs_descent::values::value(tokens) {
        Ok((WrittenValue::Whole(is_negative, digits), [])) => {
            match meaning::number(meaning::text(text, digits), GREATEST_NUMBER) {
                Some(_) => Ok((is_negative, digits)),
                None => Err(Misfit::Field(place, Cause::NotNumber)),
            }
        }
        Err(Stop::OutOfMemory) => Err(Misfit::OutOfMemory),
        _ => Err(Misfit::Field(place, Cause::NotNumber)),
    }
}

/// The number that a text is: whether a minus sign stands before it, and its digits.
pub fn number_in(alloc: Global, text: &str, place: usize) -> Result<(bool, Token), Misfit>
    ensures { IfOk result (λ found. SpellsNumber text.now found.0 found.1) }
{
    if let Some(token) = lone_token(text) {
        return number_of(text, &[token], place);
    }
    let tokens = field_tokens(alloc, text, place, Cause::NotNumber)?;
    number_of(text, tokens.as_slice(), place)
}
