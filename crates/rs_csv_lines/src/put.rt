//! What is put into a line: the session, the tokens of a position, a value.
//!
//! What a line may not have, as `.5` or `2012.0`, is put as the measure or the number that it is.
//!
//! Where memory runs out, a part may have been put.

ghost use Rattle.std.specs.Prelude.{◌≡◌, ◌++◌, ◌<◌, OnOk, IfOk, ℕ, Bool, List, string_bytes, decimal, false, true};
ghost use Rattle.csv.specs.Records.{fields_of};
ghost use Rattle.rs_measure.specs.Measure.{measure_text};
ghost use Rattle.rs_methods.specs.Position.{absolute, expression_of, expression_text, relative_of};
ghost use Rattle.rs_value.specs.Row.{Datum};
ghost use Rattle.rs_value.specs.Row as rows;
ghost use Rattle.rs_value.specs.Text.{datum_text};
ghost use Rattle.rs_syntax.specs.Written.{position_lexemes, AreToldOf};
ghost use Rattle.rs_csv_lines.specs.Fields.{sign_text, HasText, WritesBeside};
ghost use Rattle.rs_csv_lines.specs.Numbers.{WritesMeasure, WritesWhole};
ghost use Rattle.rs_csv_lines.specs.Texts.{session_text, position_text, signed_text, PutsNumber, PutsDatum};
ghost use Rattle.rs_csv_lines.specs.Inserts.{Given, TellsRoute, PutsPositionAt};

use crate::fields::{
    FieldText, SignedText, content, cut_at_sign, field_text, name_in, number_in, position_in,
    referent_in, text_in,
};
use crate::names::made_name;
use crate::numbers::{unsigned_measure, written_measure, written_whole};
use crate::plan::{Cause, Column, Measures, Misfit, Scale, Source};
use csv::ByteRecord;
use itoa::Buffer;
use rs_meaning::meaning::text;
use rs_measure::{Measure, write_measure};
use rs_methods::{Name, Position, Sign};
use rs_syntax::written::WrittenPosition;
use rs_value::{ColumnType, push_doubled};
use std::alloc::{AllocError, Global};

/// Puts the number of a session.
pub fn put_session(line: &mut String, session: u8) -> Result<(), AllocError>
    requires { session < 64 }
    ensures { OnOk result (string_bytes line.new ≡ string_bytes line.old ++ session_text session) }
{
    if session >= 10 {
        line.push(char::from(b'0' + session / 10))?;
    }
    line.push(char::from(b'0' + session % 10))
}

// Puts a text between quotes.
fn put_text(line: &mut String, quoted: &str) -> Result<(), AllocError>
    ensures { OnOk result (string_bytes line.new ≡ string_bytes line.old ++ datum_text (rows.text quoted.now)) }
{
    line.push('\'')?;
    push_doubled(line, quoted)?;
    line.push('\'')
}

// Puts the tokens of a position that a field spells.
fn put_written(line: &mut String, field: &str, written: WrittenPosition) -> Result<(), AllocError>
    requires { AreToldOf field.now (position_lexemes written) }
    ensures { OnOk result (string_bytes line.new ≡ string_bytes line.old ++ position_text field.now written) }
{
    match written {
        WrittenPosition::Measure(measure) => line.push_str(text(field, measure)),
        WrittenPosition::Percentage(digits) => {
            line.push_str(text(field, digits))?;
            line.push_str("%")
        }
        WrittenPosition::Referent(name) => {
            line.push_str("@")?;
            line.push_str(text(field, name))
        }
        WrittenPosition::Beyond(name, measure) => {
            line.push_str("@")?;
            line.push_str(text(field, name))?;
            line.push_str("+")?;
            line.push_str(text(field, measure))
        }
        WrittenPosition::Before(name, measure) => {
            line.push_str("@")?;
            line.push_str(text(field, name))?;
            line.push_str("-")?;
            line.push_str(text(field, measure))
        }
    }
}

// A sign as a line has it.
fn sign_text(sign: Sign) -> &'static str
    ensures { result.now ≡ sign_text sign }
{
    match sign {
        Sign::Plus => "+",
        Sign::Minus => "-",
    }
}

// Puts a measure beyond a referent or before it.
fn put_relative(
    line: &mut String,
    name: Name,
    sign: Sign,
    measure: Measure,
) -> Result<(), AllocError>
    ensures { OnOk result (string_bytes line.new ≡ string_bytes line.old ++ expression_text (relative_of name.bytes sign measure)) }
{
    line.push_str("@")?;
    line.push_str(name.as_str())?;
    line.push_str(sign_text(sign))?;
    line.push_str(write_measure(measure).as_str())
}

// Puts the sign and the digits of a number.
fn put_signed(line: &mut String, is_negative: bool, digits: &str) -> Result<(), AllocError>
    ensures { OnOk result (string_bytes line.new ≡ string_bytes line.old ++ signed_text is_negative digits.now) }
{
    if is_negative {
        line.push_str("-")?;
    }
    line.push_str(digits)
}

// The name that the field of a route is made, of whatever bytes.
fn made_route(csv_record: &ByteRecord, place: usize) -> Result<Name, Misfit>
    ensures { IfOk result (λ name. TellsRoute true (fields_of csv_record.now) place name.bytes) }
{
    let Some(field) = csv_record.get(place) else {
        return Err(Misfit::Field(place, Cause::Missing));
    };
    match made_name(content(field)) {
        Some(name) => Ok(name),
        None => Err(Misfit::Field(place, Cause::NotName)),
    }
}

// The name that the field of a route is.
fn named_route(alloc: Global, csv_record: &ByteRecord, place: usize) -> Result<Name, Misfit>
    ensures { IfOk result (λ name. TellsRoute false (fields_of csv_record.now) place name.bytes) }
{
    let field = field_text(csv_record, place)?;
    name_in(alloc, field.text, place)
}

// The name of the route that a field says.
fn route_in(
    alloc: Global,
    csv_record: &ByteRecord,
    place: usize,
    makes_names: bool,
) -> Result<Name, Misfit>
    ensures { IfOk result (λ name. TellsRoute makes_names (fields_of csv_record.now) place name.bytes) }
{
    if makes_names {
        made_route(csv_record, place)
    } else {
        named_route(alloc, csv_record, place)
    }
}

/// Puts the route that a field names, and gives it.
pub fn put_route(
    alloc: Global,
    csv_record: &ByteRecord,
    place: usize,
    makes_names: bool,
    line: &mut String,
) -> Result<Name, Misfit>
    ensures told { IfOk result (λ name. TellsRoute makes_names (fields_of csv_record.now) place name.bytes) }
    ensures put { IfOk result (λ name. string_bytes line.new ≡ string_bytes line.old ++ name.bytes) }
{
    let name = route_in(alloc, csv_record, place, makes_names)?;
    line.push_str(name.as_str())?;
    Ok(name)
}

// Puts a measure as an office wrote it, and gives it, and whether it was rounded. What is no number is refused so.
fn put_measure(
    text: &str,
    place: usize,
    refused: Misfit,
    measures: Measures,
    line: &mut String,
) -> Result<(Position, bool), Misfit>
    ensures { IfOk result (λ found. (thousandths : ℕ) × WritesMeasure measures text.now thousandths × (expression_of found.0 ≡ absolute thousandths)
        × (string_bytes line.new ≡ string_bytes line.old ++ measure_text thousandths)) }
{
    match written_measure(text, measures) {
        Ok((measure, is_rounded)) => {
            line.push_str(write_measure(measure).as_str())?;
            Ok((Position::Absolute(measure), is_rounded))
        }
        Err(Cause::NotPosition) => Err(refused),
        Err(cause) => Err(Misfit::Field(place, cause)),
    }
}

// Puts a measure beyond a referent or before it as an office wrote it, and gives it, and whether it was rounded.
fn put_beside(
    alloc: Global,
    cut: SignedText<'_>,
    place: usize,
    rounds: bool,
    line: &mut String,
) -> Result<(Position, bool), Misfit>
    ensures { IfOk result (λ found. (name : List ℕ) × (thousandths : ℕ)
        × WritesBeside rounds (cut.entry.front.now ++ sign_text cut.entry.sign ++ cut.entry.number.now) name cut.entry.sign thousandths
        × (expression_of found.0 ≡ relative_of name cut.entry.sign thousandths)
        × (string_bytes line.new ≡ string_bytes line.old ++ expression_text (relative_of name cut.entry.sign thousandths))) }
{
    let name = referent_in(alloc, cut.front, place)?;
    match unsigned_measure(cut.number.as_bytes(), rounds) {
        Ok((measure, is_rounded)) => {
            put_relative(line, name, cut.sign, measure)?;
            Ok((Position::Relative(name, cut.sign, measure), is_rounded))
        }
        Err(cause) => Err(Misfit::Field(place, cause)),
    }
}

/// Puts the position that a field says, and gives it, and whether it was rounded.
pub fn put_position(
    alloc: Global,
    csv_record: &ByteRecord,
    place: usize,
    measures: Measures,
    line: &mut String,
) -> Result<(Position, bool), Misfit>
    ensures { IfOk result (λ found. (bytes : List ℕ) × PutsPositionAt measures (fields_of csv_record.now) place (expression_of found.0) bytes
        × (string_bytes line.new ≡ string_bytes line.old ++ bytes)) }
{
    let field = field_text(csv_record, place)?;
    match position_in(alloc, field.text, place) {
        Ok((written, position)) => {
            put_written(line, field.text, written)?;
            Ok((position, false))
        }
        Err(Misfit::OutOfMemory) => Err(Misfit::OutOfMemory),
        Err(refused) => match cut_at_sign(field.text) {
            Some(cut) if cut.front.contains('@') => put_beside(
                alloc,
                cut,
                place,
                measures.rounds,
                line,
            ),
            _ => put_measure(field.text, place, refused, measures, line),
        },
    }
}

// Puts a number as an office wrote it, once it is multiplied.
fn put_amount(text: &str, place: usize, scale: Scale, line: &mut String) -> Result<(), Misfit>
    ensures { OnOk result ((is_negative : Bool) × (amount : ℕ) × WritesWhole scale text.now is_negative amount
        × (string_bytes line.new ≡ string_bytes line.old ++ signed_text is_negative (decimal amount))) }
{
    match written_whole(text.as_bytes(), scale) {
        Ok((is_negative, amount)) => {
            put_signed(line, is_negative, Buffer::new().format(amount))?;
            Ok(())
        }
        Err(cause) => Err(Misfit::Field(place, cause)),
    }
}

// Puts the number that a field says.
fn put_number(
    alloc: Global,
    field: &str,
    place: usize,
    scale: Scale,
    line: &mut String,
) -> Result<(), Misfit>
    ensures { OnOk result ((datum : Datum) × (bytes : List ℕ) × PutsNumber scale field.now datum bytes × (string_bytes line.new ≡ string_bytes line.old ++ bytes)) }
{
    if scale.multiplies() {
        return put_amount(field, place, scale, line);
    }
    match number_in(alloc, field, place) {
        Ok((is_negative, digits)) => {
            put_signed(line, is_negative, text(field, digits))?;
            Ok(())
        }
        Err(Misfit::OutOfMemory) => Err(Misfit::OutOfMemory),
        Err(_) => put_amount(field, place, scale, line),
    }
}

// Puts the value that the text of a field says in a column.
#[inline]
fn put_datum(
    alloc: Global,
    field: FieldText<'_>,
    place: usize,
    column: &Column,
    line: &mut String,
) -> Result<(), Misfit>
    ensures { OnOk result ((datum : Datum) × (bytes : List ℕ)
        × ((whole : List ℕ) → HasText field.entry.text.now field.entry.is_empty whole → PutsDatum column.now.column_type column.now.scale whole datum bytes)
        × (string_bytes line.new ≡ string_bytes line.old ++ bytes)) }
{
    if field.is_empty {
        line.push_str("NULL")?;
        return Ok(());
    }
    match column.column_type {
        ColumnType::Int => put_number(alloc, field.text, place, column.scale, line)?,
        ColumnType::Text(_) => put_text(line, field.text)?,
    }
    Ok(())
}

/// Puts the value that a record of this number says in a column.
pub fn put_value(
    alloc: Global,
    csv_record: &ByteRecord,
    number: u64,
    column: &Column,
    line: &mut String,
) -> Result<(), Misfit>
    ensures { OnOk result ((datum : Datum) × (bytes : List ℕ)
        × Given number (fields_of csv_record.now) column.now.source (λ field. PutsDatum column.now.column_type column.now.scale field datum bytes)
        × (string_bytes line.new ≡ string_bytes line.old ++ bytes)) }
{
    match column.source {
        Source::Field(place) => {
            let field = field_text(csv_record, place)?;
            put_datum(alloc, field, place, column, line)
        }
        Source::Number => {
            let mut digits = Buffer::new();
            let field = text_in(digits.format(number).as_bytes(), 0)?;
            put_datum(alloc, field, 0, column, line)
        }
    }
}
