//! Whether the values that a line writes fit the columns of a table.
//!
//! It promises to say so exactly, and else the refusal of the first check that fails.

ghost use Rattle.std.specs.Prelude.{◌≡◌, ◌≤◌, true, length, None, Some, IfOk, IfErr, OnOk};
ghost use Rattle.std.specs.List.{AllByRecursion};
ghost use Rattle.rs_value.specs.Kept.{IsShort};
ghost use Rattle.rs_value.specs.View.{datum_of, row_of, literal_datum, literal_row};
ghost use Rattle.rs_value.specs.Fitting.{has_type, has_room, each_passes, misfit};

use crate::column::{COLUMNS, ColumnType, Schema, TEXT_BYTES};
use crate::value::{Literal, Tuple, Value};
use arrayvec::ArrayString;
use rs_refusal::Refusal;

/// Whether the literals fit the columns. They are refused with `Refusal::WrongValues` (33) where their number
/// or a type is wrong, and else with `Refusal::TextTooLong` (34) where a text is longer than its column.
pub fn check_fit(columns: &[ColumnType], literals: &[Literal]) -> Result<(), Refusal>
    ensures ok { OnOk result (misfit columns.now (literal_row literals.now) ≡ None) }
    ensures refused { IfErr result (λ refusal.
        misfit columns.now (literal_row literals.now) ≡ Some refusal) }
{
    if literals.len() != columns.len() || !types_fit(columns, literals) {
        return Err(Refusal::WrongValues);
    }
    if !texts_fit(columns, literals) {
        return Err(Refusal::TextTooLong);
    }
    Ok(())
}

/// The row of the literals, where they fit the columns. It is refused with `Refusal::WrongValues` (33)
/// where their number or a type is wrong, and else with `Refusal::TextTooLong` (34) where a text is
/// longer than its column.
pub fn fits(schema: &Schema, literals: &[Literal]) -> Result<Tuple, Refusal>
    ensures ok { OnOk result (misfit schema.now.items (literal_row literals.now) ≡ None) }
    ensures row { IfOk result (λ tuple. row_of tuple.items ≡ literal_row literals.now) }
    ensures refused { IfErr result (λ refusal.
        misfit schema.now.items (literal_row literals.now) ≡ Some refusal) }
{
    check_fit(schema.as_slice(), literals)?;
    Ok(tuple_of(literals))
}

// Whether each literal has the type of its column.
fn types_fit(columns: &[ColumnType], literals: &[Literal]) -> bool
    requires { length columns.now ≡ length literals.now }
    ensures { result ≡ each_passes has_type columns.now (literal_row literals.now) }
{
    for (i, column) in columns.iter().enumerate() {
        if !has_type(*column, &literals[i]) {
            return false;
        }
    }
    true
}

// Whether a literal has the type of a column.
fn has_type(column: ColumnType, literal: &Literal) -> bool
    ensures { result ≡ has_type column (literal_datum literal.now) }
{
    match (column, literal) {
        (_, Literal::Null) => true,
        (ColumnType::Int, Literal::Int(_)) => true,
        (ColumnType::Text(_), Literal::Text(_)) => true,
        _ => false,
    }
}

// Whether each text is as long as its column allows, at the most.
fn texts_fit(columns: &[ColumnType], literals: &[Literal]) -> bool
    requires { length columns.now ≡ length literals.now }
    ensures { result ≡ each_passes has_room columns.now (literal_row literals.now) }
{
    for (i, column) in columns.iter().enumerate() {
        if !has_room(*column, &literals[i]) {
            return false;
        }
    }
    true
}

// Whether a column has room for a literal.
fn has_room(column: ColumnType, literal: &Literal) -> bool
    ensures { result ≡ has_room column (literal_datum literal.now) }
{
    match (column, literal) {
        (ColumnType::Text(most), Literal::Text(text)) => {
            text.len() <= usize::from(most).min(TEXT_BYTES)
        }
        _ => true,
    }
}

// The row of so many literals as a table has columns, whose texts are as long as any may be, at the most.
fn tuple_of(literals: &[Literal]) -> Tuple
    requires few { length literals.now ≤ COLUMNS }
    requires short { AllByRecursion IsShort (literal_row literals.now) }
    ensures { row_of result.items ≡ literal_row literals.now }
{
    let mut tuple = Tuple::new();
    for literal in literals {
        tuple.push(value_of(literal));
    }
    tuple
}

// The value of a literal.
fn value_of(literal: &Literal) -> Value
    requires { IsShort (literal_datum literal.now) }
    ensures { datum_of result ≡ literal_datum literal.now }
{
    match literal {
        Literal::Null => Value::Null,
        Literal::Int(number) => Value::Int(*number),
        Literal::Text(text) => match ArrayString::from(text.as_str()) {
            Ok(bytes) => Value::Text(bytes),
            Err(_) => unreachable!(),
        },
    }
}
