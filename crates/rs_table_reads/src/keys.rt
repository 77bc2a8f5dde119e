//! The value of a column that a literal is.

ghost use Rattle.std.specs.Prelude.{◌≡◌, ◌≤◌, ℕ, IfNone, IfSome, List, length, min};
ghost use Rattle.rs_value.specs.Encoding.{SaysDatum};
ghost use Rattle.rs_value.specs.Row as rows;
ghost use Rattle.rs_value.specs.Values.{IsOfType, IsValue};
ghost use Rattle.rs_value.specs.declared.column.TheConstants.{TEXT_BYTES};
ghost use Rattle.rs_value.specs.View.{datum_of, literal_datum};

use arrayvec::ArrayString;
use rs_value::{ColumnType, Literal, Value, has_control};

/// The greatest number of a value, and the least with its sign turned.
const GREATEST_NUMBER: u64 = 1_000_000_000_000;

/// The literal as a value of the column; None where no value of the column is the same.
pub(crate) fn value_of(column: ColumnType, literal: &Literal) -> Option<Value>
    ensures value { IfSome result (λ value. datum_of value ≡ literal_datum literal.now) }
    ensures of_type { IfSome result (λ value. IsOfType column (datum_of value)) }
    ensures none { IfNone result ((bytes : List ℕ) → SaysDatum column bytes (literal_datum literal.now) → ⊥) }
{
    match (column, literal) {
        (_, Literal::Null) => Some(Value::Null),
        (ColumnType::Int, Literal::Int(number)) => number_of(*number),
        (ColumnType::Text(most), Literal::Text(text)) => text_of(most, text.as_str()),
        _ => None,
    }
}

/// The value of a number, if it has one.
fn number_of(number: i64) -> Option<Value>
    ensures value { IfSome result (λ value. datum_of value ≡ rows.number number) }
    ensures is_one { IfSome result (λ _. IsValue (rows.number number)) }
    ensures none { IfNone result (IsValue (rows.number number) → ⊥) }
{
    if number.unsigned_abs() > GREATEST_NUMBER {
        return None;
    }
    Some(Value::Int(number))
}

/// The value of a text of at most so many bytes, if it has one.
fn text_of(most: u8, text: &str) -> Option<Value>
    ensures value { IfSome result (λ value. datum_of value ≡ rows.text text.now) }
    ensures is_one { IfSome result (λ _. IsValue (rows.text text.now) × (length text.now ≤ most)) }
    ensures none { IfNone result (IsValue (rows.text text.now) → length text.now ≤ min most TEXT_BYTES → ⊥) }
{
    if text.len() > usize::from(most) || has_control(text.as_bytes()) {
        return None;
    }
    match ArrayString::from(text) {
        Ok(bytes) => Some(Value::Text(bytes)),
        Err(_) => None,
    }
}
