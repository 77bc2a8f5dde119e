//! A value that is lent by the row that holds it.

ghost use Rattle.std.specs.Prelude.{◌≡◌};
ghost use Rattle.rs_value.specs.Row as rows;
ghost use Rattle.rs_value.specs.LentView.{lent_datum};
ghost use Rattle.rs_value.specs.Values.{IsValue};
ghost use Rattle.rs_value.specs.View.{literal_datum};

use crate::value::Literal;
use std::str;

/// A value in a column of a row, lent.
#[derive(Clone, Copy)]
pub enum LentValue<'a> {
    /// No value.
    Null,
    /// A whole number from -10^12 to 10^12.
    Int(i64),
    /// A text, of UTF-8 without the bytes 0 to 31 and 127.
    Text(&'a [u8]),
}

/// The bytes of a text, as a text.
pub(crate) fn text_in(bytes: &[u8]) -> &str
    requires { IsValue (rows.text bytes.now) }
    ensures { result.now ≡ bytes.now }
{
    match str::from_utf8(bytes) {
        Ok(text) => text,
        Err(_) => unreachable!(),
    }
}

/// What a literal writes, lent.
pub(crate) fn lent_literal(literal: &Literal) -> LentValue<'_>
    ensures { lent_datum result ≡ literal_datum literal.now }
{
    match literal {
        Literal::Null => LentValue::Null,
        Literal::Int(number) => LentValue::Int(*number),
        Literal::Text(text) => LentValue::Text(text.as_bytes()),
    }
}
