//! The text of the values that are kept, as replies print them.
//!
//! It promises that exactly this text is appended, unless memory runs out.

ghost use Rattle.std.specs.Prelude.{◌≡◌, ◌++◌, OnOk, string_bytes};
ghost use Rattle.rs_value.specs.Kept.{Keeps};
ghost use Rattle.rs_value.specs.LentView.{lent_datum};
ghost use Rattle.rs_value.specs.Row.{Row};
ghost use Rattle.rs_value.specs.Text.{datum_text, values_text};
ghost use Rattle.rs_value.specs.Values.{IsValue};

use crate::kept_bytes::{first_value, split_first};
use crate::lent::{LentValue, text_in};
use crate::row_text::push_doubled;
use itoa::Buffer;
use std::alloc::AllocError;

/// Appends a space and the text of each value that the bytes keep.
pub(crate) fn push_each(text: &mut String, kept: &[u8]) -> Result<(), AllocError>
    requires { (row : Row) × Keeps kept.now row }
    ensures { (row : Row) → Keeps kept.now row → OnOk result (string_bytes text.new ≡ string_bytes text.old ++ values_text row) }
{
    let mut rest = kept;
    while !rest.is_empty() {
        text.push(' ')?;
        push_lent(text, first_value(rest))?;
        rest = split_first(rest).1;
    }
    Ok(())
}

/// Appends the text of a value. Where memory runs out, a part may have been appended.
pub fn push_lent(text: &mut String, value: LentValue<'_>) -> Result<(), AllocError>
    requires { IsValue (lent_datum value) }
    ensures { OnOk result (string_bytes text.new ≡ string_bytes text.old ++ datum_text (lent_datum value.entry)) }
{
    match value {
        LentValue::Null => text.push_str("NULL"),
        LentValue::Int(number) => text.push_str(Buffer::new().format(number)),
        LentValue::Text(bytes) => {
            text.push('\'')?;
            push_doubled(text, text_in(bytes))?;
            text.push('\'')
        }
    }
}
