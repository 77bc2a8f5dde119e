//! The text of a value of a row.
//!
//! It is that of a reply, as bytes: that they are text is not checked again.

ghost use Rattle.std.specs.Prelude.{◌≡◌, ◌++◌, OnOk};
ghost use Rattle.rs_value.specs.LentView.{lent_datum};
ghost use Rattle.rs_value.specs.Row as rows;
ghost use Rattle.rs_value.specs.Text.{datum_text, quotes_doubled};

use crate::parts::push_few;
use itoa::Buffer;
use rs_backward_text::values::{QUOTE, has_quote};
use rs_value::LentValue;
use std::alloc::AllocError;

/// Appends the text of a value. Where memory runs out, a part may have been appended.
pub(crate) fn push_value(text: &mut Vec<u8>, value: LentValue<'_>) -> Result<(), AllocError>
    ensures { OnOk result (text.new.items ≡ text.old.items ++ datum_text (lent_datum value.entry)) }
{
    match value {
        LentValue::Null => push_few(text, b"NULL"),
        LentValue::Int(number) => push_few(text, Buffer::new().format(number).as_bytes()),
        LentValue::Text(bytes) => push_quoted(text, bytes),
    }
}

/// Appends the bytes of a text between quotes, each quote among them doubled.
fn push_quoted(text: &mut Vec<u8>, quoted: &[u8]) -> Result<(), AllocError>
    ensures { OnOk result (text.new.items ≡ text.old.items ++ datum_text (rows.text quoted.now)) }
{
    text.push(QUOTE)?;
    push_within(text, quoted)?;
    text.push(QUOTE)?;
    Ok(())
}

/// Appends the bytes of a text, each quote among them doubled.
fn push_within(text: &mut Vec<u8>, quoted: &[u8]) -> Result<(), AllocError>
    ensures { OnOk result (text.new.items ≡ text.old.items ++ quotes_doubled quoted.now) }
{
    if has_quote(quoted) {
        return push_doubled(text, quoted);
    }
    text.extend_from_slice(quoted)
}

/// Appends the bytes one by one, each quote among them twice.
fn push_doubled(text: &mut Vec<u8>, quoted: &[u8]) -> Result<(), AllocError>
    ensures { OnOk result (text.new.items ≡ text.old.items ++ quotes_doubled quoted.now) }
{
    for byte in quoted {
        if *byte == QUOTE {
            text.push(QUOTE)?;
        }
        text.push(*byte)?;
    }
    Ok(())
}
