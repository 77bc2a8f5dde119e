//! A text with its quotes doubled, as replies print it.
//!
//! It promises that exactly this text is appended, unless memory runs out.

ghost use Rattle.std.specs.Prelude.{◌≡◌, ◌++◌, OnOk, string_bytes};
ghost use Rattle.rs_value.specs.Text.{quotes_doubled};

use std::alloc::AllocError;

/// Appends a text with each quote doubled. Where memory runs out, a part may have been appended.
pub fn push_doubled(text: &mut String, quoted: &str) -> Result<(), AllocError>
    ensures { OnOk result (string_bytes text.new ≡ string_bytes text.old ++ quotes_doubled quoted.now) }
{
    let mut rest = quoted;
    while let Some((before, after)) = rest.split_once('\'') {
        text.push_str(before)?;
        text.push_str("''")?;
        rest = after;
    }
    text.push_str(rest)
}
