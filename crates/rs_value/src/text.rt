//! Bytes that are a text: UTF-8 without a control character.
//!
//! It promises to say exactly when bytes are one.

ghost use Rattle.std.specs.Prelude.{◌≡◌, MatchOption, false, true};
ghost use Rattle.std.specs.List.{list_all, list_any};
ghost use Rattle.rs_value.specs.Values.{is_control, is_plain, is_text};

use std::str;

/// Whether a byte among these is a control character: below the space, or 127.
pub fn has_control(bytes: &[u8]) -> bool
    ensures { result ≡ list_any is_control bytes.now }
{
    bytes.iter().any(|byte| *byte < b' ' || *byte == 127)
}

/// Whether each byte is printable ASCII. Such bytes are a text.
pub(crate) fn are_plain(bytes: &[u8]) -> bool
    ensures { result ≡ list_all is_plain bytes.now }
{
    bytes.iter().all(|byte| *byte >= b' ' && *byte < 127)
}

/// The bytes as text, where they are UTF-8 without a control character.
pub fn as_text(bytes: &[u8]) -> Option<&str>
    ensures { MatchOption result (is_text bytes.now ≡ false)
        (λ text. (text.now ≡ bytes.now) × (is_text bytes.now ≡ true)) }
{
    match str::from_utf8(bytes) {
        Ok(text) => { if has_control(bytes) { None } else { Some(text) } }
        Err(_) => None,
    }
}
