//! The byte between two fields of a CSV, by the text of `--separator`.
//!
//! It promises which texts say a byte, and which one.

ghost use Rattle.std.specs.Prelude.{◌≡◌};
ghost use Rattle.rs_command_line.specs.Separator.{only_byte, parts_none, separator_in};

// Whether a byte stands between no fields.
fn parts_none(byte: u8) -> bool
    ensures { result ≡ parts_none byte }
{
    byte == b'"' || byte == b'\n' || byte == b'\r' || byte == 0
}

// The only byte of a text, where it may stand between fields.
fn only_byte(text: &[u8]) -> Option<u8>
    ensures { result ≡ only_byte text.now }
{
    match text {
        [byte] => { if parts_none(*byte) { None } else { Some(*byte) } }
        _ => None,
    }
}

/// The byte that a text says: its only one, or for `tab` a tab. None where it is another text, or a quote, an end of line or NUL.
pub fn separator_of(text: &str) -> Option<u8>
    ensures { result ≡ separator_in text.now }
{
    if text == "tab" {
        Some(b'\t')
    } else {
        only_byte(text.as_bytes())
    }
}
