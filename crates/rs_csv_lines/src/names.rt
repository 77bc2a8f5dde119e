//! Names made of texts that are none, as an office's `I-95` or `US 40`.
//!
//! Each byte that no name has becomes `_`, `R` is put before what begins with no letter, what is too long for a name is cut, and a reserved word
//! gets `_` after it. A name stays as it is.

ghost use Rattle.std.specs.Prelude.{◌≡◌, ◌<◌, ◌≤◌, ℕ, List, MatchOption, length};
ghost use Rattle.rs_csv_lines.specs.Names.{before_name, name_byte, name_bytes, trimmed, IsMadeName};

use rs_lexer::is_name;
use rs_methods::Name;

// The byte that a name has for one of a text.
fn name_byte(byte: u8) -> u8
    ensures value { result ≡ name_byte byte }
    ensures ascii { result < 128 }
{
    if byte.is_ascii_alphanumeric() || byte == b'_' {
        byte
    } else {
        b'_'
    }
}

// What is put before a text: `R` where it begins with no letter.
fn before_name(text: &[u8]) -> &'static str
    ensures value { result.now ≡ before_name text.now }
    ensures few { length result.now ≤ 1 }
{
    match text.split_first() {
        Some((first, _)) => { if first.is_ascii_alphabetic() { "" } else { "R" } }
        None => "",
    }
}

// The bytes of a text as names have them, cut where they are too many for one.
fn name_bytes(text: &[u8]) -> Name
    ensures { result.bytes ≡ name_bytes text.now }
{
    let mut name = Name::new();
    name.push_str(before_name(text));
    for byte in text {
        match name.try_push(char::from(name_byte(*byte))) {
            Ok(()) => {}
            Err(_) => return name,
        }
    }
    name
}

/// The text without the blanks round it.
pub fn trimmed(text: &[u8]) -> &[u8]
    ensures { result.now ≡ trimmed text.now }
{
    text.trim_ascii()
}

/// The name that a text is made. Of blanks alone, or of nothing, none is made.
pub fn made_name(text: &[u8]) -> Option<Name>
    ensures { MatchOption result ((name : List ℕ) → ¬ IsMadeName text.now name) (λ name. IsMadeName text.now name.bytes) }
{
    let name = name_bytes(trimmed(text));
    if is_name(name.as_str()) {
        return Some(name);
    }
    let mut longer = name;
    match longer.try_push('_') {
        Ok(()) => {
            if is_name(longer.as_str()) {
                Some(longer)
            } else {
                None
            }
        }
        Err(_) => None,
    }
}
