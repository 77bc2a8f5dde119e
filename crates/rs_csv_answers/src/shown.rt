//! What is shown of a line that was refused.

use std::str;

/// How many bytes of a line are shown at the most.
const SHOWN_BYTES: usize = 4_096;

/// A line without the CR at its end, up to the first byte that is no text of a line and to 4,096 bytes, and whether that is not all of it.
pub fn shown_of(line: &[u8]) -> (&[u8], bool) {
    let text = without_return(line);
    let shown = front_of_text(text.get(..SHOWN_BYTES).unwrap_or(text));
    (shown, shown.len() < text.len())
}

/// The bytes without a CR at their end.
fn without_return(bytes: &[u8]) -> &[u8] {
    match bytes {
        [rest @ .., b'\r'] => rest,
        _ => bytes,
    }
}

/// The bytes before the first that is no text of a line: no UTF-8, or a control character.
fn front_of_text(bytes: &[u8]) -> &[u8] {
    let plain = match bytes.iter().position(|byte| *byte < b' ' || *byte == 127) {
        Some(place) => bytes.get(..place).unwrap_or(bytes),
        None => bytes,
    };
    match str::from_utf8(plain) {
        Ok(_) => plain,
        Err(error) => plain.get(..error.valid_up_to()).unwrap_or(plain),
    }
}
