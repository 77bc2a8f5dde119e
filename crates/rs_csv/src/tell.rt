//! What is told on the errors stream: which record was left out, and why. What is no printable text is shown as `?`, byte by byte.
//!
//! The status does not depend on that stream: a write to it that fails is ignored.

use crate::spot::Spot;
use crate::texts::TakenName;
use csv::ByteRecord;
use itoa::Buffer;
use rs_csv_lines::fields::content;
use rs_csv_lines::{Cause, Misfit};
use rs_protocol::put_parts;
use rs_value::as_text;
use std::io::Write;

/// How many bytes of a field are shown at the most.
const SHOWN_BYTES: usize = 60;

/// How many names of the header are shown at the most.
const SHOWN_NAMES: usize = 50;

/// Why no field of the header is taken for a name.
#[derive(Clone, Copy, PartialEq, Eq, Debug)]
pub enum Lack {
    /// No field has the name, in letters of whichever case.
    Nowhere,
    /// Two have it.
    Twice,
    /// None has it, and two have it in letters of another case.
    TwiceButForCase,
}

// What is wrong with a field that is shown before these words.
fn cause_words(cause: Cause) -> &'static [u8] {
    match cause {
        Cause::Missing => b"no such field",
        Cause::NotText => b" is not text",
        Cause::NotName => b" is not a name",
        Cause::NotPosition => b" is not a position",
        Cause::NotNumber => b" is not a number",
        Cause::Decimal => b" is not a whole number",
        Cause::LargeNumber => b" is past 10^12",
        Cause::Decimals(_) => b" has too many decimals",
        Cause::BelowZero => b" is below 0",
        Cause::PastGreatest => b" is past 999999.999",
        Cause::PastWhole => b" is more than 100%",
    }
}

// A number of decimals, in a word.
fn count_word(count: usize) -> Option<&'static [u8]> {
    match count {
        4 => Some(b"four"),
        5 => Some(b"five"),
        6 => Some(b"six"),
        7 => Some(b"seven"),
        8 => Some(b"eight"),
        9 => Some(b"nine"),
        _ => None,
    }
}

// The beginning of a text, up to a whole character.
fn beginning(text: &[u8]) -> &[u8] {
    if text.len() <= SHOWN_BYTES {
        return text;
    }
    let mut end = SHOWN_BYTES;
    for place in 0..SHOWN_BYTES {
        if text[place + 1] & 0xc0 != 0x80 {
            end = place + 1;
        }
    }
    text.get(..end).unwrap_or(text)
}

// Shows a byte of a text, `?` in place of a control character.
fn show_byte<E: Write>(errors: &mut E, byte: u8) {
    let shown = if byte < b' ' || byte == 127 {
        b'?'
    } else {
        byte
    };
    let _ = put_parts(errors, &[&[shown]]);
}

// Shows a text, `?` in place of each byte that is no printable text.
fn show_text<E: Write>(errors: &mut E, text: &[u8]) {
    if as_text(text).is_some() {
        let _ = put_parts(errors, &[text]);
        return;
    }
    for chunk in text.utf8_chunks() {
        for byte in chunk.valid().as_bytes() {
            show_byte(errors, *byte);
        }
        for _ in chunk.invalid() {
            show_byte(errors, b'?');
        }
    }
}

// Shows the beginning of a text.
fn show_beginning<E: Write>(errors: &mut E, text: &[u8]) {
    let shown = beginning(text);
    show_text(errors, shown);
    if shown.len() < text.len() {
        let _ = put_parts(errors, &[b".."]);
    }
}

// Shows a field.
fn show_field<E: Write>(errors: &mut E, field: &[u8]) {
    let text = content(field);
    if text.is_empty() {
        let _ = put_parts(errors, &[b"an empty field"]);
    } else if text.iter().all(|byte| *byte == b' ') {
        let _ = put_parts(errors, &[b"a blank field"]);
    } else {
        show_beginning(errors, text);
    }
}

// Tells how many decimals a field has.
fn tell_decimals<E: Write>(errors: &mut E, count: usize) {
    let mut digits = Buffer::new();
    let number = digits.format(count as u64).as_bytes();
    let word = count_word(count).unwrap_or(number);
    let _ = put_parts(errors, &[b" has ", word, b" decimals"]);
}

// The name of a column of the CSV.
fn column_name(header: &ByteRecord, place: usize) -> &[u8] {
    match header.get(place) {
        Some(name) => content(name),
        None => b"?",
    }
}

// Tells the name of a column, before what is wrong with its field.
fn tell_name<E: Write>(errors: &mut E, header: &ByteRecord, place: usize) {
    show_text(errors, column_name(header, place));
    let _ = put_parts(errors, &[b": "]);
}

// Tells what is wrong with a field of a record, which is shown where there is one.
fn tell_field<E: Write>(errors: &mut E, field: &[u8], cause: Cause) {
    match cause {
        Cause::Missing => {}
        _ => show_field(errors, field),
    }
    match cause {
        Cause::Decimals(count) => tell_decimals(errors, count),
        _ => {
            let _ = put_parts(errors, &[cause_words(cause)]);
        }
    }
}

/// Tells where a record stands that is left out.
pub fn tell_spot<E: Write>(errors: &mut E, spot: Spot) {
    let mut number = Buffer::new();
    let mut line = Buffer::new();
    let _ = put_parts(
        errors,
        &[
            b"roadseg: record ",
            number.format(spot.number).as_bytes(),
            b", line ",
            line.format(spot.line).as_bytes(),
        ],
    );
}

/// Tells what is wrong with a record, by its field.
pub fn tell_misfit<E: Write>(
    errors: &mut E,
    header: &ByteRecord,
    csv_record: &ByteRecord,
    misfit: Misfit,
) {
    match misfit {
        Misfit::Field(place, cause) => {
            tell_name(errors, header, place);
            tell_field(errors, csv_record.get(place).unwrap_or(b""), cause);
        }
        Misfit::LongLine => {
            let _ = put_parts(errors, &[b"line past 4096 bytes"]);
        }
        Misfit::OutOfMemory => {
            let _ = put_parts(errors, &[b"out of memory"]);
        }
    }
}

/// Tells that a text, which is the route of a record, would have the name that is made of another text.
pub fn tell_taken_name<E: Write>(
    errors: &mut E,
    header: &ByteRecord,
    place: usize,
    text: &[u8],
    taken: &TakenName<'_>,
) {
    tell_name(errors, header, place);
    show_beginning(errors, text);
    let name = taken.name.as_str().as_bytes();
    let _ = put_parts(errors, &[b" would be ", name, b", as "]);
    show_beginning(errors, taken.text);
    let _ = put_parts(errors, &[b" is"]);
}

/// Tells that a record has so many fields, where the header has fewer, and the first that is past it.
pub fn tell_more_fields<E: Write>(errors: &mut E, count: usize, width: usize, first: &[u8]) {
    let mut digits = Buffer::new();
    let mut width_digits = Buffer::new();
    let _ = put_parts(
        errors,
        &[
            digits.format(count as u64).as_bytes(),
            b" fields, where the header has ",
            width_digits.format(width as u64).as_bytes(),
            b"; the first past it is ",
        ],
    );
    show_field(errors, first);
}

/// Tells that a record was left out, by words alone.
pub fn tell_record<E: Write>(errors: &mut E, spot: Spot, words: &[u8]) {
    tell_spot(errors, spot);
    let _ = put_parts(errors, &[b": ", words, b"\n"]);
}

/// Tells of a line of the input by words alone.
pub fn tell_line<E: Write>(errors: &mut E, line: u64, words: &[u8]) {
    let mut number = Buffer::new();
    let digits = number.format(line).as_bytes();
    let _ = put_parts(errors, &[b"roadseg: line ", digits, b": ", words, b"\n"]);
}

/// Tells how many there were of something, and where not all were told how many of them were.
pub fn tell_count<E: Write>(errors: &mut E, words: &[u8], count: u64, told: u64) {
    let mut digits = Buffer::new();
    let number = digits.format(count).as_bytes();
    let _ = put_parts(errors, &[b"roadseg: ", words, b": ", number]);
    if told > 0 {
        let mut digits = Buffer::new();
        let number = digits.format(told).as_bytes();
        let _ = put_parts(errors, &[b", of which ", number, b" are told"]);
    }
    let _ = put_parts(errors, &[b"\n"]);
}

// Shows the names of the header's columns.
fn show_names<E: Write>(errors: &mut E, header: &ByteRecord) {
    for place in 0..header.len().min(SHOWN_NAMES) {
        let part: &[u8] = if place == 0 { b"" } else { b", " };
        let _ = put_parts(errors, &[part]);
        show_text(errors, beginning(column_name(header, place)));
    }
    if header.len() > SHOWN_NAMES {
        let _ = put_parts(errors, &[b", .."]);
    }
}

/// Tells that the header has no column of this name, or two.
pub fn tell_column<E: Write>(
    errors: &mut E,
    header: &ByteRecord,
    name: &str,
    makes_names: bool,
    lack: Lack,
) {
    let wrong: &[u8] = match lack {
        Lack::Nowhere => b": no such column in the header, which has: ",
        Lack::Twice if makes_names => b": column twice in the header once names are made: ",
        Lack::Twice => b": column twice in the header\n",
        Lack::TwiceButForCase => b": column twice in the header but for the case of letters: ",
    };
    let _ = put_parts(errors, &[b"roadseg: ", name.as_bytes(), wrong]);
    if lack == Lack::Twice && !makes_names {
        return;
    }
    show_names(errors, header);
    let _ = put_parts(errors, &[b"\n"]);
}

/// Tells that no extent of a route is known.
pub fn tell_route<E: Write>(errors: &mut E, name: &str) {
    let _ = put_parts(
        errors,
        &[
            b"roadseg: ",
            name.as_bytes(),
            b": no measure met on the route\n",
        ],
    );
}

/// Tells how many measures were rounded.
pub fn tell_rounded<E: Write>(errors: &mut E, count: u64) {
    let mut digits = Buffer::new();
    let number = digits.format(count).as_bytes();
    let _ = put_parts(errors, &[b"roadseg: measures rounded: ", number, b"\n"]);
}
