//! Quotes of CSV: where a record ends, and which fields stand in quotes. One byte stands between two fields: a comma, or the one that is told.
//!
//! The opening quote of a field is written three times, so that the field reads with a quote before it. No field that does not
//! stand in quotes begins with one.

ghost use Rattle.std.specs.Prelude.{◌≡◌, ◌≤◌, ◌++◌, OnOk, length, take, true};
ghost use Rattle.rs_csv.specs.Quoting.{after, opens, ends_record, mark, AreRun, IsOutside};

use memchr::memchr3;
use std::alloc::AllocError;

/// Where a byte stands in a record.
#[derive(Clone, Copy, PartialEq, Eq, Debug)]
pub enum Place {
    /// At the beginning of a field.
    Start,
    /// In a field without quotes.
    Plain,
    /// Between the quotes of a field.
    Inside,
    /// After a quote between them, which closes the field or is the first of two.
    Behind,
}

// The place after a byte that stands in no quotes.
fn after_plain(separator: u8, byte: u8) -> Place
    ensures { result ≡ after separator Place.Plain byte }
{
    if byte == separator || byte == b'\n' || byte == b'\r' {
        Place::Start
    } else {
        Place::Plain
    }
}

impl Place {
    /// The place after a byte.
    pub fn after(self, separator: u8, byte: u8) -> Place
        ensures { result ≡ after separator self byte }
    {
        match self {
            Place::Start => {
                if byte == b'"' {
                    Place::Inside
                } else {
                    after_plain(separator, byte)
                }
            }
            Place::Plain => after_plain(separator, byte),
            Place::Inside => {
                if byte == b'"' {
                    Place::Behind
                } else {
                    Place::Inside
                }
            }
            Place::Behind => {
                if byte == b'"' {
                    Place::Inside
                } else {
                    after_plain(separator, byte)
                }
            }
        }
    }

    /// Whether it is outside quotes.
    pub fn is_outside(self) -> bool
        ensures { result ≡ true → IsOutside self }
    {
        match self {
            Place::Start | Place::Plain => true,
            Place::Inside | Place::Behind => false,
        }
    }

    /// Whether a byte here ends the record.
    pub fn ends_record(self, byte: u8) -> bool
        ensures { result ≡ ends_record self byte }
    {
        match self {
            Place::Inside => false,
            Place::Start | Place::Plain | Place::Behind => byte == b'\n' || byte == b'\r',
        }
    }
}

/// How many bytes at the beginning go on a record outside quotes, from one field to the next: none is a quote or ends a line.
pub fn count_run(bytes: &[u8]) -> usize
    ensures within { result ≤ length bytes.now }
    ensures run { AreRun (take result bytes.now) }
{
    match memchr3(b'"', b'\n', b'\r', bytes) {
        Some(place) => place,
        None => bytes.len(),
    }
}

/// Adds a byte to a text of records, three times where it opens a field.
pub fn push_marked(text: &mut Vec<u8>, place: Place, byte: u8) -> Result<(), AllocError>
    ensures { OnOk result (text.new.items ≡ text.old.items ++ mark place byte) }
{
    if place == Place::Start && byte == b'"' {
        text.extend_from_slice(b"\"\"\"")
    } else {
        text.push(byte)?;
        Ok(())
    }
}
