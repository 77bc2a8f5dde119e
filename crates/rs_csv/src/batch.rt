//! Records that are read together: whole ones, and the beginning of the next.
//!
//! A record that is longer than records may be is not kept, and its end is told.

ghost use Rattle.std.specs.Prelude.{◌≡◌, ◌≤◌, ◌↔◌, ◌+◌, [], ◌∷◌, ◌++◌, ℕ, List, IfOk, IsSome, OnOk, length, take};
ghost use Rattle.rs_csv.specs.Cutting.{EndsRecord, GoesOn, IsBatchOf, IsBatchWithin, IsBetween, Runs, Takes, after_all};

use crate::quoting::{Place, count_run, push_marked};
use crate::spot::Lines;
use std::alloc::{AllocError, Global};

/// How many bytes a record has at the most, beside its line end.
pub const RECORD_BYTES: usize = 65_536;

/// How many bytes of records are read together, before they are written.
pub const BATCH_BYTES: usize = 32_768;

/// What a byte did.
#[derive(Clone, Copy, PartialEq, Eq, Debug)]
pub enum Taken {
    /// A record goes on.
    Within,
    /// A record ended.
    Ended,
    /// A record became too long.
    TooLong,
    /// One that was too long ended.
    EndedLong,
}

/// Records, with the quotes of their fields marked.
#[derive(Drop)]
pub struct Batch {
    // An empty line, which keeps the first record's bytes from being taken for a byte order mark, and the records.
    text: Vec<u8>,
    // The byte between two fields.
    separator: u8,
    // Where the next byte stands.
    place: Place,
    // Where the record begins that has not ended.
    begun: usize,
    // How many bytes it has so far.
    length: usize,
    // Whether it is too long.
    is_long: bool,
    // The lines that have ended so far.
    lines: Lines,
    // Those that had ended where that record begins.
    begun_lines: Lines,
    // The line on which the last field begins that has a quote before it.
    quote_line: u64,
}

impl Batch {
    /// No record.
    pub fn new(alloc: Global, separator: u8) -> Result<Self, AllocError>
        ensures { IfOk result (λ batch. IsBatchOf separator batch [] []) }
    {
        let text = Vec::from_slice(alloc, b"\n")?;
        Ok(Batch {
            text,
            separator,
            place: Place::Start,
            begun: 1,
            length: 0,
            is_long: false,
            lines: Lines::new(),
            begun_lines: Lines::new(),
            quote_line: 1,
        })
    }

    /// The text of the records.
    pub fn text(&self) -> &[u8]
        ensures { result.now ≡ self.now.text.items }
    {
        self.text.as_slice()
    }

    /// Whether there are so many records that they are to be written.
    pub fn is_full(&self) -> bool {
        self.text.len() >= BATCH_BYTES
    }

    /// Whether a record that is too long has not ended.
    pub fn is_within_long(&self) -> bool
        ensures { result ≡ self.now.is_long }
    {
        self.is_long
    }

    /// The lines of the input that have ended so far.
    pub fn lines(&self) -> Lines {
        self.lines
    }

    /// Those that had ended where the record begins that has not ended.
    pub fn begun_lines(&self) -> Lines {
        self.begun_lines
    }

    /// The line on which a quote opens that is not closed so far, where there is one.
    pub fn open_quote(&self) -> Option<u64>
        ensures { IsSome result ↔ (self.now.place ≡ Place.Inside) }
    {
        match self.place {
            Place::Inside => Some(self.quote_line),
            Place::Start | Place::Plain | Place::Behind => None,
        }
    }

    // The line of the last quote that opens a field, with this byte.
    fn quote_line_with(&self, byte: u8) -> u64 {
        if self.place == Place::Start && byte == b'"' {
            self.lines.next_line()
        } else {
            self.quote_line
        }
    }

    /// Takes the records away.
    pub fn clear(&mut self)
        ensures { (separator : ℕ) (whole : List ℕ) (begun : List ℕ) → IsBatchOf separator self.old whole begun → IsBetween self.old begun → IsBatchOf separator self.new [] begun }
    {
        self.text.truncate(1);
        self.begun = self.text.len();
    }

    // Adds a byte to the record that has begun.
    fn push(&mut self, byte: u8) -> Result<(), AllocError>
        ensures { OnOk result ((separator : ℕ) (whole : List ℕ) (begun : List ℕ) → IsBatchOf separator self.old whole begun → IsBatchWithin (RECORD_BYTES + 1) separator self.new whole (begun ++ byte ∷ [])) }
    {
        if !self.is_long {
            push_marked(&mut self.text, self.place, byte)?;
        }
        self.length = self.length.saturating_add(1);
        self.quote_line = self.quote_line_with(byte);
        self.place = self.place.after(self.separator, byte);
        self.lines = self.lines.after(byte);
        Ok(())
    }

    // At the end of a record.
    fn end_record(&mut self) -> Taken
        ensures { (separator : ℕ) (whole : List ℕ) (raw : List ℕ) → IsBatchWithin (RECORD_BYTES + 1) separator self.old whole raw → after_all separator Place.Start raw ≡ Place.Start → EndsRecord separator result self.new whole raw }
    {
        self.begun = self.text.len();
        self.length = 0;
        self.begun_lines = self.lines;
        if self.is_long {
            self.is_long = false;
            Taken::EndedLong
        } else {
            Taken::Ended
        }
    }

    // After a byte that ends no record.
    fn go_on(&mut self) -> Taken
        ensures { (separator : ℕ) (whole : List ℕ) (begun : List ℕ) → IsBatchWithin (RECORD_BYTES + 1) separator self.old whole begun → GoesOn separator result self.new whole begun }
    {
        if self.is_long {
            return Taken::Within;
        }
        if self.length > RECORD_BYTES {
            self.text.truncate(self.begun);
            self.is_long = true;
            return Taken::TooLong;
        }
        Taken::Within
    }

    /// Takes the bytes at the beginning that go on the record outside quotes, where the next byte stands in none, and says how many.
    pub fn take_run(&mut self, bytes: &[u8]) -> Result<usize, AllocError>
        ensures within { IfOk result (λ count. count ≤ length bytes.now) }
        ensures runs { IfOk result (λ count. (separator : ℕ) (whole : List ℕ) (begun : List ℕ) → IsBatchOf separator self.old whole begun → Runs separator self.new whole begun (take count bytes.now)) }
    {
        if self.is_long || !self.place.is_outside() {
            return Ok(0);
        }
        let count = count_run(bytes);
        let run = &bytes[..count];
        let length = self.length.saturating_add(count);
        let Some((last, _)) = run.split_last() else {
            return Ok(0);
        };
        if length > RECORD_BYTES {
            return Ok(0);
        }
        self.text.extend_from_slice(run)?;
        self.length = length;
        self.place = Place::Plain.after(self.separator, *last);
        self.lines = self.lines.within();
        Ok(count)
    }

    /// Takes a byte.
    pub fn take(&mut self, byte: u8) -> Result<Taken, AllocError>
        ensures { IfOk result (λ taken. (separator : ℕ) (whole : List ℕ) (begun : List ℕ) → IsBatchOf separator self.old whole begun → Takes separator taken self.new whole begun byte) }
    {
        let ends = self.place.ends_record(byte);
        self.push(byte)?;
        if ends {
            Ok(self.end_record())
        } else {
            Ok(self.go_on())
        }
    }
}
