//! How many faults were met of each kind: the first ones are told, and the others counted.

ghost use Rattle.std.specs.Prelude.{◌≡◌, ◌<◌, None, false};
ghost use Rattle.std.specs.Io.KnownBytes.{Keeps};

use crate::tell::{tell_count, tell_line, tell_route};
use rs_csv_lines::{Cause, Misfit};
use std::io::Write;

/// How many faults of a kind are told at the most.
pub const TOLD: u64 = 20;

/// How many kinds there are.
const KINDS: usize = 17;

/// A kind of fault.
#[derive(Clone, Copy, PartialEq, Eq, Debug)]
pub enum Kind {
    /// The record has no such field.
    Missing,
    /// A field is no text.
    NotText,
    /// It is no name.
    NotName,
    /// It is no position.
    NotPosition,
    /// It is no number.
    NotNumber,
    /// It is no whole number.
    Decimal,
    /// It is past 10^12.
    LargeNumber,
    /// It has too many decimals.
    Decimals,
    /// It is below 0.
    BelowZero,
    /// It is past the greatest measure.
    PastGreatest,
    /// It is above 100%.
    PastWhole,
    /// The line would be too long.
    LongLine,
    /// The record is too long to be read.
    LongRecord,
    /// It has more fields than the header.
    MoreFields,
    /// The name of its route is made of another text.
    TakenName,
    /// No measure was met on a route.
    NoMeasure,
    /// The input ends within quotes.
    OpenQuote,
}

/// Each kind, in the order of their counts.
const ALL: [Kind; KINDS] = [
    Kind::Missing,
    Kind::NotText,
    Kind::NotName,
    Kind::NotPosition,
    Kind::NotNumber,
    Kind::Decimal,
    Kind::LargeNumber,
    Kind::Decimals,
    Kind::BelowZero,
    Kind::PastGreatest,
    Kind::PastWhole,
    Kind::LongLine,
    Kind::LongRecord,
    Kind::MoreFields,
    Kind::TakenName,
    Kind::NoMeasure,
    Kind::OpenQuote,
];

impl Kind {
    /// The kind of what is wrong with a field.
    pub fn of_cause(cause: Cause) -> Kind {
        match cause {
            Cause::Missing => Kind::Missing,
            Cause::NotText => Kind::NotText,
            Cause::NotName => Kind::NotName,
            Cause::NotPosition => Kind::NotPosition,
            Cause::NotNumber => Kind::NotNumber,
            Cause::Decimal => Kind::Decimal,
            Cause::LargeNumber => Kind::LargeNumber,
            Cause::Decimals(_) => Kind::Decimals,
            Cause::BelowZero => Kind::BelowZero,
            Cause::PastGreatest => Kind::PastGreatest,
            Cause::PastWhole => Kind::PastWhole,
        }
    }

    /// The kind of a misfit, which is not want of memory.
    pub fn of_misfit(misfit: Misfit) -> Kind {
        match misfit {
            Misfit::Field(_, cause) => Kind::of_cause(cause),
            Misfit::LongLine | Misfit::OutOfMemory => Kind::LongLine,
        }
    }

    /// Whether it is told with the name of a column.
    pub fn is_of_field(self) -> bool {
        match self {
            Kind::LongLine
            | Kind::LongRecord
            | Kind::MoreFields
            | Kind::NoMeasure
            | Kind::OpenQuote => false,
            _ => true,
        }
    }

    // The place of its count.
    fn place(self) -> usize
        ensures { result < KINDS }
    {
        match self {
            Kind::Missing => 0,
            Kind::NotText => 1,
            Kind::NotName => 2,
            Kind::NotPosition => 3,
            Kind::NotNumber => 4,
            Kind::Decimal => 5,
            Kind::LargeNumber => 6,
            Kind::Decimals => 7,
            Kind::BelowZero => 8,
            Kind::PastGreatest => 9,
            Kind::PastWhole => 10,
            Kind::LongLine => 11,
            Kind::LongRecord => 12,
            Kind::MoreFields => 13,
            Kind::TakenName => 14,
            Kind::NoMeasure => 15,
            Kind::OpenQuote => 16,
        }
    }

    /// It in words.
    pub fn words(self) -> &'static [u8] {
        match self {
            Kind::Missing => b"no such field",
            Kind::NotText => b"not text",
            Kind::NotName => b"not a name",
            Kind::NotPosition => b"not a position",
            Kind::NotNumber => b"not a number",
            Kind::Decimal => b"not a whole number",
            Kind::LargeNumber => b"past 10^12",
            Kind::Decimals => b"too many decimals",
            Kind::BelowZero => b"below 0",
            Kind::PastGreatest => b"past 999999.999",
            Kind::PastWhole => b"more than 100%",
            Kind::LongLine => b"line past 4096 bytes",
            Kind::LongRecord => b"longer than 65536 bytes",
            Kind::MoreFields => b"more fields than the header",
            Kind::TakenName => b"one name of two texts",
            Kind::NoMeasure => b"no measure met on the route",
            Kind::OpenQuote => b"quote not closed",
        }
    }
}

/// What was met so far.
#[derive(Drop)]
pub struct Told {
    // How many records were left out.
    records: u64,
    // How many faults there were of each kind.
    counts: [u64; KINDS],
    // Whether the header of records that are left out was written.
    has_header: bool,
    // The line on which a quote opens that is not closed, where the input ends so.
    open_quote: Option<u64>,
}

impl Told {
    /// Nothing.
    pub fn new() -> Told {
        Told {
            records: 0,
            counts: [0; KINDS],
            has_header: false,
            open_quote: None,
        }
    }

    /// Counts a record that is left out.
    pub fn leave_out(&mut self) {
        self.records = self.records.saturating_add(1);
    }

    /// Whether the header of records that are left out is still to be written, which it is from now on.
    pub fn lacks_header(&mut self) -> bool {
        let lacks = !self.has_header;
        self.has_header = true;
        lacks
    }

    /// Counts a fault, and says whether it is one of the first of its kind, which are told.
    pub fn meet(&mut self, kind: Kind) -> bool
        ensures { self.new.open_quote ≡ self.old.open_quote }
    {
        let place = kind.place();
        let count = self.counts[place].saturating_add(1);
        self.counts[place] = count;
        count <= TOLD
    }

    /// Tells that no measure was met on a route, where few such were told.
    pub fn tell_unmet<E: Write>(&mut self, name: &str, errors: &mut E)
        ensures { self.new.open_quote ≡ self.old.open_quote }
    {
        if self.meet(Kind::NoMeasure) {
            tell_route(errors, name);
        }
    }

    /// Keeps the line on which a quote opens that is not closed at the end of the input, where there is one.
    pub fn end_input(&mut self, open_quote: Option<u64>)
        ensures { self.new.open_quote ≡ open_quote }
    {
        self.open_quote = open_quote;
    }

    /// Tells of a quote that is not closed, and says whether there is one.
    pub fn tell_open_quote<E: Write>(&mut self, errors: &mut E) -> bool
        ensures closed { result ≡ false → self.old.open_quote ≡ None }
        ensures quiet { result ≡ false → Keeps (E.contents errors.old) (E.contents errors.new) }
    {
        let Some(line) = self.open_quote else {
            return false;
        };
        self.meet(Kind::OpenQuote);
        tell_line(errors, line, Kind::OpenQuote.words());
        true
    }

    /// Tells how many records were left out, and how many faults there were of each kind.
    pub fn summarize<E: Write>(&self, errors: &mut E) {
        tell_count(errors, b"records left out", self.records, 0);
        for kind in ALL.as_slice() {
            let count = self.counts[kind.place()];
            if count > 0 {
                let told = if count > TOLD { TOLD } else { 0 };
                tell_count(errors, kind.words(), count, told);
            }
        }
    }
}
