//! What is to be written for each record, and why there may be no line for one.
//!
//! A plan says which column of the CSV gives the route, the place and each value of the table.

ghost use Rattle.std.specs.Prelude.{◌≡◌, ◌≤◌, IfSome, false};
ghost use Rattle.rs_csv_lines.specs.Numbers.{places_of, scale_text};

use rs_methods::Name;
use rs_value::ColumnType;
use std::alloc::{AllocError, AllocFailed};

/// What each number of a column is multiplied by.
#[derive(Clone, Copy, PartialEq, Eq, Debug)]
pub enum Scale {
    /// 1: it is taken as it is.
    One,
    /// 10.
    Ten,
    /// 100.
    Hundred,
    /// 1000.
    Thousand,
    /// 10^4.
    TenThousand,
    /// 10^5.
    HundredThousand,
    /// 10^6.
    Million,
}

impl Scale {
    /// How many zeros it has.
    pub fn places(self) -> usize
        ensures value { result ≡ places_of self }
        ensures few { result ≤ 6 }
    {
        match self {
            Scale::One => 0,
            Scale::Ten => 1,
            Scale::Hundred => 2,
            Scale::Thousand => 3,
            Scale::TenThousand => 4,
            Scale::HundredThousand => 5,
            Scale::Million => 6,
        }
    }

    /// Whether numbers are not taken as they are.
    pub fn multiplies(self) -> bool
        ensures { result ≡ false → self ≡ Scale.One }
    {
        match self {
            Scale::One => false,
            _ => true,
        }
    }

    /// The scale that a text is, in digits.
    pub fn from_text(text: &str) -> Option<Scale>
        ensures { IfSome result (λ scale. text.now ≡ scale_text scale) }
    {
        match text {
            "1" => Some(Scale::One),
            "10" => Some(Scale::Ten),
            "100" => Some(Scale::Hundred),
            "1000" => Some(Scale::Thousand),
            "10000" => Some(Scale::TenThousand),
            "100000" => Some(Scale::HundredThousand),
            "1000000" => Some(Scale::Million),
            _ => None,
        }
    }
}

/// What gives the value of a column.
#[derive(Clone, Copy)]
pub enum Source {
    /// The field of this place of a record, from 0.
    Field(usize),
    /// The number of the record, from 1.
    Number,
}

/// A column of the table.
#[derive(Clone, Copy)]
pub struct Column {
    /// What it holds.
    pub column_type: ColumnType,
    /// What gives its value.
    pub source: Source,
    /// What each number is multiplied by.
    pub scale: Scale,
}

/// Which fields of a record say where its event is, each from 0.
#[derive(Clone, Copy)]
pub enum Place {
    /// Along the span between two positions.
    Along {
        /// Where the span begins.
        from: usize,
        /// Where it ends.
        to: usize,
    },
    /// At a position.
    At {
        /// Where it holds.
        at: usize,
    },
}

/// How measures are read.
#[derive(Clone, Copy)]
pub struct Measures {
    /// Whether they are taken to the nearest thousandth.
    pub rounds: bool,
    /// How many units a station has, where `12+50.5` is 12 stations and 50.5 units.
    pub stations: Option<u32>,
}

/// What is to be written for each record.
#[derive(Drop)]
pub struct Plan {
    /// The session of each line, from 0 to 63.
    pub session: u8,
    /// The name of the table.
    pub table: Name,
    /// Its columns, from the left.
    pub columns: Vec<Column>,
    /// Which field says the route, from 0.
    pub route: usize,
    /// Whether a route that is no name is made one.
    pub makes_names: bool,
    /// Which fields say the place.
    pub place: Place,
    /// How measures are read.
    pub measures: Measures,
}

/// What is wrong with a field.
#[derive(Clone, Copy, PartialEq, Eq, Debug)]
pub enum Cause {
    /// The record has no such field.
    Missing,
    /// It is no UTF-8, or has a control character.
    NotText,
    /// It is no name.
    NotName,
    /// It is no position.
    NotPosition,
    /// It is no whole number.
    NotNumber,
    /// It has decimals, where a whole number is wanted.
    Decimal,
    /// The number is past 10^12.
    LargeNumber,
    /// The measure has so many decimals, the last of which is no zero, or a percentage has so many.
    Decimals(usize),
    /// The measure is below 0.
    BelowZero,
    /// The measure is past the greatest one.
    PastGreatest,
    /// The percentage is above 100.
    PastWhole,
}

/// Why there is no line for a record.
#[derive(Clone, Copy, PartialEq, Eq, Debug)]
pub enum Misfit {
    /// Something is wrong with the field of this place, from 0.
    Field(usize, Cause),
    /// The line would be longer than a line may be.
    LongLine,
    /// A growth was refused.
    OutOfMemory,
}

/// Want of memory.
impl From<AllocError> for Misfit {
    ghost use Rattle.std.specs.Prelude.{◌≡◌};
    ghost use Rattle.rs_csv_lines.specs.declared.plan.Misfit.TheVariants.{OutOfMemory};

    ghost from_gives = { λ _ misfit. misfit ≡ OutOfMemory };

    fn from(_refused: AllocError) -> Misfit {
        Misfit::OutOfMemory
    }
}

/// Want of memory. The value that found no room is dropped.
impl<T: Drop> From<AllocFailed<T>> for Misfit {
    ghost use Rattle.std.specs.Prelude.{◌≡◌};
    ghost use Rattle.rs_csv_lines.specs.declared.plan.Misfit.TheVariants.{OutOfMemory};

    ghost from_gives = { λ _ misfit. misfit ≡ OutOfMemory };

    fn from(_refused: AllocFailed<T>) -> Misfit {
        Misfit::OutOfMemory
    }
}
