//! A measure: a whole number of thousandths from 0 to 999,999,999, how it is read and printed.
//!
//! It promises that a `Measure` is always in that range, that exactly the texts of measures are read,
//! and that what is printed is read back.

ghost use Rattle.std.specs.Prelude.{◌≡◌, ℕ, ◌≤◌, List, IfOk, IfErr, OnErr};
ghost use Rattle.rs_measure.specs.declared.measure.TheConstants.{GREATEST_MEASURE};
ghost use Rattle.rs_measure.specs.Measure.{SaysMeasure, measure_text};

use crate::digits::push_three_digits;
use crate::fixed_point::read_fixed_point;
use arrayvec::ArrayString;
use itoa::Buffer;
use rs_refusal::Refusal;
use std::marker::Model;

/// The greatest measure, in thousandths: 999,999.999.
pub const GREATEST_MEASURE: u32 = 999_999_999;

/// How many bytes the text of a measure takes at the most.
pub const MEASURE_BYTES: usize = 10;

/// A measure along a route, kept in thousandths.
#[derive(Clone, Copy, PartialEq, Eq, PartialOrd, Ord, Debug)]
pub struct Measure {
    thousandths: u32,
}

impl Model for Measure {
    ghost Value = { ℕ };

    ghost view = { λ m. m.thousandths };

    ghost invariant = { λ m. m.thousandths ≤ GREATEST_MEASURE };

    ghost inverse = { λ n. record { thousandths = n } };
}

impl Measure {
    /// The measure of so many thousandths.
    pub fn from_thousandths(thousandths: u32) -> Self
        requires { thousandths ≤ GREATEST_MEASURE }
        ensures { result ≡ thousandths }
    {
        Measure { thousandths }
    }

    /// How many thousandths the measure has.
    pub fn thousandths(self) -> u32
        ensures value { result ≡ self }
        ensures in_range { self ≤ GREATEST_MEASURE }
    {
        self.thousandths
    }
}

/// Reads a measure: 1 to 6 digits and, if wanted, a point and 1 to 3 decimals. Every other text is
/// refused with `Refusal::NumberOutOfRange` (12).
pub fn read_measure(text: &str) -> Result<Measure, Refusal>
    ensures ok { IfOk result (λ measure. SaysMeasure text.now measure) }
    ensures err { IfErr result (λ refusal. refusal ≡ Refusal.NumberOutOfRange) }
    ensures refused { OnErr result ((n : ℕ) → SaysMeasure text.now n → ⊥) }
{
    match read_fixed_point(text, 6, 3) {
        Some(thousandths) => Ok(Measure::from_thousandths(thousandths as u32)),
        None => Err(Refusal::NumberOutOfRange),
    }
}

/// Prints a measure with three decimals, and one digit at least before the point.
pub fn write_measure(measure: Measure) -> ArrayString<MEASURE_BYTES>
    ensures { result.bytes ≡ measure_text measure }
{
    let thousandths = measure.thousandths();
    let mut text = ArrayString::new();
    text.push_str(Buffer::new().format(thousandths / 1000));
    text.push('.');
    push_three_digits(&mut text, thousandths % 1000);
    text
}

/// What is printed is read back: the text of a measure says that measure.
pub fn printed_text_is_read_back()
    ensures { (n : ℕ) → n ≤ GREATEST_MEASURE → SaysMeasure (measure_text n) n }
{}

/// A text says one measure at the most.
pub fn text_says_one_measure()
    ensures { (text : List ℕ) (a b : ℕ) → SaysMeasure text a → SaysMeasure text b → a ≡ b }
{}
