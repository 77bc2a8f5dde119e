//! A part of a route: a whole number of billionths from 0 to 1,000,000,000, read and printed as a
//! percentage.
//!
//! It promises that a `Part` is always in that range, that exactly the texts of percentages up to 100
//! are read, and that what is printed is read back.

ghost use Rattle.std.specs.Prelude.{◌≡◌, ℕ, ◌+◌, ◌<◌, ◌≤◌, ◌++◌, List, length, IfOk, IfErr, OnErr};
ghost use Rattle.rs_measure.specs.declared.part.TheConstants.{GREATEST_PART};
ghost use Rattle.rs_measure.specs.Part.{SaysPart, seven_digits, part_text};

use crate::digits::{digit_char, push_three_digits};
use crate::fixed_point::read_fixed_point;
use arrayvec::ArrayString;
use itoa::Buffer;
use rs_refusal::Refusal;
use std::marker::Model;

/// The greatest part, in billionths: 100 percent.
pub const GREATEST_PART: u32 = 1_000_000_000;

/// How many bytes the text of a part takes at the most, without the percent sign.
pub const PART_BYTES: usize = 11;

/// A part of a route's length, kept in billionths.
#[derive(Clone, Copy, PartialEq, Eq, PartialOrd, Ord, Debug)]
pub struct Part {
    billionths: u32,
}

impl Model for Part {
    ghost Value = { ℕ };

    ghost view = { λ p. p.billionths };

    ghost invariant = { λ p. p.billionths ≤ GREATEST_PART };

    ghost inverse = { λ n. record { billionths = n } };
}

impl Part {
    /// The part of so many billionths.
    pub fn from_billionths(billionths: u32) -> Self
        requires { billionths ≤ GREATEST_PART }
        ensures { result ≡ billionths }
    {
        Part { billionths }
    }

    /// How many billionths the part has.
    pub fn billionths(self) -> u32
        ensures value { result ≡ self }
        ensures in_range { self ≤ GREATEST_PART }
    {
        self.billionths
    }
}

/// Reads a part, written as a percentage without its percent sign: 1 to 3 digits and, if wanted, a
/// point and 1 to 7 decimals, at most 100. Every other text is refused with
/// `Refusal::NumberOutOfRange` (12).
pub fn read_part(text: &str) -> Result<Part, Refusal>
    ensures ok { IfOk result (λ part. SaysPart text.now part) }
    ensures err { IfErr result (λ refusal. refusal ≡ Refusal.NumberOutOfRange) }
    ensures refused { OnErr result ((n : ℕ) → SaysPart text.now n → ⊥) }
{
    match read_fixed_point(text, 3, 7) {
        Some(billionths) => part_of(billionths),
        None => Err(Refusal::NumberOutOfRange),
    }
}

// The part of so many billionths, refused where they are more than the whole.
fn part_of(billionths: u64) -> Result<Part, Refusal>
    ensures ok { IfOk result (λ part. part ≡ billionths) }
    ensures in_range { IfOk result (λ part. part ≤ GREATEST_PART) }
    ensures err { IfErr result (λ refusal. refusal ≡ Refusal.NumberOutOfRange) }
    ensures refused { OnErr result (GREATEST_PART < billionths) }
{
    if billionths > u64::from(GREATEST_PART) {
        return Err(Refusal::NumberOutOfRange);
    }
    Ok(Part::from_billionths(billionths as u32))
}

/// Prints a part as a percentage without its percent sign, with seven decimals, and one digit at
/// least before the point.
pub fn write_part(part: Part) -> ArrayString<PART_BYTES>
    ensures { result.bytes ≡ part_text part }
{
    let billionths = part.billionths();
    let mut text = ArrayString::new();
    text.push_str(Buffer::new().format(billionths / 10_000_000));
    text.push('.');
    push_seven_digits(&mut text, billionths % 10_000_000);
    text
}

// Appends a number below ten millions with seven digits.
fn push_seven_digits(text: &mut ArrayString<PART_BYTES>, number: u32)
    requires below { number < 10000000 }
    requires room { length text.old.bytes + 7 ≤ PART_BYTES }
    ensures { text.new.bytes ≡ text.old.bytes ++ seven_digits number }
{
    text.push(digit_char(number / 1_000_000));
    push_three_digits(text, number / 1_000 % 1_000);
    push_three_digits(text, number % 1_000);
}

/// What is printed is read back: the text of a part says that part.
pub fn printed_part_is_read_back()
    ensures { (n : ℕ) → n ≤ GREATEST_PART → SaysPart (part_text n) n }
{}

/// A text says one part at the most.
pub fn text_says_one_part()
    ensures { (text : List ℕ) (a b : ℕ) → SaysPart text a → SaysPart text b → a ≡ b }
{}
