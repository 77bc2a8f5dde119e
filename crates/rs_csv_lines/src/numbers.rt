//! Numbers as offices write them: how one is cut into its digits, and how many units these are.

ghost use Rattle.std.specs.Prelude.{◌≡◌, ◌↔◌, ◌⊎◌, ◌+◌, ◌*◌, ◌-◌, ◌^◌, ◌<◌, ◌≤◌, ◌++◌, ◌∷◌, [], ℕ, List, IfOk, IfSome, length, take, codes, true, false};
ghost use Rattle.rs_measure.specs.FixedPoint.{number_from, number_of_digits, AreDigits};
ghost use Rattle.rs_csv_lines.specs.Numbers.{AreBlanks, AreReadUnits, AreUnits, IsRest, IsRounded, IsSign, WritesMeasure, WritesNumber, WritesPlain, WritesStations, WritesUnsigned, WritesWhole};

use crate::plan::{Cause, Measures, Scale};
use rs_measure::{GREATEST_MEASURE, Measure};

/// The greatest number of a column.
const GREATEST_WHOLE: u64 = 1_000_000_000_000;

/// How many decimals a measure has at the most.
pub const MEASURE_PLACES: usize = 3;

/// How many decimals a percentage has at the most.
pub const PART_PLACES: usize = 7;

/// How many digits it has before its point at the most.
pub const PART_DIGITS: usize = 3;

/// The greatest one.
pub const GREATEST_PERCENTAGE: u64 = 100;

/// A number as it is written.
#[derive(Clone, Copy)]
pub struct WrittenNumber<'a> {
    /// Whether a minus sign stands before it.
    pub is_negative: bool,
    /// The digits before the point.
    pub whole: &'a [u8],
    /// The digits after it.
    pub decimals: &'a [u8],
}

/// What some digits are in units.
#[derive(Clone, Copy)]
pub struct Units {
    /// So many.
    pub count: u64,
    /// Whether the digits are something between two.
    pub is_rounded: bool,
}

/// What digits after the last place come to, of one unit.
#[derive(Clone, Copy, PartialEq, Eq, Debug)]
pub enum Rest {
    /// Nothing.
    Nothing,
    /// Less than half of one.
    BelowHalf,
    /// Half of one.
    Half,
    /// More than half of one.
    AboveHalf,
}

// How many blanks are at the beginning.
fn count_blanks(bytes: &[u8]) -> usize
    ensures within { result ≤ length bytes.now }
    ensures blanks { AreBlanks (take result bytes.now) }
{
    for place in 0..bytes.len() {
        if bytes[place] != b' ' {
            return place;
        }
    }
    bytes.len()
}

/// How many digits are at the beginning.
pub fn count_digits(bytes: &[u8]) -> usize
    ensures within { result ≤ length bytes.now }
    ensures digits { AreDigits (take result bytes.now) }
{
    for place in 0..bytes.len() {
        if !bytes[place].is_ascii_digit() {
            return place;
        }
    }
    bytes.len()
}

// Whether a minus sign stands at the beginning, and what is after the sign.
fn after_sign(bytes: &[u8]) -> (bool, &[u8])
    ensures { (sign : List ℕ) × IsSign result.0 sign × (bytes.now ≡ sign ++ result.1.now) }
{
    match bytes.split_first() {
        Some((b'-', rest)) => (true, rest),
        Some((b'+', rest)) => (false, rest),
        _ => (false, bytes),
    }
}

// The decimals after a point at the beginning, and what is after them; none where there is no point.
fn after_point(bytes: &[u8]) -> (&[u8], &[u8])
    ensures cut { (bytes.now ≡ codes "." ++ (result.0.now ++ result.1.now)) ⊎ ((result.0.now ≡ []) × (bytes.now ≡ result.1.now)) }
    ensures digits { AreDigits result.0.now }
{
    match bytes.split_first() {
        Some((b'.', rest)) => rest.split_at(count_digits(rest)),
        _ => (&bytes[..0], bytes),
    }
}

/// How a text is a number, where it is one.
pub fn written_number(text: &[u8]) -> Option<WrittenNumber<'_>>
    ensures { IfSome result (λ found. WritesNumber text.now found.is_negative found.whole.now found.decimals.now) }
{
    let (_, signed) = text.split_at(count_blanks(text));
    let (is_negative, unsigned) = after_sign(signed);
    let (whole, pointed) = unsigned.split_at(count_digits(unsigned));
    let (decimals, behind) = after_point(pointed);
    if whole.len() + decimals.len() == 0 || count_blanks(behind) < behind.len() {
        return None;
    }
    Some(WrittenNumber {
        is_negative,
        whole,
        decimals,
    })
}

// The number that more digits make of one, unless it is past the greatest.
fn read_more(number: u64, digits: &[u8], greatest: u64) -> Option<u64>
    requires digits { AreDigits digits.now }
    requires few { greatest ≤ 10 ^ 12 }
    requires begun { number ≤ greatest }
    ensures value { IfSome result (λ n. n ≡ number_from number digits.now) }
    ensures in_range { IfSome result (λ n. n ≤ greatest) }
{
    let mut more = number;
    for digit in digits {
        more = 10 * more + u64::from(*digit - b'0');
        if more > greatest {
            return None;
        }
    }
    Some(more)
}

/// Whether all digits are zeros.
pub fn are_zeros(digits: &[u8]) -> bool
    requires { AreDigits digits.now }
    ensures { result ≡ true ↔ (number_of_digits digits.now ≡ 0) }
{
    for digit in digits {
        if *digit != b'0' {
            return false;
        }
    }
    true
}

// What a digit and zeros after it come to.
fn even_rest(digit: u8) -> Rest
    requires { (48 ≤ digit) × (digit ≤ 57) }
    ensures { (zeros : List ℕ) → AreDigits zeros → number_of_digits zeros ≡ 0 → IsRest result (digit ∷ zeros) }
{
    if digit == b'0' {
        Rest::Nothing
    } else if digit == b'5' {
        Rest::Half
    } else if digit < b'5' {
        Rest::BelowHalf
    } else {
        Rest::AboveHalf
    }
}

// What digits after the last place come to.
fn rest_of(digits: &[u8]) -> Rest
    requires { AreDigits digits.now }
    ensures { IsRest result digits.now }
{
    match digits.split_first() {
        None => Rest::Nothing,
        Some((first, others)) => {
            let digit = *first;
            if are_zeros(others) {
                even_rest(digit)
            } else if digit < b'5' {
                Rest::BelowHalf
            } else {
                Rest::AboveHalf
            }
        }
    }
}

// How many units the digits up to the last place are, unless past the greatest.
fn units_down(whole: &[u8], kept: &[u8], places: usize, greatest: u64) -> Option<u64>
    requires whole_digits { AreDigits whole.now }
    requires kept_digits { AreDigits kept.now }
    requires few_kept { length kept.now ≤ places }
    requires few_places { places ≤ 6 }
    requires few { greatest ≤ 10 ^ 12 }
    ensures units { IfSome result (λ n. AreUnits places whole.now kept.now n) }
    ensures in_range { IfSome result (λ n. n ≤ greatest) }
{
    let before = read_more(0, whole, greatest)?;
    let number = read_more(before, kept, greatest)?;
    let units = number * 10_u64.pow((places - kept.len()) as u32);
    if units > greatest {
        return None;
    }
    Some(units)
}

// The number of units that is nearest, the even one of two.
fn round(low: u64, rest: Rest) -> u64
    requires { low ≤ 10 ^ 12 }
    ensures { IsRounded low rest result }
{
    match rest {
        Rest::Nothing | Rest::BelowHalf => low,
        Rest::Half => low + low % 2,
        Rest::AboveHalf => low + 1,
    }
}

// How many decimals there are up to the last that is no zero.
fn count_decimals(decimals: &[u8]) -> usize {
    let mut count = 0;
    for place in 0..decimals.len() {
        if decimals[place] != b'0' {
            count = place + 1;
        }
    }
    count
}

/// How many units a number has, of which `10 ^ places` are one. The refusals are that it is past the greatest, or has more decimals
/// where it is not to be rounded.
pub fn read_units(
    number: &WrittenNumber<'_>,
    places: usize,
    greatest: u64,
    rounds: bool,
) -> Result<Units, Cause>
    requires whole_digits { AreDigits number.now.whole.now }
    requires decimal_digits { AreDigits number.now.decimals.now }
    requires few_places { places ≤ 6 }
    requires few { greatest ≤ 10 ^ 12 }
    ensures units { IfOk result (λ units. AreReadUnits rounds places number.now.whole.now number.now.decimals.now units.count) }
    ensures in_range { IfOk result (λ units. units.count ≤ greatest) }
{
    let count = number.decimals.len().min(places);
    let (kept, behind) = number.decimals.split_at(count);
    let Some(low) = units_down(number.whole, kept, places, greatest) else {
        return Err(Cause::PastGreatest);
    };
    match rest_of(behind) {
        Rest::Nothing => Ok(Units {
            count: low,
            is_rounded: false,
        }),
        rest => {
            if !rounds {
                return Err(Cause::Decimals(count_decimals(number.decimals)));
            }
            let count = round(low, rest);
            if count > greatest {
                return Err(Cause::PastGreatest);
            }
            Ok(Units {
                count,
                is_rounded: true,
            })
        }
    }
}

// The measure that a text is written as in a number, and whether it was rounded.
fn plain_measure(text: &[u8], rounds: bool) -> Result<(Measure, bool), Cause>
    ensures { IfOk result (λ found. WritesPlain rounds text.now found.0) }
{
    let Some(number) = written_number(text) else {
        return Err(Cause::NotPosition);
    };
    if number.is_negative {
        return Err(Cause::BelowZero);
    }
    let units = read_units(&number, MEASURE_PLACES, u64::from(GREATEST_MEASURE), rounds)?;
    let measure = Measure::from_thousandths(units.count as u32);
    Ok((measure, units.is_rounded))
}

/// The measure that a text is written as in a number without a sign, and whether it was rounded.
pub fn unsigned_measure(text: &[u8], rounds: bool) -> Result<(Measure, bool), Cause>
    ensures { IfOk result (λ found. WritesUnsigned rounds text.now found.0) }
{
    if text.contains(&b'+') || text.contains(&b'-') {
        return Err(Cause::NotPosition);
    }
    plain_measure(text, rounds)
}

// How many stations a text says.
fn stations_in(text: &[u8]) -> Option<u64>
    ensures value { IfSome result (λ n. (whole : List ℕ) × WritesNumber text.now false whole [] × (n ≡ number_of_digits whole)) }
    ensures in_range { IfSome result (λ n. n < 2 ^ 32) }
{
    let number = written_number(text)?;
    if number.is_negative || !number.decimals.is_empty() {
        return None;
    }
    read_more(0, number.whole, u64::from(GREATEST_MEASURE))
}

// The measure that a text is written as in stations of so many units, and whether it was rounded.
fn station_measure(text: &str, units: u32, rounds: bool) -> Result<(Measure, bool), Cause>
    ensures { IfOk result (λ found. WritesStations rounds units text.now found.0) }
{
    let Some((front, rest)) = text.split_once('+') else {
        return Err(Cause::NotPosition);
    };
    let Some(stations) = stations_in(front.as_bytes()) else {
        return Err(Cause::NotPosition);
    };
    let (beyond, is_rounded) = plain_measure(rest.as_bytes(), rounds)?;
    let whole = u128::from(stations) * (1000 * u128::from(units));
    let thousandths = whole + u128::from(beyond.thousandths());
    if thousandths > u128::from(GREATEST_MEASURE) {
        return Err(Cause::PastGreatest);
    }
    Ok((Measure::from_thousandths(thousandths as u32), is_rounded))
}

/// The measure that a text is written as, and whether it was rounded.
pub fn written_measure(text: &str, measures: Measures) -> Result<(Measure, bool), Cause>
    ensures { IfOk result (λ found. WritesMeasure measures text.now found.0) }
{
    match plain_measure(text.as_bytes(), measures.rounds) {
        Ok(found) => Ok(found),
        Err(cause) => match measures.stations {
            Some(units) if text.contains('+') => station_measure(text, units, measures.rounds),
            _ => Err(cause),
        },
    }
}

/// The whole number that a text is written as, once it is multiplied: whether a minus sign stands before it, and how much it is.
pub fn written_whole(text: &[u8], scale: Scale) -> Result<(bool, u64), Cause>
    ensures { IfOk result (λ found. WritesWhole scale text.now found.0 found.1) }
{
    let Some(number) = written_number(text) else {
        return Err(Cause::NotNumber);
    };
    match read_units(&number, scale.places(), GREATEST_WHOLE, false) {
        Ok(units) => Ok((number.is_negative, units.count)),
        Err(Cause::PastGreatest) => Err(Cause::LargeNumber),
        Err(_) => Err(Cause::Decimal),
    }
}
