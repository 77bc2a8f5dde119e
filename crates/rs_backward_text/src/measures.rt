//! The text of a measure, as replies print it, is put before what is at the end of a buffer.

ghost use Rattle.std.specs.Prelude.{◌≡◌, ◌<◌, ◌≤◌, ◌+◌, ◌++◌, decimal, drop, length};
ghost use Rattle.rs_measure.specs.FixedPoint.{three_digits};
ghost use Rattle.rs_measure.specs.Measure.{measure_text};

use crate::parts::{put_before, put_digit_before};
use itoa::write_digits;
use rs_measure::Measure;

/// The most bytes of the text of a measure: seven digits, a point and three decimals.
pub const MEASURE_BYTES: usize = 11;

/// Puts the text of a measure, with three decimals, before the byte at `end`, and says where it begins.
pub fn put_measure_before(measure: Measure, bytes: &mut [u8], end: usize) -> usize
    requires room { MEASURE_BYTES ≤ end }
    requires inside { end ≤ length bytes.old }
    ensures begins { result ≤ end }
    ensures few { end ≤ result + MEASURE_BYTES }
    ensures length { length bytes.new ≡ length bytes.old }
    ensures put { drop result bytes.new ≡ measure_text measure ++ drop end bytes.old }
{
    let thousandths = measure.thousandths();
    let decimals = put_three_before(thousandths % 1000, bytes, end);
    let point = put_before(b'.', bytes, decimals);
    put_whole_before(thousandths / 1000, bytes, point)
}

/// Puts the digits of the whole part of a measure before the byte at `end`, and says where they begin.
pub fn put_whole_before(whole: u32, bytes: &mut [u8], end: usize) -> usize
    requires whole { whole < 10_000_000 }
    requires room { 7 ≤ end }
    requires inside { end ≤ length bytes.old }
    ensures begins { result ≤ end }
    ensures few { end ≤ result + 7 }
    ensures length { length bytes.new ≡ length bytes.old }
    ensures put { drop result bytes.new ≡ decimal whole ++ drop end bytes.old }
{
    write_digits(u64::from(whole), bytes, end)
}

/// Puts three digits before the byte at `end`.
fn put_three_before(number: u32, bytes: &mut [u8], end: usize) -> usize
    requires number { number < 1000 }
    requires room { 3 ≤ end }
    requires inside { end ≤ length bytes.old }
    ensures begins { result + 3 ≡ end }
    ensures length { length bytes.new ≡ length bytes.old }
    ensures put { drop result bytes.new ≡ three_digits number ++ drop end bytes.old }
{
    let last = put_digit_before(number % 10, bytes, end);
    let middle = put_digit_before(number / 10 % 10, bytes, last);
    put_digit_before(number / 100, bytes, middle)
}
