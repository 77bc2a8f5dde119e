//! The shortest text of a measure says it.

ghost use Rattle.std.specs.Prelude.{◌≡◌, ◌<◌, ◌≤◌, ◌+◌, [], ◌∷◌, ◌++◌, ℕ, OnOk, decimal, drop, length};
ghost use Rattle.rs_dump_laws.specs.Lines.{decimals_text, point_text, shortest_text};
ghost use Rattle.rs_measure.specs.Measure.{SaysMeasure};
ghost use Rattle.rs_measure.specs.declared.measure.TheConstants.{GREATEST_MEASURE};

use crate::parts::push_few;
use itoa::Buffer;
use rs_backward_text::measures::{MEASURE_BYTES, put_whole_before};
use rs_backward_text::parts::{put_before, put_digit_before};
use std::alloc::AllocError;

/// The text of a measure without needless zeros says the measure.
pub fn shortest_text_says_the_measure()
    ensures { (k : ℕ) → k ≤ GREATEST_MEASURE → SaysMeasure (shortest_text k) k }
{}

/// Appends the shortest text of a measure of so many thousandths. Where memory runs out, a part may have been appended.
pub fn push_measure(text: &mut Vec<u8>, thousandths: u32) -> Result<(), AllocError>
    ensures { OnOk result (text.new.items ≡ text.old.items ++ shortest_text thousandths) }
{
    push_few(text, Buffer::new().format(thousandths / 1000).as_bytes())?;
    push_point(text, thousandths % 1000)
}

/// Appends what follows the whole part: nothing, or a point and decimals.
fn push_point(text: &mut Vec<u8>, rest: u32) -> Result<(), AllocError>
    requires { rest < 1000 }
    ensures { OnOk result (text.new.items ≡ text.old.items ++ point_text rest) }
{
    if rest == 0 {
        return Ok(());
    }
    text.push(b'.')?;
    push_decimals(text, rest)
}

/// Appends the decimals of so many thousandths, without zeros at their end.
fn push_decimals(text: &mut Vec<u8>, rest: u32) -> Result<(), AllocError>
    requires { rest < 1000 }
    ensures { OnOk result (text.new.items ≡ text.old.items ++ decimals_text rest) }
{
    push_digit(text, rest / 100)?;
    if rest % 100 == 0 {
        return Ok(());
    }
    push_digit(text, rest / 10 % 10)?;
    if rest % 10 == 0 {
        return Ok(());
    }
    push_digit(text, rest % 10)
}

/// Appends a decimal digit.
fn push_digit(text: &mut Vec<u8>, digit: u32) -> Result<(), AllocError>
    requires { digit < 10 }
    ensures { OnOk result (text.new.items ≡ text.old.items ++ (48 + digit) ∷ []) }
{
    text.push(b'0' + digit as u8)?;
    Ok(())
}

/// Puts the shortest text of a measure of so many thousandths before the byte at `end`, and says where it begins.
pub(crate) fn put_shortest_before(thousandths: u32, bytes: &mut [u8], end: usize) -> usize
    requires room { MEASURE_BYTES ≤ end }
    requires inside { end ≤ length bytes.old }
    ensures begins { result ≤ end }
    ensures few { end ≤ result + MEASURE_BYTES }
    ensures length { length bytes.new ≡ length bytes.old }
    ensures put { drop result bytes.new ≡ shortest_text thousandths ++ drop end bytes.old }
{
    let point = put_point_before(thousandths % 1000, bytes, end);
    put_whole_before(thousandths / 1000, bytes, point)
}

/// Puts what follows the whole part before the byte at `end`: nothing, or a point and decimals.
fn put_point_before(rest: u32, bytes: &mut [u8], end: usize) -> usize
    requires rest { rest < 1000 }
    requires room { 4 ≤ end }
    requires inside { end ≤ length bytes.old }
    ensures begins { result ≤ end }
    ensures few { end ≤ result + 4 }
    ensures length { length bytes.new ≡ length bytes.old }
    ensures put { drop result bytes.new ≡ point_text rest ++ drop end bytes.old }
{
    if rest == 0 {
        return end;
    }
    let start = put_decimals_before(rest, bytes, end);
    put_before(b'.', bytes, start)
}

/// Puts the decimals of so many thousandths, without zeros at their end, before the byte at `end`.
fn put_decimals_before(rest: u32, bytes: &mut [u8], end: usize) -> usize
    requires rest { rest < 1000 }
    requires room { 3 ≤ end }
    requires inside { end ≤ length bytes.old }
    ensures begins { result ≤ end }
    ensures few { end ≤ result + 3 }
    ensures length { length bytes.new ≡ length bytes.old }
    ensures put { drop result bytes.new ≡ decimals_text rest ++ drop end bytes.old }
{
    if rest % 100 == 0 {
        return put_digit_before(rest / 100, bytes, end);
    }
    if rest % 10 == 0 {
        let hundredths = put_digit_before(rest / 10 % 10, bytes, end);
        return put_digit_before(rest / 100, bytes, hundredths);
    }
    let thousandths = put_digit_before(rest % 10, bytes, end);
    let hundredths = put_digit_before(rest / 10 % 10, bytes, thousandths);
    put_digit_before(rest / 100, bytes, hundredths)
}
