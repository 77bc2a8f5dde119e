//! The text of a total, as replies print it.
//!
//! It promises that exactly this text is appended, unless memory runs out.

ghost use Rattle.std.specs.Prelude.{◌≡◌, ◌+◌, ◌<◌, [], ◌∷◌, ◌++◌, pos, ◌-ℤ◌, OnOk, string_bytes};
ghost use Rattle.std.specs.Option.{option_map};
ghost use Rattle.rs_measure.specs.Measure.{measure_text};
ghost use Rattle.rs_facts.specs.TotalText.{amount_text, signed_amount_text, group_text, sum_text, total_text};
ghost use Rattle.rs_total.specs.Answer.{answered, sum_answered};

use crate::total::{Sum, Total};
use itoa::Buffer;
use rs_value::{KeptRow, Kind, push_lent};
use std::alloc::AllocError;

/// Appends the text of a total: the values of the group, at how many places it holds, and, where a column is summed,
/// the weight and the sum. Of lines the numbers are in thousandths with three decimals, of points whole numbers. Where
/// memory runs out, a part may have been appended.
pub fn push_total(text: &mut String, kind: Kind, total: &Total) -> Result<(), AllocError>
    ensures { OnOk result (string_bytes text.new ≡ string_bytes text.old ++ total_text kind (answered total.now)) }
{
    push_group(text, &total.group)?;
    push_amount(text, kind, total.places)?;
    push_sum(text, kind, total.sum)
}

/// Appends each value of a group and a space after it.
fn push_group(text: &mut String, group: &KeptRow) -> Result<(), AllocError>
    ensures { OnOk result (string_bytes text.new ≡ string_bytes text.old ++ group_text group.now) }
{
    for column in 0..group.width() {
        push_lent(text, group.value_at(column))?;
        text.push(' ')?;
    }
    Ok(())
}

/// Appends the weight and the sum, each after a space; nothing where no column is summed.
fn push_sum(text: &mut String, kind: Kind, sum: Option<Sum>) -> Result<(), AllocError>
    ensures { OnOk result (string_bytes text.new ≡ string_bytes text.old ++ sum_text kind (option_map sum_answered sum)) }
{
    let Some(sum) = sum else {
        return Ok(());
    };
    text.push(' ')?;
    push_amount(text, kind, sum.weight)?;
    text.push(' ')?;
    push_difference(text, kind, sum.above_zero, sum.below_zero)
}

/// Appends what the first amount is more than the second, with a minus sign where it is less.
fn push_difference(
    text: &mut String,
    kind: Kind,
    above: u128,
    below: u128,
) -> Result<(), AllocError>
    ensures { OnOk result (string_bytes text.new ≡ string_bytes text.old ++ signed_amount_text kind (pos above -ℤ pos below)) }
{
    if above < below {
        text.push('-')?;
    }
    push_amount(text, kind, above.abs_diff(below))
}

/// Appends an amount.
fn push_amount(text: &mut String, kind: Kind, amount: u128) -> Result<(), AllocError>
    ensures { OnOk result (string_bytes text.new ≡ string_bytes text.old ++ amount_text kind amount) }
{
    match kind {
        Kind::Point => text.push_str(Buffer::new().format(amount)),
        Kind::Line => push_thousandths(text, amount),
    }
}

/// Appends thousandths with three decimals, and one digit at least before the point.
fn push_thousandths(text: &mut String, amount: u128) -> Result<(), AllocError>
    ensures { OnOk result (string_bytes text.new ≡ string_bytes text.old ++ measure_text amount) }
{
    text.push_str(Buffer::new().format(amount / 1000))?;
    text.push('.')?;
    push_digit(text, amount / 100 % 10)?;
    push_digit(text, amount / 10 % 10)?;
    push_digit(text, amount % 10)
}

/// Appends a decimal digit.
fn push_digit(text: &mut String, digit: u128) -> Result<(), AllocError>
    requires { digit < 10 }
    ensures { OnOk result (string_bytes text.new ≡ string_bytes text.old ++ (48 + digit) ∷ []) }
{
    text.push(char::from(b'0' + digit as u8))
}
