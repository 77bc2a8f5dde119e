//! Decimal digits: the number that they say, and numbers in digits.
//!
//! The texts of measures and of parts share them.

ghost use Rattle.std.specs.Prelude.{◌≡◌, ◌+◌, ◌^◌, ◌<◌, ◌≤◌, ◌++◌, length, IfSome, IfNone};
ghost use Rattle.rs_measure.specs.FixedPoint.{AreDigits, number_of_digits, three_digits};

use arrayvec::ArrayString;

// The number that at most nine digits say, where each byte is a digit.
pub(crate) fn read_digits(digits: &[u8]) -> Option<u32>
    requires { length digits.now ≤ 9 }
    ensures digits { IfSome result (λ n. AreDigits digits.now) }
    ensures value { IfSome result (λ n. n ≡ number_of_digits digits.now) }
    ensures in_range { IfSome result (λ n. n < 10 ^ length digits.now) }
    ensures none { IfNone result (AreDigits digits.now → ⊥) }
{
    let mut number = 0;
    for digit in digits {
        if !digit.is_ascii_digit() {
            return None;
        }
        number = 10 * number + u32::from(*digit - b'0');
    }
    Some(number)
}

// Appends a number below a thousand with three digits.
pub(crate) fn push_three_digits<const ROOM: usize>(text: &mut ArrayString<ROOM>, number: u32)
    requires below { number < 1000 }
    requires room { length text.old.bytes + 3 ≤ ROOM }
    ensures { text.new.bytes ≡ text.old.bytes ++ three_digits number }
{
    text.push(digit_char(number / 100));
    text.push(digit_char(number / 10 % 10));
    text.push(digit_char(number % 10));
}

// The character of a digit.
pub(crate) fn digit_char(digit: u32) -> char
    requires { digit < 10 }
    ensures { result ≡ 48 + digit }
{
    char::from(b'0' + digit as u8)
}
