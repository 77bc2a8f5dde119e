//! Numbers with a fixed point: whole digits and, if wanted, a point and decimals.
//!
//! It promises that exactly the texts with so many digits before the point, and after it, are read.

ghost use Rattle.std.specs.Prelude.{◌≡◌, ℕ, ◌+◌, ◌-◌, ◌*◌, ◌^◌, ◌<◌, ◌≤◌, length, IfSome, IfNone};
ghost use Rattle.rs_measure.specs.FixedPoint.{AreDigitsUpTo, SaysFixedPoint, number_of_digits};

use crate::digits::read_digits;

// The number that a text says, counted in units of the last of so many decimal places, with so many digits before the
// point at the most.
pub(crate) fn read_fixed_point(text: &str, whole_digits: usize, places: usize) -> Option<u64>
    requires few_digits { whole_digits ≤ 9 }
    requires few_places { places ≤ 9 }
    ensures said { IfSome result (λ n. SaysFixedPoint whole_digits places text.now n) }
    ensures in_range { IfSome result (λ n. n < 10 ^ (whole_digits + places)) }
    ensures none { IfNone result ((n : ℕ) → SaysFixedPoint whole_digits places text.now n → ⊥) }
{
    match text.split_once('.') {
        None => whole_units(text.as_bytes(), whole_digits, places),
        Some((whole, decimals)) => {
            let whole = whole_units(whole.as_bytes(), whole_digits, places)?;
            let part = decimal_units(decimals.as_bytes(), places)?;
            Some(whole + part)
        }
    }
}

// The units that the digits before a point say.
fn whole_units(digits: &[u8], most: usize, places: usize) -> Option<u64>
    requires few_digits { most ≤ 9 }
    requires few_places { places ≤ 9 }
    ensures digits { IfSome result (λ n. AreDigitsUpTo most digits.now) }
    ensures value { IfSome result (λ n. n ≡ 10 ^ places * number_of_digits digits.now) }
    ensures in_range { IfSome result (λ n. n + 10 ^ places ≤ 10 ^ (most + places)) }
    ensures none { IfNone result (AreDigitsUpTo most digits.now → ⊥) }
{
    let number = read_up_to(digits, most)?;
    Some(10_u64.pow(places as u32) * u64::from(number))
}

// The units that the decimals after a point say.
fn decimal_units(digits: &[u8], places: usize) -> Option<u64>
    requires { places ≤ 9 }
    ensures digits { IfSome result (λ n. AreDigitsUpTo places digits.now) }
    ensures value { IfSome result (λ n. n ≡ 10 ^ (places - length digits.now) * number_of_digits digits.now) }
    ensures in_range { IfSome result (λ n. n < 10 ^ places) }
    ensures none { IfNone result (AreDigitsUpTo places digits.now → ⊥) }
{
    let number = read_up_to(digits, places)?;
    Some(10_u64.pow((places - digits.len()) as u32) * u64::from(number))
}

// The number that digits say, one at least and so many at the most.
fn read_up_to(digits: &[u8], most: usize) -> Option<u32>
    requires { most ≤ 9 }
    ensures digits { IfSome result (λ n. AreDigitsUpTo most digits.now) }
    ensures value { IfSome result (λ n. n ≡ number_of_digits digits.now) }
    ensures in_range { IfSome result (λ n. n < 10 ^ length digits.now) }
    ensures none { IfNone result (AreDigitsUpTo most digits.now → ⊥) }
{
    if digits.is_empty() || digits.len() > most {
        return None;
    }
    read_digits(digits)
}
