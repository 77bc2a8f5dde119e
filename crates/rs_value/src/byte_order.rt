//! The order of strings of bytes that are mostly short.
//!
//! Rows in memory take mostly 9 to 18 bytes; the order that slices have is made for longer ones.

ghost use Rattle.std.specs.Prelude.{◌≡◌, ◌↔◌, IsTrue};
ghost use Rattle.std.specs.Cmp.Lexicographic.{slice_cmp};
ghost use Rattle.std.specs.Int.{w64, to_be_bytes};
ghost use Rattle.std.specs.Ordering.{nat_cmp};

use std::cmp::Ordering;

/// Compares bytes from the left, the shorter before the longer: eight at a time, and then one by one.
pub fn compare_bytes(one: &[u8], other: &[u8]) -> Ordering
    ensures { result ≡ slice_cmp nat_cmp one.now other.now }
{
    let mut left = one;
    let mut right = other;
    while let (Some((first, more)), Some((second, others))) = (
        left.split_first_chunk::<8>(),
        right.split_first_chunk::<8>(),
    ) {
        let order = number_in(first).cmp(&number_in(second));
        if order.is_ne() {
            return order;
        }
        left = more;
        right = others;
    }
    compare_each(left, right)
}

/// Whether two strings of bytes are the same. Lengths and last bytes are looked at first, since rows are mostly alike in
/// front.
pub fn same_bytes(one: &[u8], other: &[u8]) -> bool
    ensures { IsTrue result ↔ (one.now ≡ other.now) }
{
    if one.len() != other.len() {
        return false;
    }
    match (one.split_last_chunk::<8>(), other.split_last_chunk::<8>()) {
        (Some((front, end)), Some((others, last))) => {
            number_in(end) == number_in(last) && compare_bytes(front, others).is_eq()
        }
        _ => compare_each(one, other).is_eq(),
    }
}

// The number that eight bytes are, the highest first.
fn number_in(bytes: &[u8; 8]) -> u64
    ensures { to_be_bytes w64 result ≡ bytes.now }
{
    u64::from_be_bytes(*bytes)
}

// Compares bytes one by one.
fn compare_each(one: &[u8], other: &[u8]) -> Ordering
    ensures { result ≡ slice_cmp nat_cmp one.now other.now }
{
    let mut left = one;
    let mut right = other;
    while let (Some((first, more)), Some((second, others))) = (
        left.split_first(),
        right.split_first(),
    ) {
        if *first != *second {
            return first.cmp(second);
        }
        left = more;
        right = others;
    }
    left.len().cmp(&right.len())
}
