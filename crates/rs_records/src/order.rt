//! The order of records: byte by byte from the left, the shorter before the longer.

ghost use Rattle.std.specs.Prelude.{◌≡◌};
ghost use Rattle.std.specs.Cmp.Lexicographic.{slice_cmp};
ghost use Rattle.std.specs.Int.{w64, to_be_bytes};
ghost use Rattle.std.specs.Ordering.{nat_cmp};
ghost use Rattle.rs_records.specs.Order.{is_below};

use std::cmp::Ordering;

/// Whether the first record is below the second.
pub fn is_below(one: &[u8], other: &[u8]) -> bool
    ensures { result ≡ is_below one.now other.now }
{
    compare(one, other).is_lt()
}

/// Compares records, eight bytes at a time: those of one tree mostly differ in the first eight.
fn compare(one: &[u8], other: &[u8]) -> Ordering
    ensures { result ≡ slice_cmp nat_cmp one.now other.now }
{
    let mut left = one;
    let mut right = other;
    while let (Some((first, more)), Some((second, others))) = (
        left.split_first_chunk::<8>(),
        right.split_first_chunk::<8>(),
    ) {
        let order = number_in(first).cmp(&number_in(second));
        if order.is_ne() {
            return order;
        }
        left = more;
        right = others;
    }
    left.cmp(right)
}

/// The number that eight bytes are, the highest first.
fn number_in(bytes: &[u8; 8]) -> u64
    ensures { to_be_bytes w64 result ≡ bytes.now }
{
    u64::from_be_bytes(*bytes)
}
