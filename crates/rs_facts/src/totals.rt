//! The limit of totals. What totals are is in `specs/`.

ghost use Rattle.std.specs.Prelude.{◌≡◌, ◌^◌};
ghost use Rattle.rs_facts.specs.declared.totals.TheConstants.{GREATEST_TOTAL};

/// What the sizes of a column's values may add up to at the most over the facts of a group: 10^21.
pub const GREATEST_TOTAL: u128 = 1_000_000_000_000_000_000_000;

/// The limit is this number.
pub fn greatest_total_is_that()
    ensures { GREATEST_TOTAL ≡ 10 ^ 21 }
{}
