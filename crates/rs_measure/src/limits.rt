//! The greatest measure, in thousandths, and the greatest part, in billionths, as numbers.

ghost use Rattle.std.specs.Prelude.{◌≡◌};
ghost use Rattle.rs_measure.specs.declared.measure.TheConstants.{GREATEST_MEASURE};
ghost use Rattle.rs_measure.specs.declared.part.TheConstants.{GREATEST_PART};

/// The limits are these numbers.
pub fn limits_are_those()
    ensures greatest_measure { GREATEST_MEASURE ≡ 999999999 }
    ensures greatest_part { GREATEST_PART ≡ 1000000000 }
{}
