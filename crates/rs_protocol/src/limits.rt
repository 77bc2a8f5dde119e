//! The greatest number of reads of one service, as a number.

ghost use Rattle.std.specs.Prelude.{◌≡◌, ◌^◌, ◌-◌};
ghost use Rattle.rs_protocol.specs.declared.stream.TheConstants.{READS};

/// The limits are these numbers.
pub fn limits_are_those()
    ensures reads { READS ≡ 2 ^ 32 - 1 }
{}
