//! The limit of a route's referents, and a law that says its value.

ghost use Rattle.std.specs.Prelude.{◌≡◌};
ghost use Rattle.rs_methods.specs.declared.limits.TheConstants.{REFERENTS};

/// How many referents a route may have beside START.
pub const REFERENTS: usize = 1_000;

/// The limits are these numbers.
pub fn limits_are_those()
    ensures referents { REFERENTS ≡ 1000 }
{}
