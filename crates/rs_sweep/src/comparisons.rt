//! Comparisons of the bounds of two lists, each counted.
//!
//! Each test of a bound of one list against a bound of the other goes through here.

ghost use Rattle.std.specs.Prelude.{◌≡◌, ◌+◌, min, nat_lt};

/// How many comparisons were made; it stops at 2^64 - 1.
#[derive(Drop)]
pub(crate) struct Comparisons {
    pub made: u64,
}

impl Comparisons {
    /// None were made yet.
    pub(crate) fn new() -> Self
        ensures { result.made ≡ 0 }
    {
        Comparisons { made: 0 }
    }

    fn count(&mut self)
        ensures { self.new.made ≡ min (self.old.made + 1) u64.MAX }
    {
        self.made = self.made.saturating_add(1);
    }

    /// Whether the one bound is below the other.
    pub(crate) fn is_below(&mut self, one: u32, other: u32) -> bool
        ensures answer { result ≡ nat_lt one other }
        ensures counted { self.new.made ≡ min (self.old.made + 1) u64.MAX }
    {
        self.count();
        one < other
    }

    /// The lesser of two bounds.
    pub(crate) fn lesser(&mut self, one: u32, other: u32) -> u32
        ensures answer { result ≡ min one other }
        ensures counted { self.new.made ≡ min (self.old.made + 1) u64.MAX }
    {
        self.count();
        one.min(other)
    }
}
