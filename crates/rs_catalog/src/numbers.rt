//! Which numbers are taken, and the least that is free.
//!
//! It takes no memory: each number below a limit has its place in an array.

ghost use Rattle.std.specs.Prelude.{◌≡◌, ℕ, ◌<◌, ◌^◌, length, true, slice_set};
ghost use Rattle.std.specs.List.{prefix_len};
ghost use Rattle.rs_catalog.specs.Taken.{none_taken};

/// What has a number of its own among others.
pub trait Numbered {
    /// The number of a value.
    ghost number_of: { Self → ℕ };

    /// The number.
    fn own_number(&self) -> u32
        ensures { result ≡ number_of self.now };
}

/// The places of the numbers below `N`, of which none is taken.
pub(crate) fn none<const N: usize>() -> [bool; N]
    ensures { result ≡ none_taken N }
{
    [false; N]
}

/// Takes a number, whether it was free or not.
pub(crate) fn take(taken: &mut [bool], number: u32)
    requires { number < length taken.old }
    ensures { taken.new ≡ slice_set taken.old number true }
{
    taken[number as usize] = true;
}

/// The least number that is free, or how many places there are where each is taken.
pub(crate) fn least_free(taken: &[bool]) -> u32
    requires { length taken.now < 2 ^ 32 }
    ensures { result ≡ prefix_len (λ taken. taken) taken.now }
{
    taken.iter().take_while(|taken| **taken).count() as u32
}
