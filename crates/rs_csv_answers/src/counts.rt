//! How many lines were refused, with each number of a refusal.
//!
//! A count rises by one and stops at its greatest number.

ghost use Rattle.std.specs.Prelude.{◌≡◌, replicate, slice_index, slice_set};
ghost use Rattle.rs_refusal.specs.Counts.{counted_on};

/// Room for a count by each number of a refusal.
const NUMBERS: usize = 256;

/// How many lines were refused with each number of a refusal.
#[derive(Clone, Copy, PartialEq, Eq, Debug)]
pub struct Counts {
    /// The count of each number, from 0.
    pub by_number: [u64; NUMBERS],
}

impl Counts {
    /// No line.
    pub fn none() -> Self
        ensures { result.by_number ≡ replicate 256 0 }
    {
        Counts {
            by_number: [0; NUMBERS],
        }
    }

    /// How many were refused with this number.
    pub fn of(&self, number: u8) -> u64
        ensures { result ≡ slice_index self.now.by_number number }
    {
        self.by_number[usize::from(number)]
    }

    /// One more with this number, and how many there are then.
    #[tactic(auto, unfolding(rs_refusal::specs::Counts::counted_on))]
    pub fn add(&mut self, number: u8) -> u64
        ensures more { result ≡ counted_on (slice_index self.old.by_number number) }
        ensures only { self.new.by_number ≡ slice_set self.old.by_number number result }
    {
        let place = usize::from(number);
        let count = self.by_number[place].saturating_add(1);
        self.by_number[place] = count;
        count
    }
}
