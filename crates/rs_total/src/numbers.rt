//! The numbers that are kept of one group while routes are added.
//!
//! All routes lie on one line, each in 2^32 thousandths of its own, so that a group needs no reset between two routes.

ghost use Rattle.std.specs.Prelude.{◌≡◌};
ghost use Rattle.rs_value.specs.LentView.{lent_datum};
ghost use Rattle.rs_facts.specs.Spans.{seen};
ghost use Rattle.rs_total.specs.Counting.{no_numbers, along_line, with_places, with_value, with_size, with_span};

use rs_facts::Span;
use rs_facts::totals::GREATEST_TOTAL;
use rs_value::LentValue;

/// What values above and below 0 add up to, by their sizes.
#[derive(Clone, Copy)]
pub(crate) struct Sizes {
    pub above: u128,
    pub below: u128,
}

/// The numbers of one group.
#[derive(Clone, Copy)]
pub(crate) struct Numbers {
    /// At how many places the group holds.
    pub places: u128,
    /// The end of the last of these places, on the line of all routes.
    pub reach: u64,
    /// How many facts have a value in the column summed.
    pub weight: u128,
    /// What these values add up to; none once their sizes have passed the limit.
    pub sizes: Option<Sizes>,
}

impl Numbers {
    /// Of a group without facts.
    pub fn none() -> Self
        ensures { result ≡ no_numbers }
    {
        Numbers {
            places: 0,
            reach: 0,
            weight: 0,
            sizes: Some(Sizes { above: 0, below: 0 }),
        }
    }

    /// With a span of the group, that begins no earlier than those before it. `start` is where its route begins on the
    /// line of all routes.
    pub fn with_span(self, start: u64, summed: Option<u8>, span: &Span) -> Self
        ensures { result ≡ with_span start summed (seen span.now) self }
    {
        let numbers = self.with_places(on_line(start, span.lo), on_line(start, span.hi));
        match summed {
            None => numbers,
            Some(column) => {
                numbers.with_value(
                    span.hi.saturating_sub(span.lo),
                    span.tuple.value_at(usize::from(column)),
                )
            }
        }
    }

    /// With the places from `lo` on and below `hi` of which none counts twice.
    fn with_places(self, lo: u64, hi: u64) -> Self
        ensures { result ≡ with_places lo hi self }
    {
        let new_places = hi.saturating_sub(lo.max(self.reach));
        Numbers {
            places: self.places.saturating_add(u128::from(new_places)),
            reach: self.reach.max(hi),
            weight: self.weight,
            sizes: self.sizes,
        }
    }

    /// With a value that so many facts have.
    fn with_value(self, facts: u32, value: LentValue<'_>) -> Self
        ensures { result ≡ with_value facts (lent_datum value.entry) self }
    {
        let sizes = match (self.sizes, value) {
            (Some(sizes), LentValue::Int(number)) => sizes.with(facts, number),
            (sizes, _) => sizes,
        };
        let weight = match value {
            LentValue::Null => self.weight,
            LentValue::Int(_) | LentValue::Text(_) => self.weight.saturating_add(u128::from(facts)),
        };
        Numbers {
            places: self.places,
            reach: self.reach,
            weight,
            sizes,
        }
    }
}

impl Sizes {
    /// With a number that so many facts have; none where the sizes pass the limit.
    fn with(self, facts: u32, number: i64) -> Option<Self>
        ensures { result ≡ with_size facts number self }
    {
        let size = u128::from(facts) * u128::from(number.unsigned_abs());
        let sizes = if number < 0 {
            Sizes {
                above: self.above,
                below: self.below.saturating_add(size),
            }
        } else {
            Sizes {
                above: self.above.saturating_add(size),
                below: self.below,
            }
        };
        if sizes.above.saturating_add(sizes.below) > GREATEST_TOTAL {
            return None;
        }
        Some(sizes)
    }
}

/// A thousandth of the route that begins at `start`, on the line of all routes.
fn on_line(start: u64, place: u32) -> u64
    ensures { result ≡ along_line start place }
{
    start.saturating_add(u64::from(place))
}
