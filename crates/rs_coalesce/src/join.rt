//! The joining of two spans, and of neighbours in a list, which are in order by row and place, or by place and apart.

ghost use Rattle.std.specs.Prelude.{◌≡◌, ◌+◌, ◌≤◌, nat_lt, length, map, take};
ghost use Rattle.rs_facts.specs.Spans.{seen, gap_of};
ghost use Rattle.rs_coalesce.specs.Joined.{joins, joined};

use rs_facts::Span;
use rs_value::{Kind, same_row};

/// Whether a span that begins at `lo` is one with an earlier one of its row that ends at `hi`.
pub fn reaches(kind: Kind, hi: u32, lo: u32) -> bool
    ensures { result ≡ nat_lt lo (hi + gap_of kind) }
{
    match kind {
        Kind::Point => lo < hi,
        Kind::Line => lo <= hi,
    }
}

/// Whether a span and the next one are one run.
pub fn is_joined(kind: Kind, before: &Span, next: &Span) -> bool
    ensures { result ≡ joins kind (seen before.now) (seen next.now) }
{
    reaches(kind, before.hi, next.lo) && same_row(&before.tuple, &next.tuple)
}

/// Joins each span with what follows it as far as they are one run, and says how many are left; elements past these are
/// unspecified.
fn join_in_place(kind: Kind, spans: &mut [Span]) -> usize
    ensures within { result ≤ length spans.new }
    ensures joined { map seen (take result spans.new) ≡ joined kind (map seen spans.old) }
{
    if spans.is_empty() {
        return 0;
    }
    let mut last = 0;
    for next in 1..spans.len() {
        if is_joined(kind, &spans[last], &spans[next]) {
            let hi = spans[last].hi.max(spans[next].hi);
            spans[last].hi = hi;
        } else {
            last += 1;
            spans.swap(last, next);
        }
    }
    last + 1
}

/// Joins each span with what follows it as far as they are one run.
pub fn join_neighbours(kind: Kind, spans: &mut Vec<Span>)
    ensures { map seen spans.new.items ≡ joined kind (map seen spans.old.items) }
{
    let left = join_in_place(kind, spans.as_mut_slice());
    spans.truncate(left);
}
