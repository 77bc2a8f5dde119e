//! The pieces that spans of two lists have in common.

ghost use Rattle.std.specs.Prelude.{◌≡◌, ◌≤◌, ◌+◌, ◌*◌, ℕ, min, map, length, IfOk};
ghost use Rattle.rs_value.specs.declared.column.Kind.{Kind};
ghost use Rattle.rs_value.specs.declared.column.Kind.TheVariants as kinds;
ghost use Rattle.rs_facts.specs.Operators.{overlaid};
ghost use Rattle.rs_facts.specs.Spans.{seen, places_of, ArePlaced};
ghost use Rattle.rs_facts.specs.Query.{overlaid_kind};
ghost use Rattle.rs_coalesce.specs.Joined.{AreJoined};
ghost use Rattle.rs_coalesce.specs.Lent.{seen_lent};
ghost use Rattle.rs_sweep.specs.Lists.{AreSorted, AreWide, pairs};
ghost use Rattle.rs_sweep.specs.Inner.{ArePieces};

use crate::comparisons::Comparisons;
use crate::laying::{Side, lay};
use crate::order::sort_by_place;
use rs_facts::Span;
use std::alloc::{AllocError, Global};

/// Each row of the left before each row of the right, and the number of comparisons of a bound of the one with a bound
/// of the other: two for each pair of spans that share a thousandth, one at least for each span of the shorter list, and
/// two at most for each span of either. The number stops at 2^64 - 1. Where no two spans of either list are one run, none of
/// the result are. The only refusal is for want of memory.
pub fn overlay(
    alloc: Global,
    left: &[&Span],
    right: &[&Span],
) -> Result<(Vec<Span>, u64), AllocError>
    requires left_placed { ArePlaced kinds.Line (map seen_lent left.now) }
    requires right_placed { ArePlaced kinds.Line (map seen_lent right.now) }
    requires left_sorted { AreSorted (map seen_lent left.now) }
    requires right_sorted { AreSorted (map seen_lent right.now) }
    ensures means { IfOk result (λ answer. (k : ℕ) → places_of (map seen answer.0.items) k
        ≡ overlaid (places_of (map seen_lent left.now) k) (places_of (map seen_lent right.now) k)) }
    ensures sorted { IfOk result (λ answer. AreSorted (map seen answer.0.items)) }
    ensures placed { IfOk result (λ answer. (a b : Kind) → ArePlaced a (map seen_lent left.now)
        → ArePlaced b (map seen_lent right.now) → ArePlaced (overlaid_kind a b) (map seen answer.0.items)) }
    ensures width { IfOk result (λ answer. (m n : ℕ) → AreWide m (map seen_lent left.now)
        → AreWide n (map seen_lent right.now) → AreWide (m + n) (map seen answer.0.items)) }
    ensures joined { IfOk result (λ answer. (a b : Kind) (m n : ℕ) → AreWide m (map seen_lent left.now)
        → AreWide n (map seen_lent right.now) → AreJoined a (map seen_lent left.now) → AreJoined b (map seen_lent right.now)
        → AreJoined (overlaid_kind a b) (map seen answer.0.items)) }
    ensures comparisons { IfOk result (λ answer. answer.1
        ≤ 2 * (length left.now + length right.now) + 2 * pairs (map seen_lent left.now) (map seen_lent right.now)) }
    ensures at_least { IfOk result (λ answer. min (min (length left.now) (length right.now)
        + 2 * pairs (map seen_lent left.now) (map seen_lent right.now)) u64.MAX ≤ answer.1) }
{
    let mut comparisons = Comparisons::new();
    let mut found = pieces(alloc, left, right, &mut comparisons)?;
    sort_by_place(&mut found);
    Ok((found, comparisons.made))
}

/// The pieces, in no order. Of two spans the one that begins first is laid over the other.
pub(crate) fn pieces(
    alloc: Global,
    left: &[&Span],
    right: &[&Span],
    comparisons: &mut Comparisons,
) -> Result<Vec<Span>, AllocError>
    requires left_placed { ArePlaced kinds.Line (map seen_lent left.now) }
    requires right_placed { ArePlaced kinds.Line (map seen_lent right.now) }
    requires left_sorted { AreSorted (map seen_lent left.now) }
    requires right_sorted { AreSorted (map seen_lent right.now) }
    ensures pieces { IfOk result (λ found. ArePieces (map seen_lent left.now) (map seen_lent right.now)
        (map seen found.items)) }
    ensures counted { IfOk result (λ found. comparisons.new.made ≤ comparisons.old.made
        + 2 * (length left.now + length right.now) + 2 * pairs (map seen_lent left.now) (map seen_lent right.now)) }
    ensures least { IfOk result (λ found. min (comparisons.old.made + min (length left.now) (length right.now)
        + 2 * pairs (map seen_lent left.now) (map seen_lent right.now)) u64.MAX ≤ comparisons.new.made) }
{
    let mut found = Vec::new(alloc);
    let mut i = 0;
    let mut j = 0;
    while i < left.len() && j < right.len() {
        let a = left[i];
        let b = right[j];
        if comparisons.is_below(a.lo, b.lo) {
            lay(alloc, Side::Left, a, &right[j..], &mut found, comparisons)?;
            i += 1;
        } else {
            lay(alloc, Side::Right, b, &left[i..], &mut found, comparisons)?;
            j += 1;
        }
    }
    Ok(found)
}
