//! The part of a list of spans that lies between two ends.

ghost use Rattle.std.specs.Prelude.{◌≡◌, ℕ, map};
ghost use Rattle.rs_value.specs.declared.column.Kind.{Kind};
ghost use Rattle.rs_coalesce.specs.Joined.{AreJoined};
ghost use Rattle.rs_facts.specs.Operators.{windowed};
ghost use Rattle.rs_facts.specs.Spans.{seen, places_of, ArePlaced};
ghost use Rattle.rs_sweep.specs.Lists.{AreSorted, AreWide};
ghost use Rattle.rs_sweep.specs.Inner.{clipped};

use rs_facts::Span;

/// Keeps the rows from thousandth `lo` on and below `hi`. It takes no memory.
pub fn window(spans: &mut Vec<Span>, lo: u32, hi: u32)
    requires sorted { AreSorted (map seen spans.old.items) }
    ensures means { (k : ℕ) → places_of (map seen spans.new.items) k
        ≡ windowed lo hi k (places_of (map seen spans.old.items) k) }
    ensures sorted { AreSorted (map seen spans.new.items) }
    ensures placed { (kind : Kind) → ArePlaced kind (map seen spans.old.items)
        → ArePlaced kind (map seen spans.new.items) }
    ensures width { (width : ℕ) → AreWide width (map seen spans.old.items)
        → AreWide width (map seen spans.new.items) }
    ensures joined { (kind : Kind) → AreJoined kind (map seen spans.old.items)
        → AreJoined kind (map seen spans.new.items) }
{
    clip_each(spans, lo, hi);
    spans.retain(|span| span.lo < span.hi);
}

/// Cuts off what lies before `lo` and from `hi` on; of some spans nothing is left.
fn clip_each(spans: &mut Vec<Span>, lo: u32, hi: u32)
    ensures { map seen spans.new.items ≡ map (clipped lo hi) (map seen spans.old.items) }
{
    for span in spans.iter_mut() {
        span.lo = span.lo.max(lo);
        span.hi = span.hi.min(hi);
    }
}
