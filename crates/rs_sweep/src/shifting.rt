//! The part of a list of spans that a piece of an alignment carries to another place.

ghost use Rattle.std.specs.Prelude.{◌≡◌, ◌+◌, ◌-◌, ◌≤◌, ◌<◌, ◌^◌, ℕ, map};
ghost use Rattle.rs_value.specs.declared.column.Kind.{Kind};
ghost use Rattle.rs_facts.specs.Operators.{carried};
ghost use Rattle.rs_facts.specs.Spans.{seen, places_of, ArePlaced};
ghost use Rattle.rs_sweep.specs.Lists.{AreSorted, AreWide};
ghost use Rattle.rs_sweep.specs.Inner.{moved, shifted};

use rs_facts::Span;

/// Keeps the rows from thousandth `from` on and below `to`, and carries them so far along that those of `from` are at
/// `onto` (ArcGIS's Transform Route Events, without stretching). It takes no memory.
pub fn shift(spans: &mut Vec<Span>, from: u32, to: u32, onto: u32)
    requires not_backwards { from ≤ to }
    requires room { onto + (to - from) < 2 ^ 32 }
    ensures means { (k : ℕ) → places_of (map seen spans.new.items) k
        ≡ carried from to onto (places_of (map seen spans.old.items)) k }
    ensures sorted { AreSorted (map seen spans.old.items) → AreSorted (map seen spans.new.items) }
    ensures placed { (kind : Kind) → ArePlaced kind (map seen spans.old.items)
        → ArePlaced kind (map seen spans.new.items) }
    ensures width { (width : ℕ) → AreWide width (map seen spans.old.items)
        → AreWide width (map seen spans.new.items) }
{
    shift_each(spans, from, to, onto);
    spans.retain(|span| span.lo < span.hi);
}

/// Cuts off what lies before `from` and from `to` on, and carries the rest; of some spans nothing is left.
fn shift_each(spans: &mut Vec<Span>, from: u32, to: u32, onto: u32)
    requires not_backwards { from ≤ to }
    requires room { onto + (to - from) < 2 ^ 32 }
    ensures { map seen spans.new.items ≡ map (shifted from to onto) (map seen spans.old.items) }
{
    for span in spans.iter_mut() {
        span.lo = carry(span.lo, from, to, onto);
        span.hi = carry(span.hi, from, to, onto);
    }
}

/// Where an end is carried to, of a span that is cut to `from` and `to`.
fn carry(end: u32, from: u32, to: u32, onto: u32) -> u32
    requires not_backwards { from ≤ to }
    requires room { onto + (to - from) < 2 ^ 32 }
    ensures { result ≡ moved from to onto end }
{
    onto + (end.max(from).min(to) - from)
}
