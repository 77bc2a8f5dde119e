//! The parts of a span outside spans that come by place, each where the one before it ends or later.
//!
//! It promises the same parts as where rows are told apart, without an order by row.

ghost use Rattle.std.specs.Prelude.{◌≡◌, ◌≤◌, ℕ, not, ◌&&◌, ◌++◌, nat_lt, map, take, length, IsTrue, OnOk};
ghost use Rattle.std.specs.List.{AllByRecursion, list_any};
ghost use Rattle.std.specs.Ordering.{eq_by_cmp};
ghost use Rattle.rs_value.specs.Row.{row_cmp};
ghost use Rattle.rs_value.specs.declared.column.Kind.TheVariants as kinds;
ghost use Rattle.rs_coalesce.specs.Lent.{seen_lent};
ghost use Rattle.rs_facts.specs.Fact.{contains};
ghost use Rattle.rs_facts.specs.Insert.{within};
ghost use Rattle.rs_facts.specs.Spans.{seen, places_of, ArePlaced};
ghost use Rattle.rs_sweep.specs.Lists.{AreInLine};
ghost use Rattle.rs_sweep.specs.Parts.{in_part, left_along, LiesIn};

use crate::parts::{Part, add_part};
use rs_facts::Span;
use rs_value::same_row;
use std::alloc::AllocError;

/// Whether each span begins where the one before it ends, or later.
pub(crate) fn are_in_line(spans: &[&Span]) -> bool
    requires placed { ArePlaced kinds.Line (map seen_lent spans.now) }
    ensures { IsTrue result → AreInLine (map seen_lent spans.now) }
{
    spans.is_sorted_by(|one, next| one.hi <= next.lo)
}

/// How many of the first spans end at a thousandth or before it.
pub(crate) fn count_ended(spans: &[&Span], lo: u32) -> usize
    ensures within { result ≤ length spans.now }
    ensures ended { AllByRecursion (λ span. span.hi ≤ lo) (take result (map seen_lent spans.now)) }
{
    let mut count = 0;
    while count < spans.len() && spans[count].hi <= lo {
        count += 1;
    }
    count
}

/// Finds the parts of a span outside those of its row among spans in a line, in place of what was in `parts`. The only refusal is for
/// want of memory.
pub(crate) fn parts_along(
    span: &Span,
    others: &[&Span],
    parts: &mut Vec<Part>,
) -> Result<(), AllocError>
    requires placed { ArePlaced kinds.Line (map seen_lent others.now) }
    requires in_line { AreInLine (map seen_lent others.now) }
    ensures free { OnOk result ((k : ℕ) → list_any (in_part k) parts.new.items
        ≡ (within span.now.lo span.now.hi k && not (contains (places_of (map seen_lent others.now) k) span.now.tuple))) }
    ensures inside { OnOk result (AllByRecursion (LiesIn (seen span.now)) parts.new.items) }
{
    parts.clear();
    go_along(span, others, parts)
}

/// Goes along the span, from one of the others to the next.
fn go_along(span: &Span, others: &[&Span], parts: &mut Vec<Part>) -> Result<(), AllocError>
    ensures { OnOk result (parts.new.items
        ≡ parts.old.items ++ left_along span.now.lo (seen span.now) (map seen_lent others.now)) }
{
    let mut lo = span.lo;
    for other in others {
        if !begins_before(other, span.hi) {
            return add_part(parts, lo, span.hi);
        }
        if is_of_row(other, span) {
            add_part(parts, lo, other.lo)?;
            lo = lo.max(other.hi);
        }
    }
    add_part(parts, lo, span.hi)
}

/// Whether a span begins before a thousandth.
fn begins_before(other: &Span, hi: u32) -> bool
    ensures { result ≡ nat_lt (seen other.now).lo hi }
{
    other.lo < hi
}

/// Whether two spans have one row.
fn is_of_row(other: &Span, span: &Span) -> bool
    ensures { result ≡ eq_by_cmp row_cmp (seen other.now).row (seen span.now).row }
{
    same_row(&other.tuple, &span.tuple)
}
