//! The parts of a span outside what other spans take.

ghost use Rattle.std.specs.Prelude.{◌≡◌, ◌≤◌, ℕ, not, ◌&&◌, ◌++◌, map, take, drop, length, OnOk, true, false};
ghost use Rattle.std.specs.List.{AllByRecursion, list_any};
ghost use Rattle.rs_value.specs.declared.column.Kind.TheVariants as kinds;
ghost use Rattle.rs_facts.specs.Fact.{contains};
ghost use Rattle.rs_facts.specs.Insert.{within};
ghost use Rattle.rs_facts.specs.Spans.{seen, places_of, AreKept};
ghost use Rattle.rs_sweep.specs.Taken.{key, keyed, taken_of, ends_before, is_met};
ghost use Rattle.rs_sweep.specs.Parts.{in_part, LiesIn, part_of, walked};

use crate::taken::{Rows, Taken};
use rs_facts::Span;
use rs_value::{compare_rows, same_row};
use std::alloc::AllocError;
use std::cmp::Ordering;

/// A part of a span: from `lo` on and below `hi`.
#[derive(Clone, Copy)]
pub(crate) struct Part {
    pub lo: u32,
    pub hi: u32,
}

/// Finds the parts of a span that lie outside what others take, of its own row or of all, in place of what was in
/// `parts`. The only refusal is for want of memory.
pub(crate) fn parts_outside(
    rows: Rows,
    span: &Span,
    taken: &[Taken<'_>],
    parts: &mut Vec<Part>,
) -> Result<(), AllocError>
    requires { AreKept kinds.Line (map (taken_of rows) taken.now) }
    ensures free { OnOk result ((k : ℕ) → list_any (in_part k) parts.new.items
        ≡ (within span.now.lo span.now.hi k && not (contains (places_of (map (taken_of rows) taken.now) k)
        (key rows (seen span.now).row)))) }
    ensures inside { OnOk result (AllByRecursion (LiesIn (seen span.now)) parts.new.items) }
{
    parts.clear();
    let first = first_not_before(rows, span, taken);
    walk(rows, span, &taken[first..], parts)
}

/// Whether a stretch lies before a span of its row, or is of a lesser row.
fn is_before(rows: Rows, stretch: &Taken<'_>, span: &Span) -> bool
    ensures { result ≡ ends_before (taken_of rows stretch.now) (keyed rows (seen span.now)) }
{
    match rows {
        Rows::All => stretch.hi <= span.lo,
        Rows::Each => match compare_rows(&stretch.first.tuple, &span.tuple) {
            Ordering::Less => true,
            Ordering::Equal => stretch.hi <= span.lo,
            Ordering::Greater => false,
        },
    }
}

/// How many stretches lie before the span; they are the first ones.
fn first_not_before(rows: Rows, span: &Span, taken: &[Taken<'_>]) -> usize
    requires { AreKept kinds.Line (map (taken_of rows) taken.now) }
    ensures bound { result ≤ length taken.now }
    ensures front { AllByRecursion (λ stretch. ends_before stretch (keyed rows (seen span.now)) ≡ true)
        (take result (map (taken_of rows) taken.now)) }
    ensures back { AllByRecursion (λ stretch. ends_before stretch (keyed rows (seen span.now)) ≡ false)
        (drop result (map (taken_of rows) taken.now)) }
{
    taken.partition_point(|stretch| is_before(rows, stretch, span))
}

/// Whether a stretch is of the span's row and begins before it ends.
fn is_met(rows: Rows, stretch: &Taken<'_>, span: &Span) -> bool
    ensures { result ≡ is_met (taken_of rows stretch.now) (keyed rows (seen span.now)) }
{
    stretch.first.lo < span.hi
        && match rows {
            Rows::All => true,
            Rows::Each => same_row(&stretch.first.tuple, &span.tuple),
        }
}

/// Goes along the span, from stretch to stretch that takes of it.
fn walk(
    rows: Rows,
    span: &Span,
    taken: &[Taken<'_>],
    parts: &mut Vec<Part>,
) -> Result<(), AllocError>
    ensures { OnOk result (parts.new.items
        ≡ parts.old.items ++ walked span.now.lo (keyed rows (seen span.now)) (map (taken_of rows) taken.now)) }
{
    let mut lo = span.lo;
    for stretch in taken {
        if !is_met(rows, stretch, span) {
            return add_part(parts, lo, span.hi);
        }
        add_part(parts, lo, stretch.first.lo)?;
        lo = lo.max(stretch.hi);
    }
    add_part(parts, lo, span.hi)
}

/// Adds a part, unless it is empty.
pub(crate) fn add_part(parts: &mut Vec<Part>, lo: u32, hi: u32) -> Result<(), AllocError>
    ensures { OnOk result (parts.new.items ≡ parts.old.items ++ part_of lo hi) }
{
    if lo < hi {
        parts.push(Part { lo, hi })?;
    }
    Ok(())
}
