//! The rows of a list of spans that are not rows of another.

ghost use Rattle.std.specs.Prelude.{◌≡◌, ◌≤◌, ℕ, ◌++◌, length, map, take, IfOk, OnOk};
ghost use Rattle.std.specs.List.{AllByRecursion};
ghost use Rattle.rs_value.specs.declared.column.Kind.{Kind};
ghost use Rattle.rs_value.specs.declared.column.Kind.TheVariants as kinds;
ghost use Rattle.rs_facts.specs.Operators.{without};
ghost use Rattle.rs_facts.specs.Spans.{seen, places_of, ArePlaced};
ghost use Rattle.rs_coalesce.specs.Lent.{seen_lent};
ghost use Rattle.rs_sweep.specs.Lists.{AreInLine, AreSorted, AreWide};
ghost use Rattle.rs_sweep.specs.Parts.{changed_part, unchanged, IsLeft};

use crate::in_line::{are_in_line, count_ended, parts_along};
use crate::order::sort_by_place;
use crate::parts::{Part, parts_outside};
use crate::taken::{Rows, taken_by};
use rs_facts::Span;
use std::alloc::{AllocError, Global};

/// The rows of the left where the right does not have them. Rows that stay are moved; they are copied only where a
/// span falls into several parts. The only refusal is for want of memory.
pub fn minus(alloc: Global, left: Vec<Span>, right: &[&Span]) -> Result<Vec<Span>, AllocError>
    requires right_placed { ArePlaced kinds.Line (map seen_lent right.now) }
    requires right_sorted { AreSorted (map seen_lent right.now) }
    ensures means { IfOk result (λ spans. (k : ℕ) → places_of (map seen spans.items) k
        ≡ without (places_of (map seen left.items) k) (places_of (map seen_lent right.now) k)) }
    ensures sorted { IfOk result (λ spans. AreSorted (map seen spans.items)) }
    ensures placed { IfOk result (λ spans. (kind : Kind) → ArePlaced kind (map seen left.items)
        → ArePlaced kind (map seen spans.items)) }
    ensures width { IfOk result (λ spans. (width : ℕ) → AreWide width (map seen left.items)
        → AreWide width (map seen spans.items)) }
{
    let mut kept = cut_each(alloc, left, right)?;
    sort_by_place(&mut kept);
    Ok(kept)
}

/// The rows of the left where the right does not have them, in the order of the left.
fn cut_each(alloc: Global, left: Vec<Span>, right: &[&Span]) -> Result<Vec<Span>, AllocError>
    requires right_placed { ArePlaced kinds.Line (map seen_lent right.now) }
    requires right_sorted { AreSorted (map seen_lent right.now) }
    ensures cut { IfOk result (λ spans. IsLeft (map seen_lent right.now) (map seen left.items) (map seen spans.items)) }
{
    if are_in_line(right) {
        return minus_in_line(alloc, left, right);
    }
    minus_by_row(alloc, left, right)
}

/// The same by an order of the right by row.
fn minus_by_row(alloc: Global, left: Vec<Span>, right: &[&Span]) -> Result<Vec<Span>, AllocError>
    requires right_placed { ArePlaced kinds.Line (map seen_lent right.now) }
    requires right_sorted { AreSorted (map seen_lent right.now) }
    ensures cut { IfOk result (λ spans. IsLeft (map seen_lent right.now) (map seen left.items) (map seen spans.items)) }
{
    let taken = taken_by(alloc, Rows::Each, right)?;
    let mut kept = Vec::with_capacity(alloc, left.len())?;
    let mut parts = Vec::new(alloc);
    for span in left {
        parts_outside(Rows::Each, &span, taken.as_slice(), &mut parts)?;
        cut(alloc, span, parts.as_slice(), &mut kept)?;
    }
    Ok(kept)
}

/// The same where the spans of the right are in a line: those that ended before a span of the left are passed over for good, as long as
/// the spans of the left begin in turn.
fn minus_in_line(alloc: Global, left: Vec<Span>, right: &[&Span]) -> Result<Vec<Span>, AllocError>
    requires right_placed { ArePlaced kinds.Line (map seen_lent right.now) }
    requires right_in_line { AreInLine (map seen_lent right.now) }
    ensures cut { IfOk result (λ spans. IsLeft (map seen_lent right.now) (map seen left.items) (map seen spans.items)) }
{
    let mut kept = Vec::with_capacity(alloc, left.len())?;
    let mut parts = Vec::new(alloc);
    let mut first = 0;
    let mut reach = 0;
    for span in left {
        first = next_first(right, first, reach, span.lo);
        reach = span.lo;
        parts_along(&span, &right[first..], &mut parts)?;
        cut(alloc, span, parts.as_slice(), &mut kept)?;
    }
    Ok(kept)
}

/// How many of the first spans are passed over at a thousandth, where so many were at another.
fn next_first(right: &[&Span], first: usize, reach: u32, lo: u32) -> usize
    requires within { first ≤ length right.now }
    requires ended { AllByRecursion (λ span. span.hi ≤ reach) (take first (map seen_lent right.now)) }
    ensures within { result ≤ length right.now }
    ensures ended { AllByRecursion (λ span. span.hi ≤ lo) (take result (map seen_lent right.now)) }
{
    if lo < reach {
        return count_ended(right, lo);
    }
    first + count_ended(&right[first..], lo)
}

/// Adds the parts of a span. The span itself becomes the last of them.
fn cut(
    alloc: Global,
    mut span: Span,
    parts: &[Part],
    kept: &mut Vec<Span>,
) -> Result<(), AllocError>
    ensures { OnOk result (map seen kept.new.items
        ≡ map seen kept.old.items ++ map (changed_part unchanged (seen span)) parts.now) }
{
    let Some((last, others)) = parts.split_last() else {
        return Ok(());
    };
    for part in others {
        kept.push(Span {
            lo: part.lo,
            hi: part.hi,
            tuple: span.tuple.copied(alloc)?,
        })?;
    }
    span.lo = last.lo;
    span.hi = last.hi;
    kept.push(span)?;
    Ok(())
}
