//! The pieces that spans of two lists have in common, and the parts that either list has alone.

ghost use Rattle.std.specs.Prelude.{◌≡◌, ◌+◌, ◌++◌, ℕ, map, IfOk, OnOk};
ghost use Rattle.rs_value.specs.declared.column.Kind.{Kind};
ghost use Rattle.rs_value.specs.declared.column.Kind.TheVariants as kinds;
ghost use Rattle.rs_facts.specs.Operators.{covered};
ghost use Rattle.rs_facts.specs.Spans.{seen, places_of, ArePlaced, AreKept};
ghost use Rattle.rs_coalesce.specs.Lent.{seen_lent};
ghost use Rattle.rs_sweep.specs.Inner.{joined_row, joined_with};
ghost use Rattle.rs_sweep.specs.Lists.{AreSorted, AreWide};
ghost use Rattle.rs_sweep.specs.Parts.{IsCut, changed_part};
ghost use Rattle.rs_sweep.specs.Taken.{taken_of};
ghost use Rattle.rs_sweep.specs.declared.taken.Rows.TheVariants as rows;

use crate::comparisons::Comparisons;
use crate::laying::Side;
use crate::order::sort_by_place;
use crate::overlaying::pieces;
use crate::parts::{Part, parts_outside};
use crate::taken::{Rows, Taken, taken_by};
use rs_facts::Span;
use rs_value::KeptRow;
use std::alloc::{AllocError, Global};

/// Each row of the left before each row of the right where both have rows; where one alone has, its rows with NULLs for
/// the columns of the other. The only refusal is for want of memory.
pub fn cover(
    alloc: Global,
    left: &[&Span],
    right: &[&Span],
    left_width: usize,
    right_width: usize,
) -> Result<Vec<Span>, AllocError>
    requires left_placed { ArePlaced kinds.Line (map seen_lent left.now) }
    requires right_placed { ArePlaced kinds.Line (map seen_lent right.now) }
    requires left_sorted { AreSorted (map seen_lent left.now) }
    requires right_sorted { AreSorted (map seen_lent right.now) }
    requires left_wide { AreWide left_width (map seen_lent left.now) }
    requires right_wide { AreWide right_width (map seen_lent right.now) }
    ensures means { IfOk result (λ spans. (k : ℕ) → places_of (map seen spans.items) k
        ≡ covered left_width right_width (places_of (map seen_lent left.now) k) (places_of (map seen_lent right.now) k)) }
    ensures sorted { IfOk result (λ spans. AreSorted (map seen spans.items)) }
    ensures placed { IfOk result (λ spans. (kind : Kind) → ArePlaced kind (map seen_lent left.now)
        → ArePlaced kind (map seen_lent right.now) → ArePlaced kind (map seen spans.items)) }
    ensures width { IfOk result (λ spans. AreWide (left_width + right_width) (map seen spans.items)) }
{
    let mut comparisons = Comparisons::new();
    let mut found = pieces(alloc, left, right, &mut comparisons)?;
    let by_left = taken_by(alloc, Rows::All, left)?;
    let by_right = taken_by(alloc, Rows::All, right)?;
    let before = KeptRow::nulls(alloc, left_width)?;
    let after = KeptRow::nulls(alloc, right_width)?;
    pad(
        alloc,
        Side::Left,
        left,
        by_right.as_slice(),
        &after,
        &mut found,
    )?;
    pad(
        alloc,
        Side::Right,
        right,
        by_left.as_slice(),
        &before,
        &mut found,
    )?;
    sort_by_place(&mut found);
    Ok(found)
}

/// Adds the parts of spans outside what the other list takes, each row beside NULLs.
pub(crate) fn pad(
    alloc: Global,
    side: Side,
    spans: &[&Span],
    taken: &[Taken<'_>],
    nulls: &KeptRow,
    found: &mut Vec<Span>,
) -> Result<(), AllocError>
    requires kept { AreKept kinds.Line (map (taken_of rows.All) taken.now) }
    ensures { OnOk result (IsCut (joined_with side nulls.now) rows.All
        (map (taken_of rows.All) taken.now) (map seen_lent spans.now) (map seen found.old.items) (map seen found.new.items)) }
{
    let mut parts = Vec::new(alloc);
    for span in spans {
        parts_outside(Rows::All, span, taken, &mut parts)?;
        add_padded(alloc, side, span, parts.as_slice(), nulls, found)?;
    }
    Ok(())
}

/// Adds parts of a span, its row beside NULLs.
fn add_padded(
    alloc: Global,
    side: Side,
    span: &Span,
    parts: &[Part],
    nulls: &KeptRow,
    found: &mut Vec<Span>,
) -> Result<(), AllocError>
    ensures { OnOk result (map seen found.new.items ≡ map seen found.old.items
        ++ map (changed_part (joined_with side nulls.now) (seen span.now)) parts.now) }
{
    for part in parts {
        found.push(Span {
            lo: part.lo,
            hi: part.hi,
            tuple: beside(alloc, side, &span.tuple, nulls)?,
        })?;
    }
    Ok(())
}

/// A row of that side beside another.
fn beside(alloc: Global, side: Side, one: &KeptRow, other: &KeptRow) -> Result<KeptRow, AllocError>
    ensures { IfOk result (λ row. row ≡ joined_row side one.now other.now) }
{
    match side {
        Side::Left => one.beside(alloc, other),
        Side::Right => other.beside(alloc, one),
    }
}
