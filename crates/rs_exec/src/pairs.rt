//! OVERLAY, COVER, MERGE and MINUS of two operands, whose rows on one route make the operator's rows there.

ghost use Rattle.std.specs.Prelude.{◌≡◌, IfOk, map};
ghost use Rattle.std.specs.List.{AllZip, zip};
ghost use Rattle.rs_coalesce.specs.Lent.{seen_lent};
ghost use Rattle.rs_facts.specs.Spans.{seen};
ghost use Rattle.rs_exec.specs.Routes.{list_of};
ghost use Rattle.rs_exec.specs.Pairs.{CanPair, CanPairSpans, IsPaired, ArePaired, AreMaximal, paired_kind};

use crate::kinds::overlaid_kind;
use crate::routes::RowsOn;
use rs_coalesce::{lent, runs};
use rs_facts::Span;
use rs_sweep::{cover, merge, minus, overlay};
use rs_value::Kind;
use std::alloc::{AllocError, Global};

/// An operator of two operands.
#[derive(Clone, Copy)]
pub(crate) enum Pairing {
    /// Each row of the first before each row of the second.
    Overlay,
    /// OVERLAY, and where one alone has rows, these beside NULLs. The numbers are the operands' widths.
    Cover(u8, u8),
    /// The rows of either.
    Merge,
    /// The rows of the first that the second does not have.
    Minus,
}

/// Whether the rows of the operands are points or lines.
#[derive(Clone, Copy)]
pub(crate) struct Kinds {
    /// Those of the first.
    pub(crate) left: Kind,
    /// Those of the second.
    pub(crate) right: Kind,
}

impl Kinds {
    /// The kind of what an operator makes of operands of these kinds.
    pub(crate) fn made_by(self, pairing: Pairing) -> Kind
        ensures { result ≡ paired_kind pairing self.left self.right }
    {
        match pairing {
            Pairing::Overlay => overlaid_kind(self.left, self.right),
            Pairing::Cover(_, _) | Pairing::Merge | Pairing::Minus => self.left,
        }
    }
}

/// On each route what the operator makes of the operands' rows there. The only refusal is for want of memory.
pub(crate) fn paired_on(
    alloc: Global,
    pairing: Pairing,
    kinds: Kinds,
    left: RowsOn,
    right: RowsOn,
) -> Result<RowsOn, AllocError>
    requires { AllZip (CanPair pairing kinds) (list_of left) (list_of right) }
    ensures { IfOk result (λ made. AllZip (IsPaired pairing kinds) (zip (list_of left) (list_of right)) (list_of made)) }
{
    let first = paired(alloc, pairing, kinds, left.first, right.first)?;
    let others = paired_each(alloc, pairing, kinds, left.others, right.others)?;
    Ok(RowsOn { first, others })
}

/// What the operator makes of each two lists of rows at one place.
fn paired_each(
    alloc: Global,
    pairing: Pairing,
    kinds: Kinds,
    lefts: Vec<Vec<Span>>,
    rights: Vec<Vec<Span>>,
) -> Result<Vec<Vec<Span>>, AllocError>
    requires { AllZip (CanPair pairing kinds) lefts.items rights.items }
    ensures { IfOk result (λ made. AllZip (IsPaired pairing kinds) (zip lefts.items rights.items) made.items) }
{
    let mut made = Vec::new(alloc);
    let mut rights = rights.into_iter();
    for left in lefts {
        let right = rights.next().unwrap();
        made.push(paired(alloc, pairing, kinds, left, right)?)?;
    }
    Ok(made)
}

/// What the operator makes of the operands' rows on one route. It is given their maximal runs, in which no row is twice at a
/// place: each row of one operand meets each of the other in an OVERLAY and a COVER, and a MERGE has the rows of both.
fn paired(
    alloc: Global,
    pairing: Pairing,
    kinds: Kinds,
    left: Vec<Span>,
    right: Vec<Span>,
) -> Result<Vec<Span>, AllocError>
    requires { CanPair pairing kinds left right }
    ensures { IfOk result (IsPaired pairing kinds (left, right)) }
{
    let left_runs = runs(kinds.left, left);
    let right_runs = runs(kinds.right, right);
    match pairing {
        Pairing::Overlay => {
            let lower = lent(alloc, &left_runs)?;
            let upper = lent(alloc, &right_runs)?;
            overlaid(alloc, kinds, &lower, &upper)
        }
        Pairing::Cover(left_width, right_width) => {
            let lower = lent(alloc, &left_runs)?;
            let upper = lent(alloc, &right_runs)?;
            covered(alloc, kinds, (left_width, right_width), &lower, &upper)
        }
        Pairing::Merge => merged(kinds, left_runs, right_runs),
        Pairing::Minus => {
            let upper = lent(alloc, &right_runs)?;
            without(alloc, kinds, left_runs, &upper)
        }
    }
}

/// Each row of the left before each row of the right.
fn overlaid(
    alloc: Global,
    kinds: Kinds,
    lower: &[&Span],
    upper: &[&Span],
) -> Result<Vec<Span>, AllocError>
    requires can { CanPairSpans Pairing.Overlay kinds (map seen_lent lower.now) (map seen_lent upper.now) }
    requires runs { AreMaximal kinds (map seen_lent lower.now) (map seen_lent upper.now) }
    ensures { IfOk result (λ made. ArePaired Pairing.Overlay kinds (map seen_lent lower.now, map seen_lent upper.now)
        (map seen made.items)) }
{
    let (spans, _) = overlay(alloc, lower, upper)?;
    Ok(spans)
}

/// The same, and where one side alone has rows, these beside NULLs, for operands of these widths.
fn covered(
    alloc: Global,
    kinds: Kinds,
    widths: (u8, u8),
    lower: &[&Span],
    upper: &[&Span],
) -> Result<Vec<Span>, AllocError>
    requires can { CanPairSpans (Pairing.Cover widths.0 widths.1) kinds (map seen_lent lower.now) (map seen_lent upper.now) }
    requires runs { AreMaximal kinds (map seen_lent lower.now) (map seen_lent upper.now) }
    ensures { IfOk result (λ made. ArePaired (Pairing.Cover widths.0 widths.1) kinds
        (map seen_lent lower.now, map seen_lent upper.now) (map seen made.items)) }
{
    let (first_width, second_width) = (usize::from(widths.0), usize::from(widths.1));
    let spans = cover(alloc, lower, upper, first_width, second_width)?;
    Ok(spans)
}

/// The rows of either.
fn merged(kinds: Kinds, left: Vec<Span>, right: Vec<Span>) -> Result<Vec<Span>, AllocError>
    requires can { CanPair Pairing.Merge kinds left right }
    requires runs { AreMaximal kinds (map seen left.items) (map seen right.items) }
    ensures { IfOk result (IsPaired Pairing.Merge kinds (left, right)) }
{
    let spans = merge(left, right)?;
    Ok(spans)
}

/// The rows of the left that the right does not have.
fn without(
    alloc: Global,
    kinds: Kinds,
    left: Vec<Span>,
    upper: &[&Span],
) -> Result<Vec<Span>, AllocError>
    requires can { CanPairSpans Pairing.Minus kinds (map seen left.items) (map seen_lent upper.now) }
    requires runs { AreMaximal kinds (map seen left.items) (map seen_lent upper.now) }
    ensures { IfOk result (λ made. ArePaired Pairing.Minus kinds (map seen left.items, map seen_lent upper.now)
        (map seen made.items)) }
{
    let spans = minus(alloc, left, upper)?;
    Ok(spans)
}
