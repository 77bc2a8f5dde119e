//! One span laid over spans of the other list.

ghost use Rattle.std.specs.Prelude.{◌≡◌, ◌≤◌, ◌+◌, ◌*◌, ◌++◌, min, map, length, IfOk, OnOk};
ghost use Rattle.rs_facts.specs.Spans.{seen};
ghost use Rattle.rs_coalesce.specs.Lent.{seen_lent};
ghost use Rattle.rs_sweep.specs.Inner.{piece_of, laid};

use crate::comparisons::Comparisons;
use rs_facts::Span;
use std::alloc::{AllocError, Global};

/// Of which list a span is.
#[derive(Clone, Copy)]
pub(crate) enum Side {
    Left,
    Right,
}

/// Lays a span over those of the other list that begin before it ends. None of these begins before it, and they are
/// sorted. The only refusal is for want of memory.
pub(crate) fn lay(
    alloc: Global,
    side: Side,
    one: &Span,
    others: &[&Span],
    found: &mut Vec<Span>,
    comparisons: &mut Comparisons,
) -> Result<(), AllocError>
    ensures found { OnOk result (map seen found.new.items
        ≡ map seen found.old.items ++ laid side (seen one.now) (map seen_lent others.now)) }
    ensures counted { OnOk result (comparisons.new.made
        ≤ comparisons.old.made + 1 + 2 * length (laid side (seen one.now) (map seen_lent others.now))) }
    ensures least { OnOk result (min (comparisons.old.made + 2 * length (laid side (seen one.now) (map seen_lent others.now))) u64.MAX
        ≤ comparisons.new.made) }
{
    for other in others {
        if !comparisons.is_below(other.lo, one.hi) {
            break;
        }
        found.push(piece(alloc, side, one, other, comparisons)?)?;
    }
    Ok(())
}

/// What a span has in common with one that begins within it.
fn piece(
    alloc: Global,
    side: Side,
    one: &Span,
    other: &Span,
    comparisons: &mut Comparisons,
) -> Result<Span, AllocError>
    ensures piece { IfOk result (λ span. seen span ≡ piece_of side (seen one.now) (seen other.now)) }
    ensures counted { comparisons.new.made ≡ min (comparisons.old.made + 1) u64.MAX }
{
    let hi = comparisons.lesser(one.hi, other.hi);
    let tuple = match side {
        Side::Left => one.tuple.beside(alloc, &other.tuple)?,
        Side::Right => other.tuple.beside(alloc, &one.tuple)?,
    };
    Ok(Span {
        lo: other.lo,
        hi,
        tuple,
    })
}
