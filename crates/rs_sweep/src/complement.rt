//! The parts of a route on which no span of a list lies.

ghost use Rattle.std.specs.Prelude.{◌≡◌, ◌<◌, ℕ, map, IfOk};
ghost use Rattle.rs_value.specs.declared.column.Kind.TheVariants as kinds;
ghost use Rattle.rs_facts.specs.Operators.{gapped};
ghost use Rattle.rs_facts.specs.Spans.{seen, places_of, ArePlaced};
ghost use Rattle.rs_coalesce.specs.Lent.{seen_lent};
ghost use Rattle.rs_sweep.specs.Lists.{AreSorted, AreWide};

use crate::covering::pad;
use crate::laying::Side;
use crate::order::sort_by_place;
use crate::taken::{Rows, taken_by};
use rs_facts::Span;
use rs_value::KeptRow;
use std::alloc::{AllocError, Global};

/// The row without columns from `start` on and below `finish` wherever no span lies, each gap once. The only refusal is
/// for want of memory.
pub fn gaps(
    alloc: Global,
    spans: &[&Span],
    start: u32,
    finish: u32,
) -> Result<Vec<Span>, AllocError>
    requires some { start < finish }
    requires placed { ArePlaced kinds.Line (map seen_lent spans.now) }
    requires sorted { AreSorted (map seen_lent spans.now) }
    ensures means { IfOk result (λ gaps. (k : ℕ) → places_of (map seen gaps.items) k
        ≡ gapped start finish k (places_of (map seen_lent spans.now) k)) }
    ensures sorted { IfOk result (λ gaps. AreSorted (map seen gaps.items)) }
    ensures placed { IfOk result (λ gaps. ArePlaced kinds.Line (map seen gaps.items)) }
    ensures width { IfOk result (λ gaps. AreWide 0 (map seen gaps.items)) }
{
    let taken = taken_by(alloc, Rows::All, spans)?;
    let tuple = KeptRow::nulls(alloc, 0)?;
    let route = Span {
        lo: start,
        hi: finish,
        tuple,
    };
    let mut found = Vec::new(alloc);
    pad(
        alloc,
        Side::Left,
        &[&route],
        taken.as_slice(),
        &route.tuple,
        &mut found,
    )?;
    sort_by_place(&mut found);
    Ok(found)
}
