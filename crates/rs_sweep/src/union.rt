//! Two lists of spans as one.

ghost use Rattle.std.specs.Prelude.{◌≡◌, ℕ, map, IfOk};
ghost use Rattle.rs_value.specs.declared.column.Kind.{Kind};
ghost use Rattle.rs_facts.specs.Operators.{merged};
ghost use Rattle.rs_facts.specs.Spans.{seen, places_of, ArePlaced};
ghost use Rattle.rs_sweep.specs.Lists.{AreSorted, AreWide};

use crate::order::sort_by_place;
use rs_facts::Span;
use std::alloc::AllocError;

/// The rows of either list. They are moved, not copied; the only refusal is for want of memory.
pub fn merge(mut left: Vec<Span>, mut right: Vec<Span>) -> Result<Vec<Span>, AllocError>
    ensures means { IfOk result (λ spans. (k : ℕ) → places_of (map seen spans.items) k
        ≡ merged (places_of (map seen left.items) k) (places_of (map seen right.items) k)) }
    ensures sorted { IfOk result (λ spans. AreSorted (map seen spans.items)) }
    ensures placed { IfOk result (λ spans. (kind : Kind) → ArePlaced kind (map seen left.items)
        → ArePlaced kind (map seen right.items) → ArePlaced kind (map seen spans.items)) }
    ensures width { IfOk result (λ spans. (width : ℕ) → AreWide width (map seen left.items)
        → AreWide width (map seen right.items) → AreWide width (map seen spans.items)) }
{
    left.append(&mut right)?;
    sort_by_place(&mut left);
    Ok(left)
}
