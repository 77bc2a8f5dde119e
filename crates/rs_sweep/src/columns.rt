//! The columns named of each row of a list of spans.

ghost use Rattle.std.specs.Prelude.{◌≡◌, ℕ, map, length, OnOk};
ghost use Rattle.rs_value.specs.declared.column.Kind.{Kind};
ghost use Rattle.rs_facts.specs.Operators.{dissolved};
ghost use Rattle.rs_facts.specs.Spans.{seen, places_of, ArePlaced};
ghost use Rattle.rs_sweep.specs.Lists.{AreSorted, AreWide};
ghost use Rattle.rs_sweep.specs.Inner.{in_columns};

use rs_facts::Span;
use std::alloc::{AllocError, Global};

/// Keeps of each row the columns named, each by its place, the leftmost 0. The only refusal is for want of memory; then
/// some rows may be kept whole.
pub fn dissolve(alloc: Global, spans: &mut Vec<Span>, columns: &[u8]) -> Result<(), AllocError>
    requires sorted { AreSorted (map seen spans.old.items) }
    ensures means { OnOk result ((k : ℕ) → places_of (map seen spans.new.items) k
        ≡ dissolved columns.now (places_of (map seen spans.old.items) k)) }
    ensures sorted { OnOk result (AreSorted (map seen spans.new.items)) }
    ensures placed { OnOk result ((kind : Kind) → ArePlaced kind (map seen spans.old.items)
        → ArePlaced kind (map seen spans.new.items)) }
    ensures width { OnOk result (AreWide (length columns.now) (map seen spans.new.items)) }
{
    choose_each(alloc, spans, columns)
}

/// Chooses the columns of each span's row.
fn choose_each(alloc: Global, spans: &mut Vec<Span>, columns: &[u8]) -> Result<(), AllocError>
    ensures { OnOk result (map seen spans.new.items
        ≡ map (in_columns columns.now) (map seen spans.old.items)) }
{
    for span in spans.iter_mut() {
        span.tuple = span.tuple.chosen(alloc, columns)?;
    }
    Ok(())
}
