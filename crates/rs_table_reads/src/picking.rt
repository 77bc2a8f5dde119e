//! Picks the spans of the cells that a search found: those that a version sees, that reach into a window, and that are placed.

ghost use Rattle.std.specs.Prelude.{◌≡◌, ◌⊎◌, ◌+◌, IfErr, IfOk, IfSome, drop, length, map};
ghost use Rattle.std.specs.List.{AllByRecursion};
ghost use Rattle.rs_table_reads.specs.Picked.{PicksOne, PicksSpans, SayNone};
ghost use Rattle.rs_table_reads.specs.Read.{is_placed};
ghost use Rattle.rs_facts.specs.Runs.{stretch};
ghost use Rattle.rs_facts.specs.Spans.{ArePlaced, IsPlaced, seen};
ghost use Rattle.rs_records.specs.Listed.{listed, record_width};
ghost use Rattle.rs_value.specs.Row.{Row};
ghost use Rattle.rs_value.specs.Values.{IsRowOf};
ghost use Rattle.rs_versioned.specs.Events.{Event, SaysEvent, event_width};

use crate::window::RouteWindow;
use rs_cell_versions::sees;
use rs_facts::Span;
use rs_records::Cells;
use rs_refusal::Refusal;
use rs_value::{Kind, Schema};
use rs_versioned::event::span_of;
use std::alloc::Global;

/// The spans of the cells, each after so many bytes, in the same order. It is refused with 90, and with 94 where a cell says no event.
pub(crate) fn picked_spans(
    alloc: Global,
    schema: &Schema,
    found: &Cells,
    wide: usize,
    window: RouteWindow,
) -> Result<Vec<Span>, Refusal>
    requires width { record_width found.now ≡ wide + event_width schema.now.items }
    ensures picks { IfOk result (λ spans. PicksSpans schema.now.items window (map (drop wide) (listed found.now)) (map seen spans.items)) }
    ensures placed { IfOk result (λ spans. ArePlaced window.kind (map seen spans.items)) }
    ensures rows { IfOk result (λ spans. AllByRecursion (λ span. IsRowOf schema.now.items span.row) (map seen spans.items)) }
    ensures refused { IfErr result (λ why. (why ≡ Refusal.OutOfMemory) ⊎ ((why ≡ Refusal.DamagedFile) × SayNone schema.now.items (map (drop wide) (listed found.now)))) }
{
    let mut spans = Vec::with_capacity(alloc, found.len())?;
    for place in 0..found.len() {
        let cell = &found.get(place)[wide..];
        if let Some(span) = picked_span(alloc, schema, cell, window)? {
            spans.push(span)?;
        }
    }
    Ok(spans)
}

/// The span of the cell, where it is picked. It is refused with 90, and with 94 where the cell says no event.
fn picked_span(
    alloc: Global,
    schema: &Schema,
    cell: &[u8],
    window: RouteWindow,
) -> Result<Option<Span>, Refusal>
    requires width { length cell.now ≡ event_width schema.now.items }
    ensures picks { IfOk result (PicksOne schema.now.items window cell.now) }
    ensures placed { IfOk result (λ found. IfSome found (λ span. IsPlaced window.kind (seen span))) }
    ensures row { IfOk result (λ found. IfSome found (λ span. IsRowOf schema.now.items (seen span).row)) }
    ensures refused { IfErr result (λ why. (why ≡ Refusal.OutOfMemory)
        ⊎ ((why ≡ Refusal.DamagedFile) × ((event : Event) → SaysEvent schema.now.items cell.now event → ⊥))) }
{
    if !sees(window.version, cell) {
        return Ok(None);
    }
    let span = span_of(alloc, schema, cell)?;
    if window.from < span.hi && is_placed(window.kind, span.lo, span.hi) {
        return Ok(Some(span));
    }
    Ok(None)
}

/// Whether a span of whatever row is placed as the kind asks.
pub(crate) fn is_placed(kind: Kind, lo: u32, hi: u32) -> bool
    ensures { (row : Row) → result ≡ is_placed kind (stretch lo hi row) }
{
    match kind {
        Kind::Line => lo < hi,
        Kind::Point => lo < hi && hi - lo == 1,
    }
}
