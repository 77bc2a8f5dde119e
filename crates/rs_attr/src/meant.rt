//! This module checks what the events of a part of a table mean: those that the accepted version sees lie on one route and are
//! maximal runs.
//!
//! Whether they are is asked of their rows as they lie in the cells, which are lent: in order of row and place, each span has to end
//! before the next of its row begins. Spans that lie one after another, or begin in turn with few over one another, are not sorted. So
//! a part takes 24 bytes for each of its events beside its cells.

ghost use Rattle.std.specs.Prelude.{◌≡◌, ◌⊎◌, ◌+◌, ◌++◌, ◌∷◌, ◌↔◌, ◌≤◌, [], List, IfErr, IfOk, IsPermutation, IsTrue, OnOk, drop, length, map, nat_le, take};
ghost use Rattle.std.specs.List.Sorted.{IsSortedBy};
ghost use Rattle.std.specs.Ordering.{is_lt};
ghost use Rattle.rs_attr.specs.Meant.{IsPlacedOn, SayMeant, SayPlaced, SayStretches, comes_before, lent_cmp, lies_before, stretch_of, stretches_of};
ghost use Rattle.rs_facts.specs.Runs.{Stretch, stretch};
ghost use Rattle.rs_facts.specs.Spans.{AreAllRunsOf, ArePlaced, IsPlaced, gap_of, places_of};
ghost use Rattle.rs_records.specs.Listed.{listed, record_width};
ghost use Rattle.rs_value.specs.Encoding.{row_width};
ghost use Rattle.rs_versioned.specs.Events.{event_width};
ghost use Rattle.rs_versioned.specs.Meant.{bound_of};

use crate::apart::lie_apart;
use crate::attr_index::FRONT_BYTES;
use crate::told::ToldTable;
use rs_cell_versions::sees;
use rs_records::Cells;
use rs_refusal::Refusal;
use rs_value::{Kind, Schema, compare_bytes, row_width};
use rs_versioned::RouteSpan;
use rs_versioned::event::{place_of, route_of, says_event};
use std::alloc::Global;
use std::cmp::Ordering;

/// The span of an event, with the bytes of its row where they lie.
#[derive(Clone, Copy, Default)]
pub(crate) struct RowStretch<'a> {
    pub(crate) row: &'a [u8],
    pub(crate) lo: u32,
    pub(crate) hi: u32,
}

/// Ok where each of the cells says an event of the table, and those that the accepted version sees are on this route, where there
/// is one, and are the maximal runs of their facts. It is refused with 90, and with 94 only where they are not.
pub(crate) fn check_events(
    alloc: Global,
    told: &ToldTable,
    route: Option<RouteSpan>,
    cells: &Cells,
) -> Result<(), Refusal>
    requires width { record_width cells.now ≡ event_width told.now.schema.items }
    ensures meant { OnOk result (SayMeant told.now route (listed cells.now)) }
    ensures refused { IfErr result (λ why. (why ≡ Refusal.OutOfMemory)
        ⊎ ((why ≡ Refusal.DamagedFile) × (SayMeant told.now route (listed cells.now) → ⊥))) }
{
    let mut stretches = placed_stretches(alloc, told, route, cells)?;
    if !are_runs(told.kind, &mut stretches) {
        return Err(Refusal::DamagedFile);
    }
    Ok(())
}

/// Whether the spans are the maximal runs of their facts. They may be in another order after that. Takes no memory.
fn are_runs(kind: Kind, stretches: &mut Vec<RowStretch<'_>>) -> bool
    requires { ArePlaced kind (map stretch_of stretches.old.items) }
    ensures { IsTrue result ↔ AreAllRunsOf kind (places_of (map stretch_of stretches.old.items)) (map stretch_of stretches.old.items) }
{
    if lie_in_turn(kind, stretches.as_slice()) {
        return true;
    }
    if lie_apart(kind, stretches.as_slice()) {
        return true;
    }
    sort_by_row(stretches);
    are_in_turn(kind, stretches.as_slice())
}

/// Whether each span lies before the next one: then they are maximal runs.
fn lie_in_turn(kind: Kind, stretches: &[RowStretch<'_>]) -> bool
    requires { ArePlaced kind (map stretch_of stretches.now) }
    ensures { IsTrue result → AreAllRunsOf kind (places_of (map stretch_of stretches.now)) (map stretch_of stretches.now) }
{
    stretches.is_sorted_by(|one, next| lies_before(kind, one, next))
}

/// Whether a span ends where another begins or before, and before it where their rows are equal.
fn lies_before(kind: Kind, one: &RowStretch<'_>, next: &RowStretch<'_>) -> bool
    ensures { result ≡ lies_before kind one.now next.now }
{
    match compare_bytes(one.row, next.row) {
        Ordering::Equal => is_past(kind, one.hi, next.lo),
        Ordering::Less | Ordering::Greater => one.hi <= next.lo,
    }
}

/// Sorts the spans by the bytes of their rows, and those of one row by place. Takes no memory.
fn sort_by_row(stretches: &mut Vec<RowStretch<'_>>)
    ensures moved { IsPermutation stretches.old.items stretches.new.items }
    ensures sorted { IsSortedBy (λ a b. is_lt (lent_cmp a b)) stretches.new.items }
{
    stretches.sort_unstable_by(|one, other| by_row(one, other));
}

/// Compares two spans by the bytes of their rows, and by place where these are equal.
fn by_row(one: &RowStretch<'_>, other: &RowStretch<'_>) -> Ordering
    ensures { result ≡ lent_cmp one.now other.now }
{
    compare_bytes(one.row, other.row).then(one.lo.cmp(&other.lo))
}

/// Whether each span comes before the next one, in the order of their rows' bytes, or apart from it where the rows are equal.
fn are_in_turn(kind: Kind, stretches: &[RowStretch<'_>]) -> bool
    requires placed { ArePlaced kind (map stretch_of stretches.now) }
    requires sorted { IsSortedBy (λ a b. is_lt (lent_cmp a b)) stretches.now }
    ensures { IsTrue result ↔ AreAllRunsOf kind (places_of (map stretch_of stretches.now)) (map stretch_of stretches.now) }
{
    stretches.is_sorted_by(|one, next| comes_before(kind, one, next))
}

/// Whether a span comes before another.
fn comes_before(kind: Kind, one: &RowStretch<'_>, next: &RowStretch<'_>) -> bool
    ensures { result ≡ comes_before kind one.now next.now }
{
    match compare_bytes(one.row, next.row) {
        Ordering::Less => true,
        Ordering::Equal => is_past(kind, one.hi, next.lo),
        Ordering::Greater => false,
    }
}

/// Whether a span that begins at `lo` is no run with an earlier one of its row that ends at `hi`.
pub(crate) fn is_past(kind: Kind, hi: u32, lo: u32) -> bool
    ensures { result ≡ nat_le (hi + gap_of kind) lo }
{
    match kind {
        Kind::Point => hi <= lo,
        Kind::Line => hi < lo,
    }
}

/// The spans of the events that the accepted version sees, in the order of their cells. It is refused with 90, and with 94 where a
/// cell says no event, or one that is seen does not lie on the route.
fn placed_stretches<'a>(
    alloc: Global,
    told: &ToldTable,
    route: Option<RouteSpan>,
    cells: &'a Cells,
) -> Result<Vec<RowStretch<'a>>, Refusal>
    requires width { record_width cells.now ≡ event_width told.now.schema.items }
    ensures placed { IfOk result (λ stretches. SayStretches told.now route (listed cells.now) (map stretch_of stretches.items)) }
    ensures refused { IfErr result (λ why. (why ≡ Refusal.OutOfMemory)
        ⊎ ((why ≡ Refusal.DamagedFile) × ((spans : List Stretch) → SayPlaced told.now route (listed cells.now) spans → ⊥))) }
{
    let mut stretches = Vec::new(alloc);
    for place in 0..cells.len() {
        if let Some(stretch) = placed_stretch(told, route, cells.get(place))? {
            stretches.push(stretch)?;
        }
    }
    Ok(stretches)
}

/// The span of the event that a cell says, where the accepted version sees it. It is refused with 94 where the cell says no event, or
/// one that is seen and does not lie on the route. Takes no memory.
fn placed_stretch<'a>(
    told: &ToldTable,
    route: Option<RouteSpan>,
    cell: &'a [u8],
) -> Result<Option<RowStretch<'a>>, Refusal>
    requires width { length cell.now ≡ event_width told.now.schema.items }
    ensures placed { IfOk result (λ stretch. SayStretches told.now route (cell.now ∷ []) (stretches_of stretch)) }
    ensures damaged { IfErr result (λ why. why ≡ Refusal.DamagedFile) }
    ensures refused { IfErr result (λ why. (spans : List Stretch) → SayPlaced told.now route (cell.now ∷ []) spans → ⊥) }
{
    if !says_event(&told.schema, cell) {
        return Err(Refusal::DamagedFile);
    }
    if !sees(told.records.accepted, cell) {
        return Ok(None);
    }
    let (lo, hi) = place_of(cell);
    if !lies_on(told.kind, route, route_of(cell), lo, hi) {
        return Err(Refusal::DamagedFile);
    }
    Ok(Some(RowStretch {
        row: row_bytes(&told.schema, cell),
        lo,
        hi,
    }))
}

/// The bytes of the row in the cell of an event.
fn row_bytes<'a>(schema: &Schema, cell: &'a [u8]) -> &'a [u8]
    requires width { length cell.now ≡ event_width schema.now.items }
    ensures { result.now ≡ take (row_width schema.now.items) (drop 8 cell.now) }
{
    let end = FRONT_BYTES + row_width(schema);
    &cell[FRONT_BYTES..end]
}

/// Whether the route has this number, and a span of this kind from `lo` up to `hi` lies within its ends.
fn lies_on(kind: Kind, route: Option<RouteSpan>, number: u32, lo: u32, hi: u32) -> bool
    ensures { IsTrue result ↔ IsPlacedOn kind route number (stretch lo hi []) }
{
    match route {
        Some(route) => {
            route.number == number && route.start <= lo && ends_on(kind, &route, lo, hi)
        }
        None => false,
    }
}

/// Whether a span is one of this kind and ends no later than it may on the route.
fn ends_on(kind: Kind, route: &RouteSpan, lo: u32, hi: u32) -> bool
    ensures { IsTrue result ↔ (IsPlaced kind (stretch lo hi []) × (hi ≤ bound_of kind route.now)) }
{
    match kind {
        Kind::Line => lo < hi && hi <= route.finish,
        Kind::Point => lo <= route.finish && lo < hi && hi - lo == 1,
    }
}
